//! Fields that share a message: `split` writes each as a message of its own, and `archive` stores it so.
use super::stores::{ARCHIVED, CREATED, EMPTY, RETRIEVED};
use fd_cases::{CASE, Case, FIELD, Part, ROW, Row, first_wrong};

const SPLIT: &[&str] = &["split"];

/// Sections 4 to 7 of the second generated message: the surface 92500 Pa, and other values.
const ROUND: Part = Part::Octets(ROUND_OCTETS);

const ROUND_OCTETS: &[u8] = &[
    0, 0, 0, 34, 4, 0, 0, 0, 0, 0, 0, 2, 0, 0, 0, 0, 0, 1, 0, 0, 0, 0, 100, 0, 0, 1, 105, 84, 255,
    255, 255, 255, 255, 255, 0, 0, 0, 21, 5, 0, 0, 0, 4, 0, 0, 67, 250, 0, 0, 128, 1, 0, 1, 8, 0,
    0, 0, 0, 6, 6, 255, 0, 0, 0, 9, 7, 10, 23, 36, 49,
];

/// A bit map of four points, and the values of the one field.
const MAP_AND_VALUES: Part = Part::Octets(&[0, 0, 0, 7, 6, 0, 0xF0, 0, 0, 0, 9, 7, 3, 16, 29, 42]);

/// The same map, and the values of the second generated message.
const MAP_AND_OTHER_VALUES: Part = Part::Octets(&[
    0, 0, 0, 7, 6, 0, 0xF0, 0, 0, 0, 9, 7, 10, 23, 36, 49,
]);

/// A message of two fields up to the end of the first, and the end of a message.
const OF_TWO: Part = Part::Front(179, &[(15, 253)]);

const END: Part = Part::Text("7777");

/// The first two generated messages as two fields of one message.
const BOTH: &[Part] = &[OF_TWO, ROUND, END];

/// The same, where the second field has the bit map of the first, which has none.
const UNMAPPED: &[Part] = &[OF_TWO, ROUND, Part::At(239, 254), END];

/// The same, where the first has a bit map.
const MAPPED: &[Part] = &[
    Part::Front(164, &[(15, 254)]),
    MAP_AND_VALUES,
    ROUND,
    Part::At(240, 254),
    END,
];

/// Its fields, each as a message with the map.
const TWO_MAPPED: &[Part] = &[
    Part::Front(164, &[(15, 184)]),
    MAP_AND_VALUES,
    END,
    Part::Generated(1, 2),
    Part::At(199, 184),
    Part::Length(348),
    MAP_AND_OTHER_VALUES,
    END,
];

const TWO: &[Part] = &[Part::Generated(0, 2)];

const PARTING: Case = Case {
    rows: &[
        row!(ROW, words: SPLIT, input: BOTH, output: TWO, report: "split 2 junk 0\n"),
        row!(ROW, words: SPLIT, input: TWO, output: TWO, report: "split 2 junk 0\n"),
        row!(ROW, words: SPLIT, input: MAPPED, output: TWO_MAPPED, report: "split 2 junk 0\n"),
        row!(ROW, words: &["values"], input: TWO_MAPPED, output: &[Part::Text("1 0 1003*2^-1*10^-1\n1 1 1016*2^-1*10^-1\n1 2 1029*2^-1*10^-1\n1 3 1042*2^-1*10^-1\n2 0 1010*2^-1*10^-1\n2 1 1023*2^-1*10^-1\n2 2 1036*2^-1*10^-1\n2 3 1049*2^-1*10^-1\n")]),
        row!(ROW, words: SPLIT, input: &[Part::Text("0123456789ab"), Part::Field(&[]), Part::Text("GRI")], output: FIELD, report: "split 1 junk 15\n"),
        row!(ROW, words: SPLIT, report: "split 0 junk 0\n"),
    ],
    ..CASE
};

const IN_PIECES: &[Case] = &[
    case_of!(PARTING, piece: 1),
    case_of!(PARTING, piece: 200),
    case!(piece: 65_536, rows: &[row!(ROW, words: SPLIT, input: &[Part::Generated(0, 400)], output: &[Part::Generated(0, 400)], report: "split 400 junk 0\n")]),
];

#[test]
fn splits(rt: HostRuntime) {
    assert_eq!(rt; first_wrong(&rt, rt.alloc(), IN_PIECES), None);
}

const REFUSING: &[Case] = &[Case {
    piece: 7,
    rows: &[
        row!(ROW, words: SPLIT, input: UNMAPPED, report: "refused message 1 NoMap 2\n", status: 3),
        row!(ROW, words: SPLIT, input: &[Part::Generated(0, 2), OF_TWO, ROUND, Part::At(366 + 239, 254), END], output: TWO, report: "refused message 3 NoMap 2\n", status: 3),
        row!(ROW, words: SPLIT, input: &[OF_TWO, ROUND, Part::Text("777")], report: "refused message 1 Truncated 252 253\n", status: 3),
        row!(ROW, words: SPLIT, input: &[OF_TWO, ROUND, Part::Text("7778")], report: "refused message 1 NoEnd 249\n", status: 3),
        row!(ROW, words: SPLIT, input: &[Part::Field(&[]), Part::Field(&[(15, 5)])], output: FIELD, report: "refused message 2 Short 0 5\n", status: 3),
        row!(ROW, words: SPLIT, input: &[Part::Field(&[(12, 8)])], report: "limit TooLong 134217911\n", status: 9),
        row!(ROW, words: &["describe"], input: BOTH, report: "refused message 1 MultiField 4\n", status: 3),
        row!(ROW, words: &["pick", "step=0"], input: BOTH, report: "refused message 1 MultiField 4\n", status: 3),
        row!(ROW, words: SPLIT, input: BOTH, output: FIELD, report: "output failed\n", status: 5, writes: &[2]),
        row!(ROW, words: SPLIT, input: BOTH, output: TWO, status: 5, tellings: &[1]),
        row!(ROW, words: SPLIT, input: BOTH, report: "input failed\n", status: 4, reads: &[2]),
    ],
    ..CASE
}];

#[test]
fn refuses_messages(rt: HostRuntime) {
    assert_eq!(rt; first_wrong(&rt, rt.alloc(), REFUSING), None);
}

/// Both fields, from a store that has them.
const BOTH_FOUND: Row =
    row!(RETRIEVED, input: &[Part::Text("retrieve,class=od,expver=0001,date=20240101,time=00,centre=98,type=1,levtype=100,param=0.0.0,step=0,levelist=100000/92500")], output: TWO, report: "found 2 missed 0\n");

const STORING: Case = case!(rows: &[
        CREATED,
        row!(ARCHIVED, input: BOTH, report: "archived 2 datasets 1 junk 0\n"),
        BOTH_FOUND,
        row!(ARCHIVED, words: &["archive", "s", "--with=class=od,expver=0001", "--workers=4"], input: &[Part::Text("0123456789ab"), OF_TWO, ROUND, Part::Text("7777GRI")], report: "archived 2 datasets 1 junk 15\n"),
        BOTH_FOUND,
    ]);

const STORED: &[Case] = &[
    case_of!(STORING, piece: 1),
    case_of!(STORING, piece: 200),
    case!(piece: 65_536, rows: &[CREATED, row!(ARCHIVED, input: MAPPED, report: "archived 2 datasets 1 junk 0\n"), row!(BOTH_FOUND, output: TWO_MAPPED)]),
];

#[test]
fn stores_fields(rt: HostRuntime) {
    assert_eq!(rt; first_wrong(&rt, rt.alloc(), STORED), None);
}

/// A message of 1,501 fields up to the end of the first.
const OF_MANY: Part = Part::Front(179, &[(13, 1), (14, 0x9A), (15, 0xDF)]);

/// A message of more fields than are read at once: the first generated message, and the second one 1,500 times.
const MANY: &[Part] = &[OF_MANY, Part::Repeated(ROUND_OCTETS, 1500), END];

const STORED_IN_PARTS: &[Case] = &[Case {
    piece: 65_536,
    size: 1_048_576,
    calls: 16_384,
    rows: &[
        CREATED,
        row!(ARCHIVED, words: &["archive", "s", "--with=class=od,expver=0001", "--workers=4"], input: &[OF_MANY, Part::Repeated(ROUND_OCTETS, 1500), END, Part::Generated(2, 3)], report: "archived 1502 datasets 1 junk 0\n"),
        BOTH_FOUND,
        row!(ARCHIVED, input: MANY, report: "archived 1501 datasets 1 junk 0\n"),
        BOTH_FOUND,
    ],
    ..CASE
}];

/// What isn't read at once of a message comes with what is read next.
#[test]
fn stores_many_fields(rt: HostRuntime) {
    assert_eq!(rt; first_wrong(&rt, rt.alloc(), STORED_IN_PARTS), None);
}

const REFUSED_FIELDS: &[Case] = &[
    // No field of a message that is refused as a whole is stored, but those of the messages before it.
    Case {
        piece: 7,
        rows: &[
            CREATED,
            row!(ARCHIVED, input: &[Part::Generated(1, 2), OF_TWO, ROUND, Part::At(183 + 239, 254), END], report: "refused message 2 NoMap 2\n", status: 3),
            row!(BOTH_FOUND, output: &[Part::Generated(1, 2)], report: "miss class=od,expver=0001,date=20240101,time=0000,centre=98,type=1,levtype=100,param=0.0.0,step=0,levelist=100000\nfound 1 missed 1\n", status: 1),
        ],
        ..CASE
    },
    // The fields before one that has no key are stored, also those of the same message.
    Case {
        piece: 7,
        rows: &[
            CREATED,
            row!(ARCHIVED, input: &[Part::Generated(2, 3), OF_TWO, ROUND, Part::At(183 + 187, 2), END], report: "refused key 2 Product 2\n", status: 3),
            RETRIEVED,
            row!(BOTH_FOUND, output: FIELD, report: "miss class=od,expver=0001,date=20240101,time=0000,centre=98,type=1,levtype=100,param=0.0.0,step=0,levelist=92500\nfound 1 missed 1\n", status: 1),
        ],
        ..CASE
    },
    // A message that has no end, or ends inside the input, gives none.
    case!(piece: 7, rows: &[
        CREATED,
        row!(ARCHIVED, input: &[OF_TWO, ROUND, Part::Text("7778")], report: "refused message 1 NoEnd 249\n", status: 3),
        row!(ARCHIVED, input: &[OF_TWO, ROUND, Part::Text("777")], report: "refused message 1 Truncated 252 253\n", status: 3),
        EMPTY,
    ]),
];

#[test]
fn refuses_fields(rt: HostRuntime) {
    assert_eq!(rt; first_wrong(&rt, rt.alloc(), REFUSED_FIELDS), None);
}
