//! Archives of so many messages that batches are filled, that reading goes on while others are stored, and with a message
//! that is longer than what is read at once.
use super::stores::CREATED;
use fd_cases::{CASE, Case, Hold, Part, ROW, Row, first_wrong};

/// A schema by which the generated messages of all days are of one dataset.
const BY_CENTRE: Row =
    row!(CREATED, input: &[Part::Text("[class, expver, centre [type, levtype [date, time, param, step, levelist?]]]")]);

/// A message of 100,000 octets, of another centre.
const LONG: Part = Part::Field(&[
    (13, 1),
    (14, 0x86),
    (15, 0xA0),
    (22, 99),
    (171, 1),
    (172, 0x85),
    (173, 0xF2),
]);

/// It, and 9,000 generated messages behind it.
const MANY: &[Part] = &[
    LONG,
    Part::Length(179),
    Part::Length(99_996),
    Part::Text("7777"),
    Part::Generated(0, 9000),
];

/// The eighth round of the first and of the second worker waits until both have come so far; and that of the third and the 26th read of
/// the input, before which came more than is read ahead, wait for one another.
const MEETING: &[Hold] = &[
    hold!(1, 8, 8),
    hold!(2, 8, 8),
    hold!(3, 8, 26),
    hold!(0, 26, 8),
];

const STORED: Row =
    row!(ROW, words: &["archive", "s", "--with=class=od,expver=0001"], input: MANY, report: "archived 9001 datasets 2 junk 0\n");

/// A request of the long message, and one of the last ones of the others.
const FOUND: Row =
    row!(ROW, words: &["retrieve", "s", "--workers=4"], input: &[Part::Text("retrieve,class=od,expver=0001,centre=99,date=20240101,time=00,type=1,levtype=100,param=0.0.0,step=0,levelist=100000")], output: &[LONG, Part::Length(179), Part::Length(99_996), Part::Text("7777")], report: "found 1 missed 0\n");

/// The batches of both datasets, of which one worker fills five.
const BY_ONE: Row =
    row!(ROW, words: &["stats", "s"], output: &[Part::Text("class=od,expver=0001,centre=98 entries 6 fields 9000 keys 9000 bytes 1935000\nclass=od,expver=0001,centre=99 entries 1 fields 1 keys 1 bytes 100032\n")]);

/// The batches where four workers have a share each, and fill one.
const BY_FOUR: Row =
    row!(BY_ONE, output: &[Part::Text("class=od,expver=0001,centre=98 entries 8 fields 9000 keys 9000 bytes 1935000\nclass=od,expver=0001,centre=99 entries 1 fields 1 keys 1 bytes 100032\n")]);

/// The same messages, and behind them one that has no key.
const REFUSED: Row =
    row!(STORED, input: &[LONG, Part::Length(179), Part::Length(99_996), Part::Text("7777"), Part::Generated(0, 9000), Part::Field(&[(117, 2)])], report: "refused key 9002 Product 2\n", status: 3);

const LARGE: Case = case!(piece: 65_536, size: 1_048_576, calls: 65_536);

const WORKERS: &[&str] = &["archive", "s", "--with=class=od,expver=0001", "--workers=4"];

const ARCHIVING: &[Case] = &[
    case_of!(LARGE, rows: &[BY_CENTRE, STORED, BY_ONE, FOUND]),
    case_of!(LARGE, rows: &[BY_CENTRE, row!(STORED, words: WORKERS, holds: MEETING), BY_FOUR, FOUND]),
    case_of!(LARGE, rows: &[BY_CENTRE, row!(REFUSED, words: WORKERS), BY_FOUR, FOUND]),
];

/// One worker and four store 9,001 messages of two datasets, of which one is long, also in front of one that is refused.
#[test]
fn stores_many(rt: HostRuntime) {
    assert_eq!(rt; first_wrong(&rt, rt.alloc(), ARCHIVING), None);
}

/// The front of a message of 1,048,576 octets.
const LONGEST: Part = Part::Field(&[(13, 0x10), (15, 0), (171, 0x0F), (172, 0xFF), (173, 0x52)]);

const LONGEST_REST: Part = Part::Repeated(&[0], 1_048_389);

/// The front of another of step 6.
const LAST_LONG: Part = Part::Field(&[
    (13, 1),
    (14, 0x86),
    (15, 0xA0),
    (22, 99),
    (130, 6),
    (171, 1),
    (172, 0x85),
    (173, 0xF2),
]);

const LONG_REST: Part = Part::Repeated(&[0], 99_813);

const END: Part = Part::Text("7777");

/// The first round of the third worker, and the first read behind the longest messages, wait for one another.
const BEGINNING: &[Hold] = &[hold!(3, 1, 145), hold!(0, 145, 1)];

const LENGTHY: &[Case] = &[Case {
    size: 16_777_216,
    rows: &[
        BY_CENTRE,
        // Nine of the longest, of one key, of which the last eight are as many octets as are read ahead; then two of the other
        // dataset, before the last of which the longest are stored, so that their buffers are kept.
        row!(STORED, words: WORKERS, input: &[LONGEST, LONGEST_REST, END, LONGEST, LONGEST_REST, END, LONGEST, LONGEST_REST, END, LONGEST, LONGEST_REST, END, LONGEST, LONGEST_REST, END, LONGEST, LONGEST_REST, END, LONGEST, LONGEST_REST, END, LONGEST, LONGEST_REST, END, LONGEST, LONGEST_REST, END, LONG, LONG_REST, END, LAST_LONG, LONG_REST, END], report: "archived 11 datasets 2 junk 0\n", holds: BEGINNING),
        row!(BY_ONE, output: &[Part::Text("class=od,expver=0001,centre=98 entries 1 fields 1 keys 1 bytes 9437472\nclass=od,expver=0001,centre=99 entries 2 fields 2 keys 2 bytes 200064\n")]),
        row!(FOUND, input: &[Part::Text("retrieve,class=od,expver=0001,centre=99,date=20240101,time=00,type=1,levtype=100,param=0.0.0,step=6,levelist=100000")], output: &[LAST_LONG, LONG_REST, END]),
    ],
    ..LARGE
}];

/// Few messages are stored while the input is read on where they are long.
#[test]
fn stores_long_ones(rt: HostRuntime) {
    assert_eq!(rt; first_wrong(&rt, rt.alloc(), LENGTHY), None);
}
