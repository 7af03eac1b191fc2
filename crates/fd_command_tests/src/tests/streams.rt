//! The commands that need no store.
use fd_cases::{CASE, Case, FIELD, NEWER, Part, ROW, Row, first_wrong};

const GENERATE: &[&str] = &["generate", "1"];

const UNREAD: &[Part] = &[Part::Text("unread")];

const GENERATING: &[Case] = &[
    case!(piece: 7, rows: &[row!(ROW, words: GENERATE, input: UNREAD, output: FIELD), row!(ROW, words: GENERATE, input: UNREAD, report: "output failed\n", status: 5, writes: &[1])]),
];

#[test]
fn generates(rt: HostRuntime) {
    assert_eq!(rt; first_wrong(&rt, rt.alloc(), GENERATING), None);
}

/// Two fields of step 0, and one of step 6, between other octets.
const THREE: &[Part] = &[
    Part::Text("junk"),
    Part::Field(&[]),
    Part::Field(&[(178, 43)]),
    Part::Field(&[(130, 6)]),
    Part::Text("GRI"),
];

const PICK: Case = case!(rows: &[
        row!(ROW, words: &["pick", "step=0"], input: THREE, output: NEWER, report: "found 1 missed 0\n"),
        row!(ROW, words: &["pick", "STEP=0m", "centre=098"], input: THREE, output: NEWER, report: "found 1 missed 0\n"),
        row!(ROW, words: &["pick", "step=12"], input: THREE, report: "found 0 missed 1\n", status: 1),
    ]);

const PICKING: &[Case] = &[
    case_of!(PICK, piece: 1),
    case_of!(PICK, piece: 200),
    case_of!(PICK, piece: 65_536),
];

#[test]
fn picks(rt: HostRuntime) {
    assert_eq!(rt; first_wrong(&rt, rt.alloc(), PICKING), None);
}

/// Words that are no command.
const NO_COMMAND: Row =
    row!(ROW, input: FIELD, report: "usage: fdb pick describe values generate create archive retrieve list axes stats session trial purge wipe cubes split\n", status: 2);

const REFUSING_WORDS: &[Case] = &[case!(piece: 7, rows: &[
        row!(NO_COMMAND, words: &["pick"]),
        NO_COMMAND,
        row!(NO_COMMAND, words: &["pick", "step=0", "STEP=0"]),
        row!(NO_COMMAND, words: &["values", "--decimals=1", "--decimals=1"]),
        row!(NO_COMMAND, words: &["create", "s", "t"]),
        row!(NO_COMMAND, words: &["stats"]),
    ])];

#[test]
fn refuses_words(rt: HostRuntime) {
    assert_eq!(rt; first_wrong(&rt, rt.alloc(), REFUSING_WORDS), None);
}

const STEP: &[&str] = &["pick", "step=0"];

const REFUSING_INPUT: &[Case] = &[Case {
    piece: 7,
    rows: &[
        row!(ROW, words: STEP, input: &[Part::Field(&[]), Part::Field(&[(117, 2)])], report: "refused key 2 Product 2\n", status: 3),
        row!(ROW, words: STEP, input: &[Part::Field(&[]), Part::Length(175)], report: "refused message 1 Truncated 175 183\n", status: 3),
        row!(ROW, words: STEP, input: &[Part::Field(&[(41, 4)])], report: "refused message 1 Section 3 4\n", status: 3),
        row!(ROW, words: STEP, input: &[Part::Field(&[(15, 5)])], report: "refused message 1 Short 0 5\n", status: 3),
        row!(ROW, words: STEP, input: &[Part::Field(&[(12, 8)])], report: "limit TooLong 134217911\n", status: 9),
    ],
    ..CASE
}];

#[test]
fn refuses_input(rt: HostRuntime) {
    assert_eq!(rt; first_wrong(&rt, rt.alloc(), REFUSING_INPUT), None);
}

const MEETING_FAULTS: &[Case] = &[case!(rows: &[
        row!(ROW, words: STEP, input: FIELD, report: "input failed\n", status: 4, reads: &[2]),
        row!(ROW, words: STEP, input: FIELD, report: "output failed\n", status: 5, writes: &[1]),
        row!(ROW, words: STEP, input: FIELD, output: FIELD, status: 5, tellings: &[1]),
    ])];

#[test]
fn meets_faults(rt: HostRuntime) {
    assert_eq!(rt; first_wrong(&rt, rt.alloc(), MEETING_FAULTS), None);
}

const DESCRIBE: &[&str] = &["describe"];

const VALUES: &[&str] = &["values"];

const DESCRIBED: &[Part] = &[Part::Text(fd_rows::DESCRIBED)];

const KEYLESS: &[Part] = &[Part::Text(
    "message 1 length 183
ident 98 0 2 0 1 2024 1 1 0 0 0 0 1
grid 0 points 4 6 - - - - - - 2 2 0 - 10000000 0 48 0 10000000 10000000 10000000 0
product 2 unread
packing 0 coded 4 reference 1140457472 binary -1 decimal 1 bits 8 original 0
map 255
key refused Product 2
",
)];

const EXACT: &[Part] = &[Part::Text(
    "1 0 1003*2^-1*10^-1
1 1 1016*2^-1*10^-1
1 2 1029*2^-1*10^-1
1 3 1042*2^-1*10^-1
",
)];

const ROUNDED: &[Part] = &[Part::Text(
    "1 0 50.2
1 1 50.8
1 2 51.4
1 3 52.1
",
)];

const BEHIND_JUNK: &[Part] = &[Part::Text("junk"), Part::Field(&[])];

const LIST: Case = Case {
    rows: &[
        row!(ROW, words: DESCRIBE, input: BEHIND_JUNK, output: DESCRIBED),
        row!(ROW, words: DESCRIBE, input: &[Part::Text("junk")]),
        row!(ROW, words: VALUES, input: BEHIND_JUNK, output: EXACT),
        row!(ROW, words: &["values", "--decimals", "1"], input: BEHIND_JUNK, output: ROUNDED),
        row!(ROW, words: &["values", "--decimals=01"], input: BEHIND_JUNK, output: ROUNDED),
        row!(ROW, words: DESCRIBE, input: &[Part::Field(&[(117, 2)])], output: KEYLESS),
    ],
    ..CASE
};

const LISTING: &[Case] = &[case_of!(LIST, piece: 1), case_of!(LIST, piece: 200)];

#[test]
fn lists(rt: HostRuntime) {
    assert_eq!(rt; first_wrong(&rt, rt.alloc(), LISTING), None);
}

/// The field, and one of a packing that isn't read.
const UNREADABLE: &[Part] = &[Part::Field(&[]), Part::Field(&[(153, 40)])];

const STOPPING: &[Case] = &[Case {
    piece: 183,
    rows: &[
        row!(ROW, words: VALUES, input: UNREADABLE, output: EXACT, report: "refused field 2 Template 40\n", status: 3),
        row!(ROW, words: VALUES, input: UNREADABLE, output: EXACT, report: "input failed\n", status: 4, reads: &[2]),
        row!(ROW, words: VALUES, input: UNREADABLE, report: "output failed\n", status: 5, writes: &[1]),
        row!(ROW, words: DESCRIBE, input: UNREADABLE, output: DESCRIBED, report: "output failed\n", status: 5, writes: &[2]),
    ],
    ..CASE
}];

/// What was listed before a message that is refused, or before a fault, stands.
#[test]
fn stops_listing(rt: HostRuntime) {
    assert_eq!(rt; first_wrong(&rt, rt.alloc(), STOPPING), None);
}
