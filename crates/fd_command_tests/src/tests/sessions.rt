//! Sessions over a store in memory.
use super::stores::{CREATED, EMPTY, ONE_FIELD};
use fd_cases::{CASE, Case, FIELD, Hold, Part, ROW, Row, first_wrong};
use fd_disk_mem::Op;

/// The table of the dataset of the scripts.
pub(super) const TABLE: &str = "class=od,expver=0001,date=20240101,time=0000/toc";

/// A session, whose script and messages come in its input.
pub(super) const SESSION: Row = row!(ROW, words: &["session", "s"]);

const FIRST: Part = Part::Field(&[]);

/// The field of the level 92500 in place of 100000.
pub(super) const UPPER: Part = Part::Field(&[(135, 0x69), (136, 0x54)]);

/// The first lines of a script of one lane, or of a first one, and the last line of a script.
const LANE: Part = Part::Text(
    "dataset class=od,expver=0001,date=20240101,time=0000\nlane a class=od,expver=0001\n",
);

const MESSAGES: Part = Part::Text("messages\n");

/// Its steps.
const PUT: Part = Part::Text("put 1\n");

const FLUSH: Part = Part::Text("flush\n");

/// Requests for the first message, and for both.
const GET: Part = Part::Text(
    "get retrieve,class=od,expver=0001,date=20240101,time=00,centre=98,type=1,levtype=100,param=0.0.0,step=0,levelist=100000\n",
);

const GET_BOTH: Part = Part::Text(
    "get retrieve,class=od,expver=0001,date=20240101,time=00,centre=98,type=1,levtype=100,param=0.0.0,step=0,levelist=100000/92500\n",
);

/// One lane, which gets a field before it lists it, and after.
const SCRIPT: &[Part] = &[LANE, PUT, GET, FLUSH, GET, MESSAGES, FIRST];

/// What it does.
const LISTED: Row =
    row!(SESSION, input: SCRIPT, output: FIELD, report: "before 0\nhistory a.1\na 1 put ok\na 2 get 0\nmiss\na 3 flush 1\na 4 get 1\nfound 183\n");

/// A lane that puts a second message.
const SECOND: &[Part] = &[LANE, Part::Text("put 2\n"), MESSAGES, FIRST];

const SEEING: &[Case] = &[case!(rows: &[
        row!(LISTED, output: &[], report: "refused SchemaMissing\n", status: 3),
        CREATED,
        row!(SESSION, input: &[Part::Text("flush\n")], report: "refused script 1 Dataset\n", status: 3),
        row!(SESSION, input: SECOND, report: "refused script 3 Message\n", status: 3),
        EMPTY,
        LISTED,
        ONE_FIELD,
    ])];

/// A lane sees what it has listed, and not before; what is refused founds no table.
#[test]
fn a_lane_sees_what_it_has_listed(rt: HostRuntime) {
    assert_eq!(rt; first_wrong(&rt, rt.alloc(), SEEING), None);
}

/// Two lanes that wait for one another.
const TWO: &[Part] = &[
    LANE,
    Part::Text(
        "put 1\nget retrieve,class=od,expver=0001,date=20240101,time=00,centre=98,type=1,levtype=100,param=0.0.0,step=0,levelist=92500\nflush\nlane b class=od,expver=0001\nput 2\nflush\n",
    ),
    GET_BOTH,
    MESSAGES,
    FIRST,
    UPPER,
];

/// The second lane begins after the first has put, and the first gets after the second has ended.
const BY_TURNS: Row =
    row!(SESSION, input: TWO, output: &[UPPER, UPPER], report: "before 0\nhistory b.1 a.1\na 1 put ok\na 2 get 1\nfound 183\na 3 flush 2\nb 1 put ok\nb 2 flush 1\nb 3 get 1\nmiss\nfound 183\n", holds: &[hold!(2, 1, 2), hold!(1, 2, 4)]);

/// A lane that lists two batches, and one that only reads.
const READ: &[Part] = &[
    LANE,
    Part::Text("put 1\nflush\nput 2\nflush\nlane r class=od,expver=0001\n"),
    GET_BOTH,
    GET_BOTH,
    GET_BOTH,
    MESSAGES,
    FIRST,
    UPPER,
];

/// The second lane gets before the first flush, between the two, and behind the second.
const READING: Row =
    row!(SESSION, input: READ, output: &[Part::Field(&[]), Part::Field(&[]), UPPER], report: "before 0\nhistory a.1 a.2\na 1 put ok\na 2 flush 1\na 3 put ok\na 4 flush 2\nr 1 get 0\nmiss\nmiss\nr 2 get 1\nfound 183\nmiss\nr 3 get 2\nfound 183\nfound 183\n", holds: &[hold!(1, 1, 2), hold!(2, 2, 3), hold!(1, 3, 3), hold!(2, 3, 5)]);

/// The lane of the script above, beside one without a step.
const IDLE: &[Part] = &[
    LANE,
    PUT,
    GET,
    FLUSH,
    GET,
    Part::Text("lane b class=od,expver=0001\n"),
    MESSAGES,
    FIRST,
    UPPER,
];

const LANES: &[Case] = &[
    case!(rows: &[CREATED, row!(LISTED, input: IDLE)]),
    case!(rows: &[CREATED, BY_TURNS]),
    case!(rows: &[CREATED, READING]),
];

/// Lanes that wait for one another see what the other has listed; one that only reads sees each batch once it is listed.
#[test]
fn lanes_see_what_is_listed(rt: HostRuntime) {
    assert_eq!(rt; first_wrong(&rt, rt.alloc(), LANES), None);
}

/// The first line of a script.
const DATASET: Part = Part::Text("dataset class=od,expver=0001,date=20240101,time=0000\n");

/// A message that has another key, and one that has none.
const OTHER: Part = Part::Field(&[(136, 0xA1)]);

const KEYLESS: Part = Part::Field(&[(117, 2)]);

const MISCAST: Row = row!(SESSION, status: 3);

const CASTING: &[Case] = &[Case {
    rows: &[
        row!(CREATED, input: &[Part::Text("[class=od/ei, expver, date, time [centre, type, levtype [param, step, levelist?]]]")]),
        row!(MISCAST, input: &[DATASET, Part::Text("lane a \nflush\nput 4\n"), MESSAGES, FIRST, OTHER, KEYLESS], report: "refused script 4 Message\n"),
        row!(MISCAST, input: &[DATASET, Part::Text("lane a class=od,expver=0001\nput 1\n\nput 3\nput 4\n"), MESSAGES, FIRST, OTHER, KEYLESS], report: "refused script 5 Key Product 2\n"),
        row!(MISCAST, input: &[DATASET, Part::Text("lane a expver=0001\nput 1\n"), MESSAGES, FIRST, OTHER, KEYLESS], report: "refused script 3 NoRule\n"),
        row!(MISCAST, input: &[DATASET, Part::Text("lane a class=od,expver=0002\nput 1\n"), MESSAGES, FIRST, OTHER, KEYLESS], report: "refused script 3 OtherDataset\n"),
        row!(MISCAST, input: &[DATASET, Part::Text("lane a class=od,expver=0001\nget retrieve,class=od/rd,expver=0002,date=20240101,time=00,centre=98,type=1,levtype=100,param=0.0.0,step=0\n"), MESSAGES, FIRST, OTHER, KEYLESS], report: "refused script 3 NoRule\n"),
        row!(MISCAST, input: &[DATASET, Part::Text("lane a class=od,expver=0001\nput 1\nget retrieve,class=od,expver=0001/0002,date=20240101,time=00,centre=98,type=1,levtype=100,param=0.0.0,step=0\nput 9\n"), MESSAGES, FIRST, OTHER, KEYLESS], report: "refused script 4 OtherDataset\n"),
        row!(MISCAST, input: &[DATASET, Part::Text("lane a class=od,expver=0001\nlane b class=od,expver=0002\nput 2\nlane c \nput 9\n"), MESSAGES, FIRST, OTHER, KEYLESS], report: "refused script 4 OtherDataset\n"),
        EMPTY,
        row!(SESSION, input: &[DATASET, Part::Text("lane a \n"), MESSAGES, FIRST, OTHER, KEYLESS], report: "before 0\nhistory\n"),
        row!(SESSION, input: &[DATASET, MESSAGES], report: "before 0\nhistory\n"),
        row!(SESSION, input: &[DATASET, Part::Text("lane a class=od,expver=0001\nput 1\nflush\nget retrieve,class=od,expver=0001,date=20240101,time=00,centre=98,type=1,levtype=100,param=0.0.0,step=0,levelist=1/2\nlane b class=od,expver=0001\nput 2\nput 1\n"), MESSAGES, FIRST, OTHER, KEYLESS], report: "before 0\nhistory a.1\na 1 put ok\na 2 flush 1\na 3 get 1\nmiss\nmiss\nb 1 put ok\nb 2 put ok\n"),
        row!(SESSION, input: &[DATASET, Part::Text("lane b class=od,expver=0001\nput 2\nput 1\nflush\n"), MESSAGES, FIRST, OTHER, KEYLESS], report: "before 1\nhistory b.1\nb 1 put ok\nb 2 put ok\nb 3 flush 2\n"),
        row!(ROW, words: &["list", "s"], input: &[Part::Text("list,param=0.0.0")], output: &[Part::Text("class=od,expver=0001,date=20240101,time=0000 centre=98,type=1,levtype=100 param=0.0.0,step=0,levelist=100000 183 2\nclass=od,expver=0001,date=20240101,time=0000 centre=98,type=1,levtype=100 param=0.0.0,step=0,levelist=100001 183 2\n")]),
    ],
    ..CASE
}];

/// A script is refused at its first line that can't be done, and founds no table; else its puts go to their places.
#[test]
fn scripts_are_refused_at_their_first_line_that_fails(rt: HostRuntime) {
    assert_eq!(rt; first_wrong(&rt, rt.alloc(), CASTING), None);
}

/// The same lane over a table whose listing fails.
const UNLISTED: Row =
    row!(LISTED, output: &[], report: "before 0\nhistory\na 1 put ok\na 2 get 0\nmiss\na 3 flush fault\na 4 get 0\nmiss\ndisk failed\n", status: 6);

/// One lane that flushes again where its first flush has failed.
const AGAIN: &[Part] = &[
    LANE,
    PUT,
    GET,
    Part::Text("flush\nflush\n"),
    GET,
    MESSAGES,
    FIRST,
];

/// What it does where the sync of the entry's body fails.
const RELISTED: Row =
    row!(SESSION, input: AGAIN, output: FIELD, report: "before 0\nhistory a.1\na 1 put ok\na 2 get 0\nmiss\na 3 flush fault\na 4 flush 1\na 5 get 1\nfound 183\ndisk failed\n", status: 6);

const FAILING: &[Case] = &[
    case!(fails: Some((TABLE, Op::Sync, 3)), rows: &[CREATED, UNLISTED]),
    case!(fails: Some((TABLE, Op::Sync, 2)), rows: &[CREATED, RELISTED]),
];

/// After a fault a lane goes on with its next step, and what it has pending is listed by its next flush.
#[test]
fn a_lane_goes_on_after_a_fault(rt: HostRuntime) {
    assert_eq!(rt; first_wrong(&rt, rt.alloc(), FAILING), None);
}
