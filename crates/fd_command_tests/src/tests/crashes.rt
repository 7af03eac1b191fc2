//! What a crash leaves of sessions in which a sync of the table failed: the third, that of the first gate.
use super::sessions::{SESSION, TABLE, UPPER};
use super::stores::{CREATED, LISTED};
use fd_cases::{CASE, Case, Event, Hold, Part, Row, first_wrong};
use fd_disk_mem::Op;

/// Two lanes, of which the first lists its batch by its second flush, behind that of the other.
const TWO: Row = Row {
    input: &[
        Part::Text(
            "dataset class=od,expver=0001,date=20240101,time=0000
lane a class=od,expver=0001
put 1
flush
flush
lane b class=od,expver=0001
put 2
flush
messages
",
        ),
        Part::Field(&[]),
        UPPER,
    ],
    report: "before 0
history b.1 a.1
a 1 put ok
a 2 flush fault
a 3 flush 2
b 1 put ok
b 2 flush 1
disk failed
",
    status: 6,
    // The second lane begins when the first asks for its third step, and that one waits until the second is at its end.
    holds: &[hold!(2, 1, 3), hold!(1, 3, 3)],
    ..SESSION
};

/// A store over which the two lanes have run, and which lists both batches after a crash.
const BOTH: Case =
    case!(fails: Some((TABLE, Op::Sync, 3)), rows: &[CREATED, TWO], after: &[row!(LISTED, output: &[Part::Text("class=od,expver=0001,date=20240101,time=0000 centre=98,type=1,levtype=100 param=0.0.0,step=0,levelist=100000 183 2\nclass=od,expver=0001,date=20240101,time=0000 centre=98,type=1,levtype=100 param=0.0.0,step=0,levelist=92500 183 1\n")])]);

const LISTED_LATE: &[Case] = crashed!(BOTH, BOTH, BOTH, BOTH);

/// Both batches stand after each crash, in the order in which they were listed.
#[test]
fn a_batch_listed_after_a_fault_stands(rt: HostRuntime) {
    assert_eq!(rt; first_wrong(&rt, rt.alloc(), LISTED_LATE), None);
}

/// A lane whose flush fails at the gate, and who makes no other.
const ONCE: Row =
    row!(SESSION, input: &[Part::Text("dataset class=od,expver=0001,date=20240101,time=0000\nlane a class=od,expver=0001\nput 1\nflush\nmessages\n"), Part::Field(&[])], report: "before 0\nhistory\na 1 put ok\na 2 flush fault\ndisk failed\n", status: 6);

/// A store over which the lane has run, and which lists no batch after a crash.
const ABSENT: Case =
    case!(fails: Some((TABLE, Op::Sync, 3)), rows: &[CREATED, ONCE], after: &[row!(LISTED, output: &[])]);

/// The same, where it lists the batch.
const WHOLE: Case = case_of!(ABSENT, after: &[LISTED]);

const IN_DOUBT: &[Case] = crashed!(ABSENT, WHOLE, WHOLE, ABSENT);

/// A crash leaves a batch in doubt whole or not at all, as it leaves the gate.
#[test]
fn a_batch_in_doubt_is_whole_or_absent(rt: HostRuntime) {
    assert_eq!(rt; first_wrong(&rt, rt.alloc(), IN_DOUBT), None);
}
