//! Scripts that are read, and lines that are refused.
use fd_rows::{agreed, is, of_lines};
use fd_script::*;
use std::alloc::Global;

/// A step in a letter and a number: the message of a put, the keys of a get.
fn told(step: &Step) -> (char, u32) {
    match step {
        Step::Put(number) => ('p', *number),
        Step::Flush => ('f', 0),
        Step::Get(request) => ('g', request.count()),
    }
}

/// Tells that a lane has this name, so many pairs, and these steps in these lines.
fn is_lane(lane: &Lane, name: &str, pairs: u32, steps: &[(char, u32, u32)]) -> bool {
    if lane.steps.len() != steps.len() {
        return false;
    }
    let read = lane.steps.as_slice().iter().zip(lane.lines.as_slice());
    for ((step, line), (letter, number, want)) in read.zip(steps) {
        if told(step) != (*letter, *number) || *line != *want {
            return false;
        }
    }
    lane.name.as_str() == name && lane.given.len() == pairs
}

const TWO_LANES: &str =
    "# two lanes\n\ndataset class=od,expver=0001\nlane a class=OD\nput 1\nflush\nget retrieve,step=0/to/12\nlane b2 \n#\nput 010\nmessages\nGRIB";

/// Tells that the script has these two lanes.
fn has_two_lanes(script: &Script) -> bool {
    match script.lanes() {
        [a, b] => {
            script.dataset() == "class=od,expver=0001"
                && is_lane(a, "a", 1, &[('p', 1, 5), ('f', 0, 6), ('g', 13, 7)])
                && is_lane(b, "b2", 0, &[('p', 10, 10)])
        }
        _ => false,
    }
}

/// Tells that the two lanes are read, and that the script ends at this place.
fn reads_two_lanes(alloc: Global) -> bool {
    match Script::read(alloc, TWO_LANES.as_bytes()) {
        Ok((script, place)) => place == 124 && has_two_lanes(&script),
        Err(_) => false,
    }
}

/// Tells that a script without lanes is read, and that it ends at this place.
fn reads_no_lanes(alloc: Global) -> bool {
    match Script::read(alloc, b"dataset a=1\nmessages\n") {
        Ok((script, place)) => place == 21 && script.lanes().is_empty(),
        Err(_) => false,
    }
}

#[test]
fn scripts_and_their_ends(rt: HostRuntime) {
    assert!(rt; reads_two_lanes(rt.alloc()) && reads_no_lanes(rt.alloc()));
}

/// Tells that a text is refused with this fault.
fn is_refused(alloc: Global, text: &[u8], want: &str) -> bool {
    let Err(fault) = Script::read(alloc, text) else {
        return false;
    };
    is(format!(in alloc; "{fault:?}"), want)
}

/// The same of a row of a table.
fn is_row(alloc: Global, text: &str, want: &str) -> bool {
    of_lines(alloc, text, want, is_refused)
}

/// Texts, and their first faults.
const REFUSED: &str = "\
|At { line: 1, kind: End }\n\
dataset a=1~lane a ~messages|At { line: 3, kind: End }\n\
dataset a=1~lane a ~\u{e9}|At { line: 3, kind: Byte(195) }\n\
#\u{e9}~dataset a=1~|At { line: 1, kind: Byte(195) }\n\
~messages~|At { line: 2, kind: Dataset }\n\
dataset time=12~messages~|At { line: 1, kind: Dataset }\n\
dataset a=1,~messages~|At { line: 1, kind: Dataset }\n\
dataset a=1~dataset a=1~|At { line: 2, kind: Word }\n\
dataset a=1~put x~|At { line: 2, kind: Word }\n\
dataset a=1~lane a~|At { line: 2, kind: Word }\n\
dataset a=1~lane a ~lane a ~|At { line: 3, kind: Name }\n\
dataset a=1~lane A x~|At { line: 2, kind: Name }\n\
dataset a=1~lane a b=1,b=2~|At { line: 2, kind: Given(Twice(\"b\")) }\n\
dataset a=1~lane a ~get retrieve,a~|At { line: 3, kind: Request(At { at: 10, kind: Pair }) }\n\
dataset a=1~lane a ~put 0~|At { line: 3, kind: Number }\n\
dataset a=1~lane a ~put 1234567890~|At { line: 3, kind: Number }\n\
dataset a=1~lane 1 ~lane 2 ~lane 3 ~lane 4 ~lane 5 ~lane 6 ~lane 7 ~lane 8 ~lane 9 ~|At { line: 10, kind: TooMany { count: 9 } }\n";

#[test]
fn first_faults_of_scripts(rt: HostRuntime) {
    assert_eq!(rt; agreed(rt.alloc(), REFUSED, is_row), 17);
}
