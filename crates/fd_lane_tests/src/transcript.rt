//! A transcript as text.
use fd_bytes::{Bytes, Items};
use fd_core::Answer;
use fd_io::{MemSink, Sink};
use fd_lanes::{Answers, End, Ends, Transcript};
use fd_script::Script;
use fd_transcript::{tell_transcript, write_found};
use std::alloc::Global;

const SCRIPT: &str = "dataset a=1
lane a 
put 1
flush
flush
put 2
get retrieve,step=0/1
lane b2 
flush
put 3
get retrieve,step=0
flush
put 4
get retrieve,step=0
lane c 
flush
messages
";

/// How a step ended. A get saw so many entries, and found these bytes or none.
#[derive(Clone, Copy)]
enum Ended {
    Put,
    Unlisted,
    Failed,
    Listed(u32),
    Nothing,
    Starved,
    Got(u32, &'static [Option<&'static str>]),
}

/// What each kind of step may end in. The lanes' flushes came into the table as b2.1, a.1 and b2.2.
const LANES: &[&[Ended]] = &[
    &[
        Ended::Put,
        Ended::Failed,
        Ended::Listed(9),
        Ended::Unlisted,
        Ended::Got(9, &[None, Some("abc")]),
    ],
    &[
        Ended::Listed(8),
        Ended::Failed,
        Ended::Starved,
        Ended::Listed(10),
        Ended::Starved,
        Ended::Got(10, &[Some("de")]),
    ],
    &[Ended::Nothing],
];

const TEXT: &str = "before 7
history b2.1 a.1 b2.2
a 1 put ok
a 2 flush fault
a 3 flush 9
a 4 put unlisted
a 5 get 9
miss
found 3
b2 1 flush 8
b2 2 put fault
b2 3 get no memory
b2 4 flush 10
b2 5 put no memory
b2 6 get 10
found 2
c 1 flush nothing
";

/// What was found of a key.
fn answer_of(alloc: Global, found: Option<&str>) -> Option<Answer> {
    match found {
        Some(text) => match Bytes::from_slice(alloc, text.as_bytes()) {
            Ok(bytes) => Some(Answer::Found(bytes)),
            Err(_) => None,
        },
        None => Some(Answer::Miss),
    }
}

/// What a get found.
fn answers_of(alloc: Global, found: &[Option<&str>]) -> Option<Answers> {
    let mut answers = Items::new(alloc);
    for one in found {
        answers.push(answer_of(alloc, *one)?).ok()?;
    }
    Some(answers)
}

/// The end of a step.
fn end_of(alloc: Global, ended: &Ended) -> Option<End<u8>> {
    match ended {
        Ended::Put => Some(End::PutOk),
        Ended::Unlisted => Some(End::PutUnlisted),
        Ended::Failed => Some(End::Fault(7)),
        Ended::Listed(number) => Some(End::Listed(*number)),
        Ended::Nothing => Some(End::Nothing),
        Ended::Starved => Some(End::NoMemory),
        Ended::Got(seen, found) => match answers_of(alloc, found) {
            Some(answers) => Some(End::Got {
                seen: *seen,
                answers,
            }),
            None => None,
        },
    }
}

/// The ends of a lane's steps.
fn lane_of(alloc: Global, steps: &[Ended]) -> Option<Items<End<u8>>> {
    let mut lane = Items::new(alloc);
    for step in steps {
        lane.push(end_of(alloc, step)?).ok()?;
    }
    Some(lane)
}

/// The ends of all steps.
fn ends(alloc: Global) -> Option<Ends<u8>> {
    let mut lanes = Items::new(alloc);
    for steps in LANES {
        lanes.push(lane_of(alloc, steps)?).ok()?;
    }
    Some(lanes)
}

/// Writes a transcript and what was found, and tells whether all was written.
fn write<X: Drop, K: Sink<X>>(
    alloc: Global,
    script: &Script,
    transcript: &Transcript<u8>,
    report: &mut K,
    output: &mut K,
) -> bool {
    tell_transcript(alloc, script, transcript, report).is_ok()
        && write_found(transcript, output).is_ok()
}

/// Tells whether a transcript is written as its text says, and what was found as its bytes.
fn is_written(alloc: Global, script: &Script, transcript: &Transcript<u8>) -> bool {
    let (Ok(mut report), Ok(mut output)) = (
        MemSink::new(alloc, 1000, &[]),
        MemSink::new(alloc, 1000, &[]),
    ) else {
        return false;
    };
    write(alloc, script, transcript, &mut report, &mut output)
        && report.taken() == TEXT.as_bytes()
        && output.taken() == b"abcde".as_slice()
}

/// The script.
fn script_of(alloc: Global, text: &str) -> Option<Script> {
    let (script, _) = Script::read(alloc, text.as_bytes()).ok()?;
    Some(script)
}

/// The same, of the session with these ends.
fn is_told(alloc: Global, script: &Script, lanes: Ends<u8>) -> bool {
    let transcript = Transcript { before: 7, lanes };
    let told = is_written(alloc, script, &transcript);
    let Transcript {
        before: _,
        lanes: _,
    } = transcript;
    told
}

/// The same, of the script above and the ends of its lanes.
fn are_told(alloc: Global) -> bool {
    let (Some(script), Some(lanes)) = (script_of(alloc, SCRIPT), ends(alloc)) else {
        return false;
    };
    is_told(alloc, &script, lanes)
}

#[test]
fn a_transcript_and_what_was_found(rt: HostRuntime) {
    assert!(rt; are_told(rt.alloc()));
}
