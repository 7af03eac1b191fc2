//! Runs of the machine by its steps, and what each answers.
use fd_bytes::{Bytes, Items, NoMemory};
use fd_core::{Answer, State, Step, Took, every_run, step};
use fd_rows::agreed;
use std::alloc::Global;

/// The table as it reads before a batch is listed, and its front afterwards.
fn table(alloc: Global, entry: &[u8], len: usize) -> Result<Bytes, NoMemory> {
    let mut table = b"FDTOC001".to_vec(alloc)?;
    table.resize(320, 0)?;
    table.extend_from_slice(entry)?;
    table.resize(len, 0)?;
    Ok(Bytes::from_vec(table))
}

/// The table alone, which lists nothing.
fn nothing(alloc: Global) -> Result<Items<Bytes>, NoMemory> {
    let mut left = Items::new(alloc);
    left.push(table(alloc, b"", 321)?)?;
    Ok(left)
}

/// The table and the two files of the batch of writer 1, listed.
fn listed(alloc: Global) -> Result<Items<Bytes>, NoMemory> {
    let entry =
        b"O\x01\0\0\0\x01\0\0\0\x01\0\0\0\x01\0\0\0\0\0\0\0\x15\0\0\0\0\0\0\0\x03".as_slice();
    let mut left = Items::new(alloc);
    left.push(table(alloc, entry, 385)?)?;
    left.push(Bytes::from_slice(alloc, b"one")?)?;
    let row = b"\0\x03i|a\0\0\0\0\0\0\0\0\0\0\0\0\0\0\0\x03".as_slice();
    left.push(Bytes::from_slice(alloc, row)?)?;
    Ok(left)
}

/// The step of a letter that takes bytes, or an opening.
fn large_step(alloc: Global, w: u32, letter: u8) -> Result<Step, NoMemory> {
    let text: &[u8] = if w == 1 { b"one" } else { b"two" };
    Ok(match letter {
        b'p' => Step::Put {
            w,
            key: Bytes::from_slice(alloc, b"i|a")?,
            bytes: Bytes::from_slice(alloc, text)?,
        },
        b'q' => Step::Fetch {
            r: 1,
            key: Bytes::from_slice(alloc, b"i|a")?,
        },
        b'0' => Step::Crash {
            left: nothing(alloc)?,
        },
        b'1' => Step::Crash {
            left: listed(alloc)?,
        },
        _ => Step::Reopen,
    })
}

/// The step of a letter.
fn small_step(w: u32, letter: u8) -> Option<Step> {
    Some(match letter {
        b'd' => Step::SyncData { w },
        b'x' => Step::WriteIndex { w },
        b'i' => Step::SyncIndex { w },
        b't' => Step::Take { w },
        b'b' => Step::Body { w },
        b's' => Step::SyncBody { w },
        b'g' => Step::Gate { w },
        b'h' => Step::SyncGate { w },
        b'o' => Step::Post { w },
        b'r' => Step::Release { w },
        b'c' => Step::CloseGate { w },
        b'm' => Step::SyncClose { w },
        b'f' => Step::Fail { w },
        b'l' => Step::Look { r: 1 },
        _ => return None,
    })
}

/// The step of a letter: a small one of writer 1, a capital one of writer 2.
fn step_of(alloc: Global, letter: u8) -> Result<Step, NoMemory> {
    let w = if letter.is_ascii_uppercase() { 2 } else { 1 };
    let small = letter.to_ascii_lowercase();
    match small_step(w, small) {
        Some(step) => Ok(step),
        None => large_step(alloc, w, small),
    }
}

/// What a step answered: `y`, `n`, the first letter of the bytes that were found, or `m` for a miss.
fn letter_of(took: &Took) -> u8 {
    match took {
        Took::No => b'n',
        Took::Yes => b'y',
        Took::Answer(Answer::Miss) => b'm',
        Took::Answer(Answer::Found(bytes)) => bytes.as_slice().first().copied().unwrap_or(b'?'),
    }
}

/// Tells that the steps of a run from the start answer so.
fn answers(alloc: Global, script: &[u8], want: &[u8]) -> Result<bool, NoMemory> {
    let mut state = State::start(alloc)?;
    for (letter, answer) in script.iter().zip(want) {
        let took = step(alloc, &mut state, step_of(alloc, *letter)?)?;
        if letter_of(&took) != *answer {
            return Ok(false);
        }
    }
    Ok(script.len() == want.len())
}

/// Runs by their steps' letters, what each step answers, and what the run shows.
const RUNS: &str = "\
pdxitbsghorlq|yyyyyyyyyyyyo|one writer lists its batch, and a reader fetches it\n\
pdxitbg|yyyyyyn|a gate is not opened before its body is firm\n\
dqxitbsghorcm!|nnnnnnnnnnnnnn|steps out of their order, and a reader that has not looked\n\
lpdxitbsghorqlq|yyyyyyyyyyyymyo|a reader sees no more than when it looked\n\
pfdfxifdxitbsghorlq|yyyynnyyyyyyyyyyyyo|calls fail once, and are made again\n\
pdxitftbsghorlq|yyyyyyyyyyyyyyo|the same of the body\n\
pdxitbftbsghorlq|yyyyyyyyyyyyyyyo|the same of the sync of the body\n\
pdxitbsgfPDXITBCMBSGHORlqtbsghorlq|yyyyyyyyyyyyyynyyyyyyyyytyyyyyyyyo|the next owner closes a gate in doubt\n\
pdxitbsftftcftcmbsghorlq|yyyyyyyyyyyyyyyyyyyyyyyo|the same, where the closing fails too\n\
0!lq|yyym|a crash before anything happens\n\
pdxitbs01|yyyyyyynn|before the gate no crash loses a file or lists the batch\n\
pdxitbsg1!lq|yyyyyyyyyyyo|at the gate a crash may leave the batch listed\n\
pdxitbsghor01!lqpdxit|yyyyyyyyyyynyyyoyyyyy|a listed batch stays, and its writer goes on\n\
0pdlq0!q|ynnnnnyn|while it is down nothing but an opening is possible\n";

/// Tells that the steps of a run answer as its row says.
fn is_run(alloc: Global, script: &str, row: &str) -> bool {
    match row.split_once('|') {
        Some((want, _)) => answers(alloc, script.as_bytes(), want.as_bytes()) == Ok(true),
        None => false,
    }
}

#[test]
fn runs(rt: HostRuntime) {
    every_run();
    assert_eq!(rt; agreed(rt.alloc(), RUNS, is_run), 14);
}
