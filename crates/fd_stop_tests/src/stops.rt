//! A command that is stopped at each of its calls in turn, and what is found after a crash.
use crate::runs::{ROW, Row, run_in_memory};
use fd_disk_mem::MemStore;
use fd_stopped::{Stopped, Stops};
use fd_stops::every_crash;
use fd_stored::Status;
use std::alloc::Global;
use std::sync::Wait;
use std::thread::Threads;

/// A command behind others, and what may be found after it was stopped and the store has crashed.
#[derive(Clone, Copy)]
pub(crate) struct Case {
    /// What is run before. Each row ends well.
    pub(crate) before: &'static [Row],
    /// What is stopped.
    pub(crate) row: Row,
    /// What `list` may write then: first where the command made no call, and last where it wasn't stopped.
    pub(crate) found: &'static [&'static str],
}

/// What stands for the refusal of a store without a schema.
pub(crate) const NO_SCHEMA: &str = "no schema";

/// The row by which one looks.
const LOOK: Row = Row {
    words: &["list", "s"],
    text: "list,param=0.0.0",
    ..ROW
};

/// How a command ended, and what was found.
#[derive(Clone, Copy, Debug, PartialEq, Eq)]
enum End {
    /// It was stopped, and one of the texts was found.
    Stopped,
    /// It wasn't, and the last was found.
    Whole,
    Wrong,
}

/// The store after a row, and the row's status.
fn status_of<R: Threads + Wait + Sync>(
    rt: &R,
    alloc: Global,
    row: &Row,
    store: Stopped<MemStore>,
) -> (Stopped<MemStore>, Option<Status>) {
    let (store, ran) = run_in_memory(rt, alloc, row, store);
    match ran {
        Some((status, _)) => (store, Some(status)),
        None => (store, None),
    }
}

/// The store after the command of a case, of whose calls so many go on, and the command's status, where the rows before it end well.
fn stopped_status<R: Threads + Wait + Sync>(
    rt: &R,
    alloc: Global,
    case: &Case,
    calls: u64,
    store: Stopped<MemStore>,
) -> (Stopped<MemStore>, Option<Status>) {
    let mut store = store;
    for row in case.before {
        let (left, status) = status_of(rt, alloc, row, store);
        store = left;
        if status != Some(Status::Done) {
            return (store, None);
        }
    }
    match Stops::new(alloc, calls) {
        Ok(stops) => {
            store.stops = stops;
            status_of(rt, alloc, &case.row, store)
        }
        Err(_) => (store, None),
    }
}

/// What a crash leaves, with this choice of it. All calls go on from there.
fn crashed(alloc: Global, choice: u64, store: Stopped<MemStore>) -> Option<Stopped<MemStore>> {
    let Stopped { inner, mut stops } = store;
    stops.allowed = u64::MAX;
    stops.met = 0;
    every_crash();
    match inner.crash(alloc, choice) {
        Ok(left) => Some(Stopped::new(left, stops)),
        Err(_) => None,
    }
}

/// The number of the first of these texts that was written.
fn number_of(texts: &[&str], written: &[u8]) -> Option<usize> {
    for (number, text) in texts.iter().enumerate() {
        if text.as_bytes() == written {
            return Some(number);
        }
    }
    None
}

/// The number of the text that is found.
fn found_in<R: Threads + Wait + Sync>(
    rt: &R,
    alloc: Global,
    case: &Case,
    store: Stopped<MemStore>,
) -> Option<usize> {
    let (_store, ran) = run_in_memory(rt, alloc, &LOOK, store);
    let (status, output) = ran?;
    match status {
        Status::Done => number_of(case.found, output.taken()),
        Status::Refused => number_of(case.found, NO_SCHEMA.as_bytes()),
        _ => None,
    }
}

/// Judges a command of which so many calls went on, and which ended so.
fn judged(case: &Case, calls: u64, status: Option<Status>, found: Option<usize>) -> End {
    match (status, found) {
        (Some(Status::DiskFault), Some(n)) if calls > 0 || n == 0 => End::Stopped,
        (Some(Status::Done), Some(n)) if calls > 0 && n.saturating_add(1) == case.found.len() => {
            End::Whole
        }
        _ => End::Wrong,
    }
}

/// How the command of a case ends where so many calls go on, and what a crash leaves then, with this choice.
fn end_of<R: Threads + Wait + Sync>(
    rt: &R,
    alloc: Global,
    case: &Case,
    calls: u64,
    choice: u64,
) -> End {
    let Ok(stops) = Stops::new(alloc, u64::MAX) else {
        return End::Wrong;
    };
    let Ok(store) = MemStore::new(alloc, 8192, 64) else {
        return End::Wrong;
    };
    let whole = Stopped::new(store, stops);
    let (stopped, status) = stopped_status(rt, alloc, case, calls, whole);
    match crashed(alloc, choice, stopped) {
        Some(left) => judged(case, calls, status, found_in(rt, alloc, case, left)),
        None => End::Wrong,
    }
}

/// More calls than any of the commands makes.
const MOST: u64 = 400;

/// The first number of calls, from none up to all that the command makes, where the case is wrong. The four kinds of crashes take turns.
pub(crate) fn first_wrong<R: Threads + Wait + Sync>(
    rt: &R,
    alloc: Global,
    case: &Case,
) -> Option<u64> {
    for calls in 0..MOST {
        match end_of(rt, alloc, case, calls, calls % 4) {
            End::Stopped => {}
            End::Whole => return None,
            End::Wrong => return Some(calls),
        }
    }
    Some(MOST)
}
