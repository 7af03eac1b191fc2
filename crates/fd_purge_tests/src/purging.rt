//! What a purge and a wipe make of a dataset whose first batch the second masks; where each call fails in turn, and what crashes
//! leave then.
ghost use Rattle.std.specs.Prelude.{◌≡◌, false, codes, IfOk};

use crate::writing::{Found, look, written};
use fd_bytes::NoMemory;
use fd_disk::{Renew, Store};
use fd_disk_mem::MemStore;
use fd_purge::{Purged, purge_in, wipe_in};
use std::alloc::Global;

/// What a call answered, and what was found after it.
#[derive(Clone, Copy, Debug, PartialEq, Eq)]
enum Answer {
    NoTable,
    /// So many entries were dropped, and so many kept.
    Purged(u32, u32),
    /// So many entries were wiped.
    Wiped(u32),
    Refused,
}

/// One of the two calls.
#[derive(Clone, Copy, Debug, PartialEq, Eq)]
enum Act {
    Purge,
    Wipe,
}

use Act::{Purge, Wipe};

/// Makes the call.
fn done<F: Send + Drop, S: Store<F>>(alloc: Global, store: &mut S, act: Act) -> Answer
where
    S::Folder: Renew<F>,
    requires { S.out store.old (codes "a=1") ≡ false }
    ensures { S.out store.new (codes "a=1") ≡ false }
{
    match act {
        Purge => match purge_in(alloc, store, "a=1") {
            Ok(Some(Purged { dropped, kept })) => Answer::Purged(dropped, kept),
            Ok(None) => Answer::NoTable,
            Err(_) => Answer::Refused,
        },
        Wipe => match wipe_in(alloc, store, "a=1") {
            Ok(Some(count)) => Answer::Wiped(count),
            Ok(None) => Answer::NoTable,
            Err(_) => Answer::Refused,
        },
    }
}

/// Makes the call, and tells what is found then.
fn step<F: Send + Drop, S: Store<F>>(alloc: Global, store: &mut S, act: Act) -> (Answer, Found)
where
    S::Folder: Renew<F>,
    requires { S.out store.old (codes "a=1") ≡ false }
    ensures { S.out store.new (codes "a=1") ≡ false }
{
    let answer = done(alloc, store, act);
    (answer, look(alloc, store))
}

/// Purges the dataset twice and wipes it twice, where it was written.
fn run(alloc: Global) -> Option<[(Answer, Found); 4]> {
    let Ok(mut store) = MemStore::new(alloc, 8192, 64) else {
        return None;
    };
    if !written(alloc, &mut store) {
        return None;
    }
    let purged = step(alloc, &mut store, Purge);
    let again = step(alloc, &mut store, Purge);
    let wiped = step(alloc, &mut store, Wipe);
    Some([purged, again, wiped, step(alloc, &mut store, Wipe)])
}

/// What is found in a store that a crash left.
fn left_in<F: Send + Drop, S: Store<F>>(alloc: Global, left: Result<S, (S, NoMemory)>) -> Found
where
    requires { IfOk left (λ s. S.out s (codes "a=1") ≡ false) }
{
    match left {
        Ok(mut store) => look(alloc, &mut store),
        Err(_) => Found::Refused,
    }
}

/// Makes the call where so many calls of the store pass before all fail, and tells what is found after a crash.
fn stopped(alloc: Global, act: Act, calls: u64, choice: u64) -> Option<(Answer, Found)> {
    let Ok(mut store) = MemStore::new(alloc, 8192, 64) else {
        return None;
    };
    if !written(alloc, &mut store) {
        return None;
    }
    store.fuse(calls);
    let answer = done(alloc, &mut store, act);
    Some((answer, left_in(alloc, store.crash(alloc, choice))))
}

#[test]
fn a_masked_batch_is_dropped_once_and_all_is_wiped(rt: HostRuntime) {
    let kept = Found::Batches(1, Some(10));
    let want = [
        (Answer::Purged(1, 1), kept),
        (Answer::Purged(0, 1), kept),
        (Answer::Wiped(1), Found::NoTable),
        (Answer::NoTable, Found::NoTable),
    ];
    assert_eq!(rt; run(rt.alloc()), Some(want));
}

/// Tells whether this may be found after a call that was stopped, or wasn't.
fn is_allowed(act: Act, answer: Answer, found: Found) -> bool {
    let all = found == Found::Batches(2, Some(10));
    let rest = match act {
        Purge => found == Found::Batches(1, Some(10)),
        Wipe => found == Found::NoTable,
    };
    match answer {
        Answer::Refused => all || rest,
        Answer::Purged(1, 1) | Answer::Wiped(2) => rest,
        _ => false,
    }
}

/// The number of calls after which the fuse stops none.
const ENOUGH: u64 = 24;

#[test]
fn a_crash_leaves_all_or_the_rest(rt: HostRuntime) {
    for act in [Purge, Wipe] {
        for calls in 0..=ENOUGH {
            for choice in 0..4 {
                let told = stopped(rt.alloc(), act, calls, choice);
                let is_right = told.is_some_and(|(answer, found)| {
                    is_allowed(act, answer, found) && (calls < ENOUGH || answer != Answer::Refused)
                });
                assert!(rt; is_right, "{act:?} {calls} {choice} {told:?}");
            }
        }
    }
}
