//! Writers and readers of a dataset in a store in memory whose calls fail, and crashes between them.
ghost use Rattle.std.specs.Prelude.{◌≡◌, ◌≤◌, false, true, IfOk, codes};

use crate::reading::{Finding, fetched, found, snapshot};
use crate::writing::{Key, Two, Went, archive};
use fd_bytes::NoMemory;
use fd_dataset::Snapshot;
use fd_disk::{Folder, Store};
use fd_disk_mem::{MemFault, MemStore, Op};
use fd_retriever::Spot;
use fd_tables::{folder_left, is_founded};
use std::alloc::Global;
use std::process::Abort;
use std::sync::Wait;
use std::thread::Threads;

/// Founds the table of the dataset of a store, and tells whether it did.
fn is_begun<F: Send + Drop, S: Store<F>>(alloc: Global, store: &mut S) -> bool
where
    requires { S.out store.old (codes "a=1") ≡ false }
{
    let Ok(mut folder) = store.folder(alloc, "a=1") else {
        return false;
    };
    if !is_founded(alloc, &mut folder) {
        return false;
    }
    store.give_folder(folder);
    true
}

/// Has a writer put two messages in a store: how the listing of the second went.
fn archived<F: Send + Drop, S: Store<F>, R: Wait>(
    rt: &R,
    alloc: Global,
    store: &mut S,
    writer: u32,
    two: Two,
) -> Option<Went>
where
    requires out { S.out store.old (codes "a=1") ≡ false }
    requires writer { 1 ≤ writer }
{
    let Ok(mut folder) = store.folder(alloc, "a=1") else {
        return None;
    };
    let Some(went) = archive(rt, alloc, &mut folder, writer, two) else {
        return None;
    };
    store.give_folder(folder);
    Some(went)
}

/// The same of a store in memory.
pub(crate) fn archived_in_memory<R: Wait>(
    rt: &R,
    alloc: Global,
    store: &mut MemStore,
    writer: u32,
    two: Two,
) -> Option<Went>
where
    requires out { ⟦<MemStore as Store<MemFault>>⟧.out store.old (codes "a=1") ≡ false }
    requires writer { 1 ≤ writer }
{
    archived(rt, alloc, store, writer, two)
}

/// Founds the table of the dataset of a store in memory, and tells whether it did.
pub(crate) fn is_begun_in_memory(alloc: Global, store: &mut MemStore) -> bool
    requires { ⟦<MemStore as Store<MemFault>>⟧.out store.old (codes "a=1") ≡ false }
{
    is_begun(alloc, store)
}

/// A snapshot of a dataset of the store.
pub(crate) type Listed<F, S> = Snapshot<F, <<S as Store<F>>::Folder as Folder<F>>::Sealed>;

/// What is listed in the store that a crash left.
pub(crate) fn listed<F: Send + Drop, S: Store<F>, R: Wait>(
    rt: &R,
    alloc: Global,
    left: Result<S, (S, NoMemory)>,
) -> Option<Listed<F, S>>
where
    requires { IfOk left (λ s. S.out s (codes "a=1") ≡ false) }
{
    let Some(mut folder) = folder_left(alloc, left) else {
        return None;
    };
    snapshot(rt, alloc, &mut folder)
}

/// Two writers in a store, one after the other, with a crash after each, and who reads then.
#[derive(Clone, Copy)]
struct Plan {
    /// The call of the store that fails.
    fails: (&'static str, Op, u32),
    /// How many calls pass once the table is founded, up to the first crash.
    writes: u64,
    first: Two,
    /// What the second writer puts, where there is one.
    second: Option<Two>,
    /// What the crashes leave.
    choice: u64,
    /// How many calls pass after the last crash.
    reads: u64,
    /// What is looked for, and by how many workers.
    keys: [Key; 3],
    workers: u32,
}

/// What is seen: how the listing of the first writer went, how many entries there are, the bytes of the messages of two keys,
/// and what workers found.
type Seen = (Option<Went>, u32, Option<[Option<u8>; 2]>, Option<Finding>);

/// Reads what a crash left.
fn seen<F: Send + Drop, S: Store<F>, R: Threads + Wait + Sync>(
    rt: &R,
    alloc: Global,
    left: Result<S, (S, NoMemory)>,
    plan: &Plan,
    went: Option<Went>,
) -> Option<Seen>
where
    requires { IfOk left (λ s. S.out s (codes "a=1") ≡ false) }
{
    let Some(snapshot) = listed(rt, alloc, left) else {
        return None;
    };
    let (fetched, found) = if plan.workers == 0 {
        (fetched(alloc, &snapshot), None)
    } else {
        (None, found(rt, alloc, &snapshot, &plan.keys, plan.workers))
    };
    Some((went, snapshot.len(), fetched, found))
}

/// What a crash leaves.
type Left = Result<MemStore, (MemStore, NoMemory)>;

/// The same of a store in memory.
fn seen_in_memory<R: Threads + Wait + Sync>(
    rt: &R,
    alloc: Global,
    left: Left,
    plan: &Plan,
    went: Option<Went>,
) -> Option<Seen>
where
    requires { IfOk left (λ s. ⟦<MemStore as Store<MemFault>>⟧.out s (codes "a=1") ≡ false) }
{
    seen(rt, alloc, left, plan, went)
}

/// Has the second writer put its messages in the store that a crash left, where there is one, and reads what another crash
/// leaves.
fn run_on<R: Threads + Wait + Sync>(
    rt: &R,
    alloc: Global,
    left: Left,
    plan: &Plan,
    went: Option<Went>,
) -> Option<Seen> {
    let mut store = match left {
        Ok(store) => store,
        Err((store, _)) => store,
    };
    if let Some(second) = plan.second {
        archived_in_memory(rt, alloc, &mut store, 2, second);
    }
    let mut left = store.crash(alloc, plan.choice);
    if let Ok(store) = &mut left {
        store.fuse(plan.reads);
    }
    seen_in_memory(rt, alloc, left, plan, went)
}

/// What is seen of a plan.
fn run<R: Threads + Wait + Sync>(rt: &R, alloc: Global, plan: &Plan) -> Option<Seen> {
    let Ok(mut store) = MemStore::new(alloc, 65_536, 256) else {
        return None;
    };
    let (file, op, nth) = plan.fails;
    let is_begun = store.fail(alloc, file, op, nth).is_ok()
        && is_begun_in_memory(alloc, &mut store);
    store.fuse(plan.writes);
    let went = archived_in_memory(rt, alloc, &mut store, 1, plan.first);
    let left = store.crash(alloc, plan.choice);
    run_on(rt, alloc, left, plan, if is_begun { went } else { None })
}

/// A message of the key `A` and one of `B` in one batch, no fault and no second writer.
const PLAN: Plan = Plan {
    fails: ("a=1/9-9.index", Op::Sync, 1),
    writes: u64::MAX,
    first: Two {
        first: (Key::A, 1),
        second: (Key::B, 2),
        apart: false,
    },
    second: None,
    choice: 0,
    reads: u64::MAX,
    keys: [Key::A; 3],
    workers: 0,
};

/// The same messages in a batch each.
const APART: Two = Two {
    first: (Key::A, 1),
    second: (Key::B, 2),
    apart: true,
};

/// The bytes of the messages that are put.
const BYTES: Option<[Option<u8>; 2]> = Some([Some(1), Some(2)]);

/// What is seen of it.
const SEEN: Seen = (Some(Went::AtOnce), 1, BYTES, None);

fn check<R: Abort + Threads + Wait + Sync>(rt: &R, alloc: Global, plan: &Plan, want: Seen) {
    let Plan {
        fails,
        writes,
        choice,
        reads,
        workers,
        ..
    } = *plan;
    let seen = run(rt, alloc, plan);
    assert_eq!(rt;
        seen,
        Some(want),
        "{fails:?} {writes} {choice} {reads} {workers}"
    );
}

#[test]
fn each_call_of_a_flush_fails_in_turn(rt: HostRuntime) {
    for fails in [
        ("a=1/1-2.fields", Op::Create, 1),
        ("a=1/1-2.index", Op::Create, 1),
        ("a=1/1-1.fields", Op::Sync, 1),
        ("a=1/1-1.index", Op::Write, 1),
        ("a=1/1-1.index", Op::Sync, 1),
        ("a=1/toc", Op::Write, 1),
        ("a=1/toc", Op::Sync, 2),
        ("a=1/toc", Op::Write, 2),
        ("a=1/toc", Op::Sync, 3),
    ] {
        let plan = Plan { fails, ..PLAN };
        let want = (Some(Went::Again), 1, BYTES, None);
        check(&rt, rt.alloc(), &plan, want);
    }
}

/// The newest message of a key is that of the second writer, the later of two in its batch, or else that of the first.
#[test]
fn two_archives_and_crashes(rt: HostRuntime) {
    let second = Two {
        first: (Key::A, 3),
        second: (Key::A, 4),
        apart: false,
    };
    let want = (Some(Went::AtOnce), 2, Some([Some(4), Some(2)]), None);
    for choice in 0..4 {
        let plan = Plan {
            second: Some(second),
            choice,
            ..PLAN
        };
        check(&rt, rt.alloc(), &plan, want);
    }
}

/// How many calls come before those of the flush: what opens the dataset, the making of two files, and the writes of two fields and
/// of their digests.
const BEFORE: u64 = 9;

/// Whether a crash of this choice leaves the batch, where this call of the flush is the first that is stopped: two make files,
/// five write and sync the batch and the body of its entry, the eighth writes the gate, the ninth syncs it, and no tenth is made.
fn is_left(call: u64, choice: u64) -> bool {
    match call {
        0..=7 => false,
        8 => choice == 2,
        9 => choice == 1 || choice == 2,
        _ => true,
    }
}

/// What is seen then.
fn left(call: u64, choice: u64) -> Seen {
    let went = if call == 10 {
        Went::AtOnce
    } else {
        Went::Never
    };
    if is_left(call, choice) {
        (Some(went), 1, BYTES, None)
    } else {
        (Some(went), 0, None, None)
    }
}

/// A batch is left whole or not at all, never before its gate is written, and always once its flush was answered.
#[test]
fn each_call_of_a_first_flush_is_stopped_in_turn(rt: HostRuntime) {
    for call in 1..11u64 {
        for choice in 0..4u64 {
            let plan = Plan {
                writes: BEFORE + call - 1,
                choice,
                ..PLAN
            };
            check(&rt, rt.alloc(), &plan, left(call, choice));
        }
    }
}

/// Four calls open the dataset, one of which reads its index, three open the segment and find the keys in its one page, and one reads
/// each message with its digest.
#[test]
fn a_segment_is_opened_once(rt: HostRuntime) {
    let enough = Plan { reads: 9, ..PLAN };
    check(&rt, rt.alloc(), &enough, SEEN);
    let short = Plan { reads: 8, ..PLAN };
    check(&rt, rt.alloc(), &short, (Some(Went::AtOnce), 1, None, None));
}

/// Where the bytes of a key stand, in the segment of this number.
const fn spot(number: u32) -> Option<Spot> {
    Some(Spot {
        number,
        at: 0,
        len: 183,
    })
}

/// By each number of workers the same is found. One opens each segment once, by three calls, and none but the newest where
/// that has all keys.
#[test]
fn keys_are_found_by_workers(rt: HostRuntime) {
    let all = [spot(2), spot(1), None];
    let some = [Key::B, Key::A, Key::C];
    for (keys, workers, reads, found) in [
        (some, 1, 10, None),
        (some, 1, 11, Some((all, [1, 0, 0]))),
        (some, 2, u64::MAX, Some((all, [1, 1, 0]))),
        (some, 8, u64::MAX, Some((all, [1, 1, 6]))),
        ([Key::B; 3], 1, 8, Some(([spot(2); 3], [1, 0, 0]))),
    ] {
        let plan = Plan {
            first: APART,
            reads,
            keys,
            workers,
            ..PLAN
        };
        check(&rt, rt.alloc(), &plan, (Some(Went::AtOnce), 2, None, found));
    }
}
