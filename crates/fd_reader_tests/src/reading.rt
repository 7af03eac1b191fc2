//! What readers see of a dataset.
ghost use Rattle.std.specs.Prelude.{◌≡◌, ◌≤◌, map, false, true, IfSome, OnSome, codes};
ghost use Rattle.fd_reader_tests.specs.Passing.{IsFree};
ghost use Rattle.fd_dataset.specs.Listed.{listing};
ghost use Rattle.fd_retriever.specs.Kept.{Fits};

use crate::writing::{Key, SIZE, place};
use fd_dataset::{Dataset, DatasetPass, Snapshot};
use fd_disk::{Disk, Folder, Sealed};
use fd_finding::{Finder, find_all};
use fd_io::{Gate, MemSink, Sink};
use fd_recovery::{Recovered, recover};
use fd_retriever::*;
use fd_schema::Place;
use std::alloc::{AllocError, Global};
use std::sync::Wait;
use std::sync::atomic::{AtomicU64, Ordering};
use std::thread::Threads;

/// A dataset that is open, with its pass.
#[derive(Drop)]
pub(crate) struct Open<F: Send, T: Disk<F>, Z: Sealed<F>> {
    pub(crate) dataset: Dataset<F, T, Z>,
    pub(crate) pass: DatasetPass<F, T, Z>,
}

/// Opens the dataset of a folder that has its table.
pub(crate) fn opened<F: Send + Drop, D: Folder<F>>(
    alloc: Global,
    folder: &mut D,
) -> Option<Open<F, D::Table, D::Sealed>>
where
    requires back { D.table_out folder.old ≡ false }
    requires name { D.name folder.old ≡ codes "a=1" }
    ensures free { IfSome result (λ o. IsFree o.dataset o.pass) }
    ensures out { OnSome result (D.table_out folder.new ≡ true) }
    ensures name { D.name folder.new ≡ codes "a=1" }
{
    let Ok(Some(Recovered { toc, segments })) = recover(alloc, folder, "a=1") else {
        return None;
    };
    let (dataset, pass) = Dataset::new(alloc, toc, segments).ok()?;
    Some(Open { dataset, pass })
}

/// What is listed in the dataset of a folder.
pub(crate) fn snapshot<F: Send + Drop, D: Folder<F>, R: Wait>(
    rt: &R,
    alloc: Global,
    folder: &mut D,
) -> Option<Snapshot<F, D::Sealed>>
where
    requires back { D.table_out folder.old ≡ false }
    requires name { D.name folder.old ≡ codes "a=1" }
{
    let Some(Open { dataset, mut pass }) = opened(alloc, folder) else {
        return None;
    };
    let snapshot = dataset.snapshot(rt, alloc, &mut pass);
    folder.give_table(dataset.close(pass).into_table());
    snapshot.ok()
}

/// Fetches the message of a key into a sink, and tells whether it was found.
fn is_fetched<F: Send + Drop, Z: Sealed<F>, X: Drop, K: Sink<X>>(
    alloc: Global,
    snapshot: &Snapshot<F, Z>,
    lenses: &mut Lenses<F, Z>,
    key: Key,
    sink: &mut K,
) -> bool
where
    requires fits { Fits lenses.old (map listing snapshot.now) }
    ensures fits { Fits lenses.new (map listing snapshot.now) }
{
    let Ok(place) = place(alloc, key) else {
        return false;
    };
    matches!(
        fetch(alloc, snapshot, lenses, &place, sink),
        Ok(Got::Found(183))
    )
}

/// Fetches the messages of two keys into a sink, and tells whether both were found.
fn are_fetched<F: Send + Drop, Z: Sealed<F>, X: Drop, K: Sink<X>>(
    alloc: Global,
    snapshot: &Snapshot<F, Z>,
    sink: &mut K,
) -> bool {
    let Ok(mut lenses) = Lenses::new(alloc) else {
        return false;
    };
    is_fetched(alloc, snapshot, &mut lenses, Key::A, sink)
        && is_fetched(alloc, snapshot, &mut lenses, Key::B, sink)
}

/// The byte of which these bytes consist, as many as a message has.
pub(crate) fn byte_of(bytes: &[u8]) -> Option<u8> {
    let first = *bytes.first()?;
    if bytes == [first; SIZE].as_slice() {
        Some(first)
    } else {
        None
    }
}

/// The bytes of which the messages of the keys `A` and `B` consist.
pub(crate) fn fetched<F: Send + Drop, Z: Sealed<F>>(
    alloc: Global,
    snapshot: &Snapshot<F, Z>,
) -> Option<[Option<u8>; 2]> {
    let Ok(mut sink) = MemSink::new(alloc, 1024, &[]) else {
        return None;
    };
    let is_found = are_fetched(alloc, snapshot, &mut sink);
    let (first, second) = sink.taken().split_at(SIZE.min(sink.taken().len()));
    let bytes = [byte_of(first), byte_of(second)];
    if is_found { Some(bytes) } else { None }
}

/// A gate that counts how often each of the first two workers passed its first step, and what else passed.
#[derive(Drop)]
pub(crate) struct Counts {
    first: AtomicU64,
    second: AtomicU64,
    others: AtomicU64,
}

impl Gate for Counts {
    fn pass<R: Wait>(&self, _rt: &R, lane: u32, step: u32) {
        let counter = match (lane, step) {
            (1, 1) => &self.first,
            (2, 1) => &self.second,
            _ => &self.others,
        };
        counter.fetch_add(1, Ordering::SeqCst);
    }
}

impl Counts {
    pub(crate) fn new() -> Counts {
        Counts {
            first: AtomicU64::new(0),
            second: AtomicU64::new(0),
            others: AtomicU64::new(0),
        }
    }

    pub(crate) fn all(&self) -> [u64; 3] {
        [
            self.first.load(Ordering::SeqCst),
            self.second.load(Ordering::SeqCst),
            self.others.load(Ordering::SeqCst),
        ]
    }
}

/// The places of three keys.
pub(crate) fn places(alloc: Global, keys: &[Key; 3]) -> Result<[Place; 3], AllocError> {
    let first = place(alloc, keys[0])?;
    let second = place(alloc, keys[1])?;
    Ok([first, second, place(alloc, keys[2])?])
}

/// Where keys were found, and how often the first worker, the second and others passed the gate.
pub(crate) type Finding = ([Option<Spot>; 3], [u64; 3]);

/// The spot with this number.
fn spot_at(spots: &[Option<Spot>], i: usize) -> Option<Spot> {
    *spots.get(i)?
}

/// Finds three places by so many workers.
fn found_at<F: Send + Drop, Z: Sealed<F>, R: Threads + Wait + Sync>(
    rt: &R,
    alloc: Global,
    snapshot: &Snapshot<F, Z>,
    places: &[Place],
    workers: u32,
) -> Option<Finding>
    requires { (1 ≤ workers) × (workers ≤ 8) }
{
    let counts = Counts::new();
    let finder = Finder {
        rt,
        alloc,
        workers,
        gate: &counts,
    };
    let Ok(spots) = find_all(&finder, snapshot, places) else {
        return None;
    };
    let three = [spot_at(&spots, 0), spot_at(&spots, 1), spot_at(&spots, 2)];
    Some((three, counts.all()))
}

/// Finds three keys by so many workers.
pub(crate) fn found<F: Send + Drop, Z: Sealed<F>, R: Threads + Wait + Sync>(
    rt: &R,
    alloc: Global,
    snapshot: &Snapshot<F, Z>,
    keys: &[Key; 3],
    workers: u32,
) -> Option<Finding> {
    if workers == 0 || workers > 8 {
        return None;
    }
    let Ok(places) = places(alloc, keys) else {
        return None;
    };
    found_at(rt, alloc, snapshot, &places, workers)
}
