//! The workers, each in a thread of its own, and what they found.
ghost use Rattle.std.specs.{Prelude.{◌≡◌, ◌≤◌, ◌<◌, ◌+◌, ◌++◌, [], All, List, ℕ, map, length, Contains, IsOk, Err, IfOk, IfErr, IfSome, MatchOption, slice_index_or}, List.{AllZip}, Vec.{vec_capacity}};
ghost use Rattle.fd_entries.specs.declared.batch.Pair.{Pair};
ghost use Rattle.fd_segment.specs.Causes.{OnDamaged};
ghost use Rattle.fd_dataset.specs.Listed.{listing};
ghost use Rattle.fd_retriever.specs.Answers.{SomeUntold, Tells};
ghost use Rattle.fd_finding.specs.{Spots.{AllSayOf, AreTheOnly, IsAnswer, IsWithin, StandsForSome, place_key}, Searching.{IsFresh, Ran, all_spots, spot_of}};

use crate::dealing::deal;
use crate::finder::Finder;
use crate::searching::search;
use crate::spot::{Job, Sought};
use fd_dataset::Snapshot;
use fd_disk::Sealed;
use fd_io::Gate;
use fd_retriever::Spot;
use fd_schema::Place;
use fd_segment::LensFault;
use std::alloc::Global;
use std::sync::Wait;
use std::thread;
use std::thread::Threads;

/// What one worker does: it passes the gate, and then looks for its keys.
fn run_one<F: Send + Drop, Z: Sealed<F>, G: Gate, R: Wait>(
    rt: &R,
    alloc: Global,
    gate: &G,
    snapshot: &Snapshot<F, Z>,
    worker: u32,
    job: &mut Job<F>,
)
    requires { IsFresh job.old }
    ensures { Ran snapshot.now job.old job.new }
{
    gate.pass(rt, worker, 1);
    job.end = search(alloc, snapshot, job.sought.as_mut_slice());
}

/// Each job in a thread of its own.
fn run_all<F: Send + Drop, Z: Sealed<F>, G: Gate, R: Threads + Wait + Sync>(
    rt: &R,
    alloc: Global,
    gate: &G,
    snapshot: &Snapshot<F, Z>,
    jobs: &mut [Job<F>],
)
    requires few { length jobs.old ≤ 8 }
    requires fresh { All IsFresh jobs.old }
    ensures long { length jobs.new ≡ length jobs.old }
    ensures ran { (i : ℕ) (e : _) → i < length jobs.old → Ran snapshot.now (slice_index_or jobs.old i e) (slice_index_or jobs.new i e) }
{
    thread::for_each_mut(
        rt,
        jobs,
        8,
        &|i: usize, job: &mut Job<F>|
            requires { (i < 8) × IsFresh job.old }
            ensures { Ran snapshot.entry.now job.old job.new }
        { run_one(rt, alloc, gate, snapshot, i as u32 + 1, job) },
    );
}

/// Appends the spots of these keys.
fn push_spots(sought: &[Sought], spots: &mut Vec<Option<Spot>>)
    requires room { length spots.old.items + length sought.now ≤ vec_capacity spots.old }
    ensures items { spots.new.items ≡ spots.old.items ++ map spot_of sought.now }
    ensures room { vec_capacity spots.new ≡ vec_capacity spots.old }
{
    for one in sought {
        spots.push_reserved(one.spot);
    }
}

/// The spots of all jobs, in their order.
fn spots_of<F>(jobs: &[Job<F>], mut spots: Vec<Option<Spot>>) -> Vec<Option<Spot>>
    requires empty { spots.items ≡ [] }
    requires room { length (all_spots jobs.now) ≤ vec_capacity spots }
    ensures { result.items ≡ all_spots jobs.now }
{
    for job in jobs {
        push_spots(&job.sought, &mut spots);
    }
    spots
}

/// The fault of the first job that has one.
fn fault_of<F: Drop>(jobs: Vec<Job<F>>) -> Option<LensFault<F>>
    ensures { MatchOption result (All (λ job. IsOk job.end) jobs.items) (λ fault. (job : _) × Contains jobs.items job × (job.end ≡ Err fault)) }
{
    for job in jobs {
        let Job { sought: _, end } = job;
        match end {
            Ok(()) => {}
            Err(fault) => return Some(fault),
        }
    }
    None
}

/// Finds for each place the newest bytes of its key among the segments of a snapshot, and answers, in the order of the
/// places, where they stand, or none exactly where no segment has the key. The places are looked for in contiguous pieces
/// by the finder's workers, each in a thread of its own; worker w, from 1, passes the gate with its number and the step 1 before
/// its first look-up, also where its piece is empty. A worker goes from the newest segment to the oldest, opens each at most
/// once, looks up in it all its keys that it hasn't found yet, and ends where none is left. What is answered follows from
/// the snapshot and the places alone, whatever the number of workers.
///
/// `Fault` comes only with the fault of a file's call in this search: segments are shared, so there is no count of faults
/// to name, and no code here can make or copy a fault. `Damaged` never comes where each segment stands for a batch, and the
/// damage stands in one of the segments. All memory but that of the look-ups is taken before the first worker begins. Where
/// several workers are refused, the refusal of the first of them is answered.
pub fn find_all<F: Send + Drop, Z: Sealed<F>, G: Gate, R: Threads + Wait + Sync>(
    finder: &Finder<'_, G, R>,
    snapshot: &Snapshot<F, Z>,
    places: &[Place],
) -> Result<Vec<Option<Spot>>, LensFault<F>>
    requires workers { (1 ≤ finder.now.workers) × (finder.now.workers ≤ 8) }
    ensures count { IfOk result (λ v. length v.items ≡ length places.now) }
    ensures answer { IfOk result (λ v. (t : List (List Pair)) → Tells (map listing snapshot.now) t → AllZip (IsAnswer snapshot.now t) (map place_key places.now) v.items) }
    ensures says { IfOk result (λ v. AllZip (AllSayOf snapshot.now) (map place_key places.now) v.items) }
    ensures only { IfOk result (λ v. AreTheOnly snapshot.now (map place_key places.now) v.items) }
    ensures within { IfOk result (λ v. All (λ o. IfSome o (IsWithin snapshot.now)) v.items) }
    ensures damaged { IfErr result (λ e. OnDamaged e (StandsForSome snapshot.now (map place_key places.now))) }
    ensures sound { IfErr result (λ e. OnDamaged e (λ _. SomeUntold (map listing snapshot.now))) }
{
    let Ok(spots) = Vec::with_capacity(finder.alloc, places.len()) else {
        return Err(LensFault::NoMemory);
    };
    let Ok(mut jobs) = deal(finder.alloc, places, finder.workers) else {
        return Err(LensFault::NoMemory);
    };
    run_all(
        finder.rt,
        finder.alloc,
        finder.gate,
        snapshot,
        jobs.as_mut_slice(),
    );
    let spots = spots_of(&jobs, spots);
    match fault_of(jobs) {
        Some(fault) => Err(fault),
        None => Ok(spots),
    }
}
