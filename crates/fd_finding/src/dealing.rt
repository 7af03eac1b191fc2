//! Which worker looks for which keys.
ghost use Rattle.std.specs.Prelude.{◌≡◌, ◌≤◌, All, map, length, IfOk};
ghost use Rattle.fd_finding.specs.{Spots.{place_key}, Searching.{IsFresh, all_keys, key_of}};

use crate::spot::{Job, Sought};
use fd_bytes::{Bytes, NoMemory};
use fd_schema::Place;
use std::alloc::Global;

/// How many of so many places the first of so many workers gets. The last one gets what is left.
fn share(places: usize, workers: u32) -> usize
    requires { 1 ≤ workers }
    ensures within { result ≤ places }
    ensures last { workers ≡ 1 → result ≡ places }
{
    if workers == 1 {
        return places;
    }
    places.div_ceil(workers as usize).min(places)
}

/// The job of finding the keys of these places.
fn job_of<F>(alloc: Global, places: &[Place]) -> Result<Job<F>, NoMemory>
    ensures keys { IfOk result (λ job. map key_of job.sought.items ≡ map place_key places.now) }
    ensures fresh { IfOk result IsFresh }
{
    let Ok(mut sought) = Vec::with_capacity(alloc, places.len()) else {
        return Err(NoMemory);
    };
    for place in places {
        let key = Bytes::from_vec(place.file_key(alloc)?);
        sought.push_reserved(Sought { key, spot: None });
    }
    Ok(Job {
        sought,
        end: Ok(()),
    })
}

/// A job for each worker: the places in contiguous pieces, which are about as long.
pub(crate) fn deal<F: Drop>(
    alloc: Global,
    places: &[Place],
    workers: u32,
) -> Result<Vec<Job<F>>, NoMemory>
    requires { 1 ≤ workers }
    ensures count { IfOk result (λ v. length v.items ≡ workers) }
    ensures keys { IfOk result (λ v. all_keys v.items ≡ map place_key places.now) }
    ensures fresh { IfOk result (λ v. All IsFresh v.items) }
{
    let Ok(mut jobs) = Vec::with_capacity(alloc, workers as usize) else {
        return Err(NoMemory);
    };
    let mut rest = places;
    for i in 0..workers {
        let (piece, left) = rest.split_at(share(rest.len(), workers - i));
        let job = job_of(alloc, piece)?;
        jobs.push_reserved(job);
        rest = left;
    }
    Ok(jobs)
}
