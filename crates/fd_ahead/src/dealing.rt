//! Which thread reads which fields.
ghost use Rattle.std.specs.Prelude.{◌≤◌, ◌≡◌, All, List, length, IfSome};
ghost use Rattle.fd_ahead.specs.{Places.{AreIn, IsIn, Open}, Reading.{IsJob, IsWanted}};

use crate::job::ReadJob;
use crate::located::Located;
use fd_disk::Sealed;

/// How many bytes the fields of a job have at most, together. A longer field isn't read ahead.
const MOST: u64 = 1_048_576;

/// How many fields a job has at most.
const MANY: usize = 1_024;

/// Puts a place among those that are wanted, where there is room for so many bytes, and tells the room that is left; `None`
/// where there is none. Where there is no memory for the place, at a field that isn't read ahead, and at a key that isn't
/// located, the room stays.
fn want(wanted: &mut Vec<Located>, located: Option<Located>, room: u64) -> Option<u64>
    ensures { (os : List Open) → All (IsWanted os) wanted.old.items → IfSome located (IsIn os) → All (IsWanted os) wanted.new.items }
{
    let Some(one) = located else {
        return Some(room);
    };
    let len = one.spot.len;
    if len > MOST {
        return Some(room);
    }
    if len > room || wanted.len() >= MANY {
        return None;
    }
    match wanted.push(one) {
        Ok(()) => Some(room - len),
        Err(_) => Some(room),
    }
}

/// Has places read, from this one on, as many as one job may have, and tells the first that is left. Keys that aren't
/// located are passed.
fn fill(located: &[Option<Located>], from: usize, wanted: &mut Vec<Located>) -> usize
    requires from { from ≤ length located.now }
    ensures up { from ≤ result }
    ensures to { result ≤ length located.now }
    ensures wanted { (os : List Open) → AreIn os located.now → All (IsWanted os) wanted.old.items → All (IsWanted os) wanted.new.items }
{
    let mut room = MOST;
    for i in from..located.len() {
        match want(wanted, located[i], room) {
            Some(left) => room = left,
            None => return i,
        }
    }
    located.len()
}

/// Has a job read the fields at these places, from this one on, as many as it may have, and tells the first that is left.
fn fill_job<F: Send + Drop, Z: Sealed<F>>(
    located: &[Option<Located>],
    from: usize,
    job: &mut ReadJob<F, Z>,
) -> usize
    requires from { from ≤ length located.now }
    ensures up { from ≤ result }
    ensures to { result ≤ length located.now }
    ensures job { (os : List Open) → AreIn os located.now → IsJob os job.old → IsJob os job.new }
{
    fill(located, from, &mut job.wanted)
}

/// Has the jobs read the fields at these places, from this one on, each those that follow on the ones of the job before it,
/// as many as they may have, and tells the first that is left.
pub fn deal<F: Send + Drop, Z: Sealed<F>>(
    located: &[Option<Located>],
    from: usize,
    jobs: &mut [ReadJob<F, Z>],
) -> usize
    requires from { from ≤ length located.now }
    ensures up { from ≤ result }
    ensures to { result ≤ length located.now }
    ensures long { length jobs.new ≡ length jobs.old }
    ensures jobs { (os : List Open) → AreIn os located.now → All (IsJob os) jobs.old → All (IsJob os) jobs.new }
{
    let mut next = from;
    for job in jobs.iter_mut() {
        next = fill_job(located, next, job);
    }
    next
}
