//! The fields that were read ahead, as they are written.
ghost use Rattle.std.specs.Prelude.{◌≡◌, ◌≤◌, ◌+◌, ◌++◌, ℕ, All, List, length, false, true, IfErr, IfSome, IsSome, IsTrue, OnOk};
ghost use Rattle.fd_segment.specs.Copying.{IsCopied, IsCopiedInPart, IsDigestedAt};
ghost use Rattle.fd_retriever.specs.Answers.{HasFetchCause, OnDamaged, Unwritten};
ghost use Rattle.fd_ahead.specs.{Places.{InSegment, IsIn, IsMetAt, Open}, Reading.{AreJoined, IsHeld, IsJob, IsRead, IsReadOf, IsStock}};

use crate::job::{Item, ReadJob, keep};
use crate::located::Located;
use crate::opened::Opened;
use crate::segments::OpenSegments;
use fd_bytes::Bytes;
use fd_disk::Sealed;
use fd_io::{Sink, write_all};
use fd_retriever::FetchFault;
use fd_segment::LensFault;
use std::alloc::Global;

/// What the thread has that writes: the fields that were read ahead, the next one last, and segments that it has open
/// itself.
#[derive(Drop)]
pub struct Stock<S, F> {
    pub(crate) segments: S,
    pub(crate) ready: Vec<Item<F>>,
}

/// What it has of a store.
pub type ReadStock<F, Z> = Stock<OpenSegments<F, Z>, F>;

/// Takes over the last that was read.
fn take_last<F: Drop>(read: &mut Vec<Item<F>>, ready: &mut Vec<Item<F>>)
    ensures { (os : List Open) → All (IsRead os) read.old.items → All (IsRead os) ready.old.items → All (IsRead os) read.new.items × All (IsRead os) ready.new.items }
{
    match read.pop() {
        Some(item) => {
            let _ = keep(ready, item);
        }
        None => {}
    }
}

/// Takes over all that was read, the last first.
fn take_all<F: Drop>(read: &mut Vec<Item<F>>, ready: &mut Vec<Item<F>>)
    ensures { (os : List Open) → All (IsRead os) read.old.items → All (IsRead os) ready.old.items → All (IsRead os) read.new.items × All (IsRead os) ready.new.items }
{
    for _i in 0..read.len() {
        take_last(read, ready);
    }
}

/// Takes over what a job has read.
fn take_from<F: Send + Drop, Z: Sealed<F>>(job: &mut ReadJob<F, Z>, ready: &mut Vec<Item<F>>)
    ensures { (os : List Open) → IsJob os job.old → All (IsRead os) ready.old.items → IsJob os job.new × All (IsRead os) ready.new.items }
{
    take_all(&mut job.read, ready);
}

/// Takes over what the jobs have read, the last job's first.
fn take_over<F: Send + Drop, Z: Sealed<F>>(jobs: &mut [ReadJob<F, Z>], ready: &mut Vec<Item<F>>)
    ensures long { length jobs.new ≡ length jobs.old }
    ensures both { (os : List Open) → All (IsJob os) jobs.old → All (IsRead os) ready.old.items → All (IsJob os) jobs.new × All (IsRead os) ready.new.items }
{
    let count = jobs.len();
    for i in 0..count {
        take_from(&mut jobs[count - 1 - i], ready);
    }
}

/// Tells that two places are the same.
fn is_at(place: &Located, other: &Located) -> bool
    ensures { result ≡ true → place.now ≡ other.now }
{
    place == other
}

/// Takes out what was read at this place, where it comes next.
fn take_next<F: Drop>(
    ready: &mut Vec<Item<F>>,
    located: &Located,
) -> Option<Result<Bytes, LensFault<F>>>
    ensures ready { (os : List Open) → All (IsRead os) ready.old.items → All (IsRead os) ready.new.items }
    ensures read { (os : List Open) → All (IsRead os) ready.old.items → IfSome result (IsReadOf os located.now) }
{
    match ready.last() {
        Some(item) if is_at(&item.located, located) => {}
        _ => return None,
    }
    match ready.pop() {
        Some(Item { located: _, read }) => Some(read),
        None => None,
    }
}

/// Appends bytes where the list has room for them, and tells whether it had.
fn append_within(joined: &mut Vec<u8>, bytes: &[u8]) -> bool
    ensures appended { IsTrue result → joined.new.items ≡ joined.old.items ++ bytes.now }
    ensures same { result ≡ false → joined.new.items ≡ joined.old.items }
{
    let room = joined.capacity() - joined.len();
    bytes.len() <= room && joined.extend_from_slice(bytes).is_ok()
}

/// Appends what was read, where it was read well and there is room for it, and tells whether it did.
fn append_read<F>(joined: &mut Vec<u8>, read: &Result<Bytes, LensFault<F>>) -> bool
    ensures appended { IsTrue result → (bytes : List ℕ) × (read.now ≡ Ok bytes) × (joined.new.items ≡ joined.old.items ++ bytes) }
    ensures same { result ≡ false → joined.new.items ≡ joined.old.items }
{
    match read {
        Ok(bytes) => append_within(joined, bytes.as_slice()),
        Err(_) => false,
    }
}

/// Takes out what was read for a key, and appends it, where it comes next, was read well and there is room for it. Tells
/// whether it did.
fn join_next<F: Drop>(
    ready: &mut Vec<Item<F>>,
    located: Option<Located>,
    joined: &mut Vec<u8>,
) -> bool
    ensures ready { (os : List Open) → All (IsRead os) ready.old.items → All (IsRead os) ready.new.items }
    ensures joined { IsTrue result → (os : List Open) → All (IsRead os) ready.old.items → (bytes : List ℕ) × IsHeld os located bytes × (joined.new.items ≡ joined.old.items ++ bytes) }
    ensures same { result ≡ false → joined.new.items ≡ joined.old.items }
{
    let (Some(item), Some(place)) = (ready.last(), located) else {
        return false;
    };
    if !is_at(&item.located, &place) {
        return false;
    }
    if !append_read(joined, &item.read) {
        return false;
    }
    let _ = ready.pop();
    true
}

impl<F: Send + Drop, Z: Sealed<F>> Stock<OpenSegments<F, Z>, F> {
    /// Nothing was read ahead yet.
    pub fn new(alloc: Global) -> Stock<OpenSegments<F, Z>, F>
        ensures { (os : List Open) → IsStock os result }
    {
        Stock {
            segments: OpenSegments::none(),
            ready: Vec::new(alloc),
        }
    }

    /// Takes over what the jobs have read, in their order. What was left of earlier ones is let go.
    pub fn refill(&mut self, jobs: &mut [ReadJob<F, Z>])
        ensures long { length jobs.new ≡ length jobs.old }
        ensures stock { (os : List Open) → All (IsJob os) jobs.old → IsStock os self.old → All (IsJob os) jobs.new × IsStock os self.new }
    {
        self.ready.clear();
        take_over(jobs, &mut self.ready);
    }

    /// Takes out the fields that were read ahead and come next, as long as they are those of the keys from one number on, below
    /// another, and appends their bytes, as far as there is room for them without taking memory. Tells how many there were. A
    /// field that couldn't be read stays.
    pub fn gather(
        &mut self,
        located: &[Option<Located>],
        from: usize,
        to: usize,
        joined: &mut Vec<u8>,
    ) -> usize
        requires range { (from ≤ to) × (to ≤ length located.now) }
        ensures stock { (os : List Open) → IsStock os self.old → IsStock os self.new }
        ensures count { from + result ≤ to }
        ensures joined { (os : List Open) → IsStock os self.old → AreJoined os located.now from result joined.old.items joined.new.items }
        ensures none { result ≡ 0 → joined.new.items ≡ joined.old.items }
    {
        for i in from..to {
            if !join_next(&mut self.ready, located[i], joined) {
                return i - from;
            }
        }
        to - from
    }

    /// Writes the bytes at a place into the sink, once they were checked: those that were read ahead, where they come next,
    /// and else they are read now. Of bytes that haven't their digest nothing is written.
    pub fn write<X, K: Sink<X>>(
        &mut self,
        alloc: Global,
        opened: &[Opened<F, Z>],
        located: Located,
        sink: &mut K,
    ) -> Result<(), FetchFault<F, X>>
        requires within { IsIn opened.now located }
        requires stock { IsStock opened.now self.old }
        ensures stock { IsStock opened.now self.new }
        ensures ok { OnOk result (InSegment opened.now located (λ s. IsCopied s.files.fields located.spot.at located.spot.len (K.taken sink.old) (K.taken sink.new))) }
        ensures checked { OnOk result (InSegment opened.now located (λ s. IsSome s.files.entry.digest → IsDigestedAt s.files.fields located.spot.at located.spot.len)) }
        ensures err { IfErr result (λ _. InSegment opened.now located (λ s. IsCopiedInPart s.files.fields located.spot.at located.spot.len (K.taken sink.old) (K.taken sink.new))) }
        ensures unwritten { IfErr result (λ e. Unwritten e (K.taken sink.new ≡ K.taken sink.old)) }
        ensures damaged { IfErr result (λ e. OnDamaged e (λ d. InSegment opened.now located (IsMetAt located d))) }
        ensures cause { HasFetchCause (K.faults sink.old) (K.faults sink.new) result }
    {
        match take_next(&mut self.ready, &located) {
            Some(Ok(bytes)) => match write_all(sink, bytes.as_slice()) {
                Ok(()) => Ok(()),
                Err(fault) => Err(FetchFault::Write(fault)),
            },
            Some(Err(LensFault::Fault(fault))) => Err(FetchFault::Disk(fault)),
            Some(Err(LensFault::Damaged(damage))) => Err(FetchFault::Damaged(damage)),
            Some(Err(LensFault::NoMemory)) | None => {
                self.segments.copy(alloc, opened, located, sink)
            }
        }
    }
}
