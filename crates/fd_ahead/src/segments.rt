//! The segments that are kept open for reading.
ghost use Rattle.std.specs.Prelude.{◌≡◌, ◌≤◌, ◌<◌, None, Some, List, length, IfOk, IfErr, IfSome, IsSome, OnOk, slice_get};
ghost use Rattle.fd_segment.specs.Causes as segments;
ghost use Rattle.fd_segment.specs.{Copying.{IsCopied, IsCopiedInPart, IsDigestedAt, IsPiece}, Held.{Standing}};
ghost use Rattle.fd_retriever.specs.{Answers.{HasFetchCause, OnDamaged, Unwritten}, Kept.{AreThose}};
ghost use Rattle.fd_ahead.specs.Places.{InSegment, IsIn, IsMetAt, Keeping, Keeps};

use crate::located::Located;
use crate::opened::Opened;
use fd_bytes::{Bytes, NoMemory};
use fd_dataset::Snapshot;
use fd_disk::Sealed;
use fd_io::Sink;
use fd_retriever::{FetchFault, Lenses, copy_at, read_at};
use fd_segment::LensFault;
use std::alloc::Global;
use std::marker::Model;

/// The segments of the dataset with this number that are open for reading.
#[derive(Drop)]
struct Current<F: Send, Z: Sealed<F>> {
    number: usize,
    lenses: Lenses<F, Z>,
}

/// Segments of one of the datasets that are open: of the last in which a field was read.
#[derive(Drop)]
pub struct OpenSegments<F: Send, Z: Sealed<F>> {
    current: Option<Current<F, Z>>,
}

impl<F: Send, Z: Sealed<F>> Model for OpenSegments<F, Z> {
    ghost use Rattle.std.specs.Prelude.{Option, option_map};
    ghost use Rattle.fd_ahead.specs.Places.{Keeping};

    ghost Value = { Option Keeping };

    ghost view = { λ o. option_map (λ c. record { number = c.number; kept = c.lenses }) o.current };
}

impl<F: Send, Z: Sealed<F>> OpenSegments<F, Z> {
    /// None yet.
    pub(crate) fn none() -> OpenSegments<F, Z>
        ensures { result ≡ None }
    {
        OpenSegments { current: None }
    }

    // The segments that are open where they are of this dataset, or else none yet. They are taken out.
    fn take(&mut self, alloc: Global, number: usize) -> Result<Lenses<F, Z>, NoMemory>
        ensures those { IfOk result (λ l. (ss : List Standing) → IfSome self.old (λ c. c.number ≡ number → AreThose c.kept ss) → AreThose l ss) }
        ensures none { self.new ≡ None }
    {
        lenses_for(alloc, self.current.take(), number)
    }

    // Keeps those of the dataset with this number.
    fn keep(&mut self, number: usize, lenses: Lenses<F, Z>)
        ensures { self.new ≡ Some (record { number = number; kept = lenses }) }
    {
        self.current = Some(Current { number, lenses });
    }

    /// Copies the bytes at a place into the sink, once they were checked.
    pub(crate) fn copy<X, K: Sink<X>>(
        &mut self,
        alloc: Global,
        opened: &[Opened<F, Z>],
        located: Located,
        sink: &mut K,
    ) -> Result<(), FetchFault<F, X>>
        requires within { IsIn opened.now located }
        requires keeps { Keeps opened.now self.old }
        ensures keeps { Keeps opened.now self.new }
        ensures ok { OnOk result (InSegment opened.now located (λ s. IsCopied s.files.fields located.spot.at located.spot.len (K.taken sink.old) (K.taken sink.new))) }
        ensures checked { OnOk result (InSegment opened.now located (λ s. IsSome s.files.entry.digest → IsDigestedAt s.files.fields located.spot.at located.spot.len)) }
        ensures err { IfErr result (λ _. InSegment opened.now located (λ s. IsCopiedInPart s.files.fields located.spot.at located.spot.len (K.taken sink.old) (K.taken sink.new))) }
        ensures unwritten { IfErr result (λ e. Unwritten e (K.taken sink.new ≡ K.taken sink.old)) }
        ensures damaged { IfErr result (λ e. OnDamaged e (λ d. InSegment opened.now located (IsMetAt located d))) }
        ensures cause { HasFetchCause (K.faults sink.old) (K.faults sink.new) result }
    {
        let Ok(mut lenses) = self.take(alloc, located.number) else {
            return Err(FetchFault::NoMemory);
        };
        let snapshot = snapshot_of(opened, located.number);
        let answer = copy_at(alloc, snapshot, located.spot, &mut lenses, sink);
        self.keep(located.number, lenses);
        answer
    }

    /// Reads the bytes at a place, which are at most 1 MiB, and gives them once they were checked.
    pub(crate) fn read(
        &mut self,
        alloc: Global,
        opened: &[Opened<F, Z>],
        located: Located,
    ) -> Result<Bytes, LensFault<F>>
        requires within { IsIn opened.now located }
        requires few { located.spot.len ≤ 1048576 }
        requires keeps { Keeps opened.now self.old }
        ensures keeps { Keeps opened.now self.new }
        ensures ok { IfOk result (λ b. InSegment opened.now located (λ s. IsPiece s.files.fields located.spot.at located.spot.len b)) }
        ensures checked { OnOk result (InSegment opened.now located (λ s. IsSome s.files.entry.digest → IsDigestedAt s.files.fields located.spot.at located.spot.len)) }
        ensures damaged { IfErr result (λ e. segments.OnDamaged e (λ d. InSegment opened.now located (IsMetAt located d))) }
    {
        let Ok(mut lenses) = self.take(alloc, located.number) else {
            return Err(LensFault::NoMemory);
        };
        let snapshot = snapshot_of(opened, located.number);
        let answer = read_at(alloc, snapshot, located.spot, &mut lenses);
        self.keep(located.number, lenses);
        answer
    }
}

// The segments that are open where they are of this dataset, or else none yet.
fn lenses_for<F: Send, Z: Sealed<F>>(
    alloc: Global,
    current: Option<Current<F, Z>>,
    number: usize,
) -> Result<Lenses<F, Z>, NoMemory>
where
    ensures { IfOk result (λ l. (ss : List Standing) → IfSome current (λ c. c.number ≡ number → AreThose c.lenses ss) → AreThose l ss) }
{
    if let Some(Current { number: of, lenses }) = current {
        if of == number {
            return Ok(lenses);
        }
    }
    Lenses::new(alloc)
}

/// What the table of the dataset with this number listed.
fn snapshot_of<F: Send, Z: Sealed<F>>(opened: &[Opened<F, Z>], number: usize) -> &Snapshot<F, Z>
    requires { number < length opened.now }
    ensures { IfSome (slice_get opened.now number) (λ o. o.shown ≡ result.now) }
{
    opened[number].snapshot()
}
