// A sealed file, and its reader, until they stop.
ghost use Rattle.std.specs.Prelude.{◌≡◌, IfOk};
ghost use Rattle.fd_stopped.specs.Counts.{count_of};

use crate::{StopFault, Stopped, Stops};
use fd_disk::{Down, Reader, Sealed};
use std::alloc::Global;

/// A reader of a store that stops.
#[derive(Drop)]
pub struct StoppedReader<R> {
    /// The reader that it holds.
    pub inner: R,
    /// The calls that go on.
    pub stops: Stops,
    reads: u64,
    asked: u64,
}

impl<F: Send, R: Reader<F>> Reader<StopFault<F>> for StoppedReader<R> {
    ghost use Rattle.std.specs.Prelude.{◌+◌};

    ghost bytes = { λ r. R.bytes r.inner };

    ghost len = { λ r. R.len r.inner };

    ghost faults = { λ r. R.faults r.inner + r.stops.met };

    ghost reads = { λ r. r.reads };

    ghost asked = { λ r. r.asked };

    ghost len_told = { λ r b is. R.len_told r.inner b is };

    fn read_at(&mut self, at: u64, into: &mut [u8]) -> Result<usize, StopFault<F>> {
        self.reads = self.reads.saturating_add(1);
        self.asked = self.asked.saturating_add(into.len() as u64);
        passed_by_file!(self.stops, self.inner.read_at(at, into))
    }
}

impl<F: Send, Z: Sealed<F>> Sealed<StopFault<F>> for Stopped<Z> {
    type Reader = StoppedReader<Z::Reader>;

    ghost bytes = { λ z. Z.bytes z.inner };

    ghost len = { λ z. Z.len z.inner };

    ghost name = { λ z. Z.name z.inner };

    ghost made = { λ z. Z.made z.inner };

    ghost len_told = { λ z b is. Z.len_told z.inner b is };

    fn len(&self) -> u64 {
        self.inner.len()
    }

    fn reader(&self, alloc: Global) -> Result<StoppedReader<Z::Reader>, Down<StopFault<F>>>
        ensures bytes { IfOk result (λ r. Z.Reader.bytes r.inner ≡ Z.bytes self.now.inner) }
        ensures len { IfOk result (λ r. Z.Reader.len r.inner ≡ Z.len self.now.inner) }
        ensures new { IfOk result (λ r. (r.reads ≡ 0) × (r.asked ≡ 0)) }
        ensures counted { IfOk result (λ r. count_of r.stops ≡ count_of self.now.stops) }
    {
        if self.stops.are_over() {
            return Err(Down::Fault(StopFault::Stopped));
        }
        let Ok(stops) = self.stops.shared() else {
            return Err(Down::NoMemory);
        };
        match self.inner.reader(alloc) {
            Ok(inner) => Ok(StoppedReader {
                inner,
                stops,
                reads: 0,
                asked: 0,
            }),
            Err(Down::Fault(fault)) => Err(Down::Fault(StopFault::Below(fault))),
            Err(Down::NoMemory) => Err(Down::NoMemory),
        }
    }
}
