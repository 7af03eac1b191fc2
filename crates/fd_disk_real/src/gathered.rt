// A file of a shelf while it is written.
ghost use Rattle.std.specs.Prelude.{◌≡◌, IfOk};

use crate::{RealDisk, RealFault, RealSealed};
use fd_buffers::Gathering;
use fd_bytes::NoMemory;
use fd_disk::Disk;
use std::alloc::Global;

/// A file of a shelf while it is written. Small writes of one of fields are gathered.
#[derive(Drop)]
pub struct RealGathered {
    file: Gathering<RealFault, RealDisk>,
}

impl RealGathered {
    /// Gathers up to so many bytes for this file. The room is made now.
    pub(crate) fn new(alloc: Global, file: RealDisk, room: usize) -> Result<RealGathered, NoMemory>
        ensures name { IfOk result (λ d. ⟦<RealGathered as Disk<RealFault>>⟧.name d ≡ ⟦<RealDisk as Disk<RealFault>>⟧.name file) }
        ensures made { IfOk result (λ d. ⟦<RealGathered as Disk<RealFault>>⟧.made d ≡ ⟦<RealDisk as Disk<RealFault>>⟧.made file) }
    {
        Ok(RealGathered {
            file: Gathering::new(alloc, file, room)?,
        })
    }
}

impl Disk<RealFault> for RealGathered {
    ghost use Rattle.std.specs.Prelude.{None};

    type Sealed = RealSealed;

    ghost file = { λ d. None };

    ghost is_synced = { λ d. ⟦<Gathering<RealFault, RealDisk> as Disk<RealFault>>⟧.is_synced d.file };

    ghost extent = { λ d. ⟦<Gathering<RealFault, RealDisk> as Disk<RealFault>>⟧.extent d.file };

    ghost moment = { λ d. 0 };

    ghost left_since = { λ d t c. ⊥ };

    ghost faults = { λ d. ⟦<Gathering<RealFault, RealDisk> as Disk<RealFault>>⟧.faults d.file };

    ghost name = { λ d. ⟦<Gathering<RealFault, RealDisk> as Disk<RealFault>>⟧.name d.file };

    ghost made = { λ d. ⟦<Gathering<RealFault, RealDisk> as Disk<RealFault>>⟧.made d.file };

    ghost counts_now = { λ d t c le image. image };

    ghost only_now = { λ d c left. left };

    ghost reads_image = { λ d f is. absurd (cc is) };

    ghost synced_firm = { λ d f is synced. absurd (cc is) };

    fn read_at(&mut self, at: u64, into: &mut [u8]) -> Result<usize, RealFault> {
        self.file.read_at(at, into)
    }

    fn write_at(&mut self, at: u64, bytes: &[u8]) -> Result<(), RealFault> {
        self.file.write_at(at, bytes)
    }

    fn sync(&mut self) -> Result<(), RealFault> {
        self.file.sync()
    }

    fn seal(self) -> RealSealed {
        let RealGathered { file } = self;
        file.seal()
    }
}
