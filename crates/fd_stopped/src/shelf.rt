// One writer's files, until they stop.
ghost use Rattle.std.specs.Prelude.{◌≡◌, ◌⊎◌, ◌+◌, [], true, false, Some, IfOk, IfErr, option_map};
ghost use Rattle.fd_disk.specs.{declared.folders.FileName.{FileName}, Causes.{HasDownCause, OnNoMemory}, Images.{firm_file}, Names.{name_of}};
ghost use Rattle.fd_stopped.specs.{Counts.{count_of}, Stopping.{OnCallStopped}};

use crate::{StopFault, Stopped};
use fd_bytes::NoMemory;
use fd_disk::{Down, FileKind, Shelf};
use std::alloc::Global;

impl<F: Send, H: Shelf<F>> Shelf<StopFault<F>> for Stopped<H> {
    ghost use Rattle.std.specs.Prelude.{◌+◌};

    type Sealed = Stopped<H::Sealed>;

    type File = Stopped<H::File>;

    ghost kept = { λ s. H.kept s.inner };

    ghost created = { λ s n. H.created s.inner n };

    ghost writer = { λ s. H.writer s.inner };

    ghost name = { λ s. H.name s.inner };

    ghost faults = { λ s. H.faults s.inner + s.stops.met };

    fn create(
        &mut self,
        alloc: Global,
        seq: u32,
        kind: FileKind,
    ) -> Result<Stopped<H::File>, Down<StopFault<F>>>
        requires { H.created self.old.inner (name_of (H.writer self.old.inner) seq kind) ≡ false }
        ensures file { IfOk result (λ d. H.File.file d.inner ≡ option_map (λ _. firm_file []) (H.kept self.old.inner)) }
        ensures file_name { IfOk result (λ d. H.File.name d.inner ≡ H.name self.old.inner) }
        ensures made { IfOk result (λ d. H.File.made d.inner ≡ Some (name_of (H.writer self.old.inner) seq kind)) }
        ensures created { (n : FileName) → H.created self.new.inner n ≡ true → (H.created self.old.inner n ≡ true) ⊎ (n ≡ name_of (H.writer self.old.inner) seq kind) }
        ensures refused { IfErr result (λ e. OnNoMemory e ((n : FileName) → H.created self.new.inner n ≡ H.created self.old.inner n)) }
        ensures kept { H.kept self.new.inner ≡ H.kept self.old.inner }
        ensures writer { H.writer self.new.inner ≡ H.writer self.old.inner }
        ensures name { H.name self.new.inner ≡ H.name self.old.inner }
        ensures cause { HasDownCause (H.faults self.old.inner + self.old.stops.met) (H.faults self.new.inner + self.new.stops.met) result }
        ensures stopped { OnCallStopped result (self.new.inner ≡ self.old.inner) }
        ensures counted { IfOk result (λ d. count_of d.stops ≡ count_of self.old.stops) }
    {
        passed_sharing!(self.stops, self.inner.create(alloc, seq, kind))
    }

    /// It makes no call of the disk, and goes on also behind the last one.
    fn keep(
        &mut self,
        alloc: Global,
        seq: u32,
        fields: &Stopped<H::Sealed>,
        index: &Stopped<H::Sealed>,
    ) -> Result<(), NoMemory> {
        self.inner.keep(alloc, seq, &fields.inner, &index.inner)
    }
}
