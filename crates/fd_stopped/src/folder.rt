// One dataset, until it stops.
ghost use Rattle.std.specs.Prelude.{◌≡◌, ◌⊎◌, ◌≤◌, ◌<◌, ◌+◌, false, Option, Some, None, length, IfOk, IfErr, OnOk, OnErr, IfSome, IsSome, MatchOption, is_some, option_map};
ghost use Rattle.fd_disk.specs.{declared.folders.FileName.{FileName}, Causes.{HasDownCause, OnNoMemory}, Folders.{founded, no_files, without_table}, Renewals.{StandsStill}};
ghost use Rattle.fd_stopped.specs.{declared.stopped.Stopped.{Stopped}, Counts.{count_of}, Stopping.{OnCallStopped}};

use crate::{StopFault, Stopped};
use fd_disk::{Down, FileName, Folder};
use std::alloc::Global;

impl<F: Send, D: Folder<F>> Folder<StopFault<F>> for Stopped<D> {
    ghost use Rattle.std.specs.Prelude.{◌+◌, option_map};

    type Sealed = Stopped<D::Sealed>;

    type Table = Stopped<D::Table>;

    type Shelf = Stopped<D::Shelf>;

    ghost has = { λ d. D.has d.inner };

    ghost table_out = { λ d. D.table_out d.inner };

    ghost last_writer = { λ d. D.last_writer d.inner };

    ghost name = { λ d. D.name d.inner };

    ghost faults = { λ d. D.faults d.inner + d.stops.met };

    ghost moment = { λ d out. D.moment d.inner (option_map (λ t. t.inner) out) };

    ghost left_since = { λ d out t left. D.left_since d.inner (option_map (λ t. t.inner) out) t left };

    ghost counts_now = { λ d v t left is back le image. D.counts_now d.inner v t left is back le image };

    ghost only_now = { λ d v left is back since. D.only_now d.inner v left is back since };

    ghost only_beside = { λ d table left since. D.only_beside d.inner table.inner left since };

    ghost earlier = { λ d out t u left before since. D.earlier d.inner (option_map (λ t. t.inner) out) t u left before since };

    ghost ticks = { λ d old new later. D.ticks d.inner old.inner new.inner later };

    ghost quiet = { λ d old new t left leaves since. D.quiet d.inner old.inner new.inner t left (record { later = leaves.later; each = leaves.each; before = leaves.before }) since };

    fn found(&mut self, alloc: Global, first: &[u8]) -> Result<(), Down<StopFault<F>>>
        requires none { IfSome (D.has self.old.inner) (λ v. v.table ≡ None) }
        requires back { D.table_out self.old.inner ≡ false }
        requires short { length (D.name self.old.inner) ≤ 255 }
        ensures ok { OnOk result (D.has self.new.inner ≡ option_map (founded first.now) (D.has self.old.inner)) }
        ensures err { OnErr result ((D.has self.new.inner ≡ D.has self.old.inner) ⊎ (D.has self.new.inner ≡ option_map (founded first.now) (D.has self.old.inner))) }
        ensures refused { IfErr result (λ e. OnNoMemory e (D.has self.new.inner ≡ D.has self.old.inner)) }
        ensures out { D.table_out self.new.inner ≡ false }
        ensures last_writer { D.last_writer self.new.inner ≡ D.last_writer self.old.inner }
        ensures name { D.name self.new.inner ≡ D.name self.old.inner }
        ensures cause { HasDownCause (D.faults self.old.inner + self.old.stops.met) (D.faults self.new.inner + self.new.stops.met) result }
        ensures stopped { OnCallStopped result (self.new.inner ≡ self.old.inner) }
    {
        stop!(self.stops);
        passed!(self.inner.found(alloc, first), Ok(()) => Ok(()))
    }

    fn table(&mut self, alloc: Global) -> Result<Option<Stopped<D::Table>>, Down<StopFault<F>>>
        requires { D.table_out self.old.inner ≡ false }
        ensures given { IfOk result (λ o. IfSome (D.has self.old.inner) (λ v. MatchOption o (v.table ≡ None) (λ t. (D.Table.file t.inner ≡ v.table) × IsSome v.table))) }
        ensures table_name { IfOk result (λ o. IfSome o (λ t. D.Table.name t.inner ≡ D.name self.old.inner)) }
        ensures short { IfOk result (λ o. IsSome o → length (D.name self.old.inner) ≤ 255) }
        ensures has { OnOk result (D.has self.new.inner ≡ option_map without_table (D.has self.old.inner)) }
        ensures has_err { OnErr result (D.has self.new.inner ≡ D.has self.old.inner) }
        ensures out { IfOk result (λ o. D.table_out self.new.inner ≡ is_some o) }
        ensures out_err { OnErr result (D.table_out self.new.inner ≡ false) }
        ensures last_writer { D.last_writer self.new.inner ≡ D.last_writer self.old.inner }
        ensures name { D.name self.new.inner ≡ D.name self.old.inner }
        ensures time { IfOk result (λ o. StandsStill (D.moment self.old.inner None) (D.moment self.new.inner (option_map (λ t. t.inner) o)) (D.left_since self.old.inner None) (D.left_since self.new.inner (option_map (λ t. t.inner) o))) }
        ensures time_err { OnErr result (StandsStill (D.moment self.old.inner None) (D.moment self.new.inner None) (D.left_since self.old.inner None) (D.left_since self.new.inner None)) }
        ensures cause { HasDownCause (D.faults self.old.inner + self.old.stops.met) (D.faults self.new.inner + self.new.stops.met) result }
        ensures stopped { OnCallStopped result (self.new.inner ≡ self.old.inner) }
        ensures counted { IfOk result (λ o. IfSome o (λ t. count_of t.stops ≡ count_of self.old.stops)) }
    {
        passed_sharing_some!(self.stops, self.inner.table(alloc))
    }

    fn give_table(&mut self, table: Stopped<D::Table>) {
        self.inner.give_table(table.into_inner());
    }

    fn shelf(&mut self, alloc: Global, writer: u32) -> Result<Stopped<D::Shelf>, Down<StopFault<F>>>
        requires { D.last_writer self.old.inner < writer }
        ensures shelf { IfOk result (λ s. (D.Shelf.writer s.inner ≡ writer) × (D.Shelf.name s.inner ≡ D.name self.old.inner)) }
        ensures nothing { IfOk result (λ s. (D.Shelf.kept s.inner ≡ option_map (λ _. no_files) (D.has self.old.inner)) × ((n : FileName) → D.Shelf.created s.inner n ≡ false)) }
        ensures last_writer { D.last_writer self.new.inner ≤ writer }
        ensures refused { IfErr result (λ e. OnNoMemory e (D.last_writer self.new.inner ≡ D.last_writer self.old.inner)) }
        ensures has { D.has self.new.inner ≡ D.has self.old.inner }
        ensures out { D.table_out self.new.inner ≡ D.table_out self.old.inner }
        ensures name { D.name self.new.inner ≡ D.name self.old.inner }
        ensures cause { HasDownCause (D.faults self.old.inner + self.old.stops.met) (D.faults self.new.inner + self.new.stops.met) result }
        ensures stopped { OnCallStopped result (self.new.inner ≡ self.old.inner) }
        ensures counted { IfOk result (λ s. count_of s.stops ≡ count_of self.old.stops) }
    {
        passed_sharing!(self.stops, self.inner.shelf(alloc, writer))
    }

    fn give_shelf(&mut self, shelf: Stopped<D::Shelf>) {
        self.inner.give_shelf(shelf.into_inner());
    }

    fn sealed(
        &mut self,
        alloc: Global,
        file: FileName,
    ) -> Result<Option<Stopped<D::Sealed>>, Down<StopFault<F>>>
        ensures given { IfOk result (λ o. IfSome (D.has self.old.inner) (λ v. MatchOption o (v.files file ≡ None) (λ z. (D.Sealed.bytes z.inner ≡ v.files file) × IsSome (v.files file)))) }
        ensures file_name { IfOk result (λ o. IfSome o (λ z. (D.Sealed.name z.inner ≡ D.name self.old.inner) × (D.Sealed.made z.inner ≡ Some file))) }
        ensures has { D.has self.new.inner ≡ D.has self.old.inner }
        ensures out { D.table_out self.new.inner ≡ D.table_out self.old.inner }
        ensures last_writer { D.last_writer self.new.inner ≡ D.last_writer self.old.inner }
        ensures name { D.name self.new.inner ≡ D.name self.old.inner }
        ensures time { (out : Option (Stopped D.Table)) → StandsStill (D.moment self.old.inner (option_map (λ t. t.inner) out)) (D.moment self.new.inner (option_map (λ t. t.inner) out)) (D.left_since self.old.inner (option_map (λ t. t.inner) out)) (D.left_since self.new.inner (option_map (λ t. t.inner) out)) }
        ensures cause { HasDownCause (D.faults self.old.inner + self.old.stops.met) (D.faults self.new.inner + self.new.stops.met) result }
        ensures stopped { OnCallStopped result (self.new.inner ≡ self.old.inner) }
        ensures counted { IfOk result (λ o. IfSome o (λ z. count_of z.stops ≡ count_of self.old.stops)) }
    {
        passed_sharing_some!(self.stops, self.inner.sealed(alloc, file))
    }
}
