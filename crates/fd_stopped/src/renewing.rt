// A dataset whose table is renewed, until it stops.
ghost use Rattle.std.specs.Prelude.{◌≡◌, ◌⊎◌, ◌+◌, true, false, Some, None, IfErr, OnOk, OnErr, option_map};
ghost use Rattle.fd_disk.specs.{Causes.{HasDownCause, OnNoMemory}, Folders.{founded, with_table}, Renewals.{GoesOn, IsLeftBetween, removed, unfounded}};
ghost use Rattle.fd_stopped.specs.Stopping.{OnCallStopped};

use crate::{StopFault, Stopped};
use fd_disk::{Down, FileName, Folder, Renew};
use std::alloc::Global;

impl<F: Send, D: Renew<F>> Renew<StopFault<F>> for Stopped<D> {
    /// Where it is stopped the table is put back as it is.
    fn renew(
        &mut self,
        alloc: Global,
        table: Stopped<D::Table>,
        bytes: &[u8],
    ) -> Result<(), Down<StopFault<F>>>
        requires out { D.table_out self.old.inner ≡ true }
        requires table_name { D.Table.name table.inner ≡ D.name self.old.inner }
        ensures ok { OnOk result (D.has self.new.inner ≡ option_map (founded bytes.now) (D.has self.old.inner)) }
        ensures err { OnErr result ((D.has self.new.inner ≡ with_table (D.Table.file table.inner) (D.has self.old.inner)) ⊎ (D.has self.new.inner ≡ option_map (founded bytes.now) (D.has self.old.inner))) }
        ensures refused { IfErr result (λ e. OnNoMemory e (D.has self.new.inner ≡ with_table (D.Table.file table.inner) (D.has self.old.inner))) }
        ensures back { D.table_out self.new.inner ≡ false }
        ensures last_writer { D.last_writer self.new.inner ≡ D.last_writer self.old.inner }
        ensures name { D.name self.new.inner ≡ D.name self.old.inner }
        ensures time { GoesOn (D.moment self.old.inner (Some table.inner)) (D.moment self.new.inner None) (D.left_since self.old.inner (Some table.inner)) (D.left_since self.new.inner None) (IsLeftBetween (with_table (D.Table.file table.inner) (D.has self.old.inner)) (option_map (founded bytes.now) (D.has self.old.inner))) }
        ensures cause { HasDownCause (D.faults self.old.inner + self.old.stops.met) (D.faults self.new.inner + self.new.stops.met) result }
        ensures stopped { OnCallStopped result (D.has self.new.inner ≡ with_table (D.Table.file table.inner) (D.has self.old.inner)) }
    {
        let table = table.into_inner();
        stop_with_table!(self, table);
        passed!(self.inner.renew(alloc, table, bytes), Ok(()) => Ok(()))
    }

    /// Where it is stopped the table is put back as it is.
    fn unfound(&mut self, alloc: Global, table: Stopped<D::Table>) -> Result<(), Down<StopFault<F>>>
        requires out { D.table_out self.old.inner ≡ true }
        requires table_name { D.Table.name table.inner ≡ D.name self.old.inner }
        ensures ok { OnOk result (D.has self.new.inner ≡ option_map unfounded (D.has self.old.inner)) }
        ensures err { OnErr result ((D.has self.new.inner ≡ with_table (D.Table.file table.inner) (D.has self.old.inner)) ⊎ (D.has self.new.inner ≡ option_map unfounded (D.has self.old.inner))) }
        ensures refused { IfErr result (λ e. OnNoMemory e (D.has self.new.inner ≡ with_table (D.Table.file table.inner) (D.has self.old.inner))) }
        ensures back { D.table_out self.new.inner ≡ false }
        ensures last_writer { D.last_writer self.new.inner ≡ D.last_writer self.old.inner }
        ensures name { D.name self.new.inner ≡ D.name self.old.inner }
        ensures time { GoesOn (D.moment self.old.inner (Some table.inner)) (D.moment self.new.inner None) (D.left_since self.old.inner (Some table.inner)) (D.left_since self.new.inner None) (IsLeftBetween (with_table (D.Table.file table.inner) (D.has self.old.inner)) (option_map unfounded (D.has self.old.inner))) }
        ensures cause { HasDownCause (D.faults self.old.inner + self.old.stops.met) (D.faults self.new.inner + self.new.stops.met) result }
        ensures stopped { OnCallStopped result (D.has self.new.inner ≡ with_table (D.Table.file table.inner) (D.has self.old.inner)) }
    {
        let table = table.into_inner();
        stop_with_table!(self, table);
        passed!(self.inner.unfound(alloc, table), Ok(()) => Ok(()))
    }

    fn remove(&mut self, alloc: Global, file: FileName) -> Result<(), Down<StopFault<F>>>
        requires back { D.table_out self.old.inner ≡ false }
        ensures ok { OnOk result (D.has self.new.inner ≡ option_map (removed file) (D.has self.old.inner)) }
        ensures err { OnErr result ((D.has self.new.inner ≡ D.has self.old.inner) ⊎ (D.has self.new.inner ≡ option_map (removed file) (D.has self.old.inner))) }
        ensures refused { IfErr result (λ e. OnNoMemory e (D.has self.new.inner ≡ D.has self.old.inner)) }
        ensures back { D.table_out self.new.inner ≡ false }
        ensures last_writer { D.last_writer self.new.inner ≡ D.last_writer self.old.inner }
        ensures name { D.name self.new.inner ≡ D.name self.old.inner }
        ensures time { GoesOn (D.moment self.old.inner None) (D.moment self.new.inner None) (D.left_since self.old.inner None) (D.left_since self.new.inner None) (IsLeftBetween (D.has self.old.inner) (option_map (removed file) (D.has self.old.inner))) }
        ensures cause { HasDownCause (D.faults self.old.inner + self.old.stops.met) (D.faults self.new.inner + self.new.stops.met) result }
        ensures stopped { OnCallStopped result (self.new.inner ≡ self.old.inner) }
    {
        stop!(self.stops);
        passed!(self.inner.remove(alloc, file), Ok(()) => Ok(()))
    }
}
