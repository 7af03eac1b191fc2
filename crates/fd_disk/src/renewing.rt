ghost use Rattle.std.specs.Prelude.{◌≡◌, ◌⊎◌, true, false, None, Some, IfErr, OnOk, OnErr, option_map};
ghost use Rattle.fd_disk.specs.{Causes.{HasDownCause, OnNoMemory}, Folders.{founded, with_table}, Renewals.{GoesOn, IsLeftBetween, removed, unfounded}};

use crate::{Down, FileName, Folder};
use std::alloc::Global;

/// A dataset whose table can be renewed or taken away as a whole, and whose files can be removed: what a purge asks of its
/// folder. A crash at any moment of a call leaves what one before or one after it leaves.
pub trait Renew<F: Send>: Folder<F> {
    /// Has a firm table of exactly these bytes in place of the one that was handed out, and which stays handed in. After an
    /// `Err` there is either of the two.
    fn renew(&mut self, alloc: Global, table: Self::Table, bytes: &[u8]) -> Result<(), Down<F>>
        requires out { Self.table_out self.old ≡ true }
        requires table_name { Self.Table.name table ≡ Self.name self.old }
        ensures ok { OnOk result (Self.has self.new ≡ option_map (founded bytes.now) (Self.has self.old)) }
        ensures err { OnErr result ((Self.has self.new ≡ with_table (Self.Table.file table) (Self.has self.old)) ⊎ (Self.has self.new ≡ option_map (founded bytes.now) (Self.has self.old))) }
        ensures refused { IfErr result (λ e. OnNoMemory e (Self.has self.new ≡ with_table (Self.Table.file table) (Self.has self.old))) }
        ensures back { Self.table_out self.new ≡ false }
        ensures last_writer { Self.last_writer self.new ≡ Self.last_writer self.old }
        ensures name { Self.name self.new ≡ Self.name self.old }
        ensures time { GoesOn (Self.moment self.old (Some table)) (Self.moment self.new None) (Self.left_since self.old (Some table)) (Self.left_since self.new None)
            (IsLeftBetween (with_table (Self.Table.file table) (Self.has self.old)) (option_map (founded bytes.now) (Self.has self.old))) }
        ensures cause { HasDownCause (Self.faults self.old) (Self.faults self.new) result };

    /// Has no table in place of the one that was handed out, and which stays handed in. After an `Err` there is that one or
    /// none.
    fn unfound(&mut self, alloc: Global, table: Self::Table) -> Result<(), Down<F>>
        requires out { Self.table_out self.old ≡ true }
        requires table_name { Self.Table.name table ≡ Self.name self.old }
        ensures ok { OnOk result (Self.has self.new ≡ option_map unfounded (Self.has self.old)) }
        ensures err { OnErr result ((Self.has self.new ≡ with_table (Self.Table.file table) (Self.has self.old)) ⊎ (Self.has self.new ≡ option_map unfounded (Self.has self.old))) }
        ensures refused { IfErr result (λ e. OnNoMemory e (Self.has self.new ≡ with_table (Self.Table.file table) (Self.has self.old))) }
        ensures back { Self.table_out self.new ≡ false }
        ensures last_writer { Self.last_writer self.new ≡ Self.last_writer self.old }
        ensures name { Self.name self.new ≡ Self.name self.old }
        ensures time { GoesOn (Self.moment self.old (Some table)) (Self.moment self.new None) (Self.left_since self.old (Some table)) (Self.left_since self.new None)
            (IsLeftBetween (with_table (Self.Table.file table) (Self.has self.old)) (option_map unfounded (Self.has self.old))) }
        ensures cause { HasDownCause (Self.faults self.old) (Self.faults self.new) result };

    /// Removes a file, where there is one of this name. That no image of the table lists it, nor a shelf that is out has it,
    /// is owed by whoever knows the list: the folder doesn't. After an `Err` the file is there or not. No other file changes.
    fn remove(&mut self, alloc: Global, file: FileName) -> Result<(), Down<F>>
        requires back { Self.table_out self.old ≡ false }
        ensures ok { OnOk result (Self.has self.new ≡ option_map (removed file) (Self.has self.old)) }
        ensures err { OnErr result ((Self.has self.new ≡ Self.has self.old) ⊎ (Self.has self.new ≡ option_map (removed file) (Self.has self.old))) }
        ensures refused { IfErr result (λ e. OnNoMemory e (Self.has self.new ≡ Self.has self.old)) }
        ensures back { Self.table_out self.new ≡ false }
        ensures last_writer { Self.last_writer self.new ≡ Self.last_writer self.old }
        ensures name { Self.name self.new ≡ Self.name self.old }
        ensures time { GoesOn (Self.moment self.old None) (Self.moment self.new None) (Self.left_since self.old None) (Self.left_since self.new None)
            (IsLeftBetween (Self.has self.old) (option_map (removed file) (Self.has self.old))) }
        ensures cause { HasDownCause (Self.faults self.old) (Self.faults self.new) result };
}
