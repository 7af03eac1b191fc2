// A purge and a wipe, once it is known what is dropped.
ghost use Rattle.std.specs.Prelude.{◌≡◌, ◌≤◌, [], true, false, None, Some, IfErr, OnErr, OnOk, option_map};
ghost use Rattle.fd_bytes.specs.Causes.{Rose};
ghost use Rattle.fd_disk.specs.{Causes.{OnFault}, Folders.{founded}, Renewals.{GoesOn, unfounded}};
ghost use Rattle.fd_purge.specs.Carrying.{IsMidway, LeavesMidway, thinned_by};

use crate::removing::remove_all;
use fd_disk::{Down, Renew};
use fd_entries::Entry;
use std::alloc::Global;

/// Renews the table, and then removes the files of dropped entries that no kept one names.
pub(crate) fn thin<F: Send, D: Renew<F>>(
    alloc: Global,
    folder: &mut D,
    table: D::Table,
    bytes: &[u8],
    dropped: &[Entry],
    kept: &[Entry],
) -> Result<(), Down<F>>
    requires out { D.table_out folder.old ≡ true }
    requires table_name { D.Table.name table ≡ D.name folder.old }
    ensures ok { OnOk result (D.has folder.new ≡ option_map (λ v. thinned_by dropped.now kept.now (founded bytes.now v)) (D.has folder.old)) }
    ensures err { OnErr result (IsMidway (D.Table.file table) (λ v. founded bytes.now v) dropped.now kept.now (D.has folder.old) (D.has folder.new)) }
    ensures back { D.table_out folder.new ≡ false }
    ensures last_writer { D.last_writer folder.new ≡ D.last_writer folder.old }
    ensures name { D.name folder.new ≡ D.name folder.old }
    ensures time { GoesOn (D.moment folder.old (Some table)) (D.moment folder.new None) (D.left_since folder.old (Some table)) (D.left_since folder.new None) (LeavesMidway (D.Table.file table) (λ v. founded bytes.now v) dropped.now kept.now (D.has folder.old)) }
    ensures later { D.faults folder.old ≤ D.faults folder.new }
    ensures cause { IfErr result (λ e. OnFault e (Rose (D.faults folder.old) (D.faults folder.new))) }
{
    match folder.renew(alloc, table, bytes) {
        Ok(()) => remove_all(alloc, folder, dropped, kept),
        Err(down) => Err(down),
    }
}

/// Takes the table away, and then removes the files of its entries.
pub(crate) fn clear<F: Send, D: Renew<F>>(
    alloc: Global,
    folder: &mut D,
    table: D::Table,
    entries: &[Entry],
) -> Result<(), Down<F>>
    requires out { D.table_out folder.old ≡ true }
    requires table_name { D.Table.name table ≡ D.name folder.old }
    ensures ok { OnOk result (D.has folder.new ≡ option_map (λ v. thinned_by entries.now [] (unfounded v)) (D.has folder.old)) }
    ensures err { OnErr result (IsMidway (D.Table.file table) (λ v. unfounded v) entries.now [] (D.has folder.old) (D.has folder.new)) }
    ensures back { D.table_out folder.new ≡ false }
    ensures last_writer { D.last_writer folder.new ≡ D.last_writer folder.old }
    ensures name { D.name folder.new ≡ D.name folder.old }
    ensures time { GoesOn (D.moment folder.old (Some table)) (D.moment folder.new None) (D.left_since folder.old (Some table)) (D.left_since folder.new None) (LeavesMidway (D.Table.file table) (λ v. unfounded v) entries.now [] (D.has folder.old)) }
    ensures later { D.faults folder.old ≤ D.faults folder.new }
    ensures cause { IfErr result (λ e. OnFault e (Rose (D.faults folder.old) (D.faults folder.new))) }
{
    match folder.unfound(alloc, table) {
        Ok(()) => remove_all(alloc, folder, entries, &[]),
        Err(down) => Err(down),
    }
}
