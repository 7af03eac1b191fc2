// Wiping.
ghost use Rattle.std.specs.Prelude.{◌≡◌, ◌≤◌, List, None, Ok, Err, true, false, is_some, IfErr, IfOk, IfSome, MatchOption, OnErr};
ghost use Rattle.fd_entries.specs.{declared.table.Entry.{Entry}, Table.{listed}};
ghost use Rattle.fd_recovery.specs.{Damages.{IsFirst, damages}, Recovered.{WithTable}};
ghost use Rattle.fd_purge.specs.{Causes.{NoWriters, OnDamaged, OnNotATable}, Purging.{HasWiped, IsLeftByWipe, IsSafe, read_of}};

use crate::PurgeFault;
use crate::carrying::clear;
use crate::opening::of_opening;
use fd_disk::{Down, Renew};
use fd_entries::Entry;
use fd_recovery::{Recovered, recover};
use std::alloc::Global;

/// Takes away the table of this folder, which isn't out, and the files of its entries, and answers how many entries there
/// were, or `None` exactly where there is no table. Nobody else has the dataset open, and no shelf of it is out.
///
/// The table is synced and read first. At every refusal, and in each image that a crash at any moment may leave once the table
/// was synced, the dataset holds what it held or nothing. After `Ok` there is no table, and no file of an entry.
pub fn wipe<F: Send, D: Renew<F>>(
    alloc: Global,
    folder: &mut D,
    dataset: &str,
) -> Result<Option<u32>, PurgeFault<F>>
where
    requires back { D.table_out folder.old ≡ false }
    requires dataset { D.name folder.old ≡ dataset.now }
    ensures none { IfOk result (λ o. IfSome (D.has folder.old) (λ v. is_some o ≡ is_some v.table)) }
    ensures wiped { IfOk result (λ o. IfSome o (λ n. IfSome (D.has folder.old) (λ v. IfSome (D.has folder.new) (λ w. HasWiped dataset.now v w n)))) }
    ensures untouched { IfOk result (λ o. MatchOption o (D.has folder.new ≡ D.has folder.old) (λ n. IfSome (D.has folder.old) (λ v. is_some (D.has folder.new) ≡ true))) }
    ensures refused { OnErr result (IfSome (D.has folder.old) (λ v. MatchOption (D.has folder.new) ⊥ (λ w. IsLeftByWipe dataset.now v (read_of w)))) }
    ensures images { IfSome (D.has folder.old) (λ v. MatchOption (D.has folder.new) ⊥ (λ w. IsSafe (D.moment folder.old None) (D.moment folder.new None) (D.left_since folder.new None) v w (IsLeftByWipe dataset.now v))) }
    ensures not_a_table { IfErr result (λ e. OnNotATable e (λ fault. IfSome (D.has folder.old) (λ v. WithTable v.table (λ f. listed dataset.now f.reads ≡ Err fault)))) }
    ensures damaged { IfErr result (λ e. OnDamaged e (λ d. IfSome (D.has folder.old) (λ v. WithTable v.table (λ f. (es : List Entry) × (listed dataset.now f.reads ≡ Ok es) × IsFirst d (damages v.files es))))) }
    ensures never { IfErr result NoWriters }
    ensures back { D.table_out folder.new ≡ false }
    ensures last_writer { D.last_writer folder.new ≡ D.last_writer folder.old }
    ensures name { D.name folder.new ≡ D.name folder.old }
    ensures later { D.faults folder.old ≤ D.faults folder.new }
{
    let Recovered { toc, segments: _ } = match recover(alloc, folder, dataset) {
        Ok(Some(opened)) => opened,
        Ok(None) => return Ok(None),
        Err(fault) => return Err(of_opening(fault)),
    };
    let copied = Vec::from_slice(alloc, toc.entries());
    let table = toc.into_table();
    let Ok(entries) = copied else {
        folder.give_table(table);
        return Err(PurgeFault::NoMemory);
    };
    let count = entries.len() as u32;
    match clear(alloc, folder, table, &entries) {
        Ok(()) => Ok(Some(count)),
        Err(Down::Fault(fault)) => Err(PurgeFault::Disk(fault)),
        Err(Down::NoMemory) => Err(PurgeFault::NoMemory),
    }
}
