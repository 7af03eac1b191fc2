// Purging.
ghost use Rattle.std.specs.Prelude.{◌≡◌, ◌≤◌, ◌+◌, List, ℕ, None, Some, true, false, is_some, length, IfErr, IfOk, IfSome, MatchOption, OnErr, OnOk, option_map};
ghost use Rattle.fd_entries.specs.Table.{AllFit, listed};
ghost use Rattle.fd_recovery.specs.Recovered.{WithTable, with_firm_table};
ghost use Rattle.fd_segment.specs.Shared.{entries, standings};
ghost use Rattle.fd_purge.specs.{Causes.{IsOfFolder, OnDamaged, OnNotATable, OnWriters}, Carrying.{IsCarriedOut, IsUnderWay, LeavesUnderWay}, Kept.{masked, masks, unmasked}, Purging.{IsDamagedIn, IsLeftByPurge, IsOver, IsPurged, IsSafe, first_over, read_of}, Reads.{AreRead, IsAmongBad}};
ghost use Rattle.fd_disk.specs.Renewals.{GoesOn};

use crate::PurgeFault;
use crate::carrying::thin;
use crate::dividing::{DivideFault, Divided, divide};
use crate::masks::masks;
use crate::opening::{of_lens, of_opening};
use crate::table::table_bytes;
use fd_disk::{Down, Renew, Sealed};
use fd_entries::Entry;
use fd_recovery::{Recovered, recover};
use fd_segment::Segment;
use std::alloc::Global;
use std::sync::Arc;

/// How many entries of a table were dropped, and how many were kept.
#[derive(Clone, Copy, Debug, PartialEq, Eq)]
pub struct Purged {
    /// Those that later ones mask: each of their keys is a key of one of these.
    pub dropped: u32,
    /// The others, which the table lists now, in their order.
    pub kept: u32,
}

/// Has the table of this folder, which isn't out, list only entries that no later ones mask, and removes the files of the
/// others, or answers `None` exactly where there is no table. Nobody else has the dataset open, and no shelf of it is out.
///
/// The table is synced and read, and then the indexes. Where no entry is masked nothing is written. At every refusal, and in
/// each image that a crash at any moment may leave once the table was synced, the dataset holds what it held or that without
/// its masked batches, and the files of kept entries are untouched. After `Ok` it holds the latter, and no file of a dropped
/// entry is there but those that a kept entry names too.
pub fn purge<F: Send, D: Renew<F>>(
    alloc: Global,
    folder: &mut D,
    dataset: &str,
) -> Result<Option<Purged>, PurgeFault<F>>
where
    requires back { D.table_out folder.old ≡ false }
    requires dataset { D.name folder.old ≡ dataset.now }
    ensures none { IfOk result (λ o. IfSome (D.has folder.old) (λ v. is_some o ≡ is_some v.table)) }
    ensures purged { IfOk result (λ o. IfSome o (λ p. IfSome (D.has folder.old) (λ v. IfSome (D.has folder.new) (λ w. IsPurged dataset.now v w p.dropped p.kept)))) }
    ensures unwritten { IfOk result (λ o. IfSome o (λ p. p.dropped ≡ 0 → D.has folder.new ≡ option_map with_firm_table (D.has folder.old))) }
    ensures untouched { IfOk result (λ o. MatchOption o (D.has folder.new ≡ D.has folder.old) (λ p. IfSome (D.has folder.old) (λ v. is_some (D.has folder.new) ≡ true))) }
    ensures refused { OnErr result (IfSome (D.has folder.old) (λ v. MatchOption (D.has folder.new) ⊥ (λ w. IsLeftByPurge dataset.now v (read_of w)))) }
    ensures images { IfSome (D.has folder.old) (λ v. MatchOption (D.has folder.new) ⊥ (λ w. IsSafe (D.moment folder.old None) (D.moment folder.new None) (D.left_since folder.new None) v w (IsLeftByPurge dataset.now v))) }
    ensures not_a_table { IfErr result (λ e. OnNotATable e (λ fault. IfSome (D.has folder.old) (λ v. WithTable v.table (λ f. listed dataset.now f.reads ≡ Err fault)))) }
    ensures damaged { IfErr result (λ e. OnDamaged e (λ d. IfSome (D.has folder.old) (IsDamagedIn dataset.now d))) }
    ensures writers { IfErr result (λ e. OnWriters e (λ entry writer. IfSome (D.has folder.old) (IsOver dataset.now entry writer))) }
    ensures back { D.table_out folder.new ≡ false }
    ensures last_writer { D.last_writer folder.new ≡ D.last_writer folder.old }
    ensures name { D.name folder.new ≡ D.name folder.old }
    ensures later { D.faults folder.old ≤ D.faults folder.new }
{
    let Recovered { toc, segments } = match recover(alloc, folder, dataset) {
        Ok(Some(opened)) => opened,
        Ok(None) => return Ok(None),
        Err(fault) => return Err(of_opening(fault)),
    };
    let sorted = sorted_out(alloc, toc.entries(), segments);
    let table = toc.into_table();
    match sorted {
        Ok(divided) => match carry_out(alloc, folder, dataset, table, &divided) {
            Ok(purged) => Ok(Some(purged)),
            Err(fault) => Err(fault),
        },
        Err(fault) => {
            folder.give_table(table);
            Err(fault)
        }
    }
}

// Divides the entries, by the indexes of their segments.
fn sorted_out<F: Send, Z: Sealed<F>>(
    alloc: Global,
    listing: &[Entry],
    segments: Vec<Arc<Segment<F, Z>>>,
) -> Result<Divided, PurgeFault<F>>
where
    requires few { length listing.now ≤ 65535 }
    requires each { entries segments.items ≡ listing.now }
    ensures kept { IfOk result (λ d. (kss : List (List (List ℕ))) → AreRead (standings segments.items) kss → d.kept.items ≡ unmasked (masks kss) listing.now) }
    ensures dropped { IfOk result (λ d. (kss : List (List (List ℕ))) → AreRead (standings segments.items) kss → d.dropped.items ≡ masked (masks kss) listing.now) }
    ensures within { OnOk result ((kss : List (List (List ℕ))) → AreRead (standings segments.items) kss → first_over 0 0 (masks kss) listing.now ≡ None) }
    ensures count { IfOk result (λ d. length d.kept.items + length d.dropped.items ≡ length listing.now) }
    ensures fit { IfOk result (λ d. AllFit 0 d.kept.items) }
    ensures table { IfErr result (λ e. OnNotATable e (λ fault. ⊥)) }
    ensures damaged { IfErr result (λ e. OnDamaged e (IsAmongBad (standings segments.items))) }
    ensures writers { IfErr result (λ e. OnWriters e (λ entry writer. (kss : List (List (List ℕ))) → AreRead (standings segments.items) kss → first_over 0 0 (masks kss) listing.now ≡ Some (entry, writer))) }
{
    let masks = match masks(alloc, &segments) {
        Ok(masks) => masks,
        Err(fault) => return Err(of_lens(fault)),
    };
    match divide(alloc, listing, &masks) {
        Ok(divided) => Ok(divided),
        Err(DivideFault::Over { entry, writer }) => Err(PurgeFault::Writers { entry, writer }),
        Err(DivideFault::NoMemory) => Err(PurgeFault::NoMemory),
    }
}

// Drops what is to be dropped, and tells how many entries these are and how many are kept.
fn carry_out<F: Send, D: Renew<F>>(
    alloc: Global,
    folder: &mut D,
    dataset: &str,
    table: D::Table,
    divided: &Divided,
) -> Result<Purged, PurgeFault<F>>
    requires out { D.table_out folder.old ≡ true }
    requires table_name { D.Table.name table ≡ D.name folder.old }
    requires short { length dataset.now ≤ 255 }
    requires few { length divided.now.kept.items + length divided.now.dropped.items ≤ 65535 }
    requires fit { AllFit 0 divided.now.kept.items }
    ensures counts { IfOk result (λ p. (p.dropped ≡ length divided.now.dropped.items) × (p.kept ≡ length divided.now.kept.items)) }
    ensures ok { OnOk result (IsCarriedOut dataset.now (D.Table.file table) divided.now.dropped.items divided.now.kept.items (D.has folder.old) (D.has folder.new)) }
    ensures err { OnErr result (IsUnderWay dataset.now (D.Table.file table) divided.now.dropped.items divided.now.kept.items (D.has folder.old) (D.has folder.new)) }
    ensures never { IfErr result IsOfFolder }
    ensures back { D.table_out folder.new ≡ false }
    ensures last_writer { D.last_writer folder.new ≡ D.last_writer folder.old }
    ensures name { D.name folder.new ≡ D.name folder.old }
    ensures time { GoesOn (D.moment folder.old (Some table)) (D.moment folder.new None) (D.left_since folder.old (Some table)) (D.left_since folder.new None) (LeavesUnderWay dataset.now (D.Table.file table) divided.now.dropped.items divided.now.kept.items (D.has folder.old)) }
    ensures later { D.faults folder.old ≤ D.faults folder.new }
{
    let purged = Purged {
        dropped: divided.dropped.len() as u32,
        kept: divided.kept.len() as u32,
    };
    if divided.dropped.is_empty() {
        folder.give_table(table);
        return Ok(purged);
    }
    let Ok(bytes) = table_bytes::<F, D::Table>(alloc, dataset, &divided.kept) else {
        folder.give_table(table);
        return Err(PurgeFault::NoMemory);
    };
    match thin(
        alloc,
        folder,
        table,
        &bytes,
        &divided.dropped,
        &divided.kept,
    ) {
        Ok(()) => Ok(purged),
        Err(Down::Fault(fault)) => Err(PurgeFault::Disk(fault)),
        Err(Down::NoMemory) => Err(PurgeFault::NoMemory),
    }
}
