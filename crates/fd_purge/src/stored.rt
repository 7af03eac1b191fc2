// Purging and wiping a dataset of a store.
ghost use Rattle.std.specs.Prelude.{◌≡◌, ◌≤◌, true, false, List, ℕ, None, Err, Ok, is_some, IfErr, IfOk, IfSome, OnErr, MatchOption};
ghost use Rattle.fd_disk.specs.Folders.{SameBut, WhereTold, folder_at};
ghost use Rattle.fd_entries.specs.{declared.table.Entry.{Entry}, Table.{listed}};
ghost use Rattle.fd_recovery.specs.{Damages.{IsFirst, damages}, Recovered.{WithTable, with_firm_table}};
ghost use Rattle.fd_purge.specs.{Causes.{NoWriters, OnDamaged, OnNotATable, OnWriters}, Stored.{IsLeftFirmly}, Purging.{HasWiped, IsDamagedIn, IsLeftByPurge, IsLeftByWipe, IsOver, IsPurged, read_of}};

use crate::{PurgeFault, Purged, purge, wipe};
use fd_disk::{Renew, Store};
use std::alloc::Global;

/// Purges a dataset of a store, whose folder isn't out, and leaves every other. It answers what `purge` does of that folder.
pub fn purge_in<F: Send, S: Store<F>>(
    alloc: Global,
    store: &mut S,
    dataset: &str,
) -> Result<Option<Purged>, PurgeFault<F>>
where
    S::Folder: Renew<F>,
    requires { S.out store.old dataset.now ≡ false }
    ensures none { IfOk result (λ o. IfSome (S.has store.old) (λ h. is_some o ≡ is_some (folder_at h dataset.now).table)) }
    ensures purged { IfOk result (λ o. IfSome o (λ p. IfSome (S.has store.old) (λ h. IfSome (S.has store.new) (λ i. IsPurged dataset.now (folder_at h dataset.now) (folder_at i dataset.now) p.dropped p.kept)))) }
    ensures unwritten { IfOk result (λ o. IfSome o (λ p. p.dropped ≡ 0 → IfSome (S.has store.old) (λ h. IfSome (S.has store.new) (λ i. folder_at i dataset.now ≡ with_firm_table (folder_at h dataset.now))))) }
    ensures untouched { IfOk result (λ o. o ≡ None → IfSome (S.has store.old) (λ h. IfSome (S.has store.new) (λ i. folder_at i dataset.now ≡ folder_at h dataset.now))) }
    ensures refused { OnErr result (IfSome (S.has store.old) (λ h. MatchOption (S.has store.new) ⊥ (λ i. IsLeftByPurge dataset.now (folder_at h dataset.now) (read_of (folder_at i dataset.now))))) }
    ensures images { IfSome (S.has store.old) (λ h. MatchOption (S.has store.new) ⊥ (λ i. IsLeftFirmly (IsLeftByPurge dataset.now (folder_at h dataset.now)) (folder_at h dataset.now) (folder_at i dataset.now))) }
    ensures not_a_table { IfErr result (λ e. OnNotATable e (λ fault. IfSome (S.has store.old) (λ h. WithTable (folder_at h dataset.now).table (λ f. listed dataset.now f.reads ≡ Err fault)))) }
    ensures damaged { IfErr result (λ e. OnDamaged e (λ d. IfSome (S.has store.old) (λ h. IsDamagedIn dataset.now d (folder_at h dataset.now)))) }
    ensures writers { IfErr result (λ e. OnWriters e (λ entry writer. IfSome (S.has store.old) (λ h. IsOver dataset.now entry writer (folder_at h dataset.now)))) }
    ensures others { WhereTold (S.has store.old) (S.has store.new) (SameBut dataset.now) }
    ensures out { (other : List ℕ) → S.out store.new other ≡ true → S.out store.old other ≡ true }
    ensures later { S.faults store.old ≤ S.faults store.new }
{
    let mut folder = store.folder(alloc, dataset)?;
    let purged = purge(alloc, &mut folder, dataset);
    store.give_folder(folder);
    purged
}

/// Wipes a dataset of a store, whose folder isn't out, and leaves every other. It answers what `wipe` does of that folder.
pub fn wipe_in<F: Send, S: Store<F>>(
    alloc: Global,
    store: &mut S,
    dataset: &str,
) -> Result<Option<u32>, PurgeFault<F>>
where
    S::Folder: Renew<F>,
    requires { S.out store.old dataset.now ≡ false }
    ensures none { IfOk result (λ o. IfSome (S.has store.old) (λ h. is_some o ≡ is_some (folder_at h dataset.now).table)) }
    ensures wiped { IfOk result (λ o. IfSome o (λ n. IfSome (S.has store.old) (λ h. IfSome (S.has store.new) (λ i. HasWiped dataset.now (folder_at h dataset.now) (folder_at i dataset.now) n)))) }
    ensures untouched { IfOk result (λ o. o ≡ None → IfSome (S.has store.old) (λ h. IfSome (S.has store.new) (λ i. folder_at i dataset.now ≡ folder_at h dataset.now))) }
    ensures refused { OnErr result (IfSome (S.has store.old) (λ h. MatchOption (S.has store.new) ⊥ (λ i. IsLeftByWipe dataset.now (folder_at h dataset.now) (read_of (folder_at i dataset.now))))) }
    ensures images { IfSome (S.has store.old) (λ h. MatchOption (S.has store.new) ⊥ (λ i. IsLeftFirmly (IsLeftByWipe dataset.now (folder_at h dataset.now)) (folder_at h dataset.now) (folder_at i dataset.now))) }
    ensures not_a_table { IfErr result (λ e. OnNotATable e (λ fault. IfSome (S.has store.old) (λ h. WithTable (folder_at h dataset.now).table (λ f. listed dataset.now f.reads ≡ Err fault)))) }
    ensures damaged { IfErr result (λ e. OnDamaged e (λ d. IfSome (S.has store.old) (λ h. WithTable (folder_at h dataset.now).table (λ f. (es : List Entry) × (listed dataset.now f.reads ≡ Ok es) × IsFirst d (damages (folder_at h dataset.now).files es))))) }
    ensures never { IfErr result NoWriters }
    ensures others { WhereTold (S.has store.old) (S.has store.new) (SameBut dataset.now) }
    ensures out { (other : List ℕ) → S.out store.new other ≡ true → S.out store.old other ≡ true }
    ensures later { S.faults store.old ≤ S.faults store.new }
{
    let mut folder = store.folder(alloc, dataset)?;
    let wiped = wipe(alloc, &mut folder, dataset);
    store.give_folder(folder);
    wiped
}
