// A dataset is purged or wiped, where the store has a schema.
ghost use Rattle.std.specs.Prelude.{◌≡◌, ◌≤◌, List, ℕ, Some, Ok, false, IfErr, IfOk, IfSome, OnOk};
ghost use Rattle.fd_disk.specs.Folders.{WhereTold, folder_at};
ghost use Rattle.fd_outcome.specs.{Asking.{rules_of}, Outcome.{reclaimed, reported}, Reclaiming.{InDataset, PurgeDone, PurgeUnderWay, WipeDone, WipeUnderWay, purge_told, purged_line, wipe_told, wiped_line}};
ghost use Rattle.fd_reclaim.specs.Halts.{IsRuled, LeavesHalted, Says, Unrules};

use crate::halt::{Halt, of_fault, of_unruled};
use fd_disk::{Renew, Store};
use fd_outcome::stored_schema;
use fd_purge::{Purged, purge_in, wipe_in};
use std::alloc::Global;

/// Tells that the store has a schema that is one.
fn ruled<F: Send, S: Store<F>>(alloc: Global, root: &str, store: &mut S) -> Result<(), Halt<F>>
    ensures ok { OnOk result (IfSome (S.has store.old) (λ h. IsRuled (rules_of h.schema))) }
    ensures refused { IfErr result (λ e. IfSome (S.has store.old) (λ h. Unrules e (rules_of h.schema))) }
    ensures has { S.has store.new ≡ S.has store.old }
    ensures out { S.out store.new ≡ S.out store.old }
    ensures later { S.faults store.old ≤ S.faults store.new }
{
    match stored_schema(alloc, store, root) {
        Ok(_) => Ok(()),
        Err(unruled) => Err(of_unruled(unruled)),
    }
}

/// Purges a dataset of a store that has a schema, and leaves every other.
pub(crate) fn purged<F: Send, S: Store<F>>(
    alloc: Global,
    root: &str,
    store: &mut S,
    dataset: &str,
) -> Result<Purged, Halt<F>>
where
    S::Folder: Renew<F>,
    requires home { (name : List ℕ) → S.out store.old name ≡ false }
    ensures ok { IfOk result (λ p. IfSome (S.has store.old) (λ h. reclaimed (rules_of h.schema) (purge_told dataset.now (folder_at h dataset.now)) ≡ Some (reported (Ok (purged_line p.dropped p.kept))))) }
    ensures done { OnOk result (WhereTold (S.has store.old) (S.has store.new) (InDataset dataset.now (PurgeDone dataset.now))) }
    ensures refused { IfErr result (λ e. IfSome (S.has store.old) (λ h. Says e dataset.now h (reclaimed (rules_of h.schema) (purge_told dataset.now (folder_at h dataset.now))))) }
    ensures left { IfErr result (λ e. WhereTold (S.has store.old) (S.has store.new) (InDataset dataset.now (LeavesHalted e (PurgeUnderWay dataset.now)))) }
    ensures home { (name : List ℕ) → S.out store.new name ≡ false }
    ensures later { S.faults store.old ≤ S.faults store.new }
{
    match ruled(alloc, root, store) {
        Ok(()) => {}
        Err(halt) => return Err(halt),
    }
    match purge_in(alloc, store, dataset) {
        Ok(Some(purged)) => Ok(purged),
        Ok(None) => Err(Halt::NoDataset),
        Err(fault) => Err(of_fault(fault)),
    }
}

/// Wipes a dataset of a store that has a schema, and leaves every other. Answers how many entries there were.
pub(crate) fn wiped<F: Send, S: Store<F>>(
    alloc: Global,
    root: &str,
    store: &mut S,
    dataset: &str,
) -> Result<u32, Halt<F>>
where
    S::Folder: Renew<F>,
    requires home { (name : List ℕ) → S.out store.old name ≡ false }
    ensures ok { IfOk result (λ n. IfSome (S.has store.old) (λ h. reclaimed (rules_of h.schema) (wipe_told dataset.now (folder_at h dataset.now)) ≡ Some (reported (Ok (wiped_line n))))) }
    ensures done { OnOk result (WhereTold (S.has store.old) (S.has store.new) (InDataset dataset.now (WipeDone dataset.now))) }
    ensures refused { IfErr result (λ e. IfSome (S.has store.old) (λ h. Says e dataset.now h (reclaimed (rules_of h.schema) (wipe_told dataset.now (folder_at h dataset.now))))) }
    ensures left { IfErr result (λ e. WhereTold (S.has store.old) (S.has store.new) (InDataset dataset.now (LeavesHalted e (WipeUnderWay dataset.now)))) }
    ensures home { (name : List ℕ) → S.out store.new name ≡ false }
    ensures later { S.faults store.old ≤ S.faults store.new }
{
    match ruled(alloc, root, store) {
        Ok(()) => {}
        Err(halt) => return Err(halt),
    }
    match wipe_in(alloc, store, dataset) {
        Ok(Some(count)) => Ok(count),
        Ok(None) => Err(Halt::NoDataset),
        Err(fault) => Err(of_fault(fault)),
    }
}
