// The keys of all datasets that a partial request asks for.
ghost use Rattle.std.specs.Prelude.{◌≡◌, ◌≤◌, [], ◌∷◌, List, ℕ, false, IfOk, IfErr, IfSome, OnOk, length};
ghost use Rattle.fd_disk.specs.Folders.{Holdings, WhereTold, folder_at};
ghost use Rattle.fd_spelling.specs.Texts.{texts};
ghost use Rattle.fd_segment.specs.Causes.{OnDamaged};
ghost use Rattle.fd_recovery.specs.Recovered.{IsUndamaged};
ghost use Rattle.fd_inventory.specs.Indexes.{IsAmongBad};
ghost use Rattle.fd_stored.specs.Store.{AreNames, IsLookedThrough};
ghost use Rattle.fd_retrieve.specs.{Open.{IsOpenIn}, Ready.{IsBrokenOf, NoneIsDamaged}};
ghost use Rattle.fd_telling.specs.Stops.{OfDataset};
ghost use Rattle.fd_contents.specs.Gathering.{FindsAll, FindsIn};

use crate::datasets::{damaged, opened_at};
use fd_disk::{Down, Sealed, Store};
use fd_inventory::{Found, found_in};
use fd_request::Partial;
use fd_retrieve::Opened;
use fd_segment::LensFault;
use fd_telling::Stop;
use std::alloc::Global;

/// What ended the reading of a dataset's keys.
fn unread<F: Send, Z: Sealed<F>>(
    alloc: Global,
    dataset: &Opened<F, Z>,
    fault: LensFault<F>,
) -> Stop<F>
where
    requires damaged { OnDamaged fault (IsAmongBad dataset.now.shown) }
    ensures broken { (h : Holdings) → IsOpenIn h dataset.now → IsBrokenOf result h (dataset.now.name ∷ []) }
    ensures of { OfDataset result }
{
    match fault {
        LensFault::Fault(fault) => Stop::Disk(fault),
        LensFault::Damaged(damage) => damaged(alloc, dataset, damage),
        LensFault::NoMemory => Stop::NoMemory,
    }
}

/// The keys of a dataset that was opened, behind those that were found.
fn keys_of<F: Send, Z: Sealed<F>>(
    alloc: Global,
    partial: &Partial,
    dataset: &Opened<F, Z>,
    found: Found,
) -> Result<Found, LensFault<F>>
where
    requires short { length dataset.now.name ≤ 255 }
    ensures found { IfOk result (λ f. (h : Holdings) → IsOpenIn h dataset.now → FindsIn partial.now h dataset.now.name found f) }
    ensures damaged { IfErr result (λ e. OnDamaged e (IsAmongBad dataset.now.shown)) }
{
    found_in(alloc, dataset.name(), dataset.snapshot(), partial, found)
}

/// The keys of one dataset, whose folder isn't out, behind those that were found; none where it has no table. It is given back.
fn keys_in<F: Send, S: Store<F>>(
    alloc: Global,
    partial: &Partial,
    store: &mut S,
    name: &str,
    found: Found,
) -> Result<Found, Stop<F>>
where
    requires home { (n : List ℕ) → S.out store.old n ≡ false }
    ensures found { IfOk result (λ f. IfSome (S.has store.old) (λ h. FindsIn partial.now h name.now found f)) }
    ensures undamaged { OnOk result (IfSome (S.has store.old) (λ h. IsUndamaged name.now (folder_at h name.now))) }
    ensures broken { IfErr result (λ stop. IfSome (S.has store.old) (λ h. IsBrokenOf stop h (name.now ∷ []))) }
    ensures of { IfErr result OfDataset }
    ensures looks { WhereTold (S.has store.old) (S.has store.new) IsLookedThrough }
    ensures home { (n : List ℕ) → S.out store.new n ≡ false }
    ensures later { S.faults store.old ≤ S.faults store.new }
{
    let opened = match opened_at(alloc, store, name) {
        Ok(Some(opened)) => opened,
        Ok(None) => return Ok(found),
        Err(stop) => return Err(stop),
    };
    match keys_of(alloc, partial, &opened, found) {
        Ok(found) => Ok(found),
        Err(fault) => Err(unread(alloc, &opened, fault)),
    }
}

/// The keys of the datasets of these names, in their order.
fn keys_in_each<F: Send, S: Store<F>>(
    alloc: Global,
    partial: &Partial,
    store: &mut S,
    names: &[String],
) -> Result<Found, Stop<F>>
where
    requires home { (n : List ℕ) → S.out store.old n ≡ false }
    ensures found { IfOk result (λ f. IfSome (S.has store.old) (λ h. FindsAll partial.now h (texts names.now) f)) }
    ensures undamaged { OnOk result (IfSome (S.has store.old) (λ h. NoneIsDamaged h (texts names.now))) }
    ensures broken { IfErr result (λ stop. IfSome (S.has store.old) (λ h. IsBrokenOf stop h (texts names.now))) }
    ensures of { IfErr result OfDataset }
    ensures looks { WhereTold (S.has store.old) (S.has store.new) IsLookedThrough }
    ensures home { (n : List ℕ) → S.out store.new n ≡ false }
    ensures later { S.faults store.old ≤ S.faults store.new }
{
    let mut found = Found::new(alloc);
    for i in 0..names.len() {
        match keys_in(alloc, partial, store, &names[i], found) {
            Ok(more) => found = more,
            Err(stop) => return Err(stop),
        }
    }
    Ok(found)
}

/// The keys of all datasets of the store, in the order of `list`, each once. Once there are more than a request may have, no more
/// are kept; all datasets are read, so that a damage of one of them is told. Each is given back before the next is opened.
pub(crate) fn keys_asked<F: Send, S: Store<F>>(
    alloc: Global,
    partial: &Partial,
    store: &mut S,
) -> Result<Found, Stop<F>>
where
    requires home { (n : List ℕ) → S.out store.old n ≡ false }
    ensures found { IfOk result (λ f. IfSome (S.has store.old) (λ h. (names : List (List ℕ)) → AreNames h names → FindsAll partial.now h names f)) }
    ensures undamaged { OnOk result (IfSome (S.has store.old) (λ h. (names : List (List ℕ)) → AreNames h names → NoneIsDamaged h names)) }
    ensures broken { IfErr result (λ stop. IfSome (S.has store.old) (λ h. (names : List (List ℕ)) → AreNames h names → IsBrokenOf stop h names)) }
    ensures of { IfErr result OfDataset }
    ensures looks { WhereTold (S.has store.old) (S.has store.new) IsLookedThrough }
    ensures home { (n : List ℕ) → S.out store.new n ≡ false }
    ensures later { S.faults store.old ≤ S.faults store.new }
{
    let names = match store.names(alloc) {
        Ok(names) => names,
        Err(Down::Fault(fault)) => return Err(Stop::Disk(fault)),
        Err(Down::NoMemory) => return Err(Stop::NoMemory),
    };
    match keys_in_each(alloc, partial, store, &names) {
        Ok(found) => Ok(found),
        Err(stop) => Err(stop),
    }
}
