// The lines of all datasets, one dataset after the other.
ghost use Rattle.std.specs.Prelude.{◌≡◌, ◌≤◌, [], ◌∷◌, List, ℕ, Some, false, is_some, length, IfOk, IfErr, IfSome, OnErr, OnOk};
ghost use Rattle.fd_disk.specs.Folders.{Holdings, WhereTold, folder_at};
ghost use Rattle.fd_io.specs.Streams.{TakesFront};
ghost use Rattle.fd_spelling.specs.Texts.{texts};
ghost use Rattle.fd_recovery.specs.{Crashing.{IsFirmTable}, Recovered.{IsUndamaged}};
ghost use Rattle.fd_inventory.specs.Indexes.{IsAmongBad, OnLines};
ghost use Rattle.fd_stored.specs.Store.{AreNames, IsLookedThrough, has_table};
ghost use Rattle.fd_retrieve.specs.{Open.{IsOpenIn}, Ready.{AreFirmOf, IsBrokenOf}};
ghost use Rattle.fd_telling.specs.Stops.{OfDataset};
ghost use Rattle.fd_contents.specs.{Halts.{HasHaltCause, IsWrite, OnStop, OnUnwritten}, Printed.{ArePrinted, IsPrinted}, Texts.{text_for, texts_for}};

use crate::lines::{Lines, write_lines};
use fd_disk::{Down, Folder, Sealed, Store};
use fd_inventory::LinesFault;
use fd_io::Sink;
use fd_retrieve::{Opened, has_table, open, unopened};
use fd_segment::Damage;
use fd_telling::{Broken, Stop};
use std::alloc::Global;

/// Why the lines weren't written to their end.
#[derive(Drop)]
pub(crate) enum Halt<F, X> {
    /// A call of the store failed, a dataset is damaged, or memory ran out.
    Stop(Stop<F>),
    /// A write of the output failed.
    Unwritten(X),
}

/// Opens a dataset of the store, and gives it back; `None` exactly where there is no table. A dataset whose text has more
/// than 255 bytes has none. The table of one that was opened is firm then.
#[tactic(auto, using(fd_retrieve::proofs::Firmly::bare_listed))]
pub(crate) fn opened_at<F: Send, S: Store<F>>(
    alloc: Global,
    store: &mut S,
    name: &str,
) -> Result<Option<Opened<F, <S::Folder as Folder<F>>::Sealed>>, Stop<F>>
where
    requires home { (n : List ℕ) → S.out store.old n ≡ false }
    ensures opened { IfOk result (λ o. IfSome o (λ r. (r.name ≡ name.now) × IfSome (S.has store.old) (λ h. IsOpenIn h r))) }
    ensures short { IfOk result (λ o. IfSome o (λ r. length r.name ≤ 255)) }
    ensures none { IfOk result (λ o. IfSome (S.has store.old) (λ h. is_some o ≡ has_table h name.now)) }
    ensures undamaged { IfOk result (λ o. IfSome (S.has store.old) (λ h. IsUndamaged name.now (folder_at h name.now))) }
    ensures firm { IfOk result (λ o. IfSome (S.has store.new) (λ i. IsFirmTable (folder_at i name.now).table)) }
    ensures broken { IfErr result (λ e. IfSome (S.has store.old) (λ h. IsBrokenOf e h (name.now ∷ []))) }
    ensures of { IfErr result OfDataset }
    ensures looks { WhereTold (S.has store.old) (S.has store.new) IsLookedThrough }
    ensures home { (n : List ℕ) → S.out store.new n ≡ false }
    ensures later { S.faults store.old ≤ S.faults store.new }
{
    if name.len() > 255 {
        return match has_table(alloc, store, name) {
            Ok(_) => Ok(None),
            Err(Down::Fault(fault)) => Err(Stop::Disk(fault)),
            Err(Down::NoMemory) => Err(Stop::NoMemory),
        };
    }
    match open(alloc, store, name) {
        Ok(opened) => Ok(opened),
        Err(fault) => Err(unopened(alloc, name, fault)),
    }
}

/// A damage that the lines of a dataset met.
pub(crate) fn damaged<F: Send, Z: Sealed<F>>(
    alloc: Global,
    dataset: &Opened<F, Z>,
    damage: Damage,
) -> Stop<F>
where
    requires { IsAmongBad dataset.now.shown damage }
    ensures broken { (h : Holdings) → IsOpenIn h dataset.now → IsBrokenOf result h (dataset.now.name ∷ []) }
    ensures of { OfDataset result }
{
    match String::from_str(alloc, dataset.name()) {
        Ok(dataset) => Stop::Broken {
            dataset,
            broken: Broken::File(damage),
        },
        Err(_) => Stop::NoMemory,
    }
}

/// What ended the lines of a dataset.
fn halted<F: Send, Z: Sealed<F>, X>(
    alloc: Global,
    dataset: &Opened<F, Z>,
    fault: LinesFault<F, X>,
) -> Halt<F, X>
where
    requires damaged { OnLines fault (IsAmongBad dataset.now.shown) }
    ensures broken { OnStop result (λ stop. (h : Holdings) → IsOpenIn h dataset.now → IsBrokenOf stop h (dataset.now.name ∷ [])) }
    ensures of { OnStop result OfDataset }
    ensures write { OnUnwritten result (IsWrite fault) }
{
    match fault {
        LinesFault::Disk(fault) => Halt::Stop(Stop::Disk(fault)),
        LinesFault::Write(fault) => Halt::Unwritten(fault),
        LinesFault::Damaged(damage) => Halt::Stop(damaged(alloc, dataset, damage)),
        LinesFault::NoMemory => Halt::Stop(Stop::NoMemory),
    }
}

/// Writes the lines of one dataset, whose folder isn't out; none where it has no table. It is given back.
fn print_one<F: Send, X: Drop, S: Store<F>, K: Sink<X>>(
    alloc: Global,
    lines: &Lines,
    store: &mut S,
    name: &str,
    output: &mut K,
) -> Result<(), Halt<F, X>>
where
    requires home { (n : List ℕ) → S.out store.old n ≡ false }
    ensures printed { OnOk result (IfSome (S.has store.old) (λ h. IsPrinted lines.now h name.now (K.taken output.old) (K.taken output.new))) }
    ensures firm { OnOk result (IfSome (S.has store.new) (λ i. IsFirmTable (folder_at i name.now).table)) }
    ensures front { OnErr result (IfSome (S.has store.old) (λ h. (text : List ℕ) → text_for lines.now h name.now ≡ Some text → TakesFront (K.taken output.old) (K.taken output.new) text)) }
    ensures broken { IfErr result (λ e. OnStop e (λ stop. IfSome (S.has store.old) (λ h. IsBrokenOf stop h (name.now ∷ [])))) }
    ensures cause { HasHaltCause (K.faults output.old) (K.faults output.new) result }
    ensures looks { WhereTold (S.has store.old) (S.has store.new) IsLookedThrough }
    ensures home { (n : List ℕ) → S.out store.new n ≡ false }
    ensures later { S.faults store.old ≤ S.faults store.new }
{
    let opened = match opened_at(alloc, store, name) {
        Ok(Some(opened)) => opened,
        Ok(None) => return Ok(()),
        Err(stop) => return Err(Halt::Stop(stop)),
    };
    match write_lines(alloc, lines, &opened, output) {
        Ok(()) => Ok(()),
        Err(fault) => Err(halted(alloc, &opened, fault)),
    }
}

/// Writes the lines of the datasets of these names, in their order.
fn print_each<F: Send, X: Drop, S: Store<F>, K: Sink<X>>(
    alloc: Global,
    lines: &Lines,
    store: &mut S,
    names: &[String],
    output: &mut K,
) -> Result<(), Halt<F, X>>
where
    requires home { (n : List ℕ) → S.out store.old n ≡ false }
    ensures printed { OnOk result (IfSome (S.has store.old) (λ h. ArePrinted lines.now h (texts names.now) (K.taken output.old) (K.taken output.new))) }
    ensures firm { OnOk result (IfSome (S.has store.new) (λ i. AreFirmOf i (texts names.now))) }
    ensures front { OnErr result (IfSome (S.has store.old) (λ h. (text : List ℕ) → texts_for lines.now h (texts names.now) ≡ Some text → TakesFront (K.taken output.old) (K.taken output.new) text)) }
    ensures broken { IfErr result (λ e. OnStop e (λ stop. IfSome (S.has store.old) (λ h. IsBrokenOf stop h (texts names.now)))) }
    ensures cause { HasHaltCause (K.faults output.old) (K.faults output.new) result }
    ensures looks { WhereTold (S.has store.old) (S.has store.new) IsLookedThrough }
    ensures home { (n : List ℕ) → S.out store.new n ≡ false }
    ensures later { S.faults store.old ≤ S.faults store.new }
{
    for i in 0..names.len() {
        match print_one(alloc, lines, store, &names[i], output) {
            Ok(()) => {}
            Err(halt) => return Err(halt),
        }
    }
    Ok(())
}

/// Writes the lines of all datasets of the store, in the order of their texts. Each is given back before the next is opened.
pub(crate) fn print<F: Send, X: Drop, S: Store<F>, K: Sink<X>>(
    alloc: Global,
    lines: &Lines,
    store: &mut S,
    output: &mut K,
) -> Result<(), Halt<F, X>>
where
    requires home { (n : List ℕ) → S.out store.old n ≡ false }
    ensures printed { OnOk result (IfSome (S.has store.old) (λ h. (names : List (List ℕ)) → AreNames h names → ArePrinted lines.now h names (K.taken output.old) (K.taken output.new))) }
    ensures firm { OnOk result (IfSome (S.has store.old) (λ h. (names : List (List ℕ)) → AreNames h names → IfSome (S.has store.new) (λ i. AreFirmOf i names))) }
    ensures front { OnErr result (IfSome (S.has store.old) (λ h. (names : List (List ℕ)) (text : List ℕ) → AreNames h names → texts_for lines.now h names ≡ Some text → TakesFront (K.taken output.old) (K.taken output.new) text)) }
    ensures broken { IfErr result (λ e. OnStop e (λ stop. IfSome (S.has store.old) (λ h. (names : List (List ℕ)) → AreNames h names → IsBrokenOf stop h names))) }
    ensures cause { HasHaltCause (K.faults output.old) (K.faults output.new) result }
    ensures looks { WhereTold (S.has store.old) (S.has store.new) IsLookedThrough }
    ensures home { (n : List ℕ) → S.out store.new n ≡ false }
    ensures later { S.faults store.old ≤ S.faults store.new }
{
    let names = match store.names(alloc) {
        Ok(names) => names,
        Err(Down::Fault(fault)) => return Err(Halt::Stop(Stop::Disk(fault))),
        Err(Down::NoMemory) => return Err(Halt::Stop(Stop::NoMemory)),
    };
    match print_each(alloc, lines, store, &names, output) {
        Ok(()) => Ok(()),
        Err(halt) => Err(halt),
    }
}
