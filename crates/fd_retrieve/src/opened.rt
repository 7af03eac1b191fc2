// A dataset of the store that was opened, and given back.
ghost use Rattle.std.specs.Prelude.{◌≡◌, ◌≤◌, List, ℕ, Option, Some, None, Ok, Err, false, is_some, length, IfOk, IfErr, IfSome};
ghost use Rattle.fd_disk.specs.Folders.{WhereTold, folder_at};
ghost use Rattle.fd_entries.specs.{declared.table.Entry.{Entry}, Table.{listed}};
ghost use Rattle.fd_segment.specs.Shared.{AreOf, standings};
ghost use Rattle.fd_recovery.specs.{Causes.{NotTooMany, OnDamaged, OnNotATable}, Crashing.{IsFirmTable}, Damages.{IsFirst, damages}, Recovered.{IsUndamaged, WithTable}};
ghost use Rattle.fd_stored.specs.Store.{StaysFolder, Stays, has_table};
ghost use Rattle.fd_retrieve.specs.{Looking.{IsLookedAt, IsLookedThrough}, Open.{IsOpenOf, IsOpenIn, StandsAsSaid}};

use fd_ahead::Opened;
use fd_bytes::{Bytes, NoMemory};
use fd_dataset::Snapshot;
use fd_disk::{Disk, Down, Folder, Sealed, Store};
use fd_recovery::{OpenFault, Recovered, recover};
use fd_segment::Segment;
use std::alloc::Global;
use std::sync::Arc;

/// Opens a dataset of the store, whose folder isn't out, and gives it back; `None` exactly where there is no table. The table of one
/// that was opened is firm then.
pub fn open<F: Send, S: Store<F>>(
    alloc: Global,
    store: &mut S,
    name: &str,
) -> Result<Option<Opened<F, <S::Folder as Folder<F>>::Sealed>>, OpenFault<F>>
where
    requires home { (n : List ℕ) → S.out store.old n ≡ false }
    ensures opened { IfOk result (λ o. IfSome o (λ r. (r.name ≡ name.now) × IfSome (S.has store.old) (λ h. IsOpenIn h r))) }
    ensures none { IfOk result (λ o. IfSome (S.has store.old) (λ h. is_some o ≡ has_table h name.now)) }
    ensures undamaged { IfOk result (λ o. IfSome (S.has store.old) (λ h. IsUndamaged name.now (folder_at h name.now))) }
    ensures firm { IfOk result (λ o. IfSome (S.has store.new) (λ i. IsFirmTable (folder_at i name.now).table)) }
    ensures broken { IfErr result (λ e. IfSome (S.has store.old) (λ h. StandsAsSaid name.now (folder_at h name.now) e)) }
    ensures never { IfErr result NotTooMany }
    ensures stays { WhereTold (S.has store.old) (S.has store.new) Stays }
    ensures looks { WhereTold (S.has store.old) (S.has store.new) IsLookedThrough }
    ensures home { (n : List ℕ) → S.out store.new n ≡ false }
    ensures later { S.faults store.old ≤ S.faults store.new }
{
    let mut folder = match store.folder(alloc, name) {
        Ok(folder) => folder,
        Err(Down::Fault(fault)) => return Err(OpenFault::Disk(fault)),
        Err(Down::NoMemory) => return Err(OpenFault::NoMemory),
    };
    let answer = open_in(alloc, &mut folder, name);
    store.give_folder(folder);
    answer
}

/// Opens the dataset of a folder, whose table isn't out, and gives the table back.
#[tactic(auto, using(crate::proofs::Undamaged::undamaged, crate::proofs::Firmly::bare))]
fn open_in<F: Send, D: Folder<F>>(
    alloc: Global,
    folder: &mut D,
    name: &str,
) -> Result<Option<Opened<F, D::Sealed>>, OpenFault<F>>
where
    requires back { D.table_out folder.old ≡ false }
    requires dataset { D.name folder.old ≡ name.now }
    ensures opened { IfOk result (λ o. IfSome o (λ r. (r.name ≡ name.now) × IfSome (D.has folder.old) (λ v. IsOpenOf v r))) }
    ensures none { IfOk result (λ o. IfSome (D.has folder.old) (λ v. is_some o ≡ is_some v.table)) }
    ensures undamaged { IfOk result (λ o. IfSome (D.has folder.old) (λ v. IsUndamaged name.now v)) }
    ensures firm { IfOk result (λ o. IfSome (D.has folder.new) (λ w. IsFirmTable w.table)) }
    ensures broken { IfErr result (λ e. IfSome (D.has folder.old) (λ v. StandsAsSaid name.now v e)) }
    ensures never { IfErr result NotTooMany }
    ensures stays { IfSome (D.has folder.old) (λ v. IfSome (D.has folder.new) (λ w. StaysFolder name.now v w)) }
    ensures looks { IfSome (D.has folder.old) (λ v. IfSome (D.has folder.new) (λ w. IsLookedAt v w)) }
    ensures back { D.table_out folder.new ≡ false }
    ensures name { D.name folder.new ≡ D.name folder.old }
{
    let Recovered { toc, segments } = match recover(alloc, folder, name) {
        Ok(Some(recovered)) => recovered,
        Ok(None) => return Ok(None),
        Err(fault) => return Err(fault),
    };
    folder.give_table(toc.into_table());
    match taken_up(alloc, name, segments) {
        Ok(opened) => Ok(Some(opened)),
        Err(NoMemory) => Err(OpenFault::NoMemory),
    }
}

/// What a table lists: these segments, all of the dataset with this text.
fn taken_up<F: Send, Z: Sealed<F>>(
    alloc: Global,
    name: &str,
    segments: Vec<Arc<Segment<F, Z>>>,
) -> Result<Opened<F, Z>, NoMemory>
where
    requires few { length segments.items ≤ 65535 }
    requires own { AreOf name.now segments.items }
    ensures text { IfOk result (λ r. r.name ≡ name.now) }
    ensures shown { IfOk result (λ r. r.shown ≡ standings segments.items) }
{
    let text = Bytes::from_slice(alloc, name.as_bytes())?;
    let snapshot = Snapshot::of(alloc, text, segments)?;
    let name = String::from_str(alloc, name)?;
    Ok(Opened::new(name, snapshot))
}
