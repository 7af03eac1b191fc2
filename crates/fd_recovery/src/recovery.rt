ghost use Rattle.std.specs.Prelude.{◌≡◌, ◌⊎◌, ◌≤◌, [], List, ℕ, None, Ok, Err, is_some, false, IfOk, IfErr, IfSome, IsSome, OnOk, OnErr, option_map, map, length};
ghost use Rattle.fd_bytes.specs.Causes.{Rose};
ghost use Rattle.fd_disk.specs.{Folders.{without_table}, Images.{synced}, Moments.{MayLeave}, Renewals.{IsQuiet}};
ghost use Rattle.fd_entries.specs.{declared.table.Entry.{Entry}, Table.{AllFit, listed}};
ghost use Rattle.fd_segment.specs.{Held.{batch_of}, Shared.{AreOf, entries, standings}};
ghost use Rattle.fd_toc.specs.Lists.{Lists};
ghost use Rattle.fd_recovery.specs.{Causes.{IsOfTable, NotTooMany, OnDamaged, OnDisk, OnNotATable}, Damages.{IsFirst, damages}, Recovered.{AreTakenUp, ReadsImage, ReadsIndex, TableFailed, WithTable, all_of, held, with_firm_table}};

use crate::OpenFault;
use crate::fault::FileFault;
use crate::segments::segments_of;
use fd_disk::{Down, Folder};
use fd_segment::Segment;
use fd_toc::{LoadFault, Toc};
use std::alloc::Global;
use std::sync::Arc;

/// A dataset that was opened: its table, and one segment for each entry, in order.
pub struct Recovered<F: Send, D: Folder<F>> {
    /// The table, in which nothing is in doubt.
    pub toc: Toc<F, D::Table>,
    /// The segments.
    pub segments: Vec<Arc<Segment<F, D::Sealed>>>,
}

/// Opens the dataset of this folder, whose table isn't out, or answers `None` exactly where there is no table. The table
/// is synced and read; then the files of each entry are looked at in the order of the table, the field file before the
/// index file, and of each file whether it is there before how long it is; and where the entry has a digest, its index is
/// read, and compared with it. Nothing else of them is read. What comes back is as `Dataset::new` asks.
///
/// `Disk` comes only where the folder's count of faults rose, or that of its table, which the folder has back, or with the
/// fault that a call on an index file gave, which only an entry with a digest needs. `NotATable` and `Damaged` come exactly
/// where the bytes are no table, or a listed file is absent or shorter than listed, or an index hasn't its digest, and name
/// the first such place or file. After a refusal the folder has its table back.
///
/// Where the table was made firm, what it read is one of its images: a crash before might have left that.
pub fn recover<F: Send, D: Folder<F>>(
    alloc: Global,
    folder: &mut D,
    dataset: &str,
) -> Result<Option<Recovered<F, D>>, OpenFault<F>>
where
    requires back { D.table_out folder.old ≡ false }
    requires dataset { D.name folder.old ≡ dataset.now }
    ensures none { IfOk result (λ o. IfSome (D.has folder.old) (λ v. is_some o ≡ is_some v.table)) }
    ensures entries { IfOk result (λ o. IfSome o (λ r. IfSome (D.has folder.old) (λ v. IfSome v.table (λ f. listed dataset.now f.reads ≡ Ok r.toc.entries)))) }
    ensures table { IfOk result (λ o. IfSome o (λ r. (r.toc.dataset ≡ dataset.now) × ((r.toc.doubt ≡ None) × (r.toc.staged ≡ None)))) }
    ensures file { IfOk result (λ o. IfSome o (λ r. IfSome (D.has folder.old) (λ v. D.Table.file r.toc.table ≡ option_map synced v.table))) }
    ensures images { IfOk result (λ o. IfSome o (λ r. (c : List ℕ) → MayLeave (D.Table.file r.toc.table) c → Lists dataset.now r.toc.entries c)) }
    ensures few { IfOk result (λ o. IfSome o (λ r. length r.toc.entries ≤ 65535)) }
    ensures fit { IfOk result (λ o. IfSome o (λ r. AllFit 0 r.toc.entries)) }
    ensures table_name { IfOk result (λ o. IfSome o (λ r. D.Table.name r.toc.table ≡ dataset.now)) }
    ensures each { IfOk result (λ o. IfSome o (λ r. entries r.segments.items ≡ r.toc.entries)) }
    ensures own { IfOk result (λ o. IfSome o (λ r. AreOf (D.Table.name r.toc.table) r.segments.items)) }
    ensures segments { IfOk result (λ o. IfSome o (λ r. AreTakenUp dataset.now (D.has folder.old) r.toc.entries (standings r.segments.items))) }
    ensures sound { IfOk result (λ o. IfSome o (λ r. IfSome (D.has folder.old) (λ v. damages v.files r.toc.entries ≡ []))) }
    ensures held { IfOk result (λ o. IfSome o (λ r. IfSome (D.has folder.old) (λ v. all_of (map (λ s. batch_of s.files) (standings r.segments.items)) ≡ held dataset.now v))) }
    ensures not_a_table { IfErr result (λ e. OnNotATable e (λ fault. IfSome (D.has folder.old) (λ v. WithTable v.table (λ f. listed dataset.now f.reads ≡ Err fault)))) }
    ensures damaged { IfErr result (λ e. OnDamaged e (λ d. IfSome (D.has folder.old) (λ v. WithTable v.table (λ f. (es : List Entry) × (listed dataset.now f.reads ≡ Ok es) × IsFirst d (damages v.files es))))) }
    ensures never { IfErr result NotTooMany }
    ensures cause { IfErr result (λ e. OnDisk e (Rose (D.faults folder.old) (D.faults folder.new) ⊎ (TableFailed D.Table.file D.Table.faults (D.has folder.old) (D.has folder.new) ⊎ ReadsIndex dataset.now (D.has folder.new)))) }
    ensures out { IfOk result (λ o. D.table_out folder.new ≡ is_some o) }
    ensures out_err { OnErr result (D.table_out folder.new ≡ false) }
    ensures short { IfOk result (λ o. IsSome o → length dataset.now ≤ 255) }
    ensures time { IfOk result (λ o. IsQuiet (D.moment folder.old None) (D.moment folder.new (option_map (λ r. r.toc.table) o)) (D.left_since folder.old None) (D.left_since folder.new (option_map (λ r. r.toc.table) o)) (D.has folder.old)) }
    ensures time_err { OnErr result (IsQuiet (D.moment folder.old None) (D.moment folder.new None) (D.left_since folder.old None) (D.left_since folder.new None) (D.has folder.old)) }
    ensures has { OnOk result (D.has folder.new ≡ option_map without_table (D.has folder.old)) }
    ensures has_err { OnErr result ((D.has folder.new ≡ D.has folder.old) ⊎ (D.has folder.new ≡ option_map with_firm_table (D.has folder.old))) }
    ensures image { IfOk result (λ o. IfSome (D.has folder.old) (λ v. ReadsImage v.table)) }
    ensures image_err { OnErr result ((D.has folder.new ≡ D.has folder.old) ⊎ IfSome (D.has folder.old) (λ v. ReadsImage v.table)) }
    ensures last_writer { D.last_writer folder.new ≡ D.last_writer folder.old }
    ensures name { D.name folder.new ≡ D.name folder.old }
    ensures later { D.faults folder.old ≤ D.faults folder.new }
{
    let toc = match load_table(alloc, folder, dataset) {
        Ok(Some(toc)) => toc,
        Ok(None) => return Ok(None),
        Err(fault) => return Err(fault),
    };
    match segments_of(alloc, folder, toc.entries()) {
        Ok(segments) => Ok(Some(Recovered { toc, segments })),
        Err(fault) => {
            folder.give_table(toc.into_table());
            match fault {
                FileFault::Disk(fault) => Err(OpenFault::Disk(fault)),
                FileFault::Damaged(damage) => Err(OpenFault::Damaged(damage)),
                FileFault::NoMemory => Err(OpenFault::NoMemory),
            }
        }
    }
}

// Opens the table, where there is one. After a refusal the folder has it back.
fn load_table<F: Send, D: Folder<F>>(
    alloc: Global,
    folder: &mut D,
    dataset: &str,
) -> Result<Option<Toc<F, D::Table>>, OpenFault<F>>
    requires back { D.table_out folder.old ≡ false }
    requires dataset { D.name folder.old ≡ dataset.now }
    ensures none { IfOk result (λ o. IfSome (D.has folder.old) (λ v. is_some o ≡ is_some v.table)) }
    ensures entries { IfOk result (λ o. IfSome o (λ toc. IfSome (D.has folder.old) (λ v. IfSome v.table (λ f. listed dataset.now f.reads ≡ Ok toc.entries)))) }
    ensures table { IfOk result (λ o. IfSome o (λ toc. (toc.dataset ≡ dataset.now) × ((toc.doubt ≡ None) × (toc.staged ≡ None)))) }
    ensures file { IfOk result (λ o. IfSome o (λ toc. IfSome (D.has folder.old) (λ v. D.Table.file toc.table ≡ option_map synced v.table))) }
    ensures images { IfOk result (λ o. IfSome o (λ toc. (c : List ℕ) → MayLeave (D.Table.file toc.table) c → Lists dataset.now toc.entries c)) }
    ensures few { IfOk result (λ o. IfSome o (λ toc. length toc.entries ≤ 65535)) }
    ensures fit { IfOk result (λ o. IfSome o (λ toc. AllFit 0 toc.entries)) }
    ensures table_name { IfOk result (λ o. IfSome o (λ toc. D.Table.name toc.table ≡ dataset.now)) }
    ensures not_a_table { IfErr result (λ e. OnNotATable e (λ fault. IfSome (D.has folder.old) (λ v. WithTable v.table (λ f. listed dataset.now f.reads ≡ Err fault)))) }
    ensures never { IfErr result IsOfTable }
    ensures cause { IfErr result (λ e. OnDisk e (Rose (D.faults folder.old) (D.faults folder.new) ⊎ TableFailed D.Table.file D.Table.faults (D.has folder.old) (D.has folder.new))) }
    ensures out { IfOk result (λ o. D.table_out folder.new ≡ is_some o) }
    ensures out_err { OnErr result (D.table_out folder.new ≡ false) }
    ensures short { IfOk result (λ o. IsSome o → length dataset.now ≤ 255) }
    ensures time { IfOk result (λ o. IsQuiet (D.moment folder.old None) (D.moment folder.new (option_map (λ toc. toc.table) o)) (D.left_since folder.old None) (D.left_since folder.new (option_map (λ toc. toc.table) o)) (D.has folder.old)) }
    ensures time_err { OnErr result (IsQuiet (D.moment folder.old None) (D.moment folder.new None) (D.left_since folder.old None) (D.left_since folder.new None) (D.has folder.old)) }
    ensures has { OnOk result (D.has folder.new ≡ option_map without_table (D.has folder.old)) }
    ensures has_err { OnErr result ((D.has folder.new ≡ D.has folder.old) ⊎ (D.has folder.new ≡ option_map with_firm_table (D.has folder.old))) }
    ensures image { IfOk result (λ o. IfSome (D.has folder.old) (λ v. ReadsImage v.table)) }
    ensures image_err { OnErr result ((D.has folder.new ≡ D.has folder.old) ⊎ IfSome (D.has folder.old) (λ v. ReadsImage v.table)) }
    ensures last_writer { D.last_writer folder.new ≡ D.last_writer folder.old }
    ensures name { D.name folder.new ≡ D.name folder.old }
    ensures later { D.faults folder.old ≤ D.faults folder.new }
{
    let table = match folder.table(alloc) {
        Ok(Some(table)) => table,
        Ok(None) => return Ok(None),
        Err(Down::Fault(fault)) => return Err(OpenFault::Disk(fault)),
        Err(Down::NoMemory) => return Err(OpenFault::NoMemory),
    };
    match Toc::load(alloc, table, dataset) {
        Ok(toc) => Ok(Some(toc)),
        Err((table, fault)) => {
            folder.give_table(table);
            match fault {
                LoadFault::Disk(fault) => Err(OpenFault::Disk(fault)),
                LoadFault::NotATable { at, want, found } => {
                    Err(OpenFault::NotATable { at, want, found })
                }
                LoadFault::NoMemory => Err(OpenFault::NoMemory),
            }
        }
    }
}
