ghost use Rattle.std.specs.Prelude.{◌≡◌, ◌⊎◌, ◌≤◌, ◌*◌, ◌||◌, [], List, ℕ, Some, None, Ok, Err, All, true, false, is_some, length, map, IfOk, IfErr, IfSome, OnOk, OnErr, MatchOption, option_map, string_bytes};
ghost use Rattle.fd_bytes.specs.Causes.{Rose};
ghost use Rattle.fd_disk.specs.Folders.{SameBut, WhereTold, folder_at, without_table};
ghost use Rattle.fd_entries.specs.{declared.table.Entry.{Entry}, declared.batch.Listing.{Listing}, Table.{AllFit, listed}};
ghost use Rattle.fd_segment.specs.{Held.{batch_of}, Shared.{AreOf, entries, standings}};
ghost use Rattle.fd_turn.specs.{Passes.{view, IsOf}, Views.{first_view}};
ghost use Rattle.fd_dataset.specs.Listed.{listings};
ghost use Rattle.fd_recovery.specs.{Causes.{NotTooMany, OnDamaged, OnDisk, OnNotATable}, Damages.{IsFirst, damages}, Recovered.{IsUndamaged, WithTable, all_of, batches_listed, held}};
ghost use Rattle.fd_library.specs.{Answers.{FolderFailed, HoldsAs, IsOpened, TableBroke, TableBrokeIn, greatest_listed}, Open.{AreBounded, IsWhole, seat_of}, Stores.{KeepsFolder, KeepsTable, ListsIn, LooksInto}};

use crate::held::{FolderDataset, FolderPass, Held};
use fd_dataset::Dataset;
use fd_disk::{Disk, Down, Folder, Store};
use fd_entries::Entry;
use fd_recovery::{OpenFault, Recovered, recover};
use fd_toc::Toc;
use std::alloc::Global;

/// A dataset that began just now, with its one pass, the number of its entries and their greatest writer.
pub(crate) struct Start<F: Send, D: Folder<F>> {
    pub(crate) dataset: FolderDataset<F, D>,
    pub(crate) pass: FolderPass<F, D>,
    pub(crate) opening: u32,
    pub(crate) last: u32,
}

impl<F: Send, D: Folder<F>> Start<F, D> {
    // The dataset, and what is kept of it beside: its folder and its pass. No archiver was asked for.
    fn held(self, name: String, folder: D) -> (FolderDataset<F, D>, Held<F, D>)
        requires name { D.name folder ≡ string_bytes name }
        requires out { D.table_out folder ≡ true }
        requires last { D.last_writer folder ≤ self.last }
        requires bounded { AreBounded self.opening self.last 0 0 }
        requires whole { IsWhole (string_bytes name) (seat_of self.pass) }
        ensures dataset { result.0 ≡ self.dataset }
        ensures held { result.1 ≡ record { name = string_bytes name; folder = folder; pass = Some (seat_of self.pass); opening = self.opening; last = self.last; given = 0; lent = 0 } }
    {
        let Start {
            dataset,
            pass,
            opening,
            last,
        } = self;
        let held = Held {
            name,
            folder,
            pass: Some(pass),
            opening,
            last,
            given: 0,
            lent: 0,
        };
        (dataset, held)
    }
}

/// Opens the dataset of this folder, whose table isn't out; where there is none it is made first, if that is asked for.
/// Where nothing is opened the folder has its table back.
#[tactic(auto, using(crate::proofs::Undamaged::undamaged, crate::proofs::Listing::lists, crate::proofs::Keeping::keeps))]
pub(crate) fn taken_up<F: Send, D: Folder<F>>(
    alloc: Global,
    folder: &mut D,
    name: &str,
    make: bool,
) -> Result<Option<Recovered<F, D>>, OpenFault<F>>
where
    requires back { D.table_out folder.old ≡ false }
    requires dataset { D.name folder.old ≡ name.now }
    requires short { make ≡ true → length name.now ≤ 255 }
    ensures none { IfOk result (λ o. IfSome (D.has folder.old) (λ v. is_some o ≡ (is_some v.table || make))) }
    ensures unmade { IfOk result (λ o. o ≡ None → make ≡ false) }
    ensures table { IfOk result (λ o. IfSome o (λ r. (r.toc.dataset ≡ name.now) × (r.toc.doubt ≡ None))) }
    ensures few { IfOk result (λ o. IfSome o (λ r. length r.toc.entries ≤ 65535)) }
    ensures table_name { IfOk result (λ o. IfSome o (λ r. D.Table.name r.toc.table ≡ name.now)) }
    ensures each { IfOk result (λ o. IfSome o (λ r. entries r.segments.items ≡ r.toc.entries)) }
    ensures own { IfOk result (λ o. IfSome o (λ r. AreOf (D.Table.name r.toc.table) r.segments.items)) }
    ensures held { IfOk result (λ o. IfSome o (λ r. IfSome (D.has folder.old) (λ v. all_of (map (λ s. batch_of s.files) (standings r.segments.items)) ≡ held name.now v))) }
    ensures files { IfOk result (λ o. IfSome o (λ r. IfSome (D.has folder.old) (λ v. batches_listed v.files (Ok r.toc.entries) ≡ held name.now v))) }
    ensures file { IfOk result (λ o. IfSome o (λ r. IfSome (D.has folder.old) (λ v. KeepsTable name.now v.table (D.Table.file r.toc.table)))) }
    ensures lists { IfOk result (λ o. IfSome o (λ r. IfSome (D.has folder.old) (λ v. ListsIn name.now r.toc.entries v.table))) }
    ensures undamaged { IfOk result (λ o. IfSome o (λ r. IfSome (D.has folder.old) (λ v. IsUndamaged name.now v))) }
    ensures not_a_table { IfErr result (λ e. OnNotATable e (λ fault. IfSome (D.has folder.old) (λ v. WithTable v.table (λ f. listed name.now f.reads ≡ Err fault)))) }
    ensures damaged { IfErr result (λ e. OnDamaged e (λ d. IfSome (D.has folder.old) (λ v. WithTable v.table (λ f. (es : List Entry) × (listed name.now f.reads ≡ Ok es) × IsFirst d (damages v.files es))))) }
    ensures never { IfErr result NotTooMany }
    ensures cause { IfErr result (λ e. OnDisk e (Rose (D.faults folder.old) (D.faults folder.new) ⊎ TableBroke D.Table.file D.Table.faults (D.has folder.new) name.now)) }
    ensures out { IfOk result (λ o. D.table_out folder.new ≡ is_some o) }
    ensures out_err { OnErr result (D.table_out folder.new ≡ false) }
    ensures has { IfOk result (λ o. MatchOption o (WhereTold (D.has folder.old) (D.has folder.new) (KeepsFolder name.now)) (λ r. D.has folder.new ≡ option_map without_table (D.has folder.old))) }
    ensures has_err { OnErr result (WhereTold (D.has folder.old) (D.has folder.new) (KeepsFolder name.now)) }
    ensures last_writer { D.last_writer folder.new ≡ D.last_writer folder.old }
    ensures name { D.name folder.new ≡ D.name folder.old }
    ensures later { D.faults folder.old ≤ D.faults folder.new }
{
    match recover(alloc, folder, name) {
        Ok(Some(recovered)) => Ok(Some(recovered)),
        Ok(None) => {
            if make {
                match founded(alloc, folder, name) {
                    Ok(recovered) => Ok(Some(recovered)),
                    Err(fault) => Err(fault),
                }
            } else {
                Ok(None)
            }
        }
        Err(fault) => Err(fault),
    }
}

// Makes the table of this folder, where there is none, and opens the dataset.
fn founded<F: Send, D: Folder<F>>(
    alloc: Global,
    folder: &mut D,
    name: &str,
) -> Result<Recovered<F, D>, OpenFault<F>>
where
    requires back { D.table_out folder.old ≡ false }
    requires dataset { D.name folder.old ≡ name.now }
    requires short { length name.now ≤ 255 }
    requires none { IfSome (D.has folder.old) (λ v. v.table ≡ None) }
    ensures table { IfOk result (λ r. (r.toc.dataset ≡ name.now) × (r.toc.doubt ≡ None)) }
    ensures few { IfOk result (λ r. length r.toc.entries ≤ 65535) }
    ensures table_name { IfOk result (λ r. D.Table.name r.toc.table ≡ name.now) }
    ensures each { IfOk result (λ r. entries r.segments.items ≡ r.toc.entries) }
    ensures own { IfOk result (λ r. AreOf (D.Table.name r.toc.table) r.segments.items) }
    ensures nothing { IfOk result (λ r. IfSome (D.has folder.old) (λ v. r.toc.entries ≡ [])) }
    ensures file { IfOk result (λ r. IfSome (D.has folder.old) (λ v. KeepsTable name.now None (D.Table.file r.toc.table))) }
    ensures sound { IfErr result (λ e. OnNotATable e (λ fault. D.has folder.old ≡ None)) }
    ensures whole { IfErr result (λ e. OnDamaged e (λ d. D.has folder.old ≡ None)) }
    ensures never { IfErr result NotTooMany }
    ensures cause { IfErr result (λ e. OnDisk e (Rose (D.faults folder.old) (D.faults folder.new) ⊎ TableBroke D.Table.file D.Table.faults (D.has folder.new) name.now)) }
    ensures out { OnOk result (D.table_out folder.new ≡ true) }
    ensures out_err { OnErr result (D.table_out folder.new ≡ false) }
    ensures has { OnOk result (D.has folder.new ≡ D.has folder.old) }
    ensures has_err { OnErr result (WhereTold (D.has folder.old) (D.has folder.new) (KeepsFolder name.now)) }
    ensures last_writer { D.last_writer folder.new ≡ D.last_writer folder.old }
    ensures name { D.name folder.new ≡ D.name folder.old }
    ensures later { D.faults folder.old ≤ D.faults folder.new }
{
    let Ok(first) = Toc::<F, D::Table>::create_bytes(alloc, name) else {
        return Err(OpenFault::NoMemory);
    };
    match folder.found(alloc, &first) {
        Ok(()) => {}
        Err(Down::Fault(fault)) => return Err(OpenFault::Disk(fault)),
        Err(Down::NoMemory) => return Err(OpenFault::NoMemory),
    }
    match recover(alloc, folder, name) {
        Ok(Some(recovered)) => Ok(recovered),
        // a folder that tells its files has the table now
        Ok(None) => Err(OpenFault::NotATable {
            at: 0,
            want: b'F',
            found: None,
        }),
        Err(fault) => Err(fault),
    }
}

/// Begins the dataset over a table and its segments. Where memory is refused the table comes back.
pub(crate) fn begun<F: Send, D: Folder<F>>(
    alloc: Global,
    recovered: Recovered<F, D>,
) -> Result<Start<F, D>, Toc<F, D::Table>>
where
    requires name { D.Table.name recovered.toc.table ≡ recovered.toc.dataset }
    requires sure { recovered.toc.doubt ≡ None }
    requires each { entries recovered.segments.items ≡ recovered.toc.entries }
    requires own { AreOf (D.Table.name recovered.toc.table) recovered.segments.items }
    ensures own { IfOk result (λ b. IsOf b.dataset b.pass) }
    ensures pass { IfOk result (λ b. view b.pass ≡ first_view recovered.toc.dataset (is_some (D.Table.file recovered.toc.table)) (listings recovered.segments.items)) }
    ensures opening { IfOk result (λ b. b.opening ≡ length recovered.toc.entries) }
    ensures writers { IfOk result (λ b. All (λ e. e.writer ≤ b.last) recovered.toc.entries) }
    ensures greatest { IfOk result (λ b. b.last ≤ 65536 * b.opening) }
    ensures last { IfOk result (λ b. b.last ≡ greatest_listed recovered.toc.entries) }
    ensures back { IfErr result (λ t. t ≡ recovered.toc) }
{
    let Recovered { toc, segments } = recovered;
    let opening = toc.entries().len() as u32;
    let last = greatest_of(toc.entries());
    match Dataset::new(alloc, toc, segments) {
        Ok((dataset, pass)) => Ok(Start {
            dataset,
            pass,
            opening,
            last,
        }),
        Err((toc, _)) => Err(toc),
    }
}

// The greatest writer of the entries of a table, or 0.
fn greatest_of(entries: &[Entry]) -> u32
    requires { AllFit 0 entries.now }
    ensures all { All (λ e. e.writer ≤ result) entries.now }
    ensures bounded { result ≤ 65536 * length entries.now }
    ensures last { result ≡ greatest_listed entries.now }
{
    let mut last = 0;
    for entry in entries {
        last = larger(last, entry.writer);
    }
    last
}

// The larger of two numbers.
fn larger(a: u32, b: u32) -> u32
    ensures first { a ≤ result }
    ensures second { b ≤ result }
    ensures either { (result ≡ a) ⊎ (result ≡ b) }
{
    if a < b { b } else { a }
}

/// Opens a dataset of the store, whose folder isn't out; it is made first where there is none, if that is asked for.
/// Where nothing is opened the store has the folder back.
pub(crate) fn opened<F: Send, S: Store<F>>(
    alloc: Global,
    store: &mut S,
    name: String,
    make: bool,
) -> Result<Option<(FolderDataset<F, S::Folder>, Held<F, S::Folder>)>, OpenFault<F>>
where
    requires out { S.out store.old (string_bytes name) ≡ false }
    requires short { make ≡ true → length (string_bytes name) ≤ 255 }
    ensures none { IfOk result (λ o. IfSome (S.has store.old) (λ s. is_some o ≡ (is_some (folder_at s (string_bytes name)).table || make))) }
    ensures unmade { IfOk result (λ o. o ≡ None → make ≡ false) }
    ensures opened { IfOk result (λ o. IfSome o (λ r. IsOpened (string_bytes name) r.0 r.1)) }
    ensures holds { IfOk result (λ o. IfSome o (λ r. IfSome (S.has store.old) (λ s. HoldsAs S.Folder.has s r.1))) }
    ensures undamaged { IfOk result (λ o. IfSome o (λ r. IfSome (S.has store.old) (λ s. IsUndamaged (string_bytes name) (folder_at s (string_bytes name))))) }
    ensures store { IfOk result (λ o. MatchOption o (WhereTold (S.has store.old) (S.has store.new) (LooksInto (string_bytes name))) (λ r. WhereTold (S.has store.old) (S.has store.new) (SameBut (string_bytes name)))) }
    ensures store_err { OnErr result (WhereTold (S.has store.old) (S.has store.new) (LooksInto (string_bytes name))) }
    ensures not_a_table { IfErr result (λ e. OnNotATable e (λ fault. IfSome (S.has store.old) (λ s. WithTable (folder_at s (string_bytes name)).table (λ f. listed (string_bytes name) f.reads ≡ Err fault)))) }
    ensures damaged { IfErr result (λ e. OnDamaged e (λ d. IfSome (S.has store.old) (λ s. WithTable (folder_at s (string_bytes name)).table (λ f. (es : List Entry) × (listed (string_bytes name) f.reads ≡ Ok es) × IsFirst d (damages (folder_at s (string_bytes name)).files es))))) }
    ensures never { IfErr result NotTooMany }
    ensures cause { IfErr result (λ e. OnDisk e (Rose (S.faults store.old) (S.faults store.new) ⊎ (FolderFailed S.Folder.has S.Folder.faults (S.has store.old) (S.has store.new) (string_bytes name) ⊎ TableBrokeIn S.Folder.Table.file S.Folder.Table.faults (S.has store.new) (string_bytes name)))) }
    ensures out { IfOk result (λ o. MatchOption o ((other : List ℕ) → S.out store.new other ≡ true → S.out store.old other ≡ true) (λ r. (other : List ℕ) → S.out store.new other ≡ true → (S.out store.old other ≡ true) ⊎ (other ≡ string_bytes name))) }
    ensures out_err { OnErr result ((other : List ℕ) → S.out store.new other ≡ true → S.out store.old other ≡ true) }
    ensures later { S.faults store.old ≤ S.faults store.new }
{
    let mut folder = match store.folder(alloc, name.as_str()) {
        Ok(folder) => folder,
        Err(Down::Fault(fault)) => return Err(OpenFault::Disk(fault)),
        Err(Down::NoMemory) => return Err(OpenFault::NoMemory),
    };
    let recovered = match taken_up(alloc, &mut folder, name.as_str(), make) {
        Ok(Some(recovered)) => recovered,
        Ok(None) => {
            store.give_folder(folder);
            return Ok(None);
        }
        Err(fault) => {
            store.give_folder(folder);
            return Err(fault);
        }
    };
    match begun(alloc, recovered) {
        Ok(start) => Ok(Some(start.held(name, folder))),
        Err(toc) => {
            folder.give_table(toc.into_table());
            store.give_folder(folder);
            Err(OpenFault::NoMemory)
        }
    }
}

/// Whether a dataset of the store has a table, whose folder isn't out.
pub(crate) fn has_table<F: Send, S: Store<F>>(
    alloc: Global,
    store: &mut S,
    name: &str,
) -> Result<bool, OpenFault<F>>
    requires out { S.out store.old name.now ≡ false }
    ensures there { IfOk result (λ b. IfSome (S.has store.old) (λ s. b ≡ is_some (folder_at s name.now).table)) }
    ensures store { WhereTold (S.has store.old) (S.has store.new) (LooksInto name.now) }
    ensures never { IfErr result NotTooMany }
    ensures cause { IfErr result (λ e. OnDisk e (Rose (S.faults store.old) (S.faults store.new) ⊎ (FolderFailed S.Folder.has S.Folder.faults (S.has store.old) (S.has store.new) name.now ⊎ TableBrokeIn S.Folder.Table.file S.Folder.Table.faults (S.has store.new) name.now))) }
    ensures sound { IfErr result (λ e. OnNotATable e (λ fault. ⊥)) }
    ensures whole { IfErr result (λ e. OnDamaged e (λ d. ⊥)) }
    ensures out { (other : List ℕ) → S.out store.new other ≡ true → S.out store.old other ≡ true }
    ensures later { S.faults store.old ≤ S.faults store.new }
{
    let mut folder = match store.folder(alloc, name) {
        Ok(folder) => folder,
        Err(Down::Fault(fault)) => return Err(OpenFault::Disk(fault)),
        Err(Down::NoMemory) => return Err(OpenFault::NoMemory),
    };
    let answer = match folder.table(alloc) {
        Ok(Some(table)) => {
            folder.give_table(table);
            Ok(true)
        }
        Ok(None) => Ok(false),
        Err(Down::Fault(fault)) => Err(OpenFault::Disk(fault)),
        Err(Down::NoMemory) => Err(OpenFault::NoMemory),
    };
    store.give_folder(folder);
    answer
}
