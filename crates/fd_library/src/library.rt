ghost use Rattle.std.specs.Prelude.{◌≡◌, ◌≢◌, ◌⊎◌, ◌≤◌, ◌<◌, ◌+◌, ◌||◌, [], List, ℕ, Some, None, Ok, Err, All, true, false, is_some, length, slice_get, IfOk, IfErr, IfSome, IsSome, OnErr, OnSome, MatchOption, string_bytes, vec_capacity, vec_len};
ghost use Rattle.fd_bytes.specs.Causes.{Rose};
ghost use Rattle.fd_disk.specs.{Causes.{OnFault}, Folders.{SameBut, WhereTold, folder_at}};
ghost use Rattle.fd_entries.specs.{declared.table.Entry.{Entry}, Table.{listed}};
ghost use Rattle.fd_turn.specs.Passes.{IsOf};
ghost use Rattle.fd_recovery.specs.{Causes.{OnDamaged, OnDisk, OnNotATable}, Damages.{IsFirst, damages}, Recovered.{IsUndamaged, WithTable}};
ghost use Rattle.fd_library.specs.{Answers.{FolderFailed, IsWanted, TableBrokeIn, TooManyAt}, Calls.{AsksWriter, Changes, IsNewWriter, Leaves, Opens, ShelfFailed, TakesWriter}, Open.{AreOpen, IsWhole, OpenDataset, OutAre, among, names_of, seat_of}, Parts.{both}, Stores.{GivesBack, IsGivenBack, IsSettled, LooksInto, held_of, held_with}};

use crate::held::{FolderDataset, FolderPass, Held};
use crate::opening::{has_table, opened};
use fd_archiver::Archiver;
use fd_bytes::NoMemory;
use fd_disk::{Disk, Down, Folder, Shelf, Store};
use fd_recovery::OpenFault;
use fd_segment::Room;
use std::alloc::Global;
use std::collections::BTreeMap;
use std::marker::Model;

/// Numbers of datasets, by their texts.
type Numbers = BTreeMap<String, u32>;

/// The datasets of a store that are open. Each has a number, from 0, by which its writers and its pass are asked for.
/// While a dataset is open its folder is out of the store; `give_back` puts all folders back.
pub struct Library<F: Send, S: Store<F>> {
    datasets: Vec<FolderDataset<F, S::Folder>>,
    held: Vec<Held<F, S::Folder>>,
    // where to look for a dataset first: no answer rests on it
    numbers: Numbers,
}

impl<F: Send, S: Store<F>> Model for Library<F, S> {
    ghost use Rattle.fd_library.specs.Open.{AreOpen, OpenDatasets};
    ghost use Rattle.fd_library.specs.Parts.{both};

    ghost Value = { OpenDatasets S.Folder };

    ghost view = { λ l. both l.datasets.items l.held.items };

    ghost invariant = { λ l. AreOpen (both l.datasets.items l.held.items) };
}

impl<F: Send, S: Store<F>> Library<F, S> {
    /// No dataset is open.
    pub fn new(alloc: Global) -> Result<Library<F, S>, NoMemory>
        ensures { IfOk result (λ l. l ≡ record { boards = []; each = [] }) }
    {
        Ok(Library {
            datasets: Vec::new(alloc),
            held: Vec::new(alloc),
            numbers: BTreeMap::new(alloc),
        })
    }

    /// The number of the dataset with this text, which is opened by the first call; where it has no table, one is made
    /// first, if that is asked for, and else the answer is `None`. A dataset that is made has a text of at most 255 bytes.
    ///
    /// A dataset that was opened has no damage of its table and of the files that this lists.
    ///
    /// `NotATable` and `Damaged` are those of `recover`. `TooMany` comes exactly where 2,048 datasets are open, this one
    /// isn't, and it would be opened. `Disk` comes only where a count of faults rose: that of the store, of the folder,
    /// or of its table. Where nothing was opened, the store has the folder back: its table is as it was, or synced, or
    /// founded without entries.
    pub fn dataset(
        &mut self,
        alloc: Global,
        store: &mut S,
        name: &str,
        make: bool,
    ) -> Result<Option<u32>, OpenFault<F>>
        requires short { make ≡ true → length name.now ≤ 255 }
        requires out { OutAre self.old.each (S.out store.old) }
        ensures sound { AreOpen self.new }
        ensures number { IfOk result (λ o. IfSome o (λ n. (h : OpenDataset S.Folder) × (slice_get self.new.each n ≡ Some h) × (h.name ≡ name.now))) }
        ensures again { among name.now (names_of self.old.each) ≡ true → (self.new ≡ self.old) × (S.has store.new ≡ S.has store.old) × IfOk result (λ o. IsSome o) × OnErr result ⊥ }
        ensures opened { among name.now (names_of self.old.each) ≡ false → IfOk result (λ o. IfSome o (λ n. Opens S.Folder.has n name.now self.old self.new (S.has store.old) (S.has store.new))) }
        ensures left { among name.now (names_of self.old.each) ≡ false → IfOk result (λ o. o ≡ None → Leaves name.now self.old self.new (S.has store.old) (S.has store.new)) }
        ensures left_err { OnErr result (Leaves name.now self.old self.new (S.has store.old) (S.has store.new)) }
        ensures none { among name.now (names_of self.old.each) ≡ false → IfOk result (λ o. IfSome (S.has store.old) (λ s. is_some o ≡ (is_some (folder_at s name.now).table || make))) }
        ensures undamaged { among name.now (names_of self.old.each) ≡ false → IfOk result (λ o. IfSome o (λ n. IfSome (S.has store.old) (λ s. IsUndamaged name.now (folder_at s name.now)))) }
        ensures unmade { IfOk result (λ o. o ≡ None → make ≡ false) }
        ensures not_a_table { IfErr result (λ e. OnNotATable e (λ fault. IfSome (S.has store.old) (λ s. WithTable (folder_at s name.now).table (λ f. listed name.now f.reads ≡ Err fault)))) }
        ensures damaged { IfErr result (λ e. OnDamaged e (λ d. IfSome (S.has store.old) (λ s. WithTable (folder_at s name.now).table (λ f. (es : List Entry) × (listed name.now f.reads ≡ Ok es) × IsFirst d (damages (folder_at s name.now).files es))))) }
        ensures too_many { TooManyAt (length self.old.each) (IsWanted make (S.has store.old) name.now) result }
        ensures cause { IfErr result (λ e. OnDisk e (Rose (S.faults store.old) (S.faults store.new) ⊎ (FolderFailed S.Folder.has S.Folder.faults (S.has store.old) (S.has store.new) name.now ⊎ TableBrokeIn S.Folder.Table.file S.Folder.Table.faults (S.has store.new) name.now))) }
        ensures kept { WhereTold (S.has store.old) (S.has store.new) (λ s t. (n : List ℕ) → held_with S.Folder.has self.new.each t n ≡ held_with S.Folder.has self.old.each s n) }
        ensures out { OutAre self.new.each (S.out store.new) }
        ensures later { S.faults store.old ≤ S.faults store.new }
    {
        if let Some(number) = number_of(&self.held, &self.numbers, name) {
            return Ok(Some(number));
        }
        if self.held.len() < 2048 {
            return open_behind(
                alloc,
                store,
                name,
                make,
                &mut self.datasets,
                &mut self.held,
                &mut self.numbers,
            );
        }
        none_more(alloc, store, name, make)
    }

    /// The open datasets; that with number n stands at place n.
    pub fn datasets(&self) -> &[FolderDataset<F, S::Folder>]
        ensures { result.now ≡ self.now.boards }
    {
        &self.datasets
    }

    /// Hands out the pass of a dataset, which isn't out: the one with which the dataset began, or which was put back last.
    pub fn seat(&mut self, number: u32) -> FolderPass<F, S::Folder>
        requires { (h : OpenDataset S.Folder) × (slice_get self.old.each number ≡ Some h) × IsSome h.pass }
        ensures sound { AreOpen self.new }
        ensures own { IfSome (slice_get self.old.boards number) (λ b. IsOf b result) }
        ensures change { Changes number self.old self.new (λ h g. (h.pass ≡ Some (seat_of result)) × IsWhole h.name (seat_of result) × (g ≡ record h { pass = None })) }
    {
        self.held[number as usize].seat()
    }

    /// Puts a pass of a dataset back, which is out. It has every part.
    pub fn unseat(&mut self, number: u32, pass: FolderPass<F, S::Folder>)
        requires out { (h : OpenDataset S.Folder) × (slice_get self.old.each number ≡ Some h) × (h.pass ≡ None) × IsWhole h.name (seat_of pass) }
        requires own { IfSome (slice_get self.old.boards number) (λ b. IsOf b pass) }
        ensures sound { AreOpen self.new }
        ensures change { Changes number self.old self.new (λ h g. g ≡ record h { pass = Some (seat_of pass) }) }
    {
        self.held[number as usize].unseat(pass);
    }

    /// Gives all folders back to the store, with their tables. No pass is out, and each archiver was taken back.
    pub fn give_back(self, store: &mut S)
        requires seated { All (λ h. IsSome h.pass) self.each }
        requires none { All (λ h. h.lent ≡ 0) self.each }
        requires out { OutAre self.each (S.out store.old) }
        ensures back { (n : List ℕ) → S.out store.new n ≡ false }
        ensures given { WhereTold (S.has store.old) (S.has store.new) (GivesBack S.Folder.has self.each) }
        ensures kept { All IsSettled self.each → WhereTold (S.has store.old) (S.has store.new) (λ s t. (n : List ℕ) → held_of t n ≡ held_with S.Folder.has self.each s n) }
        ensures later { S.faults store.old ≤ S.faults store.new }
    {
        let Library {
            datasets,
            held,
            numbers: _,
        } = self;
        let mut datasets = datasets;
        let mut held = held;
        while let Some(last) = held.pop() {
            let Some(dataset) = datasets.pop() else {
                unreachable!()
            };
            put_back(last, dataset, store);
        }
        datasets.destroy_empty();
        held.destroy_empty();
    }
}

impl<F: Send, S: Store<F>> Library<F, S> {
    /// A writer of a dataset, with one more than the greatest number that was listed when the dataset was opened or given
    /// since. A number whose archiver was refused counts as given. Of one dataset 65,535 writers are asked for at most.
    pub fn archiver(
        &mut self,
        alloc: Global,
        number: u32,
        room: Room,
    ) -> Result<Archiver<F, <S::Folder as Folder<F>>::Shelf>, Down<F>>
        requires { (h : OpenDataset S.Folder) × (slice_get self.old.each number ≡ Some h) × (h.given < 65535) }
        ensures sound { AreOpen self.new }
        ensures change { Changes number self.old self.new (AsksWriter S.Folder.has S.Folder.faults) }
        ensures new { IfOk result (λ a. Changes number self.old self.new (λ h g. IsNewWriter S.Folder.has room h a × (S.Folder.has g.folder ≡ S.Folder.has h.folder) × (g.lent ≡ h.lent + 1))) }
        ensures tells { IfOk result (λ a. is_some (S.Folder.Shelf.kept a.shelf) ≡ a.told) }
        ensures refused { IfErr result (λ e. Changes number self.old self.new (λ h g. (g.lent ≡ h.lent) × OnFault e (Rose (S.Folder.faults h.folder) (S.Folder.faults g.folder) ⊎ ShelfFailed S.Folder.Shelf.writer S.Folder.Shelf.faults (h.last + 1)))) }
    {
        self.held[number as usize].archiver(alloc, room)
    }

    /// Takes a writer of a dataset back. The folder has the files that its shelf keeps from now on.
    pub fn take_back(&mut self, number: u32, archiver: Archiver<F, <S::Folder as Folder<F>>::Shelf>)
        requires { (h : OpenDataset S.Folder) × (slice_get self.old.each number ≡ Some h) × (archiver.dataset ≡ h.name) }
        ensures sound { AreOpen self.new }
        ensures took { Changes number self.old self.new (TakesWriter S.Folder.has S.Folder.faults S.Folder.Shelf.kept archiver) }
    {
        self.held[number as usize].take_back(archiver);
    }
}

// Room for one more of each, and the text.
fn room_for<D, H>(
    alloc: Global,
    name: &str,
    datasets: &mut Vec<D>,
    held: &mut Vec<H>,
) -> Option<String>
    ensures datasets { datasets.new.items ≡ datasets.old.items }
    ensures held { held.new.items ≡ held.old.items }
    ensures text { IfSome result (λ t. string_bytes t ≡ name.now) }
    ensures room { OnSome result ((vec_len datasets.new < vec_capacity datasets.new) × (vec_len held.new < vec_capacity held.new)) }
{
    let Ok(()) = datasets.reserve(1) else {
        return None;
    };
    let Ok(()) = held.reserve(1) else {
        return None;
    };
    String::from_str(alloc, name).ok()
}

// Notes the number of a dataset that was opened. Where memory is refused for it, the dataset is looked for among all.
fn note(alloc: Global, numbers: &mut Numbers, name: &str, number: u32) {
    if let Ok(text) = String::from_str(alloc, name) {
        let _ = numbers.insert(text, number);
    }
}

// Opens a dataset that isn't open, behind these.
fn open_behind<F: Send, S: Store<F>>(
    alloc: Global,
    store: &mut S,
    name: &str,
    make: bool,
    datasets: &mut Vec<FolderDataset<F, S::Folder>>,
    held: &mut Vec<Held<F, S::Folder>>,
    numbers: &mut Numbers,
) -> Result<Option<u32>, OpenFault<F>>
where
    requires short { make ≡ true → length name.now ≤ 255 }
    requires out { S.out store.old name.now ≡ false }
    requires few { length held.old.items < 2048 }
    ensures opened { IfOk result (λ o. IfSome o (λ n. Opens S.Folder.has n name.now (both datasets.old.items held.old.items) (both datasets.new.items held.new.items) (S.has store.old) (S.has store.new))) }
    ensures left { IfOk result (λ o. o ≡ None → Leaves name.now (both datasets.old.items held.old.items) (both datasets.new.items held.new.items) (S.has store.old) (S.has store.new)) }
    ensures left_err { OnErr result (Leaves name.now (both datasets.old.items held.old.items) (both datasets.new.items held.new.items) (S.has store.old) (S.has store.new)) }
    ensures none { IfOk result (λ o. IfSome (S.has store.old) (λ s. is_some o ≡ (is_some (folder_at s name.now).table || make))) }
    ensures undamaged { IfOk result (λ o. IfSome o (λ n. IfSome (S.has store.old) (λ s. IsUndamaged name.now (folder_at s name.now)))) }
    ensures unmade { IfOk result (λ o. o ≡ None → make ≡ false) }
    ensures not_a_table { IfErr result (λ e. OnNotATable e (λ fault. IfSome (S.has store.old) (λ s. WithTable (folder_at s name.now).table (λ f. listed name.now f.reads ≡ Err fault)))) }
    ensures damaged { IfErr result (λ e. OnDamaged e (λ d. IfSome (S.has store.old) (λ s. WithTable (folder_at s name.now).table (λ f. (es : List Entry) × (listed name.now f.reads ≡ Ok es) × IsFirst d (damages (folder_at s name.now).files es))))) }
    ensures too_many { TooManyAt (length held.old.items) ⊥ result }
    ensures cause { IfErr result (λ e. OnDisk e (Rose (S.faults store.old) (S.faults store.new) ⊎ (FolderFailed S.Folder.has S.Folder.faults (S.has store.old) (S.has store.new) name.now ⊎ TableBrokeIn S.Folder.Table.file S.Folder.Table.faults (S.has store.new) name.now))) }
    ensures out { IfOk result (λ o. MatchOption o ((other : List ℕ) → S.out store.new other ≡ true → S.out store.old other ≡ true) (λ n. (other : List ℕ) → S.out store.new other ≡ true → (S.out store.old other ≡ true) ⊎ (other ≡ name.now))) }
    ensures out_err { OnErr result ((other : List ℕ) → S.out store.new other ≡ true → S.out store.old other ≡ true) }
    ensures later { S.faults store.old ≤ S.faults store.new }
{
    let Some(text) = room_for(alloc, name, datasets, held) else {
        return Err(OpenFault::NoMemory);
    };
    match opened(alloc, store, text, make) {
        Ok(Some((dataset, it))) => {
            let number = held.len() as u32;
            datasets.push_reserved(dataset);
            held.push_reserved(it);
            note(alloc, numbers, name, number);
            Ok(Some(number))
        }
        Ok(None) => Ok(None),
        Err(fault) => Err(fault),
    }
}

// The answer for a dataset that isn't open, where no more may be.
fn none_more<F: Send, S: Store<F>>(
    alloc: Global,
    store: &mut S,
    name: &str,
    make: bool,
) -> Result<Option<u32>, OpenFault<F>>
where
    requires out { S.out store.old name.now ≡ false }
    ensures none { IfOk result (λ o. (o ≡ None) × (make ≡ false) × IfSome (S.has store.old) (λ s. is_some (folder_at s name.now).table ≡ false)) }
    ensures too_many { TooManyAt 2048 (IsWanted make (S.has store.old) name.now) result }
    ensures sound { IfErr result (λ e. OnNotATable e (λ fault. ⊥)) }
    ensures whole { IfErr result (λ e. OnDamaged e (λ d. ⊥)) }
    ensures store { WhereTold (S.has store.old) (S.has store.new) (LooksInto name.now) }
    ensures cause { IfErr result (λ e. OnDisk e (Rose (S.faults store.old) (S.faults store.new) ⊎ (FolderFailed S.Folder.has S.Folder.faults (S.has store.old) (S.has store.new) name.now ⊎ TableBrokeIn S.Folder.Table.file S.Folder.Table.faults (S.has store.new) name.now))) }
    ensures out { (other : List ℕ) → S.out store.new other ≡ true → S.out store.old other ≡ true }
    ensures later { S.faults store.old ≤ S.faults store.new }
{
    if make {
        return Err(OpenFault::TooMany { count: 2049 });
    }
    match has_table(alloc, store, name) {
        Ok(true) => Err(OpenFault::TooMany { count: 2049 }),
        Ok(false) => Ok(None),
        Err(fault) => Err(fault),
    }
}

// The number that was noted for this text, where the dataset with that number has it.
fn noted<F: Send, D: Folder<F>>(held: &[Held<F, D>], numbers: &Numbers, name: &str) -> Option<u32>
where
    requires { length held.now ≤ 2048 }
    ensures { IfSome result (λ n. (h : OpenDataset D) × (slice_get held.now n ≡ Some h) × (h.name ≡ name.now)) }
{
    let Some(number) = numbers.get(name) else {
        return None;
    };
    let i = *number as usize;
    if i < held.len() {
        if held[i].is(name) {
            return Some(i as u32);
        }
    }
    None
}

// The number of the dataset with this text, which is looked for among all.
fn searched<F: Send, D: Folder<F>>(held: &[Held<F, D>], name: &str) -> Option<u32>
where
    requires { length held.now ≤ 2048 }
    ensures { MatchOption result (among name.now (names_of held.now) ≡ false) (λ n. (h : OpenDataset D) × (slice_get held.now n ≡ Some h) × (h.name ≡ name.now)) }
{
    for i in 0..held.len() {
        if held[i].is(name) {
            return Some(i as u32);
        }
    }
    None
}

// The number of the dataset with this text.
fn number_of<F: Send, D: Folder<F>>(
    held: &[Held<F, D>],
    numbers: &Numbers,
    name: &str,
) -> Option<u32>
where
    requires { length held.now ≤ 2048 }
    ensures { MatchOption result (among name.now (names_of held.now) ≡ false) (λ n. (h : OpenDataset D) × (slice_get held.now n ≡ Some h) × (h.name ≡ name.now)) }
{
    match noted(held, numbers, name) {
        Some(number) => Some(number),
        None => searched(held, name),
    }
}

// Gives the folder of a dataset back to the store, with its table.
fn put_back<F: Send, S: Store<F>>(
    held: Held<F, S::Folder>,
    dataset: FolderDataset<F, S::Folder>,
    store: &mut S,
)
where
    requires seated { IsSome held.pass }
    requires own { IfSome held.pass (λ p. p.board ≡ dataset) }
    ensures others { WhereTold (S.has store.old) (S.has store.new) (SameBut held.name) }
    ensures given { IfSome (S.has store.new) (λ t. IsGivenBack S.Folder.has held (folder_at t held.name)) }
    ensures out { (other : List ℕ) → S.out store.new other ≡ true → (S.out store.old other ≡ true) × (other ≢ held.name) }
    ensures later { S.faults store.old ≤ S.faults store.new }
{
    let Held {
        name: _,
        mut folder,
        pass,
        opening: _,
        last: _,
        given: _,
        lent: _,
    } = held;
    let Some(pass) = pass else { unreachable!() };
    folder.give_table(dataset.close(pass).into_table());
    store.give_folder(folder);
}
