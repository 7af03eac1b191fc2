ghost use Rattle.std.specs.{Prelude.{◌≡◌, ◌≢◌, ◌⊎◌, ◌≤◌, ◌<◌, [], Bool, true, false, List, ℕ, Option, Some, None, length, IfOk, IfErr, OnOk, OnErr, IfSome, IsSome, MatchOption, is_some, option_map, string_bytes}, Str.{bytes_eq}, List.{list_any}, List.Sorted.{IsStrictlySortedBy}};
ghost use Rattle.fd_disk.specs.{declared.file.File.{File}, declared.folders.FileName.{FileName}, declared.folders.FileKind.TheVariants.{Fields, Index}, Images.{firm_file}, Causes.{HasDownCause, OnNoMemory}, Names.{name_of}, Folders.{Contents, Holdings, IsFolderImage, Left, SameBut, TakesBack, WhereTold, folder_at, founded, keeping, no_files, planted, with_table, without_table}, Moments.{LeavesOnly, MayLeave}, Renewals.{IsLeftBeside, StandsStill}};
ghost use Rattle.fd_bytes.specs.Causes.{Rose};

use crate::{Disk, Down, FileKind, FileName, Sealed};
use fd_bytes::NoMemory;
use std::alloc::Global;

/// One writer's files in one dataset.
pub trait Shelf<F: Send>: Send + Drop {
    /// A file of this shelf once it changes no more.
    type Sealed: Sealed<F>;

    /// A file of this shelf while it is written.
    type File: Disk<F, Sealed = Self::Sealed>;

    /// The bytes of the files that it holds by `keep`, where told.
    ghost kept: { Self → Option (FileName → Option (List ℕ)) };

    /// Whether `create` was asked for the file.
    ghost created: { Self → FileName → Bool };

    /// The writer's number.
    ghost writer: { Self → ℕ };

    /// The dataset's text.
    ghost name: { Self → List ℕ };

    /// How many calls have failed; it never falls.
    ghost faults: { Self → ℕ };

    /// Makes an empty file, in place of an unlisted one of that name. A file that was asked for once isn't asked for
    /// again, unless memory was refused. From then on, in the middle of the call too, a crash may leave any bytes under
    /// that name, or none, until the shelf keeps the file (`IsKeptOr`).
    fn create(&mut self, alloc: Global, seq: u32, kind: FileKind) -> Result<Self::File, Down<F>>
        requires { created self.old (name_of (writer self.old) seq kind) ≡ false }
        ensures file { IfOk result (λ d. Self.File.file d ≡ option_map (λ _. firm_file []) (kept self.old)) }
        ensures file_name { IfOk result (λ d. Self.File.name d ≡ name self.old) }
        ensures made { IfOk result (λ d. Self.File.made d ≡ Some (name_of (writer self.old) seq kind)) }
        ensures created { (n : FileName) → created self.new n ≡ true → (created self.old n ≡ true) ⊎ (n ≡ name_of (writer self.old) seq kind) }
        ensures refused { IfErr result (λ e. OnNoMemory e ((n : FileName) → created self.new n ≡ created self.old n)) }
        ensures kept { kept self.new ≡ kept self.old }
        ensures writer { writer self.new ≡ writer self.old }
        ensures name { name self.new ≡ name self.old }
        ensures cause { HasDownCause (faults self.old) (faults self.new) result };

    /// Holds both files of a batch, which were created on this shelf under this number, under their names. Keeping what
    /// it holds already changes nothing. From then on both stand in each image of the dataset (`KeepsBoth`).
    fn keep(
        &mut self,
        alloc: Global,
        seq: u32,
        fields: &Self::Sealed,
        index: &Self::Sealed,
    ) -> Result<(), NoMemory>
        requires fields { Self.Sealed.made fields.now ≡ Some (name_of (writer self.old) seq Fields) }
        requires fields_name { Self.Sealed.name fields.now ≡ name self.old }
        requires index { Self.Sealed.made index.now ≡ Some (name_of (writer self.old) seq Index) }
        requires index_name { Self.Sealed.name index.now ≡ name self.old }
        ensures ok { OnOk result (kept self.new ≡ keeping (name_of (writer self.old) seq Index) (Self.Sealed.bytes index.now) (keeping (name_of (writer self.old) seq Fields) (Self.Sealed.bytes fields.now) (kept self.old))) }
        ensures err { OnErr result (kept self.new ≡ kept self.old) }
        ensures created { (n : FileName) → created self.new n ≡ true → (created self.old n ≡ true) ⊎ ((n ≡ name_of (writer self.old) seq Fields) ⊎ (n ≡ name_of (writer self.old) seq Index)) }
        ensures writer { writer self.new ≡ writer self.old }
        ensures name { name self.new ≡ name self.old }
        ensures faults { faults self.new ≡ faults self.old };
}

/// One dataset: its table of contents and its files.
pub trait Folder<F: Send>: Send + Drop {
    /// A file of the dataset.
    type Sealed: Sealed<F>;

    /// The table of contents.
    type Table: Disk<F>;

    /// A writer's files.
    type Shelf: Shelf<F, Sealed = Self::Sealed>;

    /// What it has, where told; without its table while that is out.
    ghost has: { Self → Option Contents };

    /// Whether the table is handed out.
    ghost table_out: { Self → Bool };

    /// The greatest writer for which a shelf was asked since the store handed the folder out.
    ghost last_writer: { Self → ℕ };

    /// The dataset's text.
    ghost name: { Self → List ℕ };

    /// How many calls have failed; it never falls.
    ghost faults: { Self → ℕ };

    /// The clock: a number that doesn't fall. Where the table is out, it is given.
    ghost moment: { Self → Option Self.Table → ℕ };

    /// What a crash at some moment from that one on might have left, of the files that it has and of the table, which is
    /// given where it is out. It says nothing of what shelves that are out have, nor of times when one came back.
    ghost left_since: { Self → Option Self.Table → ℕ → Left → Type 0 };

    /// Makes a table of these bytes, which is firm, where there is none. After an `Err`, and after any crash, there is
    /// this table or none: a crash in its middle leaves what one before or after it leaves (`IsLeftByFound`).
    fn found(&mut self, alloc: Global, first: &[u8]) -> Result<(), Down<F>>
        requires none { IfSome (has self.old) (λ v. v.table ≡ None) }
        requires back { table_out self.old ≡ false }
        requires short { length (name self.old) ≤ 255 }
        ensures ok { OnOk result (has self.new ≡ option_map (founded first.now) (has self.old)) }
        ensures err { OnErr result ((has self.new ≡ has self.old) ⊎ (has self.new ≡ option_map (founded first.now) (has self.old))) }
        ensures refused { IfErr result (λ e. OnNoMemory e (has self.new ≡ has self.old)) }
        ensures out { table_out self.new ≡ false }
        ensures last_writer { last_writer self.new ≡ last_writer self.old }
        ensures name { name self.new ≡ name self.old }
        ensures cause { HasDownCause (faults self.old) (faults self.new) result };

    /// Hands the table out, where there is one and it isn't out. A dataset whose text has more than 255 bytes has none.
    fn table(&mut self, alloc: Global) -> Result<Option<Self::Table>, Down<F>>
        requires { table_out self.old ≡ false }
        ensures given { IfOk result (λ o. IfSome (has self.old) (λ v. MatchOption o (v.table ≡ None) (λ t. (Self.Table.file t ≡ v.table) × IsSome v.table))) }
        ensures table_name { IfOk result (λ o. IfSome o (λ t. Self.Table.name t ≡ name self.old)) }
        ensures short { IfOk result (λ o. IsSome o → length (name self.old) ≤ 255) }
        ensures has { OnOk result (has self.new ≡ option_map without_table (has self.old)) }
        ensures has_err { OnErr result (has self.new ≡ has self.old) }
        ensures out { IfOk result (λ o. table_out self.new ≡ is_some o) }
        ensures out_err { OnErr result (table_out self.new ≡ false) }
        ensures last_writer { last_writer self.new ≡ last_writer self.old }
        ensures name { name self.new ≡ name self.old }
        ensures time { IfOk result (λ o. StandsStill (moment self.old None) (moment self.new o) (left_since self.old None) (left_since self.new o)) }
        ensures time_err { OnErr result (StandsStill (moment self.old None) (moment self.new None) (left_since self.old None) (left_since self.new None)) }
        ensures cause { HasDownCause (faults self.old) (faults self.new) result };

    /// Puts the table back.
    fn give_table(&mut self, table: Self::Table)
        requires out { table_out self.old ≡ true }
        requires table_name { Self.Table.name table ≡ name self.old }
        ensures has { has self.new ≡ with_table (Self.Table.file table) (has self.old) }
        ensures back { table_out self.new ≡ false }
        ensures last_writer { last_writer self.new ≡ last_writer self.old }
        ensures name { name self.new ≡ name self.old }
        ensures time { StandsStill (moment self.old (Some table)) (moment self.new None) (left_since self.old (Some table)) (left_since self.new None) }
        ensures faults { faults self.old ≤ faults self.new };

    /// Makes a shelf for a writer whose number is greater than each that was asked for since the store handed the folder
    /// out. That no listed entry has this writer, so that no file of the shelf stands in the place of a listed one, is
    /// owed by whoever knows the list: the folder doesn't.
    fn shelf(&mut self, alloc: Global, writer: u32) -> Result<Self::Shelf, Down<F>>
        requires { last_writer self.old < writer }
        ensures shelf { IfOk result (λ s. (Self.Shelf.writer s ≡ writer) × (Self.Shelf.name s ≡ name self.old)) }
        ensures nothing { IfOk result (λ s. (Self.Shelf.kept s ≡ option_map (λ _. no_files) (has self.old)) × ((n : FileName) → Self.Shelf.created s n ≡ false)) }
        ensures last_writer { last_writer self.new ≤ writer }
        ensures refused { IfErr result (λ e. OnNoMemory e (last_writer self.new ≡ last_writer self.old)) }
        ensures has { has self.new ≡ has self.old }
        ensures out { table_out self.new ≡ table_out self.old }
        ensures name { name self.new ≡ name self.old }
        ensures cause { HasDownCause (faults self.old) (faults self.new) result };

    /// Puts a shelf back. The folder then has each file that the shelf held by `keep`, under its name.
    fn give_shelf(&mut self, shelf: Self::Shelf)
        requires { Self.Shelf.name shelf ≡ name self.old }
        ensures has { TakesBack (has self.old) (has self.new) (Self.Shelf.kept shelf) (Self.Shelf.created shelf) }
        ensures out { table_out self.new ≡ table_out self.old }
        ensures last_writer { last_writer self.new ≡ last_writer self.old }
        ensures name { name self.new ≡ name self.old }
        ensures faults { faults self.old ≤ faults self.new };

    /// Gives a file of the folder, which still has it afterwards, or `None` exactly where there is no such file.
    fn sealed(&mut self, alloc: Global, file: FileName) -> Result<Option<Self::Sealed>, Down<F>>
        ensures given { IfOk result (λ o. IfSome (has self.old) (λ v. MatchOption o (v.files file ≡ None) (λ z. (Self.Sealed.bytes z ≡ v.files file) × IsSome (v.files file)))) }
        ensures file_name { IfOk result (λ o. IfSome o (λ z. (Self.Sealed.name z ≡ name self.old) × (Self.Sealed.made z ≡ Some file))) }
        ensures has { has self.new ≡ has self.old }
        ensures out { table_out self.new ≡ table_out self.old }
        ensures last_writer { last_writer self.new ≡ last_writer self.old }
        ensures name { name self.new ≡ name self.old }
        ensures time { (out : Option Self.Table) → StandsStill (moment self.old out) (moment self.new out) (left_since self.old out) (left_since self.new out) }
        ensures cause { HasDownCause (faults self.old) (faults self.new) result };

    /// This moment is one of those since an earlier one.
    ghost counts_now: { (d : Self) (v : Contents) (t : ℕ) (left : Left) → has d ≡ Some v → table_out d ≡ false → t ≤ moment d None → IsFolderImage v left → left_since d None t left };

    /// Since this moment there is no other.
    ghost only_now: { (d : Self) (v : Contents) (left : Left) → has d ≡ Some v → table_out d ≡ false → left_since d None (moment d None) left → IsFolderImage v left };

    /// The same while the table is out.
    ghost only_beside: { (d : Self) (table : Self.Table) (left : Left) → left_since d (Some table) (moment d (Some table)) left → IsLeftBeside (has d) (MayLeave (Self.Table.file table)) left };

    /// What is left since a moment is left since each before it.
    ghost earlier: { (d : Self) (out : Option Self.Table) (t u : ℕ) (left : Left) → u ≤ t → left_since d out t left → left_since d out u left };

    /// While the table is out, the clock goes on with its own.
    ghost ticks: { (d : Self) (old new : Self.Table) → Self.Table.moment old ≤ Self.Table.moment new → moment d (Some old) ≤ moment d (Some new) };

    /// What calls that write nothing of the table leave while it is out, it leaves beside the files.
    ghost quiet: { (d : Self) (old new : Self.Table) (t : ℕ) (left : Left)
        → LeavesOnly Self.Table.moment Self.Table.left_since old new (MayLeave (Self.Table.file old)) → left_since d (Some new) t left
        → left_since d (Some old) t left ⊎ IsLeftBeside (has d) (MayLeave (Self.Table.file old)) left };
}

/// A store of datasets. One that tells has one root, which any name enters.
pub trait Store<F: Send>: Send + Drop {
    /// One dataset.
    type Folder: Folder<F>;

    /// The schema and the folders that are not out, where told.
    ghost has: { Self → Option Holdings };

    /// The folders that are handed out.
    ghost out: { Self → List ℕ → Bool };

    /// How many calls have failed, with the faults that were noted; it never falls.
    ghost faults: { Self → ℕ };

    /// Picks the root. One that isn't there has no schema and no datasets.
    fn enter(&mut self, alloc: Global, root: &str) -> Result<(), Down<F>>
        ensures has { has self.new ≡ has self.old }
        ensures out { out self.new ≡ out self.old }
        ensures cause { HasDownCause (faults self.old) (faults self.new) result };

    /// Reads the schema, or gives `None` exactly where there is none.
    fn schema(&mut self, alloc: Global) -> Result<Option<Vec<u8>>, Down<F>>
        ensures given { IfOk result (λ o. IfSome (has self.old) (λ s. option_map (λ v. v.items) o ≡ s.schema)) }
        ensures has { has self.new ≡ has self.old }
        ensures out { out self.new ≡ out self.old }
        ensures cause { HasDownCause (faults self.old) (faults self.new) result };

    /// Stores the schema, where there is none. After an `Err`, and after any crash, there is this one or none: a crash in
    /// its middle leaves what one before or after it leaves (`IsLeftByPlant`).
    fn plant(&mut self, alloc: Global, text: &[u8]) -> Result<(), Down<F>>
        requires { IfSome (has self.old) (λ s. s.schema ≡ None) }
        ensures ok { OnOk result (has self.new ≡ option_map (planted text.now) (has self.old)) }
        ensures err { OnErr result ((has self.new ≡ has self.old) ⊎ (has self.new ≡ option_map (planted text.now) (has self.old))) }
        ensures refused { IfErr result (λ e. OnNoMemory e (has self.new ≡ has self.old)) }
        ensures out { out self.new ≡ out self.old }
        ensures cause { HasDownCause (faults self.old) (faults self.new) result };

    /// Gives the datasets that have a folder, sorted by bytes.
    fn names(&mut self, alloc: Global) -> Result<Vec<String>, Down<F>>
        ensures sorted { IfOk result (λ v. IsStrictlySortedBy ⟦<String as Ord>⟧.cmp v.items) }
        ensures each { IfOk result (λ v. IfSome (has self.old) (λ s. (name : List ℕ) → out self.old name ≡ false → list_any (λ n. bytes_eq name (string_bytes n)) v.items ≡ is_some (s.folders name))) }
        ensures has { has self.new ≡ has self.old }
        ensures out { out self.new ≡ out self.old }
        ensures cause { HasDownCause (faults self.old) (faults self.new) result };

    /// Hands a folder out, where it isn't out.
    fn folder(&mut self, alloc: Global, name: &str) -> Result<Self::Folder, Down<F>>
        requires { out self.old name.now ≡ false }
        ensures folder { IfOk result (λ d. (Self.Folder.name d ≡ name.now) × (Self.Folder.table_out d ≡ false) × (Self.Folder.last_writer d ≡ 0)) }
        ensures contents { IfOk result (λ d. Self.Folder.has d ≡ option_map (λ s. folder_at s name.now) (has self.old)) }
        ensures others { OnOk result (WhereTold (has self.old) (has self.new) (SameBut name.now)) }
        ensures err { OnErr result (has self.new ≡ has self.old) }
        ensures out { (other : List ℕ) → out self.new other ≡ true → (out self.old other ≡ true) ⊎ (other ≡ name.now) }
        ensures out_err { OnErr result (out self.new ≡ out self.old) }
        ensures cause { HasDownCause (faults self.old) (faults self.new) result };

    /// Puts a folder back, where its table isn't out.
    fn give_folder(&mut self, folder: Self::Folder)
        requires { Self.Folder.table_out folder ≡ false }
        ensures contents { WhereTold (has self.old) (has self.new) (SameBut (Self.Folder.name folder)) }
        ensures given { IfSome (has self.new) (λ s. Self.Folder.has folder ≡ Some (folder_at s (Self.Folder.name folder))) }
        ensures out { (other : List ℕ) → out self.new other ≡ true → (out self.old other ≡ true) × (other ≢ Self.Folder.name folder) }
        ensures faults { faults self.old ≤ faults self.new };

    /// Counts a fault that was met in a thread.
    fn note(&mut self, fault: F)
        ensures has { has self.new ≡ has self.old }
        ensures out { out self.new ≡ out self.old }
        ensures cause { Rose (faults self.old) (faults self.new) }
        ensures later { faults self.old ≤ faults self.new };
}
