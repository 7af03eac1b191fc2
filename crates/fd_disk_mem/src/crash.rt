// A crash while a dataset is out.
ghost use Rattle.std.specs.Prelude.{◌≡◌, ◌<◌, [], Option, false, is_some, option_map, string_bytes, vec_len, IfOk, IfSome, Some};
ghost use Rattle.fd_disk.specs.{Folders.{Left, folder_at}, Outstanding.{IsDatasetImage, IsStoreLeft, all_back, one_out}, declared.file.File.{File}};
ghost use Rattle.fd_file_mem.specs.{Calls.{file_of}, Told.{disk_memory, disk_name}};
ghost use Rattle.fd_disk_mem.specs.{Crashes.{IsTableCrashed, folders_left}, Out.{AreApart, AreOf, parts_of, parts_with}, Planning.{PlansNothing, holdings}, Slots.{contents_of}, Told.{folder_name, folder_out, store_room}};

use crate::{MemFolder, MemShelf, MemStore};
use fd_bytes::NoMemory;
use fd_disk::{Folder, Store};
use fd_file_mem::MemDisk;
use std::alloc::Global;

impl MemStore {
    /// A crash while this dataset is out, with its table, where that is out too, and with these shelves, whose writers
    /// differ. What it leaves is an image of them all: the files that a shelf keeps stand, those that a shelf created and
    /// doesn't keep are gone, and of the table is left what `crash` leaves of one.
    pub fn crash_out(
        self,
        alloc: Global,
        choice: u64,
        folder: MemFolder,
        table: Option<MemDisk>,
        shelves: Vec<MemShelf>,
    ) -> Result<MemStore, (MemStore, NoMemory)>
        requires table { folder_out folder ≡ is_some table }
        requires table_name { IfSome table (λ t. (disk_name t).items ≡ folder_name folder) }
        requires shelves { AreOf (folder_name folder) shelves.items }
        requires apart { AreApart shelves.items }
        ensures image { IfOk result (λ s. IsStoreLeft (holdings self) (one_out (folder_name folder) (parts_of folder table shelves.items)) (holdings s).schema (folders_left (holdings s))) }
        ensures left { IfOk result (λ s. IfSome table (λ t. IsTableCrashed choice (Some (file_of (disk_memory t))) (folder_at (holdings s) (folder_name folder)).table)) }
        ensures plans { IfOk result PlansNothing }
        ensures room { IfOk result (λ s. store_room s ≡ store_room self) }
    {
        let mut store = self;
        store.give_folder(with_all_back(folder, table, shelves));
        store.crash(alloc, choice)
    }
}

// The folder with its table and its shelves.
fn with_all_back(folder: MemFolder, table: Option<MemDisk>, shelves: Vec<MemShelf>) -> MemFolder
    requires table { folder.table_out ≡ is_some table }
    requires table_name { IfSome table (λ t. t.name.items ≡ string_bytes folder.name) }
    requires shelves { AreOf (string_bytes folder.name) shelves.items }
    requires apart { AreApart shelves.items }
    ensures image { (left : Left) → IsDatasetImage (all_back (contents_of result.table result.files)) left → IsDatasetImage (parts_of folder table shelves.items) left }
    ensures table { IfSome table (λ t. option_map (λ d. file_of d.file) result.table ≡ Some (file_of t.file)) }
    ensures back { result.table_out ≡ false }
    ensures name { string_bytes result.name ≡ string_bytes folder.name }
{
    let mut folder = folder;
    let mut shelves = shelves;
    give_shelves(&mut folder, &mut shelves);
    match table {
        None => {}
        Some(table) => folder.give_table(table),
    }
    folder
}

// Puts the shelves back.
fn give_shelves(folder: &mut MemFolder, shelves: &mut Vec<MemShelf>)
    requires shelves { AreOf (string_bytes folder.old.name) shelves.old.items }
    requires apart { AreApart shelves.old.items }
    ensures image { (table : Option File) (left : Left) → IsDatasetImage (parts_with folder.new table []) left → IsDatasetImage (parts_with folder.old table shelves.old.items) left }
    ensures out { folder.new.table_out ≡ folder.old.table_out }
    ensures name { string_bytes folder.new.name ≡ string_bytes folder.old.name }
{
    'shelves: while !shelves.is_empty() {
        give_first(folder, shelves);
    }
}

// Puts the first shelf back.
fn give_first(folder: &mut MemFolder, shelves: &mut Vec<MemShelf>)
    requires some { 0 < vec_len shelves.old }
    requires shelves { AreOf (string_bytes folder.old.name) shelves.old.items }
    requires apart { AreApart shelves.old.items }
    ensures fewer { vec_len shelves.new < vec_len shelves.old }
    ensures shelves { AreOf (string_bytes folder.new.name) shelves.new.items }
    ensures apart { AreApart shelves.new.items }
    ensures image { (table : Option File) (left : Left) → IsDatasetImage (parts_with folder.new table shelves.new.items) left → IsDatasetImage (parts_with folder.old table shelves.old.items) left }
    ensures out { folder.new.table_out ≡ folder.old.table_out }
    ensures name { string_bytes folder.new.name ≡ string_bytes folder.old.name }
{
    folder.give_shelf(shelves.remove(0));
}
