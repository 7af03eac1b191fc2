// The replacing of a file, as damage does it.
ghost use Rattle.std.specs.Prelude.{◌≡◌, ◌≤◌, List, ℕ, length, option_map, IfOk, OnOk, OnErr};
ghost use Rattle.fd_disk.specs.Images.{firm_file};
ghost use Rattle.fd_file_mem.specs.{Calls.{file_of}, Plans.{table_text}};
ghost use Rattle.fd_disk_mem.specs.{Planning.{fails_for, holdings}, Replaced.{HasFile, HasSchema, HasTable, IsReplaced}, Told.{store_plan, store_plans, store_room}};

use crate::MemStore;
use crate::drawers::{Drawers, drawer_of, lay};
use crate::names::has_folder;
use crate::naming::{file_name, table_name};
use fd_bytes::NoMemory;
use fd_disk::{FileName, Store};
use fd_file_mem::{MemDisk, MemFault, Room};
use std::alloc::{AllocError, Global};

impl MemStore {
    /// Has a file be of exactly these bytes, which are firm, or be absent. All else stays as it is, what is planned to fail
    /// too. The names are those that `fail` takes, of files of folders that are not out; a name that is no file's changes
    /// nothing. A table has room for its bytes, also where they are more than the files of the store may have.
    pub fn replace(
        &mut self,
        alloc: Global,
        file: &str,
        bytes: Option<&[u8]>,
    ) -> Result<(), NoMemory>
        requires short { (dataset : List ℕ) → file.now ≡ table_text dataset → length dataset ≤ 255 }
        ensures ok { OnOk result (IsReplaced file.now (option_map (λ b. b.now) bytes.entry) (holdings self.old) (holdings self.new)) }
        ensures err { OnErr result (holdings self.new ≡ holdings self.old) }
        ensures planned { (other : List ℕ) → fails_for other self.new ≡ fails_for other self.old }
        ensures asked { (store_plan self.new).asked ≡ (store_plan self.old).asked }
        ensures fuse { ((store_plan self.new).fuse.allowed ≡ (store_plan self.old).fuse.allowed) × ((store_plans self.new).fuse.allowed ≡ (store_plans self.old).fuse.allowed) }
        ensures room { store_room self.new ≡ store_room self.old }
        ensures faults { ⟦<MemStore as Store<MemFault>>⟧.faults self.new ≡ ⟦<MemStore as Store<MemFault>>⟧.faults self.old }
    {
        if file == "schema" {
            return self.replace_schema(alloc, bytes);
        }
        if let Some(dataset) = table_name(file) {
            return self.replace_table(alloc, dataset, bytes);
        }
        match file_name(alloc, file)? {
            Some((dataset, name)) => self.replace_file(alloc, dataset, name, bytes),
            None => Ok(()),
        }
    }

    // Has the schema be this text or none.
    fn replace_schema(&mut self, alloc: Global, text: Option<&[u8]>) -> Result<(), NoMemory>
        ensures ok { OnOk result (HasSchema (option_map (λ b. b.now) text.entry) (holdings self.old) (holdings self.new)) }
        ensures err { OnErr result (holdings self.new ≡ holdings self.old) }
        ensures same { (self.new.plan ≡ self.old.plan) × (self.new.plans ≡ self.old.plans) × (self.new.room ≡ self.old.room) × (self.new.faults ≡ self.old.faults) }
    {
        self.schema = match text {
            Some(text) => Some(text.to_vec(alloc)?),
            None => None,
        };
        Ok(())
    }

    // Has the table of a dataset be firm with these bytes, or be absent.
    fn replace_table(
        &mut self,
        alloc: Global,
        dataset: &str,
        bytes: Option<&[u8]>,
    ) -> Result<(), NoMemory>
        requires short { length dataset.now ≤ 255 }
        ensures ok { OnOk result (HasTable dataset.now (option_map (λ b. b.now) bytes.entry) (holdings self.old) (holdings self.new)) }
        ensures err { OnErr result (holdings self.new ≡ holdings self.old) }
        ensures same { (self.new.plan ≡ self.old.plan) × (self.new.plans ≡ self.old.plans) × (self.new.room ≡ self.old.room) × (self.new.faults ≡ self.old.faults) }
    {
        if bytes.is_none() && !has_folder(&self.slots, dataset) {
            return Ok(());
        }
        let table = self.firm_table(alloc, dataset, bytes)?;
        let mut folder = self.handed_out(alloc, dataset)?;
        folder.table = table;
        self.give_folder(folder);
        Ok(())
    }

    // Has a file of a dataset be of these bytes, or be absent.
    fn replace_file(
        &mut self,
        alloc: Global,
        dataset: &str,
        name: FileName,
        bytes: Option<&[u8]>,
    ) -> Result<(), NoMemory>
        ensures ok { OnOk result (HasFile dataset.now name (option_map (λ b. b.now) bytes.entry) (holdings self.old) (holdings self.new)) }
        ensures err { OnErr result (holdings self.new ≡ holdings self.old) }
        ensures same { (self.new.plan ≡ self.old.plan) × (self.new.plans ≡ self.old.plans) × (self.new.room ≡ self.old.room) × (self.new.faults ≡ self.old.faults) }
    {
        if bytes.is_none() && !has_folder(&self.slots, dataset) {
            return Ok(());
        }
        let drawer = drawer_of(alloc, name, bytes)?;
        let place = Box::new(alloc, Drawers::Empty)?;
        let mut folder = self.handed_out(alloc, dataset)?;
        lay(&mut folder.files, drawer, place);
        self.give_folder(folder);
        Ok(())
    }

    // A firm table of these bytes, with room for them.
    fn firm_table(
        &self,
        alloc: Global,
        dataset: &str,
        bytes: Option<&[u8]>,
    ) -> Result<Option<MemDisk>, AllocError>
        ensures { IfOk result (λ o. option_map (λ d. file_of d.file) o ≡ option_map (λ b. firm_file b.now) bytes.entry) }
    {
        let Some(bytes) = bytes else {
            return Ok(None);
        };
        let name = dataset.as_bytes().to_vec(alloc)?;
        let plan = self.plans.of_table(alloc, dataset)?;
        let room = Room {
            size: self.room.size.max(bytes.len() as u64),
            calls: self.room.calls,
        };
        let mut table = MemDisk::empty(alloc, name, None, plan, room)?;
        table.begin(bytes);
        Ok(Some(table))
    }
}
