// A store in memory.
ghost use Rattle.std.specs.Prelude.{◌≡◌, ◌≢◌, ◌≤◌, ◌⊎◌, ◌++◌, List, ℕ, true, false, nat_le, length, is_ok, is_some, option_map, string_bytes, unwrap_or, IfOk, IfErr, IfSome, OnOk, OnErr, None, Some};
ghost use Rattle.fd_disk.specs.{Causes.{HasDownCause, OnNoMemory}, Folders.{IsStoreImage, SameBut, WhereTold, folder_at, no_contents, planted}};
ghost use Rattle.fd_disk_mem.specs.{Crashes.{IsCrashed, folders_left}, Planning.{PlansNothing, fails_for, holdings, none_told}, Slots.{contents_of, folder_in}, Told.{folder_contents, folder_name, folder_out, store_faults, store_plan, store_plans, store_room}};
ghost use Rattle.fd_file_mem.specs.Plans.{FailsByPlan, IsAnew, after_call, fails_if, fails_of, is_due, is_fault, table_text};

use crate::MemFolder;
use crate::names::sorted_names;
use crate::past::Past;
use crate::slots::{Slot, Slots, Stored, crash_all, opened, take_slot};
use fd_bytes::NoMemory;
use fd_disk::{Down, Store};
use fd_file_mem::{Fuse, MemFault, Op, Plan, Plans, Room, counted};
use std::alloc::{AllocError, Global};
use std::mem;

/// A store in memory. It tells everything, has one root, and can be made to fail and to crash.
#[derive(Drop)]
pub struct MemStore {
    pub(crate) schema: Option<Vec<u8>>,
    pub(crate) slots: Slots,
    pub(crate) faults: u64,
    /// The calls of the schema that are to fail.
    pub(crate) plan: Plan,
    pub(crate) plans: Plans,
    pub(crate) room: Room,
}

impl MemStore {
    /// An empty store. Each file may have `file_size` bytes and see `calls` writes and syncs, whose bytes together are at
    /// most twice as many; memory for all of them is taken when the file is made, and none later. A call beyond is a fault
    /// that changes nothing.
    pub fn new(alloc: Global, file_size: u64, calls: u32) -> Result<MemStore, NoMemory>
        ensures room { IfOk result (λ s. store_room s ≡ record { size = file_size; calls = calls }) }
        ensures plans { IfOk result PlansNothing }
        ensures empty { IfOk result (λ s. ⟦<MemStore as Store<MemFault>>⟧.has s ≡ Some (record { schema = None; folders = λ name. None })) }
    {
        let fuse = Fuse::new(alloc)?;
        Ok(MemStore {
            schema: None,
            slots: Slots::Empty,
            faults: 0,
            plan: Plan::new(alloc, fuse.shared()?),
            plans: Plans::new(alloc, fuse),
            room: Room {
                size: file_size,
                calls,
            },
        })
    }

    /// Plans a fault: of the calls of this kind on the file, counted from its opening, the one of this number fails, from 1.
    /// A file's name is `schema`, `DATASET/toc`, `DATASET/W-Q.fields` or `DATASET/W-Q.index`, with the numbers of the
    /// writer and of its batch. It is asked for before the folder is handed out.
    pub fn fail(&mut self, alloc: Global, file: &str, op: Op, nth: u32) -> Result<(), NoMemory>
        ensures ok { OnOk result ((other : List ℕ) → fails_for other self.new ≡ fails_for other self.old ++ fails_if other file.now op nth) }
        ensures err { OnErr result ((other : List ℕ) → fails_for other self.new ≡ fails_for other self.old) }
        ensures asked { (store_plan self.new).asked ≡ (store_plan self.old).asked }
        ensures fuse { ((store_plan self.new).fuse.allowed ≡ (store_plan self.old).fuse.allowed) × ((store_plans self.new).fuse.allowed ≡ (store_plans self.old).fuse.allowed) }
        ensures room { store_room self.new ≡ store_room self.old }
        ensures has { ⟦<MemStore as Store<MemFault>>⟧.has self.new ≡ ⟦<MemStore as Store<MemFault>>⟧.has self.old }
        ensures faults { ⟦<MemStore as Store<MemFault>>⟧.faults self.new ≡ ⟦<MemStore as Store<MemFault>>⟧.faults self.old }
    {
        if file == "schema" {
            self.plan.add(op, nth)?;
        } else {
            self.plans.add(alloc, file, op, nth)?;
        }
        Ok(())
    }

    /// Lets so many calls pass from now on, and fails all later ones. The store and all objects that it hands out from now
    /// on count together: their reads, writes and syncs, and the making of files. What was handed out before doesn't count.
    pub fn fuse(&mut self, calls: u64)
        ensures set { ((store_plan self.new).fuse.allowed ≡ Some calls) × ((store_plans self.new).fuse.allowed ≡ Some calls) }
        ensures planned { (file : List ℕ) → fails_for file self.new ≡ fails_for file self.old }
        ensures asked { (store_plan self.new).asked ≡ (store_plan self.old).asked }
        ensures room { store_room self.new ≡ store_room self.old }
        ensures has { ⟦<MemStore as Store<MemFault>>⟧.has self.new ≡ ⟦<MemStore as Store<MemFault>>⟧.has self.old }
        ensures faults { ⟦<MemStore as Store<MemFault>>⟧.faults self.new ≡ ⟦<MemStore as Store<MemFault>>⟧.faults self.old }
    {
        self.plan.fuse.set(calls);
        self.plans.fuse.set(calls);
    }

    /// A crash, and what it leaves: each table is firm with one of its images, and all else is as it was. Loose bytes are
    /// what they were (0), what a read gives (1), all 0x4F (2), all 0 (3), or computed from the number. No call is planned
    /// to fail any more, no fuse is set, and calls are counted anew. It takes no memory. Folders that are out are no part
    /// of it; `crash_out` takes one that is out.
    pub fn crash(self, alloc: Global, choice: u64) -> Result<MemStore, (MemStore, NoMemory)>
        ensures image { IfOk result (λ s. WhereTold (⟦<MemStore as Store<MemFault>>⟧.has self) (⟦<MemStore as Store<MemFault>>⟧.has s) (λ before after. IsStoreImage before after.schema (folders_left after))) }
        ensures left { IfOk result (λ s. WhereTold (⟦<MemStore as Store<MemFault>>⟧.has self) (⟦<MemStore as Store<MemFault>>⟧.has s) (IsCrashed choice)) }
        ensures plans { IfOk result PlansNothing }
        ensures room { IfOk result (λ s. store_room s ≡ store_room self) }
    {
        let _ = alloc;
        let mut store = self;
        crash_all(&mut store.slots, choice);
        store.plan.clear();
        store.plans.clear();
        Ok(store)
    }
}

impl Store<MemFault> for MemStore {
    ghost use Rattle.std.specs.Prelude.{Some, false, option_map};
    ghost use Rattle.fd_disk_mem.specs.Slots.{folder_in};

    type Folder = MemFolder;

    ghost has = { λ s. Some (record { schema = option_map (λ v. v.items) s.schema; folders = folder_in s.slots }) };

    ghost out = { λ s name. false };

    ghost faults = { λ s. s.faults };

    fn enter(&mut self, alloc: Global, root: &str) -> Result<(), Down<MemFault>> {
        let _ = alloc;
        let _ = root;
        Ok(())
    }

    fn schema(&mut self, alloc: Global) -> Result<Option<Vec<u8>>, Down<MemFault>>
        ensures given { IfOk result (λ o. IfSome (Some (holdings self.old)) (λ s. option_map (λ v. v.items) o ≡ s.schema)) }
        ensures has { Some (holdings self.new) ≡ Some (holdings self.old) }
        ensures out { none_told ≡ none_told }
        ensures cause { HasDownCause (store_faults self.old) (store_faults self.new) result }
        ensures fails { FailsByPlan (is_due Op.Read (store_plan self.old)) (store_plan self.old).fuse.allowed true (is_ok result) (is_fault result) }
        ensures asked { store_plan self.new ≡ after_call Op.Read (store_plan self.old) }
    {
        if self.plan.meets(Op::Read) {
            return Err(Down::Fault(counted(&mut self.faults)));
        }
        let Some(text) = &self.schema else {
            return Ok(None);
        };
        match text.to_vec(alloc) {
            Ok(text) => Ok(Some(text)),
            Err(_) => Err(Down::NoMemory),
        }
    }

    /// A fault comes by the plan, behind the fuse, or where the bytes are more than a file may have, and has done nothing.
    fn plant(&mut self, alloc: Global, text: &[u8]) -> Result<(), Down<MemFault>>
        requires { IfSome (Some (holdings self.old)) (λ s. s.schema ≡ None) }
        ensures ok { OnOk result ((Some (holdings self.new)) ≡ option_map (planted text.now) (Some (holdings self.old))) }
        ensures err { OnErr result (((Some (holdings self.new)) ≡ (Some (holdings self.old))) ⊎ ((Some (holdings self.new)) ≡ option_map (planted text.now) (Some (holdings self.old)))) }
        ensures nothing { OnErr result ((Some (holdings self.new)) ≡ (Some (holdings self.old))) }
        ensures refused { IfErr result (λ e. OnNoMemory e ((Some (holdings self.new)) ≡ (Some (holdings self.old)))) }
        ensures out { none_told ≡ none_told }
        ensures cause { HasDownCause (store_faults self.old) (store_faults self.new) result }
        ensures fails { FailsByPlan (is_due Op.Create (store_plan self.old)) (store_plan self.old).fuse.allowed (nat_le (length text.now) (store_room self.old).size) (is_ok result) (is_fault result) }
    {
        let Ok(text) = text.to_vec(alloc) else {
            return Err(Down::NoMemory);
        };
        if self.plan.meets(Op::Create) || text.len() as u64 > self.room.size {
            return Err(Down::Fault(counted(&mut self.faults)));
        }
        self.schema = Some(text);
        Ok(())
    }

    fn names(&mut self, alloc: Global) -> Result<Vec<String>, Down<MemFault>> {
        match sorted_names(alloc, &self.slots) {
            Ok(names) => Ok(names),
            Err(_) => Err(Down::NoMemory),
        }
    }

    fn folder(&mut self, alloc: Global, name: &str) -> Result<MemFolder, Down<MemFault>> {
        match self.handed_out(alloc, name) {
            Ok(folder) => Ok(folder),
            Err(_) => Err(Down::NoMemory),
        }
    }

    fn give_folder(&mut self, folder: MemFolder)
        requires { folder_out folder ≡ false }
        ensures contents { WhereTold (Some (holdings self.old)) (Some (holdings self.new)) (SameBut (folder_name folder)) }
        ensures given { IfSome (Some (holdings self.new)) (λ s. Some (folder_contents folder) ≡ Some (folder_at s (folder_name folder))) }
        ensures out { (other : List ℕ) → none_told other ≡ true → (none_told other ≡ true) × (other ≢ folder_name folder) }
        ensures faults { store_faults self.old ≤ store_faults self.new }
        ensures same { (store_room self.new ≡ store_room self.old) × ((store_plan self.new ≡ store_plan self.old) × (store_plans self.new ≡ store_plans self.old)) }
        ensures count { store_faults self.new ≡ store_faults self.old }
        ensures here { is_some ((holdings self.new).folders (folder_name folder)) ≡ true }
    {
        let MemFolder {
            name,
            table,
            table_out: _,
            files,
            last_writer: _,
            faults: _,
            mut place,
            plan: _,
            plans: _,
            room: _,
            past: _,
        } = folder;
        *place = mem::replace(&mut self.slots, Slots::Empty);
        let slot = Slot {
            name,
            folder: Some(Stored { table, files }),
        };
        self.slots = Slots::More(slot, place);
    }

    fn note(&mut self, fault: MemFault) {
        let _ = fault;
        let _ = counted(&mut self.faults);
    }
}

impl MemStore {
    /// Takes a folder out, with the calls of its files that are planned to fail.
    pub(crate) fn handed_out(&mut self, alloc: Global, name: &str) -> Result<MemFolder, AllocError>
        ensures folder { IfOk result (λ d. (string_bytes d.name ≡ name.now) × ((d.table_out ≡ false) × (d.last_writer ≡ 0))) }
        ensures contents { IfOk result (λ d. contents_of d.table d.files ≡ unwrap_or (folder_in self.old.slots name.now) no_contents) }
        ensures others { OnOk result ((other : List ℕ) → other ≢ name.now → folder_in self.new.slots other ≡ folder_in self.old.slots other) }
        ensures err { OnErr result (self.new.slots ≡ self.old.slots) }
        ensures plan { IfOk result (λ d. IsAnew (fails_of (table_text name.now) self.old.plans.items.items) self.old.plans.fuse.allowed d.plan) }
        ensures plans { IfOk result (λ d. (file : List ℕ) → fails_of file d.plans.items.items ≡ fails_of file self.old.plans.items.items) }
        ensures fuse { IfOk result (λ d. d.plans.fuse.allowed ≡ self.old.plans.fuse.allowed) }
        ensures room { IfOk result (λ d. d.room ≡ self.old.room) }
        ensures same { (self.new.schema ≡ self.old.schema) × (self.new.faults ≡ self.old.faults) × (self.new.plans ≡ self.old.plans) × (self.new.plan ≡ self.old.plan) × (self.new.room ≡ self.old.room) }
    {
        let text = String::from_str(alloc, name)?;
        let place = Box::new(alloc, Slots::Empty)?;
        let plan = self.plans.of_table(alloc, name)?;
        let plans = self.plans.again(alloc)?;
        let stored = take_slot(&mut self.slots, name);
        let (table, files) = opened(stored, name);
        Ok(MemFolder {
            name: text,
            table,
            table_out: false,
            files,
            last_writer: 0,
            faults: 0,
            place,
            plan,
            plans,
            room: self.room,
            past: Past::Start,
        })
    }
}
