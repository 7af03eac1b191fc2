// What a dataset in memory hands out, and what comes back.
ghost use Rattle.std.specs.Prelude.{◌≡◌, ◌≤◌, ◌<◌, ◌⊎◌, List, Option, ℕ, length, nat_le, false, is_some, is_ok, option_map, Some, None, IfOk, IfErr, IfSome, OnOk, OnErr, IsSome, MatchOption};
ghost use Rattle.fd_disk.specs.{Causes.{HasDownCause, OnNoMemory}, Folders.{Left, IsFolderImage, founded, no_files, without_table}, Renewals.{StandsStill}, Outstanding.{IsLeftByFound}, declared.folders.FileName.{FileName}};
ghost use Rattle.fd_file_mem.specs.{Calls.{begun, file_of, new_file}, Plans.{FailsByPlan, IsAnew, fails_of, file_text, is_due, is_fault}, Told.{disk_memory, disk_name, disk_plan, sealed_bytes, sealed_made, sealed_name, sealed_plan}, declared.disk.MemDisk.{MemDisk}};
ghost use Rattle.fd_disk_mem.specs.Told.{FolderLeftFrom, folder_contents, folder_faults, folder_last_writer, folder_moment, folder_name, folder_out, folder_plan, folder_plans, folder_room, folder_table, shelf_created, shelf_kept, shelf_name, shelf_plans, shelf_room, shelf_writer};

use crate::drawers::{Drawers, bytes_of, lay};
use crate::past::Past;
use crate::{MemFolder, MemShelf};
use fd_disk::{Down, FileName, Folder};
use fd_file_mem::{MemDisk, MemFault, MemSealed, Op, counted};
use std::alloc::Global;

impl Folder<MemFault> for MemFolder {
    ghost use Rattle.std.specs.Prelude.{Some, string_bytes};
    ghost use Rattle.fd_disk_mem.specs.{Slots.{contents_of}, Pasts.{LeftFrom, clock, table_in}, PastLaws.{counts_told, earlier_from, only_told, only_out, ticks_told, quiet_told}};

    type Sealed = MemSealed;

    type Table = MemDisk;

    type Shelf = MemShelf;

    ghost has = { λ d. Some (contents_of d.table d.files) };

    ghost table_out = { λ d. d.table_out };

    ghost last_writer = { λ d. d.last_writer };

    ghost name = { λ d. string_bytes d.name };

    ghost faults = { λ d. d.faults };

    ghost moment = { λ d out. clock d.past (table_in d.table out) };

    ghost left_since = { λ d out t left. LeftFrom d.past (table_in d.table out) d.files t left };

    ghost counts_now = { λ d v t left is back le image. counts_told d.past d.table d.files v t left is le image };

    ghost only_now = { λ d v left is back since. only_told d.past d.table d.files v left is since };

    ghost only_beside = { λ d table left since. only_out d.past d.table table d.files left since };

    ghost earlier = { λ d out t u left before since. earlier_from d.past (table_in d.table out) d.files t u left before since };

    ghost ticks = { λ d old new later. ticks_told d.past old new later };

    ghost quiet = { λ d old new t left leaves since. quiet_told d.past d.table old new d.files t left leaves since };

    /// A fault comes by the plan, behind the fuse, or where the bytes are more than a file may have, and has done nothing.
    fn found(&mut self, alloc: Global, first: &[u8]) -> Result<(), Down<MemFault>>
        requires none { IfSome (Some (folder_contents self.old)) (λ v. v.table ≡ None) }
        requires back { folder_out self.old ≡ false }
        requires short { length (folder_name self.old) ≤ 255 }
        ensures ok { OnOk result (Some (folder_contents self.new) ≡ option_map (founded first.now) (Some (folder_contents self.old))) }
        ensures err { OnErr result ((Some (folder_contents self.new) ≡ Some (folder_contents self.old)) ⊎ (Some (folder_contents self.new) ≡ option_map (founded first.now) (Some (folder_contents self.old)))) }
        ensures nothing { OnErr result (folder_contents self.new ≡ folder_contents self.old) }
        ensures left { (left : Left) → IsFolderImage (folder_contents self.new) left → IsLeftByFound first.now (folder_contents self.old) left }
        ensures refused { IfErr result (λ e. OnNoMemory e (Some (folder_contents self.new) ≡ Some (folder_contents self.old))) }
        ensures out { folder_out self.new ≡ false }
        ensures last_writer { folder_last_writer self.new ≡ folder_last_writer self.old }
        ensures name { folder_name self.new ≡ folder_name self.old }
        ensures cause { HasDownCause (folder_faults self.old) (folder_faults self.new) result }
        ensures fails { FailsByPlan (is_due Op.Create (folder_plan self.old)) (folder_plan self.old).fuse.allowed (nat_le (length first.now) (folder_room self.old).size) (is_ok result) (is_fault result) }
        ensures room { OnOk result (IfSome (folder_table self.new) (λ t. disk_memory t ≡ begun (new_file (folder_room self.old)) first.now)) }
    {
        let Ok(mut table) = self.empty_table(alloc) else {
            return Err(Down::NoMemory);
        };
        if self.plan.meets(Op::Create) || first.len() > table.size() {
            return Err(Down::Fault(counted(&mut self.faults)));
        }
        table.begin(first);
        self.table = Some(table);
        self.past = Past::Start;
        Ok(())
    }

    fn table(&mut self, alloc: Global) -> Result<Option<MemDisk>, Down<MemFault>>
        requires { folder_out self.old ≡ false }
        ensures given { IfOk result (λ o. IfSome (Some (folder_contents self.old)) (λ v. MatchOption o (v.table ≡ None) (λ t. (Some (file_of (disk_memory t)) ≡ v.table) × IsSome v.table))) }
        ensures table_name { IfOk result (λ o. IfSome o (λ t. (disk_name t).items ≡ folder_name self.old)) }
        ensures short { IfOk result (λ o. IsSome o → length (folder_name self.old) ≤ 255) }
        ensures has { OnOk result (Some (folder_contents self.new) ≡ option_map without_table (Some (folder_contents self.old))) }
        ensures has_err { OnErr result (Some (folder_contents self.new) ≡ Some (folder_contents self.old)) }
        ensures out { IfOk result (λ o. folder_out self.new ≡ is_some o) }
        ensures out_err { OnErr result (folder_out self.new ≡ false) }
        ensures last_writer { folder_last_writer self.new ≡ folder_last_writer self.old }
        ensures name { folder_name self.new ≡ folder_name self.old }
        ensures time { IfOk result (λ o. StandsStill (folder_moment self.old None) (folder_moment self.new o) (FolderLeftFrom self.old None) (FolderLeftFrom self.new o)) }
        ensures time_err { OnErr result (StandsStill (folder_moment self.old None) (folder_moment self.new None) (FolderLeftFrom self.old None) (FolderLeftFrom self.new None)) }
        ensures cause { HasDownCause (folder_faults self.old) (folder_faults self.new) result }
        ensures never { is_fault result ≡ false }
        ensures plan { IfOk result (λ o. IfSome o (λ t. IsAnew (folder_plan self.old).fails.items (folder_plan self.old).fuse.allowed (disk_plan t))) }
    {
        let Ok(name) = self.name.as_bytes().to_vec(alloc) else {
            return Err(Down::NoMemory);
        };
        let Ok(plan) = self.plan.again(alloc) else {
            return Err(Down::NoMemory);
        };
        match self.table.take() {
            None => Ok(None),
            Some(table) => {
                self.table_out = true;
                Ok(Some(table.opened(name, plan)))
            }
        }
    }

    fn give_table(&mut self, table: MemDisk) {
        self.table = Some(table);
        self.table_out = false;
    }

    fn shelf(&mut self, alloc: Global, writer: u32) -> Result<MemShelf, Down<MemFault>>
        requires { folder_last_writer self.old < writer }
        ensures shelf { IfOk result (λ s. (shelf_writer s ≡ writer) × (shelf_name s ≡ folder_name self.old)) }
        ensures nothing { IfOk result (λ s. (Some (shelf_kept s) ≡ option_map (λ _. no_files) (Some (folder_contents self.old))) × ((n : FileName) → shelf_created s n ≡ false)) }
        ensures last_writer { folder_last_writer self.new ≤ writer }
        ensures last { OnOk result (folder_last_writer self.new ≡ writer) }
        ensures refused { IfErr result (λ e. OnNoMemory e (folder_last_writer self.new ≡ folder_last_writer self.old)) }
        ensures has { Some (folder_contents self.new) ≡ Some (folder_contents self.old) }
        ensures out { folder_out self.new ≡ folder_out self.old }
        ensures name { folder_name self.new ≡ folder_name self.old }
        ensures cause { HasDownCause (folder_faults self.old) (folder_faults self.new) result }
        ensures never { is_fault result ≡ false }
        ensures room { IfOk result (λ s. shelf_room s ≡ folder_room self.old) }
        ensures plans { IfOk result (λ s. (file : List ℕ) → fails_of file (shelf_plans s).items.items ≡ fails_of file (folder_plans self.old).items.items) }
        ensures fuse { IfOk result (λ s. (shelf_plans s).fuse.allowed ≡ (folder_plans self.old).fuse.allowed) }
    {
        let (Ok(name), Ok(plans), Ok(place)) = (
            String::from_str(alloc, self.name.as_str()),
            self.plans.again(alloc),
            Box::new(alloc, Drawers::Empty),
        ) else {
            return Err(Down::NoMemory);
        };
        self.last_writer = writer;
        Ok(MemShelf {
            name,
            writer,
            kept: Vec::new(alloc),
            place,
            faults: 0,
            plans,
            room: self.room,
        })
    }

    fn give_shelf(&mut self, shelf: MemShelf) {
        let MemShelf {
            name: _,
            writer: _,
            kept,
            place,
            faults: _,
            plans: _,
            room: _,
        } = shelf;
        lay(&mut self.files, kept, place);
        self.past = Past::Start;
    }

    fn sealed(&mut self, alloc: Global, file: FileName) -> Result<Option<MemSealed>, Down<MemFault>>
        ensures given { IfOk result (λ o. IfSome (Some (folder_contents self.old)) (λ v. MatchOption o (v.files file ≡ None) (λ z. (Some (sealed_bytes z).items ≡ v.files file) × IsSome (v.files file)))) }
        ensures file_name { IfOk result (λ o. IfSome o (λ z. ((sealed_name z).items ≡ folder_name self.old) × (sealed_made z ≡ Some file))) }
        ensures has { Some (folder_contents self.new) ≡ Some (folder_contents self.old) }
        ensures out { folder_out self.new ≡ folder_out self.old }
        ensures last_writer { folder_last_writer self.new ≡ folder_last_writer self.old }
        ensures name { folder_name self.new ≡ folder_name self.old }
        ensures time { (out : Option MemDisk) → StandsStill (folder_moment self.old out) (folder_moment self.new out) (FolderLeftFrom self.old out) (FolderLeftFrom self.new out) }
        ensures cause { HasDownCause (folder_faults self.old) (folder_faults self.new) result }
        ensures never { is_fault result ≡ false }
        ensures plan { IfOk result (λ o. IfSome o (λ z. IsAnew (fails_of (file_text (folder_name self.old) file) (folder_plans self.old).items.items) (folder_plans self.old).fuse.allowed (sealed_plan z))) }
    {
        let Some(bytes) = bytes_of(&self.files, file) else {
            return Ok(None);
        };
        let (Ok(name), Ok(bytes), Ok(plan)) = (
            self.name.as_bytes().to_vec(alloc),
            bytes.to_vec(alloc),
            self.plans.of_file(alloc, self.name.as_str(), file),
        ) else {
            return Err(Down::NoMemory);
        };
        Ok(Some(MemSealed::new(name, Some(file), bytes, plan)))
    }
}
