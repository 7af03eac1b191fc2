// The files that a writer makes in memory, and keeps.
ghost use Rattle.std.specs.Prelude.{◌≡◌, ◌⊎◌, [], true, false, is_ok, IfOk, IfErr, Some, option_map};
ghost use Rattle.fd_disk.specs.{Causes.{HasDownCause, OnNoMemory}, Images.{firm_file}, Names.{name_of}, declared.folders.FileName.{FileName}};
ghost use Rattle.fd_file_mem.specs.{Calls.{file_of, new_file}, Plans.{FailsByPlan, asked_once, fails_of, file_text, is_fault, is_planned, never_asked}, Told.{disk_made, disk_memory, disk_name, disk_plan}};
ghost use Rattle.fd_disk_mem.specs.Told.{shelf_created, shelf_faults, shelf_kept, shelf_name, shelf_plans, shelf_room, shelf_writer};

use crate::MemShelf;
use crate::drawers::{Kept, put, put_both};
use fd_bytes::NoMemory;
use fd_disk::{Down, FileKind, FileName, Shelf};
use fd_file_mem::{MemDisk, MemFault, MemSealed, Op, counted};
use std::alloc::{AllocError, Global};

impl Shelf<MemFault> for MemShelf {
    ghost use Rattle.std.specs.Prelude.{Some, string_bytes};
    ghost use Rattle.fd_disk_mem.specs.Drawers.{bytes_among, is_named};

    type Sealed = MemSealed;

    type File = MemDisk;

    ghost kept = { λ s. Some (bytes_among s.kept.items) };

    ghost created = { λ s. is_named s.kept.items };

    ghost writer = { λ s. s.writer };

    ghost name = { λ s. string_bytes s.name };

    ghost faults = { λ s. s.faults };

    fn create(&mut self, alloc: Global, seq: u32, kind: FileKind) -> Result<MemDisk, Down<MemFault>>
        requires { shelf_created self.old (name_of (shelf_writer self.old) seq kind) ≡ false }
        ensures file { IfOk result (λ d. Some (file_of (disk_memory d)) ≡ option_map (λ _. firm_file []) (Some (shelf_kept self.old))) }
        ensures file_name { IfOk result (λ d. (disk_name d).items ≡ shelf_name self.old) }
        ensures made { IfOk result (λ d. disk_made d ≡ Some (name_of (shelf_writer self.old) seq kind)) }
        ensures created { (n : FileName) → shelf_created self.new n ≡ true → (shelf_created self.old n ≡ true) ⊎ (n ≡ name_of (shelf_writer self.old) seq kind) }
        ensures refused { IfErr result (λ e. OnNoMemory e ((n : FileName) → shelf_created self.new n ≡ shelf_created self.old n)) }
        ensures kept { Some (shelf_kept self.new) ≡ Some (shelf_kept self.old) }
        ensures writer { shelf_writer self.new ≡ shelf_writer self.old }
        ensures name { shelf_name self.new ≡ shelf_name self.old }
        ensures cause { HasDownCause (shelf_faults self.old) (shelf_faults self.new) result }
        ensures fails { FailsByPlan (is_planned Op.Create 1 (fails_of (file_text (shelf_name self.old) (name_of (shelf_writer self.old) seq kind)) (shelf_plans self.old).items.items)) (shelf_plans self.old).fuse.allowed true (is_ok result) (is_fault result) }
        ensures room { IfOk result (λ d. disk_memory d ≡ new_file (shelf_room self.old)) }
        ensures plan { IfOk result (λ d. (disk_plan d).fails.items ≡ fails_of (file_text (shelf_name self.old) (name_of (shelf_writer self.old) seq kind)) (shelf_plans self.old).items.items) }
        ensures asked { IfOk result (λ d. (disk_plan d).asked ≡ asked_once Op.Create never_asked) }
        ensures fuse { IfOk result (λ d. (disk_plan d).fuse.allowed ≡ (shelf_plans self.old).fuse.allowed) }
        ensures same { (shelf_plans self.new ≡ shelf_plans self.old) × (shelf_room self.new ≡ shelf_room self.old) }
    {
        let file = self.file_name(seq, kind);
        let Ok(mut disk) = self.empty(alloc, file) else {
            return Err(Down::NoMemory);
        };
        if disk.fails_to_begin() {
            return Err(Down::Fault(counted(&mut self.faults)));
        }
        let created = Kept {
            name: file,
            bytes: None,
        };
        match put(&mut self.kept, created) {
            Ok(()) => Ok(disk),
            Err(_) => Err(Down::NoMemory),
        }
    }

    fn keep(
        &mut self,
        alloc: Global,
        seq: u32,
        fields: &MemSealed,
        index: &MemSealed,
    ) -> Result<(), NoMemory> {
        let fields_name = self.file_name(seq, FileKind::Fields);
        let Ok(fields) = copy_of(alloc, fields_name, fields.bytes()) else {
            return Err(NoMemory);
        };
        let index_name = self.file_name(seq, FileKind::Index);
        let Ok(index) = copy_of(alloc, index_name, index.bytes()) else {
            return Err(NoMemory);
        };
        match put_both(&mut self.kept, fields, index) {
            Ok(()) => Ok(()),
            Err(_) => Err(NoMemory),
        }
    }
}

// The file under its name.
fn copy_of(alloc: Global, name: FileName, bytes: &[u8]) -> Result<Kept, AllocError>
    ensures { IfOk result (λ k. (k.name ≡ name) × (option_map (λ v. v.items) k.bytes ≡ Some bytes.now)) }
{
    let bytes = bytes.to_vec(alloc)?;
    Ok(Kept {
        name,
        bytes: Some(bytes),
    })
}
