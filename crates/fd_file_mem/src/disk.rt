// A file in memory that is written.
ghost use Rattle.std.specs.Prelude.{◌≡◌, ◌≤◌, ◌<◌, ◌+◌, ◌^◌, true, false, Some, length, max, not, is_ok, is_err, OnOk, OnErr, IfOk, option_map};
ghost use Rattle.fd_bytes.specs.Causes.{Rose, HasCause};
ghost use Rattle.fd_disk.specs.{Images.{IsAfterFailedWrite, loosened, written}, Moments.{Elapses}, Folders.{WhereTold}, Images.{synced}, Reading.{ReadsBytes}};
ghost use Rattle.fd_file_mem.specs.{Calls.{begun, file_of, fits, has_room, new_file, synced_by, extent_by}, Past.{LeftSince}, Left.{IsLeft}, Plans.{FailsByPlan, after_call, is_due}, Told.{disk_faults, disk_made, disk_memory, disk_name, disk_plan}};

use crate::plan::{Op, Plan};
use crate::recorded::{Recorded, Room};
use crate::sealed::{MemSealed, copied};
use fd_disk::{Disk, FileName};
use std::alloc::{AllocError, Global};

/// A fault that was planned, a call beyond the room of a file or of its record, or a call behind the fuse.
#[derive(Debug, Drop)]
pub struct MemFault {
    /// How many faults the object that answered it had met, this one counted.
    number: u64,
}

/// A file in memory. It keeps its calls, so that it can tell what a crash at any moment might have left.
#[derive(Drop)]
pub struct MemDisk {
    name: Vec<u8>,
    made: Option<FileName>,
    file: Recorded,
    faults: u64,
    plan: Plan,
}

impl MemDisk {
    /// An empty file, for which all its room is reserved.
    pub fn empty(
        alloc: Global,
        name: Vec<u8>,
        made: Option<FileName>,
        plan: Plan,
        room: Room,
    ) -> Result<MemDisk, AllocError>
        ensures name { IfOk result (λ d. (disk_name d).items ≡ name.items) }
        ensures made { IfOk result (λ d. disk_made d ≡ made) }
        ensures file { IfOk result (λ d. disk_memory d ≡ new_file room) }
        ensures plan { IfOk result (λ d. disk_plan d ≡ plan) }
    {
        Ok(MemDisk {
            name,
            made,
            file: Recorded::empty(alloc, room)?,
            faults: 0,
            plan,
        })
    }

    /// The file with its calls once more, as it is now.
    pub fn copied(&self, alloc: Global) -> Result<MemDisk, AllocError>
        ensures { IfOk result (λ d. disk_memory d ≡ disk_memory self.now) }
    {
        Ok(MemDisk {
            name: Vec::from_slice(alloc, &self.name)?,
            made: self.made,
            file: self.file.copied(alloc)?,
            faults: self.faults,
            plan: self.plan.again(alloc)?,
        })
    }

    /// How many bytes it may have.
    pub fn size(&self) -> usize
        ensures { result ≡ (disk_memory self.now).size }
    {
        self.file.size()
    }

    /// Begins with these bytes, which are firm.
    pub fn begin(&mut self, bytes: &[u8])
        requires { length bytes.now ≤ (disk_memory self.old).size }
        ensures file { disk_memory self.new ≡ begun (disk_memory self.old) bytes.now }
        ensures name { disk_name self.new ≡ disk_name self.old }
        ensures plan { disk_plan self.new ≡ disk_plan self.old }
    {
        self.file.begin(bytes);
    }

    /// Counts the creation of the file, and says whether it is to fail.
    pub fn fails_to_begin(&mut self) -> bool
        ensures same { (disk_memory self.new ≡ disk_memory self.old) × ((disk_name self.new ≡ disk_name self.old) × (disk_made self.new ≡ disk_made self.old)) }
        ensures fails { FailsByPlan (is_due Op.Create (disk_plan self.old)) (disk_plan self.old).fuse.allowed true (not result) result }
        ensures asked { disk_plan self.new ≡ after_call Op.Create (disk_plan self.old) }
    {
        self.plan.meets(Op::Create)
    }

    /// The file as it is handed out under a dataset's name.
    pub fn opened(self, name: Vec<u8>, plan: Plan) -> MemDisk
        ensures file { disk_memory result ≡ disk_memory self }
        ensures name { disk_name result ≡ name }
        ensures plan { disk_plan result ≡ plan }
    {
        let MemDisk {
            name: _,
            made,
            file,
            faults,
            plan: _,
        } = self;
        MemDisk {
            name,
            made,
            file,
            faults,
            plan,
        }
    }

    /// A crash: the file is firm with what is left of it.
    pub fn crash(&mut self, choice: u64)
        ensures left { IsLeft choice (file_of (disk_memory self.old)) (disk_memory self.new).start }
        ensures begun { disk_memory self.new ≡ begun (disk_memory self.old) (disk_memory self.new).start }
    {
        self.file.crash(choice);
    }
}

impl Disk<MemFault> for MemDisk {
    ghost use Rattle.fd_file_mem.specs.{Calls.{file_of, synced_by, extent_by}, Past.{LeftSince, now_counts, only_now, reads_told, firm_told}};
    ghost use Rattle.std.specs.Prelude.{Some, length, false};

    type Sealed = MemSealed;

    ghost file = { λ d. Some (file_of d.file) };

    ghost is_synced = { λ d. synced_by false d.file.calls };

    ghost extent = { λ d. extent_by 0 d.file.calls };

    ghost moment = { λ d. length d.file.calls };

    ghost left_since = { λ d t c. LeftSince d.file t c };

    ghost faults = { λ d. d.faults };

    ghost name = { λ d. d.name.items };

    ghost made = { λ d. d.made };

    ghost counts_now = { λ d t c le image. now_counts d.file t c le image };

    ghost only_now = { λ d c left. only_now d.file c left };

    ghost reads_image = { λ d f is. reads_told d.file f is };

    ghost synced_firm = { λ d f is synced. firm_told d.file f is synced };

    fn read_at(&mut self, at: u64, into: &mut [u8]) -> Result<usize, MemFault>
        ensures bytes { ReadsBytes (Some (file_of (disk_memory self.old)).reads) at into.old into.new result }
        ensures file { Some (file_of (disk_memory self.new)) ≡ Some (file_of (disk_memory self.old)) }
        ensures synced { synced_by false (disk_memory self.new).calls ≡ synced_by false (disk_memory self.old).calls }
        ensures extent { extent_by 0 (disk_memory self.new).calls ≡ extent_by 0 (disk_memory self.old).calls }
        ensures name { (disk_name self.new).items ≡ (disk_name self.old).items }
        ensures made { disk_made self.new ≡ disk_made self.old }
        ensures time { Elapses (length (disk_memory self.old).calls) (length (disk_memory self.new).calls) (LeftSince (disk_memory self.old)) (LeftSince (disk_memory self.new)) (Some (file_of (disk_memory self.new))) }
        ensures cause { HasCause (disk_faults self.old) (disk_faults self.new) result }
        ensures fails { FailsByPlan (is_due Op.Read (disk_plan self.old)) (disk_plan self.old).fuse.allowed true (is_ok result) (is_err result) }
        ensures asked { disk_plan self.new ≡ after_call Op.Read (disk_plan self.old) }
    {
        if self.plan.meets(Op::Read) {
            return Err(counted(&mut self.faults));
        }
        Ok(copied(self.file.reads(), at, into))
    }

    /// A write that fails has made its range loose, and a read gives what it gave; beyond the room it has done nothing.
    fn write_at(&mut self, at: u64, bytes: &[u8]) -> Result<(), MemFault>
        requires { at + length bytes.now < 2 ^ 63 }
        ensures ok { OnOk result (Some (file_of (disk_memory self.new)) ≡ option_map (λ f. written f at bytes.now) (Some (file_of (disk_memory self.old)))) }
        ensures err { OnErr result (WhereTold (Some (file_of (disk_memory self.old))) (Some (file_of (disk_memory self.new))) (λ f g. IsAfterFailedWrite f at (length bytes.now) g)) }
        ensures loose { OnErr result (fits (disk_memory self.old) at (length bytes.now) ≡ true → file_of (disk_memory self.new) ≡ loosened (file_of (disk_memory self.old)) at (length bytes.now) (file_of (disk_memory self.old)).reads) }
        ensures beyond { OnErr result (fits (disk_memory self.old) at (length bytes.now) ≡ false → file_of (disk_memory self.new) ≡ file_of (disk_memory self.old)) }
        ensures synced { OnOk result (synced_by false (disk_memory self.new).calls ≡ false) }
        ensures synced_err { OnErr result (synced_by false (disk_memory self.new).calls ≡ true → synced_by false (disk_memory self.old).calls ≡ true) }
        ensures extent { OnOk result (extent_by 0 (disk_memory self.new).calls ≡ max (extent_by 0 (disk_memory self.old).calls) (at + length bytes.now)) }
        ensures extent_err { OnErr result (extent_by 0 (disk_memory self.new).calls ≡ extent_by 0 (disk_memory self.old).calls) }
        ensures name { (disk_name self.new).items ≡ (disk_name self.old).items }
        ensures made { disk_made self.new ≡ disk_made self.old }
        ensures time { Elapses (length (disk_memory self.old).calls) (length (disk_memory self.new).calls) (LeftSince (disk_memory self.old)) (LeftSince (disk_memory self.new)) (Some (file_of (disk_memory self.new))) }
        ensures cause { HasCause (disk_faults self.old) (disk_faults self.new) result }
        ensures fails { FailsByPlan (is_due Op.Write (disk_plan self.old)) (disk_plan self.old).fuse.allowed (fits (disk_memory self.old) at (length bytes.now)) (is_ok result) (is_err result) }
        ensures asked { disk_plan self.new ≡ after_call Op.Write (disk_plan self.old) }
    {
        let is_to_fail = self.plan.meets(Op::Write);
        if !self.file.fits(at, bytes.len()) {
            return Err(counted(&mut self.faults));
        }
        if is_to_fail {
            self.file.fail_write(at, bytes.len() as u64);
            return Err(counted(&mut self.faults));
        }
        self.file.write(at, bytes);
        Ok(())
    }

    fn sync(&mut self) -> Result<(), MemFault>
        ensures ok { OnOk result (Some (file_of (disk_memory self.new)) ≡ option_map synced (Some (file_of (disk_memory self.old)))) }
        ensures err { OnErr result (Some (file_of (disk_memory self.new)) ≡ Some (file_of (disk_memory self.old))) }
        ensures synced { OnOk result (synced_by false (disk_memory self.new).calls ≡ true) }
        ensures synced_err { OnErr result (synced_by false (disk_memory self.new).calls ≡ synced_by false (disk_memory self.old).calls) }
        ensures extent { extent_by 0 (disk_memory self.new).calls ≡ extent_by 0 (disk_memory self.old).calls }
        ensures name { (disk_name self.new).items ≡ (disk_name self.old).items }
        ensures made { disk_made self.new ≡ disk_made self.old }
        ensures time { Elapses (length (disk_memory self.old).calls) (length (disk_memory self.new).calls) (LeftSince (disk_memory self.old)) (LeftSince (disk_memory self.new)) (Some (file_of (disk_memory self.new))) }
        ensures cause { HasCause (disk_faults self.old) (disk_faults self.new) result }
        ensures fails { FailsByPlan (is_due Op.Sync (disk_plan self.old)) (disk_plan self.old).fuse.allowed (has_room (disk_memory self.old)) (is_ok result) (is_err result) }
        ensures asked { disk_plan self.new ≡ after_call Op.Sync (disk_plan self.old) }
    {
        if self.plan.meets(Op::Sync) || !self.file.has_room() {
            return Err(counted(&mut self.faults));
        }
        self.file.sync();
        Ok(())
    }

    fn seal(self) -> MemSealed {
        let MemDisk {
            name,
            made,
            file,
            faults: _,
            plan,
        } = self;
        MemSealed::new(name, made, file.into_vec(), plan)
    }
}

/// Counts a fault.
pub fn counted(faults: &mut u64) -> MemFault
    ensures count { Rose faults.old faults.new }
    ensures later { faults.old ≤ faults.new }
{
    *faults = faults.saturating_add(1);
    MemFault { number: *faults }
}
