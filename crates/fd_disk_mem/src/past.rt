// What a dataset was before its table was renewed or a file was removed, the last first.
ghost use Rattle.std.specs.Prelude.{◌≡◌, ◌⊎◌, ◌+◌, ◌-◌, ℕ, Option, Some, length, IfOk};
ghost use Rattle.fd_disk.specs.Folders.{Left};
ghost use Rattle.fd_file_mem.specs.Calls.{Memory};
ghost use Rattle.fd_disk_mem.specs.{declared.drawers.Drawers.{Drawers}, Pasts.{IsSince, LeftFrom, begins, calls_of, memory_of, moments}, Drawers.{below}};

use fd_file_mem::MemDisk;
use std::alloc::{AllocError, Global};
use std::mem;

/// The tables that a dataset had.
#[derive(Drop)]
pub(crate) enum Past {
    Start,
    /// The table that was renewed or taken away.
    Renewed(MemDisk, Box<Past>),
    /// The table as it was when a file was removed.
    Removed(Option<MemDisk>, Box<Past>),
}

impl Past {
    /// The table is renewed or taken away.
    pub(crate) fn renew(&mut self, table: MemDisk, place: Box<Past>)
        ensures begins { begins self.new ≡ 0 }
        ensures moments { moments self.new ≡ moments self.old + (length table.file.calls - begins self.old) + 1 }
        ensures only { (now : Option Memory) (files : Drawers) (t : ℕ) (left : Left) → LeftFrom self.new now files t left → IsSince 0 (moments self.new) t now files left ⊎ LeftFrom self.old (Some table.file) files t left }
        ensures keeps { (now : Option Memory) (files : Drawers) (t : ℕ) (left : Left) → LeftFrom self.old (Some table.file) files t left → LeftFrom self.new now files t left }
    {
        let mut place = place;
        *place = mem::replace(self, Past::Start);
        *self = Past::Renewed(table, place);
    }

    /// A file is removed.
    pub(crate) fn remove(&mut self, table: Option<MemDisk>, place: Box<Past>)
        ensures begins { begins self.new ≡ calls_of (memory_of table) }
        ensures moments { moments self.new ≡ moments self.old + (calls_of (memory_of table) - begins self.old) + 1 }
        ensures only { (now : Option Memory) (files : Drawers) (t : ℕ) (left : Left) → LeftFrom self.new now files t left → IsSince (begins self.new) (moments self.new) t now files left ⊎ LeftFrom self.old (memory_of table) (below files) t left }
        ensures keeps { (now : Option Memory) (files : Drawers) (t : ℕ) (left : Left) → LeftFrom self.old (memory_of table) (below files) t left → LeftFrom self.new now files t left }
    {
        let mut place = place;
        *place = mem::replace(self, Past::Start);
        *self = Past::Removed(table, place);
    }
}

/// The table as it is, once more.
pub(crate) fn copied(alloc: Global, table: &Option<MemDisk>) -> Result<Option<MemDisk>, AllocError>
    ensures { IfOk result (λ t. memory_of t ≡ memory_of table.now) }
{
    match table {
        None => Ok(None),
        Some(table) => Ok(Some(table.copied(alloc)?)),
    }
}
