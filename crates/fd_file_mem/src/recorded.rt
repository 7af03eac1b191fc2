// A file in memory with the record of its calls, in room that was reserved for both.
ghost use Rattle.std.specs.Prelude.{◌≡◌, ◌+◌, ◌*◌, ◌-◌, ◌^◌, ◌<◌, ◌≤◌, [], true, length, min, IfOk};
ghost use Rattle.fd_disk.specs.Images.{IsImage};
ghost use Rattle.fd_file_mem.specs.{Calls.{Memory, Wrote, Failed, Synced, begun, file_of, fits, has_room, with_call}, Left.{IsLeft}};

use crate::buffer::Buffer;
use fd_disk::Range;
use std::alloc::{AllocError, Global};
use std::marker::Model;

/// How many bytes each file may have, and how many writes and syncs its record holds.
#[derive(Clone, Copy, Debug, PartialEq, Eq)]
pub struct Room {
    /// How many bytes.
    pub size: u64,
    /// How many writes and syncs.
    pub calls: u32,
}

/// A call that changed what a crash may leave. The bytes of the writes stand elsewhere, one after the other.
#[derive(Clone, Copy, Debug, PartialEq, Eq)]
pub(crate) enum Mark {
    Wrote { at: u64, len: u64 },
    Failed { at: u64, len: u64 },
    Synced,
}

/// A file, and the calls that made it. Its writes may have twice as many bytes altogether as the file.
#[derive(Drop)]
pub(crate) struct Recorded {
    start: Buffer<u8>,
    firm: Buffer<u8>,
    reads: Buffer<u8>,
    loose: Buffer<Range>,
    marks: Buffer<Mark>,
    written: Buffer<u8>,
}

impl Model for Recorded {
    ghost use Rattle.fd_file_mem.specs.{Calls.{Memory, with_bytes}, Kept.{IsKept}};

    ghost Value = { Memory };

    ghost view = { λ a. record { start = a.start.items; calls = with_bytes a.marks.items a.written.items; size = a.reads.size; most_calls = a.marks.size; most_bytes = a.written.size } };

    ghost invariant = { λ a. IsKept a.start a.firm a.reads a.loose a.marks a.written };
}

impl Recorded {
    /// An empty file, for which all its room is reserved.
    pub(crate) fn empty(alloc: Global, room: Room) -> Result<Recorded, AllocError>
        ensures { IfOk result (λ f. f ≡ record { start = []; calls = []; size = room.size; most_calls = room.calls; most_bytes = min (2 * room.size) (2 ^ 64 - 1) }) }
    {
        let size = room.size as usize;
        let calls = room.calls as usize;
        Ok(Recorded {
            start: Buffer::with_room(alloc, size)?,
            firm: Buffer::with_room(alloc, size)?,
            reads: Buffer::with_room(alloc, size)?,
            loose: Buffer::with_room(alloc, calls)?,
            marks: Buffer::with_room(alloc, calls)?,
            written: Buffer::with_room(alloc, size.saturating_mul(2))?,
        })
    }

    /// The same file with its calls once more.
    pub(crate) fn copied(&self, alloc: Global) -> Result<Recorded, AllocError>
        ensures { IfOk result (λ f. f ≡ self.now) }
    {
        Ok(Recorded {
            start: self.start.copied(alloc)?,
            firm: self.firm.copied(alloc)?,
            reads: self.reads.copied(alloc)?,
            loose: self.loose.copied(alloc)?,
            marks: self.marks.copied(alloc)?,
            written: self.written.copied(alloc)?,
        })
    }

    /// What a read gives.
    pub(crate) fn reads(&self) -> &[u8]
        ensures reads { result.now ≡ (file_of self.now).reads }
        ensures within { length result.now ≤ self.now.size }
    {
        self.reads.as_slice()
    }

    /// How many bytes it may have.
    pub(crate) fn size(&self) -> usize
        ensures { result ≡ self.now.size }
    {
        self.reads.size()
    }

    /// Whether the record has room for one call more.
    pub(crate) fn has_room(&self) -> bool
        ensures { result ≡ has_room self.now }
    {
        self.marks.len() < self.marks.size()
    }

    /// Whether file and record have room for a write.
    pub(crate) fn fits(&self, at: u64, len: usize) -> bool
        requires { at + len < 2 ^ 63 }
        ensures { result ≡ fits self.now at len }
    {
        let end = at + len as u64;
        if end > self.reads.size() as u64 || !self.has_room() {
            return false;
        }
        len <= self.written.size() - self.written.len()
    }

    /// Begins anew with these bytes, which are firm.
    pub(crate) fn begin(&mut self, bytes: &[u8])
        requires { length bytes.now ≤ self.old.size }
        ensures { self.new ≡ begun self.old bytes.now }
    {
        self.start.set(bytes);
        self.firm.set(bytes);
        self.reads.set(bytes);
        self.loose.clear();
        self.marks.clear();
        self.written.clear();
    }

    /// A write that succeeds.
    pub(crate) fn write(&mut self, at: u64, bytes: &[u8])
        requires small { at + length bytes.now < 2 ^ 63 }
        requires room { fits self.old at (length bytes.now) ≡ true }
        ensures { self.new ≡ with_call self.old (Wrote at bytes.now) }
    {
        let len = bytes.len() as u64;
        self.reads.overwrite(at as usize, bytes);
        self.loose.push_first(Range { at, len });
        self.marks.push(Mark::Wrote { at, len });
        self.written.append(bytes);
    }

    /// A write that fails: its range is loose, and a read gives what it gave.
    pub(crate) fn fail_write(&mut self, at: u64, len: u64)
        requires { has_room self.old ≡ true }
        ensures { self.new ≡ with_call self.old (Failed at len) }
    {
        self.loose.push_first(Range { at, len });
        self.marks.push(Mark::Failed { at, len });
    }

    /// A sync that succeeds.
    pub(crate) fn sync(&mut self)
        requires { has_room self.old ≡ true }
        ensures { self.new ≡ with_call self.old Synced }
    {
        self.firm.set(self.reads.as_slice());
        self.loose.clear();
        self.marks.push(Mark::Synced);
    }

    /// A crash: the file is firm with what is left of it.
    pub(crate) fn crash(&mut self, choice: u64)
        ensures left { IsLeft choice (file_of self.old) self.new.start }
        ensures begun { self.new ≡ begun self.old self.new.start }
    {
        leave(&mut self.reads, &self.firm, &self.loose, choice);
        self.start.set(self.reads.as_slice());
        self.firm.set(self.reads.as_slice());
        self.loose.clear();
        self.marks.clear();
        self.written.clear();
    }

    /// What a read gives, without a copy.
    pub(crate) fn into_vec(self) -> Vec<u8>
        ensures { result.items ≡ (file_of self).reads }
    {
        self.reads.into_vec()
    }
}

// The bytes that a crash leaves of a file, in the place of what a read gives.
fn leave(reads: &mut Buffer<u8>, firm: &Buffer<u8>, loose: &Buffer<Range>, choice: u64)
    requires image { IsImage (record { firm = firm.now.items; reads = reads.old.items; loose = loose.now.items }) reads.old.items }
    requires within { length reads.old.items ≤ reads.old.size }
    ensures left { IsLeft choice (record { firm = firm.now.items; reads = reads.old.items; loose = loose.now.items }) reads.new.items }
    ensures size { reads.new.size ≡ reads.old.size }
{
    match choice {
        0 => reads.set(firm.as_slice()),
        1 => {}
        _ => reads.spoil(firm.len(), loose.as_slice(), choice),
    }
}
