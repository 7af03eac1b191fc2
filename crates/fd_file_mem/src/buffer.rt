// Lists in room that was reserved for them.
ghost use Rattle.std.specs.Prelude.{◌≡◌, ◌+◌, ◌-◌, ◌^◌, ◌<◌, ◌≤◌, [], ◌∷◌, ◌++◌, ◌||◌, nat_le, length, take, drop, replicate, IfOk};
ghost use Rattle.fd_disk.specs.Images.{overwritten, is_in};
ghost use Rattle.fd_file_mem.specs.{Left.{AreBytesLeft}, Buffers.{Buffered}};

use crate::left::leave;
use fd_disk::Range;
use std::alloc::{AllocError, Global};
use std::marker::Model;

/// A list that takes no memory as it grows, up to the size that was reserved.
#[derive(Drop)]
pub(crate) struct Buffer<T> {
    items: Vec<T>,
    size: usize,
}

impl<T> Model for Buffer<T> {
    ghost use Rattle.std.specs.Prelude.{◌≤◌, vec_capacity, vec_len};
    ghost use Rattle.fd_file_mem.specs.Buffers.{Buffered};

    ghost Value = { Buffered T };

    ghost view = { λ b. record { items = b.items.items; size = b.size } };

    ghost invariant = { λ b. (b.size ≤ vec_capacity b.items) × (vec_len b.items ≤ b.size) };
}

impl<T: Copy> Buffer<T> {
    /// Nothing, with room for so many.
    pub(crate) fn with_room(alloc: Global, size: usize) -> Result<Buffer<T>, AllocError>
        ensures { IfOk result (λ b. b ≡ record { items = []; size = size }) }
    {
        let items = Vec::with_capacity(alloc, size)?;
        Ok(Buffer { items, size })
    }

    /// The same once more, with as much room.
    pub(crate) fn copied(&self, alloc: Global) -> Result<Buffer<T>, AllocError>
        ensures { IfOk result (λ b. b ≡ self.now) }
    {
        let mut copy = Buffer::with_room(alloc, self.size)?;
        copy.append(self.as_slice());
        Ok(copy)
    }

    pub(crate) fn as_slice(&self) -> &[T]
        ensures items { result.now ≡ self.now.items }
        ensures within { length self.now.items ≤ self.now.size }
    {
        &self.items
    }

    pub(crate) fn len(&self) -> usize
        ensures len { result ≡ length self.now.items }
        ensures within { result ≤ self.now.size }
    {
        self.items.len()
    }

    pub(crate) fn size(&self) -> usize
        ensures { result ≡ self.now.size }
    {
        self.size
    }

    pub(crate) fn clear(&mut self)
        ensures { self.new ≡ record { items = []; size = self.old.size } }
    {
        self.items.truncate(0);
    }

    /// Puts one behind the others.
    pub(crate) fn push(&mut self, item: T)
        requires { length self.old.items < self.old.size }
        ensures { self.new ≡ record { items = self.old.items ++ item ∷ []; size = self.old.size } }
    {
        match self.items.push(item) {
            Ok(()) => {}
            Err(_) => unreachable!(),
        }
    }

    /// Puts one before the others.
    pub(crate) fn push_first(&mut self, item: T)
        requires { length self.old.items < self.old.size }
        ensures { self.new ≡ record { items = item ∷ self.old.items; size = self.old.size } }
    {
        match self.items.insert(0, item) {
            Ok(()) => {}
            Err(_) => unreachable!(),
        }
    }

    /// Puts these behind the others.
    pub(crate) fn append(&mut self, items: &[T])
        requires { length self.old.items + length items.now ≤ self.old.size }
        ensures { self.new ≡ record { items = self.old.items ++ items.now; size = self.old.size } }
    {
        match self.items.extend_from_slice(items) {
            Ok(()) => {}
            Err(_) => unreachable!(),
        }
    }

    /// Has these in place of what it has.
    pub(crate) fn set(&mut self, items: &[T])
        requires { length items.now ≤ self.old.size }
        ensures { self.new ≡ record { items = items.now; size = self.old.size } }
    {
        self.clear();
        self.append(items);
    }
}

impl Buffer<u8> {
    /// Writes the bytes at a place, with zeros up to it.
    pub(crate) fn overwrite(&mut self, at: usize, bytes: &[u8])
        requires small { at + length bytes.now < 2 ^ 64 }
        requires room { at + length bytes.now ≤ self.old.size }
        ensures { self.new ≡ record { items = overwritten self.old.items at bytes.now; size = self.old.size } }
    {
        self.reach(at + bytes.len());
        lay(&mut self.items, at, bytes);
    }

    // Puts zeros behind the bytes, where they don't reach so far.
    fn reach(&mut self, end: usize)
        requires { end ≤ self.old.size }
        ensures { self.new ≡ record { items = self.old.items ++ replicate (end - length self.old.items) 0; size = self.old.size } }
    {
        if self.items.len() < end {
            match self.items.resize(end, 0) {
                Ok(()) => {}
                Err(_) => unreachable!(),
            }
        }
    }

    /// Changes the bytes that a crash may change, where so many were firm.
    pub(crate) fn spoil(&mut self, firm: usize, loose: &[Range], choice: u64)
        ensures bytes { AreBytesLeft choice (λ k. nat_le firm k || is_in k loose.now) self.old.items self.new.items }
        ensures size { self.new.size ≡ self.old.size }
    {
        leave(&mut self.items, firm, loose, choice);
    }

    /// The bytes, without a copy.
    pub(crate) fn into_vec(self) -> Vec<u8>
        ensures { result.items ≡ self.items }
    {
        self.items
    }
}

// Puts the bytes in the place of as many.
fn lay(all: &mut [u8], at: usize, bytes: &[u8])
    requires small { at + length bytes.now < 2 ^ 64 }
    requires within { at + length bytes.now ≤ length all.old }
    ensures { all.new ≡ take at all.old ++ (bytes.now ++ drop (at + length bytes.now) all.old) }
{
    all[at..at + bytes.len()].copy_from_slice(bytes);
}
