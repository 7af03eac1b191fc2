ghost use Rattle.std.specs.Prelude.{◌≡◌, ◌≤◌, ◌<◌, [], length, is_some, IfOk, OnOk, OnErr};
ghost use Rattle.fd_index.specs.{Records.{Rising, StandsFor, place_of}, Builder.{has_room, room_for, HoldsPut}, Pages.{IsIndex}, Position.{HasKeyAt, IsPosition}};

use crate::fault::Full;
use crate::pages::file_of;
use crate::slots::Slot;
use fd_bytes::NoMemory;
use fd_region::Region;
use std::alloc::Global;
use std::cmp::Ordering;
use std::marker::Model;

/// The records of one flush while its fields are written: for each key the place of its newest field. All that they need
/// is reserved once, by `new`.
#[derive(Drop)]
pub struct IndexBuilder {
    // the keys, in the order in which they came
    texts: Region,
    // a record for each text, by rising keys
    slots: Vec<Slot>,
    keys: u32,
}

impl Model for IndexBuilder {
    ghost use Rattle.fd_index.specs.Held.{Held};

    ghost Value = { Held };

    ghost use Rattle.fd_index.specs.Seen.{held_of, IsSound};

    ghost view = { held_of };

    ghost invariant = { IsSound };
}

impl IndexBuilder {
    /// A builder without records. It reserves memory for so many distinct keys of so many bytes together.
    pub fn new(alloc: Global, keys: u32, bytes: u32) -> Result<IndexBuilder, NoMemory>
        ensures reserved { IfOk result (λ b. b ≡ record { records = []; keys = keys; bytes = bytes }) }
        ensures no_puts { IfOk result (λ b. StandsFor [] b.records) }
    {
        let Ok(texts) = Region::reserve(alloc, bytes, keys) else {
            return Err(NoMemory);
        };
        Ok(IndexBuilder {
            texts,
            slots: Vec::with_capacity(alloc, keys as usize)?,
            keys,
        })
    }

    /// Adds a record: the key's field lies at this place of the field file, in bytes, and has this length. A key that is
    /// held takes the new place and needs no room. It takes no memory.
    ///
    /// `Full` comes exactly where a new key comes while as many keys are held as were reserved, or is longer than the
    /// bytes left. Nothing changes then.
    pub fn put(&mut self, key: &[u8], at: u64, len: u64) -> Result<(), Full>
        requires { length key.now ≤ 256 }
        ensures full { result ≡ room_for self.old key.now }
        ensures ok { OnOk result (HoldsPut self.old (record { key = key.now; at = at; len = len }) self.new) }
        ensures err { OnErr result (self.new ≡ self.old) }
    {
        match self.position(key) {
            Ok(i) => {
                let id = self.slots[i].id;
                self.slots[i] = Slot { id, at, len };
                Ok(())
            }
            Err(i) => {
                let id = match self.texts.place(key) {
                    Ok(id) => id,
                    Err(full) => {
                        return Err(Full {
                            keys: self.slots.len() as u32,
                            left: full.left,
                        });
                    }
                };
                let Ok(()) = self.slots.insert(i, Slot { id, at, len }) else {
                    unreachable!();
                };
                Ok(())
            }
        }
    }

    /// Answers `Full` exactly where `put` of this key would, with the same numbers.
    pub fn fits(&self, key: &[u8]) -> Result<(), Full>
        requires { length key.now ≤ 256 }
        ensures { result ≡ room_for self.now key.now }
    {
        if self.has_room(key) {
            return Ok(());
        }
        Err(Full {
            keys: self.len(),
            left: self.texts.left(),
        })
    }

    /// Tells that the key is held, or that a new one has room.
    fn has_room(&self, key: &[u8]) -> bool
        ensures { result ≡ has_room self.now key.now }
    {
        self.is_held(key) || (self.len() < self.keys && key.len() <= self.texts.left() as usize)
    }

    /// Tells that the key is held.
    fn is_held(&self, key: &[u8]) -> bool
        ensures { result ≡ is_some (place_of key.now self.now.records) }
    {
        self.position(key).is_ok()
    }

    /// The place of the key's record among the records, or the one where it would stand.
    fn position(&self, key: &[u8]) -> Result<usize, usize>
        ensures { IsPosition self.now.records key.now result }
    {
        let mut low = 0;
        let mut high = self.slots.len();
        'halves: while low < high {
            let middle = low + (high - low) / 2;
            match key.cmp(self.key_at(middle)) {
                Ordering::Less => high = middle,
                Ordering::Greater => low = middle + 1,
                Ordering::Equal => return Ok(middle),
            }
        }
        Err(low)
    }

    /// The key of the record with this number, from 0.
    fn key_at(&self, i: usize) -> &[u8]
        requires { i < length self.now.records }
        ensures { HasKeyAt self.now.records i result.now }
    {
        self.texts.text(self.slots[i].id)
    }

    /// The number of distinct keys held.
    pub fn len(&self) -> u32
        ensures count { result ≡ length self.now.records }
        ensures few { result ≤ self.now.keys }
        ensures rising { Rising self.now.records }
    {
        self.slots.len() as u32
    }

    /// Forgets all records; what was reserved stays.
    pub fn clear(&mut self)
        ensures cleared { self.new ≡ record { records = []; keys = self.old.keys; bytes = self.old.bytes } }
        ensures no_puts { StandsFor [] self.new.records }
    {
        self.texts.clear();
        self.slots.clear();
    }

    /// The index file of the records.
    pub fn bytes(&self, alloc: Global) -> Result<Vec<u8>, NoMemory>
        ensures { IfOk result (λ v. IsIndex self.now.records v.items) }
    {
        file_of(alloc, &self.texts, &self.slots)
    }
}
