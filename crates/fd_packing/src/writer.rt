//! Bits written one after the other.

ghost use Rattle.std.specs.Prelude.{◌≡◌, ◌+◌, ◌-◌, ◌%◌, ◌^◌, ◌<◌, ◌≤◌, [], ◌∷◌, ◌++◌, length, OnOk, OnErr, IfOk, replicate, ℕ, List};
ghost use Rattle.fd_packing.specs.Bits.{binary, bits_of};

use fd_bytes::NoMemory;
use std::alloc::Global;
use std::marker::Model;

/// Bits in order. Contracts see the list of them.
#[derive(Drop)]
pub struct BitWriter {
    bytes: Vec<u8>,
    partial: u8,
    count: u32,
}

impl Model for BitWriter {
    ghost Value = { List ℕ };

    ghost view = { λ w. bits_of w.bytes.items ++ binary w.count w.partial };

    ghost invariant = { λ w. (w.count < 8) × (w.partial < 2 ^ w.count) };
}

impl BitWriter {
    pub fn new(alloc: Global) -> BitWriter
        ensures { result ≡ [] }
    {
        BitWriter {
            bytes: Vec::new(alloc),
            partial: 0,
            count: 0,
        }
    }

    /// One bit more.
    pub fn push(&mut self, bit: u8) -> Result<(), NoMemory>
        requires { bit < 2 }
        ensures ok { OnOk result (self.new ≡ self.old ++ bit ∷ []) }
        ensures err { OnErr result (self.new ≡ self.old) }
    {
        let next = self.partial * 2 + bit;
        if self.count == 7 {
            self.bytes.push(next)?;
            self.partial = 0;
            self.count = 0;
        } else {
            self.partial = next;
            self.count += 1;
        }
        Ok(())
    }

    /// The lowest `width` bits of a number, the highest first.
    pub fn push_number(&mut self, number: u64, width: u32) -> Result<(), NoMemory>
        requires { width ≤ 64 }
        ensures { OnOk result (self.new ≡ self.old ++ binary width number) }
    {
        for i in 0..width {
            let place = width - 1 - i;
            self.push(((number >> place) % 2) as u8)?;
        }
        Ok(())
    }

    /// The bytes, filled up with zeros.
    pub fn finish(self) -> Result<Vec<u8>, NoMemory>
        ensures { IfOk result (λ v. bits_of v.items ≡ self ++ replicate ((8 - length self % 8) % 8) 0) }
    {
        let BitWriter {
            mut bytes,
            partial,
            count,
        } = self;
        if count > 0 {
            bytes.push(partial << (8 - count))?;
        }
        Ok(bytes)
    }
}
