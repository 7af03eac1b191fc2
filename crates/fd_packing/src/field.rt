ghost use Rattle.std.specs.Prelude.{ℕ, ◌≡◌, ◌<◌, ◌^◌, Some, length, slice_get};
ghost use Rattle.fd_sections.specs.Parts.{sections_of};
ghost use Rattle.fd_packing.specs.{Value.{value_of, values_of}, Field.{field_of}};

use crate::fault::FieldFault;
use crate::parts::{Parts, value_of};
use crate::points::Points;
use crate::reading::read_parts;
use fd_scaled::Scaled;
use fd_sections::Message;
use std::alloc::Global;
use std::marker::Model;

/// The values of a message in simple packing, one for each point of its grid, lent from its octets.
#[derive(Drop)]
pub struct Field<'a> {
    parts: Parts<'a>,
}

impl<'a> Model for Field<'a> {
    ghost use Rattle.fd_packing.specs.{Packed.{Packed}, Parts.{packed_of, IsSound}};

    ghost Value = { Packed };

    ghost view = { λ f. packed_of f.parts };

    ghost invariant = { λ f. IsSound f.parts };
}

impl<'a> Field<'a> {
    /// Reads the field of a message. Of the faults that hold the first is answered, in the order of `FieldFault`. Nothing
    /// is kept but numbers and where the octets lie, so no memory is taken, and `NoMemory` doesn't come.
    pub fn read(_alloc: Global, message: &Message<'a>) -> Result<Field<'a>, FieldFault>
        ensures { result ≡ field_of (sections_of message.now) }
    {
        match read_parts(message) {
            Ok(parts) => Ok(Field { parts }),
            Err(fault) => Err(fault),
        }
    }

    /// How many points the grid has.
    pub fn points(&self) -> u64
        ensures number { result ≡ self.now.points }
        ensures few { result < 2 ^ 32 }
    {
        self.parts.points
    }

    /// The value of point `i`, from 0: `(R + X * 2^E) * 10^(-D)`, exactly. None exactly where the bit map has 0 there. It
    /// goes over the bit map up to that point; to go over all points take `values`.
    pub fn value(&self, i: u64) -> Option<Scaled>
        requires { i < self.now.points }
        ensures { result ≡ value_of self.now i }
    {
        value_of(&self.parts, i)
    }

    /// The values of all points in order. Going over them takes time in proportion to their number.
    pub fn values(&self) -> Points<'a>
        ensures values { result ≡ values_of self.now }
        // There is one for each point, and it is the point's.
        ensures count { length result ≡ self.now.points }
        ensures each { (i : ℕ) → i < self.now.points → slice_get result i ≡ Some (value_of self.now i) }
    {
        Points {
            parts: self.parts,
            at: 0,
            place: 0,
        }
    }
}
