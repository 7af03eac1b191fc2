ghost use Rattle.std.specs.{Prelude.{◌≡◌}, Iterator.{YieldsFirst, item_count}};

use crate::parts::{Parts, value_with_place};
use fd_scaled::Scaled;
use std::marker::Model;

/// The values of a field from a point on, in the order of the points. It goes over the bit map once, and takes no memory.
#[derive(Drop)]
pub struct Points<'a> {
    pub(crate) parts: Parts<'a>,
    pub(crate) at: u64,
    pub(crate) place: u64,
}

impl<'a> Model for Points<'a> {
    ghost use Rattle.std.specs.Prelude.{◌≡◌, ◌≤◌, ◌-◌, List, Option};
    ghost use Rattle.fd_scaled.specs.declared.Scaled.{Scaled};
    ghost use Rattle.fd_packing.specs.{Value.{place_of, values_from}, Parts.{packed_of, IsSound}};

    ghost Value = { List (Option Scaled) };

    ghost view = { λ p. values_from (packed_of p.parts) p.at (p.parts.points - p.at) };

    ghost invariant = { λ p. IsSound p.parts × (p.at ≤ p.parts.points) × (p.place ≡ place_of (packed_of p.parts).map p.at) };
}

impl<'a> Iterator for Points<'a> {
    type Item = Option<Scaled>;

    ghost next_gives = { YieldsFirst (λ p. p) };

    ghost remaining = { item_count (λ p. p) };

    fn next(&mut self) -> Option<Option<Scaled>> {
        if self.at >= self.parts.points {
            return None;
        }
        let value = value_with_place(&self.parts, self.at, self.place);
        self.place += u64::from(value.is_some());
        self.at += 1;
        Some(value)
    }
}
