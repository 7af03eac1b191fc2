// The fields of rounds: each has the sections of its own round, and else the last ones before it.
ghost use Rattle.std.specs.Prelude.{◌≡◌, ◌≤◌, [], List, ℕ, length, map, IfOk, OnOk};
ghost use Rattle.fd_split.specs.{Rounds.{field_in, fields_in, forced, lacks_by, lacks_map, no_force, unmapped}, Seen.{all_seen, seen, seen_force, seen_parts}};

use crate::slices::Slices;
use fd_bytes::NoMemory;
use fd_sections::octet;

/// The sections of a field, lent from its message, but for sections 0 and 1.
#[derive(Clone, Copy)]
pub(crate) struct Parts<'a> {
    pub(crate) local_use: Option<&'a [u8]>,
    pub(crate) grid: &'a [u8],
    pub(crate) product: &'a [u8],
    pub(crate) representation: &'a [u8],
    pub(crate) bit_map: &'a [u8],
    pub(crate) values: &'a [u8],
}

/// What is in force behind some rounds.
#[derive(Clone, Copy)]
pub(crate) struct InForce<'a> {
    pub(crate) local_use: Option<&'a [u8]>,
    pub(crate) grid: &'a [u8],
    pub(crate) bit_map: Option<&'a [u8]>,
}

impl<'a> InForce<'a> {
    // The bit map before it applies, and there is none.
    fn lacks_map(&self, round: &Slices<'a>) -> bool
        ensures { result ≡ lacks_map (seen_force self.now) (seen round.now) }
    {
        octet(round.bit_map, 6) == 254 && self.bit_map.is_none()
    }

    // Section 6 of the field of this round.
    fn map_of(&self, round: &Slices<'a>) -> &'a [u8]
        ensures { result.now ≡ (field_in [] [] (seen_force self.now) (seen round.now)).bit_map }
    {
        if octet(round.bit_map, 6) != 254 {
            return round.bit_map;
        }
        match self.bit_map {
            Some(bit_map) => bit_map,
            None => round.bit_map,
        }
    }

    // The sections of the field of this round.
    fn parts(&self, round: &Slices<'a>) -> Parts<'a>
        ensures { (s0 s1 : List ℕ) → seen_parts s0 s1 result ≡ field_in s0 s1 (seen_force self.now) (seen round.now) }
    {
        Parts {
            local_use: round.local_use.or(self.local_use),
            grid: round.grid.unwrap_or(self.grid),
            product: round.product,
            representation: round.representation,
            bit_map: self.map_of(round),
            values: round.values,
        }
    }

    // What is in force behind this round too.
    fn behind(&self, round: &Slices<'a>) -> InForce<'a>
        ensures { seen_force result ≡ forced (seen_force self.now) (seen round.now) }
    {
        let kind = octet(round.bit_map, 6);
        InForce {
            local_use: round.local_use.or(self.local_use),
            grid: round.grid.unwrap_or(self.grid),
            bit_map: if kind == 254 || kind == 255 {
                self.bit_map
            } else {
                Some(round.bit_map)
            },
        }
    }
}

// The first field that lacks a bit map, of those before this number and of this one.
fn first_lacking(before: Option<u32>, lacks: bool, number: u32) -> Option<u32>
    ensures { result ≡ lacks_by before lacks number }
{
    match before {
        Some(first) => Some(first),
        None => { if lacks { Some(number) } else { None } }
    }
}

/// Cuts the fields out of rounds, and tells the number of the first that lacks a bit map.
pub(crate) fn cut<'a>(
    rounds: &[Slices<'a>],
    parts: &mut Vec<Parts<'a>>,
) -> Result<Option<u32>, NoMemory>
    requires none { parts.old.items ≡ [] }
    requires few { length rounds.now ≤ 134217728 }
    ensures parts { OnOk result ((s0 s1 : List ℕ) → map (seen_parts s0 s1) parts.new.items ≡ fields_in s0 s1 no_force (all_seen rounds.now)) }
    ensures lacks { IfOk result (λ o. o ≡ unmapped 1 no_force (all_seen rounds.now)) }
    ensures long { OnOk result (length parts.new.items ≡ length rounds.now) }
{
    let mut force = InForce {
        local_use: None,
        grid: b"",
        bit_map: None,
    };
    let mut lacking = None;
    let mut number = 0u32;
    for round in rounds {
        number += 1;
        lacking = first_lacking(lacking, force.lacks_map(round), number);
        parts.push(force.parts(round))?;
        force = force.behind(round);
    }
    Ok(lacking)
}
