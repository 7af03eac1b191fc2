ghost use Rattle.std.specs.Prelude.{◌≡◌, ◌+◌, ◌<◌, ◌≤◌, is_some, if◌then◌else◌};
ghost use Rattle.fd_packing.specs.{Value.{value_at, value_of, place_of}, Parts.{packed_of, IsSound}};

use crate::bits::bits_at;
use crate::ieee::Reference;
use crate::map::{has_value, place_of};
use crate::value::scaled_value;
use fd_scaled::Scaled;

/// What is kept of a field: its numbers, the octets of its bit map, if it has one, and its packed octets.
#[derive(Clone, Copy)]
pub struct Parts<'a> {
    pub reference: Reference,
    pub binary_scale: i32,
    pub decimal_scale: i32,
    pub width: u32,
    pub map: Option<&'a [u8]>,
    pub octets: &'a [u8],
    pub points: u64,
}

/// The value that is packed at a place.
#[tactic(auto, unfolding(crate::specs::Value::value_at))]
pub fn value_at(parts: &Parts, place: u64) -> Scaled
    requires sound { IsSound parts.now }
    requires there { place + 1 ≤ place_of (packed_of parts.now).map parts.now.points }
    ensures { result ≡ value_at (packed_of parts.now) place }
{
    let x = bits_at(parts.octets, place * parts.width as u64, parts.width);
    scaled_value(
        &parts.reference,
        &parts.binary_scale,
        &parts.decimal_scale,
        parts.width,
        x,
    )
}

/// The value of point i.
#[tactic(auto, unfolding(crate::specs::Value::value_of))]
pub fn value_of(parts: &Parts, i: u64) -> Option<Scaled>
    requires sound { IsSound parts.now }
    requires there { i < parts.now.points }
    ensures { result ≡ value_of (packed_of parts.now) i }
{
    if !has_value(parts.map, parts.points, i) {
        return None;
    }
    Some(value_at(parts, place_of(parts.map, parts.points, i)))
}

/// The value of point i, whose place is known.
#[tactic(auto, unfolding(crate::specs::Value::value_of))]
pub fn value_with_place(parts: &Parts, i: u64, place: u64) -> Option<Scaled>
    requires sound { IsSound parts.now }
    requires there { i < parts.now.points }
    requires place { place ≡ place_of (packed_of parts.now).map i }
    ensures value { result ≡ value_of (packed_of parts.now) i }
    ensures next { place_of (packed_of parts.now).map (i + 1) ≡ place + (if is_some result then 1 else 0) }
{
    if !has_value(parts.map, parts.points, i) {
        return None;
    }
    Some(value_at(parts, place))
}
