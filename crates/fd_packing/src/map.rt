ghost use Rattle.std.specs.{Prelude.{◌≡◌, ◌==◌, ◌*◌, ◌<◌, ◌≤◌, ◌^◌, length, take, slice_index, IfSome}, Option.{option_copied}};
ghost use Rattle.fd_packing.specs.{Bits.{bits_of}, Value.{ones, has_value, place_of}, Field.{map_bits}};

use crate::bits::bits_at;

/// Whether bit i is 1.
#[tactic(auto, using(crate::proofs::Maps::one_bit))]
fn is_one(bytes: &[u8], i: u64) -> bool
    requires low { i < 2 ^ 60 }
    requires within { i < 8 * length bytes.now }
    ensures { result ≡ (slice_index (bits_of bytes.now) i == 1) }
{
    bits_at(bytes, i, 1) == 1
}

/// How many of the first bits are 1.
fn ones_before(bytes: &[u8], end: u64) -> u64
    requires low { end < 2 ^ 60 }
    requires within { end ≤ 8 * length bytes.now }
    ensures { result ≡ ones (take end (bits_of bytes.now)) }
{
    let mut count = 0;
    for i in 0..end {
        if is_one(bytes, i) {
            count += 1;
        }
    }
    count
}

/// Whether point i of so many has a value.
pub fn has_value(map: Option<&[u8]>, points: u64, i: u64) -> bool
    requires few { points < 2 ^ 32 }
    requires long { IfSome (option_copied map) (λ bytes. points ≤ 8 * length bytes) }
    requires there { i < points }
    ensures { result ≡ has_value (map_bits points (option_copied map.entry)) i }
{
    match map {
        None => true,
        Some(bytes) => is_one(bytes, i),
    }
}

/// How many points before point i of so many have a value.
pub fn place_of(map: Option<&[u8]>, points: u64, i: u64) -> u64
    requires few { points < 2 ^ 32 }
    requires long { IfSome (option_copied map) (λ bytes. points ≤ 8 * length bytes) }
    requires there { i ≤ points }
    ensures value { result ≡ place_of (map_bits points (option_copied map.entry)) i }
    ensures few { result ≤ i }
{
    match map {
        None => i,
        Some(bytes) => ones_before(bytes, i),
    }
}
