// One number at a time. Octets count from 1, as in the manual.
ghost use Rattle.std.specs.Prelude.{◌≡◌, ◌+◌, ◌-◌, ◌<◌, ◌≤◌, ◌^◌, ◌⊎◌, ◌≢◌, length, IfSome, unsigned_abs};
ghost use Rattle.fd_bytes.specs.Numbers.{signed, sign_and_magnitude};
ghost use Rattle.fd_templates.specs.Octets.{number, signed_number, number_or_missing, signed_or_missing, signed_octets, octets_or_ones, signed_or_ones, FitsSigned, FitsOrMissing};

use fd_bytes::{is_missing, signed, unsigned_of};

/// The number in one octet.
#[tactic(auto, using(crate::proofs::Reading::one_octet))]
pub fn read_u8(section: &[u8], octet: usize) -> u8
    requires from_one { 1 ≤ octet }
    requires within { octet ≤ length section.now }
    ensures { result ≡ number octet octet section.now }
{
    section[octet - 1]
}

/// The number in two octets.
#[tactic(auto, using(crate::proofs::Reading::two_octets))]
pub fn read_u16(section: &[u8], first: usize) -> u16
    requires from_one { 1 ≤ first }
    requires within { first + 1 ≤ length section.now }
    ensures { result ≡ number first (first + 1) section.now }
{
    u16::from_be_bytes([section[first - 1], section[first]])
}

/// The number in four octets.
#[tactic(auto, using(crate::proofs::Reading::four_octets))]
pub fn read_u32(section: &[u8], first: usize) -> u32
    requires from_one { 1 ≤ first }
    requires within { first + 3 ≤ length section.now }
    ensures { result ≡ number first (first + 3) section.now }
{
    u32::from_be_bytes([
        section[first - 1],
        section[first],
        section[first + 1],
        section[first + 2],
    ])
}

/// The number whose sign and magnitude these digits are.
fn signed_value(raw: u32, bits: u8) -> i32
    requires width { (bits ≡ 8) ⊎ (bits ≡ 16) ⊎ (bits ≡ 32) }
    requires fits { raw < 2 ^ bits }
    ensures value { result ≡ signed bits raw }
    ensures magnitude { unsigned_abs result < 2 ^ (bits - 1) }
    ensures there { raw ≢ 2 ^ bits - 1 → sign_and_magnitude bits result ≢ 2 ^ bits - 1 }
{
    signed(u64::from(raw), bits) as i32
}

/// A sign and a magnitude in two octets.
#[tactic(auto, using(crate::proofs::Reading::signed_two))]
pub fn read_i16(section: &[u8], first: usize) -> i32
    requires from_one { 1 ≤ first }
    requires within { first + 1 ≤ length section.now }
    ensures value { result ≡ signed_number first (first + 1) section.now }
    ensures fits { FitsSigned 2 result }
{
    signed_value(u32::from(read_u16(section, first)), 16)
}

/// A sign and a magnitude in four octets.
#[tactic(auto, using(crate::proofs::Reading::signed_four))]
pub fn read_i32(section: &[u8], first: usize) -> i32
    requires from_one { 1 ≤ first }
    requires within { first + 3 ≤ length section.now }
    ensures value { result ≡ signed_number first (first + 3) section.now }
    ensures fits { FitsSigned 4 result }
{
    signed_value(read_u32(section, first), 32)
}

/// A sign and a magnitude in one octet, or nothing.
#[tactic(auto, using(crate::proofs::Reading::missing_one))]
pub fn read_i8_or_missing(section: &[u8], octet: usize) -> Option<i32>
    requires from_one { 1 ≤ octet }
    requires within { octet ≤ length section.now }
    ensures value { result ≡ signed_or_missing octet octet section.now }
    ensures fits { IfSome result (FitsOrMissing 1) }
{
    let raw = u32::from(read_u8(section, octet));
    if is_missing(u64::from(raw), 8) {
        None
    } else {
        Some(signed_value(raw, 8))
    }
}

/// A sign and a magnitude in four octets, or nothing.
#[tactic(auto, using(crate::proofs::Reading::missing_four))]
pub fn read_i32_or_missing(section: &[u8], first: usize) -> Option<i32>
    requires from_one { 1 ≤ first }
    requires within { first + 3 ≤ length section.now }
    ensures value { result ≡ signed_or_missing first (first + 3) section.now }
    ensures fits { IfSome result (FitsOrMissing 4) }
{
    let raw = read_u32(section, first);
    if is_missing(u64::from(raw), 32) {
        None
    } else {
        Some(signed_value(raw, 32))
    }
}

/// A number in four octets, or nothing.
#[tactic(auto, using(crate::proofs::Reading::number_missing_four))]
pub fn read_u32_or_missing(section: &[u8], first: usize) -> Option<u32>
    requires from_one { 1 ≤ first }
    requires within { first + 3 ≤ length section.now }
    ensures value { result ≡ number_or_missing first (first + 3) section.now }
    ensures fits { IfSome result (λ n. n < 2 ^ 32 - 1) }
{
    let raw = read_u32(section, first);
    if is_missing(u64::from(raw), 32) {
        None
    } else {
        Some(raw)
    }
}

/// The octets of a sign and a magnitude, two of them.
#[tactic(auto, unfolding(crate::specs::Octets::signed_octets))]
pub fn i16_octets(value: &i32) -> [u8; 2]
    requires { FitsSigned 2 value.now }
    ensures { result ≡ signed_octets 2 value.now }
{
    (unsigned_of(i64::from(*value), 16) as u16).to_be_bytes()
}

/// The octets of a sign and a magnitude, four of them.
#[tactic(auto, unfolding(crate::specs::Octets::signed_octets))]
pub fn i32_octets(value: &i32) -> [u8; 4]
    requires { FitsSigned 4 value.now }
    ensures { result ≡ signed_octets 4 value.now }
{
    (unsigned_of(i64::from(*value), 32) as u32).to_be_bytes()
}

/// The octet of a sign and a magnitude, whose bits are all 1 where there is no number.
#[tactic(auto, unfolding(crate::specs::Octets::signed_or_ones))]
pub fn i8_or_ones(value: &Option<i32>) -> [u8; 1]
    requires { IfSome value.now (FitsOrMissing 1) }
    ensures { result ≡ signed_or_ones 1 value.now }
{
    match value {
        Some(value) => (unsigned_of(i64::from(*value), 8) as u8).to_be_bytes(),
        None => u8::MAX.to_be_bytes(),
    }
}

/// The octets of a sign and a magnitude, four of them, whose bits are all 1 where there is no number.
#[tactic(auto, unfolding(crate::specs::Octets::signed_or_ones))]
pub fn i32_or_ones(value: &Option<i32>) -> [u8; 4]
    requires { IfSome value.now (FitsOrMissing 4) }
    ensures { result ≡ signed_or_ones 4 value.now }
{
    match value {
        Some(value) => (unsigned_of(i64::from(*value), 32) as u32).to_be_bytes(),
        None => u32::MAX.to_be_bytes(),
    }
}

/// The octets of a number, four of them, whose bits are all 1 where there is none.
#[tactic(auto, unfolding(crate::specs::Octets::octets_or_ones))]
pub fn u32_or_ones(value: &Option<u32>) -> [u8; 4]
    ensures { result ≡ octets_or_ones 4 value.now }
{
    match value {
        Some(value) => value.to_be_bytes(),
        None => u32::MAX.to_be_bytes(),
    }
}
