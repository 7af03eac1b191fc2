ghost use Rattle.std.specs.Prelude.{◌≡◌, ◌<◌, ◌-◌, ◌^◌, ◌⊎◌, length, pos, ◌<ℤ◌, ◌-ℤ◌};
ghost use Rattle.byteorder.specs.Endian.{big_number};
ghost use Rattle.fd_bytes.specs.Numbers.{signed, sign_and_magnitude, is_missing};

use byteorder::{BigEndian, ByteOrder};

/// The number in two octets, most significant first, as FM 92 GRIB writes all its numbers.
pub fn be_u16(bytes: &[u8]) -> u64
    requires { length bytes.now ≡ 2 }
    ensures number { result ≡ big_number 2 bytes.now }
    ensures fits { result < 2 ^ 16 }
{
    u64::from(BigEndian::read_u16(bytes))
}

/// The number in four octets, most significant first.
pub fn be_u32(bytes: &[u8]) -> u64
    requires { length bytes.now ≡ 4 }
    ensures number { result ≡ big_number 4 bytes.now }
    ensures fits { result < 2 ^ 32 }
{
    u64::from(BigEndian::read_u32(bytes))
}

/// The number in eight octets, most significant first.
pub fn be_u64(bytes: &[u8]) -> u64
    requires { length bytes.now ≡ 8 }
    ensures { result ≡ big_number 8 bytes.now }
{
    BigEndian::read_u64(bytes)
}

/// The number whose sign and magnitude these binary digits are: a negative number has its most significant bit set
/// (FM 92 GRIB, regulation 92.1.5).
pub fn signed(raw: u64, bits: u8) -> i64
    requires width { (bits ≡ 8) ⊎ (bits ≡ 16) ⊎ (bits ≡ 32) }
    requires fits { raw < 2 ^ bits }
    ensures { result ≡ signed bits raw }
{
    let sign = 1u64 << (bits - 1);
    if raw < sign {
        raw as i64
    } else {
        -((raw - sign) as i64)
    }
}

/// The sign and the magnitude of a number: what `signed` reads as this number.
pub fn unsigned_of(value: i64, bits: u8) -> u64
    requires width { (bits ≡ 8) ⊎ (bits ≡ 16) ⊎ (bits ≡ 32) }
    requires above { (pos 0 -ℤ pos (2 ^ (bits - 1))) <ℤ value }
    requires below { value <ℤ pos (2 ^ (bits - 1)) }
    ensures digits { result ≡ sign_and_magnitude bits value }
    ensures fits { result < 2 ^ bits }
    ensures again { signed bits result ≡ value }
{
    if value < 0 {
        (1u64 << (bits - 1)) + (-value) as u64
    } else {
        value as u64
    }
}

/// Tells that all binary digits are 1, which marks a number as missing (FM 92 GRIB, regulation 92.1.4).
pub fn is_missing(raw: u64, bits: u8) -> bool
    requires width { (bits ≡ 8) ⊎ (bits ≡ 16) ⊎ (bits ≡ 32) }
    requires fits { raw < 2 ^ bits }
    ensures { result ≡ is_missing bits raw }
{
    raw == (1u64 << bits) - 1
}
