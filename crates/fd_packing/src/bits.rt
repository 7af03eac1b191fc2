ghost use Rattle.std.specs.{Prelude.{◌≡◌, ◌+◌, ◌*◌, ◌<◌, ◌≤◌, ◌^◌, length}, Int.Digits.{number_from_digits}};
ghost use Rattle.fd_packing.specs.Bits.{number_at};

/// The number that the bytes write, most significant first.
fn big_endian(bytes: &[u8]) -> u128
    requires { length bytes.now ≤ 16 }
    ensures { result ≡ number_from_digits 256 bytes.now }
{
    let mut all: u128 = 0;
    for b in bytes {
        all = all * 256 + u128::from(*b);
    }
    all
}

/// The number of the `width` bits from bit `at` on.
pub fn bits_at(bytes: &[u8], at: u64, width: u32) -> u64
    requires narrow { width ≤ 64 }
    requires low { at < 2 ^ 60 }
    requires within { at + width ≤ 8 * length bytes.now }
    ensures value { result ≡ number_at bytes.now at width }
    ensures fits { result < 2 ^ width }
{
    let first = at / 8;
    let end = at + width as u64;
    let past = (end + 7) / 8;
    let all = big_endian(&bytes[first as usize..past as usize]);
    let after = 8 * past - end;
    ((all >> after) % (1 << width)) as u64
}
