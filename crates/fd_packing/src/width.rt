ghost use Rattle.std.specs.{Prelude.{◌≡◌, ◌*◌, ◌^◌, ◌<◌}, Option.{SomeIff}};
ghost use Rattle.fd_packing.specs.Value.{digits, NeedIs};

/// How many binary digits x * 2^by has.
pub fn shifted_digits(x: u64, by: u32) -> u32
    requires { by < 2 ^ 20 }
    ensures { result ≡ digits (x * 2 ^ by) }
{
    if x == 0 {
        0
    } else {
        64 - x.leading_zeros() + by
    }
}

/// x * 2^by, where that has at most 127 digits.
pub fn shifted(x: u64, by: u32) -> Option<u128>
    requires { by < 2 ^ 20 }
    ensures { SomeIff result (x * 2 ^ by < 2 ^ 127) (x * 2 ^ by) }
{
    if x == 0 {
        return Some(0);
    }
    if shifted_digits(x, by) > 127 {
        return None;
    }
    Some(u128::from(x) << by)
}

/// The digits of the larger addend, where the sum of both is 2^127 or more.
pub fn need(m: u64, up: u32, x: u64, over: u32) -> Option<u32>
    requires up { up < 2 ^ 20 }
    requires over { over < 2 ^ 20 }
    ensures { NeedIs (m * 2 ^ up) (x * 2 ^ over) result }
{
    let digits = shifted_digits(m, up).max(shifted_digits(x, over));
    match (shifted(m, up), shifted(x, over)) {
        (Some(a), Some(b)) if a + b < 1 << 127 => None,
        _ => Some(digits),
    }
}
