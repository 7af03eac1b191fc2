ghost use Rattle.std.specs.Prelude.{◌≡◌, ◌+◌, ◌-◌, ◌<◌, ◌^◌, ◌-ℤ◌, ◌+ℤ◌, pos, unsigned_abs};
ghost use Rattle.fd_packing.specs.Value.{common, lifted, signed, scaled_value, IsNarrow};

use crate::ieee::Reference;
use crate::width::shifted;
use fd_scaled::Scaled;

/// The common power of two.
pub fn common_power(r: &Reference, e: &i32, width: u32) -> i32
    ensures { result ≡ common r.now e.now width }
{
    if width == 0 {
        r.k
    } else if r.m == 0 {
        *e
    } else {
        r.k.min(*e)
    }
}

/// How far apart two powers are.
pub fn distance(k: &i32, q: &i32) -> u32
    requires k { unsigned_abs k.now < 2 ^ 16 }
    requires q { unsigned_abs q.now < 2 ^ 16 }
    ensures value { result ≡ unsigned_abs (k.now -ℤ q.now) }
    ensures near { result < 2 ^ 17 }
{
    (*k - *q).unsigned_abs()
}

/// n * 2^k in units of 2^q.
fn lifted(n: u64, k: &i32, q: &i32) -> u128
    requires k { unsigned_abs k.now < 2 ^ 16 }
    requires q { unsigned_abs q.now < 2 ^ 16 }
    requires narrow { lifted n k.now q.now < 2 ^ 127 }
    ensures value { result ≡ lifted n k.now q.now }
    ensures fits { result < 2 ^ 127 }
{
    match shifted(n, distance(k, q)) {
        Some(product) => product,
        None => unreachable!(),
    }
}

/// The sum of a number with a sign and one without.
fn signed_sum(negative: bool, first: u128, second: u128) -> i128
    requires { first + second < 2 ^ 127 }
    ensures { result ≡ signed negative first +ℤ pos second }
{
    if negative {
        second as i128 - first as i128
    } else {
        (first + second) as i128
    }
}

/// The value with the packed number x, exactly.
#[tactic(auto, unfolding(crate::specs::Value::scaled_value))]
pub fn scaled_value(r: &Reference, e: &i32, d: &i32, width: u32, x: u64) -> Scaled
    requires narrow { IsNarrow r.now e.now width }
    requires d { unsigned_abs d.now < 2 ^ 15 }
    requires x { x < 2 ^ width }
    ensures { result ≡ scaled_value r.now e.now d.now width x }
{
    let two = common_power(r, e, width);
    let first = lifted(r.m as u64, &r.k, &two);
    let second = lifted(x, e, &two);
    Scaled {
        n: signed_sum(r.negative, first, second),
        two,
        ten: -*d,
    }
}
