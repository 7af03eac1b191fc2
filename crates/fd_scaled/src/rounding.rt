//! Whole numbers times powers, and quotients rounded to even.

ghost use Rattle.std.specs.{Prelude.{◌≡◌, ◌*◌, ◌^◌, ◌<◌, ◌≤◌}, Option.{SomeIff}};
ghost use Rattle.fd_scaled.specs.Decimal.{rounded};

/// x * base^count, where that is below the limit.
pub fn times_power(x: u128, base: u8, count: u32, limit: u128) -> Option<u128>
    requires base { 2 ≤ base }
    requires small { base ≤ 16 }
    requires room { limit ≤ 2 ^ 127 }
    ensures { SomeIff result (x * base ^ count < limit) (x * base ^ count) }
{
    if x >= limit {
        return None;
    }
    if x == 0 {
        return Some(0);
    }
    let mut product = x;
    for _ in 0..count {
        let Some(next) = product.checked_mul(u128::from(base)) else {
            return None;
        };
        if next >= limit {
            return None;
        }
        product = next;
    }
    Some(product)
}

/// The quotient, rounded to the nearest, and to the even one of two.
pub fn half_even(x: u128, y: u128) -> u128
    requires positive { 0 < y }
    requires x_room { x < 2 ^ 127 }
    requires y_room { y < 2 ^ 126 }
    ensures { result ≡ rounded x y }
{
    let whole = x / y;
    let rest = x % y;
    if 2 * rest > y || (2 * rest == y && whole % 2 == 1) {
        whole + 1
    } else {
        whole
    }
}
