ghost use Rattle.std.specs.{Prelude.{ℕ, ◌≡◌, ◌/◌, ◌%◌, ◌+◌, ◌-◌, ◌++◌, ◌≤◌, ◌^◌, ◌<◌, ◌*◌, IfOk, OnOk, ◌≤ℤ◌, ◌+ℤ◌, pos}, Option.{SomeIff}, String.{string_bytes}};
ghost use Rattle.fd_scaled.specs.{Decimal.{last_digits, numerator, denominator, above, below, IsRounded, IsNearest}, Answers.{DecimalsAre}};

use crate::Scaled;
use crate::fault::DecimalFault;
use crate::rounding::{half_even, times_power};
use std::alloc::{AllocError, Global};

const NUMERATOR_LIMIT: u128 = 1 << 127;

const DENOMINATOR_LIMIT: u128 = 1 << 126;

/// x times the power, where that is below the limit; a negative exponent counts as 0.
fn raised(x: u128, base: u8, exponent: i64, limit: u128) -> Option<u128>
    requires base { 2 ≤ base }
    requires small { base ≤ 16 }
    requires room { limit ≤ 2 ^ 127 }
    requires high { exponent ≤ℤ pos (2 ^ 32 - 1) }
    ensures { SomeIff result (x * above base exponent < limit) (x * above base exponent) }
{
    if exponent > 0 {
        times_power(x, base, exponent as u32, limit)
    } else {
        times_power(x, base, 0, limit)
    }
}

/// The same of the power with the opposite exponent.
fn lowered(x: u128, base: u8, exponent: i64, limit: u128) -> Option<u128>
    requires base { 2 ≤ base }
    requires small { base ≤ 16 }
    requires room { limit ≤ 2 ^ 127 }
    requires low { pos 0 ≤ℤ (exponent +ℤ pos (2 ^ 32 - 1)) }
    ensures { SomeIff result (x * below base exponent < limit) (x * below base exponent) }
{
    if exponent < 0 {
        times_power(x, base, exponent.unsigned_abs() as u32, limit)
    } else {
        times_power(x, base, 0, limit)
    }
}

/// x times 2^two and 10^ten, as far as these are above the line.
fn both_raised(x: u128, two: i64, ten: i64) -> Option<u128>
    requires two { two ≤ℤ pos (2 ^ 32 - 1) }
    requires ten { ten ≤ℤ pos (2 ^ 32 - 1) }
    ensures { SomeIff result (x * above 2 two * above 10 ten < 2 ^ 127) (x * above 2 two * above 10 ten) }
{
    let Some(twice) = raised(x, 2, two, NUMERATOR_LIMIT) else {
        return None;
    };
    raised(twice, 10, ten, NUMERATOR_LIMIT)
}

/// The same below the line.
fn both_lowered(two: i64, ten: i64) -> Option<u128>
    requires two { pos 0 ≤ℤ (two +ℤ pos (2 ^ 32 - 1)) }
    requires ten { pos 0 ≤ℤ (ten +ℤ pos (2 ^ 32 - 1)) }
    ensures { SomeIff result (below 2 two * below 10 ten < 2 ^ 126) (below 2 two * below 10 ten) }
{
    let Some(halves) = lowered(1, 2, two, DENOMINATOR_LIMIT) else {
        return None;
    };
    lowered(halves, 10, ten, DENOMINATOR_LIMIT)
}

/// What stands above the line, where it is below 2^127.
fn numerator_of(scaled: &Scaled, d: u8) -> Option<u128>
    requires { d ≤ 30 }
    ensures { SomeIff result (numerator scaled.now d < 2 ^ 127) (numerator scaled.now d) }
{
    let ten = i64::from(scaled.ten) + i64::from(d);
    both_raised(scaled.n.unsigned_abs(), i64::from(scaled.two), ten)
}

/// What stands below the line, where it is below 2^126.
fn denominator_of(scaled: &Scaled, d: u8) -> Option<u128>
    requires { d ≤ 30 }
    ensures value { SomeIff result (denominator scaled.now d < 2 ^ 126) (denominator scaled.now d) }
    ensures positive { 0 < denominator scaled.now d }
{
    let ten = i64::from(scaled.ten) + i64::from(d);
    both_lowered(i64::from(scaled.two), ten)
}

/// The digit of r that counts 10^place.
fn digit_at(r: u128, place: u8) -> char
    requires { place ≤ 30 }
    ensures { result ≡ 48 + r / 10 ^ place % 10 }
{
    let digit = (r / power_of_ten(place) % 10) as u8;
    char::from(b'0' + digit)
}

fn power_of_ten(exponent: u8) -> u128
    requires { exponent ≤ 30 }
    ensures value { result ≡ 10 ^ exponent }
    ensures positive { 0 < result }
{
    10u128.pow(u32::from(exponent))
}

/// The last d digits of r, the highest first.
fn push_digits(out: &mut String, d: u8, r: u128) -> Result<(), AllocError>
    requires { d ≤ 30 }
    ensures { OnOk result (string_bytes out.new ≡ string_bytes out.old ++ last_digits d r) }
{
    for i in 0..d {
        out.push(digit_at(r, d - 1 - i))?;
    }
    Ok(())
}

/// The text of a number with d decimals.
fn rounded_text(alloc: Global, scaled: &Scaled, d: u8) -> Result<String, DecimalFault>
    requires { d ≤ 30 }
    ensures { DecimalsAre scaled.now d result }
{
    let Some(top) = numerator_of(scaled, d) else {
        return Err(DecimalFault::TooWide);
    };
    let Some(bottom) = denominator_of(scaled, d) else {
        return Err(DecimalFault::TooWide);
    };
    let r = half_even(top, bottom);
    let mut text = String::new(alloc);
    if scaled.n < 0 && r > 0 {
        text.push('-')?;
    }
    let whole = r / power_of_ten(d);
    write!(text, "{whole}")?;
    if d > 0 {
        text.push('.')?;
        push_digits(&mut text, d, r)?;
    }
    Ok(text)
}

impl Scaled {
    /// The number with d decimals, rounded half to even, and never `-0`. `TooWide` comes exactly where, with a = ten + d,
    /// `|n| * 2^max(two, 0) * 10^max(a, 0)` is 2^127 or more, or `2^max(-two, 0) * 10^max(-a, 0)` is 2^126 or more.
    pub fn decimals(&self, alloc: Global, d: u8) -> Result<String, DecimalFault>
        requires { d ≤ 30 }
        // When it is too wide, and which text it is otherwise.
        ensures answer { DecimalsAre self.now d result }
        // That text writes the number, rounded.
        ensures rounded { IfOk result (λ t. IsRounded self.now d (string_bytes t)) }
    {
        rounded_text(alloc, self, d)
    }
}

/// A fraction has one nearest whole number: of two that are as near only one is even.
pub fn nearest_is_one()
    ensures { (x y j k : ℕ) → 0 < y → IsNearest x y j → IsNearest x y k → j ≡ k }
{}
