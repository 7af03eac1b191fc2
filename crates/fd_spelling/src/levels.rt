// Levels: the types and values of the two fixed surfaces of a field.
ghost use Rattle.std.specs.{Prelude.{◌≡◌, ◌≤◌, ◌<◌, ◌+◌, ◌++◌, ◌∷◌, [], ◌&&◌, not, if◌then◌else◌, true, IfOk, OnOk, IsTrue, Some, None, length, replicate, string_bytes}, List.{list_all}, Char.{is_ascii_digit}, Prelude.{take, drop, unsigned_abs}, Fmt.{decimal}};
ghost use Rattle.fd_spelling.specs.{Names.{is_ascii, is_value}, Levels.{IsDecimal}, Levels.{levtype_text, types_in, levtype_spelling, without_first_zeros, without_last_zeros, or_zero, with_point, is_zero, level_text, unsigned_level, level_spelling, levels_text, levelist_spelling, scaled_text}, Canonical.{GivesText}};

use crate::fault::ValueFault;
use crate::names::push_bytes;
use crate::numerals::{cut, is_numeral, number_up_to};
use crate::values::push_number;
use arrayvec::ArrayString;
use fd_bytes::NoMemory;
use itoa::Buffer;
use std::alloc::Global;

/// Appends the type of the first surface, and that of the second unless it is missing.
#[tactic(auto, unfolding(crate::specs::Levels::levtype_text))]
pub fn push_levtype(out: &mut String, first: u8, second: u8) -> Result<(), NoMemory>
    ensures { OnOk result (string_bytes out.new ≡ string_bytes out.old ++ levtype_text first second) }
{
    push_number(out, u32::from(first))?;
    if second == 255 {
        return Ok(());
    }
    out.push('-')?;
    push_number(out, u32::from(second))
}

/// The type of the first surface, and that of the second unless it is missing.
pub fn levtype_text(alloc: Global, first: u8, second: u8) -> Result<String, NoMemory>
    ensures text { IfOk result (λ s. string_bytes s ≡ levtype_text first second) }
    ensures short { IfOk result (λ s. length (string_bytes s) ≤ 32) }
    ensures value { IfOk result (λ s. IsTrue (is_value (string_bytes s))) }
{
    text_of!(alloc, 7, push_levtype, first, second)
}

/// The types that two texts write, in their one spelling.
#[tactic(auto, unfolding(crate::specs::Levels::types_in))]
fn types_in(alloc: Global, first: &[u8], second: &[u8]) -> Result<String, ValueFault>
    ensures text { GivesText result (types_in first.now second.now) }
    ensures value { IfOk result (λ s. IsTrue (is_value (string_bytes s))) }
{
    let first = within!(first, 255);
    let second = within!(second, 255);
    Ok(levtype_text(alloc, first as u8, second as u8)?)
}

/// `t` or `t-u` in its one spelling.
#[tactic(auto, unfolding(crate::specs::Levels::levtype_spelling))]
pub(crate) fn levtype_spelling(alloc: Global, text: &[u8]) -> Result<String, ValueFault>
    ensures text { GivesText result (levtype_spelling text.now) }
    ensures value { IfOk result (λ s. IsTrue (is_value (string_bytes s))) }
{
    match cut(text, b'-') {
        Some((first, second)) => types_in(alloc, first, second),
        None => types_in(alloc, text, b"255"),
    }
}

/// The digits without the zeros before them.
fn without_first_zeros(digits: &[u8]) -> &[u8]
    ensures { result.now ≡ without_first_zeros digits.now }
{
    for (i, b) in digits.iter().enumerate() {
        if *b != b'0' {
            let (_, others) = digits.split_at(i);
            return others;
        }
    }
    b""
}

/// The digits without the zeros behind them.
fn without_last_zeros(digits: &[u8]) -> &[u8]
    ensures { result.now ≡ without_last_zeros digits.now }
{
    let mut end = 0;
    for (i, b) in digits.iter().enumerate() {
        if *b != b'0' {
            end = i + 1;
        }
    }
    let (front, _) = digits.split_at(end);
    front
}

/// Tells that all bytes are `0`.
fn is_zero(digits: &[u8]) -> bool
    ensures { result ≡ is_zero digits.now }
{
    digits.iter().all(|b| *b == b'0')
}

/// Appends the digits before a point, at least one.
fn push_whole(out: &mut String, digits: &[u8]) -> Result<(), NoMemory>
    requires { list_all is_ascii digits.now ≡ true }
    ensures { OnOk result (string_bytes out.new ≡ string_bytes out.old ++ or_zero digits.now) }
{
    match digits {
        [] => push_bytes(out, b"0"),
        _ => push_bytes(out, digits),
    }
}

/// Appends a point and the digits behind it, if there are any.
fn push_fraction(out: &mut String, digits: &[u8]) -> Result<(), NoMemory>
    requires { list_all is_ascii digits.now ≡ true }
    ensures { OnOk result (string_bytes out.new ≡ string_bytes out.old ++ with_point digits.now) }
{
    if digits.is_empty() {
        return Ok(());
    }
    out.push('.')?;
    push_bytes(out, digits)
}

/// `-` before a decimal that is negative and isn't 0.
fn sign_of(negative: bool, whole: &[u8], fraction: &[u8]) -> &'static str
    ensures { result.now ≡ (if negative && not (is_zero whole.now && is_zero fraction.now) then 45 ∷ [] else []) }
{
    if negative && !(is_zero(whole) && is_zero(fraction)) {
        "-"
    } else {
        ""
    }
}

/// Appends the decimal with these digits before its point and these behind it, in its one spelling.
#[tactic(auto, unfolding(crate::specs::Levels::level_text))]
fn push_level(
    out: &mut String,
    negative: bool,
    whole: &[u8],
    fraction: &[u8],
) -> Result<(), NoMemory>
    requires whole { list_all is_ascii_digit whole.now ≡ true }
    requires fraction { list_all is_ascii_digit fraction.now ≡ true }
    ensures { OnOk result (string_bytes out.new ≡ string_bytes out.old ++ level_text negative whole.now fraction.now) }
{
    out.push_str(sign_of(negative, whole, fraction))?;
    push_whole(out, without_first_zeros(whole))?;
    push_fraction(out, without_last_zeros(fraction))
}

/// The decimal with these digits before its point and these behind it, in its one spelling.
fn level_text(
    alloc: Global,
    negative: bool,
    whole: &[u8],
    fraction: &[u8],
) -> Result<String, NoMemory>
    requires whole { list_all is_ascii_digit whole.now ≡ true }
    requires fraction { list_all is_ascii_digit fraction.now ≡ true }
    ensures { IfOk result (λ s. string_bytes s ≡ level_text negative whole.now fraction.now) }
{
    let mut out = String::new(alloc);
    push_level(&mut out, negative, whole, fraction)?;
    Ok(out)
}

/// Digits, and a point with digits or none, in their one spelling.
#[tactic(auto, unfolding(crate::specs::Levels::unsigned_level))]
fn unsigned_level(alloc: Global, negative: bool, text: &[u8]) -> Result<String, ValueFault>
    ensures text { GivesText result (unsigned_level negative text.now) }
    ensures decimal { IfOk result (λ s. IsDecimal (length text.now + (if negative then 1 else 0)) (string_bytes s)) }
{
    match cut(text, b'.') {
        Some((whole, fraction)) => {
            if !is_numeral(whole) || !is_numeral(fraction) {
                return Err(ValueFault::BadValue);
            }
            Ok(level_text(alloc, negative, whole, fraction)?)
        }
        None => {
            if !is_numeral(text) {
                return Err(ValueFault::BadValue);
            }
            Ok(level_text(alloc, negative, text, b"")?)
        }
    }
}

/// A decimal in its one spelling.
#[tactic(auto, unfolding(crate::specs::Levels::level_spelling))]
fn level_spelling(alloc: Global, text: &[u8]) -> Result<String, ValueFault>
    ensures text { GivesText result (level_spelling text.now) }
    ensures decimal { IfOk result (λ s. IsDecimal (length text.now) (string_bytes s)) }
{
    match text {
        [] => Err(ValueFault::BadValue),
        [b'-', others @ ..] => unsigned_level(alloc, true, others),
        _ => unsigned_level(alloc, false, text),
    }
}

/// `v`, `v_w` or `_w` in its one spelling.
#[tactic(auto, unfolding(crate::specs::Levels::levelist_spelling))]
pub(crate) fn levelist_spelling(alloc: Global, text: &[u8]) -> Result<String, ValueFault>
    requires { length text.now ≤ 255 }
    ensures text { GivesText result (levelist_spelling text.now) }
    ensures value { IfOk result (λ s. IsTrue (is_value (string_bytes s))) }
{
    match cut(text, b'_') {
        None => level_spelling(alloc, text),
        Some(([], second)) => {
            let second = level_spelling(alloc, second)?;
            Ok(second_alone(alloc, second.as_str())?)
        }
        Some((first, second)) => {
            let first = level_spelling(alloc, first)?;
            let second = level_spelling(alloc, second)?;
            Ok(both_levels(alloc, first.as_str(), second.as_str())?)
        }
    }
}

/// The value of the second surface alone, `_w`.
pub fn second_alone(alloc: Global, second: &str) -> Result<String, NoMemory>
    ensures text { IfOk result (λ s. Some (string_bytes s) ≡ levels_text None (Some second.now)) }
    ensures short { IfOk result (λ s. length (string_bytes s) ≡ length second.now + 1) }
{
    Ok(format!(in alloc; "_{second}")?)
}

/// The values of both surfaces, `v_w`.
pub fn both_levels(alloc: Global, first: &str, second: &str) -> Result<String, NoMemory>
    ensures text { IfOk result (λ s. Some (string_bytes s) ≡ levels_text (Some first.now) (Some second.now)) }
    ensures short { IfOk result (λ s. length (string_bytes s) ≡ length first.now + length second.now + 1) }
{
    Ok(format!(in alloc; "{first}_{second}")?)
}

/// Appends so many zeros.
fn push_zeros(out: &mut ArrayString<276>, count: u64)
    requires room { length out.old.bytes + count ≤ 276 }
    requires digits { list_all is_ascii_digit out.old.bytes ≡ true }
    ensures zeros { out.new.bytes ≡ out.old.bytes ++ replicate count 48 }
    ensures digits { list_all is_ascii_digit out.new.bytes ≡ true }
{
    for _i in 0..count {
        out.push_str("0");
    }
}

/// Appends the number of these digits with so many zeros behind them.
fn push_enlarged(out: &mut String, negative: bool, digits: &str, zeros: u64) -> Result<(), NoMemory>
    requires room { length digits.now + zeros ≤ 276 }
    requires digits { list_all is_ascii_digit digits.now ≡ true }
    ensures { OnOk result (string_bytes out.new ≡ string_bytes out.old ++ level_text negative (digits.now ++ replicate zeros 48) []) }
{
    let mut all = ArrayString::new();
    all.push_str(digits);
    push_zeros(&mut all, zeros);
    push_level(out, negative, all.as_str().as_bytes(), b"")
}

/// Appends the number of these digits with so many zeros before them, and the point behind as many digits as it had.
fn push_reduced(out: &mut String, negative: bool, digits: &str, zeros: u64) -> Result<(), NoMemory>
    requires room { length digits.now + zeros ≤ 276 }
    requires digits { list_all is_ascii_digit digits.now ≡ true }
    ensures { OnOk result (string_bytes out.new ≡ string_bytes out.old ++ level_text negative (take (length digits.now) (replicate zeros 48 ++ digits.now)) (drop (length digits.now) (replicate zeros 48 ++ digits.now))) }
{
    let mut all = ArrayString::new();
    push_zeros(&mut all, zeros);
    all.push_str(digits);
    let (whole, fraction) = all.as_str().as_bytes().split_at(digits.len());
    push_level(out, negative, whole, fraction)
}

/// Appends the text of value × 10 ^ -factor.
#[tactic(auto, unfolding(crate::specs::Levels::scaled_text))]
pub fn push_scaled(out: &mut String, factor: i64, value: i64) -> Result<(), NoMemory>
    requires { unsigned_abs factor < 256 }
    ensures { OnOk result (string_bytes out.new ≡ string_bytes out.old ++ scaled_text factor value) }
{
    let mut buffer = Buffer::new();
    let digits = buffer.format(value.unsigned_abs());
    let zeros = factor.unsigned_abs();
    if factor.is_negative() {
        push_enlarged(out, value.is_negative(), digits, zeros)
    } else {
        push_reduced(out, value.is_negative(), digits, zeros)
    }
}
