// Forecast times with their unit.
ghost use Rattle.std.specs.Prelude.{◌≡◌, ◌≤◌, ◌<◌, ◌^◌, ◌++◌, IfOk, OnOk, IsTrue, IfSome, length, string_bytes};
ghost use Rattle.fd_spelling.specs.{Steps.{unit_seconds, sign_text, seconds_text, magnitude_text, step_text, unit_of, unsigned_step, step_spelling, without_seconds}, Numerals.{number_up_to}, Names.{is_value}, Canonical.{GivesText}};

use crate::fault::ValueFault;
use crate::numerals::{digit_count, number_of, number_up_to};
use fd_bytes::NoMemory;
use std::alloc::Global;

/// The seconds of a unit of time, where it always has as many (code table 4.4).
fn unit_seconds(unit: u8) -> Option<u32>
    ensures seconds { result ≡ unit_seconds unit }
    ensures few { IfSome result (λ s. s ≤ 86400) }
{
    match unit {
        0 => Some(60),
        1 => Some(3600),
        2 => Some(86_400),
        10 => Some(10_800),
        11 => Some(21_600),
        12 => Some(43_200),
        13 => Some(1),
        _ => None,
    }
}

/// `-` before a number that isn't 0.
fn sign_text(negative: bool, number: u64) -> &'static str
    ensures text { result.now ≡ sign_text negative number }
    ensures short { length result.now ≤ 1 }
{
    if negative && 0 < number { "-" } else { "" }
}

/// Appends whole hours, else whole minutes, else seconds.
fn push_seconds(out: &mut String, seconds: u128) -> Result<(), NoMemory>
    ensures { OnOk result (string_bytes out.new ≡ string_bytes out.old ++ seconds_text seconds) }
{
    if seconds % 3600 == 0 {
        let hours = seconds / 3600;
        write!(out, "{hours}")?;
    } else if seconds % 60 == 0 {
        let minutes = seconds / 60;
        write!(out, "{minutes}m")?;
    } else {
        write!(out, "{seconds}s")?;
    }
    Ok(())
}

/// Appends a number of units of time (code table 4.4).
fn push_magnitude(out: &mut String, number: u64, unit: u8) -> Result<(), NoMemory>
    ensures { OnOk result (string_bytes out.new ≡ string_bytes out.old ++ magnitude_text number unit (unit_seconds unit)) }
{
    match unit_seconds(unit) {
        Some(seconds) => push_seconds(out, u128::from(number) * u128::from(seconds)),
        None => {
            write!(out, "{number}u{unit}")?;
            Ok(())
        }
    }
}

/// Appends a number of units of time, with its sign.
#[tactic(auto, unfolding(crate::specs::Steps::step_text))]
pub fn push_step(out: &mut String, negative: bool, number: u64, unit: u8) -> Result<(), NoMemory>
    ensures { OnOk result (string_bytes out.new ≡ string_bytes out.old ++ step_text negative number unit) }
{
    out.push_str(sign_text(negative, number))?;
    push_magnitude(out, number, unit)
}

/// The one spelling of a number of units of time, with its sign.
pub fn step_text(alloc: Global, negative: bool, number: u64, unit: u8) -> Result<String, NoMemory>
    requires { number < 2 ^ 52 }
    ensures text { IfOk result (λ s. string_bytes s ≡ step_text negative number unit) }
    ensures short { IfOk result (λ s. length (string_bytes s) ≤ 24) }
    ensures value { IfOk result (λ s. IsTrue (is_value (string_bytes s))) }
{
    text_of!(alloc, 24, push_step, negative, number, unit)
}

/// The unit that stands behind a number.
#[tactic(auto, unfolding(crate::specs::Steps::unit_of))]
fn unit_of(text: &[u8]) -> Option<u8>
    ensures { result ≡ unit_of text.now }
{
    match text {
        [] => Some(1),
        [b'u', number @ ..] => other_unit(number),
        [b'm'] => Some(0),
        [b's'] => Some(13),
        _ => None,
    }
}

/// The unit of this number, where it has no seconds.
fn other_unit(number: &[u8]) -> Option<u8>
    ensures { result ≡ without_seconds (number_up_to 255 number.now) }
{
    let Some(unit) = number_up_to(number, 255) else {
        return None;
    };
    match unit_seconds(unit as u8) {
        Some(_) => None,
        None => Some(unit as u8),
    }
}

/// 1 to 15 digits and a unit, in their one spelling.
#[tactic(auto, unfolding(crate::specs::Steps::unsigned_step))]
pub(crate) fn unsigned_step(
    alloc: Global,
    negative: bool,
    text: &[u8],
) -> Result<String, ValueFault>
    ensures text { GivesText result (unsigned_step negative text.now) }
    ensures value { IfOk result (λ s. IsTrue (is_value (string_bytes s))) }
{
    let count = digit_count(text);
    if count < 1 || 15 < count {
        return Err(ValueFault::BadValue);
    }
    let (digits, behind) = text.split_at(count);
    let Some(unit) = unit_of(behind) else {
        return Err(ValueFault::BadValue);
    };
    Ok(step_text(alloc, negative, number_of(digits), unit)?)
}

/// A step in its one spelling.
#[tactic(auto, unfolding(crate::specs::Steps::step_spelling))]
pub(crate) fn step_spelling(alloc: Global, text: &[u8]) -> Result<String, ValueFault>
    ensures text { GivesText result (step_spelling text.now) }
    ensures value { IfOk result (λ s. IsTrue (is_value (string_bytes s))) }
{
    match text {
        [] => Err(ValueFault::BadValue),
        [b'-', others @ ..] => unsigned_step(alloc, true, others),
        _ => unsigned_step(alloc, false, text),
    }
}
