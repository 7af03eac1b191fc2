ghost use Rattle.std.specs.{Prelude.{◌≡◌, ◌≤◌, ◌++◌, ◌&&◌, IfOk, OnOk, IsTrue, IfSome, Some, None, length, string_bytes, option_map, if◌then◌else◌}, Fmt.{decimal}};
ghost use Rattle.fd_spelling.specs.{Numerals.{number_up_to, cut}, Names.{lower, is_name, is_value, meaning_of}, Canonical.{GivesText, GivesPair, canonical, pair_of, param_text, param_of, param_numbers, spelling, is_text_of}};

use crate::civil::{date_spelling, time_spelling};
use crate::fault::ValueFault;
use crate::levels::{levelist_spelling, levtype_spelling};
use crate::meaning::{Meaning, meaning_of};
use crate::names::{is_name, is_value, lower};
use crate::numerals::{cut, number_up_to};
use crate::stats::stat_spelling;
use crate::steps::step_spelling;
use fd_bytes::NoMemory;
use itoa::Buffer;
use std::alloc::Global;

/// A number in decimal digits.
pub fn number_text(alloc: Global, number: u32) -> Result<String, NoMemory>
    ensures text { IfOk result (λ s. string_bytes s ≡ decimal number) }
    ensures short { IfOk result (λ s. length (string_bytes s) ≤ 10) }
    ensures value { IfOk result (λ s. IsTrue (is_value (string_bytes s))) }
{
    text_of!(alloc, 10, push_number, number)
}

/// A number up to this one, without leading zeros.
fn number_spelling(alloc: Global, text: &[u8], most: u32) -> Result<String, ValueFault>
    ensures text { GivesText result (option_map decimal (number_up_to most text.now)) }
    ensures value { IfOk result (λ s. IsTrue (is_value (string_bytes s))) }
{
    let number = within!(text, most);
    Ok(number_text(alloc, number)?)
}

/// Appends a number in decimal digits.
pub fn push_number(out: &mut String, number: u32) -> Result<(), NoMemory>
    ensures { OnOk result (string_bytes out.new ≡ string_bytes out.old ++ decimal number) }
{
    out.push_str(Buffer::new().format(number))?;
    Ok(())
}

/// Appends the text `d.c.n` of a parameter: its discipline, category and number.
pub fn push_param(out: &mut String, d: u8, c: u8, n: u8) -> Result<(), NoMemory>
    ensures { OnOk result (string_bytes out.new ≡ string_bytes out.old ++ param_text d c n) }
{
    push_number(out, u32::from(d))?;
    out.push('.')?;
    push_number(out, u32::from(c))?;
    out.push('.')?;
    push_number(out, u32::from(n))
}

/// The text `d.c.n` of a parameter: its discipline, category and number.
pub fn param_text(alloc: Global, d: u8, c: u8, n: u8) -> Result<String, NoMemory>
    ensures text { IfOk result (λ s. string_bytes s ≡ param_text d c n) }
    ensures short { IfOk result (λ s. length (string_bytes s) ≤ 32) }
    ensures value { IfOk result (λ s. IsTrue (is_value (string_bytes s))) }
{
    text_of!(alloc, 11, push_param, d, c, n)
}

/// Three numbers up to 255 with points between them.
#[tactic(auto, unfolding(crate::specs::Canonical::param_numbers))]
fn param_numbers(text: &[u8]) -> Option<(u32, u32, u32)>
    ensures numbers { result ≡ param_numbers text.now }
    ensures within { IfSome result (λ p. (p.0 ≤ 255) × (p.1 ≤ 255) × (p.2 ≤ 255)) }
{
    let (front, behind) = cut(text, b'.')?;
    let (middle, back) = cut(behind, b'.')?;
    let d = number_up_to(front, 255)?;
    let c = number_up_to(middle, 255)?;
    let n = number_up_to(back, 255)?;
    Some((d, c, n))
}

/// A parameter without leading zeros.
fn param_spelling(alloc: Global, text: &[u8]) -> Result<String, ValueFault>
    ensures text { GivesText result (option_map param_of (param_numbers text.now)) }
    ensures value { IfOk result (λ s. IsTrue (is_value (string_bytes s))) }
{
    let Some((d, c, n)) = param_numbers(text) else {
        return Err(ValueFault::BadValue);
    };
    Ok(param_text(alloc, d as u8, c as u8, n as u8)?)
}

/// The one spelling of a text in lower case.
#[tactic(auto, unfolding(crate::specs::Canonical::spelling))]
fn spelling(alloc: Global, meaning: Meaning, text: &str) -> Result<String, ValueFault>
    requires { IsTrue (is_text_of meaning text.now) }
    ensures text { GivesText result (spelling meaning text.now) }
    ensures value { IfOk result (λ s. IsTrue (is_value (string_bytes s))) }
{
    let bytes = text.as_bytes();
    match meaning {
        Meaning::Centre => number_spelling(alloc, bytes, 65_535),
        Meaning::Date => date_spelling(alloc, bytes),
        Meaning::Time => time_spelling(alloc, bytes),
        Meaning::ProcessedType => number_spelling(alloc, bytes, 255),
        Meaning::Param => param_spelling(alloc, bytes),
        Meaning::Levtype => levtype_spelling(alloc, bytes),
        Meaning::Levelist => levelist_spelling(alloc, bytes),
        Meaning::Step => step_spelling(alloc, bytes),
        Meaning::Number => number_spelling(alloc, bytes, 255),
        Meaning::Stat => stat_spelling(alloc, bytes),
        Meaning::Other => Ok(copy_of(alloc, text)?),
    }
}

fn copy_of(alloc: Global, text: &str) -> Result<String, NoMemory>
    ensures { IfOk result (λ s. string_bytes s ≡ text.now) }
{
    Ok(String::from_str(alloc, text)?)
}

/// Tells that a text in lower case is a value, or may be a time, in which `:` stands.
fn is_text_of(meaning: Meaning, text: &[u8]) -> bool
    ensures { result ≡ is_text_of meaning text.now }
{
    match meaning {
        Meaning::Time => true,
        _ => is_value(text),
    }
}

/// The one spelling of a text in lower case as a value of a name in lower case.
fn spelling_of(alloc: Global, name: &str, text: &str) -> Result<String, ValueFault>
    ensures text { GivesText result (if is_name name.now && is_text_of (meaning_of name.now) text.now then spelling (meaning_of name.now) text.now else None) }
    ensures name { OnOk result (IsTrue (is_name name.now)) }
    ensures value { IfOk result (λ s. IsTrue (is_value (string_bytes s))) }
{
    let meaning = meaning_of(name);
    if !is_name(name.as_bytes()) || !is_text_of(meaning, text.as_bytes()) {
        return Err(ValueFault::BadValue);
    }
    spelling(alloc, meaning, text)
}

/// The one spelling of the text as a value of the name; upper-case letters are read as lower-case ones in both.
/// `BadValue` exactly where the text is no value of the name. A spelled value is spelled as itself.
#[tactic(auto, unfolding(crate::specs::Canonical::canonical))]
pub fn canonical(alloc: Global, name: &str, text: &str) -> Result<String, ValueFault>
    ensures text { GivesText result (canonical name.now text.now) }
    ensures again { IfOk result (λ s. canonical name.now (string_bytes s) ≡ Some (string_bytes s)) }
    ensures name { OnOk result (IsTrue (is_name (lower name.now))) }
    ensures value { IfOk result (λ s. IsTrue (is_value (string_bytes s))) }
{
    if is_value(name.as_bytes()) && is_value(text.as_bytes()) {
        return spelling_of(alloc, name, text);
    }
    let name = lower(alloc, name)?;
    let text = lower(alloc, text)?;
    spelling_of(alloc, name.as_str(), text.as_str())
}

/// A word `name=value` of the command line: the name in lower case, and the value in its one spelling. `BadValue` exactly
/// where it is none.
#[tactic(auto, unfolding(crate::specs::Canonical::pair_of))]
pub fn read_pair(alloc: Global, word: &str) -> Result<(String, String), ValueFault>
    ensures pair { GivesPair result (pair_of word.now) }
    ensures name { IfOk result (λ p. IsTrue (is_name (string_bytes p.0))) }
    ensures value { IfOk result (λ p. IsTrue (is_value (string_bytes p.1))) }
{
    let Some((name, text)) = name_and_value(word) else {
        return Err(ValueFault::BadValue);
    };
    let value = canonical(alloc, name, text)?;
    let name = lower(alloc, name)?;
    Ok((name, value))
}

/// What stands before the first `=` and what stands behind it.
#[tactic(auto, unfolding(crate::specs::Numerals::cut))]
pub(crate) fn name_and_value(word: &str) -> Option<(&str, &str)>
    ensures { option_map (λ x. (x.0.now, x.1.now)) result ≡ cut 61 word.now }
{
    word.split_once('=')
}
