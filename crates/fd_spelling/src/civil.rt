// Civil dates and times of day.
ghost use Rattle.std.specs.Prelude.{◌≡◌, ◌≤◌, ◌+◌, ◌%◌, ◌++◌, IfOk, OnOk, IsTrue, length, string_bytes};
ghost use Rattle.fd_spelling.specs.{Civil.{is_date, is_time, two_digits, date_text, time_text, date_in, date_spelling, time_in, time_spelling}, Names.{is_value}, Canonical.{GivesText}};

use crate::fault::ValueFault;
use crate::numerals::number_up_to;
use fd_bytes::NoMemory;
use jiff::civil::Date;
use std::alloc::Global;

/// Tells that the calendar has this day, in a year up to 9999.
pub fn is_date(year: u32, month: u32, day: u32) -> bool
    ensures { result ≡ is_date year month day }
{
    if year > 9999 || month > 12 || day > 31 {
        return false;
    }
    Date::new(year as i16, month as i8, day as i8).is_ok()
}

/// Tells that a day has this time.
pub fn is_time(hour: u32, minute: u32, second: u32) -> bool
    ensures { result ≡ is_time hour minute second }
{
    hour <= 23 && minute <= 59 && second <= 59
}

/// Appends the last two decimal digits of a number.
fn push_two_digits(out: &mut String, number: u32) -> Result<(), NoMemory>
    ensures { OnOk result (string_bytes out.new ≡ string_bytes out.old ++ two_digits number) }
{
    out.push(digit(number / 10))?;
    out.push(digit(number))?;
    Ok(())
}

/// The last decimal digit of a number.
fn digit(number: u32) -> char
    ensures { result ≡ 48 + number % 10 }
{
    char::from(b'0' + (number % 10) as u8)
}

/// Appends `YYYYMMDD`.
#[tactic(auto, unfolding(crate::specs::Civil::date_text))]
pub fn push_date(out: &mut String, year: u32, month: u32, day: u32) -> Result<(), NoMemory>
    ensures { OnOk result (string_bytes out.new ≡ string_bytes out.old ++ date_text year month day) }
{
    push_two_digits(out, year / 100)?;
    push_two_digits(out, year)?;
    push_two_digits(out, month)?;
    push_two_digits(out, day)
}

/// `YYYYMMDD`.
#[tactic(auto, unfolding(crate::specs::Civil::date_text))]
pub fn date_text(alloc: Global, year: u32, month: u32, day: u32) -> Result<String, NoMemory>
    ensures text { IfOk result (λ s. string_bytes s ≡ date_text year month day) }
    ensures short { IfOk result (λ s. length (string_bytes s) ≤ 8) }
    ensures value { IfOk result (λ s. IsTrue (is_value (string_bytes s))) }
{
    text_of!(alloc, 8, push_date, year, month, day)
}

/// Appends `HHMM`, and `SS` behind it where the seconds aren't 0.
#[tactic(auto, unfolding(crate::specs::Civil::time_text))]
pub fn push_time(out: &mut String, hour: u32, minute: u32, second: u32) -> Result<(), NoMemory>
    ensures { OnOk result (string_bytes out.new ≡ string_bytes out.old ++ time_text hour minute second) }
{
    push_two_digits(out, hour)?;
    push_two_digits(out, minute)?;
    if second == 0 {
        return Ok(());
    }
    push_two_digits(out, second)
}

/// `HHMM`, and `SS` behind it where the seconds aren't 0.
#[tactic(auto, unfolding(crate::specs::Civil::time_text))]
pub fn time_text(alloc: Global, hour: u32, minute: u32, second: u32) -> Result<String, NoMemory>
    ensures text { IfOk result (λ s. string_bytes s ≡ time_text hour minute second) }
    ensures short { IfOk result (λ s. length (string_bytes s) ≤ 6) }
    ensures value { IfOk result (λ s. IsTrue (is_value (string_bytes s))) }
{
    text_of!(alloc, 6, push_time, hour, minute, second)
}

/// The date whose year, month and day these digits write.
#[tactic(auto, unfolding(crate::specs::Civil::date_in))]
fn date_in(alloc: Global, year: &[u8], month: &[u8], day: &[u8]) -> Result<String, ValueFault>
    ensures text { GivesText result (date_in year.now month.now day.now) }
    ensures value { IfOk result (λ s. IsTrue (is_value (string_bytes s))) }
{
    let y = within!(year, 9999);
    let m = within!(month, 12);
    let d = within!(day, 31);
    if !is_date(y, m, d) {
        return Err(ValueFault::BadValue);
    }
    Ok(date_text(alloc, y, m, d)?)
}

/// A date in its one spelling, `YYYYMMDD`.
#[tactic(auto, unfolding(crate::specs::Civil::date_spelling))]
pub(crate) fn date_spelling(alloc: Global, text: &[u8]) -> Result<String, ValueFault>
    ensures text { GivesText result (date_spelling text.now) }
    ensures value { IfOk result (λ s. IsTrue (is_value (string_bytes s))) }
{
    match text {
        [a, b, c, d, m, n, e, f] => date_in(alloc, &[*a, *b, *c, *d], &[*m, *n], &[*e, *f]),
        [a, b, c, d, b'-', m, n, b'-', e, f] => {
            date_in(alloc, &[*a, *b, *c, *d], &[*m, *n], &[*e, *f])
        }
        _ => Err(ValueFault::BadValue),
    }
}

/// The time whose hours, minutes and seconds these digits write.
#[tactic(auto, unfolding(crate::specs::Civil::time_in))]
fn time_in(
    alloc: Global,
    hours: &[u8],
    minutes: &[u8],
    seconds: &[u8],
) -> Result<String, ValueFault>
    ensures text { GivesText result (time_in hours.now minutes.now seconds.now) }
    ensures value { IfOk result (λ s. IsTrue (is_value (string_bytes s))) }
{
    let h = within!(hours, 23);
    let m = within!(minutes, 59);
    let s = within!(seconds, 59);
    Ok(time_text(alloc, h, m, s)?)
}

/// A time of day in its one spelling.
#[tactic(auto, unfolding(crate::specs::Civil::time_spelling))]
pub(crate) fn time_spelling(alloc: Global, text: &[u8]) -> Result<String, ValueFault>
    ensures text { GivesText result (time_spelling text.now) }
    ensures value { IfOk result (λ s. IsTrue (is_value (string_bytes s))) }
{
    match text {
        [h] => time_in(alloc, &[*h], b"0", b"0"),
        [h, i] => time_in(alloc, &[*h, *i], b"0", b"0"),
        [h, i, m, n] => time_in(alloc, &[*h, *i], &[*m, *n], b"0"),
        [h, i, b':', m, n] => time_in(alloc, &[*h, *i], &[*m, *n], b"0"),
        [h, i, m, n, s, t] => time_in(alloc, &[*h, *i], &[*m, *n], &[*s, *t]),
        [h, i, b':', m, n, b':', s, t] => time_in(alloc, &[*h, *i], &[*m, *n], &[*s, *t]),
        _ => Err(ValueFault::BadValue),
    }
}
