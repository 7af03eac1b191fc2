// The ends of ranges, and the values behind them.
ghost use Rattle.std.specs.{Prelude.{◌≡◌, ◌<◌, ◌≤◌, ◌-◌, ◌^◌, ℤ, pos, neg_ℤ, ◌-ℤ◌, ◌≤ℤ◌, IsTrue, IfOk, IfSome, option_map, string_bytes}, Fmt.{signed_decimal}};
ghost use Rattle.fd_spelling.specs.{Names.{is_value}, Civil.{is_date}};
ghost use Rattle.fd_request.specs.{Ranges.{whole, signed_whole, hour_of, day_if, day_of, end_in, end_of, place, same_kind, distance, distance_if, text_behind, step_of}, Ranges.{Number, OnDay}, Seen.{seen_day, seen_end, Fits}};

use crate::day::Day;
use fd_bytes::NoMemory;
use fd_key::{Meaning, date_text, is_numeral, meaning_of, number_of, number_up_to, time_text};
use fd_spelling::spelled;
use jiff_core::civil::Date;
use std::alloc::Global;

/// An end of a range.
#[derive(Clone, Copy, Debug)]
pub(crate) enum End {
    /// A whole number.
    Number(i64),
    /// A whole hour of a day.
    Hour(u32),
    /// A day.
    OnDay(Day),
}

/// The number that 1 to 15 digits write.
#[tactic(auto, unfolding(crate::specs::Ranges::whole))]
fn whole(text: &[u8]) -> Option<u64>
    ensures number { result ≡ whole text.now }
    ensures small { IfSome result (λ n. n < 10 ^ 15) }
{
    if is_numeral(text) && text.len() <= 15 {
        Some(number_of(text))
    } else {
        None
    }
}

/// The same with `-` before it or without.
#[tactic(auto, unfolding(crate::specs::Ranges::signed_whole))]
fn signed_whole(text: &[u8]) -> Option<i64>
    ensures number { result ≡ signed_whole text.now }
    ensures low { IfSome result (λ z. neg_ℤ (pos (10 ^ 15)) ≤ℤ z) }
    ensures high { IfSome result (λ z. z ≤ℤ pos (10 ^ 15)) }
{
    match text {
        [] => None,
        [b'-', others @ ..] => match whole(others) {
            Some(number) => Some(-(number as i64)),
            None => None,
        },
        _ => match whole(text) {
            Some(number) => Some(number as i64),
            None => None,
        },
    }
}

/// The hour of `HHMM`, where the minutes are 0.
#[tactic(auto, unfolding(crate::specs::Ranges::hour_of))]
pub(crate) fn hour_of(text: &[u8]) -> Option<u32>
    ensures hour { result ≡ hour_of text.now }
    ensures small { IfSome result (λ h. h ≤ 23) }
{
    match text {
        [h, i, b'0', b'0'] => number_up_to(&[*h, *i], 23),
        _ => None,
    }
}

/// The day with this year, month and day, where there is one.
fn day_if(year: u32, month: u32, day: u32) -> Option<Day>
    requires year { year ≤ 9999 }
    requires month { month ≤ 12 }
    requires day { day ≤ 31 }
    ensures { option_map seen_day result ≡ day_if (is_date year month day) year month day }
{
    match Date::new(year as i16, month as i8, day as i8) {
        Ok(date) => Some(Day { date }),
        Err(_) => None,
    }
}

/// The day of `YYYYMMDD`.
#[tactic(auto, unfolding(crate::specs::Ranges::day_of))]
pub(crate) fn day_of(text: &[u8]) -> Option<Day>
    ensures { option_map seen_day result ≡ day_of text.now }
{
    match text {
        [a, b, c, d, m, n, e, f] => {
            let year = number_up_to(&[*a, *b, *c, *d], 9999)?;
            let month = number_up_to(&[*m, *n], 12)?;
            let day = number_up_to(&[*e, *f], 31)?;
            day_if(year, month, day)
        }
        _ => None,
    }
}

/// The whole number that a text in its one spelling is.
fn number_in(text: &[u8]) -> Option<End>
    ensures end { option_map seen_end result ≡ option_map (λ n. Number (pos n)) (whole text.now) }
    ensures fits { IfSome result (λ e. Fits (seen_end e) 0) }
{
    match whole(text) {
        Some(number) => Some(End::Number(number as i64)),
        None => None,
    }
}

/// The end that a value in its one spelling is.
#[tactic(auto, unfolding(crate::specs::Ranges::end_in))]
fn end_in(meaning: Meaning, text: &[u8]) -> Option<End>
    ensures end { option_map seen_end result ≡ end_in meaning text.now }
    ensures fits { IfSome result (λ e. Fits (seen_end e) 0) }
{
    match meaning {
        Meaning::Centre | Meaning::ProcessedType | Meaning::Levelist | Meaning::Number => {
            number_in(text)
        }
        Meaning::Step => match signed_whole(text) {
            Some(number) => Some(End::Number(number)),
            None => None,
        },
        Meaning::Time => match hour_of(text) {
            Some(hour) => Some(End::Hour(hour)),
            None => None,
        },
        Meaning::Date => match day_of(text) {
            Some(day) => Some(End::OnDay(day)),
            None => None,
        },
        _ => None,
    }
}

/// The end that a text is, as a value of the name.
#[tactic(auto, unfolding(crate::specs::Ranges::end_of))]
pub(crate) fn end_of(alloc: Global, name: &str, text: &[u8]) -> Result<Option<End>, NoMemory>
    ensures end { IfOk result (λ o. option_map seen_end o ≡ end_of name.now text.now) }
    ensures fits { IfOk result (λ o. IfSome o (λ e. Fits (seen_end e) 0)) }
{
    match spelled(alloc, name, text)? {
        Some(value) => Ok(end_in(meaning_of(name), value.as_bytes())),
        None => Ok(None),
    }
}

/// The number by which ends are compared; for a day, the days since 1 January 1970.
#[tactic(auto, unfolding(crate::specs::Ranges::place))]
fn place(end: &End) -> i64
    ensures { result ≡ place (seen_end end.now) }
{
    match end {
        End::Number(number) => *number,
        End::Hour(hour) => i64::from(*hour),
        End::OnDay(day) => i64::from(day.date.to_unix_epoch_day()),
    }
}

fn same_kind(first: &End, last: &End) -> bool
    ensures { result ≡ same_kind (seen_end first.now) (seen_end last.now) }
{
    match (first, last) {
        (End::Number(_), End::Number(_)) => true,
        (End::Hour(_), End::Hour(_)) => true,
        (End::OnDay(_), End::OnDay(_)) => true,
        _ => false,
    }
}

/// How far a number is behind another, unless it is before it.
fn distance_if(first: &i64, last: &i64) -> Option<u64>
    ensures { result ≡ distance_if (last.now -ℤ first.now) }
{
    let far = i128::from(*last) - i128::from(*first);
    if far < 0 { None } else { Some(far as u64) }
}

/// How far an end is behind another, unless it is before it.
#[tactic(auto, unfolding(crate::specs::Ranges::distance))]
pub(crate) fn distance(first: &End, last: &End) -> Option<u64>
    ensures { result ≡ distance (seen_end first.now) (seen_end last.now) }
{
    if same_kind(first, last) {
        distance_if(&place(first), &place(last))
    } else {
        None
    }
}

/// A whole number in its one spelling.
fn number_text(alloc: Global, number: &i64) -> Result<String, NoMemory>
    requires low { neg_ℤ (pos (10 ^ 15)) ≤ℤ number.now }
    requires high { number.now ≤ℤ pos (10 ^ 15) }
    ensures text { IfOk result (λ s. string_bytes s ≡ signed_decimal number.now) }
    ensures value { IfOk result (λ s. IsTrue (is_value (string_bytes s))) }
{
    Ok(format!(in alloc; "{number}")?)
}

/// The day so far behind another, `YYYYMMDD`.
fn day_text(alloc: Global, day: &Day, far: u64) -> Result<String, NoMemory>
    requires { Fits (OnDay (seen_day day.now)) far }
    ensures text { IfOk result (λ s. string_bytes s ≡ text_behind (OnDay (seen_day day.now)) far) }
    ensures value { IfOk result (λ s. IsTrue (is_value (string_bytes s))) }
{
    let Ok(later) = day.date.checked_add(far as i64) else {
        unreachable!()
    };
    date_text(
        alloc,
        u32::from(later.year.unsigned_abs()),
        u32::from(later.month),
        u32::from(later.day),
    )
}

/// The one spelling of the value so far behind an end.
#[tactic(auto, unfolding(crate::specs::Ranges::text_behind))]
pub(crate) fn text_behind(alloc: Global, first: &End, far: u64) -> Result<String, NoMemory>
    requires { Fits (seen_end first.now) far }
    ensures text { IfOk result (λ s. string_bytes s ≡ text_behind (seen_end first.now) far) }
    ensures value { IfOk result (λ s. IsTrue (is_value (string_bytes s))) }
{
    match first {
        End::Number(number) => number_text(alloc, &(*number + far as i64)),
        End::Hour(hour) => time_text(alloc, *hour + far as u32, 0, 0),
        End::OnDay(day) => day_text(alloc, day, far),
    }
}

/// A step of 1 to 9 digits, which isn't 0.
#[tactic(auto, unfolding(crate::specs::Ranges::step_of))]
pub(crate) fn step_of(text: &[u8]) -> Option<u32>
    ensures step { result ≡ step_of text.now }
    ensures some { IfSome result (λ n. 0 < n) }
{
    if 9 < text.len() {
        return None;
    }
    match number_up_to(text, 999_999_999) {
        Some(0) => None,
        Some(number) => Some(number),
        None => None,
    }
}
