// The values of keywords, asked for by their texts.
ghost use Rattle.std.specs.{Prelude.{◌≡◌, ◌↔◌, ◌==◌, ◌&&◌, ◌+◌, ◌/◌, ◌%◌, ◌^◌, ℤ, pos, neg_ℤ, ◌≤ℤ◌, nat_lt, IsTrue, Some, option_map}, List.{Contains}, Str.{bytes_eq}, Fmt.{signed_decimal}};
ghost use Rattle.fd_spelling.specs.Civil.{date_text, time_text};
ghost use Rattle.fd_request.specs.{Ranges.{text_behind}, Seen.{seen_end}, Values.{seen_range, seen_values}, Keywords.{seen_keyword}, Behind.{ReadsBehind}, Matching.{Admits}};

use crate::end::{End, day_of, distance, hour_of};
use crate::keyword::Keyword;
use crate::range::Range;
use crate::values::Values;
use fd_key::Key;
use fd_spelling::is_one_of;
use itoa::Buffer;

/// The number that a text is.
fn number_like(text: &str) -> Option<i64>
    ensures { (z : ℤ) → neg_ℤ (pos (10 ^ 15)) ≤ℤ z → z ≤ℤ pos (10 ^ 15) → text.now ≡ signed_decimal z → result ≡ Some z }
{
    match text.parse::<i64>() {
        Ok(number) => Some(number),
        Err(_) => None,
    }
}

/// The end that a text is, of the kind of another end.
fn end_like(first: &End, text: &str) -> Option<End>
    ensures { ReadsBehind (seen_end first.now) text.now (option_map seen_end result) }
{
    match first {
        End::Number(_) => match number_like(text) {
            Some(number) => Some(End::Number(number)),
            None => None,
        },
        End::Hour(_) => match hour_of(text.as_bytes()) {
            Some(hour) => Some(End::Hour(hour)),
            None => None,
        },
        End::OnDay(_) => match day_of(text.as_bytes()) {
            Some(day) => Some(End::OnDay(day)),
            None => None,
        },
    }
}

/// The last decimal digit of a number.
fn digit(number: u32) -> u8
    ensures { result ≡ 48 + number % 10 }
{
    b'0' + (number % 10) as u8
}

/// Tells that a text is a whole number in its one spelling.
fn is_number(text: &str, number: &i64) -> bool
    ensures { result ≡ bytes_eq text.now (signed_decimal number.now) }
{
    text == Buffer::new().format(*number)
}

/// Tells that a text is a whole hour, `HHMM`.
#[tactic(auto, unfolding(fd_spelling::specs::Civil::time_text))]
fn is_hour(text: &[u8], hour: u32) -> bool
    ensures { result ≡ bytes_eq text.now (time_text hour 0 0) }
{
    text == [digit(hour / 10), digit(hour), b'0', b'0'].as_slice()
}

/// Tells that a text is a day, `YYYYMMDD`.
#[tactic(auto, unfolding(fd_spelling::specs::Civil::date_text))]
fn is_day(text: &[u8], year: u32, month: u32, day: u32) -> bool
    ensures { result ≡ bytes_eq text.now (date_text year month day) }
{
    let digits = [
        digit(year / 100 / 10),
        digit(year / 100),
        digit(year / 10),
        digit(year),
        digit(month / 10),
        digit(month),
        digit(day / 10),
        digit(day),
    ];
    text == digits.as_slice()
}

/// Tells that a text is an end in its one spelling.
fn is_spelled(text: &str, end: &End) -> bool
    ensures { result ≡ bytes_eq text.now (text_behind (seen_end end.now) 0) }
{
    match end {
        End::Number(number) => is_number(text, number),
        End::Hour(hour) => is_hour(text.as_bytes(), *hour),
        End::OnDay(day) => is_day(
            text.as_bytes(),
            u32::from(day.date.year.unsigned_abs()),
            u32::from(day.date.month),
            u32::from(day.date.day),
        ),
    }
}

impl Range {
    /// Tells that a value stands so far behind the first.
    fn reaches(&self, far: u64) -> bool
        ensures { result ≡ (far % self.now.step == 0) && nat_lt (far / self.now.step) self.now.count }
    {
        let step = u64::from(self.step);
        far % step == 0 && far / step < self.count
    }

    /// Tells that a text is one of the values.
    fn has(&self, text: &str) -> bool
        ensures { IsTrue result ↔ Contains (seen_range self.now) text.now }
    {
        let Some(end) = end_like(&self.first, text) else {
            return false;
        };
        let Some(far) = distance(&self.first, &end) else {
            return false;
        };
        self.reaches(far) && is_spelled(text, &end)
    }
}

impl Values {
    /// Tells that a text is one of the values.
    fn has(&self, text: &str) -> bool
        ensures { IsTrue result ↔ Contains (seen_values self.now) text.now }
    {
        match self {
            Values::Listed(values) => is_one_of(values, text),
            Values::Stepped(range) => range.has(text),
        }
    }
}

impl Keyword {
    /// Tells that a key has the name with one of the values.
    pub(crate) fn admits(&self, key: &Key) -> bool
        ensures { IsTrue result ↔ Admits key.now (seen_keyword self.now) }
    {
        match key.get(self.name.as_str()) {
            Some(text) => self.values.has(text),
            None => false,
        }
    }
}
