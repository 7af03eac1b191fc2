// Numbers as decimal digits, and texts cut at a byte.
ghost use Rattle.std.specs.{Prelude.{◌≡◌, ◌≤◌, ◌<◌, ◌^◌, ◌==◌, true, IfSome, Some, None, length, option_map, nat_le, if◌then◌else◌}, List.{position_or_len, list_all}, Char.{is_ascii_digit, digit_value}, Str.Parse.{digits_value}};
ghost use Rattle.fd_spelling.specs.Numerals.{is_numeral, number_up_to, digit_count, cut};

/// The place of the first such byte, or the length.
fn place_of(text: &[u8], mark: u8) -> usize
    ensures { result ≡ position_or_len (λ b. b == mark) text.now }
{
    for (i, b) in text.iter().enumerate() {
        if *b == mark {
            return i;
        }
    }
    text.len()
}

/// How many digits the text begins with.
pub(crate) fn digit_count(text: &[u8]) -> usize
    ensures { result ≡ digit_count text.now }
{
    for (i, b) in text.iter().enumerate() {
        if !b.is_ascii_digit() {
            return i;
        }
    }
    text.len()
}

/// What stands before the first such byte and what stands behind it.
#[tactic(auto, unfolding(crate::specs::Numerals::cut))]
pub fn cut(text: &[u8], mark: u8) -> Option<(&[u8], &[u8])>
    ensures { option_map (λ x. (x.0.now, x.1.now)) result ≡ cut mark text.now }
{
    let at = place_of(text, mark);
    if at < text.len() {
        let (front, back) = text.split_at(at);
        let (_, behind) = back.split_at(1);
        Some((front, behind))
    } else {
        None
    }
}

/// The number of a digit.
fn digit(b: u8) -> u64
    requires { is_ascii_digit b ≡ true }
    ensures value { result ≡ digit_value b }
    ensures fits { result < 10 }
{
    u64::from(b - b'0')
}

/// The number that at most 15 digits write.
pub fn number_of(digits: &[u8]) -> u64
    requires few { length digits.now ≤ 15 }
    requires digits { list_all is_ascii_digit digits.now ≡ true }
    ensures value { result ≡ digits_value 10 digits.now }
    ensures fits { result < 10 ^ 15 }
{
    let mut number = 0;
    for b in digits {
        number = number * 10 + digit(*b);
    }
    number
}

/// Tells that all bytes are digits.
fn are_digits(text: &[u8]) -> bool
    ensures { result ≡ list_all is_ascii_digit text.now }
{
    text.iter().all(|b| b.is_ascii_digit())
}

/// Tells that the text is one digit or more.
pub fn is_numeral(text: &[u8]) -> bool
    ensures { result ≡ is_numeral text.now }
{
    0 < text.len() && are_digits(text)
}

/// The number that digits write, where it is at most this one.
fn number_within(digits: &[u8], most: u32) -> Option<u32>
    requires { list_all is_ascii_digit digits.now ≡ true }
    ensures number { result ≡ (if nat_le (digits_value 10 digits.now) most then Some (digits_value 10 digits.now) else None) }
    ensures within { IfSome result (λ n. n ≤ most) }
{
    let mut number = 0u64;
    for b in digits {
        number = number * 10 + digit(*b);
        if number > u64::from(most) {
            return None;
        }
    }
    Some(number as u32)
}

/// The number that decimal digits write, where it is at most this one.
#[tactic(auto, unfolding(crate::specs::Numerals::number_up_to))]
pub fn number_up_to(text: &[u8], most: u32) -> Option<u32>
    ensures number { result ≡ number_up_to most text.now }
    ensures within { IfSome result (λ n. n ≤ most) }
{
    if is_numeral(text) {
        number_within(text, most)
    } else {
        None
    }
}
