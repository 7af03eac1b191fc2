// Numbers in the words of the command line.
ghost use Rattle.std.specs.Prelude.{◌≡◌, ◌≤◌, ◌<◌, IfSome};
ghost use Rattle.fd_words.specs.Numbers.{count_number, number_of, decimals_number, worker_number};

use fd_key::{is_numeral, number_of};

/// The number that one to nine digits write.
fn short_number(text: &[u8]) -> Option<u64>
    ensures { result ≡ number_of text.now }
{
    if !is_numeral(text) {
        return None;
    }
    if text.len() > 9 {
        return None;
    }
    Some(number_of(text))
}

/// The number of decimals that a text writes, which is at most 30.
pub(crate) fn decimals_number(text: &[u8]) -> Option<Option<u8>>
    ensures number { result ≡ decimals_number text.now }
    ensures few { IfSome result (λ o. IfSome o (λ d. d ≤ 30)) }
{
    let Some(number) = short_number(text) else {
        return None;
    };
    if number <= 30 {
        Some(Some(number as u8))
    } else {
        None
    }
}

/// The number of messages that a text writes, which is 1 to 100,000.
pub(crate) fn count_number(text: &[u8]) -> Option<u32>
    ensures number { result ≡ count_number text.now }
    ensures few { IfSome result (λ n. (0 < n) × (n ≤ 100000)) }
{
    match short_number(text) {
        Some(number @ 1..=100_000) => Some(number as u32),
        _ => None,
    }
}

/// The number of workers that a text writes, which is 1 to 8.
pub(crate) fn worker_number(text: &[u8]) -> Option<u32>
    ensures number { result ≡ worker_number text.now }
    ensures few { IfSome result (λ n. (1 ≤ n) × (n ≤ 8)) }
{
    match short_number(text) {
        Some(number @ 1..=8) => Some(number as u32),
        _ => None,
    }
}
