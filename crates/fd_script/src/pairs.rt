// Texts of datasets, names of lanes and numbers of messages.
ghost use Rattle.std.specs.{Prelude.{◌≡◌, IfOk}, List.{list_all}};
ghost use Rattle.fd_key.specs.Given.{pieces_of};
ghost use Rattle.fd_script.specs.Grammar.{is_spelled, is_dataset, is_lane_byte, is_lane_name, number_of, unless_zero};

use fd_bytes::NoMemory;
use fd_key::{ValueFault, number_up_to, read_pair};
use fd_spelling::comma_piece;
use std::alloc::Global;

/// Tells that a text is `name=value` with the value in its one spelling.
#[tactic(auto, unfolding(crate::specs::Grammar::is_spelled))]
fn is_spelled(alloc: Global, text: &str) -> Result<bool, NoMemory>
    ensures { IfOk result (λ b. b ≡ is_spelled text.now) }
{
    match read_pair(alloc, text) {
        Ok((name, value)) => {
            let mut spelled = name;
            spelled.push('=')?;
            spelled.push_str(value.as_str())?;
            Ok(text == spelled.as_str())
        }
        Err(ValueFault::BadValue) => Ok(false),
        Err(ValueFault::NoMemory) => Err(NoMemory),
    }
}

/// Tells that each piece of a text is a pair in its one spelling.
fn are_spelled(alloc: Global, text: &str) -> Result<bool, NoMemory>
    ensures { IfOk result (λ b. b ≡ list_all is_spelled (pieces_of text.now)) }
{
    let mut rest = Some(text);
    while let Some(text) = rest {
        let (piece, others) = comma_piece(text);
        if !is_spelled(alloc, piece)? {
            return Ok(false);
        }
        rest = others;
    }
    Ok(true)
}

/// Tells that a text is that of a dataset: at most 255 bytes of pairs in their one spelling, joined by commas.
#[tactic(auto, unfolding(crate::specs::Grammar::is_dataset))]
pub fn is_dataset(alloc: Global, text: &str) -> Result<bool, NoMemory>
    ensures { IfOk result (λ b. b ≡ is_dataset text.now) }
{
    if text.len() > 255 {
        return Ok(false);
    }
    are_spelled(alloc, text)
}

fn is_lane_byte(b: u8) -> bool
    ensures { result ≡ is_lane_byte b }
{
    (b'a' <= b && b <= b'z') || (b'0' <= b && b <= b'9')
}

fn are_lane_bytes(name: &[u8]) -> bool
    ensures { result ≡ list_all is_lane_byte name.now }
{
    name.iter().all(|b| is_lane_byte(*b))
}

/// Tells that a text is a lane's name: 1 to 16 letters and digits.
#[tactic(auto, unfolding(crate::specs::Grammar::is_lane_name))]
pub(crate) fn is_lane_name(name: &[u8]) -> bool
    ensures { result ≡ is_lane_name name.now }
{
    0 < name.len() && name.len() <= 16 && are_lane_bytes(name)
}

/// A number that isn't 0.
fn unless_zero(number: Option<u32>) -> Option<u32>
    ensures { result ≡ unless_zero number }
{
    match number {
        None => None,
        Some(0) => None,
        Some(number) => Some(number),
    }
}

/// The number that 1 to 9 digits write, unless it is 0.
#[tactic(auto, unfolding(crate::specs::Grammar::number_of))]
pub(crate) fn number_of(text: &[u8]) -> Option<u32>
    ensures { result ≡ number_of text.now }
{
    if text.len() > 9 {
        return None;
    }
    unless_zero(number_up_to(text, 999_999_999))
}
