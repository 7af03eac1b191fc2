// Statistics over time ranges.
ghost use Rattle.std.specs.Prelude.{◌≡◌, ◌≤◌, ◌+◌, ◌++◌, [], if◌then◌else◌, codes, IfOk, OnOk, IsTrue, length, string_bytes};
ghost use Rattle.fd_spelling.specs.{Names.{is_value}, Canonical.{GivesText}, Stats.{part_text, part_spelling, joined_spelling, stat_spelling}};

use crate::fault::ValueFault;
use crate::numerals::{cut, number_up_to};
use crate::pieces::first_piece;
use crate::steps::unsigned_step;
use fd_bytes::NoMemory;
use std::alloc::Global;

/// The text for no statistics.
pub fn none_text(alloc: Global) -> Result<String, NoMemory>
    ensures { IfOk result (λ s. string_bytes s ≡ codes "none") }
{
    Ok(String::from_str(alloc, "none")?)
}

/// A process, and the length of its time range.
pub fn part_text(alloc: Global, process: u8, step: &str) -> Result<String, NoMemory>
    ensures text { IfOk result (λ s. string_bytes s ≡ part_text process step.now) }
    ensures short { IfOk result (λ s. length (string_bytes s) ≤ 4 + length step.now) }
{
    Ok(format!(in alloc; "{process}.{step}")?)
}

/// Appends a part, behind a `+` unless it is the first.
pub fn push_part(out: &mut String, first: bool, part: &str) -> Result<(), NoMemory>
    ensures text { OnOk result (string_bytes out.new ≡ string_bytes out.old ++ ((if first then [] else codes "+") ++ part.now)) }
    ensures short { OnOk result (length (string_bytes out.new) ≤ length (string_bytes out.old) + length part.now + 1) }
{
    if !first {
        out.push('+')?;
    }
    out.push_str(part)?;
    Ok(())
}

/// `p.l` in its one spelling.
#[tactic(auto, unfolding(crate::specs::Stats::part_spelling))]
fn part_spelling(alloc: Global, text: &[u8]) -> Result<String, ValueFault>
    ensures { GivesText result (part_spelling text.now) }
{
    let Some((process, length)) = cut(text, b'.') else {
        return Err(ValueFault::BadValue);
    };
    let Some(process) = number_up_to(process, 255) else {
        return Err(ValueFault::BadValue);
    };
    let length = unsigned_step(alloc, false, length)?;
    Ok(part_text(alloc, process as u8, length.as_str())?)
}

/// Parts with `+` between them, in their one spelling.
#[tactic(auto, unfolding(crate::specs::Stats::joined_spelling))]
fn joined_spelling(alloc: Global, text: &[u8]) -> Result<String, ValueFault>
    ensures { GivesText result (joined_spelling text.now) }
{
    let mut out = String::new(alloc);
    let mut first = true;
    let mut rest = text;
    'parts: loop {
        let (piece, behind) = first_piece(rest, b'+');
        match part_spelling(alloc, piece) {
            Ok(part) => push_part(&mut out, first, part.as_str())?,
            Err(fault) => return Err(fault),
        }
        match behind {
            None => return Ok(out),
            Some(others) => {
                first = false;
                rest = others;
            }
        }
    }
}

/// `none`, or parts with `+` between them, in their one spelling.
#[tactic(auto, unfolding(crate::specs::Stats::stat_spelling))]
pub(crate) fn stat_spelling(alloc: Global, text: &[u8]) -> Result<String, ValueFault>
    requires { length text.now ≤ 255 }
    ensures text { GivesText result (stat_spelling text.now) }
    ensures value { IfOk result (λ s. IsTrue (is_value (string_bytes s))) }
{
    if text == b"none".as_slice() {
        return Ok(none_text(alloc)?);
    }
    joined_spelling(alloc, text)
}
