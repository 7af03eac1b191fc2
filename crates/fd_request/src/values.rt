// The values of a keyword.
ghost use Rattle.std.specs.Prelude.{◌≡◌, ◌<◌, ◌+◌, ◌/◌, IfOk, Some, option_map, length, max, slice_get, string_bytes};
ghost use Rattle.fd_request.specs.{Ranges.{between, range_of, values_from}, Grammar.{word_texts}, Limits.{longest_text}, Seen.{seen_words, seen_end, Fits}, Values.{seen_range, seen_text, seen_values}};
ghost use Rattle.fd_spelling.specs.Texts.{texts};

use crate::end::{End, distance, end_of, step_of, text_behind};
use crate::range::Range;
use crate::word::{Word, is_by, is_to};
use fd_bytes::NoMemory;
use std::alloc::Global;

/// The values of a keyword, in their order.
#[derive(Debug, Drop)]
pub(crate) enum Values {
    /// Each of them.
    Listed(Vec<String>),
    /// Those of a range.
    Stepped(Range),
}

/// The text of a value: lent where the value is listed, so that no memory is asked for, and made where it is one of a range.
#[derive(Debug, Drop)]
pub(crate) enum ValueText<'a> {
    /// One that is listed.
    Listed(&'a str),
    /// One of a range.
    Made(String),
}

impl ValueText<'_> {
    /// The text.
    pub(crate) fn as_str(&self) -> &str
        ensures { result.now ≡ seen_text self.now }
    {
        match self {
            ValueText::Listed(text) => *text,
            ValueText::Made(text) => text.as_str(),
        }
    }
}

/// The values from one end on, by steps, up to the other, where both are ends of the name.
#[tactic(auto, unfolding(crate::specs::Ranges::between))]
fn between(
    alloc: Global,
    name: &str,
    a: &[u8],
    b: &[u8],
    c: &[u8],
) -> Result<Option<Range>, NoMemory>
    ensures { IfOk result (λ o. option_map seen_range o ≡ between name.now a.now b.now c.now) }
{
    let Some(first) = end_of(alloc, name, a)? else {
        return Ok(None);
    };
    let Some(last) = end_of(alloc, name, b)? else {
        return Ok(None);
    };
    let Some(step) = step_of(c) else {
        return Ok(None);
    };
    let Some(far) = distance(&first, &last) else {
        return Ok(None);
    };
    Ok(Some(stepped(first, step, far)))
}

/// The range from an end on, by steps, over this distance.
fn stepped(first: End, step: u32, far: u64) -> Range
    requires step { 0 < step }
    requires fits { Fits (seen_end first) far }
    ensures { seen_range result ≡ values_from (seen_end first) step 0 (far / step + 1) }
{
    Range {
        first,
        step,
        count: far / u64::from(step) + 1,
    }
}

/// The values of a range `a/to/b` or `a/to/b/by/c` of a name.
#[tactic(auto, unfolding(crate::specs::Ranges::range_of))]
pub(crate) fn range_of(alloc: Global, name: &str, words: &[Word]) -> Result<Option<Range>, NoMemory>
    ensures { IfOk result (λ o. option_map seen_range o ≡ range_of name.now (word_texts (seen_words words.now))) }
{
    match words {
        [a, to, b] => {
            if is_to(to.text) {
                between(alloc, name, a.text, b.text, b"1")
            } else {
                Ok(None)
            }
        }
        [a, to, b, by, c] => {
            if is_to(to.text) && is_by(by.text) {
                between(alloc, name, a.text, b.text, c.text)
            } else {
                Ok(None)
            }
        }
        _ => Ok(None),
    }
}

impl Range {
    /// The value at a place, from 0.
    fn text(&self, alloc: Global, i: u64) -> Result<String, NoMemory>
        requires { i < length (seen_range self.now) }
        ensures { IfOk result (λ s. slice_get (seen_range self.now) i ≡ Some (string_bytes s)) }
    {
        text_behind(alloc, &self.first, i * u64::from(self.step))
    }

    /// How long the longest value is, which is the first or the last.
    fn longest(&self, alloc: Global) -> Result<usize, NoMemory>
        ensures { IfOk result (λ n. n ≡ longest_text (seen_range self.now)) }
    {
        let first = self.text(alloc, 0)?;
        let last = self.text(alloc, self.count - 1)?;
        Ok(larger(first.len(), last.len()))
    }
}

impl Values {
    /// The number of values.
    pub(crate) fn count(&self) -> u64
        ensures { result ≡ length (seen_values self.now) }
    {
        match self {
            Values::Listed(texts) => texts.len() as u64,
            Values::Stepped(range) => range.count,
        }
    }

    /// The value at a place, from 0.
    pub(crate) fn text(&self, alloc: Global, i: u64) -> Result<ValueText<'_>, NoMemory>
        requires { i < length (seen_values self.now) }
        ensures { IfOk result (λ t. slice_get (seen_values self.now) i ≡ Some (seen_text t)) }
    {
        match self {
            Values::Listed(texts) => Ok(ValueText::Listed(texts[i as usize].as_str())),
            Values::Stepped(range) => Ok(ValueText::Made(range.text(alloc, i)?)),
        }
    }

    /// How long the longest value is.
    pub(crate) fn longest(&self, alloc: Global) -> Result<usize, NoMemory>
        ensures { IfOk result (λ n. n ≡ longest_text (seen_values self.now)) }
    {
        match self {
            Values::Listed(texts) => Ok(longest_of(texts)),
            Values::Stepped(range) => range.longest(alloc),
        }
    }
}

/// How long the longest of these texts is.
fn longest_of(values: &[String]) -> usize
    ensures { result ≡ longest_text (texts values.now) }
{
    let mut longest = 0;
    for text in values {
        longest = larger(longest, text.len());
    }
    longest
}

fn larger(a: usize, b: usize) -> usize
    ensures { result ≡ max a b }
{
    if a < b { b } else { a }
}
