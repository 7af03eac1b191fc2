// The limits of requests.
ghost use Rattle.std.specs.Prelude.{◌≡◌, ◌≤◌, Some, None, IfOk, IfErr, length};
ghost use Rattle.fd_request.specs.{Expansion.{expand}, Limits.{too_many, longest_text, longest_key, within_limits}, Keywords.{seen_keywords}, Values.{seen_values}, Reading.{Gives}};

use crate::fault::RequestKind;
use crate::keyword::Keyword;
use fd_bytes::NoMemory;
use fd_tokens::Refusal;
use std::alloc::Global;

/// The most keys of a request.
const KEYS: u128 = 262_144;

/// The most bytes of a key's text.
const KEY_BYTES: u32 = 255;

/// The product of the counts of values, or the first that passes the most keys.
fn product_of(keywords: &[Keyword]) -> Result<u32, u128>
    ensures few { IfOk result (λ n. too_many 1 (seen_keywords keywords.now) ≡ None) }
    ensures number { IfOk result (λ n. n ≡ length (expand (seen_keywords keywords.now))) }
    ensures many { IfErr result (λ n. too_many 1 (seen_keywords keywords.now) ≡ Some n) }
{
    let mut product = 1u128;
    for keyword in keywords {
        product *= u128::from(keyword.values.count());
        if KEYS < product {
            return Err(product);
        }
    }
    Ok(product as u32)
}

/// How long the longest key is.
fn longest_key(alloc: Global, keywords: &[Keyword]) -> Result<u32, NoMemory>
    requires { length keywords.now ≤ 65537 }
    ensures { IfOk result (λ n. n ≡ longest_key (expand (seen_keywords keywords.now))) }
{
    let mut total = 0u32;
    for keyword in keywords {
        let longest = keyword.longest(alloc)?;
        total += keyword.name.len() as u32 + longest + 2;
    }
    Ok(total.saturating_sub(1))
}

impl Keyword {
    /// How long its longest value is.
    fn longest(&self, alloc: Global) -> Result<u32, NoMemory>
        ensures length { IfOk result (λ n. n ≡ longest_text (seen_values self.now.values)) }
        ensures few { IfOk result (λ n. n ≤ 255) }
    {
        let longest = self.values.longest(alloc)?;
        Ok(longest as u32)
    }
}

/// The number of keys, where there aren't too many and none is too long.
#[tactic(auto, unfolding(crate::specs::Limits::within_limits))]
pub(crate) fn count_of(
    alloc: Global,
    end: usize,
    keywords: &[Keyword],
) -> Result<u32, Refusal<RequestKind>>
    requires { length keywords.now ≤ 65537 }
    ensures gives { Gives (λ n. seen_keywords keywords.now) result (within_limits end (seen_keywords keywords.now)) }
    ensures number { IfOk result (λ n. n ≡ length (expand (seen_keywords keywords.now))) }
{
    let count = match product_of(keywords) {
        Ok(count) => count,
        Err(count) => return Err(Refusal::At(end, RequestKind::TooMany { count })),
    };
    let len = longest_key(alloc, keywords)?;
    if KEY_BYTES < len {
        return Err(Refusal::At(end, RequestKind::KeyTooLong { len }));
    }
    Ok(count)
}
