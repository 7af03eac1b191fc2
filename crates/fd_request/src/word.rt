// Values as they are written.
ghost use Rattle.std.specs.{Prelude.{◌≡◌, ◌<◌, length, IfOk, option_map}, List.{list_any}};
ghost use Rattle.fd_tokens.specs.Tokens.{view, views};
ghost use Rattle.fd_request.specs.{Ranges.{is_to, is_by}, Grammar.{front_place, first_place, past, led, begins, word_of, words_of, is_range_word, behind_words}, Seen.{seen_word, seen_words}};

use fd_bytes::NoMemory;
use fd_tokens::{Token, part_from};
use std::alloc::Global;

/// What stands up to a blank, a comma, a slash or the end.
#[derive(Clone, Copy, Debug)]
pub(crate) struct Word<'a> {
    /// The place of its first byte, or of what stands there instead.
    pub(crate) at: usize,
    /// Its bytes.
    pub(crate) text: &'a [u8],
    /// The place of the token behind it, if there is one before the next mark.
    pub(crate) behind: Option<usize>,
}

/// The place of the first token, or of what stands behind.
fn front_place(stop: &Token, tokens: &[Token]) -> usize
    ensures { result ≡ front_place (view stop.now) (views tokens.now) }
{
    match tokens {
        [] => stop.at,
        [first, ..] => first.at,
    }
}

/// The place of what is left of a token, or of the first token behind it, or of what stands behind these.
pub(crate) fn led_place(stop: &Token, rest: Option<Token>, tokens: &[Token]) -> usize
    ensures { result ≡ front_place (view stop.now) (led (option_map view rest.entry) (views tokens.now)) }
{
    match rest {
        Some(token) => token.at,
        None => front_place(stop, tokens),
    }
}

/// The place of the first token, if there is one.
pub(crate) fn first_place(tokens: &[Token]) -> Option<usize>
    ensures { result ≡ first_place (views tokens.now) }
{
    match tokens {
        [] => None,
        [first, ..] => Some(first.at),
    }
}

/// What is left of a token behind so many of its bytes, if anything is.
pub(crate) fn past<'t>(len: usize, token: &Token<'t>) -> Option<Token<'t>>
    ensures { option_map view result ≡ past len (view token.now) }
{
    if len < token.text.len() {
        let (_, text) = token.text.split_at(len);
        Some(Token {
            at: token.at + len,
            text,
        })
    } else {
        None
    }
}

/// Tells that a text begins with a byte.
pub(crate) fn begins(byte: u8, text: &[u8]) -> bool
    ensures { result ≡ begins byte text.now }
{
    match text {
        [] => false,
        [first, ..] => *first == byte,
    }
}

/// The word that these tokens are.
fn word_in<'t>(stop: &Token, tokens: &[Token<'t>]) -> Word<'t>
    ensures { seen_word result ≡ word_of (view stop.now) (views tokens.now) }
{
    match tokens {
        [] => Word {
            at: stop.at,
            text: b"",
            behind: None,
        },
        [first, others @ ..] => Word {
            at: first.at,
            text: first.text,
            behind: first_place(others),
        },
    }
}

/// The word that what is left of a token and the tokens behind it are.
fn word_of<'t>(stop: &Token, rest: Option<Token<'t>>, tokens: &[Token<'t>]) -> Word<'t>
    ensures { seen_word result ≡ word_of (view stop.now) (led (option_map view rest.entry) (views tokens.now)) }
{
    match rest {
        Some(token) => Word {
            at: token.at,
            text: token.text,
            behind: first_place(tokens),
        },
        None => word_in(stop, tokens),
    }
}

/// The words between slashes, up to the first one that has something else behind it.
pub(crate) fn words_of<'s, 't>(
    alloc: Global,
    stop: &'s Token<'t>,
    rest: Option<Token<'t>>,
    tokens: &'s [Token<'t>],
) -> Result<Vec<Word<'t>>, NoMemory>
    ensures words { IfOk result (λ v. seen_words v.items ≡ words_of (view stop.now) (option_map view rest.entry) (views tokens.now)) }
    ensures some { IfOk result (λ v. 0 < length v.items) }
{
    let mut words = Vec::new(alloc);
    let mut left = rest;
    let mut from = 0;
    'parts: loop {
        let (inside, behind, next) = part_from(b'/', stop, tokens, from);
        let word = word_of(behind, left, inside);
        let is_last = word.behind.is_some();
        words.push(word)?;
        if is_last {
            return Ok(words);
        }
        match next {
            None => return Ok(words),
            Some(place) => {
                left = None;
                from = place;
            }
        }
    }
}

pub(crate) fn is_to(text: &[u8]) -> bool
    ensures { result ≡ is_to text.now }
{
    text == b"to".as_slice()
}

pub(crate) fn is_by(text: &[u8]) -> bool
    ensures { result ≡ is_by text.now }
{
    text == b"by".as_slice()
}

/// Tells that a word belongs to a range.
pub(crate) fn has_range_word(words: &[Word]) -> bool
    ensures { result ≡ list_any (λ w. is_range_word w.text) (seen_words words.now) }
{
    for word in words {
        if is_to(word.text) || is_by(word.text) {
            return true;
        }
    }
    false
}

/// The first place behind a word where something else stands.
pub(crate) fn behind_words(words: &[Word]) -> Option<usize>
    ensures { result ≡ behind_words (seen_words words.now) }
{
    for word in words {
        if word.behind.is_some() {
            return word.behind;
        }
    }
    None
}
