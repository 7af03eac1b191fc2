// Texts as tokens with their places.
ghost use Rattle.std.specs.Prelude.{◌≡◌, ◌+◌, ◌<◌, ◌≤◌, ◌^◌, ◌++◌, length, drop, IfOk};
ghost use Rattle.fd_tokens.specs.Tokens.{is_blank, is_mark, is_word, word_len, tokens, pieces_of, view, views, is_token};

use crate::token::Token;
use fd_bytes::NoMemory;
use std::alloc::Global;

fn is_blank(b: u8) -> bool
    ensures { result ≡ is_blank b }
{
    b == b' ' || b == b'\t' || b == b'\n'
}

fn is_mark(marks: &[u8], b: u8) -> bool
    ensures { result ≡ is_mark marks.now b }
{
    marks.contains(&b)
}

fn is_word_byte(marks: &[u8], b: u8) -> bool
    ensures { result ≡ is_word marks.now b }
{
    !(is_blank(b) || is_mark(marks, b))
}

/// How many bytes of a word stand at the front.
fn word_end(marks: &[u8], text: &[u8]) -> usize
    ensures value { result ≡ word_len marks.now text.now }
    ensures within { result ≤ length text.now }
{
    for (i, b) in text.iter().enumerate() {
        if !is_word_byte(marks, *b) {
            return i;
        }
    }
    text.len()
}

/// The token at the front, if it is one, and how many bytes to go on by.
fn step<'a>(marks: &[u8], at: usize, rest: &'a [u8]) -> (Option<Token<'a>>, usize)
    requires some { 0 < length rest.now }
    requires fits { at + length rest.now < 2 ^ 63 }
    ensures next { tokens marks.now at rest.now ≡ pieces_of result.0 ++ tokens marks.now (at + result.1) (drop result.1 rest.now) }
    ensures forward { 0 < result.1 }
    ensures within { result.1 ≤ length rest.now }
{
    let first = rest[0];
    if is_word_byte(marks, first) {
        let len = word_end(marks, rest);
        let (text, _) = rest.split_at(len);
        return (Some(Token { at, text }), len);
    }
    if is_blank(first) {
        return (None, 1);
    }
    let (text, _) = rest.split_at(1);
    (Some(Token { at, text }), 1)
}

/// The tokens of a text, from left to right: the marks that are given, and the longest runs of other bytes. Spaces, tabs
/// and line feeds stand between tokens.
pub fn tokens_of<'a>(
    alloc: Global,
    marks: &[u8],
    text: &'a [u8],
) -> Result<Vec<Token<'a>>, NoMemory>
    requires { length text.now < 2 ^ 63 }
    ensures { IfOk result (λ v. views v.items ≡ tokens marks.now 0 text.now) }
{
    let mut found = Vec::new(alloc);
    let mut at = 0;
    let mut rest = text;
    while !rest.is_empty() {
        let (token, len) = step(marks, at, rest);
        if let Some(token) = token {
            found.push(token)?;
        }
        let (_, after) = rest.split_at(len);
        at += len;
        rest = after;
    }
    Ok(found)
}

/// Tells that a token is this mark.
pub fn is_token(mark: u8, token: &Token) -> bool
    ensures { result ≡ is_token mark (view token.now) }
{
    match token.text {
        [b] => *b == mark,
        _ => false,
    }
}
