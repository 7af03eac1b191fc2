// The values of a restriction.
ghost use Rattle.std.specs.Prelude.{◌≡◌, ℕ, IfOk, IsTrue, option_map, string_bytes};
ghost use Rattle.fd_spelling.specs.{Names.{is_value}, Texts.{texts}};
ghost use Rattle.fd_tokens.specs.Tokens.{view, views};
ghost use Rattle.fd_schema.specs.{Grammar.{absent, begins_value, spelled_in, plain_value, value_of, values_of}, Reading.{Gives, Fails}};

use crate::fault::Wrong;
use crate::place::has_meaning;
use crate::rule::Version;
use fd_bytes::NoMemory;
use fd_spelling::{ascii_text, is_value, is_value_byte, spelled};
use fd_tokens::{Refusal, Token, part_from};
use std::alloc::Global;

/// Where something is wanted, this stands: a byte, or the end of the text, which is a token without bytes.
pub(crate) fn absent(stop: &Token) -> Refusal<Wrong>
    ensures { Fails {Y = ℕ} result (absent (view stop.now)) }
{
    if stop.text.is_empty() {
        Refusal::At(stop.at, Wrong::End)
    } else {
        Refusal::At(stop.at, Wrong::Byte)
    }
}

fn begins_value(text: &[u8]) -> bool
    ensures { result ≡ begins_value text.now }
{
    match text {
        [] => false,
        [b, ..] => is_value_byte(*b),
    }
}

/// A value as it stands, if it is one.
fn plain_value(alloc: Global, text: &[u8]) -> Result<Option<String>, NoMemory>
    ensures { IfOk result (λ o. option_map string_bytes o ≡ plain_value text.now) }
{
    if !is_value(text) {
        return Ok(None);
    }
    Ok(Some(String::from_str(alloc, value_text(text))?))
}

/// A value as a text.
fn value_text(value: &[u8]) -> &str
    requires { IsTrue (is_value value.now) }
    ensures { result.now ≡ value.now }
{
    match ascii_text(value) {
        Some(text) => text,
        None => "",
    }
}

/// A value in a schema of this version.
fn spelled_in(
    alloc: Global,
    version: Version,
    name: &str,
    text: &[u8],
) -> Result<Option<String>, NoMemory>
    ensures { IfOk result (λ o. option_map string_bytes o ≡ spelled_in version name.now text.now) }
{
    if has_meaning(version, name) {
        spelled(alloc, name, text)
    } else {
        plain_value(alloc, text)
    }
}

/// One token, which is a value of the name.
#[tactic(auto, unfolding(crate::specs::Grammar::value_of))]
fn value(
    alloc: Global,
    version: Version,
    name: &str,
    stop: &Token,
    tokens: &[Token],
) -> Result<String, Refusal<Wrong>>
    ensures { Gives string_bytes result (value_of version name.now (view stop.now) (views tokens.now)) }
{
    let [first, others @ ..] = tokens else {
        return Err(absent(stop));
    };
    if !begins_value(first.text) {
        return Err(Refusal::At(first.at, Wrong::Byte));
    }
    let Some(value) = spelled_in(alloc, version, name, first.text)? else {
        return Err(Refusal::At(first.at, Wrong::Value));
    };
    match others {
        [] => Ok(value),
        [next, ..] => Err(Refusal::At(next.at, Wrong::Byte)),
    }
}

/// Values with slashes between them.
pub(crate) fn values<'s, 't>(
    alloc: Global,
    version: Version,
    name: &str,
    stop: &'s Token<'t>,
    tokens: &'s [Token<'t>],
) -> Result<Vec<String>, Refusal<Wrong>>
    ensures { Gives (λ v. texts v.items) result (values_of version name.now (view stop.now) (views tokens.now)) }
{
    let mut values = Vec::new(alloc);
    let mut from = 0;
    'parts: loop {
        let (inside, behind, next) = part_from(b'/', stop, tokens, from);
        match value(alloc, version, name, behind, inside) {
            Ok(value) => values.push(value)?,
            Err(refusal) => return Err(refusal),
        }
        match next {
            None => return Ok(values),
            Some(place) => from = place,
        }
    }
}
