// The items of a level.
ghost use Rattle.std.specs.Prelude.{◌≡◌, ◌≤◌, length, string_bytes};
ghost use Rattle.fd_tokens.specs.Tokens.{view, views};
ghost use Rattle.fd_schema.specs.{Rules.{has_name}, Grammar.{name_of, want_of, item_of, items_of, level_of, is_bracket, bracket_place, behind, front}, Seen.{seen_items, seen_item, seen_want}, Reading.{Gives}};

use crate::fault::Wrong;
use crate::rule::{Item, Level, Version, Want};
use crate::values::{absent, values};
use fd_spelling::{is_name, name_end, name_text};
use fd_tokens::{Refusal, Token, is_token, part_from};
use std::alloc::Global;

/// The most names of a rule.
const NAMES: usize = 32;

/// Tells that a rule has the name.
pub(crate) fn has_name(items: &[Item], name: &str) -> bool
    ensures { result ≡ has_name (seen_items items.now) name.now }
{
    for item in items {
        if item.name.as_str() == name {
            return true;
        }
    }
    false
}

/// The name that a token is, in a rule that has these items before it.
#[tactic(auto, unfolding(crate::specs::Grammar::name_of))]
fn name_of(alloc: Global, before: &[Item], token: &Token) -> Result<String, Refusal<Wrong>>
    ensures { Gives string_bytes result (name_of (seen_items before.now) (view token.now)) }
{
    let end = name_end(token.text);
    let (front, _) = token.text.split_at(end);
    if end == 0 {
        return Err(Refusal::At(token.at, Wrong::Byte));
    }
    if !is_name(front) {
        return Err(Refusal::At(token.at, Wrong::Name));
    }
    let name = String::from_str(alloc, name_text(front))?;
    if has_name(before, name.as_str()) {
        return Err(Refusal::At(token.at, Wrong::Twice(name)));
    }
    if NAMES <= before.len() {
        return Err(Refusal::At(token.at, Wrong::TooMany(33)));
    }
    if end < token.text.len() {
        return Err(Refusal::At(token.at + end, Wrong::Byte));
    }
    Ok(name)
}

/// What stands behind a name.
#[tactic(auto, unfolding(crate::specs::Grammar::want_of))]
fn want_of(
    alloc: Global,
    version: Version,
    name: &str,
    stop: &Token,
    tokens: &[Token],
) -> Result<Want, Refusal<Wrong>>
    ensures { Gives seen_want result (want_of version name.now (view stop.now) (views tokens.now)) }
{
    let [first, others @ ..] = tokens else {
        return Ok(Want::Needed);
    };
    if is_token(b'?', first) {
        return match others {
            [] => Ok(Want::Optional),
            [next, ..] => Err(Refusal::At(next.at, Wrong::Byte)),
        };
    }
    if !is_token(b'=', first) {
        return Err(Refusal::At(first.at, Wrong::Byte));
    }
    Ok(Want::OneOf(values(alloc, version, name, stop, others)?))
}

/// An item of a level, in a rule that has these items before it.
#[tactic(auto, unfolding(crate::specs::Grammar::item_of))]
fn item_of(
    alloc: Global,
    version: Version,
    level: Level,
    before: &[Item],
    stop: &Token,
    tokens: &[Token],
) -> Result<Item, Refusal<Wrong>>
    ensures { Gives seen_item result (item_of version level (seen_items before.now) (view stop.now) (views tokens.now)) }
{
    let [first, others @ ..] = tokens else {
        return Err(absent(stop));
    };
    let name = name_of(alloc, before, first)?;
    let want = want_of(alloc, version, name.as_str(), stop, others)?;
    Ok(Item { level, name, want })
}

/// The items of a rule, and those of a level with commas between them.
fn items_of<'s, 't>(
    alloc: Global,
    version: Version,
    level: Level,
    before: Vec<Item>,
    stop: &'s Token<'t>,
    tokens: &'s [Token<'t>],
) -> Result<Vec<Item>, Refusal<Wrong>>
    ensures { Gives (λ v. seen_items v.items) result (items_of version level (seen_items before.items) (view stop.now) (views tokens.now)) }
{
    let mut items = before;
    let mut from = 0;
    'parts: loop {
        let (inside, behind, next) = part_from(b',', stop, tokens, from);
        match item_of(alloc, version, level, &items, behind, inside) {
            Ok(item) => items.push(item)?,
            Err(refusal) => return Err(refusal),
        }
        match next {
            None => return Ok(items),
            Some(place) => from = place,
        }
    }
}

fn is_bracket(token: &Token) -> bool
    ensures { result ≡ is_bracket (view token.now) }
{
    is_token(b'[', token) || is_token(b']', token)
}

/// How many tokens stand before the first bracket.
fn bracket_place(tokens: &[Token]) -> usize
    ensures value { result ≡ bracket_place (views tokens.now) }
    ensures within { result ≤ length tokens.now }
{
    for (i, token) in tokens.iter().enumerate() {
        if is_bracket(token) {
            return i;
        }
    }
    tokens.len()
}

/// The tokens from the first bracket on.
pub(crate) fn behind<'s, 't>(tokens: &'s [Token<'t>]) -> &'s [Token<'t>]
    ensures { views result.now ≡ behind (views tokens.now) }
{
    let (_, behind) = tokens.split_at(bracket_place(tokens));
    behind
}

/// The first token, or the end.
fn front<'s, 't>(tokens: &'s [Token<'t>], end: &'s Token<'t>) -> &'s Token<'t>
    ensures { view result.now ≡ front (views tokens.now) (view end.now) }
{
    match tokens {
        [] => end,
        [first, ..] => first,
    }
}

/// The items of a rule, and those of a level up to a bracket. A level of no items closes at once.
#[tactic(auto, unfolding(crate::specs::Grammar::level_of))]
pub(crate) fn level_of<'s, 't>(
    alloc: Global,
    version: Version,
    level: Level,
    before: Vec<Item>,
    end: &'s Token<'t>,
    tokens: &'s [Token<'t>],
) -> Result<Vec<Item>, Refusal<Wrong>>
    ensures { Gives (λ v. seen_items v.items) result (level_of version level (seen_items before.items) (view end.now) (views tokens.now)) }
{
    let (inside, behind) = tokens.split_at(bracket_place(tokens));
    let stop = front(behind, end);
    if inside.is_empty() && is_token(b']', stop) {
        return Ok(before);
    }
    items_of(alloc, version, level, before, stop, inside)
}
