// Rules, from the first token to the last.
ghost use Rattle.std.specs.Prelude.{◌≡◌, ◌≤◌, ◌-◌, length, IfOk};
ghost use Rattle.fd_tokens.specs.Tokens.{view, views};
ghost use Rattle.fd_schema.specs.{Rules.{same_level}, Grammar.{opened, closed, is_required, has_required, rule_of, rules_of}, Seen.{seen_items, seen_rules, seen_rule, seen_want}, Reading.{Gives, seen_wrong}};

use crate::fault::Wrong;
use crate::items::{behind, level_of};
use crate::rule::{Item, Level, Rule, Version, Want};
use fd_tokens::{Refusal, Token, is_token};
use std::alloc::Global;

/// The most rules of a schema.
const RULES: usize = 256;

/// Tells that two levels are one.
pub(crate) fn same_level(a: Level, b: Level) -> bool
    ensures { result ≡ same_level a b }
{
    match (a, b) {
        (Level::Dataset, Level::Dataset) => true,
        (Level::Index, Level::Index) => true,
        (Level::Datum, Level::Datum) => true,
        _ => false,
    }
}

fn is_required(want: &Want) -> bool
    ensures { result ≡ is_required (seen_want want.now) }
{
    match want {
        Want::Optional => false,
        Want::Needed => true,
        Want::OneOf(_) => true,
    }
}

/// Tells that a level has a required name.
fn has_required(level: Level, items: &[Item]) -> bool
    ensures { result ≡ has_required level (seen_items items.now) }
{
    for item in items {
        if same_level(item.level, level) && is_required(&item.want) {
            return true;
        }
    }
    false
}

/// The tokens behind the `[` of a level inside.
fn opened<'s, 't>(end: &Token, tokens: &'s [Token<'t>]) -> Result<&'s [Token<'t>], Refusal<Wrong>>
    ensures { Gives (λ ts. views ts.now) result (opened (view end.now) (views tokens.now)) }
{
    match tokens {
        [] => Err(Refusal::At(end.at, Wrong::End)),
        [first, rest @ ..] => {
            if is_token(b'[', first) {
                Ok(rest)
            } else {
                Err(Refusal::At(first.at, Wrong::Depth))
            }
        }
    }
}

/// The tokens behind the `]` of a level, which has a required name.
fn closed<'s, 't>(
    otherwise: Wrong,
    level: Level,
    items: &[Item],
    end: &Token,
    tokens: &'s [Token<'t>],
) -> Result<&'s [Token<'t>], Refusal<Wrong>>
    ensures { Gives (λ ts. views ts.now) result (closed (seen_wrong otherwise) level (seen_items items.now) (view end.now) (views tokens.now)) }
{
    match tokens {
        [] => Err(Refusal::At(end.at, Wrong::End)),
        [first, rest @ ..] => {
            if !is_token(b']', first) {
                Err(Refusal::At(first.at, otherwise))
            } else if has_required(level, items) {
                Ok(rest)
            } else {
                Err(Refusal::At(first.at, Wrong::NoneRequired))
            }
        }
    }
}

/// A rule behind its first bracket, and the tokens behind it.
#[tactic(auto, unfolding(crate::specs::Grammar::rule_of))]
fn rule_of<'s, 't>(
    alloc: Global,
    version: Version,
    end: &'s Token<'t>,
    tokens: &'s [Token<'t>],
) -> Result<(Rule, &'s [Token<'t>]), Refusal<Wrong>>
    ensures { Gives (λ r. (seen_rule r.0, views r.1.now)) result (rule_of version (view end.now) (views tokens.now)) }
{
    let dataset = level_of(alloc, version, Level::Dataset, Vec::new(alloc), end, tokens)?;
    let second = opened(end, behind(tokens))?;
    let index = level_of(alloc, version, Level::Index, dataset, end, second)?;
    let third = opened(end, behind(second))?;
    let items = level_of(alloc, version, Level::Datum, index, end, third)?;
    let after_datum = closed(Wrong::Depth, Level::Datum, &items, end, behind(third))?;
    let after_index = closed(Wrong::Byte, Level::Index, &items, end, after_datum)?;
    let after_dataset = closed(Wrong::Byte, Level::Dataset, &items, end, after_index)?;
    Ok((Rule { version, items }, after_dataset))
}

/// The rules before, and those that follow.
pub(crate) fn rules_of<'s, 't>(
    alloc: Global,
    version: Version,
    before: Vec<Rule>,
    end: &'s Token<'t>,
    tokens: &'s [Token<'t>],
) -> Result<Vec<Rule>, Refusal<Wrong>>
    requires { length before.items ≤ 256 }
    ensures rules { Gives (λ v. seen_rules v.items) result (rules_of (256 - length before.items) version (view end.now) (seen_rules before.items) (views tokens.now)) }
    ensures few { IfOk result (λ v. length v.items ≤ 256) }
{
    let mut rules = before;
    let [first, behind @ ..] = tokens else {
        return Ok(rules);
    };
    if !is_token(b'[', first) {
        return Err(Refusal::At(first.at, Wrong::Byte));
    }
    if RULES <= rules.len() {
        return Err(Refusal::At(first.at, Wrong::TooMany(257)));
    }
    match rule_of(alloc, version, end, behind) {
        Ok((rule, rest)) => {
            rules.push(rule)?;
            rules_of(alloc, version, rules, end, rest)
        }
        Err(refusal) => Err(refusal),
    }
}
