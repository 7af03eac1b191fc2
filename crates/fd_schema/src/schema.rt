ghost use Rattle.std.specs.Prelude.{◌≡◌, ◌≤◌, ◌==◌, List, IfOk, Ok, Some, length, take, drop, count_by, slice_index, string_bytes, is_some};
ghost use Rattle.fd_key.specs.Pairs.{key_text};
ghost use Rattle.fd_schema.specs.{Rules.{IsShort, Texts, place_from}, Grammar.{marks, written, version_behind, version_of, rules_in, schema_of}, Seen.{seen_rules}, Printed.{schema_text}, Reading.{Gives, GivesSchema, GivesPlace, Names, line_of, seen_place, seen_wrong}};
ghost use Rattle.fd_tokens.specs.Tokens.{view, views};

use crate::fault::{PlaceFault, SchemaFault, SchemaKind, Wrong};
use crate::grammar::rules_of;
use crate::place::{Place, has_place, place_of};
use crate::plain::plain;
use crate::printed::text_of;
use crate::rule::{Rule, Version};
use fd_bytes::NoMemory;
use fd_key::Key;
use fd_tokens::{Refusal, Token, tokens_of};
use std::alloc::Global;
use std::marker::Model;

/// The most bytes of a schema.
const BYTES: usize = 65_536;

/// The marks of schemas.
fn marks() -> &'static [u8]
    ensures { result.now ≡ marks }
{
    b"[],/=?"
}

/// Rules, each of three levels.
#[derive(Debug, Drop)]
pub struct Schema {
    rules: Vec<Rule>,
}

impl Model for Schema {
    ghost use Rattle.std.specs.Prelude.{List, ◌≤◌, length};
    ghost use Rattle.fd_schema.specs.Rules as rules_seen;
    ghost use Rattle.fd_schema.specs.{Grammar.{IsSchema}, Seen.{seen_rules}};

    ghost Value = { List rules_seen.Rule };

    ghost view = { λ s. seen_rules s.rules.items };

    ghost invariant = { λ s. (length s.rules.items ≤ 256) × IsSchema (seen_rules s.rules.items) };
}

/// What stands before a place, and from it on.
fn cut_at(text: &[u8], at: usize) -> (&[u8], &[u8])
    ensures before { result.0.now ≡ take at text.now }
    ensures behind { result.1.now ≡ drop at text.now }
{
    if at < text.len() {
        text.split_at(at)
    } else {
        (text, b"".as_slice())
    }
}

fn line_feeds(text: &[u8]) -> usize
    ensures number { result ≡ count_by (λ b. b == 10) text.now }
    ensures within { result ≤ length text.now }
{
    text.iter().filter(|b| **b == b'\n').count()
}

/// The line of a place, from 1.
fn line_of(text: &[u8], at: usize) -> u32
    requires { length text.now ≤ 65536 }
    ensures { result ≡ line_of text.now at }
{
    let (before, _) = cut_at(text, at);
    1 + line_feeds(before) as u32
}

/// The byte at a place, or 0.
fn byte_at(text: &[u8], at: usize) -> u8
    ensures { result ≡ slice_index text.now at }
{
    if at < text.len() { text[at] } else { 0 }
}

/// The kind that is named for what is wrong where this byte stands.
fn kind_of(wrong: Wrong, byte: u8) -> SchemaKind
    ensures { Names result byte (seen_wrong wrong) }
{
    match wrong {
        Wrong::Byte => SchemaKind::Byte(byte),
        Wrong::Name => SchemaKind::Name,
        Wrong::Value => SchemaKind::Value,
        Wrong::Twice(name) => SchemaKind::Twice(name),
        Wrong::Depth => SchemaKind::Depth,
        Wrong::NoneRequired => SchemaKind::Level,
        Wrong::TooMany(count) => SchemaKind::TooMany { count },
        Wrong::OtherVersion => SchemaKind::Version,
        Wrong::End => SchemaKind::End,
        Wrong::Empty => SchemaKind::Empty,
    }
}

/// A token as it is written in the text.
fn written<'a>(text: &'a [u8], token: &Token) -> &'a [u8]
    ensures { result.now ≡ written text.now (view token.now) }
{
    let (_, behind) = cut_at(text, token.at);
    let (written, _) = cut_at(behind, token.text.len());
    written
}

/// The version behind the word `version`, which stands at this place, and the tokens behind it.
fn version_behind<'s, 't>(
    at: usize,
    tokens: &'s [Token<'t>],
) -> Result<(Version, &'s [Token<'t>]), Refusal<Wrong>>
    ensures { Gives (λ v. (v.0, views v.1.now)) result (version_behind at (views tokens.now)) }
{
    match tokens {
        [] => Err(Refusal::At(at, Wrong::OtherVersion)),
        [first, rest @ ..] => {
            if first.text == b"2".as_slice() {
                Ok((Version::Two, rest))
            } else {
                Err(Refusal::At(first.at, Wrong::OtherVersion))
            }
        }
    }
}

/// The version of a text with these tokens, and the tokens of its rules.
#[tactic(auto, unfolding(crate::specs::Grammar::version_of))]
fn version_of<'s, 't>(
    text: &[u8],
    tokens: &'s [Token<'t>],
) -> Result<(Version, &'s [Token<'t>]), Refusal<Wrong>>
    ensures { Gives (λ v. (v.0, views v.1.now)) result (version_of text.now (views tokens.now)) }
{
    match tokens {
        [] => Ok((Version::One, tokens)),
        [first, rest @ ..] => {
            if written(text, first) == b"version".as_slice() {
                version_behind(first.at, rest)
            } else {
                Ok((Version::One, tokens))
            }
        }
    }
}

/// The rules of a text that isn't too long, which may be none, or the first place that is wrong.
#[tactic(auto, unfolding(crate::specs::Grammar::rules_in))]
fn rules_in(alloc: Global, text: &[u8]) -> Result<Vec<Rule>, Refusal<Wrong>>
    ensures rules { Gives (λ v. seen_rules v.items) result (rules_in text.now) }
    ensures few { IfOk result (λ v. length v.items ≤ 256) }
{
    let shown = plain(alloc, text)?;
    let tokens = tokens_of(alloc, marks(), &shown)?;
    let end = Token {
        at: text.len(),
        text: b"",
    };
    match version_of(text, &tokens) {
        Ok((version, others)) => rules_of(alloc, version, Vec::new(alloc), &end, others),
        Err(refusal) => Err(refusal),
    }
}

/// The rules of a text that isn't too long, or the first place that is wrong.
#[tactic(auto, unfolding(crate::specs::Grammar::schema_of))]
fn some_rules(alloc: Global, text: &[u8]) -> Result<Vec<Rule>, Refusal<Wrong>>
    requires { length text.now ≤ 65536 }
    ensures rules { Gives (λ v. seen_rules v.items) result (schema_of text.now) }
    ensures few { IfOk result (λ v. length v.items ≤ 256) }
{
    let rules = rules_in(alloc, text)?;
    if rules.is_empty() {
        return Err(Refusal::At(text.len(), Wrong::Empty));
    }
    Ok(rules)
}

impl Schema {
    /// Reads a schema: `version 2` or nothing, and rules `[ items [ items [ items ]]]`, the items of a level joined by commas. An item is a name, or
    /// `name?` where a key needn't have it, or `name=v/w` where its value is one of these. `#` begins a comment to the end
    /// of its line. Spaces, tabs and line feeds stand anywhere between names, values and marks.
    ///
    /// In version 2 `number` and `stat` have a meaning, in version 1, which is that of a text without `version 2`, no rule admits
    /// a key with either.
    ///
    /// The answer `At` names the first place that is wrong, by its line.
    pub fn read(alloc: Global, text: &[u8]) -> Result<Schema, SchemaFault>
        ensures { GivesSchema text.now result }
    {
        if BYTES < text.len() {
            return Err(SchemaFault::At {
                line: 1,
                kind: SchemaKind::TooLong,
            });
        }
        match some_rules(alloc, text) {
            Ok(rules) => Ok(Schema { rules }),
            Err(Refusal::At(at, wrong)) => Err(SchemaFault::At {
                line: line_of(text, at),
                kind: kind_of(wrong, byte_at(text, at)),
            }),
            Err(Refusal::NoMemory) => Err(SchemaFault::NoMemory),
        }
    }

    /// The place of a key: the first rule that admits it, and the texts of the rule's levels. A rule admits a key that has
    /// all its required names, none that the rule hasn't, and for each restricted name one of its values. `NoRule` exactly
    /// where no rule admits the key. A key of at most 255 bytes has a place whose texts are short.
    pub fn place(&self, alloc: Global, key: &Key) -> Result<Place, PlaceFault>
        ensures place { GivesPlace result (place_from 0 self.now key.now) }
        ensures short { IfOk result (λ p. length (key_text key.now) ≤ 255 → IsShort (seen_place p)) }
    {
        place_of(alloc, &self.rules, key)
    }

    /// The place of a key that has one.
    pub fn certain_place(&self, alloc: Global, key: &Key) -> Result<Place, NoMemory>
        requires { (t : Texts) × (place_from 0 self.now key.now ≡ Some t) }
        ensures { IfOk result (λ p. place_from 0 self.now key.now ≡ Some (seen_place p)) }
    {
        match self.place(alloc, key) {
            Ok(place) => Ok(place),
            Err(PlaceFault::NoRule) => unreachable!(),
            Err(PlaceFault::NoMemory) => Err(NoMemory),
        }
    }

    /// Tells that a key has a place. It takes no memory.
    pub fn admits(&self, key: &Key) -> bool
        ensures { result ≡ is_some (place_from 0 self.now key.now) }
    {
        has_place(&self.rules, key)
    }

    /// The text of the schema: the line `version 2`, if that is its version, and each rule on a line, as `[a, b [c=v/w [d, e?]]]`. A text that isn't too long for a schema
    /// reads as the same schema.
    pub fn text(&self, alloc: Global) -> Result<String, NoMemory>
        ensures text { IfOk result (λ s. string_bytes s ≡ schema_text self.now) }
        ensures reads_back { IfOk result (λ s. length (string_bytes s) ≤ 65536 → schema_of (string_bytes s) ≡ Ok self.now) }
    {
        text_of(alloc, &self.rules)
    }
}
