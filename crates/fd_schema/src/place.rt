// The place of a key: the first rule that admits it, and the three texts that the rule makes of it.
ghost use Rattle.std.specs.{Prelude.{◌≡◌, ◌≤◌, ◌++◌, ℕ, List, [], IfOk, OnOk, string_bytes, length, is_some}, List.{list_all}, Option.{option_copied}};
ghost use Rattle.fd_schema.specs.{Rules.{suits, suits_key, has_meaning, is_known, admits, file_key, pair_behind, level_text, place_from, texts_of}, Seen.{seen_items, seen_want, seen_rule, seen_rules}, Reading.{GivesPlace, seen_place}};

use crate::fault::PlaceFault;
use crate::grammar::same_level;
use crate::items::has_name;
use crate::rule::{Item, Level, Rule, Version, Want};
use arrayvec::ArrayString;
use fd_bytes::NoMemory;
use fd_key::Key;
use fd_spelling::is_one_of;
use std::alloc::Global;
use std::marker::Model;

/// So many bytes have room in the text of a new place. The texts of a key of at most 255 bytes have fewer together, so
/// that memory is asked for once.
const ROOM: usize = 256;

/// Where a key belongs: the number of the rule that admits it, from 0, and the texts of the rule's three levels. They stand
/// in one text, one behind the other.
#[derive(Drop)]
pub struct Place {
    rule: u32,
    text: String,
    index: usize,
    datum: usize,
}

impl Model for Place {
    ghost use Rattle.std.specs.Prelude.{string_bytes};
    ghost use Rattle.fd_schema.specs.{Rules.{Texts}, Cuts.{AreCut, texts_at}};

    ghost Value = { Texts };

    ghost view = { λ p. texts_at p.rule (string_bytes p.text) p.index p.datum };

    ghost invariant = { λ p. AreCut (string_bytes p.text) p.index p.datum };
}

impl Place {
    /// A place by its rule's number and its texts.
    pub fn new(
        alloc: Global,
        rule: u32,
        dataset: &str,
        index: &str,
        datum: &str,
    ) -> Result<Place, NoMemory>
        ensures { IfOk result (λ p. seen_place p ≡ record { rule = rule; dataset = dataset.now; index = index.now; datum = datum.now }) }
    {
        let room = dataset.len().saturating_add(index.len());
        let mut text = String::with_capacity(alloc, room.saturating_add(datum.len()))?;
        text.push_str(dataset)?;
        let second = text.len();
        text.push_str(index)?;
        let third = text.len();
        text.push_str(datum)?;
        Ok(Place {
            rule,
            text,
            index: second,
            datum: third,
        })
    }

    /// The number of the rule that admits the key, from 0.
    pub fn rule(&self) -> u32
        ensures { result ≡ (seen_place self.now).rule }
    {
        self.rule
    }

    /// The text of the rule's first level: the key's pairs as `name=value`, joined by commas.
    pub fn dataset(&self) -> &str
        ensures { result.now ≡ (seen_place self.now).dataset }
    {
        &self.text.as_str()[..self.index]
    }

    /// The text of its second level.
    pub fn index(&self) -> &str
        ensures { result.now ≡ (seen_place self.now).index }
    {
        &self.text.as_str()[self.index..self.datum]
    }

    /// The text of its third level.
    pub fn datum(&self) -> &str
        ensures { result.now ≡ (seen_place self.now).datum }
    {
        &self.text.as_str()[self.datum..]
    }

    /// A place of the same texts.
    pub fn again(&self, alloc: Global) -> Result<Place, NoMemory>
        ensures { IfOk result (λ p. seen_place p ≡ seen_place self.now) }
    {
        Place::new(alloc, self.rule, self.dataset(), self.index(), self.datum())
    }

    /// Gives the memory of the texts back. They are empty then.
    pub fn let_go(&mut self, alloc: Global)
        ensures rule { (seen_place self.new).rule ≡ (seen_place self.old).rule }
        ensures dataset { (seen_place self.new).dataset ≡ [] }
        ensures index { (seen_place self.new).index ≡ [] }
        ensures datum { (seen_place self.new).datum ≡ [] }
    {
        self.text = String::new(alloc);
        self.index = 0;
        self.datum = 0;
    }

    /// The key under which a message of this place stands in the files of its dataset: the index text, a vertical line,
    /// the datum text.
    pub fn file_key(&self, alloc: Global) -> Result<Vec<u8>, NoMemory>
        ensures { IfOk result (λ v. v.items ≡ file_key (seen_place self.now)) }
    {
        let index = self.index().as_bytes();
        let datum = self.datum().as_bytes();
        let texts = index.len().saturating_add(datum.len());
        let mut key = Vec::with_capacity(alloc, texts.saturating_add(1))?;
        key.extend_from_slice(index)?;
        key.push(b'|')?;
        key.extend_from_slice(datum)?;
        Ok(key)
    }

    /// The same key where it has at most 256 bytes, as that of a key of at most 255 bytes has. It takes no memory.
    pub fn short_key(&self) -> ArrayString<256>
        requires { length (file_key (seen_place self.now)) ≤ 256 }
        ensures { result.bytes ≡ file_key (seen_place self.now) }
    {
        let mut key = ArrayString::new();
        key.push_str(self.index());
        key.push_str("|");
        key.push_str(self.datum());
        key
    }
}

/// Tells that what a rule wants of a name goes with the text that a key has for it.
fn suits(want: &Want, text: Option<&str>) -> bool
    ensures { result ≡ suits (seen_want want.now) (option_copied text.entry) }
{
    match want {
        Want::Needed => text.is_some(),
        Want::Optional => true,
        Want::OneOf(values) => match text {
            Some(text) => is_one_of(values, text),
            None => false,
        },
    }
}

/// Tells that the key has what the rule wants of each name.
fn suits_all(rule: &[Item], key: &Key) -> bool
    ensures { result ≡ list_all (suits_key key.now) (seen_items rule.now) }
{
    for item in rule {
        if !suits(&item.want, key.get(item.name.as_str())) {
            return false;
        }
    }
    true
}

/// Tells that a name has a meaning in a schema of this version.
pub(crate) fn has_meaning(version: Version, name: &str) -> bool
    ensures { result ≡ has_meaning version name.now }
{
    match version {
        Version::One => !(name == "number" || name == "stat"),
        Version::Two => true,
    }
}

/// Tells that the rule has a name of the key, and that it has a meaning.
fn is_known(rule: &Rule, name: &str) -> bool
    ensures { (text : List ℕ) → result ≡ is_known (seen_rule rule.now) (name.now, text) }
{
    has_meaning(rule.version, name) && has_name(&rule.items, name)
}

/// Tells that the rule has each name of the key, and that each has a meaning.
fn are_known(rule: &Rule, key: &Key) -> bool
    ensures { result ≡ list_all (is_known (seen_rule rule.now)) key.now }
{
    for i in 0..key.len() {
        let (name, _) = key.pair(i);
        if !is_known(rule, name) {
            return false;
        }
    }
    true
}

/// Tells that the rule admits the key.
fn admits(rule: &Rule, key: &Key) -> bool
    ensures { result ≡ admits (seen_rule rule.now) key.now }
{
    suits_all(&rule.items, key) && are_known(rule, key)
}

/// Appends one pair, behind a comma where it isn't the first of its level.
fn push_pair(out: &mut String, is_first: bool, name: &str, text: &str) -> Result<(), NoMemory>
    ensures { OnOk result (string_bytes out.new ≡ string_bytes out.old ++ pair_behind is_first (name.now, text.now)) }
{
    if !is_first {
        out.push(',')?;
    }
    out.push_str(name)?;
    out.push('=')?;
    out.push_str(text)?;
    Ok(())
}

/// Appends the text of one level: the pairs that the key has, in the rule's order.
#[tactic(auto, unfolding(crate::specs::Rules::level_pairs), using(crate::proofs::Texts::one_more, crate::proofs::Texts::no_more))]
fn push_level(out: &mut String, level: Level, rule: &[Item], key: &Key) -> Result<(), NoMemory>
    ensures { OnOk result (string_bytes out.new ≡ string_bytes out.old ++ level_text level (seen_items rule.now) key.now) }
{
    let mut is_first = true;
    for item in rule {
        if same_level(item.level, level) {
            if let Some(text) = key.get(item.name.as_str()) {
                push_pair(out, is_first, item.name.as_str(), text)?;
                is_first = false;
            }
        }
    }
    Ok(())
}

/// The place that a rule of this number gives to a key.
fn placed(alloc: Global, number: u32, rule: &Rule, key: &Key) -> Result<Place, NoMemory>
    ensures { IfOk result (λ p. seen_place p ≡ texts_of number (seen_rule rule.now) key.now) }
{
    let mut text = String::with_capacity(alloc, ROOM)?;
    push_level(&mut text, Level::Dataset, &rule.items, key)?;
    let index = text.len();
    push_level(&mut text, Level::Index, &rule.items, key)?;
    let datum = text.len();
    push_level(&mut text, Level::Datum, &rule.items, key)?;
    Ok(Place {
        rule: number,
        text,
        index,
        datum,
    })
}

/// Tells that some rule admits the key.
#[tactic(auto, unfolding(crate::specs::Rules::place_from))]
pub(crate) fn has_place(rules: &[Rule], key: &Key) -> bool
    ensures { result ≡ is_some (place_from 0 (seen_rules rules.now) key.now) }
{
    for candidate in rules {
        if admits(candidate, key) {
            return true;
        }
    }
    false
}

/// The place of a key by the first rule that admits it.
#[tactic(auto, unfolding(crate::specs::Rules::place_from))]
pub(crate) fn place_of(alloc: Global, rules: &[Rule], key: &Key) -> Result<Place, PlaceFault>
    requires { length rules.now ≤ 256 }
    ensures { GivesPlace result (place_from 0 (seen_rules rules.now) key.now) }
{
    for (i, rule) in rules.iter().enumerate() {
        if admits(rule, key) {
            return Ok(placed(alloc, i as u32, rule, key)?);
        }
    }
    Err(PlaceFault::NoRule)
}
