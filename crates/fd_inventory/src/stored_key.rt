// The keys that stand in the files of a dataset.
ghost use Rattle.std.specs.Prelude.{◌≡◌, ◌<◌, ◌≤◌, ◌+◌, ◌-◌, ◌^◌, ℕ, List, Some, None, IfOk, IfSome, IsTrue, OnOk, MatchOption, length, option_map, string_bytes, if◌then◌else◌};
ghost use Rattle.fd_spelling.specs.{Names.{is_name, is_value}, Numerals.{cut}};
ghost use Rattle.fd_outcome.specs.Rows.{if_pair, stored, stored_at, with_piece, with_text};
ghost use Rattle.fd_inventory.specs.{Found.{AreSpelled}, Keys.{HasLead, IsFirstOf, IsKey, IsLead, IsStored, ending, leading, texts, whole, whole_behind}};

use fd_bytes::NoMemory;
use fd_key::{Key, ValueFault, canonical, is_name};
use fd_spelling::{ascii_text, comma_piece};
use std::alloc::Global;

/// A key that a partial request may ask for: the texts of its index and its datum, and the pairs of all three levels.
#[derive(Drop)]
pub struct StoredKey {
    /// The index text.
    pub index: String,
    /// The datum text.
    pub datum: String,
    /// The pairs of dataset, index and datum.
    pub key: Key,
}

/// An index text, and the pairs that stand before those of its datum texts: the dataset's and its own, if they are pairs.
#[derive(Drop)]
pub(crate) struct Lead {
    index: String,
    pairs: Option<Key>,
}

/// What is kept from one key in the files of a dataset to the next: the lead of the last one, and a key that is filled with the
/// pairs of each.
#[derive(Drop)]
pub(crate) struct Reader {
    lead: Option<Lead>,
    /// The pairs of the key that was read last, where it is one that a request may ask for.
    pub(crate) room: Key,
}

impl Reader {
    /// One that has read no key.
    pub(crate) fn new(alloc: Global) -> Result<Reader, NoMemory>
        ensures { IfOk result (λ r. (dataset : List ℕ) → HasLead dataset r) }
    {
        let room = Key::new(alloc)?;
        Ok(Reader { lead: None, room })
    }
}

/// What stands before the first `=`, and what stands behind it.
#[tactic(auto, unfolding(fd_spelling::specs::Numerals::cut))]
fn at_equals(text: &str) -> Option<(&str, &str)>
    ensures { option_map (λ p. (p.0.now, p.1.now)) result ≡ cut 61 text.now }
{
    text.split_once('=')
}

/// What stands before the first vertical line, and what stands behind it.
#[tactic(auto, unfolding(fd_spelling::specs::Numerals::cut))]
fn at_line(text: &str) -> Option<(&str, &str)>
    ensures { option_map (λ p. (p.0.now, p.1.now)) result ≡ cut 124 text.now }
{
    text.split_once('|')
}

/// A name and a value in its one spelling, with `=` between them, where the text is that.
fn spelled_pair(alloc: Global, text: &str) -> Result<Option<(&str, &str)>, NoMemory>
    ensures pair { IfOk result (λ o. option_map (λ p. (p.0.now, p.1.now)) o ≡ if_pair (cut 61 text.now)) }
    ensures name { IfOk result (λ o. IfSome o (λ p. IsTrue (is_name p.0.now) × IsTrue (is_value p.1.now))) }
{
    let Some((name, value)) = at_equals(text) else {
        return Ok(None);
    };
    if !is_name(name.as_bytes()) {
        return Ok(None);
    }
    match canonical(alloc, name, value) {
        Ok(spelled) => {
            if value == spelled.as_str() {
                Ok(Some((name, value)))
            } else {
                Ok(None)
            }
        }
        Err(ValueFault::BadValue) => Ok(None),
        Err(ValueFault::NoMemory) => Err(NoMemory),
    }
}

/// Adds the pair that a text is, if its name is new, and tells whether it is one.
#[tactic(auto, unfolding(fd_outcome::specs::Rows::with_piece))]
fn add_piece(alloc: Global, pairs: &mut Key, piece: &str) -> Result<bool, NoMemory>
    requires { length pairs.old < 2 ^ 32 - 1 }
    ensures few { IfOk result (λ is_one. length pairs.new ≤ length pairs.old + 1) }
    ensures pair { IfOk result (λ is_one. with_piece pairs.old piece.now ≡ (if is_one then Some pairs.new else None)) }
{
    match spelled_pair(alloc, piece)? {
        Some((name, value)) => {
            if pairs.get(name).is_some() {
                return Ok(false);
            }
            pairs.set(alloc, name, value)?;
            Ok(true)
        }
        None => Ok(false),
    }
}

/// Adds the pairs that a text is, joined by commas, if each name is new, and tells whether it is that.
pub(crate) fn add_text(alloc: Global, pairs: &mut Key, text: &str) -> Result<bool, NoMemory>
    requires { length pairs.old + length text.now < 2 ^ 32 - 1 }
    ensures few { IfOk result (λ is_some. length pairs.new ≤ length pairs.old + length text.now + 1) }
    ensures pairs { IfOk result (λ is_some. with_text pairs.old text.now ≡ (if is_some then Some pairs.new else None)) }
{
    let mut rest = Some(text);
    while let Some(text) = rest {
        let (piece, others) = comma_piece(text);
        if !add_piece(alloc, pairs, piece)? {
            return Ok(false);
        }
        rest = others;
    }
    Ok(true)
}

/// Fills a key with these pairs, in place of its own.
fn fill(alloc: Global, room: &mut Key, pairs: &Key) -> Result<(), NoMemory>
    requires { AreSpelled pairs.now }
    ensures { OnOk result (room.new ≡ pairs.now) }
{
    room.clear();
    for i in 0..pairs.len() {
        let (name, text) = pairs.pair(i);
        room.set(alloc, name, text)?;
    }
    Ok(())
}

/// The pairs of a dataset's text and of an index text, if they are pairs, which stand before those of each datum text of that index.
#[tactic(auto, unfolding(crate::specs::Keys::leading))]
fn leading(alloc: Global, dataset: &str, index: &str) -> Result<Option<Key>, NoMemory>
    requires { length dataset.now + length index.now < 2 ^ 31 }
    ensures pairs { IfOk result (λ o. o ≡ leading dataset.now index.now) }
    ensures few { IfOk result (λ o. IfSome o (λ k. length k ≤ length dataset.now + length index.now + 2)) }
{
    let mut pairs = Key::new(alloc)?;
    if !add_text(alloc, &mut pairs, dataset)? {
        return Ok(None);
    }
    if !add_text(alloc, &mut pairs, index)? {
        return Ok(None);
    }
    Ok(Some(pairs))
}

/// Adds the pairs of a datum text, and tells whether they are a stored key's with those that were there: no name comes twice,
/// and they have at most 255 bytes together.
#[tactic(auto, unfolding(crate::specs::Keys::whole))]
fn complete(alloc: Global, pairs: &mut Key, datum: &str) -> Result<bool, NoMemory>
    requires { length pairs.old + length datum.now < 2 ^ 32 - 1 }
    ensures { IfOk result (λ is_one. whole pairs.old datum.now ≡ (if is_one then Some pairs.new else None)) }
{
    if !add_text(alloc, pairs, datum)? {
        return Ok(false);
    }
    if !pairs.text_fits(255) {
        return Ok(false);
    }
    Ok(true)
}

/// The stored key of these pairs and of those of a datum text behind them.
fn ending(
    alloc: Global,
    pairs: Key,
    index: &str,
    datum: &str,
) -> Result<Option<StoredKey>, NoMemory>
    requires { length pairs + length datum.now < 2 ^ 32 - 1 }
    ensures { IfOk result (λ o. MatchOption o (ending pairs index.now datum.now ≡ None) (IsStored (ending pairs index.now datum.now))) }
{
    let mut key = pairs;
    if !complete(alloc, &mut key, datum)? {
        return Ok(None);
    }
    let index = String::from_str(alloc, index)?;
    let datum = String::from_str(alloc, datum)?;
    Ok(Some(StoredKey { index, datum, key }))
}

/// The stored key of an index text and a datum text, or none where they are no pairs in their one spelling, none of whose names, nor
/// of the dataset's, comes twice, with at most 255 bytes together.
pub(crate) fn stored_at(
    alloc: Global,
    dataset: &str,
    index: &str,
    datum: &str,
) -> Result<Option<StoredKey>, NoMemory>
    requires { length dataset.now + length index.now + length datum.now < 2 ^ 31 }
    ensures { IfOk result (λ o. MatchOption o (stored_at dataset.now index.now datum.now ≡ None) (IsStored (stored_at dataset.now index.now datum.now))) }
{
    match leading(alloc, dataset, index)? {
        Some(pairs) => ending(alloc, pairs, index, datum),
        None => Ok(None),
    }
}

/// Fills a key with a lead's pairs, if there are any, and with those of a datum text behind them, and tells whether they are a
/// stored key's.
fn behind(alloc: Global, room: &mut Key, pairs: &Option<Key>, datum: &str) -> Result<bool, NoMemory>
    requires { IfSome pairs.now (IsFirstOf datum.now) }
    ensures { IfOk result (λ is_one. whole_behind pairs.now datum.now ≡ (if is_one then Some room.new else None)) }
{
    match pairs {
        Some(pairs) => {
            fill(alloc, room, pairs)?;
            complete(alloc, room, datum)
        }
        None => Ok(false),
    }
}

/// What a key in the files says: an index text and, behind a vertical line, a datum text, in ASCII, with at most 256 bytes together.
#[tactic(auto, unfolding(crate::specs::Keys::texts))]
fn texts(key: &[u8]) -> Option<(&str, &str)>
    ensures { option_map (λ p. (p.0.now, p.1.now)) result ≡ texts key.now }
{
    if key.len() > 256 {
        return None;
    }
    at_line(ascii_text(key)?)
}

/// The lead of an index text: the last one, where that is of this text.
fn lead_of(alloc: Global, dataset: &str, index: &str, last: Option<Lead>) -> Result<Lead, NoMemory>
    requires short { length dataset.now + length index.now < 2 ^ 31 }
    requires last { IfSome last (IsLead dataset.now) }
    ensures lead { IfOk result (IsLead dataset.now) }
    ensures index { IfOk result (λ l. string_bytes l.index ≡ index.now) }
{
    if let Some(lead) = last {
        if lead.index.as_str() == index {
            return Ok(lead);
        }
    }
    let pairs = leading(alloc, dataset, index)?;
    let index = String::from_str(alloc, index)?;
    Ok(Lead { index, pairs })
}

/// The index text and the datum text of a key in the files of a dataset, or none where it is no index text, vertical line and
/// datum text of pairs in their one spelling, none of whose names, nor of the dataset's, comes twice, with at most 255 bytes
/// together. The reader comes back with its pairs, and with the lead of its index, by which the next key of that index is read
/// without looking through these texts again.
pub(crate) fn read_key<'a>(
    alloc: Global,
    dataset: &str,
    key: &'a [u8],
    reader: Reader,
) -> Result<(Option<(&'a str, &'a str)>, Reader), NoMemory>
    requires short { length dataset.now ≤ 255 }
    requires lead { HasLead dataset.now reader }
    ensures key { IfOk result (λ r. MatchOption r.0 (stored dataset.now key.now ≡ None) (λ p. IsKey (stored dataset.now key.now) p.0.now p.1.now r.1.room)) }
    ensures lead { IfOk result (λ r. HasLead dataset.now r.1) }
{
    let Some((index, datum)) = texts(key) else {
        return Ok((None, reader));
    };
    let Reader { lead, mut room } = reader;
    let lead = lead_of(alloc, dataset, index, lead)?;
    let is_one = behind(alloc, &mut room, &lead.pairs, datum)?;
    let reader = Reader {
        lead: Some(lead),
        room,
    };
    if !is_one {
        return Ok((None, reader));
    }
    Ok((Some((index, datum)), reader))
}
