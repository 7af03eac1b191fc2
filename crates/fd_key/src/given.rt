ghost use Rattle.std.specs.Prelude.{◌≡◌, ◌<◌, ◌≤◌, ◌-◌, ◌^◌, length, [], true, Some, Ok, IfOk, IfSome, IfErr, OnOk, option_map, slice_get, string_bytes};
ghost use Rattle.fd_spelling.specs.Names.{is_name, is_value};
ghost use Rattle.fd_key.specs.{Given.{IsGiven, given_of, pairs_from, with_piece, is_reserved, plain_pair, new_pair, pieces_of}, Reading.{GivesGiven, GivesNew, Refuses}};

use crate::fault::GivenFault;
use crate::key::Key;
use fd_bytes::NoMemory;
use fd_spelling::{Meaning, cut, first_piece, is_name, is_value, lower, meaning_of, text_from};
use std::alloc::Global;
use std::marker::Model;

/// Pairs that a writer gives beside those of its messages. No name is one that messages have of their own, and none comes
/// twice.
#[derive(Drop)]
pub struct Given {
    pairs: Key,
}

impl Model for Given {
    ghost use Rattle.std.specs.Prelude.{List};
    ghost use Rattle.fd_key.specs.{Pairs.{Pair}, Given.{IsGiven}};

    ghost Value = { List Pair };

    ghost view = { λ g. g.pairs };

    ghost invariant = { λ g. IsGiven g.pairs };
}

impl Given {
    /// Reads `name=value` pairs that are joined by commas; upper-case letters are read as lower-case ones. The empty text
    /// is no pair.
    ///
    /// The first cause from left to right is answered: `Pair` with the first byte of a pair that isn't one, `Clash` with a
    /// name that messages have of their own, and `Twice` with a name that came before.
    #[tactic(auto, unfolding(crate::specs::Given::given_of))]
    pub fn read(alloc: Global, text: &str) -> Result<Given, GivenFault>
        requires { length text.now < 2 ^ 31 }
        ensures { GivesGiven result (given_of text.now) }
    {
        let text = lower(alloc, text)?;
        if text.is_empty() {
            return Ok(Given::none(alloc)?);
        }
        Given::read_pieces(alloc, text.as_bytes())
    }

    /// No pairs beside those that messages have of their own.
    pub fn none(alloc: Global) -> Result<Given, NoMemory>
        ensures { IfOk result (λ g. g ≡ []) }
    {
        Ok(Given {
            pairs: Key::new(alloc)?,
        })
    }

    /// Reads one pair or more in lower case.
    fn read_pieces(alloc: Global, text: &[u8]) -> Result<Given, GivenFault>
        requires { length text.now < 2 ^ 31 }
        ensures { GivesGiven result (pairs_from 0 [] (pieces_of text.now)) }
    {
        let mut pairs = Key::new(alloc)?;
        let mut at = 0;
        let mut rest = text;
        'pairs: loop {
            let (piece, behind) = first_piece(rest, b',');
            match put_piece(alloc, &mut pairs, piece, at) {
                Ok(()) => {}
                Err(fault) => return Err(fault),
            }
            match behind {
                None => return Ok(Given { pairs }),
                Some(others) => {
                    at += piece.len() as u32 + 1;
                    rest = others;
                }
            }
        }
    }

    /// The number of pairs.
    pub fn len(&self) -> u32
        ensures number { result ≡ length self.now }
        ensures names { IsGiven self.now }
    {
        self.pairs.len()
    }

    /// The name and the text at a place, from 0.
    pub fn pair(&self, i: u32) -> (&str, &str)
        requires { i < length self.now }
        ensures { slice_get self.now i ≡ Some (result.0.now, result.1.now) }
    {
        self.pairs.pair(i)
    }

    /// The same, and that the name fits its place.
    pub(crate) fn short_pair(&self, i: u32) -> (&str, &str)
        requires { i < length self.now }
        ensures pair { slice_get self.now i ≡ Some (result.0.now, result.1.now) }
        ensures name { length result.0.now ≤ 16 }
    {
        self.pairs.short_pair(i)
    }
}

/// Puts the pair of a piece, which begins at this place. After a refusal nothing has changed.
#[tactic(auto, unfolding(crate::specs::Given::with_piece))]
fn put_piece(alloc: Global, pairs: &mut Key, piece: &[u8], at: u32) -> Result<(), GivenFault>
    requires { length pairs.old < 2 ^ 32 - 1 }
    ensures ok { OnOk result (with_piece pairs.old piece.now at ≡ Ok pairs.new) }
    ensures err { IfErr result (λ e. Refuses e (with_piece pairs.old piece.now at)) }
{
    let (name, value) = new_pair(alloc, pairs, piece, at)?;
    pairs.add(name.as_str(), value.as_str())?;
    Ok(())
}

/// The name and the value of a piece, which begins at this place.
#[tactic(auto, using(crate::proofs::SpanLaws::name_fits))]
fn new_pair(
    alloc: Global,
    before: &Key,
    piece: &[u8],
    at: u32,
) -> Result<(String, String), GivenFault>
    ensures pair { GivesNew result (new_pair before.now (plain_pair piece.now) at) }
    ensures name { IfOk result (λ p. length (string_bytes p.0) ≤ 16) }
{
    let Some((name, value)) = plain_pair(piece) else {
        return Err(GivenFault::Pair { at });
    };
    let name = text_from(alloc, name)?;
    if is_reserved(name.as_str()) {
        return Err(GivenFault::Clash(name));
    }
    if before.get(name.as_str()).is_some() {
        return Err(GivenFault::Twice(name));
    }
    let value = text_from(alloc, value)?;
    Ok((name, value))
}

/// A name and a value with `=` between them, in lower case.
#[tactic(auto, unfolding(crate::specs::Given::plain_pair))]
fn plain_pair(piece: &[u8]) -> Option<(&[u8], &[u8])>
    ensures pair { option_map (λ x. (x.0.now, x.1.now)) result ≡ plain_pair piece.now }
    ensures name { IfSome result (λ x. is_name x.0.now ≡ true) }
    ensures value { IfSome result (λ x. is_value x.1.now ≡ true) }
{
    let (name, value) = cut(piece, b'=')?;
    if is_name(name) && is_value(value) {
        Some((name, value))
    } else {
        None
    }
}

/// Tells that messages have this name of their own.
fn is_reserved(name: &str) -> bool
    ensures { result ≡ is_reserved name.now }
{
    match meaning_of(name) {
        Meaning::Other => false,
        _ => true,
    }
}
