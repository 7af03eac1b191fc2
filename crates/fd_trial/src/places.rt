//! The places of messages that are made up.
ghost use Rattle.std.specs.Prelude.{◌≡◌, ◌≤◌, ◌<◌, None, List, Ok, map, IfOk, length};
ghost use Rattle.fd_sections.specs.Parts.{sections_of};
ghost use Rattle.fd_key.specs.{Keys.{key_of}, Pairs.{Pair}};
ghost use Rattle.fd_schema.specs.{Reading.{seen_place}, Rules.{Texts}};
ghost use Rattle.fd_outcome.specs.Outcome.{generated_messages};
ghost use Rattle.fd_stored.specs.Archiving.{taken};
ghost use Rattle.fd_trial.specs.Placed.{ArePlaced, IsPlacedAt};

use fd_bytes::NoMemory;
use fd_gen::generated;
use fd_key::{Given, Key, KeyFault, key_of};
use fd_schema::{Place, Schema};
use fd_sections::{Message, message};
use std::alloc::Global;

/// The key of a message that has one.
fn key_in(alloc: Global, message: &Message<'_>, given: &Given) -> Result<Key, NoMemory>
    requires { (key : List Pair) × (key_of (sections_of message.now) given.now ≡ Ok key) }
    ensures { IfOk result (λ k. key_of (sections_of message.now) given.now ≡ Ok k) }
{
    match key_of(alloc, message, given) {
        Ok(key) => Ok(key),
        Err(KeyFault::Product(_)) => unreachable!(),
        Err(KeyFault::ProductLength { said: _ }) => unreachable!(),
        Err(KeyFault::BadDate) => unreachable!(),
        Err(KeyFault::KeyTooLong { len: _ }) => unreachable!(),
        Err(KeyFault::NoMemory) => Err(NoMemory),
    }
}

/// The place of the generated message of this number, with these given pairs in its key. It has one.
fn place_of(alloc: Global, schema: &Schema, given: &Given, i: u64) -> Result<Place, NoMemory>
    requires few { i < 100000 }
    requires placed { (p : Texts) × IsPlacedAt schema.now given.now i p }
    ensures { IfOk result (λ p. IsPlacedAt schema.now given.now i (seen_place p)) }
{
    let octets = generated(alloc, i)?;
    let message = match message(&octets) {
        Ok(message) => message,
        Err(_) => unreachable!(),
    };
    let key = key_in(alloc, &message, given)?;
    match schema.certain_place(alloc, &key) {
        Ok(place) => Ok(place),
        Err(NoMemory) => Err(NoMemory),
    }
}

/// The places of the first so many generated messages, in their order. None of them is refused.
pub(crate) fn places_of(
    alloc: Global,
    schema: &Schema,
    given: &Given,
    count: u32,
) -> Result<Vec<Place>, NoMemory>
    requires few { count ≤ 100000 }
    requires stored { (taken schema.now given.now (generated_messages count)).refusal ≡ None }
    ensures placed { IfOk result (λ v. ArePlaced schema.now given.now 0 (map seen_place v.items)) }
    ensures many { IfOk result (λ v. length v.items ≡ count) }
{
    let mut places = Vec::new(alloc);
    for i in 0..count {
        places.push(place_of(alloc, schema, given, i as u64)?)?;
    }
    Ok(places)
}
