// Whether a step can be done.
ghost use Rattle.std.specs.Prelude.{◌≡◌, ◌<◌, ℕ, List, None, Some, IfErr, IfOk, IfSome, OnOk, length, slice_get};
ghost use Rattle.fd_sections.specs.{Message.{IsMessage}, Parts.{sections_of}};
ghost use Rattle.fd_key.specs.Pairs as keys;
ghost use Rattle.fd_schema.specs.{Grammar.{IsSchema}, Rules.{place_from}, Reading.{seen_place}};
ghost use Rattle.fd_request.specs.Expansion.{expand};
ghost use Rattle.fd_lanes.specs.Acts.{IsPlacedIn, message_at};
ghost use Rattle.fd_casting.specs.{Steps.{AreMessages}, Miscasts.{Fails, GetFails, HasNumber, IsUnruled, KeyFails, OnMiscast, PutFails, SomeKey}, Done.{Can, CanPut, IsJudged, seen_if}};

use crate::fault::{Miscast, Refusal};
use fd_bytes::Bytes;
use fd_key::{Given, Key, KeyFault, key_of};
use fd_request::Request;
use fd_schema::{Place, PlaceFault, Schema};
use fd_script::Step;
use fd_sections::{Message, message};
use std::alloc::Global;

/// What steps are judged by: the schema, the script's dataset and the messages of its stream.
#[derive(Clone, Copy)]
pub(crate) struct Setting<'a> {
    pub(crate) schema: &'a Schema,
    pub(crate) dataset: &'a str,
    pub(crate) messages: &'a [Bytes],
}

/// The place of a key in the dataset.
fn place_in(alloc: Global, schema: &Schema, dataset: &str, key: &Key) -> Result<Place, Refusal>
    ensures place { IfOk result (λ p. place_from 0 schema.now key.now ≡ Some (seen_place p)) }
    ensures dataset { IfOk result (λ p. (seen_place p).dataset ≡ dataset.now) }
    ensures refused { IfErr result (λ e. OnMiscast e (KeyFails schema.now dataset.now key.now)) }
{
    match schema.place(alloc, key) {
        Ok(place) => {
            if place.dataset() == dataset {
                Ok(place)
            } else {
                Err(Refusal::Miscast(Miscast::OtherDataset))
            }
        }
        Err(PlaceFault::NoRule) => Err(Refusal::Miscast(Miscast::NoRule)),
        Err(PlaceFault::NoMemory) => Err(Refusal::NoMemory),
    }
}

/// Whether the place of a request's key with a number, from 0, is in the dataset. A key that no rule admits is refused.
fn is_inside(
    alloc: Global,
    schema: &Schema,
    dataset: &str,
    request: &Request,
    number: u32,
) -> Result<bool, Refusal>
    requires { number < length (expand request.now) }
    ensures judged { IfOk result (λ inside. (key : List keys.Pair) → slice_get (expand request.now) number ≡ Some key → IsJudged schema.now dataset.now key inside) }
    ensures refused { IfErr result (λ e. OnMiscast e (λ kind. (kind ≡ Miscast.NoRule) × SomeKey schema.now dataset.now request.now (IsUnruled schema.now dataset.now))) }
{
    let key = request.key(alloc, number)?;
    match place_in(alloc, schema, dataset, &key) {
        Ok(_) => Ok(true),
        Err(Refusal::Miscast(Miscast::OtherDataset)) => Ok(false),
        Err(refusal) => Err(refusal),
    }
}

/// Whether all keys of a request are in the dataset. A key that no rule admits comes before one of another dataset.
fn judge_request(
    alloc: Global,
    schema: &Schema,
    dataset: &str,
    request: &Request,
) -> Result<(), Refusal>
    ensures placed { OnOk result ((i : ℕ) (key : List keys.Pair) → slice_get (expand request.now) i ≡ Some key → IsPlacedIn schema.now dataset.now key) }
    ensures refused { IfErr result (λ e. OnMiscast e (GetFails schema.now dataset.now request.now)) }
{
    let mut inside = true;
    for i in 0..request.count() {
        inside &= is_inside(alloc, schema, dataset, request, i)?;
    }
    if inside {
        Ok(())
    } else {
        Err(Refusal::Miscast(Miscast::OtherDataset))
    }
}

/// The message with a number, from 1, if there is one.
fn message_at(messages: &[Bytes], number: u32) -> Option<Message<'_>>
    requires messages { AreMessages messages.now }
    ensures message { IfSome result (λ m. HasNumber messages.now number × IsMessage (message_at messages.now number) (sections_of m)) }
    ensures none { result ≡ None → HasNumber messages.now number → ⊥ }
{
    if number == 0 || number as usize > messages.len() {
        return None;
    }
    match message(messages[(number - 1) as usize].as_slice()) {
        Ok(message) => Some(message),
        Err(_) => unreachable!(),
    }
}

/// The place of a message's key in the dataset.
fn judge_message(
    alloc: Global,
    setting: &Setting,
    given: &Given,
    number: u32,
) -> Result<Place, Refusal>
    requires schema { IsSchema setting.now.schema.now }
    requires messages { AreMessages setting.now.messages.now }
    ensures place { IfOk result (λ p. CanPut setting.now.schema.now setting.now.dataset.now setting.now.messages.now given.now number (seen_place p)) }
    ensures refused { IfErr result (λ e. OnMiscast e (PutFails setting.now.schema.now setting.now.dataset.now setting.now.messages.now given.now number)) }
{
    let Some(message) = message_at(setting.messages, number) else {
        return Err(Refusal::Miscast(Miscast::Message));
    };
    match key_of(alloc, &message, given) {
        Ok(key) => place_in(alloc, setting.schema, setting.dataset, &key),
        Err(KeyFault::NoMemory) => Err(Refusal::NoMemory),
        Err(fault) => Err(Refusal::Miscast(Miscast::Key(fault))),
    }
}

/// Whether a step can be done, and the place of a put.
pub(crate) fn judge(
    alloc: Global,
    setting: &Setting,
    given: &Given,
    step: &Step,
) -> Result<Option<Place>, Refusal>
    requires schema { IsSchema setting.now.schema.now }
    requires messages { AreMessages setting.now.messages.now }
    ensures can { IfOk result (λ p. Can setting.now.schema.now setting.now.dataset.now setting.now.messages.now given.now step.now (seen_if p)) }
    ensures refused { IfErr result (λ e. OnMiscast e (Fails setting.now.schema.now setting.now.dataset.now setting.now.messages.now given.now step.now)) }
{
    match step {
        Step::Put(number) => match judge_message(alloc, setting, given, *number) {
            Ok(place) => Ok(Some(place)),
            Err(refusal) => Err(refusal),
        },
        Step::Flush => Ok(None),
        Step::Get(request) => match judge_request(alloc, setting.schema, setting.dataset, request) {
            Ok(()) => Ok(None),
            Err(refusal) => Err(refusal),
        },
    }
}
