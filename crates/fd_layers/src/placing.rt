// The place of a key under a layer.
ghost use Rattle.std.specs.{Prelude.{◌≡◌, ◌≤◌, length, true, IfOk, is_some}, Option.{option_copied}};
ghost use Rattle.fd_key.specs.Pairs.{key_text, text_of};
ghost use Rattle.fd_schema.specs.{Rules.{IsShort, place_from}, Reading.{seen_place}};
ghost use Rattle.fd_request.specs.Spelled.{AreValues, IsSpelled};
ghost use Rattle.fd_layers.specs.Based.{GivesBased, based, has_names, is_same_home, or_own, under};

use crate::fault::LayerFault;
use fd_bytes::NoMemory;
use fd_key::{Given, Key};
use fd_schema::{Place, PlaceFault, Schema};
use std::alloc::Global;

/// Tells that a key has each name of a layer.
fn has_names(key: &Key, layer: &Given) -> bool
    ensures { result ≡ has_names key.now layer.now }
{
    for i in 0..layer.len() {
        let (name, _) = layer.pair(i);
        if key.get(name).is_none() {
            return false;
        }
    }
    true
}

/// The value that a layer has for a name.
fn value_of<'a>(layer: &'a Given, name: &str) -> Option<&'a str>
    ensures { option_copied result ≡ text_of layer.now name.now }
{
    for i in 0..layer.len() {
        let (other, text) = layer.pair(i);
        if name == other {
            return Some(text);
        }
    }
    None
}

/// The value that a layer has for a name, or else the key's own.
fn value_or<'a>(layer: &'a Given, name: &str, own: &'a str) -> &'a str
    ensures { result.now ≡ or_own (text_of layer.now name.now) own.now }
{
    match value_of(layer, name) {
        Some(text) => text,
        None => own,
    }
}

/// A key with a layer's values in place of its own.
fn under(alloc: Global, layer: &Given, key: &Key) -> Result<Key, NoMemory>
    requires key { IsSpelled key.now }
    requires layer { AreValues layer.now }
    ensures { IfOk result (λ k. k ≡ under layer.now key.now) }
{
    let mut new = Key::new(alloc)?;
    for i in 0..key.len() {
        let (name, own) = key.pair(i);
        new.set(alloc, name, value_or(layer, name, own))?;
    }
    Ok(new)
}

/// Tells that two places have one rule, and one key in the files.
fn is_same_home(alloc: Global, own: &Place, other: &Place) -> Result<bool, NoMemory>
    ensures { IfOk result (λ b. b ≡ is_same_home (seen_place own.now) (seen_place other.now)) }
{
    let is_same = own.file_key(alloc)? == other.file_key(alloc)?;
    Ok(own.rule() == other.rule() && is_same)
}

/// The place of a key, which has one, with a layer's values in place of its own. The place has the rule of the key's own,
/// and the same key in the files, so that both are looked for under one key, each in its dataset.
///
/// `Layer` is answered exactly where there is no such place: the key lacks a name of the layer, or no rule admits it with the
/// layer's values, or its place then has another rule or another key in the files.
pub fn based(alloc: Global, schema: &Schema, key: &Key, layer: &Given) -> Result<Place, LayerFault>
    requires place { is_some (place_from 0 schema.now key.now) ≡ true }
    requires key { IsSpelled key.now }
    requires layer { AreValues layer.now }
    ensures place { GivesBased result (based schema.now key.now layer.now) }
    ensures short { IfOk result (λ p. length (key_text (under layer.now key.now)) ≤ 255 → IsShort (seen_place p)) }
{
    if !has_names(key, layer) {
        return Err(LayerFault::Layer);
    }
    let own = match schema.place(alloc, key) {
        Ok(place) => place,
        Err(PlaceFault::NoRule) => unreachable!(),
        Err(PlaceFault::NoMemory) => return Err(LayerFault::NoMemory),
    };
    let new = under(alloc, layer, key)?;
    let other = match schema.place(alloc, &new) {
        Ok(place) => place,
        Err(PlaceFault::NoRule) => return Err(LayerFault::Layer),
        Err(PlaceFault::NoMemory) => return Err(LayerFault::NoMemory),
    };
    if is_same_home(alloc, &own, &other)? {
        Ok(other)
    } else {
        Err(LayerFault::Layer)
    }
}
