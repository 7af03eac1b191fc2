// The places of a request's keys, and those under layers.
ghost use Rattle.std.specs.Prelude.{◌≡◌, ◌<◌, ◌+◌, ◌++◌, ◌∷◌, [], List, Some, Ok, length, map, slice_get, IfOk, IfErr, OnOk, true, is_some};
ghost use Rattle.fd_key.specs.Pairs.{Pair};
ghost use Rattle.fd_schema.specs.{Reading.{seen_place}, Rules.{Texts, place_from}};
ghost use Rattle.fd_request.specs.{Expansion.{expand}, Spelled.{AreValues, IsSpelled}};
ghost use Rattle.fd_layers.specs.Based.{based};
ghost use Rattle.fd_words.specs.Words.{AreLayers};
ghost use Rattle.fd_outcome.specs.Layered.{Laid, all_laid, laid_key, places_under, under_from};
ghost use Rattle.fd_stored.specs.Causes.{NoRule};
ghost use Rattle.fd_telling.specs.Stops.{IsOfPlaces, IsRefused};
ghost use Rattle.fd_layered.specs.{Chains.{AreChains, laid_by}, Laying.{LacksLayer, LacksOne}};

use fd_key::{Given, Key};
use fd_layers::{LayerFault, based};
use fd_request::Request;
use fd_schema::{Place, PlaceFault, Schema};
use fd_telling::Stop;
use fd_words::Layers;
use std::alloc::Global;

/// Puts the place of a key under the layer with this number behind the others.
fn lay_one<F>(
    alloc: Global,
    schema: &Schema,
    key: &Key,
    layer: &Given,
    number: u32,
    places: &mut Vec<Place>,
) -> Result<(), Stop<F>>
    requires place { is_some (place_from 0 schema.now key.now) ≡ true }
    requires key { IsSpelled key.now }
    requires layer { AreValues layer.now }
    ensures laid { OnOk result ((p : Texts) × (based schema.now key.now layer.now ≡ Some p) × (map seen_place places.new.items ≡ map seen_place places.old.items ++ p ∷ [])) }
    ensures refused { IfErr result (λ e. LacksOne e number key.now (based schema.now key.now layer.now)) }
{
    match based(alloc, schema, key, layer) {
        Ok(place) => match places.push(place) {
            Ok(()) => Ok(()),
            Err(_) => Err(Stop::NoMemory),
        },
        Err(LayerFault::Layer) => match key.text(alloc) {
            Ok(key) => Err(Stop::NoLayer { layer: number, key }),
            Err(_) => Err(Stop::NoMemory),
        },
        Err(LayerFault::NoMemory) => Err(Stop::NoMemory),
    }
}

/// Puts the places of a key under the layers behind the others, the nearest first. The first layer under which it has none is
/// told.
fn lay_under<F>(
    alloc: Global,
    schema: &Schema,
    key: &Key,
    layers: &Layers,
    places: &mut Vec<Place>,
) -> Result<(), Stop<F>>
    requires place { is_some (place_from 0 schema.now key.now) ≡ true }
    requires key { IsSpelled key.now }
    requires layers { AreLayers layers.now }
    ensures laid { OnOk result ((under : List Texts) × (under_from 1 schema.now key.now layers.now ≡ Ok under) × (map seen_place places.new.items ≡ map seen_place places.old.items ++ under)) }
    ensures refused { IfErr result (λ e. LacksLayer e key.now (under_from 1 schema.now key.now layers.now)) }
{
    for i in 0..layers.len() {
        match lay_one(alloc, schema, key, layers.at(i), i as u32 + 1, places) {
            Ok(()) => {}
            Err(stop) => return Err(stop),
        }
    }
    Ok(())
}

/// Puts the place of the key with this number, which is put into this one, and its places under the layers behind the others.
fn lay_key<F>(
    key: &mut Key,
    alloc: Global,
    schema: &Schema,
    request: &Request,
    number: u32,
    layers: &Layers,
    places: &mut Vec<Place>,
) -> Result<(), Stop<F>>
    requires number { number < length (expand request.now) }
    requires layers { AreLayers layers.now }
    ensures laid { OnOk result ((key : List Pair) → slice_get (expand request.now) number ≡ Some key → (a : Laid) × (laid_key schema.now layers.now key (place_from 0 schema.now key) ≡ Ok a) × (map seen_place places.new.items ≡ map seen_place places.old.items ++ places_under a)) }
    ensures refused { IfErr result (λ e. (key : List Pair) → slice_get (expand request.now) number ≡ Some key → IsOfPlaces e (IsRefused (laid_key schema.now layers.now key (place_from 0 schema.now key)))) }
{
    match request.key_into(key, alloc, number) {
        Ok(()) => {}
        Err(_) => return Err(Stop::NoMemory),
    }
    let place = match schema.place(alloc, key) {
        Ok(place) => place,
        Err(PlaceFault::NoRule) => return Err(no_rule(alloc, key)),
        Err(PlaceFault::NoMemory) => return Err(Stop::NoMemory),
    };
    match places.push(place) {
        Ok(()) => {}
        Err(_) => return Err(Stop::NoMemory),
    }
    match lay_under(alloc, schema, key, layers, places) {
        Ok(()) => Ok(()),
        Err(stop) => Err(stop),
    }
}

/// Tells that no rule admits a key.
fn no_rule<F>(alloc: Global, key: &Key) -> Stop<F>
    ensures { IsOfPlaces result (λ cause. cause ≡ NoRule key.now) }
{
    match key.text(alloc) {
        Ok(text) => Stop::NoRule(text),
        Err(_) => Stop::NoMemory,
    }
}

/// The places of a request's keys, in its order: of each key its own, and then those under the layers, the nearest first. The
/// first key that lacks one is refused. The keys are put into one, the one after the other, so that memory for them is asked
/// for once.
pub(crate) fn places_over<F>(
    alloc: Global,
    schema: &Schema,
    request: &Request,
    layers: &Layers,
) -> Result<Vec<Place>, Stop<F>>
    requires layers { AreLayers layers.now }
    ensures chains { IfOk result (λ v. AreChains (length layers.now) (expand request.now) (map seen_place v.items)) }
    ensures laid { IfOk result (λ v. all_laid schema.now layers.now (expand request.now) ≡ Ok (laid_by (length layers.now) (expand request.now) (map seen_place v.items))) }
    ensures refused { IfErr result (λ e. IsOfPlaces e (IsRefused (all_laid schema.now layers.now (expand request.now)))) }
{
    let mut places = Vec::new(alloc);
    let mut key = match Key::new(alloc) {
        Ok(key) => key,
        Err(_) => return Err(Stop::NoMemory),
    };
    for i in 0..request.count() {
        match lay_key(&mut key, alloc, schema, request, i, layers, &mut places) {
            Ok(()) => {}
            Err(stop) => return Err(stop),
        }
    }
    Ok(places)
}
