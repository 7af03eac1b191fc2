// The places of many keys at once, among layers.
ghost use Rattle.std.specs.{Prelude.{◌≡◌, ◌≤◌, ◌∷◌, ◌++◌, [], List, Option, None, All, IsSome, map, length, IfOk, IfErr, IfSome, OnOk}, List.{AllZip}};
ghost use Rattle.fd_entries.specs.declared.batch.Pair.{Pair};
ghost use Rattle.fd_schema.specs.{declared.place.Place.{Place}, Reading.{seen_place}};
ghost use Rattle.fd_finding.specs.Spots.{StandsForSome, place_key};
ghost use Rattle.fd_retriever.specs.Answers.{SomeUntold};
ghost use Rattle.fd_dataset.specs.Listed.{listing};
ghost use Rattle.fd_overlay.specs.{Layers.{AllTell}, Spots.{AreTheOnlyOnes, IsLaidAnswer, IsUntoldNumber, IsWithinLayer, LayersSayOf, OnDamaged, StandsInNumber, shown}, Searching.{FoundIn, SearchedTo, SearchesMore, in_layer, merged, unfound}};

use crate::spot::{FindFault, LayerSpot};
use fd_bytes::NoMemory;
use fd_dataset::Snapshot;
use fd_disk::Sealed;
use fd_finding::{Finder, find_all};
use fd_io::Gate;
use fd_retriever::Spot;
use fd_schema::Place;
use fd_segment::LensFault;
use std::alloc::Global;
use std::sync::Wait;
use std::thread::Threads;

/// So many keys of which no spot is known.
fn nowhere(alloc: Global, places: &[Place]) -> Result<Vec<Option<LayerSpot>>, NoMemory>
    ensures { IfOk result (λ v. (layers : _) → AllZip (SearchedTo layers 0) (map place_key places.now) v.items) }
{
    let mut spots = Vec::new(alloc);
    for i in 0..places.len() {
        spots.push(None)?;
    }
    Ok(spots)
}

/// Puts a place of the same texts behind the others, unless its spot is known.
fn push_unfound(
    alloc: Global,
    others: &mut Vec<Place>,
    place: &Place,
    spot: Option<LayerSpot>,
) -> Result<(), NoMemory>
    ensures wanted { OnOk result (spot ≡ None → (q : Place) × (others.new.items ≡ others.old.items ++ q ∷ []) × (seen_place q ≡ seen_place place.now)) }
    ensures left { OnOk result (IsSome spot → others.new.items ≡ others.old.items) }
{
    match spot {
        Some(_) => {}
        None => others.push(place.again(alloc)?)?,
    }
    Ok(())
}

/// The places of which no spot is known.
fn unfound(
    alloc: Global,
    places: &[Place],
    spots: &[Option<LayerSpot>],
) -> Result<Vec<Place>, NoMemory>
    requires long { length spots.now ≡ length places.now }
    ensures { IfOk result (λ v. map place_key v.items ≡ unfound (map place_key places.now) spots.now) }
{
    let mut others = Vec::new(alloc);
    for i in 0..places.len() {
        push_unfound(alloc, &mut others, &places[i], spots[i])?;
    }
    Ok(others)
}

/// The spot of a key in the layer with this number.
fn in_layer(layer: usize, spot: Option<Spot>) -> Option<LayerSpot>
    ensures { result ≡ in_layer layer spot }
{
    match spot {
        Some(spot) => Some(LayerSpot { layer, spot }),
        None => None,
    }
}

/// The spot of one key, which is the first of those found in the layer where none was known, and the others of those found.
fn merge_one<'a>(
    layer: usize,
    one: Option<LayerSpot>,
    found: &'a [Option<Spot>],
) -> (Option<LayerSpot>, &'a [Option<Spot>])
    ensures { (os : List (Option LayerSpot)) → merged layer (one ∷ os) found.now ≡ result.0 ∷ merged layer os result.1.now }
{
    if one.is_some() {
        return (one, found);
    }
    match found {
        [] => (one, found),
        [first, others @ ..] => (in_layer(layer, *first), others),
    }
}

/// The spots, with those that were found of the other keys in the layer with this number.
fn merge(
    alloc: Global,
    layer: usize,
    spots: &[Option<LayerSpot>],
    found: &[Option<Spot>],
) -> Result<Vec<Option<LayerSpot>>, NoMemory>
    ensures { IfOk result (λ v. v.items ≡ merged layer spots.now found.now) }
{
    let mut all = Vec::new(alloc);
    let mut rest = found;
    for i in 0..spots.len() {
        let (one, left) = merge_one(layer, spots[i], rest);
        all.push(one)?;
        rest = left;
    }
    Ok(all)
}

/// Finds these places in one layer, if there are any.
fn find_some<F: Send + Drop, Z: Sealed<F>, G: Gate, R: Threads + Wait + Sync>(
    finder: &Finder<'_, G, R>,
    snapshot: &Snapshot<F, Z>,
    layer: usize,
    places: &[Place],
) -> Result<Vec<Option<Spot>>, FindFault<F>>
where
    requires workers { (1 ≤ finder.now.workers) × (finder.now.workers ≤ 8) }
    ensures found { IfOk result (λ v. AllZip (FoundIn snapshot.now) (map place_key places.now) v.items) }
    ensures damaged { IfErr result (λ e. OnDamaged e (λ n d. (n ≡ layer) × StandsForSome snapshot.now (map place_key places.now) d)) }
    ensures sound { IfErr result (λ e. OnDamaged e (λ _ _. SomeUntold (map listing snapshot.now))) }
{
    if places.is_empty() {
        return Ok(Vec::new(finder.alloc));
    }
    match find_all(finder, snapshot, places) {
        Ok(found) => Ok(found),
        Err(LensFault::Fault(fault)) => Err(FindFault::Fault(fault)),
        Err(LensFault::Damaged(damage)) => Err(FindFault::Damaged { layer, damage }),
        Err(LensFault::NoMemory) => Err(FindFault::NoMemory),
    }
}

/// Finds in the layer with this number the keys of which no spot is known.
fn find_more<F: Send + Drop, Z: Sealed<F>, G: Gate, R: Threads + Wait + Sync>(
    finder: &Finder<'_, G, R>,
    snapshot: &Snapshot<F, Z>,
    layer: usize,
    places: &[Place],
    spots: &[Option<LayerSpot>],
) -> Result<Vec<Option<LayerSpot>>, FindFault<F>>
where
    requires workers { (1 ≤ finder.now.workers) × (finder.now.workers ≤ 8) }
    requires long { length spots.now ≡ length places.now }
    ensures more { IfOk result (λ v. SearchesMore snapshot.now layer (map place_key places.now) spots.now v.items) }
    ensures damaged { IfErr result (λ e. OnDamaged e (λ n d. (n ≡ layer) × StandsForSome snapshot.now (map place_key places.now) d)) }
    ensures sound { IfErr result (λ e. OnDamaged e (λ _ _. SomeUntold (map listing snapshot.now))) }
{
    let Ok(others) = unfound(finder.alloc, places, spots) else {
        return Err(FindFault::NoMemory);
    };
    let found = match find_some(finder, snapshot, layer, &others) {
        Ok(found) => found,
        Err(fault) => return Err(fault),
    };
    match merge(finder.alloc, layer, spots, &found) {
        Ok(all) => Ok(all),
        Err(NoMemory) => Err(FindFault::NoMemory),
    }
}

/// Finds for each place the newest bytes of its key among layers, the nearest first, and answers, in the order of the places,
/// where they stand, or none exactly where no layer has the key. The layers are searched one after the other, the nearest first, each
/// for the keys that no nearer one has, by the finder's workers, each in a thread of its own, which go over a layer's segments from
/// the newest on. What is answered follows from the layers and the places alone, whatever the number of workers.
///
/// `Fault` comes only with the fault of a file's call in this search. `Damaged` never comes where each segment of the layer
/// that it names stands for a batch, and the damage stands in one of that layer's segments.
pub fn find_over<F: Send + Drop, Z: Sealed<F>, G: Gate, R: Threads + Wait + Sync>(
    finder: &Finder<'_, G, R>,
    layers: &[&Snapshot<F, Z>],
    places: &[Place],
) -> Result<Vec<Option<LayerSpot>>, FindFault<F>>
where
    requires workers { (1 ≤ finder.now.workers) × (finder.now.workers ≤ 8) }
    ensures count { IfOk result (λ v. length v.items ≡ length places.now) }
    ensures answer { IfOk result (λ v. (ts : List (List (List Pair))) → AllTell (shown layers.now) ts → AllZip (IsLaidAnswer (shown layers.now) ts) (map place_key places.now) v.items) }
    ensures says { IfOk result (λ v. AllZip (LayersSayOf (shown layers.now)) (map place_key places.now) v.items) }
    ensures only { IfOk result (λ v. AreTheOnlyOnes (shown layers.now) (map place_key places.now) v.items) }
    ensures within { IfOk result (λ v. All (λ o. IfSome o (IsWithinLayer (shown layers.now))) v.items) }
    ensures damaged { IfErr result (λ e. OnDamaged e (StandsInNumber (shown layers.now) (map place_key places.now))) }
    ensures sound { IfErr result (λ e. OnDamaged e (λ n _. IsUntoldNumber (shown layers.now) n)) }
{
    let Ok(mut spots) = nowhere(finder.alloc, places) else {
        return Err(FindFault::NoMemory);
    };
    for i in 0..layers.len() {
        spots = match find_more(finder, layers[i], i, places, &spots) {
            Ok(more) => more,
            Err(fault) => return Err(fault),
        };
    }
    Ok(spots)
}
