//! The answers of a get.
ghost use Rattle.std.specs.Prelude.{◌≡◌, ◌<◌, ℕ, List, map, length, slice_get, Some, IfOk, IfErr};
ghost use Rattle.fd_entries.specs.{declared.batch.Pair.{Pair}, Batches.{newest}};
ghost use Rattle.fd_key.specs.Pairs as keys;
ghost use Rattle.fd_schema.specs.{Rules.{file_key, place_from}, Reading.{seen_place}};
ghost use Rattle.fd_request.specs.Expansion.{expand};
ghost use Rattle.fd_dataset.specs.Listed.{listing};
ghost use Rattle.fd_retriever.specs.{Kept.{Fits}, Answers.{OnDamaged, SomeUntold, Tells}};
ghost use Rattle.fd_lanes.specs.{Acts.{IsPlacedIn, asked_keys, stored_key}, Walks.{answer_bytes}};

use crate::end::Answers;
use fd_bytes::{Items, NoMemory};
use fd_core::Answer;
use fd_dataset::Snapshot;
use fd_disk::Sealed;
use fd_io::Kept;
use fd_request::Request;
use fd_retriever::{FetchFault, Got, Lenses, fetch};
use fd_schema::{Place, Schema};
use std::alloc::Global;

/// What the newest segment of a place's key has.
fn fetch_one<F: Send, Z: Sealed<F>>(
    alloc: Global,
    snapshot: &Snapshot<F, Z>,
    lenses: &mut Lenses<F, Z>,
    place: &Place,
) -> Result<Answer, FetchFault<F, NoMemory>>
where
    requires fits { Fits lenses.old (map listing snapshot.now) }
    ensures fits { Fits lenses.new (map listing snapshot.now) }
    ensures answer { IfOk result (λ a. (t : List (List Pair)) → Tells (map listing snapshot.now) t → answer_bytes a ≡ newest t (file_key (seen_place place.now))) }
    ensures sound { IfErr result (λ e. OnDamaged e (λ _. SomeUntold (map listing snapshot.now))) }
{
    let mut kept = Kept::new(alloc);
    match fetch(alloc, snapshot, lenses, place, &mut kept) {
        Ok(Got::Found(_)) => Ok(Answer::Found(kept.into_bytes())),
        Ok(Got::Miss) => Ok(Answer::Miss),
        Err(fault) => Err(fault),
    }
}

/// What the key at a place of a request, from 0, is answered.
fn fetch_at<F: Send, Z: Sealed<F>>(
    alloc: Global,
    schema: &Schema,
    request: &Request,
    i: u32,
    snapshot: &Snapshot<F, Z>,
    lenses: &mut Lenses<F, Z>,
) -> Result<Answer, FetchFault<F, NoMemory>>
where
    requires within { i < length (expand request.now) }
    requires fits { Fits lenses.old (map listing snapshot.now) }
    requires places { (n : ℕ) (key : List keys.Pair) → slice_get (expand request.now) n ≡ Some key → (t : _) × (place_from 0 schema.now key ≡ Some t) }
    ensures fits { Fits lenses.new (map listing snapshot.now) }
    ensures answer { IfOk result (λ a. (t : List (List Pair)) → Tells (map listing snapshot.now) t → (key : List ℕ) × (slice_get (asked_keys schema.now request.now) i ≡ Some key) × (answer_bytes a ≡ newest t key)) }
    ensures sound { IfErr result (λ e. OnDamaged e (λ _. SomeUntold (map listing snapshot.now))) }
{
    let Ok(key) = request.key(alloc, i) else {
        return Err(FetchFault::NoMemory);
    };
    let Ok(place) = schema.certain_place(alloc, &key) else {
        return Err(FetchFault::NoMemory);
    };
    fetch_one(alloc, snapshot, lenses, &place)
}

/// The answers of all keys of a request, each of which has a place.
pub(crate) fn fetch_all<F: Send, Z: Sealed<F>>(
    alloc: Global,
    schema: &Schema,
    request: &Request,
    snapshot: &Snapshot<F, Z>,
    lenses: &mut Lenses<F, Z>,
) -> Result<Answers, FetchFault<F, NoMemory>>
where
    requires fits { Fits lenses.old (map listing snapshot.now) }
    requires places { (i : ℕ) (key : List keys.Pair) → slice_get (expand request.now) i ≡ Some key → (t : _) × (place_from 0 schema.now key ≡ Some t) }
    ensures fits { Fits lenses.new (map listing snapshot.now) }
    ensures answers { IfOk result (λ v. (t : List (List Pair)) → Tells (map listing snapshot.now) t → map answer_bytes v ≡ map (newest t) (asked_keys schema.now request.now)) }
    ensures sound { IfErr result (λ e. OnDamaged e (λ _. SomeUntold (map listing snapshot.now))) }
{
    let mut answers = Items::new(alloc);
    let count = request.count();
    for i in 0..count {
        let answer = fetch_at(alloc, schema, request, i, snapshot, lenses)?;
        let Ok(()) = answers.push(answer) else {
            return Err(FetchFault::NoMemory);
        };
    }
    Ok(answers)
}
