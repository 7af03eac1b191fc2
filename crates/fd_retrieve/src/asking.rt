// The keys that a request asks for, and where they belong.
ghost use Rattle.std.specs.Prelude.{◌≡◌, ◌⊎◌, ◌≤◌, ◌<◌, ◌+◌, [], List, ℕ, Some, Ok, length, map, slice_get, ◌^◌, IfOk, IfErr, IfSome};
ghost use Rattle.fd_key.specs.Pairs.{Pair};
ghost use Rattle.fd_schema.specs.{Reading.{seen_place}, Rules.{place_from}};
ghost use Rattle.fd_request.specs.Expansion.{expand};
ghost use Rattle.fd_outcome.specs.Asking.{placed, request_in};
ghost use Rattle.fd_answering.specs.Finding.{asked_of_all};
ghost use Rattle.fd_telling.specs.Stops.{HasReadCause, LacksRule, OnRequest};
ghost use Rattle.fd_retrieve.specs.Seats.{AreSought, AreSoughtFrom, IsSought, IsUnplaced};

use fd_bytes::NoMemory;
use fd_io::Source;
use fd_key::Key;
use fd_outcome::{Unread, read_front};
use fd_request::{Request, RequestFault};
use fd_schema::{Place, PlaceFault, Schema};
use fd_telling::Stop;
use std::alloc::Global;
use std::thread;
use std::thread::Threads;

/// How many octets of the input are read at most.
const MOST: u64 = 68_719_476_736;

/// From how many keys on their places are looked for in several threads, whose start takes as long as one needs for some thirty keys.
const ENOUGH: u32 = 256;

/// Why a key has no place.
#[derive(Drop)]
pub(crate) enum Unplaced {
    /// No rule admits it. It has this text.
    NoRule(String),
    /// An allocation was refused.
    NoMemory,
}

/// What was found for a key: its place, or why it has none.
type Seat = Result<Place, Unplaced>;

/// The request that the input is.
pub fn request_of<F, X: Drop, I: Source<X>>(
    alloc: Global,
    input: &mut I,
) -> Result<Request, Stop<F>>
    ensures ok { IfOk result (λ r. IfSome (I.left input.old) (λ octets. (request_in octets ≡ Ok r) × (I.left input.new ≡ Some []))) }
    ensures refused { IfErr result (λ e. IfSome (I.left input.old) (λ octets. OnRequest e (request_in octets))) }
    ensures cause { HasReadCause (I.faults input.old) (I.faults input.new) result }
{
    let text = match read_front(alloc, input, MOST) {
        Ok(text) => text,
        Err(Unread::Fault(_)) => return Err(Stop::Input),
        Err(Unread::NoMemory) => return Err(Stop::NoMemory),
    };
    match Request::read(alloc, &text) {
        Ok(request) => Ok(request),
        Err(RequestFault::At { at, kind }) => Err(Stop::Request { at, kind }),
        Err(RequestFault::NoMemory) => Err(Stop::NoMemory),
    }
}

/// The places of a request's keys, in its order, for which so many threads look where there are enough keys for several. The first key
/// that no rule admits is refused.
pub(crate) fn places_of<F, R: Threads + Sync>(
    rt: &R,
    alloc: Global,
    schema: &Schema,
    request: &Request,
    workers: u32,
) -> Result<Vec<Place>, Stop<F>>
    requires workers { 0 < workers }
    ensures count { IfOk result (λ v. length v.items ≡ length (expand request.now)) }
    ensures placed { IfOk result (λ v. placed schema.now (expand request.now) ≡ Ok (asked_of_all (expand request.now) (map seen_place v.items))) }
    ensures refused { IfErr result (λ e. LacksRule e (placed schema.now (expand request.now))) }
{
    let Ok(seats) = seats_of(rt, alloc, schema, request, workers) else {
        return Err(Stop::NoMemory);
    };
    let mut places = Vec::new(alloc);
    for seat in seats {
        let place = match seat {
            Ok(place) => place,
            Err(Unplaced::NoRule(text)) => return Err(Stop::NoRule(text)),
            Err(Unplaced::NoMemory) => return Err(Stop::NoMemory),
        };
        match places.push(place) {
            Ok(()) => {}
            Err(_) => return Err(Stop::NoMemory),
        }
    }
    Ok(places)
}

/// What is found for each key of the request, in its order.
fn seats_of<R: Threads + Sync>(
    rt: &R,
    alloc: Global,
    schema: &Schema,
    request: &Request,
    workers: u32,
) -> Result<Vec<Seat>, NoMemory>
    requires workers { 0 < workers }
    ensures { IfOk result (λ v. AreSought schema.now (expand request.now) v.items) }
{
    let count = request.count();
    let mut seats = Vec::new(alloc);
    for _number in 0..count {
        seats.push(Err(Unplaced::NoMemory))?;
    }
    let threads = if count < ENOUGH { 1 } else { workers };
    seek_all(rt, alloc, schema, request, threads, seats.as_mut_slice());
    Ok(seats)
}

/// Looks for the place of each key of the request, by so many threads that each take a share of the keys.
fn seek_all<R: Threads + Sync>(
    rt: &R,
    alloc: Global,
    schema: &Schema,
    request: &Request,
    threads: u32,
    seats: &mut [Seat],
)
    requires threads { 0 < threads }
    requires long { length seats.old ≡ length (expand request.now) }
    requires few { length (expand request.now) < 2 ^ 32 }
    ensures { AreSought schema.now (expand request.now) seats.new }
{
    let share = seats.len().div_ceil(threads as usize).max(1);
    thread::for_each_chunk_mut(
        rt,
        seats,
        share,
        &|start: usize, part: &mut [Seat]|
            requires { (start + length part.old ≤ length (expand request.now)) × (length (expand request.now) < 2 ^ 32) }
            ensures { AreSoughtFrom schema.entry.now (expand request.entry.now) start part.old part.new }
        { seek_share(alloc, schema, request, start, part) },
    );
}

/// Looks for the places of a share of the keys, which starts at this number. They are put into one key, the one after the other, so
/// that memory for them is asked for once.
fn seek_share(alloc: Global, schema: &Schema, request: &Request, start: usize, seats: &mut [Seat])
    requires within { start + length seats.old ≤ length (expand request.now) }
    requires few { length (expand request.now) < 2 ^ 32 }
    ensures { AreSoughtFrom schema.now (expand request.now) start seats.old seats.new }
{
    let mut room = Key::new(alloc).ok();
    for i in 0..seats.len() {
        seats[i] = place_of(&mut room, alloc, schema, request, (start + i) as u32);
    }
}

/// The place of the key with this number, which is put into this one, if there is room for it.
fn place_of(
    room: &mut Option<Key>,
    alloc: Global,
    schema: &Schema,
    request: &Request,
    number: u32,
) -> Seat
    requires { number < length (expand request.now) }
    ensures { IsSought schema.now (expand request.now) number result }
{
    let Some(key) = room else {
        return Err(Unplaced::NoMemory);
    };
    match request.key_into(key, alloc, number) {
        Ok(()) => {}
        Err(_) => return Err(Unplaced::NoMemory),
    }
    match schema.place(alloc, key) {
        Ok(place) => Ok(place),
        Err(PlaceFault::NoRule) => match key.text(alloc) {
            Ok(text) => Err(Unplaced::NoRule(text)),
            Err(_) => Err(Unplaced::NoMemory),
        },
        Err(PlaceFault::NoMemory) => Err(Unplaced::NoMemory),
    }
}
