//! Layers of datasets, the nearest first.
ghost use Rattle.std.specs.Prelude.{◌≡◌, false, IfOk, codes};

use crate::reading::{Counts, byte_of, places};
use crate::stores::{Listed, archived_in_memory, is_begun_in_memory, listed};
use crate::writing::{Key, SIZE, Two};
use fd_bytes::NoMemory;
use fd_dataset::Snapshot;
use fd_disk::{Sealed, Store};
use fd_disk_mem::{MemFault, MemStore};
use fd_finding::Finder;
use fd_io::MemSink;
use fd_overlay::{LayerSpot, Over, find_over};
use fd_retriever::{Got, Spot};
use fd_schema::Place;
use std::alloc::Global;
use std::process::Abort;
use std::sync::Wait;
use std::thread::Threads;

/// What is listed in the store that a crash left.
fn listed_in_memory<R: Wait>(
    rt: &R,
    alloc: Global,
    left: Result<MemStore, (MemStore, NoMemory)>,
) -> Option<Listed<MemFault, MemStore>>
where
    requires { IfOk left (λ s. ⟦<MemStore as Store<MemFault>>⟧.out s (codes "a=1") ≡ false) }
{
    listed(rt, alloc, left)
}

/// What is listed in a store in which a writer put two messages.
fn written<R: Wait>(rt: &R, alloc: Global, two: Two) -> Option<Listed<MemFault, MemStore>> {
    let Ok(mut store) = MemStore::new(alloc, 65_536, 256) else {
        return None;
    };
    is_begun_in_memory(alloc, &mut store);
    archived_in_memory(rt, alloc, &mut store, 1, two);
    let left = store.crash(alloc, 0);
    listed_in_memory(rt, alloc, left)
}

/// Fetches the message of a place, and tells the byte of which it consists.
fn fetched<F: Send + Drop, Z: Sealed<F>>(
    alloc: Global,
    over: &mut Over<F, Z>,
    place: &Place,
) -> Option<u8> {
    let Ok(mut sink) = MemSink::new(alloc, 1024, &[]) else {
        return None;
    };
    match over.fetch(alloc, place, &mut sink) {
        Ok(Got::Found(_)) => byte_of(sink.taken()),
        _ => None,
    }
}

/// The bytes of which the messages of three places consist.
fn all_fetched<F: Send + Drop, Z: Sealed<F>>(
    alloc: Global,
    layers: Vec<Snapshot<F, Z>>,
    places: &[Place; 3],
) -> Option<[Option<u8>; 3]> {
    let Ok(mut over) = Over::new(alloc, layers) else {
        return None;
    };
    let first = fetched(alloc, &mut over, &places[0]);
    let second = fetched(alloc, &mut over, &places[1]);
    Some([first, second, fetched(alloc, &mut over, &places[2])])
}

/// The spot with this number.
fn spot_at(spots: &[Option<LayerSpot>], i: usize) -> Option<LayerSpot> {
    *spots.get(i)?
}

/// Where three keys were found, and how often the first worker, the second and others passed the gate.
type Finding = ([Option<LayerSpot>; 3], [u64; 3]);

/// Finds three places by two workers.
fn all_found<F: Send + Drop, Z: Sealed<F>, R: Threads + Wait + Sync>(
    rt: &R,
    alloc: Global,
    layers: &[&Snapshot<F, Z>],
    places: &[Place; 3],
) -> Option<Finding> {
    let counts = Counts::new();
    let finder = Finder {
        rt,
        alloc,
        workers: 2,
        gate: &counts,
    };
    let Ok(spots) = find_over(&finder, layers, places.as_slice()) else {
        return None;
    };
    let three = [spot_at(&spots, 0), spot_at(&spots, 1), spot_at(&spots, 2)];
    Some((three, counts.all()))
}

/// What is found and fetched of three keys in two layers.
type Answered = (Finding, [Option<u8>; 3]);

fn answered<F: Send + Drop, Z: Sealed<F>, R: Threads + Wait + Sync>(
    rt: &R,
    alloc: Global,
    nearest: Snapshot<F, Z>,
    other: Snapshot<F, Z>,
) -> Option<Answered> {
    let Ok(places) = places(alloc, &[Key::B, Key::A, Key::C]) else {
        return None;
    };
    let found = all_found(rt, alloc, &[&nearest, &other], &places)?;
    let mut layers = Vec::new(alloc);
    layers.push(nearest).ok()?;
    layers.push(other).ok()?;
    let bytes = all_fetched(alloc, layers, &places)?;
    Some((found, bytes))
}

/// Where the bytes of a key stand, in the segment of this number of this layer.
const fn spot(layer: usize, number: u32) -> Option<LayerSpot> {
    let spot = Spot {
        number,
        at: 0,
        len: SIZE as u64,
    };
    Some(LayerSpot { layer, spot })
}

/// Two messages of the nearer layer and two of the other, one of them of the same key.
fn answered_in_memory<R: Threads + Wait + Sync>(rt: &R, alloc: Global) -> Option<Answered> {
    let nearest = Two {
        first: (Key::A, 3),
        second: (Key::C, 4),
        apart: true,
    };
    let other = Two {
        first: (Key::A, 1),
        second: (Key::B, 2),
        apart: true,
    };
    answered(
        rt,
        alloc,
        written(rt, alloc, nearest)?,
        written(rt, alloc, other)?,
    )
}

#[test]
fn the_nearest_layer_answers(rt: HostRuntime) {
    let found = [spot(1, 2), spot(0, 1), spot(0, 2)];
    let want = ((found, [2, 2, 0]), [Some(2), Some(3), Some(4)]);
    assert_eq!(rt; answered_in_memory(&rt, rt.alloc()), Some(want));
}
