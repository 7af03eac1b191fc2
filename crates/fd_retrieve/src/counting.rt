// How many keys are found.
ghost use Rattle.std.specs.Prelude.{◌≡◌, ◌≤◌, ◌<◌, List, ℕ, Option, Some, None, false, length, map, filter, IfOk, IfErr, IfSome, slice_index_or};
ghost use Rattle.fd_disk.specs.Folders.{WhereTold};
ghost use Rattle.fd_schema.specs.{Reading.{seen_place}, declared.place.Place.{Place}};
ghost use Rattle.fd_outcome.specs.Trying.{tally_of};
ghost use Rattle.fd_stored.specs.{Distinct.{count_distinct}, Store.{Stays, has_table, table_at}};
ghost use Rattle.fd_ahead.specs.{Places.{AreIn}, Reading.{IsStock}};
ghost use Rattle.fd_answering.specs.{Damages.{IsDamagedAt}, Located.{IsAt}};
ghost use Rattle.fd_retrieve.specs.{Open.{table_in}, Located.{AreLocated, IsIn, OnLost}, Looking.{IsLookedThrough}, Counting.{IsBrokenAmong, IsLength, IsOfKeys, IsLostIn, IsTally, finds, with_length}, Tables.{datasets_in}};
ghost use Rattle.fd_telling.specs.Stops.{OnTooMany};

use crate::locating::{Lost, locate};
use crate::preparing::open_all;
use crate::tables::tables_of;
use fd_ahead::{Located, Opened, ReadStock, Stock};
use fd_answering::write_found;
use fd_bytes::NoMemory;
use fd_disk::{Folder, Sealed, Store};
use fd_finding::Finder;
use fd_io::{Gate, Sink};
use fd_retriever::{FetchFault, Got};
use fd_schema::Place;
use fd_segment::Damage;
use fd_telling::{Broken, Stop};
use std::alloc::Global;
use std::sync::Wait;
use std::thread::Threads;

/// How many keys were found, how many bytes these have, and how many keys were missed.
#[derive(Clone, Copy, Debug, PartialEq, Eq)]
pub struct Counted {
    pub found: u64,
    pub bytes: u64,
    pub missed: u64,
}

/// A sink that keeps nothing, and doesn't tell what it took.
#[derive(Clone, Copy, Debug, PartialEq, Eq)]
struct Unkept;

impl Sink<NoMemory> for Unkept {
    ghost taken = { λ s. None };

    ghost faults = { λ s. 0 };

    fn write(&mut self, bytes: &[u8]) -> Result<usize, NoMemory> {
        Ok(bytes.len())
    }
}

/// Looks for the newest fields of the keys of these places, reads them, and counts. The finder's workers look for the keys of each
/// dataset, side by side. No folder of the store is out, and none is out afterwards; nothing is made in the store.
pub fn count_found<F: Send + Drop, S: Store<F>, G: Gate, R: Threads + Wait + Sync>(
    finder: &Finder<'_, G, R>,
    store: &mut S,
    places: &[Place],
) -> Result<Counted, Stop<F>>
where
    requires workers { (1 ≤ finder.now.workers) × (finder.now.workers ≤ 8) }
    requires home { (n : List ℕ) → S.out store.old n ≡ false }
    // The newest fields are counted, where no dataset of the places is damaged.
    ensures counted { IfOk result (λ r. IfSome (S.has store.old) (λ h. (xs : List (Option (List ℕ))) → finds (table_at h) (map seen_place places.now) ≡ Some xs → IsTally r (tally_of xs))) }
    // What is told to be broken stands in a dataset of the places.
    ensures broken { IfErr result (λ e. IfSome (S.has store.old) (λ h. IsBrokenAmong e h (datasets_in places.now))) }
    // A fault of the store, damage, too many datasets and want of memory are all that is told.
    ensures of { IfErr result IsOfKeys }
    ensures too_many { IfErr result (λ e. OnTooMany e (IfSome (S.has store.old) (λ h. 2048 < count_distinct (filter (has_table h) (datasets_in places.now))))) }
    ensures many { IfErr result (λ e. OnTooMany e (2048 < count_distinct (datasets_in places.now))) }
    ensures stays { WhereTold (S.has store.old) (S.has store.new) Stays }
    ensures looks { WhereTold (S.has store.old) (S.has store.new) IsLookedThrough }
    ensures home { (n : List ℕ) → S.out store.new n ≡ false }
    ensures later { S.faults store.old ≤ S.faults store.new }
{
    let names = match tables_of(finder.alloc, store, places) {
        Ok(names) => names,
        Err(stop) => return Err(stop),
    };
    let opened = match open_all(finder.alloc, store, &names) {
        Ok(opened) => opened,
        Err(stop) => return Err(stop),
    };
    count_in(finder, &opened, places)
}

/// The same, in datasets that are open.
fn count_in<F: Send + Drop, Z: Sealed<F>, G: Gate, R: Threads + Wait + Sync>(
    finder: &Finder<'_, G, R>,
    opened: &[Opened<F, Z>],
    places: &[Place],
) -> Result<Counted, Stop<F>>
where
    requires workers { (1 ≤ finder.now.workers) × (finder.now.workers ≤ 8) }
    ensures counted { IfOk result (λ r. (xs : List (Option (List ℕ))) → finds (table_in opened.now) (map seen_place places.now) ≡ Some xs → IsTally r (tally_of xs)) }
    ensures broken { IfErr result (λ e. IsLostIn opened.now e) }
{
    let located = match locate(finder, opened, places) {
        Ok(located) => located,
        Err(lost) => return Err(stop_of(finder.alloc, lost, opened)),
    };
    match count_all(finder.alloc, opened, &located) {
        Ok(found) => Ok(found),
        Err(lost) => Err(stop_of(finder.alloc, lost, opened)),
    }
}

/// Why nothing was counted.
fn stop_of<F: Send, Z: Sealed<F>>(alloc: Global, lost: Lost<F>, opened: &[Opened<F, Z>]) -> Stop<F>
where
    requires stands { OnLost lost (IsDamagedAt opened.now) }
    ensures lost { IsLostIn opened.now result }
{
    match lost {
        Lost::Disk(fault) => Stop::Disk(fault),
        Lost::Damaged(number, damage) => match String::from_str(alloc, opened[number].name()) {
            Ok(dataset) => Stop::Broken {
                dataset,
                broken: Broken::File(damage),
            },
            Err(_) => Stop::NoMemory,
        },
        Lost::NoMemory => Stop::NoMemory,
    }
}

/// A damage, with where it was met: in the dataset of what was located.
fn lost_at<F>(located: Option<Located>, damage: Damage) -> Lost<F>
    requires { (l : Located) × (located ≡ Some l) }
    ensures { OnLost result (λ n d. (l : Located) × (located ≡ Some l) × (n ≡ l.number) × (d ≡ damage)) }
{
    let Some(located) = located else {
        unreachable!()
    };
    Lost::Damaged(located.number, damage)
}

/// Reads the bytes of a key, where it is located, and tells how many they are.
fn count_one<F: Send + Drop, Z: Sealed<F>>(
    alloc: Global,
    opened: &[Opened<F, Z>],
    located: Option<Located>,
    stock: &mut ReadStock<F, Z>,
) -> Result<Option<u64>, Lost<F>>
where
    requires within { IfSome located (IsIn opened.now) }
    requires stock { IsStock opened.now stock.old }
    ensures stock { IsStock opened.now stock.new }
    ensures one { IfOk result (λ o. (bytes : Option (List ℕ)) → IsAt opened.now bytes located → IsLength bytes o) }
    ensures damaged { IfErr result (λ e. OnLost e (IsDamagedAt opened.now)) }
{
    match write_found(alloc, opened, located, stock, &mut Unkept) {
        Ok(Got::Found(len)) => Ok(Some(len)),
        Ok(Got::Miss) => Ok(None),
        Err(FetchFault::Disk(fault)) => Err(Lost::Disk(fault)),
        Err(FetchFault::Damaged(damage)) => Err(lost_at(located, damage)),
        Err(FetchFault::Write(_)) | Err(FetchFault::NoMemory) => Err(Lost::NoMemory),
    }
}

/// One key more is counted; `None` where a count would pass its type.
fn with_key(so_far: Counted, len: Option<u64>) -> Option<Counted>
    ensures { IfSome result (λ r. r ≡ with_length so_far len) }
{
    let Counted {
        found,
        bytes,
        missed,
    } = so_far;
    match len {
        Some(len) => Some(Counted {
            found: found.checked_add(1)?,
            bytes: bytes.checked_add(len)?,
            missed,
        }),
        None => Some(Counted {
            found,
            bytes,
            missed: missed.checked_add(1)?,
        }),
    }
}

/// Reads the bytes of each key, where it is located, and counts.
fn count_all<F: Send + Drop, Z: Sealed<F>>(
    alloc: Global,
    opened: &[Opened<F, Z>],
    located: &[Option<Located>],
) -> Result<Counted, Lost<F>>
where
    requires within { AreIn opened.now located.now }
    ensures counted { IfOk result (λ r. (places : List Place) (xs : List (Option (List ℕ))) → AreLocated opened.now places located.now → finds (table_in opened.now) (map seen_place places) ≡ Some xs → IsTally r (tally_of xs)) }
    ensures damaged { IfErr result (λ e. OnLost e (IsDamagedAt opened.now)) }
{
    let mut stock = Stock::new(alloc);
    let mut so_far = Counted {
        found: 0,
        bytes: 0,
        missed: 0,
    };
    for i in 0..located.len() {
        let len = match count_one(alloc, opened, located[i], &mut stock) {
            Ok(len) => len,
            Err(lost) => return Err(lost),
        };
        match with_key(so_far, len) {
            Some(more) => so_far = more,
            None => return Err(Lost::NoMemory),
        }
    }
    Ok(so_far)
}
