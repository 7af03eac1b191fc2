// Where the newest fields of a request's keys stand.
ghost use Rattle.std.specs.{Prelude.{◌≡◌, ◌≤◌, ◌<◌, ◌+◌, ◌++◌, ◌∷◌, [], List, ℕ, Option, Some, None, cond, length, slice_get, slice_index_or, IfOk, IfErr, IfSome, IsTrue, OnOk}, BTreeMap.{get_by_text}, Str.{bytes_eq}};
ghost use Rattle.fd_retrieve.specs.Located.{AreDealt, AreGroups, AreLocated, AreLocatedBy, AreNumbersOf, ArePlacesOf, AreWithin, IsFilled, IsNumberOf, IsRow, OnLost, keys_in, located_in, members};
ghost use Rattle.fd_answering.specs.Damages.{IsDamagedAt};

use fd_ahead::{Located, Opened};
use fd_bytes::NoMemory;
use fd_disk::Sealed;
use fd_finding::{Finder, find_all};
use fd_io::Gate;
use fd_retriever::Spot;
use fd_schema::Place;
use fd_segment::{Damage, LensFault};
use std::alloc::Global;
use std::collections::BTreeMap;
use std::sync::Wait;
use std::thread::Threads;

/// For each text the number of the first dataset with it.
type Numbers = BTreeMap<String, usize>;

/// Why keys aren't located.
#[derive(Drop)]
pub enum Lost<F> {
    /// A call of the store failed.
    Disk(F),
    /// This is damaged in the dataset with this number.
    Damaged(usize, Damage),
    /// An allocation was refused.
    NoMemory,
}

/// Keys by their datasets: for each key the number of its dataset, where that is open, and for each number its keys.
#[derive(Drop)]
struct Dealt {
    numbers: Vec<Option<usize>>,
    groups: Vec<Vec<usize>>,
}

/// The places of the keys of one dataset: lent where each key is one behind that before it, so that nothing is copied.
#[derive(Drop)]
enum Chosen<'a> {
    /// Some of the places, one behind the other.
    Lent(&'a [Place]),
    /// A copy of each.
    Copied(Vec<Place>),
}

impl Chosen<'_> {
    /// The places.
    fn as_slice(&self) -> &[Place]
        ensures { result.now ≡ members self.now }
    {
        match self {
            Chosen::Lent(places) => *places,
            Chosen::Copied(places) => places.as_slice(),
        }
    }
}

/// Finds where the newest bytes of each place's key stand, all keys of one dataset at once, by the finder's workers.
pub fn locate<F: Send + Drop, Z: Sealed<F>, G: Gate, R: Threads + Wait + Sync>(
    finder: &Finder<'_, G, R>,
    opened: &[Opened<F, Z>],
    places: &[Place],
) -> Result<Vec<Option<Located>>, Lost<F>>
where
    requires workers { (1 ≤ finder.now.workers) × (finder.now.workers ≤ 8) }
    ensures located { IfOk result (λ v. AreLocated opened.now places.now v.items) }
    ensures damaged { IfErr result (λ e. OnLost e (IsDamagedAt opened.now)) }
{
    let Ok(dealt) = deal(finder.alloc, opened, places) else {
        return Err(Lost::NoMemory);
    };
    let Ok(mut located) = nowhere(finder.alloc, places.len()) else {
        return Err(Lost::NoMemory);
    };
    for number in 0..opened.len() {
        match locate_in(finder, opened, number, places, &dealt, &mut located) {
            Ok(()) => {}
            Err(lost) => return Err(lost),
        }
    }
    Ok(located)
}

/// Finds the keys of the places that are in the dataset with this number.
fn locate_in<F: Send + Drop, Z: Sealed<F>, G: Gate, R: Threads + Wait + Sync>(
    finder: &Finder<'_, G, R>,
    opened: &[Opened<F, Z>],
    number: usize,
    places: &[Place],
    dealt: &Dealt,
    located: &mut [Option<Located>],
) -> Result<(), Lost<F>>
where
    requires number { number < length opened.now }
    requires dealt { AreDealt opened.now places.now dealt.now.numbers.items dealt.now.groups.items }
    requires long { length located.old ≡ length places.now }
    requires workers { (1 ≤ finder.now.workers) × (finder.now.workers ≤ 8) }
    ensures located { OnOk result (AreLocatedBy opened.now places.now dealt.now.numbers.items number located.old → AreLocatedBy opened.now places.now dealt.now.numbers.items (number + 1) located.new) }
    ensures long { OnOk result (length located.new ≡ length located.old) }
    ensures damaged { IfErr result (λ e. OnLost e (IsDamagedAt opened.now)) }
{
    let keys = keys_of(dealt.groups.as_slice(), number);
    let Ok(group) = group_of(finder.alloc, places, keys) else {
        return Err(Lost::NoMemory);
    };
    let dataset = &opened[number];
    match find_all(finder, dataset.snapshot(), group.as_slice()) {
        Ok(found) => {
            fill(number, keys, &found, located);
            Ok(())
        }
        Err(LensFault::Fault(fault)) => Err(Lost::Disk(fault)),
        Err(LensFault::Damaged(damage)) => Err(Lost::Damaged(number, damage)),
        Err(LensFault::NoMemory) => Err(Lost::NoMemory),
    }
}

/// Notes the number of a dataset at its text.
fn note_number(
    alloc: Global,
    noted: &mut Numbers,
    name: &str,
    number: usize,
) -> Result<(), NoMemory>
    ensures { OnOk result ((t : List ℕ) → get_by_text noted.new t ≡ cond (bytes_eq name.now t) (Some number) (get_by_text noted.old t)) }
{
    let text = String::from_str(alloc, name)?;
    noted.insert(text, number)?;
    Ok(())
}

/// The numbers of the datasets by their texts, noted from the last dataset on.
fn noted_numbers<F: Send, Z: Sealed<F>>(
    alloc: Global,
    opened: &[Opened<F, Z>],
) -> Result<Numbers, NoMemory>
    ensures { IfOk result (λ m. (t : List ℕ) → IsNumberOf opened.now t (get_by_text m t)) }
{
    let mut noted = BTreeMap::new(alloc);
    let mut left = opened.len();
    while left > 0 {
        left -= 1;
        note_number(alloc, &mut noted, opened[left].name(), left)?;
    }
    Ok(noted)
}

/// The number that is noted at a text.
fn noted_number(noted: &Numbers, name: &str) -> Option<usize>
    ensures { result ≡ get_by_text noted.now name.now }
{
    match noted.get(name) {
        Some(number) => Some(*number),
        None => None,
    }
}

/// For each place the number of its dataset, where it is open.
fn numbers_of<F: Send, Z: Sealed<F>>(
    alloc: Global,
    opened: &[Opened<F, Z>],
    places: &[Place],
) -> Result<Vec<Option<usize>>, NoMemory>
    ensures { IfOk result (λ v. AreNumbersOf opened.now places.now v.items) }
{
    let noted = noted_numbers(alloc, opened)?;
    let mut numbers = Vec::new(alloc);
    for i in 0..places.len() {
        numbers.push(noted_number(&noted, places[i].dataset()))?;
    }
    Ok(numbers)
}

/// So many keys of which none is located.
fn nowhere(alloc: Global, count: usize) -> Result<Vec<Option<Located>>, NoMemory>
    ensures long { IfOk result (λ v. length v.items ≡ count) }
    ensures none { IfOk result (λ v. (k : ℕ) (e : Option Located) → k < count → slice_index_or v.items k e ≡ None) }
{
    let mut located = Vec::new(alloc);
    for i in 0..count {
        located.push(None)?;
    }
    Ok(located)
}

/// So many groups without keys.
fn empty_groups(alloc: Global, count: usize) -> Result<Vec<Vec<usize>>, NoMemory>
    ensures long { IfOk result (λ v. length v.items ≡ count) }
    ensures none { IfOk result (λ v. (n : ℕ) → keys_in v.items n ≡ []) }
{
    let mut groups = Vec::new(alloc);
    for i in 0..count {
        groups.push(Vec::new(alloc))?;
    }
    Ok(groups)
}

/// Puts a key behind the others of its dataset, where that is open.
fn put_key(groups: &mut Vec<Vec<usize>>, of: Option<usize>, key: usize) -> Result<(), NoMemory>
    requires { IfSome of (λ n. n < length groups.old.items) }
    ensures own { OnOk result ((n : ℕ) → of ≡ Some n → keys_in groups.new.items n ≡ keys_in groups.old.items n ++ key ∷ []) }
    ensures others { OnOk result ((n : ℕ) → (of ≡ Some n → ⊥) → keys_in groups.new.items n ≡ keys_in groups.old.items n) }
    ensures long { OnOk result (length groups.new.items ≡ length groups.old.items) }
{
    match of {
        Some(number) => {
            groups[number].push(key)?;
            Ok(())
        }
        None => Ok(()),
    }
}

/// For each dataset its keys, in their order: all keys are gone over once.
fn groups_of(
    alloc: Global,
    count: usize,
    numbers: &[Option<usize>],
) -> Result<Vec<Vec<usize>>, NoMemory>
    requires { (k : ℕ) (d : Option ℕ) → k < length numbers.now → IfSome (slice_index_or numbers.now k d) (λ n. n < count) }
    ensures long { IfOk result (λ v. length v.items ≡ count) }
    ensures groups { IfOk result (λ v. AreGroups numbers.now (length numbers.now) v.items) }
{
    let mut groups = empty_groups(alloc, count)?;
    for i in 0..numbers.len() {
        put_key(&mut groups, numbers[i], i)?;
    }
    Ok(groups)
}

/// The keys of the places by their datasets.
fn deal<F: Send, Z: Sealed<F>>(
    alloc: Global,
    opened: &[Opened<F, Z>],
    places: &[Place],
) -> Result<Dealt, NoMemory>
    ensures { IfOk result (λ d. AreDealt opened.now places.now d.numbers.items d.groups.items) }
{
    let numbers = numbers_of(alloc, opened, places)?;
    let groups = groups_of(alloc, opened.len(), numbers.as_slice())?;
    Ok(Dealt { numbers, groups })
}

/// The keys of the dataset with this number.
fn keys_of(groups: &[Vec<usize>], number: usize) -> &[usize]
    requires { number < length groups.now }
    ensures { result.now ≡ keys_in groups.now number }
{
    groups[number].as_slice()
}

/// The key at a place of these, which are among so many.
fn key_at(keys: &[usize], place: usize, count: usize) -> usize
    requires place { place < length keys.now }
    requires within { AreWithin count keys.now }
    ensures is { slice_get keys.now place ≡ Some result }
    ensures within { result < count }
{
    keys[place]
}

/// A copy of the places of these keys, in their order.
fn copies_of(alloc: Global, places: &[Place], keys: &[usize]) -> Result<Vec<Place>, NoMemory>
    requires { AreWithin (length places.now) keys.now }
    ensures { IfOk result (λ v. ArePlacesOf places.now keys.now (length keys.now) v.items) }
{
    let mut group = Vec::new(alloc);
    for i in 0..keys.len() {
        let key = key_at(keys, i, places.len());
        group.push(places[key].again(alloc)?)?;
    }
    Ok(group)
}

/// Tells that these keys are the first one, the one behind it, and so on.
fn are_a_row(keys: &[usize], first: usize, count: usize) -> bool
    requires { AreWithin count keys.now }
    ensures { IsTrue result → IsRow first keys.now (length keys.now) }
{
    for i in 0..keys.len() {
        let key = key_at(keys, i, count);
        if key < i || key - i != first {
            return false;
        }
    }
    true
}

/// The places of these keys, where each key is one behind that before it.
fn row_of<'a>(places: &'a [Place], keys: &[usize]) -> Option<&'a [Place]>
    requires { AreWithin (length places.now) keys.now }
    ensures { IfSome result (λ s. ArePlacesOf places.now keys.now (length keys.now) s.now) }
{
    if keys.is_empty() {
        return None;
    }
    let first = key_at(keys, 0, places.len());
    if are_a_row(keys, first, places.len()) {
        Some(&places[first..first + keys.len()])
    } else {
        None
    }
}

/// The places of these keys, in their order.
fn group_of<'a>(alloc: Global, places: &'a [Place], keys: &[usize]) -> Result<Chosen<'a>, NoMemory>
    requires { AreWithin (length places.now) keys.now }
    ensures { IfOk result (λ g. ArePlacesOf places.now keys.now (length keys.now) (members g)) }
{
    match row_of(places, keys) {
        Some(row) => Ok(Chosen::Lent(row)),
        None => Ok(Chosen::Copied(copies_of(alloc, places, keys)?)),
    }
}

/// Where a key is located of which this was found, the one at a place of these, in the dataset with this number.
fn located_at(number: usize, found: &[Option<Spot>], place: usize) -> Option<Located>
    requires { place < length found.now }
    ensures { (s : Option Spot) × (slice_get found.now place ≡ Some s) × (result ≡ located_in number s) }
{
    match found[place] {
        Some(spot) => Some(Located { number, spot }),
        None => None,
    }
}

/// Notes for these keys of the dataset with this number where they were found.
fn fill(number: usize, keys: &[usize], found: &[Option<Spot>], located: &mut [Option<Located>])
    requires long { length found.now ≡ length keys.now }
    requires within { AreWithin (length located.old) keys.now }
    ensures { IsFilled number keys.now found.now (length keys.now) located.old located.new }
{
    let count = located.len();
    for i in 0..keys.len() {
        let key = key_at(keys, i, count);
        located[key] = located_at(number, found, i);
    }
}
