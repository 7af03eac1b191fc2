// Which datasets of a request's places have a table.
ghost use Rattle.std.specs.Prelude.{◌≡◌, ◌≤◌, ◌<◌, List, ℕ, false, true, filter, length, map, IfOk, IfErr, IfSome, OnOk};
ghost use Rattle.fd_disk.specs.Folders.{WhereTold};
ghost use Rattle.fd_stored.specs.{Distinct.{count_distinct, is_among}, Store.{Stays, has_table}};
ghost use Rattle.fd_schema.specs.Reading.{seen_place};
ghost use Rattle.fd_spelling.specs.Texts.{texts};
ghost use Rattle.fd_retrieve.specs.{Looking.{IsLookedThrough}, Tables.{AreTables, MayAdd, MayNote, datasets_in}};
ghost use Rattle.fd_telling.specs.Stops.{NotRefused, OnTooMany};

use fd_disk::{Down, Folder, Store};
use fd_schema::Place;
use fd_spelling::is_one_of;
use fd_telling::Stop;
use std::alloc::Global;
use std::collections::BTreeMap;

/// How many datasets may be opened.
const MOST: usize = 2048;

/// Where names stand in their list.
type Noted = BTreeMap<String, usize>;

/// The datasets of the places that have a table, each once, in the order in which they are first met. `TooMany` comes
/// exactly where they are more than may be opened.
pub fn tables_of<F: Send, S: Store<F>>(
    alloc: Global,
    store: &mut S,
    places: &[Place],
) -> Result<Vec<String>, Stop<F>>
    requires home { (n : List ℕ) → S.out store.old n ≡ false }
    ensures tables { IfOk result (λ v. IfSome (S.has store.old) (λ h. AreTables h (datasets_in places.now) (texts v.items))) }
    ensures few { IfOk result (λ v. length v.items ≤ 2048) }
    ensures too_many { IfErr result (λ e. OnTooMany e (IfSome (S.has store.old) (λ h. 2048 < count_distinct (filter (has_table h) (datasets_in places.now))))) }
    ensures many { IfErr result (λ e. OnTooMany e (2048 < count_distinct (datasets_in places.now))) }
    ensures stops { IfErr result (NotRefused) }
    ensures stays { WhereTold (S.has store.old) (S.has store.new) Stays }
    ensures looks { WhereTold (S.has store.old) (S.has store.new) IsLookedThrough }
    ensures home { (n : List ℕ) → S.out store.new n ≡ false }
    ensures later { S.faults store.old ≤ S.faults store.new }
{
    let mut names = Vec::new(alloc);
    let mut noted = BTreeMap::new(alloc);
    for i in 0..places.len() {
        match add_table(alloc, store, &mut names, &mut noted, &places[i]) {
            Ok(()) => {}
            Err(stop) => return Err(stop),
        }
    }
    Ok(names)
}

/// Adds the dataset of a place, where it has a table and isn't among these.
fn add_table<F: Send, S: Store<F>>(
    alloc: Global,
    store: &mut S,
    names: &mut Vec<String>,
    noted: &mut Noted,
    place: &Place,
) -> Result<(), Stop<F>>
    requires home { (n : List ℕ) → S.out store.old n ≡ false }
    requires few { length names.old.items ≤ 2048 }
    ensures few { length names.new.items ≤ 2048 }
    ensures added { OnOk result (IfSome (S.has store.old) (λ h. MayAdd h (texts names.old.items) (seen_place place.now).dataset (texts names.new.items))) }
    ensures too_many { IfErr result (λ e. OnTooMany e (IfSome (S.has store.old) (λ h. (length names.old.items ≡ 2048) × (is_among (texts names.old.items) (seen_place place.now).dataset ≡ false) × (has_table h (seen_place place.now).dataset ≡ true)))) }
    ensures noted { OnOk result (MayNote (texts names.old.items) (seen_place place.now).dataset (texts names.new.items)) }
    ensures full { IfErr result (λ e. OnTooMany e ((length names.old.items ≡ 2048) × (is_among (texts names.old.items) (seen_place place.now).dataset ≡ false))) }
    ensures stops { IfErr result (NotRefused) }
    ensures stays { WhereTold (S.has store.old) (S.has store.new) Stays }
    ensures looks { WhereTold (S.has store.old) (S.has store.new) IsLookedThrough }
    ensures home { (n : List ℕ) → S.out store.new n ≡ false }
    ensures later { S.faults store.old ≤ S.faults store.new }
{
    let name = place.dataset();
    if is_known(names, noted, name) {
        return Ok(());
    }
    match has_table(alloc, store, name) {
        Ok(true) => {}
        Ok(false) => return Ok(()),
        Err(Down::Fault(fault)) => return Err(Stop::Disk(fault)),
        Err(Down::NoMemory) => return Err(Stop::NoMemory),
    }
    if names.len() == MOST {
        return Err(Stop::TooMany);
    }
    let Ok(text) = String::from_str(alloc, name) else {
        return Err(Stop::NoMemory);
    };
    note(alloc, noted, name, names.len());
    match names.push(text) {
        Ok(()) => Ok(()),
        Err(_) => Err(Stop::NoMemory),
    }
}

/// Notes where a name will stand. Where memory is refused for it, the name is looked for among all.
fn note(alloc: Global, noted: &mut Noted, name: &str, place: usize) {
    if let Ok(text) = String::from_str(alloc, name) {
        let _ = noted.insert(text, place);
    }
}

/// Tells that one of the names is this text, which is looked for first where it was noted.
fn is_known(names: &[String], noted: &Noted, text: &str) -> bool
    ensures { result ≡ is_among (texts names.now) text.now }
{
    if is_where_noted(names, noted, text) {
        return true;
    }
    is_one_of(names, text)
}

/// Tells that the name that stands where this text was noted is it.
fn is_where_noted(names: &[String], noted: &Noted, text: &str) -> bool
    ensures { result ≡ true → is_among (texts names.now) text.now ≡ true }
{
    let Some(place) = noted.get(text) else {
        return false;
    };
    let place = *place;
    if place < names.len() {
        return text == names[place].as_str();
    }
    false
}

/// Tells that a dataset of the store has a table, whose folder isn't out. One whose text has more than 255 bytes has none.
pub fn has_table<F: Send, S: Store<F>>(
    alloc: Global,
    store: &mut S,
    name: &str,
) -> Result<bool, Down<F>>
    requires home { (n : List ℕ) → S.out store.old n ≡ false }
    ensures there { IfOk result (λ b. IfSome (S.has store.old) (λ h. b ≡ has_table h name.now)) }
    ensures short { IfOk result (λ b. b ≡ true → length name.now ≤ 255) }
    ensures stays { WhereTold (S.has store.old) (S.has store.new) Stays }
    ensures looks { WhereTold (S.has store.old) (S.has store.new) IsLookedThrough }
    ensures home { (n : List ℕ) → S.out store.new n ≡ false }
    ensures later { S.faults store.old ≤ S.faults store.new }
{
    let mut folder = store.folder(alloc, name)?;
    let answer = match folder.table(alloc) {
        Ok(Some(table)) => {
            folder.give_table(table);
            Ok(true)
        }
        Ok(None) => Ok(false),
        Err(down) => Err(down),
    };
    store.give_folder(folder);
    answer
}
