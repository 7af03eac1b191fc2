// The lines of `axes`: for each index text the names of its datum texts, and for each name its values.
ghost use Rattle.std.specs.{Prelude.{◌≡◌, ◌≤◌, [], List, Some, IfErr, IfOk, OnErr, OnOk, length, map}, List.Sorted.{IsStrictlySortedBy}, Map.{keys_of, lookup, remove_entry}};
ghost use Rattle.fd_entries.specs.declared.batch.Pair.{Pair};
ghost use Rattle.fd_key.specs.Pairs as keys;
ghost use Rattle.fd_dataset.specs.Listed.{listing};
ghost use Rattle.fd_io.specs.Streams.{Takes, TakesFront};
ghost use Rattle.fd_inventory.specs.{Axes.{AddsIndex, AreAxes, HaveData, at_text, entries_or_none, put_pair, put_pairs, seen_axes, seen_names, seen_values, text_order}, Indexes.{IsAmongBad, OnLines, Tells}, Recorded.{TakesBy}, Shown.{AreRows}, Written.{HasLinesCause}};
ghost use Rattle.fd_outcome.specs.Rows.{Row, axes_text, order, put, with_text};

use crate::axis_lines::write_axes;
use crate::fault::{LinesFault, lines_fault};
use crate::rows::{Rows, rows_of};
use crate::stored_key::add_text;
use fd_bytes::NoMemory;
use fd_dataset::Snapshot;
use fd_disk::Sealed;
use fd_io::Sink;
use fd_key::Key;
use fd_listing::{TextFault, write_many, write_text};
use fd_request::Partial;
use std::alloc::Global;
use std::collections::BTreeMap;

/// Distinct values.
pub(crate) type Values = BTreeMap<String, ()>;

/// The values of names.
pub(crate) type Names = BTreeMap<String, Values>;

/// The names of index texts.
pub(crate) type Axes = BTreeMap<String, Names>;

/// Takes out what stands at a text.
fn taken<V: Drop>(map: &mut BTreeMap<String, V>, text: &str) -> Option<V>
    ensures value { result ≡ lookup (at_text text.now) map.old.entries }
    ensures left { map.new.entries ≡ remove_entry (at_text text.now) map.old.entries }
    ensures ordered { IsStrictlySortedBy text_order (keys_of map.old.entries) }
{
    if map.len() == 0 {
        return None;
    }
    map.remove(text)
}

/// Takes out the map that stands at a text, or makes one where none does.
fn taken_or_new<V: Drop>(
    alloc: Global,
    map: &mut BTreeMap<String, BTreeMap<String, V>>,
    text: &str,
) -> BTreeMap<String, V>
    ensures entries { result.entries ≡ entries_or_none (lookup (at_text text.now) map.old.entries) }
    ensures left { map.new.entries ≡ remove_entry (at_text text.now) map.old.entries }
    ensures ordered { IsStrictlySortedBy text_order (keys_of map.old.entries) }
{
    match taken(map, text) {
        Some(inner) => inner,
        None => BTreeMap::new(alloc),
    }
}

/// Adds a value, unless it is there.
fn add_value(alloc: Global, values: &mut Values, value: &str) -> Result<(), NoMemory>
    ensures { OnOk result (seen_values values.new.entries ≡ put order value.now (seen_values values.old.entries)) }
{
    let text = String::from_str(alloc, value)?;
    values.insert(text, ())?;
    Ok(())
}

/// Adds a value of a name.
fn add_pair(alloc: Global, names: &mut Names, name: &str, value: &str) -> Result<(), NoMemory>
    ensures { OnOk result (seen_names names.new.entries ≡ put_pair name.now value.now (seen_names names.old.entries)) }
{
    let mut values = taken_or_new(alloc, names, name);
    add_value(alloc, &mut values, value)?;
    let text = String::from_str(alloc, name)?;
    names.insert(text, values)?;
    Ok(())
}

/// Adds the values of pairs, from the last one on.
fn add_pairs(alloc: Global, names: &mut Names, pairs: &Key) -> Result<(), NoMemory>
    ensures { OnOk result (seen_names names.new.entries ≡ put_pairs pairs.now (seen_names names.old.entries)) }
{
    let mut left = pairs.len();
    while left > 0 {
        left -= 1;
        let (name, value) = pairs.pair(left);
        add_pair(alloc, names, name, value)?;
    }
    Ok(())
}

/// Adds the values of pairs of an index text.
fn add_index(alloc: Global, axes: &mut Axes, index: &str, pairs: &Key) -> Result<(), NoMemory>
    ensures { OnOk result (AddsIndex index.now pairs.now (seen_axes axes.old.entries) (seen_axes axes.new.entries)) }
{
    let mut names = taken_or_new(alloc, axes, index);
    add_pairs(alloc, &mut names, pairs)?;
    let text = String::from_str(alloc, index)?;
    axes.insert(text, names)?;
    Ok(())
}

/// The pairs that a datum text is. No stored key has a longer text than 256 bytes, nor one that isn't pairs.
fn pairs_of(alloc: Global, datum: &str) -> Result<Key, NoMemory>
    ensures { IfOk result (λ k. (ps : List keys.Pair) → length datum.now ≤ 256 → with_text [] datum.now ≡ Some ps → k ≡ ps) }
{
    let mut pairs = Key::new(alloc)?;
    if datum.len() <= 256 {
        add_text(alloc, &mut pairs, datum)?;
    }
    Ok(pairs)
}

/// Adds the values of a datum text of an index text.
fn add_datum(alloc: Global, axes: &mut Axes, index: &str, datum: &str) -> Result<(), NoMemory>
    ensures { OnOk result ((ps : List keys.Pair) → length datum.now ≤ 256 → with_text [] datum.now ≡ Some ps → AddsIndex index.now ps (seen_axes axes.old.entries) (seen_axes axes.new.entries)) }
{
    let pairs = pairs_of(alloc, datum)?;
    add_index(alloc, axes, index, &pairs)
}

/// The values of the names of rows, from the last row on.
fn axes_of(alloc: Global, rows: Rows) -> Result<Axes, NoMemory>
    ensures { IfOk result (λ m. (rs : List Row) → HaveData rs → AreRows rows.entries rs → AreAxes m.entries rs) }
{
    let mut rows = rows;
    let mut axes = BTreeMap::new(alloc);
    while let Some((texts, _)) = rows.pop_last() {
        add_datum(alloc, &mut axes, texts.0.as_str(), texts.1.as_str())?;
    }
    Ok(axes)
}

/// Writes the lines of `axes` for a dataset: for each index text of the keys that the partial request asks for, and for each
/// name in their datum texts, `DATASET INDEX NAME=V/W` with the values that these keys have. Index texts, names and values
/// stand in byte order, each once. A stored key that is no pairs in their one spelling is asked for by no request.
///
/// `Write` comes only where the sink's count of faults rose, `Disk` only with the fault of a file's call in this call,
/// `Damaged` only with an index among the snapshot's that isn't in its format. After a refusal a front of the lines was
/// taken.
pub fn axes<F: Send, Z: Sealed<F>, X, K: Sink<X>>(
    alloc: Global,
    dataset: &str,
    snapshot: &Snapshot<F, Z>,
    partial: &Partial,
    sink: &mut K,
) -> Result<(), LinesFault<F, X>>
where
    requires short { length dataset.now ≤ 255 }
    ensures took { OnOk result ((t : List (List Pair)) → Tells (map listing snapshot.now) t → Takes (K.taken sink.old) (K.taken sink.new) (axes_text partial.now dataset.now t)) }
    ensures recorded { OnOk result (TakesBy (axes_text partial.now dataset.now) snapshot.now (K.taken sink.old) (K.taken sink.new)) }
    ensures front { OnErr result ((t : List (List Pair)) → Tells (map listing snapshot.now) t → TakesFront (K.taken sink.old) (K.taken sink.new) (axes_text partial.now dataset.now t)) }
    ensures damaged { IfErr result (λ e. OnLines e (IsAmongBad snapshot.now)) }
    ensures cause { HasLinesCause result (K.faults sink.old) (K.faults sink.new) }
{
    let rows = match rows_of(alloc, dataset, snapshot, partial) {
        Ok(rows) => rows,
        Err(fault) => return Err(lines_fault(fault)),
    };
    let Ok(axes) = axes_of(alloc, rows) else {
        return Err(LinesFault::NoMemory);
    };
    match write_axes(alloc, dataset, &axes, sink) {
        Ok(()) => Ok(()),
        Err(TextFault::Write(fault)) => Err(LinesFault::Write(fault)),
        Err(TextFault::NoMemory) => Err(LinesFault::NoMemory),
    }
}
