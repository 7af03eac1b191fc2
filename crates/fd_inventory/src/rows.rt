// The rows of a dataset: for each of its keys that are asked for, where its newest field stands.
ghost use Rattle.std.specs.{Prelude.{◌≡◌, ◌≤◌, ◌+◌, ◌++◌, ◌∷◌, true, List, Some, IfOk, IfErr, OnOk, length}, List.Sorted.{IsStrictlySortedBy}, Map.{keys_of}};
ghost use Rattle.fd_entries.specs.declared.batch.Pair.{Pair};
ghost use Rattle.fd_segment.specs.{Causes.{IsBadIndex, OnDamaged}, Held.{IsIndexOf}};
ghost use Rattle.fd_inventory.specs.{Shown.{AreLengths, AreRows, IsNewestUnless, texts_order, with_entry}, Indexes.{IsAmongBad}, Keys.{HasLead}, Recorded.{ByRecords}};
ghost use Rattle.fd_outcome.specs.Rows.{Row, Stored, matches, put_matching, rows, rows_from, stored};

use crate::stored_key::{Reader, read_key};
use fd_bytes::NoMemory;
use fd_dataset::Snapshot;
use fd_disk::Sealed;
use fd_index::Index;
use fd_request::Partial;
use fd_segment::{LensFault, Segment};
use std::alloc::Global;
use std::collections::BTreeMap;

/// Where the newest field of a key stands.
#[derive(Clone, Copy, Debug, PartialEq, Eq)]
pub struct Newest {
    /// The length of the field in bytes.
    pub len: u64,
    /// The number of its entry in the table, from 1.
    pub number: u32,
}

/// Rows by the texts of their index and their datum.
pub type Rows = BTreeMap<(String, String), Newest>;

/// Adds a row, unless there is one of its texts.
fn add_row(rows: &mut Rows, index: String, datum: String, newest: Newest) -> Result<(), NoMemory>
    ensures entries { OnOk result (rows.new.entries ≡ with_entry rows.old.entries (index, datum) newest) }
    ensures ordered { OnOk result (IsStrictlySortedBy texts_order (keys_of rows.new.entries)) }
{
    rows.entry((index, datum))?.or_insert(newest);
    Ok(())
}

/// Adds a row for a key of an index, if it is asked for and has none yet.
fn add_record(
    alloc: Global,
    dataset: &str,
    key: &[u8],
    reader: Reader,
    newest: Newest,
    partial: &Partial,
    rows: &mut Rows,
) -> Result<Reader, NoMemory>
    requires short { length dataset.now ≤ 255 }
    requires lead { HasLead dataset.now reader }
    ensures row { OnOk result ((t : List (List Pair)) (rs : List Row) → ((s : Stored) → stored dataset.now key.now ≡ Some s → matches partial.now s.pairs ≡ true → IsNewestUnless t rs key.now s newest.len newest.number)
        → AreRows rows.old.entries rs → AreRows rows.new.entries (put_matching partial.now t key.now (stored dataset.now key.now) rs)) }
    ensures lead { IfOk result (HasLead dataset.now) }
{
    let read = read_key(alloc, dataset, key, reader)?;
    let (texts, reader) = read;
    let Some((index, datum)) = texts else {
        return Ok(reader);
    };
    if !partial.matches(&reader.room) {
        return Ok(reader);
    }
    let index = String::from_str(alloc, index)?;
    let datum = String::from_str(alloc, datum)?;
    add_row(rows, index, datum, newest)?;
    Ok(reader)
}

/// Adds rows for the keys of a batch, from its last record on.
fn add_records(
    alloc: Global,
    dataset: &str,
    index: &Index,
    number: u32,
    partial: &Partial,
    reader: Reader,
    rows: &mut Rows,
) -> Result<Reader, NoMemory>
    requires short { length dataset.now ≤ 255 }
    requires lead { HasLead dataset.now reader }
    ensures rows { OnOk result ((front later : List (List Pair)) (b : List Pair) → AreLengths index.now b → number ≡ 1 + length front
        → AreRows rows.old.entries (rows_from dataset.now partial.now (front ++ b ∷ later) later) → AreRows rows.new.entries (rows_from dataset.now partial.now (front ++ b ∷ later) (b ∷ later))) }
    ensures lead { IfOk result (HasLead dataset.now) }
{
    let mut left = index.len();
    let mut reader = reader;
    while left > 0 {
        left -= 1;
        let (key, _, len) = index.record(left);
        reader = add_record(
            alloc,
            dataset,
            key,
            reader,
            Newest { len, number },
            partial,
            rows,
        )?;
    }
    Ok(reader)
}

/// Reads the records of a segment.
pub(crate) fn records_of<F: Send, Z: Sealed<F>>(
    alloc: Global,
    segment: &Segment<F, Z>,
) -> Result<Index, LensFault<F>>
where
    ensures records { IfOk result (IsIndexOf segment.now.files.entry segment.now.files.index) }
    ensures damaged { IfErr result (λ e. OnDamaged e (IsBadIndex segment.now.files.entry segment.now.files.index)) }
{
    let mut lens = segment.lens(alloc)?;
    lens.records(alloc)
}

/// The rows of a dataset, where its snapshot tells its table, as this reader reads its keys.
fn rows_read<F: Send, Z: Sealed<F>>(
    alloc: Global,
    dataset: &str,
    snapshot: &Snapshot<F, Z>,
    partial: &Partial,
    reader: Reader,
) -> Result<Rows, LensFault<F>>
where
    requires short { length dataset.now ≤ 255 }
    requires lead { HasLead dataset.now reader }
    ensures rows { IfOk result (λ m. ByRecords snapshot.now (λ t. AreRows m.entries (rows dataset.now partial.now t))) }
    ensures damaged { IfErr result (λ e. OnDamaged e (IsAmongBad snapshot.now)) }
{
    let mut rows = BTreeMap::new(alloc);
    let mut reader = reader;
    let mut left = snapshot.len();
    while left > 0 {
        let index = records_of(alloc, snapshot.segment(left))?;
        reader = match add_records(alloc, dataset, &index, left, partial, reader, &mut rows) {
            Ok(reader) => reader,
            Err(_) => return Err(LensFault::NoMemory),
        };
        left -= 1;
    }
    Ok(rows)
}

/// The rows of a dataset, where its snapshot tells its table.
pub(crate) fn rows_of<F: Send, Z: Sealed<F>>(
    alloc: Global,
    dataset: &str,
    snapshot: &Snapshot<F, Z>,
    partial: &Partial,
) -> Result<Rows, LensFault<F>>
where
    requires { length dataset.now ≤ 255 }
    ensures rows { IfOk result (λ m. ByRecords snapshot.now (λ t. AreRows m.entries (rows dataset.now partial.now t))) }
    ensures damaged { IfErr result (λ e. OnDamaged e (IsAmongBad snapshot.now)) }
{
    let Ok(reader) = Reader::new(alloc) else {
        return Err(LensFault::NoMemory);
    };
    rows_read(alloc, dataset, snapshot, partial, reader)
}
