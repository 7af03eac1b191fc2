// The line of `stats`.
ghost use Rattle.std.specs.{Prelude.{◌≡◌, ◌≤◌, ◌+◌, ◌*◌, ◌++◌, List, IfErr, IfOk, OnErr, OnOk, length, map, string_bytes, ℕ}, Fmt.{decimal}};
ghost use Rattle.fd_entries.specs.declared.batch.Pair.{Pair};
ghost use Rattle.fd_dataset.specs.Listed.{listing};
ghost use Rattle.fd_io.specs.Streams.{Takes, TakesFront};
ghost use Rattle.fd_segment.specs.Causes.{OnDamaged};
ghost use Rattle.fd_inventory.specs.{Counted.{AreKeys, stats_line}, Indexes.{IsAmongBad, OnLines, Tells}, Recorded.{ByRecords, TakesBy}, Shown.{AreLengths}, Written.{HasLinesCause}};
ghost use Rattle.fd_outcome.specs.Rows.{keys_in, put_keys, stats_text, sum_bytes, sum_fields};

use crate::fault::{LinesFault, lines_fault};
use crate::rows::records_of;
use fd_bytes::NoMemory;
use fd_dataset::Snapshot;
use fd_disk::Sealed;
use fd_index::Index;
use fd_io::{Sink, write_all};
use fd_segment::LensFault;
use std::alloc::Global;
use std::collections::BTreeMap;

/// Distinct keys.
type Keys = BTreeMap<Vec<u8>, ()>;

/// Adds the keys of an index, from the last record on.
fn add_keys(alloc: Global, index: &Index, keys: &mut Keys) -> Result<(), NoMemory>
    ensures { OnOk result ((b : List Pair) (ks : List (List ℕ)) → AreLengths index.now b → AreKeys keys.old.entries ks → AreKeys keys.new.entries (put_keys b ks)) }
{
    let mut left = index.len();
    while left > 0 {
        left -= 1;
        let (key, _, _) = index.record(left);
        let text = Vec::from_slice(alloc, key)?;
        keys.insert(text, ())?;
    }
    Ok(())
}

/// The distinct keys of a snapshot's segments.
fn keys_of<F: Send, Z: Sealed<F>>(
    alloc: Global,
    snapshot: &Snapshot<F, Z>,
) -> Result<Keys, LensFault<F>>
where
    ensures keys { IfOk result (λ m. ByRecords snapshot.now (λ t. AreKeys m.entries (keys_in t))) }
    ensures damaged { IfErr result (λ e. OnDamaged e (IsAmongBad snapshot.now)) }
{
    let mut keys = BTreeMap::new(alloc);
    let mut left = snapshot.len();
    while left > 0 {
        let index = records_of(alloc, snapshot.segment(left))?;
        match add_keys(alloc, &index, &mut keys) {
            Ok(()) => {}
            Err(_) => return Err(LensFault::NoMemory),
        }
        left -= 1;
    }
    Ok(keys)
}

/// A sum of numbers of fields, with one more.
fn plus_fields(sum: u64, fields: u32) -> u64
    requires { sum ≤ 65535 * 4294967296 }
    ensures sum { result ≡ sum + fields }
    ensures most { result ≤ sum + 4294967296 }
{
    sum + u64::from(fields)
}

/// A sum of lengths, with one more.
fn plus_length(sum: u128, length: u64) -> u128
    requires { sum ≤ 65535 * 18446744073709551616 }
    ensures sum { result ≡ sum + length }
    ensures most { result ≤ sum + 18446744073709551616 }
{
    sum + u128::from(length)
}

/// The sums of the fields and of the lengths of a snapshot's entries.
fn sums<F: Send, Z: Sealed<F>>(snapshot: &Snapshot<F, Z>) -> (u64, u128)
    ensures fields { result.0 ≡ sum_fields (map (λ s. s.files.entry) snapshot.now) }
    ensures bytes { result.1 ≡ sum_bytes (map (λ s. s.files.entry) snapshot.now) }
{
    let mut fields = 0u64;
    let mut bytes = 0u128;
    let mut left = snapshot.len();
    while left > 0 {
        let entry = snapshot.segment(left).entry();
        fields = plus_fields(fields, entry.fields);
        bytes = plus_length(bytes, entry.fields_len);
        left -= 1;
    }
    (fields, bytes)
}

/// Appends a word and a number.
fn push_number(line: &mut String, word: &str, number: u128) -> Result<(), NoMemory>
    ensures { OnOk result (string_bytes line.new ≡ string_bytes line.old ++ word.now ++ decimal number) }
{
    write!(line, "{word}{number}")?;
    Ok(())
}

/// The line of some numbers.
fn line_of(
    alloc: Global,
    dataset: &str,
    entries: u32,
    fields: u64,
    keys: usize,
    bytes: u128,
) -> Result<String, NoMemory>
    ensures { IfOk result (λ s. string_bytes s ≡ stats_line dataset.now entries fields keys bytes) }
{
    let mut line = String::from_str(alloc, dataset)?;
    push_number(&mut line, " entries ", u128::from(entries))?;
    push_number(&mut line, " fields ", u128::from(fields))?;
    push_number(&mut line, " keys ", keys as u128)?;
    push_number(&mut line, " bytes ", bytes)?;
    line.push('\n')?;
    Ok(line)
}

/// Writes the line of `stats` for a dataset: `DATASET entries n fields f keys k bytes b`, with its listed entries, the sum
/// of their fields, its distinct keys, and the sum of the lengths of its fields.
///
/// `Write` comes only where the sink's count of faults rose, `Disk` only with the fault of a file's call in this call,
/// `Damaged` only with an index among the snapshot's that isn't in its format. After a refusal a front of the line was
/// taken.
pub fn stats<F: Send, Z: Sealed<F>, X, K: Sink<X>>(
    alloc: Global,
    dataset: &str,
    snapshot: &Snapshot<F, Z>,
    sink: &mut K,
) -> Result<(), LinesFault<F, X>>
where
    ensures took { OnOk result ((t : List (List Pair)) → Tells (map listing snapshot.now) t → Takes (K.taken sink.old) (K.taken sink.new) (stats_text dataset.now (map (λ s. s.files.entry) snapshot.now) t)) }
    ensures recorded { OnOk result (TakesBy (stats_text dataset.now (map (λ s. s.files.entry) snapshot.now)) snapshot.now (K.taken sink.old) (K.taken sink.new)) }
    ensures front { OnErr result ((t : List (List Pair)) → Tells (map listing snapshot.now) t → TakesFront (K.taken sink.old) (K.taken sink.new) (stats_text dataset.now (map (λ s. s.files.entry) snapshot.now) t)) }
    ensures damaged { IfErr result (λ e. OnLines e (IsAmongBad snapshot.now)) }
    ensures cause { HasLinesCause result (K.faults sink.old) (K.faults sink.new) }
{
    let keys = match keys_of(alloc, snapshot) {
        Ok(keys) => keys,
        Err(fault) => return Err(lines_fault(fault)),
    };
    let (fields, bytes) = sums(snapshot);
    let Ok(line) = line_of(alloc, dataset, snapshot.len(), fields, keys.len(), bytes) else {
        return Err(LinesFault::NoMemory);
    };
    match write_all(sink, line.as_bytes()) {
        Ok(()) => Ok(()),
        Err(fault) => Err(LinesFault::Write(fault)),
    }
}
