// The lines of `list`.
ghost use Rattle.std.specs.Prelude.{◌≡◌, ◌≤◌, ◌++◌, List, IfErr, OnErr, OnOk, length, map, string_bytes};
ghost use Rattle.fd_entries.specs.declared.batch.Pair.{Pair};
ghost use Rattle.fd_dataset.specs.Listed.{listing};
ghost use Rattle.fd_io.specs.Streams.{Takes, TakesFront};
ghost use Rattle.fd_listing.specs.Sinks.{HasSinkCause};
ghost use Rattle.fd_inventory.specs.{Indexes.{IsAmongBad, OnLines, Tells}, Recorded.{TakesBy}, Shown.{kept}, Written.{HasLinesCause, shown_line, shown_lines}};
ghost use Rattle.fd_outcome.specs.Rows.{list_text};

use crate::fault::{LinesFault, lines_fault};
use crate::rows::{Newest, Rows, rows_of};
use fd_bytes::NoMemory;
use fd_dataset::Snapshot;
use fd_disk::Sealed;
use fd_io::Sink;
use fd_listing::{TextFault, write_many, write_text};
use fd_request::Partial;
use std::alloc::Global;

/// Appends the line of a row.
fn push_row(
    lines: &mut String,
    dataset: &str,
    index: &str,
    datum: &str,
    newest: &Newest,
) -> Result<(), NoMemory>
    ensures { OnOk result (string_bytes lines.new ≡ string_bytes lines.old ++ shown_line dataset.now (record { index = index.now; datum = datum.now; len = newest.now.len; number = newest.now.number })) }
{
    let Newest { len, number } = *newest;
    write!(lines, "{dataset} {index} {datum} {len} {number}\n")?;
    Ok(())
}

/// Writes the lines of rows, many at a time.
fn write_rows<X, K: Sink<X>>(
    alloc: Global,
    dataset: &str,
    rows: &Rows,
    sink: &mut K,
) -> Result<(), TextFault<X>>
    ensures took { OnOk result (Takes (K.taken sink.old) (K.taken sink.new) (shown_lines dataset.now (map kept rows.now.entries))) }
    ensures front { OnErr result (TakesFront (K.taken sink.old) (K.taken sink.new) (shown_lines dataset.now (map kept rows.now.entries))) }
    ensures cause { HasSinkCause result (K.faults sink.old) (K.faults sink.new) }
{
    let mut lines = String::new(alloc);
    for (texts, newest) in rows {
        push_row(
            &mut lines,
            dataset,
            texts.0.as_str(),
            texts.1.as_str(),
            newest,
        )?;
        write_many(&mut lines, sink)?;
    }
    write_text(sink, lines.as_str())
}

/// Writes the lines of `list` for a dataset: `DATASET INDEX DATUM LENGTH NUMBER` for each of its keys that the partial
/// request asks for, ordered by index text and then datum text, with the length of the key's newest message and the number
/// of the entry that has it. A stored key that is no pairs in their one spelling is asked for by no request.
///
/// `Write` comes only where the sink's count of faults rose, `Disk` only with the fault of a file's call in this call,
/// `Damaged` only with an index among the snapshot's that isn't in its format. After a refusal a front of the lines was
/// taken.
pub fn list<F: Send, Z: Sealed<F>, X, K: Sink<X>>(
    alloc: Global,
    dataset: &str,
    snapshot: &Snapshot<F, Z>,
    partial: &Partial,
    sink: &mut K,
) -> Result<(), LinesFault<F, X>>
where
    requires short { length dataset.now ≤ 255 }
    ensures took { OnOk result ((t : List (List Pair)) → Tells (map listing snapshot.now) t → Takes (K.taken sink.old) (K.taken sink.new) (list_text partial.now dataset.now t)) }
    ensures recorded { OnOk result (TakesBy (list_text partial.now dataset.now) snapshot.now (K.taken sink.old) (K.taken sink.new)) }
    ensures front { OnErr result ((t : List (List Pair)) → Tells (map listing snapshot.now) t → TakesFront (K.taken sink.old) (K.taken sink.new) (list_text partial.now dataset.now t)) }
    ensures damaged { IfErr result (λ e. OnLines e (IsAmongBad snapshot.now)) }
    ensures cause { HasLinesCause result (K.faults sink.old) (K.faults sink.new) }
{
    let rows = match rows_of(alloc, dataset, snapshot, partial) {
        Ok(rows) => rows,
        Err(fault) => return Err(lines_fault(fault)),
    };
    match write_rows(alloc, dataset, &rows, sink) {
        Ok(()) => Ok(()),
        Err(TextFault::Write(fault)) => Err(LinesFault::Write(fault)),
        Err(TextFault::NoMemory) => Err(LinesFault::NoMemory),
    }
}
