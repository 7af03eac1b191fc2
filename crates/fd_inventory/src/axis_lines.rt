// How the names and values of index texts are written.
ghost use Rattle.std.specs.Prelude.{◌≡◌, ◌++◌, ◌∷◌, OnErr, OnOk, string_bytes, if◌then◌else◌};
ghost use Rattle.fd_io.specs.Streams.{Takes, TakesFront};
ghost use Rattle.fd_listing.specs.Sinks.{HasSinkCause};
ghost use Rattle.fd_inventory.specs.Axes.{axes_lines, axis_line, names_lines, seen_axes, seen_names, seen_values};
ghost use Rattle.fd_outcome.specs.Rows.{values_text};

use crate::axis::{Axes, Names, Values};
use fd_bytes::NoMemory;
use fd_io::Sink;
use fd_listing::{TextFault, write_many, write_text};
use std::alloc::Global;

/// Appends a value, with a slash before each but the first.
fn push_value(lines: &mut String, is_first: bool, value: &str) -> Result<(), NoMemory>
    ensures { OnOk result (string_bytes lines.new ≡ string_bytes lines.old ++ (if is_first then value.now else 47 ∷ value.now)) }
{
    if !is_first {
        lines.push('/')?;
    }
    lines.push_str(value)?;
    Ok(())
}

/// Appends values with slashes between them.
fn push_values(lines: &mut String, values: &Values) -> Result<(), NoMemory>
    ensures { OnOk result (string_bytes lines.new ≡ string_bytes lines.old ++ values_text (seen_values values.now.entries)) }
{
    let mut is_first = true;
    for (value, _) in values {
        push_value(lines, is_first, value.as_str())?;
        is_first = false;
    }
    Ok(())
}

/// Appends the line of a name.
fn push_name(
    lines: &mut String,
    dataset: &str,
    index: &str,
    name: &str,
    values: &Values,
) -> Result<(), NoMemory>
    ensures { OnOk result (string_bytes lines.new ≡ string_bytes lines.old ++ axis_line dataset.now index.now (name.now, seen_values values.now.entries)) }
{
    write!(lines, "{dataset} {index} {name}=")?;
    push_values(lines, values)?;
    lines.push('\n')?;
    Ok(())
}

/// Appends the lines of the names of an index text.
fn push_names(lines: &mut String, dataset: &str, index: &str, names: &Names) -> Result<(), NoMemory>
    ensures { OnOk result (string_bytes lines.new ≡ string_bytes lines.old ++ names_lines dataset.now index.now (seen_names names.now.entries)) }
{
    for (name, values) in names {
        push_name(lines, dataset, index, name.as_str(), values)?;
    }
    Ok(())
}

/// Writes the lines of index texts, many at a time.
pub(crate) fn write_axes<X, K: Sink<X>>(
    alloc: Global,
    dataset: &str,
    axes: &Axes,
    sink: &mut K,
) -> Result<(), TextFault<X>>
    ensures took { OnOk result (Takes (K.taken sink.old) (K.taken sink.new) (axes_lines dataset.now (seen_axes axes.now.entries))) }
    ensures front { OnErr result (TakesFront (K.taken sink.old) (K.taken sink.new) (axes_lines dataset.now (seen_axes axes.now.entries))) }
    ensures cause { HasSinkCause result (K.faults sink.old) (K.faults sink.new) }
{
    let mut lines = String::new(alloc);
    for (index, names) in axes {
        push_names(&mut lines, dataset, index.as_str(), names)?;
        write_many(&mut lines, sink)?;
    }
    write_text(sink, lines.as_str())
}
