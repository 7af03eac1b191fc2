ghost use Rattle.std.specs.Prelude.{◌≡◌, ◌≤◌, ◌++◌, IfOk, IfSome, OnOk, OnErr, string_bytes};
ghost use Rattle.fd_sections.specs.Parts.{sections_of};
ghost use Rattle.fd_packing.specs.{Field.{field_of}, Value.{values_of}};
ghost use Rattle.fd_io.specs.Streams.{Takes, TakesFront};
ghost use Rattle.fd_listing.specs.{Sinks.{HasSinkCause, HasValuesCause}, Values.{number_text, value_text, value_line, values_text, message_values, most_points, AnswersField, HoldsNoWant}};

use crate::fault::{TextFault, ValuesFault};
use crate::lines::{write_many, write_text};
use fd_bytes::NoMemory;
use fd_io::Sink;
use fd_packing::Field;
use fd_scaled::{DecimalFault, Scaled};
use fd_sections::Message;
use std::alloc::Global;

/// How many points a field may have.
const MOST_POINTS: u64 = 134_217_728;

/// The text of a value.
fn number_text(alloc: Global, value: &Scaled, decimals: Option<u8>) -> Result<String, NoMemory>
    requires { IfSome decimals (λ d. d ≤ 30) }
    ensures { IfOk result (λ t. string_bytes t ≡ number_text decimals value.now) }
{
    let Some(d) = decimals else {
        return value.text(alloc);
    };
    match value.decimals(alloc, d) {
        Ok(text) => Ok(text),
        Err(DecimalFault::TooWide) => value.text(alloc),
        Err(DecimalFault::NoMemory) => Err(NoMemory),
    }
}

/// The text of a point's value.
fn value_text(
    alloc: Global,
    value: Option<Scaled>,
    decimals: Option<u8>,
) -> Result<String, NoMemory>
    requires { IfSome decimals (λ d. d ≤ 30) }
    ensures { IfOk result (λ t. string_bytes t ≡ value_text decimals value) }
{
    match value {
        Some(value) => number_text(alloc, &value, decimals),
        None => Ok(String::from_str(alloc, "-")?),
    }
}

/// Appends the line of a text for a point.
fn push_line(lines: &mut String, number: u64, point: u64, value: &str) -> Result<(), NoMemory>
    ensures { OnOk result (string_bytes lines.new ≡ string_bytes lines.old ++ value_line number point value.now) }
{
    write!(lines, "{number} {point} {value}\n")?;
    Ok(())
}

/// Appends the line of a point.
fn push_point(
    alloc: Global,
    lines: &mut String,
    number: u64,
    point: u64,
    value: Option<Scaled>,
    decimals: Option<u8>,
) -> Result<(), NoMemory>
    requires { IfSome decimals (λ d. d ≤ 30) }
    ensures { OnOk result (string_bytes lines.new ≡ string_bytes lines.old ++ value_line number point (value_text decimals value)) }
{
    let text = value_text(alloc, value, decimals)?;
    push_line(lines, number, point, text.as_str())
}

/// Writes the lines of all points, many at a time.
fn write_values<X, K: Sink<X>>(
    alloc: Global,
    number: u64,
    field: &Field<'_>,
    decimals: Option<u8>,
    sink: &mut K,
) -> Result<(), TextFault<X>>
    requires decimals { IfSome decimals (λ d. d ≤ 30) }
    requires few { field.now.points ≤ most_points }
    ensures took { OnOk result (Takes (K.taken sink.old) (K.taken sink.new) (values_text number decimals (values_of field.now))) }
    ensures front { OnErr result (TakesFront (K.taken sink.old) (K.taken sink.new) (values_text number decimals (values_of field.now))) }
    ensures count { K.faults sink.old ≤ K.faults sink.new }
    ensures cause { HasSinkCause result (K.faults sink.old) (K.faults sink.new) }
{
    let mut lines = String::new(alloc);
    let mut points = field.values();
    let mut point = 0;
    'points: while let Some(value) = points.next() {
        push_point(alloc, &mut lines, number, point, value, decimals)?;
        write_many(&mut lines, sink)?;
        point += 1;
    }
    write_text(sink, lines.as_str())
}

/// Writes the values of a message, a line `MESSAGE POINT VALUE` for each point of its grid: the number of the message,
/// that of the point, from 0, and the value, exactly, or with so many decimals where it isn't too wide for them. A point
/// that the bit map leaves out has `-`.
///
/// `Field` comes exactly where the field is not read, and else `Points` exactly where it has more than 134,217,728
/// points; nothing was written then. `Write` comes where a write failed, after which a front of the lines was taken.
pub fn values<X, K: Sink<X>>(
    alloc: Global,
    number: u64,
    message: &Message<'_>,
    decimals: Option<u8>,
    sink: &mut K,
) -> Result<(), ValuesFault<X>>
    requires { IfSome decimals (λ d. d ≤ 30) }
    ensures took { OnOk result (Takes (K.taken sink.old) (K.taken sink.new) (message_values number decimals (sections_of message.now))) }
    ensures front { OnErr result (TakesFront (K.taken sink.old) (K.taken sink.new) (message_values number decimals (sections_of message.now))) }
    // The field's faults come exactly where it is refused.
    ensures field { AnswersField result (field_of (sections_of message.now)) }
    // Want of memory is an answer of its own, and never a fault of the field.
    ensures memory { HoldsNoWant result }
    ensures count { K.faults sink.old ≤ K.faults sink.new }
    ensures cause { HasValuesCause result (K.faults sink.old) (K.faults sink.new) }
{
    let field = match Field::read(alloc, message) {
        Ok(field) => field,
        Err(fault) => return Err(ValuesFault::Field(fault)),
    };
    let points = field.points();
    if points > MOST_POINTS {
        return Err(ValuesFault::Points(points));
    }
    match write_values(alloc, number, &field, decimals, sink) {
        Ok(()) => Ok(()),
        Err(TextFault::Write(fault)) => Err(ValuesFault::Write(fault)),
        Err(TextFault::NoMemory) => Err(ValuesFault::NoMemory),
    }
}
