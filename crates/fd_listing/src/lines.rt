// Lines that are held until there are many.
ghost use Rattle.std.specs.Prelude.{◌≤◌, OnOk, OnErr, string_bytes};
ghost use Rattle.fd_io.specs.Streams.{Takes, TakesFront};
ghost use Rattle.fd_listing.specs.Sinks.{HasSinkCause, OnStarved, TakesAllBut};

use crate::fault::TextFault;
use fd_io::{Sink, write_all};

/// How many bytes of lines are held before they are written.
const MOST_HELD: usize = 65_536;

/// Writes a text. It asks for no memory.
pub fn write_text<X, K: Sink<X>>(sink: &mut K, text: &str) -> Result<(), TextFault<X>>
    ensures took { OnOk result (Takes (K.taken sink.old) (K.taken sink.new) text.now) }
    ensures front { OnErr result (TakesFront (K.taken sink.old) (K.taken sink.new) text.now) }
    ensures count { K.faults sink.old ≤ K.faults sink.new }
    ensures cause { HasSinkCause result (K.faults sink.old) (K.faults sink.new) }
    ensures memory { OnStarved result ⊥ }
{
    match write_all(sink, text.as_bytes()) {
        Ok(()) => Ok(()),
        Err(fault) => Err(TextFault::Write(fault)),
    }
}

/// Writes the lines that are held once there are many, and lets go of them. It asks for no memory.
pub fn write_many<X, K: Sink<X>>(lines: &mut String, sink: &mut K) -> Result<(), TextFault<X>>
    ensures took { OnOk result (TakesAllBut (K.taken sink.old) (K.taken sink.new) (string_bytes lines.old) (string_bytes lines.new)) }
    ensures front { OnErr result (TakesFront (K.taken sink.old) (K.taken sink.new) (string_bytes lines.old)) }
    ensures count { K.faults sink.old ≤ K.faults sink.new }
    ensures cause { HasSinkCause result (K.faults sink.old) (K.faults sink.new) }
    ensures memory { OnStarved result ⊥ }
{
    if lines.len() < MOST_HELD {
        return Ok(());
    }
    match write_text(sink, lines.as_str()) {
        Ok(()) => {}
        Err(fault) => return Err(fault),
    }
    lines.clear();
    Ok(())
}
