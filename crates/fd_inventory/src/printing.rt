// Texts as lines.
ghost use Rattle.std.specs.Prelude.{◌≡◌, ◌++◌, OnErr, OnOk, string_bytes};
ghost use Rattle.fd_io.specs.Streams.{Takes, TakesFront};
ghost use Rattle.fd_listing.specs.{Lines.{line}, Sinks.{HasSinkCause}};
ghost use Rattle.fd_spelling.specs.Texts as spellings;
ghost use Rattle.fd_inventory.specs.Written.{text_lines};

use fd_bytes::NoMemory;
use fd_io::Sink;
use fd_listing::{TextFault, write_many, write_text};
use std::alloc::Global;

/// Appends a text as a line.
fn push_line(lines: &mut String, text: &str) -> Result<(), NoMemory>
    ensures { OnOk result (string_bytes lines.new ≡ string_bytes lines.old ++ line text.now) }
{
    lines.push_str(text)?;
    lines.push('\n')?;
    Ok(())
}

/// Writes texts, each as a line, many at a time.
///
/// `Write` comes only where the sink's count of faults rose. After a refusal a front of the lines was taken.
pub fn write_lines<X, K: Sink<X>>(
    alloc: Global,
    texts: &[String],
    sink: &mut K,
) -> Result<(), TextFault<X>>
    ensures took { OnOk result (Takes (K.taken sink.old) (K.taken sink.new) (text_lines (spellings.texts texts.now))) }
    ensures front { OnErr result (TakesFront (K.taken sink.old) (K.taken sink.new) (text_lines (spellings.texts texts.now))) }
    ensures cause { HasSinkCause result (K.faults sink.old) (K.faults sink.new) }
{
    let mut lines = String::new(alloc);
    for text in texts {
        push_line(&mut lines, text.as_str())?;
        write_many(&mut lines, sink)?;
    }
    write_text(sink, lines.as_str())
}
