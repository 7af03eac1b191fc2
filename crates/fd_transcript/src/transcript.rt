// The text of a transcript.
ghost use Rattle.std.specs.Prelude.{◌≡◌, ◌++◌, OnErr, OnOk, string_bytes};
ghost use Rattle.fd_io.specs.Streams.{Takes, TakesFront};
ghost use Rattle.fd_listing.specs.Sinks.{HasSinkCause, OnStarved};
ghost use Rattle.fd_transcript.specs.{History.{all_flushed, history_line, in_order}, Starving.{TakesShort}, Transcripts.{before_line, transcript_text}};

use crate::history::{all_listed, push_history};
use crate::steps::tell_lanes;
use fd_bytes::NoMemory;
use fd_io::Sink;
use fd_lanes::Transcript;
use fd_listing::{TextFault, write_text};
use fd_script::{Lane, Script};
use std::alloc::Global;

/// Appends the lines before those of the steps: the number of entries before, and the listed flushes.
fn push_front<F>(
    alloc: Global,
    lines: &mut String,
    lanes: &[Lane],
    transcript: &Transcript<F>,
) -> Result<(), NoMemory>
    ensures { OnOk result (string_bytes lines.new ≡ string_bytes lines.old ++ (before_line transcript.now.before ++ history_line (in_order transcript.now.before (all_flushed lanes.now transcript.now.lanes)))) }
{
    let before = transcript.before;
    let mut listed = all_listed(alloc, lanes, &transcript.lanes)?;
    write!(lines, "before {before}\n")?;
    push_history(alloc, lines, before, &mut listed)
}

/// Writes the transcript of a session's script: `before` and the number of entries that the table had; `history` and, in the
/// order of the table, the listed flushes, each as its lane's name, a full stop and its number among the lane's listed
/// flushes; and then for each lane and each of its steps the lane's name, the step's number and how it ended, and for a get
/// a line for each of its keys.
///
/// `Write` comes only where the sink's count of faults rose. After a refusal a front of the text was taken, and where
/// memory ran out, not all of it.
pub fn tell_transcript<F, X, K: Sink<X>>(
    alloc: Global,
    script: &Script,
    transcript: &Transcript<F>,
    report: &mut K,
) -> Result<(), TextFault<X>>
    ensures took { OnOk result (Takes (K.taken report.old) (K.taken report.new) (transcript_text transcript.now.before script.now.lanes transcript.now.lanes)) }
    ensures front { OnErr result (TakesFront (K.taken report.old) (K.taken report.new) (transcript_text transcript.now.before script.now.lanes transcript.now.lanes)) }
    ensures short { OnStarved result (TakesShort (K.taken report.old) (K.taken report.new) (transcript_text transcript.now.before script.now.lanes transcript.now.lanes)) }
    ensures cause { HasSinkCause result (K.faults report.old) (K.faults report.new) }
{
    let lanes = script.lanes();
    let mut lines = String::new(alloc);
    match push_front(alloc, &mut lines, lanes, transcript) {
        Ok(()) => {}
        Err(NoMemory) => return Err(TextFault::NoMemory),
    }
    match tell_lanes(&mut lines, lanes, &transcript.lanes, report) {
        Ok(()) => {}
        Err(fault) => return Err(fault),
    }
    write_text(report, lines.as_str())
}
