// The lines that tell why a session isn't run.
ghost use Rattle.std.specs.Prelude.{◌≡◌, Some, None, IfOk, string_bytes, option_map};
ghost use Rattle.fd_script.specs.Grammar as scripts;
ghost use Rattle.fd_script.specs.Reading.{seen_wrong};
ghost use Rattle.fd_outcome.specs.Told.{ToldOrNoMemory};
ghost use Rattle.fd_session.specs.Telling.{limit_text, line_refused, miscast_telling, script_telling, wrong_text};

use fd_casting::{Miscast, miscast_text};
use fd_io::Sink;
use fd_outcome::{is_request_limit, request_kind, tell_limit, tell_no_memory, tell_place};
use fd_request::RequestFault;
use fd_script::ScriptKind;
use fd_stored::Status;
use std::alloc::{AllocError, Global};

/// What is wrong with a line of a script.
#[tactic(auto, using(crate::proofs::Wrongs::named_text))]
fn wrong_text(alloc: Global, kind: &ScriptKind) -> Result<String, AllocError>
    ensures { IfOk result (λ t. (w : scripts.Wrong) → seen_wrong kind.now ≡ Some w → string_bytes t ≡ wrong_text w) }
{
    format!(in alloc; "{kind}")
}

/// The limit that a line of a script passes, if it does.
fn limit_text(alloc: Global, kind: &ScriptKind) -> Result<Option<String>, AllocError>
    ensures { IfOk result (λ o. (w : scripts.Wrong) → seen_wrong kind.now ≡ Some w → option_map string_bytes o ≡ limit_text w) }
{
    match kind {
        ScriptKind::TooLong => Ok(Some(String::from_str(alloc, "TooLong")?)),
        ScriptKind::TooMany { count } => Ok(Some(format!(in alloc; "TooMany {count}")?)),
        ScriptKind::Request(RequestFault::At { at: _, kind }) => {
            if is_request_limit(kind) {
                Ok(Some(request_kind(alloc, kind)?))
            } else {
                Ok(None)
            }
        }
        _ => Ok(None),
    }
}

/// Writes that a line of a script is refused, for the reason of this text.
fn tell_line_refused<X: Drop, E: Sink<X>>(
    alloc: Global,
    report: &mut E,
    line: u32,
    text: &str,
) -> Status
    ensures { ToldOrNoMemory (line_refused line text.now).status (line_refused line text.now).line result (E.taken report.old) (E.taken report.new) (E.faults report.old) (E.faults report.new) }
{
    tell_place(
        alloc,
        report,
        "refused script ",
        line,
        text,
        Status::Refused,
    )
}

/// Writes the line of what is wrong with a script.
pub fn tell_script<X: Drop, E: Sink<X>>(
    alloc: Global,
    report: &mut E,
    line: u32,
    kind: &ScriptKind,
) -> Status
    ensures { (w : scripts.Wrong) → seen_wrong kind.now ≡ Some w
        → ToldOrNoMemory (script_telling line w).status (script_telling line w).line result (E.taken report.old) (E.taken report.new) (E.faults report.old) (E.faults report.new) }
{
    let Ok(text) = wrong_text(alloc, kind) else {
        return tell_no_memory(report);
    };
    match limit_text(alloc, kind) {
        Ok(Some(limit)) => tell_limit(alloc, report, limit.as_str()),
        Ok(None) => tell_line_refused(alloc, report, line, text.as_str()),
        Err(_) => tell_no_memory(report),
    }
}

/// Writes the line of a step that can't be done.
pub fn tell_miscast<X: Drop, E: Sink<X>>(
    alloc: Global,
    report: &mut E,
    line: u32,
    kind: Miscast,
) -> Status
    ensures { ToldOrNoMemory (miscast_telling line kind).status (miscast_telling line kind).line result (E.taken report.old) (E.taken report.new) (E.faults report.old) (E.faults report.new) }
{
    match miscast_text(alloc, kind) {
        Ok(text) => tell_line_refused(alloc, report, line, text.as_str()),
        Err(_) => tell_no_memory(report),
    }
}
