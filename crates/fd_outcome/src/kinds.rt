// The kinds of what is wrong in a schema or a request, as texts.
ghost use Rattle.std.specs.{Prelude.{◌≡◌, ◌⊎◌, ◌++◌, ℕ, List, codes, string_bytes, IfOk}, Fmt.{decimal}};
ghost use Rattle.fd_listing.specs.Lines.{blank, line};
ghost use Rattle.fd_schema.specs.Grammar as schemas;
ghost use Rattle.fd_schema.specs.{Reading.{IsFirst, Names}, FaultTexts.{schema_wrong_text}};
ghost use Rattle.fd_request.specs.{Reading.{seen_kind}, FaultTexts.{request_kind_text}};
ghost use Rattle.fd_outcome.specs.Told.{Told, ToldOrNoMemory};
ghost use Rattle.fd_stored.specs.Causes.{is_schema_limit, is_request_limit, no_schema};

use crate::report::{tell_made, tell_no_memory};
use fd_io::Sink;
use fd_request::RequestKind;
use fd_schema::SchemaKind;
use fd_stored::Status;
use std::alloc::{AllocError, Global};

/// The kind of what is wrong in a schema, with its numbers.
#[tactic(auto, using(fd_schema::proofs::Printing::named_text))]
fn schema_kind(alloc: Global, kind: &SchemaKind) -> Result<String, AllocError>
    ensures { IfOk result (λ t. (byte : ℕ) (wrong : schemas.Wrong) → Names kind.now byte wrong → string_bytes t ≡ schema_wrong_text byte wrong) }
{
    format!(in alloc; "{kind}")
}

/// Tells that a schema passes a limit.
fn is_schema_limit(kind: &SchemaKind) -> bool
    ensures { (byte : ℕ) (wrong : schemas.Wrong) → Names kind.now byte wrong → result ≡ is_schema_limit wrong }
{
    match kind {
        SchemaKind::TooLong => true,
        SchemaKind::TooMany { .. } => true,
        _ => false,
    }
}

/// The kind of what is wrong in a request, with its numbers.
pub fn request_kind(alloc: Global, kind: &RequestKind) -> Result<String, AllocError>
    ensures { IfOk result (λ t. string_bytes t ≡ request_kind_text kind.now) }
{
    format!(in alloc; "{kind}")
}

/// Tells that a request passes a limit.
pub fn is_request_limit(kind: &RequestKind) -> bool
    ensures { result ≡ is_request_limit (seen_kind kind.now) }
{
    match kind {
        RequestKind::TooLong => true,
        RequestKind::TooMany { .. } => true,
        _ => false,
    }
}

/// Writes the line of a limit.
pub fn tell_limit<X: Drop, E: Sink<X>>(alloc: Global, report: &mut E, kind: &str) -> Status
    ensures { ToldOrNoMemory Status.Limit (line (codes "limit " ++ kind.now)) result (E.taken report.old) (E.taken report.new) (E.faults report.old) (E.faults report.new) }
{
    tell_made(report, format!(in alloc; "limit {kind}\n"), Status::Limit)
}

/// Writes the line of a status: a text, a number, a blank, and a kind.
pub fn tell_place<X: Drop, E: Sink<X>>(
    alloc: Global,
    report: &mut E,
    text: &str,
    number: u32,
    kind: &str,
    status: Status,
) -> Status
    ensures { ToldOrNoMemory status (line (text.now ++ decimal number ++ blank kind.now)) result (E.taken report.old) (E.taken report.new) (E.faults report.old) (E.faults report.new) }
{
    tell_made(report, format!(in alloc; "{text}{number} {kind}\n"), status)
}

/// Writes the line of a text and another one.
pub fn tell_text<X: Drop, E: Sink<X>>(
    alloc: Global,
    report: &mut E,
    text: &str,
    more: &str,
    status: Status,
) -> Status
    ensures { ToldOrNoMemory status (line (text.now ++ more.now)) result (E.taken report.old) (E.taken report.new) (E.faults report.old) (E.faults report.new) }
{
    tell_made(report, format!(in alloc; "{text}{more}\n"), status)
}

/// Writes the line of a text that is no schema: that of the limit which it passes, or these words, the line's number, and what is
/// wrong there.
pub fn tell_no_schema<X: Drop, E: Sink<X>>(
    alloc: Global,
    report: &mut E,
    words: &str,
    line: u32,
    kind: &SchemaKind,
    status: Status,
) -> Status
    ensures told { (source : List ℕ) (fault : schemas.Fault) → IsFirst source line kind.now fault
        → ToldOrNoMemory (no_schema words.now status source fault).status (no_schema words.now status source fault).line result (E.taken report.old) (E.taken report.new) (E.faults report.old) (E.faults report.new) }
    ensures some { (s : Status) × (told : List ℕ) × ((s ≡ status) ⊎ ((s ≡ Status.Limit) ⊎ (s ≡ Status.NoMemory))) × Told s told result (E.taken report.old) (E.taken report.new) (E.faults report.old) (E.faults report.new) }
{
    let Ok(text) = schema_kind(alloc, kind) else {
        return tell_no_memory(report);
    };
    if is_schema_limit(kind) {
        tell_limit(alloc, report, text.as_str())
    } else {
        tell_place(alloc, report, words, line, text.as_str(), status)
    }
}
