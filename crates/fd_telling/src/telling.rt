// The lines that tell why a request isn't answered.
ghost use Rattle.std.specs.Prelude.{◌≡◌, List, ℕ, string_bytes, IfOk};
ghost use Rattle.fd_bytes.specs.Causes.{Rose};
ghost use Rattle.fd_schema.specs.{Grammar.{Fault}, Reading.{IsFirst}};
ghost use Rattle.fd_request.specs.Reading.{seen_kind};
ghost use Rattle.fd_stored.specs.Causes as causes;
ghost use Rattle.fd_outcome.specs.Told.{ToldOrNoMemory};
ghost use Rattle.fd_stored.specs.Causes.{InRequest, InStored, broken_text, damaged_line, file_text, hex_text, kind_text, telling};
ghost use Rattle.fd_outcome.specs.Unruled as rulings;
ghost use Rattle.fd_telling.specs.Stops.{OnDisk, ToldSome, ToldStop, ToldUnruled, seen_broken};

use crate::stop::{Broken, Stop};
use fd_disk::{FileKind, FileName, Store};
use fd_io::Sink;
use fd_outcome::{
    Unruled, is_request_limit, request_kind, tell, tell_input_failed, tell_limit, tell_made,
    tell_no_memory, tell_no_schema, tell_noted, tell_place, tell_text,
};
use fd_request::RequestKind;
use fd_schema::SchemaKind;
use fd_segment::Damage;
use fd_stored::Status;
use std::alloc::{AllocError, Global};

/// Writes the line of what isn't answered. A fault of the store is counted.
pub fn tell_stop<F: Send, X: Drop, S: Store<F>, E: Sink<X>>(
    alloc: Global,
    store: &mut S,
    report: &mut E,
    stop: Stop<F>,
) -> Status
    ensures told { ToldStop stop result (E.taken report.old) (E.taken report.new) (E.faults report.old) (E.faults report.new) }
    ensures noted { OnDisk stop (Rose (S.faults store.old) (S.faults store.new)) }
    ensures has { S.has store.new ≡ S.has store.old }
    ensures out { S.out store.new ≡ S.out store.old }
{
    match stop {
        Stop::Disk(fault) => tell_noted(store, report, fault),
        Stop::Input => tell_input_failed(report),
        Stop::Missing => tell(report, "refused SchemaMissing\n", Status::Refused),
        Stop::Schema { line, kind } => tell_schema(alloc, report, line, &kind),
        Stop::Request { at, kind } => tell_request(alloc, report, at, &kind),
        Stop::NoRule(text) => tell_text(
            alloc,
            report,
            "refused NoRule ",
            text.as_str(),
            Status::Refused,
        ),
        Stop::NoLayer { layer, key } => tell_place(
            alloc,
            report,
            "refused Layer ",
            layer,
            key.as_str(),
            Status::Refused,
        ),
        Stop::TooMany => tell(report, "limit TooMany 2049\n", Status::Limit),
        Stop::Broken { dataset, broken } => tell_broken(alloc, report, dataset.as_str(), broken),
        Stop::NoMemory => tell_no_memory(report),
    }
}

/// Writes the line of why a store has no rules. A fault of the store is counted.
pub fn tell_unruled<F: Send, X: Drop, S: Store<F>, E: Sink<X>>(
    alloc: Global,
    store: &mut S,
    report: &mut E,
    unruled: Unruled<F>,
) -> Status
    ensures told { ToldUnruled unruled result (E.taken report.old) (E.taken report.new) (E.faults report.old) (E.faults report.new) }
    ensures noted { rulings.OnDisk unruled (Rose (S.faults store.old) (S.faults store.new)) }
    ensures has { S.has store.new ≡ S.has store.old }
    ensures out { S.out store.new ≡ S.out store.old }
{
    match unruled {
        Unruled::Disk(fault) => tell_noted(store, report, fault),
        Unruled::Missing => tell(report, "refused SchemaMissing\n", Status::Refused),
        Unruled::At { line, kind } => tell_schema(alloc, report, line, &kind),
        Unruled::NoMemory => tell_no_memory(report),
    }
}

/// Writes the line of a stored text that is no schema.
pub fn tell_schema<X: Drop, E: Sink<X>>(
    alloc: Global,
    report: &mut E,
    line: u32,
    kind: &SchemaKind,
) -> Status
    ensures some { ToldSome result (E.taken report.old) (E.taken report.new) (E.faults report.old) (E.faults report.new) }
    ensures told { (text : List ℕ) (fault : Fault) → IsFirst text line kind.now fault
        → ToldOrNoMemory (telling (InStored text fault)).status (telling (InStored text fault)).line result (E.taken report.old) (E.taken report.new) (E.faults report.old) (E.faults report.new) }
{
    tell_no_schema(
        alloc,
        report,
        "damaged schema ",
        line,
        kind,
        Status::Damaged,
    )
}

/// Writes the line of an input that is no request.
fn tell_request<X: Drop, E: Sink<X>>(
    alloc: Global,
    report: &mut E,
    at: u32,
    kind: &RequestKind,
) -> Status
    ensures { let told = telling (InRequest (record { at = at; kind = seen_kind kind.now })) in ToldOrNoMemory told.status told.line result (E.taken report.old) (E.taken report.new) (E.faults report.old) (E.faults report.new) }
{
    let Ok(text) = request_kind(alloc, kind) else {
        return tell_no_memory(report);
    };
    if is_request_limit(kind) {
        tell_limit(alloc, report, text.as_str())
    } else {
        tell_place(
            alloc,
            report,
            "refused request ",
            at,
            text.as_str(),
            Status::Refused,
        )
    }
}

/// Writes the line of what is broken in a dataset.
pub fn tell_broken<X: Drop, E: Sink<X>>(
    alloc: Global,
    report: &mut E,
    dataset: &str,
    broken: Broken,
) -> Status
    ensures { ToldOrNoMemory Status.Damaged (damaged_line dataset.now (seen_broken broken)) result (E.taken report.old) (E.taken report.new) (E.faults report.old) (E.faults report.new) }
{
    let Ok(text) = broken_text(alloc, broken) else {
        return tell_no_memory(report);
    };
    let line = format!(in alloc; "damaged {dataset} {text}\n");
    tell_made(report, line, Status::Damaged)
}

/// What is broken, with its numbers.
fn broken_text(alloc: Global, broken: Broken) -> Result<String, AllocError>
    ensures { IfOk result (λ t. string_bytes t ≡ broken_text (seen_broken broken)) }
{
    match broken {
        Broken::Table {
            at,
            want,
            found: None,
        } => format!(in alloc; "NotATable {at} {want} -"),
        Broken::Table {
            at,
            want,
            found: Some(octet),
        } => format!(in alloc; "NotATable {at} {want} {octet}"),
        Broken::File(damage) => damage_text(alloc, damage),
    }
}

/// A damage, with its file and its numbers.
fn damage_text(alloc: Global, damage: Damage) -> Result<String, AllocError>
    ensures { IfOk result (λ t. string_bytes t ≡ broken_text (causes.BadFile damage)) }
{
    match damage {
        Damage::Absent { file } => {
            let file = file_text(alloc, file)?;
            format!(in alloc; "Absent {file}")
        }
        Damage::Length { file, want, got } => {
            let file = file_text(alloc, file)?;
            format!(in alloc; "Length {file} {want} {got}")
        }
        Damage::Index { file, at } => {
            let file = file_text(alloc, file)?;
            format!(in alloc; "Index {file} {at}")
        }
        Damage::Beyond { file, end, len } => {
            let file = file_text(alloc, file)?;
            format!(in alloc; "Beyond {file} {end} {len}")
        }
        Damage::IndexDigest { file, want, got } => {
            let file = file_text(alloc, file)?;
            let (want, got) = (hex_text(alloc, &want)?, hex_text(alloc, &got)?);
            format!(in alloc; "IndexDigest {file} {want} {got}")
        }
        Damage::FieldDigest {
            file,
            at,
            want,
            got,
        } => {
            let file = file_text(alloc, file)?;
            let (want, got) = (hex_text(alloc, &want)?, hex_text(alloc, &got)?);
            format!(in alloc; "FieldDigest {file} {at} {want} {got}")
        }
    }
}

/// The octets in hexadecimal digits.
fn hex_text(alloc: Global, octets: &[u8; 32]) -> Result<String, AllocError>
    ensures { IfOk result (λ t. string_bytes t ≡ hex_text octets.now) }
{
    hex::encode(alloc, octets.as_slice())
}

/// The name of a file.
fn file_text(alloc: Global, file: FileName) -> Result<String, AllocError>
    ensures { IfOk result (λ t. string_bytes t ≡ file_text file) }
{
    let FileName { writer, seq, kind } = file;
    let kind = kind_text(kind);
    format!(in alloc; "{writer}-{seq}.{kind}")
}

/// The ending of a file's name.
fn kind_text(kind: FileKind) -> &'static str
    ensures { result.now ≡ kind_text kind }
{
    match kind {
        FileKind::Fields => "fields",
        FileKind::Index => "index",
    }
}
