// The lines on the report.
ghost use Rattle.std.specs.{Prelude.{◌≡◌, ◌≤◌, ◌++◌, List, ℕ, IfOk, codes, string_bytes}, Fmt.{decimal}};
ghost use Rattle.fd_bytes.specs.Causes.{Rose};
ghost use Rattle.fd_listing.specs.Lines.{line};
ghost use Rattle.fd_outcome.specs.{Ends.{disk_failed, input_failed, output_failed}, Told.{OnLongInput, Told, ToldOrNoMemory}};
ghost use Rattle.fd_stored.specs.Refusals.{refusal_line, refusal_status};

use fd_disk::Store;
use fd_io::{Sink, write_all};
use fd_split::Refusal;
use fd_stored::Status;
use std::alloc::{AllocError, Global};

/// Writes the text that goes with a status. Where it can't be written, the status is that of a failed output.
pub fn tell<X: Drop, E: Sink<X>>(report: &mut E, text: &str, status: Status) -> Status
    ensures { Told status text.now result (E.taken report.old) (E.taken report.new) (E.faults report.old) (E.faults report.new) }
{
    match write_all(report, text.as_bytes()) {
        Ok(()) => status,
        Err(_) => Status::OutputFault,
    }
}

/// Writes the line that tells that memory ran out.
pub fn tell_no_memory<X: Drop, E: Sink<X>>(report: &mut E) -> Status
    ensures { Told Status.NoMemory (line (codes "no memory")) result (E.taken report.old) (E.taken report.new) (E.faults report.old) (E.faults report.new) }
{
    tell(report, "no memory\n", Status::NoMemory)
}

/// Writes the line that tells that a read of the input failed.
pub fn tell_input_failed<X: Drop, E: Sink<X>>(report: &mut E) -> Status
    ensures { Told Status.InputFault input_failed result (E.taken report.old) (E.taken report.new) (E.faults report.old) (E.faults report.new) }
{
    tell(report, "input failed\n", Status::InputFault)
}

/// Writes the line that tells that a write of the output failed.
pub fn tell_output_failed<X: Drop, E: Sink<X>>(report: &mut E) -> Status
    ensures { Told Status.OutputFault output_failed result (E.taken report.old) (E.taken report.new) (E.faults report.old) (E.faults report.new) }
{
    tell(report, "output failed\n", Status::OutputFault)
}

/// Writes the line that tells that a call of the store failed.
pub fn tell_disk_failed<X: Drop, E: Sink<X>>(report: &mut E) -> Status
    ensures { Told Status.DiskFault disk_failed result (E.taken report.old) (E.taken report.new) (E.faults report.old) (E.faults report.new) }
{
    tell(report, "disk failed\n", Status::DiskFault)
}

/// Counts a fault of the store, and writes the line that tells it.
pub fn tell_noted<F: Send, X: Drop, S: Store<F>, E: Sink<X>>(
    store: &mut S,
    report: &mut E,
    fault: F,
) -> Status
    ensures told { Told Status.DiskFault disk_failed result (E.taken report.old) (E.taken report.new) (E.faults report.old) (E.faults report.new) }
    ensures noted { Rose (S.faults store.old) (S.faults store.new) }
    ensures has { S.has store.new ≡ S.has store.old }
    ensures out { S.out store.new ≡ S.out store.old }
    ensures later { S.faults store.old ≤ S.faults store.new }
{
    store.note(fault);
    tell_disk_failed(report)
}

/// Writes a line that was made. Where there was no memory for it, the status and the line tell that.
pub fn tell_made<X: Drop, E: Sink<X>>(
    report: &mut E,
    made: Result<String, AllocError>,
    status: Status,
) -> Status
    ensures { (text : List ℕ) → IfOk made (λ line. string_bytes line ≡ text) → ToldOrNoMemory status text result (E.taken report.old) (E.taken report.new) (E.faults report.old) (E.faults report.new) }
{
    match made {
        Ok(line) => tell(report, line.as_str(), status),
        Err(_) => tell_no_memory(report),
    }
}

/// Writes a text with a number at its end. Where there is no memory for it, the status and the line tell that.
pub fn tell_number<X: Drop, E: Sink<X>>(
    alloc: Global,
    report: &mut E,
    text: &str,
    number: u64,
    status: Status,
) -> Status
    ensures { ToldOrNoMemory status (line (text.now ++ decimal number)) result (E.taken report.old) (E.taken report.new) (E.faults report.old) (E.faults report.new) }
{
    tell_made(report, format!(in alloc; "{text}{number}\n"), status)
}

/// Writes the line of a refusal. That of an input which is longer than an input may be is always the same: want of memory isn't told
/// in its place.
pub fn tell_refusal<X: Drop, E: Sink<X>>(alloc: Global, report: &mut E, refusal: Refusal) -> Status
    ensures told { ToldOrNoMemory (refusal_status refusal) (refusal_line refusal) result (E.taken report.old) (E.taken report.new) (E.faults report.old) (E.faults report.new) }
    ensures input { OnLongInput refusal (Told Status.Limit (refusal_line Refusal.Input) result (E.taken report.old) (E.taken report.new) (E.faults report.old) (E.faults report.new)) }
{
    match refusal {
        Refusal::Message(at) => {
            let line = format!(in alloc; "refused message {at}\n");
            tell_made(report, line, Status::Refused)
        }
        Refusal::Cut(cut) => {
            let line = format!(in alloc; "refused message {cut}\n");
            tell_made(report, line, Status::Refused)
        }
        Refusal::NoMap { number, field } => {
            let line = format!(in alloc; "refused message {number} NoMap {field}\n");
            tell_made(report, line, Status::Refused)
        }
        Refusal::Key { number, fault } => {
            let line = format!(in alloc; "refused key {number} {fault}\n");
            tell_made(report, line, Status::Refused)
        }
        Refusal::Field { number, fault } => {
            let line = format!(in alloc; "refused field {number} {fault}\n");
            tell_made(report, line, Status::Refused)
        }
        Refusal::TooLong { len } => {
            tell_number(alloc, report, "limit TooLong ", len, Status::Limit)
        }
        Refusal::Points { points } => {
            tell_number(alloc, report, "limit Points ", points, Status::Limit)
        }
        Refusal::Input => tell(report, "limit Input 68719476736\n", Status::Limit),
    }
}
