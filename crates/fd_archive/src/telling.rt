// The lines that tell what was stored, or why not all.
ghost use Rattle.std.specs.{Prelude.{◌++◌, codes}, Fmt.{decimal}};
ghost use Rattle.fd_listing.specs.Lines.{line};
ghost use Rattle.fd_outcome.specs.Told.{ToldOrNoMemory};
ghost use Rattle.fd_archive.specs.Telling.{ToldFault};

use fd_bulk::{Bulk, BulkFault};
use fd_io::Sink;
use fd_outcome::{
    tell, tell_disk_failed, tell_input_failed, tell_no_memory, tell_refusal, tell_text,
};
use fd_split::{Refusal, refusal_of};
use fd_stored::Status;
use fd_telling::{Broken, tell_broken};
use std::alloc::Global;

/// Writes the line of how many fields were stored, in how many datasets, and how many octets were skipped.
pub(crate) fn tell_counts<X: Drop, E: Sink<X>>(alloc: Global, report: &mut E, bulk: Bulk) -> Status
    ensures { ToldOrNoMemory Status.Done (line (codes "archived " ++ decimal bulk.fields ++ codes " datasets " ++ decimal bulk.datasets ++ codes " junk " ++ decimal bulk.junk)) result (E.taken report.old) (E.taken report.new) (E.faults report.old) (E.faults report.new) }
{
    let Bulk {
        fields,
        datasets,
        junk,
    } = bulk;
    match format!(in alloc; "archived {fields} datasets {datasets} junk {junk}\n") {
        Ok(line) => tell(report, line.as_str(), Status::Done),
        Err(_) => tell_no_memory(report),
    }
}

/// Writes the line of why not all is stored.
pub fn tell_fault<X: Drop, Y: Drop, E: Sink<Y>>(
    alloc: Global,
    report: &mut E,
    fault: BulkFault<X>,
) -> Status
    ensures { ToldFault fault result (E.taken report.old) (E.taken report.new) (E.faults report.old) (E.faults report.new) }
{
    match fault {
        BulkFault::Input(_) => tell_input_failed(report),
        BulkFault::Message(at) => tell_refusal(alloc, report, refusal_of(at)),
        BulkFault::NoMap { number, field } => {
            tell_refusal(alloc, report, Refusal::NoMap { number, field })
        }
        BulkFault::Cut(cut) => tell_refusal(alloc, report, Refusal::Cut(cut)),
        BulkFault::Key { number, fault } => {
            tell_refusal(alloc, report, Refusal::Key { number, fault })
        }
        BulkFault::InputLimit => tell_refusal(alloc, report, Refusal::Input),
        BulkFault::NoRule { number: _, key } => tell_text(
            alloc,
            report,
            "refused NoRule ",
            key.as_str(),
            Status::Refused,
        ),
        BulkFault::Disk => tell_disk_failed(report),
        BulkFault::NotATable {
            dataset,
            at,
            want,
            found,
        } => tell_broken(
            alloc,
            report,
            dataset.as_str(),
            Broken::Table { at, want, found },
        ),
        BulkFault::Damaged { dataset, damage } => {
            tell_broken(alloc, report, dataset.as_str(), Broken::File(damage))
        }
        BulkFault::TableFull { count: _ } => {
            tell(report, "limit TableFull 65535\n", Status::Limit)
        }
        BulkFault::TooMany { count: _ } => tell(report, "limit TooMany 2049\n", Status::Limit),
        BulkFault::NoMemory => tell_no_memory(report),
    }
}
