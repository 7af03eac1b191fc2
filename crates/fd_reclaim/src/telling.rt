// The lines on the report.
ghost use Rattle.std.specs.Prelude.{◌≡◌};
ghost use Rattle.fd_bytes.specs.Causes.{Rose};
ghost use Rattle.fd_outcome.specs.{Reclaiming.{purged_line, wiped_line}, Told.{ToldOrNoMemory}};
ghost use Rattle.fd_stored.specs.Causes.{WriterTooGreat, telling};
ghost use Rattle.fd_reclaim.specs.Halts.{OnDisk, ToldHalt};

use crate::halt::Halt;
use fd_disk::Store;
use fd_io::Sink;
use fd_outcome::{tell, tell_made, tell_no_memory, tell_noted, tell_place};
use fd_purge::Purged;
use fd_stored::Status;
use fd_telling::{tell_broken, tell_schema};
use std::alloc::Global;

/// Writes how many entries were dropped, and how many are kept.
pub(crate) fn tell_purged<X: Drop, E: Sink<X>>(
    alloc: Global,
    report: &mut E,
    purged: Purged,
) -> Status
    ensures { ToldOrNoMemory Status.Done (purged_line purged.dropped purged.kept) result (E.taken report.old) (E.taken report.new) (E.faults report.old) (E.faults report.new) }
{
    let Purged { dropped, kept } = purged;
    let line = format!(in alloc; "purged {dropped} kept {kept}\n");
    tell_made(report, line, Status::Done)
}

/// Writes how many entries were wiped.
pub(crate) fn tell_wiped<X: Drop, E: Sink<X>>(alloc: Global, report: &mut E, count: u32) -> Status
    ensures { ToldOrNoMemory Status.Done (wiped_line count) result (E.taken report.old) (E.taken report.new) (E.faults report.old) (E.faults report.new) }
{
    let line = format!(in alloc; "wiped {count}\n");
    tell_made(report, line, Status::Done)
}

/// Writes which entry has a writer that is too great.
fn tell_writers<X: Drop, E: Sink<X>>(
    alloc: Global,
    report: &mut E,
    entry: u32,
    writer: u32,
) -> Status
    ensures { ToldOrNoMemory Status.Limit (telling (WriterTooGreat entry writer)).line result (E.taken report.old) (E.taken report.new) (E.faults report.old) (E.faults report.new) }
{
    match format!(in alloc; "{writer}") {
        Ok(writer) => tell_place(
            alloc,
            report,
            "limit Writers ",
            entry,
            writer.as_str(),
            Status::Limit,
        ),
        Err(_) => tell_no_memory(report),
    }
}

/// Writes why the dataset isn't purged or wiped. A fault of the store is counted.
pub(crate) fn tell_halt<F: Send, X: Drop, S: Store<F>, E: Sink<X>>(
    alloc: Global,
    store: &mut S,
    report: &mut E,
    dataset: &str,
    halt: Halt<F>,
) -> Status
    ensures told { ToldHalt dataset.now halt result (E.taken report.old) (E.taken report.new) (E.faults report.old) (E.faults report.new) }
    ensures noted { OnDisk halt (Rose (S.faults store.old) (S.faults store.new)) }
    ensures has { S.has store.new ≡ S.has store.old }
    ensures out { S.out store.new ≡ S.out store.old }
{
    match halt {
        Halt::Disk(fault) => tell_noted(store, report, fault),
        Halt::Missing => tell(report, "refused SchemaMissing\n", Status::Refused),
        Halt::Schema { line, kind } => tell_schema(alloc, report, line, &kind),
        Halt::NoDataset => tell(report, "refused NoDataset\n", Status::Refused),
        Halt::Damaged(broken) => tell_broken(alloc, report, dataset, broken),
        Halt::Writers { entry, writer } => tell_writers(alloc, report, entry, writer),
        Halt::NoMemory => tell_no_memory(report),
    }
}
