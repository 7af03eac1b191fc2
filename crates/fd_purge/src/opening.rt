// What ends the opening of a dataset, or the reading of an index, ends the purge.
ghost use Rattle.std.specs.Prelude.{◌≡◌};
ghost use Rattle.fd_purge.specs.Causes.{of_lens, of_opening};

use crate::PurgeFault;
use fd_recovery::OpenFault;
use fd_segment::LensFault;

pub(crate) fn of_opening<F>(fault: OpenFault<F>) -> PurgeFault<F>
    ensures { result ≡ of_opening fault }
{
    match fault {
        OpenFault::Disk(fault) => PurgeFault::Disk(fault),
        OpenFault::NotATable { at, want, found } => PurgeFault::NotATable { at, want, found },
        OpenFault::Damaged(damage) => PurgeFault::Damaged(damage),
        OpenFault::TooMany { count: _ } => PurgeFault::NoMemory,
        OpenFault::NoMemory => PurgeFault::NoMemory,
    }
}

pub(crate) fn of_lens<F>(fault: LensFault<F>) -> PurgeFault<F>
    ensures { result ≡ of_lens fault }
{
    match fault {
        LensFault::Fault(fault) => PurgeFault::Disk(fault),
        LensFault::Damaged(damage) => PurgeFault::Damaged(damage),
        LensFault::NoMemory => PurgeFault::NoMemory,
    }
}
