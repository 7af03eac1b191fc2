ghost use Rattle.fd_inventory.specs.Indexes.{IsOfLens};

use fd_segment::{Damage, LensFault};

/// Why the lines of a dataset weren't written to their end.
#[derive(Drop)]
pub enum LinesFault<F, X> {
    /// A file failed.
    Disk(F),
    /// The sink failed. Its count of faults rose.
    Write(X),
    /// The index of a listed segment isn't in its format.
    Damaged(Damage),
    /// An allocation was refused.
    NoMemory,
}

/// What ended the reading of an index ends the writing of lines.
pub(crate) fn lines_fault<F, X>(fault: LensFault<F>) -> LinesFault<F, X>
    ensures { IsOfLens fault result }
{
    match fault {
        LensFault::Fault(fault) => LinesFault::Disk(fault),
        LensFault::Damaged(damage) => LinesFault::Damaged(damage),
        LensFault::NoMemory => LinesFault::NoMemory,
    }
}
