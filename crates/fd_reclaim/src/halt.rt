// Why a dataset isn't purged or wiped.
ghost use Rattle.std.specs.Prelude.{◌≡◌};
ghost use Rattle.fd_reclaim.specs.Halts.{of_fault, of_unruled};

use fd_outcome::Unruled;
use fd_purge::PurgeFault;
use fd_schema::SchemaKind;
use fd_telling::Broken;

/// Why a dataset isn't purged or wiped.
#[derive(Drop)]
pub(crate) enum Halt<F> {
    /// A call of the store failed.
    Disk(F),
    /// The store has no schema.
    Missing,
    /// The first place that is wrong in the stored schema stands in this line.
    Schema {
        /// The line, from 1.
        line: u32,
        /// What is wrong.
        kind: SchemaKind,
    },
    /// The dataset has no table.
    NoDataset,
    /// The dataset is damaged.
    Damaged(Broken),
    /// The writer of an entry that is to be kept is too great for its new place.
    Writers {
        /// The number of the entry, from 1.
        entry: u32,
        /// Its writer.
        writer: u32,
    },
    /// An allocation was refused.
    NoMemory,
}

/// A store without rules.
pub(crate) fn of_unruled<F>(unruled: Unruled<F>) -> Halt<F>
    ensures { result ≡ of_unruled unruled }
{
    match unruled {
        Unruled::Disk(fault) => Halt::Disk(fault),
        Unruled::Missing => Halt::Missing,
        Unruled::At { line, kind } => Halt::Schema { line, kind },
        Unruled::NoMemory => Halt::NoMemory,
    }
}

/// A dataset that isn't purged or wiped for this fault.
pub(crate) fn of_fault<F>(fault: PurgeFault<F>) -> Halt<F>
    ensures { result ≡ of_fault fault }
{
    match fault {
        PurgeFault::Disk(fault) => Halt::Disk(fault),
        PurgeFault::NotATable { at, want, found } => {
            Halt::Damaged(Broken::Table { at, want, found })
        }
        PurgeFault::Damaged(damage) => Halt::Damaged(Broken::File(damage)),
        PurgeFault::Writers { entry, writer } => Halt::Writers { entry, writer },
        PurgeFault::NoMemory => Halt::NoMemory,
    }
}
