use fd_dataset::{ListFault, Receipt};

/// Why a field wasn't put into the batch.
#[derive(Drop)]
pub enum ArchiveFault<F> {
    /// The last batch was sealed and isn't listed yet. A flush lists it.
    Unlisted,
    /// The batch has no room for the key. Nothing was written.
    Full {
        /// The number of distinct keys in the batch.
        keys: u32,
        /// The number of bytes of keys for which there is room.
        left: u32,
    },
    /// The field file failed.
    Disk(F),
}

/// What a flush did.
#[derive(Clone, Copy, Debug, PartialEq, Eq)]
pub enum Flush {
    /// Nothing was pending.
    Nothing,
    /// The batch was listed, with the number of its entry.
    Listed(Receipt),
}

/// Why a batch wasn't listed.
#[derive(Drop)]
pub enum FlushFault<F> {
    /// A file of the writer failed, or the table.
    Disk(F),
    /// The table has 65,535 entries.
    TableFull {
        /// The number of entries, 65,535.
        count: u32,
    },
    /// Memory was refused.
    NoMemory,
}

impl<F> From<ListFault<F>> for FlushFault<F> {
    ghost use Rattle.std.specs.Prelude.{◌≡◌};
    ghost use Rattle.fd_archiver.specs.Causes.{flush_fault};

    ghost from_gives = { λ fault e. e ≡ flush_fault fault };

    fn from(fault: ListFault<F>) -> FlushFault<F> {
        match fault {
            ListFault::Disk(fault) => FlushFault::Disk(fault),
            ListFault::Full { count } => FlushFault::TableFull { count },
            ListFault::NoMemory => FlushFault::NoMemory,
        }
    }
}
