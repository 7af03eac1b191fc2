ghost use Rattle.fd_purge.specs.Causes.{IsOfFolder};

use fd_disk::Down;
use fd_segment::Damage;

/// Why a dataset was not purged or wiped.
#[derive(Drop)]
pub enum PurgeFault<F> {
    /// The folder, its table or a file failed in this call.
    Disk(F),
    /// The bytes are no table of the dataset. The first octet against the format is named.
    NotATable {
        /// The place of the octet, from 0.
        at: u64,
        /// The octet of the format; 0 where a number that may have any value, or the last gate, is missing, and where
        /// gate 65,535 is open.
        want: u8,
        /// The octet that stands there, or none where the bytes end before it.
        found: Option<u8>,
    },
    /// A listed file is absent, or shorter than listed, or an index hasn't the digest that is listed, or isn't in its
    /// format.
    Damaged(Damage),
    /// The writer of an entry that is to be kept is greater than the new table allows at its place. Nothing was changed.
    Writers {
        /// The number of the entry in the table, from 1.
        entry: u32,
        /// Its writer.
        writer: u32,
    },
    /// Memory was refused.
    NoMemory,
}

impl<F> From<Down<F>> for PurgeFault<F> {
    ghost from_gives = { λ _ e. IsOfFolder e };

    fn from(down: Down<F>) -> PurgeFault<F> {
        match down {
            Down::Fault(fault) => PurgeFault::Disk(fault),
            Down::NoMemory => PurgeFault::NoMemory,
        }
    }
}
