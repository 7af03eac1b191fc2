use fd_segment::Damage;

/// Why a dataset was not opened.
#[derive(Drop)]
pub enum OpenFault<F> {
    /// The folder or its table failed: a count of faults rose.
    Disk(F),
    /// The bytes are no table of the dataset. The first octet against the format is named.
    NotATable {
        /// The place of the octet, from 0.
        at: u64,
        /// The octet of the format; 0 where a number that may have any value, or the last gate, is missing, and where
        /// gate 65,535 is open.
        want: u8,
        /// The octet that stands there, or none where the bytes end before it.
        found: Option<u8>,
    },
    /// A listed file is absent, or shorter than listed, or an index hasn't the digest that is listed.
    Damaged(Damage),
    /// More datasets would be held than may be, which `recover` never answers.
    TooMany {
        /// The number of datasets.
        count: u32,
    },
    /// Memory was refused.
    NoMemory,
}

/// Why a listed file was not taken up.
#[derive(Drop)]
pub(crate) enum FileFault<F> {
    Disk(F),
    Damaged(Damage),
    NoMemory,
}
