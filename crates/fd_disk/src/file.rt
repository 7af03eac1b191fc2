use fd_bytes::{Bytes, Items};

/// A range of places in a file: `len` bytes from the byte at `at` on.
#[derive(Clone, Copy, Debug, PartialEq, Eq)]
pub struct Range {
    /// The place of the first byte, from 0.
    pub at: u64,
    /// The number of bytes.
    pub len: u64,
}

/// The ranges of a file that were written and not yet synced, the last write first.
pub type Ranges = Items<Range>;

/// A file: the bytes that stand whatever happens, those that a read gives, and the ranges that a crash may change.
#[derive(Drop)]
pub struct File {
    /// The bytes that the last sync made firm.
    pub firm: Bytes,
    /// The bytes that a read gives.
    pub reads: Bytes,
    /// The ranges written since the last sync.
    pub loose: Ranges,
}
