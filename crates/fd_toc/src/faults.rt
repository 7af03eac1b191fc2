/// Why an entry was not appended.
#[derive(Drop)]
pub enum AppendFault<F> {
    /// The table has as many entries as it may have, 65,535. The disk was not called.
    Full {
        /// The number of entries.
        count: u32,
    },
    /// The table's disk failed. Its count of faults rose.
    Disk(F),
}

/// Why a table was not opened.
#[derive(Drop)]
pub enum LoadFault<F> {
    /// The table's disk failed. Its count of faults rose.
    Disk(F),
    /// The bytes are no table of the dataset. The first octet against the format is named.
    NotATable {
        /// The place of the octet, from 0.
        at: u64,
        /// The octet of the format; 0 where a number that may have any value, or the last gate, is missing, and where
        /// gate 65,535 is open.
        want: u8,
        /// The octet that stands there, or none where the bytes end before it.
        found: Option<u8>,
    },
    /// Memory was refused.
    NoMemory,
}
