/// That a segment is listed: the number of its entry in the table, from 1.
#[derive(Clone, Copy, Debug, PartialEq, Eq)]
pub struct Receipt {
    /// The number of the entry.
    pub number: u32,
}

/// Why a segment wasn't listed.
#[derive(Drop)]
pub enum ListFault<F> {
    /// A call of the table failed. The entry may be in doubt: the pass tells.
    Disk(F),
    /// The table has 65,535 entries. Nothing was written.
    Full {
        /// The number of entries, 65,535.
        count: u32,
    },
    /// Memory was refused, before the table was called.
    NoMemory,
}
