use fd_sections::Bad;

/// Why a message isn't split into its fields.
#[derive(Clone, Copy, Debug, PartialEq, Eq)]
pub enum SplitFault {
    /// The octets are no message: the first thing that is wrong, from left to right.
    Bad(Bad),
    /// The field of this number, from 1, has the bit map of the one before it, and there is none.
    NoMap { field: u32 },
    /// An allocation was refused.
    NoMemory,
}
