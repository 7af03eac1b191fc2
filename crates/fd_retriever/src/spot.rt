/// Where the bytes of a field stand: the number of a segment in its snapshot, from 1, and the place and the length of the
/// bytes in its field file.
#[derive(Clone, Copy, Debug, PartialEq, Eq)]
pub struct Spot {
    /// The segment's number.
    pub number: u32,
    /// The place of the first byte.
    pub at: u64,
    /// The number of bytes.
    pub len: u64,
}
