use fd_region::Id;

/// A record whose key is a text of a region.
#[derive(Clone, Copy, Debug)]
pub(crate) struct Slot {
    /// The number of the key's text.
    pub(crate) id: Id,
    /// The place of the field in the field file.
    pub(crate) at: u64,
    /// The length of the field.
    pub(crate) len: u64,
}
