use crate::axis::Axis;

/// A cube while it is joined: names with their values, and the number of bytes of its text.
#[derive(Drop)]
pub(crate) struct Grid {
    pub(crate) axes: Vec<Axis>,
    pub(crate) size: usize,
}

/// The most bytes of a request.
pub(crate) const BYTES: usize = 65_536;
