use fd_retriever::Spot;

/// Where the newest bytes of a key stand: the number of its dataset among those that are open, and the spot in its
/// segments.
#[derive(Clone, Copy, Debug, PartialEq, Eq)]
pub struct Located {
    /// The dataset's number, from 0.
    pub number: usize,
    /// The spot.
    pub spot: Spot,
}
