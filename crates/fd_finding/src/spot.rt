use fd_bytes::Bytes;
use fd_retriever::Spot;
use fd_segment::LensFault;

/// A key that is looked for, and where it was found so far.
#[derive(Drop)]
pub(crate) struct Sought {
    pub(crate) key: Bytes,
    pub(crate) spot: Option<Spot>,
}

/// What a worker is given: its keys. Afterwards they have their spots, or there is the reason why not.
#[derive(Drop)]
pub(crate) struct Job<F> {
    pub(crate) sought: Vec<Sought>,
    pub(crate) end: Result<(), LensFault<F>>,
}
