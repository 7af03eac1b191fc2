use std::alloc::{AllocError, AllocFailed};

/// An allocation was refused. It is the one answer that any call which takes memory may give at any time.
#[derive(Clone, Copy, Debug, PartialEq, Eq)]
pub struct NoMemory;

impl From<AllocError> for NoMemory {
    fn from(_: AllocError) -> NoMemory {
        NoMemory
    }
}

impl<T: Drop> From<AllocFailed<T>> for NoMemory {
    fn from(_: AllocFailed<T>) -> NoMemory {
        NoMemory
    }
}

/// What a call answers where memory was refused. An answer of one's own takes each of them by one `From`.
pub trait Starved: Drop {}

impl Starved for NoMemory {}

impl Starved for AllocError {}

impl<T: Drop> Starved for AllocFailed<T> {}
