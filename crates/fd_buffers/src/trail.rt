// What clauses remember of the writes to a gathering file.

use std::snapshot::Snapshot;

/// The writes since a file was taken over or synced, the last one first. It takes no memory: what stands before a write
/// is a snapshot, which has no bytes and which only clauses read.
#[derive(Drop)]
pub(crate) enum Trail<T> {
    /// The file as it was taken over, or after a sync.
    Began(Snapshot<T>),
    /// So many bytes from the place on were gathered.
    Gathered(u64, u64, Snapshot<Trail<T>>),
    /// So many bytes from the place on were to be written at once, with the file before and after that.
    Tried(u64, u64, Snapshot<T>, Snapshot<T>, Snapshot<Trail<T>>),
}
