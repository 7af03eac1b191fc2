use fd_segment::Damage;

/// What a fetch found.
#[derive(Clone, Copy, Debug, PartialEq, Eq)]
pub enum Got {
    /// The newest message of the key, with its length in bytes. It was written.
    Found(u64),
    /// No segment has the key. Nothing was written.
    Miss,
}

/// Why a fetch didn't answer.
#[derive(Drop)]
pub enum FetchFault<F, X> {
    /// A file failed: a call of this fetch gave the fault.
    Disk(F),
    /// The sink failed: its count of faults rose.
    Write(X),
    /// A segment stands for no batch. Nothing was written.
    Damaged(Damage),
    /// Memory was refused. Nothing was written.
    NoMemory,
}
