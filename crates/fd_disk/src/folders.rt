ghost use Rattle.std.specs.Prelude.{◌≡◌};
ghost use Rattle.fd_disk.specs.Names.{same_name};

/// Which of the two files of a batch.
#[derive(Clone, Copy, Debug, PartialEq, Eq)]
pub enum FileKind {
    /// The bytes of the batch, one after the other.
    Fields,
    /// Where the bytes of each key stand.
    Index,
}

/// The name of a file of a dataset: its writer, the number of that writer's batch from 1, and its kind.
#[derive(Clone, Copy, Debug, PartialEq, Eq)]
pub struct FileName {
    /// The writer's number.
    pub writer: u32,
    /// The number of the batch among this writer's, from 1.
    pub seq: u32,
    /// Which of the batch's two files.
    pub kind: FileKind,
}

/// Tells that two names are one.
pub fn is_same(a: FileName, b: FileName) -> bool
    ensures { result ≡ same_name a b }
{
    a.writer == b.writer && a.seq == b.seq && a.kind == b.kind
}
