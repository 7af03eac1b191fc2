use fd_disk::FileName;

/// Why a draft didn't take a pair.
#[derive(Drop)]
pub enum PutFault<F> {
    /// The field file failed.
    Fault(F),
    /// The index has no room for the key. Nothing was written.
    Full {
        /// The number of distinct keys held.
        keys: u32,
        /// The number of reserved bytes that no key takes.
        left: u32,
    },
}

/// What is wrong with a listed batch.
#[derive(Clone, Copy, Debug, PartialEq, Eq)]
pub enum Damage {
    /// The file isn't there.
    Absent {
        /// The file.
        file: FileName,
    },
    /// The file is shorter than its entry says.
    Length {
        /// The file.
        file: FileName,
        /// The entry's length of the file.
        want: u64,
        /// The file's own length.
        got: u64,
    },
    /// The index file isn't in its format.
    Index {
        /// The index file.
        file: FileName,
        /// The place of the first field that isn't in the format, from 0.
        at: u64,
    },
    /// A record of the index ends beyond the fields.
    Beyond {
        /// The field file.
        file: FileName,
        /// The record's place plus its length, and 32 more where the batch has digests.
        end: u128,
        /// The length of the fields that the entry says.
        len: u64,
    },
    /// The digest of the entry isn't that of its index file.
    IndexDigest {
        /// The index file.
        file: FileName,
        /// The entry's digest.
        want: [u8; 32],
        /// The SHA-256 of the index.
        got: [u8; 32],
    },
    /// The digest behind a field isn't that of its bytes.
    FieldDigest {
        /// The field file.
        file: FileName,
        /// The place of the field's first byte, from 0.
        at: u64,
        /// The digest that stands behind the field.
        want: [u8; 32],
        /// The SHA-256 of the field's bytes.
        got: [u8; 32],
    },
}

/// Why a segment wasn't opened, or a lens didn't answer.
#[derive(Drop)]
pub enum LensFault<F> {
    /// A file failed.
    Fault(F),
    /// The segment stands for no batch.
    Damaged(Damage),
    /// An allocation was refused.
    NoMemory,
}

/// Why bytes weren't found to have their digest.
#[derive(Drop)]
pub enum CheckFault<F> {
    /// The field file failed.
    Fault(F),
    /// The digest behind the bytes isn't theirs.
    Damaged(Damage),
}

/// Why bytes weren't copied to their end.
#[derive(Drop)]
pub enum CopyFault<F, X> {
    /// The field file failed.
    Fault(F),
    /// The sink failed.
    Write(X),
}
