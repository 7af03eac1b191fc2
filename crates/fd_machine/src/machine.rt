ghost use Rattle.fd_entries.specs.Batches.{IsBounded};
ghost use Rattle.fd_machine.specs.Machine.{can_put, code, entry_of, is_in_phase};
ghost use Rattle.std.specs.Prelude.{◌≡◌};

use fd_bytes::{Bytes, Items};
use fd_disk::{File, FileKind, FileName};
use fd_entries::{Batch, Entry, distinct_of, distinct_with, rows_len, total_of};

/// How far a writer has come with its batch.
#[derive(Clone, Copy, Debug, PartialEq, Eq)]
pub enum Phase {
    /// Pairs are put.
    Filling,
    /// The field file is firm.
    Synced,
    /// The index file is written.
    Written,
    /// Both files are firm, and the batch waits to be listed.
    Sealed,
    /// The writer owns the table.
    Holding,
    /// The entry's body is written.
    BodyLoose,
    /// The entry's body is firm.
    BodyFirm,
    /// The entry's gate is opened.
    GateLoose,
    /// The entry's gate is firmly open.
    Listed,
    /// The batch is in the history.
    Posted,
    /// The gate of an entry in doubt is closed, and not yet firmly so.
    Closing,
}

impl Phase {
    fn code(self) -> u8
        ensures { result ≡ code self }
    {
        match self {
            Phase::Filling => 0,
            Phase::Synced => 1,
            Phase::Written => 2,
            Phase::Sealed => 3,
            Phase::Holding => 4,
            Phase::BodyLoose => 5,
            Phase::BodyFirm => 6,
            Phase::GateLoose => 7,
            Phase::Listed => 8,
            Phase::Posted => 9,
            Phase::Closing => 10,
        }
    }
}

/// A writer and the batch that it fills or lists.
#[derive(Drop)]
pub struct Writer {
    /// The writer's number, 1 to 65,536 where it has pairs.
    pub id: u32,
    /// The pairs of its batch.
    pub pairs: Batch,
    /// How far it has come.
    pub phase: Phase,
    /// The number of its batch, from 1.
    pub seq: u32,
}

impl Writer {
    /// Tells that the writer is in this phase.
    pub fn is_in(&self, phase: Phase) -> bool
        ensures { result ≡ is_in_phase self.now phase }
    {
        self.phase.code() == phase.code()
    }

    /// The name of a file of its batch.
    pub fn file(&self, kind: FileKind) -> FileName
        ensures { result ≡ record { writer = self.now.id; seq = self.now.seq; kind = kind } }
    {
        FileName {
            writer: self.id,
            seq: self.seq,
            kind,
        }
    }

    /// Tells that a pair may be put: the writer is filling its batch and has a number that may put, and the batch with
    /// the pair stays within the bounds of an entry.
    pub fn can_put(&self, key: &[u8], bytes: &[u8]) -> bool
        requires { IsBounded self.now.pairs }
        ensures { result ≡ can_put self.now key.now bytes.now }
    {
        if !self.is_in(Phase::Filling) {
            return false;
        }
        if self.id == 0 {
            return false;
        }
        if self.id > 65536 {
            return false;
        }
        if key.len() > 256 {
            return false;
        }
        if distinct_with(&self.pairs, key) > 65536 {
            return false;
        }
        if bytes.len() as u64 >= (1 << 63) - total_of(&self.pairs) {
            return false;
        }
        18 + (key.len() as u64) < (1 << 63) - rows_len(&self.pairs)
    }
}

/// What the table says of a writer's batch.
pub fn entry_of(writer: &Writer) -> Entry
    requires { IsBounded writer.now.pairs }
    ensures { result ≡ entry_of writer.now }
{
    Entry {
        writer: writer.id,
        seq: writer.seq,
        fields: distinct_of(&writer.pairs) as u32,
        index_len: rows_len(&writer.pairs),
        fields_len: total_of(&writer.pairs),
        digest: None,
    }
}

/// A file under its name.
#[derive(Drop)]
pub struct NamedFile {
    /// The name.
    pub name: FileName,
    /// The file.
    pub file: File,
}

/// How much of the history a reader has seen.
#[derive(Clone, Copy, Debug, PartialEq, Eq)]
pub struct Seen {
    /// The reader's number.
    pub reader: u32,
    /// The number of batches.
    pub length: u32,
}

/// What may happen next: a step of the writer `w` or of the reader `r`, a call of `w` that fails, a crash, or the next
/// opening.
#[derive(Drop)]
pub enum Step {
    /// Puts a pair into the batch, and its bytes into the field file.
    Put {
        /// The writer.
        w: u32,
        /// The key.
        key: Bytes,
        /// What is stored under it.
        bytes: Bytes,
    },
    /// Syncs the field file.
    SyncData {
        /// The writer.
        w: u32,
    },
    /// Writes the index file.
    WriteIndex {
        /// The writer.
        w: u32,
    },
    /// Syncs the index file.
    SyncIndex {
        /// The writer.
        w: u32,
    },
    /// Takes the table.
    Take {
        /// The writer.
        w: u32,
    },
    /// Writes the entry's body and the closed gate behind it.
    Body {
        /// The writer.
        w: u32,
    },
    /// Syncs the table, and with it the body.
    SyncBody {
        /// The writer.
        w: u32,
    },
    /// Opens the entry's gate.
    Gate {
        /// The writer.
        w: u32,
    },
    /// Syncs the table, and with it the open gate.
    SyncGate {
        /// The writer.
        w: u32,
    },
    /// Appends the batch to the history.
    Post {
        /// The writer.
        w: u32,
    },
    /// Gives the table back, and begins the next batch.
    Release {
        /// The writer.
        w: u32,
    },
    /// Sees what the history holds now.
    Look {
        /// The reader.
        r: u32,
    },
    /// Asks for the newest bytes of a key among the batches that the reader has seen.
    Fetch {
        /// The reader.
        r: u32,
        /// The key.
        key: Bytes,
    },
    /// Closes the gate of the entry in doubt.
    CloseGate {
        /// The writer.
        w: u32,
    },
    /// Syncs the table, and with it the closed gate.
    SyncClose {
        /// The writer.
        w: u32,
    },
    /// The disk call that the writer would make next fails.
    Fail {
        /// The writer.
        w: u32,
    },
    /// The machine crashes and leaves these bytes: those of the table, then those of each of the files in their order.
    Crash {
        /// The bytes, an image of each file.
        left: Items<Bytes>,
    },
    /// The store is opened again.
    Reopen,
}

/// What a fetch answers.
#[derive(Drop)]
pub enum Answer {
    /// The newest bytes of the key.
    Found(Bytes),
    /// No batch that the reader has seen has the key.
    Miss,
}

/// What a step did.
#[derive(Drop)]
pub enum Took {
    /// The step is not possible now, and nothing has changed.
    No,
    /// The step was taken.
    Yes,
    /// The fetch was made, and this is its answer.
    Answer(Answer),
}
