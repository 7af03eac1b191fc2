// Why a request isn't answered.
use fd_request::RequestKind;
use fd_schema::SchemaKind;
use fd_segment::Damage;

/// What is broken in a dataset.
#[derive(Clone, Copy, Debug, PartialEq, Eq)]
pub enum Broken {
    /// Its table's bytes are no table.
    Table {
        /// The place of the first octet against the format.
        at: u64,
        /// The octet of the format.
        want: u8,
        /// The octet that stands there.
        found: Option<u8>,
    },
    /// One of its files is damaged.
    File(Damage),
}

/// Why a request isn't answered.
#[derive(Drop)]
pub enum Stop<F> {
    /// A call of the store failed.
    Disk(F),
    /// A read of the input failed.
    Input,
    /// The store has no schema.
    Missing,
    /// The first place that is wrong in the stored schema stands in this line.
    Schema {
        /// The line, from 1.
        line: u32,
        /// What is wrong.
        kind: SchemaKind,
    },
    /// The first place that is wrong in the request.
    Request {
        /// The place, from 0.
        at: u32,
        /// What is wrong.
        kind: RequestKind,
    },
    /// No rule admits the key with this text.
    NoRule(String),
    /// The key with this text has no place under a layer.
    NoLayer {
        /// The layer's number, from 1.
        layer: u32,
        /// The key's text.
        key: String,
    },
    /// More datasets have tables than may be opened.
    TooMany,
    /// A dataset is damaged.
    Broken {
        /// The dataset's text.
        dataset: String,
        /// What is broken in it.
        broken: Broken,
    },
    /// An allocation was refused.
    NoMemory,
}
