//! The index file of one flush: for each key its record, by rising keys, in pages of 4096 bytes. A builder takes the
//! places of the keys as they are put; an index is read back from the file's bytes and asked for a key.
#![tactic(auto)]

mod builder;
mod fault;
mod index;
mod law;
mod pages;
mod reader;
mod slots;
mod stored;

pub use builder::IndexBuilder;
pub use fault::{Full, IndexFault};
pub use index::Index;
pub use law::every_index;
