//! The writer of a dataset: it puts fields into a batch of its own, and a flush makes the batch firm and lists it.
#![tactic(auto)]

mod archiver;
mod fault;
mod flush;
mod steps;

pub use archiver::Archiver;
pub use fault::{ArchiveFault, Flush, FlushFault};
