//! Archiving in parallel: the fields of a stream, each as a message of its own, are dealt to workers, each of which fills and lists
//! batches of its own in every dataset that it meets, and the datasets come to hold what one batch of all their messages would make of
//! them.
#![tactic(auto)]

mod bulk;
mod crew;
mod handing;
mod laws;
mod reading;

pub use bulk::{Bulk, BulkFault, Terms};
pub use laws::{every_dealing, every_table, few_batches};
