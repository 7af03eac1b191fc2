//! The table of contents of a dataset under a lock, with the segments that it lists, which readers see as of some moment.
//! Many callers share a dataset, also in threads; each has a pass that knows what it has seen.
#![tactic(auto)]

mod dataset;
mod fault;
mod parts;
mod snapshot;

pub use dataset::{Dataset, DatasetPass};
pub use fault::{ListFault, Receipt};
pub use parts::{Desk, Segments, Shown};
pub use snapshot::Snapshot;
