//! What a worker does: it stores its share of the messages that wait, each in a batch of its own in its dataset, and lists what it has put.
#![tactic(auto)]

mod round;
mod working;

pub use round::{
    Desk, FolderJob, Halt, Job, Parcel, WorkerJob, list_round, run_beside, run_rounds,
};
pub use working::{list, store};
