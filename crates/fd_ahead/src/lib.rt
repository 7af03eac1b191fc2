//! Fields of datasets that are open, read and checked ahead of those that are written: threads read the next ones, each
//! those that it was given, while the thread that writes goes through what was read before. What is written is what was
//! checked, whoever read it.
#![tactic(auto)]

mod beside;
mod dealing;
mod job;
mod located;
mod opened;
mod segments;
mod stock;

pub use beside::read_beside;
pub use dealing::deal;
pub use job::{Job, ReadJob, jobs_for};
pub use located::Located;
pub use opened::Opened;
pub use segments::OpenSegments;
pub use stock::{ReadStock, Stock};
