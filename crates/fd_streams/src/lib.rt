//! The commands over one stream, `pick`, `describe`, `values` and `split`, and those that ask little: `generate`, which reads nothing,
//! and `create`, which stores its input as a schema.
#![tactic(auto)]

mod feeding;
mod listing;
mod making;
mod parting;
mod picking;
mod planting;
mod streams;

pub use making::generate;
pub use planting::create;
pub use streams::{pick, split, write_list};
