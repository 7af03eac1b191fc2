//! Opens a dataset as a crash or a last owner left it: reads its table, and takes up the two files of each listed entry.
#![tactic(auto)]

mod fault;
mod files;
mod recovery;
mod segments;

pub use fault::OpenFault;
pub use recovery::{Recovered, recover};
