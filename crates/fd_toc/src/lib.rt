//! The table of contents of a dataset, which one owner holds open: it is founded, read, and appended to so that a crash at
//! any moment leaves the entries that are listed, or these and the one that was being listed, whole.
#![tactic(auto)]

mod faults;
mod firm;
mod found;
mod load;
mod parse;
mod toc;

pub use faults::{AppendFault, LoadFault};
pub use fd_entries::Entry;
pub use toc::Toc;
