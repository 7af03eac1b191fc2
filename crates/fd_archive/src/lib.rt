//! `archive`: the fields of a stream, stored in the datasets of a store by several workers.
#![tactic(auto)]

mod command;
mod storing;
mod telling;

pub use command::archive;
pub use storing::Setup;
pub use telling::tell_fault;
