//! The command `trial`: it stores messages that are made up, asks for their keys, and counts what it finds.
#![tactic(auto)]

mod command;
mod made;
mod places;
mod ruling;

pub use command::trial;
pub use made::{MadeMessages, Unmade};
