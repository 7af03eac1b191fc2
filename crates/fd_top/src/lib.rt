//! The top call `fdb`: it is given the words of the command line, a store, an input and outputs, and runs the command that the words
//! ask for.
#![tactic(auto)]

mod exit;
mod running;
mod top;

pub use exit::{ended, ran};
pub use top::fdb;
