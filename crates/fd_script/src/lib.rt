//! Scripts: a dataset, lanes, and the steps that each is to take.
#![tactic(auto)]

mod fault;
mod lines;
mod pairs;
mod reader;
mod script;
mod words;

pub use fault::{ScriptFault, ScriptKind};
pub use pairs::is_dataset;
pub use script::{Lane, Script, Step};
