//! The words of the program's command line: which command they ask for.
#![tactic(auto)]

mod app;
mod command;
mod layers;
mod named;
mod numbers;
mod parse;
mod wanted;

pub use command::{Command, read_command};
pub use layers::Layers;
pub use named::{Dataset, Named, OfDataset, OfRoot, Root};
pub use wanted::Wanted;
