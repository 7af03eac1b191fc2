//! The machine that models the store: its files, writers and table, its steps as a relation, and what holds over every run of them.
#![tactic(auto)]

pub mod files;
mod machine;
mod state;
pub mod writers;

pub use files::{Files, sync_file, write_file};
pub use machine::{Answer, NamedFile, Phase, Seen, Step, Took, Writer, entry_of};
pub use state::{State, look};
pub use writers::Writers;
