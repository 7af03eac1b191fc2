//! `purge` and `wipe`: a dataset that is held alone without what newer fields mask, or taken away as a whole.
#![tactic(auto)]

mod commands;
mod halt;
mod reclaiming;
mod telling;

pub use commands::{purge, wipe};
