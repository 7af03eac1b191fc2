//! `list`, `axes` and `stats`: what each dataset of a store holds, in the order of the datasets' texts; and `cubes`: the same keys as
//! requests.
#![tactic(auto)]

mod commands;
mod cubing;
mod datasets;
mod gathering;
mod lines;
mod reading;
mod telling;

pub use commands::{axes, list, stats};
pub use cubing::cubes;
