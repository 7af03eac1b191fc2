//! Layers: datasets that answer one over the other, each key by the nearest that has it, as an experiment over its base.
#![tactic(auto)]

mod finding;
mod layer;
mod over;
mod spot;

pub use fd_layers::{LayerFault, based};
pub use finding::find_over;
pub use over::Over;
pub use spot::{FindFault, LayerSpot};
