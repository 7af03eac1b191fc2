//! Keys under layers: where a key belongs once a layer's values stand in place of its own, and how tables answer one over the other.
#![tactic(auto)]

mod fault;
mod laws;
mod placing;

pub use fault::LayerFault;
pub use laws::{nearest_first, values_of_given};
pub use placing::based;
