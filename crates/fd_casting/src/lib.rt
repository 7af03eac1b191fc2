//! A script against a schema and the messages of its stream: the places of its puts, or the first line that can't be done.
#![tactic(auto)]

mod casting;
mod fault;
mod judging;
mod telling;

pub use casting::cast;
pub use fault::{CastFault, Miscast};
pub use telling::miscast_text;
