//! Why what is asked of a store isn't answered, and the lines that tell it.
#![tactic(auto)]

mod stop;
mod telling;

pub use stop::{Broken, Stop};
pub use telling::{tell_broken, tell_schema, tell_stop, tell_unruled};
