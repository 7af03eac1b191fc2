//! Buffers over any file: one gathers small writes, one reads ahead. Each is a file by the same contract as the one that
//! it holds, told by what that one tells.
#![tactic(auto)]

mod ahead;
mod copying;
mod gathering;
mod trail;

pub use ahead::Ahead;
pub use gathering::Gathering;
