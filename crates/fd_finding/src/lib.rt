//! The places of many keys at once: where the newest bytes of each stand among the segments of a snapshot, found by up to
//! eight workers side by side, each of which goes over the segments once.
#![tactic(auto)]

mod dealing;
mod finder;
mod finding;
mod looking;
mod searching;
mod spot;

pub use finder::Finder;
pub use finding::find_all;
