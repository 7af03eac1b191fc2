//! `retrieve` over layers: the newest fields of a request's keys, in its order, each out of the nearest of its dataset and the
//! datasets under it that has the key.
#![tactic(auto)]

mod nearest;
mod placing;
mod preparing;
mod retrieving;

pub use retrieving::retrieve_over;
