//! A script that was accepted, run over a dataset of a store.
#![tactic(auto)]

mod playing;
mod staff;

pub use playing::play;
