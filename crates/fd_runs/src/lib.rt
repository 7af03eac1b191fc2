//! The law of whole sessions: what a legal transcript of lanes tells is one list of steps of the machine that models the store.
#![tactic(auto)]

mod law;

pub use law::{every_script, every_session};
