//! The transcript of a session as text, and the messages that its gets found.
#![tactic(auto)]

mod found;
mod history;
mod steps;
mod transcript;

pub use found::write_found;
pub use transcript::tell_transcript;
