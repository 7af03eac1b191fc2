//! What fields a store has: what is stored of a stream of messages, why a run ends, and how a store stands behind a command.
#![tactic(auto)]

mod status;

pub use status::Status;
