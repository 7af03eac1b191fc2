//! The command `session`: the lanes of a script over the messages behind it. What it does is stated in `specs/Sessions`.
#![tactic(auto)]

mod closing;
mod reading;
mod running;
mod splitting;
mod telling;

pub use running::session;
