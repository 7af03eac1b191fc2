//! Rows of the top call over objects in memory, for tests: its words, its input, and what it writes; and cases of rows over a store.
#![tactic(auto)]

mod cases;
mod octets;

pub use cases::{CASE, Case, Event, Hold, ROW, Row, Runner, first_wrong};
pub use octets::{FIELD, NEWER, Part, are, push_parts};
