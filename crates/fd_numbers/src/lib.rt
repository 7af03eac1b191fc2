//! A law on numbers: as many different ones as there are in a range are all of it. It is what makes the receipts of several
//! writers account for every entry that was added to a table.
#![tactic(auto)]

mod laws;

pub use laws::{every_number, no_longer};
