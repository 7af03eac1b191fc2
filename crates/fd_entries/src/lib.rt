//! What a table of contents lists: entries, each the two files of a batch of pairs, and the bytes of a table and of these
//! files.
#![tactic(auto)]

mod batch;
mod law;
mod listed;
mod numbers;
mod rows;
mod segments;
mod table;

pub use batch::{Batch, Listing, Pair, copied};
pub use law::every_table;
pub use listed::{entries_of, entry_at};
pub use numbers::greatest;
pub use rows::{distinct_of, distinct_with, rows_len, rows_of, total_of};
pub use segments::{newest_in, read_pairs};
pub use table::{CLOSED, Entry, NotATable, OPEN, gate_at, has_digest};
