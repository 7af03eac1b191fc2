//! What a dataset holds, as lines: the keys, the values of their names, and the numbers of the whole, in the manner of FDB's
//! `list`, `axes` and `stats`.
#![tactic(auto)]

mod axis;
mod axis_lines;
mod counting;
mod fault;
mod found;
mod listing;
mod printing;
mod rows;
mod stored_key;

pub use axis::axes;
pub use counting::stats;
pub use fault::LinesFault;
pub use found::{Found, found_in};
pub use listing::list;
pub use printing::write_lines;
pub use rows::{Newest, Rows};
pub use stored_key::StoredKey;
