//! `retrieve`: the newest fields of a request's keys, in its order, out of the datasets of a store.
#![tactic(auto)]

mod asking;
mod counting;
mod locating;
mod opened;
mod preparing;
mod retrieving;
mod tables;

pub use asking::request_of;
pub use counting::{Counted, count_found};
pub use fd_ahead::{Located, Opened};
pub use locating::{Lost, locate};
pub use opened::open;
pub use preparing::{Ready, open_all, unopened};
pub use retrieving::{answer_located, retrieve};
pub use tables::{has_table, tables_of};
