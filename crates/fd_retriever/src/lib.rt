//! The reader of a dataset: the newest message of a key among the segments of a snapshot.
#![tactic(auto)]

mod bytes_at;
mod checked;
mod fault;
mod fetching;
mod laws;
mod lenses;
mod looking;
mod spot;

pub use bytes_at::{copy_at, read_at};
pub use fault::{FetchFault, Got};
pub use fetching::fetch;
pub use laws::{every_later_snapshot, every_snapshot};
pub use lenses::Lenses;
pub use spot::Spot;
