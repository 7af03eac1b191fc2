//! Removes from a dataset that is held alone what newer fields mask: `purge` renews the table without the masked batches and
//! removes their files, and `wipe` removes all of it.
#![tactic(auto)]

mod carrying;
mod dividing;
mod fault;
mod keys;
mod law;
mod masks;
mod opening;
mod purging;
mod removing;
mod stored;
mod table;
mod wiping;

pub use fault::PurgeFault;
pub use law::every_purge;
pub use purging::{Purged, purge};
pub use stored::{purge_in, wipe_in};
pub use wiping::wipe;
