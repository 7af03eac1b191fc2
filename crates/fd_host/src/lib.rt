//! The host's files and folders, call by call, and what a process keeps of them between calls: descriptors in a budget,
//! locks, which names are firm, and where a dataset stands. That a file holds what was written to it, and that what was
//! synced stays, is trusted of the host; nothing here says so.
#![tactic(auto)]

mod budget;
mod files;
mod folders;
mod locks;
mod making;
mod names;
mod place;
mod seen;

pub use budget::{Budget, FILES, Permit, TABLES};
pub use files::{
    Target, descriptors, filled, length_of, open, open_to_write, plant, read_exactly, whole,
};
pub use folders::{gather, make_folders};
pub use locks::{Locks, exclusive};
pub use making::Making;
pub use names::Names;
pub use place::{Opened, Place};
pub use seen::Seen;
