//! A file that is written, over a system's calls: what of it a sync that failed may have lost, when a sync is refused, when
//! the file is cut before it is written again, and when a descriptor of it is kept. What is asked of the system is the trait
//! `Device`, a call or two a method. Nothing is said of what the file holds.
#![tactic(auto)]

mod device;
mod unsynced;
mod writing;

pub use device::Device;
pub use unsynced::{Span, Unsynced};
pub use writing::Writing;
