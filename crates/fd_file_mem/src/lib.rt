//! Files in memory: what is written to them, what a crash may leave of them, and calls that are planned to fail.
#![tactic(auto)]

mod buffer;
mod disk;
mod fuse;
mod left;
mod plan;
mod recorded;
mod sealed;

pub use disk::{MemDisk, MemFault, counted};
pub use fuse::Fuse;
pub use plan::{Asked, Fail, Op, Plan, Planned, Plans, text_of};
pub use recorded::Room;
pub use sealed::{MemReader, MemSealed};
