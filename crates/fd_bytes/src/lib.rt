//! What every crate shares: the numbers of GRIB sections and of the store's files, lists of bytes and of values as
//! contracts see them, the answer for want of memory, and what it means that a count of faults rose.
#![tactic(auto)]

mod list;
mod memory;
mod numbers;

pub use list::{Bytes, Items};
pub use memory::{NoMemory, Starved};
pub use numbers::{be_u16, be_u32, be_u64, is_missing, signed, unsigned_of};
