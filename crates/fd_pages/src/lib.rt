//! An index file that is read page by page: a look-up reads as many pages as the number of pages has binary digits, at
//! most, and keeps the last 8.
#![tactic(auto)]

mod fault;
mod frame;
mod laws;
mod paged;
mod reading;

pub use fault::PagedFault;
pub use laws::one_answer;
pub use paged::Paged;
