//! Requests in the manner of MARS: a verb and keywords with their values, and the keys that they stand for.
#![tactic(auto)]

mod day;
mod end;
mod fault;
mod found;
mod keyword;
mod laws;
mod limits;
mod matching;
mod partial;
mod range;
mod reading;
mod request;
mod values;
mod word;

pub use fault::{RequestFault, RequestKind};
pub use laws::{count_of_keys, key_by_division, range_to_its_end};
pub use partial::Partial;
pub use request::Request;
