//! Messages of several fields: each field as a message of its own.
#![tactic(auto)]

mod cutting;
mod fault;
mod fields;
mod law;
mod limits;
mod refusal;
mod rounds;
mod slices;

pub use fault::SplitFault;
pub use fields::Fields;
pub use law::every_split;
pub use limits::INPUT_LIMIT;
pub use refusal::{Refusal, refusal_of};
