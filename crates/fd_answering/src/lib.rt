//! The answer of a request whose keys are located: what is found is written in the order of the keys, and each miss is told,
//! while threads read the fields ahead.
#![tactic(auto)]

mod answering;
mod datasets;
mod rounds;

pub use answering::Halt;
pub use datasets::write_found;
pub use rounds::answer_all;
