//! What a command is given: a store, an input, an output, a report and a gate, over any implementations of their traits; and how
//! contracts name them, in `specs/Objects`, and where a function is given one of them by itself, in `specs/Given`.
#![tactic(auto)]

mod given;

pub use given::{Kinds, Objects, World};
