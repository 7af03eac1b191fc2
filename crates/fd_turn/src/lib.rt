//! A board keeps a value that readers get copies of, and a state that one owner at a time has. Callers reach it by
//! passes, and each pass knows a history: all listings that it has seen. docs/BOARD.md tells how.
#![tactic(auto)]

mod board;
mod handed;
mod rule;
mod steps;
mod view;

pub use board::{Board, Pass};
pub use handed::{Guarded, Handed};
pub use view::Lock;
