//! Tests of the board, by its public calls.
#![tactic(auto)]

#[cfg(test)]
mod turn;
