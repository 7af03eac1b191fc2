//! Tests of the crates that read and write fields and texts, by their public calls.
#![tactic(auto)]

#[cfg(test)]
mod tests;
