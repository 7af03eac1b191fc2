//! Tests of the crates that read and write files, by their public calls.
#![tactic(auto)]

#[cfg(test)]
mod index;
#[cfg(test)]
mod machine;
#[cfg(test)]
mod segment;
