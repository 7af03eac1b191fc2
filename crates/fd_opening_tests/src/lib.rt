//! Tests of how a dataset is opened, and of a segment with many index pages, by their public calls.
#![tactic(auto)]

#[cfg(test)]
mod pages;
#[cfg(test)]
mod recovery;
