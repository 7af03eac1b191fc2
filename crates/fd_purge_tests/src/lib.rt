//! Tests of how a dataset is purged and wiped, by public calls, in a store in memory.
#![tactic(auto)]

#[cfg(test)]
mod purging;
#[cfg(test)]
mod writing;
