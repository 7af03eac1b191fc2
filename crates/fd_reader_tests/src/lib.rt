//! Tests of the writer and the reader of a dataset, by their public calls.
#![tactic(auto)]

#[cfg(test)]
mod full;
#[cfg(test)]
mod layers;
#[cfg(test)]
mod reading;
#[cfg(test)]
mod stores;
#[cfg(test)]
mod writing;
