//! Tests of commands over a store that stops, by public calls, in a store in memory.
#![tactic(auto)]

#[cfg(test)]
mod rows;
#[cfg(test)]
mod runs;
#[cfg(test)]
mod stops;
