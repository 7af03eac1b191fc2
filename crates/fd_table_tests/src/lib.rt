//! Tests of the table of contents, by its public calls.
#![tactic(auto)]

#[cfg(test)]
mod toc;
