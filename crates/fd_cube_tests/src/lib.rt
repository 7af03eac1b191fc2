//! Tests of cubes: few keys, whose cubes are known.
#![tactic(auto)]

#[cfg(test)]
mod cubes;
