//! Tests of the commands through the top call, over objects in memory, and once over real files.
#![tactic(auto)]

#[cfg(test)]
mod tests;
