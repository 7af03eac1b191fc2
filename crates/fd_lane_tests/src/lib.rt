//! Tests of the texts of a session's lanes, by the public calls of their crates. Lanes are run by `fd_command_tests`.
#![tactic(auto)]

#[cfg(test)]
mod casting;
#[cfg(test)]
mod transcript;
