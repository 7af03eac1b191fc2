//! Tests of streams, of the real disk and of what gathers writes, by their public calls.
#![tactic(auto)]

#[cfg(test)]
mod buffers;
#[cfg(test)]
mod disk_real;
#[cfg(test)]
mod io;
