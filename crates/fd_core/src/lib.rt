//! What carries out the steps of the machine that models the store: writers who list batches in a table of contents, readers who
//! fetch what is listed, and a disk whose calls may fail and which may crash after any of them; and the laws of its runs.
//! `docs/MACHINE.md` says which running calls are tied to its steps.
#![tactic(auto)]

mod crash_steps;
mod dispatch;
mod fail_steps;
mod fetch_step;
mod law;
mod open_steps;
mod put_step;
mod writer_steps;

pub use dispatch::step;
pub use fd_machine::{Answer, Files, NamedFile, Phase, Seen, State, Step, Took, Writer, Writers};
pub use law::{every_call, every_run};
