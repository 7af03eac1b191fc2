//! Lanes that archive, flush and retrieve side by side in one dataset.
#![tactic(auto)]

mod crew;
mod end;
mod getting;
mod lane;
mod laws;
mod places;
mod steps;

pub use crew::{Crew, Outcome, Transcript, lanes};
pub use end::{Answers, End, Ends};
pub use laws::worked_runs;
