//! The commands over a store that stops: what is found of the store below, at whichever of its calls they are stopped.
#![tactic(auto)]

mod creating;
mod law;
mod playing;
mod reading;
mod reclaiming;
mod stopping;
mod storing;

pub use creating::create_until;
pub use law::every_crash;
pub use playing::session_until;
pub use reading::{
    axes_until, cubes_until, list_until, retrieve_over_until, retrieve_until, stats_until,
};
pub use reclaiming::{purge_until, wipe_until};
pub use stopping::Stopping;
pub use storing::{archive_until, trial_until};
