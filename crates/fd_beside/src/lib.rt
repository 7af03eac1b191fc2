//! Jobs that threads change while this thread does something else.
#![tactic(auto)]

mod beside;

pub use beside::{Item, for_each_beside, serve, serve_beside};
