//! Schemas in the manner of FDB5: rules of three levels, which say to what dataset, index and datum a key belongs.
#![tactic(auto)]

mod fault;
mod grammar;
mod items;
mod place;
mod plain;
mod printed;
mod rule;
mod schema;
mod values;

pub use fault::{PlaceFault, SchemaFault, SchemaKind};
pub use place::Place;
pub use schema::Schema;
