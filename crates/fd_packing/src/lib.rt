//! Simple packing: numbers of as many bits each, one after the other, and the values that they stand for with a
//! reference value, two scale factors and a bit map (FM 92 GRIB, templates 5.0 and 7.0).
#![tactic(auto)]

mod bits;
mod fault;
mod field;
mod ieee;
mod map;
mod packing;
mod parts;
mod points;
mod reading;
mod value;
mod width;
mod writer;

pub use fault::{FieldFault, PackFault};
pub use field::Field;
pub use ieee::reference_is_exact;
pub use packing::pack;
pub use points::Points;
