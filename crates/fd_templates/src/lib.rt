//! The numbers of the templates of a GRIB message: identification, a grid on latitudes and longitudes, a product at a
//! point in time or over an interval of it, of one forecast or of an ensemble's, and simple packing. Each is read from its
//! section and written as a section (FM 92 GRIB).
#![tactic(auto)]

mod any_product;
mod date_time;
mod ensemble;
mod fault;
mod grid;
mod identification;
mod interval;
mod octets;
mod product;
mod simple;
mod whole;

pub use any_product::{AnyProduct, product_template};
pub use date_time::DateTime;
pub use ensemble::Ensemble;
pub use fault::{AnyFault, TemplateFault};
pub use grid::LatLon;
pub use identification::Ident;
pub use interval::{Interval, Range, Ranges};
pub use product::Product;
pub use simple::Simple;
