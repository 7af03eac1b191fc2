//! The two files of one flush: the fields, one after the other, and the index that says where the newest field of each
//! key stands. A draft writes them, a segment is the two of them once they change no more, and a lens reads them.
#![tactic(auto)]

mod copying;
mod digest;
mod draft;
mod fault;
mod field;
mod firm;
mod lens;
mod segment;
mod whole;
mod writing;

pub use digest::digest_at;
pub use draft::{Draft, Room};
pub use fault::{CheckFault, CopyFault, Damage, LensFault, PutFault};
pub use field::Field;
pub use lens::Lens;
pub use segment::Segment;
