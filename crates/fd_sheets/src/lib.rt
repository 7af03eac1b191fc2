//! The fields of the messages that are whole in what came of an input, each with its place by a schema, which a reader takes while others
//! are stored. The places are looked for by several threads side by side, while the next fields are split off. By its place each field goes to one of several workers.
#![tactic(auto)]

mod buffers;
mod dealing;
mod names;
mod opened;
mod parts;
mod pieces;
mod reader;
mod rounds;
mod sheets;

pub use buffers::LEAST_KEPT;
pub use dealing::dealt;
pub use names::Names;
pub use reader::{Batch, Reach, Reader, Stop, read_on};
pub use sheets::{Sheet, Unplaced};
