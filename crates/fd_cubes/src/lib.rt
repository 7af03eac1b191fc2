//! Keys as the few requests that name them: cubes, each a list of names with values whose keys are all combinations of these.
#![tactic(auto)]

mod axis;
mod cube;
mod finishing;
mod gathering;
mod grid;
mod joining;
mod laws;
mod passing;
mod printing;

pub use cube::Cube;
pub use gathering::cubes;
pub use laws::every_cube_reads_back;
pub use printing::lines_of;
