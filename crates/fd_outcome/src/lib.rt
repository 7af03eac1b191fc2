//! What each command of the program makes of its words, its input and the store: the definitions that all commands are
//! proved against, what each status says, and the small parts that their bodies share.
#![tactic(auto)]

ghost use Rattle.std.specs.Prelude.{ℕ, List};
ghost use Rattle.fd_outcome.specs.{Again.{SplitsAgain}, Worked.{Rows}};

mod kinds;
mod listing;
mod pieces;
mod reading;
mod report;
mod stored;

pub use kinds::{
    is_request_limit, request_kind, tell_limit, tell_no_schema, tell_place, tell_text,
};
pub use listing::Listing;
pub use pieces::{new_buffer, read_piece, read_some};
pub use reading::{Unread, read_front};
pub use report::{
    tell, tell_disk_failed, tell_input_failed, tell_made, tell_no_memory, tell_noted, tell_number,
    tell_output_failed, tell_refusal,
};
pub use stored::{Unruled, stored_schema};

/// The worked rows.
pub fn every_row()
    ensures { Rows }
{}

/// What holds of every input that is split.
pub fn every_split_input()
    // A second `split` of what was written writes the same octets.
    ensures { (input : List ℕ) → SplitsAgain input }
{}
