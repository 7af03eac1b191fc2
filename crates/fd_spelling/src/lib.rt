//! Values and their spellings: what the texts of a key's names are, each in its one spelling, in the manner of MARS.
#![tactic(auto)]

/// The number that these digits write, up to this one, or else the answer that they are no value.
macro_rules! within {
    ($digits:expr, $most:expr) => {
        match number_up_to($digits, $most) {
            Some(number) => number,
            None => return Err(ValueFault::BadValue),
        }
    };
}

/// A text for which memory is asked, and what a function appends to it.
macro_rules! text_of {
    ($alloc:expr, $room:expr, $push:ident, $($given:expr),+) => {{
        let mut out = String::with_capacity($alloc, $room)?;
        $push(&mut out, $($given),+)?;
        Ok(out)
    }};
}

mod civil;
mod fault;
mod levels;
mod meaning;
mod names;
mod numerals;
mod pieces;
mod stats;
mod steps;
mod texts;
mod values;

pub use civil::{date_text, is_date, is_time, push_date, push_time, time_text};
pub use fault::ValueFault;
pub use levels::{both_levels, levtype_text, push_levtype, push_scaled, second_alone};
pub use meaning::{Meaning, meaning_of};
pub use names::{is_name, is_name_byte, is_value, is_value_byte, lower, text_from};
pub use numerals::{cut, is_numeral, number_of, number_up_to};
pub use pieces::{comma_piece, first_piece};
pub use stats::{none_text, part_text, push_part};
pub use steps::{push_step, step_text};
pub use texts::{ascii_text, is_one_of, name_end, name_text, spelled};
pub use values::{canonical, number_text, param_text, push_number, push_param, read_pair};
