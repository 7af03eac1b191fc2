//! Keys: the names and texts by which fields are asked for, in the manner of MARS. A key is made of a message's
//! sections and of pairs that the writer gives, and each value has one spelling.
#![tactic(auto)]

mod fault;
mod fields;
mod given;
mod key;
mod of_message;
mod span;
mod value;

pub use fault::{GivenFault, KeyFault};
pub use fd_spelling::{
    Meaning, ValueFault, canonical, date_text, is_name, is_name_byte, is_numeral, is_value,
    is_value_byte, meaning_of, number_of, number_up_to, read_pair, time_text,
};
pub use given::Given;
pub use key::Key;
pub use of_message::{key_into, key_of};
