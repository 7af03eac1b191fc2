//! What messages hold, as lines of text.
#![tactic(auto)]

/// These numbers of one octet or two, none of which is missing.
macro_rules! plain_all {
    ($numbers:ident: $($($name:ident).+),+) => {
        [$(plain(u32::from($numbers.$($name).+))),+]
    };
}

mod description;
mod fault;
mod lines;
mod numbers;
mod point_values;
mod product;

pub use description::describe;
pub use fault::{TextFault, ValuesFault};
pub use lines::{write_many, write_text};
pub use point_values::values;
