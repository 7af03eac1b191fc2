//! Texts as tokens: marks, which each reader of texts chooses, and the longest runs of other bytes between blanks.
#![tactic(auto)]

mod part;
mod refusal;
mod token;
mod tokens;

pub use part::part_from;
pub use refusal::Refusal;
pub use token::Token;
pub use tokens::{is_token, tokens_of};
