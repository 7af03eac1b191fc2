//! Exact numbers `n * 2^two * 10^ten`, and their texts: the exact one, and the one rounded to some decimals.
#![tactic(auto)]

mod decimals;
mod fault;
mod rounding;
mod text;

/// The number `n * 2^two * 10^ten`.
#[derive(Clone, Copy, Debug, PartialEq, Eq)]
pub struct Scaled {
    pub n: i128,
    pub two: i32,
    pub ten: i32,
}

pub use decimals::nearest_is_one;
pub use fault::DecimalFault;
