ghost use Rattle.std.specs.Prelude.{pos, ◌≤ℤ◌};

use jiff_core::civil::Date;

/// A day of the years 0 to 9999.
#[derive(Clone, Copy, Debug)]
pub(crate) struct Day {
    pub(crate) date: Date,
    ghost since_zero: { pos 0 ≤ℤ date.year },
}
