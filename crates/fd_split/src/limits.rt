/// How many octets an input may have.
pub const INPUT_LIMIT: u64 = 68_719_476_736;
