//! GRIB messages: one message, and streams of them.
#![tactic(auto)]

/// The length that 16 octets or more say, where they begin a message of edition 2 that is not too long; or else the answer
/// that they don't.
macro_rules! said_of {
    ($stream:expr) => {{
        let edition = octet($stream, 8);
        if edition != 2 {
            return Err(Bad::Edition(edition));
        }
        let said = total_length($stream);
        if said > MAX_LENGTH {
            return Err(Bad::TooLong { len: said });
        }
        said
    }};
}

/// The same, where section 0 fits it.
macro_rules! long_of {
    ($stream:expr) => {{
        let said = said_of!($stream);
        if said < 16 {
            return Err(Bad::Short { section: 0, len: said });
        }
        said
    }};
}

mod bad;
mod fields;
mod first;
mod frame;
mod law;
mod reader;
mod refusal;
mod sections;
mod splitter;
mod whole;

pub use bad::Bad;
pub use fields::{indicator, local_use, octet, repeats, section};
pub use law::{every_framing, every_splitting, every_stream};
pub use refusal::{BadAt, Truncated};
pub use sections::Message;
pub use splitter::Splitter;
pub use whole::message;
