ghost use Rattle.std.specs.Prelude.{Some};
ghost use Rattle.fd_request.specs.FaultTexts.{request_kind_text, request_fault_text};

use std::error::Error;
use std::fmt;

/// What is wrong with a request.
#[derive(Debug, Drop)]
pub enum RequestKind {
    /// The text is over 65,536 bytes, and nothing before that place is wrong.
    TooLong,
    /// The verb is another one.
    Verb,
    /// A comma, a name or `=` is wanted, and something else or the end stands there.
    Pair,
    /// The name comes again.
    Repeated(String),
    /// A value is empty, has a byte that no value has, or has no spelling.
    Value,
    /// `to` or `by` stands elsewhere than in a range, the name has no ranges, an end can't be one, the first end is greater
    /// than the last, or the step is 0 or no number.
    Range,
    /// The product of the counts of values, taken keyword by keyword, where it first passes 262,144.
    TooMany { count: u128 },
    /// The longest key has so many bytes, which are more than 255.
    KeyTooLong { len: u32 },
}

/// Why a request could not be read.
#[derive(Debug, Drop)]
pub enum RequestFault {
    /// The first place that is wrong, in bytes from 0.
    At { at: u32, kind: RequestKind },
    /// An allocation was refused.
    NoMemory,
}

impl fmt::Display for RequestKind {
    ghost output = { λ kind. Some (request_kind_text kind) };

    fn fmt<W: fmt::Write>(&self, f: &mut fmt::Formatter<W>) -> fmt::Result {
        match self {
            RequestKind::TooLong => f.write_str("TooLong"),
            RequestKind::Verb => f.write_str("Verb"),
            RequestKind::Pair => f.write_str("Pair"),
            RequestKind::Repeated(name) => write!(f, "Repeated {name}"),
            RequestKind::Value => f.write_str("Value"),
            RequestKind::Range => f.write_str("Range"),
            RequestKind::TooMany { count } => write!(f, "TooMany {count}"),
            RequestKind::KeyTooLong { len } => write!(f, "KeyTooLong {len}"),
        }
    }
}

impl fmt::Display for RequestFault {
    ghost output = { λ fault. Some (request_fault_text fault) };

    fn fmt<W: fmt::Write>(&self, f: &mut fmt::Formatter<W>) -> fmt::Result {
        match self {
            RequestFault::At { at, kind } => write!(f, "{at} {kind}"),
            RequestFault::NoMemory => f.write_str("NoMemory"),
        }
    }
}

impl Error for RequestFault {}
