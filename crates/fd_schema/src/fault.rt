ghost use Rattle.std.specs.Prelude.{◌≡◌, Some};
ghost use Rattle.fd_schema.specs.declared.fault.PlaceFault.TheVariants as place_faults;
ghost use Rattle.fd_schema.specs.FaultTexts.{schema_kind_text, schema_fault_text, place_fault_text};

use std::error::Error;
use std::fmt;

/// What is wrong with a schema.
#[derive(Debug, Drop)]
pub enum SchemaKind {
    /// The text is over 65,536 bytes.
    TooLong,
    /// This byte can't stand there.
    Byte(u8),
    /// A name isn't one.
    Name,
    /// A value isn't one of its name.
    Value,
    /// The name comes again in its rule.
    Twice(String),
    /// A rule has not exactly three levels.
    Depth,
    /// A level closes without a required name.
    Level,
    /// The 257th rule or the 33rd name of a rule begins.
    TooMany { count: u32 },
    /// What stands behind `version` isn't `2`.
    Version,
    /// The text ends inside a rule.
    End,
    /// There is no rule.
    Empty,
}

/// Why a schema could not be read.
#[derive(Debug, Drop)]
pub enum SchemaFault {
    /// The first place that is wrong stands in this line, from 1.
    At { line: u32, kind: SchemaKind },
    /// An allocation was refused.
    NoMemory,
}

/// Why a key has no place.
#[derive(Clone, Copy, Debug, PartialEq, Eq)]
pub enum PlaceFault {
    /// No rule admits the key.
    NoRule,
    /// An allocation was refused.
    NoMemory,
}

/// What is wrong at a place.
#[derive(Debug, Drop)]
pub(crate) enum Wrong {
    Byte,
    Name,
    Value,
    Twice(String),
    Depth,
    NoneRequired,
    TooMany(u32),
    OtherVersion,
    End,
    Empty,
}

impl From<fd_bytes::NoMemory> for PlaceFault {
    ghost from_gives = { λ _ e. e ≡ place_faults.NoMemory };

    fn from(_: fd_bytes::NoMemory) -> PlaceFault {
        PlaceFault::NoMemory
    }
}

impl fmt::Display for SchemaKind {
    ghost output = { λ kind. Some (schema_kind_text kind) };

    fn fmt<W: fmt::Write>(&self, f: &mut fmt::Formatter<W>) -> fmt::Result {
        match self {
            SchemaKind::TooLong => f.write_str("TooLong"),
            SchemaKind::Byte(byte) => write!(f, "Byte {byte}"),
            SchemaKind::Name => f.write_str("Name"),
            SchemaKind::Value => f.write_str("Value"),
            SchemaKind::Twice(name) => write!(f, "Twice {name}"),
            SchemaKind::Depth => f.write_str("Depth"),
            SchemaKind::Level => f.write_str("Level"),
            SchemaKind::TooMany { count } => write!(f, "TooMany {count}"),
            SchemaKind::Version => f.write_str("Version"),
            SchemaKind::End => f.write_str("End"),
            SchemaKind::Empty => f.write_str("Empty"),
        }
    }
}

impl fmt::Display for SchemaFault {
    ghost output = { λ fault. Some (schema_fault_text fault) };

    fn fmt<W: fmt::Write>(&self, f: &mut fmt::Formatter<W>) -> fmt::Result {
        match self {
            SchemaFault::At { line, kind } => write!(f, "{line} {kind}"),
            SchemaFault::NoMemory => f.write_str("NoMemory"),
        }
    }
}

impl Error for SchemaFault {}

impl fmt::Display for PlaceFault {
    ghost output = { λ fault. Some (place_fault_text fault) };

    fn fmt<W: fmt::Write>(&self, f: &mut fmt::Formatter<W>) -> fmt::Result {
        match self {
            PlaceFault::NoRule => f.write_str("NoRule"),
            PlaceFault::NoMemory => f.write_str("NoMemory"),
        }
    }
}

impl Error for PlaceFault {}
