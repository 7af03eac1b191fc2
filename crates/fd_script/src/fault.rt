ghost use Rattle.std.specs.Prelude.{◌≡◌, Some};
ghost use Rattle.fd_script.specs.declared.fault.Refusal.TheVariants as refusals;
ghost use Rattle.fd_script.specs.FaultTexts.{script_kind_text, script_fault_text};

use fd_bytes::Starved;
use fd_key::GivenFault;
use fd_request::RequestFault;
use std::error::Error;
use std::fmt;

/// What is wrong with a script.
#[derive(Debug, Drop)]
pub enum ScriptKind {
    /// The input has more than 1,048,576 bytes, and no line `messages` ends within these.
    TooLong,
    /// This byte isn't ASCII.
    Byte(u8),
    /// The first line is no `dataset` with at most 255 bytes of pairs in their one spelling.
    Dataset,
    /// A line is none that may stand there.
    Word,
    /// A lane's name isn't one, or comes again.
    Name,
    /// A lane's pairs are refused.
    Given(GivenFault),
    /// A request is refused.
    Request(RequestFault),
    /// The number of a message isn't 1 to 9 digits, or is 0.
    Number,
    /// So many lanes, or steps of a lane, are more than there may be.
    TooMany { count: u32 },
    /// The input ends before `messages`.
    End,
}

/// Why a script could not be read.
#[derive(Debug, Drop)]
pub enum ScriptFault {
    /// The first line that is wrong, from 1, and what is wrong with it.
    At { line: u32, kind: ScriptKind },
    /// An allocation was refused.
    NoMemory,
}

/// What is wrong with a line.
#[derive(Debug, Drop)]
pub(crate) enum Refusal {
    Wrong(ScriptKind),
    NoMemory,
}

impl<N: Starved> From<N> for Refusal {
    ghost from_gives = { λ _ e. e ≡ refusals.NoMemory };

    fn from(_: N) -> Refusal {
        Refusal::NoMemory
    }
}

impl fmt::Display for ScriptKind {
    ghost output = { λ kind. Some (script_kind_text kind) };

    fn fmt<W: fmt::Write>(&self, f: &mut fmt::Formatter<W>) -> fmt::Result {
        match self {
            ScriptKind::TooLong => f.write_str("TooLong"),
            ScriptKind::Byte(byte) => write!(f, "Byte {byte}"),
            ScriptKind::Dataset => f.write_str("Dataset"),
            ScriptKind::Word => f.write_str("Word"),
            ScriptKind::Name => f.write_str("Name"),
            ScriptKind::Given(fault) => write!(f, "Given {fault}"),
            ScriptKind::Request(fault) => write!(f, "Request {fault}"),
            ScriptKind::Number => f.write_str("Number"),
            ScriptKind::TooMany { count } => write!(f, "TooMany {count}"),
            ScriptKind::End => f.write_str("End"),
        }
    }
}

impl fmt::Display for ScriptFault {
    ghost output = { λ fault. Some (script_fault_text fault) };

    fn fmt<W: fmt::Write>(&self, f: &mut fmt::Formatter<W>) -> fmt::Result {
        match self {
            ScriptFault::At { line, kind } => write!(f, "{line} {kind}"),
            ScriptFault::NoMemory => f.write_str("NoMemory"),
        }
    }
}

impl Error for ScriptFault {}
