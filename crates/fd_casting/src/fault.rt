ghost use Rattle.std.specs.Prelude.{◌≡◌, Some};
ghost use Rattle.fd_casting.specs.declared.fault.Refusal.TheVariants as refusals;
ghost use Rattle.fd_casting.specs.declared.fault.CastFault.TheVariants as faults;
ghost use Rattle.fd_casting.specs.Texts.{miscast_text};

use fd_bytes::NoMemory;
use fd_key::KeyFault;
use std::error::Error;
use std::fmt;

/// Why a line of a script can't be done with a schema and the messages of the stream.
#[derive(Clone, Copy, Debug, PartialEq, Eq)]
pub enum Miscast {
    /// There is no message with the number.
    Message,
    /// The message has no key, for this reason.
    Key(KeyFault),
    /// No rule admits the key of the message, or one of the keys of the request.
    NoRule,
    /// The place of the message's key, or of one of the request's keys, is in another dataset than the script's.
    OtherDataset,
}

/// Why a script can't be run over the messages of its stream.
#[derive(Clone, Copy, Debug, PartialEq, Eq)]
pub enum CastFault {
    /// The lowest line that can't be done, from 1, and why.
    At { line: u32, kind: Miscast },
    /// An allocation was refused.
    NoMemory,
}

/// Why a step can't be done.
#[derive(Clone, Copy, Debug, PartialEq, Eq)]
pub(crate) enum Refusal {
    Miscast(Miscast),
    NoMemory,
}

impl From<NoMemory> for Refusal {
    ghost from_gives = { λ _ e. e ≡ refusals.NoMemory };

    fn from(_: NoMemory) -> Refusal {
        Refusal::NoMemory
    }
}

impl From<NoMemory> for CastFault {
    ghost from_gives = { λ _ e. e ≡ faults.NoMemory };

    fn from(_: NoMemory) -> CastFault {
        CastFault::NoMemory
    }
}

impl fmt::Display for Miscast {
    ghost output = { λ kind. Some (miscast_text kind) };

    fn fmt<W: fmt::Write>(&self, f: &mut fmt::Formatter<W>) -> fmt::Result {
        match self {
            Miscast::Message => f.write_str("Message"),
            Miscast::Key(fault) => write!(f, "Key {fault}"),
            Miscast::NoRule => f.write_str("NoRule"),
            Miscast::OtherDataset => f.write_str("OtherDataset"),
        }
    }
}

impl Error for Miscast {}
