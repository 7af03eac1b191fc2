ghost use Rattle.std.specs.Prelude.{◌≡◌, ◌+◌, ℕ, Bool, Some};
ghost use Rattle.fd_sections.specs.Stream.{Bad_end};
ghost use Rattle.fd_split.specs.Inputs.{refused};

use fd_key::KeyFault;
use fd_packing::FieldFault;
use fd_sections::{Bad, BadAt, Truncated};

/// Why the input is refused. Messages count from 1.
#[derive(Clone, Copy, Debug, PartialEq, Eq)]
pub enum Refusal {
    /// The message of this number is no GRIB 2 message, for this reason.
    Message(BadAt),
    /// The input ends inside a message.
    Cut(Truncated),
    /// A field of the message of this number, which has several, has the bit map of the one before it, and there is none. Fields count
    /// from 1.
    NoMap { number: u64, field: u32 },
    /// The message of this number has no key, for this reason.
    Key { number: u64, fault: KeyFault },
    /// The field of the message of this number is not read, for this reason.
    Field { number: u64, fault: FieldFault },
    /// A message says that it has so many octets, which are more than a message may have.
    TooLong { len: u64 },
    /// A field has so many points, which are more than are written of a field.
    Points { points: u64 },
    /// The input is longer than an input may be.
    Input,
}

/// Why a refused message ends the run.
pub fn refusal_of(at: BadAt) -> Refusal
    ensures { (past : Bool) (given : ℕ) → at.number ≡ given + 1 → refused past given (Bad_end at.bad) ≡ Some result }
{
    match at.bad {
        Bad::TooLong { len } => Refusal::TooLong { len },
        _ => Refusal::Message(at),
    }
}
