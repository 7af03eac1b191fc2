ghost use Rattle.std.specs.Prelude.{◌≡◌, Some};
ghost use Rattle.fd_spelling.specs.declared.fault.ValueFault.TheVariants as value_faults;
ghost use Rattle.fd_spelling.specs.FaultTexts.{value_fault_text};

use std::error::Error;
use std::fmt;

/// Why there is no value.
#[derive(Clone, Copy, Debug, PartialEq, Eq)]
pub enum ValueFault {
    /// The text is no value of the name.
    BadValue,
    /// An allocation was refused.
    NoMemory,
}

impl From<fd_bytes::NoMemory> for ValueFault {
    ghost from_gives = { λ _ e. e ≡ value_faults.NoMemory };

    fn from(_: fd_bytes::NoMemory) -> ValueFault {
        ValueFault::NoMemory
    }
}

impl fmt::Display for ValueFault {
    ghost output = { λ fault. Some (value_fault_text fault) };

    fn fmt<W: fmt::Write>(&self, f: &mut fmt::Formatter<W>) -> fmt::Result {
        match self {
            ValueFault::BadValue => f.write_str("BadValue"),
            ValueFault::NoMemory => f.write_str("NoMemory"),
        }
    }
}

impl Error for ValueFault {}
