ghost use Rattle.std.specs.Prelude.{◌≡◌};
ghost use Rattle.fd_key.specs.declared.fault.KeyFault.TheVariants as key_faults;
ghost use Rattle.fd_key.specs.declared.fault.GivenFault.TheVariants as given_faults;

use std::error::Error;
use std::fmt;

/// Why a message has no key.
#[derive(Clone, Copy, Debug, PartialEq, Eq)]
pub enum KeyFault {
    /// The number of its product definition template, which is none of 0, 1, 8 and 11.
    Product(u16),
    /// Section 4 has so many octets, which are too few for its template.
    ProductLength { said: u64 },
    /// Its reference time is no day of the years 0000 to 9999, or no time of a day.
    BadDate,
    /// The key's text has so many bytes, which are more than 255.
    KeyTooLong { len: u32 },
    /// An allocation was refused.
    NoMemory,
}

/// Why pairs could not be read: the first cause from left to right.
#[derive(Debug, Drop)]
pub enum GivenFault {
    /// What begins at this byte is no `name=value`.
    Pair { at: u32 },
    /// A name that messages have of their own.
    Clash(String),
    /// A name that came before.
    Twice(String),
    /// An allocation was refused.
    NoMemory,
}

impl From<fd_bytes::NoMemory> for KeyFault {
    ghost from_gives = { λ _ e. e ≡ key_faults.NoMemory };

    fn from(_: fd_bytes::NoMemory) -> KeyFault {
        KeyFault::NoMemory
    }
}

impl From<fd_bytes::NoMemory> for GivenFault {
    ghost from_gives = { λ _ e. e ≡ given_faults.NoMemory };

    fn from(_: fd_bytes::NoMemory) -> GivenFault {
        GivenFault::NoMemory
    }
}

impl fmt::Display for KeyFault {
    ghost use Rattle.std.specs.Prelude.{Some};
    ghost use Rattle.fd_key.specs.FaultTexts.{key_fault_text};

    ghost output = { λ fault. Some (key_fault_text fault) };

    fn fmt<W: fmt::Write>(&self, f: &mut fmt::Formatter<W>) -> fmt::Result {
        match self {
            KeyFault::Product(template) => write!(f, "Product {template}"),
            KeyFault::ProductLength { said } => write!(f, "ProductLength {said}"),
            KeyFault::BadDate => f.write_str("BadDate"),
            KeyFault::KeyTooLong { len } => write!(f, "KeyTooLong {len}"),
            KeyFault::NoMemory => f.write_str("NoMemory"),
        }
    }
}

impl Error for KeyFault {}

impl fmt::Display for GivenFault {
    ghost use Rattle.std.specs.Prelude.{Some};
    ghost use Rattle.fd_key.specs.FaultTexts.{given_fault_text};

    ghost output = { λ fault. Some (given_fault_text fault) };

    fn fmt<W: fmt::Write>(&self, f: &mut fmt::Formatter<W>) -> fmt::Result {
        match self {
            GivenFault::Pair { at } => write!(f, "Pair {at}"),
            GivenFault::Clash(name) => write!(f, "Clash {name}"),
            GivenFault::Twice(name) => write!(f, "Twice {name}"),
            GivenFault::NoMemory => f.write_str("NoMemory"),
        }
    }
}

impl Error for GivenFault {}
