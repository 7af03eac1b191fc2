ghost use Rattle.std.specs.Prelude.{◌≡◌, Some};
ghost use Rattle.fd_packing.specs.{Faults.{of_template}, FaultTexts.{field_fault_text, pack_fault_text}};

use fd_bytes::NoMemory;
use fd_templates::TemplateFault;
use std::error::Error;
use std::fmt;

/// Why the values of a message are not read: the first thing that is wrong, in this order.
#[derive(Clone, Copy, Debug, PartialEq, Eq)]
pub enum FieldFault {
    /// The packing has another template than 5.0.
    Template(u16),
    /// Section 5 is shorter than its template.
    BadLength { said: u64 },
    /// A packed number has more than 64 bits.
    Bits(u8),
    /// The reference value, given by its octets, is infinite or no number.
    ReferenceNotFinite(u32),
    /// The sum of the reference value and the greatest packed number, each in units of the common power of two, is 2^127
    /// or more. The larger of the two has `need` binary digits.
    TooWide { need: u32 },
    /// The bit map indicator names a bit map that is not in the message.
    BitMap(u8),
    /// Section 6 has fewer octets than its bit map needs; both count the section whole.
    MapShort { need: u64, found: u64 },
    /// The number of coded values is not the number of points that have one.
    Count { said: u64, found: u64 },
    /// There are fewer packed octets than the coded values need; both count what follows the first five of section 7.
    PackedShort { need: u64, found: u64 },
    /// An allocation was refused.
    NoMemory,
}

impl From<TemplateFault> for FieldFault {
    ghost from_gives = { λ fault e. e ≡ of_template fault };

    fn from(fault: TemplateFault) -> FieldFault {
        match fault {
            TemplateFault::Other(number) => FieldFault::Template(number),
            TemplateFault::BadLength { said } => FieldFault::BadLength { said },
        }
    }
}

/// Why numbers are not packed.
#[derive(Clone, Copy, Debug, PartialEq, Eq)]
pub enum PackFault {
    /// The number at this place, from 0, is the first with more binary digits than it is given.
    DoesNotFit { at: u64 },
    /// An allocation was refused.
    NoMemory,
}

impl From<NoMemory> for PackFault {
    ghost use Rattle.fd_packing.specs.declared.fault.PackFault.TheVariants.{NoMemory};

    ghost from_gives = { λ _ e. e ≡ NoMemory };

    fn from(_: NoMemory) -> PackFault {
        PackFault::NoMemory
    }
}

impl fmt::Display for FieldFault {
    ghost output = { λ fault. Some (field_fault_text fault) };

    fn fmt<W: fmt::Write>(&self, f: &mut fmt::Formatter<W>) -> fmt::Result {
        match self {
            FieldFault::Template(template) => write!(f, "Template {template}"),
            FieldFault::BadLength { said } => write!(f, "BadLength {said}"),
            FieldFault::Bits(bits) => write!(f, "Bits {bits}"),
            FieldFault::ReferenceNotFinite(raw) => write!(f, "ReferenceNotFinite {raw}"),
            FieldFault::TooWide { need } => write!(f, "TooWide {need}"),
            FieldFault::BitMap(indicator) => write!(f, "BitMap {indicator}"),
            FieldFault::MapShort { need, found } => write!(f, "MapShort {need} {found}"),
            FieldFault::Count { said, found } => write!(f, "Count {said} {found}"),
            FieldFault::PackedShort { need, found } => write!(f, "PackedShort {need} {found}"),
            FieldFault::NoMemory => f.write_str("NoMemory"),
        }
    }
}

impl Error for FieldFault {}

impl fmt::Display for PackFault {
    ghost output = { λ fault. Some (pack_fault_text fault) };

    fn fmt<W: fmt::Write>(&self, f: &mut fmt::Formatter<W>) -> fmt::Result {
        match self {
            PackFault::DoesNotFit { at } => write!(f, "DoesNotFit {at}"),
            PackFault::NoMemory => f.write_str("NoMemory"),
        }
    }
}

impl Error for PackFault {}
