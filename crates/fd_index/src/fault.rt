ghost use Rattle.std.specs.Prelude.{◌≡◌};
ghost use Rattle.fd_index.specs.declared.fault.IndexFault.TheVariants as faults;

use fd_bytes::Starved;

/// A key that a builder doesn't hold has no room in it.
#[derive(Clone, Copy, Debug, PartialEq, Eq)]
pub struct Full {
    /// The number of keys held.
    pub keys: u32,
    /// The number of reserved bytes that no key takes.
    pub left: u32,
}

/// Why bytes weren't read as an index.
#[derive(Clone, Copy, Debug, PartialEq, Eq)]
pub enum IndexFault {
    /// The bytes aren't an index file: the field that begins at this place, from 0, is the first that isn't in the
    /// format.
    BadIndex { at: u64 },
    /// An allocation was refused.
    NoMemory,
}

impl<N: Starved> From<N> for IndexFault {
    ghost from_gives = { λ _ e. e ≡ faults.NoMemory };

    fn from(_: N) -> IndexFault {
        IndexFault::NoMemory
    }
}
