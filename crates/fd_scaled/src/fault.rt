ghost use Rattle.std.specs.Prelude.{◌≡◌};

use fd_bytes::Starved;

/// Why a number has no decimal text.
#[derive(Clone, Copy, Debug, PartialEq, Eq)]
pub enum DecimalFault {
    /// The number times 10^d is no fraction whose parts have at most 127 and 126 binary digits.
    TooWide,
    /// An allocation was refused.
    NoMemory,
}

impl<N: Starved> From<N> for DecimalFault {
    ghost use Rattle.fd_scaled.specs.declared.fault.DecimalFault.TheVariants.{NoMemory};

    ghost from_gives = { λ _ e. e ≡ NoMemory };

    fn from(_: N) -> DecimalFault {
        DecimalFault::NoMemory
    }
}
