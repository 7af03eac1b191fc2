ghost use Rattle.std.specs.Prelude.{◌≡◌};
ghost use Rattle.fd_tokens.specs.declared.refusal.Refusal.TheVariants as refusals;

use fd_bytes::Starved;

/// Why a text isn't read.
#[derive(Debug, Drop)]
pub enum Refusal<K> {
    /// The first place that is wrong, in bytes from 0, and what is wrong there.
    At(usize, K),
    /// An allocation was refused.
    NoMemory,
}

impl<K, N: Starved> From<N> for Refusal<K> {
    ghost from_gives = { λ _ e. e ≡ refusals.NoMemory };

    fn from(_: N) -> Refusal<K> {
        Refusal::NoMemory
    }
}
