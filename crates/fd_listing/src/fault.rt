ghost use Rattle.std.specs.Prelude.{◌≡◌};
ghost use Rattle.fd_listing.specs.declared.fault.TextFault.TheVariants as text;

use fd_bytes::NoMemory;
use fd_packing::FieldFault;

/// Why a text was not written whole.
#[derive(Drop)]
pub enum TextFault<X> {
    /// A write failed.
    Write(X),
    /// An allocation was refused.
    NoMemory,
}

/// Why the values of a message were not written, or not all.
#[derive(Drop)]
pub enum ValuesFault<X> {
    /// The field is not read.
    Field(FieldFault),
    /// The field has so many points, which are more than 134,217,728.
    Points(u64),
    /// A write failed.
    Write(X),
    /// An allocation was refused.
    NoMemory,
}

impl<X> From<NoMemory> for TextFault<X> {
    ghost from_gives = { λ _ e. e ≡ text.NoMemory };

    fn from(_: NoMemory) -> TextFault<X> {
        TextFault::NoMemory
    }
}
