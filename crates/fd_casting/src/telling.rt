// Why a script is refused, as a text.
ghost use Rattle.std.specs.Prelude.{◌≡◌, IfOk, string_bytes};
ghost use Rattle.fd_casting.specs.Texts.{miscast_text};

use crate::fault::Miscast;
use fd_bytes::NoMemory;
use std::alloc::Global;

/// Why a line can't be done: the kind, and behind `Key` the kind of its fault with its number.
pub fn miscast_text(alloc: Global, kind: Miscast) -> Result<String, NoMemory>
    ensures { IfOk result (λ text. string_bytes text ≡ miscast_text kind) }
{
    Ok(format!(in alloc; "{kind}")?)
}
