//! The input of a reader, piece by piece.
ghost use Rattle.std.specs.{Prelude.{◌≡◌, ◌≤◌, ◌<◌, ◌+◌, length, vec_len, take, IfOk, OnOk, OnErr}, Io.KnownBytes.{Keeps}};
ghost use Rattle.fd_bytes.specs.Causes.{Rose};
ghost use Rattle.fd_io.specs.Streams.{Gives, IsAtEnd};

use fd_bytes::NoMemory;
use fd_io::Source;
use fd_split::INPUT_LIMIT;
use std::alloc::Global;

/// How many octets a reader that reads ahead reads at a time. The places of all messages that are whole in a piece are looked for in
/// one start of threads, which takes as long as a thread needs for some thirty small messages.
const PIECE: usize = 1_048_576;

/// Room for one piece.
pub fn new_piece(alloc: Global) -> Result<Vec<u8>, NoMemory>
    ensures { IfOk result (λ v. vec_len v ≡ 1048576) }
{
    Ok(vec![in alloc; 0u8; PIECE]?)
}

/// Reads the next piece into the front of the buffer, and no more than the limit leaves, but at least one octet, by
/// which an input beyond the limit is found.
pub fn read_piece<X, I: Source<X>>(input: &mut I, buffer: &mut [u8], total: u64) -> Result<usize, X>
    requires room { length buffer.old ≡ 1048576 }
    requires limit { total ≤ 68719476736 }
    ensures room { length buffer.new ≡ 1048576 }
    ensures bound { IfOk result (λ n. n ≤ 1048576) }
    ensures within { IfOk result (λ n. total < 68719476736 → total + n ≤ 68719476736) }
    ensures given { IfOk result (λ n. Gives (I.left input.old) (I.left input.new) (take n buffer.new)) }
    ensures end { IfOk result (λ n. n ≡ 0 → IsAtEnd (I.left input.old)) }
    ensures kept { OnErr result (Keeps (I.left input.old) (I.left input.new)) }
    ensures count { I.faults input.old ≤ I.faults input.new }
    ensures calm { OnOk result (I.faults input.new ≡ I.faults input.old) }
    ensures cause { OnErr result (Rose (I.faults input.old) (I.faults input.new)) }
{
    let size = ((INPUT_LIMIT - total) as usize).min(PIECE).max(1);
    let (piece, _) = buffer.split_at_mut(size);
    input.read(piece)
}
