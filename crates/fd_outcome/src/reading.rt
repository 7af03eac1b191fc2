// The whole of an input that isn't a stream of messages.
ghost use Rattle.std.specs.Prelude.{◌≡◌, ◌⊎◌, ◌≤◌, [], Some, length, IfOk, IfErr, IfSome, OnOk};
ghost use Rattle.fd_bytes.specs.Causes.{Rose};
ghost use Rattle.fd_io.specs.Streams.{Gives};
ghost use Rattle.fd_outcome.specs.Reading.{OnUnread};

use crate::pieces::{new_buffer, read_some};
use fd_bytes::NoMemory;
use fd_io::Source;
use std::alloc::Global;

/// Why an input wasn't read.
#[derive(Drop)]
pub enum Unread<X> {
    /// A read failed.
    Fault(X),
    /// An allocation was refused.
    NoMemory,
}

/// Reads an input to its end, or so many octets of it.
pub fn read_front<X, I: Source<X>>(
    alloc: Global,
    input: &mut I,
    most: u64,
) -> Result<Vec<u8>, Unread<X>>
    requires { most ≤ 68719476736 }
    ensures given { IfOk result (λ v. Gives (I.left input.old) (I.left input.new) v.items) }
    ensures whole { IfOk result (λ v. IfSome (I.left input.old) (λ octets. (I.left input.new ≡ Some []) ⊎ (length v.items ≡ most))) }
    ensures within { IfOk result (λ v. length v.items ≤ most) }
    ensures count { I.faults input.old ≤ I.faults input.new }
    ensures calm { OnOk result (I.faults input.new ≡ I.faults input.old) }
    ensures cause { IfErr result (λ e. OnUnread e (Rose (I.faults input.old) (I.faults input.new))) }
{
    let mut octets = Vec::new(alloc);
    let Ok(mut buffer) = new_buffer(alloc) else {
        return Err(Unread::NoMemory);
    };
    while (octets.len() as u64) < most {
        let n = match read_some(input, &mut buffer, most - octets.len() as u64) {
            Ok(n) => n,
            Err(fault) => return Err(Unread::Fault(fault)),
        };
        if n == 0 {
            return Ok(octets);
        }
        let (piece, _) = buffer.split_at(n);
        match octets.extend_from_slice(piece) {
            Ok(()) => {}
            Err(_) => return Err(Unread::NoMemory),
        }
    }
    Ok(octets)
}
