//! The bytes at a place of an opened segment, checked and copied.
ghost use Rattle.std.specs.Prelude.{◌≡◌, ◌≤◌, ◌+◌, List, ℕ, Some, IfErr, IfOk, IfSome, IsSome, OnOk};
ghost use Rattle.fd_segment.specs.{Causes.{IsFieldDamage, IsPlace, OnCheckDamaged, StandsForNone}, Copying.{IsCopied, IsCopiedInPart, IsDigestedAt, IsPiece}, Held.{behind}};
ghost use Rattle.fd_retriever.specs.Answers.{HasFetchCause, OnDamaged, Unwritten};

use crate::fault::FetchFault;
use fd_bytes::Bytes;
use fd_disk::Reader;
use fd_io::{Sink, write_all};
use fd_segment::{CheckFault, CopyFault, Lens, LensFault};
use std::alloc::Global;

/// How many bytes a field has at most that is read once, as a whole, and given out of memory.
const MOST: u64 = 1_048_576;

/// Checks the bytes at a place of an opened segment against their digest, where there is one. At most 1 MiB is read once, and
/// given out of memory; more, or where there is no memory for it, is read in pieces.
fn checked<F: Send, R: Reader<F>>(
    alloc: Global,
    lens: &mut Lens<F, R>,
    at: u64,
    len: u64,
) -> Result<Option<Bytes>, CheckFault<F>>
    requires { at + len + behind lens.old.files.entry ≤ lens.old.files.entry.fields_len }
    ensures piece { IfOk result (λ o. IfSome o (IsPiece lens.old.files.fields at len)) }
    ensures checked { OnOk result (IsSome lens.old.files.entry.digest → IsDigestedAt lens.old.files.fields at len) }
    ensures damaged { IfErr result (λ e. OnCheckDamaged e (IsFieldDamage lens.old.files.entry lens.old.files.fields at len)) }
    ensures sound { IfErr result (λ e. OnCheckDamaged e (λ _. (key : List ℕ) → IsPlace lens.old.files.entry lens.old.files.index key (Some (at, len)) → StandsForNone lens.old.files)) }
    ensures files { lens.new.files ≡ lens.old.files }
{
    if len <= MOST {
        match lens.read_field(alloc, at, len) {
            Ok(bytes) => return Ok(Some(bytes)),
            Err(LensFault::Fault(fault)) => return Err(CheckFault::Fault(fault)),
            Err(LensFault::Damaged(damage)) => return Err(CheckFault::Damaged(damage)),
            Err(LensFault::NoMemory) => {}
        }
    }
    match lens.check(at, len) {
        Ok(()) => Ok(None),
        Err(fault) => Err(fault),
    }
}

/// Checks the bytes at a place of an opened segment against their digest, where there is one, and copies them into the sink.
/// Of bytes that haven't their digest nothing is written. What isn't kept in memory while it is checked is read again to be
/// copied.
pub(crate) fn copy_checked<F: Send, R: Reader<F>, X, K: Sink<X>>(
    alloc: Global,
    lens: &mut Lens<F, R>,
    at: u64,
    len: u64,
    sink: &mut K,
) -> Result<(), FetchFault<F, X>>
    requires { at + len + behind lens.old.files.entry ≤ lens.old.files.entry.fields_len }
    ensures ok { OnOk result (IsCopied lens.old.files.fields at len (K.taken sink.old) (K.taken sink.new)) }
    ensures checked { OnOk result (IsSome lens.old.files.entry.digest → IsDigestedAt lens.old.files.fields at len) }
    ensures err { IfErr result (λ _. IsCopiedInPart lens.old.files.fields at len (K.taken sink.old) (K.taken sink.new)) }
    ensures unwritten { IfErr result (λ e. Unwritten e (K.taken sink.new ≡ K.taken sink.old)) }
    ensures damaged { IfErr result (λ e. OnDamaged e (IsFieldDamage lens.old.files.entry lens.old.files.fields at len)) }
    ensures sound { IfErr result (λ e. OnDamaged e (λ _. (key : List ℕ) → IsPlace lens.old.files.entry lens.old.files.index key (Some (at, len)) → StandsForNone lens.old.files)) }
    ensures files { lens.new.files ≡ lens.old.files }
    ensures cause { HasFetchCause (K.faults sink.old) (K.faults sink.new) result }
{
    match checked(alloc, lens, at, len) {
        Ok(Some(bytes)) => match write_all(sink, bytes.as_slice()) {
            Ok(()) => Ok(()),
            Err(fault) => Err(FetchFault::Write(fault)),
        },
        Ok(None) => match lens.copy_to(at, len, sink) {
            Ok(()) => Ok(()),
            Err(CopyFault::Fault(fault)) => Err(FetchFault::Disk(fault)),
            Err(CopyFault::Write(fault)) => Err(FetchFault::Write(fault)),
        },
        Err(CheckFault::Fault(fault)) => Err(FetchFault::Disk(fault)),
        Err(CheckFault::Damaged(damage)) => Err(FetchFault::Damaged(damage)),
    }
}
