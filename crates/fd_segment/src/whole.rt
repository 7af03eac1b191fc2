ghost use Rattle.std.specs.Prelude.{◌≡◌, ◌≤◌, ◌+◌, ℕ, List, Option, length, IfOk, IfErr, OnOk};
ghost use Rattle.fd_bytes.specs.Causes.{HasCause, Rose};
ghost use Rattle.fd_disk.specs.Causes.{OnFault};
ghost use Rattle.fd_segment.specs.Copying.{IsPiece};

use fd_disk::{Down, Reader};
use std::alloc::Global;

/// So many bytes at a place of the file, in one read.
pub(crate) fn read_whole<F: Send, R: Reader<F>>(
    alloc: Global,
    file: &mut R,
    at: u64,
    len: u64,
) -> Result<Vec<u8>, Down<F>>
    requires inside { at + len ≤ R.len file.old }
    requires few { len ≤ 1048608 }
    ensures ok { IfOk result (λ v. IsPiece (R.bytes file.old) at len v.items) }
    ensures bytes { R.bytes file.new ≡ R.bytes file.old }
    ensures len { R.len file.new ≡ R.len file.old }
    ensures later { R.faults file.old ≤ R.faults file.new }
    ensures cause { IfErr result (λ e. OnFault e (Rose (R.faults file.old) (R.faults file.new))) }
    ensures reads { R.reads file.new ≤ R.reads file.old + 1 }
    ensures asked { R.asked file.new ≤ R.asked file.old + len }
{
    let mut octets = Vec::new(alloc);
    let Ok(()) = octets.resize(len as usize, 0) else {
        return Err(Down::NoMemory);
    };
    match read_into(file, at, octets.as_mut_slice()) {
        Ok(()) => Ok(octets),
        Err(fault) => Err(Down::Fault(fault)),
    }
}

/// As many bytes at a place of the file as the slice has, in one read.
fn read_into<F: Send, R: Reader<F>>(file: &mut R, at: u64, into: &mut [u8]) -> Result<(), F>
    requires { at + length into.old ≤ R.len file.old }
    ensures ok { OnOk result (IsPiece (R.bytes file.old) at (length into.old) into.new) }
    ensures bytes { R.bytes file.new ≡ R.bytes file.old }
    ensures len { R.len file.new ≡ R.len file.old }
    ensures cause { HasCause (R.faults file.old) (R.faults file.new) result }
    ensures reads { R.reads file.new ≤ R.reads file.old + 1 }
    ensures asked { R.asked file.new ≤ R.asked file.old + length into.old }
{
    match file.read_at(at, into) {
        Ok(_) => Ok(()),
        Err(fault) => Err(fault),
    }
}

/// Takes the digest off that stands behind so many bytes.
pub(crate) fn take_digest(octets: &mut Vec<u8>, len: usize) -> [u8; 32]
    requires { length octets.old.items ≡ len + 32 }
    ensures bytes { (fields : Option (List ℕ)) (at : ℕ) → IsPiece fields at (len + 32) octets.old.items → IsPiece fields at len octets.new.items }
    ensures digest { (fields : Option (List ℕ)) (at : ℕ) → IsPiece fields at (len + 32) octets.old.items → IsPiece fields (at + len) 32 result }
{
    let mut digest = [0; 32];
    digest.copy_from_slice(&octets[len..]);
    octets.truncate(len);
    digest
}
