ghost use Rattle.std.specs.Prelude.{◌≡◌, ◌≤◌, ◌<◌, ◌+◌, ◌^◌, length, IfOk, OnOk};
ghost use Rattle.fd_bytes.specs.Causes.{HasCause};
ghost use Rattle.fd_segment.specs.{Copying.{IsDigestOf, IsHashed, IsPiece}, Counts.{pieces}};

use fd_disk::Reader;
use sha2::{Digest, Sha256};

/// Takes as many bytes as the piece has from a place of the file into a hasher.
fn hash_piece<F: Send, R: Reader<F>>(
    file: &mut R,
    at: u64,
    piece: &mut [u8],
    hasher: &mut Sha256,
) -> Result<(), F>
    requires { at + length piece.old ≤ R.len file.old }
    ensures ok { OnOk result (IsHashed (R.bytes file.old) at (length piece.old) hasher.old hasher.new) }
    ensures bytes { R.bytes file.new ≡ R.bytes file.old }
    ensures len { R.len file.new ≡ R.len file.old }
    ensures cause { HasCause (R.faults file.old) (R.faults file.new) result }
    ensures reads { R.reads file.new ≤ R.reads file.old + 1 }
    ensures asked { R.asked file.new ≤ R.asked file.old + length piece.old }
{
    if let Err(fault) = file.read_at(at, piece) {
        return Err(fault);
    }
    hasher.update(&*piece);
    Ok(())
}

/// The SHA-256 of the bytes at a place of the file, which are read in pieces of 4096 bytes.
pub fn digest_at<F: Send, R: Reader<F>>(file: &mut R, at: u64, len: u64) -> Result<[u8; 32], F>
    requires inside { at + len ≤ R.len file.old }
    requires fits { at + len < 2 ^ 64 }
    ensures ok { IfOk result (IsDigestOf (R.bytes file.old) at len) }
    ensures bytes { R.bytes file.new ≡ R.bytes file.old }
    ensures len { R.len file.new ≡ R.len file.old }
    ensures cause { HasCause (R.faults file.old) (R.faults file.new) result }
    ensures reads { R.reads file.new ≤ R.reads file.old + pieces len }
    ensures asked { R.asked file.new ≤ R.asked file.old + len }
{
    let mut hasher = Sha256::new();
    let mut buffer = [0; 4096];
    let mut done = 0;
    'pieces: while done < len {
        let n = (len - done).min(4096) as usize;
        match hash_piece(file, at + done, &mut buffer[..n], &mut hasher) {
            Ok(()) => done += n as u64,
            Err(fault) => return Err(fault),
        }
    }
    Ok(hasher.finalize())
}

/// The 32 bytes at a place of the file.
pub(crate) fn kept_at<F: Send, R: Reader<F>>(file: &mut R, at: u64) -> Result<[u8; 32], F>
    requires { at + 32 ≤ R.len file.old }
    ensures ok { IfOk result (IsPiece (R.bytes file.old) at 32) }
    ensures bytes { R.bytes file.new ≡ R.bytes file.old }
    ensures len { R.len file.new ≡ R.len file.old }
    ensures cause { HasCause (R.faults file.old) (R.faults file.new) result }
    ensures reads { R.reads file.new ≤ R.reads file.old + 1 }
    ensures asked { R.asked file.new ≤ R.asked file.old + 32 }
{
    let mut kept = [0; 32];
    if let Err(fault) = file.read_at(at, &mut kept) {
        return Err(fault);
    }
    Ok(kept)
}
