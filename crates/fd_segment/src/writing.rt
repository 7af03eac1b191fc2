ghost use Rattle.std.specs.Prelude.{◌≡◌, ◌≤◌, ◌<◌, ◌+◌, ◌^◌, length, OnOk, OnErr, is_some, option_map};
ghost use Rattle.fd_bytes.specs.Causes.{HasCause};
ghost use Rattle.fd_disk.specs.Folders.{WhereTold};
ghost use Rattle.fd_segment.specs.Steps.{StopsPutting, digested};
ghost use Rattle.sha2.specs.Sha256.{sha256};

use fd_disk::Disk;
use sha2::{Digest, Sha256};

/// The digest of a field.
pub(crate) fn field_digest(bytes: &[u8]) -> [u8; 32]
    ensures { result ≡ sha256 bytes.now }
{
    Sha256::digest(bytes)
}

/// Writes the bytes at a place, and then their SHA-256, which is given, behind them.
pub(crate) fn write_digested<F: Send, T: Disk<F>>(
    file: &mut T,
    at: u64,
    bytes: &[u8],
    digest: &[u8; 32],
) -> Result<(), F>
    requires sum { at + (length bytes.now + 32) < 2 ^ 63 }
    requires digest { digest.now ≡ sha256 bytes.now }
    ensures ok { OnOk result (T.file file.new ≡ option_map (digested at bytes.now) (T.file file.old)) }
    ensures err { OnErr result (WhereTold (T.file file.old) (T.file file.new) (StopsPutting at bytes.now)) }
    ensures told { is_some (T.file file.new) ≡ is_some (T.file file.old) }
    ensures extent { OnOk result (at + (length bytes.now + 32) ≤ T.extent file.new) }
    ensures extent_err { T.extent file.old ≤ T.extent file.new }
    ensures name { T.name file.new ≡ T.name file.old }
    ensures made { T.made file.new ≡ T.made file.old }
    ensures cause { HasCause (T.faults file.old) (T.faults file.new) result }
{
    if let Err(fault) = file.write_at(at, bytes) {
        return Err(fault);
    }
    if let Err(fault) = file.write_at(at + bytes.len() as u64, digest) {
        return Err(fault);
    }
    Ok(())
}
