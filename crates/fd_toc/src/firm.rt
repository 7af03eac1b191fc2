ghost use Rattle.std.specs.Prelude.{◌≡◌, ◌+◌, ◌<◌, ◌^◌, length, OnOk, OnErr, option_map};
ghost use Rattle.fd_disk.specs.{Folders.{WhereTold}, Images.{synced, written}, Moments.{LeavesOnly}};
ghost use Rattle.fd_bytes.specs.Causes.{HasCause};
ghost use Rattle.fd_toc.specs.Writes.{IsUnsynced, LeftMeanwhile};

use fd_disk::Disk;

/// Writes the bytes at a place and makes them firm.
pub(crate) fn write_firm<F: Send, T: Disk<F>>(table: &mut T, at: u64, bytes: &[u8]) -> Result<(), F>
    requires { at + length bytes.now < 2 ^ 63 }
    ensures ok { OnOk result (T.file table.new ≡ option_map (λ f. synced (written f at bytes.now)) (T.file table.old)) }
    ensures err { OnErr result (WhereTold (T.file table.old) (T.file table.new) (λ f g. IsUnsynced f at bytes.now g)) }
    ensures any_moment { LeavesOnly T.moment T.left_since table.old table.new (LeftMeanwhile (T.file table.old) at bytes.now) }
    ensures name { T.name table.new ≡ T.name table.old }
    ensures cause { HasCause (T.faults table.old) (T.faults table.new) result }
{
    table.write_at(at, bytes)?;
    table.sync()?;
    Ok(())
}
