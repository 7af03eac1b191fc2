ghost use Rattle.std.specs.Prelude.{◌≡◌, ◌≤◌, [], ◌∷◌, Some, IfOk, IfErr, OnOk, IfSome, IsSome};
ghost use Rattle.fd_bytes.specs.Causes.{Rose};
ghost use Rattle.fd_recovery.specs.{Causes.{OnFileDamaged, OnFileDisk}, Damages.{damages_of, digest_damages, index_file}, Looking.{OnlyLooked}};
ghost use Rattle.fd_segment.specs.Copying.{IsDigestOf};

use crate::fault::FileFault;
use fd_buffers::Ahead;
use fd_disk::{Down, FileKind, FileName, Folder, Sealed};
use fd_entries::Entry;
use fd_segment::{Damage, digest_at};
use std::alloc::Global;

/// Takes up a listed file, which has at least so many bytes.
pub(crate) fn listed_file<F: Send, D: Folder<F>>(
    alloc: Global,
    folder: &mut D,
    file: FileName,
    want: u64,
) -> Result<D::Sealed, FileFault<F>>
where
    ensures file { IfOk result (λ z. (D.Sealed.name z ≡ D.name folder.old) × ((D.Sealed.made z ≡ Some file) × (want ≤ D.Sealed.len z))) }
    ensures told { IfOk result (λ z. IfSome (D.has folder.old) (λ v. (D.Sealed.bytes z ≡ v.files file) × (damages_of file want (v.files file) ≡ []))) }
    ensures damaged { IfErr result (λ e. OnFileDamaged e (λ d. IfSome (D.has folder.old) (λ v. damages_of file want (v.files file) ≡ d ∷ []))) }
    ensures looked { OnlyLooked D.Folder folder.old folder.new }
    ensures cause { IfErr result (λ e. OnFileDisk e (Rose (D.faults folder.old) (D.faults folder.new))) }
{
    match folder.sealed(alloc, file) {
        Ok(Some(sealed)) => {
            let got = sealed.len();
            if got < want {
                return Err(FileFault::Damaged(Damage::Length { file, want, got }));
            }
            Ok(sealed)
        }
        Ok(None) => Err(FileFault::Damaged(Damage::Absent { file })),
        Err(Down::Fault(fault)) => Err(FileFault::Disk(fault)),
        Err(Down::NoMemory) => Err(FileFault::NoMemory),
    }
}

/// Compares the digest of an entry, where it has one, with that of the first bytes of its index file, which has at least as
/// many as the entry says.
pub(crate) fn check_index<F: Send, Z: Sealed<F>>(
    alloc: Global,
    index: &Z,
    entry: &Entry,
) -> Result<(), FileFault<F>>
    requires { entry.now.index_len ≤ Z.len index.now }
    ensures ok { OnOk result (digest_damages entry.now (Z.bytes index.now) ≡ []) }
    ensures damaged { IfErr result (λ e. OnFileDamaged e (λ d. IfSome (Z.bytes index.now) (λ b. digest_damages entry.now (Some b) ≡ d ∷ []))) }
    ensures read { IfErr result (λ e. OnFileDisk e (IsSome entry.now.digest)) }
{
    let Some(want) = entry.digest else {
        return Ok(());
    };
    let got = match digest_of(alloc, index, entry.index_len) {
        Ok(got) => got,
        Err(Down::Fault(fault)) => return Err(FileFault::Disk(fault)),
        Err(Down::NoMemory) => return Err(FileFault::NoMemory),
    };
    if want == got {
        return Ok(());
    }
    Err(FileFault::Damaged(Damage::IndexDigest {
        file: index_file(entry),
        want,
        got,
    }))
}

/// How many bytes of an index are read at once at most.
const MOST: u64 = 1_048_576;

/// The SHA-256 of the first bytes of a file, which are read ahead, as many at once as there may be.
fn digest_of<F: Send, Z: Sealed<F>>(alloc: Global, file: &Z, len: u64) -> Result<[u8; 32], Down<F>>
    requires { len ≤ Z.len file.now }
    ensures { IfOk result (IsDigestOf (Z.bytes file.now) 0 len) }
{
    let reader = match file.reader(alloc) {
        Ok(reader) => reader,
        Err(down) => return Err(down),
    };
    let Ok(mut ahead) = Ahead::new(alloc, reader, 1, len.min(MOST) as usize) else {
        return Err(Down::NoMemory);
    };
    match digest_at(&mut ahead, 0, len) {
        Ok(digest) => Ok(digest),
        Err(fault) => Err(Down::Fault(fault)),
    }
}

/// The name of an entry's index file.
pub(crate) fn index_file(entry: &Entry) -> FileName
    ensures { result ≡ index_file entry.now }
{
    FileName {
        writer: entry.writer,
        seq: entry.seq,
        kind: FileKind::Index,
    }
}
