ghost use Rattle.std.specs.Prelude.{◌≡◌, ◌⊎◌, [], IfOk, IfErr, IfSome, IsSome};
ghost use Rattle.fd_bytes.specs.Causes.{Rose};
ghost use Rattle.fd_recovery.specs.{Causes.{OnFileDamaged, OnFileDisk}, Damages.{IsFirst, damages, damages_at, field_file}, Looking.{OnlyLooked}, Recovered.{AreTakenUp, IsNamed, SomeDigest, files_of}};
ghost use Rattle.fd_segment.specs.Shared.{standings};

use crate::fault::FileFault;
use crate::files::{check_index, index_file, listed_file};
use fd_disk::{FileKind, FileName, Folder};
use fd_entries::Entry;
use fd_segment::Segment;
use std::alloc::Global;
use std::sync::Arc;

/// Takes up the two files of each entry, in order.
pub(crate) fn segments_of<F: Send, D: Folder<F>>(
    alloc: Global,
    folder: &mut D,
    entries: &[Entry],
) -> Result<Vec<Arc<Segment<F, D::Sealed>>>, FileFault<F>>
where
    ensures segments { IfOk result (λ v. AreTakenUp (D.name folder.old) (D.has folder.old) entries.now (standings v.items)) }
    ensures sound { IfOk result (λ v. IfSome (D.has folder.old) (λ v. damages v.files entries.now ≡ [])) }
    ensures damaged { IfErr result (λ e. OnFileDamaged e (λ d. IfSome (D.has folder.old) (λ v. IsFirst d (damages v.files entries.now)))) }
    ensures looked { OnlyLooked D.Folder folder.old folder.new }
    ensures cause { IfErr result (λ e. OnFileDisk e (Rose (D.faults folder.old) (D.faults folder.new) ⊎ SomeDigest entries.now)) }
{
    let mut segments = Vec::new(alloc);
    for i in 0..entries.len() {
        let segment = match segment_of(alloc, folder, &entries[i]) {
            Ok(segment) => segment,
            Err(fault) => return Err(fault),
        };
        let Ok(shared) = Arc::new(alloc, segment) else {
            return Err(FileFault::NoMemory);
        };
        let Ok(()) = segments.push(shared) else {
            return Err(FileFault::NoMemory);
        };
    }
    Ok(segments)
}

// Takes up the two files of an entry, whose index has the entry's digest, where there is one.
fn segment_of<F: Send, D: Folder<F>>(
    alloc: Global,
    folder: &mut D,
    entry: &Entry,
) -> Result<Segment<F, D::Sealed>, FileFault<F>>
where
    ensures entry { IfOk result (λ s. s.files.entry ≡ entry.now) }
    ensures named { IfOk result (λ s. IsNamed (D.name folder.old) s) }
    ensures files { IfOk result (λ s. IfSome (D.has folder.old) (λ v. s.files ≡ files_of v.files entry.now)) }
    ensures sound { IfOk result (λ s. IfSome (D.has folder.old) (λ v. damages_at v.files entry.now ≡ [])) }
    ensures damaged { IfErr result (λ e. OnFileDamaged e (λ d. IfSome (D.has folder.old) (λ v. IsFirst d (damages_at v.files entry.now)))) }
    ensures looked { OnlyLooked D.Folder folder.old folder.new }
    ensures cause { IfErr result (λ e. OnFileDisk e (Rose (D.faults folder.old) (D.faults folder.new) ⊎ IsSome entry.now.digest)) }
{
    let fields = match listed_file(alloc, folder, field_file(entry), entry.fields_len) {
        Ok(file) => file,
        Err(fault) => return Err(fault),
    };
    let index = match listed_file(alloc, folder, index_file(entry), entry.index_len) {
        Ok(file) => file,
        Err(fault) => return Err(fault),
    };
    if let Err(fault) = check_index(alloc, &index, entry) {
        return Err(fault);
    }
    Ok(Segment::new(*entry, fields, index))
}

// The name of an entry's field file.
fn field_file(entry: &Entry) -> FileName
    ensures { result ≡ field_file entry.now }
{
    FileName {
        writer: entry.writer,
        seq: entry.seq,
        kind: FileKind::Fields,
    }
}
