ghost use Rattle.std.specs.Prelude.{◌≡◌, ◌==◌, ◌&&◌, ◌+◌, ◌-◌, ◌<◌, ◌^◌, ◌++◌, [], length, take, replicate, IfOk, IfSome, IfNone, OnOk, OnErr};
ghost use Rattle.fd_machine.specs.Machine.{file_of, is_listed, kept_files, put_file};
ghost use Rattle.fd_disk.specs.{Images.{firm_file, loosened, overwritten, synced, written}, Names.{same_name}};

use crate::NamedFile;
use fd_bytes::{Bytes, Items, NoMemory};
use fd_disk::{File, FileName, Range, Ranges, is_same};
use fd_entries::Entry;
use std::alloc::{AllocError, Global};

/// The files of the machine's disk beside the table, under their names.
pub type Files = Items<NamedFile>;

/// The file under a name.
pub fn find(files: &Files, name: FileName) -> Option<&File>
    ensures some { IfSome result (λ f. f.now ≡ file_of files.now name) }
    ensures none { IfNone result (file_of files.now name ≡ firm_file []) }
{
    for i in 0..files.len() {
        if is_same(files.at(i).name, name) {
            return Some(&files.at(i).file);
        }
    }
    None
}

/// What a read gives of the file under a name: nothing where there is no file.
pub fn reads_of(files: &Files, name: FileName) -> &[u8]
    ensures { result.now ≡ (file_of files.now name).reads }
{
    match find(files, name) {
        Some(file) => file.reads.as_slice(),
        None => &[],
    }
}

/// Keeps the files that one of the entries has, and drops the others.
pub fn keep_listed(files: &mut Files, entries: &Items<Entry>)
    ensures { files.new ≡ kept_files entries.now files.old }
{
    let mut i = 0;
    'each: while i < files.len() {
        if is_listed(entries, files.at(i).name) {
            i += 1;
        } else {
            files.remove(i);
        }
    }
}

/// A copy of the file under a name, which is empty where there is none.
pub fn copy_of(files: &Files, alloc: Global, name: FileName) -> Result<File, NoMemory>
    ensures { IfOk result (λ f. f ≡ file_of files.now name) }
{
    match find(files, name) {
        Some(file) => copied(alloc, file),
        None => Ok(File {
            firm: Bytes::new(alloc),
            reads: Bytes::new(alloc),
            loose: Ranges::new(alloc),
        }),
    }
}

/// Puts a file under a name, in place of the one that is there. After `NoMemory` nothing has changed.
pub fn put(files: &mut Files, name: FileName, file: File) -> Result<(), NoMemory>
    ensures ok { OnOk result (files.new ≡ put_file files.old name file) }
    ensures err { OnErr result (files.new ≡ files.old) }
{
    for i in 0..files.len() {
        if is_same(files.at(i).name, name) {
            files.set(i, NamedFile { name, file });
            return Ok(());
        }
    }
    files.push(NamedFile { name, file })
}

/// The file under a name after a write into it; the file itself is as before.
pub fn written(
    files: &Files,
    alloc: Global,
    name: FileName,
    at: usize,
    bytes: &[u8],
) -> Result<File, NoMemory>
    requires { at + length bytes.now < 2 ^ 63 }
    ensures { IfOk result (λ f. f ≡ written (file_of files.now name) at bytes.now) }
{
    let mut file = copy_of(files, alloc, name)?;
    write_file(alloc, &mut file, at, bytes)?;
    Ok(file)
}

/// Writes into the file under a name. After `NoMemory` nothing has changed.
pub fn write(
    files: &mut Files,
    alloc: Global,
    name: FileName,
    at: usize,
    bytes: &[u8],
) -> Result<(), NoMemory>
    requires { at + length bytes.now < 2 ^ 63 }
    ensures ok { OnOk result (files.new ≡ put_file files.old name (written (file_of files.old name) at bytes.now)) }
    ensures err { OnErr result (files.new ≡ files.old) }
{
    let file = written(files, alloc, name, at, bytes)?;
    put(files, name, file)
}

/// Syncs the file under a name. After `NoMemory` nothing has changed.
pub fn sync(files: &mut Files, alloc: Global, name: FileName) -> Result<(), NoMemory>
    ensures ok { OnOk result (files.new ≡ put_file files.old name (synced (file_of files.old name))) }
    ensures err { OnErr result (files.new ≡ files.old) }
{
    let mut file = copy_of(files, alloc, name)?;
    sync_file(alloc, &mut file)?;
    put(files, name, file)
}

/// Makes a range of the file under a name loose. After `NoMemory` nothing has changed.
pub fn loosen(
    files: &mut Files,
    alloc: Global,
    name: FileName,
    at: u64,
    len: u64,
) -> Result<(), NoMemory>
    ensures ok { OnOk result (files.new ≡ put_file files.old name (loosened (file_of files.old name) at len (file_of files.old name).reads)) }
    ensures err { OnErr result (files.new ≡ files.old) }
{
    let mut file = copy_of(files, alloc, name)?;
    file.loose.put_first(Range { at, len })?;
    put(files, name, file)
}

/// Tells that one of the entries has the file.
fn is_listed(entries: &Items<Entry>, name: FileName) -> bool
    ensures { result ≡ is_listed entries.now name }
{
    for i in 0..entries.len() {
        if has_file(entries.at(i), name) {
            return true;
        }
    }
    false
}

/// Tells that the file is one of the entry's.
fn has_file(entry: &Entry, name: FileName) -> bool
    ensures { result ≡ ((name.writer == entry.now.writer) && (name.seq == entry.now.seq)) }
{
    name.writer == entry.writer && name.seq == entry.seq
}

fn copied(alloc: Global, file: &File) -> Result<File, NoMemory>
    ensures { IfOk result (λ f. f ≡ file.now) }
{
    let firm = Bytes::from_slice(alloc, file.firm.as_slice())?;
    let reads = Bytes::from_slice(alloc, file.reads.as_slice())?;
    let loose = file.loose.copy(alloc)?;
    Ok(File { firm, reads, loose })
}

/// Syncs a file: what a read gives is firm. After `NoMemory` nothing has changed.
pub fn sync_file(alloc: Global, file: &mut File) -> Result<(), NoMemory>
    ensures ok { OnOk result (file.new ≡ synced file.old) }
    ensures err { OnErr result (file.new ≡ file.old) }
{
    let firm = Bytes::from_slice(alloc, file.reads.as_slice())?;
    file.firm = firm;
    file.loose = Ranges::new(alloc);
    Ok(())
}

/// Writes bytes at a place of a file, which are loose until its next sync. After `NoMemory` nothing has changed.
pub fn write_file(alloc: Global, file: &mut File, at: usize, bytes: &[u8]) -> Result<(), NoMemory>
    requires { at + length bytes.now < 2 ^ 63 }
    ensures ok { OnOk result (file.new ≡ written file.old at bytes.now) }
    ensures err { OnErr result (file.new ≡ file.old) }
{
    let reads = overwritten_copy(alloc, file.reads.as_slice(), at, bytes)?;
    file.loose.put_first(Range {
        at: at as u64,
        len: bytes.len() as u64,
    })?;
    file.reads = Bytes::from_vec(reads);
    Ok(())
}

// The bytes with others written over them.
fn overwritten_copy(
    alloc: Global,
    old: &[u8],
    at: usize,
    bytes: &[u8],
) -> Result<Vec<u8>, AllocError>
    requires { at + length bytes.now < 2 ^ 63 }
    ensures { IfOk result (λ v. v.items ≡ overwritten old.now at bytes.now) }
{
    let mut v = front(alloc, old, at)?;
    v.extend_from_slice(bytes)?;
    let end = at + bytes.len();
    if end < old.len() {
        v.extend_from_slice(&old[end..])?;
    }
    Ok(v)
}

// The bytes before a place, and zeros up to it.
fn front(alloc: Global, old: &[u8], at: usize) -> Result<Vec<u8>, AllocError>
    ensures { IfOk result (λ v. v.items ≡ take at old.now ++ replicate (at - length old.now) 0) }
{
    if at <= old.len() {
        old[..at].to_vec(alloc)
    } else {
        let mut v = old.to_vec(alloc)?;
        v.resize(at, 0)?;
        Ok(v)
    }
}
