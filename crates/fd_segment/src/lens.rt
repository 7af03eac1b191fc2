ghost use Rattle.std.specs.Prelude.{◌≡◌, ◌≤◌, ◌+◌, ℕ, List, Option, Some, None, Ok, take, IfOk, IfErr, OnOk, IfSome, IsSome};
ghost use Rattle.fd_disk.specs.{Names.{name_of}, declared.folders.FileKind.TheVariants.{Fields}};
ghost use Rattle.fd_bytes.specs.Causes.{Rose};
ghost use Rattle.fd_pages.specs.{Paging.{HasRead, digits}, Parts.{pages_by}};
ghost use Rattle.fd_segment.specs.{declared.fault.Damage.TheVariants.{Beyond}, declared.fault.LensFault.TheVariants.{Damaged}, Causes.{AreAllOf, IsBadIndex, IsFieldDamage, IsPlace, OnCheckDamaged, OnCheckFault, OnCopyFault, OnDamaged, OnLensFault, StandsForNone, UnlessWrite, lens_fault}, Copying.{IsBatchIndex, IsCopied, IsCopiedInPart, IsDigestedAt, IsPiece}, Counts.{HasChecked, HasCopied, HasReadOnce, KeepsFieldCounts, KeepsIndexCounts, paging_of}, Held.{IsIndexOf, behind}, LookUps.{IsLookUp}};

use crate::copying::copy_pieces;
use crate::digest::{digest_at, kept_at};
use crate::fault::{CheckFault, CopyFault, Damage, LensFault};
use crate::whole::{read_whole, take_digest};
use crate::writing::field_digest;
use fd_bytes::Bytes;
use fd_disk::{Down, FileKind, FileName, Reader};
use fd_entries::Entry;
use fd_index::{Index, IndexFault};
use fd_io::Sink;
use fd_pages::{Paged, PagedFault};
use std::alloc::Global;
use std::marker::{Model, PhantomData};

/// A segment that is open for reading. Its index is read page by page, as look-ups need it, and 8 pages of it are kept.
pub struct Lens<F: Send, R: Reader<F>> {
    entry: Entry,
    index: Paged<F, R>,
    field_file: R,
    of: PhantomData<F>,
}

impl<F: Send, R: Reader<F>> Model for Lens<F, R> {
    ghost use Rattle.std.specs.Prelude.{◌≡◌, ◌≤◌};
    ghost use Rattle.fd_segment.specs.Held.{Opened};

    ghost Value = { Opened };

    ghost view = { λ l. record {
      files = record { entry = l.entry; index = l.index.bytes; fields = R.bytes l.field_file };
      index_faults = l.index.faults;
      field_faults = R.faults l.field_file;
      index_reads = l.index.reads;
      index_asked = l.index.asked;
      field_reads = R.reads l.field_file;
      field_asked = R.asked l.field_file;
    } };

    ghost invariant = { λ l. (l.index.len ≡ l.entry.index_len) × (l.entry.fields_len ≤ R.len l.field_file) };
}

impl<F: Send, R: Reader<F>> Drop for Lens<F, R> {
    fn drop(self) {
        let Lens {
            entry: _,
            index: _,
            field_file: _,
            of: _,
        } = self;
    }
}

impl<F: Send, R: Reader<F>> Lens<F, R> {
    /// A lens over two files of an entry, whose index was opened.
    pub(crate) fn new(entry: Entry, index: Paged<F, R>, field_file: R) -> Lens<F, R>
        requires index_len { index.len ≡ entry.index_len }
        requires fields_len { entry.fields_len ≤ R.len field_file }
        ensures files { result.files ≡ record { entry = entry; index = index.bytes; fields = R.bytes field_file } }
        ensures index { (result.index_reads ≡ index.reads) × (result.index_asked ≡ index.asked) }
        ensures fields { (result.field_reads ≡ R.reads field_file) × (result.field_asked ≡ R.asked field_file) }
    {
        Lens {
            entry,
            index,
            field_file,
            of: PhantomData,
        }
    }

    /// The place and the length of the key's newest bytes in the field file, or none where the batch doesn't have the key.
    /// Reads as many pages of the index as their number has binary digits, at most, also before a refusal. `Damaged` is
    /// here only `Index`, where a page that was read isn't in the format by itself, and `Beyond`, where the key's record
    /// ends beyond the fields; it never comes where the files stand for a batch. `Fault` comes only where the index file's
    /// count of faults rose.
    pub fn find(&mut self, alloc: Global, key: &[u8]) -> Result<Option<(u64, u64)>, LensFault<F>>
        ensures found { IsLookUp self.old.files key.now result }
        ensures files { self.new.files ≡ self.old.files }
        ensures few { HasRead (digits (pages_by self.old.files.entry.index_len)) (paging_of self.old) (paging_of self.new) }
        ensures unread { KeepsFieldCounts self.old self.new }
        ensures later { (self.old.index_faults ≤ self.new.index_faults) × (self.old.field_faults ≤ self.new.field_faults) }
        ensures cause { IfErr result (λ e. OnLensFault e (Rose self.old.index_faults self.new.index_faults)) }
    {
        let (at, len) = match self.index.find(alloc, key) {
            Ok(Some(place)) => place,
            Ok(None) => return Ok(None),
            Err(fault) => return Err(lens_fault(&self.entry, fault)),
        };
        let end = u128::from(at) + u128::from(len) + u128::from(behind(&self.entry));
        if end <= u128::from(self.entry.fields_len) {
            return Ok(Some((at, len)));
        }
        Err(beyond(&self.entry, end))
    }

    /// The place and the length of the key's newest bytes in the field file, or none where the batch doesn't have the key, by
    /// the records of the whole index, as `records` answers them: what `find` answers, without a read. `Damaged` is here only
    /// `Beyond`, where the key's record ends beyond the fields.
    pub fn find_among(
        &self,
        records: &Index,
        key: &[u8],
    ) -> Result<Option<(u64, u64)>, LensFault<F>>
        requires { AreAllOf self.now.files records.now }
        ensures found { IsLookUp self.now.files key.now result }
        ensures cause { IfErr result (λ e. OnLensFault e ⊥) }
    {
        let Some((at, len)) = records.find(key) else {
            return Ok(None);
        };
        let end = u128::from(at) + u128::from(len) + u128::from(behind(&self.entry));
        if end <= u128::from(self.entry.fields_len) {
            return Ok(Some((at, len)));
        }
        Err(beyond(&self.entry, end))
    }

    /// How many bytes the index file has.
    pub fn index_len(&self) -> u64
        ensures { result ≡ self.now.files.entry.index_len }
    {
        self.entry.index_len
    }

    /// Reads the index file as a whole, and answers the index that its first bytes are, as many as the entry says.
    pub fn records(&mut self, alloc: Global) -> Result<Index, LensFault<F>>
        ensures read { IfOk result (λ rs. IsIndexOf self.old.files.entry self.old.files.index rs) }
        ensures all { IfOk result (AreAllOf self.old.files) }
        ensures batch { IfOk result (IsBatchIndex self.old.files) }
        ensures damaged { IfErr result (λ e. OnDamaged e (IsBadIndex self.old.files.entry self.old.files.index)) }
        ensures files { self.new.files ≡ self.old.files }
        ensures unread { KeepsFieldCounts self.old self.new }
        ensures later { (self.old.index_faults ≤ self.new.index_faults) × (self.new.field_faults ≡ self.old.field_faults) }
        ensures cause { IfErr result (λ e. OnLensFault e (Rose self.old.index_faults self.new.index_faults)) }
    {
        let bytes = match self.index.read_all(alloc) {
            Ok(bytes) => bytes,
            Err(fault) => return Err(lens_fault(&self.entry, fault)),
        };
        read_index(alloc, &bytes, &self.entry)
    }

    /// Checks the bytes at a place of the field file against the digest behind them. Where the batch has no digests it reads
    /// nothing and answers `Ok`. Else it reads the bytes in pieces of 4096, and then the digest.
    ///
    /// `Damaged` is here only `FieldDigest`, exactly where the digest that stands there isn't that of the bytes. It never
    /// comes at the place of a key where the files stand for a batch. `Fault` comes only where the field file's count of
    /// faults rose.
    pub fn check(&mut self, at: u64, len: u64) -> Result<(), CheckFault<F>>
        requires { at + len + behind self.old.files.entry ≤ self.old.files.entry.fields_len }
        ensures ok { OnOk result (IsSome self.old.files.entry.digest → IsDigestedAt self.old.files.fields at len) }
        ensures damaged { IfErr result (λ e. OnCheckDamaged e (IsFieldDamage self.old.files.entry self.old.files.fields at len)) }
        ensures sound { IfErr result (λ e. OnCheckDamaged e (λ _. (key : List ℕ) → IsPlace self.old.files.entry self.old.files.index key (Some (at, len)) → StandsForNone self.old.files)) }
        ensures plain { self.old.files.entry.digest ≡ None → (result ≡ Ok tt) × (self.new ≡ self.old) }
        ensures files { self.new.files ≡ self.old.files }
        ensures few { HasChecked len self.old self.new }
        ensures unread { KeepsIndexCounts self.old self.new }
        ensures later { (self.new.index_faults ≡ self.old.index_faults) × (self.old.field_faults ≤ self.new.field_faults) }
        ensures cause { IfErr result (λ e. OnCheckFault e (Rose self.old.field_faults self.new.field_faults)) }
    {
        if self.entry.digest.is_none() {
            return Ok(());
        }
        let got = match digest_at(&mut self.field_file, at, len) {
            Ok(got) => got,
            Err(fault) => return Err(CheckFault::Fault(fault)),
        };
        let want = match kept_at(&mut self.field_file, at + len) {
            Ok(want) => want,
            Err(fault) => return Err(CheckFault::Fault(fault)),
        };
        if want == got {
            return Ok(());
        }
        Err(CheckFault::Damaged(Damage::FieldDigest {
            file: file_name(&self.entry, FileKind::Fields),
            at,
            want,
            got,
        }))
    }

    /// Reads the bytes at a place of the field file, which are at most 1 MiB, with their digest behind them, where the batch
    /// has digests, in one read, and gives them once they were checked against it.
    ///
    /// `Damaged` is here only `FieldDigest`, exactly where the digest that stands there isn't that of the bytes. It never
    /// comes at the place of a key where the files stand for a batch. `Fault` comes only where the field file's count of
    /// faults rose. At `NoMemory` nothing was read.
    pub fn read_field(&mut self, alloc: Global, at: u64, len: u64) -> Result<Bytes, LensFault<F>>
        requires inside { at + len + behind self.old.files.entry ≤ self.old.files.entry.fields_len }
        requires few { len ≤ 1048576 }
        ensures ok { IfOk result (IsPiece self.old.files.fields at len) }
        ensures checked { OnOk result (IsSome self.old.files.entry.digest → IsDigestedAt self.old.files.fields at len) }
        ensures damaged { IfErr result (λ e. OnDamaged e (IsFieldDamage self.old.files.entry self.old.files.fields at len)) }
        ensures sound { IfErr result (λ e. OnDamaged e (λ _. (key : List ℕ) → IsPlace self.old.files.entry self.old.files.index key (Some (at, len)) → StandsForNone self.old.files)) }
        ensures files { self.new.files ≡ self.old.files }
        ensures once { HasReadOnce (len + behind self.old.files.entry) self.old self.new }
        ensures unread { KeepsIndexCounts self.old self.new }
        ensures later { (self.new.index_faults ≡ self.old.index_faults) × (self.old.field_faults ≤ self.new.field_faults) }
        ensures cause { IfErr result (λ e. OnLensFault e (Rose self.old.field_faults self.new.field_faults)) }
    {
        let size = len + behind(&self.entry);
        let mut octets = match read_whole(alloc, &mut self.field_file, at, size) {
            Ok(octets) => octets,
            Err(Down::Fault(fault)) => return Err(LensFault::Fault(fault)),
            Err(Down::NoMemory) => return Err(LensFault::NoMemory),
        };
        if self.entry.digest.is_none() {
            return Ok(Bytes::from_vec(octets));
        }
        let want = take_digest(&mut octets, len as usize);
        let got = field_digest(&octets);
        if want == got {
            return Ok(Bytes::from_vec(octets));
        }
        Err(LensFault::Damaged(Damage::FieldDigest {
            file: file_name(&self.entry, FileKind::Fields),
            at,
            want,
            got,
        }))
    }

    /// Copies the bytes at a place of the field file into the sink, in pieces of 4096 bytes. After an `Err` a front of
    /// them was written, and the sink's count of faults rose where it is `Write`, and else stayed. Each piece is one read,
    /// which asks for its bytes alone.
    pub fn copy_to<X, K: Sink<X>>(
        &mut self,
        at: u64,
        len: u64,
        sink: &mut K,
    ) -> Result<(), CopyFault<F, X>>
        requires { at + len ≤ self.old.files.entry.fields_len }
        ensures ok { OnOk result (IsCopied self.old.files.fields at len (K.taken sink.old) (K.taken sink.new)) }
        ensures err { IfErr result (λ _. IsCopiedInPart self.old.files.fields at len (K.taken sink.old) (K.taken sink.new)) }
        ensures files { self.new.files ≡ self.old.files }
        ensures few { HasCopied len self.old self.new }
        ensures unread { KeepsIndexCounts self.old self.new }
        ensures later { (self.new.index_faults ≡ self.old.index_faults) × (self.old.field_faults ≤ self.new.field_faults) }
        ensures sink { K.faults sink.old ≤ K.faults sink.new }
        ensures calm { UnlessWrite result (K.faults sink.new ≡ K.faults sink.old) }
        ensures cause { IfErr result (λ e. OnCopyFault e (Rose self.old.field_faults self.new.field_faults) (Rose (K.faults sink.old) (K.faults sink.new))) }
    {
        copy_pieces(&mut self.field_file, at, len, sink)
    }
}

/// How many bytes stand behind those of each record.
fn behind(entry: &Entry) -> u64
    ensures count { result ≡ behind entry.now }
    ensures few { result ≤ 32 }
{
    if entry.digest.is_some() { 32 } else { 0 }
}

/// The answer for a record that ends there, beyond the fields.
fn beyond<F>(entry: &Entry, end: u128) -> LensFault<F>
    ensures { result ≡ Damaged (Beyond (name_of entry.now.writer entry.now.seq Fields) end entry.now.fields_len) }
{
    LensFault::Damaged(Damage::Beyond {
        file: file_name(entry, FileKind::Fields),
        end,
        len: entry.fields_len,
    })
}

/// The name of a file of an entry.
fn file_name(entry: &Entry, kind: FileKind) -> FileName
    ensures { result ≡ name_of entry.now.writer entry.now.seq kind }
{
    FileName {
        writer: entry.writer,
        seq: entry.seq,
        kind,
    }
}

/// The answer for a refusal of the paged index.
pub(crate) fn lens_fault<F>(entry: &Entry, fault: PagedFault<F>) -> LensFault<F>
    ensures { result ≡ lens_fault entry.now fault }
{
    match fault {
        PagedFault::Fault(fault) => LensFault::Fault(fault),
        PagedFault::BadIndex { at } => LensFault::Damaged(Damage::Index {
            file: file_name(entry, FileKind::Index),
            at,
        }),
        PagedFault::NoMemory => LensFault::NoMemory,
    }
}

/// Reads the index that these bytes of the entry's index file are.
fn read_index<F>(alloc: Global, bytes: &[u8], entry: &Entry) -> Result<Index, LensFault<F>>
    ensures read { (file : Option (List ℕ)) → IfSome file (λ b. bytes.now ≡ take entry.now.index_len b) → IfOk result (IsIndexOf entry.now file) }
    ensures damaged { (file : Option (List ℕ)) → IfSome file (λ b. bytes.now ≡ take entry.now.index_len b) → IfErr result (λ e. OnDamaged e (IsBadIndex entry.now file)) }
    ensures cause { IfErr result (λ e. OnLensFault e ⊥) }
{
    match Index::read(alloc, bytes) {
        Ok(index) => Ok(index),
        Err(IndexFault::BadIndex { at }) => Err(LensFault::Damaged(Damage::Index {
            file: file_name(entry, FileKind::Index),
            at,
        })),
        Err(IndexFault::NoMemory) => Err(LensFault::NoMemory),
    }
}
