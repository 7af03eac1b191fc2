ghost use Rattle.std.specs.Prelude.{◌≡◌, ◌≤◌, ◌<◌, ◌+◌, ◌^◌, ◌⊎◌, ◌↔◌, ◌++◌, [], ◌∷◌, List, true, false, Some, length, is_some, IsTrue, IfOk, IfErr, OnOk, OnErr, option_map};
ghost use Rattle.fd_bytes.specs.Causes.{Rose};
ghost use Rattle.fd_disk.specs.{declared.folders.FileKind.TheVariants.{Fields, Index}, declared.folders.FileName.{FileName}, Causes.{OnFault, OnNoMemory}, Folders.{WhereTold}, Images.{firm_file, synced}, Names.{name_of}};
ghost use Rattle.fd_entries.specs.{declared.batch.Pair.{Pair}, Batches.{distinct}};
ghost use Rattle.fd_index.specs.{Builder.{room_for}, Pages.{index_of}};
ghost use Rattle.fd_segment.specs.{Causes.{FullAs, OnPutFault, OnPutFull}, Filling.{HoldsSame, IsOf, IsSealed, Puts}, Putting.{HasPut}, Steps.{StopsPutting, StopsSealing, digested, with_front}};
ghost use Rattle.sha2.specs.Sha256.{sha256};

use crate::fault::PutFault;
use crate::field::Field;
use crate::firm::make_firm;
use crate::segment::Segment;
use crate::writing::{field_digest, write_digested};
use fd_disk::{Disk, Down, Shelf};
use fd_entries::Entry;
use fd_index::IndexBuilder;
use std::alloc::Global;
use std::marker::{Model, PhantomData};

/// How many distinct keys a batch may have, and how many bytes of keys.
#[derive(Clone, Copy, Debug, PartialEq, Eq)]
pub struct Room {
    /// The greatest number of distinct keys, at most 65,536.
    pub keys: u32,
    /// The greatest number of bytes that the distinct keys have together, at most 16 MiB.
    pub bytes: u32,
    ghost few: { keys ≤ 65536 },
    ghost small: { bytes ≤ 2 ^ 24 },
}

/// The two files of a batch while it is filled.
pub struct Draft<F: Send, H: Shelf<F>> {
    writer: u32,
    seq: u32,
    records: IndexBuilder,
    end: u64,
    field_file: H::File,
    index_file: H::File,
    of: PhantomData<F>,
}

impl<F: Send, H: Shelf<F>> Model for Draft<F, H> {
    ghost use Rattle.std.specs.Prelude.{◌≡◌, ◌≤◌, ◌<◌, ◌^◌, ◌&&◌, Some, is_some, option_map};
    ghost use Rattle.fd_disk.specs.{declared.folders.FileKind.TheVariants.{Fields, Index}, Names.{name_of}};
    ghost use Rattle.fd_segment.specs.Filling.{Filling};

    ghost Value = { Filling };

    ghost view = { λ d. record {
      origin = record { writer = d.writer; seq = d.seq; dataset = H.File.name d.field_file; told = is_some (H.File.file d.field_file) && is_some (H.File.file d.index_file) };
      held = d.records;
      end = d.end;
      fields = option_map (λ f. f.reads) (H.File.file d.field_file);
      field_file = H.File.file d.field_file;
      index_file = H.File.file d.index_file;
      field_faults = H.File.faults d.field_file;
      index_faults = H.File.faults d.index_file;
    } };

    ghost invariant = { λ d. (H.File.name d.index_file ≡ H.File.name d.field_file)
        × (H.File.made d.field_file ≡ Some (name_of d.writer d.seq Fields))
        × (H.File.made d.index_file ≡ Some (name_of d.writer d.seq Index))
        × (d.end ≤ H.File.extent d.field_file) };
}

impl<F: Send, H: Shelf<F>> Drop for Draft<F, H> {
    fn drop(self) {
        let Draft {
            writer: _,
            seq: _,
            records: _,
            end: _,
            field_file: _,
            index_file: _,
            of: _,
        } = self;
    }
}

impl<F: Send, H: Shelf<F>> Draft<F, H> {
    /// Creates both files of a batch, on this writer's shelf, where nothing was created under this number. All the memory
    /// that puts need is reserved before. After an `Err` the shelf may have created one or both of the files.
    pub fn new(
        alloc: Global,
        shelf: &mut H,
        writer: u32,
        seq: u32,
        room: Room,
    ) -> Result<Draft<F, H>, Down<F>>
        requires writer { H.writer shelf.old ≡ writer }
        requires fields { H.created shelf.old (name_of writer seq Fields) ≡ false }
        requires index { H.created shelf.old (name_of writer seq Index) ≡ false }
        ensures origin { IfOk result (λ d. d.origin ≡ record { writer = writer; seq = seq; dataset = H.name shelf.old; told = is_some (H.kept shelf.old) }) }
        ensures room { IfOk result (λ d. d.held ≡ record { records = []; keys = room.keys; bytes = room.bytes }) }
        ensures empty { IfOk result (λ d. Puts d []) }
        ensures files { IfOk result (λ d. (d.field_file ≡ option_map (λ _. firm_file []) (H.kept shelf.old)) × (d.index_file ≡ option_map (λ _. firm_file []) (H.kept shelf.old))) }
        ensures kept { H.kept shelf.new ≡ H.kept shelf.old }
        ensures created { (n : FileName) → H.created shelf.new n ≡ true → (H.created shelf.old n ≡ true) ⊎ ((n ≡ name_of writer seq Fields) ⊎ (n ≡ name_of writer seq Index)) }
        ensures writer { H.writer shelf.new ≡ H.writer shelf.old }
        ensures name { H.name shelf.new ≡ H.name shelf.old }
        ensures later { H.faults shelf.old ≤ H.faults shelf.new }
        ensures cause { IfErr result (λ e. OnFault e (Rose (H.faults shelf.old) (H.faults shelf.new))) }
    {
        let records = match IndexBuilder::new(alloc, room.keys, room.bytes) {
            Ok(records) => records,
            Err(_) => return Err(Down::NoMemory),
        };
        let field_file = shelf.create(alloc, seq, fd_disk::FileKind::Fields)?;
        let index_file = shelf.create(alloc, seq, fd_disk::FileKind::Index)?;
        Ok(Draft {
            writer,
            seq,
            records,
            end: 0,
            field_file,
            index_file,
            of: PhantomData,
        })
    }
}

impl<F: Send, H: Shelf<F>> Draft<F, H> {
    /// Writes the bytes behind those that were put, and then their SHA-256 behind them, and takes the key with their place. It
    /// takes no memory. After a refusal the batch is as before.
    ///
    /// `Full` comes exactly where the index has no room for the key, and before anything is written. `Fault` comes only
    /// where the field file's count of faults rose.
    pub fn put(&mut self, key: &[u8], bytes: &[u8]) -> Result<(), PutFault<F>>
        requires key { length key.now ≤ 256 }
        requires sum { self.old.end + (length bytes.now + 32) < 2 ^ 63 }
        ensures { HasPut self.old self.new key.now bytes.now result }
    {
        self.put_digested(key, bytes, &field_digest(bytes))
    }

    /// The same for a field whose digest was perhaps looked for: where it was, none is computed here.
    pub fn put_field(&mut self, key: &[u8], field: &Field) -> Result<(), PutFault<F>>
        requires key { length key.now ≤ 256 }
        requires sum { self.old.end + (length field.now + 32) < 2 ^ 63 }
        ensures { HasPut self.old self.new key.now field.now result }
    {
        self.put_digested(key, field.as_slice(), &field.digest())
    }

    // The same for bytes with this digest.
    fn put_digested(
        &mut self,
        key: &[u8],
        bytes: &[u8],
        digest: &[u8; 32],
    ) -> Result<(), PutFault<F>>
        requires key { length key.now ≤ 256 }
        requires digest { digest.now ≡ sha256 bytes.now }
        requires sum { self.old.end + (length bytes.now + 32) < 2 ^ 63 }
        ensures ok { OnOk result ((b : List Pair) → Puts self.old b → Puts self.new (b ++ record { key = key.now; bytes = bytes.now } ∷ [])) }
        ensures end { OnOk result (self.new.end ≡ self.old.end + (length bytes.now + 32)) }
        ensures err { OnErr result ((b : List Pair) → Puts self.old b → Puts self.new b) }
        ensures refused { OnErr result ((self.new.held ≡ self.old.held) × (self.new.end ≡ self.old.end)) }
        ensures file { OnOk result (self.new.field_file ≡ option_map (digested self.old.end bytes.now) self.old.field_file) }
        ensures file_err { IfErr result (λ e. OnPutFault e (WhereTold self.old.field_file self.new.field_file (StopsPutting self.old.end bytes.now))) }
        ensures index_file { self.new.index_file ≡ self.old.index_file }
        ensures origin { self.new.origin ≡ self.old.origin }
        ensures room { (self.new.held.keys ≡ self.old.held.keys) × (self.new.held.bytes ≡ self.old.held.bytes) }
        ensures full { FullAs (room_for self.old.held key.now) result }
        ensures unwritten { IfErr result (λ e. OnPutFull e (self.new ≡ self.old)) }
        ensures later { (self.old.field_faults ≤ self.new.field_faults) × (self.new.index_faults ≡ self.old.index_faults) }
        ensures cause { IfErr result (λ e. OnPutFault e (Rose self.old.field_faults self.new.field_faults)) }
    {
        if let Err(full) = self.records.fits(key) {
            return Err(PutFault::Full {
                keys: full.keys,
                left: full.left,
            });
        }
        if let Err(fault) = write_digested(&mut self.field_file, self.end, bytes, digest) {
            return Err(PutFault::Fault(fault));
        }
        let Ok(()) = self.records.put(key, self.end, bytes.len() as u64) else {
            unreachable!();
        };
        self.end += bytes.len() as u64 + 32;
        Ok(())
    }

    /// The number of distinct keys that were put.
    pub fn len(&self) -> u32
        ensures count { result ≡ length self.now.held.records }
        ensures distinct { (b : List Pair) → Puts self.now b → result ≡ distinct b }
    {
        self.records.len()
    }

    /// How many bytes were put, all of them together, with 32 for the digest of each put.
    pub fn size(&self) -> u64
        ensures { result ≡ self.now.end }
    {
        self.end
    }

    /// Tells that nothing was put.
    pub fn is_empty(&self) -> bool
        ensures count { IsTrue result ↔ (self.now.held.records ≡ []) }
        ensures pairs { (b : List Pair) → Puts self.now b → IsTrue result ↔ (b ≡ []) }
    {
        self.records.len() == 0
    }

    /// Makes the two files firm, where a pair was put: syncs the fields, writes the index and syncs it, in this order. The
    /// segment has the SHA-256 of the index. The draft that comes back with an `Err` holds the same pairs, and may be put to or sealed again; the steps before the
    /// one that failed are done.
    ///
    /// `Fault` comes only where a count of faults of one of the two files rose. After `NoMemory` nothing was written.
    pub fn seal(self, alloc: Global) -> Result<Segment<F, H::Sealed>, (Draft<F, H>, Down<F>)>
        requires { 0 < length self.held.records }
        ensures sealed { IfOk result (λ s. (b : List Pair) → Puts self b → IsSealed self b s) }
        ensures files { IfOk result (IsOf self.origin) }
        ensures digest { IfOk result (λ s. s.files.entry.digest ≡ Some (sha256 (index_of self.held.records))) }
        ensures fields { IfOk result (λ s. s.files.fields ≡ option_map (λ f. f.reads) (option_map synced self.field_file)) }
        ensures index { IfOk result (λ s. s.files.index ≡ option_map (λ f. f.reads) (option_map synced (with_front (index_of self.held.records) self.index_file))) }
        ensures stops { IfErr result (λ e. OnFault e.1 (StopsSealing (index_of self.held.records) self.field_file self.index_file e.0.field_file e.0.index_file)) }
        ensures back { IfErr result (λ e. (b : List Pair) → Puts self b → Puts e.0 b) }
        ensures same { IfErr result (λ e. HoldsSame self e.0) }
        ensures untouched { IfErr result (λ e. OnNoMemory e.1 (e.0 ≡ self)) }
        ensures later { IfErr result (λ e. (self.field_faults ≤ e.0.field_faults) × (self.index_faults ≤ e.0.index_faults)) }
        ensures cause { IfErr result (λ e. OnFault e.1 (Rose self.field_faults e.0.field_faults ⊎ Rose self.index_faults e.0.index_faults)) }
    {
        let Draft {
            writer,
            seq,
            records,
            end,
            mut field_file,
            mut index_file,
            of: _,
        } = self;
        match make_firm(alloc, &records, &mut field_file, &mut index_file) {
            Ok((index_len, digest)) => {
                let entry = Entry {
                    writer,
                    seq,
                    fields: records.len(),
                    index_len,
                    fields_len: end,
                    digest,
                };
                Ok(Segment::new(entry, field_file.seal(), index_file.seal()))
            }
            Err(fault) => Err((
                Draft {
                    writer,
                    seq,
                    records,
                    end,
                    field_file,
                    index_file,
                    of: PhantomData,
                },
                fault,
            )),
        }
    }
}
