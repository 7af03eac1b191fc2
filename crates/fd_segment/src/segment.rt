ghost use Rattle.std.specs.Prelude.{◌≡◌, ◌≤◌, ◌⊎◌, true, take, Some, IfOk, IfErr, OnOk, OnErr, IfSome};
ghost use Rattle.fd_disk.specs.{declared.folders.FileKind.TheVariants.{Fields, Index}, declared.folders.FileName.{FileName}, Folders.{keeping}, Names.{name_of}};
ghost use Rattle.fd_pages.specs.Parts.{HasFrame};
ghost use Rattle.fd_segment.specs.{Causes.{IsBadFrame, IsBadIndex, OnDamaged}, Counts.{HasReadFrame}};

use crate::fault::LensFault;
use crate::lens::{Lens, lens_fault};
use fd_bytes::NoMemory;
use fd_disk::{Down, Sealed, Shelf};
use fd_entries::Entry;
use fd_pages::Paged;
use std::alloc::Global;
use std::marker::{Model, PhantomData};
use std::sync::Mutex;

/// The two files of one batch, which change no more, with the numbers of its entry.
pub struct Segment<F: Send, Z: Sealed<F>> {
    entry: Entry,
    field_file: Z,
    index_file: Z,
    // a fault may be moved to another thread, and need not be shared
    of: PhantomData<Mutex<F>>,
}

impl<F: Send, Z: Sealed<F>> Model for Segment<F, Z> {
    ghost use Rattle.std.specs.Prelude.{◌≡◌, ◌≤◌};
    ghost use Rattle.fd_segment.specs.Held.{Standing};

    ghost Value = { Standing };

    ghost view = { λ s. record {
      files = record {
        entry = s.entry;
        index = Z.bytes s.index_file;
        fields = Z.bytes s.field_file;
      };
      dataset = Z.name s.field_file;
      index_made = Z.made s.index_file;
      fields_made = Z.made s.field_file;
    } };

    ghost invariant = { λ s. (Z.name s.index_file ≡ Z.name s.field_file) × (s.entry.index_len ≤ Z.len s.index_file) × (s.entry.fields_len ≤ Z.len s.field_file) };
}

impl<F: Send, Z: Sealed<F>> Drop for Segment<F, Z> {
    fn drop(self) {
        let Segment {
            entry: _,
            field_file: _,
            index_file: _,
            of: _,
        } = self;
    }
}

impl<F: Send, Z: Sealed<F>> Segment<F, Z> {
    /// The segment of two listed files. Both carry the name of one dataset and are at least as long as the numbers say.
    pub fn new(entry: Entry, field_file: Z, index_file: Z) -> Segment<F, Z>
        requires dataset { Z.name index_file ≡ Z.name field_file }
        requires index { entry.index_len ≤ Z.len index_file }
        requires fields { entry.fields_len ≤ Z.len field_file }
        ensures entry { result.files.entry ≡ entry }
        ensures index { result.files.index ≡ Z.bytes index_file }
        ensures fields { result.files.fields ≡ Z.bytes field_file }
        ensures dataset { result.dataset ≡ Z.name field_file }
        ensures index_made { result.index_made ≡ Z.made index_file }
        ensures fields_made { result.fields_made ≡ Z.made field_file }
    {
        Segment {
            entry,
            field_file,
            index_file,
            of: PhantomData,
        }
    }

    /// The entry of the segment.
    pub fn entry(&self) -> Entry
        ensures { result ≡ self.now.files.entry }
    {
        self.entry
    }

    /// Has the shelf that created both files hold them. Keeping what it holds already changes nothing.
    pub fn keep<H: Shelf<F, Sealed = Z>>(
        &self,
        alloc: Global,
        shelf: &mut H,
    ) -> Result<(), NoMemory>
        requires dataset { self.now.dataset ≡ H.name shelf.old }
        requires fields { self.now.fields_made ≡ Some (name_of (H.writer shelf.old) self.now.files.entry.seq Fields) }
        requires index { self.now.index_made ≡ Some (name_of (H.writer shelf.old) self.now.files.entry.seq Index) }
        ensures ok { OnOk result (H.kept shelf.new ≡ keeping (name_of (H.writer shelf.old) self.now.files.entry.seq Index) self.now.files.index (keeping (name_of (H.writer shelf.old) self.now.files.entry.seq Fields) self.now.files.fields (H.kept shelf.old))) }
        ensures err { OnErr result (H.kept shelf.new ≡ H.kept shelf.old) }
        ensures created { (n : FileName) → H.created shelf.new n ≡ true → (H.created shelf.old n ≡ true) ⊎ ((n ≡ name_of (H.writer shelf.old) self.now.files.entry.seq Fields) ⊎ (n ≡ name_of (H.writer shelf.old) self.now.files.entry.seq Index)) }
        ensures writer { H.writer shelf.new ≡ H.writer shelf.old }
        ensures name { H.name shelf.new ≡ H.name shelf.old }
        ensures faults { H.faults shelf.new ≡ H.faults shelf.old }
    {
        shelf.keep(alloc, self.entry.seq, &self.field_file, &self.index_file)
    }
}

impl<F: Send, Z: Sealed<F>> Segment<F, Z> {
    /// Opens both files for reading, and reads the first eight bytes and the footer of the index. `Damaged` is here only
    /// `Index`, exactly where the length, these eight bytes, the footer's mark or its number of pages isn't in the format,
    /// with the place of the first of them that isn't.
    pub fn lens(&self, alloc: Global) -> Result<Lens<F, Z::Reader>, LensFault<F>>
        ensures files { IfOk result (λ l. l.files ≡ self.now.files) }
        ensures frame { IfOk result (λ l. IfSome self.now.files.index (λ index. HasFrame (take self.now.files.entry.index_len index))) }
        ensures part { IfErr result (λ e. OnDamaged e (IsBadFrame self.now.files.entry self.now.files.index)) }
        ensures damaged { IfErr result (λ e. OnDamaged e (IsBadIndex self.now.files.entry self.now.files.index)) }
        ensures few { IfOk result HasReadFrame }
    {
        let field_file = opened(alloc, &self.field_file)?;
        let index_file = opened(alloc, &self.index_file)?;
        let entry = self.entry();
        match Paged::start(alloc, index_file, entry.index_len) {
            Ok(index) => Ok(Lens::new(entry, index, field_file)),
            Err(fault) => Err(lens_fault(&entry, fault)),
        }
    }
}

/// Opens a file for reading.
fn opened<F: Send, Z: Sealed<F>>(alloc: Global, file: &Z) -> Result<Z::Reader, LensFault<F>>
    ensures bytes { IfOk result (λ r. Z.Reader.bytes r ≡ Z.bytes file.now) }
    ensures len { IfOk result (λ r. Z.Reader.len r ≡ Z.len file.now) }
    ensures new { IfOk result (λ r. (Z.Reader.reads r ≡ 0) × (Z.Reader.asked r ≡ 0)) }
    ensures damaged { IfErr result (λ e. OnDamaged e (λ _. ⊥)) }
{
    match file.reader(alloc) {
        Ok(reader) => Ok(reader),
        Err(Down::Fault(fault)) => Err(LensFault::Fault(fault)),
        Err(Down::NoMemory) => Err(LensFault::NoMemory),
    }
}
