ghost use Rattle.std.specs.Prelude.{◌≡◌, ◌≤◌, ◌<◌, ◌-◌, ◌^◌, ◌↔◌, [], List, true, false, length, None, IsSome, is_some, IsTrue, IfOk, IfErr, IfSome};
ghost use Rattle.fd_bytes.specs.Causes.{Rose};
ghost use Rattle.fd_disk.specs.{declared.folders.FileName.{FileName}, Causes.{OnFault}};
ghost use Rattle.fd_entries.specs.{declared.batch.Pair.{Pair}, Batches.{distinct}};
ghost use Rattle.fd_segment.specs.Filling.{Puts};
ghost use Rattle.fd_schema.specs.Reading.{seen_place};
ghost use Rattle.fd_archiver.specs.{Archiving.{CanArchive, HasArchived}, Causes.{RefusedAs}, Whole.{Created}, Writing.{IsKept, IsPending}};

use crate::fault::ArchiveFault;
use fd_disk::{Down, Sealed, Shelf};
use fd_schema::Place;
use fd_segment::{Draft, Field, PutFault, Room, Segment};
use std::alloc::Global;
use std::marker::Model;
use std::sync::Arc;

/// A segment that is sealed and not listed.
#[derive(Drop)]
pub(crate) enum Unlisted<F: Send, Z: Sealed<F>> {
    /// There is none.
    No,
    /// The shelf doesn't keep its files yet.
    Sealed(Segment<F, Z>),
    /// The shelf keeps its files.
    Kept(Arc<Segment<F, Z>>),
}

// Why a field wasn't put into the batch.
fn refused<F: Send>(fault: PutFault<F>) -> ArchiveFault<F>
    ensures { RefusedAs fault result }
{
    match fault {
        PutFault::Full { keys, left } => ArchiveFault::Full { keys, left },
        PutFault::Fault(fault) => ArchiveFault::Disk(fault),
    }
}

/// One writer of a dataset.
pub struct Archiver<F: Send, H: Shelf<F>> {
    pub(crate) shelf: H,
    pub(crate) writer: u32,
    pub(crate) room: Room,
    // the greatest sequence number that was used, also one that was refused
    pub(crate) last: u32,
    pub(crate) draft: Draft<F, H>,
    // the next draft, which a flush made that failed
    pub(crate) next: Option<Draft<F, H>>,
    pub(crate) unlisted: Unlisted<F, H::Sealed>,
}

impl<F: Send, H: Shelf<F>> Model for Archiver<F, H> {
    ghost use Rattle.std.specs.Prelude.{◌≡◌, is_some};
    ghost use Rattle.fd_archiver.specs.{Writing.{Writing}, Waiting.{is_kept, waiting}, Whole.{Created, IsWhole, KeptIs}};

    ghost Value = { Writing H };

    ghost view = { λ a. record {
      writer = a.writer;
      dataset = H.name a.shelf;
      told = is_some (H.kept a.shelf);
      last = a.last;
      has_next = is_some a.next;
      draft = a.draft;
      unlisted = waiting a.unlisted;
      is_kept = is_kept a.unlisted;
      shelf = a.shelf;
      shelf_faults = H.faults a.shelf;
    } };

    ghost invariant = { λ a. (H.writer a.shelf ≡ a.writer)
        × Created a.writer a.last (H.created a.shelf)
        × IsWhole (record { writer = a.writer; dataset = H.name a.shelf; told = is_some (H.kept a.shelf); keys = a.room.keys; bytes = a.room.bytes; last = a.last }) a.draft a.next (waiting a.unlisted)
        × KeptIs (is_kept a.unlisted) (H.kept a.shelf) (waiting a.unlisted) };
}

impl<F: Send, H: Shelf<F>> Drop for Archiver<F, H> {
    fn drop(self) {
        let Archiver {
            shelf: _,
            writer: _,
            room: _,
            last: _,
            draft: _,
            next: _,
            unlisted: _,
        } = self;
    }
}

impl<F: Send, H: Shelf<F>> Archiver<F, H> {
    /// A writer with an empty batch, on this writer's shelf, on which nothing was created. The shelf comes back with an
    /// `Err`: it may have created an empty file or two.
    ///
    /// `Fault` comes only where the shelf's count of faults rose.
    pub fn new(
        alloc: Global,
        shelf: H,
        writer: u32,
        room: Room,
    ) -> Result<Archiver<F, H>, (H, Down<F>)>
        requires writer { H.writer shelf ≡ writer }
        requires new { (n : FileName) → H.created shelf n ≡ false }
        ensures writer { IfOk result (λ a. a.writer ≡ writer) }
        ensures dataset { IfOk result (λ a. a.dataset ≡ H.name shelf) }
        ensures numbers { IfOk result (λ a. (a.last ≡ 1) × (a.has_next ≡ false)) }
        ensures room { IfOk result (λ a. (a.draft.held.keys ≡ room.keys) × (a.draft.held.bytes ≡ room.bytes)) }
        ensures nothing { IfOk result (λ a. (a.unlisted ≡ None) × IsPending a []) }
        ensures kept { IfOk result (λ a. H.kept a.shelf ≡ H.kept shelf) }
        ensures told { IfOk result (λ a. a.told ≡ is_some (H.kept shelf)) }
        ensures later { IfOk result (λ a. H.faults shelf ≤ a.shelf_faults) }
        ensures back { IfErr result (λ e. (H.writer e.0 ≡ writer) × (H.name e.0 ≡ H.name shelf) × (H.kept e.0 ≡ H.kept shelf)) }
        ensures created { IfErr result (λ e. Created writer 1 (H.created e.0)) }
        ensures later_back { IfErr result (λ e. H.faults shelf ≤ H.faults e.0) }
        ensures cause { IfErr result (λ e. OnFault e.1 (Rose (H.faults shelf) (H.faults e.0))) }
    {
        let mut shelf = shelf;
        match Draft::new(alloc, &mut shelf, writer, 1, room) {
            Ok(draft) => Ok(Archiver {
                shelf,
                writer,
                room,
                last: 1,
                draft,
                next: None,
                unlisted: Unlisted::No,
            }),
            Err(down) => Err((shelf, down)),
        }
    }

    /// Puts a field of this dataset into the batch, under the key of its place, which has at most 256 bytes. The bytes
    /// are at most 128 MiB, and all of a batch together, with 32 for the digest of each, are fewer than 2^63. It takes no memory. After a refusal the batch
    /// is as before.
    ///
    /// `Unlisted` comes exactly while a sealed batch waits to be listed, `Full` exactly where the batch has no room for
    /// the key, both before anything is written, and `Disk` only where the field file's count of faults rose.
    pub fn archive(&mut self, place: &Place, bytes: &[u8]) -> Result<(), ArchiveFault<F>>
        requires { CanArchive self.old (seen_place place.now) bytes.now }
        ensures { HasArchived self.old self.new (seen_place place.now) bytes.now result }
    {
        if self.unlisted() {
            return Err(ArchiveFault::Unlisted);
        }
        let key = place.short_key();
        match self.draft.put(key.as_str().as_bytes(), bytes) {
            Ok(()) => Ok(()),
            Err(fault) => Err(refused(fault)),
        }
    }

    /// The same for a field whose digest was perhaps looked for: where it was, none is computed here.
    pub fn archive_field(&mut self, place: &Place, field: &Field) -> Result<(), ArchiveFault<F>>
        requires { CanArchive self.old (seen_place place.now) field.now }
        ensures { HasArchived self.old self.new (seen_place place.now) field.now result }
    {
        if self.unlisted() {
            return Err(ArchiveFault::Unlisted);
        }
        let key = place.short_key();
        match self.draft.put_field(key.as_str().as_bytes(), field) {
            Ok(()) => Ok(()),
            Err(fault) => Err(refused(fault)),
        }
    }

    /// Tells that a sealed batch waits to be listed. Nothing else is pending then.
    pub fn unlisted(&self) -> bool
        ensures waits { IsTrue result ↔ IsSome self.now.unlisted }
        ensures empty { IsTrue result → Puts self.now.draft [] }
    {
        match &self.unlisted {
            Unlisted::No => false,
            Unlisted::Sealed(_) => true,
            Unlisted::Kept(_) => true,
        }
    }

    /// The number of distinct keys that aren't sealed.
    pub fn pending(&self) -> u32
        ensures count { result ≡ length self.now.draft.held.records }
        ensures distinct { (b : List Pair) → self.now.unlisted ≡ None → IsPending self.now b → result ≡ distinct b }
    {
        self.draft.len()
    }

    /// The number of the writer.
    pub fn writer(&self) -> u32
        ensures { result ≡ self.now.writer }
    {
        self.writer
    }

    /// How many bytes were put into the batch that isn't sealed, all of them together.
    pub fn size(&self) -> u64
        ensures { result ≡ self.now.draft.end }
    {
        self.draft.size()
    }

    /// How many sequence numbers are left. A flush asks for one at least.
    pub fn flushes_left(&self) -> u32
        ensures left { result ≡ 2 ^ 32 - 1 - self.now.last }
        ensures some { 0 < result → self.now.last < 2 ^ 32 - 1 }
    {
        0xFFFF_FFFF - self.last
    }

    /// The law that a segment which came to its listing is this writer's, and that the shelf keeps both its files.
    pub fn waiting_is_kept(&self)
        ensures writer { self.now.is_kept ≡ true → IfSome self.now.unlisted (λ s. s.files.entry.writer ≡ self.now.writer) }
        ensures files { self.now.is_kept ≡ true → IfSome self.now.unlisted (IsKept (H.kept self.now.shelf)) }
    {
        let _ = &self.shelf;
    }

    /// Ends the writing, and gives the shelf back with the files that it keeps, also those of a batch whose listing
    /// failed. What is pending is lost.
    pub fn close(self) -> H
        ensures writer { H.writer result ≡ self.writer }
        ensures name { H.name result ≡ self.dataset }
        ensures kept { H.kept result ≡ H.kept self.shelf }
        ensures unlisted { self.is_kept ≡ true → IfSome self.unlisted (IsKept (H.kept result)) }
        ensures created { Created self.writer self.last (H.created result) }
        ensures faults { H.faults result ≡ self.shelf_faults }
    {
        let Archiver {
            shelf,
            writer: _,
            room: _,
            last: _,
            draft: _,
            next: _,
            unlisted: _,
        } = self;
        shelf
    }
}
