//! What a flush does before the listing: a next draft, the sealing, and the keeping of both files.
ghost use Rattle.std.specs.Prelude.{◌≡◌, ◌≢◌, ◌≤◌, ◌<◌, ◌-◌, ◌^◌, ◌⊎◌, ◌↔◌, [], List, true, false, length, Ok, Err, None, IsSome, Some, IfErr, OnOk, OnErr};
ghost use Rattle.fd_bytes.specs.Causes.{Rose};
ghost use Rattle.fd_disk.specs.Causes.{OnFault};
ghost use Rattle.fd_entries.specs.declared.batch.Pair.{Pair};
ghost use Rattle.fd_segment.specs.{Filling.{HoldsSame, Puts}, Held.{Standing}};
ghost use Rattle.fd_archiver.specs.{Causes.{OnFlushDisk}, Flushing.{FailedBefore, KeepsNext, KeepsOthers, StaysOf, UsesOne}, Writing.{IsPending, IsReady, number_of}};

use crate::FlushFault;
use crate::archiver::{Archiver, Unlisted};
use fd_bytes::NoMemory;
use fd_disk::{Down, Shelf};
use fd_segment::Draft;
use std::alloc::Global;
use std::mem;
use std::sync::Arc;

impl<F: Send, H: Shelf<F>> Archiver<F, H> {
    // Makes the next draft, where none waits.
    fn make_next(&mut self, alloc: Global) -> Result<(), Down<F>>
        requires left { self.old.last < 2 ^ 32 - 1 }
        ensures next { OnOk result (self.new.has_next ≡ true) }
        ensures none { OnErr result (self.old.has_next ≡ false) }
        ensures numbers { UsesOne self.old self.new }
        ensures kept { H.kept self.new.shelf ≡ H.kept self.old.shelf }
        ensures later { self.old.shelf_faults ≤ self.new.shelf_faults }
        ensures cause { IfErr result (λ e. OnFault e (Rose self.old.shelf_faults self.new.shelf_faults)) }
        ensures rest { self.new ≡ record self.old { last = self.new.last; has_next = self.new.has_next; shelf = self.new.shelf; shelf_faults = self.new.shelf_faults } }
    {
        if self.next.is_some() {
            return Ok(());
        }
        self.last += 1;
        let next = Draft::new(alloc, &mut self.shelf, self.writer, self.last, self.room)?;
        self.next = Some(next);
        Ok(())
    }

    // Seals the batch. Where that fails the draft is put back, and the next one kept.
    fn seal_batch(&mut self, alloc: Global) -> Result<(), Down<F>>
        requires none { self.old.unlisted ≡ None }
        requires next { self.old.has_next ≡ true }
        requires some { 0 < length self.old.draft.held.records }
        requires pairs { (b : List Pair) → Puts self.old.draft b → b ≢ [] }
        ensures ok { OnOk result (IsSome self.new.unlisted) }
        ensures pending { (b : List Pair) → IsPending self.old b → IsPending self.new b }
        ensures number { number_of self.new ≡ number_of self.old }
        ensures same { StaysOf self.old self.new }
        ensures back { OnErr result ((self.new.unlisted ≡ None) × HoldsSame self.old.draft self.new.draft) }
        ensures next { OnErr result (self.new.has_next ≡ true) }
        ensures cause { IfErr result (λ e. OnFault e (Rose self.old.draft.field_faults self.new.draft.field_faults ⊎ Rose self.old.draft.index_faults self.new.draft.index_faults)) }
        ensures rest { self.new ≡ record self.old { has_next = self.new.has_next; draft = self.new.draft; unlisted = self.new.unlisted; is_kept = false } }
    {
        let Some(next) = self.next.take() else {
            unreachable!()
        };
        let draft = mem::replace(&mut self.draft, next);
        match draft.seal(alloc) {
            Ok(segment) => {
                self.unlisted = Unlisted::Sealed(segment);
                Ok(())
            }
            Err((draft, down)) => {
                let next = mem::replace(&mut self.draft, draft);
                self.next = Some(next);
                Err(down)
            }
        }
    }

    // Seals the batch, where there is one and it isn't sealed. Tells whether a segment waits.
    fn sealed(&mut self, alloc: Global) -> Result<bool, Down<F>>
        requires left { self.old.last < 2 ^ 32 - 1 }
        ensures nothing { (result ≡ Ok false) ↔ IsPending self.old [] }
        ensures idle { result ≡ Ok false → self.new ≡ self.old }
        ensures waits { result ≡ Ok true → IsSome self.new.unlisted }
        ensures pending { (b : List Pair) → IsPending self.old b → IsPending self.new b }
        ensures number { number_of self.new ≡ number_of self.old }
        ensures same { StaysOf self.old self.new }
        ensures kept { H.kept self.new.shelf ≡ H.kept self.old.shelf }
        ensures still { (s : Standing) → self.old.unlisted ≡ Some s → self.new ≡ self.old }
        ensures settled { self.old.is_kept ≡ true → self.new ≡ self.old }
        ensures numbers { UsesOne self.old self.new }
        ensures later { self.old.shelf_faults ≤ self.new.shelf_faults }
        ensures next { KeepsNext self.old self.new }
        ensures unsealed { OnErr result ((self.new.unlisted ≡ None) × (self.new.is_kept ≡ false) × HoldsSame self.old.draft self.new.draft) }
        ensures cause { IfErr result (λ e. OnFault e (FailedBefore self.old self.new)) }
    {
        if self.unlisted() {
            return Ok(true);
        }
        if self.draft.is_empty() {
            return Ok(false);
        }
        self.make_next(alloc)?;
        self.seal_batch(alloc)?;
        Ok(true)
    }

    // Has the shelf keep the files of the segment that waits.
    fn keep_files(&mut self, alloc: Global) -> Result<(), NoMemory>
        requires waits { IsSome self.old.unlisted }
        ensures ok { OnOk result (IsReady H.kept self.new) }
        ensures unkept { OnErr result (self.new.is_kept ≡ false) }
        ensures settled { self.old.is_kept ≡ true → self.new ≡ self.old }
        ensures pending { (b : List Pair) → IsPending self.old b → IsPending self.new b }
        ensures others { KeepsOthers (number_of self.old) (H.kept self.old.shelf) (H.kept self.new.shelf) }
        ensures rest { self.new ≡ record self.old { is_kept = self.new.is_kept; shelf = self.new.shelf } }
    {
        match mem::replace(&mut self.unlisted, Unlisted::No) {
            Unlisted::Sealed(segment) => {
                let Ok(()) = segment.keep(alloc, &mut self.shelf) else {
                    self.unlisted = Unlisted::Sealed(segment);
                    return Err(NoMemory);
                };
                match Arc::new(alloc, segment) {
                    Ok(segment) => {
                        self.unlisted = Unlisted::Kept(segment);
                        Ok(())
                    }
                    Err(refused) => {
                        self.unlisted = Unlisted::Sealed(refused.value);
                        Err(NoMemory)
                    }
                }
            }
            Unlisted::Kept(segment) => {
                self.unlisted = Unlisted::Kept(segment);
                Ok(())
            }
            Unlisted::No => unreachable!(),
        }
    }

    // Makes the pending batch a segment whose files the shelf keeps. Tells whether there is one.
    pub(crate) fn made_ready(&mut self, alloc: Global) -> Result<bool, FlushFault<F>>
        requires left { self.old.last < 2 ^ 32 - 1 }
        ensures nothing { (result ≡ Ok false) ↔ IsPending self.old [] }
        ensures idle { result ≡ Ok false → self.new ≡ self.old }
        ensures ready { result ≡ Ok true → IsReady H.kept self.new }
        ensures settled { self.old.is_kept ≡ true → self.new ≡ self.old }
        ensures pending { (b : List Pair) → IsPending self.old b → IsPending self.new b }
        ensures number { number_of self.new ≡ number_of self.old }
        ensures same { StaysOf self.old self.new }
        ensures others { KeepsOthers (number_of self.old) (H.kept self.old.shelf) (H.kept self.new.shelf) }
        ensures still { (s : Standing) → self.old.unlisted ≡ Some s → self.new.unlisted ≡ Some s }
        ensures numbers { UsesOne self.old self.new }
        ensures later { self.old.shelf_faults ≤ self.new.shelf_faults }
        ensures unkept { OnErr result (self.new.is_kept ≡ false) }
        ensures next { KeepsNext self.old self.new }
        ensures back { OnErr result (self.new.unlisted ≡ None → HoldsSame self.old.draft self.new.draft) }
        ensures full { (count : _) → result ≢ Err (FlushFault.TableFull count) }
        ensures cause { IfErr result (λ e. OnFlushDisk e (FailedBefore self.old self.new)) }
    {
        match self.sealed(alloc) {
            Ok(false) => Ok(false),
            Ok(true) => match self.keep_files(alloc) {
                Ok(()) => Ok(true),
                Err(NoMemory) => Err(FlushFault::NoMemory),
            },
            Err(Down::Fault(fault)) => Err(FlushFault::Disk(fault)),
            Err(Down::NoMemory) => Err(FlushFault::NoMemory),
        }
    }
}
