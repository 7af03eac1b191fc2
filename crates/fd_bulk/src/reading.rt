//! An input, whose fields are dealt as they come, each as a message of its own.
ghost use Rattle.std.specs.Prelude.{◌≡◌, ◌≤◌, ℕ, List, Option, [], ◌++◌, ◌∷◌, All, Some, IfSome, IfOk, IfErr, OnOk, length, is_some, true, false};
ghost use Rattle.fd_bytes.specs.Causes.{Rose};
ghost use Rattle.fd_disk.specs.Folders.{Holdings};
ghost use Rattle.fd_sections.specs.Splitting.{start as nothing_read};
ghost use Rattle.fd_stored.specs.Archiving.{Stored};
ghost use Rattle.fd_split.specs.Positions.{IsIdle, Position, at_message};
ghost use Rattle.fd_key.specs.Pairs.{Pair};
ghost use Rattle.fd_schema.specs.{Grammar.{IsSchema}, Rules.{Rule}};
ghost use Rattle.fd_library.specs.Open.{OutAre, names_of};
ghost use Rattle.fd_bulk.specs.{Halting.{OnStore}, Batches.{AllDealt, BatchEnds}, Inputs.{CanGo, EndsOf, Going, GoesOn, InputDealt, InputEnds, Midway, is_calm, is_listed}, Standing.{HasCauses, StandsOr, WasDealt, WasStored}, Naming.{AreOpened, Notes}, Sheets.{CanDeal, IsTold, ToldAs}, Crewing.{Deals, Finished, Running}};
ghost use Rattle.fd_sheets.specs.{Names.{IsKnown}, Reading.{ReadOn}, Sheets.{Placed}};

use crate::bulk::{BulkFault, Terms};
use crate::crew::Crew;
use fd_disk::{Folder, Store};
use fd_io::{Gate, Source};
use fd_key::Given;
use fd_library::Library;
use fd_schema::Schema;
use fd_sheets::{Batch, Names, Reach, Reader, Sheet, Stop, Unplaced, read_on};
use std::alloc::Global;
use std::sync::Wait;
use std::thread::Threads;

/// How many messages are enough for a start of the workers' threads, where the reader has to wait for something else. A start takes as
/// long as a worker needs for some twenty small messages.
const ENOUGH: usize = 128;

/// How many fields were stored of an input that was read to its end, and how many octets were skipped.
#[derive(Drop)]
pub(crate) struct Counts {
    pub(crate) fields: u64,
    pub(crate) junk: u64,
}

// What is pending is to be listed: the input is at its end or refused, or a read of it failed.
fn is_listed<X>(found: &Result<Counts, BulkFault<X>>) -> bool
    ensures { result ≡ is_listed found.now }
{
    match found {
        Ok(_) => true,
        Err(BulkFault::Input(_)) => true,
        Err(BulkFault::Message(_)) => true,
        Err(BulkFault::NoMap { .. }) => true,
        Err(BulkFault::Cut(_)) => true,
        Err(BulkFault::Key { .. }) => true,
        Err(BulkFault::NoRule { .. }) => true,
        Err(BulkFault::TooMany { .. }) => true,
        Err(BulkFault::InputLimit) => true,
        Err(BulkFault::Disk) => false,
        Err(BulkFault::NotATable { .. }) => false,
        Err(BulkFault::Damaged { .. }) => false,
        Err(BulkFault::TableFull { .. }) => false,
        Err(BulkFault::NoMemory) => false,
    }
}

// Why a field has no place, as it is told of the message of this number.
fn unplaced<X>(reason: Unplaced, number: u64) -> BulkFault<X>
    ensures { ToldAs number reason result }
{
    match reason {
        Unplaced::Key(fault) => BulkFault::Key { number, fault },
        Unplaced::NoRule(key) => BulkFault::NoRule { number, key },
        Unplaced::NoMemory => BulkFault::NoMemory,
    }
}

// Why no more is read, as it is told.
fn stopped<X>(stop: Stop<X>) -> BulkFault<X>
    ensures { IsTold stop result }
{
    match stop {
        Stop::Input(fault) => BulkFault::Input(fault),
        Stop::Message(at) => BulkFault::Message(at),
        Stop::NoMap { number, field } => BulkFault::NoMap { number, field },
        Stop::InputLimit => BulkFault::InputLimit,
        Stop::NoMemory => BulkFault::NoMemory,
    }
}

// Deals a field, unless it has no place.
fn deal_sheet<F: Send + Drop, X: Drop, S: Store<F>>(
    alloc: Global,
    sheet: Sheet,
    names: &mut Names,
    crew: &mut Crew<F, S>,
    library: &mut Library<F, S>,
    store: &mut S,
) -> Result<(), BulkFault<X>>
where
    requires out { OutAre library.old.each (S.out store.old) }
    requires can { CanDeal S.Folder.has S.Folder.Shelf.kept (S.has store.old) (sheet ∷ []) library.old crew.old.passes.items crew.old.jobs.items crew.old.parcels.items }
    ensures out { OutAre library.new.each (S.out store.new) }
    ensures goes { (rules : List Rule) (given : List Pair) (p q : Position) (start : Option Holdings) (all waiting : List Stored) → p.split.fed ≤ 68719476736 → Placed rules given p (sheet ∷ []) q
        → Going S.Folder.has S.Folder.Shelf.kept start (S.has store.old) all waiting library.old crew.old.passes.items crew.old.jobs.items crew.old.parcels.items p
        → GoesOn S.Folder.has S.Folder.Shelf.kept rules given p q start (S.has store.new) (all ++ waiting) library.new crew.new.passes.items crew.new.jobs.items crew.new.parcels.items result }
    ensures known { IsKnown names.old.texts.items sheet → AreOpened names.old.texts.items (names_of library.old.each) → IfErr result (λ e. is_calm e ≡ false) }
    ensures notes { OnOk result (Notes names.old.texts.items names.new.texts.items (names_of library.old.each) (names_of library.new.each)) }
    ensures jobs { length crew.new.jobs.items ≡ length crew.old.jobs.items }
    ensures cause { IfErr result (λ e. OnStore e (Rose (S.faults store.old) (S.faults store.new))) }
    ensures told { is_some (S.has store.new) ≡ is_some (S.has store.old) }
    ensures later { S.faults store.old ≤ S.faults store.new }
{
    let Sheet {
        number,
        round,
        bytes,
        found,
    } = sheet;
    match found {
        Some(Ok(place)) => {
            let Ok(()) = names.note(alloc, place.dataset()) else {
                return Err(BulkFault::NoMemory);
            };
            crew.deal(alloc, library, store, round, place, bytes)
        }
        Some(Err(reason)) => Err(unplaced(reason, number)),
        None => unreachable!(),
    }
}

// Deals fields.
fn deal_sheets<F: Send + Drop, X: Drop, S: Store<F>>(
    alloc: Global,
    sheets: Vec<Sheet>,
    names: &mut Names,
    crew: &mut Crew<F, S>,
    library: &mut Library<F, S>,
    store: &mut S,
) -> Result<(), BulkFault<X>>
where
    requires out { OutAre library.old.each (S.out store.old) }
    requires can { CanDeal S.Folder.has S.Folder.Shelf.kept (S.has store.old) sheets.items library.old crew.old.passes.items crew.old.jobs.items crew.old.parcels.items }
    ensures out { OutAre library.new.each (S.out store.new) }
    ensures goes { (rules : List Rule) (given : List Pair) (p q : Position) (start : Option Holdings) (all waiting : List Stored) → p.split.fed ≤ 68719476736 → Placed rules given p sheets.items q
        → Going S.Folder.has S.Folder.Shelf.kept start (S.has store.old) all waiting library.old crew.old.passes.items crew.old.jobs.items crew.old.parcels.items p
        → GoesOn S.Folder.has S.Folder.Shelf.kept rules given p q start (S.has store.new) (all ++ waiting) library.new crew.new.passes.items crew.new.jobs.items crew.new.parcels.items result }
    ensures known { All (IsKnown names.old.texts.items) sheets.items → AreOpened names.old.texts.items (names_of library.old.each) → IfErr result (λ e. is_calm e ≡ false) }
    ensures notes { OnOk result (Notes names.old.texts.items names.new.texts.items (names_of library.old.each) (names_of library.new.each)) }
    ensures jobs { length crew.new.jobs.items ≡ length crew.old.jobs.items }
    ensures cause { IfErr result (λ e. OnStore e (Rose (S.faults store.old) (S.faults store.new))) }
    ensures told { is_some (S.has store.new) ≡ is_some (S.has store.old) }
    ensures later { S.faults store.old ≤ S.faults store.new }
{
    for sheet in sheets {
        deal_sheet(alloc, sheet, names, crew, library, store)?;
    }
    Ok(())
}

// What was stored of an input that is at its end, or which message is cut.
fn end_of<X>(reader: Reader) -> Result<Counts, BulkFault<X>>
    requires { IsIdle reader }
    ensures { EndsOf result reader }
{
    match reader.finish() {
        Ok((fields, junk)) => Ok(Counts { fields, junk }),
        Err(cut) => Err(BulkFault::Cut(cut)),
    }
}

impl<G: Gate, R: Threads + Wait + Sync> Terms<'_, G, R> {
    // Reads on. Where the messages that are dealt are enough for a start, they are stored meanwhile.
    fn read_batch<F: Send + Drop, X: Drop, S: Store<F>, I: Source<X>>(
        &self,
        input: &mut I,
        names: &Names,
        reader: &mut Reader,
        are_enough: bool,
        crew: &mut Crew<F, S>,
        library: &Library<F, S>,
        store: &mut S,
    ) -> Result<Batch<X>, BulkFault<X>>
    where
        requires schema { IsSchema self.now.schema.now }
        requires can { CanGo S.Folder.has S.Folder.Shelf.kept (S.has store.old) library.now crew.old.passes.items crew.old.jobs.items crew.old.parcels.items reader.old }
        requires few { reader.old.split.fed ≤ 68719476736 }
        ensures goes { (rules : List Rule) (given : List Pair) (p : Position) (start : Option Holdings) (all waiting : List Stored) → p.split.fed ≤ 68719476736
            → Going S.Folder.has S.Folder.Shelf.kept start (S.has store.old) all waiting library.now crew.old.passes.items crew.old.jobs.items crew.old.parcels.items p
            → GoesOn S.Folder.has S.Folder.Shelf.kept rules given p p start (S.has store.new) (all ++ waiting) library.now crew.new.passes.items crew.new.jobs.items crew.new.parcels.items result }
        ensures reads { IfOk result (ReadOn self.now.schema.now self.now.given.now names.now.texts.items reader.old reader.new (I.left input.old) (I.left input.new) (I.faults input.old) (I.faults input.new)) }
        ensures stopped { IfErr result (λ e. is_calm e ≡ false) }
        ensures jobs { length crew.new.jobs.items ≡ length crew.old.jobs.items }
        ensures cause { IfErr result (λ e. OnStore e (Rose (S.faults store.old) (S.faults store.new))) }
        ensures has { S.has store.new ≡ S.has store.old }
        ensures out { S.out store.new ≡ S.out store.old }
        ensures later { S.faults store.old ≤ S.faults store.new }
    {
        if are_enough {
            crew.run_reading(
                self.rt,
                self.alloc,
                input,
                self.given,
                self.schema,
                names,
                reader,
                library,
                store,
                self.gate,
            )
        } else {
            let workers = crew.jobs.len();
            Ok(read_on(
                self.rt,
                self.alloc,
                self.schema,
                self.given,
                names,
                workers,
                input,
                reader,
            ))
        }
    }

    // Reads on, where enough is dealt storing it meanwhile, and deals the fields that were read.
    fn deal_batch<F: Send + Drop, X: Drop, S: Store<F>, I: Source<X>>(
        &self,
        input: &mut I,
        names: &mut Names,
        reader: &mut Reader,
        are_enough: bool,
        crew: &mut Crew<F, S>,
        library: &mut Library<F, S>,
        store: &mut S,
    ) -> Result<Reach, BulkFault<X>>
    where
        requires schema { IsSchema self.now.schema.now }
        requires out { OutAre library.old.each (S.out store.old) }
        requires can { CanGo S.Folder.has S.Folder.Shelf.kept (S.has store.old) library.old crew.old.passes.items crew.old.jobs.items crew.old.parcels.items reader.old }
        requires few { reader.old.split.fed ≤ 68719476736 }
        requires opened { AreOpened names.old.texts.items (names_of library.old.each) }
        ensures out { OutAre library.new.each (S.out store.new) }
        ensures deals { (left : Option (List ℕ)) (start : Option Holdings) → Midway S.Folder.has S.Folder.Shelf.kept self.now.schema.now self.now.given.now left (I.left input.old) start (S.has store.old) library.old crew.old.passes.items crew.old.jobs.items crew.old.parcels.items reader.old
            → BatchEnds S.Folder.has S.Folder.Shelf.kept self.now.schema.now self.now.given.now left (I.left input.new) start (S.has store.new) library.new crew.new.passes.items crew.new.jobs.items crew.new.parcels.items reader.old reader.new result }
        ensures opened { OnOk result (AreOpened names.new.texts.items (names_of library.new.each)) }
        ensures causes { HasCauses (I.faults input.old) (I.faults input.new) (S.faults store.old) (S.faults store.new) result }
        ensures jobs { length crew.new.jobs.items ≡ length crew.old.jobs.items }
        ensures told { is_some (S.has store.new) ≡ is_some (S.has store.old) }
    {
        let batch = match self.read_batch(input, names, reader, are_enough, crew, library, store) {
            Ok(batch) => batch,
            Err(fault) => return Err(fault),
        };
        let Batch { sheets, end } = batch;
        match deal_sheets(self.alloc, sheets, names, crew, library, store) {
            Ok(()) => {}
            Err(fault) => return Err(fault),
        }
        match end {
            Ok(reach) => Ok(reach),
            Err(stop) => Err(stopped(stop)),
        }
    }

    // Deals the fields of the input, batch by batch, up to its end, and stores what was dealt, where it is enough, while the next batch
    // is read.
    fn deal_all<F: Send + Drop, X: Drop, S: Store<F>, I: Source<X>>(
        &self,
        input: &mut I,
        names: &mut Names,
        reader: &mut Reader,
        crew: &mut Crew<F, S>,
        library: &mut Library<F, S>,
        store: &mut S,
    ) -> Result<(), BulkFault<X>>
    where
        requires schema { IsSchema self.now.schema.now }
        requires unread { reader.old ≡ at_message nothing_read 0 }
        requires unopened { names.old.texts.items ≡ [] }
        requires out { OutAre library.old.each (S.out store.old) }
        requires begun { Deals S.Folder.has S.Folder.Shelf.kept (S.has store.old) (S.has store.old) [] [] [] library.old crew.old.passes.items crew.old.jobs.items crew.old.parcels.items }
        ensures out { OutAre library.new.each (S.out store.new) }
        ensures deals { AllDealt S.Folder.has S.Folder.Shelf.kept self.now.schema.now self.now.given.now (I.left input.old) (I.left input.new) (S.has store.old) (S.has store.new) library.new crew.new.passes.items crew.new.jobs.items crew.new.parcels.items reader.new result }
        ensures causes { HasCauses (I.faults input.old) (I.faults input.new) (S.faults store.old) (S.faults store.new) result }
        ensures jobs { length crew.new.jobs.items ≡ length crew.old.jobs.items }
        ensures told { is_some (S.has store.new) ≡ is_some (S.has store.old) }
    {
        let mut are_enough = false;
        for _ in 0..u64::MAX {
            let reach = match self.deal_batch(
                input, names, reader, are_enough, crew, library, store,
            ) {
                Ok(reach) => reach,
                Err(fault) => return Err(fault),
            };
            if reach.is_end() {
                return Ok(());
            }
            are_enough = reach.is_full() || crew.parcels.len() >= ENOUGH;
        }
        Err(BulkFault::InputLimit)
    }

    /// Deals the fields of the input, up to its end or to where it stops.
    pub(crate) fn deal_input<F: Send + Drop, X: Drop, S: Store<F>, I: Source<X>>(
        &self,
        input: &mut I,
        crew: &mut Crew<F, S>,
        library: &mut Library<F, S>,
        store: &mut S,
    ) -> Result<Counts, BulkFault<X>>
    where
        requires schema { IsSchema self.now.schema.now }
        requires out { OutAre library.old.each (S.out store.old) }
        requires begun { Deals S.Folder.has S.Folder.Shelf.kept (S.has store.old) (S.has store.old) [] [] [] library.old crew.old.passes.items crew.old.jobs.items crew.old.parcels.items }
        ensures out { OutAre library.new.each (S.out store.new) }
        ensures deals { InputDealt S.Folder.has S.Folder.Shelf.kept self.now.schema.now self.now.given.now (I.left input.old) (I.left input.new) (S.has store.old) (S.has store.new) library.new crew.new.passes.items crew.new.jobs.items crew.new.parcels.items result }
        ensures to_end { IfSome (I.left input.old) (λ octets. OnOk result (I.left input.new ≡ Some [])) }
        ensures causes { HasCauses (I.faults input.old) (I.faults input.new) (S.faults store.old) (S.faults store.new) result }
        ensures jobs { length crew.new.jobs.items ≡ length crew.old.jobs.items }
        ensures told { is_some (S.has store.new) ≡ is_some (S.has store.old) }
    {
        let Ok(mut reader) = Reader::new(self.alloc) else {
            return Err(BulkFault::NoMemory);
        };
        let mut names = Names::new(self.alloc);
        match self.deal_all(input, &mut names, &mut reader, crew, library, store) {
            Ok(()) => end_of(reader),
            Err(fault) => Err(fault),
        }
    }

    /// Stores what is dealt, behind what was found of the input. A refusal of a worker is that of a message before.
    pub(crate) fn store_dealt<F: Send + Drop, X: Drop, S: Store<F>>(
        &self,
        found: Result<Counts, BulkFault<X>>,
        crew: &mut Crew<F, S>,
        library: &Library<F, S>,
        store: &mut S,
    ) -> Result<Counts, BulkFault<X>>
    where
        requires dealt { WasDealt S.Folder.has S.Folder.Shelf.kept (S.has store.old) library.now crew.old.passes.items crew.old.jobs.items crew.old.parcels.items found }
        ensures stores { (rules : List Rule) (given : List Pair) (left after : Option (List ℕ)) (start : Option Holdings) → InputDealt S.Folder.has S.Folder.Shelf.kept rules given left after start (S.has store.old) library.now crew.old.passes.items crew.old.jobs.items crew.old.parcels.items found
            → InputEnds S.Folder.has S.Folder.Shelf.kept rules given left after start (S.has store.new) library.now crew.new.passes.items crew.new.jobs.items (Running S.Folder.Shelf.kept) result }
        ensures stands { StandsOr (S.faults store.old) (S.faults store.new) found result }
        ensures jobs { length crew.new.jobs.items ≡ length crew.old.jobs.items }
        ensures has { S.has store.new ≡ S.has store.old }
        ensures out { S.out store.new ≡ S.out store.old }
    {
        if crew.is_empty() {
            return found;
        }
        match crew.run(self.rt, self.alloc, library, store, self.gate) {
            Ok(()) => found,
            Err(fault) => Err(fault),
        }
    }

    /// Lists what is stored, where the input is at its end or refused, or a read of it failed.
    pub(crate) fn list_stored<F: Send + Drop, X: Drop, S: Store<F>>(
        &self,
        found: Result<Counts, BulkFault<X>>,
        crew: &mut Crew<F, S>,
        library: &Library<F, S>,
        store: &mut S,
    ) -> Result<Counts, BulkFault<X>>
    where
        requires stored { WasStored S.Folder.has S.Folder.Shelf.kept (S.has store.old) library.now crew.old.passes.items crew.old.jobs.items found }
        ensures lists { (rules : List Rule) (given : List Pair) (left after : Option (List ℕ)) (start : Option Holdings) → InputEnds S.Folder.has S.Folder.Shelf.kept rules given left after start (S.has store.old) library.now crew.old.passes.items crew.old.jobs.items (Running S.Folder.Shelf.kept) found
            → InputEnds S.Folder.has S.Folder.Shelf.kept rules given left after start (S.has store.new) library.now crew.new.passes.items crew.new.jobs.items (Finished S.Folder.Shelf.kept) result }
        ensures stands { StandsOr (S.faults store.old) (S.faults store.new) found result }
        ensures jobs { length crew.new.jobs.items ≡ length crew.old.jobs.items }
        ensures has { S.has store.new ≡ S.has store.old }
        ensures out { S.out store.new ≡ S.out store.old }
    {
        if !is_listed(&found) {
            return found;
        }
        match crew.list_all(self.rt, self.alloc, library, store) {
            Ok(()) => found,
            Err(fault) => Err(fault),
        }
    }
}
