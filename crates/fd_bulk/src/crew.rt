//! The workers between their starts: datasets are opened, and messages are dealt.
ghost use Rattle.std.specs.Prelude.{◌≡◌, ◌==◌, ◌≤◌, ◌<◌, ◌+◌, ◌++◌, ◌∷◌, [], ◌^◌, ℕ, List, Option, Some, All, true, false, is_some, length, slice_get, IfErr, IfOk, IsSome, OnOk, vec_capacity, vec_len};
ghost use Rattle.fd_bytes.specs.Causes.{Rose};
ghost use Rattle.fd_disk.specs.Folders.{Holdings, WhereTold};
ghost use Rattle.fd_bulk.specs.{Archived.{Grows, GrowsAll, IsBack, IsSure}, Ending.{CanEndOne, EndedAs, IsShorter, column}, Halting.{Each, Halted, HasOneMore, HaveMetNone, HaveRoom, IsLower, IsQuiet, IsSameJob, IsTold, OnStore}, Inputs.{is_calm}, Meets.{Meets}, Naming.{IsOpened}, Crewing.{CanEnd, CanFinish, CanRun, CanSeat, Closes, Crewed, Deals, DealtAs, Finished, FinishedAs, HasFull, IsUnopened, OpenedAs, RanAs, RanBeside, Running, SeatedAs, SeeFull, Stopping, TooManyAt, Waits, message_at, octets_of}};
ghost use Rattle.fd_schema.specs.{Grammar.{IsSchema}, Rules.{file_key}, Reading.{seen_place}};
ghost use Rattle.fd_library.specs.{Open.{AreOpen, OpenDataset, OutAre, among, names_of}, Calls.{Changes}};
ghost use Rattle.fd_sheets.specs.Reading.{ReadOn};
ghost use Rattle.fd_stored.specs.Archiving.{Stored, datasets_in, is_too_many};
ghost use Rattle.fd_turn.specs.Passes.{view};

use crate::bulk::BulkFault;
use crate::handing::hand_back_all;
use fd_archiver::FlushFault;
use fd_bytes::NoMemory;
use fd_disk::{Disk, Down, Folder, Shelf, Store};
use fd_io::{Gate, Source};
use fd_key::Given;
use fd_library::{FolderPass, Library};
use fd_recovery::OpenFault;
use fd_schema::{Place, Schema};
use fd_segment::{Field, Room};
use fd_shares::{Desk, FolderJob, Halt, Job, Parcel, list_round, run_beside, run_rounds};
use fd_sheets::{Batch, Names, Reader, dealt};
use std::alloc::Global;
use std::sync::Wait;
use std::thread::Threads;

/// How many keys a batch may have, and how many bytes of keys.
const ROOM: Room = Room {
    keys: 2048,
    bytes: 131_072,
};

/// The workers, the passes of the datasets from which theirs are split, by the datasets' numbers, and the messages that are dealt.
#[derive(Drop)]
pub(crate) struct Crew<F: Send, S: Store<F>> {
    pub(crate) passes: Vec<FolderPass<F, S::Folder>>,
    pub(crate) jobs: Vec<FolderJob<F, S::Folder>>,
    pub(crate) parcels: Vec<Parcel>,
}

impl<F: Send + Drop, S: Store<F>> Crew<F, S> {
    /// So many workers, who have met no dataset.
    pub(crate) fn new(alloc: Global, workers: u32) -> Result<Crew<F, S>, NoMemory>
        ensures workers { IfOk result (λ c. length c.jobs.items ≡ workers) }
        ensures met_none { IfOk result (λ c. HaveMetNone c.jobs.items) }
        ensures none { IfOk result (λ c. (c.passes.items ≡ []) × (c.parcels.items ≡ [])) }
    {
        let mut jobs = Vec::new(alloc);
        for _worker in 0..workers {
            jobs.push(Job {
                desks: Vec::new(alloc),
                halt: None,
                round: 0,
            })?;
        }
        Ok(Crew {
            passes: Vec::new(alloc),
            jobs,
            parcels: Vec::new(alloc),
        })
    }

    /// No message is dealt.
    pub(crate) fn is_empty(&self) -> bool
        ensures { result ≡ (length self.now.parcels.items == 0) }
    {
        self.parcels.is_empty()
    }

    // Room for one dataset more.
    fn reserve(&mut self) -> Result<(), NoMemory>
        ensures passes { self.new.passes.items ≡ self.old.passes.items }
        ensures jobs { Each (λ i. IsSameJob) self.old.jobs.items self.new.jobs.items }
        ensures parcels { self.new.parcels ≡ self.old.parcels }
        ensures room { OnOk result (vec_len self.new.passes < vec_capacity self.new.passes) }
        ensures jobs_room { OnOk result (HaveRoom self.new.jobs.items) }
    {
        let Ok(()) = self.passes.reserve(1) else {
            return Err(NoMemory);
        };
        make_room(self.jobs.as_mut_slice())
    }

    // A dataset that was opened just now is met by all workers.
    fn meet(&mut self, library: &mut Library<F, S>, number: u32)
        requires seated { (h : OpenDataset S.Folder) × (slice_get library.old.each number ≡ Some h) × IsSome h.pass }
        requires room { vec_len self.old.passes < vec_capacity self.old.passes }
        requires jobs_room { HaveRoom self.old.jobs.items }
        ensures sound { AreOpen library.new }
        ensures meets { Meets number library.old library.new self.old.passes.items self.new.passes.items self.old.jobs.items self.new.jobs.items }
        ensures parcels { self.new.parcels ≡ self.old.parcels }
    {
        let pass = library.seat(number);
        self.passes.push_reserved(pass);
        add_dataset(self.jobs.as_mut_slice());
    }

    // The number of the dataset with this text, which is opened by the first call.
    fn opened<X: Drop>(
        &mut self,
        alloc: Global,
        library: &mut Library<F, S>,
        store: &mut S,
        name: &str,
    ) -> Result<u32, BulkFault<X>>
        requires short { length name.now ≤ 255 }
        requires sound { AreOpen library.old }
        requires out { OutAre library.old.each (S.out store.old) }
        requires long { length self.old.passes.items ≡ length library.old.each }
        ensures sound { AreOpen library.new }
        ensures out { OutAre library.new.each (S.out store.new) }
        ensures opens { (start : Option Holdings) (all waiting : List Stored) → Deals S.Folder.has S.Folder.Shelf.kept start (S.has store.old) all waiting (datasets_in (all ++ waiting)) library.old self.old.passes.items self.old.jobs.items self.old.parcels.items
            → OpenedAs S.Folder.has S.Folder.Shelf.kept start (S.has store.new) all waiting name.now (datasets_in (all ++ waiting)) result library.new self.new.passes.items self.new.jobs.items self.new.parcels.items }
        ensures too_many { (start : Option Holdings) (all waiting : List Stored) → Deals S.Folder.has S.Folder.Shelf.kept start (S.has store.old) all waiting (datasets_in (all ++ waiting)) library.old self.old.passes.items self.old.jobs.items self.old.parcels.items
            → TooManyAt (is_too_many (datasets_in (all ++ waiting)) name.now) result }
        ensures again { among name.now (names_of library.old.each) ≡ true → IfErr result (λ e. is_calm e ≡ false) }
        ensures jobs { length self.new.jobs.items ≡ length self.old.jobs.items }
        ensures parcels { self.new.parcels ≡ self.old.parcels }
        ensures cause { IfErr result (λ e. OnStore e (Rose (S.faults store.old) (S.faults store.new))) }
        ensures told { is_some (S.has store.new) ≡ is_some (S.has store.old) }
        ensures later { S.faults store.old ≤ S.faults store.new }
    {
        let Ok(()) = self.reserve() else {
            return Err(BulkFault::NoMemory);
        };
        let found = match library.dataset(alloc, store, name, true) {
            Ok(found) => found,
            Err(fault) => return Err(unopened(alloc, store, name, fault)),
        };
        let number = made(found);
        if (number as usize) < self.passes.len() {
            return Ok(number);
        }
        self.meet(library, number);
        Ok(number)
    }

    // The worker has an archiver and a pass in this dataset.
    fn seated<X: Drop>(
        &mut self,
        alloc: Global,
        library: &mut Library<F, S>,
        store: &mut S,
        worker: u32,
        number: u32,
    ) -> Result<(), BulkFault<X>>
        requires can { CanSeat S.Folder.has S.Folder.Shelf.kept worker number library.old self.old.passes.items self.old.jobs.items }
        ensures sound { AreOpen library.new }
        ensures names { names_of library.new.each ≡ names_of library.old.each }
        ensures seats { (start : Option Holdings) (all waiting : List Stored) (datasets : List (List ℕ)) → Deals S.Folder.has S.Folder.Shelf.kept start (S.has store.old) all waiting datasets library.old self.old.passes.items self.old.jobs.items self.old.parcels.items
            → SeatedAs S.Folder.has S.Folder.Shelf.kept start (S.has store.old) all waiting worker number datasets result library.new self.new.passes.items self.new.jobs.items self.new.parcels.items }
        ensures jobs { length self.new.jobs.items ≡ length self.old.jobs.items }
        ensures parcels { self.new.parcels ≡ self.old.parcels }
        ensures has { S.has store.new ≡ S.has store.old }
        ensures out { S.out store.new ≡ S.out store.old }
        ensures cause { IfErr result (λ e. OnStore e (Rose (S.faults store.old) (S.faults store.new))) }
        ensures later { S.faults store.old ≤ S.faults store.new }
    {
        let n = number as usize;
        if self.jobs[worker as usize].desks[n].is_some() {
            return Ok(());
        }
        let archiver = match library.archiver(alloc, number, ROOM) {
            Ok(archiver) => archiver,
            Err(Down::Fault(fault)) => {
                store.note(fault);
                return Err(BulkFault::Disk);
            }
            Err(Down::NoMemory) => return Err(BulkFault::NoMemory),
        };
        let pass = library.datasets()[n].split(&mut self.passes[n]);
        self.jobs[worker as usize].desks[n] = Some(Desk { archiver, pass });
        Ok(())
    }

    /// Deals a message of this round to a worker, and opens its dataset.
    pub(crate) fn deal<X: Drop>(
        &mut self,
        alloc: Global,
        library: &mut Library<F, S>,
        store: &mut S,
        round: u32,
        place: Place,
        bytes: Field,
    ) -> Result<(), BulkFault<X>>
        requires short { length (seen_place place).dataset ≤ 255 }
        requires key { length (file_key (seen_place place)) ≤ 256 }
        requires bytes { length bytes ≤ 134217728 }
        requires out { OutAre library.old.each (S.out store.old) }
        requires deals { (start : Option Holdings) × ((all : List Stored) × ((waiting : List Stored) × Deals S.Folder.has S.Folder.Shelf.kept start (S.has store.old) all waiting (datasets_in (all ++ waiting)) library.old self.old.passes.items self.old.jobs.items self.old.parcels.items)) }
        ensures out { OutAre library.new.each (S.out store.new) }
        ensures deals { (start : Option Holdings) (all waiting : List Stored) → Deals S.Folder.has S.Folder.Shelf.kept start (S.has store.old) all waiting (datasets_in (all ++ waiting)) library.old self.old.passes.items self.old.jobs.items self.old.parcels.items
            → DealtAs S.Folder.has S.Folder.Shelf.kept start (S.has store.new) all waiting (message_at (seen_place place) bytes) result library.new self.new.passes.items self.new.jobs.items self.new.parcels.items }
        ensures too_many { (start : Option Holdings) (all waiting : List Stored) → Deals S.Folder.has S.Folder.Shelf.kept start (S.has store.old) all waiting (datasets_in (all ++ waiting)) library.old self.old.passes.items self.old.jobs.items self.old.parcels.items
            → TooManyAt (is_too_many (datasets_in (all ++ waiting)) (seen_place place).dataset) result }
        ensures again { among (seen_place place).dataset (names_of library.old.each) ≡ true → IfErr result (λ e. is_calm e ≡ false) }
        ensures opens { OnOk result (IsOpened (seen_place place).dataset (names_of library.old.each) (names_of library.new.each)) }
        ensures jobs { length self.new.jobs.items ≡ length self.old.jobs.items }
        ensures cause { IfErr result (λ e. OnStore e (Rose (S.faults store.old) (S.faults store.new))) }
        ensures told { is_some (S.has store.new) ≡ is_some (S.has store.old) }
        ensures later { S.faults store.old ≤ S.faults store.new }
    {
        let Ok(()) = self.parcels.reserve(1) else {
            return Err(BulkFault::NoMemory);
        };
        let worker = dealt(self.jobs.len() as u32, &place);
        let dataset = self.opened(alloc, library, store, place.dataset())?;
        match self.seated(alloc, library, store, worker, dataset) {
            Ok(()) => {}
            Err(fault) => return Err(fault),
        }
        self.parcels.push_reserved(Parcel {
            worker,
            dataset,
            round,
            place,
            bytes,
        });
        Ok(())
    }

    /// Stores the messages that were dealt.
    pub(crate) fn run<X: Drop, G: Gate, R: Threads + Wait + Sync>(
        &mut self,
        rt: &R,
        alloc: Global,
        library: &Library<F, S>,
        store: &mut S,
        gate: &G,
    ) -> Result<(), BulkFault<X>>
        requires can { CanRun S.Folder.has S.Folder.Shelf.kept library.now self.old.passes.items self.old.jobs.items self.old.parcels.items }
        ensures ran { (start now : Option Holdings) (lost : ℕ) (all waiting : List Stored) → Crewed S.Folder.has (Running S.Folder.Shelf.kept (length self.old.jobs.items) all) start now lost library.now self.old.passes.items self.old.jobs.items
            → Waits (names_of library.now.each) waiting self.old.jobs.items self.old.parcels.items
            → RanAs S.Folder.has S.Folder.Shelf.kept start now lost (all ++ waiting) result library.now self.new.passes.items self.new.jobs.items }
        ensures none { self.new.parcels.items ≡ [] }
        ensures has { S.has store.new ≡ S.has store.old }
        ensures out { S.out store.new ≡ S.out store.old }
        ensures jobs { length self.new.jobs.items ≡ length self.old.jobs.items }
        ensures cause { IfErr result (λ e. OnStore e (Rose (S.faults store.old) (S.faults store.new))) }
        ensures later { S.faults store.old ≤ S.faults store.new }
    {
        run_rounds(
            rt,
            alloc,
            gate,
            library.datasets(),
            self.parcels.as_mut_slice(),
            self.jobs.as_mut_slice(),
        );
        self.parcels.clear();
        halted(self.jobs.as_mut_slice(), store)
    }

    /// Stores the messages that were dealt, while the input is read on.
    pub(crate) fn run_reading<X: Drop, I: Source<X>, G: Gate, R: Threads + Wait + Sync>(
        &mut self,
        rt: &R,
        alloc: Global,
        input: &mut I,
        given: &Given,
        schema: &Schema,
        names: &Names,
        reader: &mut Reader,
        library: &Library<F, S>,
        store: &mut S,
        gate: &G,
    ) -> Result<Batch<X>, BulkFault<X>>
        requires schema { IsSchema schema.now }
        requires can { CanRun S.Folder.has S.Folder.Shelf.kept library.now self.old.passes.items self.old.jobs.items self.old.parcels.items }
        ensures ran { (start now : Option Holdings) (lost : ℕ) (all waiting : List Stored) → Crewed S.Folder.has (Running S.Folder.Shelf.kept (length self.old.jobs.items) all) start now lost library.now self.old.passes.items self.old.jobs.items
            → Waits (names_of library.now.each) waiting self.old.jobs.items self.old.parcels.items
            → RanBeside S.Folder.has S.Folder.Shelf.kept start now lost (all ++ waiting) result library.now self.new.passes.items self.new.jobs.items }
        ensures reads { IfOk result (ReadOn schema.now given.now names.now.texts.items reader.old reader.new (I.left input.old) (I.left input.new) (I.faults input.old) (I.faults input.new)) }
        ensures none { self.new.parcels.items ≡ [] }
        ensures has { S.has store.new ≡ S.has store.old }
        ensures out { S.out store.new ≡ S.out store.old }
        ensures jobs { length self.new.jobs.items ≡ length self.old.jobs.items }
        ensures cause { IfErr result (λ e. OnStore e (Rose (S.faults store.old) (S.faults store.new))) }
        ensures later { S.faults store.old ≤ S.faults store.new }
    {
        let batch = run_beside(
            rt,
            alloc,
            gate,
            library.datasets(),
            schema,
            given,
            names,
            input,
            reader,
            self.parcels.as_mut_slice(),
            self.jobs.as_mut_slice(),
        );
        put_away(&mut self.parcels, reader);
        match halted(self.jobs.as_mut_slice(), store) {
            Ok(()) => Ok(batch),
            Err(fault) => Err(fault),
        }
    }

    /// Lists what is pending.
    pub(crate) fn list_all<X: Drop, R: Threads + Wait + Sync>(
        &mut self,
        rt: &R,
        alloc: Global,
        library: &Library<F, S>,
        store: &mut S,
    ) -> Result<(), BulkFault<X>>
        requires can { CanFinish S.Folder.has S.Folder.Shelf.kept library.now self.old.passes.items self.old.jobs.items }
        ensures lists { (start now : Option Holdings) (lost : ℕ) (all : List Stored) → Crewed S.Folder.has (Running S.Folder.Shelf.kept (length self.old.jobs.items) all) start now lost library.now self.old.passes.items self.old.jobs.items
            → FinishedAs S.Folder.has S.Folder.Shelf.kept start now lost all result library.now self.new.passes.items self.new.jobs.items }
        ensures has { S.has store.new ≡ S.has store.old }
        ensures out { S.out store.new ≡ S.out store.old }
        ensures jobs { length self.new.jobs.items ≡ length self.old.jobs.items }
        ensures cause { IfErr result (λ e. OnStore e (Rose (S.faults store.old) (S.faults store.new))) }
        ensures later { S.faults store.old ≤ S.faults store.new }
    {
        list_round(rt, alloc, library.datasets(), self.jobs.as_mut_slice());
        halted(self.jobs.as_mut_slice(), store)
    }

    // Gives back what the workers have of the dataset with this number, which is the last, and its pass.
    fn end_one<R: Wait>(
        &mut self,
        rt: &R,
        library: &mut Library<F, S>,
        number: u32,
        pass: FolderPass<F, S::Folder>,
    )
        requires sound { AreOpen library.old }
        requires can { CanEndOne number library.old pass self.old.jobs.items }
        ensures sound { AreOpen library.new }
        ensures passes { self.new.passes.items ≡ self.old.passes.items }
        ensures shorter { Each (λ i. IsShorter number) self.old.jobs.items self.new.jobs.items }
        ensures ended { Changes number library.old library.new (EndedAs S.Folder.has S.Folder.faults S.Folder.Shelf.kept (view pass) (column number self.old.jobs.items)) }
    {
        let mut pass = pass;
        hand_back_all(library, number, &mut pass, self.jobs.as_mut_slice());
        library.datasets()[number as usize].catch_up(rt, &mut pass);
        library.unseat(number, pass);
    }

    /// Gives all passes and archivers back. What is pending is lost.
    pub(crate) fn end<R: Wait>(&mut self, rt: &R, library: &mut Library<F, S>)
        requires can { CanEnd S.Folder.has S.Folder.Shelf.kept library.old self.old.passes.items self.old.jobs.items }
        ensures names { names_of library.new.each ≡ names_of library.old.each }
        ensures grows { (start now : Option Holdings) (lost : ℕ) (all : List Stored) → Crewed S.Folder.has (Stopping S.Folder.Shelf.kept (length self.old.jobs.items) all) start now lost library.old self.old.passes.items self.old.jobs.items
            → WhereTold start now (Grows S.Folder.has (length self.old.jobs.items) all library.new.each) × All (IsBack S.Folder.has (length self.old.jobs.items) all) library.new.each }
        ensures all { (start now : Option Holdings) (lost : ℕ) (all : List Stored) → Crewed S.Folder.has (Finished S.Folder.Shelf.kept (length self.old.jobs.items) all) start now lost library.old self.old.passes.items self.old.jobs.items
            → WhereTold start now (GrowsAll S.Folder.has (length self.old.jobs.items) all library.new.each) × All (λ h. IsBack S.Folder.has (length self.old.jobs.items) all h × IsSure S.Folder.has h) library.new.each }
        ensures full { (start now : Option Holdings) (lost : ℕ) (all : List Stored) → Crewed S.Folder.has (Stopping S.Folder.Shelf.kept (length self.old.jobs.items) all) start now lost library.old self.old.passes.items self.old.jobs.items
            → SeeFull self.old.jobs.items → HasFull all library.new.each }
    {
        while let Some(pass) = self.passes.pop() {
            let number = self.passes.len() as u32;
            self.end_one(rt, library, number, pass);
        }
    }
}

// Lets go of messages that were stored, and keeps their buffers.
fn put_away(parcels: &mut Vec<Parcel>, reader: &mut Reader)
    ensures none { parcels.new.items ≡ [] }
    ensures reader { reader.new ≡ reader.old }
{
    while let Some(parcel) = parcels.pop() {
        reader.keep(parcel.bytes.into_bytes());
    }
}

// The number of a dataset that was made where there was none.
fn made(found: Option<u32>) -> u32
    requires { IsSome found }
    ensures { found ≡ Some result }
{
    let Some(number) = found else { unreachable!() };
    number
}

// Makes room for one dataset more at each worker.
fn make_room<A, P, E>(jobs: &mut [Job<A, P, E>]) -> Result<(), NoMemory>
    ensures same { Each (λ i. IsSameJob) jobs.old jobs.new }
    ensures room { OnOk result (HaveRoom jobs.new) }
{
    for w in 0..jobs.len() {
        match jobs[w].desks.reserve(1) {
            Ok(()) => {}
            Err(_) => return Err(NoMemory),
        }
    }
    Ok(())
}

// Adds a dataset that no worker has met.
fn add_dataset<A, P, E>(jobs: &mut [Job<A, P, E>])
    requires room { HaveRoom jobs.old }
    ensures added { Each (λ i. HasOneMore) jobs.old jobs.new }
{
    for w in 0..jobs.len() {
        jobs[w].desks.push_reserved(None);
    }
}

// A worker's refusal, as it is told. A fault of the store is counted.
fn told<F: Send, X: Drop, S: Store<F>>(store: &mut S, fault: FlushFault<F>) -> BulkFault<X>
where
    ensures told { IsTold fault result }
    ensures has { S.has store.new ≡ S.has store.old }
    ensures out { S.out store.new ≡ S.out store.old }
    ensures cause { OnStore result (Rose (S.faults store.old) (S.faults store.new)) }
    ensures later { S.faults store.old ≤ S.faults store.new }
{
    match fault {
        FlushFault::Disk(met) => {
            store.note(met);
            BulkFault::Disk
        }
        FlushFault::TableFull { count } => BulkFault::TableFull { count },
        FlushFault::NoMemory => BulkFault::NoMemory,
    }
}

// The lower of two refusals.
fn lower<X: Drop>(
    first: Option<Halt<BulkFault<X>>>,
    other: Halt<BulkFault<X>>,
) -> Halt<BulkFault<X>>
    ensures { IsLower first other result }
{
    match first {
        None => other,
        Some(first) => { if other.at < first.at { other } else { first } }
    }
}

// The faults of the store that workers met are counted; the refusal of the lowest message is told.
fn halted<A, P, F: Send, X: Drop, S: Store<F>>(
    jobs: &mut [Job<A, P, FlushFault<F>>],
    store: &mut S,
) -> Result<(), BulkFault<X>>
where
    ensures quiet { Each (λ i. IsQuiet) jobs.old jobs.new }
    ensures halted { Halted jobs.old result }
    ensures has { S.has store.new ≡ S.has store.old }
    ensures out { S.out store.new ≡ S.out store.old }
    ensures cause { IfErr result (λ e. OnStore e (Rose (S.faults store.old) (S.faults store.new))) }
    ensures later { S.faults store.old ≤ S.faults store.new }
{
    let mut first: Option<Halt<BulkFault<X>>> = None;
    for w in 0..jobs.len() {
        match jobs[w].halt.take() {
            None => {}
            Some(Halt { at, fault }) => {
                let fault = told(store, fault);
                first = Some(lower(first, Halt { at, fault }));
            }
        }
    }
    match first {
        None => Ok(()),
        Some(Halt { at: _, fault }) => Err(fault),
    }
}

// Why a dataset wasn't opened. A fault of the store is counted.
fn unopened<F: Send, X: Drop, S: Store<F>>(
    alloc: Global,
    store: &mut S,
    name: &str,
    fault: OpenFault<F>,
) -> BulkFault<X>
where
    ensures told { IsUnopened name.now fault result }
    ensures has { S.has store.new ≡ S.has store.old }
    ensures out { S.out store.new ≡ S.out store.old }
    ensures cause { OnStore result (Rose (S.faults store.old) (S.faults store.new)) }
    ensures later { S.faults store.old ≤ S.faults store.new }
{
    match fault {
        OpenFault::Disk(fault) => {
            store.note(fault);
            BulkFault::Disk
        }
        OpenFault::NotATable { at, want, found } => match String::from_str(alloc, name) {
            Ok(dataset) => BulkFault::NotATable {
                dataset,
                at,
                want,
                found,
            },
            Err(_) => BulkFault::NoMemory,
        },
        OpenFault::Damaged(damage) => match String::from_str(alloc, name) {
            Ok(dataset) => BulkFault::Damaged { dataset, damage },
            Err(_) => BulkFault::NoMemory,
        },
        OpenFault::TooMany { count } => BulkFault::TooMany { count },
        OpenFault::NoMemory => BulkFault::NoMemory,
    }
}
