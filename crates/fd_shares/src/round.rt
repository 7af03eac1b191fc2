//! Rounds: each worker stores its share of some messages.
ghost use Rattle.std.specs.Prelude.{◌≡◌, ◌<◌, ◌≤◌, ℕ, List, All, length, slice_index_or};
ghost use Rattle.fd_schema.specs.Grammar.{IsSchema};
ghost use Rattle.fd_sheets.specs.Reading.{ReadOn};
ghost use Rattle.fd_entries.specs.declared.batch.Pair.{Pair};
ghost use Rattle.fd_shares.specs.{Sharing.{AllWork, CanListAll, CanListAt, CanShare, CanStore, Listed, ListedAt, SameMet, Shared, StoredAt}, Working.{Filling, Stage}};

use crate::working::{list, store};
use fd_archiver::{Archiver, FlushFault};
use fd_beside::{Item, serve, serve_beside};
use fd_bytes::Bytes;
use fd_dataset::{Dataset, DatasetPass};
use fd_disk::{Disk, Folder, Sealed, Shelf};
use fd_io::{Gate, Source};
use fd_key::Given;
use fd_schema::{Place, Schema};
use fd_segment::Field;
use fd_sheets::{Batch, LEAST_KEPT, Names, Reader, read_on};
use std::alloc::Global;
use std::sync::Wait;
use std::thread;
use std::thread::Threads;

/// A message that waits to be stored, with its worker, from 0, and the numbers of its dataset and of its round.
#[derive(Drop)]
pub struct Parcel {
    pub worker: u32,
    pub dataset: u32,
    pub round: u32,
    pub place: Place,
    pub bytes: Field,
}

impl Item for Parcel {
    fn prepare(&mut self) {
        self.bytes.find_digest();
    }

    // The buffer of a longer message is used again.
    fn let_go(&mut self, alloc: Global) {
        self.place.let_go(alloc);
        if self.bytes.as_slice().len() < LEAST_KEPT {
            self.bytes = Field::new(Bytes::new(alloc));
        }
    }
}

/// A worker's archiver and pass in a dataset.
#[derive(Drop)]
pub struct Desk<A, P> {
    pub archiver: A,
    pub pass: P,
}

/// Why a worker stores nothing more, and at which of the messages that were dealt, from 0.
#[derive(Drop)]
pub struct Halt<E> {
    pub at: usize,
    pub fault: E,
}

/// What a worker owns: its archiver and pass in each dataset that it has met, by the datasets' numbers; and the last round before which it
/// has passed the gate, from 1, or 0.
#[derive(Drop)]
pub struct Job<A, P, E> {
    pub desks: Vec<Option<Desk<A, P>>>,
    pub halt: Option<Halt<E>>,
    pub round: u32,
}

/// The job of a worker.
pub type WorkerJob<F, T, H> = Job<
    Archiver<F, H>,
    DatasetPass<F, T, <H as Shelf<F>>::Sealed>,
    FlushFault<F>,
>;

/// The job of a worker over the datasets of a store.
pub type FolderJob<F, D> = WorkerJob<F, <D as Folder<F>>::Table, <D as Folder<F>>::Shelf>;

// Stores a message of this worker.
fn store_parcel<F: Send + Drop, T: Disk<F>, H: Shelf<F>, R: Wait>(
    rt: &R,
    alloc: Global,
    datasets: &[Dataset<F, T, H::Sealed>],
    parcel: &Parcel,
    job: &mut WorkerJob<F, T, H>,
) -> Result<(), FlushFault<F>>
where
    requires can { CanStore H.kept datasets.now parcel.now job.old.desks.items }
    ensures halt { job.new.halt ≡ job.old.halt }
    ensures met { SameMet job.old.desks.items job.new.desks.items }
    ensures stores { (names : List (List ℕ)) (pairs : ℕ → List Pair) → AllWork H.kept (λ n. Filling) pairs 0 datasets.now names job.old.desks.items → StoredAt H.kept datasets.now result parcel.now names pairs job.new.desks.items }
{
    let n = parcel.dataset as usize;
    let Some(desk) = &mut job.desks[n] else {
        unreachable!()
    };
    store(
        rt,
        alloc,
        &datasets[n],
        &parcel.place,
        &parcel.bytes,
        &mut desk.archiver,
        &mut desk.pass,
    )
}

// The round of the next message. Where it's another than that of the last one, the worker passes the gate first.
fn entered<G: Gate, R: Wait>(rt: &R, gate: &G, worker: usize, last: u32, next: u32) -> u32
    requires worker { worker < 8 }
{
    if next != last {
        gate.pass(rt, worker as u32 + 1, next);
    }
    next
}

// The share of a worker, from 0, in these messages, whose first may be of a round that it has begun. It stops at the first message that
// it can't store.
fn run_share<F: Send + Drop, T: Disk<F>, H: Shelf<F>, G: Gate, R: Wait>(
    rt: &R,
    alloc: Global,
    gate: &G,
    datasets: &[Dataset<F, T, H::Sealed>],
    parcels: &[Parcel],
    worker: usize,
    job: &mut WorkerJob<F, T, H>,
)
where
    requires worker { worker < 8 }
    requires can { CanShare H.kept datasets.now worker parcels.now job.old }
    ensures shared { Shared H.kept datasets.now worker parcels.now job.old job.new }
{
    for at in 0..parcels.len() {
        let parcel = &parcels[at];
        job.round = entered(rt, gate, worker, job.round, parcel.round);
        if parcel.worker as usize == worker {
            match store_parcel(rt, alloc, datasets, parcel, job) {
                Ok(()) => {}
                Err(fault) => {
                    job.halt = Some(Halt { at, fault });
                    return;
                }
            }
        }
    }
}

/// Each worker's share of the messages, in a thread of its own, once their digests are found by as many threads. It passes the gate before
/// its share of each round.
pub fn run_rounds<F: Send + Drop, T: Disk<F>, H: Shelf<F>, G: Gate, R: Threads + Wait + Sync>(
    rt: &R,
    alloc: Global,
    gate: &G,
    datasets: &[Dataset<F, T, H::Sealed>],
    parcels: &mut [Parcel],
    jobs: &mut [WorkerJob<F, T, H>],
)
where
    requires few { length jobs.old ≤ 8 }
    requires can { (i : ℕ) (e : _) → i < length jobs.old → CanShare H.kept datasets.now i parcels.old (slice_index_or jobs.old i e) }
    ensures long { length jobs.new ≡ length jobs.old }
    ensures shared { (i : ℕ) (e : _) → i < length jobs.old → Shared H.kept datasets.now i parcels.old (slice_index_or jobs.old i e) (slice_index_or jobs.new i e) }
{
    serve(
        rt,
        alloc,
        &|messages: &[Parcel], i: usize, job: &mut WorkerJob<F, T, H>|
            requires { (i < 8) × CanShare H.kept datasets.now i messages.now job.old }
            ensures { Shared H.kept datasets.entry.now i messages.now job.old job.new }
        { run_share(rt, alloc, gate, datasets, messages, i, job) },
        parcels,
        jobs,
    );
}

/// Each worker's share of the messages, as above, while this thread reads the input on.
pub fn run_beside<
    F: Send + Drop,
    X: Drop,
    T: Disk<F>,
    H: Shelf<F>,
    I: Source<X>,
    G: Gate,
    R: Threads + Wait + Sync,
>(
    rt: &R,
    alloc: Global,
    gate: &G,
    datasets: &[Dataset<F, T, H::Sealed>],
    schema: &Schema,
    given: &Given,
    names: &Names,
    input: &mut I,
    reader: &mut Reader,
    parcels: &mut [Parcel],
    jobs: &mut [WorkerJob<F, T, H>],
) -> Batch<X>
where
    requires schema { IsSchema schema.now }
    requires some { 0 < length jobs.old }
    requires few { length jobs.old ≤ 8 }
    requires can { (i : ℕ) (e : _) → i < length jobs.old → CanShare H.kept datasets.now i parcels.old (slice_index_or jobs.old i e) }
    ensures long { length jobs.new ≡ length jobs.old }
    ensures shared { (i : ℕ) (e : _) → i < length jobs.old → Shared H.kept datasets.now i parcels.old (slice_index_or jobs.old i e) (slice_index_or jobs.new i e) }
    ensures reads { ReadOn schema.now given.now names.now.texts.items reader.old reader.new (I.left input.old) (I.left input.new) (I.faults input.old) (I.faults input.new) result }
{
    let workers = jobs.len();
    let other = alloc;
    let mut read = || -> Batch<X>
        requires { IsSchema schema.now × (0 < workers) }
        ensures { ReadOn schema.entry.now given.entry.now names.entry.now.texts.items reader.entry.now reader.exit.now (I.left input.entry.now) (I.left input.exit.now) (I.faults input.entry.now) (I.faults input.exit.now) result }
    { read_on(rt, other, schema, given, names, workers, input, reader) };
    serve_beside(
        rt,
        alloc,
        &|messages: &[Parcel], i: usize, job: &mut WorkerJob<F, T, H>|
            requires { (i < 8) × CanShare H.kept datasets.now i messages.now job.old }
            ensures { Shared H.kept datasets.entry.now i messages.now job.old job.new }
        { run_share(rt, alloc, gate, datasets, messages, i, job) },
        parcels,
        jobs,
        &mut read,
    )
}

// Lists what a worker has pending in the dataset with this number, if it has met that.
fn list_desk<F: Send + Drop, T: Disk<F>, H: Shelf<F>, R: Wait>(
    rt: &R,
    alloc: Global,
    datasets: &[Dataset<F, T, H::Sealed>],
    n: usize,
    job: &mut WorkerJob<F, T, H>,
) -> Result<(), FlushFault<F>>
where
    requires can { CanListAt H.kept datasets.now n job.old.desks.items }
    ensures halt { job.new.halt ≡ job.old.halt }
    ensures met { SameMet job.old.desks.items job.new.desks.items }
    ensures long { length job.new.desks.items ≡ length job.old.desks.items }
    ensures lists { (names : List (List ℕ)) (stages : ℕ → Stage) (pairs : ℕ → List Pair) → AllWork H.kept stages pairs 0 datasets.now names job.old.desks.items → stages n ≡ Filling → ListedAt H.kept datasets.now result n names stages pairs job.new.desks.items }
{
    match &mut job.desks[n] {
        None => Ok(()),
        Some(desk) => list(rt, alloc, &datasets[n], &mut desk.archiver, &mut desk.pass),
    }
}

// Lists what a worker has pending, dataset by dataset.
fn list_share<F: Send + Drop, T: Disk<F>, H: Shelf<F>, R: Wait>(
    rt: &R,
    alloc: Global,
    datasets: &[Dataset<F, T, H::Sealed>],
    job: &mut WorkerJob<F, T, H>,
)
where
    requires can { CanListAll H.kept datasets.now job.old }
    ensures listed { Listed H.kept datasets.now job.old job.new }
{
    for n in 0..job.desks.len() {
        match list_desk(rt, alloc, datasets, n, job) {
            Ok(()) => {}
            Err(fault) => {
                job.halt = Some(Halt { at: n, fault });
                return;
            }
        }
    }
}

/// Lists what each worker has pending, each in a thread of its own.
pub fn list_round<F: Send + Drop, T: Disk<F>, H: Shelf<F>, R: Threads + Wait + Sync>(
    rt: &R,
    alloc: Global,
    datasets: &[Dataset<F, T, H::Sealed>],
    jobs: &mut [WorkerJob<F, T, H>],
)
where
    requires can { All (CanListAll H.kept datasets.now) jobs.old }
    ensures long { length jobs.new ≡ length jobs.old }
    ensures listed { (i : ℕ) (e : _) → i < length jobs.old → Listed H.kept datasets.now (slice_index_or jobs.old i e) (slice_index_or jobs.new i e) }
{
    thread::for_each_mut(
        rt,
        jobs,
        8,
        &|_i: usize, job: &mut WorkerJob<F, T, H>|
            requires { CanListAll H.kept datasets.now job.old }
            ensures { Listed H.kept datasets.entry.now job.old job.new }
        { list_share(rt, alloc, datasets, job) },
    );
}
