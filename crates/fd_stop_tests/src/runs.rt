//! Commands over a store that stops.
ghost use Rattle.std.specs.Prelude.{◌≡◌, List, ℕ, false};
ghost use Rattle.fd_words.specs.Words.{IsWithinLimits};

use fd_disk::{Renew, Store};
use fd_disk_mem::MemStore;
use fd_gen::generated;
use fd_io::{Gate, MemIoFault, MemSink, MemSource};
use fd_objects::{Kinds, Objects, World};
use fd_stopped::Stopped;
use fd_stops::{
    Stopping, archive_until, create_until, list_until, purge_until, session_until, trial_until,
    wipe_until,
};
use fd_stored::Status;
use fd_words::{Command, read_command};
use std::alloc::Global;
use std::sync::Wait;
use std::thread::Threads;

/// A command: its words, and its input, which is a text and the generated messages of these numbers.
#[derive(Clone, Copy)]
pub(crate) struct Row {
    pub(crate) words: &'static [&'static str],
    pub(crate) text: &'static str,
    pub(crate) messages: &'static [u64],
}

/// No words, and an empty input.
pub(crate) const ROW: Row = Row {
    words: &[],
    text: "",
    messages: &[],
};

/// A gate that holds nobody back.
#[derive(Drop)]
struct Open;

impl Gate for Open {
    fn pass<R: Wait>(&self, _rt: &R, _lane: u32, _step: u32) {}
}

/// Runs one of these commands over a store that stops, and no other.
fn command_until<W: World, R: Threads + Wait + Sync>(
    rt: &R,
    objects: &mut Objects<Stopping<W>>,
    command: &Command,
) -> Status
    requires home { (name : List ℕ) → W.Store.out objects.old.store.inner name ≡ false }
    requires within { IsWithinLimits command.now }
    ensures home { (name : List ℕ) → W.Store.out objects.new.store.inner name ≡ false }
{
    match command {
        Command::Create(root) => create_until(objects, root),
        Command::Archive(root, given, workers) => {
            archive_until(rt, objects, root, given, *workers)
        }
        Command::Session(root) => session_until(rt, objects, root),
        Command::Trial(root, count, workers) => trial_until(rt, objects, root, *count, *workers),
        Command::Purge(root, dataset) => purge_until(objects, root, dataset),
        Command::Wipe(root, dataset) => wipe_until(objects, root, dataset),
        Command::List(root) => list_until(objects, root),
        _ => Status::Words,
    }
}

/// Puts a generated message behind the octets, and tells whether there was memory for it.
fn push_message(alloc: Global, octets: &mut Vec<u8>, number: u64) -> bool {
    match generated(alloc, number.min(9999)) {
        Ok(message) => octets.extend_from_slice(&message).is_ok(),
        Err(_) => false,
    }
}

/// The input of a row.
fn input_of(alloc: Global, row: &Row) -> Option<MemSource> {
    let mut octets = Vec::new(alloc);
    octets.extend_from_slice(row.text.as_bytes()).ok()?;
    for number in row.messages {
        if !push_message(alloc, &mut octets, *number) {
            return None;
        }
    }
    MemSource::new(alloc, &octets, 4096, &[]).ok()
}

/// What a row reads, and two empty sinks.
fn streams_of(alloc: Global, row: &Row) -> Option<(MemSource, MemSink, MemSink)> {
    let input = input_of(alloc, row)?;
    let output = MemSink::new(alloc, 4096, &[]).ok()?;
    let report = MemSink::new(alloc, 1000, &[]).ok()?;
    Some((input, output, report))
}

/// Runs a row over a store that stops. Gives the store back, and the row's status with what it has written on the output.
fn run<F: Send + Drop, S: Store<F>, R: Threads + Wait + Sync>(
    rt: &R,
    alloc: Global,
    row: &Row,
    store: Stopped<S>,
) -> (Stopped<S>, Option<(Status, MemSink)>)
where
    S::Folder: Renew<F>,
    requires home { (name : List ℕ) → S.out store.inner name ≡ false }
    ensures home { (name : List ℕ) → S.out result.0.inner name ≡ false }
{
    let Some((input, output, report)) = streams_of(alloc, row) else {
        return (store, None);
    };
    let Ok(Some(command)) = read_command(alloc, row.words) else {
        return (store, None);
    };
    let mut objects = Objects::<Stopping<Kinds<F, MemIoFault, S, _, _, _, _>>> {
        alloc,
        store,
        input,
        output,
        report,
        gate: Open,
    };
    let status = command_until(rt, &mut objects, &command);
    let Objects {
        alloc: _alloc,
        store,
        input: _input,
        output,
        report: _report,
        gate: _gate,
    } = objects;
    (store, Some((status, output)))
}

/// The same over one that holds a store in memory.
pub(crate) fn run_in_memory<R: Threads + Wait + Sync>(
    rt: &R,
    alloc: Global,
    row: &Row,
    store: Stopped<MemStore>,
) -> (Stopped<MemStore>, Option<(Status, MemSink)>) {
    run(rt, alloc, row, store)
}
