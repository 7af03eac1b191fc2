//! Rows of the top call, and cases of rows over a store.
ghost use Rattle.std.specs.Prelude.{◌≡◌, List, ℕ, false};

use crate::octets::{Part, are, push_parts};
use fd_disk::{Renew, Store};
use fd_disk_mem::{MemStore, Op};
use fd_io::{Gate, MemIoFault, MemSink, MemSource, Source};
use fd_objects::{Kinds, Objects};
use fd_top::fdb;
use std::alloc::Global;
use std::sync::Wait;
use std::sync::atomic::{AtomicU64, Ordering};
use std::thread::Threads;

/// Holds a step of one of the first three lanes or workers, or a read of the input, which is lane 0. The first two wait until the
/// other has asked for so many steps, and so do the third and the input.
#[derive(Clone, Copy)]
pub struct Hold {
    pub lane: u32,
    pub step: u32,
    pub until: u64,
}

/// A run of the top call: its words and its input, and the output, the report and the status that it ends with.
#[derive(Clone, Copy)]
pub struct Row {
    pub words: &'static [&'static str],
    pub input: &'static [Part],
    pub output: &'static [Part],
    pub report: &'static str,
    pub status: u8,
    /// The reads of the input that fail, by their numbers from 1.
    pub reads: &'static [u32],
    /// The writes of the output that fail.
    pub writes: &'static [u32],
    /// The writes of the report that fail.
    pub tellings: &'static [u32],
    /// What is held at the gate. Each hold is come to once, and ends.
    pub holds: &'static [Hold],
}

/// A run over no input that ends with 0 and writes nothing, where no call fails and nobody is held.
pub const ROW: Row = Row {
    words: &[],
    input: &[],
    output: &[],
    report: "",
    status: 0,
    reads: &[],
    writes: &[],
    tellings: &[],
    holds: &[],
};

/// What befalls a store from outside.
#[derive(Clone, Copy)]
pub enum Event {
    /// Nothing.
    Nothing,
    /// A crash, with this choice of what is left.
    Crash(u64),
    /// A file has the octets of these parts and those.
    Replaced(&'static str, &'static [Part], &'static [Part]),
    /// Two files have the octets of these parts and those, one after the other.
    BothReplaced(&'static [(&'static str, &'static [Part], &'static [Part])]),
    /// A file is away.
    Removed(&'static str),
}

/// Rows over one new store, of which a call may be planned to fail, an event, and rows behind it.
#[derive(Clone, Copy)]
pub struct Case {
    /// How many octets a read of the input gives at most.
    pub piece: u32,
    /// How many octets a file of the store may have, and how many writes and syncs it may see.
    pub size: u64,
    pub calls: u32,
    /// The call of a file that fails.
    pub fails: Option<(&'static str, Op, u32)>,
    pub rows: &'static [Row],
    /// How many calls of the store pass behind these rows before all fail, and the row that is run then.
    pub halted: Option<(u64, Row)>,
    pub event: Event,
    pub after: &'static [Row],
}

/// No rows, and no failing call.
pub const CASE: Case = Case {
    piece: 100,
    size: 131_072,
    calls: 2048,
    fails: None,
    rows: &[],
    halted: None,
    event: Event::Nothing,
    after: &[],
};

/// The gate of a row: how many steps the first three lanes and the input have asked for, how many of these were held, and how many in
/// vain.
#[derive(Drop)]
struct Turns {
    first: AtomicU64,
    second: AtomicU64,
    third: AtomicU64,
    reads: AtomicU64,
    held: AtomicU64,
    vain: AtomicU64,
    holds: &'static [Hold],
}

/// Waits until so many steps were asked for, and tells whether they were.
fn waited(asked: &AtomicU64, until: u64) -> bool {
    for _ in 0..100_000_000u32 {
        if asked.load(Ordering::SeqCst) >= until {
            return true;
        }
    }
    false
}

impl Turns {
    /// A gate that nobody has passed.
    fn new(holds: &'static [Hold]) -> Turns {
        Turns {
            first: AtomicU64::new(0),
            second: AtomicU64::new(0),
            third: AtomicU64::new(0),
            reads: AtomicU64::new(0),
            held: AtomicU64::new(0),
            vain: AtomicU64::new(0),
            holds,
        }
    }

    /// Tells whether each hold was come to once, and has ended.
    fn are_met(&self) -> bool {
        let held = self.held.load(Ordering::SeqCst);
        let vain = self.vain.load(Ordering::SeqCst);
        held == self.holds.len() as u64 && vain == 0
    }

    /// Holds this step until the other lane has asked for as many as it is to wait for.
    fn hold(&self, lane: u32, step: u32, other: &AtomicU64) {
        for hold in self.holds {
            if hold.lane == lane && hold.step == step {
                self.held.fetch_add(1, Ordering::SeqCst);
                if !waited(other, hold.until) {
                    self.vain.fetch_add(1, Ordering::SeqCst);
                }
            }
        }
    }

    /// Counts a step among those of its own, and holds it.
    fn count_step(&self, lane: u32, step: u32, own: &AtomicU64, other: &AtomicU64) {
        own.fetch_add(1, Ordering::SeqCst);
        self.hold(lane, step, other);
    }

    /// A step of a lane, or a read of the input.
    fn come(&self, lane: u32, step: u32) {
        match lane {
            0 => self.count_step(lane, step, &self.reads, &self.third),
            1 => self.count_step(lane, step, &self.first, &self.second),
            2 => self.count_step(lane, step, &self.second, &self.first),
            3 => self.count_step(lane, step, &self.third, &self.reads),
            _ => {}
        }
    }
}

/// The gate of a row, lent to a run.
#[derive(Drop)]
struct Lent<'a> {
    turns: &'a Turns,
}

impl Gate for Lent<'_> {
    fn pass<R: Wait>(&self, _rt: &R, lane: u32, step: u32) {
        self.turns.come(lane, step);
    }
}

/// A source whose reads come to the gate of a row.
#[derive(Drop)]
struct Gated<'a, I: Drop> {
    input: I,
    reads: u32,
    gate: &'a Turns,
}

impl<X, I: Source<X> + Drop> Source<X> for Gated<'_, I> {
    ghost left = { λ s. I.left s.input };

    ghost faults = { λ s. I.faults s.input };

    fn read(&mut self, into: &mut [u8]) -> Result<usize, X> {
        self.reads = self.reads.saturating_add(1);
        self.gate.come(0, self.reads);
        self.input.read(into)
    }
}

/// What a row reads and writes.
#[derive(Drop)]
struct Streams {
    input: MemSource,
    output: MemSink,
    report: MemSink,
}

/// The input of a row, in pieces of so many octets.
fn source_of(alloc: Global, row: &Row, piece: u32) -> Option<MemSource> {
    let mut octets = Vec::new(alloc);
    if push_parts(alloc, &mut octets, row.input) {
        MemSource::new(alloc, &octets, piece.max(1), row.reads).ok()
    } else {
        None
    }
}

/// What a row reads, and empty sinks.
fn streams_of(alloc: Global, row: &Row, piece: u32) -> Option<Streams> {
    let input = source_of(alloc, row, piece)?;
    let output = MemSink::new(alloc, 131_072, row.writes).ok()?;
    let report = MemSink::new(alloc, 1000, row.tellings).ok()?;
    Some(Streams {
        input,
        output,
        report,
    })
}

/// Tells whether a run with this status has written what its row says, and met what its gate holds.
fn is_right(
    alloc: Global,
    row: &Row,
    output: &MemSink,
    report: &MemSink,
    status: u8,
    gate: &Turns,
) -> bool {
    status == row.status
        && gate.are_met()
        && report.taken() == row.report.as_bytes()
        && are(alloc, output.taken(), row.output)
}

/// What rows are run with.
pub struct Runner<'a, R> {
    /// The host's threads.
    pub rt: &'a R,
    /// What memory is asked of.
    pub alloc: Global,
    /// How many octets a read of the input gives at most.
    pub piece: u32,
}

impl<R> Drop for Runner<'_, R> {
    fn drop(self) {
        let Runner {
            rt: _,
            alloc: _,
            piece: _,
        } = self;
    }
}

impl<R: Threads + Wait + Sync> Runner<'_, R> {
    /// Runs a row over this store. Gives the store back, and tells whether the row ends as it says.
    fn ends_so<F: Send + Drop, S: Store<F>>(&self, store: S, row: &Row) -> (S, bool)
    where
        S::Folder: Renew<F>,
        requires home { (name : List ℕ) → S.out store name ≡ false }
        ensures home { (name : List ℕ) → S.out result.0 name ≡ false }
    {
        let Some(streams) = streams_of(self.alloc, row, self.piece) else {
            return (store, false);
        };
        let Streams {
            input,
            output,
            report,
        } = streams;
        let turns = Turns::new(row.holds);
        let mut objects = Objects::<Kinds<F, MemIoFault, S, _, _, _, _>> {
            alloc: self.alloc,
            store,
            input: Gated {
                input,
                reads: 0,
                gate: &turns,
            },
            output,
            report,
            gate: Lent { turns: &turns },
        };
        let status = fdb(self.rt, &mut objects, row.words).code();
        let Objects {
            alloc,
            store,
            input: _input,
            output,
            report,
            gate: _gate,
        } = objects;
        let is_so = is_right(alloc, row, &output, &report, status, &turns);
        (store, is_so)
    }

    /// Runs rows over this store, one after the other. Gives the store back, and tells whether each row ends as it says.
    pub fn all_end_so<F: Send + Drop, S: Store<F>>(&self, store: S, rows: &[Row]) -> (S, bool)
    where
        S::Folder: Renew<F>,
        requires home { (name : List ℕ) → S.out store name ≡ false }
        ensures home { (name : List ℕ) → S.out result.0 name ≡ false }
    {
        let mut store = store;
        for row in rows {
            let (left, is_so) = self.ends_so(store, row);
            store = left;
            if !is_so {
                return (store, false);
            }
        }
        (store, true)
    }

    /// The same, over a store in memory.
    fn all_end_in_memory(&self, store: MemStore, rows: &[Row]) -> (MemStore, bool) {
        self.all_end_so(store, rows)
    }

    /// Runs a row where so many calls of the store pass before all fail. Gives the store back, and tells whether the row ends as it
    /// says.
    fn is_halted(&self, mut store: MemStore, halted: Option<(u64, Row)>) -> (MemStore, bool) {
        match halted {
            Some((calls, row)) => {
                store.fuse(calls);
                self.all_end_in_memory(store, &[row])
            }
            None => (store, true),
        }
    }

    /// Runs the rows of a case, and tells whether each ends as it says.
    fn holds(&self, case: &Case) -> bool {
        let Some(store) = store_of(self.alloc, case) else {
            return false;
        };
        let (store, before) = self.all_end_in_memory(store, case.rows);
        let (store, halted) = self.is_halted(store, case.halted);
        match after(self.alloc, store, &case.event) {
            Some(store) => {
                let (_store, behind) = self.all_end_in_memory(store, case.after);
                before && halted && behind
            }
            None => false,
        }
    }
}

/// Plans the call that is to fail, and tells whether there was memory for it.
fn plan(alloc: Global, store: &mut MemStore, fails: Option<(&str, Op, u32)>) -> bool {
    match fails {
        Some((file, op, number)) => store.fail(alloc, file, op, number).is_ok(),
        None => true,
    }
}

/// An empty store, of which a call may be planned to fail.
fn store_of(alloc: Global, case: &Case) -> Option<MemStore> {
    match MemStore::new(alloc, case.size, case.calls) {
        Ok(mut store) => {
            if plan(alloc, &mut store, case.fails) {
                Some(store)
            } else {
                None
            }
        }
        Err(_) => None,
    }
}

/// Has a file be of these octets, or be away, and tells whether there was memory for it.
fn replace(alloc: Global, store: &mut MemStore, file: &str, octets: Option<&[u8]>) -> bool {
    file.len() <= 259 && store.replace(alloc, file, octets).is_ok()
}

/// Has a file be of the octets of these parts and those.
fn damage(
    alloc: Global,
    store: &mut MemStore,
    file: &str,
    whole: &[Part],
    changes: &[Part],
) -> bool {
    let mut octets = Vec::new(alloc);
    push_parts(alloc, &mut octets, whole)
        && push_parts(alloc, &mut octets, changes)
        && replace(alloc, store, file, Some(&octets))
}

/// The same of several files.
fn damage_all(alloc: Global, store: &mut MemStore, files: &[(&str, &[Part], &[Part])]) -> bool {
    for (file, whole, changes) in files {
        if !damage(alloc, store, file, whole, changes) {
            return false;
        }
    }
    true
}

/// The store after a crash.
fn crashed(alloc: Global, store: MemStore, choice: u64) -> Option<MemStore> {
    match store.crash(alloc, choice) {
        Ok(store) => Some(store),
        Err(_) => None,
    }
}

/// Has an event other than a crash befall the store, and tells whether there was memory for it.
fn befalls(alloc: Global, store: &mut MemStore, event: &Event) -> bool {
    match event {
        Event::Replaced(file, whole, changes) => damage(alloc, store, file, whole, changes),
        Event::BothReplaced(files) => damage_all(alloc, store, files),
        Event::Removed(file) => replace(alloc, store, file, None),
        Event::Nothing => true,
        Event::Crash(_) => false,
    }
}

/// The store after an event.
fn after(alloc: Global, mut store: MemStore, event: &Event) -> Option<MemStore> {
    if let Event::Crash(choice) = event {
        return crashed(alloc, store, *choice);
    }
    if befalls(alloc, &mut store, event) {
        Some(store)
    } else {
        None
    }
}

/// The number of the first case that doesn't hold, from 0.
pub fn first_wrong<R: Threads + Wait + Sync>(
    rt: &R,
    alloc: Global,
    cases: &[Case],
) -> Option<usize> {
    for (number, case) in cases.iter().enumerate() {
        let runner = Runner {
            rt,
            alloc,
            piece: case.piece,
        };
        if !runner.holds(case) {
            return Some(number);
        }
    }
    None
}
