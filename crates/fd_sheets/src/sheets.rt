//! Sheets: the fields of the messages that are whole in what was read, each with the place that was looked for.
ghost use Rattle.std.specs.Prelude.{◌≡◌, ◌<◌, ◌≤◌, ◌+◌, ◌*◌, ℕ, All, [], length, false, IfOk};
ghost use Rattle.fd_sections.specs.{Parts.{sections_of}, Splitting.{start}};
ghost use Rattle.fd_split.specs.Reading.{reading_fields};
ghost use Rattle.fd_schema.specs.Grammar.{IsSchema};
ghost use Rattle.fd_sheets.specs.{Opened.{Repeats}, Parts.{AreLookedUp}, Sheets.{FoundAs, IsLookedUp, IsOpen, IsReadable, IsUnsplit, Next, Shrinks, Took, TookMessage, TookOne, standing}};

use crate::buffers::Buffers;
use crate::opened::{Opened, put_sheet};
use crate::rounds::Rounds;
use fd_bytes::NoMemory;
use fd_key::{Given, Key, KeyFault, key_into};
use fd_schema::{Place, PlaceFault, Schema};
use fd_sections::{Bad, BadAt, Message, Splitter, message};
use fd_segment::Field;
use fd_split::SplitFault;
use std::alloc::Global;
use std::thread;
use std::thread::Threads;

/// From how many sheets on their places are looked for in several threads.
const ENOUGH_SHEETS: usize = 64;

/// A field of the input, as a message of its own, with the number of its message and that of its round, from 1, and its place, once that
/// was looked for.
#[derive(Drop)]
pub struct Sheet {
    pub number: u64,
    pub round: u32,
    pub bytes: Field,
    pub found: Option<Result<Place, Unplaced>>,
}

/// Why a field has no place.
#[derive(Drop)]
pub enum Unplaced {
    /// It has no key, for this reason.
    Key(KeyFault),
    /// No rule admits its key, which has this text.
    NoRule(String),
    /// An allocation was refused.
    NoMemory,
}

/// Why no field comes.
#[derive(Drop)]
pub(crate) enum Unsplit {
    /// What comes is no GRIB 2 message.
    Message(BadAt),
    /// A field of this message lacks a bit map.
    NoMap { number: u64, field: u32 },
    /// An allocation was refused.
    NoMemory,
}

// Why message n isn't split into its fields.
fn why_unsplit(number: u64, fault: SplitFault) -> Unsplit
    ensures { IsUnsplit number fault result }
{
    match fault {
        SplitFault::Bad(bad) => Unsplit::Message(BadAt { number, bad }),
        SplitFault::NoMap { field } => Unsplit::NoMap { number, field },
        SplitFault::NoMemory => Unsplit::NoMemory,
    }
}

// Takes a message of a single field, whose octets are these.
fn take_single(
    alloc: Global,
    number: u64,
    octets: &[u8],
    buffers: &mut Buffers,
    rounds: &mut Rounds,
    sheets: &mut Vec<Sheet>,
) -> Result<(), NoMemory>
    ensures { TookOne number octets.now sheets.old.items sheets.new.items result }
{
    let bytes = buffers.copied(alloc, octets)?;
    put_sheet(number, bytes, rounds, sheets)
}

// Opens a message of several fields, whose octets are these, and takes fields of it.
fn take_opened(
    alloc: Global,
    number: u64,
    octets: &[u8],
    opened: &mut Opened,
    rounds: &mut Rounds,
    sheets: &mut Vec<Sheet>,
) -> Result<(), Unsplit>
    requires idle { opened.old ≡ [] }
    ensures took { TookMessage number (reading_fields octets.now) opened.new sheets.old.items sheets.new.items result }
    ensures room { 16 * length sheets.new.items + 16 * length opened.new ≤ 16 * length sheets.old.items + length octets.now }
{
    match Opened::of(alloc, octets) {
        Ok(message) => *opened = message,
        Err(fault) => return Err(why_unsplit(number, fault)),
    }
    match opened.take(alloc, number, rounds, sheets) {
        Ok(()) => Ok(()),
        Err(_) => Err(Unsplit::NoMemory),
    }
}

// It is no message since its sections are repeated.
fn is_repeated(bad: Bad) -> bool
    ensures { result ≡ false → Repeats bad → ⊥ }
{
    match bad {
        Bad::MultiField { section: _ } => true,
        _ => false,
    }
}

// Takes fields of the message with these octets: its single one as it came.
fn take_message(
    alloc: Global,
    number: u64,
    octets: &[u8],
    opened: &mut Opened,
    buffers: &mut Buffers,
    rounds: &mut Rounds,
    sheets: &mut Vec<Sheet>,
) -> Result<(), Unsplit>
    requires idle { opened.old ≡ [] }
    requires limit { length octets.now ≤ 134217728 }
    requires some { 16 ≤ length octets.now }
    ensures took { TookMessage number (reading_fields octets.now) opened.new sheets.old.items sheets.new.items result }
    ensures room { 16 * length sheets.new.items + 16 * length opened.new ≤ 16 * length sheets.old.items + length octets.now }
{
    match message(octets) {
        Ok(_) => match take_single(alloc, number, octets, buffers, rounds, sheets) {
            Ok(()) => Ok(()),
            Err(_) => Err(Unsplit::NoMemory),
        },
        Err(bad) => {
            if is_repeated(bad) {
                take_opened(alloc, number, octets, opened, rounds, sheets)
            } else {
                Err(Unsplit::Message(BadAt { number, bad }))
            }
        }
    }
}

/// What takes the fields of an input: it splits its messages, and keeps the one of which fields are still to come, the buffers of messages
/// that were stored, and how many came.
#[derive(Drop)]
pub(crate) struct Intake {
    pub(crate) splitter: Splitter,
    pub(crate) opened: Opened,
    pub(crate) buffers: Buffers,
    pub(crate) rounds: Rounds,
}

impl Intake {
    /// Nothing has come.
    pub(crate) fn new(alloc: Global) -> Result<Intake, NoMemory>
        ensures split { IfOk result (λ i. i.splitter ≡ start) }
        ensures none { IfOk result (λ i. i.opened ≡ []) }
    {
        Ok(Intake {
            splitter: Splitter::new(alloc)?,
            opened: Opened::new(alloc),
            buffers: Buffers::new(alloc),
            rounds: Rounds::new(),
        })
    }

    // Takes fields of the next message, if one is whole, and tells whether one was.
    fn next_message(&mut self, alloc: Global, sheets: &mut Vec<Sheet>) -> Result<bool, Unsplit>
        requires idle { self.old.opened ≡ [] }
        ensures next { (n : ℕ) → Next (standing self.old.splitter [] n) self.new.splitter self.new.opened sheets.old.items sheets.new.items result }
        ensures room { Shrinks self.old.splitter [] sheets.old.items self.new.splitter self.new.opened sheets.new.items }
        ensures is_open { IsOpen self.new.splitter self.new.opened }
        ensures fed { self.new.splitter.fed ≡ self.old.splitter.fed }
    {
        let number = self.splitter.given() + 1;
        match self.splitter.next_frame() {
            Ok(None) => Ok(false),
            Ok(Some(octets)) => {
                match take_message(
                    alloc,
                    number,
                    octets,
                    &mut self.opened,
                    &mut self.buffers,
                    &mut self.rounds,
                    sheets,
                ) {
                    Ok(()) => Ok(true),
                    Err(end) => Err(end),
                }
            }
            Err(at) => Err(Unsplit::Message(at)),
        }
    }

    // Takes fields that are to come of the message that is open, or else of the next one, if one is whole, and tells whether it took some.
    fn take_more(&mut self, alloc: Global, sheets: &mut Vec<Sheet>) -> Result<bool, Unsplit>
        requires is_open { IsOpen self.old.splitter self.old.opened }
        ensures next { (n : ℕ) → Next (standing self.old.splitter self.old.opened n) self.new.splitter self.new.opened sheets.old.items sheets.new.items result }
        ensures room { Shrinks self.old.splitter self.old.opened sheets.old.items self.new.splitter self.new.opened sheets.new.items }
        ensures is_open { IsOpen self.new.splitter self.new.opened }
        ensures fed { self.new.splitter.fed ≡ self.old.splitter.fed }
    {
        if self.opened.has_more() {
            let number = self.splitter.given();
            return match self.opened.take(alloc, number, &mut self.rounds, sheets) {
                Ok(()) => Ok(true),
                Err(_) => Err(Unsplit::NoMemory),
            };
        }
        self.next_message(alloc, sheets)
    }

    /// Takes the fields of the messages that are whole, as many as a part has, and tells whether there are so many; or why none comes
    /// behind them. Those of a message that are more than a part has are still to come.
    pub(crate) fn take_sheets(
        &mut self,
        alloc: Global,
        sheets: &mut Vec<Sheet>,
    ) -> Result<bool, Unsplit>
        requires is_open { IsOpen self.old.splitter self.old.opened }
        requires none { sheets.old.items ≡ [] }
        ensures took { (n : ℕ) → Took (standing self.old.splitter self.old.opened n) self.new.splitter self.new.opened sheets.new.items result }
        ensures room { Shrinks self.old.splitter self.old.opened sheets.old.items self.new.splitter self.new.opened sheets.new.items }
        ensures is_open { IsOpen self.new.splitter self.new.opened }
        ensures fed { self.new.splitter.fed ≡ self.old.splitter.fed }
    {
        'fields: loop {
            match self.take_more(alloc, sheets) {
                Ok(true) => {
                    if self.rounds.is_part() {
                        return Ok(true);
                    }
                }
                Ok(false) => return Ok(false),
                Err(end) => return Err(end),
            }
        }
    }
}

// The place of a field, whose key is put into this one.
fn placed(
    key: &mut Key,
    alloc: Global,
    schema: &Schema,
    given: &Given,
    message: &Message<'_>,
) -> Result<Place, Unplaced>
    requires schema { IsSchema schema.now }
    ensures { FoundAs schema.now given.now (sections_of message.now) result }
{
    match key_into(key, alloc, message, given) {
        Ok(()) => {}
        Err(KeyFault::NoMemory) => return Err(Unplaced::NoMemory),
        Err(fault) => return Err(Unplaced::Key(fault)),
    }
    match schema.place(alloc, key) {
        Ok(place) => Ok(place),
        Err(PlaceFault::NoRule) => match key.text(alloc) {
            Ok(key) => Err(Unplaced::NoRule(key)),
            Err(_) => Err(Unplaced::NoMemory),
        },
        Err(PlaceFault::NoMemory) => Err(Unplaced::NoMemory),
    }
}

// Looks for the place of a sheet, whose key is put into this one, if there is room for it.
fn look_up(room: &mut Option<Key>, alloc: Global, schema: &Schema, given: &Given, sheet: &mut Sheet)
    requires schema { IsSchema schema.now }
    requires readable { IsReadable sheet.old }
    ensures { IsLookedUp schema.now given.now sheet.old sheet.new }
{
    let found = match message(sheet.bytes.as_slice()) {
        Ok(message) => match room {
            Some(key) => placed(key, alloc, schema, given, &message),
            None => Err(Unplaced::NoMemory),
        },
        Err(_) => unreachable!(),
    };
    sheet.found = Some(found);
}

// Looks for the places of a share of the sheets. Their keys are put into one, the one after the other, so that memory for them is asked for
// once.
fn look_up_share(alloc: Global, schema: &Schema, given: &Given, sheets: &mut [Sheet])
    requires schema { IsSchema schema.now }
    requires readable { All IsReadable sheets.old }
    ensures { AreLookedUp schema.now given.now sheets.old sheets.new }
{
    let mut room = Key::new(alloc).ok();
    for i in 0..sheets.len() {
        look_up(&mut room, alloc, schema, given, &mut sheets[i]);
    }
}

/// Looks for the places of sheets, by so many threads where there are enough sheets for several.
pub(crate) fn look_up_all<R: Threads + Sync>(
    rt: &R,
    alloc: Global,
    schema: &Schema,
    given: &Given,
    workers: usize,
    sheets: &mut [Sheet],
)
    requires schema { IsSchema schema.now }
    requires workers { 0 < workers }
    requires readable { All IsReadable sheets.old }
    ensures { AreLookedUp schema.now given.now sheets.old sheets.new }
{
    let threads = if sheets.len() < ENOUGH_SHEETS {
        1
    } else {
        workers
    };
    let share = sheets.len().div_ceil(threads).max(1);
    thread::for_each_chunk_mut(
        rt,
        sheets,
        share,
        &|_start: usize, part: &mut [Sheet]|
            requires { IsSchema schema.now × All IsReadable part.old }
            ensures { AreLookedUp schema.entry.now given.entry.now part.old part.new }
        { look_up_share(alloc, schema, given, part) },
    );
}
