//! What reads an input ahead: its fields, with their places, up to where they have to be dealt before more is read.
ghost use Rattle.std.specs.Prelude.{◌≡◌, ◌<◌, ◌≤◌, All, Ok, Err, [], IfOk, IfErr, OnOk, true, false};
ghost use Rattle.fd_bytes.specs.Causes.{Rose};
ghost use Rattle.fd_sections.specs.{Splitting.{finished, start}, Stream.{first}};
ghost use Rattle.fd_split.specs.Positions.{IsIdle, at_message};
ghost use Rattle.fd_schema.specs.Grammar.{IsSchema};
ghost use Rattle.fd_sheets.specs.{Names.{IsKnown}, Reading.{HasRead, HasTaken, IsFed, IsStop, ReadOn, is_end, is_full, is_starved, is_unread}};

use crate::names::Names;
use crate::parts::Search;
use crate::pieces::{new_piece, read_piece};
use crate::sheets::{Intake, Sheet, Unsplit};
use fd_bytes::{Bytes, NoMemory};
use fd_io::Source;
use fd_key::Given;
use fd_schema::Schema;
use fd_sections::{BadAt, Truncated};
use fd_split::INPUT_LIMIT;
use std::alloc::Global;
use std::marker::Model;
use std::thread::Threads;

/// Where a reader stops for a while.
#[derive(Clone, Copy)]
pub enum Reach {
    /// So many fields were read that they are handed on.
    Full,
    /// No more is read before a field was dealt that has no place, or whose dataset isn't known yet.
    Dealing,
    /// The input is at its end.
    End,
}

impl Reach {
    /// The input is at its end.
    pub fn is_end(&self) -> bool
        ensures { result ≡ is_end self.now }
    {
        matches!(self, Reach::End)
    }

    /// So many fields were read that they are handed on.
    pub fn is_full(&self) -> bool
        ensures { result ≡ is_full self.now }
    {
        matches!(self, Reach::Full)
    }
}

/// Why a reader reads no more.
#[derive(Drop)]
pub enum Stop<X> {
    /// A read of the input failed.
    Input(X),
    /// What comes next is no GRIB 2 message.
    Message(BadAt),
    /// The field of this number of the message of this number, which comes next and has several, lacks a bit map.
    NoMap { number: u64, field: u32 },
    /// The input is longer than an input may be.
    InputLimit,
    /// An allocation was refused.
    NoMemory,
}

/// Fields that were read, and why the reader stopped behind them.
#[derive(Drop)]
pub struct Batch<X> {
    pub sheets: Vec<Sheet>,
    pub end: Result<Reach, Stop<X>>,
}

/// What reads an input: it splits its messages into their fields, and finds the places of these.
#[derive(Drop)]
pub struct Reader {
    intake: Intake,
    piece: Vec<u8>,
    total: u64,
    fields: u64,
}

// Why no field comes, as a reader tells it.
fn stopped<X>(end: Unsplit) -> Stop<X>
    ensures { IsStop end result }
{
    match end {
        Unsplit::Message(at) => Stop::Message(at),
        Unsplit::NoMap { number, field } => Stop::NoMap { number, field },
        Unsplit::NoMemory => Stop::NoMemory,
    }
}

impl Model for Reader {
    ghost use Rattle.std.specs.Prelude.{◌≡◌, ◌≤◌, ◌<◌, ◌+◌, ◌*◌, length, vec_len};
    ghost use Rattle.fd_split.specs.Positions.{Position};

    ghost Value = { Position };

    ghost view = { λ r. record { split = r.intake.splitter; rest = r.intake.opened; count = r.fields } };

    ghost invariant = { λ r. (r.intake.splitter.fed ≡ r.total) × (r.total ≤ 68719476736) × (vec_len r.piece ≡ 1048576) × (16 * r.fields + (length r.intake.splitter.rest + 16 * length r.intake.opened) ≤ r.total) × (0 < length r.intake.opened → 1 ≤ r.intake.splitter.given) };
}

impl Reader {
    /// Nothing was read.
    pub fn new(alloc: Global) -> Result<Reader, NoMemory>
        ensures { IfOk result (λ r. r ≡ at_message start 0) }
    {
        Ok(Reader {
            intake: Intake::new(alloc)?,
            piece: new_piece(alloc)?,
            total: 0,
            fields: 0,
        })
    }

    /// The buffers of messages that were stored, into which the next ones are copied.
    pub fn keep(&mut self, bytes: Bytes)
        ensures { self.new ≡ self.old }
    {
        self.intake.buffers.keep(bytes);
    }

    /// Ends the input: how many fields were read and how many octets skipped, or which message is cut.
    pub fn finish(self) -> Result<(u64, u64), Truncated>
        requires { IsIdle self }
        ensures ok { IfOk result (λ r. (r.0 ≡ self.count) × (Ok r.1 ≡ finished self.split (first self.split.rest))) }
        ensures err { IfErr result (λ t. Err t ≡ finished self.split (first self.split.rest)) }
    {
        let fields = self.fields;
        let intake = self.intake;
        match intake.splitter.finish() {
            Ok(junk) => Ok((fields, junk)),
            Err(cut) => Err(cut),
        }
    }

    // Reads a piece, where the input isn't at its end.
    fn read<X, I: Source<X>>(&mut self, input: &mut I) -> Result<bool, Stop<X>>
        requires waits { IsIdle self.old }
        ensures fed { IsFed self.old self.new (I.left input.old) (I.left input.new) result }
        ensures few { self.new.split.fed ≤ 68719476736 }
        ensures limit { IfErr result (λ e. is_starved e ≡ true → self.old.split.fed < 68719476736) }
        ensures calm { OnOk result (I.faults input.new ≡ I.faults input.old) }
        ensures read { IfErr result (λ e. is_unread e ≡ true → Rose (I.faults input.old) (I.faults input.new)) }
        ensures quiet { IfErr result (λ e. is_unread e ≡ false → I.faults input.new ≡ I.faults input.old) }
    {
        let n = match read_piece(input, &mut self.piece, self.total) {
            Ok(n) => n,
            Err(fault) => return Err(Stop::Input(fault)),
        };
        if n == 0 {
            return Ok(false);
        }
        if self.total == INPUT_LIMIT {
            return Err(Stop::InputLimit);
        }
        let (octets, _) = self.piece.split_at(n);
        match self.intake.splitter.feed(octets) {
            Ok(()) => {}
            Err(_) => return Err(Stop::NoMemory),
        }
        self.total += n as u64;
        Ok(true)
    }

    // Takes the fields that are whole, with their places, and tells whether something is to be done before more is read.
    fn take<X, R: Threads + Sync>(
        &mut self,
        rt: &R,
        alloc: Global,
        schema: &Schema,
        given: &Given,
        workers: usize,
        names: &Names,
        sheets: &mut Vec<Sheet>,
    ) -> Result<Option<Reach>, Stop<X>>
        requires schema { IsSchema schema.now }
        requires workers { 0 < workers }
        ensures few { self.old.split.fed ≤ 68719476736 }
        ensures takes { HasTaken schema.now given.now names.now.texts.items self.old self.new sheets.old.items sheets.new.items result }
    {
        let mut fresh = Vec::new(alloc);
        let search = Search {
            alloc,
            schema,
            given,
            workers,
        };
        let taken = search.take_placed(rt, &mut self.intake, &mut fresh);
        self.fields += fresh.len() as u64;
        let are_known = names.know_all(&fresh);
        match sheets.append(&mut fresh) {
            Ok(()) => {}
            Err(_) => return Err(Stop::NoMemory),
        }
        match taken {
            Ok(true) => Ok(Some(Reach::Full)),
            Ok(false) => {
                if are_known {
                    Ok(None)
                } else {
                    Ok(Some(Reach::Dealing))
                }
            }
            Err(end) => Err(stopped(end)),
        }
    }

    // Takes fields and reads on, until something is to be done before more is read.
    fn fill<X, I: Source<X>, R: Threads + Sync>(
        &mut self,
        rt: &R,
        alloc: Global,
        input: &mut I,
        schema: &Schema,
        given: &Given,
        workers: usize,
        names: &Names,
        sheets: &mut Vec<Sheet>,
    ) -> Result<Reach, Stop<X>>
        requires schema { IsSchema schema.now }
        requires workers { 0 < workers }
        requires none { sheets.old.items ≡ [] }
        ensures reads { HasRead schema.now given.now self.old self.new (I.left input.old) (I.left input.new) sheets.new.items result }
        ensures known { IfErr result (λ e. is_unread e ≡ true → All (IsKnown names.now.texts.items) sheets.new.items) }
        ensures calm { OnOk result (I.faults input.new ≡ I.faults input.old) }
        ensures read { IfErr result (λ e. is_unread e ≡ true → Rose (I.faults input.old) (I.faults input.new)) }
        ensures quiet { IfErr result (λ e. is_unread e ≡ false → I.faults input.new ≡ I.faults input.old) }
    {
        let _ = &self.total;
        for _ in 0..u64::MAX {
            match self.take(rt, alloc, schema, given, workers, names, sheets) {
                Ok(None) => {}
                Ok(Some(reach)) => return Ok(reach),
                Err(stop) => return Err(stop),
            }
            match self.read(input) {
                Ok(true) => {}
                Ok(false) => return Ok(Reach::End),
                Err(stop) => return Err(stop),
            }
        }
        Err(Stop::InputLimit)
    }
}

/// Reads fields with their places, which so many threads look for. It stops behind 8,192 fields or 8 MiB, also where
/// others of the same message are still to come, and where a field has no place, or its dataset isn't one of these: so where a read
/// fails, each field that was read before has a place in one of these datasets. (What is lent for writing comes last, as a closure wants it.)
pub fn read_on<X, I: Source<X>, R: Threads + Sync>(
    rt: &R,
    alloc: Global,
    schema: &Schema,
    given: &Given,
    names: &Names,
    workers: usize,
    input: &mut I,
    reader: &mut Reader,
) -> Batch<X>
    requires schema { IsSchema schema.now }
    requires workers { 0 < workers }
    ensures { ReadOn schema.now given.now names.now.texts.items reader.old reader.new (I.left input.old) (I.left input.new) (I.faults input.old) (I.faults input.new) result }
{
    let mut sheets = Vec::new(alloc);
    reader.intake.rounds.hand_on();
    let end = reader.fill(rt, alloc, input, schema, given, workers, names, &mut sheets);
    Batch { sheets, end }
}
