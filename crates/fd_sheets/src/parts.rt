//! Parts of what is handed on at once: while other threads look for the places of one part, the next is split off.
ghost use Rattle.std.specs.Prelude.{◌≡◌, ◌<◌, ℕ, All, [], Ok, true};
ghost use denote.Param.Send.{IsSync};
ghost use Rattle.fd_schema.specs.Grammar.{IsSchema};
ghost use Rattle.fd_sheets.specs.{Parts.{AreLookedUp, TookPart, TookPlaced}, Sheets.{IsOpen, IsReadable, Shrinks, standing}};

use crate::rounds::Rounds;
use crate::sheets::{Intake, Sheet, Unsplit, look_up_all};
use fd_key::Given;
use fd_schema::Schema;
use std::alloc::Global;
use std::thread::{Threads, join_mut};

// Another part is to be taken.
fn are_more(taken: &Result<bool, Unsplit>, rounds: &Rounds) -> bool
    ensures { result ≡ true → taken.now ≡ Ok true }
{
    match taken {
        Ok(is_part) => *is_part && !rounds.is_full(),
        Err(_) => false,
    }
}

impl Intake {
    // Takes a part.
    fn take_part(
        &mut self,
        alloc: Global,
        workers: usize,
        part: &mut Vec<Sheet>,
    ) -> Result<bool, Unsplit>
        requires is_open { IsOpen self.old.splitter self.old.opened }
        requires none { part.old.items ≡ [] }
        ensures { TookPart self.old.splitter self.old.opened self.new.splitter self.new.opened part.new.items result }
    {
        self.rounds.begin_part(workers);
        self.take_sheets(alloc, part)
    }
}

/// What the places of fields are looked for by.
#[derive(Clone, Copy)]
pub(crate) struct Search<'a> {
    /// What memory is asked of.
    pub(crate) alloc: Global,
    /// The rules by which keys have their places.
    pub(crate) schema: &'a Schema,
    /// The pairs of each key that are given.
    pub(crate) given: &'a Given,
    /// How many threads look for them.
    pub(crate) workers: usize,
}

impl Search<'_> {
    // Takes the next part, while other threads look for the places of this one.
    fn take_beside<R: Threads + Sync>(
        &self,
        rt: &R,
        intake: &mut Intake,
        next: &mut Vec<Sheet>,
        part: &mut [Sheet],
    ) -> Result<bool, Unsplit>
        requires schema { IsSchema self.now.schema.now }
        requires workers { 0 < self.now.workers }
        requires is_open { IsOpen intake.old.splitter intake.old.opened }
        requires none { next.old.items ≡ [] }
        requires readable { All IsReadable part.old }
        ensures looked { AreLookedUp self.now.schema.now self.now.given.now part.old part.new }
        ensures took { TookPart intake.old.splitter intake.old.opened intake.new.splitter intake.new.opened next.new.items result }
    {
        let schema = self.schema;
        let given = self.given;
        let alloc = self.alloc;
        let other = alloc;
        let workers = self.workers;
        let threads = workers;
        let mut look = ||
            requires { IsSync R.row × IsSchema schema.now × (0 < threads) × All IsReadable part.now }
            ensures { AreLookedUp schema.entry.now given.entry.now part.entry.now part.exit.now }
        { look_up_all(rt, other, schema, given, threads, part) };
        let mut take = || -> Result<bool, Unsplit>
            requires { IsOpen intake.now.splitter intake.now.opened × (next.now.items ≡ []) }
            ensures { TookPart intake.entry.now.splitter intake.entry.now.opened intake.exit.now.splitter intake.exit.now.opened next.exit.now.items result }
        { intake.take_part(alloc, workers, next) };
        let (_, taken) = join_mut(rt, &mut look, &mut take);
        taken
    }

    /// Takes the fields of the messages that are whole, with their places, as many as are handed on at once, and tells whether there are so
    /// many; or why none comes behind them. Part by part, the next is taken while the places of the one before are looked for. With one
    /// worker they are one part, and both is done in line.
    pub(crate) fn take_placed<R: Threads + Sync>(
        &self,
        rt: &R,
        intake: &mut Intake,
        done: &mut Vec<Sheet>,
    ) -> Result<bool, Unsplit>
        requires schema { IsSchema self.now.schema.now }
        requires workers { 0 < self.now.workers }
        requires is_open { IsOpen intake.old.splitter intake.old.opened }
        requires none { done.old.items ≡ [] }
        ensures took { (n : ℕ) → TookPlaced self.now.schema.now self.now.given.now (standing intake.old.splitter intake.old.opened n) intake.new.splitter intake.new.opened done.new.items result }
        ensures room { Shrinks intake.old.splitter intake.old.opened done.old.items intake.new.splitter intake.new.opened done.new.items }
        ensures is_open { IsOpen intake.new.splitter intake.new.opened }
        ensures fed { intake.new.splitter.fed ≡ intake.old.splitter.fed }
    {
        let mut part = Vec::new(self.alloc);
        let mut taken = intake.take_part(self.alloc, self.workers, &mut part);
        'parts: while are_more(&taken, &intake.rounds) {
            let mut next = Vec::new(self.alloc);
            let end = self.take_beside(rt, intake, &mut next, &mut part);
            match done.append(&mut part) {
                Ok(()) => {}
                Err(_) => return Err(Unsplit::NoMemory),
            }
            part = next;
            taken = end;
        }
        look_up_all(
            rt,
            self.alloc,
            self.schema,
            self.given,
            self.workers,
            &mut part,
        );
        if done.is_empty() {
            *done = part;
            return taken;
        }
        match done.append(&mut part) {
            Ok(()) => taken,
            Err(_) => Err(Unsplit::NoMemory),
        }
    }
}
