//! Messages that are made up, as a source gives them.
ghost use Rattle.std.specs.Prelude.{◌≡◌, ◌≤◌, ◌+◌, ◌-◌, ◌<◌, ◌++◌, Some, length, take, min, OnOk};
ghost use Rattle.fd_outcome.specs.Outcome.{generated_messages};

use fd_bytes::NoMemory;
use fd_gen::generated;
use fd_io::Source;
use std::alloc::Global;

/// An allocation for a message that is made up was refused.
#[derive(Clone, Copy, Debug, PartialEq, Eq)]
pub struct Unmade;

/// The first so many generated messages, one after the other, of which one at a time is made.
#[derive(Drop)]
pub struct MadeMessages {
    alloc: Global,
    message: Vec<u8>,
    at: usize,
    next: u32,
    rest: u32,
    failed: u64,
    ghost few: { next + rest ≤ 100000 },
}

impl MadeMessages {
    ghost use Rattle.fd_trial.specs.Made.{made_left, made_faults};

    /// A source of the first so many generated messages, none of which is made yet.
    pub fn new(alloc: Global, count: u32) -> MadeMessages
        requires { count ≤ 100000 }
        ensures left { made_left result ≡ generated_messages count }
        ensures faults { made_faults result ≡ 0 }
    {
        MadeMessages {
            alloc,
            message: Vec::new(alloc),
            at: 0,
            next: 0,
            rest: count,
            failed: 0,
        }
    }

    /// Makes the next message in the place of one that was given whole.
    fn make(&mut self) -> Result<(), NoMemory>
        requires given { length self.old.message.items ≤ self.old.at }
        requires more { 0 < self.old.rest }
        ensures left { made_left self.new ≡ made_left self.old }
        ensures some { OnOk result (self.new.at < length self.new.message.items) }
        ensures faults { self.new.failed ≡ self.old.failed }
    {
        let message = generated(self.alloc, self.next as u64)?;
        self.message = message;
        self.at = 0;
        self.next += 1;
        self.rest -= 1;
        Ok(())
    }

    /// Gives the next bytes of the message that is made, as many as the slice has room for.
    fn give(&mut self, into: &mut [u8]) -> usize
        requires within { self.old.at ≤ length self.old.message.items }
        ensures bound { result ≤ length into.new }
        ensures given { made_left self.old ≡ take result into.new ++ made_left self.new }
        ensures all { result ≡ min (length self.old.message.items - self.old.at) (length into.old) }
        ensures faults { self.new.failed ≡ self.old.failed }
    {
        let (_, rest) = self.message.split_at(self.at);
        let n = rest.len().min(into.len());
        let (front, _) = rest.split_at(n);
        into[..n].copy_from_slice(front);
        self.at += n;
        n
    }
}

impl Source<Unmade> for MadeMessages {
    ghost use Rattle.fd_trial.specs.Made.{made_left, made_faults};

    ghost left = { λ s. Some (made_left s) };

    ghost faults = { made_faults };

    fn read(&mut self, into: &mut [u8]) -> Result<usize, Unmade> {
        if self.at >= self.message.len() {
            if self.rest == 0 {
                return Ok(0);
            }
            if self.make().is_err() {
                self.failed = self.failed.saturating_add(1);
                return Err(Unmade);
            }
        }
        Ok(self.give(into))
    }
}
