// A reader that reads ahead.
ghost use Rattle.std.specs.{Prelude.{◌≡◌, ◌≤◌, ◌-◌, ◌+◌, take, drop, vec_len, IfOk, IsTrue}, Option.{ForSome}};

use crate::copying::copied;
use fd_bytes::NoMemory;
use fd_disk::Reader;
use std::alloc::Global;
use std::marker::PhantomData;

/// A reader of a sealed file that reads ahead. A read is answered out of what was read ahead where that has all that is
/// wanted. Else a large one goes to the reader that it holds, and so does a short one that doesn't begin where the last one
/// ended; for any other as many bytes as there is room for are read at once, from its place on. The file changes no more, so
/// what was read ahead stays right.
pub struct Ahead<F: Send, R: Reader<F>> {
    inner: R,
    /// The room, in whose front stands what was read ahead.
    ahead: Vec<u8>,
    /// How many bytes were read ahead, and the place of the first.
    filled: usize,
    start: u64,
    /// The shortest read for which more is read, wherever it begins.
    least: usize,
    /// Where the last read ended; before the first one no place.
    next: u64,
    reads: u64,
    asked: u64,
    of: PhantomData<F>,
    ghost held: { filled ≤ vec_len ahead },
    ghost within: { filled ≤ R.len inner - start },
    ghost right: { ForSome (R.bytes inner) (λ b. take filled ahead.items ≡ take filled (drop start b)) },
}

impl<F: Send, R: Reader<F>> Drop for Ahead<F, R> {
    fn drop(self) {
        let Ahead {
            inner: _,
            ahead: _,
            filled: _,
            start: _,
            least: _,
            next: _,
            reads: _,
            asked: _,
            of: _,
        } = self;
    }
}

impl<F: Send, R: Reader<F>> Ahead<F, R> {
    /// Reads ahead over this reader: for reads of at least so many bytes, and for those that begin where the last one ended, as
    /// many as there is room for. The room is made now.
    pub fn new(alloc: Global, inner: R, least: usize, room: usize) -> Result<Ahead<F, R>, NoMemory>
        ensures bytes { IfOk result (λ a. ⟦<Ahead<F, R> as Reader<F>>⟧.bytes a ≡ R.bytes inner) }
        ensures len { IfOk result (λ a. ⟦<Ahead<F, R> as Reader<F>>⟧.len a ≡ R.len inner) }
        ensures faults { IfOk result (λ a. ⟦<Ahead<F, R> as Reader<F>>⟧.faults a ≡ R.faults inner) }
        ensures new { IfOk result (λ a. (⟦<Ahead<F, R> as Reader<F>>⟧.reads a ≡ 0) × (⟦<Ahead<F, R> as Reader<F>>⟧.asked a ≡ 0)) }
    {
        let mut ahead = Vec::new(alloc);
        ahead.resize(room, 0)?;
        Ok(Ahead {
            inner,
            ahead,
            filled: 0,
            start: 0,
            least,
            next: u64::MAX,
            reads: 0,
            asked: 0,
            of: PhantomData,
        })
    }
}

// Whether so many bytes that stand from a place on have all that is wanted from another one on.
fn has(filled: usize, start: u64, at: u64, wanted: usize) -> bool
    ensures { IsTrue result → (start ≤ at) × (at - start + wanted ≤ filled) }
{
    let filled = filled as u64;
    at >= start && at - start <= filled && wanted as u64 <= filled - (at - start)
}

impl<F: Send, R: Reader<F>> Reader<F> for Ahead<F, R> {
    ghost bytes = { λ a. R.bytes a.inner };

    ghost len = { λ a. R.len a.inner };

    ghost faults = { λ a. R.faults a.inner };

    ghost reads = { λ a. a.reads };

    ghost asked = { λ a. a.asked };

    ghost len_told = { λ a b is. R.len_told a.inner b is };

    fn read_at(&mut self, at: u64, into: &mut [u8]) -> Result<usize, F> {
        self.reads = self.reads.saturating_add(1);
        self.asked = self.asked.saturating_add(into.len() as u64);
        let is_next = at == self.next;
        self.next = at.saturating_add(into.len() as u64);
        if has(self.filled, self.start, at, into.len()) {
            let from = (at - self.start) as usize;
            return Ok(copied(&self.ahead[..self.filled], from, into));
        }
        if into.len() >= self.ahead.len() || (into.len() < self.least && !is_next) {
            return self.inner.read_at(at, into);
        }
        self.filled = 0;
        self.start = at;
        self.filled = self.inner.read_at(at, &mut self.ahead)?;
        Ok(copied(&self.ahead[..self.filled], 0, into))
    }
}
