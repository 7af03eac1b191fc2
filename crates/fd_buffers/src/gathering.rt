// A file whose small writes are gathered.
ghost use Rattle.std.specs.{Prelude.{◌≡◌, ◌≤◌, ◌<◌, ◌+◌, ◌^◌, ◌++◌, length, vec_len, vec_capacity, IfOk, IsTrue}, Option.{ForSome}};
ghost use Rattle.fd_buffers.specs.{Gathered.{Covers}, Trails.{loose_by}};

use crate::trail::Trail;
use fd_bytes::NoMemory;
use fd_disk::Disk;
use std::alloc::Global;
use std::marker::PhantomData;
use std::snapshot::Snapshot;

/// A file over another one that gathers small writes. Writes that follow one another are gathered, and written to the file
/// below by the first call that needs it: a write elsewhere or without room, a read, a sync. Where that fails they stay
/// gathered. A write that is larger than the room goes straight to the file below.
pub struct Gathering<F: Send, T: Disk<F>> {
    inner: T,
    gathered: Vec<u8>,
    /// The place of the first gathered byte.
    start: u64,
    room: usize,
    trail: Trail<T>,
    of: PhantomData<F>,
    ghost reserved: { room ≤ vec_capacity gathered },
    ghost few: { vec_len gathered ≤ room },
    ghost small: { start + vec_len gathered < 2 ^ 63 },
    ghost covers: { ForSome (T.file inner) (Covers start (length gathered.items) (loose_by T.file trail)) },
}

impl<F: Send, T: Disk<F>> Drop for Gathering<F, T> {
    fn drop(self) {
        let Gathering {
            inner: _,
            gathered: _,
            start: _,
            room: _,
            trail: _,
            of: _,
        } = self;
    }
}

impl<F: Send, T: Disk<F>> Gathering<F, T> {
    /// Gathers up to so many bytes for this file. The room is made now.
    pub fn new(alloc: Global, inner: T, room: usize) -> Result<Gathering<F, T>, NoMemory>
        ensures file { IfOk result (λ d. ⟦<Gathering<F, T> as Disk<F>>⟧.file d ≡ T.file inner) }
        ensures synced { IfOk result (λ d. ⟦<Gathering<F, T> as Disk<F>>⟧.is_synced d ≡ T.is_synced inner) }
        ensures extent { IfOk result (λ d. ⟦<Gathering<F, T> as Disk<F>>⟧.extent d ≡ T.extent inner) }
        ensures name { IfOk result (λ d. ⟦<Gathering<F, T> as Disk<F>>⟧.name d ≡ T.name inner) }
        ensures made { IfOk result (λ d. ⟦<Gathering<F, T> as Disk<F>>⟧.made d ≡ T.made inner) }
        ensures moment { IfOk result (λ d. ⟦<Gathering<F, T> as Disk<F>>⟧.moment d ≡ T.moment inner) }
    {
        let gathered = Vec::with_capacity(alloc, room)?;
        let trail = Trail::Began(Snapshot::of(&inner));
        Ok(Gathering {
            inner,
            gathered,
            start: 0,
            room,
            trail,
            of: PhantomData,
        })
    }
}

impl<F: Send, T: Disk<F>> Disk<F> for Gathering<F, T> {
    ghost use Rattle.std.specs.Prelude.{◌⊎◌, ◌&&◌, ◌==◌, length};
    ghost use Rattle.std.proofs.Common.{inr, ⊎_elim};
    ghost use Rattle.fd_disk.specs.Moments.{MayLeave};
    ghost use Rattle.fd_buffers.specs.{Gathered.{reached, told}, Standing.{still_left, told_firm, told_reads}, Trails.{loose_by}};

    type Sealed = T::Sealed;

    ghost file = { λ d. told (T.file d.inner) d.start d.gathered.items (loose_by T.file d.trail) };

    ghost is_synced = { λ d. T.is_synced d.inner && (length d.gathered.items == 0) };

    ghost extent = { λ d. reached (T.extent d.inner) d.start (length d.gathered.items) };

    ghost moment = { λ d. T.moment d.inner };

    ghost left_since = { λ d t c. T.left_since d.inner t c ⊎ MayLeave (told (T.file d.inner) d.start d.gathered.items (loose_by T.file d.trail)) c };

    ghost faults = { λ d. T.faults d.inner };

    ghost name = { λ d. T.name d.inner };

    ghost made = { λ d. T.made d.inner };

    ghost counts_now = { λ d t c le image. inr image };

    ghost only_now = { λ d c left. ⊎_elim (λ below. still_left (T.file d.inner) d.start d.gathered.items (loose_by T.file d.trail) c d.covers (T.only_now d.inner c below)) (λ now. now) left };

    ghost reads_image = { λ d f is. told_reads (T.file d.inner) d.start d.gathered.items (loose_by T.file d.trail) f d.covers (T.reads_image d.inner) is };

    ghost synced_firm = { λ d f is synced. told_firm (T.file d.inner) (T.is_synced d.inner) d.start d.gathered.items (loose_by T.file d.trail) f d.covers (T.synced_firm d.inner) is synced };

    fn read_at(&mut self, at: u64, into: &mut [u8]) -> Result<usize, F> {
        if self.gathered.is_empty() {
            return self.inner.read_at(at, into);
        }
        self.inner.write_at(self.start, &self.gathered)?;
        self.gathered.clear();
        self.inner.read_at(at, into)
    }

    fn write_at(&mut self, at: u64, bytes: &[u8]) -> Result<(), F> {
        let len = bytes.len() as u64;
        if !self.gathered.is_empty() {
            if follows(self.start, &self.gathered, self.room, at, bytes) {
                append(&mut self.gathered, bytes);
                self.trail = Trail::Gathered(at, len, Snapshot::of(&self.trail));
                return Ok(());
            }
            self.inner.write_at(self.start, &self.gathered)?;
            self.gathered.clear();
        }
        if bytes.is_empty() || bytes.len() > self.room {
            let before = Snapshot::of(&self.inner);
            let result = self.inner.write_at(at, bytes);
            let after = Snapshot::of(&self.inner);
            self.trail = Trail::Tried(at, len, before, after, Snapshot::of(&self.trail));
            return result;
        }
        self.start = at;
        append(&mut self.gathered, bytes);
        self.trail = Trail::Gathered(at, len, Snapshot::of(&self.trail));
        Ok(())
    }

    fn sync(&mut self) -> Result<(), F> {
        if !self.gathered.is_empty() {
            let bytes = self.gathered.as_slice();
            self.inner.write_at(self.start, bytes)?;
            self.gathered.clear();
        }
        self.inner.sync()?;
        self.trail = Trail::Began(Snapshot::of(&self.inner));
        Ok(())
    }

    fn seal(self) -> T::Sealed {
        let Gathering {
            inner,
            gathered: _,
            start: _,
            room: _,
            trail: _,
            of: _,
        } = self;
        inner.seal()
    }
}

// Whether the bytes follow those that are gathered, and there is room for them.
fn follows(start: u64, gathered: &[u8], room: usize, at: u64, bytes: &[u8]) -> bool
    requires small { start + length gathered.now < 2 ^ 63 }
    requires few { length gathered.now ≤ room }
    ensures place { IsTrue result → at ≡ start + length gathered.now }
    ensures room { IsTrue result → length gathered.now + length bytes.now ≤ room }
    ensures some { IsTrue result → 0 < length bytes.now }
{
    !bytes.is_empty() && at == start + gathered.len() as u64 && bytes.len() <= room - gathered.len()
}

// Puts the bytes behind the gathered ones, in the room that was made for them.
fn append(gathered: &mut Vec<u8>, bytes: &[u8])
    requires { vec_len gathered.old + length bytes.now ≤ vec_capacity gathered.old }
    ensures items { gathered.new.items ≡ gathered.old.items ++ bytes.now }
    ensures len { vec_len gathered.new ≡ vec_len gathered.old + length bytes.now }
    ensures capacity { vec_capacity gathered.old ≤ vec_capacity gathered.new }
{
    match gathered.extend_from_slice(bytes) {
        Ok(()) => {}
        Err(_) => unreachable!(),
    }
}
