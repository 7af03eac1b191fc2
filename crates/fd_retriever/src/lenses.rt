ghost use Rattle.std.specs.Prelude.{◌≡◌, ◌≤◌, ◌⊎◌, List, [], length, Contains, IfOk, IfSome};
ghost use Rattle.fd_entries.specs.declared.batch.Listing.{Listing};
ghost use Rattle.fd_segment.specs.Held.{Standing};
ghost use Rattle.fd_retriever.specs.Kept.{AreThose, Fits, Kept};

use fd_bytes::NoMemory;
use fd_disk::Sealed;
use fd_segment::Lens;
use lru::LruCache;
use std::alloc::Global;
use std::marker::Model;
use std::num::NonZeroUsize;

/// The opened segments of one dataset, at most 64, by their numbers.
pub struct Lenses<F: Send, Z: Sealed<F>> {
    cache: LruCache<u32, Lens<F, Z::Reader>>,
}

impl<F: Send, Z: Sealed<F>> Model for Lenses<F, Z> {
    ghost use Rattle.std.specs.Prelude.{◌≡◌, List, map};
    ghost use Rattle.fd_retriever.specs.Kept.{Kept};

    ghost Value = { List Kept };

    ghost view = { λ l. map (λ e. record { number = e.0; files = e.1.files }) l.cache.entries };

    ghost invariant = { λ l. l.cache.cap ≡ 64 };
}

impl<F: Send, Z: Sealed<F>> Drop for Lenses<F, Z> {
    fn drop(self) {
        let Lenses { cache: _ } = self;
    }
}

impl<F: Send, Z: Sealed<F>> Lenses<F, Z> {
    /// No opened segments yet, and room for 64. They fit every snapshot.
    pub fn new(alloc: Global) -> Result<Lenses<F, Z>, NoMemory>
        ensures empty { IfOk result (λ l. l ≡ []) }
        ensures fits { IfOk result (λ l. (ls : List Listing) → Fits l ls) }
        ensures those { IfOk result (λ l. (ss : List Standing) → AreThose l ss) }
    {
        let Some(most) = NonZeroUsize::new(64) else {
            unreachable!()
        };
        let cache = LruCache::new(alloc, most)?;
        Ok(Lenses { cache })
    }

    /// The number of opened segments that are kept.
    pub fn len(&self) -> usize
        ensures count { result ≡ length self.now }
        ensures few { result ≤ 64 }
    {
        self.cache.len()
    }

    /// Takes the opened segment of a number out, where one is kept.
    pub(crate) fn take(&mut self, number: u32) -> Option<Lens<F, Z::Reader>>
        ensures files { IfSome result (λ l. Contains self.old (record { number = number; files = l.files })) }
        ensures kept { (k : Kept) → Contains self.new k → Contains self.old k }
    {
        self.cache.pop(&number)
    }

    /// Keeps an opened segment under its number. Where there is no memory it is let go.
    pub(crate) fn keep(&mut self, number: u32, lens: Lens<F, Z::Reader>)
        ensures { (k : Kept) → Contains self.new k → Contains self.old k ⊎ (k ≡ record { number = number; files = lens.files }) }
    {
        let _ = self.cache.put(number, lens);
    }
}
