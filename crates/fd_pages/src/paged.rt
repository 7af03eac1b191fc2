ghost use Rattle.std.specs.Prelude.{◌≡◌, ◌≤◌, ◌<◌, ◌+◌, ◌*◌, length, Err, IfOk, IfErr, IfSome, take};
ghost use Rattle.fd_bytes.specs.Causes.{Rose};
ghost use Rattle.fd_disk.specs.Reading.{raised};
ghost use Rattle.fd_pages.specs.{Causes.{OnFault, OnBadIndex}, Paging.{HasRead, digits}, Parts.{HasFrame, IsBadPage, IsFrameFault, IsNoIndex, IsPageOf, IsPlace, IsSeen, is_before, page_in, pages_by}};

use crate::fault::PagedFault;
use crate::frame::pages_of_frame;
use crate::reading::read_part;
use fd_disk::Reader;
use fd_index::{Index, IndexFault};
use lru::LruCache;
use std::alloc::Global;
use std::marker::{Model, PhantomData};
use std::num::NonZeroUsize;

/// The length of a page.
const PAGE: usize = 4096;

/// An index file that is read page by page. Contracts see the file, and the counts of its reader.
pub struct Paged<F: Send, R: Reader<F>> {
    reader: R,
    len: u64,
    pages: u32,
    cache: LruCache<u32, Index>,
    of: PhantomData<F>,
}

impl<F: Send, R: Reader<F>> Model for Paged<F, R> {
    ghost use Rattle.std.specs.Prelude.{◌≡◌, ◌≤◌};
    ghost use Rattle.fd_pages.specs.{Paging.{Paging}, Parts.{AreKept, IsShape, pages_by}};

    ghost Value = { Paging };

    ghost view = { λ p. record {
      bytes = R.bytes p.reader;
      len = p.len;
      faults = R.faults p.reader;
      reads = R.reads p.reader;
      asked = R.asked p.reader;
    } };

    ghost invariant = { λ p. (p.len ≤ R.len p.reader) × IsShape p.len × (p.pages ≡ pages_by p.len) × (p.cache.cap ≡ 8) × AreKept (R.bytes p.reader) p.cache.entries };
}

impl<F: Send, R: Reader<F>> Drop for Paged<F, R> {
    fn drop(self) {
        let Paged {
            reader: _,
            len: _,
            pages: _,
            cache: _,
            of: _,
        } = self;
    }
}

/// Tells that the key comes before those of a page.
fn is_before(page: &Index, key: &[u8]) -> bool
    requires { 0 < length page.now }
    ensures { result ≡ is_before page.now key.now }
{
    let (first, _, _) = page.record(0);
    key < first
}

/// Reads a page by itself, the page ending at this place.
fn read_page<F: Send, R: Reader<F>>(
    alloc: Global,
    reader: &mut R,
    number: u32,
) -> Result<Index, PagedFault<F>>
    requires { 4104 + 4096 * number ≤ R.len reader.old }
    ensures page { IfOk result (IsPageOf (R.bytes reader.old) number) }
    ensures bad { IfErr result (λ e. OnBadIndex e (λ at. IfSome (R.bytes reader.old) (λ b. page_in b number ≡ Err at))) }
    ensures bytes { R.bytes reader.new ≡ R.bytes reader.old }
    ensures len { R.len reader.new ≡ R.len reader.old }
    ensures reads { R.reads reader.new ≡ raised (R.reads reader.old) 1 }
    ensures asked { R.asked reader.new ≡ raised (R.asked reader.old) 4096 }
    ensures later { R.faults reader.old ≤ R.faults reader.new }
    ensures cause { IfErr result (λ e. OnFault e (Rose (R.faults reader.old) (R.faults reader.new))) }
{
    let at = 8 + PAGE as u64 * u64::from(number);
    let mut page = [0; PAGE];
    if let Err(fault) = read_part(reader, at, &mut page) {
        return Err(fault);
    }
    match Index::read_page(alloc, at + PAGE as u64, &page) {
        Ok(index) => Ok(index),
        Err(IndexFault::BadIndex { at }) => Err(PagedFault::BadIndex { at }),
        Err(IndexFault::NoMemory) => Err(PagedFault::NoMemory),
    }
}

impl<F: Send, R: Reader<F>> Paged<F, R> {
    /// Opens the index file that the first bytes of the reader's file are, as many as the length says: reads its first
    /// eight bytes and its footer. `BadIndex` comes exactly where the length, these eight bytes, the footer's mark or its
    /// number of pages isn't in the format, with the place of the first of them that isn't.
    pub fn start(alloc: Global, reader: R, len: u64) -> Result<Paged<F, R>, PagedFault<F>>
        requires { len ≤ R.len reader }
        ensures file { IfOk result (λ p. (p.bytes ≡ R.bytes reader) × (p.len ≡ len)) }
        ensures frame { IfOk result (λ p. IfSome (R.bytes reader) (λ b. HasFrame (take len b))) }
        ensures bad { IfErr result (λ e. OnBadIndex e (λ at. IfSome (R.bytes reader) (λ b. IsFrameFault (take len b) at))) }
        ensures reads { IfOk result (λ p. (p.reads ≡ raised (R.reads reader) 2) × (p.asked ≡ raised (R.asked reader) 24)) }
        ensures later { IfOk result (λ p. R.faults reader ≤ p.faults) }
    {
        if len < 24 || (len - 24) % PAGE as u64 != 0 {
            return Err(PagedFault::BadIndex { at: 0 });
        }
        let Some(most) = NonZeroUsize::new(8) else {
            unreachable!()
        };
        let Ok(cache) = LruCache::new(alloc, most) else {
            return Err(PagedFault::NoMemory);
        };
        let mut reader = reader;
        let mut head = [0; 8];
        read_part(&mut reader, 0, &mut head)?;
        let mut footer = [0; 16];
        read_part(&mut reader, len - 16, &mut footer)?;
        match pages_of_frame(len, &head, &footer) {
            Ok(pages) => Ok(Paged {
                reader,
                len,
                pages,
                cache,
                of: PhantomData,
            }),
            Err(at) => Err(PagedFault::BadIndex { at }),
        }
    }
}

impl<F: Send, R: Reader<F>> Paged<F, R> {
    /// Takes a page out of those that are kept, or reads it where it isn't kept.
    fn take_page(&mut self, alloc: Global, number: u32) -> Result<Index, PagedFault<F>>
        requires { number < pages_by self.old.len }
        ensures page { IfOk result (IsPageOf self.old.bytes number) }
        ensures bad { IfErr result (λ e. OnBadIndex e (λ at. IfSome self.old.bytes (λ b. page_in b number ≡ Err at))) }
        ensures file { (self.new.bytes ≡ self.old.bytes) × (self.new.len ≡ self.old.len) }
        ensures few { HasRead 1 self.old self.new }
        ensures later { self.old.faults ≤ self.new.faults }
        ensures cause { IfErr result (λ e. OnFault e (Rose self.old.faults self.new.faults)) }
    {
        if let Some(page) = self.cache.pop(&number) {
            return Ok(page);
        }
        read_page(alloc, &mut self.reader, number)
    }

    /// Keeps a page under its number. Where there is no memory it is let go.
    fn keep_page(&mut self, number: u32, page: Index)
        requires { IsPageOf self.old.bytes number page }
        ensures { self.new ≡ self.old }
    {
        let _ = self.cache.put(number, page);
    }

    /// The place and the length of the key's field, if the index has the key, by halving the numbers of the pages: as
    /// many reads as the number of pages has binary digits, at most. `BadIndex` comes only where a page that was read
    /// isn't in the format by itself, and names the place of its first field that isn't.
    pub fn find(&mut self, alloc: Global, key: &[u8]) -> Result<Option<(u64, u64)>, PagedFault<F>>
        ensures place { IfOk result (IsPlace self.old.bytes self.old.len key.now) }
        ensures seen { IfOk result (IsSeen self.old.bytes self.old.len key.now) }
        ensures bad { IfErr result (λ e. OnBadIndex e (IsBadPage self.old.bytes self.old.len)) }
        ensures refused { IfErr result (λ e. OnBadIndex e (λ _. IsNoIndex self.old.bytes self.old.len)) }
        ensures file { (self.new.bytes ≡ self.old.bytes) × (self.new.len ≡ self.old.len) }
        ensures few { HasRead (digits (pages_by self.old.len)) self.old self.new }
        ensures later { self.old.faults ≤ self.new.faults }
        ensures cause { IfErr result (λ e. OnFault e (Rose self.old.faults self.new.faults)) }
    {
        let mut low = 0;
        let mut high = self.pages;
        'halves: while low < high {
            let middle = low + (high - low) / 2;
            let page = match self.take_page(alloc, middle) {
                Ok(page) => page,
                Err(fault) => return Err(fault),
            };
            let before = is_before(&page, key);
            let place = page.find(key);
            self.keep_page(middle, page);
            if before {
                high = middle;
            } else if place.is_some() {
                return Ok(place);
            } else {
                low = middle + 1;
            }
        }
        Ok(None)
    }

    /// The bytes of the whole index file, by one read.
    pub fn read_all(&mut self, alloc: Global) -> Result<Vec<u8>, PagedFault<F>>
        ensures bytes { IfOk result (λ v. IfSome self.old.bytes (λ b. v.items ≡ take self.old.len b)) }
        ensures whole { IfSome self.old.bytes (λ b. self.old.len ≤ length b) }
        ensures bad { IfErr result (λ e. OnBadIndex e (λ _. ⊥)) }
        ensures file { (self.new.bytes ≡ self.old.bytes) × (self.new.len ≡ self.old.len) }
        ensures later { self.old.faults ≤ self.new.faults }
        ensures cause { IfErr result (λ e. OnFault e (Rose self.old.faults self.new.faults)) }
    {
        let mut bytes = Vec::new(alloc);
        if bytes.resize(self.len as usize, 0).is_err() {
            return Err(PagedFault::NoMemory);
        }
        match read_part(&mut self.reader, 0, &mut bytes) {
            Ok(()) => Ok(bytes),
            Err(fault) => Err(fault),
        }
    }
}
