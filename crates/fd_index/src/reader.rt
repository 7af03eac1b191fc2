ghost use Rattle.std.specs.Prelude.{◌≡◌, ◌==◌, ◌&&◌, nat_lt, ◌+◌, ◌*◌, ◌≤◌, ◌^◌, length, IfOk};
ghost use Rattle.fd_index.specs.{StoredRecords.{records_of}, Reading.{counts_of, index_at, is_above, key_len_at, number_2, number_4, number_8, page_at, pages_at, record_at, records_at, record_of, zeros_at}, Index.{Gives, PutsAll, PutsInto, PutsPage}, StoredRecords.{record_of as kept}};

use crate::fault::IndexFault;
use crate::stored::Stored;
use fd_bytes::NoMemory;
use std::alloc::Global;

/// The length of the footer.
const FOOTER: usize = 16;

/// The length of a page.
const PAGE: usize = 4096;

fn number_2(bytes: &[u8]) -> u16
    requires { 2 ≤ length bytes.now }
    ensures { result ≡ number_2 bytes.now }
{
    u16::from_be_bytes([bytes[0], bytes[1]])
}

fn number_4(bytes: &[u8]) -> u32
    requires { 4 ≤ length bytes.now }
    ensures { result ≡ number_4 bytes.now }
{
    u32::from_be_bytes([bytes[0], bytes[1], bytes[2], bytes[3]])
}

fn number_8(bytes: &[u8]) -> u64
    requires { 8 ≤ length bytes.now }
    ensures { result ≡ number_8 bytes.now }
{
    let (front, _) = bytes.split_at(8);
    u64::from_be_bytes([
        front[0], front[1], front[2], front[3], front[4], front[5], front[6], front[7],
    ])
}

/// The length of the key of the record at the front of what is left of a page that ends at this place.
#[tactic(auto, unfolding(crate::specs::Reading::key_len_at))]
fn key_len_of(end: u64, bytes: &[u8]) -> Result<usize, IndexFault>
    requires { length bytes.now ≤ end }
    ensures len { Gives (λ n. n) (key_len_at end bytes.now) result }
    ensures fits { IfOk result (λ n. 18 + n ≤ length bytes.now) }
{
    let at = end - bytes.len() as u64;
    if bytes.len() < 2 {
        return Err(IndexFault::BadIndex { at });
    }
    let len = usize::from(number_2(bytes));
    if 256 < len || bytes.len() < 18 + len {
        return Err(IndexFault::BadIndex { at });
    }
    Ok(len)
}

/// The record whose key has this length.
fn record_from(alloc: Global, len: usize, bytes: &[u8]) -> Result<Stored, NoMemory>
    requires { 18 + len ≤ length bytes.now }
    ensures { IfOk result (λ s. kept s ≡ record_of len bytes.now) }
{
    let (_, rest) = bytes.split_at(2);
    let (key, _) = rest.split_at(len);
    let (_, place) = bytes.split_at(2 + len);
    let (_, length) = bytes.split_at(10 + len);
    Ok(Stored {
        key: Vec::from_slice(alloc, key)?,
        at: number_8(place),
        len: number_8(length),
    })
}

/// Tells that the key is above that of the last record.
fn is_above(records: &[Stored], key: &[u8]) -> bool
    ensures { result ≡ is_above (records_of records.now) key.now }
{
    match records.last() {
        Some(last) => last.key.as_slice() < key,
        None => true,
    }
}

/// All that is left is 0.
fn zeros_of(end: u64, bytes: &[u8]) -> Result<(), IndexFault>
    requires { length bytes.now ≤ end }
    ensures { Gives (λ _. tt) (zeros_at end bytes.now) result }
{
    for (i, b) in bytes.iter().enumerate() {
        if *b != 0 {
            return Err(IndexFault::BadIndex {
                at: end - (bytes.len() - i) as u64,
            });
        }
    }
    Ok(())
}

/// Reads the record at the front of what is left of a page that ends at this place, behind the records before it. What
/// is left of the page.
#[tactic(auto, unfolding(crate::specs::Reading::record_at))]
fn push_record<'a>(
    alloc: Global,
    records: &mut Vec<Stored>,
    end: u64,
    bytes: &'a [u8],
) -> Result<&'a [u8], IndexFault>
    requires { length bytes.now ≤ end }
    ensures one { PutsInto (record_at end (records_of records.old.items) bytes.now) (records_of records.new.items) result }
    ensures less { IfOk result (λ left. length left.now ≤ length bytes.now) }
{
    let len = key_len_of(end, bytes)?;
    let (_, behind) = bytes.split_at(2);
    let (key, _) = behind.split_at(len);
    if !is_above(records, key) {
        return Err(IndexFault::BadIndex {
            at: end - bytes.len() as u64 + 2,
        });
    }
    let (_, left) = bytes.split_at(18 + len);
    records.push(record_from(alloc, len, bytes)?)?;
    Ok(left)
}

/// Reads so many records, behind those before them. What is left of the page.
fn push_records<'a>(
    alloc: Global,
    records: &mut Vec<Stored>,
    count: u16,
    end: u64,
    bytes: &'a [u8],
) -> Result<&'a [u8], IndexFault>
    requires { length bytes.now ≤ end }
    ensures all { PutsInto (records_at count end (records_of records.old.items) bytes.now) (records_of records.new.items) result }
    ensures less { IfOk result (λ left. length left.now ≤ length bytes.now) }
{
    let mut left = bytes;
    for _ in 0..count {
        left = match push_record(alloc, records, end, left) {
            Ok(rest) => rest,
            Err(fault) => return Err(fault),
        };
    }
    Ok(left)
}

/// Reads a page that ends at this place, behind the records before it; the page before has this room. The room that its
/// records leave.
#[tactic(auto, unfolding(crate::specs::Reading::page_at))]
pub(crate) fn push_page(
    alloc: Global,
    records: &mut Vec<Stored>,
    end: u64,
    room: usize,
    page: &[u8],
) -> Result<usize, IndexFault>
    requires whole { length page.now ≡ 4096 }
    requires place { 4096 ≤ end }
    ensures { PutsPage (page_at end room (records_of records.old.items) page.now) (records_of records.new.items) result }
{
    let count = number_2(page);
    if count == 0 {
        return Err(IndexFault::BadIndex { at: end - 4096 });
    }
    let (_, text) = page.split_at(2);
    let len = key_len_of(end, text)?;
    if 18 + len <= room {
        return Err(IndexFault::BadIndex { at: end - 4094 });
    }
    let left = push_records(alloc, records, count, end, text)?;
    zeros_of(end, left)?;
    Ok(left.len())
}

/// Reads so many pages, of which the last ends at this place.
fn push_pages(
    alloc: Global,
    records: &mut Vec<Stored>,
    count: usize,
    end: u64,
    pages: &[u8],
) -> Result<(), IndexFault>
    requires whole { length pages.now ≡ 4096 * count }
    requires place { length pages.now ≤ end }
    ensures { PutsAll (pages_at count end 0 (records_of records.old.items) pages.now) (records_of records.new.items) result }
{
    let mut left = pages;
    let mut room = 0;
    for _ in 0..count {
        let (page, rest) = left.split_at(PAGE);
        room = match push_page(alloc, records, end - rest.len() as u64, room, page) {
            Ok(after) => after,
            Err(fault) => return Err(fault),
        };
        left = rest;
    }
    Ok(())
}

/// The sum of the counts of so many pages.
fn sum_of_counts(count: usize, pages: &[u8]) -> u128
    requires { length pages.now ≡ 4096 * count }
    ensures { result ≡ counts_of count pages.now }
{
    let mut left = pages;
    let mut sum = 0;
    for _ in 0..count {
        let (page, rest) = left.split_at(PAGE);
        sum += u128::from(number_2(page));
        left = rest;
    }
    sum
}

/// Tells that the number of records in the footer is the sum of the pages' counts, and below 2^32.
fn is_count(number: u64, sum: u128) -> bool
    ensures { result ≡ (number == sum && nat_lt sum (2 ^ 32)) }
{
    u128::from(number) == sum && sum < 1 << 32
}

/// The records of an index file.
#[tactic(auto, unfolding(crate::specs::Reading::index_at))]
pub(crate) fn read_records(alloc: Global, bytes: &[u8]) -> Result<Vec<Stored>, IndexFault>
    ensures { Gives (λ v. records_of v.items) (index_at bytes.now) result }
{
    let len = bytes.len();
    if len < 24 || (len - 24) % PAGE != 0 {
        return Err(IndexFault::BadIndex { at: 0 });
    }
    let (head, behind) = bytes.split_at(8);
    if head != b"FDIDX001".as_slice() {
        return Err(IndexFault::BadIndex { at: 0 });
    }
    let (_, mark) = bytes.split_at(len - 4);
    if mark != b"FEND".as_slice() {
        return Err(IndexFault::BadIndex {
            at: (len - 4) as u64,
        });
    }
    let (_, pages) = bytes.split_at(len - 8);
    let count = (len - 24) / PAGE;
    if number_4(pages) as usize != count {
        return Err(IndexFault::BadIndex {
            at: (len - 8) as u64,
        });
    }
    let (_, number) = bytes.split_at(len - FOOTER);
    let (body, _) = behind.split_at(len - 24);
    if !is_count(number_8(number), sum_of_counts(count, body)) {
        return Err(IndexFault::BadIndex {
            at: (len - FOOTER) as u64,
        });
    }
    let mut records = Vec::new(alloc);
    push_pages(alloc, &mut records, count, (len - FOOTER) as u64, body)?;
    Ok(records)
}
