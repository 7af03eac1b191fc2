ghost use Rattle.std.specs.Prelude.{◌≡◌, ◌+◌, ◌<◌, ◌≤◌, ◌^◌, ◌++◌, length, replicate, IfOk, OnOk};
ghost use Rattle.fd_index.specs.{Records.{AllFit}, Pages.{closed, index_of, pages_bytes, pages_of, record_bytes}, Slots.{AreWithin, records_of}};

use crate::slots::Slot;
use fd_bytes::NoMemory;
use fd_region::Region;
use std::alloc::Global;

/// The bytes of a page behind its count.
const ROOM: usize = 4094;

/// How many bytes the record of a key takes.
fn size_of(key: &[u8]) -> usize
    requires { length key.now ≤ 256 }
    ensures { result ≡ 18 + length key.now }
{
    18 + key.len()
}

#[tactic(auto, unfolding(crate::specs::Pages::record_bytes))]
fn put_record(out: &mut Vec<u8>, key: &[u8], at: u64, len: u64) -> Result<(), NoMemory>
    requires { length key.now ≤ 256 }
    ensures { OnOk result (out.new.items ≡ out.old.items ++ record_bytes (record { key = key.now; at = at; len = len })) }
{
    out.extend_from_slice(&(key.len() as u16).to_be_bytes())?;
    out.extend_from_slice(key)?;
    out.extend_from_slice(&at.to_be_bytes())?;
    out.extend_from_slice(&len.to_be_bytes())?;
    Ok(())
}

fn push_zeros(out: &mut Vec<u8>, count: usize) -> Result<(), NoMemory>
    ensures { OnOk result (out.new.items ≡ out.old.items ++ replicate count 0) }
{
    for _ in 0..count {
        out.push(0)?;
    }
    Ok(())
}

/// A page: how many records, the records, zeros.
fn put_page(out: &mut Vec<u8>, count: u16, text: &[u8]) -> Result<(), NoMemory>
    requires { length text.now ≤ 4094 }
    ensures { OnOk result (out.new.items ≡ out.old.items ++ closed count text.now) }
{
    out.extend_from_slice(&count.to_be_bytes())?;
    out.extend_from_slice(text)?;
    push_zeros(out, ROOM - text.len())
}

/// The pages of the records, one after the other, and how many they are. Without a record there are none.
fn put_pages(
    alloc: Global,
    out: &mut Vec<u8>,
    texts: &Region,
    slots: &[Slot],
) -> Result<u32, NoMemory>
    requires small { length slots.now < 2 ^ 32 }
    requires within { AreWithin texts.now.texts slots.now }
    requires fit { AllFit (records_of texts.now.texts slots.now) }
    ensures bytes { OnOk result (out.new.items ≡ out.old.items ++ pages_bytes (pages_of (records_of texts.now.texts slots.now))) }
    ensures count { IfOk result (λ n. n ≡ length (pages_of (records_of texts.now.texts slots.now))) }
{
    if slots.is_empty() {
        return Ok(0);
    }
    let mut text = Vec::new(alloc);
    let mut count: u16 = 0;
    let mut pages: u32 = 1;
    for slot in slots {
        let key = texts.text(slot.id);
        if ROOM - text.len() < size_of(key) {
            put_page(out, count, &text)?;
            text.clear();
            count = 0;
            pages += 1;
        }
        put_record(&mut text, key, slot.at, slot.len)?;
        count += 1;
    }
    put_page(out, count, &text)?;
    Ok(pages)
}

/// The index file of some records.
#[tactic(auto, unfolding(crate::specs::Pages::index_of))]
pub(crate) fn file_of(alloc: Global, texts: &Region, slots: &[Slot]) -> Result<Vec<u8>, NoMemory>
    requires small { length slots.now < 2 ^ 32 }
    requires within { AreWithin texts.now.texts slots.now }
    requires fit { AllFit (records_of texts.now.texts slots.now) }
    ensures { IfOk result (λ v. v.items ≡ index_of (records_of texts.now.texts slots.now)) }
{
    let mut out = Vec::new(alloc);
    out.extend_from_slice(b"FDIDX001")?;
    let pages = put_pages(alloc, &mut out, texts, slots)?;
    out.extend_from_slice(&(slots.len() as u64).to_be_bytes())?;
    out.extend_from_slice(&pages.to_be_bytes())?;
    out.extend_from_slice(b"FEND")?;
    Ok(out)
}
