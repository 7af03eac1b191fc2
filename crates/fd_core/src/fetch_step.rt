ghost use Rattle.std.specs.Prelude.{◌≡◌, ◌≤◌, ◌<◌, length, false, MatchOption, Some, None, IfOk};
ghost use Rattle.fd_machine.specs.{Machine.{fetched, of_slot, seen_by}, Took.{took_of}, declared.machine.Step.TheVariants.{Fetch}};

use crate::open_steps::file_name;
use crate::{Answer, Seen, State, Took};
use fd_bytes::{Bytes, Items, NoMemory};
use fd_disk::FileKind;
use fd_entries::{entry_at, newest_in};
use fd_machine::files;
use std::alloc::Global;

/// A reader asks for the newest bytes of a key among the batches that it has seen.
pub(crate) fn fetch(alloc: Global, state: &State, r: u32, key: &[u8]) -> Result<Took, NoMemory>
    ensures { IfOk result (λ t. t ≡ took_of state.now (Fetch r key.now)) }
{
    if state.down {
        return Ok(Took::No);
    }
    let Some(length) = seen_by(&state.readers, r) else {
        return Ok(Took::No);
    };
    match newest_of(state, length, key) {
        Some(bytes) => Ok(Took::Answer(Answer::Found(Bytes::from_slice(alloc, bytes)?))),
        None => Ok(Took::Answer(Answer::Miss)),
    }
}

/// The number of batches that the reader has seen.
fn seen_by(readers: &Items<Seen>, r: u32) -> Option<u32>
    ensures { result ≡ seen_by readers.now r }
{
    for i in 0..readers.len() {
        if readers.at(i).reader == r {
            return Some(readers.at(i).length);
        }
    }
    None
}

/// What the first slots of the table give for a key, the newest first.
fn newest_of<'a>(state: &'a State, count: u32, key: &[u8]) -> Option<&'a [u8]>
    requires up { state.now.down ≡ false }
    requires listed { count ≤ length state.now.history }
    ensures { MatchOption result (fetched state.now count key.now ≡ None) (λ b. fetched state.now count key.now ≡ Some b.now) }
{
    for i in (0..count as usize).rev() {
        let found = of_slot(state, i, key);
        if found.is_some() {
            return found;
        }
    }
    None
}

/// What the files of the entry in a slot give for a key.
fn of_slot<'a>(state: &'a State, slot: usize, key: &[u8]) -> Option<&'a [u8]>
    requires up { state.now.down ≡ false }
    requires listed { slot < length state.now.history }
    ensures { MatchOption result (of_slot state.now slot key.now ≡ None) (λ b. of_slot state.now slot key.now ≡ Some b.now) }
{
    let entry = entry_at(state.table.reads.as_slice(), slot);
    let index = files::reads_of(&state.files, file_name(&entry, FileKind::Index));
    let fields = files::reads_of(&state.files, file_name(&entry, FileKind::Fields));
    newest_in(index, fields, key)
}
