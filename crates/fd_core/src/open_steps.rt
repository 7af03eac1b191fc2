ghost use Rattle.std.specs.Prelude.{◌≡◌, map, IfOk, OnOk, OnErr};
ghost use Rattle.fd_machine.specs.{Machine.{after, batch_in}, Took.{AllHeld, IsHeld, took_of}, declared.machine.Step.TheVariants.{Reopen}};

use crate::{Files, State, Took};
use fd_bytes::{Items, NoMemory};
use fd_disk::{FileKind, FileName};
use fd_entries::{Batch, Entry, entries_of, read_pairs};
use fd_machine::files;
use std::alloc::Global;

/// The store is opened after a crash: the history is what the table lists, and files that no entry has go.
pub(crate) fn reopen(alloc: Global, state: &mut State) -> Result<Took, NoMemory>
    ensures took { IfOk result (λ t. t ≡ took_of state.old Reopen) }
    ensures ok { OnOk result (state.new ≡ after state.old Reopen) }
    ensures err { OnErr result (state.new ≡ state.old) }
{
    if !state.down {
        return Ok(Took::No);
    }
    let entries = entries_of(alloc, state.table.reads.as_slice())?;
    let history = batches_of(alloc, &state.files, &entries)?;
    files::keep_listed(&mut state.files, &entries);
    state.history = history;
    state.down = false;
    Ok(Took::Yes)
}

/// The batches that the files of these entries hold.
fn batches_of(
    alloc: Global,
    files: &Files,
    entries: &Items<Entry>,
) -> Result<Items<Batch>, NoMemory>
    requires { AllHeld files.now entries.now }
    ensures { IfOk result (λ bs. bs ≡ map (batch_in files.now) entries.now) }
{
    let mut batches = Items::new(alloc);
    for i in 0..entries.len() {
        batches.push(batch_of(alloc, files, entries.at(i))?)?;
    }
    Ok(batches)
}

/// The batch that the files of an entry hold.
fn batch_of(alloc: Global, files: &Files, entry: &Entry) -> Result<Batch, NoMemory>
    requires { IsHeld files.now entry.now }
    ensures { IfOk result (λ b. b ≡ batch_in files.now entry.now) }
{
    let index = files::reads_of(files, file_name(entry, FileKind::Index));
    let fields = files::reads_of(files, file_name(entry, FileKind::Fields));
    read_pairs(alloc, index, fields)
}

/// The name of a file of an entry.
pub(crate) fn file_name(entry: &Entry, kind: FileKind) -> FileName
    ensures { result ≡ record { writer = entry.now.writer; seq = entry.now.seq; kind = kind } }
{
    FileName {
        writer: entry.writer,
        seq: entry.seq,
        kind,
    }
}
