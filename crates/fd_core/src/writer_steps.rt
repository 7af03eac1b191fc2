// What a writer does step by step, from the sync of its batch to the next batch.
ghost use Rattle.std.specs.Prelude.{◌≡◌, IfOk, OnOk, OnErr};
ghost use Rattle.fd_machine.specs.{Machine.{after}, Took.{took_of}, declared.machine.Step.TheVariants.{Body, CloseGate, Gate, Post, Release, SyncBody, SyncClose, SyncData, SyncGate, SyncIndex, Take, WriteIndex}};

use crate::{Phase, State, Took};
use fd_bytes::NoMemory;
use fd_disk::FileKind;
use fd_entries::{CLOSED, OPEN, copied, gate_at, rows_of};
use fd_machine::{entry_of, files, sync_file, write_file, writers};
use std::alloc::Global;

/// The writer takes the table, where nobody owns it.
pub(crate) fn take(state: &mut State, w: u32) -> Took
    ensures took { result ≡ took_of state.old (Take w) }
    ensures state { state.new ≡ after state.old (Take w) }
{
    if state.owner.is_some() {
        return Took::No;
    }
    if state.history.len() >= 65535 {
        return Took::No;
    }
    let Some(i) = state.ready(w, Phase::Sealed) else {
        return Took::No;
    };
    state.owner = Some(w);
    writers::set_phase(&mut state.writers, i, Phase::Holding);
    Took::Yes
}

/// The field file is synced, where the batch has a pair and its number is not the last.
pub(crate) fn sync_data(alloc: Global, state: &mut State, w: u32) -> Result<Took, NoMemory>
    ensures took { IfOk result (λ t. t ≡ took_of state.old (SyncData w)) }
    ensures ok { OnOk result (state.new ≡ after state.old (SyncData w)) }
    ensures err { OnErr result (state.new ≡ state.old) }
{
    let Some(i) = writers::place(&state.writers, w) else {
        return Ok(Took::No);
    };
    if state.down {
        return Ok(Took::No);
    }
    let writer = state.writers.at(i);
    if !writer.is_in(Phase::Filling) {
        return Ok(Took::No);
    }
    if writer.pairs.is_empty() {
        return Ok(Took::No);
    }
    if writer.seq == u32::MAX {
        return Ok(Took::No);
    }
    let name = writer.file(FileKind::Fields);
    files::sync(&mut state.files, alloc, name)?;
    writers::set_phase(&mut state.writers, i, Phase::Synced);
    Ok(Took::Yes)
}

/// The rows of the batch are written into the index file.
pub(crate) fn write_index(alloc: Global, state: &mut State, w: u32) -> Result<Took, NoMemory>
    ensures took { IfOk result (λ t. t ≡ took_of state.old (WriteIndex w)) }
    ensures ok { OnOk result (state.new ≡ after state.old (WriteIndex w)) }
    ensures err { OnErr result (state.new ≡ state.old) }
{
    let Some(i) = state.ready(w, Phase::Synced) else {
        return Ok(Took::No);
    };
    let writer = state.writers.at(i);
    let rows = rows_of(alloc, &writer.pairs)?;
    let name = writer.file(FileKind::Index);
    files::write(&mut state.files, alloc, name, 0, &rows)?;
    writers::set_phase(&mut state.writers, i, Phase::Written);
    Ok(Took::Yes)
}

/// The index file is synced.
pub(crate) fn sync_index(alloc: Global, state: &mut State, w: u32) -> Result<Took, NoMemory>
    ensures took { IfOk result (λ t. t ≡ took_of state.old (SyncIndex w)) }
    ensures ok { OnOk result (state.new ≡ after state.old (SyncIndex w)) }
    ensures err { OnErr result (state.new ≡ state.old) }
{
    let Some(i) = state.ready(w, Phase::Written) else {
        return Ok(Took::No);
    };
    let writer = state.writers.at(i);
    let name = writer.file(FileKind::Index);
    files::sync(&mut state.files, alloc, name)?;
    writers::set_phase(&mut state.writers, i, Phase::Sealed);
    Ok(Took::Yes)
}

/// The entry's body and the closed gate behind it are written, where nothing is in doubt.
pub(crate) fn body(alloc: Global, state: &mut State, w: u32) -> Result<Took, NoMemory>
    ensures took { IfOk result (λ t. t ≡ took_of state.old (Body w)) }
    ensures ok { OnOk result (state.new ≡ after state.old (Body w)) }
    ensures err { OnErr result (state.new ≡ state.old) }
{
    let Some(i) = state.ready(w, Phase::Holding) else {
        return Ok(Took::No);
    };
    if state.doubt.is_some() {
        return Ok(Took::No);
    }
    let writer = state.writers.at(i);
    let body = entry_of(writer).body();
    let gate = gate_at(state.history.len());
    write_file(alloc, &mut state.table, gate + 1, &body)?;
    writers::set_phase(&mut state.writers, i, Phase::BodyLoose);
    Ok(Took::Yes)
}

/// The entry's body is firm.
pub(crate) fn sync_body(alloc: Global, state: &mut State, w: u32) -> Result<Took, NoMemory>
    ensures took { IfOk result (λ t. t ≡ took_of state.old (SyncBody w)) }
    ensures ok { OnOk result (state.new ≡ after state.old (SyncBody w)) }
    ensures err { OnErr result (state.new ≡ state.old) }
{
    let Some(i) = state.ready(w, Phase::BodyLoose) else {
        return Ok(Took::No);
    };
    sync_file(alloc, &mut state.table)?;
    writers::set_phase(&mut state.writers, i, Phase::BodyFirm);
    Ok(Took::Yes)
}

/// The gate before the entry is opened.
pub(crate) fn gate(alloc: Global, state: &mut State, w: u32) -> Result<Took, NoMemory>
    ensures took { IfOk result (λ t. t ≡ took_of state.old (Gate w)) }
    ensures ok { OnOk result (state.new ≡ after state.old (Gate w)) }
    ensures err { OnErr result (state.new ≡ state.old) }
{
    let Some(i) = state.ready(w, Phase::BodyFirm) else {
        return Ok(Took::No);
    };
    let gate = gate_at(state.history.len());
    write_file(alloc, &mut state.table, gate, &[OPEN])?;
    writers::set_phase(&mut state.writers, i, Phase::GateLoose);
    Ok(Took::Yes)
}

/// The entry's gate is firm.
pub(crate) fn sync_gate(alloc: Global, state: &mut State, w: u32) -> Result<Took, NoMemory>
    ensures took { IfOk result (λ t. t ≡ took_of state.old (SyncGate w)) }
    ensures ok { OnOk result (state.new ≡ after state.old (SyncGate w)) }
    ensures err { OnErr result (state.new ≡ state.old) }
{
    let Some(i) = state.ready(w, Phase::GateLoose) else {
        return Ok(Took::No);
    };
    sync_file(alloc, &mut state.table)?;
    writers::set_phase(&mut state.writers, i, Phase::Listed);
    Ok(Took::Yes)
}

/// The writer's batch is listed for all to see.
pub(crate) fn post(alloc: Global, state: &mut State, w: u32) -> Result<Took, NoMemory>
    ensures took { IfOk result (λ t. t ≡ took_of state.old (Post w)) }
    ensures ok { OnOk result (state.new ≡ after state.old (Post w)) }
    ensures err { OnErr result (state.new ≡ state.old) }
{
    let Some(i) = state.ready(w, Phase::Listed) else {
        return Ok(Took::No);
    };
    let batch = copied(alloc, &state.writers.at(i).pairs)?;
    state.history.push(batch)?;
    writers::set_phase(&mut state.writers, i, Phase::Posted);
    Ok(Took::Yes)
}

/// The gate in doubt is closed.
pub(crate) fn close_gate(alloc: Global, state: &mut State, w: u32) -> Result<Took, NoMemory>
    ensures took { IfOk result (λ t. t ≡ took_of state.old (CloseGate w)) }
    ensures ok { OnOk result (state.new ≡ after state.old (CloseGate w)) }
    ensures err { OnErr result (state.new ≡ state.old) }
{
    let Some(i) = state.ready(w, Phase::Holding) else {
        return Ok(Took::No);
    };
    if !state.doubt.is_some() {
        return Ok(Took::No);
    }
    let gate = gate_at(state.history.len());
    write_file(alloc, &mut state.table, gate, &[CLOSED])?;
    writers::set_phase(&mut state.writers, i, Phase::Closing);
    Ok(Took::Yes)
}

/// The gate in doubt is firmly closed.
pub(crate) fn sync_close(alloc: Global, state: &mut State, w: u32) -> Result<Took, NoMemory>
    ensures took { IfOk result (λ t. t ≡ took_of state.old (SyncClose w)) }
    ensures ok { OnOk result (state.new ≡ after state.old (SyncClose w)) }
    ensures err { OnErr result (state.new ≡ state.old) }
{
    let Some(i) = state.ready(w, Phase::Closing) else {
        return Ok(Took::No);
    };
    sync_file(alloc, &mut state.table)?;
    state.doubt = None;
    writers::set_phase(&mut state.writers, i, Phase::Holding);
    Ok(Took::Yes)
}

/// The writer gives the table back, and begins its next batch.
pub(crate) fn release(state: &mut State, w: u32) -> Took
    ensures took { result ≡ took_of state.old (Release w) }
    ensures state { state.new ≡ after state.old (Release w) }
{
    let Some(i) = state.ready(w, Phase::Posted) else {
        return Took::No;
    };
    state.owner = None;
    writers::begin_next(&mut state.writers, i);
    Took::Yes
}
