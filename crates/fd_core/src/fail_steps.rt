ghost use Rattle.std.specs.Prelude.{◌≡◌, ◌<◌, ◌^◌, ◌⊎◌, false, IfOk, IsSome, IsNone, OnOk, OnErr};
ghost use Rattle.fd_entries.specs.Batches.{total};
ghost use Rattle.fd_machine.specs.{Machine.{after, fields_name, writer_in, writer_of}, Took.{IsAt, took_of}, declared.machine.Phase.TheVariants.{Filling, Synced, Written, Holding, BodyLoose, BodyFirm, GateLoose, Closing}, declared.machine.Step.TheVariants.{Fail}, declared.machine.Writer.{Writer}};

use crate::{Phase, State, Took};
use fd_bytes::NoMemory;
use fd_disk::{FileKind, FileName};
use fd_entries::{CLOSED, OPEN, gate_at, greatest, rows_of, total_of};
use fd_machine::{entry_of, files, write_file, writers};
use std::alloc::Global;

/// The disk call that the writer would make next fails.
pub(crate) fn fail(alloc: Global, state: &mut State, w: u32) -> Result<Took, NoMemory>
    ensures took { IfOk result (λ t. t ≡ took_of state.old (Fail w)) }
    ensures ok { OnOk result (state.new ≡ after state.old (Fail w)) }
    ensures err { OnErr result (state.new ≡ state.old) }
{
    if state.down {
        return Ok(Took::No);
    }
    let Some(i) = writers::place(&state.writers, w) else {
        fail_put(alloc, state, w)?;
        return Ok(Took::Yes);
    };
    match state.writers.at(i).phase {
        Phase::Filling => fail_put(alloc, state, w)?,
        Phase::Synced => fail_index(alloc, state, w, i)?,
        Phase::Written => fail_index_sync(state, w, i),
        Phase::Holding => fail_at_table(alloc, state, w, i)?,
        Phase::Closing | Phase::BodyLoose => fail_table_sync(state, w, i),
        Phase::BodyFirm => fail_gate(alloc, state, w, i)?,
        Phase::GateLoose => fail_gate_sync(state, w, i),
        Phase::Sealed | Phase::Listed | Phase::Posted => return Ok(Took::No),
    }
    Ok(Took::Yes)
}

/// The number of the batch of a writer that has put nothing since the last opening.
pub(crate) fn first_seq(state: &State, w: u32) -> u32
    requires up { state.now.down ≡ false }
    requires unknown { (o : Writer) → writer_in state.now.writers w o ≡ o }
    ensures { result ≡ (writer_of state.now w).seq }
{
    greatest(&state.table.reads, w) + 1
}

/// Where a writer's next pair goes: the name of the field file, and the place in it.
pub(crate) fn next_place(state: &State, w: u32) -> (FileName, u64)
    requires { state.now.down ≡ false }
    ensures name { result.0 ≡ fields_name (writer_of state.now w) }
    ensures at { result.1 ≡ total (writer_of state.now w).pairs }
    ensures fits { result.1 < 2 ^ 63 }
{
    match writers::place(&state.writers, w) {
        Some(i) => {
            let writer = state.writers.at(i);
            (writer.file(FileKind::Fields), total_of(&writer.pairs))
        }
        None => {
            let name = FileName {
                writer: w,
                seq: first_seq(state, w),
                kind: FileKind::Fields,
            };
            (name, 0)
        }
    }
}

/// A write into the field file fails, or its sync: the file is loose from the end of the last pair on.
fn fail_put(alloc: Global, state: &mut State, w: u32) -> Result<(), NoMemory>
    requires up { state.old.down ≡ false }
    requires phase { (writer_of state.old w).phase ≡ Filling }
    ensures ok { OnOk result (state.new ≡ after state.old (Fail w)) }
    ensures err { OnErr result (state.new ≡ state.old) }
{
    let (name, at) = next_place(state, w);
    files::loosen(&mut state.files, alloc, name, at, 1 << 63)?;
    Ok(())
}

/// The write of the index fails: it is done and loose, and the batch is open again.
fn fail_index(alloc: Global, state: &mut State, w: u32, i: usize) -> Result<(), NoMemory>
    requires { IsAt state.old w i Synced }
    ensures ok { OnOk result (state.new ≡ after state.old (Fail w)) }
    ensures err { OnErr result (state.new ≡ state.old) }
{
    let writer = state.writers.at(i);
    let rows = rows_of(alloc, &writer.pairs)?;
    let name = writer.file(FileKind::Index);
    files::write(&mut state.files, alloc, name, 0, &rows)?;
    writers::set_phase(&mut state.writers, i, Phase::Filling);
    Ok(())
}

/// The sync of the index fails: the batch is open again.
fn fail_index_sync(state: &mut State, w: u32, i: usize)
    requires { IsAt state.old w i Written }
    ensures { state.new ≡ after state.old (Fail w) }
{
    writers::set_phase(&mut state.writers, i, Phase::Filling);
}

/// The owner's first write at the table fails: the body's, or where an entry is in doubt that of its closed gate.
fn fail_at_table(alloc: Global, state: &mut State, w: u32, i: usize) -> Result<(), NoMemory>
    requires { IsAt state.old w i Holding }
    ensures ok { OnOk result (state.new ≡ after state.old (Fail w)) }
    ensures err { OnErr result (state.new ≡ state.old) }
{
    if state.doubt.is_some() {
        fail_close(alloc, state, w, i)
    } else {
        fail_body(alloc, state, w, i)
    }
}

fn fail_close(alloc: Global, state: &mut State, w: u32, i: usize) -> Result<(), NoMemory>
    requires at { IsAt state.old w i Holding }
    requires doubt { IsSome state.old.doubt }
    ensures ok { OnOk result (state.new ≡ after state.old (Fail w)) }
    ensures err { OnErr result (state.new ≡ state.old) }
{
    let gate = gate_at(state.history.len());
    write_file(alloc, &mut state.table, gate, &[CLOSED])?;
    state.owner = None;
    writers::set_phase(&mut state.writers, i, Phase::Sealed);
    Ok(())
}

fn fail_body(alloc: Global, state: &mut State, w: u32, i: usize) -> Result<(), NoMemory>
    requires at { IsAt state.old w i Holding }
    requires no_doubt { IsNone state.old.doubt }
    ensures ok { OnOk result (state.new ≡ after state.old (Fail w)) }
    ensures err { OnErr result (state.new ≡ state.old) }
{
    let body = entry_of(state.writers.at(i)).body();
    let gate = gate_at(state.history.len());
    write_file(alloc, &mut state.table, gate + 1, &body)?;
    state.owner = None;
    writers::set_phase(&mut state.writers, i, Phase::Sealed);
    Ok(())
}

/// A sync of the table fails while no gate is opened: an entry in doubt stays in doubt.
fn fail_table_sync(state: &mut State, w: u32, i: usize)
    requires { (IsAt state.old w i Closing) ⊎ (IsAt state.old w i BodyLoose) }
    ensures { state.new ≡ after state.old (Fail w) }
{
    state.owner = None;
    writers::set_phase(&mut state.writers, i, Phase::Sealed);
}

/// The write of the open gate fails: the entry is in doubt.
fn fail_gate(alloc: Global, state: &mut State, w: u32, i: usize) -> Result<(), NoMemory>
    requires { IsAt state.old w i BodyFirm }
    ensures ok { OnOk result (state.new ≡ after state.old (Fail w)) }
    ensures err { OnErr result (state.new ≡ state.old) }
{
    let entry = entry_of(state.writers.at(i));
    let gate = gate_at(state.history.len());
    write_file(alloc, &mut state.table, gate, &[OPEN])?;
    state.doubt = Some(entry);
    state.owner = None;
    writers::set_phase(&mut state.writers, i, Phase::Sealed);
    Ok(())
}

/// The sync of the open gate fails: the entry is in doubt.
fn fail_gate_sync(state: &mut State, w: u32, i: usize)
    requires { IsAt state.old w i GateLoose }
    ensures { state.new ≡ after state.old (Fail w) }
{
    state.doubt = Some(entry_of(state.writers.at(i)));
    state.owner = None;
    writers::set_phase(&mut state.writers, i, Phase::Sealed);
}
