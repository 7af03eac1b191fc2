ghost use Rattle.std.specs.Prelude.{◌≡◌, ◌++◌, ◌∷◌, [], Some, false, slice_get, slice_set, length, ◌<◌, IfOk, OnOk, OnErr};
ghost use Rattle.fd_machine.specs.{Machine.{after, filled, put_file, writer_in}, Took.{IsPlace, took_of}, declared.machine.Step.TheVariants.{Put}, declared.machine.Writer.{Writer}};

use crate::fail_steps::{first_seq, next_place};
use crate::{Files, NamedFile, Phase, State, Took, Writer, Writers};
use fd_bytes::{Bytes, NoMemory};
use fd_disk::FileKind;
use fd_entries::{Batch, Pair};
use fd_machine::{files, writers};
use std::alloc::Global;

/// A pair is put: its bytes are written at the end of the field file.
pub(crate) fn put(
    alloc: Global,
    state: &mut State,
    w: u32,
    key: Bytes,
    bytes: Bytes,
) -> Result<Took, NoMemory>
    ensures took { IfOk result (λ t. t ≡ took_of state.old (Put w key bytes)) }
    ensures ok { OnOk result (state.new ≡ after state.old (Put w key bytes)) }
    ensures err { OnErr result (state.new ≡ state.old) }
{
    if state.down {
        return Ok(Took::No);
    }
    match writers::place(&state.writers, w) {
        Some(i) => put_next(alloc, state, w, i, Pair { key, bytes }),
        None => put_first(alloc, state, w, Pair { key, bytes }),
    }
}

/// A pair of a writer that has put before.
fn put_next(
    alloc: Global,
    state: &mut State,
    w: u32,
    i: usize,
    pair: Pair,
) -> Result<Took, NoMemory>
    requires up { state.old.down ≡ false }
    requires place { IsPlace state.old.writers w i }
    ensures took { IfOk result (λ t. t ≡ took_of state.old (Put w pair.key pair.bytes)) }
    ensures ok { OnOk result (state.new ≡ after state.old (Put w pair.key pair.bytes)) }
    ensures err { OnErr result (state.new ≡ state.old) }
{
    let writer = state.writers.at(i);
    if !writer.can_put(pair.key.as_slice(), pair.bytes.as_slice()) {
        return Ok(Took::No);
    }
    let (name, at) = next_place(state, w);
    let file = files::written(
        &state.files,
        alloc,
        name,
        at as usize,
        pair.bytes.as_slice(),
    )?;
    let file = NamedFile { name, file };
    add_pair(&mut state.files, &mut state.writers, file, i, pair)?;
    Ok(Took::Yes)
}

/// The first pair of a writer since the last opening.
fn put_first(alloc: Global, state: &mut State, w: u32, pair: Pair) -> Result<Took, NoMemory>
    requires up { state.old.down ≡ false }
    requires unknown { (o : Writer) → writer_in state.old.writers w o ≡ o }
    ensures took { IfOk result (λ t. t ≡ took_of state.old (Put w pair.key pair.bytes)) }
    ensures ok { OnOk result (state.new ≡ after state.old (Put w pair.key pair.bytes)) }
    ensures err { OnErr result (state.new ≡ state.old) }
{
    let mut writer = Writer {
        id: w,
        pairs: Batch::new(alloc),
        phase: Phase::Filling,
        seq: first_seq(state, w),
    };
    if !writer.can_put(pair.key.as_slice(), pair.bytes.as_slice()) {
        return Ok(Took::No);
    }
    let name = writer.file(FileKind::Fields);
    let file = files::written(&state.files, alloc, name, 0, pair.bytes.as_slice())?;
    let file = NamedFile { name, file };
    writer.pairs.push(pair)?;
    add_writer(&mut state.files, &mut state.writers, file, writer)?;
    Ok(Took::Yes)
}

/// Puts a file and appends a pair to the batch of the writer at a place, or after `NoMemory` neither.
fn add_pair(
    files: &mut Files,
    writers: &mut Writers,
    file: NamedFile,
    i: usize,
    pair: Pair,
) -> Result<(), NoMemory>
    requires { i < length writers.old }
    ensures files { OnOk result (files.new ≡ put_file files.old file.name file.file) }
    ensures writers { OnOk result ((x : Writer) → slice_get writers.old i ≡ Some x → writers.new ≡ slice_set writers.old i (filled x (x.pairs ++ pair ∷ []))) }
    ensures no_files { OnErr result (files.new ≡ files.old) }
    ensures no_writers { OnErr result (writers.new ≡ writers.old) }
{
    writers::push_pair(writers, i, pair)?;
    let put = files::put(files, file.name, file.file);
    if put.is_err() {
        writers::drop_pair(writers, i);
    }
    put
}

/// Puts a file and appends a writer, or after `NoMemory` neither.
fn add_writer(
    files: &mut Files,
    writers: &mut Writers,
    file: NamedFile,
    writer: Writer,
) -> Result<(), NoMemory>
    ensures files { OnOk result (files.new ≡ put_file files.old file.name file.file) }
    ensures writers { OnOk result (writers.new ≡ writers.old ++ writer ∷ []) }
    ensures no_files { OnErr result (files.new ≡ files.old) }
    ensures no_writers { OnErr result (writers.new ≡ writers.old) }
{
    writers.push(writer)?;
    let put = files::put(files, file.name, file.file);
    if put.is_err() {
        writers.drop_last();
    }
    put
}
