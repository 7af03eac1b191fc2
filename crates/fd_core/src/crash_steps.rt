ghost use Rattle.std.specs.Prelude.{◌≡◌, ◌<◌, true, drop, length, IfOk, OnOk, OnErr};
ghost use Rattle.fd_disk.specs.Images.{firm_file, is_in};
ghost use Rattle.fd_machine.specs.{Machine.{after, agrees_from, firmed, has_image, have_images, may_leave}, Took.{took_of}, declared.machine.Step.TheVariants.{Crash}};

use crate::{Files, NamedFile, State, Took, Writers};
use fd_bytes::{Bytes, Items, NoMemory};
use fd_disk::{File, Range, Ranges};
use std::alloc::Global;

/// A crash that leaves these bytes: those of the table, then those of each file.
pub(crate) fn crash(alloc: Global, state: &mut State, left: Items<Bytes>) -> Result<Took, NoMemory>
    ensures took { IfOk result (λ t. t ≡ took_of state.old (Crash left)) }
    ensures ok { OnOk result (state.new ≡ after state.old (Crash left)) }
    ensures err { OnErr result (state.new ≡ state.old) }
{
    if state.down {
        return Ok(Took::No);
    }
    if !may_leave(state, &left) {
        return Ok(Took::No);
    }
    let table = firm_copy(alloc, left.at(0))?;
    let files = firmed(alloc, &state.files, &left)?;
    state.table = table;
    state.files = files;
    state.writers = Writers::new(alloc);
    state.owner = None;
    state.doubt = None;
    state.down = true;
    Ok(Took::Yes)
}

/// Tells that a crash now may leave these bytes.
fn may_leave(state: &State, left: &Items<Bytes>) -> bool
    ensures { result ≡ may_leave state.now left.now }
{
    if left.is_empty() {
        return false;
    }
    has_image(&state.table, left.at(0).as_slice()) && have_images(&state.files, left)
}

/// Tells that the bytes behind the first are images of these files, one of each.
fn have_images(files: &Files, left: &Items<Bytes>) -> bool
    requires { 0 < length left.now }
    ensures { result ≡ have_images files.now (drop 1 left.now) }
{
    for i in 0..files.len() {
        if i + 1 >= left.len() {
            return false;
        }
        if !has_image(&files.at(i).file, left.at(i + 1).as_slice()) {
            return false;
        }
    }
    left.len() - 1 <= files.len()
}

/// Tells that a crash now may leave these bytes of the file.
fn has_image(file: &File, bytes: &[u8]) -> bool
    ensures { result ≡ has_image file.now bytes.now }
{
    if file.loose.as_slice().is_empty() {
        bytes == file.firm.as_slice()
    } else {
        agrees(file, bytes)
    }
}

/// Tells that the bytes are no shorter than the firm ones of the file, and agree with them outside the loose ranges.
fn agrees(file: &File, bytes: &[u8]) -> bool
    ensures { result ≡ agrees_from 0 file.now file.now.firm bytes.now }
{
    let firm = file.firm.as_slice();
    for k in 0..firm.len() {
        if k >= bytes.len() {
            return false;
        }
        if firm[k] != bytes[k] && !is_in(k as u64, file.loose.as_slice()) {
            return false;
        }
    }
    true
}

/// Tells that the place is in one of the ranges.
fn is_in(place: u64, ranges: &[Range]) -> bool
    ensures { result ≡ is_in place ranges.now }
{
    for range in ranges {
        if range.at <= place && place - range.at < range.len {
            return true;
        }
    }
    false
}

/// A firm file of these bytes.
fn firm_copy(alloc: Global, bytes: &Bytes) -> Result<File, NoMemory>
    ensures { IfOk result (λ f. f ≡ firm_file bytes.now) }
{
    let firm = Bytes::from_slice(alloc, bytes.as_slice())?;
    let reads = Bytes::from_slice(alloc, bytes.as_slice())?;
    Ok(File {
        firm,
        reads,
        loose: Ranges::new(alloc),
    })
}

/// The files under their names, each firm with what is left of it.
fn firmed(alloc: Global, files: &Files, left: &Items<Bytes>) -> Result<Files, NoMemory>
    requires { have_images files.now (drop 1 left.now) ≡ true }
    ensures { IfOk result (λ fs. fs ≡ firmed files.now (drop 1 left.now)) }
{
    let mut firm = Files::new(alloc);
    for i in 0..files.len() {
        let file = firm_copy(alloc, left.at(i + 1))?;
        firm.push(NamedFile {
            name: files.at(i).name,
            file,
        })?;
    }
    Ok(firm)
}
