//! The look-ups in one segment.
ghost use Rattle.std.specs.Prelude.{◌≡◌, None, map, IfErr, IfOk, IfSome, OnOk};
ghost use Rattle.fd_segment.specs.{Held.{batch_of}, Causes.{AreAllOf, IsFindDamage, OnDamaged}};
ghost use Rattle.fd_finding.specs.{Spots.{StandsForOne}, Searching.{AllLooked, Looked, key_of}};

use crate::spot::Sought;
use fd_disk::{Reader, Sealed};
use fd_index::Index;
use fd_retriever::Spot;
use fd_segment::{Lens, LensFault, Segment};
use std::alloc::Global;

/// How many bytes an index has at most of which all records are read at once.
const MOST: u64 = 1_048_576;

/// Tells that so many keys are looked for in an index of this length that it takes less to read all its records at once: one
/// for four of its pages.
fn is_worth(sought: &[Sought], index_len: u64) -> bool {
    let wanted = sought.iter().filter(|one| one.spot.is_none()).count();
    index_len <= MOST && wanted as u64 >= index_len / 16_384
}

/// All records of the index of an opened segment, where that is worth a read, and where the index is in its format and there
/// is memory for them.
fn records_of<F: Send, R: Reader<F>>(
    alloc: Global,
    lens: &mut Lens<F, R>,
    sought: &[Sought],
) -> Result<Option<Index>, LensFault<F>>
    ensures files { lens.new.files ≡ lens.old.files }
    ensures all { IfOk result (λ o. IfSome o (AreAllOf lens.old.files)) }
    ensures damaged { IfErr result (λ e. OnDamaged e (λ _. ⊥)) }
{
    if !is_worth(sought, lens.index_len()) {
        return Ok(None);
    }
    match lens.records(alloc) {
        Ok(records) => Ok(Some(records)),
        Err(LensFault::Fault(fault)) => Err(LensFault::Fault(fault)),
        Err(LensFault::Damaged(_)) | Err(LensFault::NoMemory) => Ok(None),
    }
}

/// Looks a key up in the opened segment of a number, unless it was found before: among all records of its index, where these
/// are at hand.
fn look_one<F: Send, R: Reader<F>>(
    alloc: Global,
    lens: &mut Lens<F, R>,
    records: &Option<Index>,
    number: u32,
    one: &mut Sought,
) -> Result<(), LensFault<F>>
    requires { IfSome records.now (AreAllOf lens.old.files) }
    ensures files { lens.new.files ≡ lens.old.files }
    ensures looked { OnOk result (Looked lens.old.files number one.old one.new) }
    ensures damaged { IfErr result (λ e. OnDamaged e (IsFindDamage lens.old.files.entry lens.old.files.index one.old.key)) }
    ensures sound { IfErr result (λ e. OnDamaged e (λ _. batch_of lens.old.files ≡ None)) }
{
    if one.spot.is_some() {
        return Ok(());
    }
    let found = match records {
        Some(records) => lens.find_among(records, one.key.as_slice()),
        None => lens.find(alloc, one.key.as_slice()),
    };
    match found {
        Ok(Some((at, len))) => {
            one.spot = Some(Spot { number, at, len });
            Ok(())
        }
        Ok(None) => Ok(()),
        Err(fault) => Err(fault),
    }
}

/// Looks up in the opened segment of a number each of the keys that wasn't found before.
fn look_all<F: Send, R: Reader<F>>(
    alloc: Global,
    lens: &mut Lens<F, R>,
    records: &Option<Index>,
    number: u32,
    sought: &mut [Sought],
) -> Result<(), LensFault<F>>
    requires { IfSome records.now (AreAllOf lens.old.files) }
    ensures looked { OnOk result (AllLooked lens.old.files number sought.old sought.new) }
    ensures damaged { IfErr result (λ e. OnDamaged e (StandsForOne lens.old.files (map key_of sought.old))) }
    ensures sound { IfErr result (λ e. OnDamaged e (λ _. batch_of lens.old.files ≡ None)) }
{
    for one in sought.iter_mut() {
        match look_one(alloc, lens, records, number, one) {
            Ok(()) => {}
            Err(fault) => return Err(fault),
        }
    }
    Ok(())
}

/// Opens the segment of a number, and looks up in it each of the keys that wasn't found before.
pub(crate) fn find_in<F: Send, Z: Sealed<F>>(
    alloc: Global,
    segment: &Segment<F, Z>,
    number: u32,
    sought: &mut [Sought],
) -> Result<(), LensFault<F>>
    ensures looked { OnOk result (AllLooked segment.now.files number sought.old sought.new) }
    ensures damaged { IfErr result (λ e. OnDamaged e (StandsForOne segment.now.files (map key_of sought.old))) }
    ensures sound { IfErr result (λ e. OnDamaged e (λ _. batch_of segment.now.files ≡ None)) }
{
    let mut lens = match segment.lens(alloc) {
        Ok(lens) => lens,
        Err(fault) => return Err(fault),
    };
    let records = match records_of(alloc, &mut lens, sought) {
        Ok(records) => records,
        Err(fault) => return Err(fault),
    };
    look_all(alloc, &mut lens, &records, number, sought)
}
