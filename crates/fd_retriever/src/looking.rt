ghost use Rattle.std.specs.Prelude.{◌≡◌, ◌⊎◌, List, Some, None, Contains, IfOk, IfErr, OnErr};
ghost use Rattle.fd_entries.specs.{declared.batch.Pair.{Pair}, Batches.{of_batch}};
ghost use Rattle.fd_segment.specs.Held.{Files, batch_of};
ghost use Rattle.fd_dataset.specs.Listed.{listing_in};
ghost use Rattle.fd_retriever.specs.{Kept.{Kept}, Answers.{HasFetchCause, IsAnswer, IsMet, OnDamaged, Says, StandsIn, TookAsMany, TookFront, Unwritten}};

use crate::checked::copy_checked;
use crate::fault::{FetchFault, Got};
use crate::lenses::Lenses;
use fd_disk::{Reader, Sealed};
use fd_io::Sink;
use fd_segment::{Damage, Lens, LensFault, Segment};
use std::alloc::Global;

/// Looks a key up in an opened segment, checks its bytes, and copies them into the sink, or tells what is wrong with the
/// segment, and then nothing was written.
fn copied<F: Send, R: Reader<F>, X, K: Sink<X>>(
    alloc: Global,
    lens: &mut Lens<F, R>,
    key: &[u8],
    sink: &mut K,
) -> Result<Result<Got, Damage>, FetchFault<F, X>>
    ensures files { lens.new.files ≡ lens.old.files }
    ensures answer { IfOk result (λ r. IfOk r (λ got. (b : List Pair) → batch_of lens.old.files ≡ Some b → IsAnswer (of_batch b key.now) (K.taken sink.old) (K.taken sink.new) got)) }
    ensures says { IfOk result (λ r. IfOk r (Says lens.old.files key.now)) }
    ensures took { IfOk result (λ r. IfOk r (TookAsMany (K.taken sink.old) (K.taken sink.new))) }
    ensures damaged { IfOk result (λ r. IfErr r (IsMet lens.old.files key.now)) }
    ensures sound { IfOk result (λ r. OnErr r (batch_of lens.old.files ≡ None)) }
    ensures untouched { IfOk result (λ r. OnErr r (K.taken sink.new ≡ K.taken sink.old)) }
    ensures err { IfErr result (λ _. (b : List Pair) → batch_of lens.old.files ≡ Some b → TookFront (of_batch b key.now) (K.taken sink.old) (K.taken sink.new)) }
    ensures unwritten { IfErr result (λ e. Unwritten e (K.taken sink.new ≡ K.taken sink.old)) }
    ensures whole { IfErr result (λ e. OnDamaged e (λ d. ⊥)) }
    ensures cause { HasFetchCause (K.faults sink.old) (K.faults sink.new) result }
{
    let (at, len) = match lens.find(alloc, key) {
        Ok(Some(place)) => place,
        Ok(None) => return Ok(Ok(Got::Miss)),
        Err(LensFault::Fault(fault)) => return Err(FetchFault::Disk(fault)),
        Err(LensFault::Damaged(damage)) => return Ok(Err(damage)),
        Err(LensFault::NoMemory) => return Err(FetchFault::NoMemory),
    };
    match copy_checked(alloc, lens, at, len, sink) {
        Ok(()) => Ok(Ok(Got::Found(len))),
        Err(FetchFault::Disk(fault)) => Err(FetchFault::Disk(fault)),
        Err(FetchFault::Write(fault)) => Err(FetchFault::Write(fault)),
        Err(FetchFault::Damaged(damage)) => Ok(Err(damage)),
        Err(FetchFault::NoMemory) => Err(FetchFault::NoMemory),
    }
}

/// Looks a key up in the segment of a number, and copies its bytes into the sink. The segment is opened where it isn't
/// kept, and opened again where what is kept is damaged: that may be other files, and the segment's own decide.
pub(crate) fn fetch_from<F: Send, Z: Sealed<F>, X, K: Sink<X>>(
    alloc: Global,
    segment: &Segment<F, Z>,
    number: u32,
    lenses: &mut Lenses<F, Z>,
    key: &[u8],
    sink: &mut K,
) -> Result<Got, FetchFault<F, X>>
where
    requires fits { (f : Files) → Contains lenses.old (record { number = number; files = f }) → listing_in f ≡ listing_in segment.now.files }
    ensures kept { (k : Kept) → Contains lenses.new k → Contains lenses.old k ⊎ (k ≡ record { number = number; files = segment.now.files }) }
    ensures answer { IfOk result (λ got. (b : List Pair) → batch_of segment.now.files ≡ Some b → IsAnswer (of_batch b key.now) (K.taken sink.old) (K.taken sink.new) got) }
    ensures says { IfOk result (λ got. ((f : Files) → Contains lenses.old (record { number = number; files = f }) → f ≡ segment.now.files) → Says segment.now.files key.now got) }
    ensures took { IfOk result (TookAsMany (K.taken sink.old) (K.taken sink.new)) }
    ensures err { IfErr result (λ _. (b : List Pair) → batch_of segment.now.files ≡ Some b → TookFront (of_batch b key.now) (K.taken sink.old) (K.taken sink.new)) }
    ensures unwritten { IfErr result (λ e. Unwritten e (K.taken sink.new ≡ K.taken sink.old)) }
    ensures damaged { IfErr result (λ e. OnDamaged e (StandsIn segment.now.files key.now)) }
    ensures sound { IfErr result (λ e. OnDamaged e (λ _. batch_of segment.now.files ≡ None)) }
    ensures cause { HasFetchCause (K.faults sink.old) (K.faults sink.new) result }
{
    if let Some(mut lens) = lenses.take(number) {
        match copied(alloc, &mut lens, key, sink) {
            Ok(Err(_)) => {}
            Ok(Ok(got)) => {
                lenses.keep(number, lens);
                return Ok(got);
            }
            Err(fault) => {
                lenses.keep(number, lens);
                return Err(fault);
            }
        }
    }
    fetch_opened(alloc, segment, number, lenses, key, sink)
}

/// Opens the segment of a number, looks a key up in it, copies its bytes into the sink, and keeps what was opened.
fn fetch_opened<F: Send, Z: Sealed<F>, X, K: Sink<X>>(
    alloc: Global,
    segment: &Segment<F, Z>,
    number: u32,
    lenses: &mut Lenses<F, Z>,
    key: &[u8],
    sink: &mut K,
) -> Result<Got, FetchFault<F, X>>
where
    ensures kept { (k : Kept) → Contains lenses.new k → Contains lenses.old k ⊎ (k ≡ record { number = number; files = segment.now.files }) }
    ensures answer { IfOk result (λ got. (b : List Pair) → batch_of segment.now.files ≡ Some b → IsAnswer (of_batch b key.now) (K.taken sink.old) (K.taken sink.new) got) }
    ensures says { IfOk result (Says segment.now.files key.now) }
    ensures took { IfOk result (TookAsMany (K.taken sink.old) (K.taken sink.new)) }
    ensures err { IfErr result (λ _. (b : List Pair) → batch_of segment.now.files ≡ Some b → TookFront (of_batch b key.now) (K.taken sink.old) (K.taken sink.new)) }
    ensures unwritten { IfErr result (λ e. Unwritten e (K.taken sink.new ≡ K.taken sink.old)) }
    ensures damaged { IfErr result (λ e. OnDamaged e (StandsIn segment.now.files key.now)) }
    ensures sound { IfErr result (λ e. OnDamaged e (λ _. batch_of segment.now.files ≡ None)) }
    ensures cause { HasFetchCause (K.faults sink.old) (K.faults sink.new) result }
{
    let mut lens = match segment.lens(alloc) {
        Ok(lens) => lens,
        Err(LensFault::Fault(fault)) => return Err(FetchFault::Disk(fault)),
        Err(LensFault::Damaged(damage)) => return Err(FetchFault::Damaged(damage)),
        Err(LensFault::NoMemory) => return Err(FetchFault::NoMemory),
    };
    let answer = copied(alloc, &mut lens, key, sink);
    lenses.keep(number, lens);
    match answer {
        Ok(Ok(got)) => Ok(got),
        Ok(Err(damage)) => Err(FetchFault::Damaged(damage)),
        Err(fault) => Err(fault),
    }
}
