//! The bytes at a place of a segment, copied, or read as a whole.
ghost use Rattle.std.specs.Prelude.{◌≡◌, ◌≤◌, ◌+◌, ◌-◌, ◌⊎◌, length, slice_get, Contains, IfOk, IfErr, IfSome, IsSome, OnOk};
ghost use Rattle.fd_segment.specs.Causes as segments;
ghost use Rattle.fd_segment.specs.{Causes.{IsBadFrame, IsBadIndex, IsFieldDamage}, Copying.{IsCopied, IsCopiedInPart, IsDigestedAt, IsPiece}, Held.{Files, behind}};
ghost use Rattle.fd_retriever.specs.{Kept.{AreThose, Kept}, Answers.{HasFetchCause, OnDamaged, Unwritten}};

use crate::checked::copy_checked;
use crate::fault::FetchFault;
use crate::lenses::Lenses;
use crate::spot::Spot;
use fd_bytes::Bytes;
use fd_dataset::Snapshot;
use fd_disk::Sealed;
use fd_io::Sink;
use fd_segment::{Lens, LensFault, Segment};
use std::alloc::Global;

/// Copies the bytes at a spot into the sink, once they were checked against their digest, where there is one. The segment is
/// opened where it isn't kept, and kept afterwards. What is kept reads the files of the snapshot's own segments.
///
/// After a refusal a front of the bytes was written, and nothing at `Damaged` and `NoMemory`. `Disk` comes only with the
/// fault of a file's call in this copy, `Write` only where the sink's count of faults rose, and `Damaged` only where the
/// segment is opened, and the first eight bytes or the footer of its index aren't in the format, or where behind the bytes
/// stands another digest than theirs.
pub fn copy_at<F: Send, Z: Sealed<F>, X, K: Sink<X>>(
    alloc: Global,
    snapshot: &Snapshot<F, Z>,
    spot: Spot,
    lenses: &mut Lenses<F, Z>,
    sink: &mut K,
) -> Result<(), FetchFault<F, X>>
where
    requires number { (1 ≤ spot.number) × (spot.number ≤ length snapshot.now) }
    requires within { IfSome (slice_get snapshot.now (spot.number - 1)) (λ s. spot.at + spot.len + behind s.files.entry ≤ s.files.entry.fields_len) }
    requires those { AreThose lenses.old snapshot.now }
    ensures those { AreThose lenses.new snapshot.now }
    ensures ok { OnOk result (IfSome (slice_get snapshot.now (spot.number - 1)) (λ s. IsCopied s.files.fields spot.at spot.len (K.taken sink.old) (K.taken sink.new))) }
    ensures checked { OnOk result (IfSome (slice_get snapshot.now (spot.number - 1)) (λ s. IsSome s.files.entry.digest → IsDigestedAt s.files.fields spot.at spot.len)) }
    ensures err { IfErr result (λ _. IfSome (slice_get snapshot.now (spot.number - 1)) (λ s. IsCopiedInPart s.files.fields spot.at spot.len (K.taken sink.old) (K.taken sink.new))) }
    ensures unwritten { IfErr result (λ e. Unwritten e (K.taken sink.new ≡ K.taken sink.old)) }
    ensures damaged { IfErr result (λ e. OnDamaged e (λ d. IfSome (slice_get snapshot.now (spot.number - 1)) (λ s. (IsBadIndex s.files.entry s.files.index d × IsBadFrame s.files.entry s.files.index d) ⊎ IsFieldDamage s.files.entry s.files.fields spot.at spot.len d))) }
    ensures cause { HasFetchCause (K.faults sink.old) (K.faults sink.new) result }
{
    let segment = snapshot.segment(spot.number);
    let mut lens = match opened(alloc, segment, spot.number, lenses) {
        Ok(lens) => lens,
        Err(LensFault::Fault(fault)) => return Err(FetchFault::Disk(fault)),
        Err(LensFault::Damaged(damage)) => return Err(FetchFault::Damaged(damage)),
        Err(LensFault::NoMemory) => return Err(FetchFault::NoMemory),
    };
    let answer = copy_checked(alloc, &mut lens, spot.at, spot.len, sink);
    lenses.keep(spot.number, lens);
    answer
}

/// Reads the bytes at a spot, which are at most 1 MiB, and gives them once they were checked against their digest, where
/// there is one. The segment is opened where it isn't kept, and kept afterwards. What is kept reads the files of the snapshot's
/// own segments.
///
/// `Fault` comes only with the fault of a file's call in this reading, and `Damaged` only where the segment is opened, and
/// the first eight bytes or the footer of its index aren't in the format, or where behind the bytes stands another digest
/// than theirs.
pub fn read_at<F: Send, Z: Sealed<F>>(
    alloc: Global,
    snapshot: &Snapshot<F, Z>,
    spot: Spot,
    lenses: &mut Lenses<F, Z>,
) -> Result<Bytes, LensFault<F>>
where
    requires number { (1 ≤ spot.number) × (spot.number ≤ length snapshot.now) }
    requires within { IfSome (slice_get snapshot.now (spot.number - 1)) (λ s. spot.at + spot.len + behind s.files.entry ≤ s.files.entry.fields_len) }
    requires few { spot.len ≤ 1048576 }
    requires those { AreThose lenses.old snapshot.now }
    ensures those { AreThose lenses.new snapshot.now }
    ensures ok { IfOk result (λ b. IfSome (slice_get snapshot.now (spot.number - 1)) (λ s. IsPiece s.files.fields spot.at spot.len b)) }
    ensures checked { OnOk result (IfSome (slice_get snapshot.now (spot.number - 1)) (λ s. IsSome s.files.entry.digest → IsDigestedAt s.files.fields spot.at spot.len)) }
    ensures damaged { IfErr result (λ e. segments.OnDamaged e (λ d. IfSome (slice_get snapshot.now (spot.number - 1)) (λ s. (IsBadIndex s.files.entry s.files.index d × IsBadFrame s.files.entry s.files.index d) ⊎ IsFieldDamage s.files.entry s.files.fields spot.at spot.len d))) }
{
    let segment = snapshot.segment(spot.number);
    let mut lens = match opened(alloc, segment, spot.number, lenses) {
        Ok(lens) => lens,
        Err(fault) => return Err(fault),
    };
    let answer = lens.read_field(alloc, spot.at, spot.len);
    lenses.keep(spot.number, lens);
    answer
}

/// The segment of a number, open for reading: the one that is kept, or else opened now.
fn opened<F: Send, Z: Sealed<F>>(
    alloc: Global,
    segment: &Segment<F, Z>,
    number: u32,
    lenses: &mut Lenses<F, Z>,
) -> Result<Lens<F, Z::Reader>, LensFault<F>>
where
    requires those { (f : Files) → Contains lenses.old (record { number = number; files = f }) → f ≡ segment.now.files }
    ensures files { IfOk result (λ l. l.files ≡ segment.now.files) }
    ensures kept { (k : Kept) → Contains lenses.new k → Contains lenses.old k }
    ensures damaged { IfErr result (λ e. segments.OnDamaged e (λ d. IsBadIndex segment.now.files.entry segment.now.files.index d × IsBadFrame segment.now.files.entry segment.now.files.index d)) }
{
    if let Some(lens) = lenses.take(number) {
        return Ok(lens);
    }
    match segment.lens(alloc) {
        Ok(lens) => Ok(lens),
        Err(fault) => Err(fault),
    }
}
