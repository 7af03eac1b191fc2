//! The search through the segments of a snapshot, the newest first.
ghost use Rattle.std.specs.Prelude.{◌≡◌, false, All, IsSome, None, length, map, IfErr, OnOk};
ghost use Rattle.fd_segment.specs.Causes.{OnDamaged};
ghost use Rattle.fd_dataset.specs.Listed.{listing};
ghost use Rattle.fd_retriever.specs.Answers.{SomeUntold};
ghost use Rattle.fd_finding.specs.{Spots.{StandsForSome}, Searching.{IsSearched, key_of}};

use crate::looking::find_in;
use crate::spot::Sought;
use fd_dataset::Snapshot;
use fd_disk::Sealed;
use fd_segment::LensFault;
use std::alloc::Global;

/// Tells that one of the keys wasn't found yet.
fn is_wanted(sought: &[Sought]) -> bool
    ensures { result ≡ false → All (λ one. IsSome one.spot) sought.now }
{
    sought.iter().any(|one| one.spot.is_none())
}

/// Looks for keys of which none was found yet, in one segment after the other, the newest first, until all are found or no
/// segment is left. Each segment is opened at most once, and at most one is open.
pub(crate) fn search<F: Send, Z: Sealed<F>>(
    alloc: Global,
    snapshot: &Snapshot<F, Z>,
    sought: &mut [Sought],
) -> Result<(), LensFault<F>>
    requires fresh { All (λ one. one.spot ≡ None) sought.old }
    ensures long { length sought.new ≡ length sought.old }
    ensures found { OnOk result (IsSearched snapshot.now (map key_of sought.old) sought.new) }
    ensures damaged { IfErr result (λ e. OnDamaged e (StandsForSome snapshot.now (map key_of sought.old))) }
    ensures sound { IfErr result (λ e. OnDamaged e (λ _. SomeUntold (map listing snapshot.now))) }
{
    let count = snapshot.len();
    for i in 0..count {
        if !is_wanted(sought) {
            return Ok(());
        }
        let number = count - i;
        match find_in(alloc, snapshot.segment(number), number, sought) {
            Ok(()) => {}
            Err(fault) => return Err(fault),
        }
    }
    Ok(())
}
