// Which batches are masked by later ones.
ghost use Rattle.std.specs.Prelude.{◌≡◌, ◌∷◌, List, ℕ, IfErr, IfOk, length};
ghost use Rattle.fd_segment.specs.{Causes.{IsBadIndex, OnDamaged}, Shared.{standings}};
ghost use Rattle.fd_purge.specs.{Kept.{is_masked, masks}, Reads.{AreRead, IsAmongBad, IsRead, Knows}};

use crate::keys::{Keys, add_keys, are_known};
use fd_disk::Sealed;
use fd_segment::{LensFault, Segment};
use std::alloc::Global;
use std::collections::BTreeSet;
use std::sync::Arc;

/// For each segment whether later ones mask it: each of its keys is a key of one of them.
pub(crate) fn masks<F: Send, Z: Sealed<F>>(
    alloc: Global,
    segments: &[Arc<Segment<F, Z>>],
) -> Result<Vec<bool>, LensFault<F>>
where
    ensures count { IfOk result (λ v. length v.items ≡ length segments.now) }
    ensures masks { IfOk result (λ v. (kss : List (List (List ℕ))) → AreRead (standings segments.now) kss → v.items ≡ masks kss) }
    ensures damaged { IfErr result (λ e. OnDamaged e (IsAmongBad (standings segments.now))) }
{
    let Ok(mut masked) = Vec::from_elem(alloc, false, segments.len()) else {
        return Err(LensFault::NoMemory);
    };
    let mut known = BTreeSet::new(alloc);
    let mut left = segments.len();
    while left > 0 {
        left -= 1;
        masked[left] = is_masked(alloc, &segments[left], &mut known)?;
    }
    Ok(masked)
}

// Whether the keys of the segment are known, and then adds them.
fn is_masked<F: Send, Z: Sealed<F>>(
    alloc: Global,
    segment: &Segment<F, Z>,
    known: &mut Keys,
) -> Result<bool, LensFault<F>>
where
    ensures masked { IfOk result (λ b. (ks : List (List ℕ)) (later : List (List (List ℕ))) → IsRead segment.now ks → Knows known.old later → b ≡ is_masked ks later) }
    ensures known { IfOk result (λ b. (ks : List (List ℕ)) (later : List (List (List ℕ))) → IsRead segment.now ks → Knows known.old later → Knows known.new (ks ∷ later)) }
    ensures damaged { IfErr result (λ e. OnDamaged e (IsBadIndex segment.now.files.entry segment.now.files.index)) }
{
    let mut lens = segment.lens(alloc)?;
    let index = lens.records(alloc)?;
    if are_known(&index, known) {
        return Ok(true);
    }
    match add_keys(alloc, &index, known) {
        Ok(()) => Ok(false),
        Err(_) => Err(LensFault::NoMemory),
    }
}
