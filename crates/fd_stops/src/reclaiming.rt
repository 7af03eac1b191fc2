// `purge` and `wipe`, until the store stops.
ghost use Rattle.std.specs.Prelude.{◌≡◌, [], false, List, ℕ};
ghost use Rattle.fd_purge.specs.{Kept.{kept}, Purging.{IsLeftByPurge, IsLeftByWipe}};
ghost use Rattle.fd_stops.specs.Found.{LeavesReclaimed};

use crate::stopping::Stopping;
use fd_objects::{Objects, World};
use fd_purge::every_purge;
use fd_reclaim::{purge, wipe};
use fd_stored::Status;
use fd_words::{Dataset, Root};

/// Purges a dataset of a store that passes so many calls on and fails all later ones. Whatever their number is, and whatever is
/// told, each store that a crash may leave then of the one below has its schema and every other dataset, and of this one what
/// the purge leaves at a moment of it: the batches that it had, or those that no later ones mask.
pub fn purge_until<W: World>(
    objects: &mut Objects<Stopping<W>>,
    root: &Root,
    dataset: &Dataset,
) -> Status
    requires home { (name : List ℕ) → W.Store.out objects.old.store.inner name ≡ false }
    ensures left { LeavesReclaimed dataset.now (IsLeftByPurge dataset.now) kept (W.Store.has objects.old.store.inner)
        (W.Store.has objects.new.store.inner) }
    ensures home { (name : List ℕ) → W.Store.out objects.new.store.inner name ≡ false }
{
    every_purge();
    purge(objects, root, dataset)
}

/// Wipes a dataset of a store that passes so many calls on and fails all later ones. Whatever their number is, and whatever is
/// told, each store that a crash may leave then of the one below has its schema and every other dataset, and of this one what
/// the wipe leaves at a moment of it: the batches that it had, or none.
pub fn wipe_until<W: World>(
    objects: &mut Objects<Stopping<W>>,
    root: &Root,
    dataset: &Dataset,
) -> Status
    requires home { (name : List ℕ) → W.Store.out objects.old.store.inner name ≡ false }
    ensures left { LeavesReclaimed dataset.now (IsLeftByWipe dataset.now) (λ t. []) (W.Store.has objects.old.store.inner)
        (W.Store.has objects.new.store.inner) }
    ensures home { (name : List ℕ) → W.Store.out objects.new.store.inner name ≡ false }
{
    every_purge();
    wipe(objects, root, dataset)
}
