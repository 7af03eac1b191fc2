// `archive` and `trial`, until the store stops.
ghost use Rattle.std.specs.Prelude.{◌≡◌, ◌≤◌, false, List, ℕ, IfSome};
ghost use Rattle.fd_disk.specs.Folders.{WhereTold};
ghost use Rattle.fd_outcome.specs.{Asking.{rules_of}, Trying.{trial_rules}};
ghost use Rattle.fd_trial.specs.Size.{IsTrialSize};
ghost use Rattle.fd_stops.specs.Found.{EachLeft, FoundStored, FoundTried};

use crate::stopping::Stopping;
use fd_archive::archive;
use fd_key::Given;
use fd_objects::{Objects, World};
use fd_stored::Status;
use fd_trial::trial;
use fd_words::Root;
use std::sync::Wait;
use std::thread::Threads;

/// Archives to a store that passes so many calls on and fails all later ones. Whatever their number is, and whatever is told,
/// each store that a crash may leave then of the one below has its schema, and each sound dataset what it held and behind it
/// few batches of these messages, each of them whole. So it is with a crash in the middle of an archive, at any of its calls.
pub fn archive_until<W: World, R: Threads + Wait + Sync>(
    rt: &R,
    objects: &mut Objects<Stopping<W>>,
    root: &Root,
    given: &Given,
    workers: u32,
) -> Status
    requires home { (name : List ℕ) → W.Store.out objects.old.store.inner name ≡ false }
    requires workers { (1 ≤ workers) × (workers ≤ 8) }
    ensures left { IfSome (W.Input.left objects.old.input) (λ octets. WhereTold (W.Store.has objects.old.store.inner)
        (W.Store.has objects.new.store.inner) (EachLeft (λ h j. FoundStored workers (rules_of h.schema) given.now octets h j))) }
    ensures home { (name : List ℕ) → W.Store.out objects.new.store.inner name ≡ false }
{
    archive(rt, objects, root, given, workers)
}

/// Runs a trial over a store that passes so many calls on and fails all later ones. Whatever their number is, and whatever is
/// told, each store that a crash may leave then of the one below has the schema that it had, or, where it had none, maybe that of
/// a trial, and of each sound dataset what it held, and behind it few batches of the trial's messages, each of them whole.
pub fn trial_until<W: World, R: Threads + Wait + Sync>(
    rt: &R,
    objects: &mut Objects<Stopping<W>>,
    root: &Root,
    count: u32,
    workers: u32,
) -> Status
    requires size { IsTrialSize count workers }
    requires home { (name : List ℕ) → W.Store.out objects.old.store.inner name ≡ false }
    ensures left { WhereTold (W.Store.has objects.old.store.inner) (W.Store.has objects.new.store.inner)
        (EachLeft (λ h j. FoundTried workers count (trial_rules h.schema) h j)) }
    ensures home { (name : List ℕ) → W.Store.out objects.new.store.inner name ≡ false }
{
    trial(rt, objects, root, count, workers)
}
