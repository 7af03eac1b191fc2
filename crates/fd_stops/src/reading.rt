// The commands that only read, until the store stops. What they do is nothing that a crash may find.
ghost use Rattle.std.specs.Prelude.{◌≡◌, None, false, List, ℕ};
ghost use Rattle.fd_disk.specs.Folders.{WhereTold};
ghost use Rattle.fd_words.specs.Words.{IsWithinLimits};
ghost use Rattle.fd_words.specs.declared.command.Command.TheVariants as commands;
ghost use Rattle.fd_stops.specs.Found.{AnswersLast, EachLeft, IsAfterCrash};

use crate::stopping::Stopping;
use fd_contents::{axes, cubes, list, stats};
use fd_layered::retrieve_over;
use fd_objects::{Objects, World};
use fd_retrieve::retrieve;
use fd_stored::Status;
use fd_words::{Layers, Root};
use std::sync::Wait;
use std::thread::Threads;

/// Looks for fields in a store that passes so many calls on and fails all later ones. Whatever their number is, and whatever
/// is told, each store that a crash may leave then of the one below is one that a crash before may have left: its schema, each
/// dataset's files, and an image of each table. At 0 and 1 each dataset that was looked into holds there what it held.
pub fn retrieve_until<W: World, R: Threads + Wait + Sync>(
    rt: &R,
    objects: &mut Objects<Stopping<W>>,
    root: &Root,
    workers: u32,
) -> Status
    requires within { IsWithinLimits (commands.Retrieve root.now workers) }
    requires home { (name : List ℕ) → W.Store.out objects.old.store.inner name ≡ false }
    ensures before { WhereTold (W.Store.has objects.old.store.inner) (W.Store.has objects.new.store.inner) (EachLeft IsAfterCrash) }
    ensures answered { AnswersLast (commands.Retrieve root.now workers) result (W.Input.left objects.old.input)
        (W.Store.has objects.old.store.inner) (W.Store.has objects.new.store.inner) }
    ensures home { (name : List ℕ) → W.Store.out objects.new.store.inner name ≡ false }
{
    retrieve(rt, objects, root, workers)
}

/// The same over layers of datasets.
pub fn retrieve_over_until<W: World, R: Threads + Wait + Sync>(
    rt: &R,
    objects: &mut Objects<Stopping<W>>,
    root: &Root,
    layers: &Layers,
    workers: u32,
) -> Status
    requires within { IsWithinLimits (commands.RetrieveOver root.now layers.now workers) }
    requires home { (name : List ℕ) → W.Store.out objects.old.store.inner name ≡ false }
    ensures before { WhereTold (W.Store.has objects.old.store.inner) (W.Store.has objects.new.store.inner) (EachLeft IsAfterCrash) }
    ensures answered { AnswersLast (commands.RetrieveOver root.now layers.now workers) result (W.Input.left objects.old.input)
        (W.Store.has objects.old.store.inner) (W.Store.has objects.new.store.inner) }
    ensures home { (name : List ℕ) → W.Store.out objects.new.store.inner name ≡ false }
{
    retrieve_over(rt, objects, root, layers, workers)
}

/// Lists keys of a store that stops so, and leaves of it the same.
pub fn list_until<W: World>(objects: &mut Objects<Stopping<W>>, root: &Root) -> Status
    requires home { (name : List ℕ) → W.Store.out objects.old.store.inner name ≡ false }
    ensures before { WhereTold (W.Store.has objects.old.store.inner) (W.Store.has objects.new.store.inner) (EachLeft IsAfterCrash) }
    ensures answered { AnswersLast (commands.List root.now) result (W.Input.left objects.old.input) (W.Store.has objects.old.store.inner)
        (W.Store.has objects.new.store.inner) }
    ensures home { (name : List ℕ) → W.Store.out objects.new.store.inner name ≡ false }
{
    list(objects, root)
}

/// Lists the values of keys of a store that stops so, and leaves of it the same.
pub fn axes_until<W: World>(objects: &mut Objects<Stopping<W>>, root: &Root) -> Status
    requires home { (name : List ℕ) → W.Store.out objects.old.store.inner name ≡ false }
    ensures before { WhereTold (W.Store.has objects.old.store.inner) (W.Store.has objects.new.store.inner) (EachLeft IsAfterCrash) }
    ensures answered { AnswersLast (commands.Axes root.now) result (W.Input.left objects.old.input) (W.Store.has objects.old.store.inner)
        (W.Store.has objects.new.store.inner) }
    ensures home { (name : List ℕ) → W.Store.out objects.new.store.inner name ≡ false }
{
    axes(objects, root)
}

/// Lists the requests of keys of a store that stops so, and leaves of it the same.
pub fn cubes_until<W: World>(objects: &mut Objects<Stopping<W>>, root: &Root) -> Status
    requires home { (name : List ℕ) → W.Store.out objects.old.store.inner name ≡ false }
    ensures before { WhereTold (W.Store.has objects.old.store.inner) (W.Store.has objects.new.store.inner) (EachLeft IsAfterCrash) }
    ensures home { (name : List ℕ) → W.Store.out objects.new.store.inner name ≡ false }
{
    cubes(objects, root)
}

/// Counts what each dataset of a store holds that stops so, and leaves of it the same.
pub fn stats_until<W: World>(objects: &mut Objects<Stopping<W>>, root: &Root) -> Status
    requires home { (name : List ℕ) → W.Store.out objects.old.store.inner name ≡ false }
    ensures before { WhereTold (W.Store.has objects.old.store.inner) (W.Store.has objects.new.store.inner) (EachLeft IsAfterCrash) }
    ensures answered { AnswersLast (commands.Stats root.now) result None (W.Store.has objects.old.store.inner)
        (W.Store.has objects.new.store.inner) }
    ensures home { (name : List ℕ) → W.Store.out objects.new.store.inner name ≡ false }
{
    stats(objects, root)
}
