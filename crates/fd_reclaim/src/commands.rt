// The commands.
ghost use Rattle.std.specs.Prelude.{◌≡◌, List, ℕ, false};
ghost use Rattle.fd_words.specs.declared.command.Command.TheVariants as commands;
ghost use Rattle.fd_outcome.specs.Ran.{Ran};
ghost use Rattle.fd_objects.specs.Objects.{Over};

use crate::reclaiming::{purged, wiped};
use crate::telling::{tell_halt, tell_purged, tell_wiped};
use fd_objects::{Objects, World};
use fd_stored::Status;
use fd_words::{Dataset, Root};

/// Has the table of a dataset list only entries that no later ones mask, removes the files of the others, and tells how many
/// these are: `purged d kept k`. Each key keeps its newest message. The input isn't read, and nothing goes to the output. No
/// folder of the store is out, and none is out afterwards.
pub fn purge<W: World>(objects: &mut Objects<W>, root: &Root, dataset: &Dataset) -> Status
    requires home { (name : List ℕ) → W.Store.out objects.old.store name ≡ false }
    ensures ran { Over W.Store.Store W.Input.Source W.Output.Sink W.Report.Sink objects (Ran (commands.Purge root.now dataset.now) result) }
    ensures input { objects.new.input ≡ objects.old.input }
    ensures output { objects.new.output ≡ objects.old.output }
    ensures home { (name : List ℕ) → W.Store.out objects.new.store name ≡ false }
{
    let text = dataset.as_str();
    match purged(objects.alloc, root.as_str(), &mut objects.store, text) {
        Ok(purged) => tell_purged(objects.alloc, &mut objects.report, purged),
        Err(halt) => tell_halt(
            objects.alloc,
            &mut objects.store,
            &mut objects.report,
            text,
            halt,
        ),
    }
}

/// Takes away the table of a dataset and the files of its entries, and tells how many entries there were: `wiped n`. The input
/// isn't read, and nothing goes to the output. No folder of the store is out, and none is out afterwards.
pub fn wipe<W: World>(objects: &mut Objects<W>, root: &Root, dataset: &Dataset) -> Status
    requires home { (name : List ℕ) → W.Store.out objects.old.store name ≡ false }
    ensures ran { Over W.Store.Store W.Input.Source W.Output.Sink W.Report.Sink objects (Ran (commands.Wipe root.now dataset.now) result) }
    ensures input { objects.new.input ≡ objects.old.input }
    ensures output { objects.new.output ≡ objects.old.output }
    ensures home { (name : List ℕ) → W.Store.out objects.new.store name ≡ false }
{
    let text = dataset.as_str();
    match wiped(objects.alloc, root.as_str(), &mut objects.store, text) {
        Ok(count) => tell_wiped(objects.alloc, &mut objects.report, count),
        Err(halt) => tell_halt(
            objects.alloc,
            &mut objects.store,
            &mut objects.report,
            text,
            halt,
        ),
    }
}
