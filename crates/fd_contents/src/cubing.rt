// The command `cubes`.
ghost use Rattle.std.specs.Prelude.{◌≡◌, List, ℕ, Option, false};
ghost use Rattle.fd_disk.specs.Folders.{Holdings};
ghost use Rattle.fd_objects.specs.Objects.{Over, since, until};
ghost use Rattle.fd_contents.specs.Cubing.{BeginsCubes, CubesRan};

use crate::gathering::keys_asked;
use crate::reading::partial;
use crate::telling::tell_keys;
use fd_objects::{Objects, World};
use fd_request::Partial;
use fd_stored::Status;
use fd_telling::tell_stop;
use fd_words::Root;

/// Writes requests that name exactly the keys that the partial request on the input asks for: each of these keys is a key of
/// exactly one of the lines, which stand in byte order, and no two of the lines can be joined to one. Nothing is written where
/// there are more keys than a request may have, or where one of them has a value that is a word of ranges. No folder of the store
/// is out, and none is out afterwards; nothing is made in the store.
pub fn cubes<W: World>(objects: &mut Objects<W>, root: &Root) -> Status
    requires home { (name : List ℕ) → W.Store.out objects.old.store name ≡ false }
    ensures ran { Over W.Store.Store W.Input.Source W.Output.Sink W.Report.Sink objects (CubesRan root.now result) }
    ensures home { (name : List ℕ) → W.Store.out objects.new.store name ≡ false }
{
    match partial(objects.alloc, root, &mut objects.store, &mut objects.input) {
        Ok(partial) => cubed(objects, &partial),
        Err(stop) => tell_stop(objects.alloc, &mut objects.store, &mut objects.report, stop),
    }
}

/// The same, once the partial request is read.
fn cubed<W: World>(objects: &mut Objects<W>, partial: &Partial) -> Status
    requires home { (name : List ℕ) → W.Store.out objects.old.store name ≡ false }
    ensures ran { Over W.Store.Store W.Input.Source W.Output.Sink W.Report.Sink objects (λ store input output report.
        (root : List ℕ) (before : Option Holdings) (faults : ℕ) (left : Option (List ℕ)) (reads : ℕ)
        → BeginsCubes partial.now before store.before faults store.faults_before (until left reads input)
        → CubesRan root result (since before faults store) (since left reads input) output report) }
    ensures input { objects.new.input ≡ objects.old.input }
    ensures home { (name : List ℕ) → W.Store.out objects.new.store name ≡ false }
{
    match keys_asked(objects.alloc, partial, &mut objects.store) {
        Ok(found) => tell_keys(
            objects.alloc,
            &found,
            &mut objects.output,
            &mut objects.report,
        ),
        Err(stop) => tell_stop(objects.alloc, &mut objects.store, &mut objects.report, stop),
    }
}
