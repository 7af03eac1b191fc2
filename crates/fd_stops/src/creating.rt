// `create`, until the store stops.
ghost use Rattle.std.specs.Prelude.{◌≡◌, false, List, ℕ, IfSome};
ghost use Rattle.fd_disk.specs.Folders.{WhereTold};
ghost use Rattle.fd_stops.specs.Found.{EachLeft, FoundCreated};

use crate::stopping::Stopping;
use fd_objects::{Objects, World};
use fd_stored::Status;
use fd_streams::create;
use fd_words::Root;

/// Stores a schema in a store that passes so many calls on and fails all later ones. Whatever their number is, and whatever is
/// told, each store that a crash may leave then of the one below has each dataset as a crash before may have left it, and the
/// schema that it had, or, where it had none, maybe the whole input, which is a schema then.
pub fn create_until<W: World>(objects: &mut Objects<Stopping<W>>, root: &Root) -> Status
    requires home { (name : List ℕ) → W.Store.out objects.old.store.inner name ≡ false }
    ensures left { IfSome (W.Input.left objects.old.input) (λ octets. WhereTold (W.Store.has objects.old.store.inner)
        (W.Store.has objects.new.store.inner) (EachLeft (FoundCreated octets))) }
    ensures home { (name : List ℕ) → W.Store.out objects.new.store.inner name ≡ false }
{
    create(objects, root)
}
