// `session`, until the store stops.
ghost use Rattle.std.specs.Prelude.{◌≡◌, false, List, ℕ, IfSome};
ghost use Rattle.fd_disk.specs.Folders.{WhereTold};
ghost use Rattle.fd_objects.specs.Objects.{sink_between};
ghost use Rattle.fd_stopped.specs.declared.fault.StopFault.{StopFault};
ghost use Rattle.fd_stops.specs.{Found.{EachLeft}, Playing.{FoundOfSession}};

use crate::stopping::Stopping;
use fd_objects::{Objects, World};
use fd_session::session;
use fd_stored::Status;
use fd_words::Root;
use std::sync::Wait;
use std::thread::Threads;

/// Runs a session over a store that passes so many calls on and fails all later ones. Whatever their number is, and whatever is
/// told, each store that a crash may leave then of the one below has its schema, and each dataset but the script's as a crash
/// before may have left it. The script's has what it held, and behind it the batch of each flush of which a lane was told that it
/// is listed, in the order of the table; and behind these at most one that is in doubt, whole.
pub fn session_until<W: World, R: Threads + Wait + Sync>(
    rt: &R,
    objects: &mut Objects<Stopping<W>>,
    root: &Root,
) -> Status
    requires home { (name : List ℕ) → W.Store.out objects.old.store.inner name ≡ false }
    ensures left { IfSome (W.Input.left objects.old.input) (λ octets. WhereTold (W.Store.has objects.old.store.inner)
        (W.Store.has objects.new.store.inner)
        (EachLeft (FoundOfSession (StopFault W.StoreFault) result (sink_between W.Output.Sink objects.old.output objects.new.output)
        (sink_between W.Report.Sink objects.old.report objects.new.report) octets))) }
    ensures home { (name : List ℕ) → W.Store.out objects.new.store.inner name ≡ false }
{
    session(rt, objects, root)
}
