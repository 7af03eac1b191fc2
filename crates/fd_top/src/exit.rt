// How the program ends: the exit status by the status of its run.
ghost use Rattle.std.specs.{Prelude.{◌≡◌, false, List, ℕ}, Process.{exit_status}};
ghost use Rattle.fd_words.specs.Texts.{texts};
ghost use Rattle.fd_stored.specs.Codes.{code_of};
ghost use Rattle.fd_objects.specs.Objects.{Over};
ghost use Rattle.fd_top.specs.Served.{ServedAs};

use crate::top::fdb;
use fd_objects::{Objects, World};
use fd_stored::Status;
use std::process::ExitCode;
use std::sync::Wait;
use std::thread::Threads;

/// The exit status of a run that ended so.
pub fn ended(status: Status) -> ExitCode
    ensures { exit_status result ≡ code_of status }
{
    ExitCode::from(status.code())
}

/// Runs the command that the words after the program's name ask for, as `fdb` does, and tells by the exit status how the
/// run ended.
pub fn ran<W: World, R: Threads + Wait + Sync>(
    rt: &R,
    objects: &mut Objects<W>,
    words: &[&str],
) -> ExitCode
    // No folder is out of the store.
    requires home { (name : List ℕ) → W.Store.out objects.old.store name ≡ false }

    // What holds of the run, fact by fact, where it ended with the status that is told so.
    ensures served { Over W.Store.Store W.Input.Source W.Output.Sink W.Report.Sink objects
        (ServedAs W.StoreFault (texts words.now) (exit_status result)) }

    // Each folder is back in the store.
    ensures home { (name : List ℕ) → W.Store.out objects.new.store name ≡ false }
{
    let status = fdb(rt, objects, words);
    ended(status)
}
