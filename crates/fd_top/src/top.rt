// The top call.
ghost use Rattle.std.specs.Prelude.{◌≡◌, false, List, ℕ};
ghost use Rattle.fd_words.specs.{Texts.{texts}, Words.{command_of}};
ghost use Rattle.fd_objects.specs.Objects.{Over};
ghost use Rattle.fd_top.specs.Served.{Served};

use crate::running::run;
use fd_objects::{Objects, World};
use fd_outcome::{tell, tell_no_memory};
use fd_stored::Status;
use fd_words::read_command;
use std::sync::Wait;
use std::thread::Threads;

const USAGE: &str =
    "usage: fdb pick describe values generate create archive retrieve list axes stats session trial purge wipe cubes split\n";

/// Runs the command that the words after the program's name ask for, over a store, an input, an output and a report, each
/// of which may be real or an object in memory. The gate is passed by what runs in threads of its own. The status tells how
/// the run ended, and all but `Done` and `Missed` write the line that belongs to it on the report. No folder of the store is
/// out, and none is out afterwards.
pub fn fdb<W: World, R: Threads + Wait + Sync>(
    rt: &R,
    objects: &mut Objects<W>,
    words: &[&str],
) -> Status
    // No folder is out of the store.
    requires home { (name : List ℕ) → W.Store.out objects.old.store name ≡ false }

    // What holds of the run, fact by fact, for the command that the words ask for, or where they ask for none.
    ensures served { Over W.Store.Store W.Input.Source W.Output.Sink W.Report.Sink objects
        (Served W.StoreFault (command_of (texts words.now)) result) }

    // Each folder is back in the store.
    ensures home { (name : List ℕ) → W.Store.out objects.new.store name ≡ false }
{
    match read_command(objects.alloc, words) {
        Ok(Some(command)) => run(rt, objects, &command),
        Ok(None) => tell(&mut objects.report, USAGE, Status::Words),
        Err(_) => tell_no_memory(&mut objects.report),
    }
}
