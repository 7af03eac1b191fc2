// What runs the command that the words ask for.
ghost use Rattle.std.specs.Prelude.{◌≡◌, false, List, ℕ};
ghost use Rattle.fd_words.specs.Words.{IsWithinLimits};
ghost use Rattle.fd_objects.specs.Objects.{Over};
ghost use Rattle.fd_top.specs.Served.{CommandRan};

use fd_archive::archive;
use fd_contents::{axes, cubes, list, stats};
use fd_layered::retrieve_over;
use fd_objects::{Objects, World};
use fd_outcome::Listing;
use fd_reclaim::{purge, wipe};
use fd_retrieve::retrieve;
use fd_session::session;
use fd_stored::Status;
use fd_streams::{create, generate, pick, split, write_list};
use fd_trial::trial;
use fd_words::Command;
use std::sync::Wait;
use std::thread::Threads;

/// Runs a command.
pub(crate) fn run<W: World, R: Threads + Wait + Sync>(
    rt: &R,
    objects: &mut Objects<W>,
    command: &Command,
) -> Status
    requires home { (name : List ℕ) → W.Store.out objects.old.store name ≡ false }
    requires within { IsWithinLimits command.now }
    ensures did { Over W.Store.Store W.Input.Source W.Output.Sink W.Report.Sink objects (CommandRan W.StoreFault command.now result) }
    ensures home { (name : List ℕ) → W.Store.out objects.new.store name ≡ false }
{
    match command {
        Command::Pick(wanted) => pick(objects, wanted),
        Command::Describe => write_list(objects, Listing::Descriptions),
        Command::Values(decimals) => { write_list(objects, Listing::Points(*decimals)) }
        Command::Generate(count) => generate(objects, *count),
        Command::Split => split(objects),
        Command::Create(root) => create(objects, root),
        Command::Archive(root, given, workers) => { archive(rt, objects, root, given, *workers) }
        Command::Retrieve(root, workers) => { retrieve(rt, objects, root, *workers) }
        Command::RetrieveOver(root, layers, workers) => {
            retrieve_over(rt, objects, root, layers, *workers)
        }
        Command::List(root) => list(objects, root),
        Command::Axes(root) => axes(objects, root),
        Command::Stats(root) => stats(objects, root),
        Command::Cubes(root) => cubes(objects, root),
        Command::Session(root) => session(rt, objects, root),
        Command::Trial(root, count, workers) => { trial(rt, objects, root, *count, *workers) }
        Command::Purge(root, dataset) => purge(objects, root, dataset),
        Command::Wipe(root, dataset) => wipe(objects, root, dataset),
    }
}
