// The commands.
ghost use Rattle.std.specs.Prelude.{◌≡◌, ◌⊎◌, List, ℕ, Option, IfSome, false};
ghost use Rattle.fd_disk.specs.Folders.{Holdings};
ghost use Rattle.fd_words.specs.declared.command.Command.{Command};
ghost use Rattle.fd_words.specs.declared.command.Command.TheVariants as commands;
ghost use Rattle.fd_outcome.specs.{Noticing.{AnswersFirmly, Notices}, Ran.{Ran}, Rows.{axes_text, list_text}};
ghost use Rattle.fd_stored.specs.{declared.status.Status.TheVariants.{Done, Missed}, Store.{AreNames}};
ghost use Rattle.fd_objects.specs.Objects.{Over, since, until};
ghost use Rattle.fd_retrieve.specs.Ready.{AreFirmOf};
ghost use Rattle.fd_contents.specs.{Asked.{Begins}, Listing.{Lists, command_with, keys_text}, Printed.{PrintsAll}, Recorded.{CountsRecords}};

use crate::datasets::{Halt, print};
use crate::lines::{KeyLines, Lines, lines_with};
use crate::reading::{partial, ruled};
use fd_objects::{Objects, World};
use fd_outcome::tell_output_failed;
use fd_stored::Status;
use fd_telling::tell_stop;
use fd_words::Root;

/// Writes a line for each key that the partial request on the input asks for: `DATASET INDEX DATUM LENGTH NUMBER`, dataset by
/// dataset in byte order, and of a dataset by index text and then datum text, with the length of the key's newest message
/// and the number of the entry that has it. No folder of the store is out, and none is out afterwards; nothing is made in
/// the store. At 0 all tables are firm then, so what was listed outlasts a crash.
pub fn list<W: World>(objects: &mut Objects<W>, root: &Root) -> Status
    requires home { (name : List ℕ) → W.Store.out objects.old.store name ≡ false }
    ensures lists { Over W.Store.Store W.Input.Source W.Output.Sink W.Report.Sink objects (Lists (commands.List root.now) list_text result) }
    ensures home { (name : List ℕ) → W.Store.out objects.new.store name ≡ false }
{
    listed(objects, root, KeyLines::List)
}

/// Writes a line for each index text of the keys that the partial request on the input asks for, and each name in their
/// datum texts: `DATASET INDEX NAME=V/W`, dataset by dataset in byte order, with index texts, names and values in byte order.
/// No folder of the store is out, and none is out afterwards; nothing is made in the store.
pub fn axes<W: World>(objects: &mut Objects<W>, root: &Root) -> Status
    requires home { (name : List ℕ) → W.Store.out objects.old.store name ≡ false }
    ensures lists { Over W.Store.Store W.Input.Source W.Output.Sink W.Report.Sink objects (Lists (commands.Axes root.now) axes_text result) }
    ensures home { (name : List ℕ) → W.Store.out objects.new.store name ≡ false }
{
    listed(objects, root, KeyLines::Axes)
}

/// Writes a line for each dataset that has a table: `DATASET entries n fields f keys k bytes b`, in byte order. The input isn't
/// read. No folder of the store is out, and none is out afterwards; nothing is made in the store.
pub fn stats<W: World>(objects: &mut Objects<W>, root: &Root) -> Status
    requires home { (name : List ℕ) → W.Store.out objects.old.store name ≡ false }
    ensures ran { Over W.Store.Store W.Input.Source W.Output.Sink W.Report.Sink objects (Ran (commands.Stats root.now) result) }
    ensures notices { Over W.Store.Store W.Input.Source W.Output.Sink W.Report.Sink objects (Notices (commands.Stats root.now) result) }
    ensures firm { Over W.Store.Store W.Input.Source W.Output.Sink W.Report.Sink objects
        (λ store input _ _. AnswersFirmly (commands.Stats root.now) result store input) }
    ensures recorded { Over W.Store.Store W.Input.Source W.Output.Sink W.Report.Sink objects
        (λ store _ output _. CountsRecords result store.before output) }
    ensures input { objects.new.input ≡ objects.old.input }
    ensures home { (name : List ℕ) → W.Store.out objects.new.store name ≡ false }
{
    match ruled(objects.alloc, root, &mut objects.store) {
        Ok(()) => printed(objects, &Lines::Stats),
        Err(stop) => tell_stop(objects.alloc, &mut objects.store, &mut objects.report, stop),
    }
}

/// Writes such lines of the keys that the partial request on the input asks for.
fn listed<W: World>(objects: &mut Objects<W>, root: &Root, kind: KeyLines) -> Status
    requires home { (name : List ℕ) → W.Store.out objects.old.store name ≡ false }
    ensures lists { Over W.Store.Store W.Input.Source W.Output.Sink W.Report.Sink objects
        (Lists (command_with kind root.now) (keys_text kind) result) }
    ensures home { (name : List ℕ) → W.Store.out objects.new.store name ≡ false }
{
    match partial(objects.alloc, root, &mut objects.store, &mut objects.input) {
        Ok(partial) => {
            let lines = lines_with(kind, partial);
            printed(objects, &lines)
        }
        Err(stop) => tell_stop(objects.alloc, &mut objects.store, &mut objects.report, stop),
    }
}

/// Writes the lines of all datasets, and on the report only what ends them early.
fn printed<W: World>(objects: &mut Objects<W>, lines: &Lines) -> Status
    requires home { (name : List ℕ) → W.Store.out objects.old.store name ≡ false }
    ensures ran { Over W.Store.Store W.Input.Source W.Output.Sink W.Report.Sink objects (λ store input output report.
        (command : Command) (before : Option Holdings) (faults : ℕ) (left : Option (List ℕ)) (reads : ℕ)
        → Begins command lines.now before store.before faults store.faults_before (until left reads input)
        → Ran command result (since before faults store) (since left reads input) output report) }
    ensures whole { Over W.Store.Store W.Input.Source W.Output.Sink W.Report.Sink objects
        (λ store _ output report. (result ≡ Done) ⊎ (result ≡ Missed)
        → PrintsAll lines.now result store.before output report) }
    ensures firm { (result ≡ Done) ⊎ (result ≡ Missed)
        → IfSome (W.Store.has objects.old.store) (λ h. (names : List (List ℕ)) → AreNames h names
        → IfSome (W.Store.has objects.new.store) (λ i. AreFirmOf i names)) }
    ensures input { objects.new.input ≡ objects.old.input }
    ensures home { (name : List ℕ) → W.Store.out objects.new.store name ≡ false }
{
    match print(
        objects.alloc,
        lines,
        &mut objects.store,
        &mut objects.output,
    ) {
        Ok(()) => Status::Done,
        Err(Halt::Unwritten(_)) => tell_output_failed(&mut objects.report),
        Err(Halt::Stop(stop)) => tell_stop(
            objects.alloc,
            &mut objects.store,
            &mut objects.report,
            stop,
        ),
    }
}
