// `session`.
ghost use Rattle.std.specs.Prelude.{◌≡◌, ◌≤◌, false, List, ℕ, Option, Ok, Some, IfSome, length, map};
ghost use Rattle.fd_bytes.specs.Causes.{Rose};
ghost use Rattle.fd_disk.specs.Folders.{Holdings};
ghost use Rattle.fd_schema.specs.{Grammar.{IsSchema}, Reading.{seen_place}};
ghost use Rattle.fd_words.specs.declared.command.Command.TheVariants as commands;
ghost use Rattle.fd_outcome.specs.{Asking.{rules_of}, Noticing.{ReadsFitly}};
ghost use Rattle.fd_objects.specs.Objects.{Over, since};
ghost use Rattle.fd_casting.specs.{Miscasts.{NoneFails}, Steps.{AreMessages, all_posed}};
ghost use Rattle.fd_lanes.specs.Acts.{ArePlaces, LanesFit};
ghost use Rattle.fd_session.specs.{Sessions.{RanSince, SessionRan}, Unopened.{OnDisk, ToldUnopened}};

use crate::closing::{note_all, tell_session};
use crate::reading::{Input, Unaccepted, read_input};
use crate::telling::{tell_miscast, tell_script};
use fd_casting::{CastFault, cast};
use fd_disk::Store;
use fd_io::Sink;
use fd_lanes::Transcript;
use fd_objects::{Objects, World};
use fd_outcome::{
    stored_schema, tell, tell_disk_failed, tell_input_failed, tell_no_memory, tell_refusal,
};
use fd_play::play;
use fd_recovery::OpenFault;
use fd_schema::{Place, Schema};
use fd_script::ScriptFault;
use fd_stored::Status;
use fd_telling::{Broken, tell_broken, tell_unruled};
use fd_words::Root;
use std::alloc::Global;
use std::sync::Wait;
use std::thread::Threads;

/// Runs the lanes of the script with which the input begins, over the messages behind it, in the script's dataset, each lane
/// in a thread of its own; writes what their gets found to the output, and how their steps ended to the report. No folder of
/// the store is out, and none is out afterwards. Nothing is archived and no table is founded before the whole input was
/// accepted; and nothing of the input is read where the store has no schema, or one that is none.
pub fn session<W: World, R: Threads + Wait + Sync>(
    rt: &R,
    objects: &mut Objects<W>,
    root: &Root,
) -> Status
    requires home { (name : List ℕ) → W.Store.out objects.old.store name ≡ false }
    ensures ran { Over W.Store.Store W.Input.Source W.Output.Sink W.Report.Sink objects (SessionRan W.StoreFault result) }
    ensures unread { Over W.Store.Store W.Input.Source W.Output.Sink W.Report.Sink objects
        (λ store input _ _. ReadsFitly (commands.Session root.now) store input) }
    ensures home { (name : List ℕ) → W.Store.out objects.new.store name ≡ false }
{
    match stored_schema(objects.alloc, &mut objects.store, root.as_str()) {
        Ok(schema) => session_by(rt, objects, &schema),
        Err(unruled) => tell_unruled(
            objects.alloc,
            &mut objects.store,
            &mut objects.report,
            unruled,
        ),
    }
}

/// The same, by the store's rules.
fn session_by<W: World, R: Threads + Wait + Sync>(
    rt: &R,
    objects: &mut Objects<W>,
    schema: &Schema,
) -> Status
    requires home { (name : List ℕ) → W.Store.out objects.old.store name ≡ false }
    requires schema { IsSchema schema.now }
    requires rules { IfSome (W.Store.has objects.old.store) (λ h. rules_of h.schema ≡ Ok schema.now) }
    ensures ran { Over W.Store.Store W.Input.Source W.Output.Sink W.Report.Sink objects (λ store input output report.
        (before : Option Holdings) (faults : ℕ) → store.before ≡ before → faults ≤ store.faults_before
        → SessionRan W.StoreFault result (since before faults store) input output report) }
    ensures home { (name : List ℕ) → W.Store.out objects.new.store name ≡ false }
{
    match read_input(objects.alloc, &mut objects.input) {
        Ok(read) => session_of(rt, objects, schema, &read),
        Err(Unaccepted::Unread) => tell_input_failed(&mut objects.report),
        Err(Unaccepted::Script(ScriptFault::At { line, kind })) => {
            tell_script(objects.alloc, &mut objects.report, line, &kind)
        }
        Err(Unaccepted::Script(ScriptFault::NoMemory)) => tell_no_memory(&mut objects.report),
        Err(Unaccepted::Stream(refusal)) => tell_refusal(
            objects.alloc,
            &mut objects.report,
            refusal,
        ),
        Err(Unaccepted::NoMemory) => tell_no_memory(&mut objects.report),
    }
}

/// The same, of an input that was read.
fn session_of<W: World, R: Threads + Wait + Sync>(
    rt: &R,
    objects: &mut Objects<W>,
    schema: &Schema,
    read: &Input,
) -> Status
    requires home { (name : List ℕ) → W.Store.out objects.old.store name ≡ false }
    requires schema { IsSchema schema.now }
    requires short { length read.now.script.dataset ≤ 255 }
    requires each { AreMessages read.now.messages }
    ensures ran { Over W.Store.Store W.Input.Source W.Output.Sink W.Report.Sink objects
        (RanSince W.StoreFault result schema.now read.now.script read.now.messages) }
    ensures input { objects.new.input ≡ objects.old.input }
    ensures home { (name : List ℕ) → W.Store.out objects.new.store name ≡ false }
{
    let Input { script, messages } = read;
    match cast(objects.alloc, script, schema, messages.as_slice()) {
        Ok(places) => {
            let places = places.as_slice();
            run_script(rt, objects, schema, read, places)
        }
        Err(CastFault::At { line, kind }) => tell_miscast(
            objects.alloc,
            &mut objects.report,
            line,
            kind,
        ),
        Err(CastFault::NoMemory) => tell_no_memory(&mut objects.report),
    }
}

/// Runs a script that was accepted, and tells what it did.
fn run_script<W: World, R: Threads + Wait + Sync>(
    rt: &R,
    objects: &mut Objects<W>,
    schema: &Schema,
    read: &Input,
    places: &[Place],
) -> Status
    requires home { (name : List ℕ) → W.Store.out objects.old.store name ≡ false }
    requires short { length read.now.script.dataset ≤ 255 }
    requires steps { LanesFit schema.now read.now.messages read.now.script.dataset (map seen_place places.now) read.now.script.lanes }
    requires places { ArePlaces schema.now read.now.messages read.now.script.lanes (map seen_place places.now) }
    requires done { NoneFails schema.now read.now.script.dataset read.now.messages (all_posed read.now.script.lanes) }
    ensures ran { Over W.Store.Store W.Input.Source W.Output.Sink W.Report.Sink objects
        (RanSince W.StoreFault result schema.now read.now.script read.now.messages) }
    ensures input { objects.new.input ≡ objects.old.input }
    ensures home { (name : List ℕ) → W.Store.out objects.new.store name ≡ false }
{
    let Input { script, messages } = read;
    let messages = messages.as_slice();
    match play(
        rt,
        objects.alloc,
        schema,
        script,
        messages,
        places,
        &mut objects.store,
        &objects.gate,
    ) {
        Ok(transcript) => {
            let status = tell_session(
                objects.alloc,
                script,
                &transcript,
                &mut objects.output,
                &mut objects.report,
            );
            let Transcript { before: _, lanes } = transcript;
            note_all(&mut objects.store, lanes);
            status
        }
        Err(fault) => tell_unopened(
            objects.alloc,
            script.dataset(),
            &mut objects.store,
            &mut objects.report,
            fault,
        ),
    }
}

/// Writes the line of why a dataset wasn't opened. A fault of the store is counted.
fn tell_unopened<F: Send, X: Drop, S: Store<F>, E: Sink<X>>(
    alloc: Global,
    dataset: &str,
    store: &mut S,
    report: &mut E,
    fault: OpenFault<F>,
) -> Status
where
    ensures told { ToldUnopened dataset.now fault result
        (E.taken report.old) (E.taken report.new) (E.faults report.old) (E.faults report.new) }
    ensures noted { OnDisk fault (Rose (S.faults store.old) (S.faults store.new)) }
    ensures has { S.has store.new ≡ S.has store.old }
    ensures out { S.out store.new ≡ S.out store.old }
{
    match fault {
        OpenFault::Disk(fault) => {
            store.note(fault);
            tell_disk_failed(report)
        }
        OpenFault::NotATable { at, want, found } => {
            tell_broken(alloc, report, dataset, Broken::Table { at, want, found })
        }
        OpenFault::Damaged(damage) => tell_broken(alloc, report, dataset, Broken::File(damage)),
        OpenFault::TooMany { count: _ } => tell(report, "limit TooMany 2049\n", Status::Limit),
        OpenFault::NoMemory => tell_no_memory(report),
    }
}
