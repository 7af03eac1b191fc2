// `create`.
ghost use Rattle.std.specs.Prelude.{◌≡◌, false, List, ℕ, None, IfSome};
ghost use Rattle.fd_disk.specs.Folders.{WhereTold};
ghost use Rattle.fd_schema.specs.{Reading.{IsFirst}, Grammar.{Fault}};
ghost use Rattle.fd_words.specs.declared.command.Command.TheVariants.{Create};
ghost use Rattle.fd_outcome.specs.{Noticing.{ReadsFitly}, Ran.{Ran}, Told.{ToldOrNoMemory}};
ghost use Rattle.fd_stored.specs.Causes.{InSchema, telling};
ghost use Rattle.fd_objects.specs.Objects.{Over};
ghost use Rattle.fd_streams.specs.Creating.{IsCreatedOnly};

use fd_disk::{Down, Store};
use fd_io::Sink;
use fd_objects::{Objects, World};
use fd_outcome::{
    Unread, read_front, tell, tell_input_failed, tell_no_memory, tell_no_schema, tell_noted,
};
use fd_schema::{Schema, SchemaFault, SchemaKind};
use fd_stored::Status;
use fd_words::Root;
use std::alloc::Global;

/// Writes the line of a text that is no schema.
fn tell_schema<X: Drop, E: Sink<X>>(
    alloc: Global,
    report: &mut E,
    line: u32,
    kind: &SchemaKind,
) -> Status
    ensures { (text : List ℕ) (fault : Fault) → IsFirst text line kind.now fault
        → ToldOrNoMemory (telling (InSchema text fault)).status (telling (InSchema text fault)).line result
        (E.taken report.old) (E.taken report.new) (E.faults report.old) (E.faults report.new) }
{
    tell_no_schema(
        alloc,
        report,
        "refused schema ",
        line,
        kind,
        Status::Refused,
    )
}

/// Stores the input as the schema of a store that has none. Where it has one, nothing of the input is read; and whatever is
/// told, the store is the same but for the whole input as its schema.
pub fn create<W: World>(objects: &mut Objects<W>, root: &Root) -> Status
    requires home { (name : List ℕ) → W.Store.out objects.old.store name ≡ false }
    ensures ran { Over W.Store.Store W.Input.Source W.Output.Sink W.Report.Sink objects (Ran (Create root.now) result) }
    ensures kept { IfSome (W.Input.left objects.old.input) (λ octets. WhereTold (W.Store.has objects.old.store)
        (W.Store.has objects.new.store) (IsCreatedOnly octets)) }
    ensures output { objects.new.output ≡ objects.old.output }
    ensures unread { Over W.Store.Store W.Input.Source W.Output.Sink W.Report.Sink objects
        (λ store input _ _. ReadsFitly (Create root.now) store input) }
    ensures home { (name : List ℕ) → W.Store.out objects.new.store name ≡ false }
{
    match objects.store.enter(objects.alloc, root.as_str()) {
        Ok(()) => {}
        Err(Down::Fault(fault)) => return tell_noted(
            &mut objects.store,
            &mut objects.report,
            fault,
        ),
        Err(Down::NoMemory) => return tell_no_memory(&mut objects.report),
    }
    match objects.store.schema(objects.alloc) {
        Ok(None) => plant(objects, root),
        Ok(Some(_)) => tell(
            &mut objects.report,
            "refused SchemaPresent\n",
            Status::Refused,
        ),
        Err(Down::Fault(fault)) => tell_noted(&mut objects.store, &mut objects.report, fault),
        Err(Down::NoMemory) => tell_no_memory(&mut objects.report),
    }
}

/// The same, where the store has none.
fn plant<W: World>(objects: &mut Objects<W>, root: &Root) -> Status
    requires home { (name : List ℕ) → W.Store.out objects.old.store name ≡ false }
    requires none { IfSome (W.Store.has objects.old.store) (λ h. h.schema ≡ None) }
    ensures ran { Over W.Store.Store W.Input.Source W.Output.Sink W.Report.Sink objects (Ran (Create root.now) result) }
    ensures kept { IfSome (W.Input.left objects.old.input) (λ octets. WhereTold (W.Store.has objects.old.store)
        (W.Store.has objects.new.store) (IsCreatedOnly octets)) }
    ensures output { objects.new.output ≡ objects.old.output }
    ensures home { (name : List ℕ) → W.Store.out objects.new.store name ≡ false }
{
    let text = match read_front(objects.alloc, &mut objects.input, 65_537) {
        Ok(text) => text,
        Err(Unread::Fault(_)) => return tell_input_failed(&mut objects.report),
        Err(Unread::NoMemory) => return tell_no_memory(&mut objects.report),
    };
    match Schema::read(objects.alloc, &text) {
        Ok(_) => {}
        Err(SchemaFault::At { line, kind }) => return tell_schema(
            objects.alloc,
            &mut objects.report,
            line,
            &kind,
        ),
        Err(SchemaFault::NoMemory) => return tell_no_memory(&mut objects.report),
    }
    match objects.store.plant(objects.alloc, &text) {
        Ok(()) => tell(&mut objects.report, "created\n", Status::Done),
        Err(Down::Fault(fault)) => tell_noted(&mut objects.store, &mut objects.report, fault),
        Err(Down::NoMemory) => tell_no_memory(&mut objects.report),
    }
}
