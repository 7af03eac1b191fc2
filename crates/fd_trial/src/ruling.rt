//! The schema that a trial goes by.
ghost use Rattle.std.specs.Prelude.{◌≡◌, ◌≤◌, None, Ok, Some, IfErr, IfOk, IfSome};
ghost use Rattle.fd_bytes.specs.Causes.{Rose};
ghost use Rattle.fd_disk.specs.Folders.{WhereTold};
ghost use Rattle.fd_schema.specs.Grammar.{IsSchema};
ghost use Rattle.fd_outcome.specs.{Asking.{rules_of, ◌then◌}, Trying.{if_trial, trial_rules}, Ends.{IsPlanted}};
ghost use Rattle.fd_trial.specs.Ruling.{HasText, IsLeft, IsPlantedOnly, IsUnruledBy, IsUnruledIn, OnDisk};

use fd_disk::{Down, Store};
use fd_schema::{Schema, SchemaFault, SchemaKind};
use std::alloc::Global;

/// The schema of a trial, as it prints.
const PRINTED: &str =
    "[class, expver, date, time [centre, type, levtype [param, step, levelist?]]]\n";

/// The same, as it is planted.
const PLANTED: &str =
    "[class, expver, date, time [centre, type, levtype [param, step, levelist?]]]";

/// Why a trial has no rules.
#[derive(Drop)]
pub(crate) enum Unruled {
    /// A call of the store failed.
    Disk,
    /// The stored schema prints as another text.
    Different,
    /// The first place that is wrong in the stored schema stands in this line.
    At {
        /// The line, from 1.
        line: u32,
        /// What is wrong.
        kind: SchemaKind,
    },
    /// An allocation was refused.
    NoMemory,
}

/// Plants the schema of a trial in a store that has none, and gives its text.
fn plant<F: Send, S: Store<F>>(alloc: Global, store: &mut S) -> Result<Vec<u8>, Unruled>
    requires none { IfSome (S.has store.old) (λ h. h.schema ≡ None) }
    ensures text { HasText (S.has store.old) (S.has store.new) (S.faults store.old) (S.faults store.new) result }
    ensures out { S.out store.new ≡ S.out store.old }
    ensures later { S.faults store.old ≤ S.faults store.new }
{
    let text = match Vec::from_slice(alloc, PLANTED.as_bytes()) {
        Ok(text) => text,
        Err(_) => return Err(Unruled::NoMemory),
    };
    match store.plant(alloc, &text) {
        Ok(()) => Ok(text),
        Err(Down::Fault(fault)) => {
            store.note(fault);
            Err(Unruled::Disk)
        }
        Err(Down::NoMemory) => Err(Unruled::NoMemory),
    }
}

/// The text of the store's schema. Where there is none, that of a trial is planted.
fn text_in<F: Send, S: Store<F>>(
    alloc: Global,
    store: &mut S,
    root: &str,
) -> Result<Vec<u8>, Unruled>
    ensures text { HasText (S.has store.old) (S.has store.new) (S.faults store.old) (S.faults store.new) result }
    ensures out { S.out store.new ≡ S.out store.old }
    ensures later { S.faults store.old ≤ S.faults store.new }
{
    match store.enter(alloc, root) {
        Ok(()) => {}
        Err(Down::Fault(fault)) => {
            store.note(fault);
            return Err(Unruled::Disk);
        }
        Err(Down::NoMemory) => return Err(Unruled::NoMemory),
    }
    match store.schema(alloc) {
        Ok(Some(text)) => Ok(text),
        Ok(None) => plant(alloc, store),
        Err(Down::Fault(fault)) => {
            store.note(fault);
            Err(Unruled::Disk)
        }
        Err(Down::NoMemory) => Err(Unruled::NoMemory),
    }
}

/// The rules of a text, where they print as those of a trial do.
fn rules_in(alloc: Global, text: &[u8]) -> Result<Schema, Unruled>
    ensures rules { IfOk result (λ rules. (rules_of (Some text.now) then if_trial) ≡ Ok rules) }
    ensures read { IfOk result IsSchema }
    ensures unruled { IfErr result (IsUnruledBy text.now) }
{
    let schema = match Schema::read(alloc, text) {
        Ok(schema) => schema,
        Err(SchemaFault::At { line, kind }) => return Err(Unruled::At { line, kind }),
        Err(SchemaFault::NoMemory) => return Err(Unruled::NoMemory),
    };
    let Ok(printed) = schema.text(alloc) else {
        return Err(Unruled::NoMemory);
    };
    if printed.as_str() == PRINTED {
        Ok(schema)
    } else {
        Err(Unruled::Different)
    }
}

/// The rules of the store's schema. Where there is none, that of a trial is planted.
pub(crate) fn ruled<F: Send, S: Store<F>>(
    alloc: Global,
    store: &mut S,
    root: &str,
) -> Result<Schema, Unruled>
    ensures rules { IfOk result (λ rules. WhereTold (S.has store.old) (S.has store.new) (λ h m. IsPlanted h m × (trial_rules h.schema ≡ Ok rules))) }
    ensures read { IfOk result IsSchema }
    ensures unruled { IfErr result (λ e. WhereTold (S.has store.old) (S.has store.new) (λ h m. IsLeft h m × IsUnruledIn h e)) }
    ensures kept { WhereTold (S.has store.old) (S.has store.new) IsPlantedOnly }
    ensures disk { IfErr result (λ e. OnDisk e (Rose (S.faults store.old) (S.faults store.new))) }
    ensures out { S.out store.new ≡ S.out store.old }
    ensures later { S.faults store.old ≤ S.faults store.new }
{
    let text = match text_in(alloc, store, root) {
        Ok(text) => text,
        Err(unruled) => return Err(unruled),
    };
    rules_in(alloc, &text)
}
