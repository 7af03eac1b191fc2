// The schema that a store has.
ghost use Rattle.std.specs.Prelude.{◌≡◌, ◌≤◌, Ok, IfOk, IfErr, IfSome};
ghost use Rattle.fd_bytes.specs.Causes.{Rose};
ghost use Rattle.fd_schema.specs.Grammar.{IsSchema};
ghost use Rattle.fd_outcome.specs.{Asking.{rules_of}, Unruled.{IsUnruled, OnDisk}};

use fd_disk::{Down, Store};
use fd_schema::{Schema, SchemaFault, SchemaKind};
use std::alloc::Global;

/// Why a store has no rules.
#[derive(Drop)]
pub enum Unruled<F> {
    /// A call of the store failed.
    Disk(F),
    /// There is no schema.
    Missing,
    /// The first place that is wrong in the schema stands in this line.
    At {
        /// The line, from 1.
        line: u32,
        /// What is wrong.
        kind: SchemaKind,
    },
    /// An allocation was refused.
    NoMemory,
}

/// The rules that a store has, whose root is picked first.
pub fn stored_schema<F: Send, S: Store<F>>(
    alloc: Global,
    store: &mut S,
    root: &str,
) -> Result<Schema, Unruled<F>>
    ensures ok { IfOk result (λ rules. IfSome (S.has store.old) (λ h. rules_of h.schema ≡ Ok rules)) }
    ensures read { IfOk result IsSchema }
    ensures err { IfErr result (λ e. IfSome (S.has store.old) (λ h. IsUnruled h.schema e)) }
    ensures has { S.has store.new ≡ S.has store.old }
    ensures out { S.out store.new ≡ S.out store.old }
    ensures later { S.faults store.old ≤ S.faults store.new }
    ensures cause { IfErr result (λ e. OnDisk e (Rose (S.faults store.old) (S.faults store.new))) }
{
    match store.enter(alloc, root) {
        Ok(()) => {}
        Err(Down::Fault(fault)) => return Err(Unruled::Disk(fault)),
        Err(Down::NoMemory) => return Err(Unruled::NoMemory),
    }
    let text = match store.schema(alloc) {
        Ok(Some(text)) => text,
        Ok(None) => return Err(Unruled::Missing),
        Err(Down::Fault(fault)) => return Err(Unruled::Disk(fault)),
        Err(Down::NoMemory) => return Err(Unruled::NoMemory),
    };
    match Schema::read(alloc, &text) {
        Ok(schema) => Ok(schema),
        Err(SchemaFault::At { line, kind }) => Err(Unruled::At { line, kind }),
        Err(SchemaFault::NoMemory) => Err(Unruled::NoMemory),
    }
}
