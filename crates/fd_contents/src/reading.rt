// What is read before the first dataset is opened.
ghost use Rattle.std.specs.{Prelude.{◌≡◌, ◌≤◌, [], Some, Ok, Err, IfOk, IfErr, IfSome, OnOk}, Result.{IsErr}};
ghost use Rattle.fd_outcome.specs.{Asking.{partial_in, rules_of}, Noticing.{IsUnread}};
ghost use Rattle.fd_objects.specs.Given.{source_of};
ghost use Rattle.fd_telling.specs.Stops.{HasReadCause, OnInput, OnRequest};
ghost use Rattle.fd_contents.specs.Asked.{IsEarly, IsRuled, Refuses, asked_in, unruled};

use fd_disk::Store;
use fd_io::Source;
use fd_outcome::{Unread, Unruled, read_front, stored_schema};
use fd_request::{Partial, RequestFault};
use fd_split::INPUT_LIMIT;
use fd_telling::Stop;
use fd_words::Root;
use std::alloc::Global;

/// Tells that the store has a schema that is one.
pub(crate) fn ruled<F: Send, S: Store<F>>(
    alloc: Global,
    root: &Root,
    store: &mut S,
) -> Result<(), Stop<F>>
    ensures ok { OnOk result (IfSome (S.has store.old) (λ h. IsRuled h.schema)) }
    ensures refused { IfErr result (λ e. IfSome (S.has store.old) (λ h. Refuses e (unruled h.schema))) }
    ensures input { IfErr result (λ e. OnInput e ⊥) }
    ensures early { IfErr result IsEarly }
    ensures has { S.has store.new ≡ S.has store.old }
    ensures out { S.out store.new ≡ S.out store.old }
    ensures later { S.faults store.old ≤ S.faults store.new }
{
    match stored_schema(alloc, store, root.as_str()) {
        Ok(_) => Ok(()),
        Err(Unruled::Disk(fault)) => Err(Stop::Disk(fault)),
        Err(Unruled::Missing) => Err(Stop::Missing),
        Err(Unruled::At { line, kind }) => Err(Stop::Schema { line, kind }),
        Err(Unruled::NoMemory) => Err(Stop::NoMemory),
    }
}

/// The partial request that the input is.
fn partial_of<F, X: Drop, I: Source<X>>(alloc: Global, input: &mut I) -> Result<Partial, Stop<F>>
    ensures ok { IfOk result (λ p. IfSome (I.left input.old) (λ octets. (partial_in octets ≡ Ok p) × (I.left input.new ≡ Some []))) }
    ensures refused { IfErr result (λ e. IfSome (I.left input.old) (λ octets. OnRequest e (partial_in octets))) }
    ensures early { IfErr result IsEarly }
    ensures cause { HasReadCause (I.faults input.old) (I.faults input.new) result }
{
    let text = match read_front(alloc, input, INPUT_LIMIT) {
        Ok(text) => text,
        Err(Unread::Fault(_)) => return Err(Stop::Input),
        Err(Unread::NoMemory) => return Err(Stop::NoMemory),
    };
    match Partial::read(alloc, &text) {
        Ok(partial) => Ok(partial),
        Err(RequestFault::At { at, kind }) => Err(Stop::Request { at, kind }),
        Err(RequestFault::NoMemory) => Err(Stop::NoMemory),
    }
}

/// Reads the partial request, where the store has a schema.
#[tactic(auto, using(crate::proofs::Whole::fitting))]
pub(crate) fn partial<F: Send, X: Drop, S: Store<F>, I: Source<X>>(
    alloc: Global,
    root: &Root,
    store: &mut S,
    input: &mut I,
) -> Result<Partial, Stop<F>>
    ensures asked { IfOk result (λ p. IfSome (S.has store.old) (λ h. IfSome (I.left input.old) (λ octets. asked_in h octets ≡ Ok p))) }
    ensures refused { IfErr result (λ e. IfSome (S.has store.old)
        (λ h. IfSome (I.left input.old) (λ octets. Refuses e (λ cause. asked_in h octets ≡ Err cause)))) }
    ensures early { IfErr result IsEarly }
    ensures read { OnOk result (IfSome (I.left input.old) (λ octets. I.left input.new ≡ Some [])) }
    ensures unread { IfSome (S.has store.old) (λ h. IsErr (rules_of h.schema) → IsUnread (source_of I.Source input)) }
    ensures cause { HasReadCause (I.faults input.old) (I.faults input.new) result }
    ensures has { S.has store.new ≡ S.has store.old }
    ensures out { S.out store.new ≡ S.out store.old }
    ensures later { S.faults store.old ≤ S.faults store.new }
{
    match ruled(alloc, root, store) {
        Ok(()) => {}
        Err(stop) => return Err(stop),
    }
    match partial_of(alloc, input) {
        Ok(partial) => Ok(partial),
        Err(stop) => Err(stop),
    }
}
