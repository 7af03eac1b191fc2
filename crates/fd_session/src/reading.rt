// The input of a session: its script, and the messages behind it.
ghost use Rattle.std.specs.Prelude.{◌≡◌, ◌≤◌, [], List, ℕ, Some, None, IfOk, IfErr, IfSome, OnOk, OnErr, length, nat_lt, take, drop, false};
ghost use Rattle.fd_bytes.specs.Causes.{Rose};
ghost use Rattle.fd_script.specs.Grammar.{script_of};
ghost use Rattle.fd_outcome.specs.Reading as unread;
ghost use Rattle.fd_split.specs.Limits.{input_limit};
ghost use Rattle.fd_casting.specs.Steps.{AreMessages};
ghost use Rattle.fd_session.specs.{Inputs.{IsInput}, Unaccepted.{IsNamed, OnRefused, OnUnread, Says}};

use crate::splitting::{Unsplit, split_stream};
use fd_bytes::{Bytes, Items};
use fd_io::Source;
use fd_outcome::{Unread, read_front};
use fd_script::{Script, ScriptFault};
use fd_split::{INPUT_LIMIT, Refusal};
use std::alloc::Global;

/// A script, and the messages of the stream behind it.
#[derive(Drop)]
pub struct Input {
    /// The script.
    pub script: Script,
    /// The messages, the first being number 1.
    pub messages: Items<Bytes>,
}

/// Why an input isn't taken as a session.
#[derive(Drop)]
pub enum Unaccepted {
    /// A read failed.
    Unread,
    /// The script isn't read, for this reason.
    Script(ScriptFault),
    /// The stream behind the script is refused.
    Stream(Refusal),
    /// An allocation was refused.
    NoMemory,
}

/// Tells whether an input has more octets.
fn has_more<X: Drop, I: Source<X>>(input: &mut I) -> Result<bool, X>
    ensures more { IfOk result (λ more. IfSome (I.left input.old) (λ octets. more ≡ nat_lt 0 (length octets))) }
    ensures end { IfOk result (λ more. more ≡ false → IfSome (I.left input.old) (λ octets. I.left input.new ≡ Some [])) }
    ensures count { I.faults input.old ≤ I.faults input.new }
    ensures calm { OnOk result (I.faults input.new ≡ I.faults input.old) }
    ensures cause { OnErr result (Rose (I.faults input.old) (I.faults input.new)) }
{
    let mut octet = [0u8; 1];
    let n = input.read(&mut octet)?;
    Ok(n > 0)
}

/// The octets of an input, at most as many as it may have, and whether more come.
fn read_octets<X: Drop, I: Source<X>>(
    alloc: Global,
    input: &mut I,
) -> Result<(Vec<u8>, bool), Unread<X>>
    ensures octets { IfOk result (λ r. IfSome (I.left input.old) (λ octets. (r.0.items ≡ take input_limit octets) × (r.1 ≡ nat_lt input_limit (length octets)))) }
    ensures few { IfOk result (λ r. length r.0.items ≤ 68719476736) }
    ensures end { IfOk result (λ r. r.1 ≡ false → IfSome (I.left input.old) (λ octets. I.left input.new ≡ Some [])) }
    ensures count { I.faults input.old ≤ I.faults input.new }
    ensures calm { OnOk result (I.faults input.new ≡ I.faults input.old) }
    ensures cause { IfErr result (λ e. unread.OnUnread e (Rose (I.faults input.old) (I.faults input.new))) }
{
    let octets = read_front(alloc, input, INPUT_LIMIT)?;
    match has_more(input) {
        Ok(more) => Ok((octets, more)),
        Err(fault) => Err(Unread::Fault(fault)),
    }
}

/// The script and the messages of these octets, behind which more come than an input may have, or none. The octets are let
/// go of before the messages are copied.
fn parse(alloc: Global, octets: Vec<u8>, past: bool) -> Result<Input, Unaccepted>
    requires { length octets.items ≤ 68719476736 }
    ensures input { IfOk result (λ r. (input : List ℕ) → octets.items ≡ take input_limit input → past ≡ nat_lt input_limit (length input) → IsInput input r.script r.messages) }
    ensures short { IfOk result (λ r. length r.script.dataset ≤ 255) }
    ensures each { IfOk result (λ r. AreMessages r.messages) }
    ensures whole { OnOk result (past ≡ false) }
    ensures refused { IfErr result (λ e. (input : List ℕ) → octets.items ≡ take input_limit input → past ≡ nat_lt input_limit (length input) → Says input e) }
    ensures named { IfErr result IsNamed }
    ensures read { IfErr result (λ e. OnUnread e ⊥) }
{
    let (script, place) = match Script::read(alloc, &octets) {
        Ok(read) => read,
        Err(fault) => return Err(Unaccepted::Script(fault)),
    };
    match split_stream(alloc, octets, place, past) {
        Ok(messages) => Ok(Input { script, messages }),
        Err(Unsplit::Refused(refusal)) => Err(Unaccepted::Stream(refusal)),
        Err(Unsplit::NoMemory) => Err(Unaccepted::NoMemory),
    }
}

/// Reads an input to its end: its script, and the messages behind it.
pub fn read_input<X: Drop, I: Source<X>>(alloc: Global, input: &mut I) -> Result<Input, Unaccepted>
    ensures input { IfOk result (λ r. IfSome (I.left input.old) (λ octets. IsInput octets r.script r.messages)) }
    ensures short { IfOk result (λ r. length r.script.dataset ≤ 255) }
    ensures each { IfOk result (λ r. AreMessages r.messages) }
    ensures to_end { OnOk result (IfSome (I.left input.old) (λ octets. I.left input.new ≡ Some [])) }
    ensures refused { IfErr result (λ e. IfSome (I.left input.old) (λ octets. Says octets e)) }
    ensures named { IfErr result IsNamed }
    ensures calm { OnOk result (I.faults input.new ≡ I.faults input.old) }
    ensures calm_err { IfErr result (λ e. OnRefused e (I.faults input.new ≡ I.faults input.old)) }
    ensures cause { IfErr result (λ e. OnUnread e (Rose (I.faults input.old) (I.faults input.new))) }
{
    match read_octets(alloc, input) {
        Ok((octets, past)) => parse(alloc, octets, past),
        Err(Unread::Fault(_)) => Err(Unaccepted::Unread),
        Err(Unread::NoMemory) => Err(Unaccepted::NoMemory),
    }
}
