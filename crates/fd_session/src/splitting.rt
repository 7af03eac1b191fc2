// A stream that is in memory, split into its messages.
ghost use Rattle.std.specs.Prelude.{◌≡◌, ◌≤◌, ◌<◌, ◌^◌, List, ℕ, Some, IfOk, IfErr, OnOk, drop, length};
ghost use Rattle.fd_sections.specs.{Stream.{stream}, Splitting.{fed, start}, Joining.{IsWaiting}};
ghost use Rattle.fd_session.specs.{Inputs.{refusal_of}, Splits.{HasGiven, Measures}, Split.{IsRefusal, IsSplit, Splits}};

use fd_bytes::{Bytes, Items, NoMemory};
use fd_sections::Splitter;
use fd_split::{Refusal, refusal_of};
use std::alloc::Global;

/// Why a stream has not all its messages.
#[derive(Clone, Copy, Debug, PartialEq, Eq)]
pub(crate) enum Unsplit {
    /// It is refused.
    Refused(Refusal),
    /// An allocation was refused.
    NoMemory,
}

impl From<NoMemory> for Unsplit {
    ghost use Rattle.fd_session.specs.declared.splitting.Unsplit.TheVariants as unsplits;

    ghost from_gives = { λ _ e. e ≡ unsplits.NoMemory };

    fn from(_: NoMemory) -> Unsplit {
        Unsplit::NoMemory
    }
}

/// Takes the next message, if one is whole, and tells whether one was.
fn take_one(
    alloc: Global,
    splitter: &mut Splitter,
    messages: &mut Items<Bytes>,
) -> Result<bool, Unsplit>
    ensures given { IfOk result (λ some. (octets : List ℕ) → HasGiven octets splitter.old messages.old → HasGiven octets splitter.new messages.new) }
    ensures measure { IfOk result (λ some. Measures some splitter.old splitter.new) }
    ensures refused { IfErr result (λ e. IsRefusal e (λ r. (octets : List ℕ) (past : _) → HasGiven octets splitter.old messages.old → refusal_of past (stream octets) ≡ Some r)) }
{
    match splitter.next() {
        Ok(None) => Ok(false),
        Ok(Some(message)) => {
            messages.push(Bytes::from_slice(alloc, message.bytes())?)?;
            Ok(true)
        }
        Err(at) => Err(Unsplit::Refused(refusal_of(at))),
    }
}

/// Takes all messages that are whole.
fn take_all(
    alloc: Global,
    splitter: &mut Splitter,
    messages: &mut Items<Bytes>,
) -> Result<(), Unsplit>
    ensures given { OnOk result ((octets : List ℕ) → HasGiven octets splitter.old messages.old → HasGiven octets splitter.new messages.new) }
    ensures waits { OnOk result (IsWaiting splitter.new) }
    ensures refused { IfErr result (λ e. IsRefusal e (λ r. (octets : List ℕ) (past : _) → HasGiven octets splitter.old messages.old → refusal_of past (stream octets) ≡ Some r)) }
{
    'messages: loop {
        match take_one(alloc, splitter, messages) {
            Ok(true) => {}
            Ok(false) => return Ok(()),
            Err(unsplit) => return Err(unsplit),
        }
    }
}

/// The end of a stream whose whole messages were taken.
fn stream_end(splitter: Splitter, past: bool) -> Result<(), Refusal>
    requires { IsWaiting splitter }
    ensures { (octets : List ℕ) (messages : List (List ℕ)) → HasGiven octets splitter messages → Splits octets past messages result }
{
    if past {
        return Err(Refusal::Input);
    }
    match splitter.finish() {
        Ok(_) => Ok(()),
        Err(cut) => Err(Refusal::Cut(cut)),
    }
}

/// All messages of a stream, of which these were given and no other is whole.
fn ended(splitter: Splitter, past: bool, messages: Items<Bytes>) -> Result<Items<Bytes>, Unsplit>
    requires { IsWaiting splitter }
    ensures { (octets : List ℕ) → HasGiven octets splitter messages → IsSplit octets past result }
{
    match stream_end(splitter, past) {
        Ok(()) => Ok(messages),
        Err(refusal) => Err(Unsplit::Refused(refusal)),
    }
}

/// A splitter to which the octets behind a place of these have come. These are let go of, so that no message is copied beside
/// them.
fn splitter_behind(alloc: Global, octets: Vec<u8>, place: usize) -> Result<Splitter, NoMemory>
    requires place { place ≤ length octets.items }
    requires few { length octets.items < 2 ^ 63 }
    ensures { IfOk result (λ s. s ≡ fed start (drop place octets.items)) }
{
    let (_, behind) = octets.split_at(place);
    let mut splitter = Splitter::new(alloc)?;
    splitter.feed(behind)?;
    Ok(splitter)
}

/// The messages of the stream behind a place of these octets, behind which more come than an input may have, or none.
pub(crate) fn split_stream(
    alloc: Global,
    octets: Vec<u8>,
    place: usize,
    past: bool,
) -> Result<Items<Bytes>, Unsplit>
    requires place { place ≤ length octets.items }
    requires few { length octets.items < 2 ^ 63 }
    ensures { IsSplit (drop place octets.items) past result }
{
    let mut splitter = splitter_behind(alloc, octets, place)?;
    let mut messages = Items::new(alloc);
    match take_all(alloc, &mut splitter, &mut messages) {
        Ok(()) => ended(splitter, past, messages),
        Err(unsplit) => Err(unsplit),
    }
}
