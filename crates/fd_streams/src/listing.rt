// From a stream to the lines of its messages.
ghost use Rattle.std.specs.Prelude.{◌≡◌, ◌≤◌, [], Some, Ok, IfSome, IfOk, IfErr, OnOk};
ghost use Rattle.fd_io.specs.Streams.{Takes};
ghost use Rattle.fd_sections.specs.Parts.{sections_of};
ghost use Rattle.fd_packing.specs.Field.{field_of};
ghost use Rattle.fd_listing.specs.Describe.{describe_text};
ghost use Rattle.fd_outcome.specs.Listed.{field_lines, message_lines, alone, listed};
ghost use Rattle.fd_streams.specs.Halted.{AreFew, Comes, Halted, HaltedAs, HasCauses, HasOutputCause, IsWritten, ListedAll, ListedOne, halt_of};

use crate::feeding::{Stop, feed_piece};
use fd_bytes::NoMemory;
use fd_io::{Sink, Source};
use fd_listing::{TextFault, ValuesFault, describe, values};
use fd_outcome::{Listing, new_buffer};
use fd_sections::{Message, Splitter};
use fd_split::{Refusal, refusal_of};
use std::alloc::Global;

/// Why a listing ended before its input did.
#[derive(Drop)]
pub enum Halt<X> {
    /// A read failed.
    Unread(X),
    /// A write failed.
    Unwritten(X),
    /// The input is refused.
    Refused(Refusal),
    /// An allocation was refused.
    NoMemory,
}

impl<X> From<NoMemory> for Halt<X> {
    ghost use Rattle.fd_streams.specs.declared.listing.Halt.{Halt};

    ghost from_gives = { λ _ e. e ≡ Halt.NoMemory };

    fn from(_: NoMemory) -> Halt<X> {
        Halt::NoMemory
    }
}

/// Why a listing ends whose input isn't read on.
pub fn halt_of<X>(stop: Stop<X>) -> Halt<X>
    ensures { result ≡ halt_of stop }
{
    match stop {
        Stop::Fault(fault) => Halt::Unread(fault),
        Stop::Refused(refusal) => Halt::Refused(refusal),
        Stop::NoMemory => Halt::NoMemory,
    }
}

/// Writes what a message holds.
fn write_description<X, K: Sink<X>>(
    alloc: Global,
    number: u64,
    message: &Message<'_>,
    output: &mut K,
) -> Result<(), Halt<X>>
    ensures whole { OnOk result (Takes (K.taken output.old) (K.taken output.new) (describe_text number (sections_of message.now))) }
    ensures halted { IfErr result (λ e. HaltedAs e (K.taken output.old) (K.taken output.new) (alone (Ok (describe_text number (sections_of message.now))))) }
    ensures cause { HasOutputCause result (K.faults output.old) (K.faults output.new) }
{
    match describe(alloc, number, message, output) {
        Ok(()) => Ok(()),
        Err(TextFault::Write(fault)) => Err(Halt::Unwritten(fault)),
        Err(TextFault::NoMemory) => Err(Halt::NoMemory),
    }
}

/// Writes the values of a message.
fn write_points<X, K: Sink<X>>(
    alloc: Global,
    number: u64,
    message: &Message<'_>,
    decimals: Option<u8>,
    output: &mut K,
) -> Result<(), Halt<X>>
    requires { IfSome decimals (λ d. d ≤ 30) }
    ensures whole { OnOk result (IsWritten (field_lines number decimals (field_of (sections_of message.now))) (K.taken output.old) (K.taken output.new)) }
    ensures halted { IfErr result (λ e. HaltedAs e (K.taken output.old) (K.taken output.new) (alone (field_lines number decimals (field_of (sections_of message.now))))) }
    ensures cause { HasOutputCause result (K.faults output.old) (K.faults output.new) }
{
    match values(alloc, number, message, decimals, output) {
        Ok(()) => Ok(()),
        Err(ValuesFault::Field(fault)) => Err(Halt::Refused(Refusal::Field { number, fault })),
        Err(ValuesFault::Points(points)) => Err(Halt::Refused(Refusal::Points { points })),
        Err(ValuesFault::Write(fault)) => Err(Halt::Unwritten(fault)),
        Err(ValuesFault::NoMemory) => Err(Halt::NoMemory),
    }
}

/// Writes the lines of a message.
fn write_message<X, K: Sink<X>>(
    alloc: Global,
    listing: Listing,
    number: u64,
    message: &Message<'_>,
    output: &mut K,
) -> Result<(), Halt<X>>
    requires { AreFew listing }
    ensures whole { OnOk result (IsWritten (message_lines listing number (sections_of message.now)) (K.taken output.old) (K.taken output.new)) }
    ensures halted { IfErr result (λ e. HaltedAs e (K.taken output.old) (K.taken output.new) (alone (message_lines listing number (sections_of message.now)))) }
    ensures cause { HasOutputCause result (K.faults output.old) (K.faults output.new) }
{
    match listing {
        Listing::Descriptions => write_description(alloc, number, message, output),
        Listing::Points(decimals) => write_points(alloc, number, message, decimals, output),
    }
}

/// Goes over one message, if one is whole, and tells whether one was.
fn list_message<X, K: Sink<X>>(
    alloc: Global,
    listing: Listing,
    splitter: &mut Splitter,
    output: &mut K,
) -> Result<bool, Halt<X>>
    requires { AreFew listing }
    ensures went { IfOk result (λ some. ListedOne listing some splitter.old splitter.new (K.taken output.old) (K.taken output.new)) }
    ensures halted { IfErr result (λ e. Halted listing e splitter.old (K.taken output.old) (K.taken output.new)) }
    ensures cause { HasOutputCause result (K.faults output.old) (K.faults output.new) }
{
    let number = splitter.given() + 1;
    match splitter.next() {
        Ok(None) => Ok(false),
        Ok(Some(message)) => match write_message(alloc, listing, number, &message, output) {
            Ok(()) => Ok(true),
            Err(halt) => Err(halt),
        },
        Err(at) => Err(Halt::Refused(refusal_of(at))),
    }
}

/// Goes over the messages that are whole.
fn list_messages<X: Drop, K: Sink<X>>(
    alloc: Global,
    listing: Listing,
    splitter: &mut Splitter,
    output: &mut K,
) -> Result<(), Halt<X>>
    requires { AreFew listing }
    ensures went { OnOk result (ListedAll listing splitter.old splitter.new (K.taken output.old) (K.taken output.new)) }
    ensures halted { IfErr result (λ e. Halted listing e splitter.old (K.taken output.old) (K.taken output.new)) }
    ensures cause { HasOutputCause result (K.faults output.old) (K.faults output.new) }
{
    'messages: loop {
        match list_message(alloc, listing, splitter, output) {
            Ok(true) => {}
            Ok(false) => return Ok(()),
            Err(halt) => return Err(halt),
        }
    }
}

/// Writes the lines of the messages of the input, as they come, where the input is read to its end.
pub fn list<X: Drop, I: Source<X>, K: Sink<X>>(
    alloc: Global,
    listing: Listing,
    input: &mut I,
    output: &mut K,
) -> Result<(), Halt<X>>
    requires { AreFew listing }
    ensures answer { IfSome (I.left input.old) (λ octets. Comes result (K.taken output.old) (K.taken output.new) (listed listing octets)) }
    ensures to_end { IfSome (I.left input.old) (λ octets. OnOk result (I.left input.new ≡ Some [])) }
    ensures cause { HasCauses result (I.faults input.old) (I.faults input.new) (K.faults output.old) (K.faults output.new) }
{
    let mut splitter = Splitter::new(alloc)?;
    let mut buffer = new_buffer(alloc)?;
    for _ in 0..u64::MAX {
        match feed_piece(input, &mut buffer, &mut splitter) {
            Ok(true) => {}
            Ok(false) => match splitter.finish() {
                Ok(_) => return Ok(()),
                Err(cut) => return Err(Halt::Refused(Refusal::Cut(cut))),
            },
            Err(stop) => return Err(halt_of(stop)),
        }
        match list_messages(alloc, listing, &mut splitter, output) {
            Ok(()) => {}
            Err(halt) => return Err(halt),
        }
    }
    Err(Halt::Refused(Refusal::Input))
}
