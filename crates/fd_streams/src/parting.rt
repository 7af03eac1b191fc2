// From a stream to its fields, each as a message of its own.
ghost use Rattle.std.specs.Prelude.{◌≡◌, ◌≤◌, ◌<◌, ◌^◌, ℕ, List, Option, [], length, Some, Ok, IfSome, IfOk, IfErr, OnOk};
ghost use Rattle.fd_io.specs.Streams.{Takes};
ghost use Rattle.fd_split.specs.Reading.{Wrong, reading_fields};
ghost use Rattle.fd_outcome.specs.{Listed.{alone, ended}, Splitting.{split_of}};
ghost use Rattle.fd_split.specs.Fields.{refusal_of_wrong};
ghost use Rattle.fd_streams.specs.{Halted.{HaltedAs, HasCauses, HasOutputCause, StopsOutput}, Parted.{AreWritten, HaltsParting, IsUnsplit, Parts, PartsAll, PartsOne, messages_of, parts_of}};

use crate::feeding::feed_piece;
use crate::listing::{Halt, halt_of};
use fd_io::{Sink, Source, write_all};
use fd_outcome::new_buffer;
use fd_sections::{BadAt, Splitter};
use fd_split::{Fields, Refusal, SplitFault, refusal_of};
use std::alloc::Global;

/// What was split of an input.
#[derive(Drop)]
pub struct Tally {
    /// How many fields there are.
    pub fields: u64,
    /// How many octets were skipped.
    pub junk: u64,
}

/// Why the message of this number ends the run, where it isn't split.
fn unsplit<X>(number: u64, fault: SplitFault) -> Halt<X>
    requires { 1 ≤ number }
    ensures halted { (a : Option (List ℕ)) (wrong : Wrong) → IsUnsplit wrong fault → HaltedAs result a a (ended (Some (refusal_of_wrong number wrong))) }
    ensures starved { fault ≡ SplitFault.NoMemory → result ≡ Halt.NoMemory }
    ensures calm { (n : ℕ) → StopsOutput result n n }
{
    match fault {
        SplitFault::Bad(bad) => Halt::Refused(refusal_of(BadAt { number, bad })),
        SplitFault::NoMap { field } => Halt::Refused(Refusal::NoMap { number, field }),
        SplitFault::NoMemory => Halt::NoMemory,
    }
}

/// Writes the fields of a message, one after the other.
fn write_fields<X, K: Sink<X>>(
    alloc: Global,
    fields: &Fields<'_>,
    output: &mut K,
) -> Result<(), Halt<X>>
    ensures whole { OnOk result (Takes (K.taken output.old) (K.taken output.new) (messages_of fields.now)) }
    ensures halted { IfErr result (λ e. HaltedAs e (K.taken output.old) (K.taken output.new) (alone (Ok (messages_of fields.now)))) }
    ensures cause { HasOutputCause result (K.faults output.old) (K.faults output.new) }
{
    for i in 0..fields.count() {
        let Ok(field) = fields.field(alloc, i) else {
            return Err(Halt::NoMemory);
        };
        if let Err(fault) = write_all(output, &field) {
            return Err(Halt::Unwritten(fault));
        }
    }
    Ok(())
}

/// Writes the fields that the octets of the message of this number have, and tells how many they are.
fn write_parts<X, K: Sink<X>>(
    alloc: Global,
    number: u64,
    octets: &[u8],
    output: &mut K,
) -> Result<u32, Halt<X>>
    requires { 1 ≤ number }
    ensures whole { IfOk result (λ n. AreWritten n (reading_fields octets.now) (K.taken output.old) (K.taken output.new)) }
    ensures few { IfOk result (λ n. n ≤ length octets.now) }
    ensures halted { IfErr result (λ e. HaltedAs e (K.taken output.old) (K.taken output.new) (alone (parts_of number (reading_fields octets.now)))) }
    ensures cause { HasOutputCause result (K.faults output.old) (K.faults output.new) }
{
    let fields = match Fields::open(alloc, octets) {
        Ok(fields) => fields,
        Err(fault) => return Err(unsplit(number, fault)),
    };
    match write_fields(alloc, &fields, output) {
        Ok(()) => Ok(fields.count()),
        Err(halt) => Err(halt),
    }
}

/// Goes over one message, if one is whole, and tells how many fields it has.
fn split_message<X, K: Sink<X>>(
    alloc: Global,
    splitter: &mut Splitter,
    output: &mut K,
) -> Result<Option<u32>, Halt<X>>
    ensures went { IfOk result (λ n. PartsOne n splitter.old splitter.new (K.taken output.old) (K.taken output.new)) }
    ensures halted { IfErr result (λ e. HaltsParting e splitter.old (K.taken output.old) (K.taken output.new)) }
    ensures cause { HasOutputCause result (K.faults output.old) (K.faults output.new) }
{
    let number = splitter.given() + 1;
    match splitter.next_frame() {
        Ok(None) => Ok(None),
        Ok(Some(octets)) => match write_parts(alloc, number, octets, output) {
            Ok(count) => Ok(Some(count)),
            Err(halt) => Err(halt),
        },
        Err(at) => Err(Halt::Refused(refusal_of(at))),
    }
}

/// Goes over the messages that are whole, and tells how many fields they have.
fn split_messages<X: Drop, K: Sink<X>>(
    alloc: Global,
    splitter: &mut Splitter,
    output: &mut K,
) -> Result<u64, Halt<X>>
    requires { length splitter.old.rest < 2 ^ 63 }
    ensures went { IfOk result (λ n. PartsAll n splitter.old splitter.new (K.taken output.old) (K.taken output.new)) }
    ensures halted { IfErr result (λ e. HaltsParting e splitter.old (K.taken output.old) (K.taken output.new)) }
    ensures cause { HasOutputCause result (K.faults output.old) (K.faults output.new) }
{
    let mut count = 0u64;
    'messages: loop {
        match split_message(alloc, splitter, output) {
            Ok(Some(more)) => count += more as u64,
            Ok(None) => return Ok(count),
            Err(halt) => return Err(halt),
        }
    }
}

/// Writes the fields of the messages of the input, as they come, each as a message of its own, where the input is read to its
/// end. One message and one field of it are held at a time.
pub fn split_input<X: Drop, I: Source<X>, K: Sink<X>>(
    alloc: Global,
    input: &mut I,
    output: &mut K,
) -> Result<Tally, Halt<X>>
    ensures answer { IfSome (I.left input.old) (λ octets. Parts result (K.taken output.old) (K.taken output.new) (split_of octets)) }
    ensures to_end { IfSome (I.left input.old) (λ octets. OnOk result (I.left input.new ≡ Some [])) }
    ensures cause { HasCauses result (I.faults input.old) (I.faults input.new) (K.faults output.old) (K.faults output.new) }
{
    let mut splitter = Splitter::new(alloc)?;
    let mut buffer = new_buffer(alloc)?;
    let mut fields = 0u64;
    for _ in 0..u64::MAX {
        match feed_piece(input, &mut buffer, &mut splitter) {
            Ok(true) => {}
            Ok(false) => match splitter.finish() {
                Ok(junk) => return Ok(Tally { fields, junk }),
                Err(cut) => return Err(Halt::Refused(Refusal::Cut(cut))),
            },
            Err(stop) => return Err(halt_of(stop)),
        }
        match split_messages(alloc, &mut splitter, output) {
            Ok(more) => fields += more,
            Err(halt) => return Err(halt),
        }
    }
    Err(Halt::Refused(Refusal::Input))
}
