// From a stream to its last message that has the pairs.
ghost use Rattle.std.specs.Prelude.{◌≡◌, [], IfOk, IfSome, IfErr, OnOk, Some, false};
ghost use Rattle.fd_key.specs.{Pairs.{has_all}, Keys.{key_of}};
ghost use Rattle.fd_outcome.specs.Picking.{found};
ghost use Rattle.fd_streams.specs.Found.{Answers, HasInputCause, IsFilled, Stopped, Took, TookAll, is_fault};
ghost use Rattle.fd_sections.specs.Parts.{sections_of};

use crate::feeding::{Stop, feed_piece};
use fd_bytes::NoMemory;
use fd_io::Source;
use fd_key::{Given, Key, KeyFault, key_into};
use fd_outcome::new_buffer;
use fd_sections::{Message, Splitter};
use fd_split::{Refusal, refusal_of};
use fd_words::Wanted;
use std::alloc::Global;

/// The octets of the message that was found last, if one was.
#[derive(Drop)]
pub struct Last {
    pub found: bool,
    pub octets: Vec<u8>,
}

impl Last {
    ghost use Rattle.fd_streams.specs.Found.{IsConsidered};

    /// Keeps these octets in place of those that it had, where their key has all the pairs.
    fn consider(&mut self, wanted: &Wanted, key: &Key, octets: &[u8]) -> Result<(), NoMemory>
        ensures { OnOk result (IsConsidered (has_all key.now wanted.now) octets.now self.old self.new) }
    {
        if wanted.all_in(key) {
            self.octets.clear();
            self.octets.extend_from_slice(octets)?;
            self.found = true;
        }
        Ok(())
    }
}

/// Puts the key of a message into this one, or tells why the message has none. Want of memory stands apart.
fn fill_key(
    key: &mut Key,
    alloc: Global,
    message: &Message<'_>,
    given: &Given,
) -> Result<Result<(), KeyFault>, NoMemory>
    ensures { IfOk result (λ r. IsFilled key.new r (key_of (sections_of message.now) given.now)) }
{
    match key_into(key, alloc, message, given) {
        Ok(()) => Ok(Ok(())),
        Err(KeyFault::NoMemory) => Err(NoMemory),
        Err(KeyFault::Product(number)) => Ok(Err(KeyFault::Product(number))),
        Err(KeyFault::ProductLength { said }) => Ok(Err(KeyFault::ProductLength { said })),
        Err(KeyFault::BadDate) => Ok(Err(KeyFault::BadDate)),
        Err(KeyFault::KeyTooLong { len }) => Ok(Err(KeyFault::KeyTooLong { len })),
    }
}

/// Goes over one message, if one is whole, and tells whether one was. Its key is put into this one.
fn take_message<X>(
    alloc: Global,
    wanted: &Wanted,
    given: &Given,
    key: &mut Key,
    splitter: &mut Splitter,
    last: &mut Last,
) -> Result<bool, Stop<X>>
    requires { given.now ≡ [] }
    ensures took { IfOk result (λ some. Took wanted.now some splitter.old splitter.new last.old last.new) }
    ensures err { IfErr result (λ e. Stopped wanted.now e splitter.old last.old) }
    ensures no_fault { IfErr result (λ e. is_fault e ≡ false) }
{
    let number = splitter.given() + 1;
    match splitter.next() {
        Ok(None) => Ok(false),
        Ok(Some(message)) => match fill_key(key, alloc, &message, given)? {
            Ok(()) => {
                last.consider(wanted, key, message.bytes())?;
                Ok(true)
            }
            Err(fault) => Err(Stop::Refused(Refusal::Key { number, fault })),
        },
        Err(at) => Err(Stop::Refused(refusal_of(at))),
    }
}

/// Goes over the messages that are whole. Their keys are put into this one, the one after the other.
fn take_messages<X>(
    alloc: Global,
    wanted: &Wanted,
    given: &Given,
    key: &mut Key,
    splitter: &mut Splitter,
    last: &mut Last,
) -> Result<(), Stop<X>>
    requires { given.now ≡ [] }
    ensures ok { OnOk result (TookAll wanted.now splitter.old splitter.new last.old last.new) }
    ensures err { IfErr result (λ e. Stopped wanted.now e splitter.old last.old) }
    ensures no_fault { IfErr result (λ e. is_fault e ≡ false) }
{
    while take_message(alloc, wanted, given, key, splitter, last)? {}
    Ok(())
}

/// The last message of the input whose key has all the pairs, where the input is read to its end. The keys of the messages are put into
/// one, so that memory for them is asked for once.
pub fn last_wanted<X: Drop, I: Source<X>>(
    alloc: Global,
    wanted: &Wanted,
    given: &Given,
    input: &mut I,
) -> Result<Last, Stop<X>>
    requires { given.now ≡ [] }
    ensures answer { IfSome (I.left input.old) (λ octets. Answers result (found wanted.now octets)) }
    ensures to_end { IfSome (I.left input.old) (λ octets. OnOk result (I.left input.new ≡ Some [])) }
    ensures cause { HasInputCause result (I.faults input.old) (I.faults input.new) }
{
    let mut splitter = Splitter::new(alloc)?;
    let mut last = Last {
        found: false,
        octets: Vec::new(alloc),
    };
    let mut key = Key::new(alloc)?;
    let mut buffer = new_buffer(alloc)?;
    for _ in 0..u64::MAX {
        match feed_piece(input, &mut buffer, &mut splitter) {
            Ok(true) => {}
            Ok(false) => match splitter.finish() {
                Ok(_) => return Ok(last),
                Err(cut) => return Err(Stop::Refused(Refusal::Cut(cut))),
            },
            Err(stop) => return Err(stop),
        }
        match take_messages(alloc, wanted, given, &mut key, &mut splitter, &mut last) {
            Ok(()) => {}
            Err(stop) => return Err(stop),
        }
    }
    Err(Stop::Refused(Refusal::Input))
}
