ghost use Rattle.std.specs.{Prelude.{◌≡◌, ◌≤◌, ◌<◌, ◌+◌, ◌^◌, [], length, drop, IfOk, IfSome, OnOk, OnErr, IsOk, Ok, Some, None}, Borrow.{sem}, Io.BufRead.{Rests}, Option.{option_map}};
ghost use Rattle.fd_sections.specs.{Stream.{first}, Message.{Sections}, Parts.{sections_of, IsWhole}, Given.{Is}, Reading.{reading}, Joining.{GoesTo, SplitsOn}, Splitting.{answer, answers_some, progress, finished, start, fed, passed}, Frames.{first_frame, frame_answer, frame_comes, frame_progress, FramesTo}, contracts.splitter.Splitter.{the_row}};

use crate::first::{Found, first};
use crate::frame::{FoundFrame, first_frame};
use crate::refusal::{BadAt, Truncated};
use crate::sections::Message;
use crate::whole::message;
use fd_bytes::NoMemory;
use std::alloc::Global;
use std::marker::Model;

/// Splits a stream that comes in pieces into its messages.
#[derive(Drop)]
pub struct Splitter {
    held: Vec<u8>,
    at: usize,
    size: usize,
    given: u64,
    skipped: u64,
    fed: u64,
}

impl Model for Splitter {
    ghost use Rattle.std.specs.Prelude.{drop, take, length, vec_len, ◌≤◌, ◌+◌, ◌-◌, ◌<◌, ◌^◌};
    ghost use Rattle.fd_sections.specs.Progress.{Progress};

    ghost Value = { Progress };

    ghost view = { λ s. record { given = s.given; last = drop (s.at - s.size) (take s.at s.held.items); skipped = s.skipped; rest = drop s.at s.held.items; fed = s.fed } };

    ghost invariant = { λ s. (s.size ≤ s.at) × (s.at ≤ vec_len s.held) × (s.given + s.skipped + (vec_len s.held - s.at) ≤ s.fed) × (s.fed < 2 ^ 63) };
}

impl Splitter {
    /// A splitter to which nothing has come yet.
    pub fn new(alloc: Global) -> Result<Splitter, NoMemory>
        ensures start { IfOk result (λ s. s ≡ start) }
        ensures ok { IsOk result }
    {
        Ok(Splitter {
            held: Vec::new(alloc),
            at: 0,
            size: 0,
            given: 0,
            skipped: 0,
            fed: 0,
        })
    }

    /// Takes the next piece of the stream. All pieces together have fewer than 2^63 octets. After `NoMemory` nothing
    /// has changed.
    pub fn feed(&mut self, piece: &[u8]) -> Result<(), NoMemory>
        requires { self.old.fed + length piece.now < 2 ^ 63 }
        ensures ok { OnOk result (self.new ≡ fed self.old piece.now) }
        ensures joined { OnOk result (SplitsOn self.old self.new piece.now []) }
        ensures err { OnErr result (self.new ≡ self.old) }
    {
        self.held.extend_from_slice(piece)?;
        self.fed += piece.len() as u64;
        Ok(())
    }

    /// How many octets came in all.
    pub fn fed(&self) -> u64
        ensures fed { result ≡ self.now.fed }
        ensures few { result < 2 ^ 63 }
    {
        self.fed
    }

    /// How many messages were given.
    pub fn given(&self) -> u64
        ensures given { result ≡ self.now.given }
        ensures few { result < 2 ^ 63 }
    {
        self.given
    }

    /// Goes on to the next whole message, if there is one.
    fn advance(&mut self) -> Result<bool, BadAt>
        ensures goes_on { self.new ≡ progress self.old (first self.old.rest) }
        ensures answer { result ≡ answers_some self.old (first self.old.rest) }
    {
        let (_, rest) = self.held.split_at(self.at);
        match first(rest) {
            Ok(Found::Whole(message, after)) => {
                let size = message.bytes().len();
                let left = after.len();
                self.skipped += (rest.len() - left - size) as u64;
                self.given += 1;
                self.at = self.held.len() - left;
                self.size = size;
                Ok(true)
            }
            Ok(Found::Unmarked) => {
                let count = rest.len() - rest.len().min(3);
                self.pass(count);
                Ok(false)
            }
            Ok(Found::Partial { have, .. }) => {
                let count = rest.len() - have as usize;
                self.pass(count);
                Ok(false)
            }
            Err(bad) => Err(BadAt {
                number: self.given + 1,
                bad,
            }),
        }
    }

    /// Skips octets, and lets go of all before what is left.
    fn pass(&mut self, count: usize)
        requires { count ≤ length self.old.rest }
        ensures { self.new ≡ passed self.old count }
    {
        let at = self.at + count;
        let end = self.held.len();
        if at > 0 {
            self.held.copy_within(at..end, 0);
            self.held.truncate(end - at);
        }
        self.at = 0;
        self.size = 0;
        self.skipped += count as u64;
    }

    /// The message that was given last.
    fn last(&self) -> Result<Option<Message<'_>>, BadAt>
        ensures whole { IfOk result (λ o. IfSome o IsWhole) }
        ensures given { (m : Sections) → reading self.now.last ≡ Ok m → Is (option_map sections_of) result (Ok (Some m)) }
    {
        let (front, _) = self.held.split_at(self.at);
        let (_, octets) = front.split_at(self.at - self.size);
        match message(octets) {
            Ok(message) => Ok(Some(message)),
            Err(_) => Ok(None),
        }
    }

    /// The next message of the stream so far, lent from the splitter. None exactly where none is whole yet: then what
    /// can begin no message is skipped. After a refusal nothing has changed, so it answers the same again.
    pub fn next(&mut self) -> Result<Option<Message<'_>>, BadAt>
        ensures* goes_on { sem 𝓛 (Rests the_row self.entry (λ n. n ≡ progress self.old (first self.old.rest))) }
        ensures whole { IfOk result (λ o. IfSome o IsWhole) }
        ensures answer { Is (option_map sections_of) result (answer self.old (first self.old.rest)) }
        ensures joined { GoesTo sections_of self.old (progress self.old (first self.old.rest)) result }
    {
        if self.advance()? {
            return self.last();
        }
        Ok(None)
    }

    /// Goes on to the next whole frame, if there is one.
    fn advance_frame(&mut self) -> Result<bool, BadAt>
        ensures goes_on { self.new ≡ frame_progress self.old (first_frame self.old.rest) }
        ensures answer { result ≡ frame_comes self.old (first_frame self.old.rest) }
    {
        let (_, rest) = self.held.split_at(self.at);
        match first_frame(rest) {
            Ok(FoundFrame::Whole(octets, after)) => {
                let size = octets.len();
                let left = after.len();
                self.skipped += (rest.len() - left - size) as u64;
                self.given = self.given + 1;
                self.at = self.held.len() - left;
                self.size = size;
                Ok(true)
            }
            Ok(FoundFrame::Unframed) => {
                let mark = rest.len().min(3);
                let count = rest.len() - mark;
                self.pass(count);
                Ok(false)
            }
            Ok(FoundFrame::Begun { have }) => {
                let begun = rest.len() - have as usize;
                self.pass(begun);
                Ok(false)
            }
            Err(bad) => Err(BadAt {
                number: self.given + 1,
                bad,
            }),
        }
    }

    /// The octets that were given last.
    fn last_octets(&self) -> &[u8]
        ensures { result.now ≡ self.now.last }
    {
        let (front, _) = self.held.split_at(self.at);
        let (_, octets) = front.split_at(self.at - self.size);
        octets
    }

    /// The octets that `next` would read as the next message, unread, lent from the splitter. It refuses another edition, too
    /// great a length, and one below the 16 octets of section 0 alone. None exactly where none are whole yet: then what can begin
    /// no message is skipped. After a refusal nothing has changed, so it answers the same again. One splitter is asked by this call or by `next`, not by both.
    pub fn next_frame(&mut self) -> Result<Option<&[u8]>, BadAt>
        ensures* goes_on { sem 𝓛 (Rests the_row self.entry (λ n. n ≡ frame_progress self.old (first_frame self.old.rest))) }
        ensures answer { Is (option_map (λ o. o.now)) result (frame_answer self.old (first_frame self.old.rest)) }
        ensures joined { FramesTo (λ o. o.now) self.old (frame_progress self.old (first_frame self.old.rest)) result }
    {
        if self.advance_frame()? {
            return Ok(Some(self.last_octets()));
        }
        Ok(None)
    }

    /// Ends the stream, where `next` last answered None: the number of skipped octets, or which message has begun and
    /// is cut, where it wants 16 octets as long as its length isn't known.
    pub fn finish(self) -> Result<u64, Truncated>
        requires { answer self (first self.rest) ≡ Ok None }
        ensures { result ≡ finished self (first self.rest) }
    {
        let (_, rest) = self.held.split_at(self.at);
        match first(rest) {
            Ok(Found::Partial { have, want }) => Err(Truncated {
                number: self.given + 1,
                have,
                want,
            }),
            _ => Ok(self.skipped + rest.len() as u64),
        }
    }
}
