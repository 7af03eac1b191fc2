//! Messages, and streams of messages in pieces.
ghost use Rattle.std.specs.Prelude.{◌<◌};

use super::field::{FIELD, with};
use fd_bytes::NoMemory;
use fd_sections::*;
use std::alloc::{AllocError, Global};

/// How a stream ended: the number of messages, and the skipped octets, the refusal or the cut.
#[derive(Clone, Copy, PartialEq, Eq)]
enum Ending {
    Whole(u64, u64),
    Bad(BadAt),
    Cut(Truncated),
}

/// Gives the messages that are whole: the refusal, if there is one.
fn give(splitter: &mut Splitter, most: usize) -> Option<BadAt> {
    for _ in 0..=most {
        match splitter.next() {
            Ok(Some(_)) => {}
            Ok(None) => return None,
            Err(at) => return Some(at),
        }
    }
    None
}

/// Feeds the stream in pieces of this many octets: the refusal, if there is one.
fn feed(splitter: &mut Splitter, stream: &[u8], piece: usize) -> Result<Option<BadAt>, NoMemory>
    requires { 0 < piece }
{
    for part in stream.chunks(piece) {
        if splitter.fed() > 1_000_000 || part.len() > 1_000_000 {
            return Err(NoMemory);
        }
        splitter.feed(part)?;
        let bad = give(splitter, part.len());
        if bad.is_some() {
            return Ok(bad);
        }
    }
    Ok(None)
}

/// Splits the stream, fed in pieces of this many octets.
fn split(alloc: Global, stream: &[u8], piece: usize) -> Result<Ending, NoMemory>
    requires { 0 < piece }
{
    let mut splitter = Splitter::new(alloc)?;
    match feed(&mut splitter, stream, piece)? {
        Some(at) => Ok(Ending::Bad(at)),
        None => ended(splitter),
    }
}

/// Ends the stream.
fn ended(mut splitter: Splitter) -> Result<Ending, NoMemory> {
    let given = splitter.given();
    match splitter.next() {
        Ok(Some(_)) => Err(NoMemory),
        Err(at) => Ok(Ending::Bad(at)),
        Ok(None) => Ok(match splitter.finish() {
            Ok(skipped) => Ending::Whole(given, skipped),
            Err(cut) => Ending::Cut(cut),
        }),
    }
}

/// Tells that a stream ends like this in whatever pieces it comes.
fn ends_as(alloc: Global, stream: &[u8], want: Ending) -> bool {
    for piece in [1, 2, 3, 7, 200, 65_536] {
        if split(alloc, stream, piece) != Ok(want) {
            return false;
        }
    }
    true
}

/// These octets one after the other.
fn joined(alloc: Global, parts: &[&[u8]]) -> Result<Vec<u8>, AllocError> {
    let mut all = Vec::new(alloc);
    for part in parts {
        all.extend_from_slice(part)?;
    }
    Ok(all)
}

/// Tells that a stream of these parts ends like this.
fn ends_joined(alloc: Global, parts: &[&[u8]], want: Ending) -> bool {
    match joined(alloc, parts) {
        Ok(stream) => ends_as(alloc, &stream, want),
        Err(_) => false,
    }
}

const fn cut(number: u64, have: u64, want: u64) -> Ending {
    Ending::Cut(Truncated { number, have, want })
}

#[test]
fn streams_in_pieces(rt: HostRuntime) {
    let (ten, _) = FIELD.split_at(10);
    let (front, _) = FIELD.split_at(175);
    let rows: [(&[&[u8]], Ending); 7] = [
        (&[], Ending::Whole(0, 0)),
        (&[b"0123456789"], Ending::Whole(0, 10)),
        (&[b"0123456789ab", &FIELD, b"GRI"], Ending::Whole(1, 15)),
        (&[&FIELD, b"xx", &FIELD], Ending::Whole(2, 2)),
        (&[b"GRI", &FIELD], Ending::Whole(1, 3)),
        (&[&FIELD, ten], cut(2, 10, 16)),
        (&[front], cut(1, 175, 183)),
    ];
    for (i, (parts, want)) in rows.iter().enumerate() {
        assert!(rt; ends_joined(rt.alloc(), parts, *want), "row {i}");
    }
}

#[test]
fn refused_streams_in_pieces(rt: HostRuntime) {
    for (place, octet, bad) in [
        (7, 1, Bad::Edition(1)),
        (12, 8, Bad::TooLong { len: 134_217_911 }),
        (15, 182, Bad::NoEnd { at: 179 }),
        (15, 5, Bad::Short { section: 0, len: 5 }),
        (
            15,
            15,
            Bad::Short {
                section: 0,
                len: 15,
            },
        ),
    ] {
        let want = Ending::Bad(BadAt { number: 1, bad });
        assert!(rt;
            ends_as(rt.alloc(), &with(place, &[octet]), want),
            "{bad:?}"
        );
    }
}

/// Tells that the sections have these lengths, 0 where there is none.
fn has_lengths(whole: &Message, lengths: [usize; 9]) -> bool {
    for n in 0..9u8 {
        let length = whole.section(n).map_or(0, |section| section.len());
        if length != lengths[n as usize] {
            return false;
        }
    }
    true
}

#[test]
fn one_message(rt: HostRuntime) {
    every_stream();
    let is_whole = match message(&FIELD) {
        Ok(whole) => whole.bytes().len() == 183
            && has_lengths(&whole, [16, 21, 0, 72, 34, 21, 6, 9, 4]),
        Err(_) => false,
    };
    assert!(rt; is_whole);
}

/// Why so many octets of the message are refused, with others from a place on.
fn refusal(keep: usize, place: usize, octets: &[u8]) -> Option<Bad> {
    let field = with(place, octets);
    let (kept, _) = field.split_at(keep.min(183));
    message(kept).err()
}

/// Why the message is refused with its sections 4 to 7 twice.
fn refusal_of_two_fields(alloc: Global) -> Option<Bad> {
    let field = with(15, b"\xFD");
    let (front, _) = field.split_at(179);
    let (_, sections) = FIELD.split_at(109);
    let octets = joined(alloc, &[front, sections]).ok()?;
    message(&octets).err()
}

/// How much of the message is kept, the place from which these octets stand in it, and its refusal.
const REFUSALS: [(usize, usize, &[u8], Bad); 12] = [
    (
        15,
        0,
        b"G",
        Bad::Short {
            section: 0,
            len: 15,
        },
    ),
    (183, 0, b"\0", Bad::NoStart),
    (183, 7, b"\x01", Bad::Edition(1)),
    (183, 12, b"\x08\0\0\x01", Bad::TooLong { len: 134_217_729 }),
    (
        183,
        15,
        b"\xB8",
        Bad::Length {
            said: 184,
            found: 183,
        },
    ),
    (
        183,
        15,
        b"\xB6",
        Bad::Length {
            said: 182,
            found: 183,
        },
    ),
    (
        183,
        19,
        b"\x14",
        Bad::Short {
            section: 1,
            len: 20,
        },
    ),
    (183, 41, b"\x04", Bad::Section { want: 3, found: 4 }),
    (
        183,
        173,
        b"\x0E",
        Bad::Over {
            section: 7,
            said: 14,
            left: 13,
        },
    ),
    (183, 173, b"\x08", Bad::NoEnd { at: 178 }),
    (172, 15, b"\xAC", Bad::Short { section: 7, len: 2 }),
    (179, 15, b"\xB3", Bad::NoEnd { at: 179 }),
];

#[test]
fn refused_messages(rt: HostRuntime) {
    for (keep, place, octets, want) in REFUSALS {
        assert!(rt; refusal(keep, place, octets) == Some(want), "{want:?}");
    }
    let two = Bad::MultiField { section: 4 };
    assert!(rt; refusal_of_two_fields(rt.alloc()) == Some(two));
}
