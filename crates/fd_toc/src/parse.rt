ghost use Rattle.std.specs.Prelude.{◌≡◌, ◌≤◌, ◌<◌, ◌+◌, ◌^◌, ◌∷◌, ◌++◌, Some, None, Ok, Err, if◌then◌else◌, length, IfOk, MatchResult, replicate};
ghost use Rattle.fd_entries.specs.Table.{mismatch, fixed, any_octets, exceeds, entry_fault, tail_octets, run_from, listed, IsTable};
ghost use Rattle.fd_toc.specs.Slots.{slot_at, last_fault, OnNot, IfNext};

use crate::found::header_bytes;
use fd_entries::{Entry, NotATable, has_digest};
use std::alloc::Global;

/// A slot of a table.
#[derive(Drop)]
pub(crate) enum Slot {
    Bad(NotATable),
    End,
    Next(Entry),
}

#[derive(Drop)]
pub(crate) enum ReadFault {
    Not(NotATable),
    NoMemory,
}

// The byte at a place isn't the wanted one.
fn unlike(at: u64, want: u8, found: Option<u8>) -> Option<NotATable>
    ensures { result ≡ Some (record { at = at; want = want; found = found }) }
{
    Some(NotATable { at, want, found })
}

// The first byte that isn't the wanted one.
fn difference(at: u64, want: &[u8], bytes: &[u8]) -> Option<NotATable>
    requires { at + length want.now < 2 ^ 64 }
    ensures differs { result ≡ mismatch at (fixed want.now) bytes.now }
    ensures long { result ≡ None → length want.now ≤ length bytes.now }
{
    match want {
        [] => None,
        [w, want @ ..] => match bytes {
            [] => unlike(at, *w, None),
            [b, bytes @ ..] if *b == *w => difference(at + 1, want, bytes),
            [b, ..] => unlike(at, *w, Some(*b)),
        },
    }
}

// The first byte against a pattern, in which some bytes may have any value.
fn departure(at: u64, pattern: &[Option<u8>], bytes: &[u8]) -> Option<NotATable>
    requires { at + length pattern.now < 2 ^ 64 }
    ensures departs { result ≡ mismatch at pattern.now bytes.now }
    ensures long { result ≡ None → length pattern.now ≤ length bytes.now }
{
    match pattern {
        [] => None,
        [Some(w), pattern @ ..] => match bytes {
            [] => unlike(at, *w, None),
            [b, bytes @ ..] if *b == *w => departure(at + 1, pattern, bytes),
            [b, ..] => unlike(at, *w, Some(*b)),
        },
        [None, pattern @ ..] => match bytes {
            [] => unlike(at, 0, None),
            [_, bytes @ ..] => departure(at + 1, pattern, bytes),
        },
    }
}

// The first octet of a number that is greater than the greatest.
fn excess(at: u64, most: &[u8], bytes: &[u8]) -> Option<NotATable>
    requires { at + length most.now < 2 ^ 64 }
    ensures { result ≡ exceeds at most.now bytes.now }
{
    match most {
        [] => None,
        [m, most @ ..] => match bytes {
            [] => None,
            [x, bytes @ ..] if *x == *m => excess(at + 1, most, bytes),
            [x, ..] if *m < *x => unlike(at, *m, Some(*x)),
            _ => None,
        },
    }
}

fn kind_pattern(two: bool) -> [Option<u8>; 5]
    ensures { result ≡ Some (if two then 2 else 1) ∷ any_octets 4 }
{
    let kind = if two { 2 } else { 1 };
    [Some(kind), None, None, None, None]
}

// Numbers of any value, and what stands behind them.
fn tail_pattern(two: bool) -> [Option<u8>; 58]
    ensures { result ≡ any_octets 24 ++ tail_octets two }
{
    if two {
        digest_pattern()
    } else {
        zero_pattern()
    }
}

// Numbers of any value, and zeros.
fn zero_pattern() -> [Option<u8>; 58]
    ensures { result ≡ any_octets 24 ++ fixed (replicate 34 0) }
{
    let n = None;
    let z = Some(0);
    [
        n, n, n, n, n, n, n, n, n, n, n, n, n, n, n, n, n, n, n, n, n, n, n, n, z, z, z, z, z, z,
        z, z, z, z, z, z, z, z, z, z, z, z, z, z, z, z, z, z, z, z, z, z, z, z, z, z, z, z,
    ]
}

// Numbers of any value, a digest, and two zeros.
fn digest_pattern() -> [Option<u8>; 58]
    ensures { result ≡ any_octets 24 ++ (any_octets 32 ++ fixed (replicate 2 0)) }
{
    let n = None;
    let z = Some(0);
    [
        n, n, n, n, n, n, n, n, n, n, n, n, n, n, n, n, n, n, n, n, n, n, n, n, n, n, n, n, n, n,
        n, n, n, n, n, n, n, n, n, n, n, n, n, n, n, n, n, n, n, n, n, n, n, n, n, n, z, z,
    ]
}

// The first fault of the entry in a slot.
fn fault_of(i: u32, bytes: &[u8]) -> Option<NotATable>
    requires { i < 65535 }
    ensures fault { result ≡ entry_fault i bytes.now }
    ensures long { result ≡ None → 63 ≤ length bytes.now }
{
    let gate = 320 + 64 * (i as u64);
    let two = has_digest(bytes);
    let kind = departure(gate + 1, &kind_pattern(two), bytes);
    if kind.is_some() {
        return kind;
    }
    let most = (65536 * (i + 1)).to_be_bytes();
    let writer = excess(gate + 2, &most, &bytes[1..5]);
    if writer.is_some() {
        return writer;
    }
    departure(gate + 6, &tail_pattern(two), &bytes[5..])
}

fn read_slot(i: u32, bytes: &[u8]) -> Slot
    requires { i < 65535 }
    ensures step { result ≡ slot_at i bytes.now }
    ensures long { IfNext result (64 ≤ length bytes.now) }
{
    match bytes {
        [] => Slot::Bad(NotATable {
            at: 320 + 64 * (i as u64),
            want: 0,
            found: None,
        }),
        [gate, body @ ..] => {
            if *gate != 0x4F {
                return Slot::End;
            }
            match fault_of(i, body) {
                Some(fault) => Slot::Bad(fault),
                None => Slot::Next(Entry::from_body(body)),
            }
        }
    }
}

fn last(bytes: &[u8]) -> Option<NotATable>
    ensures { result ≡ last_fault bytes.now }
{
    match bytes {
        [] => Some(NotATable {
            at: 4194560,
            want: 0,
            found: None,
        }),
        [gate, ..] => {
            if *gate == 0x4F {
                Some(NotATable {
                    at: 4194560,
                    want: 0,
                    found: Some(*gate),
                })
            } else {
                None
            }
        }
    }
}

// The entries of the slots that are open.
fn runs(alloc: Global, bytes: &[u8]) -> Result<Vec<Entry>, ReadFault>
    ensures each { MatchResult result (λ v. run_from 65535 0 bytes.now ≡ Ok v.items) (λ e. OnNot e (λ f. run_from 65535 0 bytes.now ≡ Err f)) }
    ensures few { IfOk result (λ v. length v.items ≤ 65535) }
{
    let mut entries = Vec::new(alloc);
    let mut rest = bytes;
    for i in 0..65535u32 {
        match read_slot(i, rest) {
            Slot::Bad(fault) => return Err(ReadFault::Not(fault)),
            Slot::End => return Ok(entries),
            Slot::Next(entry) => {
                let Ok(()) = entries.push(entry) else {
                    return Err(ReadFault::NoMemory);
                };
                rest = &rest[64..];
            }
        }
    }
    match last(rest) {
        Some(fault) => Err(ReadFault::Not(fault)),
        None => Ok(entries),
    }
}

/// The entries that a table's bytes list, or the first byte that isn't in the format.
pub(crate) fn parsed(alloc: Global, dataset: &[u8], bytes: &[u8]) -> Result<Vec<Entry>, ReadFault>
    requires { length dataset.now ≤ 255 }
    ensures lists { MatchResult result (λ v. listed dataset.now bytes.now ≡ Ok v.items) (λ e. OnNot e (λ f. listed dataset.now bytes.now ≡ Err f)) }
    ensures table { IfOk result (λ v. IsTable dataset.now v.items bytes.now) }
    ensures few { IfOk result (λ v. length v.items ≤ 65535) }
{
    let Ok(head) = header_bytes(alloc, dataset) else {
        return Err(ReadFault::NoMemory);
    };
    match difference(0, &head, bytes) {
        Some(fault) => Err(ReadFault::Not(fault)),
        None => match runs(alloc, &bytes[320..]) {
            Ok(entries) => Ok(entries),
            Err(fault) => Err(fault),
        },
    }
}
