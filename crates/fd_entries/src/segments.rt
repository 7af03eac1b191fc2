ghost use Rattle.std.specs.{Prelude.{◌≡◌, ◌≤◌, ◌+◌, length, take, drop, Some, None, MatchOption, IfOk}, Int.{w16, w64, from_be_bytes}};
ghost use Rattle.fd_entries.specs.Batches.{HoldBatch, of_files, pairs_in};

use crate::table::number_8;
use crate::{Batch, Pair};
use fd_bytes::{Bytes, NoMemory};
use std::alloc::Global;

/// The numbers of the row that begins these bytes.
#[derive(Clone, Copy)]
struct Row {
    key_len: usize,
    at: usize,
    len: usize,
}

fn first_row(bytes: &[u8]) -> Row
    requires short { 2 ≤ length bytes.now }
    requires long { 18 + from_be_bytes w16 (take 2 bytes.now) ≤ length bytes.now }
    ensures key_len { result.key_len ≡ from_be_bytes w16 (take 2 bytes.now) }
    ensures at { result.at ≡ from_be_bytes w64 (take 8 (drop (2 + from_be_bytes w16 (take 2 bytes.now)) bytes.now)) }
    ensures len { result.len ≡ from_be_bytes w64 (take 8 (drop (10 + from_be_bytes w16 (take 2 bytes.now)) bytes.now)) }
{
    let key_len = number_2(&bytes[..2]) as usize;
    Row {
        key_len,
        at: number_8(&bytes[2 + key_len..10 + key_len]) as usize,
        len: number_8(&bytes[10 + key_len..18 + key_len]) as usize,
    }
}

/// The number in two octets.
fn number_2(bytes: &[u8]) -> u16
    requires { length bytes.now ≡ 2 }
    ensures { result ≡ from_be_bytes w16 bytes.now }
{
    match bytes {
        [a, b] => u16::from_be_bytes([*a, *b]),
        _ => unreachable!(),
    }
}

/// The bytes from a place on.
pub(crate) fn behind(bytes: &[u8], at: usize) -> &[u8]
    requires { at ≤ length bytes.now }
    ensures { result.now ≡ drop at bytes.now }
{
    &bytes[at..]
}

/// So many bytes from a place on.
fn part(bytes: &[u8], at: usize, len: usize) -> &[u8]
    requires { at + len ≤ length bytes.now }
    ensures { result.now ≡ take len (drop at bytes.now) }
{
    &bytes[at..at + len]
}

/// The pairs of a batch, read from its two files.
pub fn read_pairs(alloc: Global, index: &[u8], fields: &[u8]) -> Result<Batch, NoMemory>
    requires { HoldBatch index.now fields.now }
    ensures { IfOk result (λ b. b ≡ pairs_in index.now fields.now) }
{
    let mut batch = Batch::new(alloc);
    let mut rest = index;
    'rows: while !rest.is_empty() {
        let row = first_row(rest);
        let key = Bytes::from_slice(alloc, part(rest, 2, row.key_len))?;
        let bytes = Bytes::from_slice(alloc, part(fields, row.at, row.len))?;
        batch.push(Pair { key, bytes })?;
        rest = behind(rest, 18 + row.key_len);
    }
    Ok(batch)
}

/// The bytes of the last pair with the key, read from a batch's two files.
pub fn newest_in<'a>(index: &[u8], fields: &'a [u8], key: &[u8]) -> Option<&'a [u8]>
    requires { HoldBatch index.now fields.now }
    ensures { MatchOption result (of_files index.now fields.now key.now ≡ None) (λ b. of_files index.now fields.now key.now ≡ Some b.now) }
{
    let mut found = None;
    let mut rest = index;
    'rows: while !rest.is_empty() {
        let row = first_row(rest);
        if part(rest, 2, row.key_len) == key {
            found = Some(part(fields, row.at, row.len));
        }
        rest = behind(rest, 18 + row.key_len);
    }
    found
}
