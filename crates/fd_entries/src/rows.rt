ghost use Rattle.fd_entries.specs.Batches.{IsBounded, distinct, has_key, rows, rows_from, total, with_pair};
ghost use Rattle.std.specs.Prelude.{◌≡◌, ◌≤◌, ◌<◌, ◌+◌, ◌^◌, ◌++◌, [], ◌∷◌, length, drop, List, ℕ, IfOk, OnOk};

use crate::{Batch, Pair};
use fd_bytes::NoMemory;
use std::alloc::Global;

/// The number of bytes under all pairs.
pub fn total_of(batch: &Batch) -> u64
    requires { total batch.now < 2 ^ 63 }
    ensures { result ≡ total batch.now }
{
    let mut sum = 0;
    for i in 0..batch.len() {
        sum += batch.at(i).bytes.as_slice().len() as u64;
    }
    sum
}

/// The length of the rows of these pairs in bytes.
pub fn rows_len(batch: &Batch) -> u64
    requires { length (rows batch.now) < 2 ^ 63 }
    ensures { result ≡ length (rows batch.now) }
{
    let mut len = 0;
    for i in 0..batch.len() {
        len += 18 + batch.at(i).key.as_slice().len() as u64;
    }
    len
}

/// Tells that a pair from this place of the batch on has the key.
pub(crate) fn has_key_from(batch: &Batch, from: usize, key: &[u8]) -> bool
    ensures { result ≡ has_key (drop from batch.now) key.now }
{
    for i in from..batch.len() {
        if batch.at(i).key.as_slice() == key {
            return true;
        }
    }
    false
}

/// The number of distinct keys.
pub fn distinct_of(batch: &Batch) -> usize
    ensures { result ≡ distinct batch.now }
{
    let mut count = 0;
    for i in 0..batch.len() {
        if !has_key_from(batch, i + 1, batch.at(i).key.as_slice()) {
            count += 1;
        }
    }
    count
}

/// The number of distinct keys after one more pair with this key.
pub fn distinct_with(batch: &Batch, key: &[u8]) -> usize
    requires { distinct batch.now ≤ 65536 }
    ensures { (bytes : List ℕ) → result ≡ distinct (with_pair batch.now key.now bytes) }
{
    let count = distinct_of(batch);
    if has_key_from(batch, 0, key) {
        count
    } else {
        count + 1
    }
}

/// The rows of a batch: for each pair in order the key's length, the key, and the place and the length of the bytes.
pub fn rows_of(alloc: Global, batch: &Batch) -> Result<Vec<u8>, NoMemory>
    requires { IsBounded batch.now }
    ensures { IfOk result (λ v. v.items ≡ rows batch.now) }
{
    let mut rows = Vec::new(alloc);
    let mut at = 0u64;
    for i in 0..batch.len() {
        push_row(&mut rows, batch.at(i), at)?;
        at += batch.at(i).bytes.as_slice().len() as u64;
    }
    Ok(rows)
}

fn push_row(rows: &mut Vec<u8>, pair: &Pair, at: u64) -> Result<(), NoMemory>
    requires { length pair.now.key ≤ 256 }
    ensures { OnOk result (rows.new.items ≡ rows.old.items ++ rows_from at (pair.now ∷ [])) }
{
    let key = pair.key.as_slice();
    rows.extend_from_slice(&(key.len() as u16).to_be_bytes())?;
    rows.extend_from_slice(key)?;
    rows.extend_from_slice(&at.to_be_bytes())?;
    rows.extend_from_slice(&(pair.bytes.as_slice().len() as u64).to_be_bytes())?;
    Ok(())
}
