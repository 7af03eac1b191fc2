// The keys that a partial request asks for, each once.
ghost use Rattle.std.specs.{Prelude.{◌≡◌, ◌≢◌, ◌≤◌, [], List, IfOk, IfErr, length, string_bytes}, List.{All, AllPairs}};
ghost use Rattle.fd_key.specs.Pairs.{key_text};
ghost use Rattle.fd_segment.specs.Causes.{OnDamaged};
ghost use Rattle.fd_inventory.specs.{Found.{AreFound, HasKey, HaveKeys, IsNamed, Keeps, keep, keep_rows}, Indexes.{IsAmongBad}, Recorded.{ByRecords}, Shown.{AreRows}};
ghost use Rattle.fd_outcome.specs.{Matching.{Keys, with_dataset, with_key}, Rows.{Row}};

use crate::rows::{Rows, rows_of};
use crate::stored_key::stored_at;
use fd_bytes::NoMemory;
use fd_dataset::Snapshot;
use fd_disk::Sealed;
use fd_key::Key;
use fd_request::Partial;
use fd_segment::LensFault;
use std::alloc::Global;
use std::collections::BTreeSet;
use std::marker::Model;

/// How many keys a request may have.
const MOST_KEYS: usize = 262_144;

/// Keys in the order in which they were found, each once: at most one more than a request may have.
#[derive(Drop)]
pub struct Found {
    keys: Vec<Key>,
    texts: BTreeSet<String>,
}

impl Model for Found {
    ghost use Rattle.std.specs.Prelude.{List};
    ghost use Rattle.fd_key.specs.Pairs.{Pair};
    ghost use Rattle.fd_inventory.specs.Found.{AreFound};

    ghost Value = { List (List Pair) };

    ghost view = { λ f. f.keys.items };

    ghost invariant = { λ f. AreFound f.keys.items f.texts };
}

impl Found {
    /// No keys.
    pub fn new(alloc: Global) -> Found
        ensures { result ≡ [] }
    {
        Found {
            keys: Vec::new(alloc),
            texts: BTreeSet::new(alloc),
        }
    }

    /// The keys. Each has each of its names once and each of its values in its one spelling, and none comes twice.
    pub fn keys(&self) -> &[Key]
        ensures keys { result.now ≡ self.now }
        ensures named { All IsNamed result.now }
        ensures apart { AllPairs (λ a b. a ≢ b) result.now }
    {
        &self.keys
    }
}

/// The keys that were found, and one more, unless one of them has its text.
fn with_new(found: Found, text: String, key: Key) -> Result<Found, NoMemory>
    requires text { string_bytes text ≡ key_text key }
    requires named { IsNamed key }
    ensures { IfOk result (λ f. f ≡ with_key found key) }
{
    let Found {
        mut keys,
        mut texts,
    } = found;
    if !texts.insert(text)? {
        return Ok(Found { keys, texts });
    }
    keys.push(key)?;
    Ok(Found { keys, texts })
}

/// The same, unless there are too many.
fn with_more(alloc: Global, found: Found, key: Key) -> Result<Found, NoMemory>
    requires { IsNamed key }
    ensures { IfOk result (λ f. f ≡ keep found key) }
{
    if found.keys.len() > MOST_KEYS {
        return Ok(found);
    }
    let text = key.text(alloc)?;
    with_new(found, text, key)
}

/// The same with the key of the texts of a row.
fn with_texts(
    alloc: Global,
    dataset: &str,
    index: &str,
    datum: &str,
    found: Found,
) -> Result<Found, NoMemory>
    requires { length dataset.now ≤ 255 }
    ensures { IfOk result (λ f. (r : Row) → HasKey dataset.now r → index.now ≡ r.key.index → datum.now ≡ r.key.datum → f ≡ keep found r.key.pairs) }
{
    if index.len() > 256 || datum.len() > 256 {
        return Ok(found);
    }
    match stored_at(alloc, dataset, index, datum)? {
        Some(stored) => with_more(alloc, found, stored.key),
        None => Ok(found),
    }
}

/// The keys that were found, and those of rows.
fn with_rows(alloc: Global, dataset: &str, rows: &Rows, found: Found) -> Result<Found, NoMemory>
    requires { length dataset.now ≤ 255 }
    ensures { IfOk result (λ f. (rs : List Row) → HaveKeys dataset.now rs → AreRows rows.now.entries rs → f ≡ keep_rows found rs) }
{
    let mut found = found;
    for (texts, _) in rows {
        found = with_texts(alloc, dataset, texts.0.as_str(), texts.1.as_str(), found)?;
    }
    Ok(found)
}

/// The keys that were found, and behind them those of a dataset that the partial request asks for, in the order of the lines of
/// `list`: each unless one before it has its text. They are those of every table that has the keys and the lengths of the records of
/// the snapshot's indexes. Once there are more than a request may have, no more are kept. A stored key that is no pairs in their one
/// spelling is asked for by no request.
///
/// `Fault` comes only with the fault of a file's call in this call, `Damaged` only with an index among the snapshot's that isn't
/// in its format.
pub fn found_in<F: Send, Z: Sealed<F>>(
    alloc: Global,
    dataset: &str,
    snapshot: &Snapshot<F, Z>,
    partial: &Partial,
    found: Found,
) -> Result<Found, LensFault<F>>
where
    requires short { length dataset.now ≤ 255 }
    ensures found { IfOk result (λ f. ByRecords snapshot.now (λ t. (all : Keys) → Keeps found all → Keeps f (with_dataset partial.now dataset.now t all))) }
    ensures damaged { IfErr result (λ e. OnDamaged e (IsAmongBad snapshot.now)) }
{
    let rows = rows_of(alloc, dataset, snapshot, partial)?;
    match with_rows(alloc, dataset, &rows, found) {
        Ok(found) => Ok(found),
        Err(_) => Err(LensFault::NoMemory),
    }
}
