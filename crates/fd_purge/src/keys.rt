// Keys of batches that were gone through.
ghost use Rattle.std.specs.Prelude.{◌≡◌, ◌∷◌, List, ℕ, OnOk};
ghost use Rattle.fd_index.specs.Records.{keys};
ghost use Rattle.fd_purge.specs.{Kept.{is_masked}, Reads.{Knows}};

use fd_bytes::NoMemory;
use fd_index::Index;
use std::alloc::Global;
use std::collections::BTreeSet;

/// Keys of batches.
pub(crate) type Keys = BTreeSet<Vec<u8>>;

/// Whether each key of the index is among these.
pub(crate) fn are_known(index: &Index, known: &Keys) -> bool
    ensures { (later : List (List (List ℕ))) → Knows known.now later → result ≡ is_masked (keys index.now) later }
{
    let mut left = index.len();
    while left > 0 {
        left -= 1;
        let (key, _, _) = index.record(left);
        if !known.contains(key) {
            return false;
        }
    }
    true
}

/// Adds the keys of an index, from the last record on.
pub(crate) fn add_keys(alloc: Global, index: &Index, known: &mut Keys) -> Result<(), NoMemory>
    ensures { OnOk result ((later : List (List (List ℕ))) → Knows known.old later → Knows known.new (keys index.now ∷ later)) }
{
    let mut left = index.len();
    while left > 0 {
        left -= 1;
        let (key, _, _) = index.record(left);
        let text = Vec::from_slice(alloc, key)?;
        known.insert(text)?;
    }
    Ok(())
}
