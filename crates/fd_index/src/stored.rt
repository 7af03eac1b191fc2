ghost use Rattle.std.specs.Prelude.{◌≡◌, true, None};
ghost use Rattle.fd_index.specs.{Records.{Rising, place_of}, StoredRecords.{records_of}};

use std::cmp::Ordering;

/// A record of an index: a key, and the place and the length of its field in bytes.
#[derive(Debug, Drop)]
pub(crate) struct Stored {
    pub(crate) key: Vec<u8>,
    pub(crate) at: u64,
    pub(crate) len: u64,
}

/// Tells that the key comes before that of the first record, or behind that of the last one.
fn is_outside(records: &[Stored], key: &[u8]) -> bool
    requires { Rising (records_of records.now) }
    ensures { result ≡ true → place_of key.now (records_of records.now) ≡ None }
{
    if records.is_empty() {
        return true;
    }
    let first = &records[0];
    if key.cmp(first.key.as_slice()).is_lt() {
        return true;
    }
    let last = &records[records.len() - 1];
    key.cmp(last.key.as_slice()).is_gt()
}

/// The place and the length of the key's field, by halving.
pub(crate) fn place_in(records: &[Stored], key: &[u8]) -> Option<(u64, u64)>
    requires { Rising (records_of records.now) }
    ensures { result ≡ place_of key.now (records_of records.now) }
{
    if is_outside(records, key) {
        return None;
    }
    let mut low = 0;
    let mut high = records.len();
    while low < high {
        let middle = low + (high - low) / 2;
        let stored = &records[middle];
        match key.cmp(stored.key.as_slice()) {
            Ordering::Less => high = middle,
            Ordering::Greater => low = middle + 1,
            Ordering::Equal => return Some((stored.at, stored.len)),
        }
    }
    None
}
