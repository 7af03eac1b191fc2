ghost use Rattle.std.specs.Prelude.{◌≡◌, IfOk};

use crate::Entry;
use fd_bytes::{Bytes, Items, NoMemory};
use std::alloc::Global;

/// A key with its bytes.
#[derive(Drop)]
pub struct Pair {
    /// The key, at most 256 bytes in a batch.
    pub key: Bytes,
    /// What is stored under the key.
    pub bytes: Bytes,
}

impl Pair {
    /// A copy of this pair.
    pub fn copy(&self, alloc: Global) -> Result<Pair, NoMemory>
        ensures { IfOk result (λ p. p ≡ self.now) }
    {
        let key = Bytes::from_slice(alloc, self.key.as_slice())?;
        let bytes = Bytes::from_slice(alloc, self.bytes.as_slice())?;
        Ok(Pair { key, bytes })
    }
}

/// The pairs that one flush lists, in the order in which they were put.
pub type Batch = Items<Pair>;

/// A copy of a batch.
pub fn copied(alloc: Global, batch: &Batch) -> Result<Batch, NoMemory>
    ensures { IfOk result (λ b. b ≡ batch.now) }
{
    let mut copy = Batch::new(alloc);
    for i in 0..batch.len() {
        copy.push(batch.at(i).copy(alloc)?)?;
    }
    Ok(copy)
}

/// An entry of a table, with the batch that its files stand for where that is told.
#[derive(Drop)]
pub struct Listing {
    /// The entry.
    pub entry: Entry,
    /// The batch, or none where it is not told.
    pub batch: Option<Batch>,
}
