// An input, from its first octet to the giving back of all datasets.
ghost use Rattle.std.specs.Prelude.{◌≡◌, ◌≤◌, ℕ, List, [], Some, IfSome, OnOk, false, is_some};
ghost use Rattle.fd_disk.specs.Folders.{WhereTold};
ghost use Rattle.fd_schema.specs.Grammar.{IsSchema};
ghost use Rattle.fd_stored.specs.Sparing.{SparesDamaged};
ghost use Rattle.fd_bulk.specs.Archived.{HasReasons};
ghost use Rattle.fd_archive.specs.Kept.{InputKept};

use fd_bulk::{Bulk, BulkFault, Terms};
use fd_disk::Store;
use fd_io::{Gate, Source};
use fd_key::Given;
use fd_library::Library;
use fd_schema::Schema;
use std::alloc::Global;
use std::sync::Wait;
use std::thread::Threads;

/// What an archive goes by.
#[derive(Clone, Copy)]
pub struct Setup<'a> {
    /// The store's rules.
    pub schema: &'a Schema,
    /// The pairs that each message is given.
    pub given: &'a Given,
    /// How many workers store the messages.
    pub workers: u32,
}

impl Setup<'_> {
    /// Stores the fields of the input, each as a message of its own, under their keys and the given pairs, in the datasets that the schema
    /// says, by so many workers, at most 8, lists them, and gives all datasets back: what was stored, or why not all. No folder of the store
    /// is out, and none is out afterwards.
    ///
    /// At a refusal of the input and at a failed read the fields before it are all stored: of a message that is refused as a whole none, of
    /// one with a field that can't be stored those before that field. At another fault, and where memory runs out, each dataset has few
    /// batches more, of its messages alone. A damaged dataset keeps its files, and its table as it was, or synced.
    pub fn store_all<
        F: Send + Drop,
        X: Drop,
        S: Store<F>,
        I: Source<X>,
        G: Gate,
        R: Threads + Wait + Sync,
    >(
        &self,
        rt: &R,
        alloc: Global,
        store: &mut S,
        input: &mut I,
        gate: &G,
    ) -> Result<Bulk, BulkFault<X>>
    where
        requires schema { IsSchema self.now.schema.now }
        requires workers { (1 ≤ self.now.workers) × (self.now.workers ≤ 8) }
        requires home { (name : List ℕ) → S.out store.old name ≡ false }
        ensures home { (name : List ℕ) → S.out store.new name ≡ false }
        ensures stored { InputKept self.now.workers self.now.schema.now self.now.given.now (I.left input.old) (I.left input.new) (S.has store.old) (S.has store.new) result }
        ensures spares { WhereTold (S.has store.old) (S.has store.new) SparesDamaged }
        ensures to_end { IfSome (I.left input.old) (λ octets. OnOk result (I.left input.new ≡ Some [])) }
        ensures causes { HasReasons (I.faults input.old) (I.faults input.new) (S.faults store.old) (S.faults store.new) result }
        ensures told { is_some (S.has store.new) ≡ is_some (S.has store.old) }
    {
        let Ok(mut library) = Library::new(alloc) else {
            return Err(BulkFault::NoMemory);
        };
        let terms = Terms {
            rt,
            alloc,
            given: self.given,
            schema: self.schema,
            gate,
        };
        let found = terms.archive_all(input, self.workers, &mut library, store);
        library.give_back(store);
        found
    }
}
