//! The fields of an input, archived by several workers.
ghost use Rattle.std.specs.Prelude.{◌≡◌, ◌≤◌, [], List, ℕ, Option, Some, Ok, IfSome, OnOk, false, is_some};
ghost use Rattle.fd_disk.specs.Folders.{WhereTold};
ghost use Rattle.fd_schema.specs.Grammar.{IsSchema};
ghost use Rattle.fd_library.specs.Open.{OutAre};
ghost use Rattle.fd_stored.specs.Sparing.{SparesDamaged};
ghost use Rattle.fd_bulk.specs.declared.bulk.BulkFault.TheVariants as faults;
ghost use Rattle.fd_bulk.specs.Archived.{Archived, HasReasons};

use crate::crew::Crew;
use crate::reading::Counts;
use fd_bytes::NoMemory;
use fd_disk::{Folder, Store};
use fd_io::{Gate, Source};
use fd_key::{Given, KeyFault};
use fd_library::Library;
use fd_schema::Schema;
use fd_sections::{BadAt, Truncated};
use fd_segment::Damage;
use std::alloc::Global;
use std::sync::Wait;
use std::thread::Threads;

/// What was archived of an input.
#[derive(Clone, Copy, Debug, PartialEq, Eq)]
pub struct Bulk {
    /// How many fields.
    pub fields: u64,
    /// In how many datasets.
    pub datasets: u32,
    /// How many octets were skipped.
    pub junk: u64,
}

/// Why an input wasn't archived, or not all of it. Messages count from 1.
#[derive(Drop)]
pub enum BulkFault<X> {
    /// A read of the input failed.
    Input(X),
    /// A message is no GRIB 2 message, also where several fields are one.
    Message(BadAt),
    /// A field of the message of this number, which has several, lacks a bit map. Fields count from 1.
    NoMap {
        number: u64,
        field: u32,
    },
    /// The last message is cut.
    Cut(Truncated),
    /// A field of the message of this number has no key, for this reason.
    Key {
        number: u64,
        fault: KeyFault,
    },
    /// No rule admits the key of a field of the message of this number, which has this text.
    NoRule {
        number: u64,
        key: String,
    },
    /// A call of the store failed, or of what it handed out.
    Disk,
    /// The bytes are no table of the dataset.
    NotATable {
        /// The dataset.
        dataset: String,
        /// The place of the first octet against the format.
        at: u64,
        /// The octet of the format.
        want: u8,
        /// The octet that stands there.
        found: Option<u8>,
    },
    /// A listed file of the dataset is damaged.
    Damaged {
        /// The dataset.
        dataset: String,
        /// What is wrong.
        damage: Damage,
    },
    /// A dataset's table has so many entries, 65,535.
    TableFull {
        count: u32,
    },
    /// There would be so many datasets, 2,049.
    TooMany {
        count: u32,
    },
    /// The input is longer than an input may be.
    InputLimit,
    /// An allocation was refused.
    NoMemory,
}

impl<X> From<NoMemory> for BulkFault<X> {
    ghost from_gives = { λ _ e. e ≡ faults.NoMemory };

    fn from(_: NoMemory) -> BulkFault<X> {
        BulkFault::NoMemory
    }
}

/// What an input is archived by.
pub struct Terms<'a, G, R> {
    /// The host's threads.
    pub rt: &'a R,
    /// What memory is asked of.
    pub alloc: Global,
    /// The pairs of each key that are given.
    pub given: &'a Given,
    /// The rules by which keys have their places.
    pub schema: &'a Schema,
    /// What the workers pass before their shares.
    pub gate: &'a G,
}

impl<G, R> Drop for Terms<'_, G, R> {
    fn drop(self) {
        let Terms {
            rt: _,
            alloc: _,
            given: _,
            schema: _,
            gate: _,
        } = self;
    }
}

impl<G: Gate, R: Threads + Wait + Sync> Terms<'_, G, R> {
    /// Archives the fields of an input, each as a message of its own, under their keys and the given pairs, in the datasets that the schema
    /// says, by so many workers, at most 8. The library has no dataset open yet; afterwards each pass and archiver is back with it. Of a
    /// message that is refused as a whole nothing is stored; of one of whose fields one can't be stored the fields before it are.
    ///
    /// Messages are dealt to the workers by their places, so that those of one key stay in their order. They come in rounds: a
    /// round ends with its 64th message, or with that by which its messages have 134,217,728 octets. Worker w, from 1, passes
    /// the gate with w and r before its share of round r, from 1, also where its share is empty. All is listed at the end, and
    /// before a refusal of the input or a failed read is told; else a batch is listed only where it is full. A fault of the
    /// store is handed to the store's count; of several refusals that of the lowest message is told. Where a listing is in doubt
    /// after a fault, its files are in the dataset's folder. A damaged dataset keeps its files, and its table as it was, or synced.
    pub fn archive_all<F: Send + Drop, X: Drop, S: Store<F>, I: Source<X>>(
        &self,
        input: &mut I,
        workers: u32,
        library: &mut Library<F, S>,
        store: &mut S,
    ) -> Result<Bulk, BulkFault<X>>
    where
        requires schema { IsSchema self.now.schema.now }
        requires workers { (1 ≤ workers) × (workers ≤ 8) }
        requires none { (library.old.each ≡ []) × (library.old.boards ≡ []) }
        requires home { (name : List ℕ) → S.out store.old name ≡ false }
        ensures archived { Archived S.Folder.has workers self.now.schema.now self.now.given.now (I.left input.old) (I.left input.new) (S.has store.old) (S.has store.new) library.new.each result }
        ensures spares { WhereTold (S.has store.old) (S.has store.new) SparesDamaged }
        ensures out { OutAre library.new.each (S.out store.new) }
        ensures to_end { IfSome (I.left input.old) (λ octets. OnOk result (I.left input.new ≡ Some [])) }
        ensures causes { HasReasons (I.faults input.old) (I.faults input.new) (S.faults store.old) (S.faults store.new) result }
        ensures told { is_some (S.has store.new) ≡ is_some (S.has store.old) }
    {
        let Ok(mut crew) = Crew::new(self.alloc, workers) else {
            return Err(BulkFault::NoMemory);
        };
        let dealt = self.deal_input(input, &mut crew, library, store);
        let stored = self.store_dealt(dealt, &mut crew, library, store);
        let found = self.list_stored(stored, &mut crew, library, store);
        let datasets = library.datasets().len() as u32;
        crew.end(self.rt, library);
        match found {
            Ok(Counts { fields, junk }) => Ok(Bulk {
                fields,
                datasets,
                junk,
            }),
            Err(fault) => Err(fault),
        }
    }
}
