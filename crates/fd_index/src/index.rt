ghost use Rattle.std.specs.Prelude.{◌≡◌, ◌<◌, ◌≤◌, List, length, slice_get, Some, IfOk};
ghost use Rattle.fd_index.specs.{Records.{Record, Rising, place_of}, Pages.{IsIndex}, Reading.{index_at, page_by_itself}, First.{RefusesAtFirstPlace}, Index.{ReadsAs, RefusesNoIndex}};

use crate::fault::IndexFault;
use crate::reader::{push_page, read_records};
use crate::stored::{Stored, place_in};
use std::alloc::Global;
use std::marker::Model;

/// The records of an index file, by rising keys. Contracts see the list of them.
#[derive(Drop)]
pub struct Index {
    records: Vec<Stored>,
}

impl Model for Index {
    ghost use Rattle.std.specs.Prelude.{List};
    ghost use Rattle.fd_index.specs.Records.{Record};

    ghost Value = { List Record };

    ghost use Rattle.fd_index.specs.Stored.{read_of, IsRead};

    ghost view = { read_of };

    ghost invariant = { IsRead };
}

impl Index {
    /// The index whose file these bytes are. `BadIndex` comes exactly where they are no index file, with the first place
    /// that isn't in the format.
    pub fn read(alloc: Global, bytes: &[u8]) -> Result<Index, IndexFault>
        ensures index { IfOk result (λ index. IsIndex index bytes.now) }
        ensures same { IfOk result (λ index. (records : List Record) → IsIndex records bytes.now → records ≡ index) }
        ensures first { ReadsAs (index_at bytes.now) result }
        ensures place { RefusesAtFirstPlace bytes.now result }
        ensures refused { RefusesNoIndex bytes.now result }
    {
        match read_records(alloc, bytes) {
            Ok(records) => Ok(Index { records }),
            Err(fault) => Err(fault),
        }
    }

    /// The records of one page of an index file, which ends at this place of the file. `BadIndex` comes exactly where the
    /// page isn't in the format, whatever stands on the other pages, with its first place that isn't.
    pub fn read_page(alloc: Global, end: u64, page: &[u8]) -> Result<Index, IndexFault>
        requires whole { length page.now ≡ 4096 }
        requires place { 4096 ≤ end }
        ensures first { ReadsAs (page_by_itself end page.now) result }
        ensures some { IfOk result (λ index. 0 < length index) }
    {
        let mut records = Vec::new(alloc);
        match push_page(alloc, &mut records, end, 0, page) {
            Ok(_) => Ok(Index { records }),
            Err(fault) => Err(fault),
        }
    }

    /// The place and the length of the key's field, if the index has the key.
    pub fn find(&self, key: &[u8]) -> Option<(u64, u64)>
        ensures { result ≡ place_of key.now self.now }
    {
        place_in(&self.records, key)
    }

    /// The number of records.
    pub fn len(&self) -> u32
        ensures count { result ≡ length self.now }
        ensures rising { Rising self.now }
    {
        self.records.len() as u32
    }

    /// The record with this number, from 0, by rising keys: its key, and the place and the length of its field.
    pub fn record(&self, i: u32) -> (&[u8], u64, u64)
        requires { i < length self.now }
        ensures { slice_get self.now i ≡ Some (record { key = result.0.now; at = result.1; len = result.2 }) }
    {
        let stored = &self.records[i as usize];
        (&stored.key, stored.at, stored.len)
    }
}
