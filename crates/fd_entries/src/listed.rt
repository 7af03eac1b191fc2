ghost use Rattle.std.specs.Prelude.{◌≡◌, ◌≤◌, ◌+◌, length, drop, [], IfOk};
ghost use Rattle.fd_entries.specs.{Table.{entry_in, gate_at, listed}, Numbers.{ListsSome, entries_or_none}};

use crate::Entry;
use crate::segments::behind;
use crate::table::{OPEN, gate_at};
use fd_bytes::{Items, NoMemory};
use std::alloc::Global;

/// The entries that a table lists.
pub fn entries_of(alloc: Global, table: &[u8]) -> Result<Items<Entry>, NoMemory>
    requires { ListsSome table.now }
    ensures { IfOk result (λ es. es ≡ entries_or_none (listed [] table.now)) }
{
    let mut entries = Items::new(alloc);
    for i in 0..65536usize {
        if table[gate_at(i)] != OPEN {
            return Ok(entries);
        }
        entries.push(entry_at(table, i))?;
    }
    Ok(entries)
}

/// The entry in a slot of the table.
pub fn entry_at(table: &[u8], slot: usize) -> Entry
    requires number { slot ≤ 65535 }
    requires whole { gate_at slot + 64 ≤ length table.now }
    ensures { result ≡ entry_in (drop (gate_at slot + 1) table.now) }
{
    Entry::from_body(behind(table, gate_at(slot) + 1))
}
