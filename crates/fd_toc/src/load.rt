ghost use Rattle.std.specs.Prelude.{◌≡◌, ◌⊎◌, ◌≤◌, List, ℕ, None, Ok, Err, length, take, IfOk, IfErr, IfSome, MatchResult, option_map};
ghost use Rattle.fd_bytes.specs.Causes.{Rose};
ghost use Rattle.fd_disk.specs.{Causes.{OnFault}, Images.{synced}, Moments.{LeavesOnly, MayLeave}};
ghost use Rattle.fd_entries.specs.Table.{AllFit, IsTable, listed};
ghost use Rattle.fd_toc.specs.{Lists.{IsFront, Lists}, Causes.{OnNotATable, OnLoadDisk, UnlessLoadDisk}};

use crate::parse::{ReadFault, parsed};
use crate::{LoadFault, Toc};
use fd_bytes::Bytes;
use fd_disk::{Disk, Down};
use fd_entries::Entry;
use std::alloc::Global;

/// The octets up to the gate behind the last slot: a header of 320, 65,535 slots of 64, and a gate.
const MOST: usize = 4_194_561;

impl<F: Send, T: Disk<F>> Toc<F, T> {
    /// Opens the table of the dataset with this text of at most 255 bytes. It begins with a sync, and writes nothing.
    /// Of a longer file it reads no more than a table has, and at most a piece of 4,096 octets behind that.
    /// The entries fit, whatever the disk tells: each writer is at most 65,536 times the number of its entry.
    ///
    /// `Disk` comes only where the table's count of faults rose. `NotATable` comes exactly where the bytes are no table
    /// of this dataset, and names the first octet of the header or of a listed slot that isn't in the format, or the
    /// gate behind them where it is missing. After a refusal the table comes back.
    pub fn load(alloc: Global, table: T, dataset: &str) -> Result<Toc<F, T>, (T, LoadFault<F>)>
        requires { length dataset.now ≤ 255 }
        ensures entries { IfOk result (λ toc. IfSome (T.file table) (λ f. listed dataset.now f.reads ≡ Ok toc.entries)) }
        ensures few { IfOk result (λ toc. length toc.entries ≤ 65535) }
        ensures fit { IfOk result (λ toc. AllFit 0 toc.entries) }
        ensures rest { IfOk result (λ toc. (toc.dataset ≡ dataset.now) × (toc.doubt ≡ None) × (toc.staged ≡ None)) }
        ensures file { IfOk result (λ toc. T.file toc.table ≡ option_map synced (T.file table)) }
        ensures images { IfOk result (λ toc. (c : List ℕ) → MayLeave (T.file toc.table) c → Lists dataset.now toc.entries c) }
        ensures not_a_table { IfErr result (λ e. OnNotATable e.1 (λ fault. IfSome (T.file table) (λ f. listed dataset.now f.reads ≡ Err fault))) }
        ensures file_err { IfErr result (λ e. (T.file e.0 ≡ T.file table) ⊎ (T.file e.0 ≡ option_map synced (T.file table))) }
        ensures synced_err { IfErr result (λ e. UnlessLoadDisk e.1 (T.file e.0 ≡ option_map synced (T.file table))) }
        ensures any_moment { MatchResult result (λ toc. LeavesOnly T.moment T.left_since table toc.table (MayLeave (T.file table))) (λ e. LeavesOnly T.moment T.left_since table e.0 (MayLeave (T.file table))) }
        ensures name { MatchResult result (λ toc. T.name toc.table ≡ T.name table) (λ e. T.name e.0 ≡ T.name table) }
        ensures later { MatchResult result (λ toc. T.faults table ≤ T.faults toc.table) (λ e. T.faults table ≤ T.faults e.0) }
        ensures cause { IfErr result (λ e. OnLoadDisk e.1 (Rose (T.faults table) (T.faults e.0))) }
    {
        let mut table = table;
        if let Err(fault) = table.sync() {
            return Err((table, LoadFault::Disk(fault)));
        }
        let Ok(text) = Bytes::from_slice(alloc, dataset.as_bytes()) else {
            return Err((table, LoadFault::NoMemory));
        };
        match read_entries(alloc, &mut table, dataset.as_bytes()) {
            Ok(entries) => Ok(Toc::opened(table, text, entries)),
            Err(fault) => Err((table, fault)),
        }
    }
}

// The entries that the table lists.
fn read_entries<F: Send, T: Disk<F>>(
    alloc: Global,
    table: &mut T,
    dataset: &[u8],
) -> Result<Vec<Entry>, LoadFault<F>>
    requires { length dataset.now ≤ 255 }
    ensures lists { IfOk result (λ v. IfSome (T.file table.old) (λ f. listed dataset.now f.reads ≡ Ok v.items)) }
    ensures table { IfOk result (λ v. IfSome (T.file table.old) (λ f. IsTable dataset.now v.items f.reads)) }
    ensures fit { IfOk result (λ v. AllFit 0 v.items) }
    ensures few { IfOk result (λ v. length v.items ≤ 65535) }
    ensures not_a_table { IfErr result (λ e. OnNotATable e (λ fault. IfSome (T.file table.old) (λ f. listed dataset.now f.reads ≡ Err fault))) }
    ensures file { T.file table.new ≡ T.file table.old }
    ensures any_moment { LeavesOnly T.moment T.left_since table.old table.new (MayLeave (T.file table.old)) }
    ensures name { T.name table.new ≡ T.name table.old }
    ensures later { T.faults table.old ≤ T.faults table.new }
    ensures cause { IfErr result (λ e. OnLoadDisk e (Rose (T.faults table.old) (T.faults table.new))) }
{
    let bytes = match read_front(alloc, table) {
        Ok(bytes) => bytes,
        Err(Down::Fault(fault)) => return Err(LoadFault::Disk(fault)),
        Err(Down::NoMemory) => return Err(LoadFault::NoMemory),
    };
    match parsed(alloc, dataset, &bytes) {
        Ok(entries) => Ok(entries),
        Err(ReadFault::Not(not)) => Err(LoadFault::NotATable {
            at: not.at,
            want: not.want,
            found: not.found,
        }),
        Err(ReadFault::NoMemory) => Err(LoadFault::NoMemory),
    }
}

// What a read gives, as far as it can matter: all of it, or so much that it has the gate behind the last slot.
fn read_front<F: Send, T: Disk<F>>(alloc: Global, table: &mut T) -> Result<Vec<u8>, Down<F>>
    ensures bytes { IfOk result (λ v. IfSome (T.file table.old) (λ f. IsFront v.items f.reads)) }
    ensures file { T.file table.new ≡ T.file table.old }
    ensures any_moment { LeavesOnly T.moment T.left_since table.old table.new (MayLeave (T.file table.old)) }
    ensures name { T.name table.new ≡ T.name table.old }
    ensures later { T.faults table.old ≤ T.faults table.new }
    ensures cause { IfErr result (λ e. OnFault e (Rose (T.faults table.old) (T.faults table.new))) }
{
    let mut bytes = Vec::new(alloc);
    let mut piece = [0; 4096];
    'pieces: while bytes.len() < MOST {
        let n = match table.read_at(bytes.len() as u64, &mut piece) {
            Ok(n) => n,
            Err(fault) => return Err(Down::Fault(fault)),
        };
        if n == 0 {
            return Ok(bytes);
        }
        let Ok(()) = bytes.extend_from_slice(first(&piece, n)) else {
            return Err(Down::NoMemory);
        };
    }
    Ok(bytes)
}

fn first(piece: &[u8], n: usize) -> &[u8]
    requires { n ≤ length piece.now }
    ensures { result.now ≡ take n piece.now }
{
    &piece[..n]
}
