//! A table of contents with 65,535 entries, which takes none more.
ghost use Rattle.std.specs.Prelude.{◌≡◌, false, codes};

use crate::stores::archived_in_memory;
use crate::writing::{Key, Two, Went};
use fd_bytes::NoMemory;
use fd_disk::{Disk, Folder, Store};
use fd_disk_mem::{MemFault, MemStore};
use fd_entries::Entry;
use fd_toc::{AppendFault, Toc};
use std::alloc::Global;
use std::sync::Wait;

/// An entry of a batch without fields, whose two files are empty.
const EMPTY: Entry = Entry {
    writer: 1,
    seq: 1,
    fields: 0,
    index_len: 0,
    fields_len: 0,
    digest: None,
};

/// A table that lists the empty batch 65,535 times.
fn full_table(alloc: Global) -> Result<Vec<u8>, NoMemory> {
    let mut slot = [0; 64];
    slot[0] = 0x4F;
    slot[1] = 1;
    slot[5] = 1;
    slot[9] = 1;
    let mut bytes = Vec::from_slice(alloc, b"FDTOC001\0\x03a=1")?;
    bytes.resize(320, 0)?;
    for _ in 0..65_535 {
        bytes.extend_from_slice(&slot)?;
    }
    bytes.push(0)?;
    Ok(bytes)
}

/// Has a store have this file, and tells whether it does.
fn hold(alloc: Global, store: &mut MemStore, file: &str, bytes: &[u8]) -> bool {
    if file.len() > 259 {
        return false;
    }
    store.replace(alloc, file, Some(bytes)).is_ok()
}

/// Has a store be of one dataset whose table is full, and tells whether it is.
fn fill(alloc: Global, store: &mut MemStore) -> bool {
    let Ok(table) = full_table(alloc) else {
        return false;
    };
    hold(alloc, store, "a=1/toc", &table)
        && hold(alloc, store, "a=1/1-1.fields", b"")
        && hold(alloc, store, "a=1/1-1.index", b"")
}

/// The number of entries at which an append is refused.
fn refused_entry<F: Send + Drop, T: Disk<F>>(toc: &mut Toc<F, T>) -> Option<u32> {
    if toc.reserve().is_err() {
        return None;
    }
    match toc.append(EMPTY) {
        Err(AppendFault::Full { count }) => Some(count),
        _ => None,
    }
}

/// The number of entries at which an append to the table of a folder is refused.
fn refused<F: Send + Drop, D: Folder<F>>(alloc: Global, folder: &mut D) -> Option<u32>
where
    requires back { D.table_out folder.old ≡ false }
    requires name { D.name folder.old ≡ codes "a=1" }
{
    let Ok(Some(table)) = folder.table(alloc) else {
        return None;
    };
    match Toc::load(alloc, table, "a=1") {
        Ok(mut toc) => refused_entry(&mut toc),
        Err(_) => None,
    }
}

/// The number of entries at which an append to the table of a store is refused.
fn refused_in<F: Send + Drop, S: Store<F>>(alloc: Global, mut store: S) -> Option<u32>
where
    requires { S.out store (codes "a=1") ≡ false }
{
    match store.folder(alloc, "a=1") {
        Ok(mut folder) => refused(alloc, &mut folder),
        Err(_) => None,
    }
}

/// The same of a store in memory.
fn refused_in_memory(alloc: Global, store: MemStore) -> Option<u32>
    requires { ⟦<MemStore as Store<MemFault>>⟧.out store (codes "a=1") ≡ false }
{
    refused_in(alloc, store)
}

/// How a flush goes where the table is full, and at how many entries an append is refused.
fn run<R: Wait>(rt: &R, alloc: Global) -> Option<(Went, u32)> {
    let Ok(mut store) = MemStore::new(alloc, 65_536, 256) else {
        return None;
    };
    let two = Two {
        first: (Key::A, 1),
        second: (Key::B, 2),
        apart: false,
    };
    let is_full = fill(alloc, &mut store);
    let went = archived_in_memory(rt, alloc, &mut store, 2, two);
    let count = refused_in_memory(alloc, store);
    if is_full { Some((went?, count?)) } else { None }
}

#[test]
fn a_full_table_takes_no_entry(rt: HostRuntime) {
    assert_eq!(rt; run(&rt, rt.alloc()), Some((Went::Full(65_535), 65_535)));
}
