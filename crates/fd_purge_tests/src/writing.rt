//! A dataset whose first batch the second masks, and what is found in it.
ghost use Rattle.std.specs.Prelude.{◌≡◌, ◌≤◌, ◌<◌, false, true, length, codes, IfSome};
ghost use Rattle.fd_disk.specs.{declared.folders.FileKind.TheVariants.{Fields, Index}, Names.{name_of}};

use fd_disk::{Disk, Folder, Sealed, Shelf, Store};
use fd_entries::Entry;
use fd_recovery::{Recovered, recover};
use fd_segment::{Draft, Room, Segment};
use fd_tables::is_founded;
use fd_toc::Toc;
use std::alloc::Global;
use std::sync::Arc;

/// What is found in a dataset.
#[derive(Clone, Copy, Debug, PartialEq, Eq)]
pub(crate) enum Found {
    NoTable,
    /// So many batches, and of the newest field of the key the length.
    Batches(usize, Option<u64>),
    Refused,
}

/// Seals a batch of this field alone, by this writer, and has the shelf keep it.
fn batch<F: Send + Drop, H: Shelf<F>>(
    alloc: Global,
    shelf: &mut H,
    writer: u32,
    bytes: &[u8],
) -> Option<Entry>
where
    requires writer { H.writer shelf.old ≡ writer }
    requires fields { H.created shelf.old (name_of writer 1 Fields) ≡ false }
    requires index { H.created shelf.old (name_of writer 1 Index) ≡ false }
    requires short { length bytes.now ≤ 64 }
    ensures writer { IfSome result (λ e. e.writer ≡ writer) }
    ensures name { H.name shelf.new ≡ H.name shelf.old }
{
    let room = Room {
        keys: 1,
        bytes: 256,
    };
    let mut draft = Draft::new(alloc, shelf, writer, 1, room).ok()?;
    if draft.put(b"i|a", bytes).is_err() || draft.is_empty() {
        return None;
    }
    let segment = draft.seal(alloc).ok()?;
    segment.keep(alloc, shelf).ok()?;
    Some(segment.entry())
}

/// Writes such a batch into a folder.
fn write<F: Send + Drop, D: Folder<F>>(
    alloc: Global,
    folder: &mut D,
    writer: u32,
    bytes: &[u8],
) -> Option<Entry>
where
    requires writer { D.last_writer folder.old < writer }
    requires short { length bytes.now ≤ 64 }
    ensures writer { IfSome result (λ e. e.writer ≡ writer) }
    ensures last { D.last_writer folder.new ≤ writer }
    ensures out { D.table_out folder.new ≡ D.table_out folder.old }
    ensures name { D.name folder.new ≡ D.name folder.old }
{
    let mut shelf = folder.shelf(alloc, writer).ok()?;
    let entry = batch(alloc, &mut shelf, writer, bytes)?;
    folder.give_shelf(shelf);
    Some(entry)
}

/// Appends an entry, and tells whether it did.
fn append<F: Send + Drop, T: Disk<F>>(toc: &mut Toc<F, T>, entry: Entry) -> bool
    requires { entry.writer ≤ 65536 }
    ensures name { T.name toc.new.table ≡ T.name toc.old.table }
{
    toc.reserve().is_ok() && toc.append(entry).is_ok()
}

/// Has the table of a folder list these two entries, and tells whether it does.
fn list<F: Send + Drop, D: Folder<F>>(
    alloc: Global,
    folder: &mut D,
    first: Entry,
    second: Entry,
) -> bool
where
    requires back { D.table_out folder.old ≡ false }
    requires name { D.name folder.old ≡ codes "a=1" }
    requires first { first.writer ≤ 65536 }
    requires second { second.writer ≤ 65536 }
    ensures back { result ≡ true → D.table_out folder.new ≡ false }
    ensures name { D.name folder.new ≡ codes "a=1" }
{
    let Ok(Some(table)) = folder.table(alloc) else {
        return false;
    };
    let Ok(mut toc) = Toc::load(alloc, table, "a=1") else {
        return false;
    };
    let is_listed = append(&mut toc, first) && append(&mut toc, second);
    folder.give_table(toc.into_table());
    is_listed
}

/// Writes two batches of the key into a folder, where no shelf of it was made, and lists them; tells whether it did.
fn write_both<F: Send + Drop, D: Folder<F>>(alloc: Global, folder: &mut D) -> bool
where
    requires back { D.table_out folder.old ≡ false }
    requires name { D.name folder.old ≡ codes "a=1" }
    requires last { D.last_writer folder.old ≡ 0 }
    ensures back { result ≡ true → D.table_out folder.new ≡ false }
    ensures name { result ≡ true → D.name folder.new ≡ codes "a=1" }
{
    let Some(first) = write(alloc, folder, 1, b"older") else {
        return false;
    };
    let Some(second) = write(alloc, folder, 2, b"the newest") else {
        return false;
    };
    is_founded(alloc, folder) && list(alloc, folder, first, second)
}

/// Writes them into the dataset of a store, and tells whether it did.
pub(crate) fn written<F: Send + Drop, S: Store<F>>(alloc: Global, store: &mut S) -> bool
where
    requires { S.out store.old (codes "a=1") ≡ false }
    ensures { result ≡ true → S.out store.new (codes "a=1") ≡ false }
{
    let Ok(mut folder) = store.folder(alloc, "a=1") else {
        return false;
    };
    if !write_both(alloc, &mut folder) {
        return false;
    }
    store.give_folder(folder);
    true
}

/// The length of the newest field of the key.
fn newest<F: Send + Drop, Z: Sealed<F>>(
    alloc: Global,
    segments: &[Arc<Segment<F, Z>>],
) -> Option<u64> {
    for i in 0..segments.len() {
        let mut lens = segments[segments.len() - 1 - i].lens(alloc).ok()?;
        if let Some((_, len)) = lens.find(alloc, b"i|a").ok()? {
            return Some(len);
        }
    }
    None
}

/// What is found in a folder.
fn found_in<F: Send + Drop, D: Folder<F>>(alloc: Global, folder: &mut D) -> Found
where
    requires back { D.table_out folder.old ≡ false }
    requires name { D.name folder.old ≡ codes "a=1" }
    ensures back { D.table_out folder.new ≡ false }
    ensures name { D.name folder.new ≡ codes "a=1" }
{
    match recover(alloc, folder, "a=1") {
        Ok(Some(Recovered { toc, segments })) => {
            folder.give_table(toc.into_table());
            Found::Batches(segments.len(), newest(alloc, &segments))
        }
        Ok(None) => Found::NoTable,
        Err(_) => Found::Refused,
    }
}

/// What is found in the dataset of a store.
pub(crate) fn look<F: Send + Drop, S: Store<F>>(alloc: Global, store: &mut S) -> Found
where
    requires { S.out store.old (codes "a=1") ≡ false }
    ensures { S.out store.new (codes "a=1") ≡ false }
{
    let Ok(mut folder) = store.folder(alloc, "a=1") else {
        return Found::Refused;
    };
    let found = found_in(alloc, &mut folder);
    store.give_folder(folder);
    found
}
