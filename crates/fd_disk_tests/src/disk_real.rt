//! A dataset on the real disk, in the folder where the test runs.
ghost use Rattle.std.specs.Prelude.{◌≡◌, ◌≤◌, ◌<◌, ◌+◌, ◌^◌, length, true, false, None, IfSome, IsTrue};
ghost use Rattle.fd_disk.specs.{declared.folders.FileKind.TheVariants.{Fields}, Names.{name_of}};

use fd_disk::{Disk, FileKind, FileName, Folder, Reader, Renew, Sealed, Shelf, Store};
use fd_disk_real::*;
use std::alloc::Global;
use std::fs;

const ROOT: &str = "root/below";

const SCHEMA: &[u8] = b"[a[b[c]]]";

const DATASET: &str = "class=od";

const FIELDS: FileName = FileName {
    writer: 7,
    seq: 1,
    kind: FileKind::Fields,
};

/// Tells that nothing stands in the store.
fn is_empty(alloc: Global, store: &mut RealStore) -> bool {
    let has_names = match store.names(alloc) {
        Ok(names) => !names.is_empty(),
        Err(_) => true,
    };
    matches!(store.schema(alloc), Ok(None)) && !has_names
}

/// Tells that the store takes a schema, and gives it back.
fn takes_schema(alloc: Global, store: &mut RealStore) -> bool {
    if store.plant(alloc, SCHEMA).is_err() {
        return false;
    }
    match store.schema(alloc) {
        Ok(Some(text)) => text.as_slice() == SCHEMA,
        _ => false,
    }
}

/// Tells that a store in a root of its own is empty, keeps a schema, and has no folder outside.
fn keeps_schema(alloc: Global, host: HostRuntime) -> bool {
    let Ok(mut store) = RealStore::new(alloc, host) else {
        return false;
    };
    store.enter(alloc, "").is_err()
        && store.enter(alloc, ROOT).is_ok()
        && is_empty(alloc, &mut store)
        && takes_schema(alloc, &mut store)
        && store.folder(alloc, "..").is_err()
        && store.folder(alloc, "a/b").is_err()
}

#[test]
fn holds_a_schema(rt: HostRuntime) {
    assert!(rt; keeps_schema(rt.alloc(), rt));
    assert!(rt; matches!(fs::exists(&rt, "root/below/schema.new"), Ok(false)));
}

/// Writes behind the end of a table and into it, each with a sync.
fn write_table<F: Send + Drop, T: Disk<F>>(table: &mut T) -> bool
where
    ensures name { T.name table.new ≡ T.name table.old }
{
    table.write_at(5, b"!!").is_ok()
        && table.sync().is_ok()
        && table.write_at(1, b"A").is_ok()
        && table.sync().is_ok()
}

/// Tells that a folder without a table founds one, which is written.
fn keeps_table<F: Send + Drop, D: Folder<F>>(alloc: Global, folder: &mut D) -> bool
where
    requires untold { D.has folder.old ≡ None }
    requires back { D.table_out folder.old ≡ false }
    requires short { length (D.name folder.old) ≤ 255 }
{
    let Ok(None) = folder.table(alloc) else {
        return false;
    };
    if folder.found(alloc, b"table").is_err() {
        return false;
    }
    let Ok(Some(mut table)) = folder.table(alloc) else {
        return false;
    };
    let is_written = write_table(&mut table);
    folder.give_table(table);
    is_written
}

/// Tells that the store has the dataset.
fn has_dataset(alloc: Global, store: &mut RealStore) -> bool {
    match store.names(alloc) {
        Ok(names) => names.iter().any(|name| name.as_str() == DATASET),
        Err(_) => false,
    }
}

/// A folder of the store.
fn folder(alloc: Global, host: HostRuntime, name: &str) -> Option<RealFolder>
    ensures writer { IfSome result (λ d. ⟦<RealFolder as Folder<RealFault>>⟧.last_writer d ≡ 0) }
    ensures back { IfSome result (λ d. ⟦<RealFolder as Folder<RealFault>>⟧.table_out d ≡ false) }
    ensures name { IfSome result (λ d. ⟦<RealFolder as Folder<RealFault>>⟧.name d ≡ name.now) }
{
    let mut store = RealStore::new(alloc, host).ok()?;
    store.folder(alloc, name).ok()
}

/// Two folders of one dataset, each of a store of its own.
fn two_folders(alloc: Global, host: HostRuntime, name: &str) -> Option<(RealFolder, RealFolder)>
    ensures first_writer { IfSome result (λ t. ⟦<RealFolder as Folder<RealFault>>⟧.last_writer t.0 ≡ 0) }
    ensures first_back { IfSome result (λ t. ⟦<RealFolder as Folder<RealFault>>⟧.table_out t.0 ≡ false) }
    ensures first_name { IfSome result (λ t. ⟦<RealFolder as Folder<RealFault>>⟧.name t.0 ≡ name.now) }
    ensures second_writer { IfSome result (λ t. ⟦<RealFolder as Folder<RealFault>>⟧.last_writer t.1 ≡ 0) }
    ensures second_back { IfSome result (λ t. ⟦<RealFolder as Folder<RealFault>>⟧.table_out t.1 ≡ false) }
{
    Some((folder(alloc, host, name)?, folder(alloc, host, name)?))
}

/// What is told of the folder of a dataset, where there is one.
macro_rules! of_one {
    ($rt:expr, $name:expr, $told:expr) => {
        match folder($rt.alloc(), $rt, $name) {
            Some(mut folder) => $told($rt, &mut folder),
            None => None,
        }
    };
}

/// What is told of both folders of a dataset, or that nothing is right.
macro_rules! of_two {
    ($rt:expr, $name:expr, $told:expr) => {
        match two_folders($rt.alloc(), $rt, $name) {
            Some((first, second)) => $told($rt.alloc(), first, second),
            None => false,
        }
    };
}

/// Tells that a dataset of the store keeps a table.
fn dataset_keeps_table(rt: HostRuntime) -> bool {
    match folder(rt.alloc(), rt, DATASET) {
        Some(mut folder) => keeps_table(rt.alloc(), &mut folder),
        None => false,
    }
}

/// Tells that a store names the dataset.
fn names_dataset(alloc: Global, host: HostRuntime) -> bool {
    match RealStore::new(alloc, host) {
        Ok(mut store) => has_dataset(alloc, &mut store),
        Err(_) => false,
    }
}

#[test]
fn keeps_a_table(rt: HostRuntime) {
    assert!(rt; dataset_keeps_table(rt) && names_dataset(rt.alloc(), rt));
    let is_written = match fs::read(&rt, "class=od/toc") {
        Ok(bytes) => bytes.as_slice() == b"tAble!!".as_slice(),
        Err(_) => false,
    };
    assert!(rt; is_written);
}

/// The file of the fields of batch 1, or that of its index.
fn create<F: Send + Drop, H: Shelf<F>>(
    alloc: Global,
    shelf: &mut H,
    kind: FileKind,
) -> Option<H::File>
where
    requires created { H.created shelf.old (name_of (H.writer shelf.old) 1 kind) ≡ false }
    ensures name { H.name shelf.new ≡ H.name shelf.old }
    ensures writer { H.writer shelf.new ≡ H.writer shelf.old }
{
    shelf.create(alloc, 1, kind).ok()
}

/// Writes the bytes into a file, and seals it.
fn sealed<F: Send + Drop, T: Disk<F>>(mut file: T, bytes: &[u8]) -> Option<T::Sealed>
where
    requires sum { length bytes.now < 2 ^ 63 }
{
    let Ok(()) = file.write_at(0, bytes) else {
        return None;
    };
    let Ok(()) = file.sync() else {
        return None;
    };
    Some(file.seal())
}

/// Writes the fields of a batch: their length.
fn written<F: Send + Drop, H: Shelf<F>>(alloc: Global, shelf: &mut H) -> Option<u64>
where
    requires created { H.created shelf.old (name_of (H.writer shelf.old) 1 Fields) ≡ false }
    ensures name { H.name shelf.new ≡ H.name shelf.old }
{
    let file = create(alloc, shelf, FileKind::Fields)?;
    let sealed = sealed(file, b"GRIB")?;
    Some(sealed.len())
}

/// Writes the fields of a batch, and puts their shelf back: their length.
fn write_batch<F: Send + Drop, D: Folder<F>>(alloc: Global, folder: &mut D) -> Option<u64>
where
    requires writer { D.last_writer folder.old ≡ 0 }
    ensures out { D.table_out folder.new ≡ D.table_out folder.old }
{
    let mut shelf = folder.shelf(alloc, 7).ok()?;
    let len = written(alloc, &mut shelf);
    folder.give_shelf(shelf);
    len
}

/// What reads the fields of that batch.
fn reader_of<F: Send + Drop, D: Folder<F>>(
    alloc: Global,
    folder: &mut D,
) -> Option<<D::Sealed as Sealed<F>>::Reader> {
    let Ok(Some(sealed)) = folder.sealed(alloc, FIELDS) else {
        return None;
    };
    sealed.reader(alloc).ok()
}

/// Reads behind the first octet.
fn read<F: Send + Drop, R: Reader<F>>(reader: &mut R) -> Option<(usize, [u8; 8])> {
    let mut bytes = [0u8; 8];
    let n = reader.read_at(1, &mut bytes).ok()?;
    Some((n, bytes))
}

/// What is read of the fields of a batch, and again once its file was cut.
fn reads_of<F: Send + Drop, D: Folder<F>>(
    rt: HostRuntime,
    folder: &mut D,
) -> Option<[Option<(usize, [u8; 8])>; 2]>
where
    requires writer { D.last_writer folder.old ≡ 0 }
{
    if write_batch(rt.alloc(), folder) != Some(4) {
        return None;
    }
    let mut reader = reader_of(rt.alloc(), folder)?;
    let before = read(&mut reader);
    fs::write(&rt, "class=xd/7-1.fields", b"G".as_slice()).ok()?;
    Some([before, read(&mut reader)])
}

#[test]
fn keeps_sealed_files(rt: HostRuntime) {
    let reads = of_one!(rt, "class=xd", reads_of);
    assert!(rt; reads == Some([Some((3, *b"RIB\0\0\0\0\0")), None]));
}

/// Tells that the file of the fields of a batch stands in the folder.
fn stands(rt: HostRuntime) -> bool {
    matches!(fs::exists(&rt, "class=ld/7-1.fields"), Ok(true))
}

/// Tells whether that file stands before its first sync, and whether behind it.
fn stands_since<F: Send + Drop, D: Folder<F>>(rt: HostRuntime, folder: &mut D) -> Option<[bool; 2]>
where
    requires writer { D.last_writer folder.old ≡ 0 }
{
    let mut file = file_in(rt.alloc(), folder)?;
    let stood = stands(rt);
    file.sync().ok()?;
    Some([stood, stands(rt)])
}

#[test]
fn makes_files_late(rt: HostRuntime) {
    let stand = of_one!(rt, "class=ld", stands_since);
    assert!(rt; stand == Some([false, true]));
}

/// The bytes of a field of 200,000 octets.
fn many_bytes(alloc: Global) -> Option<Vec<u8>> {
    let mut all = Vec::new(alloc);
    for place in 0..200_000usize {
        all.push((place % 251) as u8).ok()?;
    }
    Some(all)
}

/// Writes the front of these bytes in a thousand pieces, other bytes before each: how many were written.
fn write_pieces<F: Send + Drop, T: Disk<F>>(file: &mut T, all: &[u8]) -> Option<u64> {
    let mut rest = all;
    let mut at = 0u64;
    for turn in 0..1000usize {
        let n = if turn % 90 == 89 {
            10_000
        } else {
            1 + turn % 97
        };
        let (piece, more) = rest.split_at_checked(n)?;
        if at > 1_000_000 || piece.len() > 10_000 {
            return None;
        }
        if file.write_at(at, b"wrong").is_err() || file.write_at(at, piece).is_err() {
            return None;
        }
        at += piece.len() as u64;
        rest = more;
    }
    Some(at)
}

/// Tells that the front of the bytes is read, and that an end is written and made firm.
fn ends<F: Send + Drop, T: Disk<F>>(file: &mut T, at: u64) -> bool
where
    requires sum { at + 3 < 2 ^ 63 }
{
    let mut front = [0u8; 8];
    let is_read = matches!(file.read_at(1, &mut front), Ok(8)) && front == [1, 2, 3, 4, 5, 6, 7, 8];
    is_read && file.write_at(at, b"end").is_ok()
}

/// Writes the bytes in pieces and an end: what reads the sealed file, and how many of the bytes there are.
fn gathered<F: Send + Drop, T: Disk<F>>(
    alloc: Global,
    mut file: T,
    all: &[u8],
) -> Option<(u64, <T::Sealed as Sealed<F>>::Reader)> {
    let at = write_pieces(&mut file, all)?;
    if at > 1_000_000 || !ends(&mut file, at) {
        return None;
    }
    let Ok(()) = file.sync() else {
        return None;
    };
    let reader = file.seal().reader(alloc).ok()?;
    Some((at, reader))
}

/// A file of the fields of a batch.
fn file_in<F: Send + Drop, D: Folder<F>>(
    alloc: Global,
    folder: &mut D,
) -> Option<<D::Shelf as Shelf<F>>::File>
where
    requires writer { D.last_writer folder.old ≡ 0 }
{
    let mut shelf = folder.shelf(alloc, 7).ok()?;
    create(alloc, &mut shelf, FileKind::Fields)
}

/// Tells that the file has the first so many of these bytes, and the end.
fn is_whole(file: &[u8], all: &[u8], at: u64) -> bool {
    match file.split_last_chunk::<3>() {
        Some((front, end)) => front.len() as u64 == at && all.starts_with(front) && end == b"end",
        None => false,
    }
}

/// Tells that twenty pieces from a place on are read as these bytes.
fn reads_as<F: Send + Drop, R: Reader<F>>(reader: &mut R, start: usize, bytes: &[u8]) -> bool {
    let mut piece = [0u8; 4096];
    let Some((_, mut rest)) = bytes.split_at_checked(start) else {
        return false;
    };
    let mut place = start as u64;
    for _ in 0..20 {
        let Ok(n) = reader.read_at(place, &mut piece) else {
            return false;
        };
        if n != 4096.min(rest.len()) {
            return false;
        }
        let (read, after) = rest.split_at(n);
        let (front, _) = piece.split_at(n);
        if front != read {
            return false;
        }
        rest = after;
        place = place.saturating_add(n as u64);
    }
    true
}

/// Tells that these bytes are read from several places on.
fn reads_ahead<F: Send + Drop, R: Reader<F>>(reader: &mut R, bytes: &[u8]) -> bool {
    for start in [0, 1, 70_000, 3] {
        if !reads_as(reader, start, bytes) {
            return false;
        }
    }
    true
}

/// Tells that a file of a dataset is read as its bytes were written, and stands so under its path.
fn is_read_ahead<F: Send + Drop, D: Folder<F>>(
    rt: HostRuntime,
    folder: &mut D,
    all: &[u8],
) -> Option<bool>
where
    requires writer { D.last_writer folder.old ≡ 0 }
{
    let file = file_in(rt.alloc(), folder)?;
    let (at, mut reader) = gathered(rt.alloc(), file, all)?;
    let bytes = fs::read(&rt, "class=rd/7-1.fields").ok()?;
    Some(is_whole(&bytes, all, at) && reads_ahead(&mut reader, &bytes))
}

#[test]
fn gathers_writes_and_reads_ahead(rt: HostRuntime) {
    let is_right = match (many_bytes(rt.alloc()), folder(rt.alloc(), rt, "class=rd")) {
        (Some(all), Some(mut folder)) => is_read_ahead(rt, &mut folder, &all),
        _ => None,
    };
    assert!(rt; is_right == Some(true));
}

/// Tells that a folder gives a shelf to a writer.
fn gives_shelf<F: Send + Drop, D: Folder<F>>(alloc: Global, folder: &mut D, writer: u32) -> bool
where
    requires writer { D.last_writer folder.old < writer }
    ensures writer { D.last_writer folder.new ≤ writer }
    ensures out { D.table_out folder.new ≡ D.table_out folder.old }
    ensures name { D.name folder.new ≡ D.name folder.old }
{
    match folder.shelf(alloc, writer) {
        Ok(shelf) => {
            folder.give_shelf(shelf);
            true
        }
        Err(_) => false,
    }
}

/// Tells that the second of two folders of a dataset gives a shelf only once the first is let go.
fn one_writes<F: Send + Drop, D: Folder<F>>(alloc: Global, first: D, mut second: D) -> bool
where
    requires first { D.last_writer first ≡ 0 }
    requires second { D.last_writer second ≡ 0 }
{
    if !is_kept_out(alloc, first, &mut second) {
        return false;
    }
    gives_shelf(alloc, &mut second, 2)
}

/// Tells that the first of two folders gives a shelf, and then the second doesn't.
fn is_kept_out<F: Send + Drop, D: Folder<F>>(alloc: Global, mut first: D, second: &mut D) -> bool
where
    requires first { D.last_writer first ≡ 0 }
    requires second { D.last_writer second.old ≡ 0 }
    ensures writer { D.last_writer second.new ≤ 1 }
{
    gives_shelf(alloc, &mut first, 1) && !gives_shelf(alloc, second, 1)
}

#[test]
fn one_writes_to_a_dataset(rt: HostRuntime) {
    let is_right = of_two!(rt, "class=wd", one_writes);
    assert!(rt; is_right);
}

/// A folder whose table is out and was read whole.
fn with_read_table<F: Send + Drop, D: Folder<F>>(alloc: Global, folder: &mut D) -> bool
where
    requires back { D.table_out folder.old ≡ false }
    ensures writer { D.last_writer folder.new ≡ D.last_writer folder.old }
{
    let Ok(Some(mut table)) = folder.table(alloc) else {
        return false;
    };
    let mut bytes = [0u8; 16];
    matches!(table.read_at(0, &mut bytes), Ok(5))
}

/// Tells that a table that is written anew once it was read keeps its folder from giving a shelf, and another doesn't.
fn is_stale(rt: HostRuntime, bytes: &[u8]) -> Option<bool> {
    fs::create_dir_all(&rt, "class=sd").ok()?;
    fs::write(&rt, "class=sd/toc", b"table".as_slice()).ok()?;
    let mut folder = folder(rt.alloc(), rt, "class=sd")?;
    if !with_read_table(rt.alloc(), &mut folder) {
        return None;
    }
    fs::write(&rt, "class=sd/toc", bytes).ok()?;
    Some(!gives_shelf(rt.alloc(), &mut folder, 1))
}

#[test]
fn tells_a_stale_table(rt: HostRuntime) {
    assert!(rt; is_stale(rt, b"tablE") == Some(true) && is_stale(rt, b"tables") == Some(true));
    assert!(rt; is_stale(rt, b"table") == Some(false));
}

/// Tells that of what stands in a root of its own only the folder of a dataset is named.
fn names_datasets(rt: HostRuntime) -> Option<bool> {
    fs::create_dir_all(&rt, "strays/lost+found").ok()?;
    fs::create_dir_all(&rt, "strays/class=od").ok()?;
    fs::write(&rt, "strays/class=rd", b"no folder".as_slice()).ok()?;
    let mut store = RealStore::new(rt.alloc(), rt).ok()?;
    store.enter(rt.alloc(), "strays").ok()?;
    let names = store.names(rt.alloc()).ok()?;
    Some(names.len() == 1 && has_dataset(rt.alloc(), &mut store))
}

#[test]
fn passes_over_strays(rt: HostRuntime) {
    assert!(rt; names_datasets(rt) == Some(true));
}

/// The table of a folder, which is founded.
fn founded<F: Send + Drop, D: Folder<F>>(alloc: Global, folder: &mut D) -> Option<D::Table>
where
    requires untold { D.has folder.old ≡ None }
    requires back { D.table_out folder.old ≡ false }
    requires short { length (D.name folder.old) ≤ 255 }
    ensures out { IfSome result (λ t. D.table_out folder.new ≡ true) }
    ensures table { IfSome result (λ t. D.Table.name t ≡ D.name folder.new) }
    ensures untold { D.has folder.new ≡ None }
    ensures name { D.name folder.new ≡ D.name folder.old }
    ensures writer { D.last_writer folder.new ≡ D.last_writer folder.old }
{
    if folder.found(alloc, b"table").is_err() {
        return None;
    }
    match folder.table(alloc) {
        Ok(table) => table,
        Err(_) => None,
    }
}

/// Renews the table of a folder, which is founded.
fn renewed<F: Send + Drop, D: Renew<F>>(alloc: Global, folder: &mut D) -> bool
where
    requires untold { D.has folder.old ≡ None }
    requires back { D.table_out folder.old ≡ false }
    requires short { length (D.name folder.old) ≤ 255 }
    ensures untold { D.has folder.new ≡ None }
    ensures back { IsTrue result → D.table_out folder.new ≡ false }
    ensures name { D.name folder.new ≡ D.name folder.old }
    ensures writer { D.last_writer folder.new ≡ D.last_writer folder.old }
{
    match founded(alloc, folder) {
        Some(table) => folder.renew(alloc, table, b"new").is_ok(),
        None => false,
    }
}

/// Tells that the table of a folder is renewed, is written then, and is taken away.
fn renews<F: Send + Drop, D: Renew<F>>(rt: HostRuntime, folder: &mut D) -> Option<bool>
where
    requires untold { D.has folder.old ≡ None }
    requires back { D.table_out folder.old ≡ false }
    requires short { length (D.name folder.old) ≤ 255 }
{
    if !renewed(rt.alloc(), folder) {
        return None;
    }
    let is_new = fs::read(&rt, "class=nd/toc").ok()?.as_slice() == b"new".as_slice();
    let mut table = folder.table(rt.alloc()).ok()??;
    let is_written = write_table(&mut table);
    let is_gone = folder.unfound(rt.alloc(), table).is_ok();
    let is_left = fs::exists(&rt, "class=nd/toc").ok()?
        || fs::exists(&rt, "class=nd/toc.new").ok()?;
    Some(is_new && is_written && is_gone && !is_left)
}

#[test]
fn renews_a_table(rt: HostRuntime) {
    let is_right = of_one!(rt, "class=nd", renews);
    assert!(rt; is_right == Some(true));
}

/// Tells that a file of a batch is removed, and that there is none to remove then.
fn removes<F: Send + Drop, D: Renew<F>>(rt: HostRuntime, folder: &mut D) -> Option<bool>
where
    requires writer { D.last_writer folder.old ≡ 0 }
    requires back { D.table_out folder.old ≡ false }
{
    write_batch(rt.alloc(), folder)?;
    let was_there = fs::exists(&rt, "class=vd/7-1.fields").ok()?;
    let is_removed = folder.remove(rt.alloc(), FIELDS).is_ok();
    let is_there = fs::exists(&rt, "class=vd/7-1.fields").ok()?;
    Some(was_there && is_removed && !is_there && folder.remove(rt.alloc(), FIELDS).is_ok())
}

#[test]
fn removes_a_file(rt: HostRuntime) {
    let is_right = of_one!(rt, "class=vd", removes);
    assert!(rt; is_right == Some(true));
}

/// Tells that the table of a folder, which is read and then written anew by somebody else, is renewed.
fn is_renewed<F: Send + Drop, D: Renew<F>>(
    rt: HostRuntime,
    folder: &mut D,
    bytes: &[u8],
) -> Option<bool>
where
    requires back { D.table_out folder.old ≡ false }
{
    let mut table = folder.table(rt.alloc()).ok()??;
    let mut read = [0u8; 16];
    table.read_at(0, &mut read).ok()?;
    fs::write(&rt, "class=zd/toc", bytes).ok()?;
    let is_renewed = folder.renew(rt.alloc(), table, b"new").is_ok();
    let is_new = fs::read(&rt, "class=zd/toc").ok()?.as_slice() == b"new".as_slice();
    if is_new != is_renewed {
        return None;
    }
    Some(is_renewed)
}

/// The same of a folder of the store.
fn renews_stale(rt: HostRuntime, bytes: &[u8]) -> Option<bool> {
    fs::create_dir_all(&rt, "class=zd").ok()?;
    fs::write(&rt, "class=zd/toc", b"table".as_slice()).ok()?;
    let mut folder = folder(rt.alloc(), rt, "class=zd")?;
    is_renewed(rt, &mut folder, bytes)
}

#[test]
fn renews_what_was_read(rt: HostRuntime) {
    assert!(rt;
        renews_stale(rt, b"tables") == Some(false) && renews_stale(rt, b"table") == Some(true)
    );
}

/// Tells that the second of two folders of a dataset renews its table, or removes a file, only once the first is let go.
fn one_renews<F: Send + Drop, D: Renew<F>>(alloc: Global, first: D, mut second: D) -> bool
where
    requires untold { D.has first ≡ None }
    requires back { D.table_out first ≡ false }
    requires short { length (D.name first) ≤ 255 }
    requires second { D.table_out second ≡ false }
{
    let is_kept_out = is_held(alloc, first, &mut second);
    is_kept_out && second.remove(alloc, FIELDS).is_ok()
}

/// Tells that the first of two folders renews its table, and then the second doesn't remove a file.
fn is_held<F: Send + Drop, D: Renew<F>>(alloc: Global, mut first: D, second: &mut D) -> bool
where
    requires untold { D.has first ≡ None }
    requires back { D.table_out first ≡ false }
    requires short { length (D.name first) ≤ 255 }
    requires second { D.table_out second.old ≡ false }
    ensures second { D.table_out second.new ≡ false }
{
    renewed(alloc, &mut first) && second.remove(alloc, FIELDS).is_err()
}

#[test]
fn one_renews_a_dataset(rt: HostRuntime) {
    let is_right = of_two!(rt, "class=yd", one_renews);
    assert!(rt; is_right);
}
