//! A dataset in a store in memory as it is opened: without a table, sound, with each damage, and where a call of its table fails.
ghost use Rattle.std.specs.Prelude.{◌≡◌, false, codes};

use fd_bytes::NoMemory;
use fd_disk::{FileKind, FileName, Folder, Store};
use fd_disk_mem::{MemStore, Op};
use fd_recovery::{OpenFault, Recovered, recover};
use fd_rows::table_of_one;
use fd_segment::Damage;
use std::alloc::Global;
use std::test::Fail;

/// What was made of a dataset.
#[derive(Clone, Copy, Debug, PartialEq, Eq)]
enum Found {
    NoTable,
    Segments(usize),
    Disk,
    NotATable(u64, u8, Option<u8>),
    Damaged(Damage),
    Other,
}

/// The refusal by its kind.
fn refused<F: Send + Drop>(fault: OpenFault<F>) -> Found {
    match fault {
        OpenFault::Disk(_) => Found::Disk,
        OpenFault::NotATable { at, want, found } => Found::NotATable(at, want, found),
        OpenFault::Damaged(damage) => Found::Damaged(damage),
        _ => Found::Other,
    }
}

/// Opens the dataset of a folder.
fn opened<F: Send + Drop, D: Folder<F>>(alloc: Global, folder: &mut D) -> Found
where
    requires back { D.table_out folder.old ≡ false }
    requires name { D.name folder.old ≡ codes "a=1" }
{
    match recover(alloc, folder, "a=1") {
        Ok(None) => Found::NoTable,
        Ok(Some(Recovered { toc: _, segments })) => Found::Segments(segments.len()),
        Err(fault) => refused(fault),
    }
}

/// Opens the dataset of a store.
fn opened_in<F: Send + Drop, S: Store<F>>(alloc: Global, mut store: S) -> Found
where
    requires { S.out store (codes "a=1") ≡ false }
{
    match store.folder(alloc, "a=1") {
        Ok(mut folder) => opened(alloc, &mut folder),
        Err(_) => Found::Other,
    }
}

/// The bytes of a table and of the two files of its first batch, where there are such files.
type Files<'a> = [Option<&'a [u8]>; 3];

/// Has a store have this file or not, and tells whether that is so.
fn hold(alloc: Global, store: &mut MemStore, file: &str, bytes: Option<&[u8]>) -> bool {
    if file.len() > 259 {
        return false;
    }
    store.replace(alloc, file, bytes).is_ok()
}

/// Has a store have these files, and a call of its table fail, and tells whether that is so.
fn prepare(alloc: Global, store: &mut MemStore, files: Files<'_>, fails: (Op, u32)) -> bool {
    hold(alloc, store, "a=1/toc", files[0])
        && hold(alloc, store, "a=1/1-1.fields", files[1])
        && hold(alloc, store, "a=1/1-1.index", files[2])
        && store.fail(alloc, "a=1/toc", fails.0, fails.1).is_ok()
}

/// What is made of a dataset with these files where this call of its table fails.
fn run(alloc: Global, files: Files<'_>, fails: (Op, u32)) -> Found {
    let Ok(mut store) = MemStore::new(alloc, 8192, 64) else {
        return Found::Other;
    };
    let is_prepared = prepare(alloc, &mut store, files, fails);
    let found = opened_in(alloc, store);
    if is_prepared { found } else { Found::Other }
}

/// The first bytes of a table, and those of its first entry: a batch of 2 fields with files of 549 and 4,120 bytes.
fn table(alloc: Global) -> Result<Vec<u8>, NoMemory> {
    let mut bytes = table_of_one(alloc)?;
    bytes.push(0)?;
    Ok(bytes)
}

/// The name of a file of the first batch.
const fn file(kind: FileKind) -> FileName {
    FileName {
        writer: 1,
        seq: 1,
        kind,
    }
}

/// The file is shorter than its entry says.
const fn short(kind: FileKind, want: u64, got: u64) -> Found {
    let file = file(kind);
    Found::Damaged(Damage::Length { file, want, got })
}

/// A call that no test makes.
const NEVER: (Op, u32) = (Op::Create, 9);

/// The SHA-256 of 4,120 bytes, each 47.
const DIGEST: [u8; 32] = [
    0x62, 0x13, 0x18, 0xAF, 0x95, 0x64, 0xEF, 0x19, 0x74, 0xC2, 0xE2, 0x6A, 0x80, 0x07, 0x13, 0xA2,
    0xE8, 0xF1, 0x3B, 0x24, 0xAA, 0x82, 0xE8, 0xC5, 0x80, 0xC9, 0xA9, 0x9B, 0x32, 0xB1, 0x28, 0x0C,
];

/// The table with a second entry, of the kind with a digest, which is the same writer's next batch of files of those lengths.
fn mixed_table(alloc: Global, digest: &[u8; 32]) -> Result<Vec<u8>, NoMemory> {
    let mut bytes = table(alloc)?;
    bytes.resize(384, 0)?;
    bytes.extend_from_slice(b"\x4F\x02\0\0\0\x01\0\0\0\x02\0\0\0\x02")?;
    bytes.extend_from_slice(b"\0\0\0\0\0\0\x10\x18\0\0\0\0\0\0\x02\x25")?;
    bytes.extend_from_slice(digest)?;
    bytes.resize(449, 0)?;
    Ok(bytes)
}

/// Has a store have the files of the second batch, and a call of its index fail, and tells whether that is so.
fn prepare_second(
    alloc: Global,
    store: &mut MemStore,
    bytes: &[u8; 4120],
    fails: (Op, u32),
) -> bool {
    hold(alloc, store, "a=1/1-2.fields", Some(&bytes[..549]))
        && hold(alloc, store, "a=1/1-2.index", Some(bytes.as_slice()))
        && store.fail(alloc, "a=1/1-2.index", fails.0, fails.1).is_ok()
}

/// What is made of a dataset with both batches, where the second is listed with this digest, and a call of its index fails.
fn run_mixed(alloc: Global, digest: &[u8; 32], fails: (Op, u32)) -> Found {
    let Ok(listing) = mixed_table(alloc, digest) else {
        return Found::Other;
    };
    let Ok(mut store) = MemStore::new(alloc, 8192, 64) else {
        return Found::Other;
    };
    let bytes = [0x47; 4120];
    let files = [
        Some(listing.as_slice()),
        Some(&bytes[..549]),
        Some(&bytes[..]),
    ];
    let is_prepared = prepare(alloc, &mut store, files, NEVER)
        && prepare_second(alloc, &mut store, &bytes, fails);
    let found = opened_in(alloc, store);
    if is_prepared { found } else { Found::Other }
}

#[test]
fn datasets_of_both_kinds(rt: HostRuntime) {
    let mut want = DIGEST;
    want[31] = 0;
    let file = FileName {
        seq: 2,
        ..file(FileKind::Index)
    };
    let got = DIGEST;
    let damaged = Found::Damaged(Damage::IndexDigest { file, want, got });
    for (digest, fails, found) in [
        (DIGEST, NEVER, Found::Segments(2)),
        (DIGEST, (Op::Read, 1), Found::Disk),
        (want, NEVER, damaged),
    ] {
        assert_eq!(rt; run_mixed(rt.alloc(), &digest, fails), found);
    }
}

#[test]
fn datasets_of_each_kind(rt: HostRuntime) -> Result<(), Fail> {
    let listing = table(rt.alloc())?;
    let file_bytes = [0x47; 4120];
    let listing = Some(listing.as_slice());
    let fields = Some(&file_bytes[..549]);
    let index = Some(&file_bytes[..]);
    let absent = Found::Damaged(Damage::Absent {
        file: file(FileKind::Fields),
    });
    for (files, fails, want) in [
        ([None; 3], NEVER, Found::NoTable),
        ([listing, fields, index], NEVER, Found::Segments(1)),
        ([listing, fields, index], (Op::Sync, 1), Found::Disk),
        ([listing, fields, index], (Op::Read, 2), Found::Disk),
        ([listing, None, index], NEVER, absent),
        (
            [listing, Some(&file_bytes[..548]), index],
            NEVER,
            short(FileKind::Fields, 549, 548),
        ),
        (
            [listing, fields, Some(&file_bytes[..4119])],
            NEVER,
            short(FileKind::Index, 4120, 4119),
        ),
        (
            [Some(b"FDTOC".as_slice()), None, None],
            NEVER,
            Found::NotATable(5, 48, None),
        ),
        (
            [Some(b"\0".as_slice()), None, None],
            NEVER,
            Found::NotATable(0, 70, Some(0)),
        ),
    ] {
        assert_eq!(rt; run(rt.alloc(), files, fails), want);
    }
    Ok(())
}
