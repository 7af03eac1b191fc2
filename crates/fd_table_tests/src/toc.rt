//! A table in a store in memory: its bytes, and what crashes leave of it after each call of the disk failed in turn.
ghost use Rattle.std.specs.Prelude.{◌≡◌, ◌≤◌, false, true, IfOk, IfSome, OnSome, codes};

use fd_bytes::NoMemory;
use fd_disk::{Disk, Folder, Store};
use fd_disk_mem::{MemFault, MemStore, Op};
use fd_entries::every_table;
use fd_rows::table_of_one;
use fd_tables::{folder_left, is_founded};
use fd_toc::*;
use std::alloc::Global;
use std::test::Fail;

const FIRST: Entry = Entry {
    writer: 1,
    seq: 1,
    fields: 2,
    index_len: 4120,
    fields_len: 549,
    digest: None,
};

const SECOND: Entry = Entry {
    writer: 1,
    seq: 2,
    fields: 1,
    index_len: 4120,
    fields_len: 183,
    digest: None,
};

const THIRD: Entry = Entry {
    writer: 65_536,
    seq: 1,
    fields: 1,
    index_len: 4120,
    fields_len: 366,
    digest: None,
};

/// What an append answered: its number, or why not.
#[derive(Clone, Copy, Debug, PartialEq, Eq)]
enum Answer {
    Number(u32),
    /// The disk failed, and an entry is in doubt.
    Doubt,
    /// The disk failed, and nothing is in doubt.
    Fault,
    Unready,
}

use Answer::{Doubt, Fault, Number, Unready};

fn append<F: Send + Drop, T: Disk<F>>(toc: &mut Toc<F, T>, entry: Entry) -> Answer
    requires { entry.writer ≤ 65536 }
    ensures name { T.name toc.new.table ≡ T.name toc.old.table }
{
    if toc.reserve().is_err() {
        return Unready;
    }
    match toc.append(entry) {
        Ok(number) => Number(number),
        Err(_) if toc.in_doubt().is_some() => Doubt,
        Err(_) => Fault,
    }
}

/// Takes the table of a folder out and loads it.
fn loaded<F: Send + Drop, D: Folder<F>>(alloc: Global, folder: &mut D) -> Option<Toc<F, D::Table>>
where
    requires back { D.table_out folder.old ≡ false }
    requires name { D.name folder.old ≡ codes "a=1" }
    ensures out { OnSome result (D.table_out folder.new ≡ true) }
    ensures table_name { IfSome result (λ toc. D.Table.name toc.table ≡ codes "a=1") }
    ensures name { D.name folder.new ≡ codes "a=1" }
{
    let Ok(Some(table)) = folder.table(alloc) else {
        return None;
    };
    Toc::load(alloc, table, "a=1").ok()
}

/// Appends three entries to the table of a folder.
fn appended<F: Send + Drop, D: Folder<F>>(alloc: Global, folder: &mut D) -> Option<[Answer; 3]>
where
    requires back { D.table_out folder.old ≡ false }
    requires name { D.name folder.old ≡ codes "a=1" }
    ensures back { OnSome result (D.table_out folder.new ≡ false) }
{
    let mut toc = loaded(alloc, folder)?;
    let first = append(&mut toc, FIRST);
    let second = append(&mut toc, SECOND);
    let third = append(&mut toc, THIRD);
    folder.give_table(toc.into_table());
    Some([first, second, third])
}

/// Founds the table of a store, and appends three entries.
fn written<F: Send + Drop, S: Store<F>>(alloc: Global, store: &mut S) -> Option<[Answer; 3]>
where
    requires { S.out store.old (codes "a=1") ≡ false }
{
    let mut folder = store.folder(alloc, "a=1").ok()?;
    if !is_founded(alloc, &mut folder) {
        return None;
    }
    let answers = appended(alloc, &mut folder)?;
    store.give_folder(folder);
    Some(answers)
}

/// What a table is to have: its entries, and its first bytes, of which there are at most 512.
#[derive(Clone, Copy)]
struct Want<'a> {
    entries: &'a [Entry],
    bytes: &'a [u8],
}

/// Tells whether the table of a folder begins with these bytes.
fn begins<F: Send + Drop, D: Folder<F>>(alloc: Global, folder: &mut D, bytes: &[u8]) -> bool
where
    requires back { D.table_out folder.old ≡ false }
    ensures back { result ≡ true → D.table_out folder.new ≡ false }
    ensures name { D.name folder.new ≡ D.name folder.old }
{
    let Ok(Some(mut table)) = folder.table(alloc) else {
        return false;
    };
    let mut front = [0; 512];
    let is_read = table.read_at(0, &mut front).is_ok();
    folder.give_table(table);
    is_read && front.starts_with(bytes)
}

/// Tells whether a crash left a store whose table is as it is to be.
fn stands<F: Send + Drop, S: Store<F>>(
    alloc: Global,
    left: Result<S, (S, NoMemory)>,
    want: Want<'_>,
) -> bool
where
    requires { IfOk left (λ s. S.out s (codes "a=1") ≡ false) }
{
    let Some(mut folder) = folder_left(alloc, left) else {
        return false;
    };
    if !begins(alloc, &mut folder, want.bytes) {
        return false;
    }
    loaded(alloc, &mut folder).is_some_and(|toc| toc.entries() == want.entries)
}

/// Plans that these two calls of the table fail, and tells whether that was done.
fn plan(alloc: Global, store: &mut MemStore, fails: [(Op, u32); 2]) -> bool {
    let [first, second] = fails;
    store.fail(alloc, "a=1/toc", first.0, first.1).is_ok()
        && store.fail(alloc, "a=1/toc", second.0, second.1).is_ok()
}

/// What three appends answer over a store in memory.
fn written_in(alloc: Global, store: &mut MemStore) -> Option<[Answer; 3]>
    requires { ⟦<MemStore as Store<MemFault>>⟧.out store.old (codes "a=1") ≡ false }
{
    written(alloc, store)
}

/// Tells whether a crash left a store in memory whose table is as it is to be.
fn stands_in(alloc: Global, left: Result<MemStore, (MemStore, NoMemory)>, want: Want<'_>) -> bool
    requires { IfOk left (λ s. ⟦<MemStore as Store<MemFault>>⟧.out s (codes "a=1") ≡ false) }
{
    stands(alloc, left, want)
}

/// What three appends to a new table answer where these two calls of it fail, and whether it is so after a crash.
fn crashed(
    alloc: Global,
    fails: [(Op, u32); 2],
    choice: u64,
    want: Want<'_>,
) -> Option<([Answer; 3], bool)> {
    let Ok(mut store) = MemStore::new(alloc, 65_536, 256) else {
        return None;
    };
    let answers = if plan(alloc, &mut store, fails) {
        written_in(alloc, &mut store)
    } else {
        None
    };
    let is_left = stands_in(alloc, store.crash(alloc, choice), want);
    Some((answers?, is_left))
}

/// A call that none of the tests makes.
const NEVER: (Op, u32) = (Op::Create, 9);

/// The header of the dataset `a=1`, the gate and the slot of the first entry, and the gate of a second.
fn first_bytes(alloc: Global) -> Result<Vec<u8>, NoMemory> {
    let mut bytes = table_of_one(alloc)?;
    bytes.push(0x4F)?;
    Ok(bytes)
}

#[test]
fn each_call_fails_in_turn(rt: HostRuntime) -> Result<(), Fail> {
    every_table();
    let bytes = first_bytes(rt.alloc())?;
    let body_fails = [Fault, Number(1), Number(2)];
    let gate_fails = [Doubt, Number(1), Number(2)];
    let mend_fails = [Doubt, Doubt, Number(1)];
    let three = [FIRST, SECOND, THIRD];
    for (first, second, answers, failed) in [
        (NEVER, NEVER, [Number(1), Number(2), Number(3)], 0),
        ((Op::Write, 1), NEVER, body_fails, 1),
        ((Op::Sync, 2), NEVER, body_fails, 1),
        ((Op::Write, 2), NEVER, gate_fails, 1),
        ((Op::Sync, 3), NEVER, gate_fails, 1),
        ((Op::Write, 2), (Op::Write, 3), mend_fails, 2),
        ((Op::Sync, 3), (Op::Sync, 4), mend_fails, 2),
    ] {
        let want = Want {
            entries: &three[failed..],
            bytes: if failed == 0 { &bytes } else { &[] },
        };
        for choice in 0..4 {
            let seen = crashed(rt.alloc(), [first, second], choice, want);
            assert_eq!(rt;
                seen,
                Some((answers, true)),
                "{first:?} {second:?} {choice}"
            );
        }
    }
    Ok(())
}
