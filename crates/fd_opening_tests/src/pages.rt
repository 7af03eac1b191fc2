//! Ten thousand keys in an index of 64 pages: how often it is read for one of them.
ghost use Rattle.std.specs.Prelude.{◌≡◌, ◌≤◌, length, false, IfSome, codes};
ghost use Rattle.fd_disk.specs.{declared.folders.FileKind.TheVariants.{Fields, Index}, Names.{name_of}};

use fd_disk::{Folder, Reader, Sealed, Shelf, Store};
use fd_disk_mem::{MemStore, Op};
use fd_segment::*;
use std::alloc::Global;

const KEYS: u32 = 10_000;

/// The key with this number.
fn key_of(alloc: Global, i: u32) -> Option<Vec<u8>>
    ensures { IfSome result (λ v. length v.items ≤ 256) }
{
    match format!(in alloc; "i|{i:06}") {
        Ok(text) if text.len() <= 256 => Some(text.into_bytes()),
        _ => None,
    }
}

/// Puts one byte under each key.
fn fill<F: Send + Drop, H: Shelf<F>>(alloc: Global, draft: &mut Draft<F, H>) -> bool
where
    requires { draft.old.end ≡ 0 }
{
    for i in 0..KEYS {
        let Some(key) = key_of(alloc, i) else {
            return false;
        };
        if draft.put(&key, &[42]).is_err() {
            return false;
        }
    }
    true
}

/// A batch of all keys.
fn batch<F: Send + Drop, H: Shelf<F>>(alloc: Global, shelf: &mut H) -> Option<Segment<F, H::Sealed>>
where
    requires writer { H.writer shelf.old ≡ 1 }
    requires fields { H.created shelf.old (name_of 1 1 Fields) ≡ false }
    requires index { H.created shelf.old (name_of 1 1 Index) ≡ false }
{
    let room = Room {
        keys: KEYS,
        bytes: 80_000,
    };
    let Ok(mut draft) = Draft::new(alloc, shelf, 1, 1, room) else {
        return None;
    };
    if !fill(alloc, &mut draft) || draft.is_empty() {
        return None;
    }
    draft.seal(alloc).ok()
}

/// Tells whether the key with this number is found, at its place.
fn is_found<F: Send + Drop, R: Reader<F>>(alloc: Global, lens: &mut Lens<F, R>, i: u32) -> bool {
    let Some(key) = key_of(alloc, i) else {
        return false;
    };
    match lens.find(alloc, &key) {
        Ok(Some((at, len))) => at == 33 * i as u64 && len == 1,
        _ => false,
    }
}

/// Looks for the key with this number twice through one lens, and tells whether it was found each time.
fn find_twice<F: Send + Drop, Z: Sealed<F>>(
    alloc: Global,
    segment: &Segment<F, Z>,
    i: u32,
) -> [bool; 2] {
    let Ok(mut lens) = segment.lens(alloc) else {
        return [false; 2];
    };
    let first = is_found(alloc, &mut lens, i);
    [first, is_found(alloc, &mut lens, i)]
}

/// The index file's length, and how three keys are found twice, each through a lens of its own.
fn seen<F: Send + Drop, Z: Sealed<F>>(
    alloc: Global,
    segment: &Segment<F, Z>,
) -> (u64, [[bool; 2]; 3]) {
    let first = find_twice(alloc, segment, 0);
    let middle = find_twice(alloc, segment, 4711);
    let last = find_twice(alloc, segment, 9999);
    (segment.entry().index_len, [first, middle, last])
}

/// The same of a batch in a folder.
fn seen_in<F: Send + Drop, D: Folder<F>>(
    alloc: Global,
    folder: &mut D,
) -> Option<(u64, [[bool; 2]; 3])>
where
    requires { D.last_writer folder.old ≡ 0 }
{
    let Ok(mut shelf) = folder.shelf(alloc, 1) else {
        return None;
    };
    match batch(alloc, &mut shelf) {
        Some(segment) => Some(seen(alloc, &segment)),
        None => None,
    }
}

/// The same in a store.
fn seen_of<F: Send + Drop, S: Store<F>>(
    alloc: Global,
    mut store: S,
) -> Option<(u64, [[bool; 2]; 3])>
where
    requires { S.out store (codes "a=1") ≡ false }
{
    match store.folder(alloc, "a=1") {
        Ok(mut folder) => seen_in(alloc, &mut folder),
        Err(_) => None,
    }
}

/// The same in a store in memory, where the read of the index file with this number fails in each lens.
fn run(alloc: Global, nth: u32) -> Option<(u64, [[bool; 2]; 3])> {
    let Ok(mut store) = MemStore::new(alloc, 340_000, 20_016) else {
        return None;
    };
    let is_planned = store.fail(alloc, "a=1/1-1.index", Op::Read, nth).is_ok();
    let seen = seen_of(alloc, store);
    if is_planned { seen } else { None }
}

/// A lens reads twice, and then page by page: 7, 5 and 6 pages of the 64. What was read isn't read again.
#[test]
fn many_pages_are_read_seldom(rt: HostRuntime) {
    let at_once = [true; 2];
    let later = [false, true];
    for (nth, want) in [
        (8, [later, at_once, later]),
        (9, [later, at_once, at_once]),
        (10, [at_once; 3]),
    ] {
        assert_eq!(rt; run(rt.alloc(), nth), Some((262_168, want)), "{nth}");
    }
}
