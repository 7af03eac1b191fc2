//! One batch written and read, each of its calls failing in turn, damaged files, and what threads may do with its parts.
ghost use Rattle.std.specs.Prelude.{◌≡◌, ◌⊎◌, ◌≤◌, ◌<◌, ◌+◌, ◌^◌, length, true, false, is_some, IfSome};
ghost use Rattle.fd_disk.specs.{declared.folders.FileName.{FileName}, declared.folders.FileKind.TheVariants.{Fields, Index}, Names.{name_of}};
ghost use Rattle.fd_segment.specs.{Filling.{IsOf}, Held.{behind}};

use fd_disk::{Disk, FileKind, FileName, Folder, Reader, Sealed, Shelf, Store};
use fd_disk_mem::{MemFault, MemFolder, MemShelf, MemStore, Op};
use fd_entries::Entry;
use fd_io::{MemSink, Sink};
use fd_segment::*;
use std::alloc::Global;

const FIRST: &[u8] = &[1; 183];

const SECOND: &[u8] = &[2; 183];

const THIRD: &[u8] = &[3; 183];

/// How a step went: at once, when it was tried again, or never.
#[derive(Clone, Copy, Debug, PartialEq, Eq)]
enum Went {
    AtOnce,
    Again,
    Never,
}

use Went::{Again, AtOnce, Never};

/// How a step went that is tried again where it failed.
macro_rules! went {
    ($succeeds:expr) => {
        if $succeeds {
            AtOnce
        } else if $succeeds {
            Again
        } else {
            Never
        }
    };
}

/// How steps went, by the worst of them.
fn worst(steps: [Went; 3]) -> Went {
    if steps.contains(&Never) {
        Never
    } else if steps.contains(&Again) {
        Again
    } else {
        AtOnce
    }
}

/// The call of a file that fails: its number among those of its kind.
type Fails = (&'static str, Op, u32);

/// A call that no run makes.
const NOTHING: Fails = ("a=1/2-1.index", Op::Sync, 1);

/// A folder of a store in which this call fails, and all calls after so many.
fn folder_in(alloc: Global, store: &mut MemStore, fails: Fails, calls: u64) -> Option<MemFolder>
    ensures new { IfSome result (λ d. ⟦<MemFolder as Folder<MemFault>>⟧.last_writer d ≡ 0) }
{
    let (file, op, nth) = fails;
    store.fail(alloc, file, op, nth).ok()?;
    store.fuse(calls);
    store.folder(alloc, "a=1").ok()
}

/// The same of a store of its own.
fn folder(alloc: Global, fails: Fails, calls: u64) -> Option<MemFolder>
    ensures new { IfSome result (λ d. ⟦<MemFolder as Folder<MemFault>>⟧.last_writer d ≡ 0) }
{
    let mut store = MemStore::new(alloc, 65_536, 256).ok()?;
    folder_in(alloc, &mut store, fails, calls)
}

/// The shelf of writer 1 in such a folder.
fn shelf(alloc: Global, fails: Fails, calls: u64) -> Option<MemShelf>
    ensures writer { IfSome result (λ s. ⟦<MemShelf as Shelf<MemFault>>⟧.writer s ≡ 1) }
    ensures new { IfSome result (λ s. (n : FileName) → ⟦<MemShelf as Shelf<MemFault>>⟧.created s n ≡ false) }
{
    let mut folder = folder(alloc, fails, calls)?;
    folder.shelf(alloc, 1).ok()
}

fn put<F: Send + Drop, H: Shelf<F>>(draft: &mut Draft<F, H>, key: &[u8], bytes: &[u8]) -> Went
where
    requires key { length key.now ≤ 256 }
    requires sum { draft.old.end + (length bytes.now + 32) < 2 ^ 63 }
    ensures end { draft.new.end ≤ draft.old.end + (length bytes.now + 32) }
    ensures origin { draft.new.origin ≡ draft.old.origin }
{
    went!(draft.put(key, bytes).is_ok())
}

/// Three puts of two keys.
fn puts<F: Send + Drop, H: Shelf<F>>(draft: &mut Draft<F, H>) -> Went
where
    requires empty { draft.old.end ≡ 0 }
    ensures end { draft.new.end ≤ 645 }
    ensures origin { draft.new.origin ≡ draft.old.origin }
{
    let first = put(draft, b"i|a", FIRST);
    let second = put(draft, b"i|b", SECOND);
    let third = put(draft, b"i|a", THIRD);
    worst([first, second, third])
}

fn seal<F: Send + Drop, H: Shelf<F>>(
    alloc: Global,
    draft: Draft<F, H>,
) -> (Went, Option<Segment<F, H::Sealed>>)
where
    ensures files { IfSome result.1 (IsOf draft.origin) }
{
    if draft.is_empty() {
        return (Never, None);
    }
    let draft = match draft.seal(alloc) {
        Ok(segment) => return (AtOnce, Some(segment)),
        Err((draft, _)) => draft,
    };
    match draft.seal(alloc) {
        Ok(segment) => (Again, Some(segment)),
        Err(_) => (Never, None),
    }
}

/// Checks bytes of the batch, and copies them into the sink.
fn copy<F: Send + Drop, R: Reader<F>, X: Drop, K: Sink<X>>(
    lens: &mut Lens<F, R>,
    place: (u64, u64),
    sink: &mut K,
) -> bool
where
    requires inside { place.0 + place.1 + behind lens.old.files.entry ≤ lens.old.files.entry.fields_len }
    ensures files { lens.new.files ≡ lens.old.files }
{
    let (at, len) = place;
    lens.check(at, len).is_ok() && lens.copy_to(at, len, sink).is_ok()
}

/// Opens a segment and copies the bytes of `i|a` into the sink: how each of both went.
fn read<F: Send + Drop, Z: Sealed<F>, X: Drop, K: Sink<X>>(
    alloc: Global,
    segment: &Segment<F, Z>,
    sink: &mut K,
) -> (Went, Went) {
    let Ok(mut lens) = segment.lens(alloc) else {
        return (Never, Never);
    };
    match lens.find(alloc, b"i|a") {
        Ok(Some(place)) => (AtOnce, went!(copy(&mut lens, place, sink))),
        _ => (AtOnce, Never),
    }
}

/// A batch of three puts of two keys: how its making, its puts and its sealing went.
fn sealed<F: Send + Drop, H: Shelf<F>>(
    alloc: Global,
    shelf: &mut H,
) -> ([Went; 3], Option<Segment<F, H::Sealed>>)
where
    requires writer { H.writer shelf.old ≡ 1 }
    requires fields { H.created shelf.old (name_of 1 1 Fields) ≡ false }
    requires index { H.created shelf.old (name_of 1 1 Index) ≡ false }
    ensures files { IfSome result.1 (IsOf (record { writer = 1; seq = 1; dataset = H.name shelf.old; told = is_some (H.kept shelf.old) })) }
    ensures writer { H.writer shelf.new ≡ 1 }
    ensures name { H.name shelf.new ≡ H.name shelf.old }
{
    let room = Room { keys: 2, bytes: 6 };
    let Ok(mut draft) = Draft::new(alloc, shelf, 1, 1, room) else {
        return ([Never; 3], None);
    };
    let put = puts(&mut draft);
    let (sealed, segment) = seal(alloc, draft);
    ([AtOnce, put, sealed], segment)
}

/// The life of a batch: how its making, its puts, its sealing, its opening and the copying of its bytes went.
fn live<F: Send + Drop, H: Shelf<F>, X: Drop, K: Sink<X>>(
    alloc: Global,
    shelf: &mut H,
    sink: &mut K,
) -> [Went; 5]
where
    requires writer { H.writer shelf.old ≡ 1 }
    requires fields { H.created shelf.old (name_of 1 1 Fields) ≡ false }
    requires index { H.created shelf.old (name_of 1 1 Index) ≡ false }
{
    let ([made, put, went], segment) = sealed(alloc, shelf);
    let Some(segment) = segment else {
        return [made, put, went, Never, Never];
    };
    if segment.keep(alloc, shelf).is_err() {
        return [Never; 5];
    }
    let (opened, copied) = read(alloc, &segment, sink);
    [made, put, went, opened, copied]
}

/// The life of a batch in a store in which this call fails, and all calls after so many, and these writes of the sink:
/// how it went, and whether the sink has the bytes.
fn run(alloc: Global, fails: Fails, calls: u64, writes: &[u32]) -> Option<([Went; 5], bool)> {
    let mut shelf = shelf(alloc, fails, calls)?;
    let mut sink = MemSink::new(alloc, 1024, writes).ok()?;
    let went = live(alloc, &mut shelf, &mut sink);
    Some((went, sink.taken() == THIRD))
}

const UNMADE: [Went; 5] = [Never; 5];

const PUT_AGAIN: [Went; 5] = [AtOnce, Again, AtOnce, AtOnce, AtOnce];

const SEALED_AGAIN: [Went; 5] = [AtOnce, AtOnce, Again, AtOnce, AtOnce];

const UNOPENED: [Went; 5] = [AtOnce, AtOnce, AtOnce, Never, Never];

const UNCOPIED: [Went; 5] = [AtOnce, AtOnce, AtOnce, AtOnce, Never];

const COPIED_AGAIN: [Went; 5] = [AtOnce, AtOnce, AtOnce, AtOnce, Again];

/// The one call that fails, and how the life of the batch goes.
const ONE_FAILS: [(Fails, [Went; 5]); 18] = [
    (NOTHING, [AtOnce; 5]),
    (("a=1/1-1.fields", Op::Create, 1), UNMADE),
    (("a=1/1-1.index", Op::Create, 1), UNMADE),
    (("a=1/1-1.fields", Op::Write, 1), PUT_AGAIN),
    (("a=1/1-1.fields", Op::Write, 2), PUT_AGAIN),
    (("a=1/1-1.fields", Op::Write, 3), PUT_AGAIN),
    (("a=1/1-1.fields", Op::Write, 4), PUT_AGAIN),
    (("a=1/1-1.fields", Op::Write, 5), PUT_AGAIN),
    (("a=1/1-1.fields", Op::Write, 6), PUT_AGAIN),
    (("a=1/1-1.fields", Op::Sync, 1), SEALED_AGAIN),
    (("a=1/1-1.index", Op::Write, 1), SEALED_AGAIN),
    (("a=1/1-1.index", Op::Sync, 1), SEALED_AGAIN),
    (("a=1/1-1.index", Op::Read, 1), UNOPENED),
    (("a=1/1-1.index", Op::Read, 2), UNOPENED),
    (("a=1/1-1.index", Op::Read, 3), UNCOPIED),
    (("a=1/1-1.fields", Op::Read, 1), COPIED_AGAIN),
    (("a=1/1-1.fields", Op::Read, 2), COPIED_AGAIN),
    (("a=1/1-1.fields", Op::Read, 3), COPIED_AGAIN),
];

#[test]
fn each_call_fails_in_turn(rt: HostRuntime) {
    for (fails, want) in ONE_FAILS {
        let is_copied = want[4] != Never;
        let went = run(rt.alloc(), fails, u64::MAX, &[]);
        assert!(rt; went == Some((want, is_copied)), "{fails:?}");
    }
    assert!(rt; run(rt.alloc(), NOTHING, u64::MAX, &[1]) == Some((COPIED_AGAIN, true)));
}

/// How the life of the batch goes where all calls after so many fail, from none to seventeen.
const REST_FAILS: [[Went; 5]; 18] = [
    UNMADE,
    UNMADE,
    [AtOnce, Never, Never, Never, Never],
    [AtOnce, Never, Never, Never, Never],
    [AtOnce, Never, Never, Never, Never],
    [AtOnce, Never, Never, Never, Never],
    [AtOnce, Never, Never, Never, Never],
    [AtOnce, Never, Never, Never, Never],
    [AtOnce, AtOnce, Never, Never, Never],
    [AtOnce, AtOnce, Never, Never, Never],
    [AtOnce, AtOnce, Never, Never, Never],
    UNOPENED,
    UNOPENED,
    UNCOPIED,
    UNCOPIED,
    UNCOPIED,
    UNCOPIED,
    [AtOnce; 5],
];

#[test]
fn all_calls_after_one_fail(rt: HostRuntime) {
    for (calls, want) in REST_FAILS.iter().enumerate() {
        let is_copied = want[4] != Never;
        let went = run(rt.alloc(), NOTHING, calls as u64, &[]);
        assert!(rt; went == Some((*want, is_copied)), "{calls}");
    }
}

/// A file of a batch with these bytes.
fn file_of<F: Send + Drop, H: Shelf<F>>(
    alloc: Global,
    shelf: &mut H,
    kind: FileKind,
    bytes: &[u8],
) -> Option<H::Sealed>
where
    requires created { H.created shelf.old (name_of (H.writer shelf.old) 1 kind) ≡ false }
    requires sum { length bytes.now < 2 ^ 63 }
    ensures created { (n : FileName) → H.created shelf.new n ≡ true → (H.created shelf.old n ≡ true) ⊎ (n ≡ name_of (H.writer shelf.old) 1 kind) }
    ensures writer { H.writer shelf.new ≡ H.writer shelf.old }
    ensures name { H.name shelf.new ≡ H.name shelf.old }
    ensures file_name { IfSome result (λ z. H.Sealed.name z ≡ H.name shelf.old) }
{
    let Ok(mut file) = shelf.create(alloc, 1, kind) else {
        return None;
    };
    let Ok(()) = file.write_at(0, bytes) else {
        return None;
    };
    let Ok(()) = file.sync() else {
        return None;
    };
    Some(file.seal())
}

/// What is wrong with a segment, when it is opened or asked for a key.
fn damage_in<F: Send + Drop, Z: Sealed<F>>(
    alloc: Global,
    segment: &Segment<F, Z>,
) -> Option<Damage> {
    let mut lens = match segment.lens(alloc) {
        Ok(lens) => lens,
        Err(LensFault::Damaged(damage)) => return Some(damage),
        Err(_) => return None,
    };
    match lens.find(alloc, b"i|a") {
        Err(LensFault::Damaged(damage)) => Some(damage),
        _ => None,
    }
}

/// What is wrong with a batch of one field that has this index file.
fn damage_of<F: Send + Drop, H: Shelf<F>>(
    alloc: Global,
    shelf: &mut H,
    index: &[u8],
) -> Option<Damage>
where
    requires fields { H.created shelf.old (name_of (H.writer shelf.old) 1 Fields) ≡ false }
    requires index { H.created shelf.old (name_of (H.writer shelf.old) 1 Index) ≡ false }
    requires sum { length index.now < 2 ^ 63 }
{
    let field_file = file_of(alloc, shelf, FileKind::Fields, FIRST)?;
    let index_file = file_of(alloc, shelf, FileKind::Index, index)?;
    if field_file.len() < 183 || index_file.len() < 4120 {
        return None;
    }
    let segment = Segment::new(entry_of(183, None), field_file, index_file);
    damage_in(alloc, &segment)
}

/// The entry of one field in so many bytes, with an index of one page.
fn entry_of(fields_len: u64, digest: Option<[u8; 32]>) -> Entry
    ensures index { result.index_len ≡ 4120 }
    ensures fields { result.fields_len ≡ fields_len }
{
    Entry {
        writer: 1,
        seq: 1,
        fields: 1,
        index_len: 4120,
        fields_len,
        digest,
    }
}

/// The index file of the key `i|a` at 0, with 183 bytes, in which one octet is another.
fn index_with(alloc: Global, place: usize, octet: u8) -> Option<Vec<u8>>
    ensures short { IfSome result (λ v. length v.items ≡ 4120) }
{
    let mut bytes = b"FDIDX001\0\x01\0\x03i|a".to_vec(alloc).ok()?;
    bytes.resize(30, 0).ok()?;
    bytes.push(0xB7).ok()?;
    bytes.resize(4104, 0).ok()?;
    bytes
        .extend_from_slice(b"\0\0\0\0\0\0\0\x01\0\0\0\x01FEND")
        .ok()?;
    bytes.resize(4120, 0).ok()?;
    if let Some(byte) = bytes.get_mut(place) {
        *byte = octet;
    }
    Some(bytes)
}

/// What is wrong with a batch of one field in whose index file this octet is another.
fn damage_at(alloc: Global, place: usize, octet: u8) -> Option<Damage> {
    let index = index_with(alloc, place, octet)?;
    let mut shelf = shelf(alloc, NOTHING, u64::MAX)?;
    damage_of(alloc, &mut shelf, &index)
}

/// Changed octets of an index file, and the place of the index that is wrong then.
const DAMAGES: [(usize, u8, u64); 5] = [
    (7, b'2', 0),
    (4119, b'd', 4116),
    (4115, 2, 4112),
    (10, 2, 10),
    (100, 1, 100),
];

/// A name of a file of batch 1.
fn name(kind: FileKind) -> FileName {
    FileName {
        writer: 1,
        seq: 1,
        kind,
    }
}

#[test]
fn damages(rt: HostRuntime) {
    let file = name(FileKind::Index);
    for (place, octet, at) in DAMAGES {
        let damage = damage_at(rt.alloc(), place, octet);
        assert!(rt; damage == Some(Damage::Index { file, at }), "{place}");
    }
    let beyond = Damage::Beyond {
        file: name(FileKind::Fields),
        end: 184,
        len: 183,
    };
    assert!(rt; damage_at(rt.alloc(), 30, 0xB8) == Some(beyond));
}

/// The SHA-256 of `FIRST`.
const DIGEST: [u8; 32] = [
    0xD2, 0x08, 0x21, 0xEF, 0xE8, 0xBB, 0xF0, 0x9F, 0x15, 0x2A, 0x12, 0xB1, 0xB5, 0x6B, 0xD4, 0xB3,
    0x83, 0xE5, 0x61, 0x89, 0xAE, 0x87, 0xEE, 0xA7, 0xAF, 0xD8, 0xBB, 0x2A, 0x6C, 0x86, 0xB8, 0x53,
];

/// What a check says of a batch of one field with digests, behind whose bytes this digest stands.
fn checked<F: Send + Drop, H: Shelf<F>>(
    alloc: Global,
    shelf: &mut H,
    digest: &[u8; 32],
) -> Option<Result<(), Damage>>
where
    requires fields { H.created shelf.old (name_of (H.writer shelf.old) 1 Fields) ≡ false }
    requires index { H.created shelf.old (name_of (H.writer shelf.old) 1 Index) ≡ false }
{
    let mut bytes = FIRST.to_vec(alloc).ok()?;
    bytes.extend_from_slice(digest).ok()?;
    let field_file = file_of(alloc, shelf, FileKind::Fields, &bytes)?;
    let index = index_with(alloc, 0, b'F')?;
    let index_file = file_of(alloc, shelf, FileKind::Index, &index)?;
    if field_file.len() < 215 || index_file.len() < 4120 {
        return None;
    }
    let segment = Segment::new(entry_of(215, Some([0; 32])), field_file, index_file);
    let mut lens = segment.lens(alloc).ok()?;
    match lens.check(0, 183) {
        Ok(()) => Some(Ok(())),
        Err(CheckFault::Damaged(damage)) => Some(Err(damage)),
        Err(CheckFault::Fault(_)) => None,
    }
}

/// The same in a store of its own.
fn check_of(alloc: Global, digest: &[u8; 32]) -> Option<Result<(), Damage>> {
    let mut shelf = shelf(alloc, NOTHING, u64::MAX)?;
    checked(alloc, &mut shelf, digest)
}

#[test]
fn digests(rt: HostRuntime) {
    let file = name(FileKind::Fields);
    let (at, got) = (0, DIGEST);
    let mut want = DIGEST;
    want[31] = 0;
    assert!(rt; check_of(rt.alloc(), &DIGEST) == Some(Ok(())));
    assert!(rt;
        check_of(rt.alloc(), &want)
            == Some(Err(Damage::FieldDigest {
                file,
                at,
                want,
                got
            }))
    );
}

/// The places of `i|a` and of `i|c`, and the number of records.
fn places<F: Send + Drop, Z: Sealed<F>>(
    alloc: Global,
    segment: &Segment<F, Z>,
) -> Option<([Option<(u64, u64)>; 2], u32)> {
    let mut lens = segment.lens(alloc).ok()?;
    let first = lens.find(alloc, b"i|a").ok()?;
    let other = lens.find(alloc, b"i|c").ok()?;
    let index = lens.records(alloc).ok()?;
    Some(([first, other], index.len()))
}

/// The entry of that batch without its digest, the places of keys, and the number of records.
fn told(alloc: Global) -> Option<(Entry, [Option<(u64, u64)>; 2], u32)> {
    let mut shelf = shelf(alloc, NOTHING, u64::MAX)?;
    let (_, segment) = sealed(alloc, &mut shelf);
    let segment = segment?;
    let (places, count) = places(alloc, &segment)?;
    let mut entry = segment.entry();
    entry.digest = None;
    Some((entry, places, count))
}

#[test]
fn three_puts_of_two_keys(rt: HostRuntime) {
    let entry = Entry {
        writer: 1,
        seq: 1,
        fields: 2,
        index_len: 4120,
        fields_len: 645,
        digest: None,
    };
    assert!(rt; told(rt.alloc()) == Some((entry, [Some((430, 183)), None], 2)));
}

fn shared<T: Send + Sync>(_: &T) {}

fn moved<T: Send>(_: &T) {}

fn segment_is_shared<F: Send, Z: Sealed<F>>(segment: &Segment<F, Z>) {
    shared(segment);
}

fn draft_is_moved<F: Send, H: Shelf<F>>(draft: &Draft<F, H>) {
    moved(draft);
}

fn lens_is_moved<F: Send, R: Reader<F>>(lens: &Lens<F, R>) {
    moved(lens);
}
