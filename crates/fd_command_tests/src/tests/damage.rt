//! What a retrieve, and an archive, says of a store of one field in which a file was damaged, or in which a call fails.
use super::sessions::UPPER;
use super::stores::{ARCHIVED, CREATED, RETRIEVED};
use fd_cases::{CASE, Case, Event, Part, Row, first_wrong};
use fd_disk_mem::Op;

/// The table of the one dataset, and the two files of its one batch.
const TABLE: &str = "class=od,expver=0001,date=20240101,time=0000/toc";

pub(super) const FIELDS: &str = "class=od,expver=0001,date=20240101,time=0000/1-1.fields";

const INDEX: &str = "class=od,expver=0001,date=20240101,time=0000/1-1.index";

/// The index file of the one field: a page with one record, and the footer.
const INDEX_FILE: &[Part] = &[
    Part::Octets(b"FDIDX001\0\x01\0\x3F"),
    Part::Text("centre=98,type=1,levtype=100|param=0.0.0,step=0,levelist=100000"),
    Part::Octets(b"\0\0\0\0\0\0\0\0\0\0\0\0\0\0\0\xB7"),
    Part::Length(4104),
    Part::Octets(b"\0\0\0\0\0\0\0\x01\0\0\0\x01FEND"),
];

/// The table of the dataset, with the one entry of kind 1: what the two files say then stands without digests.
const TABLE_FILE: &[Part] = &[
    Part::Octets(b"FDTOC001\0\x2C"),
    Part::Text("class=od,expver=0001,date=20240101,time=0000"),
    Part::Length(320),
    Part::Octets(b"\x4F\x01\0\0\0\x01\0\0\0\x01\0\0\0\x01"),
    Part::Octets(b"\0\0\0\0\0\0\x10\x18\0\0\0\0\0\0\0\xB7"),
    Part::Length(385),
];

/// The SHA-256 of the field.
const DIGEST: &[u8] = &[
    0x9D, 0x90, 0xB6, 0x4B, 0xFA, 0x67, 0xD6, 0x96, 0xF5, 0x45, 0x2E, 0xC2, 0x8A, 0xCE, 0x65, 0xEE,
    0x3E, 0x95, 0xC3, 0x2E, 0x4B, 0x2D, 0x83, 0xE8, 0xAF, 0x3D, 0x8C, 0xED, 0x7A, 0x21, 0x96, 0x3A,
];

/// A store in which the field is archived, and found.
const SOUND: Case = case!(rows: &[CREATED, ARCHIVED], after: &[RETRIEVED]);

/// The table has an entry of kind 1.
const OLD: (&str, &[Part], &[Part]) = (TABLE, TABLE_FILE, &[]);

/// A retrieve that tells of damage.
const DAMAGED: Row = row!(RETRIEVED, output: &[], status: 8);

const FIELD_FILES: &[Case] = &[
    case_of!(SOUND, event: Event::Removed(FIELDS), after: &[row!(DAMAGED, report: "damaged class=od,expver=0001,date=20240101,time=0000 Absent 1-1.fields\n")]),
    case_of!(SOUND, event: Event::BothReplaced(&[OLD, (FIELDS, &[Part::Field(&[])], &[Part::Length(182)])]), after: &[row!(DAMAGED, report: "damaged class=od,expver=0001,date=20240101,time=0000 Length 1-1.fields 183 182\n")]),
];

#[test]
fn a_damaged_field_file_is_named(rt: HostRuntime) {
    assert_eq!(rt; first_wrong(&rt, rt.alloc(), FIELD_FILES), None);
}

const INDEX_FILES: &[Case] = &[
    case_of!(SOUND, event: Event::Replaced(INDEX, INDEX_FILE, &[])),
    case_of!(SOUND, event: Event::BothReplaced(&[OLD, (INDEX, INDEX_FILE, &[Part::Length(4000)])]), after: &[row!(DAMAGED, report: "damaged class=od,expver=0001,date=20240101,time=0000 Length 1-1.index 4120 4000\n")]),
    case_of!(SOUND, event: Event::BothReplaced(&[OLD, (INDEX, INDEX_FILE, &[Part::At(0, 0)])]), after: &[row!(DAMAGED, report: "damaged class=od,expver=0001,date=20240101,time=0000 Index 1-1.index 0\n")]),
    case_of!(SOUND, event: Event::BothReplaced(&[OLD, (INDEX, INDEX_FILE, &[Part::At(90, 0xB8)])]), after: &[row!(DAMAGED, report: "damaged class=od,expver=0001,date=20240101,time=0000 Beyond 1-1.fields 184 183\n")]),
];

#[test]
fn a_damaged_index_is_named(rt: HostRuntime) {
    assert_eq!(rt; first_wrong(&rt, rt.alloc(), INDEX_FILES), None);
}

/// A store of the one field with digests, in which a file is another.
const DIGESTS: &[Case] = &[
    case_of!(SOUND, event: Event::Replaced(FIELDS, &[Part::Field(&[])], &[Part::Octets(DIGEST)])),
    case_of!(SOUND, event: Event::Replaced(FIELDS, &[Part::Field(&[])], &[Part::Octets(DIGEST), Part::At(100, 7)]), after: &[row!(DAMAGED, report: "damaged class=od,expver=0001,date=20240101,time=0000 FieldDigest 1-1.fields 0 9d90b64bfa67d696f5452ec28ace65ee3e95c32e4b2d83e8af3d8ced7a21963a 63e13a1dc1a034985157704dae3c802965ca2a7654ec7477cac51214342b2a03\n")]),
    case_of!(SOUND, event: Event::Replaced(INDEX, INDEX_FILE, &[Part::At(90, 0xB8)]), after: &[row!(DAMAGED, report: "damaged class=od,expver=0001,date=20240101,time=0000 IndexDigest 1-1.index f24e9ee22323bbf646e70189deb59ab0a2457ca0f6151cdd812c667ca60e02e2 e36888d635fb166f3f763cffb4b3982db9c04c5c50b1cdb4899c27ed36f90361\n")]),
    case_of!(SOUND, event: Event::Replaced(FIELDS, &[Part::Field(&[])], &[Part::Length(214)]), after: &[row!(DAMAGED, report: "damaged class=od,expver=0001,date=20240101,time=0000 Length 1-1.fields 215 214\n")]),
];

/// Another octet of a field or of an index is told, with both digests, and nothing of the field is written.
#[test]
fn a_digest_that_differs_is_named(rt: HostRuntime) {
    assert_eq!(rt; first_wrong(&rt, rt.alloc(), DIGESTS), None);
}

/// A store whose one entry is of kind 1, and to which another field is added.
const MIXED: &[Case] = &[
    case_of!(SOUND, event: Event::BothReplaced(&[OLD]), after: &[row!(ARCHIVED, input: &[UPPER]), row!(RETRIEVED, input: &[Part::Text("retrieve,class=od,expver=0001,date=20240101,time=00,centre=98,type=1,levtype=100,param=0.0.0,step=0,levelist=100000/92500")], output: &[Part::Field(&[]), UPPER], report: "found 2 missed 0\n")]),
];

/// Entries of both kinds stand in one table.
#[test]
fn a_table_may_have_both_kinds(rt: HostRuntime) {
    assert_eq!(rt; first_wrong(&rt, rt.alloc(), MIXED), None);
}

const TABLES: &[Case] = &[
    case_of!(SOUND, event: Event::Replaced(TABLE, TABLE_FILE, &[])),
    case_of!(SOUND, event: Event::Replaced(TABLE, TABLE_FILE, &[Part::At(0, 0)]), after: &[row!(DAMAGED, report: "damaged class=od,expver=0001,date=20240101,time=0000 NotATable 0 70 0\n"), row!(ARCHIVED, report: "damaged class=od,expver=0001,date=20240101,time=0000 NotATable 0 70 0\n", status: 8)]),
    case_of!(SOUND, event: Event::Replaced(TABLE, TABLE_FILE, &[Part::Length(5)]), after: &[row!(DAMAGED, report: "damaged class=od,expver=0001,date=20240101,time=0000 NotATable 5 48 -\n")]),
    case_of!(SOUND, event: Event::Replaced("schema", &[Part::Text("[a")], &[]), after: &[row!(DAMAGED, report: "damaged schema 1 End\n"), row!(ARCHIVED, report: "damaged schema 1 End\n", status: 8)]),
];

#[test]
fn a_damaged_table_or_schema_is_named(rt: HostRuntime) {
    assert_eq!(rt; first_wrong(&rt, rt.alloc(), TABLES), None);
}

/// The store, the first read of whose field file fails, and after a crash that changes nothing none.
const FAILING_READ: &[Case] = &[
    case_of!(SOUND, fails: Some((FIELDS, Op::Read, 1)), rows: &[CREATED, ARCHIVED, row!(RETRIEVED, output: &[], report: "disk failed\n", status: 6)], event: Event::Crash(0)),
];

/// A read that fails writes nothing, and changes nothing: the same retrieve finds the field where none fails.
#[test]
fn a_read_that_fails_changes_nothing(rt: HostRuntime) {
    assert_eq!(rt; first_wrong(&rt, rt.alloc(), FAILING_READ), None);
}

const FAILING_STREAMS: &[Case] = &[
    case_of!(SOUND, piece: 183, after: &[row!(RETRIEVED, output: &[], report: "output failed\n", status: 5, writes: &[1])]),
    // The input gives the first of two fields, and fails.
    case_of!(SOUND, piece: 183, rows: &[CREATED, row!(ARCHIVED, input: &[Part::Field(&[]), Part::Field(&[(130, 6)])], report: "input failed\n", status: 4, reads: &[2])]),
];

/// An output that fails takes nothing, and what was read before an input failed is archived.
#[test]
fn a_stream_that_fails_leaves_what_was_done(rt: HostRuntime) {
    assert_eq!(rt; first_wrong(&rt, rt.alloc(), FAILING_STREAMS), None);
}
