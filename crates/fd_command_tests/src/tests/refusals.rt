//! What archives, trials and listings are refused for, and what a store has then.
use super::damage::FIELDS;
use super::stores::{ARCHIVED, CREATED, EMPTY, LISTED, ONE_FIELD};
use fd_cases::{CASE, Case, Event, Part, ROW, Row, first_wrong};
use fd_disk_mem::Op;

/// An archive that stores the first of its two messages.
const FIRST: Row = row!(ARCHIVED, report: "input failed\n", status: 3);

const STREAMS: &[Case] = &[
    case!(rows: &[CREATED, row!(FIRST, input: &[Part::Field(&[]), Part::Field(&[(117, 2)])], report: "refused key 2 Product 2\n"), ONE_FIELD]),
    case!(rows: &[CREATED, row!(FIRST, input: &[Part::Field(&[]), Part::Field(&[(41, 4)])], report: "refused message 2 Section 3 4\n"), ONE_FIELD]),
    case!(rows: &[CREATED, row!(FIRST, input: &[Part::Field(&[]), Part::Field(&[]), Part::Length(300)], report: "refused message 2 Truncated 117 183\n"), ONE_FIELD]),
    case!(rows: &[CREATED, row!(FIRST, input: &[Part::Field(&[]), Part::Field(&[(7, 1)])], report: "refused message 2 Edition 1\n"), ONE_FIELD]),
    case!(rows: &[CREATED, row!(FIRST, words: &["archive", "s", "--with=class=od"], report: "refused NoRule centre=98,date=20240101,time=0000,type=1,param=0.0.0,levtype=100,levelist=100000,step=0,class=od\n"), EMPTY]),
];

/// An archive stores what comes before what it refuses.
#[test]
fn refused_archives_keep_what_came_before(rt: HostRuntime) {
    assert_eq!(rt; first_wrong(&rt, rt.alloc(), STREAMS), None);
}

/// What is told of a store whose one field file is away.
const AWAY: &str = "damaged class=od,expver=0001,date=20240101,time=0000 Absent 1-1.fields\n";

const DAMAGED: &[Case] = &[
    case!(rows: &[CREATED, ARCHIVED], event: Event::Removed(FIELDS), after: &[row!(LISTED, output: &[], report: AWAY, status: 8), row!(LISTED, words: &["axes", "s"], output: &[], report: AWAY, status: 8), row!(EMPTY, report: AWAY, status: 8), row!(ARCHIVED, report: AWAY, status: 8), row!(ROW, words: &["trial", "s", "1"], report: AWAY, status: 8)]),
];

/// Listings, archives and trials tell of a damaged dataset, and leave it so.
#[test]
fn damage_is_told(rt: HostRuntime) {
    assert_eq!(rt; first_wrong(&rt, rt.alloc(), DAMAGED), None);
}

/// A command over a store without a schema.
const UNFOUNDED: Row = row!(LISTED, output: &[], report: "refused SchemaMissing\n", status: 3);

/// A command whose request has a wrong pair.
const WRONG: Row =
    row!(LISTED, input: &[Part::Text("list,param")], output: &[], report: "refused request 10 Pair\n", status: 3);

const FAILED: Row = row!(LISTED, output: &[], report: "output failed\n", status: 5, writes: &[1]);

const LISTINGS: &[Case] = &[Case {
    piece: 183,
    fails: Some((FIELDS, Op::Read, 9)),
    rows: &[
        UNFOUNDED,
        row!(UNFOUNDED, words: &["axes", "s"]),
        row!(UNFOUNDED, input: &[]),
        CREATED,
        ARCHIVED,
        row!(WRONG, words: &["axes", "s"]),
        FAILED,
        row!(FAILED, words: &["axes", "s"]),
        row!(FAILED, words: &["stats", "s"], input: &[]),
        row!(WRONG, report: "input failed\n", status: 4, reads: &[1]),
        row!(WRONG, words: &["axes", "s"], report: "input failed\n", status: 4, reads: &[1]),
    ],
    ..CASE
}];

/// Listings are refused in their order, and tell of streams that fail.
#[test]
fn listings_are_refused(rt: HostRuntime) {
    assert_eq!(rt; first_wrong(&rt, rt.alloc(), LISTINGS), None);
}

/// The table of the one dataset.
const TABLE: &str = "class=od,expver=0001,date=20240101,time=0000/toc";

const FAILING: &[Case] = &[
    case!(fails: Some((TABLE, Op::Sync, 3)), rows: &[CREATED, row!(ARCHIVED, report: "disk failed\n", status: 6)]),
    case!(fails: Some((TABLE, Op::Sync, 3)), rows: &[CREATED, row!(ROW, words: &["trial", "s", "3"], report: "disk failed\n", status: 6)]),
    case!(fails: Some(("schema", Op::Read, 2)), rows: &[CREATED, row!(ARCHIVED, report: "disk failed\n", status: 6), ARCHIVED]),
];

/// Archives and trials tell of a gate that could not be made to last, and an archive of a schema that could not be read.
#[test]
fn faults_are_told(rt: HostRuntime) {
    assert_eq!(rt; first_wrong(&rt, rt.alloc(), FAILING), None);
}
