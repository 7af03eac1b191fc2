//! The commands over a store in memory, and once over real files.
use fd_cases::{CASE, Case, FIELD, NEWER, Part, ROW, Row, Runner, first_wrong};
use fd_disk_mem::Op;
use fd_disk_real::RealStore;

pub(super) const SCHEMA: &[Part] = &[Part::Text(
    "[class, expver, date, time [centre, type, levtype [param, step, levelist?]]]",
)];

/// The founding of the store.
pub(super) const CREATED: Row =
    row!(ROW, words: &["create", "s"], input: SCHEMA, report: "created\n");

const PRESENT: Row = row!(CREATED, report: "refused SchemaPresent\n", status: 3);

const CREATING: &[Case] = &[
    case!(fails: Some(("schema", Op::Read, 2)), rows: &[row!(CREATED, input: &[Part::Text("[class [param]]")], report: "refused schema 1 Depth\n", status: 3), row!(CREATED, report: "disk failed\n", status: 6), CREATED, PRESENT]),
];

/// A store is founded once, and its schema is read each time.
#[test]
fn creates(rt: HostRuntime) {
    assert_eq!(rt; first_wrong(&rt, rt.alloc(), CREATING), None);
}

/// The archiving of the field.
pub(super) const ARCHIVED: Row =
    row!(ROW, words: &["archive", "s", "--with=class=od,expver=0001"], input: FIELD, report: "archived 1 datasets 1 junk 0\n");

/// A request of the field, which finds it.
pub(super) const RETRIEVED: Row =
    row!(ROW, words: &["retrieve", "s"], input: &[Part::Text("retrieve,class=od,expver=0001,date=20240101,time=00,centre=98,type=1,levtype=100,param=0.0.0,step=0,levelist=100000")], output: FIELD, report: "found 1 missed 0\n");

/// A request of a level that no field has.
const MISSED: Row =
    row!(ROW, words: &["retrieve", "s"], input: &[Part::Text("retrieve,class=od,expver=0001,date=20240101,time=00,centre=98,type=1,levtype=100,param=0.0.0,step=0,levelist=5")], report: "miss class=od,expver=0001,date=20240101,time=0000,centre=98,type=1,levtype=100,param=0.0.0,step=0,levelist=5\nfound 0 missed 1\n", status: 1);

/// What a store tells of itself that has no field.
pub(super) const EMPTY: Row = row!(ROW, words: &["stats", "s"]);

const BEGINNING: &[Case] = &[case!(fails: Some(("schema", Op::Read, 7)), rows: &[
        row!(ARCHIVED, report: "refused SchemaMissing\n", status: 3),
        row!(MISSED, report: "refused SchemaMissing\n", status: 3),
        CREATED,
        MISSED,
        row!(ARCHIVED, input: &[], report: "archived 0 datasets 0 junk 0\n"),
        EMPTY,
        row!(EMPTY, report: "disk failed\n", status: 6),
    ])];

/// What a store has before an archive and after an empty one: no field and no dataset.
#[test]
fn begins_empty(rt: HostRuntime) {
    assert_eq!(rt; first_wrong(&rt, rt.alloc(), BEGINNING), None);
}

const BY_TWO: &[&str] = &["retrieve", "--workers", "2", "s"];

const ARCHIVING: &[Case] = &[
    case!(rows: &[CREATED, ARCHIVED, RETRIEVED, row!(RETRIEVED, words: BY_TWO), row!(MISSED, words: BY_TWO), row!(ARCHIVED, input: NEWER), row!(RETRIEVED, output: NEWER)]),
];

/// A field that is archived is found, and no other.
#[test]
fn archives(rt: HostRuntime) {
    assert_eq!(rt; first_wrong(&rt, rt.alloc(), ARCHIVING), None);
}

/// What a store of the one field lists.
pub(super) const LISTED: Row =
    row!(ROW, words: &["list", "s"], input: &[Part::Text("list,param=0.0.0")], output: &[Part::Text("class=od,expver=0001,date=20240101,time=0000 centre=98,type=1,levtype=100 param=0.0.0,step=0,levelist=100000 183 1\n")]);

/// What it tells of itself.
pub(super) const ONE_FIELD: Row =
    row!(EMPTY, output: &[Part::Text("class=od,expver=0001,date=20240101,time=0000 entries 1 fields 1 keys 1 bytes 215\n")]);

const TELLING: &[Case] = &[Case {
    rows: &[
        CREATED,
        ARCHIVED,
        LISTED,
        row!(LISTED, words: &["axes", "s"], output: &[Part::Text("class=od,expver=0001,date=20240101,time=0000 centre=98,type=1,levtype=100 levelist=100000\nclass=od,expver=0001,date=20240101,time=0000 centre=98,type=1,levtype=100 param=0.0.0\nclass=od,expver=0001,date=20240101,time=0000 centre=98,type=1,levtype=100 step=0\n")]),
        ONE_FIELD,
        row!(ARCHIVED, input: NEWER),
        row!(LISTED, output: &[Part::Text("class=od,expver=0001,date=20240101,time=0000 centre=98,type=1,levtype=100 param=0.0.0,step=0,levelist=100000 183 2\n")]),
        row!(EMPTY, output: &[Part::Text("class=od,expver=0001,date=20240101,time=0000 entries 2 fields 2 keys 1 bytes 430\n")]),
        row!(LISTED, input: &[Part::Text("list,param")], output: &[], report: "refused request 10 Pair\n", status: 3),
    ],
    ..CASE
}];

/// What a store tells of itself after one field, and after a newer field of its key in an entry of its own.
#[test]
fn tells_contents(rt: HostRuntime) {
    assert_eq!(rt; first_wrong(&rt, rt.alloc(), TELLING), None);
}

const MASKING: &[Case] = &[case!(rows: &[
        CREATED,
        row!(ARCHIVED, input: &[Part::Field(&[]), Part::Field(&[(178, 43)])], report: "archived 2 datasets 1 junk 0\n"),
        row!(RETRIEVED, output: NEWER),
        LISTED,
        row!(EMPTY, output: &[Part::Text("class=od,expver=0001,date=20240101,time=0000 entries 1 fields 1 keys 1 bytes 430\n")]),
    ])];

/// Two fields of one key in one archive are one field of one entry, the later one.
#[test]
fn counts_masked_fields_once(rt: HostRuntime) {
    assert_eq!(rt; first_wrong(&rt, rt.alloc(), MASKING), None);
}

const KEEPING: &[Row] = &[CREATED, ARCHIVED, RETRIEVED, MISSED];

/// A field is archived and found in real files, in the folder where the test runs.
#[test]
fn keeps_files(rt: HostRuntime) {
    let kept = match RealStore::new(rt.alloc(), rt) {
        Ok(store) => {
            let runner = Runner {
                rt: &rt,
                alloc: rt.alloc(),
                piece: 100,
            };
            let (_store, is_so) = runner.all_end_so(store, KEEPING);
            is_so
        }
        Err(_) => false,
    };
    assert!(rt; kept);
}

/// The field as member 7 of an ensemble of 51.
const MEMBER: &[Part] = &[
    Part::Field(&[(15, 186), (112, 37), (117, 1)]),
    Part::Length(143),
    Part::Octets(
        b"\x03\x07\x33\
\x00\x00\x00\x15\x05\x00\x00\x00\x04\x00\x00\x43\xFA\x00\x00\x80\x01\x00\x01\x08\x00\
\x00\x00\x00\x06\x06\xFF\
\x00\x00\x00\x09\x07\x03\x10\x1D\x2A\
7777",
    ),
];

const VERSIONS: &[Case] = &[
    case!(rows: &[CREATED, row!(ARCHIVED, input: MEMBER, report: "refused NoRule centre=98,date=20240101,time=0000,type=1,param=0.0.0,levtype=100,levelist=100000,step=0,number=7,class=od,expver=0001\n", status: 3), ARCHIVED, RETRIEVED]),
    Case {
        rows: &[
            row!(CREATED, input: &[Part::Text("version 3 [a [b [c]]]")], report: "refused schema 1 Version\n", status: 3),
            row!(CREATED, input: &[Part::Text("version 2 [class, expver, date, time [centre, type, levtype [param, step, levelist?, number?, stat?]]]")]),
            row!(ARCHIVED, input: MEMBER),
            ARCHIVED,
            row!(LISTED, input: &[Part::Text("list,levelist=100000")], output: &[Part::Text("class=od,expver=0001,date=20240101,time=0000 centre=98,type=1,levtype=100 param=0.0.0,step=0,levelist=100000 183 2\nclass=od,expver=0001,date=20240101,time=0000 centre=98,type=1,levtype=100 param=0.0.0,step=0,levelist=100000,number=7 186 1\n")]),
            RETRIEVED,
        ],
        ..CASE
    },
];

/// A member of an ensemble has no rule in a schema of version 1, where the field is stored as ever, and stands beside the field in
/// one of version 2.
#[test]
fn archives_members(rt: HostRuntime) {
    assert_eq!(rt; first_wrong(&rt, rt.alloc(), VERSIONS), None);
}
