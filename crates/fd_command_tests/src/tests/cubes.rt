//! Keys as requests: the command `cubes`.
use super::stores::{ARCHIVED, CREATED};
use fd_cases::{CASE, Case, Part, ROW, Row, first_wrong};

/// The generated messages of one day, but for the last ones.
const ARCHIVED_MANY: Row =
    row!(ROW, words: &["archive", "s", "--with=class=od,expver=0001", "--workers=4"], input: &[Part::Generated(0, 400)], report: "archived 400 datasets 1 junk 0\n");

/// The keys of two parameters and of seven steps, of which the messages have all.
const CUBE: Row =
    row!(ROW, words: &["cubes", "s"], input: &[Part::Text("list,param=0.0.0/0.2.2,step=0/to/36/by/6")], output: &[Part::Text("retrieve,class=od,expver=0001,date=20240101,time=0000,centre=98,type=1,levtype=100,param=0.0.0/0.2.2,step=0/12/18/24/30/36/6,levelist=10000/100000/15000/20000/25000/30000/40000/5000/50000/60000/70000/85000/92500\n")]);

/// Keys of no message.
const NOTHING: Row = row!(ROW, words: &["cubes", "s"], input: &[Part::Text("list,step=7")]);

/// A request that is none.
const REFUSED: Row =
    row!(ROW, words: &["cubes", "s"], input: &[Part::Text("retrieve,step=7")], report: "refused request 0 Verb\n", status: 3);

/// A field of a class that is a word of ranges.
const RANGED: Row = row!(ARCHIVED, words: &["archive", "s", "--with=class=to,expver=0001"]);

/// Keys that requests can name, and one that they can't.
const UNNAMED: Row =
    row!(ROW, words: &["cubes", "s"], input: &[Part::Text("list,step=0")], report: "refused NoRequest class=to,expver=0001,date=20240101,time=0000,centre=98,type=1,levtype=100,param=0.0.0,step=0,levelist=100000\n", status: 3);

/// The same without that key.
const NAMED: Row =
    row!(ROW, words: &["cubes", "s"], input: &[Part::Text("list,class=od,step=0")], output: &[Part::Text("retrieve,class=od,expver=0001,date=20240101,time=0000,centre=98,type=1,levtype=100,param=0.0.0,step=0,levelist=100000\n")]);

const CUBES: &[Case] = &[
    case!(size: 262_144, calls: 4096, rows: &[CREATED, NOTHING, REFUSED, ARCHIVED_MANY, CUBE, NOTHING]),
    case!(rows: &[
        row!(UNNAMED, report: "refused SchemaMissing\n", status: 3),
        CREATED,
        ARCHIVED,
        ARCHIVED,
        RANGED,
        UNNAMED,
        NAMED,
        row!(NAMED, output: &[], report: "output failed\n", status: 5, writes: &[1]),
        row!(NAMED, report: "input failed\n", status: 4, output: &[], reads: &[1]),
    ]),
];

/// The keys of many messages are one cube; a key with the value `to` is no request's.
#[test]
fn prints_cubes(rt: HostRuntime) {
    assert_eq!(rt; first_wrong(&rt, rt.alloc(), CUBES), None);
}
