//! Four workers of an archive and of a retrieve, of which the first two work at the same time.
use super::stores::{ARCHIVED, CREATED};
use fd_cases::{CASE, Case, Hold, Part, ROW, Row, first_wrong};

/// The first step of the first and of the second worker waits until both have come.
const MEETING: &[Hold] = &[hold!(1, 1, 1), hold!(2, 1, 1)];

/// The archiving of the first 400 generated messages.
const STORED: Row =
    row!(ARCHIVED, input: &[Part::Generated(0, 400)], report: "archived 400 datasets 1 junk 0\n");

/// A request of two parameters, seven steps and all levels that are generated.
const FOUND: Row =
    row!(ROW, words: &["retrieve", "s"], input: &[Part::Text("retrieve,class=od,expver=0001,date=20240101,time=00,centre=98,type=1,levtype=100,param=0.0.0/0.2.2,step=0/to/36/by/6,levelist=100000/92500/85000/70000/60000/50000/40000/30000/25000/20000/15000/10000/5000")], output: &[Part::Generated(0, 91), Part::Generated(260, 351)], report: "found 182 missed 0\n");

const WORKING: &[Case] = &[
    case!(rows: &[CREATED, row!(STORED, words: &["archive", "s", "--with", "class=od,expver=0001", "--workers=4"], holds: MEETING), FOUND]),
    case!(rows: &[CREATED, STORED, row!(FOUND, words: &["retrieve", "s", "--workers=4"], holds: MEETING)]),
];

/// Four workers store what one stores, and find what one finds, in the order of the request.
#[test]
fn four_workers_do_what_one_does(rt: HostRuntime) {
    assert_eq!(rt; first_wrong(&rt, rt.alloc(), WORKING), None);
}

/// A schema by which each of three parameters is a dataset, and no other parameter has a rule.
const BY_PARAMETER: Row =
    row!(CREATED, input: &[Part::Text("[class, expver, date, time, param=0.0.0/0.1.1/0.2.2 [centre, type, levtype [step, levelist?]]]")]);

/// The messages of three parameters, ten steps and all levels, but for one of the first parameter and the last two.
const MOST: &[Part] = &[Part::Generated(0, 129), Part::Generated(130, 388)];

const MOST_STORED: Row = row!(ARCHIVED, input: MOST, report: "archived 387 datasets 3 junk 0\n");

/// A request of all of these, so of 390 keys, from 256 of which on several threads look for their places.
const MOST_FOUND: Row =
    row!(ROW, words: &["retrieve", "s"], input: &[Part::Text("retrieve,class=od,expver=0001,date=20240101,time=00,centre=98,type=1,levtype=100,param=0.0.0/0.1.1/0.2.2,step=0/to/54/by/6,levelist=100000/92500/85000/70000/60000/50000/40000/30000/25000/20000/15000/10000/5000")], output: MOST, report: "miss class=od,expver=0001,date=20240101,time=0000,centre=98,type=1,levtype=100,param=0.0.0,step=54,levelist=5000\nmiss class=od,expver=0001,date=20240101,time=0000,centre=98,type=1,levtype=100,param=0.2.2,step=54,levelist=10000\nmiss class=od,expver=0001,date=20240101,time=0000,centre=98,type=1,levtype=100,param=0.2.2,step=54,levelist=5000\nfound 387 missed 3\n", status: 1);

/// A request of as many keys, of which those of the last two parameters have no rule.
const RULELESS: Row =
    row!(ROW, words: &["retrieve", "s"], input: &[Part::Text("retrieve,class=od,expver=0001,date=20240101,time=00,centre=98,type=1,levtype=100,param=0.0.0/0.2.3/0.3.5,step=0/to/54/by/6,levelist=100000/92500/85000/70000/60000/50000/40000/30000/25000/20000/15000/10000/5000")], report: "refused NoRule class=od,expver=0001,date=20240101,time=0000,centre=98,type=1,levtype=100,param=0.2.3,step=0,levelist=100000\n", status: 3);

const BY_FOUR: &[&str] = &["retrieve", "s", "--workers=4"];

const PLACING: &[Case] = &[
    case!(rows: &[BY_PARAMETER, MOST_STORED, MOST_FOUND, row!(MOST_FOUND, words: BY_FOUR), RULELESS, row!(RULELESS, words: BY_FOUR)]),
];

/// One worker and four find most of 390 keys in three datasets and tell the others, and tell the first key without a rule, which
/// lies in the share of the second.
#[test]
fn four_workers_place_what_one_does(rt: HostRuntime) {
    assert_eq!(rt; first_wrong(&rt, rt.alloc(), PLACING), None);
}
