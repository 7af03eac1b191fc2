//! Retrieves over layers.
use super::stores::{ARCHIVED, CREATED};
use fd_cases::{CASE, Case, FIELD, NEWER, Part, ROW, Row, first_wrong};

/// The archiving of the next level under another experiment.
const OTHER: Row =
    row!(ARCHIVED, words: &["archive", "s", "--with=class=od,expver=0002"], input: &[Part::Generated(1, 2)]);

/// The archiving of other values of the field under a third one.
const THIRD: Row =
    row!(ARCHIVED, words: &["archive", "s", "--with=class=od,expver=0003"], input: NEWER);

/// A request of two levels of the second experiment, over the first.
const OVER: Row =
    row!(ROW, words: &["retrieve", "s", "--over", "expver=0001"], input: &[Part::Text("retrieve,class=od,expver=0002,date=20240101,time=00,centre=98,type=1,levtype=100,param=0.0.0,step=0,levelist=100000/92500")], output: &[Part::Generated(0, 2)], report: "found 2 missed 0\n");

/// The same over the third experiment, and then the first.
const NEARER: Row =
    row!(OVER, words: &["retrieve", "s", "--over", "expver=0003/expver=0001"], output: &[Part::Field(&[(178, 43)]), Part::Generated(1, 2)]);

/// The same of a level that none of them has.
const MISSED: Row =
    row!(OVER, input: &[Part::Text("retrieve,class=od,expver=0002,date=20240101,time=00,centre=98,type=1,levtype=100,param=0.0.0,step=0,levelist=5/100000")], output: FIELD, report: "miss class=od,expver=0002,date=20240101,time=0000,centre=98,type=1,levtype=100,param=0.0.0,step=0,levelist=5\nfound 1 missed 1\n", status: 1);

/// The refusal of a layer with a name that the key hasn't.
const REFUSED: Row =
    row!(OVER, words: &["retrieve", "s", "--over", "stream=x"], output: &[], report: "refused Layer 1 class=od,expver=0002,date=20240101,time=0000,centre=98,type=1,levtype=100,param=0.0.0,step=0,levelist=100000\n", status: 3);

/// The refusal of the second of three.
const LOWEST: Row =
    row!(REFUSED, words: &["retrieve", "s", "--over=expver=0001/stream=x/area=y"], report: "refused Layer 2 class=od,expver=0002,date=20240101,time=0000,centre=98,type=1,levtype=100,param=0.0.0,step=0,levelist=100000\n");

const LAYERED: &[Case] = &[Case {
    rows: &[
        row!(REFUSED, report: "refused SchemaMissing\n"),
        CREATED,
        ARCHIVED,
        OTHER,
        OVER,
        REFUSED,
        LOWEST,
        row!(REFUSED, words: &["retrieve", "s", "--over", "levelist=5"], report: "usage: fdb pick describe values generate create archive retrieve list axes stats session trial purge wipe cubes split\n", status: 2),
        MISSED,
        row!(OVER, words: &["retrieve", "s", "--over=expver=0009/expver=0002/expver=0001"]),
        row!(OVER, words: &["retrieve", "s", "--over=expver=0003/expver=0004/expver=0005/expver=0006/expver=0007/expver=0008/expver=0001", "--workers=8"]),
        THIRD,
        NEARER,
        row!(OVER, words: &["retrieve", "s", "--workers", "2", "--over=expver=0001/expver=0003"]),
    ],
    ..CASE
}];

/// A key is found in the nearest of its datasets that has it, and each refusal comes before any dataset is opened.
#[test]
fn retrieves_over_layers(rt: HostRuntime) {
    assert_eq!(rt; first_wrong(&rt, rt.alloc(), LAYERED), None);
}
