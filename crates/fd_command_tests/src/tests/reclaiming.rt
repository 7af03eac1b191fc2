//! What a purge and a wipe make of a store in memory, what they tell, and what a crash leaves of one that failed.
use super::stores::{ARCHIVED, CREATED, EMPTY, RETRIEVED};
use fd_cases::{CASE, Case, Event, NEWER, ROW, Row, first_wrong};

const DATASET: &str = "class=od,expver=0001,date=20240101,time=0000";

/// The fields' file of its first batch.
const FIELDS: &str = "class=od,expver=0001,date=20240101,time=0000/1-1.fields";

/// A purge that drops one batch and keeps another.
const PURGED: Row = row!(ROW, words: &["purge", "s", DATASET], report: "purged 1 kept 1\n");

/// A purge that has nothing to drop.
const PURGED_AGAIN: Row = row!(PURGED, report: "purged 0 kept 1\n");

/// A wipe of one batch.
const WIPED: Row = row!(ROW, words: &["wipe", "s", DATASET], report: "wiped 1\n");

/// The archiving of a newer field of the same key.
const RENEWED: Row = row!(ARCHIVED, input: NEWER);

/// The retrieve that finds it.
const FOUND: Row = row!(RETRIEVED, output: NEWER);

/// The retrieve that finds nothing.
const MISSED: Row =
    row!(RETRIEVED, output: &[], report: "miss class=od,expver=0001,date=20240101,time=0000,centre=98,type=1,levtype=100,param=0.0.0,step=0,levelist=100000\nfound 0 missed 1\n", status: 1);

/// The refusal where there is no such dataset.
const ABSENT: &str = "refused NoDataset\n";

const RECLAIMING: &[Case] = &[
    case!(rows: &[CREATED, ARCHIVED, PURGED_AGAIN, RENEWED, PURGED, FOUND, PURGED_AGAIN, FOUND]),
    case!(rows: &[CREATED, ARCHIVED, WIPED, MISSED, row!(WIPED, report: ABSENT, status: 3), EMPTY, RENEWED, FOUND]),
];

/// A purge keeps the newest field of each key, and a wipe none; a second one has nothing to do.
#[test]
fn drops_what_is_masked_or_all(rt: HostRuntime) {
    assert_eq!(rt; first_wrong(&rt, rt.alloc(), RECLAIMING), None);
}

/// Without a schema, and without a dataset.
const UNREADY: &[Row] = &[
    row!(PURGED, report: "refused SchemaMissing\n", status: 3),
    row!(WIPED, report: "refused SchemaMissing\n", status: 3),
    CREATED,
    row!(PURGED, report: ABSENT, status: 3),
    ARCHIVED,
    row!(PURGED, words: &["purge", "s", "class=od"], report: ABSENT, status: 3),
];

/// A listed file is away.
const DAMAGED: &str = "damaged class=od,expver=0001,date=20240101,time=0000 Absent 1-1.fields\n";

const REFUSING: &[Case] = &[
    case!(rows: UNREADY),
    case!(rows: &[CREATED, ARCHIVED], event: Event::Removed(FIELDS), after: &[row!(PURGED, report: DAMAGED, status: 8), row!(WIPED, report: DAMAGED, status: 8)]),
];

#[test]
fn refuses_what_is_not_there(rt: HostRuntime) {
    assert_eq!(rt; first_wrong(&rt, rt.alloc(), REFUSING), None);
}

/// A store in which the second batch masks the first.
const MASKED: Case = case!(rows: &[CREATED, ARCHIVED, RENEWED], after: &[FOUND]);

/// A purge that fails.
const HALTED: Row = row!(PURGED, report: "disk failed\n", status: 6);

/// How many calls of the store a purge of two batches makes that the fuse counts.
const CALLS: u64 = 15;

/// Where a purge is stopped at any of its calls, the newest field is found behind each crash.
#[test]
fn a_halted_purge_keeps_the_newest(rt: HostRuntime) {
    for calls in 0..CALLS {
        for choice in 0..4 {
            let case = case_of!(MASKED, halted: Some((calls, HALTED)), event: Event::Crash(choice));
            assert_eq!(rt;
                first_wrong(&rt, rt.alloc(), &[case]),
                None,
                "{calls} {choice}"
            );
        }
    }
    let whole = case_of!(MASKED, halted: Some((CALLS, PURGED)), event: Event::Crash(0));
    assert_eq!(rt; first_wrong(&rt, rt.alloc(), &[whole]), None);
}
