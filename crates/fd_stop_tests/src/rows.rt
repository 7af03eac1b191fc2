//! What is found where a command was stopped: all that it was to do, a part that may stand alone, or nothing.
use crate::runs::{ROW, Row};
use crate::stops::{Case, NO_SCHEMA, first_wrong};

/// The founding of the store.
const CREATED: Row = Row {
    words: &["create", "s"],
    text: "[class, expver, date, time [centre, type, levtype [param, step, levelist?]]]",
    ..ROW
};

/// A store that has no schema, or the whole one.
const CREATE: Case = Case {
    before: &[],
    row: CREATED,
    found: &[NO_SCHEMA, ""],
};

#[test]
fn a_created_schema_is_whole_or_absent(rt: HostRuntime) {
    assert_eq!(rt; first_wrong(&rt, rt.alloc(), &CREATE), None);
}

/// The schema stands without the messages, and these only together.
const TRIAL: Case = Case {
    row: Row {
        words: &["trial", "s", "2"],
        ..ROW
    },
    found: &[
        NO_SCHEMA,
        "",
        "class=od,expver=0001,date=20240101,time=0000 centre=98,type=1,levtype=100 param=0.0.0,step=0,levelist=100000 183 1
class=od,expver=0001,date=20240101,time=0000 centre=98,type=1,levtype=100 param=0.0.0,step=0,levelist=92500 183 1
",
    ],
    ..CREATE
};

#[test]
fn a_trial_stores_all_or_nothing(rt: HostRuntime) {
    assert_eq!(rt; first_wrong(&rt, rt.alloc(), &TRIAL), None);
}

/// The field of the first message, in the first batch of its dataset.
const FIRST: &str =
    "class=od,expver=0001,date=20240101,time=0000 centre=98,type=1,levtype=100 param=0.0.0,step=0,levelist=100000 183 1\n";

/// The archiving of that message.
const ARCHIVED: Row = Row {
    words: &["archive", "s", "--with=class=od,expver=0001"],
    messages: &[0],
    ..ROW
};

/// Two datasets, of which the one may stand without the other.
const ARCHIVE: Case = Case {
    before: &[CREATED],
    row: Row {
        messages: &[0, 650],
        ..ARCHIVED
    },
    found: &[
        "",
        FIRST,
        "class=od,expver=0001,date=20240102,time=0000 centre=98,type=1,levtype=100 param=0.0.0,step=0,levelist=100000 183 1\n",
        "class=od,expver=0001,date=20240101,time=0000 centre=98,type=1,levtype=100 param=0.0.0,step=0,levelist=100000 183 1
class=od,expver=0001,date=20240102,time=0000 centre=98,type=1,levtype=100 param=0.0.0,step=0,levelist=100000 183 1
",
    ],
};

#[test]
fn an_archive_stores_whole_batches(rt: HostRuntime) {
    assert_eq!(rt; first_wrong(&rt, rt.alloc(), &ARCHIVE), None);
}

/// The first flush of a lane stands without the second, and never the other way round.
const SESSION: Case = Case {
    before: &[CREATED],
    row: Row {
        words: &["session", "s"],
        text: "dataset class=od,expver=0001,date=20240101,time=0000
lane a class=od,expver=0001
put 1
flush
put 2
flush
messages
",
        messages: &[0, 1],
    },
    found: &[
        "",
        FIRST,
        "class=od,expver=0001,date=20240101,time=0000 centre=98,type=1,levtype=100 param=0.0.0,step=0,levelist=100000 183 1
class=od,expver=0001,date=20240101,time=0000 centre=98,type=1,levtype=100 param=0.0.0,step=0,levelist=92500 183 2
",
    ],
};

#[test]
fn a_session_lists_whole_batches_in_order(rt: HostRuntime) {
    assert_eq!(rt; first_wrong(&rt, rt.alloc(), &SESSION), None);
}

/// A dataset whose second batch masks the first has both, or the second alone, which is its first then.
const PURGE: Case = Case {
    before: &[CREATED, ARCHIVED, ARCHIVED],
    row: Row {
        words: &["purge", "s", "class=od,expver=0001,date=20240101,time=0000"],
        ..ROW
    },
    found: &[
        "class=od,expver=0001,date=20240101,time=0000 centre=98,type=1,levtype=100 param=0.0.0,step=0,levelist=100000 183 2\n",
        FIRST,
    ],
};

#[test]
fn a_purge_leaves_all_or_what_it_keeps(rt: HostRuntime) {
    assert_eq!(rt; first_wrong(&rt, rt.alloc(), &PURGE), None);
}

/// A dataset has all its batches, or none.
const WIPE: Case = Case {
    row: Row {
        words: &["wipe", "s", "class=od,expver=0001,date=20240101,time=0000"],
        ..ROW
    },
    found: &[
        "class=od,expver=0001,date=20240101,time=0000 centre=98,type=1,levtype=100 param=0.0.0,step=0,levelist=100000 183 2\n",
        "",
    ],
    ..PURGE
};

#[test]
fn a_wipe_leaves_all_or_nothing(rt: HostRuntime) {
    assert_eq!(rt; first_wrong(&rt, rt.alloc(), &WIPE), None);
}
