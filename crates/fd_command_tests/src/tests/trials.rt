//! The command `trial`, over stores in memory.
use super::stores::{ARCHIVED, CREATED, EMPTY};
use fd_cases::{CASE, Case, Part, ROW, Row, first_wrong};

/// Four workers store 400 messages, and each is found.
const ALL_FOUND: Row =
    row!(ROW, words: &["trial", "s", "400", "--workers", "4"], report: "trial 400 found 400 bytes 73200 missed 0\n");

const FEW_FOUND: Row =
    row!(ROW, words: &["trial", "s", "3"], report: "trial 3 found 3 bytes 549 missed 0\n");

const TRYING: &[Case] = &[
    // Each message is found, also where all are stored again, and the store was founded.
    case!(rows: &[ALL_FOUND, ALL_FOUND, row!(CREATED, report: "refused SchemaPresent\n", status: 3)]),
    // A schema of the same rules in other words is gone by, and the messages are stored again.
    case!(rows: &[row!(CREATED, input: &[Part::Text("[class,expver,date,time[centre,type,levtype[param,step,levelist?]]] # the same\n")]), FEW_FOUND, ARCHIVED, FEW_FOUND]),
    // A schema of other rules is refused, and nothing is stored.
    case!(rows: &[row!(CREATED, input: &[Part::Text("[class, expver, date [centre, type, levtype [param, step, levelist?]]]")]), row!(FEW_FOUND, report: "refused SchemaDifferent\n", status: 3), EMPTY]),
];

/// A trial finds what it stores, by the schema that is there or by its own, and goes by no other rules.
#[test]
fn tries(rt: HostRuntime) {
    assert_eq!(rt; first_wrong(&rt, rt.alloc(), TRYING), None);
}
