//! The lines of a message and of its values.
ghost use Rattle.std.specs.Prelude.{◌≤◌, IfSome};

use super::field::{FIELD, OTHERS, SECTION_5, changed, with};
use fd_io::{MemIoFault, MemSink};
use fd_listing::{ValuesFault, describe, values};
use fd_packing::FieldFault;
use fd_rows::DESCRIBED;
use fd_sections::message;
use std::alloc::Global;

const EXACT: &str = "1 0 1003*2^-1*10^-1
1 1 1016*2^-1*10^-1
1 2 1029*2^-1*10^-1
1 3 1042*2^-1*10^-1
";

const ROUNDED: &str = "1 0 50.2
1 1 50.8
1 2 51.4
1 3 52.1
";

const UNREAD: &str = "message 1 length 183
ident 98 0 2 0 1 2024 1 1 0 0 0 0 1
grid 40 unread
product 256 unread
packing 3 unread
map 254
key refused Product 256
";

/// How a writing of values went.
#[derive(Clone, Copy, PartialEq, Eq)]
enum Went {
    Written,
    Full,
    Template(u16),
    Otherwise,
}

/// Writes the values of a message of these octets into the sink.
fn write(alloc: Global, octets: &[u8], decimals: Option<u8>, sink: &mut MemSink) -> Went
    requires { IfSome decimals (λ d. d ≤ 30) }
{
    let Ok(message) = message(octets) else {
        return Went::Otherwise;
    };
    match values(alloc, 1, &message, decimals, sink) {
        Ok(()) => Went::Written,
        Err(ValuesFault::Write(MemIoFault)) => Went::Full,
        Err(ValuesFault::Field(FieldFault::Template(number))) => Went::Template(number),
        Err(_) => Went::Otherwise,
    }
}

/// How the writing of values into a sink with so much room went, where this came into it.
fn written(
    alloc: Global,
    octets: &[u8],
    decimals: Option<u8>,
    room: u64,
    want: &str,
) -> Option<Went>
    requires { IfSome decimals (λ d. d ≤ 30) }
{
    let mut sink = MemSink::new(alloc, room, &[]).ok()?;
    let went = write(alloc, octets, decimals, &mut sink);
    (sink.taken() == want.as_bytes()).then_some(went)
}

/// Exact values, rounded ones, and a sink that has room for the first line and a piece of the second.
#[test]
fn values_of_a_field(rt: HostRuntime) {
    let alloc = rt.alloc();
    let other = with(SECTION_5 + 10, &[40]);
    let went = [
        written(alloc, &FIELD, None, 1000, EXACT),
        written(alloc, &FIELD, Some(1), 1000, ROUNDED),
        written(alloc, &FIELD, Some(1), 12, "1 0 50.2\n1 1"),
        written(alloc, &other, None, 1000, ""),
    ];
    let want = [
        Some(Went::Written),
        Some(Went::Written),
        Some(Went::Full),
        Some(Went::Template(40)),
    ];
    assert!(rt; went == want);
}

/// Tells that a message of these octets is described so.
fn is_described(alloc: Global, octets: &[u8], want: &str) -> Option<bool> {
    let message = message(octets).ok()?;
    let mut sink = MemSink::new(alloc, 1000, &[]).ok()?;
    let is_written = describe(alloc, 1, &message, &mut sink).is_ok();
    Some(is_written && sink.taken() == want.as_bytes())
}

/// All numbers of a message, and templates that aren't read.
#[test]
fn description_of_a_message(rt: HostRuntime) {
    assert!(rt; is_described(rt.alloc(), &FIELD, DESCRIBED) == Some(true));
    let other = changed(&OTHERS);
    assert!(rt; is_described(rt.alloc(), &other, UNREAD) == Some(true));
}
