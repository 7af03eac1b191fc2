//! Ensembles and intervals of time: sections, keys, lines and schemas.
use super::field::{FIELD, SECTION_4, SECTION_5};
use fd_io::MemSink;
use fd_key::{Given, canonical, key_of};
use fd_listing::describe;
use fd_rows::{agreed, lines};
use fd_schema::{PlaceFault, Schema};
use fd_sections::message;
use fd_templates::{AnyProduct, DateTime, Ensemble, Interval, Range, Ranges};
use std::alloc::Global;

/// The member of an ensemble.
const MEMBER: [u8; 3] = *b"\x03\x07\x33";

/// An interval of one time range of six hours.
const INTERVAL: [u8; 24] =
    *b"\x07\xE8\x01\x01\x06\x00\x00\x01\x00\x00\x00\x00\x01\x02\x01\x00\x00\x00\x06\xFF\x00\x00\x00\x00";

/// The message with another template of section 4, and these octets at the section's end.
fn field_with(alloc: Global, template: u8, added: &[u8]) -> Option<Vec<u8>> {
    let mut octets = Vec::new(alloc);
    octets.extend_from_slice(&FIELD).ok()?;
    let added_len = u8::try_from(added.len()).ok()?;
    octets[15] = 183u8.checked_add(added_len)?;
    octets[SECTION_4 + 3] = 34u8.checked_add(added_len)?;
    octets[SECTION_4 + 8] = template;
    octets.truncate(SECTION_5);
    octets.extend_from_slice(added).ok()?;
    octets.extend_from_slice(&FIELD[SECTION_5..]).ok()?;
    Some(octets)
}

/// What is wanted of the first of these messages of which this doesn't hold: each with another template of section 4, and with
/// these octets at the section's end.
fn first_wrong<'a>(
    alloc: Global,
    rows: &[(u8, &[u8], &'a str)],
    holds: fn(Global, &[u8], &str) -> Option<bool>,
) -> Option<&'a str>
where
    requires { IsAlwaysCallable holds }
{
    for (template, added, want) in rows {
        let is_so = match field_with(alloc, *template, added) {
            Some(octets) => holds(alloc, &octets, want),
            None => None,
        };
        if is_so != Some(true) {
            return Some(*want);
        }
    }
    None
}

/// What the key of a message ends in behind the surface, or its fault.
fn has_key(alloc: Global, octets: &[u8], want: &str) -> Option<bool> {
    let field = message(octets).ok()?;
    let given = Given::none(alloc).ok()?;
    match key_of(alloc, &field, &given) {
        Ok(key) => {
            let text = key.text(alloc).ok()?;
            Some(
                text.as_str().strip_prefix(
                    "centre=98,date=20240101,time=0000,type=1,param=0.0.0,levtype=100,levelist=100000,",
                ) == Some(want),
            )
        }
        Err(fault) => {
            let text = format!(in alloc; "{fault}").ok()?;
            Some(text.as_str() == want)
        }
    }
}

#[test]
fn keys_of_members_and_intervals(rt: HostRuntime) {
    let both = *b"\x03\xFF\x33\x07\xE8\x01\x01\x06\x00\x00\x00\x00\x00\x00\x00";
    let rows: [(u8, &[u8], &str); 6] = [
        (1, &MEMBER, "step=0,number=7"),
        (8, &INTERVAL, "step=0,stat=1.6"),
        (11, &both, "step=0,stat=none"),
        (8, &INTERVAL[..23], "ProductLength 57"),
        (1, &MEMBER[..2], "ProductLength 36"),
        (2, &MEMBER, "Product 2"),
    ];
    assert_eq!(rt; first_wrong(rt.alloc(), &rows, has_key), None);
}

/// The section that is written from what was read of a message.
fn written(alloc: Global, octets: &[u8]) -> Option<Vec<u8>> {
    let field = message(octets).ok()?;
    match AnyProduct::read(alloc, &field) {
        Ok(product) => {
            let mut out = Vec::new(alloc);
            product.write(&mut out).ok()?;
            Some(out)
        }
        Err(_) => None,
    }
}

fn is_written_again(alloc: Global, template: u8, added: &[u8]) -> Option<bool> {
    let octets = field_with(alloc, template, added)?;
    let out = written(alloc, &octets)?;
    let end = octets.len().checked_sub(40)?;
    Some(octets.get(SECTION_4..end)? == out.as_slice())
}

#[test]
fn sections_are_written_again(rt: HostRuntime) {
    assert!(rt; is_written_again(rt.alloc(), 0, &[]) == Some(true));
    assert!(rt; is_written_again(rt.alloc(), 1, &MEMBER) == Some(true));
    assert!(rt; is_written_again(rt.alloc(), 8, &INTERVAL) == Some(true));
}

/// The lines of a message.
fn described(alloc: Global, octets: &[u8], want: &str) -> Option<bool> {
    let field = message(octets).ok()?;
    let mut sink = MemSink::new(alloc, 4096, &[]).ok()?;
    describe(alloc, 1, &field, &mut sink).ok()?;
    let text = str::from_utf8(sink.taken()).ok()?;
    Some(text.contains(want))
}

#[test]
fn product_lines(rt: HostRuntime) {
    let rows: [(u8, &[u8], &str); 4] = [
        (
            8,
            &INTERVAL,
            "\nproduct 8 0 0 2 0 0 0 0 1 0 100 0 100000 255 - - 2024 1 1 6 0 0 1 0 1 2 1 6 255 0\n",
        ),
        (
            1,
            &MEMBER,
            "\nproduct 1 0 0 2 0 0 0 0 1 0 100 0 100000 255 - - 3 7 51\n",
        ),
        (8, &INTERVAL[..23], "\nproduct 8 short\n"),
        (3, &MEMBER, "\nproduct 3 unread\n"),
    ];
    assert_eq!(rt; first_wrong(rt.alloc(), &rows, described), None);
}

/// A schema of version 1.
const FIRST: &str =
    "[class, expver, date, time [centre, type, levtype [param, step, levelist?, number?, stat?]]]";

/// The same of version 2.
const SECOND: &str =
    "version 2 [class, expver, date, time [centre, type, levtype [param, step, levelist?, number?, stat?]]]";

/// The datum of a message's key in a schema, or that it has none.
fn has_datum(alloc: Global, schema: &str, octets: &[u8], want: &str) -> Option<bool> {
    let schema = Schema::read(alloc, schema.as_bytes()).ok()?;
    let field = message(octets).ok()?;
    let given = Given::read(alloc, "class=od,expver=0001").ok()?;
    let key = key_of(alloc, &field, &given).ok()?;
    match schema.place(alloc, &key) {
        Ok(place) => Some(place.datum() == want),
        Err(PlaceFault::NoRule) => Some(want == "NoRule"),
        Err(PlaceFault::NoMemory) => None,
    }
}

/// The same of the message as it stands, or as the member of an ensemble.
fn is_placed(alloc: Global, schema: &str, is_member: bool, want: &str) -> Option<bool> {
    let octets = if is_member {
        field_with(alloc, 1, &MEMBER)?
    } else {
        field_with(alloc, 0, &[])?
    };
    has_datum(alloc, schema, &octets, want)
}

/// A member has a place in a schema of version 2 alone; the message itself has the same one in both.
#[test]
fn places_of_members(rt: HostRuntime) {
    let alone = "param=0.0.0,step=0,levelist=100000";
    let member = "param=0.0.0,step=0,levelist=100000,number=7";
    assert!(rt; is_placed(rt.alloc(), FIRST, true, "NoRule") == Some(true));
    assert!(rt; is_placed(rt.alloc(), FIRST, false, alone) == Some(true));
    assert!(rt; is_placed(rt.alloc(), SECOND, true, member) == Some(true));
    assert!(rt; is_placed(rt.alloc(), SECOND, false, alone) == Some(true));
}

/// Tells that a schema's text is this, or that it is refused so; a `~` stands for the end of a line.
fn is_schema(alloc: Global, text: &str, want: &str) -> Option<bool> {
    let text = lines(alloc, text)?;
    let want = lines(alloc, want)?;
    let told = match Schema::read(alloc, &text) {
        Ok(schema) => schema.text(alloc).ok()?,
        Err(fault) => format!(in alloc; "{fault}").ok()?,
    };
    Some(told.as_bytes() == want.as_slice())
}

fn reads_as(alloc: Global, text: &str, want: &str) -> bool {
    is_schema(alloc, text, want) == Some(true)
}

/// Schemas, and their texts or what is wrong with them.
const VERSIONS: &str = "\
version 3 [a [b [c]]]|1 Version\n\
version~2~[a [b [c]]]|version 2~[a [b [c]]]~\n\
version 2[number=007 [b [stat=01.60m/none]]]|version 2~[number=7 [b [stat=1.1/none]]]~\n\
[number=007 [b [stat=01.60m]]]|[number=007 [b [stat=01.60m]]]~\n\
~# one~version # two~|3 Version\n\
version~[a [b [c]]]|2 Version\n\
VERSION 2 [a [b [c]]]|1 Byte 86\n\
version2 [a [b [c]]]|1 Byte 118\n\
version 2|1 Empty\n\
version 2 version 2 [a [b [c]]]|1 Byte 118\n\
version $ [a [b [c]]]|1 Version\n\
version 2 [number=256 [b [c]]]|1 Value\n\
version 2 [class [param]]|1 Depth\n";

#[test]
fn versions_of_schemas(rt: HostRuntime) {
    assert_eq!(rt; agreed(rt.alloc(), VERSIONS, reads_as), 13);
}

/// Tells that a text `name=value` has this spelling, or none.
fn is_spelled(alloc: Global, pair: &str, want: &str) -> bool {
    let Some((name, text)) = pair.split_once('=') else {
        return false;
    };
    match canonical(alloc, name, text) {
        Ok(value) => value.as_str() == want,
        Err(_) => want == "none such",
    }
}

/// Values of `number` and `stat`, and their spellings.
const SPELLINGS: &str = "\
stat=1.360m+0.06|1.6+0.6\n\
STAT=NONE|none\n\
stat=1.-6|none such\n\
stat=1.6+|none such\n\
stat=+1.6|none such\n\
stat=256.6|none such\n\
stat=none+1.6|none such\n\
stat=1.5u3+255.90s|1.5u3+255.90s\n\
number=007|7\n\
number=256|none such\n";

#[test]
fn spellings_of_members_and_statistics(rt: HostRuntime) {
    assert_eq!(rt; agreed(rt.alloc(), SPELLINGS, is_spelled), 10);
}

/// An interval of two time ranges.
fn two_ranges(alloc: Global) -> Option<Interval> {
    let range = Range {
        process: 1,
        increment_kind: 2,
        unit: 1,
        length: 6,
        increment_unit: 255,
        increment: 0,
    };
    let items = Vec::from_array(alloc, [range, range]).ok()?;
    Some(Interval {
        end: DateTime {
            year: 2024,
            month: 1,
            day: 1,
            hour: 6,
            minute: 0,
            second: 0,
        },
        missing: 0,
        ranges: Ranges::from_vec(items),
    })
}

/// The section of the field as a member of an ensemble, over an interval of two time ranges.
fn made(alloc: Global) -> Option<Vec<u8>> {
    let interval = two_ranges(alloc)?;
    let field = message(&FIELD).ok()?;
    match AnyProduct::read(alloc, &field) {
        Ok(AnyProduct { base, .. }) => {
            let product = AnyProduct {
                base,
                ensemble: Some(Ensemble {
                    kind: 3,
                    number: 7,
                    size: 51,
                }),
                interval: Some(interval),
            };
            let mut out = Vec::new(alloc);
            product.write(&mut out).ok()?;
            Some(out)
        }
        Err(_) => None,
    }
}

/// Tells that the key of a message with that section has both.
fn has_both(alloc: Global) -> Option<bool> {
    let section = made(alloc)?;
    let octets = field_with(alloc, 11, section.get(34..)?)?;
    has_key(alloc, &octets, "step=0,number=7,stat=1.6+1.6")
}

#[test]
fn a_section_of_all_parts(rt: HostRuntime) {
    assert!(rt; has_both(rt.alloc()) == Some(true));
}
