//! Schemas, their refusals, and the places of keys.
ghost use Rattle.std.specs.Prelude.{◌≡◌, []};

use fd_key::Key;
use fd_rows::{agreed, is, of_lines};
use fd_schema::*;
use std::alloc::Global;

/// Tells that a text is refused with this line and kind.
fn is_refused(alloc: Global, text: &[u8], want: &str) -> bool {
    let Err(SchemaFault::At { line, kind }) = Schema::read(alloc, text) else {
        return false;
    };
    is(format!(in alloc; "{line} {kind:?}"), want)
}

/// The same of a row of a table.
fn is_row(alloc: Global, text: &str, want: &str) -> bool {
    of_lines(alloc, text, want, is_refused)
}

/// Texts, and the line and the kind of the first place of each that is wrong.
const REFUSED: &str = "\
[class [param]]|1 Depth\n\
[]|1 Depth\n\
[a [b?]]|1 Depth\n\
[a [b [c [d]]]]|1 Depth\n\
|1 Empty\n\
# none~~|3 Empty\n\
[a|1 End\n\
[a [b~[c]]|2 End\n\
[a [b [c]]]~]|2 Byte(93)\n\
[a,,b [c [d]]]|1 Byte(44)\n\
[ [b [c]]]|1 Byte(91)\n\
[a [b [c] [d]]]|1 Byte(91)\n\
[a.b [c [d]]]|1 Byte(46)\n\
[a # \u{e9}~ [b [c]]]|1 Byte(195)\n\
[A B [c [d]]]|1 Byte(66)\n\
[a [b []]]|1 Level\n\
[a? [b [c]~]~]|3 Level\n\
[9x [c [d]]]|1 Name\n\
~[abcdefghijklmnopq [c [d]]]|2 Name\n\
[a [b [~A]]]|2 Twice(\"a\")\n\
[a, b # b~, a [b [c]]]|2 Twice(\"a\")\n\
[n0,n1,n2,n3,n4,n5,n6,n7,n8,n9,n10,n11,n12,n13,n14,n15,n16~,n17,n18,n19,n20,n21,n22,n23,n24,n25,n26,n27,n28,n29,n30,n31,n32 [b [c]]]|2 TooMany { count: 33 }\n\
[step=x:y [b [c]]]|1 Value\n\
[step=0/~- [b [c]]]|2 Value\n\
[step= [b [c]]]|1 Byte(91)\n";

#[test]
fn refusals_name_the_first_place(rt: HostRuntime) {
    assert_eq!(rt; agreed(rt.alloc(), REFUSED, is_row), 25);
}

const PRINTED: &str = "[a [step=0/1 [c?, d]]]\n[a, c? [step [d]]]\n";

/// Tells that a schema's text is this one.
fn is_printed(alloc: Global) -> Option<bool> {
    let text = b"# S\n[a [step=0/060m [c?, d]]] [a, c? [step [d]]]";
    let schema = Schema::read(alloc, text).ok()?;
    let printed = schema.text(alloc).ok()?;
    Some(printed.as_str() == PRINTED)
}

/// Sets three pairs of an empty key.
fn set(alloc: Global, key: &mut Key) -> bool
    requires { key.old ≡ [] }
{
    key.set(alloc, "d", "x").is_ok()
        && key.set(alloc, "step", "1").is_ok()
        && key.set(alloc, "a", "y").is_ok()
}

/// A key of three pairs.
fn three_pairs(alloc: Global) -> Option<Key> {
    let mut key = Key::new(alloc).ok()?;
    if !set(alloc, &mut key) {
        return None;
    }
    Some(key)
}

/// The place that a schema gives to the key.
fn place(alloc: Global, text: &str, key: &Key) -> Option<Place> {
    let schema = Schema::read(alloc, text.as_bytes()).ok()?;
    schema.place(alloc, key).ok()
}

/// Tells that the place is that of the first rule.
fn is_first(place: &Place) -> bool {
    place.rule() == 0
        && place.dataset() == "a=y"
        && place.index() == "step=1"
        && place.datum() == "d=x"
}

/// Tells that the place's key in a file is this one.
fn has_file_key(alloc: Global, place: &Place, want: &[u8]) -> bool {
    match place.file_key(alloc) {
        Ok(key) => key.as_slice() == want,
        Err(_) => false,
    }
}

/// Tells that the key has its place by the first rule.
fn is_placed(alloc: Global, key: &Key) -> bool {
    match place(alloc, PRINTED, key) {
        Some(place) => is_first(&place) && has_file_key(alloc, &place, b"step=1|d=x"),
        None => false,
    }
}

/// Tells that no rule admits the key.
fn has_no_rule(alloc: Global, key: &Key) -> bool {
    match Schema::read(
        alloc,
        b"[class, expver, date, time [centre, type [param, step, levelist?]]]",
    ) {
        Ok(schema) => matches!(schema.place(alloc, key), Err(PlaceFault::NoRule)),
        Err(_) => false,
    }
}

/// Tells that the key of three pairs has a place by one schema, and none by another.
fn has_places(alloc: Global) -> bool {
    match three_pairs(alloc) {
        Some(key) => is_placed(alloc, &key) && has_no_rule(alloc, &key),
        None => false,
    }
}

#[test]
fn a_key_has_the_place_of_the_first_rule(rt: HostRuntime) {
    assert!(rt; is_printed(rt.alloc()) == Some(true) && has_places(rt.alloc()));
}

/// Puts a line behind the text so many times.
fn push_lines(text: &mut String, line: &str, count: usize) -> bool {
    for _ in 0..count {
        if text.push_str(line).is_err() {
            return false;
        }
    }
    true
}

/// A text of 257 rules and so many comments.
fn many(alloc: Global, comments: usize) -> Option<String> {
    let mut text = String::new(alloc);
    if push_lines(&mut text, "[a[b[c]]]\n", 257) && push_lines(&mut text, "#########\n", comments) {
        Some(text)
    } else {
        None
    }
}

/// Tells that such a text is refused.
fn is_too_much(alloc: Global, comments: usize, want: &str) -> bool {
    match many(alloc, comments) {
        Some(text) => is_refused(alloc, text.as_bytes(), want),
        None => false,
    }
}

#[test]
fn texts_and_schemas_have_limits(rt: HostRuntime) {
    let are_refused = is_too_much(rt.alloc(), 0, "257 TooMany { count: 257 }")
        && is_too_much(rt.alloc(), 6_297, "1 TooLong");
    assert!(rt; are_refused);
}
