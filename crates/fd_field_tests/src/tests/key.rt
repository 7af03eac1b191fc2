//! Keys of messages, and their texts.
ghost use Rattle.std.specs.Prelude.{◌≡◌, []};

use super::field::{Change, FIELD, SECTION_1, SECTION_4, changed};
use fd_key::*;
use fd_sections::message;
use std::alloc::Global;
use std::fmt::Debug;

/// Tells that a fault is printed so.
fn is_told<T: Debug + Drop>(alloc: Global, fault: T, want: &str) -> bool {
    match format!(in alloc; "{fault:?}") {
        Ok(text) => text.as_str() == want,
        Err(_) => false,
    }
}

/// Tells that the key has this text.
fn is_text(alloc: Global, key: &Key, want: &str) -> bool {
    match key.text(alloc) {
        Ok(text) => text.as_str() == want,
        Err(_) => false,
    }
}

/// What all these messages' keys begin with.
const FRONT: &str = "centre=98,date=20240101,time=0000,type=1,param=0.0.0,levtype=100,";

/// Tells that the key has this text behind that front.
fn is_behind(alloc: Global, key: &Key, want: &str) -> bool {
    match key.text(alloc) {
        Ok(text) => text.as_str().strip_prefix(FRONT) == Some(want),
        Err(_) => false,
    }
}

/// Tells that the message's key has this text behind that front, or is refused with this fault.
fn has_key(alloc: Global, octets: &[u8], given: &Given, want: &str) -> bool {
    let Ok(message) = message(octets) else {
        return false;
    };
    match key_of(alloc, &message, given) {
        Ok(key) => is_behind(alloc, &key, want),
        Err(fault) => is_told(alloc, fault, want),
    }
}

/// The same where no pairs are given.
fn has_own_key(alloc: Global, octets: &[u8], want: &str) -> bool {
    match Given::none(alloc) {
        Ok(given) => has_key(alloc, octets, &given, want),
        Err(_) => false,
    }
}

/// Changed octets of a message, and what its key is then, behind the front.
const KEYS: [(&[Change], &str); 9] = [
    (&[], "levelist=100000,step=0"),
    (&[(SECTION_4 + 26, &[0x69, 0x54])], "levelist=92500,step=0"),
    (&[(SECTION_4 + 21, &[6])], "levelist=100000,step=6"),
    // the value 850 with the factor -2, and 85000 with the factor 0
    (
        &[(SECTION_4 + 23, &[0x82]), (SECTION_4 + 25, &[0, 3, 0x52])],
        "levelist=85000,step=0",
    ),
    (&[(SECTION_4 + 26, &[0x4C, 8])], "levelist=85000,step=0"),
    (&[(SECTION_4 + 23, &[255])], "step=0"),
    (&[(SECTION_4 + 8, &[2])], "Product(2)"),
    (&[(SECTION_1 + 14, &[2, 30])], "BadDate"),
    (&[(SECTION_1 + 16, &[24])], "BadDate"),
];

#[test]
fn keys_of_messages(rt: HostRuntime) {
    for (changes, want) in KEYS {
        assert!(rt; has_own_key(rt.alloc(), &changed(changes), want), "{want}");
    }
}

/// Tells that the message's key, which is put into this one, has this text behind that front, or is refused with this fault.
fn is_filled(alloc: Global, key: &mut Key, octets: &[u8], given: &Given, want: &str) -> bool {
    let Ok(message) = message(octets) else {
        return false;
    };
    match key_into(key, alloc, &message, given) {
        Ok(()) => is_behind(alloc, key, want),
        Err(fault) => is_told(alloc, fault, want),
    }
}

/// Tells that the keys of all messages can be put into one, the one after the other, and behind the last, which is refused, once more.
fn is_filled_again(alloc: Global) -> bool {
    let Ok(given) = Given::none(alloc) else {
        return false;
    };
    let Ok(mut key) = Key::new(alloc) else {
        return false;
    };
    for _ in 0..2 {
        for (changes, want) in KEYS {
            if !is_filled(alloc, &mut key, &changed(changes), &given, want) {
                return false;
            }
        }
    }
    true
}

#[test]
fn a_key_that_is_filled_again(rt: HostRuntime) {
    assert!(rt; is_filled_again(rt.alloc()));
}

/// A value of 166 bytes, which makes the key too long: the message's own pairs have 87 bytes, and a comma follows.
const LONG: &str =
    "x=7777777777777777777777777777777777777777777777777777777777777777777777777777777777777777777777777777777777777777777777777777777777777777777777777777777777777777777777";

/// Tells that the key is too long with that pair.
fn is_too_long(alloc: Global) -> bool {
    match Given::read(alloc, LONG) {
        Ok(given) => has_key(alloc, &FIELD, &given, "KeyTooLong { len: 256 }"),
        Err(_) => false,
    }
}

#[test]
fn keys_that_are_too_long(rt: HostRuntime) {
    assert!(rt; is_too_long(rt.alloc()));
}

/// Names, texts, and the one spelling of each value.
const SPELLINGS: [(&str, &str, &str); 6] = [
    ("step", "120m", "2"),
    ("TIME", "12:00", "1200"),
    ("levelist", "0850.0", "850"),
    ("date", "2024-02-30", "no value"),
    ("date", "2024-02-29", "20240229"),
    ("class", "OD", "od"),
];

/// Tells that the value of the name has this spelling, or none.
fn is_spelled(alloc: Global, name: &str, text: &str, want: &str) -> bool {
    match canonical(alloc, name, text) {
        Ok(got) => got.as_str() == want,
        Err(fault) => fault == ValueFault::BadValue && want == "no value",
    }
}

/// Tells what a pair reads as.
fn is_pair(alloc: Global) -> bool {
    match read_pair(alloc, "Time=6") {
        Ok((name, value)) => name.as_str() == "time" && value.as_str() == "0600",
        Err(_) => false,
    }
}

#[test]
fn spellings(rt: HostRuntime) {
    for (name, text, want) in SPELLINGS {
        assert!(rt; is_spelled(rt.alloc(), name, text, want), "{name} {text}");
    }
    assert!(rt; is_pair(rt.alloc()));
}

/// Texts of pairs, how many there are, and where there are none, the fault.
const GIVEN: [(&str, u32, &str); 4] = [
    ("class=od,EXPVER=0001", 2, ""),
    ("class=od,", 0, "Pair { at: 9 }"),
    ("a=1,Date=x", 0, "Clash(\"date\")"),
    ("a=1,A=2,b", 0, "Twice(\"a\")"),
];

/// Tells that so many pairs are given by the text, or that it is refused with this fault.
fn gives(alloc: Global, text: &str, count: u32, want: &str) -> bool {
    if text.len() > 1000 {
        return false;
    }
    match Given::read(alloc, text) {
        Ok(given) => given.len() == count,
        Err(fault) => is_told(alloc, fault, want),
    }
}

#[test]
fn given_pairs(rt: HostRuntime) {
    for (text, count, want) in GIVEN {
        assert!(rt; gives(rt.alloc(), text, count, want), "{text}");
    }
}

/// Sets three pairs of an empty key, of which the last one replaces the first.
fn set(alloc: Global, key: &mut Key) -> bool
    requires { key.old ≡ [] }
{
    key.set(alloc, "class", "od").is_ok()
        && key.set(alloc, "step", "5").is_ok()
        && key.set(alloc, "class", "rd").is_ok()
}

/// Tells what an empty key is after that.
fn is_set(alloc: Global) -> bool {
    let Ok(mut key) = Key::new(alloc) else {
        return false;
    };
    set(alloc, &mut key) && key.len() == 2 && is_text(alloc, &key, "class=rd,step=5")
}

#[test]
fn keys_by_hand(rt: HostRuntime) {
    assert!(rt; is_set(rt.alloc()));
}
