//! Requests, and partial ones.
use fd_key::Key;
use fd_request::*;
use fd_rows::{agreed, of_lines};
use std::alloc::Global;

/// Tells that a fault is printed so.
fn is_told(alloc: Global, fault: RequestFault, want: &str) -> bool {
    match format!(in alloc; "{fault:?}") {
        Ok(text) => text.as_str() == want,
        Err(_) => false,
    }
}

/// The text of a key of a request.
fn key_text(alloc: Global, request: &Request, i: u32) -> Option<String> {
    if i >= request.count() {
        return None;
    }
    let key = request.key(alloc, i).ok()?;
    key.text(alloc).ok()
}

/// Tells that this is the text of a key of a request.
fn is_key(alloc: Global, request: &Request, i: u32, want: &str) -> bool {
    match key_text(alloc, request, i) {
        Some(text) => text.as_str() == want,
        None => false,
    }
}

/// Tells that these are the keys of a request, with blanks between them.
fn has_keys(alloc: Global, request: &Request, want: &str) -> bool {
    let mut rest = Some(want);
    for i in 0..request.count() {
        let Some(texts) = rest else {
            return false;
        };
        let (next, more) = match texts.split_once(' ') {
            Some((next, more)) => (next, Some(more)),
            None => (texts, None),
        };
        if !is_key(alloc, request, i, next) {
            return false;
        }
        rest = more;
    }
    rest.is_none()
}

/// Tells that a request has these keys, or is refused with this fault.
fn reads_as(alloc: Global, text: &[u8], want: &str) -> bool {
    match Request::read(alloc, text) {
        Ok(request) => has_keys(alloc, &request, want),
        Err(fault) => is_told(alloc, fault, want),
    }
}

/// The same of a row of a table.
fn is_row(alloc: Global, text: &str, want: &str) -> bool {
    of_lines(alloc, text, want, reads_as)
}

/// Requests, and their keys in the order of the text.
const KEYS: &str = "\
retrieve,date=20240228/to/20240301|date=20240228 date=20240229 date=20240301\n\
retrieve,step=6/0/6|step=6 step=0 step=6\n\
retrieve|\n\
\x20RETRIEVE ,~ Class = OD / rd , step=0/to/13/by/6|class=od,step=0 class=od,step=6 class=od,step=12 class=rd,step=0 class=rd,step=6 class=rd,step=12\n\
retrieve,time=06:00/to/19/by/6|time=0600 time=1200 time=1800\n\
retrieve,step=-6/to/60m/by/000000004|step=-6 step=-2\n\
retrieve,levelist=850.0/to/900/by/25|levelist=850 levelist=875 levelist=900\n\
retrieve,centre=97/to/98,type=001|centre=97,type=1 centre=98,type=1\n\
retrieve,number=0/to/2|number=0 number=1 number=2\n\
retrieve,number=001/to/5/by/2,stat=NONE/1.60m|number=1,stat=none number=1,stat=1.1 number=3,stat=none number=3,stat=1.1 number=5,stat=none number=5,stat=1.1\n\
retrieve,date=19991231/to/20000302/by/31|date=19991231 date=20000131 date=20000302\n";

/// Texts, and the first place of each that is wrong.
const REFUSED: &str = "\
|At { at: 0, kind: Verb }\n\
list,a=b|At { at: 0, kind: Verb }\n\
\x20 retriev|At { at: 2, kind: Verb }\n\
retrieve$|At { at: 8, kind: Pair }\n\
retrieve a=b|At { at: 9, kind: Pair }\n\
retrieve,a=b,|At { at: 13, kind: Pair }\n\
retrieve,cl$=od|At { at: 11, kind: Pair }\n\
retrieve,a=b c,d=e|At { at: 13, kind: Pair }\n\
retrieve,step=0/to/6 x|At { at: 21, kind: Pair }\n\
retrieve,class=od x/to|At { at: 18, kind: Pair }\n\
retrieve,step=9 x/to/3|At { at: 16, kind: Pair }\n\
retrieve,abcdefghijklmnopq=1|At { at: 9, kind: Pair }\n\
retrieve,a=b,A=c|At { at: 13, kind: Repeated(\"a\") }\n\
retrieve,a=b,c=d, a$|At { at: 18, kind: Repeated(\"a\") }\n\
retrieve,class= ,|At { at: 16, kind: Value }\n\
retrieve,class=od/o$d|At { at: 18, kind: Value }\n\
retrieve,number=300|At { at: 16, kind: Value }\n\
retrieve,stat=1|At { at: 14, kind: Value }\n\
retrieve,stat=1/to/3|At { at: 14, kind: Range }\n\
retrieve,number=0/to/256|At { at: 16, kind: Range }\n\
retrieve,class=od=x|At { at: 15, kind: Value }\n\
retrieve,date=20230229|At { at: 14, kind: Value }\n\
retrieve,step=0/to/24/by/0|At { at: 14, kind: Range }\n\
retrieve,step=24/to/0|At { at: 14, kind: Range }\n\
retrieve,step=0/to x/3|At { at: 14, kind: Range }\n\
retrieve,step=1m/to/3|At { at: 14, kind: Range }\n\
retrieve,step=$/to|At { at: 14, kind: Range }\n\
retrieve,class= a/to/b|At { at: 16, kind: Range }\n\
retrieve,levelist=-1/to/3|At { at: 18, kind: Range }\n\
retrieve,step=0/to/9/by/1234567890|At { at: 14, kind: Range }\n\
retrieve,step=1/to/262145|At { at: 25, kind: TooMany { count: 262145 } }\n\
retrieve,step=1/to/513,levelist=1/to/512,class=a/b|At { at: 50, kind: TooMany { count: 262656 } }\n";

#[test]
fn keys_in_the_order_of_the_text(rt: HostRuntime) {
    assert_eq!(rt; agreed(rt.alloc(), KEYS, is_row), 11);
}

#[test]
fn places_and_kinds(rt: HostRuntime) {
    assert_eq!(rt; agreed(rt.alloc(), REFUSED, is_row), 32);
}

/// Partial requests, and the first place of each that is wrong, if there is one.
const PARTIAL: &str = "\
list|none\n\
LIST, step = 0/to/999999999999999, class=od/rd|none\n\
retrieve|At { at: 0, kind: Verb }\n\
list,class=|At { at: 11, kind: Value }\n\
list,step=1/to/0|At { at: 10, kind: Range }\n";

/// Tells that a partial request is refused with this fault, or is none.
fn is_partial(alloc: Global, text: &str, want: &str) -> bool {
    match Partial::read(alloc, text.as_bytes()) {
        Ok(_) => want == "none",
        Err(fault) => is_told(alloc, fault, want),
    }
}

#[test]
fn partial_requests(rt: HostRuntime) {
    assert_eq!(rt; agreed(rt.alloc(), PARTIAL, is_partial), 5);
}

/// Partial requests, and requests whose first key each asks for.
const ASKED: &str = "\
list|retrieve\n\
list|retrieve,class=od\n\
list,class=od/rd|retrieve,step=6,class=rd\n\
list,step=0/to/24/by/6|retrieve,step=12\n\
list,step=0/to/24/by/6|retrieve,step=24\n\
list,step=-6/to/6/by/4|retrieve,step=-2\n\
list,step=0/to/999999999999999|retrieve,step=123456789012345\n\
list,date=20240228/to/20240301|retrieve,date=2024-02-29\n\
list,time=0/to/18/by/6|retrieve,time=18\n\
list,levelist=850/to/1000/by/50|retrieve,levelist=950.0\n";

/// Partial requests, and requests whose first key none asks for.
const NOT_ASKED: &str = "\
list,class=od/rd|retrieve,class=xd\n\
list,class=od,expver=1|retrieve,class=od\n\
list,class=od,expver=1|retrieve,class=od,expver=2\n\
list,step=0/to/24/by/6|retrieve,step=13\n\
list,step=0/to/24/by/6|retrieve,step=30\n\
list,step=0/to/24/by/6|retrieve,step=-6\n\
list,step=0/to/24/by/6|retrieve,step=6m\n\
list,date=20240228/to/20240301|retrieve,date=20240302\n\
list,time=0/to/18/by/6|retrieve,time=1830\n\
list,levelist=850/to/1000/by/50|retrieve,levelist=950_900\n";

/// The first key of a request.
fn first_key(alloc: Global, text: &str) -> Option<Key> {
    let request = Request::read(alloc, text.as_bytes()).ok()?;
    if request.count() == 0 {
        return None;
    }
    request.key(alloc, 0).ok()
}

/// Whether a partial request asks for a key.
fn asks_for(alloc: Global, text: &str, key: &Key) -> Option<bool> {
    let partial = Partial::read(alloc, text.as_bytes()).ok()?;
    Some(partial.matches(key))
}

/// Whether a partial request asks for the first key of a request.
fn asked(alloc: Global, partial: &str, request: &str) -> Option<bool> {
    let key = first_key(alloc, request)?;
    asks_for(alloc, partial, &key)
}

fn is_asked(alloc: Global, partial: &str, request: &str) -> bool {
    asked(alloc, partial, request) == Some(true)
}

fn is_not_asked(alloc: Global, partial: &str, request: &str) -> bool {
    asked(alloc, partial, request) == Some(false)
}

/// Whether a partial request asks for a key whose step is spelled otherwise.
fn asked_otherwise(alloc: Global) -> Option<bool> {
    let mut key = Key::new(alloc).ok()?;
    key.set(alloc, "step", "06").ok()?;
    asks_for(alloc, "list,step=0/to/24/by/6", &key)
}

#[test]
fn keys_asked_for(rt: HostRuntime) {
    assert_eq!(rt; agreed(rt.alloc(), ASKED, is_asked), 10);
    assert_eq!(rt; agreed(rt.alloc(), NOT_ASKED, is_not_asked), 10);
    assert!(rt; asked_otherwise(rt.alloc()) == Some(false));
}

/// The number of keys of a request, and the length of the text of its last one.
fn last_key(alloc: Global, text: &[u8]) -> Option<(u32, usize)> {
    let request = Request::read(alloc, text).ok()?;
    let count = request.count();
    let last = key_text(alloc, &request, count.saturating_sub(1))?;
    Some((count, last.len()))
}

/// A text with so many of an octet behind it.
fn filled(alloc: Global, front: &[u8], octet: u8, count: usize) -> Option<Vec<u8>> {
    let mut text = front.to_vec(alloc).ok()?;
    text.resize(front.len().saturating_add(count), octet).ok()?;
    Some(text)
}

/// Tells that a text with so many of an octet behind it reads as this.
fn reads_filled(alloc: Global, front: &[u8], octet: u8, count: usize, want: &str) -> bool {
    match filled(alloc, front, octet, count) {
        Some(text) => reads_as(alloc, &text, want),
        None => false,
    }
}

const LONG: &[u8] = b"retrieve,step=1/to/100,abc=";

/// The number of keys of a request with a value of 242 letters, and the length of the text of its last one.
fn longest_key(alloc: Global) -> Option<(u32, usize)> {
    let text = filled(alloc, LONG, b'a', 242)?;
    last_key(alloc, &text)
}

#[test]
fn limits(rt: HostRuntime) {
    let most = last_key(rt.alloc(), b"retrieve,step=1/to/262144");
    assert!(rt; most == Some((262_144, 11)) && longest_key(rt.alloc()) == Some((100, 255)));
    let over = "At { at: 270, kind: KeyTooLong { len: 256 } }";
    assert!(rt; reads_filled(rt.alloc(), LONG, b'a', 243, over));
    let front = b"retrieve,class=od";
    assert!(rt; reads_filled(rt.alloc(), front, b' ', 65_519, "class=od"));
    let over = "At { at: 65536, kind: TooLong }";
    assert!(rt; reads_filled(rt.alloc(), front, b' ', 65_520, over));
    let wrong = b"retrieve,class$od";
    assert!(rt; reads_filled(rt.alloc(), wrong, b' ', 65_521, "At { at: 14, kind: Pair }"));
}
