//! Why a line of a script can't be done, as text.
use fd_casting::{Miscast, miscast_text};
use fd_key::KeyFault;
use std::alloc::Global;

const KINDS: &[(Miscast, &str)] = &[
    (Miscast::Message, "Message"),
    (Miscast::Key(KeyFault::BadDate), "Key BadDate"),
    (
        Miscast::Key(KeyFault::ProductLength { said: 33 }),
        "Key ProductLength 33",
    ),
    (
        Miscast::Key(KeyFault::KeyTooLong { len: 256 }),
        "Key KeyTooLong 256",
    ),
    (Miscast::NoRule, "NoRule"),
    (Miscast::OtherDataset, "OtherDataset"),
];

/// Tells whether this is the text of the kind.
fn is_text(alloc: Global, kind: Miscast, text: &str) -> bool {
    match miscast_text(alloc, kind) {
        Ok(told) => told.as_str() == text,
        Err(_) => false,
    }
}

/// The number of the first kind that has another text.
fn first_wrong(alloc: Global) -> Option<usize> {
    for (number, (kind, text)) in KINDS.iter().enumerate() {
        if !is_text(alloc, *kind, text) {
            return Some(number);
        }
    }
    None
}

#[test]
fn kinds_as_texts(rt: HostRuntime) {
    assert_eq!(rt; first_wrong(rt.alloc()), None);
}
