//! Index files, octet by octet.
use fd_index::*;
use std::alloc::Global;

/// The records of two keys, of which one was put twice.
const RECORDS: &[u8] = b"FDIDX001\0\x02\
\0\x03i|a\0\0\0\0\0\0\x01\x6E\0\0\0\0\0\0\0\xB7\
\0\x03i|b\0\0\0\0\0\0\0\xB7\0\0\0\0\0\0\0\xB7";

/// What stands behind the one page.
const FOOTER: &[u8] = b"\0\0\0\0\0\0\0\x02\0\0\0\x01FEND";

/// The index file of two keys, as it is written by hand.
fn by_hand(alloc: Global) -> Option<Vec<u8>> {
    let mut file = RECORDS.to_vec(alloc).ok()?;
    file.resize(4104, 0).ok()?;
    file.extend_from_slice(FOOTER).ok()?;
    Some(file)
}

/// The index file that three puts make.
fn by_puts(alloc: Global) -> Option<Vec<u8>> {
    let mut builder = IndexBuilder::new(alloc, 100, 4096).ok()?;
    builder.put(b"i|a", 0, 183).ok()?;
    builder.put(b"i|b", 183, 183).ok()?;
    builder.put(b"i|a", 366, 183).ok()?;
    builder.bytes(alloc).ok()
}

/// What an index file says of three keys, and how many keys it has.
fn found(alloc: Global, file: &[u8]) -> Option<([Option<(u64, u64)>; 3], u32)> {
    let index = Index::read(alloc, file).ok()?;
    let places = [index.find(b"i|a"), index.find(b"i|b"), index.find(b"i|c")];
    Some((places, index.len()))
}

/// Tells that the two files are the same, and what is found in them.
fn is_made(alloc: Global) -> Option<bool> {
    let file = by_puts(alloc)?;
    let hand = by_hand(alloc)?;
    let places = [Some((366, 183)), Some((183, 183)), None];
    Some(file.as_slice() == hand.as_slice() && found(alloc, &file) == Some((places, 2)))
}

#[test]
fn the_file_of_three_puts(rt: HostRuntime) {
    every_index();
    assert!(rt; is_made(rt.alloc()) == Some(true));
}

/// The place that is named, where the bytes are refused.
fn refused(alloc: Global, file: &[u8]) -> Option<u64> {
    match Index::read(alloc, file) {
        Err(IndexFault::BadIndex { at }) => Some(at),
        _ => None,
    }
}

/// Puts an octet in place of another.
fn replace(file: &mut [u8], at: usize, octet: u8) {
    if let Some(byte) = file.get_mut(at) {
        *byte = octet;
    }
}

/// The place that is named where two octets of the file are others.
fn refused_with(alloc: Global, changes: [(usize, u8); 2]) -> Option<u64> {
    let mut file = by_hand(alloc)?;
    for (at, octet) in changes {
        replace(&mut file, at, octet);
    }
    refused(alloc, &file)
}

/// Other octets, and the first place that isn't in the format then.
const REFUSED: [([(usize, u8); 2], u64); 13] = [
    ([(0, b'f'), (0, b'f')], 0),
    ([(4117, b'e'), (4117, b'e')], 4116),
    ([(4115, 2), (4115, 2)], 4112),
    ([(4111, 3), (4111, 3)], 4104),
    ([(4107, 1), (4107, 1)], 4104),
    ([(9, 3), (9, 3)], 4104),
    ([(9, 0), (4111, 0)], 8),
    ([(10, 1), (11, 1)], 10),
    ([(31, 1), (32, 1)], 31),
    ([(9, 3), (4111, 3)], 54),
    ([(35, b'a'), (35, b'a')], 33),
    ([(52, 1), (52, 1)], 52),
    ([(4103, 1), (4103, 1)], 4103),
];

#[test]
fn refusals_name_the_first_place(rt: HostRuntime) {
    for (changes, place) in REFUSED {
        assert!(rt; refused_with(rt.alloc(), changes) == Some(place), "{place}");
    }
}
