//! Octets that are written as a list of parts.
use fd_gen::generated;
use std::alloc::Global;

/// One message of 183 octets: surface 100000 Pa, step 0.
const MESSAGE: [u8; 183] = [
    0x47, 0x52, 0x49, 0x42, 0xFF, 0xFF, 0, 2, 0, 0, 0, 0, 0, 0, 0, 183, 0, 0, 0, 21, 1, 0, 98, 0,
    0, 2, 0, 1, 7, 232, 1, 1, 0, 0, 0, 0, 1, 0, 0, 0, 72, 3, 0, 0, 0, 0, 4, 0, 0, 0, 0, 6, 255,
    255, 255, 255, 255, 255, 255, 255, 255, 255, 255, 255, 255, 255, 255, 0, 0, 0, 2, 0, 0, 0, 2,
    0, 0, 0, 0, 255, 255, 255, 255, 0, 152, 150, 128, 0, 0, 0, 0, 48, 0, 0, 0, 0, 0, 152, 150, 128,
    0, 152, 150, 128, 0, 152, 150, 128, 0, 0, 0, 0, 34, 4, 0, 0, 0, 0, 0, 0, 2, 0, 0, 0, 0, 0, 1,
    0, 0, 0, 0, 100, 0, 0, 1, 134, 160, 255, 255, 255, 255, 255, 255, 0, 0, 0, 21, 5, 0, 0, 0, 4,
    0, 0, 67, 250, 0, 0, 128, 1, 0, 1, 8, 0, 0, 0, 0, 6, 6, 255, 0, 0, 0, 9, 7, 3, 16, 29, 42, 55,
    55, 55, 55,
];

/// What comes next behind the octets of the parts before it.
#[derive(Clone, Copy)]
pub enum Part {
    /// This text.
    Text(&'static str),
    /// These octets.
    Octets(&'static [u8]),
    /// The field with other octets at these places.
    Field(&'static [(usize, u8)]),
    /// So many first octets of the field, with other octets at these places.
    Front(usize, &'static [(usize, u8)]),
    /// The generated messages from this number up to that one.
    Generated(u64, u64),
    /// No more, but another octet at this place.
    At(usize, u8),
    /// As many zeros as make this length, or only the first octets, of this length.
    Length(usize),
    /// These octets, so many times.
    Repeated(&'static [u8], u32),
}

/// The one field.
pub const FIELD: &[Part] = &[Part::Field(&[])];

/// The field with other values, so another message of its key.
pub const NEWER: &[Part] = &[Part::Field(&[(178, 43)])];

/// Puts so many first octets of the field behind the octets, with other octets at these places.
fn push_front(octets: &mut Vec<u8>, length: usize, changes: &[(usize, u8)]) -> bool {
    let mut field = MESSAGE;
    for (place, octet) in changes {
        if let Some(old) = field.get_mut(*place) {
            *old = *octet;
        }
    }
    match field.get(..length) {
        Some(front) => octets.extend_from_slice(front).is_ok(),
        None => false,
    }
}

/// Puts a generated message behind the octets.
fn push_message(alloc: Global, octets: &mut Vec<u8>, number: u64) -> bool {
    match generated(alloc, number.min(9999)) {
        Ok(message) => octets.extend_from_slice(&message).is_ok(),
        Err(_) => false,
    }
}

/// Puts the generated messages of these numbers behind the octets.
fn push_generated(alloc: Global, octets: &mut Vec<u8>, from: u64, to: u64) -> bool {
    for number in from..to {
        if !push_message(alloc, octets, number) {
            return false;
        }
    }
    true
}

/// Puts octets behind others, so many times.
fn push_repeated(octets: &mut Vec<u8>, more: &[u8], times: u32) -> bool {
    for _ in 0..times {
        if octets.extend_from_slice(more).is_err() {
            return false;
        }
    }
    true
}

/// Has another octet at a place.
fn change(octets: &mut [u8], place: usize, octet: u8) {
    if let Some(old) = octets.get_mut(place) {
        *old = octet;
    }
}

/// Puts a part behind the octets, and tells whether there was memory for it.
fn push_part(alloc: Global, octets: &mut Vec<u8>, part: &Part) -> bool {
    match part {
        Part::Text(text) => octets.extend_from_slice(text.as_bytes()).is_ok(),
        Part::Octets(more) => octets.extend_from_slice(more).is_ok(),
        Part::Field(changes) => push_front(octets, MESSAGE.len(), changes),
        Part::Front(length, changes) => push_front(octets, *length, changes),
        Part::Generated(from, to) => push_generated(alloc, octets, *from, *to),
        Part::At(place, octet) => {
            change(octets, *place, *octet);
            true
        }
        Part::Length(length) => octets.resize(*length, 0).is_ok(),
        Part::Repeated(more, times) => push_repeated(octets, more, *times),
    }
}

/// Puts parts behind the octets, and tells whether there was memory for them.
pub fn push_parts(alloc: Global, octets: &mut Vec<u8>, parts: &[Part]) -> bool {
    for part in parts {
        if !push_part(alloc, octets, part) {
            return false;
        }
    }
    true
}

/// Tells whether the octets are those of the parts.
pub fn are(alloc: Global, octets: &[u8], parts: &[Part]) -> bool {
    let mut wanted = Vec::new(alloc);
    push_parts(alloc, &mut wanted, parts) && wanted.as_slice() == octets
}
