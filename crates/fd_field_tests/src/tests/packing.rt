//! The values of points, and numbers that are packed.
use super::field::{Change, SECTION_3, SECTION_5, SECTION_6, SECTION_7, changed};
use fd_packing::{Field, FieldFault, PackFault, pack};
use fd_scaled::Scaled;
use fd_sections::message;
use std::alloc::Global;

const POINTS: usize = SECTION_3 + 9;

const CODED: usize = SECTION_5 + 8;

const REFERENCE: usize = SECTION_5 + 11;

const BINARY_SCALE: usize = SECTION_5 + 15;

const DECIMAL_SCALE: usize = SECTION_5 + 17;

const BITS: usize = SECTION_5 + 19;

const INDICATOR: usize = SECTION_6 + 5;

/// How many points a field of these octets has, and the value of one of them.
fn value_at(alloc: Global, octets: &[u8], i: u64) -> Option<(u64, Option<Scaled>)> {
    let message = message(octets).ok()?;
    let field = Field::read(alloc, &message).ok()?;
    let points = field.points();
    (i < points).then(|| (points, field.value(i)))
}

/// The fault of a field of these octets.
fn fault_of(alloc: Global, octets: &[u8]) -> Option<FieldFault> {
    let message = message(octets).ok()?;
    Field::read(alloc, &message).err()
}

/// Changes to the message that make eight points of it, of which two have a value, in packed numbers of 12 bits, without
/// scale factors.
const MAPPED: [Change; 9] = [
    (POINTS, &[8]),
    (SECTION_3 + 37, &[4]),
    (CODED, &[2]),
    (BINARY_SCALE, &[0, 0]),
    (DECIMAL_SCALE + 1, &[0]),
    (BITS, &[12]),
    (SECTION_6 + 3, &[7]),
    (INDICATOR, &[0, 0xA0]),
    (SECTION_7 + 3, &[0, 8, 7, 0, 0x12, 0x34]),
];

/// A negative zero as reference value, and no decimal scale.
const ZERO: [Change; 3] = [
    (REFERENCE, &[0x80, 0, 0]),
    (DECIMAL_SCALE + 1, &[0]),
    (SECTION_7 + 5, &[7]),
];

/// A sum that is as wide as it may be.
const WIDE: [Change; 4] = [
    (REFERENCE, &[0x3F, 0x80]),
    (BINARY_SCALE, &[0x80, 0x7E]),
    (DECIMAL_SCALE + 1, &[0]),
    (SECTION_7 + 5, &[7]),
];

/// Changed octets, a point, the number of points, and the factors and exponents of the value of that one, if it has one.
const VALUES: [(&[Change], u64, u64, Option<(i128, i32, i32)>); 9] = [
    (&[], 0, 4, Some((1003, -1, -1))),
    (&[], 3, 4, Some((1042, -1, -1))),
    (&ZERO, 0, 4, Some((7, -1, 0))),
    (&WIDE, 0, 4, Some(((1 << 126) + 7, -126, 0))),
    (&MAPPED, 0, 8, Some((501, 0, 0))),
    (&MAPPED, 1, 8, None),
    (&MAPPED, 2, 8, Some((1064, 0, 0))),
    (&MAPPED, 7, 8, None),
    // packed numbers of no bits: all values are the reference value
    (
        &[(BITS, &[0]), (DECIMAL_SCALE + 1, &[0])],
        3,
        4,
        Some((125, 2, 0)),
    ),
];

#[test]
fn values_of_fields(rt: HostRuntime) {
    for (i, (changes, point, points, want)) in VALUES.iter().enumerate() {
        let value = want.map(|(n, two, ten)| Scaled { n, two, ten });
        let found = value_at(rt.alloc(), &changed(changes), *point);
        assert!(rt; found == Some((*points, value)), "row {i}");
    }
}

/// Changed octets, and the fault that comes of them.
const FAULTS: [(&[Change], FieldFault); 7] = [
    (&[(BITS, &[65])], FieldFault::Bits(65)),
    (&[(INDICATOR, &[1])], FieldFault::BitMap(1)),
    (
        &[(INDICATOR, &[0])],
        FieldFault::MapShort { need: 7, found: 6 },
    ),
    (&[(POINTS, &[5])], FieldFault::Count { said: 4, found: 5 }),
    (
        &[(BITS, &[9])],
        FieldFault::PackedShort { need: 5, found: 4 },
    ),
    (
        &[(REFERENCE, &[0x7F, 0x80, 0])],
        FieldFault::ReferenceNotFinite(2_139_095_040),
    ),
    (
        &[(REFERENCE, &[0x3F, 0x80]), (BINARY_SCALE, &[0x80, 0x7F])],
        FieldFault::TooWide { need: 128 },
    ),
];

#[test]
fn faults(rt: HostRuntime) {
    for (i, (changes, want)) in FAULTS.iter().enumerate() {
        let fault = fault_of(rt.alloc(), &changed(changes));
        assert!(rt; fault == Some(*want), "row {i}");
    }
}

/// Tells that numbers are packed so.
fn is_packed(alloc: Global, numbers: &[u64], bits: u8, want: &[u8]) -> bool {
    if bits > 64 {
        return false;
    }
    match pack(alloc, numbers, bits) {
        Ok(bytes) => bytes.as_slice() == want,
        Err(_) => false,
    }
}

/// Numbers that are packed, and one that does not fit.
#[test]
fn packed_numbers(rt: HostRuntime) {
    let ones = b"\xFF\xFF\xFF\xFF\xFF\xFF\xFF\xFF\x00\x00\x00\x00\x00\x00\x00\x01";
    let are_packed = is_packed(rt.alloc(), &[3, 16], 8, b"\x03\x10")
        && is_packed(rt.alloc(), &[1, 2, 3], 5, b"\x08\x86")
        && is_packed(rt.alloc(), &[u64::MAX, 1], 64, ones);
    let fault = pack(rt.alloc(), &[3, 16], 4).err();
    assert!(rt; are_packed && fault == Some(PackFault::DoesNotFit { at: 1 }));
}
