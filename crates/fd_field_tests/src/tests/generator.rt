//! Messages that are made up.
use super::field::{Change, FIELD, SECTION_4, SECTION_7, changed};
use fd_gen::generated;
use fd_sections::message;
use fd_templates::{Ident, Product};
use std::alloc::Global;

/// Tells that the message with this number is these octets.
fn is_made(alloc: Global, i: u64, octets: &[u8]) -> bool {
    if i >= 100_000 {
        return false;
    }
    match generated(alloc, i) {
        Ok(made) => made.as_slice() == octets,
        Err(_) => false,
    }
}

/// The step and the values of message 13.
const NEXT: [Change; 2] = [
    (SECTION_4 + 21, &[6]),
    (SECTION_7 + 5, &[0x5E, 0x6B, 0x78, 0x85]),
];

/// Message 0 is as it is written out, and message 13 differs in its step and its values alone.
#[test]
fn two_messages(rt: HostRuntime) {
    let next = changed(&NEXT);
    assert!(rt; is_made(rt.alloc(), 0, &FIELD) && is_made(rt.alloc(), 13, &next));
}

/// The numbers of messages, and their months, days, parameters, steps and levels.
const NUMBERS: [(u64, [u8; 4], i32, i32); 7] = [
    (12, [1, 1, 0, 0], 0, 5_000),
    (779, [1, 2, 0, 0], 54, 5_000),
    (20_149, [1, 31, 3, 5], 54, 5_000),
    (20_150, [2, 1, 0, 0], 0, 100_000),
    (38_350, [2, 29, 0, 0], 0, 100_000),
    (39_260, [3, 1, 2, 2], 0, 100_000),
    (99_999, [6, 2, 3, 5], 12, 70_000),
];

/// The month, the day and the parameter, the step and the level of the message with this number.
fn numbers(alloc: Global, i: u64) -> Option<([u8; 4], i32, i32)> {
    if i >= 100_000 {
        return None;
    }
    let octets = generated(alloc, i).ok()?;
    let field = message(&octets).ok()?;
    let ident = Ident::read(&field);
    let product = Product::read(&field).ok()?;
    let time = ident.reference_time;
    let day = [time.month, time.day, product.category, product.parameter];
    let level = product.first_surface_value.unwrap_or(0);
    (time.year == 2024).then_some((day, product.forecast_time, level))
}

#[test]
fn numbers_of_messages(rt: HostRuntime) {
    for (i, day, hours, level) in NUMBERS {
        assert!(rt; numbers(rt.alloc(), i) == Some((day, hours, level)), "{i}");
    }
}
