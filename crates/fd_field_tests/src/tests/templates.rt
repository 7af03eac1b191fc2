//! The numbers of a message's sections.
use super::field::{Change, FIELD, OTHERS, SECTION_3, SECTION_4, SECTION_5, changed, with};
use fd_gen::{grid, ident, packing, product};
use fd_sections::message;
use fd_templates::{Ident, LatLon, Product, Simple, TemplateFault};
use std::alloc::Global;

/// The sections from identification to packing.
fn sections(alloc: Global) -> Option<Vec<u8>> {
    let mut out = Vec::new(alloc);
    ident(0).write(&mut out).ok()?;
    grid().write(&mut out).ok()?;
    product(0).write(&mut out).ok()?;
    packing().write(&mut out).ok()?;
    Some(out)
}

/// What the four templates of a message read as.
type Numbers = (
    Ident,
    Result<LatLon, TemplateFault>,
    Result<Product, TemplateFault>,
    Result<Simple, TemplateFault>,
);

fn numbers(octets: &[u8]) -> Option<Numbers> {
    let field = message(octets).ok()?;
    Some((
        Ident::read(&field),
        LatLon::read(&field),
        Product::read(&field),
        Simple::read(&field),
    ))
}

/// The numbers of the first message that is made up are read, and its sections are written from them.
#[test]
fn numbers_of_a_field(rt: HostRuntime) {
    let read = numbers(&FIELD);
    assert!(rt; read == Some((ident(0), Ok(grid()), Ok(product(0)), Ok(packing()))));
    let is_written = match sections(rt.alloc()) {
        Some(out) => out.as_slice() == &FIELD[16..164],
        None => false,
    };
    assert!(rt; is_written);
}

/// Negative numbers in each of the templates, and a factor that was missing.
const SIGNS: [Change; 6] = [
    (SECTION_3 + 15, &[0x7F]),
    (SECTION_3 + 46, &[0x80]),
    (SECTION_4 + 18, &[0x80]),
    (SECTION_4 + 21, &[6]),
    (SECTION_4 + 23, &[0x82, 0x80]),
    (SECTION_5 + 15, &[0xFF, 0xFF]),
];

/// Signs, and numbers that are missing.
#[test]
fn signs_are_read(rt: HostRuntime) {
    let signed_grid = LatLon {
        radius_factor: Some(127),
        la1: -10_000_000,
        ..grid()
    };
    let signed_product = Product {
        first_surface_factor: Some(-2),
        first_surface_value: Some(-100_000),
        forecast_time: -6,
        ..product(0)
    };
    let signed_packing = Simple {
        binary_scale: -32767,
        ..packing()
    };
    let read = numbers(&changed(&SIGNS));
    assert!(rt;
        read == Some((
            ident(0),
            Ok(signed_grid),
            Ok(signed_product),
            Ok(signed_packing)
        ))
    );
}

/// Each template is refused where its number is another.
#[test]
fn other_templates(rt: HostRuntime) {
    let other = |number| TemplateFault::Other(number);
    let read = numbers(&changed(&OTHERS));
    assert!(rt; read == Some((ident(0), Err(other(40)), Err(other(256)), Err(other(3)))));
}

/// What the packing of a message reads as whose section 5 has 20 octets.
fn short_packing(alloc: Global) -> Option<Result<Simple, TemplateFault>> {
    let field = with(15, &[182]);
    let (front, rest) = field.split_at(SECTION_5 + 3);
    let (section, back) = rest.split_at(18);
    let mut octets = Vec::from_slice(alloc, front).ok()?;
    octets.push(20).ok()?;
    octets.extend_from_slice(section.get(1..17)?).ok()?;
    octets.extend_from_slice(back).ok()?;
    let message = message(&octets).ok()?;
    Some(Simple::read(&message))
}

/// A section of 20 octets is too short for simple packing.
#[test]
fn short_section(rt: HostRuntime) {
    let fault = TemplateFault::BadLength { said: 20 };
    assert!(rt; short_packing(rt.alloc()) == Some(Err(fault)));
}
