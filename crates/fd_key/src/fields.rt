// The texts of the surfaces of a field and of its time ranges.
ghost use Rattle.std.specs.Prelude.{◌≡◌, ◌≤◌, ◌+◌, ◌*◌, IfOk, IfSome, length, option_map, string_bytes};
ghost use Rattle.fd_templates.specs.{Octets.{FitsOrMissing}, Product.{Fits}};
ghost use Rattle.fd_key.specs.{Values.{level_of, both_of}, Fields.{surface_text, levels_of, range_text, ranges_text}};

use crate::value::{Levels, Scaled};
use fd_bytes::NoMemory;
use fd_spelling::{none_text, part_text, push_part, step_text};
use fd_templates::{Product, Range};
use std::alloc::Global;

/// The value of a surface of this type, by its scale factor and its scaled value, if it has one.
#[tactic(auto, unfolding(crate::specs::Fields::surface_text))]
fn surface_of(surface: u8, factor: &Option<i32>, value: &Option<i32>) -> Option<Scaled>
    requires { IfSome factor.now (FitsOrMissing 1) }
    ensures text { option_map level_of result ≡ surface_text surface factor.now value.now }
    ensures short { IfSome result (λ s. length (level_of s) ≤ 300) }
{
    if surface == 255 {
        return None;
    }
    let Some(factor) = factor else {
        return None;
    };
    let Some(value) = value else {
        return None;
    };
    Some(Scaled {
        factor: *factor as i8,
        value: *value,
    })
}

/// The values of the surfaces of a product, if one of them has a value.
pub(crate) fn levels_of(product: &Product) -> Option<Levels>
    requires { Fits product.now }
    ensures text { option_map both_of result ≡ levels_of product.now }
    ensures short { IfSome result (λ l. length (both_of l) ≤ 700) }
{
    let first = surface_of(
        product.first_surface_type,
        &product.first_surface_factor,
        &product.first_surface_value,
    );
    let second = surface_of(
        product.second_surface_type,
        &product.second_surface_factor,
        &product.second_surface_value,
    );
    match (first, second) {
        (None, None) => None,
        (Some(v), None) => Some(Levels::First(v)),
        (None, Some(w)) => Some(Levels::Second(w)),
        (Some(v), Some(w)) => Some(Levels::Both(v, w)),
    }
}

/// The process of a time range, and its length.
fn range_text(alloc: Global, range: Range) -> Result<String, NoMemory>
    ensures text { IfOk result (λ s. string_bytes s ≡ range_text range) }
    ensures short { IfOk result (λ s. length (string_bytes s) ≤ 28) }
{
    let length = step_text(alloc, false, u64::from(range.length), range.unit)?;
    part_text(alloc, range.process, length.as_str())
}

/// The statistics over time ranges.
#[tactic(auto, using(crate::proofs::RangeTexts::some_ranges), unfolding(fd_spelling::specs::Stats::parts_text, crate::specs::Fields::ranges_text))]
pub(crate) fn ranges_text(alloc: Global, ranges: &[Range]) -> Result<String, NoMemory>
    ensures text { IfOk result (λ s. string_bytes s ≡ ranges_text ranges.now) }
    ensures short { IfOk result (λ s. length (string_bytes s) ≤ 4 + 29 * length ranges.now) }
{
    if ranges.is_empty() {
        return none_text(alloc);
    }
    let mut out = String::new(alloc);
    let mut first = true;
    for range in ranges {
        let part = range_text(alloc, *range)?;
        push_part(&mut out, first, part.as_str())?;
        first = false;
    }
    Ok(out)
}
