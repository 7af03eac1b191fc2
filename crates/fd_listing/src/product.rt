// The line of section 4.
ghost use Rattle.std.specs.Prelude.{◌≡◌, ◌++◌, OnOk, string_bytes};
ghost use Rattle.fd_sections.specs.Parts.{sections_of};
ghost use Rattle.fd_listing.specs.Products.{product_numbers, ensemble_numbers, ensemble_text, end_numbers, range_numbers, ranges_text, interval_text, any_text, product_line};

use crate::numbers::{plain, push_numbers, signed, signed_if};
use fd_bytes::NoMemory;
use fd_sections::Message;
use fd_templates::{
    AnyFault, AnyProduct, Ensemble, Interval, Product, Range, TemplateFault, product_template,
};
use std::alloc::Global;

/// The numbers of template 4.0.
#[tactic(auto, unfolding(crate::specs::Products::product_numbers))]
fn product_numbers(product: &Product) -> [Option<i64>; 15]
    ensures { result ≡ product_numbers product.now }
{
    [
        plain(u32::from(product.category)),
        plain(u32::from(product.parameter)),
        plain(u32::from(product.generating_process_type)),
        plain(u32::from(product.background_process)),
        plain(u32::from(product.process_identifier)),
        plain(u32::from(product.cutoff_hours)),
        plain(u32::from(product.cutoff_minutes)),
        plain(u32::from(product.time_unit)),
        signed(&product.forecast_time),
        plain(u32::from(product.first_surface_type)),
        signed_if(product.first_surface_factor),
        signed_if(product.first_surface_value),
        plain(u32::from(product.second_surface_type)),
        signed_if(product.second_surface_factor),
        signed_if(product.second_surface_value),
    ]
}

/// The numbers of an ensemble member.
#[tactic(auto, unfolding(crate::specs::Products::ensemble_numbers))]
fn ensemble_numbers(ensemble: &Ensemble) -> [Option<i64>; 3]
    ensures { result ≡ ensemble_numbers ensemble.now }
{
    plain_all!(ensemble: kind, number, size)
}

/// Appends the numbers of an ensemble member, if there are any.
fn push_ensemble(out: &mut String, ensemble: &Option<Ensemble>) -> Result<(), NoMemory>
    ensures { OnOk result (string_bytes out.new ≡ string_bytes out.old ++ ensemble_text ensemble.now) }
{
    match ensemble {
        Some(ensemble) => push_numbers(out, &ensemble_numbers(ensemble)),
        None => Ok(()),
    }
}

/// The numbers of an interval before its ranges.
#[tactic(auto, unfolding(crate::specs::Products::end_numbers))]
fn end_numbers(interval: &Interval) -> [Option<i64>; 8]
    ensures { result ≡ end_numbers interval.now }
{
    let count = interval.ranges.as_slice().len() as u32;
    [
        plain(u32::from(interval.end.year)),
        plain(u32::from(interval.end.month)),
        plain(u32::from(interval.end.day)),
        plain(u32::from(interval.end.hour)),
        plain(u32::from(interval.end.minute)),
        plain(u32::from(interval.end.second)),
        plain(count),
        plain(interval.missing),
    ]
}

/// The numbers of a time range.
#[tactic(auto, unfolding(crate::specs::Products::range_numbers))]
fn range_numbers(range: &Range) -> [Option<i64>; 6]
    ensures { result ≡ range_numbers range.now }
{
    [
        plain(u32::from(range.process)),
        plain(u32::from(range.increment_kind)),
        plain(u32::from(range.unit)),
        plain(range.length),
        plain(u32::from(range.increment_unit)),
        plain(range.increment),
    ]
}

/// Appends the numbers of time ranges.
#[tactic(auto, unfolding(crate::specs::Products::ranges_text))]
fn push_ranges(out: &mut String, ranges: &[Range]) -> Result<(), NoMemory>
    ensures { OnOk result (string_bytes out.new ≡ string_bytes out.old ++ ranges_text ranges.now) }
{
    for range in ranges {
        push_numbers(out, &range_numbers(range))?;
    }
    Ok(())
}

/// Appends the numbers of an interval, if there is one.
fn push_interval(out: &mut String, interval: &Option<Interval>) -> Result<(), NoMemory>
    ensures { OnOk result (string_bytes out.new ≡ string_bytes out.old ++ interval_text interval.now) }
{
    match interval {
        Some(interval) => {
            push_numbers(out, &end_numbers(interval))?;
            push_ranges(out, interval.ranges.as_slice())
        }
        None => Ok(()),
    }
}

/// Appends the numbers of section 4.
#[tactic(auto, unfolding(crate::specs::Products::any_text))]
fn push_any(out: &mut String, product: &AnyProduct) -> Result<(), NoMemory>
    ensures { OnOk result (string_bytes out.new ≡ string_bytes out.old ++ any_text product.now) }
{
    push_numbers(out, &product_numbers(&product.base))?;
    push_ensemble(out, &product.ensemble)?;
    push_interval(out, &product.interval)
}

/// The line of section 4.
#[tactic(auto, unfolding(crate::specs::Products::product_line))]
pub(crate) fn push_product(
    alloc: Global,
    out: &mut String,
    message: &Message<'_>,
) -> Result<(), NoMemory>
    ensures { OnOk result (string_bytes out.new ≡ string_bytes out.old ++ product_line (sections_of message.now).product) }
{
    let template = product_template(message);
    match AnyProduct::read(alloc, message) {
        Ok(product) => {
            write!(out, "product {template}")?;
            push_any(out, &product)?;
            out.push('\n')?;
            Ok(())
        }
        Err(AnyFault::Template(TemplateFault::Other(other))) => {
            write!(out, "product {other} unread\n")?;
            Ok(())
        }
        Err(AnyFault::Template(TemplateFault::BadLength { said: _ })) => {
            write!(out, "product {template} short\n")?;
            Ok(())
        }
        Err(AnyFault::NoMemory) => Err(NoMemory),
    }
}
