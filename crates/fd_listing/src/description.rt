ghost use Rattle.std.specs.Prelude.{◌≡◌, ◌≤◌, ◌++◌, [], length, IfOk, OnOk, OnErr, string_bytes};
ghost use Rattle.fd_sections.specs.Parts.{sections_of};
ghost use Rattle.fd_key.specs.Keys.{key_of};
ghost use Rattle.fd_io.specs.Streams.{Takes, TakesFront};
ghost use Rattle.fd_listing.specs.{Sinks.{HasSinkCause}, Describe.{ident_numbers, grid_numbers, formula_text, packing_text, template_line, message_line, ident_line, grid_line, packing_line, map_line, key_line, key_line_text, describe_text}};

use crate::fault::TextFault;
use crate::lines::write_text;
use crate::numbers::{plain, plain_if, push_named, push_numbers, signed, signed_if};
use crate::product::push_product;
use fd_bytes::{NoMemory, be_u64};
use fd_io::Sink;
use fd_key::{Given, KeyFault, key_of};
use fd_sections::Message;
use fd_templates::{Ident, LatLon, Simple, TemplateFault};
use std::alloc::Global;

/// The line of section 0.
fn push_message(out: &mut String, number: u64, indicator: &[u8]) -> Result<(), NoMemory>
    requires { length indicator.now ≡ 16 }
    ensures { OnOk result (string_bytes out.new ≡ string_bytes out.old ++ message_line number indicator.now) }
{
    let (_, total) = indicator.split_at(8);
    let length = be_u64(total);
    write!(out, "message {number} length {length}\n")?;
    Ok(())
}

/// The numbers of section 1.
#[tactic(auto, unfolding(crate::specs::Describe::ident_numbers))]
fn ident_numbers(ident: &Ident) -> [Option<i64>; 13]
    ensures { result ≡ ident_numbers ident.now }
{
    plain_all!(
        ident: centre, sub_centre, master_tables_version, local_tables_version, reference_time_significance,
        reference_time.year, reference_time.month, reference_time.day, reference_time.hour, reference_time.minute,
        reference_time.second, production_status, data_type
    )
}

/// The line of section 1.
fn push_ident(out: &mut String, message: &Message<'_>) -> Result<(), NoMemory>
    ensures { OnOk result (string_bytes out.new ≡ string_bytes out.old ++ ident_line (sections_of message.now).identification) }
{
    let ident = Ident::read(message);
    out.push_str("ident")?;
    push_numbers(out, &ident_numbers(&ident))?;
    out.push('\n')?;
    Ok(())
}

/// The line of a section whose template is not read.
fn push_unread(out: &mut String, name: &str, fault: TemplateFault) -> Result<(), NoMemory>
    ensures { OnOk result (string_bytes out.new ≡ string_bytes out.old ++ template_line name.now (Err fault)) }
{
    match fault {
        TemplateFault::Other(template) => write!(out, "{name} {template} unread\n")?,
        TemplateFault::BadLength { said: _ } => write!(out, "{name} 0 short\n")?,
    }
    Ok(())
}

/// The numbers of section 3.
#[tactic(auto, unfolding(crate::specs::Describe::grid_numbers))]
fn grid_numbers(grid: &LatLon) -> [Option<i64>; 20]
    ensures { result ≡ grid_numbers grid.now }
{
    [
        plain(grid.points),
        plain(u32::from(grid.earth_shape)),
        signed_if(grid.radius_factor),
        signed_if(grid.radius),
        signed_if(grid.major_axis_factor),
        signed_if(grid.major_axis),
        signed_if(grid.minor_axis_factor),
        signed_if(grid.minor_axis),
        plain(grid.ni),
        plain(grid.nj),
        plain(grid.basic_angle),
        plain_if(grid.subdivisions),
        signed(&grid.la1),
        signed(&grid.lo1),
        plain(u32::from(grid.resolution_flags)),
        signed(&grid.la2),
        signed(&grid.lo2),
        plain(grid.di),
        plain(grid.dj),
        plain(u32::from(grid.scanning_mode)),
    ]
}

/// The line of section 3.
fn push_grid(out: &mut String, message: &Message<'_>) -> Result<(), NoMemory>
    ensures { OnOk result (string_bytes out.new ≡ string_bytes out.old ++ grid_line (sections_of message.now).grid) }
{
    match LatLon::read(message) {
        Ok(grid) => {
            out.push_str("grid 0 points")?;
            push_numbers(out, &grid_numbers(&grid))?;
            out.push('\n')?;
            Ok(())
        }
        Err(fault) => push_unread(out, "grid", fault),
    }
}

/// What the values of section 7 are made of.
#[tactic(auto, unfolding(crate::specs::Describe::formula_text))]
fn push_formula(out: &mut String, simple: &Simple) -> Result<(), NoMemory>
    ensures { OnOk result (string_bytes out.new ≡ string_bytes out.old ++ formula_text simple.now) }
{
    push_named(out, "reference", plain(simple.reference))?;
    push_named(out, "binary", signed(&simple.binary_scale))?;
    push_named(out, "decimal", signed(&simple.decimal_scale))?;
    Ok(())
}

/// The numbers of section 5.
#[tactic(auto, unfolding(crate::specs::Describe::packing_text))]
fn push_simple(out: &mut String, simple: &Simple) -> Result<(), NoMemory>
    ensures { OnOk result (string_bytes out.new ≡ string_bytes out.old ++ packing_text simple.now) }
{
    push_named(out, "coded", plain(simple.coded))?;
    push_formula(out, simple)?;
    push_named(out, "bits", plain(u32::from(simple.bits)))?;
    push_named(out, "original", plain(u32::from(simple.original_type)))?;
    Ok(())
}

/// The line of section 5.
fn push_packing(out: &mut String, message: &Message<'_>) -> Result<(), NoMemory>
    ensures { OnOk result (string_bytes out.new ≡ string_bytes out.old ++ packing_line (sections_of message.now).representation) }
{
    match Simple::read(message) {
        Ok(simple) => {
            out.push_str("packing 0")?;
            push_simple(out, &simple)?;
            out.push('\n')?;
            Ok(())
        }
        Err(fault) => push_unread(out, "packing", fault),
    }
}

/// The line of section 6.
fn push_map(out: &mut String, bit_map: &[u8]) -> Result<(), NoMemory>
    requires { 6 ≤ length bit_map.now }
    ensures { OnOk result (string_bytes out.new ≡ string_bytes out.old ++ map_line bit_map.now) }
{
    let indicator = bit_map[5];
    write!(out, "map {indicator}\n")?;
    Ok(())
}

/// The key, or why there is none.
fn push_key_text(alloc: Global, out: &mut String, message: &Message<'_>) -> Result<(), NoMemory>
    ensures { OnOk result (string_bytes out.new ≡ string_bytes out.old ++ key_line_text (key_of (sections_of message.now) [])) }
{
    let given = Given::none(alloc)?;
    match key_of(alloc, message, &given) {
        Ok(key) => {
            let text = key.text(alloc)?;
            out.push_str(text.as_str())?;
            Ok(())
        }
        Err(KeyFault::NoMemory) => Err(NoMemory),
        Err(fault) => {
            write!(out, "refused {fault}")?;
            Ok(())
        }
    }
}

/// The line of the key.
fn push_key(alloc: Global, out: &mut String, message: &Message<'_>) -> Result<(), NoMemory>
    ensures { OnOk result (string_bytes out.new ≡ string_bytes out.old ++ key_line (sections_of message.now)) }
{
    out.push_str("key ")?;
    push_key_text(alloc, out, message)?;
    out.push('\n')?;
    Ok(())
}

/// The lines of a message.
#[tactic(auto, unfolding(crate::specs::Describe::describe_text))]
fn description(alloc: Global, number: u64, message: &Message<'_>) -> Result<String, NoMemory>
    ensures { IfOk result (λ t. string_bytes t ≡ describe_text number (sections_of message.now)) }
{
    let mut out = String::new(alloc);
    push_message(&mut out, number, message.indicator)?;
    push_ident(&mut out, message)?;
    push_grid(&mut out, message)?;
    push_product(alloc, &mut out, message)?;
    push_packing(&mut out, message)?;
    push_map(&mut out, message.bit_map)?;
    push_key(alloc, &mut out, message)?;
    Ok(out)
}

/// Writes what a message holds, in seven lines: its number and its length, the numbers of sections 1, 3, 4 and 5, the bit
/// map indicator of section 6, and its key. A number that is missing is written as `-`. A section with a template that
/// isn't known has `unread` in place of its numbers, one that is shorter than its template `short`, and a message without
/// a key the cause of that.
///
/// `Write` comes where a write failed, after which a front of the lines was taken.
pub fn describe<X, K: Sink<X>>(
    alloc: Global,
    number: u64,
    message: &Message<'_>,
    sink: &mut K,
) -> Result<(), TextFault<X>>
    ensures took { OnOk result (Takes (K.taken sink.old) (K.taken sink.new) (describe_text number (sections_of message.now))) }
    ensures front { OnErr result (TakesFront (K.taken sink.old) (K.taken sink.new) (describe_text number (sections_of message.now))) }
    ensures count { K.faults sink.old ≤ K.faults sink.new }
    ensures cause { HasSinkCause result (K.faults sink.old) (K.faults sink.new) }
{
    match description(alloc, number, message) {
        Ok(text) => write_text(sink, text.as_str()),
        Err(NoMemory) => Err(TextFault::NoMemory),
    }
}
