ghost use Rattle.std.specs.{Prelude.{◌≡◌, ◌-◌, ◌*◌, ◌<◌, ◌≤◌, ◌^◌, length, IfOk, IfSome, unsigned_abs}, Option.{option_copied}};
ghost use Rattle.fd_bytes.specs.Numbers.{octets};
ghost use Rattle.fd_sections.specs.{Given.{Is}, Parts.{sections_of}};
ghost use Rattle.fd_templates.specs.Simple.{Fits};
ghost use Rattle.fd_packing.specs.{Value.{NeedIs, IsNarrow, first_addend, second_addend}, Field.{scaling_of, map_of, octets_at, field_of, octets_for}, Parts.{packed_of, IsSound}};

use crate::fault::FieldFault;
use crate::ieee::{Reference, reference_of};
use crate::map::place_of;
use crate::parts::Parts;
use crate::value::{common_power, distance};
use crate::width::need;
use fd_bytes::be_u32;
use fd_sections::Message;
use fd_templates::Simple;

/// The greatest number of so many bits.
#[tactic(auto, using(std::proofs::lemmas::Nat::one_shl))]
fn greatest(width: u32) -> u64
    requires { width ≤ 64 }
    ensures { result ≡ 2 ^ width - 1 }
{
    if width < 64 {
        (1 << width) - 1
    } else {
        u64::MAX
    }
}

/// The digits of the larger addend, where the sum of both is too wide.
fn need_of(r: &Reference, e: &i32, width: u32) -> Option<u32>
    requires m { r.now.m < 2 ^ 24 }
    requires k { unsigned_abs r.now.k < 2 ^ 8 }
    requires e { unsigned_abs e.now < 2 ^ 15 }
    requires width { width ≤ 64 }
    ensures { NeedIs (first_addend r.now e.now width) (second_addend r.now e.now width) result }
{
    let two = common_power(r, e, width);
    need(
        r.m as u64,
        distance(&r.k, &two),
        greatest(width),
        distance(e, &two),
    )
}

/// The number of points in section 3.
fn points_of(grid: &[u8]) -> u64
    requires { 14 ≤ length grid.now }
    ensures number { result ≡ octets 7 10 grid.now }
    ensures few { result < 2 ^ 32 }
{
    let (front, _) = grid.split_at(10);
    let (_, back) = front.split_at(6);
    be_u32(back)
}

/// How many octets hold so many bits.
fn octets_for(bits: u64) -> u64
    requires { bits < 2 ^ 60 }
    ensures { result ≡ octets_for bits }
{
    (bits + 7) / 8
}

/// The octets of the bit map, if there is one.
#[tactic(auto, unfolding(crate::specs::Field::map_of))]
fn map_of(section: &[u8], points: u64) -> Result<Option<&[u8]>, FieldFault>
    requires header { 6 ≤ length section.now }
    requires few { points < 2 ^ 32 }
    ensures read { Is option_copied result (map_of section.now points) }
    ensures long { IfOk result (λ map. IfSome (option_copied map) (λ bytes. points ≤ 8 * length bytes)) }
{
    let indicator = section[5];
    if indicator == 255 {
        return Ok(None);
    }
    if indicator != 0 {
        return Err(FieldFault::BitMap(indicator));
    }
    let found = section.len() as u64;
    let need = 6 + octets_for(points);
    if found < need {
        return Err(FieldFault::MapShort { need, found });
    }
    let (_, bytes) = section.split_at(6);
    Ok(Some(bytes))
}

/// The packed octets.
#[tactic(auto, unfolding(crate::specs::Field::octets_at))]
fn octets_at(section: &[u8], coded: u32, width: u32, there: u64) -> Result<&[u8], FieldFault>
    requires header { 5 ≤ length section.now }
    requires narrow { width ≤ 64 }
    ensures read { Is (λ x. x.now) result (octets_at section.now coded width there) }
    ensures long { IfOk result (λ x. there * width ≤ 8 * length x.now) }
{
    let said = coded as u64;
    if width != 0 && said != there {
        return Err(FieldFault::Count { said, found: there });
    }
    let (_, octets) = section.split_at(5);
    let found = octets.len() as u64;
    let need = octets_for(said * width as u64);
    if found < need {
        return Err(FieldFault::PackedShort { need, found });
    }
    Ok(octets)
}

/// The reference value, where its sums with packed numbers are narrow enough.
#[tactic(auto, unfolding(crate::specs::Field::scaling_of))]
fn scaling_of(simple: &Simple) -> Result<Reference, FieldFault>
    requires { Fits simple.now }
    ensures read { result ≡ scaling_of simple.now }
    ensures narrow { IfOk result (λ r. IsNarrow r simple.now.binary_scale simple.now.bits) }
{
    if simple.bits > 64 {
        return Err(FieldFault::Bits(simple.bits));
    }
    let Some(reference) = reference_of(simple.reference) else {
        return Err(FieldFault::ReferenceNotFinite(simple.reference));
    };
    match need_of(&reference, &simple.binary_scale, simple.bits as u32) {
        Some(need) => Err(FieldFault::TooWide { need }),
        None => Ok(reference),
    }
}

/// What is kept of a message's field.
#[tactic(auto, unfolding(crate::specs::Field::field_of))]
pub fn read_parts<'a>(message: &Message<'a>) -> Result<Parts<'a>, FieldFault>
    ensures read { Is packed_of result (field_of (sections_of message.now)) }
    ensures sound { IfOk result IsSound }
{
    let simple = Simple::read(message)?;
    let reference = scaling_of(&simple)?;
    let points = points_of(message.grid);
    let map = map_of(message.bit_map, points)?;
    let width = simple.bits as u32;
    let there = place_of(map, points, points);
    let octets = octets_at(message.values, simple.coded, width, there)?;
    Ok(Parts {
        reference,
        binary_scale: simple.binary_scale,
        decimal_scale: simple.decimal_scale,
        width,
        map,
        octets,
        points,
    })
}
