ghost use Rattle.std.specs.Prelude.{◌≡◌, ◌≤◌, ◌+◌, ◌++◌, length, IfOk, OnOk, OnErr, Ok};
ghost use Rattle.fd_sections.specs.{Message.{IsSection}, Parts.{sections_of}};
ghost use Rattle.fd_templates.specs.{Product.{Fits, process_octets, time_octets, surface_octets}, Widths.{ProductRanges, AnyRanges}, Ensemble.{ensemble_octets}, Interval.{interval_octets}, AnyProduct.{template_in, has_ensemble, has_interval, is_known, front_of, tail_of, interval_least, least_of, any_product_is, any_product_of, GivesAny, template_of, added_octets, header_octets, any_octets, Extends}};

use crate::ensemble::{Ensemble, ensemble_if, ensemble_in_range, push_ensemble};
use crate::fault::{AnyFault, TemplateFault};
use crate::interval::{Interval, count_of, interval_if, interval_in_range, push_interval};
use crate::octets::read_u16;
use crate::product::{Product, numbers, process, surfaces, time};
use fd_bytes::NoMemory;
use fd_sections::Message;
use std::alloc::Global;

/// The numbers of section 4 with template 4.0, 4.1, 4.8 or 4.11, by which of the ensemble and the interval are there.
#[derive(Debug, Drop)]
pub struct AnyProduct {
    /// The numbers of template 4.0, which each of these has.
    pub base: Product,
    /// Templates 4.1 and 4.11: of which forecast of an ensemble.
    pub ensemble: Option<Ensemble>,
    /// Templates 4.8 and 4.11: over which interval of time.
    pub interval: Option<Interval>,
}

/// The number of the template of a message's section 4.
pub fn product_template(message: &Message) -> u16
    ensures { result ≡ template_in (sections_of message.now).product }
{
    read_u16(message.product, 8)
}

impl AnyProduct {
    /// The numbers of a message's section 4. `Template` has `Other` exactly where the template is none of 0, 1, 8 and 11, and
    /// else `BadLength` exactly where the section has fewer than 34, 37, 46 + 12n or 49 + 12n octets, with n ranges, also where it
    /// lacks the octet that says n. What follows these is not read. They fit their octets.
    pub fn read(alloc: Global, message: &Message) -> Result<AnyProduct, AnyFault>
        ensures numbers { GivesAny result (any_product_is (sections_of message.now).product) }
        ensures fits { IfOk result (λ p. Fits p.base) }
    {
        read_section(alloc, message.product)
    }

    /// The number of the template: 0, 1, 8 or 11.
    pub fn template(&self) -> u16
        ensures { result ≡ template_of self.now }
    {
        match (self.ensemble.is_some(), self.interval.is_some()) {
            (false, false) => 0,
            (true, false) => 1,
            (false, true) => 8,
            (true, true) => 11,
        }
    }

    /// Appends a section 4 of 34, 37, 46 + 12n or 49 + 12n octets, with n ranges, of which these numbers are read again. The
    /// coordinate values themselves are not written. After `NoMemory` nothing has changed.
    #[tactic(auto, using(crate::proofs::Growing::cut_back))]
    pub fn write(&self, out: &mut Vec<u8>) -> Result<(), NoMemory>
        requires { Fits self.now.base }
        ensures ok { OnOk result (out.new.items ≡ out.old.items ++ any_octets self.now) }
        ensures err { OnErr result (out.new.items ≡ out.old.items) }
        ensures section { IsSection 4 (34 + length (added_octets self.now)) (any_octets self.now) }
        ensures again { any_product_is (any_octets self.now) ≡ Ok self.now }
    {
        self.reads_again();
        let before = out.len();
        match self.append(out) {
            Ok(()) => Ok(()),
            Err(fault) => {
                out.truncate(before);
                Err(fault)
            }
        }
    }

    /// Appends the section, or a front of it.
    #[tactic(auto, using(crate::proofs::Growing::extends_same, crate::proofs::Growing::extends_by, crate::proofs::Growing::extends_both), unfolding(crate::specs::AnyProduct::any_octets))]
    fn append(&self, out: &mut Vec<u8>) -> Result<(), NoMemory>
        requires { Fits self.now.base }
        ensures ok { OnOk result (out.new.items ≡ out.old.items ++ any_octets self.now) }
        ensures err { OnErr result (Extends out.old.items out.new.items) }
    {
        out.extend_from_slice(&self.front())?;
        push_ensemble(out, &self.ensemble)?;
        push_interval(out, &self.interval)
    }

    /// How many octets stand behind those of 4.0.
    fn added(&self) -> u32
        ensures length { result ≡ length (added_octets self.now) }
        ensures few { result ≤ 3075 }
    {
        ensemble_length(&self.ensemble) + interval_length(&self.interval)
    }

    /// What stands before the template.
    fn header(&self) -> [u8; 9]
        ensures { result ≡ header_octets self.now }
    {
        let length = (34 + self.added()).to_be_bytes();
        let coordinates = self.base.coordinates.to_be_bytes();
        let template = self.template().to_be_bytes();
        [
            length[0],
            length[1],
            length[2],
            length[3],
            4,
            coordinates[0],
            coordinates[1],
            template[0],
            template[1],
        ]
    }

    /// The section up to the numbers of 4.0.
    #[tactic(auto, unfolding(crate::specs::Octets::octets_of, crate::specs::Octets::signed_octets, crate::specs::Octets::signed_or_ones, crate::specs::AnyProduct::header_octets, crate::specs::Product::process_octets, crate::specs::Product::time_octets, crate::specs::Product::surface_octets))]
    fn front(&self) -> [u8; 34]
        requires { Fits self.now.base }
        ensures { result ≡ header_octets self.now ++ process_octets self.now.base ++ time_octets self.now.base ++ surface_octets self.now.base }
    {
        let mut front = [0; 34];
        front[..9].copy_from_slice(&self.header());
        front[9..14].copy_from_slice(&process(self.base));
        front[14..22].copy_from_slice(&time(self.base));
        front[22..].copy_from_slice(&surfaces(self.base));
        front
    }

    /// Each number is in the range of its type.
    fn in_range(&self)
        ensures { AnyRanges self.now }
    {
        base_in_range(self.base);
        ensemble_in_range(&self.ensemble);
        interval_in_range(&self.interval);
    }

    /// The section that is written for these numbers has these numbers.
    fn reads_again(&self)
        requires { Fits self.now.base }
        ensures section { IsSection 4 (34 + length (added_octets self.now)) (any_octets self.now) }
        ensures again { any_product_is (any_octets self.now) ≡ Ok self.now }
    {
        self.in_range();
    }
}

fn has_ensemble(template: u16) -> bool
    ensures { result ≡ has_ensemble template }
{
    template == 1 || template == 11
}

fn has_interval(template: u16) -> bool
    ensures { result ≡ has_interval template }
{
    template == 8 || template == 11
}

/// Tells that the template is one of those that are read.
fn is_known(template: u16) -> bool
    ensures { result ≡ is_known template }
{
    template == 0 || has_ensemble(template) || template == 8
}

/// How many octets stand before the interval.
fn front_of(template: u16) -> usize
    ensures length { result ≡ front_of template }
    ensures few { result ≤ 37 }
{
    if has_ensemble(template) { 37 } else { 34 }
}

/// The octets of the interval.
fn tail_of(template: u16, section: &[u8]) -> &[u8]
    ensures { result.now ≡ tail_of template section.now }
{
    let front = front_of(template);
    if front < section.len() {
        let (_, tail) = section.split_at(front);
        tail
    } else {
        b""
    }
}

/// How many octets the interval has at least.
fn interval_least(template: u16, tail: &[u8]) -> usize
    ensures length { result ≡ interval_least template tail.now }
    ensures few { result ≤ 3072 }
{
    if has_interval(template) {
        12 + 12 * usize::from(count_of(tail))
    } else {
        0
    }
}

#[tactic(auto, unfolding(crate::specs::AnyProduct::any_product_is))]
fn read_section(alloc: Global, section: &[u8]) -> Result<AnyProduct, AnyFault>
    requires { 9 ≤ length section.now }
    ensures numbers { GivesAny result (any_product_is section.now) }
    ensures fits { IfOk result (λ p. Fits p.base) }
{
    let template = read_u16(section, 8);
    if !is_known(template) {
        return Err(AnyFault::Template(TemplateFault::Other(template)));
    }
    let tail = tail_of(template, section);
    if section.len() < front_of(template) + interval_least(template, tail) {
        return Err(AnyFault::Template(TemplateFault::BadLength {
            said: section.len() as u64,
        }));
    }
    Ok(any_numbers(alloc, template, section, tail)?)
}

/// The numbers of a section that is long enough.
fn any_numbers(
    alloc: Global,
    template: u16,
    section: &[u8],
    tail: &[u8],
) -> Result<AnyProduct, NoMemory>
    requires tail { tail.now ≡ tail_of template section.now }
    requires long { least_of template section.now ≤ length section.now }
    ensures numbers { IfOk result (λ p. p ≡ any_product_of template section.now) }
    ensures fits { IfOk result (λ p. Fits p.base) }
{
    let interval = interval_if(alloc, has_interval(template), tail)?;
    Ok(AnyProduct {
        base: numbers(section),
        ensemble: ensemble_if(has_ensemble(template), section),
        interval,
    })
}

/// How many octets an ensemble member has.
fn ensemble_length(ensemble: &Option<Ensemble>) -> u32
    ensures length { result ≡ length (ensemble_octets ensemble.now) }
    ensures few { result ≤ 3 }
{
    match ensemble {
        Some(_) => 3,
        None => 0,
    }
}

/// How many octets an interval has.
fn interval_length(interval: &Option<Interval>) -> u32
    ensures length { result ≡ length (interval_octets interval.now) }
    ensures few { result ≤ 3072 }
{
    match interval {
        Some(interval) => 12 + 12 * interval.ranges.as_slice().len() as u32,
        None => 0,
    }
}

/// Each number of template 4.0 is in the range of its type.
fn base_in_range(product: Product)
    ensures { ProductRanges product }
{}
