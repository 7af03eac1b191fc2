ghost use Rattle.std.specs.Prelude.{◌≡◌, ◌≤◌, ◌++◌, length, OnOk, OnErr, IfOk, Ok};
ghost use Rattle.fd_sections.specs.{Message.{IsSection}, Parts.{sections_of}};
ghost use Rattle.fd_templates.specs.Product.{product_is, product_of, product_octets, process_octets, time_octets, surface_octets, Fits};

use crate::any_product::AnyProduct;
use crate::fault::TemplateFault;
use crate::octets::{
    i8_or_ones, i32_octets, i32_or_ones, read_i8_or_missing, read_i32, read_i32_or_missing,
    read_u8, read_u16,
};
use crate::whole::check_whole;
use fd_bytes::NoMemory;
use fd_sections::Message;

/// The numbers of section 4 with template 4.0: which quantity, when, and at which surfaces. The value of a surface is
/// its scaled value times 10^(-factor), in the unit of its type.
#[derive(Clone, Copy, Debug, PartialEq, Eq)]
pub struct Product {
    /// The number of coordinate values after the template (octets 6-7).
    pub coordinates: u16,
    /// The quantity, by code tables 4.1 and 4.2 of the discipline.
    pub category: u8,
    pub parameter: u8,
    /// Code table 4.3.
    pub generating_process_type: u8,
    pub background_process: u8,
    pub process_identifier: u8,
    /// How long after the reference time data were still taken in.
    pub cutoff_hours: u16,
    pub cutoff_minutes: u8,
    /// Code table 4.4: what the forecast time counts.
    pub time_unit: u8,
    /// From the reference time on.
    pub forecast_time: i32,
    /// Code table 4.5.
    pub first_surface_type: u8,
    pub first_surface_factor: Option<i32>,
    pub first_surface_value: Option<i32>,
    /// 255 where there is one surface.
    pub second_surface_type: u8,
    pub second_surface_factor: Option<i32>,
    pub second_surface_value: Option<i32>,
}

impl Product {
    /// The numbers of a message's section 4. `Other` comes exactly where the template isn't 0, and else `BadLength`
    /// exactly where the section has fewer than 34 octets. What follows these is not read. They fit their octets.
    #[tactic(auto, using(crate::proofs::WholeLaws::whole_product))]
    pub fn read(message: &Message) -> Result<Product, TemplateFault>
        ensures numbers { result ≡ product_is (sections_of message.now).product }
        ensures fits { IfOk result Fits }
    {
        let section = message.product;
        check_whole(section, 8, 34)?;
        Ok(numbers(section))
    }

    /// Appends a section 4 of 34 octets, without coordinate values, that reads as these numbers. After `NoMemory` nothing has changed.
    pub fn write(&self, out: &mut Vec<u8>) -> Result<(), NoMemory>
        requires { Fits self.now }
        ensures ok { OnOk result (out.new.items ≡ out.old.items ++ product_octets self.now) }
        ensures err { OnErr result (out.new.items ≡ out.old.items) }
        ensures section { IsSection 4 34 (product_octets self.now) }
        ensures again { product_is (product_octets self.now) ≡ Ok self.now }
    {
        let alone = AnyProduct {
            base: *self,
            ensemble: None,
            interval: None,
        };
        reads_again(*self);
        alone.write(out)
    }
}

pub(crate) fn numbers(section: &[u8]) -> Product
    requires { 34 ≤ length section.now }
    ensures numbers { result ≡ product_of section.now }
    ensures fits { Fits result }
{
    Product {
        coordinates: read_u16(section, 6),
        category: read_u8(section, 10),
        parameter: read_u8(section, 11),
        generating_process_type: read_u8(section, 12),
        background_process: read_u8(section, 13),
        process_identifier: read_u8(section, 14),
        cutoff_hours: read_u16(section, 15),
        cutoff_minutes: read_u8(section, 17),
        time_unit: read_u8(section, 18),
        forecast_time: read_i32(section, 19),
        first_surface_type: read_u8(section, 23),
        first_surface_factor: read_i8_or_missing(section, 24),
        first_surface_value: read_i32_or_missing(section, 25),
        second_surface_type: read_u8(section, 29),
        second_surface_factor: read_i8_or_missing(section, 30),
        second_surface_value: read_i32_or_missing(section, 31),
    }
}

/// The quantity, and what made it.
pub(crate) fn process(product: Product) -> [u8; 5]
    ensures { result ≡ process_octets product }
{
    [
        product.category,
        product.parameter,
        product.generating_process_type,
        product.background_process,
        product.process_identifier,
    ]
}

/// The cutoff and the forecast time.
pub(crate) fn time(product: Product) -> [u8; 8]
    requires { Fits product }
    ensures { result ≡ time_octets product }
{
    let hours = product.cutoff_hours.to_be_bytes();
    let forecast = i32_octets(&product.forecast_time);
    [
        hours[0],
        hours[1],
        product.cutoff_minutes,
        product.time_unit,
        forecast[0],
        forecast[1],
        forecast[2],
        forecast[3],
    ]
}

/// Both surfaces.
pub(crate) fn surfaces(product: Product) -> [u8; 12]
    requires { Fits product }
    ensures { result ≡ surface_octets product }
{
    let first_factor = i8_or_ones(&product.first_surface_factor);
    let first = i32_or_ones(&product.first_surface_value);
    let second_factor = i8_or_ones(&product.second_surface_factor);
    let second = i32_or_ones(&product.second_surface_value);
    [
        product.first_surface_type,
        first_factor[0],
        first[0],
        first[1],
        first[2],
        first[3],
        product.second_surface_type,
        second_factor[0],
        second[0],
        second[1],
        second[2],
        second[3],
    ]
}

/// The section that is written for these numbers has these numbers.
fn reads_again(product: Product)
    requires { Fits product }
    ensures section { IsSection 4 34 (product_octets product) }
    ensures again { product_is (product_octets product) ≡ Ok product }
{}
