ghost use Rattle.std.specs.Prelude.{◌≡◌, ◌++◌, OnOk, OnErr, IfOk, Ok};
ghost use Rattle.fd_sections.specs.{Message.{IsSection}, Parts.{sections_of}};
ghost use Rattle.fd_templates.specs.Simple.{simple_is, simple_octets, header_octets, packing_octets, Fits};

use crate::fault::TemplateFault;
use crate::octets::{i16_octets, read_i16, read_u8, read_u32};
use crate::whole::check_whole;
use fd_bytes::NoMemory;
use fd_sections::Message;

/// The numbers of section 5 with template 5.0, simple packing. The reference value is given by its octets, an IEEE 754
/// single.
#[derive(Clone, Copy, Debug, PartialEq, Eq)]
pub struct Simple {
    /// The number of values that are packed (octets 6-9).
    pub coded: u32,
    /// The octets of the reference value R, an IEEE 754 single.
    pub reference: u32,
    /// E: a packed number counts 2^E.
    pub binary_scale: i32,
    /// D: the sum is the value times 10^D.
    pub decimal_scale: i32,
    /// How many bits each packed number has.
    pub bits: u8,
    /// Code table 5.1.
    pub original_type: u8,
}

impl Simple {
    /// The numbers of a message's section 5. `Other` comes exactly where the template isn't 0, and else `BadLength`
    /// exactly where the section has fewer than 21 octets. What follows these is not read. They fit their octets.
    #[tactic(auto, using(crate::proofs::WholeLaws::whole_simple))]
    pub fn read(message: &Message) -> Result<Simple, TemplateFault>
        ensures numbers { result ≡ simple_is (sections_of message.now).representation }
        ensures fits { IfOk result Fits }
    {
        let section = message.representation;
        check_whole(section, 10, 21)?;
        Ok(Simple {
            coded: read_u32(section, 6),
            reference: read_u32(section, 12),
            binary_scale: read_i16(section, 16),
            decimal_scale: read_i16(section, 18),
            bits: read_u8(section, 20),
            original_type: read_u8(section, 21),
        })
    }

    /// Appends a section 5 of 21 octets, that reads as these numbers. After `NoMemory` nothing has changed.
    pub fn write(&self, out: &mut Vec<u8>) -> Result<(), NoMemory>
        requires { Fits self.now }
        ensures ok { OnOk result (out.new.items ≡ out.old.items ++ simple_octets self.now) }
        ensures err { OnErr result (out.new.items ≡ out.old.items) }
        ensures section { IsSection 5 21 (simple_octets self.now) }
        ensures again { simple_is (simple_octets self.now) ≡ Ok self.now }
    {
        reads_again(*self);
        out.extend_from_slice(&section(*self))?;
        Ok(())
    }
}

/// What stands before the template.
fn header(simple: Simple) -> [u8; 11]
    ensures { result ≡ header_octets simple }
{
    let coded = simple.coded.to_be_bytes();
    [0, 0, 0, 21, 5, coded[0], coded[1], coded[2], coded[3], 0, 0]
}

/// The template.
fn packing(simple: Simple) -> [u8; 10]
    requires { Fits simple }
    ensures { result ≡ packing_octets simple }
{
    let reference = simple.reference.to_be_bytes();
    let binary = i16_octets(&simple.binary_scale);
    let decimal = i16_octets(&simple.decimal_scale);
    [
        reference[0],
        reference[1],
        reference[2],
        reference[3],
        binary[0],
        binary[1],
        decimal[0],
        decimal[1],
        simple.bits,
        simple.original_type,
    ]
}

/// The section with these numbers.
fn section(simple: Simple) -> [u8; 21]
    requires { Fits simple }
    ensures { result ≡ simple_octets simple }
{
    let mut section = [0; 21];
    section[..11].copy_from_slice(&header(simple));
    section[11..].copy_from_slice(&packing(simple));
    section
}

/// The section that is written for these numbers has these numbers.
fn reads_again(simple: Simple)
    requires { Fits simple }
    ensures section { IsSection 5 21 (simple_octets simple) }
    ensures again { simple_is (simple_octets simple) ≡ Ok simple }
{}
