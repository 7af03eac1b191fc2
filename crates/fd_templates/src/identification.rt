ghost use Rattle.std.specs.Prelude.{◌≡◌, ◌≤◌, ◌++◌, length, OnOk, OnErr};
ghost use Rattle.fd_sections.specs.{Message.{IsSection}, Parts.{sections_of}};
ghost use Rattle.fd_templates.specs.Identification.{identification_of, identification_octets, origin_octets};

use crate::date_time::{DateTime, date_time_octets, date_time_of};
use crate::octets::{read_u8, read_u16};
use fd_bytes::NoMemory;
use fd_sections::Message;

/// The numbers of section 1: where a message comes from, and the time that its forecast starts from.
#[derive(Clone, Copy, Debug, PartialEq, Eq)]
pub struct Ident {
    /// Who made the message, by common code table C-11.
    pub centre: u16,
    pub sub_centre: u16,
    /// Which versions of the code tables hold.
    pub master_tables_version: u8,
    pub local_tables_version: u8,
    /// Code table 1.2: what the reference time is.
    pub reference_time_significance: u8,
    pub reference_time: DateTime,
    /// Code table 1.3.
    pub production_status: u8,
    /// Code table 1.4: analysis, forecast, and so on.
    pub data_type: u8,
}

impl Ident {
    /// The numbers of a message's section 1, which every message has.
    pub fn read(message: &Message) -> Ident
        ensures { result ≡ identification_of (sections_of message.now).identification }
    {
        numbers(message.identification)
    }

    /// Appends a section 1 of 21 octets, that reads as these numbers. After `NoMemory` nothing has changed.
    pub fn write(&self, out: &mut Vec<u8>) -> Result<(), NoMemory>
        ensures ok { OnOk result (out.new.items ≡ out.old.items ++ identification_octets self.now) }
        ensures err { OnErr result (out.new.items ≡ out.old.items) }
        ensures section { IsSection 1 21 (identification_octets self.now) }
        ensures again { identification_of (identification_octets self.now) ≡ self.now }
    {
        reads_again(*self);
        out.extend_from_slice(&section(*self))?;
        Ok(())
    }
}

fn numbers(section: &[u8]) -> Ident
    requires { 21 ≤ length section.now }
    ensures { result ≡ identification_of section.now }
{
    Ident {
        centre: read_u16(section, 6),
        sub_centre: read_u16(section, 8),
        master_tables_version: read_u8(section, 10),
        local_tables_version: read_u8(section, 11),
        reference_time_significance: read_u8(section, 12),
        reference_time: date_time_of(section, 13),
        production_status: read_u8(section, 20),
        data_type: read_u8(section, 21),
    }
}

/// Where the message comes from.
fn origin(ident: Ident) -> [u8; 7]
    ensures { result ≡ origin_octets ident }
{
    let centre = ident.centre.to_be_bytes();
    let sub_centre = ident.sub_centre.to_be_bytes();
    [
        centre[0],
        centre[1],
        sub_centre[0],
        sub_centre[1],
        ident.master_tables_version,
        ident.local_tables_version,
        ident.reference_time_significance,
    ]
}

/// The section with these numbers.
fn section(ident: Ident) -> [u8; 21]
    ensures { result ≡ identification_octets ident }
{
    let mut section = [0; 21];
    section[..5].copy_from_slice(b"\x00\x00\x00\x15\x01");
    section[5..12].copy_from_slice(&origin(ident));
    section[12..19].copy_from_slice(&date_time_octets(ident.reference_time));
    section[19] = ident.production_status;
    section[20] = ident.data_type;
    section
}

/// The section that is written for these numbers has these numbers.
fn reads_again(ident: Ident)
    ensures section { IsSection 1 21 (identification_octets ident) }
    ensures again { identification_of (identification_octets ident) ≡ ident }
{}
