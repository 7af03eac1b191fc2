ghost use Rattle.std.specs.Prelude.{◌≡◌, ◌≤◌, ◌++◌, length, OnOk, OnErr, IfOk, IfSome, Ok};
ghost use Rattle.fd_sections.specs.{Message.{IsSection}, Parts.{sections_of}};
ghost use Rattle.fd_templates.specs.{Grid.{grid_is, grid_of, grid_octets, header_octets, earth_octets, size_octets, area_octets, step_octets, Fits}, Octets.{signed_or_ones, FitsOrMissing}};

use crate::fault::TemplateFault;
use crate::octets::{
    i8_or_ones, i32_octets, i32_or_ones, read_i8_or_missing, read_i32, read_i32_or_missing,
    read_u8, read_u32, read_u32_or_missing, u32_or_ones,
};
use crate::whole::check_whole;
use fd_bytes::NoMemory;
use fd_sections::Message;

/// The numbers of section 3 with template 3.0: a grid of points along latitudes and longitudes. Angles are in
/// micro-degrees where basic angle and subdivisions say nothing else.
#[derive(Clone, Copy, Debug, PartialEq, Eq)]
pub struct LatLon {
    /// The number of points of the grid (octets 7-10).
    pub points: u32,
    /// Code table 3.2.
    pub earth_shape: u8,
    /// A length of the earth is its scaled value times 10^(-factor), in metres.
    pub radius_factor: Option<i32>,
    pub radius: Option<i32>,
    pub major_axis_factor: Option<i32>,
    pub major_axis: Option<i32>,
    pub minor_axis_factor: Option<i32>,
    pub minor_axis: Option<i32>,
    /// Points along a parallel.
    pub ni: u32,
    /// Points along a meridian.
    pub nj: u32,
    /// Angles count this many degrees, divided by the subdivisions; 0 and none stand for 10^-6 degrees.
    pub basic_angle: u32,
    pub subdivisions: Option<u32>,
    /// Latitude and longitude of the first point.
    pub la1: i32,
    pub lo1: i32,
    /// Flag table 3.3.
    pub resolution_flags: u8,
    /// Latitude and longitude of the last point.
    pub la2: i32,
    pub lo2: i32,
    /// The steps along a parallel and along a meridian.
    pub di: u32,
    pub dj: u32,
    /// Flag table 3.4: the order of the points.
    pub scanning_mode: u8,
}

impl LatLon {
    /// The numbers of a message's section 3. `Other` comes exactly where the template isn't 0, and else `BadLength`
    /// exactly where the section has fewer than 72 octets. What follows these is not read. They fit their octets.
    #[tactic(auto, using(crate::proofs::WholeLaws::whole_grid))]
    pub fn read(message: &Message) -> Result<LatLon, TemplateFault>
        ensures numbers { result ≡ grid_is (sections_of message.now).grid }
        ensures fits { IfOk result Fits }
    {
        let section = message.grid;
        check_whole(section, 13, 72)?;
        Ok(numbers(section))
    }

    /// Appends a section 3 of 72 octets, of source 0 and without a list, that reads as these numbers. After `NoMemory` nothing has changed.
    pub fn write(&self, out: &mut Vec<u8>) -> Result<(), NoMemory>
        requires { Fits self.now }
        ensures ok { OnOk result (out.new.items ≡ out.old.items ++ grid_octets self.now) }
        ensures err { OnErr result (out.new.items ≡ out.old.items) }
        ensures section { IsSection 3 72 (grid_octets self.now) }
        ensures again { grid_is (grid_octets self.now) ≡ Ok self.now }
    {
        reads_again(*self);
        out.extend_from_slice(&section(*self))?;
        Ok(())
    }
}

fn numbers(section: &[u8]) -> LatLon
    requires { 72 ≤ length section.now }
    ensures numbers { result ≡ grid_of section.now }
    ensures fits { Fits result }
{
    LatLon {
        points: read_u32(section, 7),
        earth_shape: read_u8(section, 15),
        radius_factor: read_i8_or_missing(section, 16),
        radius: read_i32_or_missing(section, 17),
        major_axis_factor: read_i8_or_missing(section, 21),
        major_axis: read_i32_or_missing(section, 22),
        minor_axis_factor: read_i8_or_missing(section, 26),
        minor_axis: read_i32_or_missing(section, 27),
        ni: read_u32(section, 31),
        nj: read_u32(section, 35),
        basic_angle: read_u32(section, 39),
        subdivisions: read_u32_or_missing(section, 43),
        la1: read_i32(section, 47),
        lo1: read_i32(section, 51),
        resolution_flags: read_u8(section, 55),
        la2: read_i32(section, 56),
        lo2: read_i32(section, 60),
        di: read_u32(section, 64),
        dj: read_u32(section, 68),
        scanning_mode: read_u8(section, 72),
    }
}

/// What stands before the template.
fn header(grid: LatLon) -> [u8; 14]
    ensures { result ≡ header_octets grid }
{
    let points = grid.points.to_be_bytes();
    [
        0, 0, 0, 72, 3, 0, points[0], points[1], points[2], points[3], 0, 0, 0, 0,
    ]
}

/// A length of the earth.
fn scaled(factor: &Option<i32>, value: &Option<i32>) -> [u8; 5]
    requires factor { IfSome factor.now (FitsOrMissing 1) }
    requires value { IfSome value.now (FitsOrMissing 4) }
    ensures { result ≡ signed_or_ones 1 factor.now ++ signed_or_ones 4 value.now }
{
    let factor = i8_or_ones(factor);
    let value = i32_or_ones(value);
    [factor[0], value[0], value[1], value[2], value[3]]
}

/// The shape and the size of the earth.
fn earth(grid: LatLon) -> [u8; 16]
    requires { Fits grid }
    ensures { result ≡ earth_octets grid }
{
    let shape = grid.earth_shape;
    let radius = scaled(&grid.radius_factor, &grid.radius);
    let major = scaled(&grid.major_axis_factor, &grid.major_axis);
    let minor = scaled(&grid.minor_axis_factor, &grid.minor_axis);
    [
        shape, radius[0], radius[1], radius[2], radius[3], radius[4], major[0], major[1], major[2],
        major[3], major[4], minor[0], minor[1], minor[2], minor[3], minor[4],
    ]
}

/// How many points, and the unit of angles.
fn size(grid: LatLon) -> [u8; 16]
    ensures { result ≡ size_octets grid }
{
    let mut octets = [0; 16];
    octets[..4].copy_from_slice(&grid.ni.to_be_bytes());
    octets[4..8].copy_from_slice(&grid.nj.to_be_bytes());
    octets[8..12].copy_from_slice(&grid.basic_angle.to_be_bytes());
    octets[12..].copy_from_slice(&u32_or_ones(&grid.subdivisions));
    octets
}

/// The first and the last point.
fn area(grid: LatLon) -> [u8; 17]
    requires { Fits grid }
    ensures { result ≡ area_octets grid }
{
    let la1 = i32_octets(&grid.la1);
    let lo1 = i32_octets(&grid.lo1);
    let flags = grid.resolution_flags;
    let la2 = i32_octets(&grid.la2);
    let lo2 = i32_octets(&grid.lo2);
    [
        la1[0], la1[1], la1[2], la1[3], lo1[0], lo1[1], lo1[2], lo1[3], flags, la2[0], la2[1],
        la2[2], la2[3], lo2[0], lo2[1], lo2[2], lo2[3],
    ]
}

/// The steps between points.
fn steps(grid: LatLon) -> [u8; 9]
    ensures { result ≡ step_octets grid }
{
    let along = grid.di.to_be_bytes();
    let across = grid.dj.to_be_bytes();
    let mode = grid.scanning_mode;
    [
        along[0], along[1], along[2], along[3], across[0], across[1], across[2], across[3], mode,
    ]
}

/// The section with these numbers.
#[tactic(auto, unfolding(crate::specs::Octets::octets_of, crate::specs::Octets::signed_octets, crate::specs::Octets::octets_or_ones, crate::specs::Octets::signed_or_ones, crate::specs::Grid::header_octets, crate::specs::Grid::earth_octets, crate::specs::Grid::size_octets, crate::specs::Grid::area_octets, crate::specs::Grid::step_octets))]
fn section(grid: LatLon) -> [u8; 72]
    requires { Fits grid }
    ensures { result ≡ grid_octets grid }
{
    let mut section = [0; 72];
    section[..14].copy_from_slice(&header(grid));
    section[14..30].copy_from_slice(&earth(grid));
    section[30..46].copy_from_slice(&size(grid));
    section[46..63].copy_from_slice(&area(grid));
    section[63..].copy_from_slice(&steps(grid));
    section
}

/// The section that is written for these numbers has these numbers.
fn reads_again(grid: LatLon)
    requires { Fits grid }
    ensures section { IsSection 3 72 (grid_octets grid) }
    ensures again { grid_is (grid_octets grid) ≡ Ok grid }
{}
