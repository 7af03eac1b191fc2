ghost use Rattle.std.specs.{Prelude.{◌≡◌, ◌≤◌, length}, Option.{option_copied}};
ghost use Rattle.fd_sections.specs.Message.{section_octets};

/// One whole GRIB edition 2 message (FM 92 GRIB, sections 0 to 8), lent from the octets that it was read from.
#[derive(Clone, Copy)]
pub struct Message<'a> {
    pub(crate) octets: &'a [u8],
    /// Section 0, the indicator section, which has 16 octets.
    pub indicator: &'a [u8],
    /// Section 1, the identification section.
    pub identification: &'a [u8],
    /// Section 2, the local use section, where there is one.
    pub local_use: Option<&'a [u8]>,
    /// Section 3, the grid definition section.
    pub grid: &'a [u8],
    /// Section 4, the product definition section.
    pub product: &'a [u8],
    /// Section 5, the data representation section.
    pub representation: &'a [u8],
    /// Section 6, the bit-map section.
    pub bit_map: &'a [u8],
    /// Section 7, the data section.
    pub values: &'a [u8],
    pub ghost indicator_long: { length indicator.now ≡ 16 },
    pub ghost identification_long: { 21 ≤ length identification.now },
    pub ghost grid_long: { 14 ≤ length grid.now },
    pub ghost product_long: { 9 ≤ length product.now },
    pub ghost representation_long: { 11 ≤ length representation.now },
    pub ghost bit_map_long: { 6 ≤ length bit_map.now },
    pub ghost values_long: { 5 ≤ length values.now },
}

impl<'a> Message<'a> {
    ghost use Rattle.fd_sections.specs.Parts.{sections_of, octets_of};

    /// All its octets, from `GRIB` to `7777`.
    pub fn bytes(&self) -> &'a [u8]
        ensures { result.now ≡ octets_of self.now }
    {
        self.octets
    }

    /// The octets of section `n`, which is at most 8. None exactly for a section 2 that is absent.
    pub fn section(&self, n: u8) -> Option<&'a [u8]>
        requires { n ≤ 8 }
        ensures { option_copied result ≡ section_octets (sections_of self.now) n }
    {
        match n {
            0 => Some(self.indicator),
            1 => Some(self.identification),
            2 => self.local_use,
            3 => Some(self.grid),
            4 => Some(self.product),
            5 => Some(self.representation),
            6 => Some(self.bit_map),
            7 => Some(self.values),
            _ => Some(b"7777"),
        }
    }
}
