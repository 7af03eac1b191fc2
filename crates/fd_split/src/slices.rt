// A round of sections, lent from its message.
ghost use Rattle.std.specs.Prelude.{◌≤◌, length};

/// A round of sections, lent from its message.
#[derive(Clone, Copy)]
pub(crate) struct Slices<'a> {
    pub(crate) local_use: Option<&'a [u8]>,
    pub(crate) grid: Option<&'a [u8]>,
    pub(crate) product: &'a [u8],
    pub(crate) representation: &'a [u8],
    pub(crate) bit_map: &'a [u8],
    pub(crate) values: &'a [u8],
    pub ghost bit_map_long: { 6 ≤ length bit_map.now },
}
