ghost use Rattle.std.specs.Prelude.{◌+◌, ◌<◌, ◌^◌, length};

/// A mark, or a run of other bytes that aren't blank, and the place of its first byte.
#[derive(Clone, Copy, Debug)]
pub struct Token<'a> {
    /// The place of the first byte, from 0.
    pub at: usize,
    /// The bytes.
    pub text: &'a [u8],
    ghost fits: { at + length text.now < 2 ^ 63 },
}
