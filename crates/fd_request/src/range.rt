ghost use Rattle.std.specs.Prelude.{◌<◌, ◌-◌, ◌*◌};
ghost use Rattle.fd_request.specs.Seen.{seen_end, Fits};

use crate::end::End;

/// A range: its first value, how far each of the others is behind the one before it, and how many there are.
#[derive(Clone, Copy, Debug)]
pub(crate) struct Range {
    pub(crate) first: End,
    pub(crate) step: u32,
    pub(crate) count: u64,
    ghost some: { 0 < count },
    ghost moves: { 0 < step },
    ghost fits: { Fits (seen_end first) ((count - 1) * step) },
}
