// What comes first in a stream of frames.
ghost use Rattle.fd_sections.specs.{Frames.{frame_at, first_frame}, FoundFrames.{IsFirstFrame}};

use crate::bad::Bad;
use crate::fields::{MAX_LENGTH, octet, total_length};
use crate::first::from_mark;

/// What comes first in a stream of frames.
#[derive(Drop)]
pub enum FoundFrame<'a> {
    /// No `GRIB`.
    Unframed,
    /// A frame that is not whole yet, with the octets that it has.
    Begun { have: u64 },
    /// The octets of a frame, and what follows them.
    Whole(&'a [u8], &'a [u8]),
}

/// What comes first at a `GRIB`, unread.
#[tactic(auto, unfolding(crate::specs::Frames::frame_at))]
fn frame_at(stream: &[u8]) -> Result<FoundFrame<'_>, Bad>
    ensures { IsFirstFrame result (frame_at stream.now) }
{
    if stream.is_empty() {
        return Ok(FoundFrame::Unframed);
    }
    let have = stream.len() as u64;
    if have < 16 {
        return Ok(FoundFrame::Begun { have });
    }
    let said = long_of!(stream);
    if have < said {
        return Ok(FoundFrame::Begun { have });
    }
    let (octets, rest) = stream.split_at(said as usize);
    Ok(FoundFrame::Whole(octets, rest))
}

/// What comes first in a stream of frames.
pub fn first_frame(stream: &[u8]) -> Result<FoundFrame<'_>, Bad>
    ensures { IsFirstFrame result (first_frame stream.now) }
{
    frame_at(from_mark(stream))
}
