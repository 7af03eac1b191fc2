// What comes first in a stream.
ghost use Rattle.std.specs.Prelude.{◌≡◌};
ghost use Rattle.fd_bytes.specs.Numbers.{octets};
ghost use Rattle.fd_sections.specs.{Stream.{from_mark, first_at, first}, FirstFound.{IsFirst, IsExact}};

use crate::bad::Bad;
use crate::fields::{MAX_LENGTH, octet, total_length};
use crate::sections::Message;
use crate::whole::message;
use memchr::memmem;

/// The stream from its first `GRIB` on, or its end where there is none.
pub(crate) fn from_mark(stream: &[u8]) -> &[u8]
    ensures { result.now ≡ from_mark stream.now }
{
    let Some(at) = memmem::find(stream, b"GRIB") else {
        let (_, none) = stream.split_at(stream.len());
        return none;
    };
    let (_, rest) = stream.split_at(at);
    rest
}

/// What comes first in a stream.
#[derive(Drop)]
pub enum Found<'a> {
    /// No `GRIB`.
    Unmarked,
    /// A message that is not whole yet.
    Partial { have: u64, want: u64 },
    /// A message, and what follows it.
    Whole(Message<'a>, &'a [u8]),
}

/// What comes first at a `GRIB`.
#[tactic(auto, unfolding(crate::specs::Stream::first_at))]
fn first_at(stream: &[u8]) -> Result<Found<'_>, Bad>
    ensures first { IsFirst result (first_at stream.now) }
    ensures octets { IsExact result }
{
    if stream.is_empty() {
        return Ok(Found::Unmarked);
    }
    let have = stream.len() as u64;
    if have < 16 {
        return Ok(Found::Partial { have, want: 16 });
    }
    let said = long_of!(stream);
    if have < said {
        return Ok(Found::Partial { have, want: said });
    }
    let (octets, rest) = stream.split_at(said as usize);
    let message = message(octets)?;
    Ok(Found::Whole(message, rest))
}

/// What comes first in a stream.
pub fn first(stream: &[u8]) -> Result<Found<'_>, Bad>
    ensures first { IsFirst result (first stream.now) }
    ensures octets { IsExact result }
{
    first_at(from_mark(stream))
}
