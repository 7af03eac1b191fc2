// From an input to a splitter, a piece at a time.
ghost use Rattle.std.specs.Prelude.{◌≡◌, ◌≤◌, length};
ghost use Rattle.fd_streams.specs.{Feeding.{IsFed}, Found.{HasInputCause, IsNoMemory}};

use fd_bytes::NoMemory;
use fd_io::Source;
use fd_outcome::read_piece;
use fd_sections::Splitter;
use fd_split::{INPUT_LIMIT, Refusal};

/// Why an input isn't read on, where nothing is written.
#[derive(Drop)]
pub enum Stop<X> {
    Fault(X),
    Refused(Refusal),
    NoMemory,
}

impl<X> From<NoMemory> for Stop<X> {
    ghost from_gives = { λ _ e. IsNoMemory e };

    fn from(_: NoMemory) -> Stop<X> {
        Stop::NoMemory
    }
}

/// Reads the next piece and feeds it to the splitter, and tells whether one came before the end of the input.
pub fn feed_piece<X, I: Source<X>>(
    input: &mut I,
    buffer: &mut [u8],
    splitter: &mut Splitter,
) -> Result<bool, Stop<X>>
    requires room { length buffer.old ≡ 65536 }
    requires limit { splitter.old.fed ≤ 68719476736 }
    ensures room { length buffer.new ≡ 65536 }
    ensures fed { IsFed splitter.old splitter.new (I.left input.old) (I.left input.new) result }
    ensures cause { HasInputCause result (I.faults input.old) (I.faults input.new) }
{
    let total = splitter.fed();
    let n = match read_piece(input, buffer, total) {
        Ok(n) => n,
        Err(fault) => return Err(Stop::Fault(fault)),
    };
    if n == 0 {
        return Ok(false);
    }
    if total == INPUT_LIMIT {
        return Err(Stop::Refused(Refusal::Input));
    }
    let (octets, _) = buffer.split_at(n);
    match splitter.feed(octets) {
        Ok(()) => Ok(true),
        Err(_) => Err(Stop::NoMemory),
    }
}
