// What a crash leaves of loose bytes.
ghost use Rattle.std.specs.Prelude.{◌≡◌, ◌||◌, nat_le};
ghost use Rattle.fd_disk.specs.Images.{is_in};
ghost use Rattle.fd_file_mem.specs.Left.{IsByteLeft, AreBytesLeft, mixed};

use fd_disk::Range;

/// A byte that a table has where an entry is open.
const OPEN: u8 = 0x4F;

/// Changes the bytes that a crash may change.
pub(crate) fn leave(reads: &mut [u8], firm: usize, loose: &[Range], choice: u64)
    ensures { AreBytesLeft choice (λ k. nat_le firm k || is_in k loose.now) reads.old reads.new }
{
    for (place, byte) in reads.iter_mut().enumerate() {
        let is_loose = place >= firm || is_in(place as u64, loose);
        *byte = byte_left(choice, place as u64, is_loose, *byte);
    }
}

// Whether the place is in one of the ranges.
fn is_in(place: u64, ranges: &[Range]) -> bool
    ensures { result ≡ is_in place ranges.now }
{
    match ranges {
        [] => false,
        [range, rest @ ..] => {
            (range.at <= place && place - range.at < range.len) || is_in(place, rest)
        }
    }
}

// The byte at a place after a crash.
fn byte_left(choice: u64, place: u64, is_loose: bool, byte: u8) -> u8
    ensures { IsByteLeft choice place is_loose byte result }
{
    match choice {
        _ if !is_loose => byte,
        2 => OPEN,
        3 => 0,
        _ => computed(choice, place),
    }
}

// A byte that looks like chance, from two numbers.
fn computed(choice: u64, place: u64) -> u8
    ensures { result ≡ mixed choice place }
{
    let mixed = (choice ^ place.wrapping_mul(0x9E37_79B9_7F4A_7C15)).wrapping_mul(
        0xBF58_476D_1CE4_E5B9,
    );
    (mixed >> 56) as u8
}
