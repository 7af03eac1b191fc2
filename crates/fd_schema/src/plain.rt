// Texts without their comments, in lower case.
ghost use Rattle.std.specs.Prelude.{◌≡◌, false, IfOk};
ghost use Rattle.fd_schema.specs.Plain.{in_comment, shown, plain};

use fd_bytes::NoMemory;
use std::alloc::Global;

/// What stands for a byte: a blank in a comment, and lower case elsewhere.
fn shown(inside: bool, b: u8) -> u8
    ensures { result ≡ shown inside b }
{
    if inside && b < 128 {
        b' '
    } else {
        b.to_ascii_lowercase()
    }
}

/// Tells that a byte stands in a comment, where the byte before does or doesn't.
fn in_comment(inside: bool, b: u8) -> bool
    ensures { result ≡ in_comment inside b }
{
    b != b'\n' && (inside || b == b'#')
}

/// The text in lower case, with blanks in place of its comments, each of which goes from `#` to the end of its line. A
/// byte that isn't ASCII stays.
#[tactic(auto, unfolding(crate::specs::Plain::plain))]
pub(crate) fn plain(alloc: Global, text: &[u8]) -> Result<Vec<u8>, NoMemory>
    ensures { IfOk result (λ v. v.items ≡ plain false text.now) }
{
    let mut out = Vec::new(alloc);
    let mut inside = false;
    for b in text {
        inside = in_comment(inside, *b);
        out.push(shown(inside, *b))?;
    }
    Ok(out)
}
