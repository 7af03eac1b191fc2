// Texts cut at a byte.
ghost use Rattle.std.specs.{Prelude.{◌≡◌, ◌+◌, ◌<◌, ◌∷◌, length, option_map, IfNone, IfSome}, Option.{option_copied}};
ghost use Rattle.fd_spelling.specs.{Numerals.{cut}, Pieces.{pieces, pieces_behind}};

use crate::numerals::cut;

/// What stands before the first such byte, and what stands behind it.
pub fn first_piece(text: &[u8], mark: u8) -> (&[u8], Option<&[u8]>)
    ensures pieces { pieces mark text.now ≡ result.0.now ∷ pieces_behind mark (option_copied result.1) }
    ensures last { IfNone result.1 (result.0.now ≡ text.now) }
    ensures lengths { IfSome result.1 (λ o. length text.now ≡ length result.0.now + length o.now + 1) }
{
    match cut(text, mark) {
        Some((piece, others)) => (piece, Some(others)),
        None => (text, None),
    }
}

/// What stands before the first comma, and what stands behind it.
#[tactic(auto, unfolding(crate::specs::Numerals::cut))]
fn at_comma(text: &str) -> Option<(&str, &str)>
    ensures { option_map (λ p. (p.0.now, p.1.now)) result ≡ cut 44 text.now }
{
    text.split_once(',')
}

/// The first piece of a text, up to its first comma, and what stands behind that.
pub fn comma_piece(text: &str) -> (&str, Option<&str>)
    ensures pieces { pieces 44 text.now ≡ result.0.now ∷ pieces_behind 44 (option_copied result.1) }
    ensures lengths { IfSome result.1 (λ o. length o.now < length text.now) }
{
    match at_comma(text) {
        Some((piece, others)) => (piece, Some(others)),
        None => (text, None),
    }
}
