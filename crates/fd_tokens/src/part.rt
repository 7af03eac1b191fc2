// Tokens up to a mark.
ghost use Rattle.std.specs.Prelude.{◌≡◌, ◌<◌, ◌≤◌, ◌+◌, ◌∷◌, length, drop, IfSome};
ghost use Rattle.fd_tokens.specs.Tokens.{view, views, parts, parts_if, mark_place};

use crate::token::Token;
use crate::tokens::is_token;

/// The place of the first token that is this mark, or the number of tokens.
fn mark_place(mark: u8, tokens: &[Token]) -> usize
    ensures value { result ≡ mark_place mark (views tokens.now) }
    ensures within { result ≤ length tokens.now }
{
    for (i, token) in tokens.iter().enumerate() {
        if is_token(mark, token) {
            return i;
        }
    }
    tokens.len()
}

/// The place of the first such mark from a place on, or the number of tokens.
fn part_end(mark: u8, tokens: &[Token], from: usize) -> usize
    requires { from ≤ length tokens.now }
    ensures value { result ≡ from + mark_place mark (views (drop from tokens.now)) }
    ensures behind { from ≤ result }
    ensures within { result ≤ length tokens.now }
{
    let (_, left) = tokens.split_at(from);
    from + mark_place(mark, left)
}

/// The tokens from a place up to the next such mark, what stands behind them, and the place behind the mark, if there is
/// one. Behind the last part stands the end of the text.
pub fn part_from<'s, 't>(
    mark: u8,
    stop: &'s Token<'t>,
    tokens: &'s [Token<'t>],
    from: usize,
) -> (&'s [Token<'t>], &'s Token<'t>, Option<usize>)
    requires { from ≤ length tokens.now }
    ensures parts { parts mark (view stop.now) (views (drop from tokens.now)) ≡ record { tokens = views result.0.now; stop = view result.1.now } ∷ parts_if mark (view stop.now) tokens.now result.2 }
    ensures forward { IfSome result.2 (λ next. from < next) }
    ensures within { IfSome result.2 (λ next. next ≤ length tokens.now) }
{
    let end = part_end(mark, tokens, from);
    let inside = &tokens[from..end];
    if end == tokens.len() {
        (inside, stop, None)
    } else {
        (inside, &tokens[end], Some(end + 1))
    }
}
