ghost use Rattle.std.specs.{Prelude.{◌≡◌, ◌∷◌, option_map, IfOk, IfSome}, Option.{option_copied}};
ghost use Rattle.fd_spelling.specs.{Numerals.{cut}, Pieces.{pieces, pieces_behind}};
ghost use Rattle.fd_words.specs.Words.{AreLayers, layer_read, layers_read};

use crate::command::given_read;
use fd_bytes::{Items, NoMemory};
use fd_key::Given;
use std::alloc::Global;

/// The layers under which keys are looked for, the nearest first: of each the values that stand in place of a key's own.
pub type Layers = Items<Given>;

/// What stands before the first slash and what stands behind it, if there is one.
#[tactic(auto, unfolding(fd_spelling::specs::Numerals::cut))]
fn at_slash(text: &str) -> Option<(&str, &str)>
    ensures { option_map (λ p. (p.0.now, p.1.now)) result ≡ cut 47 text.now }
{
    text.split_once('/')
}

/// What stands before the first slash, and what stands behind it.
fn first_layer(text: &str) -> (&str, Option<&str>)
    ensures { pieces 47 text.now ≡ result.0.now ∷ pieces_behind 47 (option_copied result.1) }
{
    match at_slash(text) {
        Some((layer, others)) => (layer, Some(others)),
        None => (text, None),
    }
}

/// The pairs of a layer, of which there is at least one.
fn layer_read(alloc: Global, text: &str) -> Result<Option<Given>, NoMemory>
    ensures { IfOk result (λ o. o ≡ layer_read text.now) }
{
    match given_read(alloc, text)? {
        Some(given) => {
            if given.len() == 0 {
                Ok(None)
            } else {
                Ok(Some(given))
            }
        }
        None => Ok(None),
    }
}

/// The layers that a text gives: one to seven, with slashes between them.
pub(crate) fn layers_read(alloc: Global, text: &str) -> Result<Option<Layers>, NoMemory>
    ensures layers { IfOk result (λ o. o ≡ layers_read text.now) }
    ensures within { IfOk result (λ o. IfSome o AreLayers) }
{
    let mut layers = Layers::new(alloc);
    let mut rest = text;
    for count in 0..7u32 {
        let (piece, behind) = first_layer(rest);
        let Some(layer) = layer_read(alloc, piece)? else {
            return Ok(None);
        };
        layers.push(layer)?;
        match behind {
            Some(others) => rest = others,
            None => return Ok(Some(layers)),
        }
    }
    Ok(None)
}
