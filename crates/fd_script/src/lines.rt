// Texts as lines.
ghost use Rattle.std.specs.{Prelude.{◌≡◌, ◌+◌, ◌∷◌, length, option_map, Some, None, IfSome, IfNone, IfOk, IfErr}, Option.{option_copied}, Prelude.{◌==◌}, List.{position_or_len}};
ghost use Rattle.fd_script.specs.{Lines.{lines_of}, Grammar.{Byte, foreign_byte, has_messages}, Lines.{lines_if}};

use fd_spelling::ascii_text;

/// The place of the first line feed, or the length.
fn line_end(text: &[u8]) -> usize
    ensures { result ≡ position_or_len (λ b. b == 10) text.now }
{
    for (i, b) in text.iter().enumerate() {
        if *b == b'\n' {
            return i;
        }
    }
    text.len()
}

/// The first line, and what stands behind its line feed, if it has one.
pub(crate) fn first_line(text: &[u8]) -> (&[u8], Option<&[u8]>)
    ensures lines { lines_of text.now ≡ result.0.now ∷ lines_if (option_copied result.1) }
    ensures last { IfNone result.1 (result.0.now ≡ text.now) }
    ensures lengths { IfSome result.1 (λ o. length text.now ≡ length result.0.now + length o.now + 1) }
{
    let at = line_end(text);
    if at < text.len() {
        let (line, back) = text.split_at(at);
        let (_, behind) = back.split_at(1);
        (line, Some(behind))
    } else {
        (text, None)
    }
}

/// Tells that one of the lines, but not the last, is `messages`.
pub(crate) fn has_messages(text: &[u8]) -> bool
    ensures { result ≡ has_messages (lines_of text.now) }
{
    let mut rest = text;
    'lines: loop {
        let (line, behind) = first_line(rest);
        match behind {
            None => return false,
            Some(others) => {
                if line == b"messages".as_slice() {
                    return true;
                }
                rest = others;
            }
        }
    }
}

/// The first byte that isn't ASCII.
fn foreign_byte(line: &[u8]) -> Option<u8>
    ensures { option_map Byte result ≡ foreign_byte line.now }
{
    for b in line {
        if *b >= 128 {
            return Some(*b);
        }
    }
    None
}

/// A line as a text, or its first byte that isn't ASCII.
pub(crate) fn line_text(line: &[u8]) -> Result<&str, u8>
    ensures text { IfOk result (λ s. (s.now ≡ line.now) × (foreign_byte line.now ≡ None)) }
    ensures byte { IfErr result (λ b. foreign_byte line.now ≡ Some (Byte b)) }
{
    match foreign_byte(line) {
        Some(byte) => Err(byte),
        None => match ascii_text(line) {
            Some(text) => Ok(text),
            None => unreachable!(),
        },
    }
}
