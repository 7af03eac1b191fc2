ghost use Rattle.std.specs.{Prelude.{◌≡◌, ◌++◌, true, IfOk, OnOk, string_bytes}, List.{list_all}};
ghost use Rattle.fd_spelling.specs.Names.{lower, is_ascii, is_letter, is_name, is_name_byte, is_value, is_value_byte};

use fd_bytes::NoMemory;
use std::alloc::Global;

/// The text in lower case.
pub fn lower(alloc: Global, text: &str) -> Result<String, NoMemory>
    ensures { IfOk result (λ s. string_bytes s ≡ lower text.now) }
{
    let mut lowered = String::from_str(alloc, text)?;
    lowered.make_ascii_lowercase();
    Ok(lowered)
}

/// A text of these bytes, which are ASCII.
pub fn text_from(alloc: Global, bytes: &[u8]) -> Result<String, NoMemory>
    requires { list_all is_ascii bytes.now ≡ true }
    ensures { IfOk result (λ s. string_bytes s ≡ bytes.now) }
{
    let mut out = String::new(alloc);
    push_bytes(&mut out, bytes)?;
    Ok(out)
}

/// Appends bytes, which are ASCII, to a text.
pub(crate) fn push_bytes(out: &mut String, bytes: &[u8]) -> Result<(), NoMemory>
    requires { list_all is_ascii bytes.now ≡ true }
    ensures { OnOk result (string_bytes out.new ≡ string_bytes out.old ++ bytes.now) }
{
    for b in bytes {
        out.push(char::from(*b))?;
    }
    Ok(())
}

fn is_letter(b: u8) -> bool
    ensures { result ≡ is_letter b }
{
    b'a' <= b && b <= b'z'
}

/// Tells that a byte is one of names in lower case: a letter, a digit or `_`.
pub fn is_name_byte(b: u8) -> bool
    ensures { result ≡ is_name_byte b }
{
    is_letter(b) || (b'0' <= b && b <= b'9') || b == b'_'
}

/// Tells that a byte is one of values in lower case: a letter, a digit, `.`, `_`, `-` or `+`.
pub fn is_value_byte(b: u8) -> bool
    ensures { result ≡ is_value_byte b }
{
    is_letter(b) || (b'0' <= b && b <= b'9') || b == b'.' || b == b'_' || b == b'-' || b == b'+'
}

fn are_name_bytes(bytes: &[u8]) -> bool
    ensures { result ≡ list_all is_name_byte bytes.now }
{
    bytes.iter().all(|b| is_name_byte(*b))
}

fn are_value_bytes(bytes: &[u8]) -> bool
    ensures { result ≡ list_all is_value_byte bytes.now }
{
    bytes.iter().all(|b| is_value_byte(*b))
}

/// Tells that a text in lower case is a name: a letter, and up to 15 letters, digits and `_`.
pub fn is_name(text: &[u8]) -> bool
    ensures { result ≡ is_name text.now }
{
    let Some((first, others)) = text.split_first() else {
        return false;
    };
    is_letter(*first) && others.len() <= 15 && are_name_bytes(others)
}

/// Tells that a text in lower case is a value: 1 to 255 letters, digits, `.`, `_`, `-` and `+`.
pub fn is_value(text: &[u8]) -> bool
    ensures { result ≡ is_value text.now }
{
    0 < text.len() && text.len() <= 255 && are_value_bytes(text)
}
