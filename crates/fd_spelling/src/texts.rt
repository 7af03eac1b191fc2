// Texts out of bytes, and lists of texts.
ghost use Rattle.std.specs.{Prelude.{◌≡◌, ◌≤◌, Some, None, IfOk, IfSome, IsTrue, length, option_map, string_bytes, if◌then◌else◌}, List.{list_any, prefix_len}, Str.{bytes_eq}};
ghost use Rattle.fd_spelling.specs.{Names.{is_name, is_name_byte, is_value}, Texts.{is_ascii, spelled, texts}};

use crate::fault::ValueFault;
use crate::names::is_name_byte;
use crate::values::canonical;
use fd_bytes::NoMemory;
use std::alloc::Global;

fn is_ascii(text: &[u8]) -> bool
    ensures { result ≡ is_ascii text.now }
{
    text.iter().all(|b| *b < 128)
}

/// Bytes that are ASCII, as a text.
pub fn ascii_text(bytes: &[u8]) -> Option<&str>
    ensures { option_map (λ s. s.now) result ≡ (if is_ascii bytes.now then Some bytes.now else None) }
{
    if !is_ascii(bytes) {
        return None;
    }
    match str::from_utf8(bytes) {
        Ok(text) => Some(text),
        Err(_) => None,
    }
}

/// How many bytes of a name stand at the front.
pub fn name_end(text: &[u8]) -> usize
    ensures value { result ≡ prefix_len is_name_byte text.now }
    ensures within { result ≤ length text.now }
{
    for (i, b) in text.iter().enumerate() {
        if !is_name_byte(*b) {
            return i;
        }
    }
    text.len()
}

/// A name as a text.
pub fn name_text(name: &[u8]) -> &str
    requires { IsTrue (is_name name.now) }
    ensures { result.now ≡ name.now }
{
    match ascii_text(name) {
        Some(text) => text,
        None => "",
    }
}

/// The one spelling of a text as a value of the name, if it is one.
pub fn spelled(alloc: Global, name: &str, text: &[u8]) -> Result<Option<String>, NoMemory>
    ensures text { IfOk result (λ o. option_map string_bytes o ≡ spelled name.now text.now) }
    ensures value { IfOk result (λ o. IfSome o (λ s. IsTrue (is_value (string_bytes s)))) }
{
    let Some(text) = ascii_text(text) else {
        return Ok(None);
    };
    match canonical(alloc, name, text) {
        Ok(value) => Ok(Some(value)),
        Err(ValueFault::BadValue) => Ok(None),
        Err(ValueFault::NoMemory) => Err(NoMemory),
    }
}

/// Tells that one of the values is this text.
pub fn is_one_of(values: &[String], text: &str) -> bool
    ensures { result ≡ list_any (bytes_eq text.now) (texts values.now) }
{
    for value in values {
        if text == value.as_str() {
            return true;
        }
    }
    false
}
