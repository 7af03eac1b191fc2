// Numbers in lines, as decimal digits.
ghost use Rattle.std.specs.Prelude.{◌≡◌, ◌++◌, Some, OnOk, string_bytes};
ghost use Rattle.fd_listing.specs.{Numbers.{plain, plain_if, number_or_minus, numbers_text}, Describe.{named}, Lines.{blank}};

use fd_bytes::NoMemory;

/// A number that is never missing.
pub fn plain(number: u32) -> Option<i64>
    ensures { result ≡ plain number }
{
    Some(i64::from(number))
}

/// A number that may be missing.
pub fn plain_if(number: Option<u32>) -> Option<i64>
    ensures { result ≡ plain_if number }
{
    match number {
        Some(number) => plain(number),
        None => None,
    }
}

/// A number that may be below 0.
pub fn signed(number: &i32) -> Option<i64>
    ensures { result ≡ Some number.now }
{
    Some(i64::from(*number))
}

/// A number that may be below 0 or missing.
pub fn signed_if(number: Option<i32>) -> Option<i64>
    ensures { result ≡ number }
{
    match number {
        Some(number) => signed(&number),
        None => None,
    }
}

/// Appends a blank and the number, or a minus where it is missing.
fn push_number(out: &mut String, number: Option<i64>) -> Result<(), NoMemory>
    ensures { OnOk result (string_bytes out.new ≡ string_bytes out.old ++ blank (number_or_minus number)) }
{
    match number {
        Some(number) => write!(out, " {number}")?,
        None => out.push_str(" -")?,
    }
    Ok(())
}

/// Appends a name and its number, with a blank before each.
#[tactic(auto, unfolding(crate::specs::Describe::named))]
pub fn push_named(out: &mut String, name: &str, number: Option<i64>) -> Result<(), NoMemory>
    ensures { OnOk result (string_bytes out.new ≡ string_bytes out.old ++ named name.now number) }
{
    write!(out, " {name}")?;
    push_number(out, number)
}

/// Appends the numbers, with a blank before each.
pub fn push_numbers(out: &mut String, numbers: &[Option<i64>]) -> Result<(), NoMemory>
    ensures { OnOk result (string_bytes out.new ≡ string_bytes out.old ++ numbers_text numbers.now) }
{
    for number in numbers {
        push_number(out, *number)?;
    }
    Ok(())
}
