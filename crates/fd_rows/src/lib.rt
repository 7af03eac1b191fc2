//! Tables of tests, as one text: each row has a text, a bar, and what is wanted of the text; and bytes that several tests want.
#![tactic(auto)]

use std::alloc::{AllocError, Global};

/// The lines of the first message that is made up.
pub const DESCRIBED: &str = "message 1 length 183
ident 98 0 2 0 1 2024 1 1 0 0 0 0 1
grid 0 points 4 6 - - - - - - 2 2 0 - 10000000 0 48 0 10000000 10000000 10000000 0
product 0 0 0 2 0 0 0 0 1 0 100 0 100000 255 - -
packing 0 coded 4 reference 1140457472 binary -1 decimal 1 bits 8 original 0
map 255
key centre=98,date=20240101,time=0000,type=1,param=0.0.0,levtype=100,levelist=100000,step=0
";

/// The first row of a table: its text, what is wanted of it, and the rows behind it.
pub fn row(table: &str) -> Option<(&str, &str, &str)> {
    let (row, rest) = table.split_once('\n')?;
    let (text, want) = row.split_once('|')?;
    Some((text, want, rest))
}

/// A text in which each `~` stands for the end of a line.
pub fn lines(alloc: Global, text: &str) -> Option<Vec<u8>> {
    let mut lines = text.as_bytes().to_vec(alloc).ok()?;
    for byte in &mut lines {
        if *byte == b'~' {
            *byte = b'\n';
        }
    }
    Some(lines)
}

/// Tells what holds of a row in whose text each `~` stands for the end of a line.
pub fn of_lines(
    alloc: Global,
    text: &str,
    want: &str,
    holds: fn(Global, &[u8], &str) -> bool,
) -> bool
    requires { IsAlwaysCallable holds }
{
    match lines(alloc, text) {
        Some(text) => holds(alloc, &text, want),
        None => false,
    }
}

/// Tells that a text was made, and is what is wanted.
pub fn is(told: Result<String, AllocError>, want: &str) -> bool {
    match told {
        Ok(told) => told.as_str() == want,
        Err(_) => false,
    }
}

/// The number of rows up to the first one that doesn't hold, or of all.
pub fn agreed(alloc: Global, table: &str, holds: fn(Global, &str, &str) -> bool) -> usize
    requires { IsAlwaysCallable holds }
{
    let mut rest = table;
    for n in 0..100usize {
        let Some((text, want, more)) = row(rest) else {
            return n;
        };
        if !holds(alloc, text, want) {
            return n;
        }
        rest = more;
    }
    0
}

/// The first bytes of the table of the dataset `a=1`, up to the end of its first entry: a batch of 2 fields with files of 549
/// and 4,120 bytes.
pub fn table_of_one(alloc: Global) -> Result<Vec<u8>, AllocError> {
    let mut bytes = b"FDTOC001\0\x03a=1".to_vec(alloc)?;
    bytes.resize(320, 0)?;
    bytes.extend_from_slice(b"\x4F\x01\0\0\0\x01\0\0\0\x01\0\0\0\x02")?;
    bytes.extend_from_slice(b"\0\0\0\0\0\0\x10\x18\0\0\0\0\0\0\x02\x25")?;
    bytes.resize(384, 0)?;
    Ok(bytes)
}
