ghost use Rattle.std.specs.{Prelude.{◌≡◌, ◌≤◌, ◌<◌, ◌^◌, ◌++◌, [], ◌∷◌, Some, None, if◌then◌else◌, length, take, drop}, Int.{w32, w64, from_be_bytes}};
ghost use Rattle.fd_entries.specs.Table.{body_of, digest_octets, entry_in, gate_at, has_digest, kind_of};

/// The byte of an open gate.
pub const OPEN: u8 = 0x4F;

/// The byte of a closed gate as it is written; a reader takes every byte but `OPEN` for a closed gate.
pub const CLOSED: u8 = 0;

/// The place of a gate in the table.
pub fn gate_at(number: usize) -> usize
    requires { number ≤ 65535 }
    ensures place { result ≡ gate_at number }
    ensures small { result < 2 ^ 32 }
{
    320 + 64 * number
}

/// The number in four octets.
pub(crate) fn number_4(bytes: &[u8]) -> u32
    requires { length bytes.now ≡ 4 }
    ensures { result ≡ from_be_bytes w32 bytes.now }
{
    match bytes {
        [a, b, c, d] => u32::from_be_bytes([*a, *b, *c, *d]),
        _ => unreachable!(),
    }
}

/// The number in eight octets.
pub(crate) fn number_8(bytes: &[u8]) -> u64
    requires { length bytes.now ≡ 8 }
    ensures { result ≡ from_be_bytes w64 bytes.now }
{
    match bytes {
        [a, b, c, d, e, f, g, h] => u64::from_be_bytes([*a, *b, *c, *d, *e, *f, *g, *h]),
        _ => unreachable!(),
    }
}

/// A batch that a table lists, by the two files in which it stands.
#[derive(Clone, Copy, Debug, PartialEq, Eq)]
pub struct Entry {
    /// The number of the writer that listed the batch.
    pub writer: u32,
    /// The number of the batch among this writer's, from 1.
    pub seq: u32,
    /// The number of distinct keys.
    pub fields: u32,
    /// The length of the index file in bytes.
    pub index_len: u64,
    /// The length of the field file in bytes.
    pub fields_len: u64,
    /// The SHA-256 of the index file, where the batch has digests.
    pub digest: Option<[u8; 32]>,
}

impl Entry {
    /// The entry whose body begins these bytes, behind its gate.
    pub fn from_body(bytes: &[u8]) -> Entry
        requires { 63 ≤ length bytes.now }
        ensures { result ≡ entry_in bytes.now }
    {
        Entry {
            writer: number_4(&bytes[1..5]),
            seq: number_4(&bytes[5..9]),
            fields: number_4(&bytes[9..13]),
            index_len: number_8(&bytes[13..21]),
            fields_len: number_8(&bytes[21..29]),
            digest: digest_in(bytes),
        }
    }

    /// What is written to list the entry: the 63 bytes behind its gate, and the next gate, which is closed.
    pub fn body(&self) -> [u8; 64]
        ensures { result ≡ body_of self.now ++ 0 ∷ [] }
    {
        let w = self.writer.to_be_bytes();
        let s = self.seq.to_be_bytes();
        let f = self.fields.to_be_bytes();
        let x = self.index_len.to_be_bytes();
        let y = self.fields_len.to_be_bytes();
        let k = kind_of(&self.digest);
        let d = octets_of(&self.digest);
        [
            k, w[0], w[1], w[2], w[3], s[0], s[1], s[2], s[3], f[0], f[1], f[2], f[3], x[0], x[1],
            x[2], x[3], x[4], x[5], x[6], x[7], y[0], y[1], y[2], y[3], y[4], y[5], y[6], y[7],
            d[0], d[1], d[2], d[3], d[4], d[5], d[6], d[7], d[8], d[9], d[10], d[11], d[12], d[13],
            d[14], d[15], d[16], d[17], d[18], d[19], d[20], d[21], d[22], d[23], d[24], d[25],
            d[26], d[27], d[28], d[29], d[30], d[31], 0, 0, 0,
        ]
    }
}

/// The kind of an entry with this digest, or without one.
fn kind_of(digest: &Option<[u8; 32]>) -> u8
    ensures { result ≡ kind_of digest.now }
{
    match digest {
        None => 1,
        Some(_) => 2,
    }
}

/// The octets of the digest, or zeros where there is none.
fn octets_of(digest: &Option<[u8; 32]>) -> [u8; 32]
    ensures { result ≡ digest_octets 32 0 digest.now }
{
    match digest {
        None => [0; 32],
        Some(d) => [
            d[0], d[1], d[2], d[3], d[4], d[5], d[6], d[7], d[8], d[9], d[10], d[11], d[12], d[13],
            d[14], d[15], d[16], d[17], d[18], d[19], d[20], d[21], d[22], d[23], d[24], d[25],
            d[26], d[27], d[28], d[29], d[30], d[31],
        ],
    }
}

/// The digest of the entry whose body begins these bytes, where it is of kind 2.
fn digest_in(bytes: &[u8]) -> Option<[u8; 32]>
    requires { 63 ≤ length bytes.now }
    ensures { result ≡ (if has_digest bytes.now then Some (take 32 (drop 29 bytes.now)) else None) }
{
    if has_digest(bytes) {
        Some(digest_behind(bytes))
    } else {
        None
    }
}

/// Whether the slot whose body begins these bytes is of kind 2.
pub fn has_digest(bytes: &[u8]) -> bool
    ensures { result ≡ has_digest bytes.now }
{
    match bytes {
        [] => false,
        [kind, ..] => *kind == 2,
    }
}

/// The 32 octets behind the numbers of a body.
fn digest_behind(bytes: &[u8]) -> [u8; 32]
    requires { 63 ≤ length bytes.now }
    ensures { result ≡ take 32 (drop 29 bytes.now) }
{
    let mut octets = [0; 32];
    octets.copy_from_slice(&bytes[29..61]);
    octets
}

/// The first octet of a table that is not in the format.
#[derive(Clone, Copy, Debug, PartialEq, Eq)]
pub struct NotATable {
    /// The place of the octet, from 0.
    pub at: u64,
    /// The octet of the format; 0 where a number that may have any value, or the last gate, is missing, and where
    /// gate 65,535 is open.
    pub want: u8,
    /// The octet that stands there, or none where the bytes end before it.
    pub found: Option<u8>,
}
