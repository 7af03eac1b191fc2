ghost use Rattle.std.specs.{Prelude.{[], if◌then◌else◌, max, ◌≡◌, ◌+◌, ◌≤◌, length, take, drop}, Int.{w32, from_be_bytes}};
ghost use Rattle.fd_entries.specs.{Table.{listed}, Numbers.{ListsSome, greatest_seq, entries_or_none}};

use fd_bytes::Bytes;

/// The greatest number that the table lists for a writer.
pub fn greatest(table: &Bytes, w: u32) -> u32
    requires { ListsSome table.now }
    ensures { result ≡ greatest_seq w (entries_or_none (listed [] table.now)) }
{
    let bytes = table.as_slice();
    let mut greatest = 0;
    for i in 0..65536usize {
        if bytes[320 + 64 * i] != 79 {
            return greatest;
        }
        let writer = number_at(bytes, 322 + 64 * i);
        let seq = number_at(bytes, 326 + 64 * i);
        greatest = with_slot(greatest, seq, writer == w);
    }
    greatest
}

fn number_at(bytes: &[u8], at: usize) -> u32
    requires { at + 4 ≤ length bytes.now }
    ensures { result ≡ from_be_bytes w32 (take 4 (drop at bytes.now)) }
{
    u32::from_be_bytes([bytes[at], bytes[at + 1], bytes[at + 2], bytes[at + 3]])
}

fn with_slot(greatest: u32, seq: u32, same: bool) -> u32
    ensures { result ≡ (if same then max greatest seq else greatest) }
{
    if same && greatest < seq {
        seq
    } else {
        greatest
    }
}
