ghost use Rattle.std.specs.Prelude.{◌≡◌, ◌<◌, ℕ, slice_index, ◌*◌, ◌-◌, ◌%◌, ◌^◌, ◌≤◌, ◌++◌, length, IfOk, position, nat_le, replicate};
ghost use Rattle.fd_packing.specs.{Bits.{bits_of, number_at, packed}, Pack.{FaultIs}};

use crate::fault::PackFault;
use crate::writer::BitWriter;
use fd_bytes::NoMemory;
use std::alloc::Global;

fn is_wide(x: u64, bits: u32) -> bool
    requires { bits ≤ 64 }
    ensures { result ≡ nat_le (2 ^ bits) x }
{
    bits < 64 && x >> bits > 0
}

fn first_wide(xs: &[u64], bits: u32) -> Option<usize>
    requires { bits ≤ 64 }
    ensures { result ≡ position (λ x. nat_le (2 ^ bits) x) xs.now }
{
    xs.iter().position(|x| is_wide(*x, bits))
}

fn write_all(alloc: Global, xs: &[u64], bits: u32) -> Result<Vec<u8>, NoMemory>
    requires { bits ≤ 64 }
    ensures { IfOk result (λ v. bits_of v.items ≡ packed bits xs.now ++ replicate ((8 - length (packed bits xs.now) % 8) % 8) 0) }
{
    let mut writer = BitWriter::new(alloc);
    for x in xs {
        writer.push_number(*x, bits)?;
    }
    writer.finish()
}

/// The numbers one after the other, `bits` of each, which is at most 64, and zeros to the end of the last byte.
/// `DoesNotFit` comes exactly where a number has more than `bits` digits, with the place of the first.
pub fn pack(alloc: Global, xs: &[u64], bits: u8) -> Result<Vec<u8>, PackFault>
    requires { bits ≤ 64 }
    // Where the first number stands that doesn't fit, if there is one.
    ensures fault { FaultIs result (position (λ x. nat_le (2 ^ bits) x) xs.now) }
    // All bits of the result.
    ensures bytes { IfOk result (λ v. bits_of v.items ≡ packed bits xs.now
        ++ replicate ((8 - length (packed bits xs.now) % 8) % 8) 0) }
    // Each number is read again at its place.
    ensures numbers { IfOk result (λ v. (j : ℕ) → j < length xs.now → number_at v.items (j * bits) bits ≡ slice_index xs.now j) }
{
    match first_wide(xs, bits as u32) {
        Some(at) => Err(PackFault::DoesNotFit { at: at as u64 }),
        None => Ok(write_all(alloc, xs, bits as u32)?),
    }
}
