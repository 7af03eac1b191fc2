// A message that is split into its fields.
ghost use Rattle.std.specs.{Prelude.{◌≡◌, ◌≤◌, ◌<◌, ◌++◌, [], List, All, true, length, map, take, drop, slice_index_or, IfOk, OnOk}, Option.{option_copied}};
ghost use Rattle.byteorder.specs.Endian.{big_bytes};
ghost use Rattle.fd_sections.specs.Message.{if_present, message_octets};
ghost use Rattle.fd_split.specs.{Reading.{reading_fields, round_at, round_before, rounds_at}, Seen.{AreRead, IsOpened, IsWhole, seen_parts}};

use crate::cutting::{Parts, cut};
use crate::fault::SplitFault;
use crate::rounds::{read_rounds, round};
use crate::slices::Slices;
use fd_bytes::NoMemory;
use fd_sections::{indicator, section};
use std::alloc::Global;
use std::marker::Model;

// Reads all rounds of a message of so many octets, behind section 1.
#[tactic(auto, using(crate::proofs::Loops::rounds_all))]
fn read_all<'a>(total: u64, rest: &'a [u8], rounds: &mut Vec<Slices<'a>>) -> Result<(), SplitFault>
    requires fits { length rest.now ≤ total }
    requires none { rounds.old.items ≡ [] }
    ensures read { AreRead (round_before (round_at true rest.now) (rounds_at total)) [] rounds.new.items result }
    ensures few { length rounds.new.items ≤ length rest.now }
{
    match round(rest, true) {
        Ok((first, after)) => {
            match rounds.push(first) {
                Ok(()) => {}
                Err(_) => return Err(SplitFault::NoMemory),
            }
            read_rounds(total, after, rounds)
        }
        Err(bad) => Err(SplitFault::Bad(bad)),
    }
}

// The octets of a section that may be left out.
fn present(section: Option<&[u8]>) -> &[u8]
    ensures { result.now ≡ if_present (option_copied section.entry) }
{
    match section {
        Some(octets) => octets,
        None => b"",
    }
}

// Puts the octets of all sections into an empty buffer.
fn put_sections(
    indicator: &[u8],
    identification: &[u8],
    parts: &Parts<'_>,
    out: &mut Vec<u8>,
) -> Result<(), NoMemory>
    requires none { out.old.items ≡ [] }
    ensures { OnOk result (out.new.items ≡ message_octets (seen_parts indicator.now identification.now parts.now)) }
{
    out.extend_from_slice(indicator)?;
    out.extend_from_slice(identification)?;
    out.extend_from_slice(present(parts.local_use))?;
    out.extend_from_slice(parts.grid)?;
    out.extend_from_slice(parts.product)?;
    out.extend_from_slice(parts.representation)?;
    out.extend_from_slice(parts.bit_map)?;
    out.extend_from_slice(parts.values)?;
    out.extend_from_slice(b"7777")?;
    Ok(())
}

// Writes the length of a message into its octets 9 to 16.
fn measure(out: &mut Vec<u8>)
    requires { 16 ≤ length out.old.items }
    ensures { out.new.items ≡ take 8 out.old.items ++ (big_bytes 8 (length out.old.items) ++ drop 16 out.old.items) }
{
    let size = (out.len() as u64).to_be_bytes();
    out[8..16].copy_from_slice(&size);
}

/// The fields of a message, lent from its octets.
#[derive(Drop)]
pub struct Fields<'a> {
    indicator: &'a [u8],
    identification: &'a [u8],
    parts: Vec<Parts<'a>>,
}

impl<'a> Model for Fields<'a> {
    ghost use Rattle.std.specs.Prelude.{◌≡◌, ◌≤◌, ◌<◌, List, length, map, vec_len};
    ghost use Rattle.fd_sections.specs.Message.{Sections};
    ghost use Rattle.fd_split.specs.{Rounds.{measured_all}, Seen.{seen_parts}};

    ghost Value = { List Sections };

    ghost view = { λ f. measured_all (map (seen_parts f.indicator.now f.identification.now) f.parts.items) };

    ghost invariant = { λ f. (length f.indicator.now ≡ 16) × (vec_len f.parts ≤ 134217728) };
}

impl<'a> Fields<'a> {
    /// Splits the octets of a message into its fields, or tells the first thing that is wrong. Sections 2 to 7, 3 to 7 or 4 to 7 may
    /// come again. Once all sections are read, of several fields each that has the bit map of the one before it must have one.
    pub fn open(alloc: Global, bytes: &'a [u8]) -> Result<Fields<'a>, SplitFault>
        ensures opened { IsOpened (λ f. f) (reading_fields bytes.now) result }
        ensures whole { IfOk result (All IsWhole) }
        ensures some { IfOk result (λ f. 0 < length f) }
        ensures few { IfOk result (λ f. length f ≤ length bytes.now) }
    {
        let (indicator, rest) = match indicator(bytes) {
            Ok(read) => read,
            Err(bad) => return Err(SplitFault::Bad(bad)),
        };
        let (identification, rest) = match section(rest, 1, 21) {
            Ok(read) => read,
            Err(bad) => return Err(SplitFault::Bad(bad)),
        };
        let mut rounds = Vec::new(alloc);
        match read_all(bytes.len() as u64, rest, &mut rounds) {
            Ok(()) => {}
            Err(fault) => return Err(fault),
        }
        let mut parts = Vec::new(alloc);
        let lacking = match cut(&rounds, &mut parts) {
            Ok(lacking) => lacking,
            Err(_) => return Err(SplitFault::NoMemory),
        };
        match lacking {
            Some(field) => {
                if parts.len() > 1 {
                    return Err(SplitFault::NoMap { field });
                }
            }
            None => {}
        }
        Ok(Fields {
            indicator,
            identification,
            parts,
        })
    }

    /// How many fields there are.
    pub fn count(&self) -> u32
        ensures { result ≡ length self.now }
    {
        self.parts.len() as u32
    }

    /// The octets of a field, from 0, as a message of its own, with its own length.
    pub fn field(&self, alloc: Global, i: u32) -> Result<Vec<u8>, NoMemory>
        requires { i < length self.now }
        ensures { (s : _) → IfOk result (λ v. v.items ≡ message_octets (slice_index_or self.now i s)) }
    {
        let mut out = Vec::new(alloc);
        self.put(i, &mut out)?;
        Ok(out)
    }

    /// Puts the octets of a field, from 0, into an empty buffer.
    pub fn put(&self, i: u32, out: &mut Vec<u8>) -> Result<(), NoMemory>
        requires inside { i < length self.now }
        requires none { out.old.items ≡ [] }
        ensures { (s : _) → OnOk result (out.new.items ≡ message_octets (slice_index_or self.now i s)) }
    {
        let parts = &self.parts[i as usize];
        put_sections(self.indicator, self.identification, parts, out)?;
        if self.parts.len() > 1 {
            measure(out);
        }
        Ok(())
    }
}
