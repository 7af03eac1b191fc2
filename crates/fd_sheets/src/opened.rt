//! Messages of several fields, whose fields are taken one after the other.
ghost use Rattle.std.specs.Prelude.{◌≡◌, ◌<◌, ◌≤◌, All, [], length, drop, true, false};
ghost use Rattle.fd_split.specs.{Reading.{reading_fields}, Seen.{IsOpened, IsWhole}};
ghost use Rattle.fd_sheets.specs.Sheets.{TookFields, TookOne, TookSome};

use crate::rounds::Rounds;
use crate::sheets::Sheet;
use fd_bytes::{Bytes, NoMemory};
use fd_segment::Field;
use fd_split::{Fields, SplitFault};
use std::alloc::Global;
use std::marker::Model;

/// Puts a field of this message behind others.
pub(crate) fn put_sheet(
    number: u64,
    bytes: Bytes,
    rounds: &mut Rounds,
    sheets: &mut Vec<Sheet>,
) -> Result<(), NoMemory>
    ensures { TookOne number bytes sheets.old.items sheets.new.items result }
{
    let round = rounds.number();
    rounds.count(bytes.as_slice().len() as u64);
    sheets.push(Sheet {
        number,
        round,
        bytes: Field::new(bytes),
        found: None,
    })?;
    Ok(())
}

// Takes the fields of this message from the next one on, until the part has so many that it ends.
fn take_from(
    alloc: Global,
    number: u64,
    fields: &Fields<'_>,
    next: &mut u32,
    rounds: &mut Rounds,
    sheets: &mut Vec<Sheet>,
) -> Result<(), NoMemory>
    requires inside { next.old ≤ length fields.now }
    requires whole { All IsWhole fields.now }
    ensures inside { next.new ≤ length fields.now }
    ensures took { TookFields number (drop next.old fields.now) (drop next.new fields.now) sheets.old.items sheets.new.items }
    ensures some { TookSome (drop next.old fields.now) sheets.old.items sheets.new.items result }
{
    for i in *next..fields.count() {
        let field = fields.field(alloc, i)?;
        put_sheet(number, Bytes::from_vec(field), rounds, sheets)?;
        *next = i + 1;
        if rounds.is_part() {
            return Ok(());
        }
    }
    Ok(())
}

/// A message of several fields, of which some are still to come.
#[derive(Drop)]
pub(crate) struct Opened {
    octets: Vec<u8>,
    next: u32,
    count: u32,
}

impl Model for Opened {
    ghost use Rattle.std.specs.Prelude.{◌≡◌, ◌≤◌, List, length};
    ghost use Rattle.fd_sections.specs.Message.{Sections};
    ghost use Rattle.fd_split.specs.Reading.{reading_fields};
    ghost use Rattle.fd_sheets.specs.Opened.{all_fields, to_come};

    ghost Value = { List Sections };

    ghost view = { λ o. to_come o.octets.items o.next };

    ghost invariant = { λ o. (o.next ≤ o.count) × (o.count ≡ length (all_fields (reading_fields o.octets.items))) };
}

impl Opened {
    /// None is open.
    pub(crate) fn new(alloc: Global) -> Opened
        ensures { result ≡ [] }
    {
        Opened {
            octets: Vec::new(alloc),
            next: 0,
            count: 0,
        }
    }

    /// The message with these octets, of which no field was taken, or why it has none.
    pub(crate) fn of(alloc: Global, octets: &[u8]) -> Result<Opened, SplitFault>
        ensures { IsOpened (λ o. o) (reading_fields octets.now) result }
    {
        let count = match Fields::open(alloc, octets) {
            Ok(fields) => fields.count(),
            Err(fault) => return Err(fault),
        };
        let mut copy = Vec::new(alloc);
        match copy.extend_from_slice(octets) {
            Ok(()) => Ok(Opened {
                octets: copy,
                next: 0,
                count,
            }),
            Err(_) => Err(SplitFault::NoMemory),
        }
    }

    /// A field is to come.
    pub(crate) fn has_more(&self) -> bool
        ensures some { result ≡ true → 0 < length self.now }
        ensures none { result ≡ false → self.now ≡ [] }
    {
        self.next < self.count
    }

    /// Takes the fields that are to come, until the part has so many that it ends. Their message has this number.
    pub(crate) fn take(
        &mut self,
        alloc: Global,
        number: u64,
        rounds: &mut Rounds,
        sheets: &mut Vec<Sheet>,
    ) -> Result<(), NoMemory>
        ensures took { TookFields number self.old self.new sheets.old.items sheets.new.items }
        ensures some { TookSome self.old sheets.old.items sheets.new.items result }
    {
        if self.next == self.count {
            return Ok(());
        }
        let fields = match Fields::open(alloc, &self.octets) {
            Ok(fields) => fields,
            Err(SplitFault::NoMemory) => return Err(NoMemory),
            Err(_) => unreachable!(),
        };
        take_from(alloc, number, &fields, &mut self.next, rounds, sheets)
    }
}
