// The rounds of sections of a message, from left to right.
ghost use Rattle.std.specs.{Prelude.{◌≡◌, ◌≤◌, ◌+◌, length}, Option.{option_copied}};
ghost use Rattle.fd_sections.specs.Given.{Is};
ghost use Rattle.fd_split.specs.{Reading.{ends, grid_at, round_at, rounds_at}, Seen.{AreRead, seen}};

use crate::fault::SplitFault;
use crate::slices::Slices;
use fd_sections::{Bad, local_use, octet, repeats, section};

// Section 3, which may be left out where it isn't needed.
#[tactic(auto, unfolding(crate::specs::Reading::grid_at))]
fn grid(rest: &[u8], needed: bool) -> Result<(Option<&[u8]>, &[u8]), Bad>
    ensures { Is (λ x. (option_copied x.0, x.1.now)) result (grid_at needed rest.now) }
{
    if !needed && rest.len() >= 5 && octet(rest, 5) == 4 {
        Ok((None, rest))
    } else {
        let (grid, after) = section(rest, 3, 14)?;
        Ok((Some(grid), after))
    }
}

/// A round of sections, and what follows it.
#[tactic(auto, unfolding(crate::specs::Reading::round_at))]
pub(crate) fn round(rest: &[u8], first: bool) -> Result<(Slices<'_>, &[u8]), Bad>
    ensures read { Is (λ x. (seen x.0, x.1.now)) result (round_at first rest.now) }
{
    let (local_use, rest) = local_use(rest)?;
    let needed = first || local_use.is_some();
    let (grid, rest) = grid(rest, needed)?;
    let (product, rest) = section(rest, 4, 9)?;
    let (representation, rest) = section(rest, 5, 11)?;
    let (bit_map, rest) = section(rest, 6, 6)?;
    let (values, rest) = section(rest, 7, 5)?;
    Ok((
        Slices {
            local_use,
            grid,
            product,
            representation,
            bit_map,
            values,
        },
        rest,
    ))
}

// Section 8 comes, behind which nothing stands.
fn ends(rest: &[u8]) -> bool
    ensures { result ≡ ends rest.now }
{
    rest.len() == 4 && rest.starts_with(b"7777")
}

/// Reads the rounds that come in a message of so many octets.
pub(crate) fn read_rounds<'a>(
    total: u64,
    rest: &'a [u8],
    rounds: &mut Vec<Slices<'a>>,
) -> Result<(), SplitFault>
    requires { length rest.now ≤ total }
    ensures read { AreRead (rounds_at total rest.now) rounds.old.items rounds.new.items result }
    ensures few { length rounds.new.items ≤ length rounds.old.items + length rest.now }
{
    let mut rest = rest;
    while !ends(rest) {
        if !repeats(rest) {
            return Err(SplitFault::Bad(Bad::NoEnd {
                at: total - rest.len() as u64,
            }));
        }
        match round(rest, false) {
            Ok((round, after)) => {
                match rounds.push(round) {
                    Ok(()) => {}
                    Err(_) => return Err(SplitFault::NoMemory),
                }
                rest = after;
            }
            Err(bad) => return Err(SplitFault::Bad(bad)),
        }
    }
    Ok(())
}
