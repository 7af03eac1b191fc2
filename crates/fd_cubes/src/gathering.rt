// Keys as cubes.
ghost use Rattle.std.specs.{Prelude.{◌≡◌, ◌≤◌, ◌≢◌, IfOk, length}, List.{All, AllPairs}, List.Sorted.{IsPermutation}};
ghost use Rattle.fd_cubes.specs.{Cubes.{IsAskable, IsCube, keys_of}, Grids.{AreSettled, IsGrid, Regroups, RoundsTo, seen_grids}, Joining.{NoneCanJoin}};

use crate::cube::Cube;
use crate::finishing::cubes_of;
use crate::grid::Grid;
use crate::joining::grid_of;
use crate::passing::pass;
use fd_bytes::NoMemory;
use fd_key::Key;
use std::alloc::Global;

/// Each key as the cube of itself.
fn grids_of(alloc: Global, keys: &[Key]) -> Result<Vec<Grid>, NoMemory>
    requires { All IsAskable keys.now }
    ensures each { IfOk result (λ v. All IsGrid v.items) }
    ensures keys { IfOk result (λ v. keys_of (seen_grids v.items) ≡ keys.now) }
{
    let mut grids = Vec::new(alloc);
    for key in keys {
        grids.push(grid_of(alloc, key)?)?;
    }
    Ok(grids)
}

/// The most names of a cube.
fn most_names(grids: &[Grid]) -> usize
    ensures { All (λ g. length g.axes.items ≤ result) grids.now }
{
    let mut most = 0;
    for grid in grids {
        most = most.max(grid.axes.len());
    }
    most
}

/// Joins cubes that differ in the values of one name, by the last name first.
fn round(alloc: Global, grids: Vec<Grid>) -> Result<Vec<Grid>, NoMemory>
    requires { All IsGrid grids.items }
    ensures { IfOk result (λ v. RoundsTo grids.items v.items) }
{
    let mut place = most_names(&grids);
    let mut grids = grids;
    while place > 0 {
        place -= 1;
        grids = pass(alloc, place, grids)?;
    }
    Ok(grids)
}

/// Joins cubes until a round over all names changes nothing.
fn all_joined(alloc: Global, grids: Vec<Grid>) -> Result<Vec<Grid>, NoMemory>
    requires { All IsGrid grids.items }
    ensures keys { IfOk result (λ v. Regroups grids.items v.items) }
    ensures settled { IfOk result (λ v. AreSettled v.items) }
{
    let mut grids = grids;
    let mut before = grids.len() + 1;
    while grids.len() < before {
        before = grids.len();
        grids = round(alloc, grids)?;
    }
    Ok(grids)
}

/// Keys as cubes: requests that have exactly these keys, each key in one of them. The keys are distinct ones that a request can
/// name, at most 262,144; so no value is one of the words `to` and `by`, which requests read as parts of a range.
///
/// Cubes with the same names in the same order and the same values in all but one of them become the cube with the values of
/// both, where its text has at most 65,536 bytes: by the last name first, then by the name before it, and so on, in rounds until
/// one of them joins nothing. No two of what is left can be joined.
pub fn cubes(alloc: Global, keys: &[Key]) -> Result<Vec<Cube>, NoMemory>
    requires askable { All IsAskable keys.now }
    requires distinct { AllPairs (λ a b. a ≢ b) keys.now }
    requires few { length keys.now ≤ 262144 }
    ensures keys { IfOk result (λ v. IsPermutation keys.now (keys_of v.items)) }
    ensures joined { IfOk result (λ v. NoneCanJoin v.items) }
    ensures each { IfOk result (λ v. All IsCube v.items) }
{
    let grids = grids_of(alloc, keys)?;
    let grids = all_joined(alloc, grids)?;
    let cubes = cubes_of(alloc, grids)?;
    Ok(cubes)
}
