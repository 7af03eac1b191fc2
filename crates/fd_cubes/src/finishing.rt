// Cubes as they are handed out.
ghost use Rattle.std.specs.{Prelude.{◌≡◌, IfOk}, List.{All}, List.Sorted.{IsPermutation}};
ghost use Rattle.fd_request.specs.Expansion.{expand};
ghost use Rattle.fd_cubes.specs.{Cubes.{AreKeys, keys_of}, Grids.{IsGrid, seen_grid, seen_grids}};

use crate::cube::{Cube, count_of, text_of};
use crate::grid::Grid;
use fd_bytes::NoMemory;
use std::alloc::Global;

/// A cube with its text and its number of keys.
fn cube_of(alloc: Global, grid: Grid) -> Result<Cube, NoMemory>
    requires grid { IsGrid grid }
    requires keys { AreKeys (expand (seen_grid grid)) }
    ensures { IfOk result (λ c. c ≡ seen_grid grid) }
{
    let text = text_of(alloc, &grid.axes)?;
    let count = count_of(&grid.axes);
    Ok(Cube { grid, text, count })
}

/// The cubes with their texts, the last one first.
pub(crate) fn cubes_of(alloc: Global, grids: Vec<Grid>) -> Result<Vec<Cube>, NoMemory>
    requires grids { All IsGrid grids.items }
    requires keys { AreKeys (keys_of (seen_grids grids.items)) }
    ensures { IfOk result (λ v. IsPermutation (seen_grids grids.items) v.items) }
{
    let mut left = grids;
    let mut done = Vec::new(alloc);
    while let Some(grid) = left.pop() {
        done.push(cube_of(alloc, grid)?)?;
    }
    Ok(done)
}
