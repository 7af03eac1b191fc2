// Cubes as lines.
ghost use Rattle.std.specs.{Prelude.{IfOk, map}, List.Sorted.{IsPermutation}};
ghost use Rattle.fd_spelling.specs.Texts.{texts};
ghost use Rattle.fd_cubes.specs.{Axes.{AreSorted}, Cubes.{cube_text}};

use crate::cube::Cube;
use fd_bytes::NoMemory;
use std::alloc::Global;

/// The texts of cubes, in byte order.
pub fn lines_of(alloc: Global, cubes: &[Cube]) -> Result<Vec<String>, NoMemory>
    ensures same { IfOk result (λ v. IsPermutation (map cube_text cubes.now) (texts v.items)) }
    ensures sorted { IfOk result (λ v. AreSorted (texts v.items)) }
{
    let mut lines = Vec::new(alloc);
    for cube in cubes {
        lines.push(cube.text(alloc)?)?;
    }
    lines.sort()?;
    Ok(lines)
}
