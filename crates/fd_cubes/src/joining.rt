// Two cubes as one.
ghost use Rattle.std.specs.Prelude.{◌≡◌, ◌≤◌, ◌↔◌, ◌∷◌, [], IsTrue, IfOk, OnOk, length};
ghost use Rattle.fd_key.specs.Pairs.{key_text};
ghost use Rattle.fd_request.specs.Expansion.{expand};
ghost use Rattle.fd_cubes.specs.{Cubes.{IsAskable, alone, cube_text}, Axes.{seen_axes}, Grids.{seen_grid, IsGrid, Joins, Takes}};

use crate::axis::{Axis, add_values, axis_of, same_but, values_at, width};
use crate::grid::{BYTES, Grid};
use fd_bytes::NoMemory;
use fd_key::Key;
use std::alloc::Global;

/// The names of a key, each with its value.
fn axes_of(alloc: Global, key: &Key) -> Result<Vec<Axis>, NoMemory>
    ensures { IfOk result (λ v. seen_axes v.items ≡ alone key.now) }
{
    let mut axes = Vec::new(alloc);
    for i in 0..key.len() {
        let (name, value) = key.pair(i);
        axes.push(axis_of(alloc, name, value)?)?;
    }
    Ok(axes)
}

/// The number of bytes of a key as a request.
fn size_of(alloc: Global, key: &Key) -> Result<usize, NoMemory>
    requires short { length (key_text key.now) ≤ 255 }
    ensures { IfOk result (λ n. n ≡ length (cube_text (alone key.now))) }
{
    if key.len() == 0 {
        return Ok(8);
    }
    Ok(key.text(alloc)?.len() + 9)
}

/// A key as the cube of itself.
pub(crate) fn grid_of(alloc: Global, key: &Key) -> Result<Grid, NoMemory>
    requires { IsAskable key.now }
    ensures grid { IfOk result IsGrid }
    ensures key { IfOk result (λ g. expand (seen_grid g) ≡ key.now ∷ []) }
{
    let axes = axes_of(alloc, key)?;
    let size = size_of(alloc, key)?;
    Ok(Grid { axes, size })
}

impl Grid {
    /// Tells that this cube can take the values that another has for the name at a place.
    pub(crate) fn takes(&self, other: &Grid, place: usize) -> bool
        ensures { IsTrue result ↔ Takes place self.now other.now }
    {
        if place >= self.axes.len() {
            return false;
        }
        let more = width(values_at(&other.axes, place));
        if self.size.saturating_add(more) > BYTES {
            return false;
        }
        same_but(&self.axes, &other.axes, place)
    }

    /// Takes the values that another cube has for the name at a place.
    pub(crate) fn join(&mut self, place: usize, other: Grid) -> Result<(), NoMemory>
        requires takes { Takes place self.old other }
        ensures { OnOk result (Joins place self.old other self.new) }
    {
        let Grid { mut axes, size: _ } = other;
        let Axis { name: _, values } = axes.swap_remove(place);
        self.size += width(&values);
        add_values(&mut self.axes[place].values, values)?;
        Ok(())
    }
}
