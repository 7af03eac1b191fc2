// The cubes that differ in the values of one name, joined.
ghost use Rattle.std.specs.{Prelude.{◌≡◌, ◌<◌, ◌++◌, ◌∷◌, [], IfOk, IfSome, IsTrue, List, None, OnOk, Some, cond, false, if◌then◌else◌, length, slice_get, string_bytes, ℕ}, List.{All}, List.Sorted.{IsPermutation}, Str.{bytes_eq}};
ghost use Rattle.fd_spelling.specs.Texts.{texts};
ghost use Rattle.fd_cubes.specs.declared.grid.Grid as code_grid;
ghost use Rattle.fd_cubes.specs.{Axes.{code, seen_axes, values_code, with_values}, Grids.{IsGrid, IsNoting, IsSettled, NoneTakes, PassesTo, Puts, Takes, noted, rest_of}};

use crate::axis::{Axis, values_at};
use crate::grid::Grid;
use fd_bytes::NoMemory;
use std::alloc::Global;
use std::collections::BTreeMap;

/// For the text of a cube without the values of one name, the places of the cubes that have this text.
type Alike = BTreeMap<String, Vec<usize>>;

/// Appends values, each with a slash behind it.
fn push_values(out: &mut String, values: &[String]) -> Result<(), NoMemory>
    ensures { OnOk result (string_bytes out.new ≡ string_bytes out.old ++ values_code (texts values.now)) }
{
    for value in values {
        out.push_str(value.as_str())?;
        out.push('/')?;
    }
    Ok(())
}

/// Appends a name, `=`, values and a comma.
fn push_axis(out: &mut String, name: &str, values: &[String]) -> Result<(), NoMemory>
    ensures { OnOk result (string_bytes out.new ≡ string_bytes out.old ++ code (record { name = name.now; values = texts values.now } ∷ [])) }
{
    out.push_str(name)?;
    out.push('=')?;
    push_values(out, values)?;
    out.push(',')?;
    Ok(())
}

/// The values of a name, or none.
fn values_unless(bare: bool, axis: &Axis) -> &[String]
    ensures { texts result.now ≡ (if bare then [] else texts axis.now.values.items) }
{
    if bare { &[] } else { &axis.values }
}

/// A text that tells names with their values but for the values of the name at a place.
pub(crate) fn rest_text(alloc: Global, axes: &[Axis], place: usize) -> Result<String, NoMemory>
    ensures { IfOk result (λ s. string_bytes s ≡ code (with_values place [] (seen_axes axes.now))) }
{
    let mut out = String::new(alloc);
    for i in 0..axes.len() {
        let values = values_unless(place == i, &axes[i]);
        push_axis(&mut out, axes[i].name.as_str(), values)?;
    }
    Ok(out)
}

/// Tells that the cube at a place can take the values of another one.
fn can_take(grids: &[Grid], at: usize, grid: &Grid, place: usize) -> bool
    ensures within { IsTrue result → at < length grids.now }
    ensures takes { IsTrue result → (g : code_grid.Grid) → slice_get grids.now at ≡ Some g → Takes place g grid.now }
    ensures none { result ≡ false → (g : code_grid.Grid) → slice_get grids.now at ≡ Some g → Takes place g grid.now → ⊥ }
{
    at < grids.len() && grids[at].takes(grid, place)
}

/// The first of these cubes that can take the values of another one.
fn first_to_take(places: &[usize], grids: &[Grid], grid: &Grid, place: usize) -> Option<usize>
    ensures within { IfSome result (λ i. i < length grids.now) }
    ensures takes { IfSome result (λ i. (g : code_grid.Grid) → slice_get grids.now i ≡ Some g → Takes place g grid.now) }
    ensures none { result ≡ None → All (λ i. (g : code_grid.Grid) → slice_get grids.now i ≡ Some g → Takes place g grid.now → ⊥) places.now }
{
    for at in places {
        if can_take(grids, *at, grid, place) {
            return Some(*at);
        }
    }
    None
}

/// The places that stand at a text.
fn places_at<'a>(alike: &'a Alike, text: &str) -> &'a [usize]
    ensures { result.now ≡ noted alike.now text.now }
{
    match alike.get(text) {
        Some(places) => places,
        None => &[],
    }
}

/// The first cube with this text that can take the values of another one.
fn taker(alike: &Alike, text: &str, grids: &[Grid], grid: &Grid, place: usize) -> Option<usize>
    requires text { text.now ≡ rest_of place grid.now }
    requires noting { IsNoting place alike.now grids.now }
    ensures within { IfSome result (λ i. i < length grids.now) }
    ensures takes { IfSome result (λ i. (g : code_grid.Grid) → slice_get grids.now i ≡ Some g → Takes place g grid.now) }
    ensures none { result ≡ None → NoneTakes place grids.now grid.now }
{
    first_to_take(places_at(alike, text), grids, grid, place)
}

/// Takes out the places that stand at a text.
fn taken_places(alloc: Global, alike: &mut Alike, text: &str) -> Vec<usize>
    ensures places { result.items ≡ noted alike.old text.now }
    ensures left { (t : List ℕ) → noted alike.new t ≡ cond (bytes_eq text.now t) [] (noted alike.old t) }
{
    match alike.remove(text) {
        Some(places) => places,
        None => Vec::new(alloc),
    }
}

/// Notes that the cube at a place has this text.
fn note(alloc: Global, alike: &mut Alike, text: String, at: usize) -> Result<(), NoMemory>
    ensures { OnOk result ((t : List ℕ) → noted alike.new t ≡ cond (bytes_eq (string_bytes text) t) (noted alike.old (string_bytes text) ++ at ∷ []) (noted alike.old t)) }
{
    let mut places = taken_places(alloc, alike, text.as_str());
    places.push(at)?;
    alike.insert(text, places)?;
    Ok(())
}

/// Joins a cube to the first that can take its values, or puts it behind the others.
fn put(
    alloc: Global,
    place: usize,
    grids: &mut Vec<Grid>,
    alike: &mut Alike,
    grid: Grid,
) -> Result<(), NoMemory>
    requires each { All IsGrid grids.old.items }
    requires grid { IsGrid grid }
    requires settled { IsSettled place grids.old.items }
    requires noting { IsNoting place alike.old grids.old.items }
    ensures puts { OnOk result (Puts place grids.old.items grid grids.new.items) }
    ensures noting { OnOk result (IsNoting place alike.new grids.new.items) }
{
    let text = rest_text(alloc, &grid.axes, place)?;
    match taker(alike, text.as_str(), grids, &grid, place) {
        Some(at) => {
            grids[at].join(place, grid)?;
            Ok(())
        }
        None => {
            note(alloc, alike, text, grids.len())?;
            grids.push(grid)?;
            Ok(())
        }
    }
}

/// The first of the values at a place.
fn first_value(grid: &Grid, place: usize) -> &str {
    let values = values_at(&grid.axes, place);
    if values.is_empty() {
        ""
    } else {
        values[0].as_str()
    }
}

/// Puts cubes in the order of the first of their values at a place, the last in byte order first.
fn last_value_first(grids: &mut Vec<Grid>, place: usize) -> Result<(), NoMemory>
    ensures { IsPermutation grids.old.items grids.new.items }
{
    grids.sort_by(|one, other| first_value(other, place).cmp(first_value(one, place)))?;
    Ok(())
}

/// Joins cubes that differ in the values of the name at a place, until no two can be. In the order of these values each goes to
/// the first cube that has room for it.
pub(crate) fn pass(alloc: Global, place: usize, grids: Vec<Grid>) -> Result<Vec<Grid>, NoMemory>
    requires { All IsGrid grids.items }
    ensures { IfOk result (λ v. PassesTo place grids.items v.items) }
{
    let mut left = grids;
    last_value_first(&mut left, place)?;
    let mut done = Vec::new(alloc);
    let mut alike = BTreeMap::new(alloc);
    while let Some(grid) = left.pop() {
        put(alloc, place, &mut done, &mut alike, grid)?;
    }
    Ok(done)
}
