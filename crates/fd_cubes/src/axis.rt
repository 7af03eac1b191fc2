// Names with their values.
ghost use Rattle.std.specs.{Prelude.{◌≡◌, ◌-◌, ◌^◌, ◌++◌, ◌∷◌, ◌↔◌, [], IsTrue, IfOk, OnOk, min}, List.Sorted.{IsPermutation}};
ghost use Rattle.fd_spelling.specs.Texts.{texts};
ghost use Rattle.fd_cubes.specs.Axes.{AreSorted, SameBut, seen_axis, seen_axes, values_at, width};

use fd_bytes::NoMemory;
use std::alloc::Global;

/// A name with its values.
#[derive(Drop)]
pub(crate) struct Axis {
    pub(crate) name: String,
    pub(crate) values: Vec<String>,
}

/// A name with one value.
pub(crate) fn axis_of(alloc: Global, name: &str, value: &str) -> Result<Axis, NoMemory>
    ensures { IfOk result (λ a. seen_axis a ≡ record { name = name.now; values = value.now ∷ [] }) }
{
    let mut values = Vec::new(alloc);
    values.push(String::from_str(alloc, value)?)?;
    Ok(Axis {
        name: String::from_str(alloc, name)?,
        values,
    })
}

/// The bytes of values, each with a mark.
pub(crate) fn width(values: &[String]) -> usize
    ensures { result ≡ min (width (texts values.now)) (2 ^ 64 - 1) }
{
    let mut total = 0usize;
    for value in values {
        total = total.saturating_add(value.len() + 1);
    }
    total
}

/// The values of the name at a place.
pub(crate) fn values_at(axes: &[Axis], place: usize) -> &[String]
    ensures { texts result.now ≡ values_at place (seen_axes axes.now) }
{
    if place < axes.len() {
        &axes[place].values
    } else {
        &[]
    }
}

/// Tells that none of the values in front is above those behind them, where both are in byte order.
fn go_before(front: &[String], behind: &[String]) -> bool
    ensures { IsTrue result → AreSorted (texts front.now) → AreSorted (texts behind.now) → AreSorted (texts front.now ++ texts behind.now) }
{
    if front.is_empty() || behind.is_empty() {
        return true;
    }
    let last = front[front.len() - 1].as_str();
    behind[0].as_str().cmp(last).is_ge()
}

/// Puts values among others that are in byte order, as they are.
pub(crate) fn add_values(values: &mut Vec<String>, more: Vec<String>) -> Result<(), NoMemory>
    ensures same { OnOk result (IsPermutation (texts values.old.items ++ texts more.items) (texts values.new.items)) }
    ensures sorted { OnOk result (AreSorted (texts values.old.items) → AreSorted (texts more.items) → AreSorted (texts values.new.items)) }
{
    let mut more = more;
    if go_before(values, &more) {
        values.append(&mut more)?;
        return Ok(());
    }
    values.append(&mut more)?;
    values.sort()?;
    Ok(())
}

/// Tells that values are the same in the same order.
fn same_values(one: &[String], other: &[String]) -> bool
    ensures { IsTrue result ↔ (texts one.now ≡ texts other.now) }
{
    if one.len() != other.len() {
        return false;
    }
    for i in 0..one.len() {
        if one[i].as_str() != other[i].as_str() {
            return false;
        }
    }
    true
}

/// Tells that the two differ at most in the values of the name at a place.
pub(crate) fn same_but(one: &[Axis], other: &[Axis], place: usize) -> bool
    ensures { IsTrue result ↔ SameBut place (seen_axes one.now) (seen_axes other.now) }
{
    if one.len() != other.len() {
        return false;
    }
    for i in 0..one.len() {
        if one[i].name.as_str() != other[i].name.as_str() {
            return false;
        }
        if i != place && !same_values(&one[i].values, &other[i].values) {
            return false;
        }
    }
    true
}
