ghost use Rattle.std.specs.{Prelude.{◌≡◌, ◌≤◌, ◌++◌, ◌∷◌, IfOk, OnOk, Ok, List, length, string_bytes}, List.{All}};
ghost use Rattle.fd_spelling.specs.Texts.{texts};
ghost use Rattle.fd_request.specs.{Expansion.{expand}, Limits.{request_of}};
ghost use Rattle.fd_cubes.specs.{Cubes.{cube_text, more_values, values_text}, Axes.{IsFilled, seen_axes}};

use crate::axis::Axis;
use crate::grid::Grid;
use fd_bytes::NoMemory;
use std::alloc::Global;
use std::marker::Model;

/// Names with their values: the request of all keys that have one of the values for each name. Values stand in byte order.
#[derive(Drop)]
pub struct Cube {
    pub(crate) grid: Grid,
    pub(crate) text: String,
    pub(crate) count: u32,
}

impl Model for Cube {
    ghost use Rattle.std.specs.Prelude.{List, string_bytes};
    ghost use Rattle.fd_request.specs.Expansion.{Keyword};
    ghost use Rattle.fd_cubes.specs.{Axes.{seen_axes}, Cubes.{IsPrinted}};

    ghost Value = { List Keyword };

    ghost view = { λ c. seen_axes c.grid.axes.items };

    ghost invariant = { λ c. IsPrinted (seen_axes c.grid.axes.items) (string_bytes c.text) c.count };
}

impl Cube {
    /// The number of its keys.
    pub fn count(&self) -> u32
        ensures { result ≡ length (expand self.now) }
    {
        self.count
    }

    /// The cube as a request in the manner of MARS, `retrieve,name=v/w,..`. Reading it gives the cube's names and values, and
    /// so its keys.
    pub fn text(&self, alloc: Global) -> Result<String, NoMemory>
        ensures text { IfOk result (λ s. string_bytes s ≡ cube_text self.now) }
        ensures read { IfOk result (λ s. request_of (string_bytes s) ≡ Ok self.now) }
    {
        Ok(String::from_str(alloc, self.text.as_str())?)
    }
}

/// Appends values, each behind a slash.
fn push_more(out: &mut String, values: &[String]) -> Result<(), NoMemory>
    ensures { OnOk result (string_bytes out.new ≡ string_bytes out.old ++ more_values (texts values.now)) }
{
    for value in values {
        out.push('/')?;
        out.push_str(value.as_str())?;
    }
    Ok(())
}

/// Appends values with slashes between them.
fn push_listed(out: &mut String, values: &[String]) -> Result<(), NoMemory>
    ensures { OnOk result (string_bytes out.new ≡ string_bytes out.old ++ values_text (texts values.now)) }
{
    match values {
        [] => Ok(()),
        [first, others @ ..] => {
            out.push_str(first.as_str())?;
            push_more(out, others)
        }
    }
}

/// Appends a name with its values, behind a comma.
fn push_axis(out: &mut String, axis: &Axis) -> Result<(), NoMemory>
    ensures { OnOk result (string_bytes out.new ≡ string_bytes out.old ++ 44 ∷ (string_bytes axis.now.name ++ 61 ∷ values_text (texts axis.now.values.items))) }
{
    out.push(',')?;
    out.push_str(axis.name.as_str())?;
    out.push('=')?;
    push_listed(out, &axis.values)
}

/// Names with their values as a request.
pub(crate) fn text_of(alloc: Global, axes: &[Axis]) -> Result<String, NoMemory>
    ensures { IfOk result (λ s. string_bytes s ≡ cube_text (seen_axes axes.now)) }
{
    let mut out = String::from_str(alloc, "retrieve")?;
    for axis in axes {
        push_axis(&mut out, axis)?;
    }
    Ok(out)
}

/// The number of keys.
pub(crate) fn count_of(axes: &[Axis]) -> u32
    requires few { length (expand (seen_axes axes.now)) ≤ 262144 }
    requires filled { All IsFilled (seen_axes axes.now) }
    ensures { result ≡ length (expand (seen_axes axes.now)) }
{
    let mut count = 1usize;
    let mut left = axes.len();
    while left > 0 {
        left -= 1;
        count *= axes[left].values.len();
    }
    count as u32
}
