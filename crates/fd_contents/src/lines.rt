// The lines of one dataset.
ghost use Rattle.std.specs.Prelude.{◌≡◌, ◌≤◌, List, ℕ, Some, IfErr, OnErr, OnOk, length};
ghost use Rattle.fd_disk.specs.Folders.{Holdings};
ghost use Rattle.fd_io.specs.Streams.{TakesFront};
ghost use Rattle.fd_inventory.specs.{Indexes.{IsAmongBad, OnLines}, Written.{HasLinesCause}};
ghost use Rattle.fd_retrieve.specs.Open.{IsOpenIn};
ghost use Rattle.fd_contents.specs.{Listing.{lines_with}, Printed.{TakesText}, Texts.{text_for}};

use fd_disk::Sealed;
use fd_inventory::{LinesFault, axes, list, stats};
use fd_io::Sink;
use fd_request::Partial;
use fd_retrieve::Opened;
use std::alloc::Global;

/// What is written of the keys that a partial request asks for.
#[derive(Clone, Copy)]
pub(crate) enum KeyLines {
    /// A line for each key.
    List,
    /// A line for each name in the keys, with its values.
    Axes,
}

/// What is written of each dataset.
#[derive(Drop)]
pub(crate) enum Lines {
    /// A line for each key that is asked for.
    List(Partial),
    /// A line for each name in the keys that are asked for, with its values.
    Axes(Partial),
    /// One line, with the numbers of the whole.
    Stats,
}

/// Such lines of the keys that this partial request asks for.
pub(crate) fn lines_with(kind: KeyLines, partial: Partial) -> Lines
    ensures { result ≡ lines_with kind partial }
{
    match kind {
        KeyLines::List => Lines::List(partial),
        KeyLines::Axes => Lines::Axes(partial),
    }
}

/// Writes the lines of a dataset.
pub(crate) fn write_lines<F: Send, Z: Sealed<F>, X, K: Sink<X>>(
    alloc: Global,
    lines: &Lines,
    dataset: &Opened<F, Z>,
    sink: &mut K,
) -> Result<(), LinesFault<F, X>>
where
    requires short { length dataset.now.name ≤ 255 }
    ensures printed { OnOk result ((h : Holdings) → IsOpenIn h dataset.now → TakesText lines.now h dataset.now.name (K.taken sink.old) (K.taken sink.new)) }
    ensures front { OnErr result ((h : Holdings) (text : List ℕ) → IsOpenIn h dataset.now → text_for lines.now h dataset.now.name ≡ Some text → TakesFront (K.taken sink.old) (K.taken sink.new) text) }
    ensures damaged { IfErr result (λ e. OnLines e (IsAmongBad dataset.now.shown)) }
    ensures cause { HasLinesCause result (K.faults sink.old) (K.faults sink.new) }
{
    let name = dataset.name();
    match lines {
        Lines::List(partial) => list(alloc, name, dataset.snapshot(), partial, sink),
        Lines::Axes(partial) => axes(alloc, name, dataset.snapshot(), partial, sink),
        Lines::Stats => stats(alloc, name, dataset.snapshot(), sink),
    }
}
