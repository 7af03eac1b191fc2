use fd_disk::{Renew, Store};
use fd_io::{Gate, Sink, Source};
use std::alloc::Global;
use std::marker::PhantomData;

/// The kinds of the objects that a command is given.
pub trait World {
    /// A fault of the store.
    type StoreFault: Send + Drop;

    /// A fault of the input, the output or the report.
    type StreamFault: Drop;

    /// The store, whose datasets can be purged.
    type Store: Store<Self::StoreFault, Folder: Renew<Self::StoreFault>>;

    /// The input.
    type Input: Source<Self::StreamFault>;

    /// The output.
    type Output: Sink<Self::StreamFault>;

    /// The report.
    type Report: Sink<Self::StreamFault>;

    /// The gate.
    type Gate: Gate;
}

/// What a command is given.
pub struct Objects<W: World> {
    /// What memory is asked of.
    pub alloc: Global,
    /// The store.
    pub store: W::Store,
    /// What is read.
    pub input: W::Input,
    /// What the answer is written on.
    pub output: W::Output,
    /// What the lines of the status are written on.
    pub report: W::Report,
    /// What threads pass on their way.
    pub gate: W::Gate,
}

/// The world of objects of these kinds: of the faults of a store and of a stream, of a store, an input, an output, a report and a
/// gate.
pub struct Kinds<F, X, S, I, K, E, G> {
    of: PhantomData<(F, X, S, I, K, E, G)>,
}

impl<F: Send + Drop, X: Drop, S: Store<F>, I: Source<X>, K: Sink<X>, E: Sink<X>, G: Gate> World
    for Kinds<F, X, S, I, K, E, G>
where
    S::Folder: Renew<F>,
{
    type StoreFault = F;

    type StreamFault = X;

    type Store = S;

    type Input = I;

    type Output = K;

    type Report = E;

    type Gate = G;
}
