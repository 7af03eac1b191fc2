// A world whose store stops.
use fd_objects::World;
use fd_stopped::{StopFault, Stopped};
use std::marker::PhantomData;

/// The world of the same objects, but for a store that passes so many calls on and fails all later ones.
pub struct Stopping<W> {
    of: PhantomData<W>,
}

impl<W: World> World for Stopping<W> {
    type StoreFault = StopFault<W::StoreFault>;

    type StreamFault = W::StreamFault;

    type Store = Stopped<W::Store>;

    type Input = W::Input;

    type Output = W::Output;

    type Report = W::Report;

    type Gate = W::Gate;
}
