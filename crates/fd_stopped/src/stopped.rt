// What a store that stops is made of.
ghost use Rattle.std.specs.Prelude.{◌≡◌};

use crate::Stops;

/// A store that stops, or what it hands out: so many calls of all its objects together go on to the object that each
/// holds, and all later ones are faults that do nothing.
#[derive(Drop)]
pub struct Stopped<T> {
    /// The object that it holds.
    pub inner: T,
    /// The calls that go on.
    pub stops: Stops,
}

impl<T> Stopped<T> {
    /// This object, of which so many calls go on.
    pub fn new(inner: T, stops: Stops) -> Stopped<T>
        ensures { result ≡ record { inner = inner; stops = stops } }
    {
        Stopped { inner, stops }
    }

    /// The object that it holds.
    pub fn into_inner(self) -> T
        ensures { result ≡ self.inner }
    {
        let Stopped { inner, stops: _ } = self;
        inner
    }
}
