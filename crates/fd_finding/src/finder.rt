use std::alloc::Global;

/// What keys are looked for by.
pub struct Finder<'a, G, R> {
    /// The host's threads.
    pub rt: &'a R,
    /// What memory is asked of.
    pub alloc: Global,
    /// How many workers look side by side.
    pub workers: u32,
    /// What each of them passes before its first look-up.
    pub gate: &'a G,
}

impl<G, R> Drop for Finder<'_, G, R> {
    fn drop(self) {
        let Finder {
            rt: _,
            alloc: _,
            workers: _,
            gate: _,
        } = self;
    }
}
