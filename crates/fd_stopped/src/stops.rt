// How many calls are passed on.
ghost use Rattle.std.specs.Prelude.{◌≡◌, ◌<◌, ◌≤◌, true, false, IfOk};
ghost use Rattle.fd_bytes.specs.Causes.{Rose};
ghost use Rattle.fd_stopped.specs.Counts.{count_of};

use crate::count::Count;
use fd_bytes::NoMemory;
use std::alloc::Global;
use std::sync::Arc;

/// Lets so many calls pass, and stops all later ones. All objects of a store count their calls together.
#[derive(Drop)]
pub struct Stops {
    /// How many calls there were, of all objects.
    passed: Arc<Count, Global>,
    /// How many of them may pass.
    pub allowed: u64,
    /// How many calls of this object were stopped.
    pub met: u64,
}

impl Stops {
    /// Lets so many calls pass from now on.
    pub fn new(alloc: Global, allowed: u64) -> Result<Stops, NoMemory>
        ensures { IfOk result (λ s. (s.allowed ≡ allowed) × (s.met ≡ 0)) }
    {
        match Arc::new(alloc, Count::new(alloc)?) {
            Ok(passed) => Ok(Stops {
                passed,
                allowed,
                met: 0,
            }),
            Err(_) => Err(NoMemory),
        }
    }

    /// The same count for one object more.
    pub fn shared(&self) -> Result<Stops, NoMemory>
        ensures new { IfOk result (λ s. (s.allowed ≡ self.now.allowed) × (s.met ≡ 0)) }
        ensures same { IfOk result (λ s. count_of s ≡ count_of self.now) }
    {
        match Arc::try_clone(&self.passed) {
            Ok(passed) => Ok(Stops {
                passed,
                allowed: self.allowed,
                met: 0,
            }),
            Err(_) => Err(NoMemory),
        }
    }

    /// Counts a call, and says whether it is stopped. Where none may pass each is, and an object of which one was stopped
    /// has no more that pass.
    pub fn are_over(&self) -> bool
        ensures none { self.now.allowed ≡ 0 → result ≡ true }
        ensures stays { 0 < self.now.met → result ≡ true }
    {
        if self.met > 0 {
            return true;
        }
        self.passed.raise() >= self.allowed
    }

    /// The same, of an object that counts its calls that were stopped.
    pub fn stop(&mut self) -> bool
        ensures none { self.old.allowed ≡ 0 → result ≡ true }
        ensures stays { 0 < self.old.met → result ≡ true }
        ensures allowed { self.new.allowed ≡ self.old.allowed }
        ensures same { count_of self.new ≡ count_of self.old }
        ensures stopped { result ≡ true → Rose self.old.met self.new.met }
        ensures met { result ≡ true → 0 < self.new.met }
        ensures later { self.old.met ≤ self.new.met }
        ensures passed { result ≡ false → self.new ≡ self.old }
    {
        let is_over = self.are_over();
        if is_over {
            self.met = self.met.saturating_add(1);
        }
        is_over
    }

    /// Counts a call that was stopped elsewhere.
    pub fn note(&mut self)
        ensures allowed { self.new.allowed ≡ self.old.allowed }
        ensures same { count_of self.new ≡ count_of self.old }
        ensures met { Rose self.old.met self.new.met }
        ensures later { self.old.met ≤ self.new.met }
    {
        self.met = self.met.saturating_add(1);
    }
}
