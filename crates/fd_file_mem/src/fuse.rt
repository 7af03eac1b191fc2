// A number of calls that all objects of a store share.
ghost use Rattle.std.specs.Prelude.{◌≡◌, true, Some, None, IfOk};
ghost use Rattle.fd_file_mem.specs.Plans.{is_set, is_spent};

use std::alloc::{AllocError, Global};
use std::sync::Arc;
use std::sync::atomic::{AtomicU64, Ordering};

/// Lets so many calls pass, where it is set, and stops all later ones.
#[derive(Drop)]
pub struct Fuse {
    /// How many calls there were since it was set, of all objects that were handed out since then.
    passed: Arc<AtomicU64, Global>,
    /// How many may pass.
    pub allowed: Option<u64>,
}

impl Fuse {
    /// One that isn't set.
    pub fn new(alloc: Global) -> Result<Fuse, AllocError>
        ensures { IfOk result (λ f. f.allowed ≡ None) }
    {
        match Arc::new(alloc, AtomicU64::new(0)) {
            Ok(passed) => Ok(Fuse {
                passed,
                allowed: None,
            }),
            Err(_) => Err(AllocError),
        }
    }

    /// The same fuse for one object more.
    pub fn shared(&self) -> Result<Fuse, AllocError>
        ensures { IfOk result (λ f. f.allowed ≡ self.now.allowed) }
    {
        let passed = Arc::try_clone(&self.passed)?;
        Ok(Fuse {
            passed,
            allowed: self.allowed,
        })
    }

    /// Lets so many calls pass from now on.
    pub fn set(&mut self, calls: u64)
        ensures { self.new.allowed ≡ Some calls }
    {
        self.passed.store(0, Ordering::SeqCst);
        self.allowed = Some(calls);
    }

    /// Is set no more.
    pub fn take_out(&mut self)
        ensures { self.new.allowed ≡ None }
    {
        self.allowed = None;
    }

    /// Counts a call, and says whether it is stopped.
    pub fn stops(&self) -> bool
        ensures spent { is_spent self.now.allowed ≡ true → result ≡ true }
        ensures set { result ≡ true → is_set self.now.allowed ≡ true }
    {
        match self.allowed {
            None => false,
            Some(allowed) => {
                let before = self.passed.fetch_add(1, Ordering::SeqCst);
                before >= allowed
            }
        }
    }
}
