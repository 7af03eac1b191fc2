// How many descriptors are kept.
use std::alloc::AllocError;
use std::io::Error;
use std::sync::Arc;
use std::sync::atomic::{AtomicU64, Ordering};

/// How many files that are written keep their descriptor.
pub const FILES: u64 = 256;

/// How many of them are tables.
pub const TABLES: u64 = 64;

/// How many datasets are locked one by one.
pub(crate) const LOCKS: u64 = 128;

/// What the system answers where a process, or the host, has too many open files.
const TOO_MANY: [i32; 2] = [24, 23];

/// How many descriptors are kept between calls.
#[derive(Drop)]
pub struct Budget {
    taken: AtomicU64,
    most: u64,
}

/// The leave to keep one descriptor.
pub struct Permit {
    budget: Arc<Budget>,
}

impl Budget {
    /// That of a process which may have so many open: a quarter of them.
    pub fn new(limit: u64) -> Budget {
        Budget {
            taken: AtomicU64::new(0),
            most: limit / 4,
        }
    }

    /// The leave to keep one more, where fewer than so many are kept, and fewer than all.
    pub fn take(budget: &Arc<Budget>, most: u64) -> Result<Option<Permit>, AllocError> {
        let permit = Permit {
            budget: Arc::try_clone(budget)?,
        };
        let most = permit.budget.most.min(most);
        if permit.budget.taken.fetch_add(1, Ordering::SeqCst) < most {
            return Ok(Some(permit));
        }
        Ok(None)
    }

    /// Has none left from now on, where an open failed for want of descriptors.
    pub fn note(&self, error: &Error) {
        if let Some(code) = error.raw_os_error() {
            if TOO_MANY.contains(&code) {
                self.taken.fetch_add(FILES, Ordering::SeqCst);
            }
        }
    }
}

impl Drop for Permit {
    fn drop(self) {
        let Permit { budget } = self;
        budget.taken.fetch_sub(1, Ordering::SeqCst);
    }
}
