// Which process writes to a dataset.
use crate::budget::{Budget, LOCKS, Permit};
use crate::files::open_lock;
use std::alloc::{AllocError, Global};
use std::fs::File;
use std::io;
use std::io::Error;
use std::sync::{Arc, OnceLock};

/// What a process has locked in a root. Who writes to a dataset has the lock of the file `lock` in its folder; who writes to
/// more datasets than are locked one by one has that of the root, and none may hold one that it writes to. Each takes its
/// own before it looks at the other's, so of two processes one at least sees the other.
#[derive(Drop)]
pub struct Locks {
    budget: Arc<Budget>,
    root: OnceLock<File>,
}

/// The lock of a dataset, for as long as it isn't let go.
#[derive(Drop)]
pub struct Lock {
    _file: Option<File>,
    _permit: Option<Permit>,
}

impl Locks {
    /// No lock, in a process that may have so many descriptors.
    pub fn new(alloc: Global, limit: u64) -> Result<Locks, AllocError> {
        Ok(Locks {
            budget: Arc::new(alloc, Budget::new(limit))?,
            root: OnceLock::new(),
        })
    }

    /// Locks the dataset with this file, in the root with that one; an error where another process writes to it.
    pub fn lock(&self, host: HostRuntime, path: &str, root: &str) -> io::Result<Lock> {
        if self.root.get().is_none() {
            if let Some(permit) = Budget::take(&self.budget, LOCKS)? {
                let file = exclusive(host, path)?;
                let whole = open_lock(host, root)?;
                whole.try_lock_shared().map_err(Error::from)?;
                return Ok(Lock {
                    _file: Some(file),
                    _permit: Some(permit),
                });
            }
            let whole = exclusive(host, root)?;
            let _ = self.root.try_set(whole);
        }
        exclusive(host, path)?;
        Ok(Lock {
            _file: None,
            _permit: None,
        })
    }
}

/// The file of a lock, locked, until it is let go; an error where another has the lock.
pub fn exclusive(host: HostRuntime, path: &str) -> io::Result<File> {
    let file = open_lock(host, path)?;
    match file.try_lock() {
        Ok(()) => Ok(file),
        Err(error) => Err(Error::from(error)),
    }
}
