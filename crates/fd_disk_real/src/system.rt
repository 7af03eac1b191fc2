// The system on which the process runs.
use crate::HostPlace;
use fd_bytes::NoMemory;
use fd_host::{
    Budget, Locks, Place, Target, descriptors, exclusive, gather, make_folders, plant, whole,
};
use fd_untold::{Root, System};
use std::alloc::{AllocError, Global};
use std::collections::BTreeSet;
use std::fs::File;
use std::io;
use std::sync::Arc;

/// The system on which the process runs, and what the process may keep of it: descriptors and locks.
#[derive(Drop)]
pub struct HostSystem {
    host: HostRuntime,
    limit: u64,
    budget: Arc<Budget>,
    locks: Arc<Locks>,
}

impl Root for HostSystem {
    type Lock = File;

    fn whole(&self, alloc: Global, path: &str) -> io::Result<Option<Vec<u8>>> {
        whole(self.host, alloc, path)
    }

    fn make_folders(&self, path: &str) -> io::Result<()> {
        make_folders(self.host, path)
    }

    fn lock(&self, path: &str) -> io::Result<File> {
        exclusive(self.host, path)
    }

    fn plant(&self, folder: &str, unfinished: &str, path: &str, bytes: &[u8]) -> io::Result<()> {
        let target = Target {
            folder,
            unfinished,
            path,
        };
        plant(self.host, target, bytes)
    }

    fn gather(&self, alloc: Global, path: &str, names: &mut BTreeSet<String>) -> io::Result<()> {
        gather(self.host, alloc, path, names)
    }
}

impl System for HostSystem {
    type Place = HostPlace;

    fn new(alloc: Global, host: HostRuntime) -> Result<HostSystem, NoMemory> {
        let limit = descriptors(host, alloc);
        Ok(HostSystem {
            host,
            limit,
            budget: Arc::new(alloc, Budget::new(limit))?,
            locks: no_locks(alloc, limit)?,
        })
    }

    fn enter(&mut self, alloc: Global) -> Result<(), AllocError> {
        self.locks = no_locks(alloc, self.limit)?;
        Ok(())
    }

    fn place(&self, alloc: Global, root: &str, name: &str) -> Result<HostPlace, AllocError> {
        Ok(HostPlace {
            host: self.host,
            place: Place::new(alloc, self.host, root, name, &self.locks)?,
            budget: Arc::try_clone(&self.budget)?,
        })
    }
}

fn no_locks(alloc: Global, limit: u64) -> Result<Arc<Locks>, AllocError> {
    Ok(Arc::new(alloc, Locks::new(alloc, limit)?)?)
}
