// A dataset's folder on the host.
ghost use Rattle.std.specs.Prelude.{◌≡◌, IfOk, None, string_bytes};

use crate::device::Naming;
use crate::{HostDevice, HostPath, RealDisk, RealFault, RealGathered, RealSealed};
use fd_bytes::NoMemory;
use fd_disk::{Disk, FileKind, FileName};
use fd_host::{Budget, FILES, Making, Names, Opened, TABLES, length_of};
use fd_untold::{Files, Ground, Place, path_of};
use std::alloc::{AllocError, Global};
use std::io;
use std::sync::Arc;

/// Where a shelf makes its files.
#[derive(Drop)]
pub struct HostFiles {
    host: HostRuntime,
    names: Arc<Names>,
    budget: Arc<Budget>,
    /// The number of the batch whose fields were asked for last, and when they are made.
    last: Option<(u32, Arc<Making>)>,
}

impl HostFiles {
    // When this file is made: the index of a batch that is asked for right behind its fields with them.
    fn making(
        &mut self,
        alloc: Global,
        folder: &str,
        file: FileName,
    ) -> Result<Arc<Making>, NoMemory> {
        if let Some((seq, making)) = &self.last {
            if file.kind == FileKind::Index && file.seq == *seq && making.join() {
                return Ok(Arc::try_clone(making)?);
            }
        }
        let path = path_of(alloc, folder, file)?;
        let index = path_of(
            alloc,
            folder,
            FileName {
                writer: file.writer,
                seq: file.seq,
                kind: FileKind::Index,
            },
        )?;
        let making = Making::new(&self.names, &self.budget, path, index)?;
        let making = Arc::new(alloc, making)?;
        if file.kind == FileKind::Fields {
            self.last = Some((file.seq, Arc::try_clone(&making)?));
        }
        Ok(making)
    }
}

impl Files for HostFiles {
    type Sealed = RealSealed;

    type Device = HostDevice;

    type Gathered = RealGathered;

    fn device(
        &mut self,
        alloc: Global,
        folder: &str,
        file: FileName,
    ) -> Result<HostDevice, NoMemory> {
        Ok(HostDevice {
            host: self.host,
            path: path_of(alloc, folder, file)?,
            file: None,
            leave: None,
            naming: Naming::Among(self.making(alloc, folder, file)?),
            budget: Arc::try_clone(&self.budget)?,
            most: FILES,
            seen: None,
        })
    }

    fn gathered(&self, alloc: Global, file: RealDisk, room: usize) -> Result<RealGathered, NoMemory>
        ensures file { IfOk result (λ d. ⟦<RealGathered as Disk<RealFault>>⟧.file d ≡ None) }
        ensures name { IfOk result (λ d. ⟦<RealGathered as Disk<RealFault>>⟧.name d ≡ string_bytes file.name) }
        ensures made { IfOk result (λ d. ⟦<RealGathered as Disk<RealFault>>⟧.made d ≡ file.made) }
    {
        RealGathered::new(alloc, file, room)
    }
}

/// A dataset's folder, with its table, and what this process holds of it.
#[derive(Drop)]
pub struct HostPlace {
    pub(crate) host: HostRuntime,
    pub(crate) place: fd_host::Place,
    pub(crate) budget: Arc<Budget>,
}

impl Ground for HostPlace {
    fn path(&self) -> &str {
        self.place.path()
    }

    fn found(&mut self, alloc: Global, first: &[u8]) -> io::Result<()> {
        self.place.found(alloc, first)
    }

    fn close(&mut self) {
        self.place.close();
    }

    fn enter(&mut self, alloc: Global, is_open: bool) -> io::Result<()> {
        self.place.enter(alloc, is_open)
    }

    fn claim(&mut self, alloc: Global) -> io::Result<()> {
        self.place.claim(alloc)
    }

    fn replace(&mut self, bytes: &[u8]) -> io::Result<()> {
        self.place.replace(bytes)
    }

    fn unlist(&self) -> io::Result<()> {
        self.place.unlist()
    }

    fn remove(&self, path: &str) -> io::Result<()> {
        self.place.remove(path)
    }

    fn length_of(&self, path: &str) -> io::Result<Option<u64>> {
        length_of(self.host, path)
    }
}

impl Place for HostPlace {
    type Sealed = RealSealed;

    type Device = HostDevice;

    type Files = HostFiles;

    fn table(&self, alloc: Global) -> Result<HostDevice, AllocError> {
        Ok(HostDevice {
            host: self.host,
            path: String::from_str(alloc, self.place.table())?,
            file: None,
            leave: None,
            naming: Naming::Firm,
            budget: Arc::try_clone(&self.budget)?,
            most: TABLES,
            seen: None,
        })
    }

    fn open(&mut self, alloc: Global, table: &mut HostDevice) -> io::Result<Option<bool>> {
        let Some(opened) = self.place.open(alloc)? else {
            return Ok(None);
        };
        let Opened {
            file,
            folder,
            seen,
            is_new,
        } = opened;
        table.file = Some(file);
        table.naming = match folder {
            Some(folder) => Naming::Alone(folder, Arc::try_clone(self.place.names())?),
            None => Naming::Firm,
        };
        table.seen = Some(seen);
        Ok(Some(is_new))
    }

    fn files(&self, alloc: Global) -> io::Result<HostFiles> {
        let _ = alloc;
        Ok(HostFiles {
            host: self.host,
            names: Arc::try_clone(self.place.names())?,
            budget: Arc::try_clone(&self.budget)?,
            last: None,
        })
    }

    fn sealed(&self, path: String, name: String, made: FileName, len: u64) -> RealSealed {
        RealSealed {
            path: HostPath {
                host: self.host,
                path,
            },
            name,
            made: Some(made),
            len,
        }
    }
}
