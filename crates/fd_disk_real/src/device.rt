// A file of the host.
use crate::{HostPath, RealSealed};
use fd_disk::FileName;
use fd_host::{Budget, Making, Names, Permit, Seen, filled, open, open_to_write};
use fd_unsynced::Device;
use fd_untold::Sealing;
use std::fs::File;
use std::io;
use std::io::{Error, ErrorKind};
use std::os::unix::fs::FileExt;
use std::sync::Arc;

/// How the name of a file is made firm.
#[derive(Drop)]
pub(crate) enum Naming {
    /// It is firm.
    Firm,
    /// By a sync of this folder.
    Alone(File, Arc<Names>),
    /// With those of a shelf's other files, once it is made.
    Among(Arc<Making>),
}

/// A file of the host by its path.
#[derive(Drop)]
pub struct HostDevice {
    pub(crate) host: HostRuntime,
    pub(crate) path: String,
    /// The descriptor that is open, and the leave to keep it.
    pub(crate) file: Option<File>,
    pub(crate) leave: Option<Permit>,
    pub(crate) naming: Naming,
    pub(crate) budget: Arc<Budget>,
    /// So many descriptors are kept at most when this one is.
    pub(crate) most: u64,
    /// What is known of the bytes that were read, of a table.
    pub(crate) seen: Option<Arc<Seen>>,
}

impl HostDevice {
    // The descriptor that is open.
    fn opened(&self) -> io::Result<&File> {
        match &self.file {
            Some(file) => Ok(file),
            None => Err(Error::from(ErrorKind::Other)),
        }
    }

    // The file stands in its folder.
    fn is_made(&self) -> bool {
        match &self.naming {
            Naming::Firm | Naming::Alone(..) => true,
            Naming::Among(making) => making.is_made(),
        }
    }

    // Makes the file, unless it is made.
    fn make(&self) -> io::Result<()> {
        match &self.naming {
            Naming::Firm | Naming::Alone(..) => Ok(()),
            Naming::Among(making) => making.make(self.host),
        }
    }

    // A descriptor for reads, writes and syncs of the file, which is made before, unless it is made.
    fn descriptor(&self) -> io::Result<File> {
        self.make()?;
        open_to_write(self.host, self.path.as_str())
    }
}

impl Device for HostDevice {
    fn open(&mut self) -> io::Result<()> {
        match self.descriptor() {
            Ok(file) => {
                self.file = Some(file);
                Ok(())
            }
            Err(error) => {
                self.budget.note(&error);
                Err(error)
            }
        }
    }

    fn may_keep(&mut self) -> io::Result<bool> {
        self.leave = Budget::take(&self.budget, self.most)?;
        Ok(self.leave.is_some())
    }

    fn close(&mut self) {
        self.file = None;
        self.leave = None;
    }

    fn len(&self) -> io::Result<u64> {
        Ok(self.opened()?.metadata()?.len())
    }

    fn read(&self, at: u64, into: &mut [u8]) -> io::Result<usize> {
        filled(self.opened()?, at, into)
    }

    fn read_anew(&self, at: u64, into: &mut [u8]) -> io::Result<usize> {
        if !self.is_made() {
            return Ok(0);
        }
        let file = open(self.host, self.path.as_str())?;
        filled(&file, at, into)
    }

    fn note(&self, at: u64, bytes: &[u8], is_ended: bool) {
        if let Some(seen) = &self.seen {
            seen.add(at, bytes, is_ended);
        }
    }

    fn cut(&self, len: u64) -> io::Result<()> {
        self.opened()?.set_len(len)
    }

    fn write(&self, at: u64, bytes: &[u8]) -> io::Result<()> {
        self.opened()?.write_all_at(bytes, at)
    }

    fn sync(&self) -> io::Result<()> {
        self.opened()?.sync_all()
    }

    fn sync_anew(&self) -> io::Result<()> {
        self.make()?;
        open(self.host, self.path.as_str())?.sync_all()
    }

    fn sync_name(&mut self) -> io::Result<()> {
        match &self.naming {
            Naming::Firm => Ok(()),
            Naming::Among(making) => making.sync(),
            Naming::Alone(folder, names) => {
                names.sync(folder)?;
                self.naming = Naming::Firm;
                Ok(())
            }
        }
    }

    fn is_renewed(&self) -> bool {
        match &self.seen {
            None => false,
            Some(seen) => seen.is_renewed(),
        }
    }
}

impl Sealing for HostDevice {
    type Sealed = RealSealed;

    fn seal(self, name: String, made: Option<FileName>, len: u64) -> RealSealed {
        let HostDevice {
            host,
            path,
            file: _,
            leave: _,
            naming: _,
            budget: _,
            most: _,
            seen: _,
        } = self;
        RealSealed {
            path: HostPath { host, path },
            name,
            made,
            len,
        }
    }
}
