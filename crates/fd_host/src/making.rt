// When the files of a shelf are made, and their names firm.
use crate::budget::{Budget, FILES, Permit};
use crate::files::create;
use crate::names::Names;
use std::alloc::AllocError;
use std::fs::File;
use std::io;
use std::io::{Error, ErrorKind};
use std::sync::atomic::{AtomicBool, Ordering};
use std::sync::{Arc, OnceLock};

/// A file of a shelf, and perhaps another one, which are made at once, so that one sync of the folder serves both their names.
/// Before that neither stands in the folder. One thread has a shelf and its files at a time.
#[derive(Drop)]
pub struct Making {
    names: Arc<Names>,
    budget: Arc<Budget>,
    path: String,
    other: String,
    has_other: AtomicBool,
    is_made: AtomicBool,
    is_firm: AtomicBool,
    /// A descriptor of the folder that is older than the files, where one is kept.
    folder: OnceLock<Kept>,
}

/// A descriptor of the folder, and the leave to keep it.
#[derive(Drop)]
struct Kept {
    file: File,
    _permit: Permit,
}

impl Making {
    /// The file of this path, and the path of the other one, which isn't made with it unless it joins.
    pub fn new(
        names: &Arc<Names>,
        budget: &Arc<Budget>,
        path: String,
        other: String,
    ) -> Result<Making, AllocError> {
        Ok(Making {
            names: Arc::try_clone(names)?,
            budget: Arc::try_clone(budget)?,
            path,
            other,
            has_other: AtomicBool::new(false),
            is_made: AtomicBool::new(false),
            is_firm: AtomicBool::new(false),
            folder: OnceLock::new(),
        })
    }

    /// The other file is made with the first one from now on. Whether that is so: it isn't where the first one is made, or the
    /// other has joined.
    pub fn join(&self) -> bool {
        !self.is_made() && !self.has_other.swap(true, Ordering::SeqCst)
    }

    /// The files stand in the folder.
    pub fn is_made(&self) -> bool {
        self.is_made.load(Ordering::SeqCst)
    }

    /// Makes the files empty, unless they are made. Where more than half of the descriptors are kept, their names are firm by then.
    pub fn make(&self, host: HostRuntime) -> io::Result<()> {
        if self.is_made() {
            return Ok(());
        }
        let folder = self.names.folder(host)?;
        create(host, self.path.as_str())?;
        if self.has_other.load(Ordering::SeqCst) {
            create(host, self.other.as_str())?;
        }
        self.keep(folder)?;
        self.is_made.store(true, Ordering::SeqCst);
        Ok(())
    }

    // Keeps the descriptor of the folder, where one is left, and else makes the names firm by it.
    fn keep(&self, folder: File) -> io::Result<()> {
        match Budget::take(&self.budget, FILES / 2)? {
            Some(permit) => {
                let kept = Kept {
                    file: folder,
                    _permit: permit,
                };
                match self.folder.try_set(kept) {
                    Ok(_) => Ok(()),
                    Err(_) => Err(Error::from(ErrorKind::Other)),
                }
            }
            None => {
                self.names.sync(&folder)?;
                self.is_firm.store(true, Ordering::SeqCst);
                Ok(())
            }
        }
    }

    /// Makes the names firm of the files, which are made, unless they are firm.
    pub fn sync(&self) -> io::Result<()> {
        if self.is_firm.load(Ordering::SeqCst) {
            return Ok(());
        }
        let Some(kept) = self.folder.get() else {
            return Err(Error::from(ErrorKind::Other));
        };
        self.names.sync(&kept.file)?;
        self.is_firm.store(true, Ordering::SeqCst);
        Ok(())
    }
}
