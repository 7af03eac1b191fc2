// Where a dataset stands.
use crate::files::{Target, if_there, length_of, open, plant, remove, replace};
use crate::folders::{make_firm, make_folder, stands};
use crate::locks::{Lock, Locks};
use crate::names::Names;
use crate::seen::{Seen, renew};
use std::alloc::{AllocError, Global};
use std::fs::File;
use std::io;
use std::sync::Arc;

/// A dataset's folder, with its table, and what this process holds of it: the lock of who writes to it, and what was read of
/// the table.
#[derive(Drop)]
pub struct Place {
    host: HostRuntime,
    root: String,
    path: String,
    table: String,
    unfinished: String,
    names: Arc<Names>,
    locks: Arc<Locks>,
    lock: Option<Lock>,
    /// What was read of the table since it was opened.
    seen: Arc<Seen>,
    /// The table was made or renewed since the lock was got, and not closed: it is firm with its name until it is written.
    is_renewed: bool,
}

/// A table that was opened.
#[derive(Drop)]
pub struct Opened {
    /// A descriptor of the table.
    pub file: File,
    /// One of its folder, unless the table is new.
    pub folder: Option<File>,
    /// What is read of the table is noted there.
    pub seen: Arc<Seen>,
    /// This process made the file, and nothing was written to it since: it is firm, and so is its name.
    pub is_new: bool,
}

impl Place {
    /// The place of a dataset in this root, whether or not it is there.
    pub fn new(
        alloc: Global,
        host: HostRuntime,
        root: &str,
        name: &str,
        locks: &Arc<Locks>,
    ) -> Result<Place, AllocError> {
        let path = format!(in alloc; "{root}/{name}")?;
        Ok(Place {
            host,
            root: String::from_str(alloc, root)?,
            table: format!(in alloc; "{}/toc", path.as_str())?,
            unfinished: format!(in alloc; "{}/toc.new", path.as_str())?,
            names: Arc::new(alloc, Names::new(alloc, path.as_str())?)?,
            path,
            locks: Arc::try_clone(locks)?,
            lock: None,
            seen: Arc::new(alloc, Seen::nothing())?,
            is_renewed: false,
        })
    }

    /// The path of the folder.
    pub fn path(&self) -> &str {
        self.path.as_str()
    }

    /// The path of the table.
    pub fn table(&self) -> &str {
        self.table.as_str()
    }

    /// The names in the folder, for all who sync them.
    pub fn names(&self) -> &Arc<Names> {
        &self.names
    }

    /// Makes the folder and its name firm, locks it, and then makes the table in it: where there is a table, the folder's name is
    /// firm. An error where there is one.
    pub fn found(&mut self, alloc: Global, first: &[u8]) -> io::Result<()> {
        let folder = make_firm(self.host, self.path.as_str())?;
        let lock = match &self.lock {
            Some(_) => None,
            None => Some(self.locked(alloc)?),
        };
        stands(&folder)?;
        plant(self.host, self.target(), first)?;
        if lock.is_some() {
            self.lock = lock;
        }
        self.is_renewed = true;
        Ok(())
    }

    /// Opens the table, where there is one. Who has the lock puts a new file of the same bytes in its place before.
    pub fn open(&mut self, alloc: Global) -> io::Result<Option<Opened>> {
        self.seen = Arc::new(alloc, Seen::nothing())?;
        let is_to_renew = self.is_to_renew()?;
        if is_to_renew {
            self.copy()?;
        }
        let Some(file) = if_there(open(self.host, self.table.as_str()))? else {
            return Ok(None);
        };
        let is_new = is_to_renew || self.is_renewed;
        let folder = if is_new {
            None
        } else {
            Some(open(self.host, self.path.as_str())?)
        };
        Ok(Some(Opened {
            file,
            folder,
            seen: Arc::try_clone(&self.seen)?,
            is_new,
        }))
    }

    /// Knows of no table that is open.
    pub fn close(&mut self) {
        self.is_renewed = false;
    }

    /// Makes the folder and locks it, unless it is. A table that is open has to be as it was read, and is renewed then.
    pub fn enter(&mut self, alloc: Global, is_open: bool) -> io::Result<()> {
        if self.lock.is_some() {
            return Ok(());
        }
        make_folder(self.host, self.path.as_str())?;
        let lock = self.locked(alloc)?;
        if is_open {
            let copied = self.copy();
            self.seen.renewed();
            copied?;
        }
        self.lock = Some(lock);
        self.is_renewed = is_open;
        Ok(())
    }

    /// Locks the folder, which is there, unless it is. The table has to be as it was read.
    pub fn claim(&mut self, alloc: Global) -> io::Result<()> {
        if self.lock.is_some() {
            return Ok(());
        }
        let lock = self.locked(alloc)?;
        let table = if_there(open(self.host, self.table.as_str()))?;
        self.seen.check(table.as_ref())?;
        self.lock = Some(lock);
        Ok(())
    }

    /// Puts a table of these bytes in the place of the one that is there. Who didn't claim the place may not call it.
    pub fn replace(&mut self, bytes: &[u8]) -> io::Result<()> {
        replace(self.host, self.target(), bytes)?;
        self.is_renewed = true;
        Ok(())
    }

    /// Takes the table away. Who didn't claim the place may not call it.
    pub fn unlist(&self) -> io::Result<()> {
        self.remove(self.table.as_str())
    }

    /// Removes a file of the folder. Who didn't claim the place may not call it.
    pub fn remove(&self, path: &str) -> io::Result<()> {
        remove(self.host, self.path.as_str(), path)
    }

    // The lock of the folder, which is there.
    fn locked(&self, alloc: Global) -> io::Result<Lock> {
        let path = format!(in alloc; "{}/lock", self.path.as_str())?;
        let root = format!(in alloc; "{}/lock", self.root.as_str())?;
        self.locks.lock(self.host, path.as_str(), root.as_str())
    }

    // Where a table is made whole.
    fn target(&self) -> Target<'_> {
        Target {
            folder: self.path.as_str(),
            unfinished: self.unfinished.as_str(),
            path: self.table.as_str(),
        }
    }

    // There is a table, to which this process may write.
    fn is_to_renew(&self) -> io::Result<bool> {
        Ok(
            self.lock.is_some()
                && !self.is_renewed
                && length_of(self.host, self.table.as_str())?.is_some(),
        )
    }

    // Puts a new file of the same bytes in the place of the table.
    fn copy(&self) -> io::Result<()> {
        renew(self.host, self.target(), &self.seen)
    }
}
