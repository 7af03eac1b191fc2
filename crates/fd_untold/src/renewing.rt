// A dataset whose table is renewed or taken away, and whose files are removed.
ghost use Rattle.std.specs.Prelude.{◌≡◌, OnOk};
ghost use Rattle.fd_unsynced.specs.Lost.{all_firm};
ghost use Rattle.fd_untold.specs.Renewing.{IsTried};

use crate::fault::counted;
use crate::shelf::path_of;
use crate::{Ground, Place, SystemFault, UntoldDisk, UntoldFolder};
use fd_disk::{Down, FileName, Folder, Renew};
use fd_unsynced::Unsynced;
use std::alloc::Global;
use std::io;

impl<P: Place> Renew<SystemFault> for UntoldFolder<P> {
    /// The new table is firm under another name before it takes the place of the old one. A dataset to which another process
    /// writes, or has written since the table was read, is a fault. After another fault the table's name counts as
    /// lost, since either of the two may be there after a crash.
    fn renew(
        &mut self,
        alloc: Global,
        table: UntoldDisk<P::Device>,
        bytes: &[u8],
    ) -> Result<(), Down<SystemFault>> {
        self.take_back(table.file.unsynced);
        match self.replaced(alloc, bytes) {
            Ok(()) => Ok(()),
            Err(error) => Err(Down::Fault(counted(&mut self.faults, error))),
        }
    }

    /// Faults as those of `renew`.
    fn unfound(
        &mut self,
        alloc: Global,
        table: UntoldDisk<P::Device>,
    ) -> Result<(), Down<SystemFault>> {
        self.take_back(table.file.unsynced);
        match self.unlisted(alloc) {
            Ok(()) => Ok(()),
            Err(error) => Err(Down::Fault(counted(&mut self.faults, error))),
        }
    }

    /// Faults as those of `renew`.
    fn remove(&mut self, alloc: Global, file: FileName) -> Result<(), Down<SystemFault>> {
        let Ok(path) = path_of(alloc, self.place.path(), file) else {
            return Err(Down::NoMemory);
        };
        match self.without(alloc, path.as_str()) {
            Ok(()) => Ok(()),
            Err(error) => Err(Down::Fault(counted(&mut self.faults, error))),
        }
    }
}

impl<P: Ground> UntoldFolder<P> {
    // Has a table of these bytes in place of the one that is there.
    fn replaced(&mut self, alloc: Global, bytes: &[u8]) -> io::Result<()>
        ensures tried { IsTried self.old self.new result }
        ensures firm { OnOk result (self.new.unsynced ≡ all_firm) }
    {
        self.unsynced.check_name()?;
        self.place.claim(alloc)?;
        let replaced = self.place.replace(bytes);
        self.unsynced.named(replaced)?;
        self.unsynced = Unsynced::made();
        Ok(())
    }

    // Has no table in place of the one that is there. One that is founded then is a new file.
    fn unlisted(&mut self, alloc: Global) -> io::Result<()>
        ensures tried { IsTried self.old self.new result }
    {
        self.unsynced.check_name()?;
        self.place.claim(alloc)?;
        let unlisted = self.place.unlist();
        self.unsynced.named(unlisted)?;
        self.unsynced = Unsynced::found();
        Ok(())
    }

    // Removes the file of this path.
    fn without(&mut self, alloc: Global, path: &str) -> io::Result<()>
        ensures tried { IsTried self.old self.new result }
    {
        self.unsynced.check_name()?;
        self.place.claim(alloc)?;
        let removed = self.place.remove(path);
        self.unsynced.named(removed)
    }
}
