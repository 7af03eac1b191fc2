// One dataset.
ghost use Rattle.std.specs.Prelude.{◌≡◌, ◌≤◌, None, true, false, string_bytes};
ghost use Rattle.fd_disk.specs.{Folders.{with_table}, Renewals.{StandsStill}};
ghost use Rattle.fd_untold.specs.Told.{disk_unsynced, folder_faults, folder_last_writer, folder_name, folder_out, folder_unsynced};

use crate::fault::{copied, counted, told};
use crate::shelf::path_of;
use crate::{Ground, Place, SystemFault, UntoldDisk, UntoldShelf};
use fd_disk::{Down, FileName, Folder};
use fd_unsynced::{Unsynced, Writing};
use std::alloc::Global;

/// One dataset: a folder that is made when its table is founded or a shelf is asked for. From then on this process is the
/// one that writes to it.
#[derive(Drop)]
pub struct UntoldFolder<P> {
    pub(crate) name: String,
    pub(crate) place: P,
    pub(crate) table_out: bool,
    pub(crate) last_writer: u32,
    pub(crate) faults: u64,
    /// What of the table may not be firm.
    pub(crate) unsynced: Unsynced,
}

impl<P: Place> Folder<SystemFault> for UntoldFolder<P> {
    ghost use Rattle.std.specs.Prelude.{None, string_bytes};
    ghost use Rattle.std.proofs.Common.{inl};
    ghost use Rattle.fd_untold.specs.Clocks.{still};

    type Sealed = P::Sealed;

    type Table = UntoldDisk<P::Device>;

    type Shelf = UntoldShelf<P::Files>;

    ghost has = { λ d. None };

    ghost table_out = { λ d. d.table_out };

    ghost last_writer = { λ d. d.last_writer };

    ghost name = { λ d. string_bytes d.name };

    ghost faults = { λ d. d.faults };

    ghost moment = { λ d out. 0 };

    ghost left_since = { λ d out t left. ⊥ };

    ghost counts_now = { λ d v t left is back le image. absurd (cc is) };

    ghost only_now = { λ d v left is back since. absurd since };

    ghost only_beside = { λ d table left since. since };

    ghost earlier = { λ d out t u left before since. since };

    ghost ticks = { λ d old new later. still };

    ghost quiet = { λ d old new t left leaves since. inl since };

    /// A table that another process has made meanwhile is a fault.
    fn found(&mut self, alloc: Global, first: &[u8]) -> Result<(), Down<SystemFault>> {
        match self.place.found(alloc, first) {
            Ok(()) => Ok(()),
            Err(error) => Err(Down::Fault(counted(&mut self.faults, error))),
        }
    }

    fn table(&mut self, alloc: Global) -> Result<Option<UntoldDisk<P::Device>>, Down<SystemFault>> {
        if self.name.len() > 255 {
            return Ok(None);
        }
        let name = copied(alloc, self.name.as_str())?;
        let Ok(mut device) = self.place.table(alloc) else {
            return Err(Down::NoMemory);
        };
        match self.place.open(alloc, &mut device) {
            Ok(Some(is_new)) => {
                self.table_out = true;
                Ok(Some(UntoldDisk {
                    name,
                    made: None,
                    file: Writing::found(device, is_new, self.unsynced),
                    extent: 0,
                    is_synced: false,
                    faults: 0,
                }))
            }
            Ok(None) => Ok(None),
            Err(error) => Err(told(&mut self.faults, error)),
        }
    }

    /// What a failed sync may have lost of the table is lost for whoever it is handed out to again.
    fn give_table(&mut self, table: UntoldDisk<P::Device>)
        requires out { folder_out self.old ≡ true }
        requires table_name { string_bytes table.name ≡ folder_name self.old }
        ensures has { None ≡ with_table None None }
        ensures back { folder_out self.new ≡ false }
        ensures last_writer { folder_last_writer self.new ≡ folder_last_writer self.old }
        ensures name { folder_name self.new ≡ folder_name self.old }
        ensures time { StandsStill 0 0 (λ t left. ⊥) (λ t left. ⊥) }
        ensures faults { folder_faults self.old ≤ folder_faults self.new }
        ensures unsynced { folder_unsynced self.new ≡ disk_unsynced table }
    {
        self.take_back(table.file.unsynced);
    }

    /// A dataset to which another process writes is a fault.
    fn shelf(
        &mut self,
        alloc: Global,
        writer: u32,
    ) -> Result<UntoldShelf<P::Files>, Down<SystemFault>> {
        let name = copied(alloc, self.name.as_str())?;
        let folder = copied(alloc, self.place.path())?;
        if let Err(error) = self.place.enter(alloc, self.table_out) {
            return Err(Down::Fault(counted(&mut self.faults, error)));
        }
        let files = match self.place.files(alloc) {
            Ok(files) => files,
            Err(error) => return Err(Down::Fault(counted(&mut self.faults, error))),
        };
        self.last_writer = writer;
        Ok(UntoldShelf {
            name,
            folder,
            files,
            writer,
            faults: 0,
        })
    }

    fn give_shelf(&mut self, shelf: UntoldShelf<P::Files>) {
        let _ = shelf;
    }

    fn sealed(
        &mut self,
        alloc: Global,
        file: FileName,
    ) -> Result<Option<P::Sealed>, Down<SystemFault>> {
        let name = copied(alloc, self.name.as_str())?;
        let Ok(path) = path_of(alloc, self.place.path(), file) else {
            return Err(Down::NoMemory);
        };
        match self.place.length_of(path.as_str()) {
            Ok(Some(len)) => Ok(Some(self.place.sealed(path, name, file, len))),
            Ok(None) => Ok(None),
            Err(error) => Err(told(&mut self.faults, error)),
        }
    }
}

impl<P: Ground> UntoldFolder<P> {
    /// The dataset's text, of a folder that is let go.
    pub(crate) fn into_name(self) -> String {
        let UntoldFolder {
            name,
            place: _,
            table_out: _,
            last_writer: _,
            faults: _,
            unsynced: _,
        } = self;
        name
    }

    /// Has the table back, of which this may not be firm.
    pub(crate) fn take_back(&mut self, unsynced: Unsynced)
        ensures unsynced { self.new.unsynced ≡ unsynced }
        ensures back { self.new.table_out ≡ false }
        ensures last_writer { self.new.last_writer ≡ self.old.last_writer }
        ensures name { self.new.name ≡ self.old.name }
        ensures faults { self.new.faults ≡ self.old.faults }
    {
        self.unsynced = unsynced;
        self.table_out = false;
        self.place.close();
    }
}
