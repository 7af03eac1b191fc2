// A file that is written, call by call.
ghost use Rattle.std.specs.Prelude.{◌≡◌, ◌⊎◌, ◌+◌, ◌-◌, ◌^◌, ◌≤◌, true, false, min, length, IfOk, OnOk, OnErr};
ghost use Rattle.fd_unsynced.specs.Lost.{after_write, all_firm, is_all, is_lost};

use crate::{Device, Unsynced};
use std::io;
use std::io::{Error, ErrorKind};

/// The descriptor of a file, between calls.
#[derive(Clone, Copy)]
enum Way {
    /// None is open, and nothing was written since the file was found or made.
    Closed,
    /// One for reads of a table that is firm with its name, up to the first sync.
    New,
    /// One for reads, up to the first sync that answers well.
    Found,
    /// The one through which all was written since the last sync.
    Kept,
    /// None was left. Each write was synced through a descriptor of its own; whether each of these syncs answered well.
    Through(bool),
}

/// A file that is written. A system tells of what it failed to write back only to descriptors that were open then, so the
/// descriptor of a write is closed behind a sync through it: it is kept up to the sync, or else each write is synced itself.
#[derive(Drop)]
pub struct Writing<D: Device> {
    device: D,
    way: Way,
    /// The length that the file had when it was last firm, where known.
    firm: Option<u64>,
    /// A sync of the bytes has failed, and the file wasn't cut since.
    pub is_broken: bool,
    /// What a sync that failed may have lost.
    pub unsynced: Unsynced,
}

impl<D: Device> Writing<D> {
    /// A table that is open. Of a new file, which is firm with its name, no sync has failed, and none is made before it is
    /// written.
    pub fn found(device: D, is_new: bool, unsynced: Unsynced) -> Writing<D>
        ensures { result.unsynced ≡ unsynced }
    {
        Writing {
            device,
            way: if is_new { Way::New } else { Way::Found },
            firm: None,
            is_broken: unsynced.is_lost() && !is_new,
            unsynced,
        }
    }

    /// An empty file of a shelf, which is made by the first write or sync.
    pub fn empty(device: D) -> Writing<D>
        ensures { result.unsynced ≡ all_firm }
    {
        Writing {
            device,
            way: Way::Closed,
            firm: None,
            is_broken: false,
            unsynced: Unsynced::made(),
        }
    }

    /// Fills the front of the slice with what the file has from the place on.
    pub fn read_at(&self, at: u64, into: &mut [u8]) -> io::Result<usize>
        ensures { IfOk result (λ n. n ≤ length into.old) }
    {
        let n = if self.is_open() {
            self.device.read(at, into)?
        } else {
            self.device.read_anew(at, into)?
        };
        let is_ended = n < into.len();
        self.device.note(at, &into[..n], is_ended);
        Ok(n)
    }

    // A descriptor is open of the file for which the name stands.
    fn is_open(&self) -> bool {
        match self.way {
            Way::Kept => true,
            Way::New | Way::Found => !self.device.is_renewed(),
            Way::Closed | Way::Through(_) => false,
        }
    }

    /// Writes the bytes. Behind a sync that failed the first write that covers all that was written since the last good one
    /// cuts the file before, to the length that is firm: a block which the system failed to write stays an empty one, whatever
    /// is written into it later, until it is no more a part of the file.
    pub fn write_at(&mut self, at: u64, bytes: &[u8]) -> io::Result<()>
        ensures unsynced { self.new.unsynced ≡ after_write at (min (at + length bytes.now) (2 ^ 64 - 1)) self.old.unsynced }
        ensures cut { self.old.is_broken ≡ true
            → (self.new.is_broken ≡ true) ⊎ (is_all at (min (at + length bytes.now) (2 ^ 64 - 1)) self.new.unsynced.written ≡ true) }
        ensures failed { OnErr result (self.new.is_broken ≡ self.old.is_broken) }
    {
        let end = at.saturating_add(bytes.len() as u64);
        self.unsynced.write(at, end);
        if !self.is_broken || !self.unsynced.is_all(at, end) {
            return self.put(None, at, bytes);
        }
        if self.firm.is_none() {
            return Err(Error::from(ErrorKind::Other));
        }
        self.put(self.firm, at, bytes)?;
        self.is_broken = false;
        Ok(())
    }

    // Writes the bytes, after a cut where there is one to make.
    fn put(&mut self, cut: Option<u64>, at: u64, bytes: &[u8]) -> io::Result<()>
        ensures unsynced { self.new.unsynced ≡ self.old.unsynced }
        ensures broken { self.new.is_broken ≡ self.old.is_broken }
    {
        if matches!(self.way, Way::Kept) {
            return write(&self.device, cut, at, bytes);
        }
        self.device.open()?;
        match self.opened() {
            Ok(true) => {
                self.way = Way::Kept;
                write(&self.device, cut, at, bytes)
            }
            Ok(false) => self.write_through(cut, at, bytes),
            Err(error) => {
                self.device.close();
                Err(error)
            }
        }
    }

    // Whether the descriptor that was opened for a write may be kept up to the sync. Where no write was made since a sync that
    // answered well, all of the file is firm.
    fn opened(&mut self) -> io::Result<bool>
        ensures unsynced { self.new.unsynced ≡ self.old.unsynced }
        ensures broken { self.new.is_broken ≡ self.old.is_broken }
    {
        match self.way {
            Way::Closed | Way::New | Way::Found => {
                self.way = Way::Closed;
                if !self.is_broken {
                    self.firm = Some(self.device.len()?);
                }
            }
            Way::Through(false) => return Ok(false),
            Way::Through(true) | Way::Kept => {}
        }
        self.device.may_keep()
    }

    // Writes the bytes and syncs, also where not all were written, and closes the descriptor.
    fn write_through(&mut self, cut: Option<u64>, at: u64, bytes: &[u8]) -> io::Result<()>
        ensures unsynced { self.new.unsynced ≡ self.old.unsynced }
        ensures broken { self.new.is_broken ≡ self.old.is_broken }
    {
        let written = write(&self.device, cut, at, bytes);
        let synced = self.device.sync();
        self.device.close();
        let were_well = match self.way {
            Way::Through(were_well) => were_well,
            Way::Closed | Way::New | Way::Found | Way::Kept => true,
        };
        self.way = Way::Through(were_well && synced.is_ok());
        written?;
        synced
    }

    /// Makes the file firm, and its name in the folder. It answers well only where nothing is lost; and after an `Err` what
    /// a failed sync may have lost is lost until it is written again.
    pub fn sync(&mut self) -> io::Result<()>
        ensures sound { OnOk result (is_lost self.old.unsynced ≡ false) }
        ensures cut { OnOk result (self.old.is_broken ≡ false) }
        ensures firm { OnOk result (self.new.unsynced ≡ all_firm) }
        ensures err { OnErr result (is_lost self.new.unsynced ≡ true) }
        ensures broken { OnErr result (is_lost self.old.unsynced ≡ false
            → (self.new.is_broken ≡ true) ⊎ (self.new.unsynced.is_name_lost ≡ true)) }
    {
        self.unsynced.check()?;
        if let Err(error) = self.sync_bytes() {
            self.unsynced.failed();
            self.is_broken = true;
            return Err(error);
        }
        let named = self.device.sync_name();
        self.unsynced.named(named)?;
        self.unsynced.synced();
        Ok(())
    }

    // Makes the bytes firm.
    fn sync_bytes(&mut self) -> io::Result<()>
        ensures unsynced { self.new.unsynced ≡ self.old.unsynced }
        ensures cut { OnOk result (self.old.is_broken ≡ false) }
    {
        if self.is_broken {
            return Err(Error::from(ErrorKind::Other));
        }
        match self.way {
            Way::Kept => {
                let len = self.device.len()?;
                self.device.sync()?;
                self.firm = Some(len);
                return Ok(());
            }
            Way::Found | Way::Closed => self.sync_found()?,
            Way::New | Way::Through(true) => {}
            Way::Through(false) => {
                self.way = Way::Through(true);
                return Err(Error::from(ErrorKind::Other));
            }
        }
        self.device.close();
        self.way = Way::Closed;
        Ok(())
    }

    // Makes the bytes firm of a file that wasn't written.
    fn sync_found(&self) -> io::Result<()> {
        if self.is_open() {
            return self.device.sync();
        }
        self.device.sync_anew()
    }

    /// The file, which is written no more.
    pub fn into_device(self) -> D {
        let Writing {
            device,
            way: _,
            firm: _,
            is_broken: _,
            unsynced: _,
        } = self;
        device
    }
}

// Writes the bytes, after the file was cut to a length, where one is given.
fn write<D: Device>(device: &D, cut: Option<u64>, at: u64, bytes: &[u8]) -> io::Result<()> {
    if let Some(len) = cut {
        device.cut(len)?;
    }
    device.write(at, bytes)
}
