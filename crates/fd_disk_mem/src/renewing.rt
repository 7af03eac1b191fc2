// A dataset in memory whose table is renewed or taken away, and whose files are removed.
ghost use Rattle.std.specs.Prelude.{◌≡◌, ◌≤◌, None, false, is_some, length, string_bytes, true, IfOk, OnOk};
ghost use Rattle.fd_disk.specs.{Causes.{HasDownCause}, Names.{same_name}, declared.folders.FileName.{FileName}};
ghost use Rattle.fd_disk_mem.specs.{Drawers.{bytes_among, is_named}, Pasts.{memory_of}, Renewing.{HoldsStill}};
ghost use Rattle.fd_file_mem.specs.Calls.{begun, new_file};

use crate::MemFolder;
use crate::drawers::{Drawers, Kept, drawer_of, lay};
use crate::past::{Past, copied};
use fd_disk::{Down, FileName, Folder, Renew};
use fd_file_mem::{MemDisk, MemFault, Op, counted};
use std::alloc::{AllocError, Global};

impl Renew<MemFault> for MemFolder {
    /// It counts as one making of the table, as that by `found` does. A fault comes by the plan, behind the fuse, or where the
    /// bytes are more than a file may have, and has done nothing but put the table back.
    fn renew(&mut self, alloc: Global, table: MemDisk, bytes: &[u8]) -> Result<(), Down<MemFault>> {
        match self.renewal(alloc, bytes) {
            Ok((renewed, place)) => {
                self.past.renew(table, place);
                self.put_table(Some(renewed));
                Ok(())
            }
            Err(down) => {
                self.put_table(Some(table));
                Err(down)
            }
        }
    }

    /// It counts as one making of the table. A fault comes by the plan or behind the fuse, and has done nothing but put the
    /// table back.
    fn unfound(&mut self, alloc: Global, table: MemDisk) -> Result<(), Down<MemFault>> {
        match self.ending(alloc) {
            Ok(place) => {
                self.past.renew(table, place);
                self.put_table(None);
                Ok(())
            }
            Err(down) => {
                self.put_table(Some(table));
                Err(down)
            }
        }
    }

    /// It counts as one making of the table. A fault comes by the plan or behind the fuse, and has done nothing.
    fn remove(&mut self, alloc: Global, file: FileName) -> Result<(), Down<MemFault>> {
        let Removal {
            drawer,
            above,
            table,
            before,
        } = match self.removal(alloc, file) {
            Ok(removal) => removal,
            Err(down) => return Err(down),
        };
        lay(&mut self.files, drawer, above);
        self.past.remove(table, before);
        Ok(())
    }
}

// What is laid upon the drawers and put into the past where a file is removed.
#[derive(Drop)]
struct Removal {
    drawer: Vec<Kept>,
    above: Box<Drawers>,
    table: Option<MemDisk>,
    before: Box<Past>,
}

impl MemFolder {
    // Has this table, or none, and none is out.
    fn put_table(&mut self, table: Option<MemDisk>)
        requires { is_some table ≡ true → length (string_bytes self.old.name) ≤ 255 }
        ensures table { self.new.table ≡ table }
        ensures out { self.new.table_out ≡ false }
        ensures files { self.new.files ≡ self.old.files }
        ensures past { self.new.past ≡ self.old.past }
        ensures last_writer { self.new.last_writer ≡ self.old.last_writer }
        ensures name { self.new.name ≡ self.old.name }
        ensures faults { self.new.faults ≡ self.old.faults }
    {
        self.table = table;
        self.table_out = false;
    }

    // Counts a making of the table, of so many bytes.
    fn counts(&mut self, len: usize) -> Result<(), Down<MemFault>>
        ensures fits { IfOk result (λ _. len ≤ self.old.room.size) }
        ensures none { OnOk result (self.new.faults ≡ self.old.faults) }
        ensures room { self.new.room ≡ self.old.room }
        ensures still { HoldsStill self.old self.new }
        ensures cause { HasDownCause self.old.faults self.new.faults result }
    {
        if self.plan.meets(Op::Create) || len as u64 > self.room.size {
            return Err(Down::Fault(counted(&mut self.faults)));
        }
        Ok(())
    }

    // A table of these bytes, and the place of the one before.
    fn renewal(
        &mut self,
        alloc: Global,
        bytes: &[u8],
    ) -> Result<(MemDisk, Box<Past>), Down<MemFault>>
        ensures file { IfOk result (λ r. r.0.file ≡ begun (new_file self.old.room) bytes.now) }
        ensures still { HoldsStill self.old self.new }
        ensures cause { HasDownCause self.old.faults self.new.faults result }
    {
        if let Err(down) = self.counts(bytes.len()) {
            return Err(down);
        }
        match self.begun(alloc, bytes) {
            Ok(begun) => Ok(begun),
            Err(_) => Err(Down::NoMemory),
        }
    }

    // The same, where it is counted.
    fn begun(&self, alloc: Global, bytes: &[u8]) -> Result<(MemDisk, Box<Past>), AllocError>
        requires { length bytes.now ≤ self.now.room.size }
        ensures { IfOk result (λ r. r.0.file ≡ begun (new_file self.now.room) bytes.now) }
    {
        let place = Box::new(alloc, Past::Start)?;
        let mut table = self.empty_table(alloc)?;
        table.begin(bytes);
        Ok((table, place))
    }

    // The place of a table that is taken away.
    fn ending(&mut self, alloc: Global) -> Result<Box<Past>, Down<MemFault>>
        ensures still { HoldsStill self.old self.new }
        ensures cause { HasDownCause self.old.faults self.new.faults result }
    {
        if let Err(down) = self.counts(0) {
            return Err(down);
        }
        match Box::new(alloc, Past::Start) {
            Ok(place) => Ok(place),
            Err(_) => Err(Down::NoMemory),
        }
    }

    // What is laid upon the files and put into the past where this file is removed.
    fn removal(&mut self, alloc: Global, file: FileName) -> Result<Removal, Down<MemFault>>
        ensures named { IfOk result (λ r. (n : FileName) → is_named r.drawer.items n ≡ same_name file n) }
        ensures none { IfOk result (λ r. (n : FileName) → same_name file n ≡ true → bytes_among r.drawer.items n ≡ None) }
        ensures copy { IfOk result (λ r. memory_of r.table ≡ memory_of self.old.table) }
        ensures still { HoldsStill self.old self.new }
        ensures cause { HasDownCause self.old.faults self.new.faults result }
    {
        if let Err(down) = self.counts(0) {
            return Err(down);
        }
        match removal_of(alloc, &self.table, file) {
            Ok(removal) => Ok(removal),
            Err(_) => Err(Down::NoMemory),
        }
    }
}

// The same, beside this table.
fn removal_of(alloc: Global, table: &Option<MemDisk>, file: FileName) -> Result<Removal, AllocError>
    ensures named { IfOk result (λ r. (n : FileName) → is_named r.drawer.items n ≡ same_name file n) }
    ensures none { IfOk result (λ r. (n : FileName) → same_name file n ≡ true → bytes_among r.drawer.items n ≡ None) }
    ensures copy { IfOk result (λ r. memory_of r.table ≡ memory_of table.now) }
{
    Ok(Removal {
        above: Box::new(alloc, Drawers::Empty)?,
        before: Box::new(alloc, Past::Start)?,
        drawer: drawer_of(alloc, file, None)?,
        table: copied(alloc, table)?,
    })
}
