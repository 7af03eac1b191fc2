ghost use Rattle.std.specs.Prelude.{◌≡◌, ◌⊎◌, ◌≤◌, ◌<◌, ◌+◌, ◌^◌, [], ◌∷◌, ◌++◌, List, ℕ, Some, None, length, OnOk, OnErr, IfOk, IfErr, IfSome, IsSome, option_map};
ghost use Rattle.fd_bytes.specs.Causes.{HasCause, Rose};
ghost use Rattle.fd_disk.specs.{Folders.{WhereTold}, Moments.{LeavesOnly, MayLeave}};
ghost use Rattle.fd_entries.specs.Table.{AllFit, gate_at, greatest_writer};
ghost use Rattle.fd_toc.specs.{Causes.{IsFullAt, OnAppendDisk, OnFull}, Lists.{Lists, ListsOrAlso, ListsOrOneMore}, Sound.{IsOpen}, Calls.{AppendFails, BodyFails, ClosingFails, OpeningFails, appended, bodied, closed, mended, opened}};

use crate::AppendFault;
use crate::firm::write_firm;
use fd_bytes::{Bytes, NoMemory};
use fd_disk::Disk;
use fd_entries::Entry;
use std::marker::{Model, PhantomData};

// The byte of an open gate, and that of a closed gate as it is written.
const OPEN: u8 = 0x4F;

const CLOSED: u8 = 0;

/// The table of contents of a dataset, which its owner holds open. Contracts see its disk, the dataset's text, the listed
/// entries, the entry in doubt, the one whose body was written last and whose gate isn't open, and how many entries may
/// be added without taking memory. At every moment a crash leaves bytes that list the entries, or these and the one in
/// doubt.
#[derive(Drop)]
pub struct Toc<F: Send, T: Disk<F>> {
    table: T,
    dataset: Bytes,
    entries: Vec<Entry>,
    doubt: Option<Entry>,
    staged: Option<Entry>,
    of: PhantomData<F>,
}

impl<F: Send, T: Disk<F>> Model for Toc<F, T> {
    ghost use Rattle.std.specs.Prelude.{◌-◌, ◌^◌, length, min, vec_capacity};
    ghost use Rattle.fd_toc.specs.{OpenTable.{OpenTable}, Sound.{IsOpen}};

    ghost Value = { OpenTable T };

    ghost view = { λ a. record { table = a.table; dataset = a.dataset; entries = a.entries.items; doubt = a.doubt; staged = a.staged; spare = min (vec_capacity a.entries - length a.entries.items) (2 ^ 32 - 1) } };

    ghost invariant = { λ a. IsOpen (T.file a.table) a.dataset a.entries.items a.doubt a.staged };
}

impl<F: Send, T: Disk<F>> Toc<F, T> {
    // A table with these entries.
    pub(crate) fn opened(table: T, dataset: Bytes, entries: Vec<Entry>) -> Toc<F, T>
        requires { IsOpen (T.file table) dataset entries.items None None }
        ensures { (result.table ≡ table) × (result.dataset ≡ dataset) × (result.entries ≡ entries.items) × (result.doubt ≡ None) × (result.staged ≡ None) }
    {
        Toc {
            table,
            dataset,
            entries,
            doubt: None,
            staged: None,
            of: PhantomData,
        }
    }

    /// The listed entries, in the order in which they were appended; there are at most 65,535, and each writer is at most
    /// 65,536 times the number of its entry.
    pub fn entries(&self) -> &[Entry]
        ensures entries { result.now ≡ self.now.entries }
        ensures few { length self.now.entries ≤ 65535 }
        ensures fit { AllFit 0 self.now.entries }
        ensures images { (c : List ℕ) → MayLeave (T.file self.now.table) c → ListsOrAlso self.now.dataset self.now.entries self.now.doubt c }
    {
        &self.entries
    }

    /// The text of the dataset.
    pub fn dataset(&self) -> &[u8]
        ensures { result.now ≡ self.now.dataset }
    {
        self.dataset.as_slice()
    }

    /// The entry whose gate a crash may leave open or closed, since opening it failed and it isn't mended.
    pub fn in_doubt(&self) -> Option<Entry>
        ensures { result ≡ self.now.doubt }
    {
        self.doubt
    }

    /// How many entries may be appended without taking memory, up to 2^32 - 1.
    pub fn spare(&self) -> u32
        ensures { result ≡ self.now.spare }
    {
        let spare = self.entries.capacity() - self.entries.len();
        spare.min(0xFFFF_FFFF) as u32
    }

    /// Makes room for an entry. After `NoMemory` nothing has changed.
    pub fn reserve(&mut self) -> Result<(), NoMemory>
        ensures ok { OnOk result (0 < self.new.spare) }
        ensures same { self.new ≡ record self.old { spare = self.new.spare } }
        ensures err { OnErr result (self.new ≡ self.old) }
    {
        self.entries.reserve(1)?;
        Ok(())
    }

    /// Closes the gate of the entry in doubt, and syncs. After `Ok` nothing is in doubt. After an `Err`, which comes only
    /// where the table's count of faults rose, the doubt stays.
    pub fn mend(&mut self) -> Result<(), F>
        requires { IsSome self.old.doubt }
        ensures ok { OnOk result (self.new ≡ record self.old { table = self.new.table; doubt = None; staged = None }) }
        ensures err { OnErr result (self.new ≡ record self.old { table = self.new.table; staged = None }) }
        ensures file { OnOk result (T.file self.new.table ≡ option_map (closed (length self.old.entries)) (T.file self.old.table)) }
        ensures file_err { OnErr result (WhereTold (T.file self.old.table) (T.file self.new.table) (ClosingFails (length self.old.entries))) }
        ensures any_moment { LeavesOnly T.moment T.left_since self.old.table self.new.table (ListsOrAlso self.old.dataset self.old.entries self.old.doubt) }
        ensures images { OnOk result ((c : List ℕ) → MayLeave (T.file self.new.table) c → Lists self.old.dataset self.old.entries c) }
        ensures name { T.name self.new.table ≡ T.name self.old.table }
        ensures cause { HasCause (T.faults self.old.table) (T.faults self.new.table) result }
    {
        let gate = gate_at(self.entries.len());
        self.staged = None;
        write_firm(&mut self.table, gate, &[CLOSED])?;
        self.doubt = None;
        Ok(())
    }

    /// Writes the entry's body behind the closed gate with a closed gate after it, and syncs, where nothing is in doubt
    /// and fewer than 65,535 entries are listed. The writer of the entry is at most 65,536 times its number. An `Err`
    /// comes only where the table's count of faults rose.
    pub fn body(&mut self, entry: Entry) -> Result<(), F>
        requires no_doubt { self.old.doubt ≡ None }
        requires room { length self.old.entries < 65535 }
        requires writer { entry.writer ≤ greatest_writer (length self.old.entries) }
        ensures ok { OnOk result (self.new ≡ record self.old { table = self.new.table; staged = Some entry }) }
        ensures err { OnErr result (self.new ≡ record self.old { table = self.new.table; staged = None }) }
        ensures file { OnOk result (T.file self.new.table ≡ option_map (bodied (length self.old.entries) entry) (T.file self.old.table)) }
        ensures file_err { OnErr result (WhereTold (T.file self.old.table) (T.file self.new.table) (BodyFails (length self.old.entries) entry)) }
        ensures any_moment { LeavesOnly T.moment T.left_since self.old.table self.new.table (Lists self.old.dataset self.old.entries) }
        ensures name { T.name self.new.table ≡ T.name self.old.table }
        ensures cause { HasCause (T.faults self.old.table) (T.faults self.new.table) result }
    {
        let gate = gate_at(self.entries.len());
        self.staged = None;
        write_firm(&mut self.table, gate + 1, &entry.body())?;
        self.staged = Some(entry);
        Ok(())
    }

    /// Opens the gate of the entry whose body was written last, and syncs, right after `body` succeeded and with room for
    /// the entry. After `Ok` it is listed. After an `Err`, which comes only where the table's count of faults rose, it is
    /// in doubt.
    pub fn gate(&mut self) -> Result<(), F>
        requires staged { IsSome self.old.staged }
        requires no_doubt { self.old.doubt ≡ None }
        requires spare { 0 < self.old.spare }
        ensures ok { OnOk result (IfSome self.old.staged (λ e. self.new.entries ≡ self.old.entries ++ e ∷ []) × (self.new.doubt ≡ None)) }
        ensures err { OnErr result (self.new ≡ record self.old { table = self.new.table; doubt = self.old.staged; staged = None }) }
        ensures dataset { self.new.dataset ≡ self.old.dataset }
        ensures none_staged { self.new.staged ≡ None }
        ensures file { OnOk result (T.file self.new.table ≡ option_map (opened (length self.old.entries)) (T.file self.old.table)) }
        ensures file_err { OnErr result (WhereTold (T.file self.old.table) (T.file self.new.table) (OpeningFails (length self.old.entries))) }
        ensures any_moment { LeavesOnly T.moment T.left_since self.old.table self.new.table (ListsOrAlso self.old.dataset self.old.entries self.old.staged) }
        ensures images { OnOk result ((c : List ℕ) → MayLeave (T.file self.new.table) c → Lists self.new.dataset self.new.entries c) }
        ensures few { length self.old.entries < 65535 }
        ensures room { OnOk result (self.old.spare ≤ self.new.spare + 1) }
        ensures name { T.name self.new.table ≡ T.name self.old.table }
        ensures cause { HasCause (T.faults self.old.table) (T.faults self.new.table) result }
    {
        let Some(entry) = self.staged else {
            unreachable!()
        };
        let gate = gate_at(self.entries.len());
        self.staged = None;
        self.doubt = Some(entry);
        write_firm(&mut self.table, gate, &[OPEN])?;
        self.doubt = None;
        let _ = self.entries.push(entry);
        Ok(())
    }

    /// Lists an entry, with room for it, and answers its number: mends where an entry is in doubt, then writes the body,
    /// then opens the gate. The writer of the entry is at most 65,536 times its number. `Full` comes exactly at 65,535
    /// entries, before the disk is called; `Disk` only where the table's count of faults rose. After a fault the entries
    /// are as before, and in doubt is what was, or nothing, or this entry.
    pub fn append(&mut self, entry: Entry) -> Result<u32, AppendFault<F>>
        requires spare { 0 < self.old.spare }
        requires writer { entry.writer ≤ greatest_writer (length self.old.entries) }
        ensures ok { IfOk result (λ n. (self.new.entries ≡ self.old.entries ++ entry ∷ []) × (self.new.doubt ≡ None) × (self.new.staged ≡ None) × (n ≡ length self.new.entries)) }
        ensures few { IfOk result (λ n. n ≤ 65535) }
        ensures room { OnOk result (self.old.spare ≤ self.new.spare + 1) }
        ensures images { OnOk result ((c : List ℕ) → MayLeave (T.file self.new.table) c → Lists self.new.dataset self.new.entries c) }
        ensures err { OnErr result (self.new ≡ record self.old { table = self.new.table; doubt = self.new.doubt; staged = self.new.staged }) }
        ensures exactly { IsFullAt (length self.old.entries) result }
        ensures full { IfErr result (λ e. OnFull e (self.new ≡ self.old)) }
        ensures doubt { IfErr result (λ e. OnAppendDisk e ((self.new.doubt ≡ self.old.doubt) ⊎ ((self.new.doubt ≡ None) ⊎ (self.new.doubt ≡ Some entry)))) }
        ensures dataset { self.new.dataset ≡ self.old.dataset }
        ensures file { OnOk result (T.file self.new.table ≡ option_map (appended self.old.doubt (length self.old.entries) entry) (T.file self.old.table)) }
        ensures file_err { IfErr result (λ e. OnAppendDisk e (WhereTold (T.file self.old.table) (T.file self.new.table) (AppendFails self.old.doubt (length self.old.entries) entry self.new.doubt))) }
        ensures any_moment { LeavesOnly T.moment T.left_since self.old.table self.new.table (ListsOrOneMore self.old.dataset self.old.entries self.old.doubt entry) }
        ensures name { T.name self.new.table ≡ T.name self.old.table }
        ensures later { T.faults self.old.table ≤ T.faults self.new.table }
        ensures cause { IfErr result (λ e. OnAppendDisk e (Rose (T.faults self.old.table) (T.faults self.new.table))) }
    {
        if self.entries().len() == 65535 {
            return Err(AppendFault::Full { count: 65535 });
        }
        if let Err(fault) = self.settle() {
            return Err(AppendFault::Disk(fault));
        }
        if let Err(fault) = self.body(entry) {
            return Err(AppendFault::Disk(fault));
        }
        if let Err(fault) = self.gate() {
            return Err(AppendFault::Disk(fault));
        }
        Ok(self.entries().len() as u32)
    }

    // Mends where an entry is in doubt.
    fn settle(&mut self) -> Result<(), F>
        ensures ok { OnOk result (self.new ≡ record self.old { table = self.new.table; doubt = None; staged = self.new.staged }) }
        ensures err { OnErr result ((self.new ≡ record self.old { table = self.new.table; staged = None }) × IsSome self.old.doubt) }
        ensures file { OnOk result (T.file self.new.table ≡ option_map (mended self.old.doubt (length self.old.entries)) (T.file self.old.table)) }
        ensures file_err { OnErr result (WhereTold (T.file self.old.table) (T.file self.new.table) (ClosingFails (length self.old.entries))) }
        ensures any_moment { LeavesOnly T.moment T.left_since self.old.table self.new.table (ListsOrAlso self.old.dataset self.old.entries self.old.doubt) }
        ensures name { T.name self.new.table ≡ T.name self.old.table }
        ensures cause { HasCause (T.faults self.old.table) (T.faults self.new.table) result }
    {
        let _ = &self.table;
        if self.in_doubt().is_some() {
            return self.mend();
        }
        Ok(())
    }

    /// The table's disk, to be put back.
    pub fn into_table(self) -> T
        ensures table { result ≡ self.table }
        ensures images { (c : List ℕ) → MayLeave (T.file result) c → ListsOrAlso self.dataset self.entries self.doubt c }
    {
        let Toc {
            table,
            dataset: _,
            entries: _,
            doubt: _,
            staged: _,
            of: _,
        } = self;
        table
    }
}

// The place of a gate in the table.
fn gate_at(number: usize) -> u64
    requires { number ≤ 65535 }
    ensures place { result ≡ gate_at number }
    ensures small { result < 2 ^ 32 }
{
    320 + 64 * (number as u64)
}
