//! What one writer does in a dataset.
ghost use Rattle.std.specs.Prelude.{◌≡◌, ◌≤◌, ◌<◌, length, false, IfOk, OnSome, codes};
ghost use Rattle.fd_disk.specs.declared.folders.FileName.{FileName};
ghost use Rattle.fd_schema.specs.{Rules.{file_key}, Reading.{seen_place}};
ghost use Rattle.fd_reader_tests.specs.Passing.{IsFree, IsReady};

use crate::reading::{Open, opened};
use fd_archiver::{Archiver, Flush, FlushFault};
use fd_bytes::NoMemory;
use fd_disk::{Disk, Folder, Shelf};
use fd_schema::Place;
use fd_segment::Room;
use std::alloc::{AllocError, Global};
use std::sync::Wait;

/// The number of bytes of each message.
pub(crate) const SIZE: usize = 183;

/// A key of the dataset `a=1`.
#[derive(Clone, Copy)]
pub(crate) enum Key {
    A,
    B,
    C,
}

/// The datum text of a key.
fn datum(key: Key) -> &'static str
    ensures { length result.now ≤ 8 }
{
    match key {
        Key::A => "a",
        Key::B => "b",
        Key::C => "c",
    }
}

/// The place of a key.
pub(crate) fn place(alloc: Global, key: Key) -> Result<Place, AllocError>
    ensures dataset { IfOk result (λ p. (seen_place p).dataset ≡ codes "a=1") }
    ensures key { IfOk result (λ p. length (file_key (seen_place p)) ≤ 256) }
{
    match Place::new(alloc, 0, "a=1", "i", datum(key)) {
        Ok(place) => Ok(place),
        Err(NoMemory) => Err(AllocError),
    }
}

/// A message that is put: its key, and the byte that it consists of.
pub(crate) type Message = (Key, u8);

/// Two messages, in a batch each where they are apart.
#[derive(Clone, Copy)]
pub(crate) struct Two {
    pub(crate) first: Message,
    pub(crate) second: Message,
    pub(crate) apart: bool,
}

/// How the listing of a batch went: at once, by a second flush, or not, with the number of entries where the table is full.
#[derive(Clone, Copy, Debug, PartialEq, Eq)]
pub(crate) enum Went {
    AtOnce,
    Again,
    Full(u32),
    Never,
}

/// How a call went that is made again where it was refused.
macro_rules! went {
    ($call:expr) => {
        match $call {
            Went::Never => match $call {
                Went::AtOnce => Went::Again,
                went => went,
            },
            went => went,
        }
    };
}

/// A writer of the dataset, which is open.
struct Writer<F: Send, T: Disk<F>, H: Shelf<F>> {
    archiver: Archiver<F, H>,
    opened: Open<F, T, H::Sealed>,
}

impl<F: Send + Drop, T: Disk<F>, H: Shelf<F>> Writer<F, T, H> {
    /// Puts a message, and tells whether it did.
    fn put(&mut self, alloc: Global, message: Message) -> bool
        requires { IsReady self.old.archiver.dataset self.old.opened.dataset self.old.opened.pass }
        ensures { IsReady self.new.archiver.dataset self.new.opened.dataset self.new.opened.pass }
    {
        let Ok(place) = place(alloc, message.0) else {
            return false;
        };
        self.archiver.size() <= 1000 && self.archiver.archive(&place, &[message.1; SIZE]).is_ok()
    }

    /// Flushes, where it may, and tells what was answered.
    fn flush<R: Wait>(&mut self, rt: &R, alloc: Global) -> Went
        requires { IsReady self.old.archiver.dataset self.old.opened.dataset self.old.opened.pass }
        ensures { IsReady self.new.archiver.dataset self.new.opened.dataset self.new.opened.pass }
    {
        if self.archiver.writer() > 65_536 || self.archiver.flushes_left() == 0 {
            return Went::Never;
        }
        match self
            .archiver
            .flush(rt, alloc, &self.opened.dataset, &mut self.opened.pass)
        {
            Ok(Flush::Listed(_)) => Went::AtOnce,
            Err(FlushFault::TableFull { count }) => Went::Full(count),
            _ => Went::Never,
        }
    }

    /// Puts two messages, and tells how the listing of the second went.
    fn write<R: Wait>(&mut self, rt: &R, alloc: Global, two: Two) -> Went
        requires { IsReady self.old.archiver.dataset self.old.opened.dataset self.old.opened.pass }
        ensures { IsReady self.new.archiver.dataset self.new.opened.dataset self.new.opened.pass }
    {
        if !self.put(alloc, two.first) {
            return Went::Never;
        }
        if two.apart {
            went!(self.flush(rt, alloc));
        }
        if !self.put(alloc, two.second) {
            return Went::Never;
        }
        went!(self.flush(rt, alloc))
    }
}

/// Has a writer of this shelf put two messages, and gives the shelf and the open dataset back.
fn written<F: Send + Drop, T: Disk<F>, H: Shelf<F>, R: Wait>(
    rt: &R,
    alloc: Global,
    shelf: H,
    writer: u32,
    opened: Open<F, T, H::Sealed>,
    two: Two,
) -> (H, Open<F, T, H::Sealed>, Went)
where
    requires free { IsFree opened.dataset opened.pass }
    requires shelf { (H.name shelf ≡ codes "a=1") × (H.writer shelf ≡ writer) }
    requires new { (n : FileName) → H.created shelf n ≡ false }
    ensures free { IsFree result.1.dataset result.1.pass }
    ensures shelf { H.name result.0 ≡ codes "a=1" }
{
    let room = Room { keys: 2, bytes: 6 };
    let archiver = match Archiver::new(alloc, shelf, writer, room) {
        Ok(archiver) => archiver,
        Err((shelf, _)) => return (shelf, opened, Went::Never),
    };
    let mut writer = Writer { archiver, opened };
    let went = writer.write(rt, alloc, two);
    let Writer { archiver, opened } = writer;
    (archiver.close(), opened, went)
}

/// Opens the dataset of a folder, has a writer put two messages, and gives all back: how the listing of the second went.
pub(crate) fn archive<F: Send + Drop, D: Folder<F>, R: Wait>(
    rt: &R,
    alloc: Global,
    folder: &mut D,
    writer: u32,
    two: Two,
) -> Option<Went>
where
    requires back { D.table_out folder.old ≡ false }
    requires name { D.name folder.old ≡ codes "a=1" }
    requires writer { D.last_writer folder.old < writer }
    ensures back { OnSome result (D.table_out folder.new ≡ false) }
{
    let Ok(shelf) = folder.shelf(alloc, writer) else {
        return None;
    };
    let Some(open) = opened(alloc, folder) else {
        return None;
    };
    let (shelf, Open { dataset, pass }, went) = written(rt, alloc, shelf, writer, open, two);
    folder.give_shelf(shelf);
    folder.give_table(dataset.close(pass).into_table());
    Some(went)
}
