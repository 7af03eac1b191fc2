// What a store asks of a system.
ghost use Rattle.std.specs.Prelude.{◌≡◌, IfOk, None, Some, string_bytes};

use crate::{SystemFault, UntoldDisk};
use fd_bytes::NoMemory;
use fd_disk::{Disk, FileName, Sealed};
use fd_unsynced::Device;
use std::alloc::{AllocError, Global};
use std::collections::BTreeSet;
use std::io;

/// A file that is written, and then changes no more.
pub trait Sealing: Device + Send {
    /// The file once it changes no more.
    type Sealed: Sealed<SystemFault>;

    /// Ends the writing: the file of this dataset and name, and of this length.
    fn seal(self, name: String, made: Option<FileName>, len: u64) -> Self::Sealed
        ensures bytes { Self.Sealed.bytes result ≡ None }
        ensures len { Self.Sealed.len result ≡ len }
        ensures name { Self.Sealed.name result ≡ string_bytes name }
        ensures made { Self.Sealed.made result ≡ made };
}

/// Where a shelf makes its files.
pub trait Files: Send + Drop {
    /// A file once it changes no more.
    type Sealed: Sealed<SystemFault>;

    /// A file.
    type Device: Sealing<Sealed = Self::Sealed>;

    /// A file that gathers small writes.
    type Gathered: Disk<SystemFault, Sealed = Self::Sealed>;

    /// The file of this name in this folder, which isn't made yet. The index of a batch that is asked for right behind its
    /// fields is made with them.
    fn device(
        &mut self,
        alloc: Global,
        folder: &str,
        file: FileName,
    ) -> Result<Self::Device, NoMemory>;

    /// Gathers up to so many bytes for this file. The room is made now.
    fn gathered(
        &self,
        alloc: Global,
        file: UntoldDisk<Self::Device>,
        room: usize,
    ) -> Result<Self::Gathered, NoMemory>
        ensures file { IfOk result (λ d. Self.Gathered.file d ≡ None) }
        ensures name { IfOk result (λ d. Self.Gathered.name d ≡ string_bytes file.name) }
        ensures made { IfOk result (λ d. Self.Gathered.made d ≡ file.made) };
}

/// A dataset's folder, with its table, and who writes to it.
pub trait Ground: Drop {
    /// The path of the folder.
    fn path(&self) -> &str;

    /// Makes the folder, and then the table in it. An error where there is one.
    fn found(&mut self, alloc: Global, first: &[u8]) -> io::Result<()>;

    /// Knows of no table that is open.
    fn close(&mut self);

    /// Makes the folder, and this process the one that writes to it; an error where another one is. A table that is open
    /// is renewed then.
    fn enter(&mut self, alloc: Global, is_open: bool) -> io::Result<()>;

    /// Makes this process the one that writes to the folder, which is there, and whose table has to be as it was read.
    fn claim(&mut self, alloc: Global) -> io::Result<()>;

    /// Puts a table of these bytes in the place of the one that is there. Who didn't claim the folder may not call it.
    fn replace(&mut self, bytes: &[u8]) -> io::Result<()>;

    /// Takes the table away. Who didn't claim the folder may not call it.
    fn unlist(&self) -> io::Result<()>;

    /// Removes a file of the folder. Who didn't claim the folder may not call it.
    fn remove(&self, path: &str) -> io::Result<()>;

    /// The length of a file, or none where it isn't there.
    fn length_of(&self, path: &str) -> io::Result<Option<u64>>;
}

/// A dataset's folder, and its files.
pub trait Place: Ground + Send {
    /// A file of the folder.
    type Sealed: Sealed<SystemFault>;

    /// A table that is written.
    type Device: Sealing;

    /// Where a shelf makes its files.
    type Files: Files<Sealed = Self::Sealed>;

    /// The table, whether or not it is there.
    fn table(&self, alloc: Global) -> Result<Self::Device, AllocError>;

    /// Opens the table, where there is one. Who writes to the dataset has put a new file in its place by then; whether that
    /// is so.
    fn open(&mut self, alloc: Global, table: &mut Self::Device) -> io::Result<Option<bool>>;

    /// Where a new shelf makes its files.
    fn files(&self, alloc: Global) -> io::Result<Self::Files>;

    /// The file of this path, dataset, name and length.
    fn sealed(&self, path: String, name: String, made: FileName, len: u64) -> Self::Sealed
        ensures bytes { Self.Sealed.bytes result ≡ None }
        ensures name { Self.Sealed.name result ≡ string_bytes name }
        ensures made { Self.Sealed.made result ≡ Some made };
}

/// The files of a system by their paths, and their locks.
pub trait Root: Drop {
    /// A lock.
    type Lock: Drop;

    /// All bytes of a file, or none where it isn't there.
    fn whole(&self, alloc: Global, path: &str) -> io::Result<Option<Vec<u8>>>;

    /// Makes a folder and those above it, each firm in the one above it, where they aren't there.
    fn make_folders(&self, path: &str) -> io::Result<()>;

    /// The lock of this file, until it is let go; an error where another process has it.
    fn lock(&self, path: &str) -> io::Result<Self::Lock>;

    /// Makes a file of these bytes, in place of none, once they are firm under another name. Who has no lock of the folder
    /// may not call it.
    fn plant(&self, folder: &str, unfinished: &str, path: &str, bytes: &[u8]) -> io::Result<()>;

    /// Adds the names of the datasets' folders that a folder has, which is none where it isn't there itself.
    fn gather(&self, alloc: Global, path: &str, names: &mut BTreeSet<String>) -> io::Result<()>;
}

/// A system with files, and its datasets.
pub trait System: Root + Send {
    /// A dataset's folder.
    type Place: Place;

    /// The system on which the process runs.
    fn new(alloc: Global, host: HostRuntime) -> Result<Self, NoMemory>;

    /// Knows of no lock from now on: those that were got belong to another root.
    fn enter(&mut self, alloc: Global) -> Result<(), AllocError>;

    /// The place of a dataset in this root, whether or not it is there.
    fn place(&self, alloc: Global, root: &str, name: &str) -> Result<Self::Place, AllocError>;
}
