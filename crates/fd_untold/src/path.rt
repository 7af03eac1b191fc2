// The path of a file, and its reader.
ghost use Rattle.std.specs.Prelude.{◌≡◌, ◌≤◌, ◌-◌, min};

use crate::SystemFault;
use crate::fault::counted;
use fd_disk::{FileKind, FileName, Reader};
use std::alloc::{AllocError, Global};
use std::io;

/// How many bytes of a file of fields are read ahead.
const AHEAD: u64 = 65_536;

/// The path of a file, of which nothing is open. Threads may share it.
pub trait Path: Send + Sync + Drop {
    /// The same path.
    fn copy(&self, alloc: Global) -> Result<Self, AllocError>;

    /// Fills all of `into`, or answers an error where the file ends before.
    fn read_exactly(&self, at: u64, into: &mut [u8]) -> io::Result<()>;
}

/// How many bytes are read ahead of a file of this name and length.
pub fn room_of(made: Option<FileName>, len: u64) -> usize {
    match made {
        Some(name) if name.kind == FileKind::Fields => len.min(AHEAD) as usize,
        _ => 0,
    }
}

/// A sealed file that is read call by call. It holds no descriptor between calls.
#[derive(Drop)]
pub struct PathReader<P> {
    path: P,
    len: u64,
    faults: u64,
    reads: u64,
    asked: u64,
}

impl<P: Path> PathReader<P> {
    /// A reader of a file of this length.
    pub fn new(path: P, len: u64) -> PathReader<P>
        ensures len { ⟦<PathReader<P> as Reader<SystemFault>>⟧.len result ≡ len }
        ensures reads { ⟦<PathReader<P> as Reader<SystemFault>>⟧.reads result ≡ 0 }
        ensures asked { ⟦<PathReader<P> as Reader<SystemFault>>⟧.asked result ≡ 0 }
    {
        PathReader {
            path,
            len,
            faults: 0,
            reads: 0,
            asked: 0,
        }
    }
}

impl<P: Path> Reader<SystemFault> for PathReader<P> {
    ghost use Rattle.std.specs.Prelude.{None};

    ghost bytes = { λ r. None };

    ghost len = { λ r. r.len };

    ghost faults = { λ r. r.faults };

    ghost reads = { λ r. r.reads };

    ghost asked = { λ r. r.asked };

    ghost len_told = { λ r b is. absurd (cc is) };

    /// A file that ends before its length is a fault.
    fn read_at(&mut self, at: u64, into: &mut [u8]) -> Result<usize, SystemFault> {
        self.reads = self.reads.saturating_add(1);
        self.asked = self.asked.saturating_add(into.len() as u64);
        let n = within(self.len, at, into.len());
        match self.path.read_exactly(at, &mut into[..n]) {
            Ok(()) => Ok(n),
            Err(error) => Err(counted(&mut self.faults, error)),
        }
    }
}

// How many of so many wanted bytes a file of this length has from the place on.
fn within(len: u64, at: u64, wanted: usize) -> usize
    ensures value { result ≡ min wanted (len - at) }
    ensures bound { result ≤ wanted }
{
    len.saturating_sub(at).min(wanted as u64) as usize
}
