// A file that changes no more, and its reader.
use crate::RealFault;
use fd_buffers::Ahead;
use fd_disk::{Down, FileName, Reader, Sealed};
use fd_host::read_exactly;
use fd_untold::{Path, PathReader, room_of};
use std::alloc::{AllocError, Global};
use std::io;

/// The shortest read that is taken for one of a row.
const PIECE: usize = 4096;

/// The path of a file of the host.
#[derive(Drop)]
pub struct HostPath {
    pub(crate) host: HostRuntime,
    pub(crate) path: String,
}

impl Path for HostPath {
    fn copy(&self, alloc: Global) -> Result<HostPath, AllocError> {
        Ok(HostPath {
            host: self.host,
            path: String::from_str(alloc, self.path.as_str())?,
        })
    }

    fn read_exactly(&self, at: u64, into: &mut [u8]) -> io::Result<()> {
        read_exactly(self.host, self.path.as_str(), at, into)
    }
}

/// A file that changes no more. It holds a path, and is opened for each read.
#[derive(Drop)]
pub struct RealSealed {
    pub(crate) path: HostPath,
    pub(crate) name: String,
    pub(crate) made: Option<FileName>,
    pub(crate) len: u64,
}

impl Sealed<RealFault> for RealSealed {
    ghost use Rattle.std.specs.Prelude.{None, string_bytes};

    type Reader = RealReader;

    ghost bytes = { λ z. None };

    ghost len = { λ z. z.len };

    ghost name = { λ z. string_bytes z.name };

    ghost made = { λ z. z.made };

    ghost len_told = { λ z b is. absurd (cc is) };

    fn len(&self) -> u64 {
        self.len
    }

    fn reader(&self, alloc: Global) -> Result<RealReader, Down<RealFault>> {
        let Ok(path) = self.path.copy(alloc) else {
            return Err(Down::NoMemory);
        };
        let file = PathReader::new(path, self.len);
        match Ahead::new(alloc, file, PIECE, room_of(self.made, self.len)) {
            Ok(ahead) => Ok(RealReader { ahead }),
            Err(_) => Err(Down::NoMemory),
        }
    }
}

/// A sealed file that is being read, of one of fields with what was read ahead.
#[derive(Drop)]
pub struct RealReader {
    ahead: Ahead<RealFault, PathReader<HostPath>>,
}

impl Reader<RealFault> for RealReader {
    ghost use Rattle.std.specs.Prelude.{None};

    ghost bytes = { λ r. None };

    ghost len = { λ r. ⟦<Ahead<RealFault, PathReader<HostPath>> as Reader<RealFault>>⟧.len r.ahead };

    ghost faults = { λ r. ⟦<Ahead<RealFault, PathReader<HostPath>> as Reader<RealFault>>⟧.faults r.ahead };

    ghost reads = { λ r. ⟦<Ahead<RealFault, PathReader<HostPath>> as Reader<RealFault>>⟧.reads r.ahead };

    ghost asked = { λ r. ⟦<Ahead<RealFault, PathReader<HostPath>> as Reader<RealFault>>⟧.asked r.ahead };

    ghost len_told = { λ r b is. absurd (cc is) };

    fn read_at(&mut self, at: u64, into: &mut [u8]) -> Result<usize, RealFault> {
        self.ahead.read_at(at, into)
    }
}
