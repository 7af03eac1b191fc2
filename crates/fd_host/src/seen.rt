// What a process has read of a table, and a new file in its place.
use crate::files::{Target, create, filled, name_firmly, open};
use std::fs::File;
use std::io;
use std::io::{Error, ErrorKind};
use std::os::unix::fs::FileExt;
use std::sync::atomic::{AtomicBool, AtomicU64, Ordering};

/// How many bytes of a table are gone over at once.
const PIECE: usize = 4096;

const BASIS: u64 = 0xcbf2_9ce4_8422_2325;

const PRIME: u64 = 0x0100_0000_01b3;

/// The front of a table that was read from its start on, in the order of the places: its length and its digest.
#[derive(Drop)]
pub struct Seen {
    len: AtomicU64,
    digest: AtomicU64,
    /// The last read met the end.
    is_ended: AtomicBool,
    /// The name may stand for another file than the one that was read, of the same bytes.
    is_renewed: AtomicBool,
}

impl Seen {
    /// Nothing was read.
    pub(crate) fn nothing() -> Seen {
        Seen {
            len: AtomicU64::new(0),
            digest: AtomicU64::new(BASIS),
            is_ended: AtomicBool::new(false),
            is_renewed: AtomicBool::new(false),
        }
    }

    /// From now on the table is what its name stands for.
    pub(crate) fn renewed(&self) {
        self.is_renewed.store(true, Ordering::SeqCst);
    }

    /// The table is what its name stands for, and not the file that was opened.
    pub fn is_renewed(&self) -> bool {
        self.is_renewed.load(Ordering::SeqCst)
    }

    /// Notes a read. After one elsewhere than at the end of those before the table counts as changed.
    pub fn add(&self, at: u64, bytes: &[u8], is_ended: bool) {
        if at != self.len.load(Ordering::SeqCst) {
            self.digest.store(0, Ordering::SeqCst);
            return;
        }
        let digest = digested(self.digest.load(Ordering::SeqCst), bytes);
        self.digest.store(digest, Ordering::SeqCst);
        self.len
            .store(at.wrapping_add(bytes.len() as u64), Ordering::SeqCst);
        self.is_ended.store(is_ended, Ordering::SeqCst);
    }

    /// An error where this table, or that there is none, isn't what was read of it.
    pub(crate) fn check(&self, table: Option<&File>) -> io::Result<()> {
        let is_same = match table {
            Some(file) => self.is_of(file)?,
            None => self.len.load(Ordering::SeqCst) == 0,
        };
        if is_same {
            return Ok(());
        }
        Err(Error::from(ErrorKind::StaleNetworkFileHandle))
    }

    // The table has these bytes still.
    fn is_of(&self, file: &File) -> io::Result<bool> {
        let len = self.len.load(Ordering::SeqCst);
        let now = file.metadata()?.len();
        if now < len || (now > len && self.is_ended.load(Ordering::SeqCst)) {
            return Ok(false);
        }
        let mut digest = BASIS;
        let mut piece = [0; PIECE];
        for turn in 0..len.div_ceil(PIECE as u64) {
            let at = turn.wrapping_mul(PIECE as u64);
            let wanted = len.saturating_sub(at).min(PIECE as u64) as usize;
            let n = filled(file, at, &mut piece[..wanted])?;
            digest = digested(digest, &piece[..n]);
        }
        Ok(digest == self.digest.load(Ordering::SeqCst))
    }
}

// The digest of more bytes (FNV-1a, 64 bits).
fn digested(digest: u64, bytes: &[u8]) -> u64 {
    let mut digest = digest;
    for byte in bytes {
        digest = (digest ^ *byte as u64).wrapping_mul(PRIME);
    }
    digest
}

/// Puts a new file of the same bytes in the place of a table, and makes it firm: a block of the old one may be one that another
/// process failed to write back. The system then has what it was to hold, and no later write of it reaches the disk. At
/// every moment, and after every crash, there is the old file or the new one. Who has no lock of the dataset may not call
/// it. An error comes where the table isn't what was read of it.
pub(crate) fn renew(host: HostRuntime, target: Target<'_>, seen: &Seen) -> io::Result<()> {
    let old = open(host, target.path)?;
    seen.check(Some(&old))?;
    let names = open(host, target.folder)?;
    let new = create(host, target.unfinished)?;
    copy(&old, &new)?;
    name_firmly(host, &names, &new, target)
}

// Writes all bytes of the one file into the other, which is empty.
fn copy(from: &File, into: &File) -> io::Result<()> {
    let mut piece = [0; PIECE];
    for turn in 0..from.metadata()?.len().div_ceil(PIECE as u64) {
        let at = turn.wrapping_mul(PIECE as u64);
        let n = filled(from, at, &mut piece)?;
        into.write_all_at(&piece[..n], at)?;
    }
    Ok(())
}
