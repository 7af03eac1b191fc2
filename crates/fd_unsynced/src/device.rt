// What a file that is written asks of a system.
ghost use Rattle.std.specs.Prelude.{◌≤◌, length, IfOk};

use std::io;

/// A file of a system, whether or not it is there, with a descriptor of it where one is open, and how its name is made firm.
pub trait Device: Drop {
    /// Opens it for reads, writes and syncs, in place of what was open. A file of a shelf is made before, unless it is made.
    fn open(&mut self) -> io::Result<()>;

    /// Takes the leave to keep a descriptor between calls, where one is left.
    fn may_keep(&mut self) -> io::Result<bool>;

    /// Closes the descriptor.
    fn close(&mut self);

    /// The length of the file that is open.
    fn len(&self) -> io::Result<u64>;

    /// Reads the file that is open until the slice is full or the file ends.
    fn read(&self, at: u64, into: &mut [u8]) -> io::Result<usize>
        ensures { IfOk result (λ n. n ≤ length into.old) };

    /// The same by a descriptor of its own. A file that isn't made has no bytes.
    fn read_anew(&self, at: u64, into: &mut [u8]) -> io::Result<usize>
        ensures { IfOk result (λ n. n ≤ length into.old) };

    /// Notes what was read of a table.
    fn note(&self, at: u64, bytes: &[u8], is_ended: bool);

    /// Cuts the file that is open to this length.
    fn cut(&self, len: u64) -> io::Result<()>;

    /// Writes all of the bytes to the file that is open.
    fn write(&self, at: u64, bytes: &[u8]) -> io::Result<()>;

    /// Makes the bytes firm of the file that is open.
    fn sync(&self) -> io::Result<()>;

    /// The same by a descriptor of its own. A file of a shelf is made before, unless it is made.
    fn sync_anew(&self) -> io::Result<()>;

    /// Makes the name firm.
    fn sync_name(&mut self) -> io::Result<()>;

    /// The name of the table stands for another file than the one that is open.
    fn is_renewed(&self) -> bool;
}
