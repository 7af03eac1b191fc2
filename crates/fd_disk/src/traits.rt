ghost use Rattle.std.specs.Prelude.{◌≡◌, ◌≤◌, ◌<◌, ◌+◌, ◌^◌, Bool, true, false, List, ℕ, Option, Some, length, max, IfOk, OnOk, OnErr, option_map};
ghost use Rattle.fd_disk.specs.{declared.file.File.{File}, declared.folders.FileName.{FileName}, Images.{IsImage, IsAfterFailedWrite, written, synced, firm_file}, Moments.{Elapses, MayLeave}, Reading.{ReadsCount, ReadsBytes, raised}, Folders.{WhereTold}};
ghost use Rattle.fd_bytes.specs.Causes.{HasCause};

use fd_bytes::NoMemory;
use std::alloc::Global;

/// Why a call of a store gave nothing.
#[derive(Drop)]
pub enum Down<F> {
    /// The store failed. The count of faults of the object that was called rose.
    Fault(F),
    /// Memory was refused. The object is as before, and so is its count.
    NoMemory,
}

/// A sealed file that is being read. An object that tells nothing of its file has `None` for its bytes.
pub trait Reader<F: Send>: Send + Drop {
    /// The sealed file's bytes, where told.
    ghost bytes: { Self → Option (List ℕ) };

    /// The length of the file in bytes.
    ghost len: { Self → ℕ };

    /// How many calls have failed; it never falls.
    ghost faults: { Self → ℕ };

    /// How many reads were asked for, up to 2^64 - 1.
    ghost reads: { Self → ℕ };

    /// How many bytes all reads together asked for, up to 2^64 - 1.
    ghost asked: { Self → ℕ };

    /// Fills the front of `into` with as many bytes as the file has from the place `at` on. An `Err` comes only where
    /// the count of faults rose; what `into` holds then is left open.
    fn read_at(&mut self, at: u64, into: &mut [u8]) -> Result<usize, F>
        ensures count { ReadsCount (len self.old) at (length into.old) result }
        ensures bytes { ReadsBytes (bytes self.old) at into.old into.new result }
        ensures same { bytes self.new ≡ bytes self.old }
        ensures len { len self.new ≡ len self.old }
        ensures reads { reads self.new ≡ raised (reads self.old) 1 }
        ensures asked { asked self.new ≡ raised (asked self.old) (length into.old) }
        ensures cause { HasCause (faults self.old) (faults self.new) result };

    /// A told file has its length.
    ghost len_told: { (r : Self) (b : List ℕ) → bytes r ≡ Some b → length b ≡ len r };
}

/// A file that changes no more, which threads may share. A fault here is shown by the `F` itself.
pub trait Sealed<F: Send>: Send + Sync + Drop {
    /// What reads the file.
    type Reader: Reader<F>;

    /// The file's bytes, where told.
    ghost bytes: { Self → Option (List ℕ) };

    /// The length of the file in bytes.
    ghost len: { Self → ℕ };

    /// The dataset's text.
    ghost name: { Self → List ℕ };

    /// The name under which a shelf created the file.
    ghost made: { Self → Option FileName };

    /// The length of the file in bytes.
    fn len(&self) -> u64
        ensures { result ≡ len self.now };

    /// Opens the file for reading.
    fn reader(&self, alloc: Global) -> Result<Self::Reader, Down<F>>
        ensures bytes { IfOk result (λ r. Self.Reader.bytes r ≡ bytes self.now) }
        ensures len { IfOk result (λ r. Self.Reader.len r ≡ len self.now) }
        ensures new { IfOk result (λ r. (Self.Reader.reads r ≡ 0) × (Self.Reader.asked r ≡ 0)) };

    /// A told file has its length.
    ghost len_told: { (z : Self) (b : List ℕ) → bytes z ≡ Some b → length b ≡ len z };
}

/// One file that is written and read. Between two syncs that succeed, a crash may leave any bytes in each range that was
/// written and past the firm end; `File` and its images say which.
pub trait Disk<F: Send>: Send + Drop {
    /// The file once it changes no more.
    type Sealed: Sealed<F>;

    /// The file as it stands, where told.
    ghost file: { Self → Option File };

    /// The last write was followed by a sync that succeeded.
    ghost is_synced: { Self → Bool };

    /// The greatest end of a write that succeeded.
    ghost extent: { Self → ℕ };

    /// The clock: a number that doesn't fall.
    ghost moment: { Self → ℕ };

    /// What a crash at some moment from that one on might have left.
    ghost left_since: { Self → ℕ → List ℕ → Type 0 };

    /// How many calls have failed; it never falls.
    ghost faults: { Self → ℕ };

    /// The dataset's text.
    ghost name: { Self → List ℕ };

    /// The name under which a shelf created the file; a table has none.
    ghost made: { Self → Option FileName };

    /// Fills the front of `into` with as many bytes as the file has from the place `at` on.
    fn read_at(&mut self, at: u64, into: &mut [u8]) -> Result<usize, F>
        ensures bytes { ReadsBytes (option_map (λ f. f.reads) (file self.old)) at into.old into.new result }
        ensures file { file self.new ≡ file self.old }
        ensures synced { is_synced self.new ≡ is_synced self.old }
        ensures extent { extent self.new ≡ extent self.old }
        ensures name { name self.new ≡ name self.old }
        ensures made { made self.new ≡ made self.old }
        ensures time { Elapses (moment self.old) (moment self.new) (left_since self.old) (left_since self.new) (file self.new) }
        ensures cause { HasCause (faults self.old) (faults self.new) result };

    /// Writes the bytes at the place `at`, with zeros between the old end and that place. The range is loose until the
    /// next sync that succeeds, also where the write failed; a write that failed may have done nothing at all, too. Places
    /// of a file end below 2^63, since offsets of files are signed.
    fn write_at(&mut self, at: u64, bytes: &[u8]) -> Result<(), F>
        requires { at + length bytes.now < 2 ^ 63 }
        ensures ok { OnOk result (file self.new ≡ option_map (λ f. written f at bytes.now) (file self.old)) }
        ensures err { OnErr result (WhereTold (file self.old) (file self.new) (λ f g. IsAfterFailedWrite f at (length bytes.now) g)) }
        ensures synced { OnOk result (is_synced self.new ≡ false) }
        ensures synced_err { OnErr result (is_synced self.new ≡ true → is_synced self.old ≡ true) }
        ensures extent { OnOk result (extent self.new ≡ max (extent self.old) (at + length bytes.now)) }
        ensures extent_err { OnErr result (extent self.new ≡ extent self.old) }
        ensures name { name self.new ≡ name self.old }
        ensures made { made self.new ≡ made self.old }
        ensures time { Elapses (moment self.old) (moment self.new) (left_since self.old) (left_since self.new) (file self.new) }
        ensures cause { HasCause (faults self.old) (faults self.new) result };

    /// Makes the file firm as it reads, and with it its name. After an `Err` the file is as before. So a disk whose device
    /// may drop what a failed sync was to make firm refuses each later sync until those bytes were written again.
    fn sync(&mut self) -> Result<(), F>
        ensures ok { OnOk result (file self.new ≡ option_map synced (file self.old)) }
        ensures err { OnErr result (file self.new ≡ file self.old) }
        ensures synced { OnOk result (is_synced self.new ≡ true) }
        ensures synced_err { OnErr result (is_synced self.new ≡ is_synced self.old) }
        ensures extent { extent self.new ≡ extent self.old }
        ensures name { name self.new ≡ name self.old }
        ensures made { made self.new ≡ made self.old }
        ensures time { Elapses (moment self.old) (moment self.new) (left_since self.old) (left_since self.new) (file self.new) }
        ensures cause { HasCause (faults self.old) (faults self.new) result };

    /// Ends the writing, where the last write was followed by a sync that succeeded.
    fn seal(self) -> Self::Sealed
        requires { is_synced self ≡ true }
        ensures bytes { Self.Sealed.bytes result ≡ option_map (λ f. f.reads) (file self) }
        ensures len { extent self ≤ Self.Sealed.len result }
        ensures name { Self.Sealed.name result ≡ name self }
        ensures made { Self.Sealed.made result ≡ made self };

    /// This moment is one of those since an earlier one.
    ghost counts_now: { (d : Self) (t : ℕ) (c : List ℕ) → t ≤ moment d → MayLeave (file d) c → left_since d t c };

    /// Since this moment there is no other.
    ghost only_now: { (d : Self) (c : List ℕ) → left_since d (moment d) c → MayLeave (file d) c };

    /// A file as it reads is one of its images.
    ghost reads_image: { (d : Self) (f : File) → file d ≡ Some f → IsImage f f.reads };

    /// Nothing is loose once a sync has followed the last write.
    ghost synced_firm: { (d : Self) (f : File) → file d ≡ Some f → is_synced d ≡ true → f ≡ firm_file f.reads };
}
