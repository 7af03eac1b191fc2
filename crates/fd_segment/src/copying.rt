ghost use Rattle.std.specs.Prelude.{◌≤◌, ◌<◌, ◌+◌, ◌^◌, length, OnErr, OnOk};
ghost use Rattle.fd_segment.specs.{CopyCalls.{HasCopyCause}, Copying.{IsCopied, IsCopiedInPart}, Counts.{pieces}};

use crate::fault::CopyFault;
use fd_disk::Reader;
use fd_io::{Sink, write_all};

/// Copies as many bytes as the piece has from a place of the file into the sink.
fn copy_piece<F: Send, X, R: Reader<F>, K: Sink<X>>(
    file: &mut R,
    at: u64,
    piece: &mut [u8],
    sink: &mut K,
) -> Result<(), CopyFault<F, X>>
    requires { at + length piece.old ≤ R.len file.old }
    ensures ok { OnOk result (IsCopied (R.bytes file.old) at (length piece.old) (K.taken sink.old) (K.taken sink.new)) }
    ensures err { OnErr result (IsCopiedInPart (R.bytes file.old) at (length piece.old) (K.taken sink.old) (K.taken sink.new)) }
    ensures call { HasCopyCause R.Reader K.Sink file.old file.new sink.old sink.new result }
    ensures reads { R.reads file.new ≤ R.reads file.old + 1 }
    ensures asked { R.asked file.new ≤ R.asked file.old + length piece.old }
{
    if let Err(fault) = file.read_at(at, piece) {
        return Err(CopyFault::Fault(fault));
    }
    match write_all(sink, piece) {
        Ok(()) => Ok(()),
        Err(fault) => Err(CopyFault::Write(fault)),
    }
}

/// Copies the bytes at a place of the file into the sink, in pieces of 4096 bytes.
pub(crate) fn copy_pieces<F: Send, X, R: Reader<F>, K: Sink<X>>(
    file: &mut R,
    at: u64,
    len: u64,
    sink: &mut K,
) -> Result<(), CopyFault<F, X>>
    requires inside { at + len ≤ R.len file.old }
    requires fits { at + len < 2 ^ 64 }
    ensures ok { OnOk result (IsCopied (R.bytes file.old) at len (K.taken sink.old) (K.taken sink.new)) }
    ensures err { OnErr result (IsCopiedInPart (R.bytes file.old) at len (K.taken sink.old) (K.taken sink.new)) }
    ensures call { HasCopyCause R.Reader K.Sink file.old file.new sink.old sink.new result }
    ensures reads { R.reads file.new ≤ R.reads file.old + pieces len }
    ensures asked { R.asked file.new ≤ R.asked file.old + len }
{
    let mut buffer = [0; 4096];
    let mut done = 0;
    'pieces: while done < len {
        let n = (len - done).min(4096) as usize;
        match copy_piece(file, at + done, &mut buffer[..n], sink) {
            Ok(()) => done += n as u64,
            Err(fault) => return Err(fault),
        }
    }
    Ok(())
}
