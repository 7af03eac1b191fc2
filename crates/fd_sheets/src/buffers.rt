//! Buffers of messages that were stored, which are used again.
ghost use Rattle.std.specs.Prelude.{◌≡◌, IfOk};

use fd_bytes::{Bytes, NoMemory};
use std::alloc::Global;

/// From how many octets on a message is copied into a buffer that was kept. One that is taken anew costs more than the copy, since
/// the host hands it out page by page.
pub const LEAST_KEPT: usize = 32_768;

/// Up to how many octets a buffer is kept, and how many are.
const MOST: usize = 1_048_576;

const COUNT: usize = 128;

/// Buffers of messages that were stored.
#[derive(Drop)]
pub struct Buffers {
    kept: Vec<Vec<u8>>,
}

impl Buffers {
    /// None are kept.
    pub fn new(alloc: Global) -> Buffers {
        Buffers {
            kept: Vec::new(alloc),
        }
    }

    /// A copy of these octets.
    pub fn copied(&mut self, alloc: Global, octets: &[u8]) -> Result<Bytes, NoMemory>
        ensures { IfOk result (λ b. b ≡ octets.now) }
    {
        if octets.len() < LEAST_KEPT {
            return Bytes::from_slice(alloc, octets);
        }
        match self.kept.pop() {
            Some(mut buffer) => {
                buffer.clear();
                buffer.extend_from_slice(octets)?;
                Ok(Bytes::from_vec(buffer))
            }
            None => Bytes::from_slice(alloc, octets),
        }
    }

    /// Keeps the buffer of a message that isn't needed any more.
    pub fn keep(&mut self, bytes: Bytes) {
        let buffer = bytes.into_vec();
        let size = buffer.capacity();
        if size >= LEAST_KEPT && size <= MOST && self.kept.len() < COUNT {
            match self.kept.push(buffer) {
                Ok(()) => {}
                Err(_) => {}
            }
        }
    }
}
