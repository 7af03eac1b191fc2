ghost use Rattle.std.specs.{Prelude.{◌≡◌, ◌≤◌, ◌++◌, [], ◌∷◌, length, IfOk, Ok, codes}, Int.{w16, to_be_bytes}};
ghost use Rattle.fd_entries.specs.Table.{header, listed};

use crate::Toc;
use fd_bytes::NoMemory;
use fd_disk::Disk;
use std::alloc::Global;

impl<F: Send, T: Disk<F>> Toc<F, T> {
    /// The bytes of a table without entries: the header of the dataset with this text of at most 255 bytes, and a closed
    /// gate. They list nothing.
    pub fn create_bytes(alloc: Global, dataset: &str) -> Result<Vec<u8>, NoMemory>
        requires { length dataset.now ≤ 255 }
        ensures bytes { IfOk result (λ v. v.items ≡ header dataset.now ++ 0 ∷ []) }
        ensures none { IfOk result (λ v. listed dataset.now v.items ≡ Ok []) }
    {
        let mut bytes = header_bytes(alloc, dataset.as_bytes())?;
        bytes.push(0)?;
        Ok(bytes)
    }
}

/// The header of a dataset's table, 320 bytes.
pub(crate) fn header_bytes(alloc: Global, dataset: &[u8]) -> Result<Vec<u8>, NoMemory>
    requires { length dataset.now ≤ 255 }
    ensures bytes { IfOk result (λ v. v.items ≡ header dataset.now) }
    ensures len { IfOk result (λ v. length v.items ≡ 320) }
{
    let mut bytes = front_bytes(alloc, dataset)?;
    bytes.resize(320, 0)?;
    Ok(bytes)
}

// The header up to its zeros.
fn front_bytes(alloc: Global, dataset: &[u8]) -> Result<Vec<u8>, NoMemory>
    requires { length dataset.now ≤ 255 }
    ensures { IfOk result (λ v. v.items ≡ codes "FDTOC001" ++ to_be_bytes w16 (length dataset.now) ++ dataset.now) }
{
    let mut bytes = Vec::new(alloc);
    bytes.extend_from_slice(b"FDTOC001")?;
    bytes.extend_from_slice(&(dataset.len() as u16).to_be_bytes())?;
    bytes.extend_from_slice(dataset)?;
    Ok(bytes)
}
