// The bytes of a table.
ghost use Rattle.std.specs.Prelude.{◌≡◌, ◌≤◌, ◌++◌, [], ◌∷◌, List, ℕ, length, IfOk, OnOk};
ghost use Rattle.fd_entries.specs.{declared.table.Entry.{Entry}, Table.{header, slots_of}};

use fd_bytes::NoMemory;
use fd_disk::Disk;
use fd_entries::{Entry, OPEN};
use fd_toc::Toc;
use std::alloc::Global;

/// The bytes of a table that lists these entries.
pub(crate) fn table_bytes<F: Send, T: Disk<F>>(
    alloc: Global,
    dataset: &str,
    entries: &[Entry],
) -> Result<Vec<u8>, NoMemory>
where
    requires { length dataset.now ≤ 255 }
    ensures { IfOk result (λ v. v.items ≡ header dataset.now ++ slots_of entries.now ++ 0 ∷ []) }
{
    let mut bytes = Toc::<F, T>::create_bytes(alloc, dataset)?;
    for i in 0..entries.len() {
        add_entry(&mut bytes, &entries[i])?;
    }
    Ok(bytes)
}

// Opens the gate at the end and puts the entry behind it, with a closed gate after it.
fn add_entry(bytes: &mut Vec<u8>, entry: &Entry) -> Result<(), NoMemory>
    ensures { OnOk result ((front : List ℕ) (es : List Entry) → bytes.old.items ≡ front ++ slots_of es ++ 0 ∷ [] → bytes.new.items ≡ front ++ slots_of (es ++ entry.now ∷ []) ++ 0 ∷ []) }
{
    let _ = bytes.pop();
    bytes.push(OPEN)?;
    bytes.extend_from_slice(&entry.body())?;
    Ok(())
}
