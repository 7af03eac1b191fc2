//! What several tests do with the dataset `a=1` of a store: the founding of its table, and its folder once a crash has left it.
#![tactic(auto)]

ghost use Rattle.std.specs.Prelude.{◌≡◌, false, true, codes, IfOk, IfSome};

use fd_bytes::NoMemory;
use fd_disk::{Folder, Store};
use fd_toc::Toc;
use std::alloc::Global;

/// Founds the table of a folder, and tells whether it did.
pub fn is_founded<F: Send + Drop, D: Folder<F>>(alloc: Global, folder: &mut D) -> bool
where
    requires back { D.table_out folder.old ≡ false }
    requires name { D.name folder.old ≡ codes "a=1" }
    ensures back { result ≡ true → D.table_out folder.new ≡ false }
    ensures name { D.name folder.new ≡ codes "a=1" }
    ensures last { D.last_writer folder.new ≡ D.last_writer folder.old }
{
    let Ok(bytes) = Toc::<F, D::Table>::create_bytes(alloc, "a=1") else {
        return false;
    };
    matches!(folder.table(alloc), Ok(None)) && folder.found(alloc, &bytes).is_ok()
}

/// The folder of the dataset in a store that a crash left.
pub fn folder_left<F: Send + Drop, S: Store<F>>(
    alloc: Global,
    left: Result<S, (S, NoMemory)>,
) -> Option<S::Folder>
where
    requires { IfOk left (λ s. S.out s (codes "a=1") ≡ false) }
    ensures back { IfSome result (λ d. S.Folder.table_out d ≡ false) }
    ensures name { IfSome result (λ d. S.Folder.name d ≡ codes "a=1") }
{
    let Ok(mut store) = left else {
        return None;
    };
    store.folder(alloc, "a=1").ok()
}
