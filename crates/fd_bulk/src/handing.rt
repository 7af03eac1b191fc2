//! What the workers have of one dataset is given back.
ghost use Rattle.std.specs.Prelude.{◌≡◌, length};
ghost use Rattle.fd_turn.specs.Passes.{IsSame, view};
ghost use Rattle.fd_library.specs.{Calls.{Changes}, Open.{AreOpen}};
ghost use Rattle.fd_bulk.specs.{Ending.{CanGive, CanGiveAll, Hands, HandsAll, IsShorter, column, desk_of}, Halting.{Each}};

use fd_disk::{Folder, Store};
use fd_library::{FolderPass, Library};
use fd_shares::{Desk, FolderJob};

// Takes in a worker's pass in the dataset with this number, which is its last, and gives its archiver back.
fn hand_back<F: Send + Drop, S: Store<F>>(
    library: &mut Library<F, S>,
    number: u32,
    pass: &mut FolderPass<F, S::Folder>,
    job: &mut FolderJob<F, S::Folder>,
)
where
    requires sound { AreOpen library.old }
    requires can { CanGive number library.old pass.old job.old }
    ensures sound { AreOpen library.new }
    ensures own { IsSame pass.old pass.new }
    ensures shorter { IsShorter number job.old job.new }
    ensures hands { Changes number library.old library.new (λ h g. Hands S.Folder.has S.Folder.faults S.Folder.Shelf.kept (desk_of number job.old) h g (view pass.old) (view pass.new)) }
{
    match job.desks.pop() {
        Some(
            Some(
                Desk {
                    archiver,
                    pass: other,
                },
            ),
        ) => {
            library.datasets()[number as usize].join(pass, other);
            library.take_back(number, archiver);
        }
        Some(None) => {}
        None => {}
    }
}

/// Takes in the passes of all workers in the dataset with this number, which is the last, and gives their archivers back.
pub(crate) fn hand_back_all<F: Send + Drop, S: Store<F>>(
    library: &mut Library<F, S>,
    number: u32,
    pass: &mut FolderPass<F, S::Folder>,
    jobs: &mut [FolderJob<F, S::Folder>],
)
where
    requires sound { AreOpen library.old }
    requires can { CanGiveAll number library.old pass.old jobs.old }
    ensures sound { AreOpen library.new }
    ensures own { IsSame pass.old pass.new }
    ensures shorter { Each (λ i. IsShorter number) jobs.old jobs.new }
    ensures hands { Changes number library.old library.new (λ h g. HandsAll S.Folder.has S.Folder.faults S.Folder.Shelf.kept (column number jobs.old) h g (view pass.old) (view pass.new)) }
{
    for w in 0..jobs.len() {
        hand_back(library, number, pass, &mut jobs[w]);
    }
}
