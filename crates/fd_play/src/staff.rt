//! The archivers of a session: how they are asked for, and how all is given back.
ghost use Rattle.std.specs.{Prelude.{◌≡◌, ◌≤◌, ◌<◌, ◌+◌, [], All, List, ℕ, IfErr, IsSome, OnErr, OnOk, false, length}, Vec.{vec_capacity}};
ghost use Rattle.fd_disk.specs.Folders.{WhereTold};
ghost use Rattle.fd_turn.specs.Passes.{BoardId};
ghost use Rattle.fd_library.specs.Open.{OpenDataset, OutAre};
ghost use Rattle.fd_play.specs.{Plays.{IsPlain}, Staff.{HandsBack, IsSole, Staffs, Tried}};

use fd_archiver::Archiver;
use fd_disk::{Down, Folder, Store};
use fd_library::Library;
use fd_recovery::OpenFault;
use fd_segment::Room;
use std::alloc::Global;

/// How many keys a lane may put between two flushes, and how many bytes of keys.
const ROOM: Room = Room {
    keys: 4096,
    bytes: 1_048_576,
};

/// The archivers of the lanes.
pub(crate) type Archivers<F, S> = Vec<Archiver<F, <<S as Store<F>>::Folder as Folder<F>>::Shelf>>;

/// One archiver more of the one dataset that is open.
fn add_archiver<F: Send, S: Store<F>>(
    alloc: Global,
    library: &mut Library<F, S>,
    archivers: &mut Archivers<F, S>,
) -> Result<(), OpenFault<F>>
where
    requires room { length archivers.old.items < vec_capacity archivers.old }
    requires sole { (b : BoardId) × (h : OpenDataset S.Folder) × IsSole library.old b h × (h.given < 65535) }
    ensures ok { OnOk result ((b : BoardId) (h : OpenDataset S.Folder) → Staffs S.Folder.has b h library.old archivers.old.items → Staffs S.Folder.has b h library.new archivers.new.items) }
    ensures more { OnOk result (length archivers.new.items ≡ length archivers.old.items + 1) }
    ensures err { OnErr result ((b : BoardId) (h : OpenDataset S.Folder) → Staffs S.Folder.has b h library.old archivers.old.items → Tried S.Folder.has b h library.new archivers.new.items) }
    ensures room { vec_capacity archivers.new ≡ vec_capacity archivers.old }
    ensures plain { IfErr result IsPlain }
{
    match library.archiver(alloc, 0, ROOM) {
        Ok(archiver) => {
            archivers.push_reserved(archiver);
            Ok(())
        }
        Err(Down::Fault(fault)) => Err(OpenFault::Disk(fault)),
        Err(Down::NoMemory) => Err(OpenFault::NoMemory),
    }
}

/// So many archivers of the one dataset that is open, of which none was asked for. After a refusal those that were made are
/// there all the same.
pub(crate) fn add_archivers<F: Send, S: Store<F>>(
    alloc: Global,
    library: &mut Library<F, S>,
    count: usize,
    archivers: &mut Archivers<F, S>,
) -> Result<(), OpenFault<F>>
where
    requires few { count ≤ 8 }
    requires room { (archivers.old.items ≡ []) × (vec_capacity archivers.old ≡ count) }
    requires sole { (b : BoardId) × (h : OpenDataset S.Folder) × IsSole library.old b h × (h.given ≡ 0) }
    ensures ok { OnOk result ((b : BoardId) (h : OpenDataset S.Folder) → IsSole library.old b h → Staffs S.Folder.has b h library.new archivers.new.items) }
    ensures long { OnOk result (length archivers.new.items ≡ count) }
    ensures err { OnErr result ((b : BoardId) (h : OpenDataset S.Folder) → IsSole library.old b h → Tried S.Folder.has b h library.new archivers.new.items) }
    ensures plain { IfErr result IsPlain }
{
    for _i in 0..count {
        match add_archiver(alloc, library, archivers) {
            Ok(()) => {}
            Err(fault) => return Err(fault),
        }
    }
    Ok(())
}

/// Gives the archivers back to the one dataset that is open, and the dataset to the store. What is pending is lost.
pub(crate) fn hand_back<F: Send, S: Store<F>>(
    mut library: Library<F, S>,
    mut archivers: Archivers<F, S>,
    store: &mut S,
)
where
    requires sole { (b : BoardId) × (h : OpenDataset S.Folder) × IsSole library b h × IsSome h.pass × (h.lent ≡ length archivers.items) × All (λ w. w.dataset ≡ h.name) archivers.items }
    requires out { OutAre library.each (S.out store.old) }
    ensures home { (n : List ℕ) → S.out store.new n ≡ false }
    ensures back { (b : BoardId) (h : OpenDataset S.Folder) → IsSole library b h → WhereTold (S.has store.old) (S.has store.new) (HandsBack S.Folder.has S.Folder.Shelf.kept h archivers.items) }
    ensures later { S.faults store.old ≤ S.faults store.new }
{
    while let Some(archiver) = archivers.pop() {
        library.take_back(0, archiver);
    }
    archivers.destroy_empty();
    library.give_back(store);
}
