//! A worker in one dataset: it puts messages into a batch, and lists the batch where it is full.
ghost use Rattle.std.specs.Prelude.{◌≡◌, ◌≤◌, ◌<◌, ◌+◌, ◌^◌, ◌∷◌, ◌++◌, [], List, length, Err};
ghost use Rattle.fd_entries.specs.declared.batch.Pair.{Pair};
ghost use Rattle.fd_schema.specs.{Rules.{file_key}, Reading.{seen_place}};
ghost use Rattle.fd_turn.specs.{Views.{View}, Passes.{view, IsOf, IsSame}};
ghost use Rattle.fd_shares.specs.Working.{CanList, CanPut, Emptied, Filling, IsFilled, IsNotFull, Keeps, ListedAll, PutOn, StaysOf, Stored, Works};

use fd_archiver::{ArchiveFault, Archiver, FlushFault};
use fd_dataset::{Dataset, DatasetPass};
use fd_disk::{Disk, Sealed, Shelf};
use fd_schema::Place;
use fd_segment::Field;
use std::alloc::Global;
use std::sync::Wait;

/// Puts a message into the batch, if there is room.
fn put<F: Send, H: Shelf<F>>(
    place: &Place,
    bytes: &Field,
    archiver: &mut Archiver<F, H>,
) -> Result<(), ArchiveFault<F>>
where
    requires dataset { (seen_place place.now).dataset ≡ archiver.old.dataset }
    requires key { length (file_key (seen_place place.now)) ≤ 256 }
    requires bytes { length bytes.now ≤ 134217728 }
    requires sum { archiver.old.draft.end + (length bytes.now + 32) < 2 ^ 63 }
    ensures stays { StaysOf archiver.old archiver.new }
    ensures puts { (pairs : List Pair) (v : View) → Works H.kept Filling pairs archiver.old v → PutOn H.kept result pairs (record { key = file_key (seen_place place.now); bytes = bytes.now }) archiver.old archiver.new v }
    ensures first { (pairs : List Pair) (v : View) → Works H.kept Emptied pairs archiver.old v → IsNotFull result }
{
    archiver.archive_field(place, bytes)
}

/// Lists what is pending.
pub fn list<F: Send, T: Disk<F>, H: Shelf<F>, R: Wait>(
    rt: &R,
    alloc: Global,
    dataset: &Dataset<F, T, H::Sealed>,
    archiver: &mut Archiver<F, H>,
    pass: &mut DatasetPass<F, T, H::Sealed>,
) -> Result<(), FlushFault<F>>
where
    requires own { IsOf dataset.now pass.old }
    requires can { CanList H.kept archiver.old (view pass.old) }
    ensures own { IsSame pass.old pass.new }
    ensures keeps { Keeps (view pass.old) (view pass.new) }
    ensures stays { StaysOf archiver.old archiver.new }
    ensures lists { (pairs : List Pair) → Works H.kept Filling pairs archiver.old (view pass.old) → ListedAll H.kept result pairs archiver.old archiver.new (view pass.new) }
{
    match archiver.flush(rt, alloc, dataset, pass) {
        Ok(_) => Ok(()),
        Err(fault) => {
            archiver.waiting_is_kept();
            Err(fault)
        }
    }
}

/// Puts a message into the batch, which is full and is listed first.
fn store_listed<F: Send, T: Disk<F>, H: Shelf<F>, R: Wait>(
    rt: &R,
    alloc: Global,
    dataset: &Dataset<F, T, H::Sealed>,
    place: &Place,
    bytes: &Field,
    archiver: &mut Archiver<F, H>,
    pass: &mut DatasetPass<F, T, H::Sealed>,
) -> Result<(), FlushFault<F>>
where
    requires own { IsOf dataset.now pass.old }
    requires dataset { (seen_place place.now).dataset ≡ archiver.old.dataset }
    requires key { length (file_key (seen_place place.now)) ≤ 256 }
    requires bytes { length bytes.now ≤ 134217728 }
    requires can { CanPut H.kept (length bytes.now) archiver.old (view pass.old) }
    requires filled { IsFilled archiver.old }
    ensures own { IsSame pass.old pass.new }
    ensures keeps { Keeps (view pass.old) (view pass.new) }
    ensures stays { StaysOf archiver.old archiver.new }
    ensures stores { (pairs : List Pair) → Works H.kept Filling pairs archiver.old (view pass.old) → Stored H.kept result pairs (record { key = file_key (seen_place place.now); bytes = bytes.now }) archiver.new (view pass.new) }
{
    match list(rt, alloc, dataset, archiver, pass) {
        Ok(()) => {}
        Err(fault) => return Err(fault),
    }
    match put(place, bytes, archiver) {
        Ok(()) => Ok(()),
        Err(ArchiveFault::Disk(fault)) => Err(FlushFault::Disk(fault)),
        Err(ArchiveFault::Unlisted) => unreachable!(),
        Err(ArchiveFault::Full { keys: _, left: _ }) => unreachable!(),
    }
}

/// Stores a message: it stands in the batch, which is listed first where it is full.
pub fn store<F: Send, T: Disk<F>, H: Shelf<F>, R: Wait>(
    rt: &R,
    alloc: Global,
    dataset: &Dataset<F, T, H::Sealed>,
    place: &Place,
    bytes: &Field,
    archiver: &mut Archiver<F, H>,
    pass: &mut DatasetPass<F, T, H::Sealed>,
) -> Result<(), FlushFault<F>>
where
    requires own { IsOf dataset.now pass.old }
    requires dataset { (seen_place place.now).dataset ≡ archiver.old.dataset }
    requires key { length (file_key (seen_place place.now)) ≤ 256 }
    requires bytes { length bytes.now ≤ 134217728 }
    requires can { CanPut H.kept (length bytes.now) archiver.old (view pass.old) }
    ensures own { IsSame pass.old pass.new }
    ensures keeps { Keeps (view pass.old) (view pass.new) }
    ensures stays { StaysOf archiver.old archiver.new }
    ensures stores { (pairs : List Pair) → Works H.kept Filling pairs archiver.old (view pass.old) → Stored H.kept result pairs (record { key = file_key (seen_place place.now); bytes = bytes.now }) archiver.new (view pass.new) }
{
    let answer = put(place, bytes, archiver);
    match answer {
        Ok(()) => Ok(()),
        Err(ArchiveFault::Disk(fault)) => Err(FlushFault::Disk(fault)),
        Err(ArchiveFault::Unlisted) => unreachable!(),
        Err(ArchiveFault::Full { keys: _, left: _ }) => {
            store_listed(rt, alloc, dataset, place, bytes, archiver, pass)
        }
    }
}
