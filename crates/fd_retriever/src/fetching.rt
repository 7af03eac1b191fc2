ghost use Rattle.std.specs.Prelude.{◌≡◌, List, map, IfOk, IfErr};
ghost use Rattle.fd_entries.specs.{declared.batch.Pair.{Pair}, Batches.{newest}};
ghost use Rattle.fd_schema.specs.{Rules.{file_key}, Reading.{seen_place}};
ghost use Rattle.fd_dataset.specs.Listed.{listing};
ghost use Rattle.fd_retriever.specs.{Kept.{AreThose, Fits}, Answers.{AllSay, HasFetchCause, IsAnswer, OnDamaged, SomeUntold, StandsAmong, Tells, TookAsMany, TookFront, Unwritten}};

use crate::fault::{FetchFault, Got};
use crate::lenses::Lenses;
use crate::looking::fetch_from;
use fd_dataset::Snapshot;
use fd_disk::Sealed;
use fd_io::Sink;
use fd_schema::Place;
use std::alloc::Global;

/// Writes the newest message of a place's key among the segments of a snapshot into the sink, and tells its length, or a
/// miss exactly where none of them has the key. The segments are looked at from the newest on. What is kept open fits the
/// snapshot, as new lenses do, and as those do that fitted an earlier snapshot of the same pass.
///
/// `Disk` comes only with the fault of a file's call in this fetch: segments are shared, so there is no count of faults
/// to name, and no code here can make or copy a fault. `Write` comes only where the sink's count of faults rose, and at
/// each other answer the count is as before. `Damaged` never comes where each segment stands for a batch, and the damage
/// stands in one of the segments. After a refusal a front of the newest message was written, and nothing at `Damaged` and
/// `NoMemory`.
pub fn fetch<F: Send, Z: Sealed<F>, X, K: Sink<X>>(
    alloc: Global,
    snapshot: &Snapshot<F, Z>,
    lenses: &mut Lenses<F, Z>,
    place: &Place,
    sink: &mut K,
) -> Result<Got, FetchFault<F, X>>
where
    requires fits { Fits lenses.old (map listing snapshot.now) }
    ensures fits { Fits lenses.new (map listing snapshot.now) }
    ensures those { AreThose lenses.old snapshot.now → AreThose lenses.new snapshot.now }
    ensures answer { IfOk result (λ got. (t : List (List Pair)) → Tells (map listing snapshot.now) t → IsAnswer (newest t (file_key (seen_place place.now))) (K.taken sink.old) (K.taken sink.new) got) }
    ensures says { IfOk result (λ got. AreThose lenses.old snapshot.now → AllSay snapshot.now (file_key (seen_place place.now)) got) }
    ensures took { IfOk result (TookAsMany (K.taken sink.old) (K.taken sink.new)) }
    ensures err { IfErr result (λ _. (t : List (List Pair)) → Tells (map listing snapshot.now) t → TookFront (newest t (file_key (seen_place place.now))) (K.taken sink.old) (K.taken sink.new)) }
    ensures unwritten { IfErr result (λ e. Unwritten e (K.taken sink.new ≡ K.taken sink.old)) }
    ensures damaged { IfErr result (λ e. OnDamaged e (StandsAmong snapshot.now (file_key (seen_place place.now)))) }
    ensures sound { IfErr result (λ e. OnDamaged e (λ _. SomeUntold (map listing snapshot.now))) }
    ensures cause { HasFetchCause (K.faults sink.old) (K.faults sink.new) result }
{
    let Ok(key) = place.file_key(alloc) else {
        return Err(FetchFault::NoMemory);
    };
    let count = snapshot.len();
    for i in 0..count {
        let number = count - i;
        let segment = snapshot.segment(number);
        match fetch_from(alloc, segment, number, lenses, &key, sink) {
            Ok(Got::Miss) => {}
            Ok(Got::Found(len)) => return Ok(Got::Found(len)),
            Err(fault) => return Err(fault),
        }
    }
    Ok(Got::Miss)
}
