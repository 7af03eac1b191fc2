// One layer: a dataset as it was at some moment, and its segments that are open for reading.
ghost use Rattle.std.specs.Prelude.{◌≡◌, List, map, IfOk, IfErr};
ghost use Rattle.fd_entries.specs.{declared.batch.Pair.{Pair}, Batches.{newest}};
ghost use Rattle.fd_schema.specs.{Rules.{file_key}, Reading.{seen_place}};
ghost use Rattle.fd_dataset.specs.Listed.{listing};
ghost use Rattle.fd_retriever.specs.Answers.{AllSay, HasFetchCause, IsAnswer, OnDamaged, SomeUntold, StandsAmong, Tells, TookAsMany, TookFront, Unwritten};

use fd_bytes::NoMemory;
use fd_dataset::Snapshot;
use fd_disk::Sealed;
use fd_io::Sink;
use fd_retriever::{FetchFault, Got, Lenses, every_snapshot, fetch};
use fd_schema::Place;
use std::alloc::Global;
use std::marker::Model;

/// A layer.
#[derive(Drop)]
pub(crate) struct Layer<F: Send, Z: Sealed<F>> {
    snapshot: Snapshot<F, Z>,
    lenses: Lenses<F, Z>,
}

impl<F: Send, Z: Sealed<F>> Model for Layer<F, Z> {
    ghost use Rattle.std.specs.Prelude.{List};
    ghost use Rattle.fd_segment.specs.Held.{Standing};
    ghost use Rattle.fd_retriever.specs.Kept.{AreThose};

    ghost Value = { List Standing };

    ghost view = { λ l. l.snapshot };

    ghost invariant = { λ l. AreThose l.lenses l.snapshot };
}

impl<F: Send, Z: Sealed<F>> Layer<F, Z> {
    /// A layer of which no segment is open.
    pub(crate) fn new(alloc: Global, snapshot: Snapshot<F, Z>) -> Result<Layer<F, Z>, NoMemory>
        ensures shown { IfOk result (λ l. l ≡ snapshot) }
    {
        let lenses = Lenses::new(alloc)?;
        Ok(Layer { snapshot, lenses })
    }

    /// Writes the newest message of a place's key into the sink, and tells its length, or a miss where the layer hasn't the
    /// key.
    pub(crate) fn fetch<X, K: Sink<X>>(
        &mut self,
        alloc: Global,
        place: &Place,
        sink: &mut K,
    ) -> Result<Got, FetchFault<F, X>>
        ensures same { self.new ≡ self.old }
        ensures answer { IfOk result (λ got. (t : List (List Pair)) → Tells (map listing self.old) t → IsAnswer (newest t (file_key (seen_place place.now))) (K.taken sink.old) (K.taken sink.new) got) }
        ensures says { IfOk result (AllSay self.old (file_key (seen_place place.now))) }
        ensures took { IfOk result (TookAsMany (K.taken sink.old) (K.taken sink.new)) }
        ensures err { IfErr result (λ _. (t : List (List Pair)) → Tells (map listing self.old) t → TookFront (newest t (file_key (seen_place place.now))) (K.taken sink.old) (K.taken sink.new)) }
        ensures unwritten { IfErr result (λ e. Unwritten e (K.taken sink.new ≡ K.taken sink.old)) }
        ensures damaged { IfErr result (λ e. OnDamaged e (StandsAmong self.old (file_key (seen_place place.now)))) }
        ensures sound { IfErr result (λ e. OnDamaged e (λ _. SomeUntold (map listing self.old))) }
        ensures cause { HasFetchCause (K.faults sink.old) (K.faults sink.new) result }
    {
        every_snapshot();
        fetch(alloc, &self.snapshot, &mut self.lenses, place, sink)
    }
}
