// The layers, and what is fetched of them.
ghost use Rattle.std.specs.Prelude.{◌≡◌, List, IfOk, IfErr};
ghost use Rattle.fd_entries.specs.{declared.batch.Pair.{Pair}, Batches.{newest}};
ghost use Rattle.fd_schema.specs.{Rules.{file_key}, Reading.{seen_place}};
ghost use Rattle.fd_retriever.specs.Answers.{HasFetchCause, IsAnswer, OnDamaged, TookAsMany, TookFront, Unwritten};
ghost use Rattle.fd_layers.specs.Tables.{laid};
ghost use Rattle.fd_overlay.specs.Layers.{AllTell, LayersSay, SomeLayerUntold, StandsInLayer};

use crate::layer::Layer;
use fd_bytes::NoMemory;
use fd_dataset::Snapshot;
use fd_disk::Sealed;
use fd_io::Sink;
use fd_retriever::{FetchFault, Got};
use fd_schema::Place;
use std::alloc::Global;
use std::marker::Model;

/// Datasets that answer one over the other, the nearest first.
#[derive(Drop)]
pub struct Over<F: Send, Z: Sealed<F>> {
    layers: Vec<Layer<F, Z>>,
}

impl<F: Send, Z: Sealed<F>> Model for Over<F, Z> {
    ghost use Rattle.std.specs.Prelude.{List};
    ghost use Rattle.fd_segment.specs.Held.{Standing};

    ghost Value = { List (List Standing) };

    ghost view = { λ o. o.layers.items };
}

impl<F: Send, Z: Sealed<F>> Over<F, Z> {
    /// These layers, the nearest first: the dataset of the keys, and then those under it. A dataset without a table has none.
    pub fn new(alloc: Global, layers: Vec<Snapshot<F, Z>>) -> Result<Over<F, Z>, NoMemory>
        ensures { IfOk result (λ o. o ≡ layers.items) }
    {
        let mut all = Vec::new(alloc);
        for snapshot in layers {
            all.push(Layer::new(alloc, snapshot)?)?;
        }
        Ok(Over { layers: all })
    }

    /// Writes the newest message of a place's key into the sink, out of the nearest layer that has the key, and tells its
    /// length, or a miss exactly where none of them has it. What is answered is the newest of the layers' batches as one
    /// table, in which those of the nearest layer stand last. The place is that of the key in each of the layers, but for the
    /// dataset.
    ///
    /// `Disk` comes only with the fault of a file's call in this fetch, `Write` only where the sink's count of faults rose,
    /// and at each other answer the count is as before. `Damaged` never comes where each segment of the layers stands for a
    /// batch, and the damage stands in one of these segments. After a refusal a front of the message was written, and nothing
    /// at `Damaged` and `NoMemory`.
    pub fn fetch<X, K: Sink<X>>(
        &mut self,
        alloc: Global,
        place: &Place,
        sink: &mut K,
    ) -> Result<Got, FetchFault<F, X>>
        ensures same { self.new ≡ self.old }
        ensures answer { IfOk result (λ got. (ts : List (List (List Pair))) → AllTell self.old ts → IsAnswer (newest (laid ts) (file_key (seen_place place.now))) (K.taken sink.old) (K.taken sink.new) got) }
        ensures says { IfOk result (LayersSay self.old (file_key (seen_place place.now))) }
        ensures took { IfOk result (TookAsMany (K.taken sink.old) (K.taken sink.new)) }
        ensures err { IfErr result (λ _. (ts : List (List (List Pair))) → AllTell self.old ts → TookFront (newest (laid ts) (file_key (seen_place place.now))) (K.taken sink.old) (K.taken sink.new)) }
        ensures unwritten { IfErr result (λ e. Unwritten e (K.taken sink.new ≡ K.taken sink.old)) }
        ensures damaged { IfErr result (λ e. OnDamaged e (StandsInLayer self.old (file_key (seen_place place.now)))) }
        ensures sound { IfErr result (λ e. OnDamaged e (λ _. SomeLayerUntold self.old)) }
        ensures cause { HasFetchCause (K.faults sink.old) (K.faults sink.new) result }
    {
        for i in 0..self.layers.len() {
            match self.layers[i].fetch(alloc, place, sink) {
                Ok(Got::Miss) => {}
                Ok(Got::Found(len)) => return Ok(Got::Found(len)),
                Err(fault) => return Err(fault),
            }
        }
        Ok(Got::Miss)
    }
}
