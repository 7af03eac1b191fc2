// `retrieve` over layers.
ghost use Rattle.std.specs.Prelude.{◌≡◌, ◌⊎◌, ◌≤◌, List, ℕ, Option, false, length, map};
ghost use Rattle.fd_disk.specs.Folders.{Holdings};
ghost use Rattle.fd_request.specs.Expansion.{expand};
ghost use Rattle.fd_schema.specs.Reading.{seen_place};
ghost use Rattle.fd_words.specs.{Words.{AreLayers}, declared.command.Command.TheVariants.{RetrieveOver}};
ghost use Rattle.fd_outcome.specs.{Layered.{laid_answers, laid_of}, Noticing.{AnsweredEach, AnswersFirmly, IsLaidAnswer, Notices, ReadsFitly}, Ran.{Ran}};
ghost use Rattle.fd_stored.specs.{Store.{table_at}, declared.status.Status.TheVariants.{Done, Missed}};
ghost use Rattle.fd_objects.specs.Objects.{Over, since, until};
ghost use Rattle.fd_retrieve.specs.{Commands.{Begins}, Open.{table_in}};
ghost use Rattle.fd_layered.specs.{Chains.{AreChains}, Ready.{IsReady, laid_with}};

use crate::nearest::locate_over;
use crate::preparing::prepared;
use fd_disk::Sealed;
use fd_finding::Finder;
use fd_objects::{Objects, World};
use fd_retrieve::{Ready, answer_located};
use fd_stored::Status;
use fd_telling::tell_stop;
use fd_words::{Layers, Root};
use std::sync::Wait;
use std::thread::Threads;

/// Writes the newest field of each key of the request that the input is, in the order of the request, out of the nearest of
/// its datasets that has the key: its own dataset, and then those of the key with each layer's values in place of its own, the
/// nearest layer first. Tells each key that none of them has, and how many were found and missed. So many workers look for the
/// keys of each dataset, side by side, and so many read and check the fields ahead of the one that is written; what is answered
/// doesn't depend on their number. No folder of the store is out, and none is out afterwards: each dataset is opened once, and
/// given back as soon as it is opened, and nothing is made in the store. The tables that are answered from are firm then.
pub fn retrieve_over<W: World, R: Threads + Wait + Sync>(
    rt: &R,
    objects: &mut Objects<W>,
    root: &Root,
    layers: &Layers,
    workers: u32,
) -> Status
    requires workers { (1 ≤ workers) × (workers ≤ 8) }
    requires layers { AreLayers layers.now }
    requires home { (name : List ℕ) → W.Store.out objects.old.store name ≡ false }
    ensures ran { Over W.Store.Store W.Input.Source W.Output.Sink W.Report.Sink objects
        (Ran (RetrieveOver root.now layers.now workers) result) }
    ensures unread { Over W.Store.Store W.Input.Source W.Output.Sink W.Report.Sink objects
        (λ store input _ _. ReadsFitly (RetrieveOver root.now layers.now workers) store input) }
    ensures notices { Over W.Store.Store W.Input.Source W.Output.Sink W.Report.Sink objects
        (Notices (RetrieveOver root.now layers.now workers) result) }
    ensures firm { Over W.Store.Store W.Input.Source W.Output.Sink W.Report.Sink objects
        (λ store input _ _. AnswersFirmly (RetrieveOver root.now layers.now workers) result store input) }
    ensures home { (name : List ℕ) → W.Store.out objects.new.store name ≡ false }
{
    match prepared(
        objects.alloc,
        root.as_str(),
        layers,
        &mut objects.store,
        &mut objects.input,
    ) {
        Ok(ready) => answered(rt, objects, ready, layers, workers),
        Err(stop) => tell_stop(objects.alloc, &mut objects.store, &mut objects.report, stop),
    }
}

/// Answers what stands ready.
fn answered<W: World, Z: Sealed<W::StoreFault>, R: Threads + Wait + Sync>(
    rt: &R,
    objects: &mut Objects<W>,
    ready: Ready<W::StoreFault, Z>,
    layers: &Layers,
    workers: u32,
) -> Status
    requires workers { (1 ≤ workers) × (workers ≤ 8) }
    requires layers { AreLayers layers.now }
    requires chains { AreChains (length layers.now) (expand ready.request) (map seen_place ready.places.items) }
    ensures ran { Over W.Store.Store W.Input.Source W.Output.Sink W.Report.Sink objects (λ store input output report.
        (root : List ℕ) (before : Option Holdings) (faults : ℕ) (left : Option (List ℕ)) (reads : ℕ)
        → Begins (RetrieveOver root layers.now workers) before store.before faults store.faults_before
        (until left reads input) ready.opened.items
        (laid_answers (table_in ready.opened.items) (laid_with layers.now ready.request ready.places.items))
        → Ran (RetrieveOver root layers.now workers) result (since before faults store) (since left reads input) output report) }
    ensures each { (h : Holdings) (octets : List ℕ) → IsReady h layers.now octets ready.request ready.places.items ready.opened.items
        → (result ≡ Done) ⊎ (result ≡ Missed)
        → AnsweredEach (IsLaidAnswer (table_at h)) (laid_of h layers.now octets) result
        (W.Output.taken objects.old.output) (W.Output.taken objects.new.output) (W.Report.taken objects.old.report)
        (W.Report.taken objects.new.report) }
    ensures input { objects.new.input ≡ objects.old.input }
    ensures has { W.Store.has objects.new.store ≡ W.Store.has objects.old.store }
    ensures out { W.Store.out objects.new.store ≡ W.Store.out objects.old.store }
{
    let Ready {
        request,
        places,
        opened,
    } = ready;
    let located = locate_over(
        &Finder {
            rt,
            alloc: objects.alloc,
            workers,
            gate: &objects.gate,
        },
        &opened,
        &places,
        layers.len() + 1,
        request.count(),
    );
    answer_located(rt, objects, &request, &opened, located, workers)
}
