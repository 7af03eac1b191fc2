// `retrieve`.
ghost use Rattle.std.specs.Prelude.{◌≡◌, ◌⊎◌, ◌≤◌, List, ℕ, Option, Some, false, length, IfErr, IfOk, IsOk};
ghost use Rattle.fd_disk.specs.Folders.{Holdings};
ghost use Rattle.fd_request.specs.Expansion.{expand};
ghost use Rattle.fd_words.specs.declared.command.Command.TheVariants.{Retrieve};
ghost use Rattle.fd_outcome.specs.{Ends.{Tells}, Noticing.{AnsweredEach, AnswersFirmly, IsAnswer, Notices, ReadsFitly}, Ran.{Ran}, Told.{ToldOrNoMemory}, Asking.{Answer, answers, asked_of}};
ghost use Rattle.fd_stored.specs.{Causes.{BadFile, damaged_line}, Store.{table_at}, declared.status.Status.TheVariants.{Done, Missed}};
ghost use Rattle.fd_key.specs.Pairs.{Pair};
ghost use Rattle.fd_outcome.specs.Outcome as outcomes;
ghost use Rattle.fd_objects.specs.Objects.{Over, since, until};
ghost use Rattle.fd_ahead.specs.Places.{AreIn};
ghost use Rattle.fd_retrieve.specs.{Commands.{Begins, retrieving}, Located.{OnLost}, Open.{table_in}, Ready.{IsReady, asked_at}, Telling.{counts_status, counts_text}};
ghost use Rattle.fd_answering.specs.{Located.{AreAt}, Damages.{IsDamagedAt}};

use crate::locating::{Lost, locate};
use crate::preparing::{Ready, prepared};
use fd_ahead::{Located, Opened};
use fd_answering::{Halt, answer_all};
use fd_disk::{Folder, Sealed, Store};
use fd_finding::Finder;
use fd_io::Sink;
use fd_objects::{Objects, World};
use fd_outcome::{tell, tell_disk_failed, tell_no_memory, tell_output_failed};
use fd_request::Request;
use fd_segment::Damage;
use fd_stored::Status;
use fd_telling::{Broken, tell_broken, tell_stop};
use fd_words::Root;
use std::alloc::Global;
use std::sync::Wait;
use std::thread::Threads;

/// Writes the newest field of each key of the request that the input is, in the order of the request, and tells each key
/// that has none, and how many were found and missed. So many workers look for the keys of each dataset, side by side, and
/// so many read and check the fields ahead of the one that is written; what is answered doesn't depend on their number. No
/// folder of the store is out, and none is out afterwards: each dataset is given back as soon as it is opened, and nothing
/// is made in the store. The tables that are answered from are firm then, so what was answered outlasts a crash.
pub fn retrieve<W: World, R: Threads + Wait + Sync>(
    rt: &R,
    objects: &mut Objects<W>,
    root: &Root,
    workers: u32,
) -> Status
    requires workers { (1 ≤ workers) × (workers ≤ 8) }
    requires home { (name : List ℕ) → W.Store.out objects.old.store name ≡ false }
    ensures ran { Over W.Store.Store W.Input.Source W.Output.Sink W.Report.Sink objects (Ran (Retrieve root.now workers) result) }
    ensures unread { Over W.Store.Store W.Input.Source W.Output.Sink W.Report.Sink objects
        (λ store input _ _. ReadsFitly (Retrieve root.now workers) store input) }
    ensures notices { Over W.Store.Store W.Input.Source W.Output.Sink W.Report.Sink objects (Notices (Retrieve root.now workers) result) }
    ensures firm { Over W.Store.Store W.Input.Source W.Output.Sink W.Report.Sink objects
        (λ store input _ _. AnswersFirmly (Retrieve root.now workers) result store input) }
    ensures home { (name : List ℕ) → W.Store.out objects.new.store name ≡ false }
{
    match prepared(
        rt,
        objects.alloc,
        root.as_str(),
        workers,
        &mut objects.store,
        &mut objects.input,
    ) {
        Ok(ready) => answered(rt, objects, ready, workers),
        Err(stop) => tell_stop(objects.alloc, &mut objects.store, &mut objects.report, stop),
    }
}

/// Answers what stands ready.
fn answered<W: World, Z: Sealed<W::StoreFault>, R: Threads + Wait + Sync>(
    rt: &R,
    objects: &mut Objects<W>,
    ready: Ready<W::StoreFault, Z>,
    workers: u32,
) -> Status
    requires workers { (1 ≤ workers) × (workers ≤ 8) }
    requires count { length ready.places.items ≡ length (expand ready.request) }
    ensures ran { Over W.Store.Store W.Input.Source W.Output.Sink W.Report.Sink objects (λ store input output report.
        (root : List ℕ) (before : Option Holdings) (faults : ℕ) (left : Option (List ℕ)) (reads : ℕ)
        → Begins (Retrieve root workers) before store.before faults store.faults_before (until left reads input) ready.opened.items
        (answers (table_in ready.opened.items) (asked_at ready.request ready.places.items))
        → Ran (Retrieve root workers) result (since before faults store) (since left reads input) output report) }
    ensures each { (h : Holdings) (octets : List ℕ) → IsReady h octets ready.request ready.places.items ready.opened.items
        → (result ≡ Done) ⊎ (result ≡ Missed)
        → AnsweredEach (IsAnswer (table_at h)) (asked_of h octets) result
        (W.Output.taken objects.old.output) (W.Output.taken objects.new.output) (W.Report.taken objects.old.report)
        (W.Report.taken objects.new.report) }
    ensures input { objects.new.input ≡ objects.old.input }
    ensures has { W.Store.has objects.new.store ≡ W.Store.has objects.old.store }
    ensures out { W.Store.out objects.new.store ≡ W.Store.out objects.old.store }
{
    let Ready {
        request,
        places,
        opened,
    } = ready;
    let located = locate(
        &Finder {
            rt,
            alloc: objects.alloc,
            workers,
            gate: &objects.gate,
        },
        &opened,
        &places,
    );
    answer_located(rt, objects, &request, &opened, located, workers)
}

/// Answers a request whose keys are located in datasets that are open, or tells why they aren't: writes what is found for each
/// key, in the order of the request, and tells each key that has none, and how many were found and missed. So many threads
/// read and check the fields ahead of the one that is written.
pub fn answer_located<W: World, Z: Sealed<W::StoreFault>, R: Threads + Sync>(
    rt: &R,
    objects: &mut Objects<W>,
    request: &Request,
    opened: &[Opened<W::StoreFault, Z>],
    located: Result<Vec<Option<Located>>, Lost<W::StoreFault>>,
    workers: u32,
) -> Status
    requires count { IfOk located (λ v. length v.items ≡ length (expand request.now)) }
    requires within { IfOk located (λ v. AreIn opened.now v.items) }
    requires damaged { IfErr located (λ e. OnLost e (IsDamagedAt opened.now)) }
    // The command is `retrieve`, or `retrieve` over layers; what stands where the keys are located are its answers.
    ensures ran { Over W.Store.Store W.Input.Source W.Output.Sink W.Report.Sink objects (λ store input output report.
        (root : List ℕ) (over : Option (List (List Pair))) (before : Option Holdings) (faults : ℕ) (left : Option (List ℕ)) (reads : ℕ)
        (o : Option (List Answer))
        → Begins (retrieving root over workers) before store.before faults store.faults_before (until left reads input) opened.now o
        → IfOk located (λ v. (xs : List Answer) → o ≡ Some xs → AreAt opened.now (expand request.now) xs v.items)
        → Ran (retrieving root over workers) result (since before faults store) (since left reads input) output report) }
    ensures located { (result ≡ Done) ⊎ (result ≡ Missed) → IsOk located }
    ensures told { (result ≡ Done) ⊎ (result ≡ Missed)
        → IfOk located (λ v. (xs : List Answer) → AreAt opened.now (expand request.now) xs v.items
        → Tells result (outcomes.answered xs) (W.Output.taken objects.old.output) (W.Output.taken objects.new.output)
        (W.Report.taken objects.old.report) (W.Report.taken objects.new.report)) }
    ensures input { objects.new.input ≡ objects.old.input }
    ensures has { W.Store.has objects.new.store ≡ W.Store.has objects.old.store }
    ensures out { W.Store.out objects.new.store ≡ W.Store.out objects.old.store }
{
    let located = match located {
        Ok(located) => located,
        Err(Lost::Disk(fault)) => {
            objects.store.note(fault);
            return tell_disk_failed(&mut objects.report);
        }
        Err(Lost::Damaged(number, damage)) => {
            return tell_damaged(objects.alloc, &opened[number], damage, &mut objects.report);
        }
        Err(Lost::NoMemory) => return tell_no_memory(&mut objects.report),
    };
    match answer_all(
        rt,
        objects.alloc,
        request,
        opened,
        &located,
        workers,
        &mut objects.output,
        &mut objects.report,
    ) {
        Ok((found, missed)) => tell_counts(objects.alloc, &mut objects.report, found, missed),
        Err(Halt::Disk(fault)) => {
            objects.store.note(fault);
            tell_disk_failed(&mut objects.report)
        }
        Err(Halt::Unwritten(_)) => tell_output_failed(&mut objects.report),
        Err(Halt::Untold(_)) => Status::OutputFault,
        Err(Halt::Damaged(number, damage)) => {
            tell_damaged(objects.alloc, &opened[number], damage, &mut objects.report)
        }
        Err(Halt::NoMemory) => tell_no_memory(&mut objects.report),
    }
}

/// Writes the line of how many keys were found and missed.
fn tell_counts<X: Drop, E: Sink<X>>(
    alloc: Global,
    report: &mut E,
    found: u32,
    missed: u32,
) -> Status
    ensures { ToldOrNoMemory (counts_status missed) (counts_text found missed) result
        (E.taken report.old) (E.taken report.new) (E.faults report.old) (E.faults report.new) }
{
    let status = if missed == 0 {
        Status::Done
    } else {
        Status::Missed
    };
    match format!(in alloc; "found {found} missed {missed}\n") {
        Ok(line) => tell(report, line.as_str(), status),
        Err(_) => tell_no_memory(report),
    }
}

/// Writes the line of a damage in a dataset.
fn tell_damaged<F: Send, X: Drop, Z: Sealed<F>, E: Sink<X>>(
    alloc: Global,
    dataset: &Opened<F, Z>,
    damage: Damage,
    report: &mut E,
) -> Status
where
    ensures told { ToldOrNoMemory Status.Damaged (damaged_line dataset.now.name (BadFile damage)) result
        (E.taken report.old) (E.taken report.new) (E.faults report.old) (E.faults report.new) }
{
    tell_broken(alloc, report, dataset.name(), Broken::File(damage))
}
