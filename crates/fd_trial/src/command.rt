//! `trial`.
ghost use Rattle.std.specs.{Prelude.{◌≡◌, ◌⊎◌, ◌≤◌, ◌++◌, None, false, codes, List, ℕ, Ok, Option, IfOk, IfSome, string_bytes}, Fmt.{decimal}};
ghost use Rattle.fd_disk.specs.Folders.{Holdings, WhereTold};
ghost use Rattle.fd_listing.specs.Lines.{line};
ghost use Rattle.fd_schema.specs.Grammar.{IsSchema};
ghost use Rattle.fd_words.specs.declared.command.Command.TheVariants.{Trial};
ghost use Rattle.fd_outcome.specs.{Ends.{IsPlanted}, Noticing.{Notices}, Outcome.{generated_messages}, Ran.{Ran}, Told.{ToldOrNoMemory}, Trying.{trial_given, trial_rules}};
ghost use Rattle.fd_stored.specs.{Archiving.{taken}, Sparing.{SparesDamaged}};
ghost use Rattle.fd_objects.specs.Objects.{Over, since};
ghost use Rattle.fd_archive.specs.{Crashing.{OutlastsCrash, OutlastsTrial}, Kept.{NoneDamaged}};
ghost use Rattle.fd_retrieve.specs.Looking.{IsLookedThrough};
ghost use Rattle.fd_trial.specs.{Asking.{Begins}, Size.{IsTrialSize}, Telling.{ToldUnstored}};

use crate::made::{MadeMessages, Unmade};
use crate::places::places_of;
use crate::ruling::{Unruled, ruled};
use fd_archive::{Setup, tell_fault};
use fd_bulk::BulkFault;
use fd_bytes::NoMemory;
use fd_finding::Finder;
use fd_io::Sink;
use fd_key::{Given, GivenFault};
use fd_objects::{Objects, World};
use fd_outcome::{tell, tell_disk_failed, tell_no_memory};
use fd_retrieve::{Counted, count_found};
use fd_schema::Schema;
use fd_stored::Status;
use fd_telling::{tell_schema, tell_stop};
use fd_words::Root;
use std::alloc::{AllocError, Global};
use std::sync::Wait;
use std::thread::Threads;

/// The pairs that each message is given.
fn given(alloc: Global) -> Result<Given, NoMemory>
    ensures { IfOk result (λ g. g ≡ trial_given) }
{
    match Given::read(alloc, "class=od,expver=0001") {
        Ok(given) => Ok(given),
        Err(GivenFault::Pair { at: _ }) => unreachable!(),
        Err(GivenFault::Clash(_)) => unreachable!(),
        Err(GivenFault::Twice(_)) => unreachable!(),
        Err(GivenFault::NoMemory) => Err(NoMemory),
    }
}

/// Stores so many generated messages, asks for their keys, and tells how many were found, how many octets these have, and how
/// many were missed. Where the store has no schema, that of a trial is planted first; another one is refused. So many workers
/// store and look for the fields. No folder of the store is out, and none is out afterwards.
///
/// What is told to be stored outlasts a crash: each store that it may leave has all messages; and whatever is told, each dataset
/// holds there what it held, and behind it few batches of these messages alone.
/// The numbers are told only where none of the messages' datasets was damaged; a damaged dataset keeps its files, and its table as it
/// was, or synced.
pub fn trial<W: World, R: Threads + Wait + Sync>(
    rt: &R,
    objects: &mut Objects<W>,
    root: &Root,
    count: u32,
    workers: u32,
) -> Status
    requires size { IsTrialSize count workers }
    requires home { (name : List ℕ) → W.Store.out objects.old.store name ≡ false }
    ensures ran { Over W.Store.Store W.Input.Source W.Output.Sink W.Report.Sink objects (Ran (Trial root.now count workers) result) }
    ensures notices { Over W.Store.Store W.Input.Source W.Output.Sink W.Report.Sink objects
        (Notices (Trial root.now count workers) result) }
    ensures spares { WhereTold (W.Store.has objects.old.store) (W.Store.has objects.new.store) SparesDamaged }
    ensures outlasts { Over W.Store.Store W.Input.Source W.Output.Sink W.Report.Sink objects
        (λ store input _ report. OutlastsCrash (Trial root.now count workers) result store input report) }
    ensures input { objects.new.input ≡ objects.old.input }
    ensures output { objects.new.output ≡ objects.old.output }
    ensures home { (name : List ℕ) → W.Store.out objects.new.store name ≡ false }
{
    let Ok(given) = given(objects.alloc) else {
        return tell_no_memory(&mut objects.report);
    };
    match ruled(objects.alloc, &mut objects.store, root.as_str()) {
        Ok(schema) => {
            let plan = Plan {
                schema: &schema,
                given: &given,
                count,
                workers,
            };
            plan.run(rt, objects)
        }
        Err(Unruled::Disk) => tell_disk_failed(&mut objects.report),
        Err(Unruled::Different) => tell(
            &mut objects.report,
            "refused SchemaDifferent\n",
            Status::Refused,
        ),
        Err(Unruled::At { line, kind }) => tell_schema(
            objects.alloc,
            &mut objects.report,
            line,
            &kind,
        ),
        Err(Unruled::NoMemory) => tell_no_memory(&mut objects.report),
    }
}

/// What a trial goes by.
#[derive(Clone, Copy)]
struct Plan<'a> {
    /// The store's rules.
    schema: &'a Schema,
    /// The pairs that each message is given.
    given: &'a Given,
    /// How many messages are stored.
    count: u32,
    /// How many workers store and look for them.
    workers: u32,
}

impl Plan<'_> {
    // Stores the messages, asks for their keys, and tells what is found.
    fn run<W: World, R: Threads + Wait + Sync>(&self, rt: &R, objects: &mut Objects<W>) -> Status
        requires count { self.now.count ≤ 100000 }
        requires workers { (1 ≤ self.now.workers) × (self.now.workers ≤ 8) }
        requires home { (name : List ℕ) → W.Store.out objects.old.store name ≡ false }
        requires schema { IsSchema self.now.schema.now }
        requires given { self.now.given.now ≡ trial_given }
        ensures ran { Over W.Store.Store W.Input.Source W.Output.Sink W.Report.Sink objects (λ store input output report.
            (root : List ℕ) (start : Option Holdings) (faults : ℕ) → faults ≤ store.faults_before
            → WhereTold start store.before (λ h m. IsPlanted h m × (trial_rules h.schema ≡ Ok self.now.schema.now))
            → Ran (Trial root self.now.count self.now.workers) result (since start faults store) input output report) }
        ensures undamaged { (result ≡ Status.Done) ⊎ (result ≡ Status.Missed)
            → IfSome (W.Store.has objects.old.store) (NoneDamaged (taken self.now.schema.now trial_given (generated_messages self.now.count)).stored) }
        ensures spares { WhereTold (W.Store.has objects.old.store) (W.Store.has objects.new.store) SparesDamaged }
        ensures outlasts { WhereTold (W.Store.has objects.old.store) (W.Store.has objects.new.store)
            (OutlastsTrial result self.now.workers self.now.count (Ok self.now.schema.now)) }
        ensures input { objects.new.input ≡ objects.old.input }
        ensures output { objects.new.output ≡ objects.old.output }
        ensures home { (name : List ℕ) → W.Store.out objects.new.store name ≡ false }
    {
        let setup = Setup {
            schema: self.schema,
            given: self.given,
            workers: self.workers,
        };
        let mut messages = MadeMessages::new(objects.alloc, self.count);
        match setup.store_all(
            rt,
            objects.alloc,
            &mut objects.store,
            &mut messages,
            &objects.gate,
        ) {
            Ok(_) => self.ask(rt, objects),
            Err(fault) => tell_unstored(objects.alloc, &mut objects.report, fault),
        }
    }

    // Asks for the keys of the messages that were stored. These are in few enough datasets to be opened.
    fn ask<W: World, R: Threads + Wait + Sync>(&self, rt: &R, objects: &mut Objects<W>) -> Status
        requires count { self.now.count ≤ 100000 }
        requires workers { (1 ≤ self.now.workers) × (self.now.workers ≤ 8) }
        requires home { (name : List ℕ) → W.Store.out objects.old.store name ≡ false }
        requires given { self.now.given.now ≡ trial_given }
        requires stored { (taken self.now.schema.now self.now.given.now (generated_messages self.now.count)).refusal ≡ None }
        ensures ran { Over W.Store.Store W.Input.Source W.Output.Sink W.Report.Sink objects (λ store input output report.
            (root : List ℕ) (start : Option Holdings) (faults : ℕ) → faults ≤ store.faults_before
            → Begins self.now.workers self.now.schema.now self.now.count start store.before
            → Ran (Trial root self.now.count self.now.workers) result (since start faults store) input output report) }
        ensures looks { WhereTold (W.Store.has objects.old.store) (W.Store.has objects.new.store) IsLookedThrough }
        ensures input { objects.new.input ≡ objects.old.input }
        ensures output { objects.new.output ≡ objects.old.output }
        ensures home { (name : List ℕ) → W.Store.out objects.new.store name ≡ false }
    {
        let Ok(places) = places_of(objects.alloc, self.schema, self.given, self.count) else {
            return tell_no_memory(&mut objects.report);
        };
        let finder = Finder {
            rt,
            alloc: objects.alloc,
            workers: self.workers,
            gate: &objects.gate,
        };
        match count_found(&finder, &mut objects.store, &places) {
            Ok(counted) => tell_counted(objects.alloc, &mut objects.report, self.count, counted),
            Err(stop) => tell_stop(objects.alloc, &mut objects.store, &mut objects.report, stop),
        }
    }
}

/// Writes the line of why not all messages are stored. A message that can't be made is want of memory.
fn tell_unstored<X: Drop, E: Sink<X>>(
    alloc: Global,
    report: &mut E,
    fault: BulkFault<Unmade>,
) -> Status
    ensures { ToldUnstored fault result (E.taken report.old) (E.taken report.new) (E.faults report.old) (E.faults report.new) }
{
    match fault {
        BulkFault::Input(_) => tell_no_memory(report),
        fault => tell_fault(alloc, report, fault),
    }
}

/// How many keys were found, and how many octets these have.
fn found_text(alloc: Global, found: u64, bytes: u64) -> Result<String, AllocError>
    ensures { IfOk result (λ t. string_bytes t ≡ codes "found " ++ decimal found ++ codes " bytes " ++ decimal bytes) }
{
    format!(in alloc; "found {found} bytes {bytes}")
}

/// The same, and how many keys were missed.
fn counts_text(alloc: Global, counted: Counted) -> Result<String, AllocError>
    ensures { IfOk result (λ t. string_bytes t ≡ codes "found " ++ decimal counted.found
        ++ codes " bytes " ++ decimal counted.bytes ++ codes " missed " ++ decimal counted.missed) }
{
    let Counted {
        found,
        bytes,
        missed,
    } = counted;
    let text = found_text(alloc, found, bytes)?;
    format!(in alloc; "{text} missed {missed}")
}

/// Writes the line of what was found.
fn tell_counted<X: Drop, E: Sink<X>>(
    alloc: Global,
    report: &mut E,
    count: u32,
    counted: Counted,
) -> Status
    ensures { ToldOrNoMemory Status.Done
        (line (codes "trial " ++ decimal count ++ codes " found " ++ decimal counted.found
        ++ codes " bytes " ++ decimal counted.bytes ++ codes " missed " ++ decimal counted.missed))
        result (E.taken report.old) (E.taken report.new) (E.faults report.old) (E.faults report.new) }
{
    let Ok(text) = counts_text(alloc, counted) else {
        return tell_no_memory(report);
    };
    match format!(in alloc; "trial {count} {text}\n") {
        Ok(line) => tell(report, line.as_str(), Status::Done),
        Err(_) => tell_no_memory(report),
    }
}
