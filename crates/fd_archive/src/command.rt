// `archive`.
ghost use Rattle.std.specs.Prelude.{◌≡◌, ◌≤◌, false, List, ℕ, Ok, IfSome};
ghost use Rattle.fd_disk.specs.Folders.{WhereTold};
ghost use Rattle.fd_schema.specs.Grammar.{IsSchema};
ghost use Rattle.fd_words.specs.declared.command.Command.TheVariants.{Archive};
ghost use Rattle.fd_outcome.specs.{Asking.{rules_of}, Noticing.{Notices, ReadsFitly}, Ran.{Ran}};
ghost use Rattle.fd_stored.specs.Sparing.{SparesDamaged};
ghost use Rattle.fd_objects.specs.Objects.{Over, since};
ghost use Rattle.fd_archive.specs.Crashing.{OutlastsCrash};

use crate::storing::Setup;
use crate::telling::{tell_counts, tell_fault};
use fd_key::Given;
use fd_objects::{Objects, World};
use fd_outcome::stored_schema;
use fd_stored::Status;
use fd_telling::tell_unruled;
use fd_words::Root;
use std::sync::Wait;
use std::thread::Threads;

/// Stores the fields of the input, each as a message of its own, under their keys and the given pairs, in the datasets that the store's
/// schema says, by so many workers, and tells how many they were, or why the next one isn't stored. No folder of the store is out, and
/// none is out afterwards. Before a refusal of the input or a failed read is told, all datasets are listed; a refusal that a
/// worker meets there is told in its place.
///
/// What is told to be stored outlasts a crash: each store that it may leave has all these messages. It is told only where none of their
/// datasets was damaged; a damaged dataset keeps its files, and its table as it was, or synced. Where the store has no schema, or one that
/// is none, nothing of the input is read.
pub fn archive<W: World, R: Threads + Wait + Sync>(
    rt: &R,
    objects: &mut Objects<W>,
    root: &Root,
    given: &Given,
    workers: u32,
) -> Status
    requires home { (name : List ℕ) → W.Store.out objects.old.store name ≡ false }
    requires workers { (1 ≤ workers) × (workers ≤ 8) }
    ensures ran { Over W.Store.Store W.Input.Source W.Output.Sink W.Report.Sink objects
        (Ran (Archive root.now given.now workers) result) }
    ensures notices { Over W.Store.Store W.Input.Source W.Output.Sink W.Report.Sink objects
        (Notices (Archive root.now given.now workers) result) }
    ensures unread { Over W.Store.Store W.Input.Source W.Output.Sink W.Report.Sink objects
        (λ store input _ _. ReadsFitly (Archive root.now given.now workers) store input) }
    ensures spares { WhereTold (W.Store.has objects.old.store) (W.Store.has objects.new.store) SparesDamaged }
    ensures outlasts { Over W.Store.Store W.Input.Source W.Output.Sink W.Report.Sink objects
        (λ store input _ report. OutlastsCrash (Archive root.now given.now workers) result store input report) }
    ensures output { objects.new.output ≡ objects.old.output }
    ensures home { (name : List ℕ) → W.Store.out objects.new.store name ≡ false }
{
    match stored_schema(objects.alloc, &mut objects.store, root.as_str()) {
        Ok(schema) => {
            let setup = Setup {
                schema: &schema,
                given,
                workers,
            };
            setup.archive_by(rt, objects)
        }
        Err(unruled) => tell_unruled(
            objects.alloc,
            &mut objects.store,
            &mut objects.report,
            unruled,
        ),
    }
}

impl Setup<'_> {
    /// As `archive`, by these rules.
    fn archive_by<W: World, R: Threads + Wait + Sync>(
        &self,
        rt: &R,
        objects: &mut Objects<W>,
    ) -> Status
        requires home { (name : List ℕ) → W.Store.out objects.old.store name ≡ false }
        requires schema { IsSchema self.now.schema.now }
        requires workers { (1 ≤ self.now.workers) × (self.now.workers ≤ 8) }
        ensures ran { Over W.Store.Store W.Input.Source W.Output.Sink W.Report.Sink objects (λ store input output report.
            (root : List ℕ) (faults : ℕ) → faults ≤ store.faults_before → IfSome store.before (λ h. rules_of h.schema ≡ Ok self.now.schema.now)
            → Ran (Archive root self.now.given.now self.now.workers) result (since store.before faults store) input output report) }
        ensures notices { Over W.Store.Store W.Input.Source W.Output.Sink W.Report.Sink objects (λ store input output report.
            (root : List ℕ) → IfSome store.before (λ h. rules_of h.schema ≡ Ok self.now.schema.now)
            → Notices (Archive root self.now.given.now self.now.workers) result store input output report) }
        ensures spares { WhereTold (W.Store.has objects.old.store) (W.Store.has objects.new.store) SparesDamaged }
        ensures outlasts { Over W.Store.Store W.Input.Source W.Output.Sink W.Report.Sink objects (λ store input _ report.
            (root : List ℕ) → IfSome store.before (λ h. rules_of h.schema ≡ Ok self.now.schema.now)
            → OutlastsCrash (Archive root self.now.given.now self.now.workers) result store input report) }
        ensures output { objects.new.output ≡ objects.old.output }
        ensures home { (name : List ℕ) → W.Store.out objects.new.store name ≡ false }
    {
        match self.store_all(
            rt,
            objects.alloc,
            &mut objects.store,
            &mut objects.input,
            &objects.gate,
        ) {
            Ok(bulk) => tell_counts(objects.alloc, &mut objects.report, bulk),
            Err(fault) => tell_fault(objects.alloc, &mut objects.report, fault),
        }
    }
}
