ghost use Rattle.std.specs.Prelude.{◌≡◌, ◌≢◌, ◌≤◌, ◌<◌, ◌+◌, ◌-◌, ◌^◌, ◌⊎◌, ◌↔◌, [], List, length, false, true, Ok, Err, None, Some, IfErr, OnErr};
ghost use mathlib.Core.List.{IsPrefix};
ghost use Rattle.fd_entries.specs.{declared.batch.Pair.{Pair}, Table.{greatest_writer}};
ghost use Rattle.fd_turn.specs.{declared.view.Lock.TheVariants.{Free}, Views.{all_parts}, Passes.{view, IsOf, IsSame}};
ghost use Rattle.fd_segment.specs.{Filling.{HoldsSame}, Held.{Standing}};
ghost use Rattle.fd_archiver.specs.{Causes.{FullAfter, LeavesDoubts, OnFlushDisk}, Flushing.{FailedBefore, KeepsNext, KeepsOthers, Lists, StaysOf, UsesOne}, Writing.{IsPending, IsReady, number_of}};

use crate::archiver::{Archiver, Unlisted};
use crate::fault::{Flush, FlushFault};
use fd_dataset::{Dataset, DatasetPass};
use fd_disk::{Disk, Shelf};
use std::alloc::Global;
use std::sync::{Arc, Wait};

impl<F: Send, H: Shelf<F>> Archiver<F, H> {
    /// Lists what is pending, in the dataset's table: makes the next draft, seals the batch, has the shelf keep both
    /// files, and lists the segment; what an earlier flush of this batch has done is left out. `Nothing` is answered
    /// exactly where nothing is pending. A flush uses at most one sequence number, of which there are fewer than 2^32, and
    /// none where a draft waits that an earlier flush made. Where the pass has every part and the batch came to its
    /// listing, the pass has seen afterwards all that was listed since the dataset began.
    ///
    /// After a refusal what was pending still is: in the draft, or, where the sealing was done, in a segment that waits,
    /// which the next flush lists; a segment that came to its listing stays as it is, with its files kept. A next draft that was
    /// made stays for that flush. `Disk` comes only with a fault of the shelf, of a file of the batch or of the table;
    /// `TableFull` exactly where 65,535 entries are listed when the segment comes to its listing. The pass is left as
    /// `Dataset::list` leaves it, and as before where the segment didn't come to its listing.
    pub fn flush<T: Disk<F>, R: Wait>(
        &mut self,
        rt: &R,
        alloc: Global,
        dataset: &Dataset<F, T, H::Sealed>,
        pass: &mut DatasetPass<F, T, H::Sealed>,
    ) -> Result<Flush, FlushFault<F>>
        requires own { IsOf dataset.now pass.old }
        requires free { (view pass.old).lock ≡ Free }
        requires dataset { self.old.dataset ≡ (view pass.old).subject }
        requires writer { self.old.writer ≤ greatest_writer (length (view pass.old).history) }
        requires left { self.old.last < 2 ^ 32 - 1 }
        ensures own { IsSame pass.old pass.new }
        ensures seen { IsPrefix (view pass.old).history (view pass.new).history }
        ensures rest { view pass.new ≡ record (view pass.old) { history = (view pass.new).history; amount = (view pass.new).amount; doubts = (view pass.new).doubts } }
        ensures same { StaysOf self.old self.new }
        ensures numbers { UsesOne self.old self.new }
        ensures nothing { (result ≡ Ok Flush.Nothing) ↔ IsPending self.old [] }
        ensures idle { result ≡ Ok Flush.Nothing → (view pass.new ≡ view pass.old) × (self.new ≡ self.old) }
        ensures listed { (r : _) → result ≡ Ok (Flush.Listed r) → Lists H.kept self.old self.new (view pass.old).history r.number (view pass.new).history }
        ensures counted { (r : _) → result ≡ Ok (Flush.Listed r) → (view pass.new).amount ≡ (view pass.old).amount + 1 }
        ensures whole { (r : _) → result ≡ Ok (Flush.Listed r) → (view pass.old).parts ≡ all_parts → (view pass.new).opening + (view pass.new).amount ≡ length (view pass.new).history }
        ensures sure { (r : _) → result ≡ Ok (Flush.Listed r) → (view pass.new).doubts ≡ [] }
        ensures emptied { (r : _) → result ≡ Ok (Flush.Listed r) → (self.new.unlisted ≡ None) × IsPending self.new [] }
        ensures others { KeepsOthers (number_of self.old) (H.kept self.old.shelf) (H.kept self.new.shelf) }
        ensures pending { OnErr result ((b : List Pair) → IsPending self.old b → IsPending self.new b) }
        ensures refused { OnErr result (((view pass.new).amount ≡ (view pass.old).amount) × (number_of self.new ≡ number_of self.old)) }
        ensures still { OnErr result ((s : Standing) → self.old.unlisted ≡ Some s → self.new.unlisted ≡ Some s) }
        ensures back { OnErr result (self.new.unlisted ≡ None → HoldsSame self.old.draft self.new.draft) }
        ensures next { OnErr result (KeepsNext self.old self.new) }
        ensures settled { OnErr result (self.old.is_kept ≡ true → self.new ≡ self.old) }
        ensures untouched { OnErr result (self.new.is_kept ≡ false → view pass.new ≡ view pass.old) }
        ensures waits { (count : _) → result ≡ Err (FlushFault.TableFull count) → IsReady H.kept self.new }
        ensures whole_err { OnErr result ((view pass.old).parts ≡ all_parts → (view pass.new ≡ view pass.old) ⊎ ((view pass.new).opening + (view pass.new).amount ≡ length (view pass.new).history)) }
        ensures full { FullAfter (view pass.old) (view pass.new) result }
        ensures doubts { IfErr result (LeavesDoubts self.new.unlisted (view pass.old).doubts (view pass.new).doubts) }
        ensures later { self.old.shelf_faults ≤ self.new.shelf_faults }
        ensures cause { IfErr result (λ e. OnFlushDisk e (FailedBefore self.old self.new ⊎ IsReady H.kept self.new)) }
    {
        if self.made_ready(alloc)? {
            self.list_kept(rt, alloc, dataset, pass)
        } else {
            Ok(Flush::Nothing)
        }
    }

    // Lists the segment that waits.
    fn list_kept<T: Disk<F>, R: Wait>(
        &mut self,
        rt: &R,
        alloc: Global,
        dataset: &Dataset<F, T, H::Sealed>,
        pass: &mut DatasetPass<F, T, H::Sealed>,
    ) -> Result<Flush, FlushFault<F>>
        requires own { IsOf dataset.now pass.old }
        requires free { (view pass.old).lock ≡ Free }
        requires dataset { self.old.dataset ≡ (view pass.old).subject }
        requires writer { self.old.writer ≤ greatest_writer (length (view pass.old).history) }
        requires ready { IsReady H.kept self.old }
        ensures own { IsSame pass.old pass.new }
        ensures seen { IsPrefix (view pass.old).history (view pass.new).history }
        ensures rest { view pass.new ≡ record (view pass.old) { history = (view pass.new).history; amount = (view pass.new).amount; doubts = (view pass.new).doubts } }
        ensures some { result ≢ Ok Flush.Nothing }
        ensures listed { (r : _) → result ≡ Ok (Flush.Listed r) → Lists H.kept self.old self.new (view pass.old).history r.number (view pass.new).history }
        ensures counted { (r : _) → result ≡ Ok (Flush.Listed r) → (view pass.new).amount ≡ (view pass.old).amount + 1 }
        ensures whole { (r : _) → result ≡ Ok (Flush.Listed r) → (view pass.old).parts ≡ all_parts → (view pass.new).opening + (view pass.new).amount ≡ length (view pass.new).history }
        ensures sure { (r : _) → result ≡ Ok (Flush.Listed r) → (view pass.new).doubts ≡ [] }
        ensures emptied { (r : _) → result ≡ Ok (Flush.Listed r) → (self.new ≡ record self.old { unlisted = None; is_kept = false }) × IsPending self.new [] }
        ensures refused { OnErr result (((view pass.new).amount ≡ (view pass.old).amount) × (self.new ≡ self.old)) }
        ensures whole_err { OnErr result ((view pass.old).parts ≡ all_parts → (view pass.new ≡ view pass.old) ⊎ ((view pass.new).opening + (view pass.new).amount ≡ length (view pass.new).history)) }
        ensures full { FullAfter (view pass.old) (view pass.new) result }
        ensures doubts { IfErr result (LeavesDoubts self.new.unlisted (view pass.old).doubts (view pass.new).doubts) }
    {
        let Unlisted::Kept(kept) = &self.unlisted else {
            unreachable!()
        };
        let Ok(segment) = Arc::try_clone(kept) else {
            return Err(FlushFault::NoMemory);
        };
        let receipt = dataset.list(rt, alloc, pass, segment)?;
        self.unlisted = Unlisted::No;
        Ok(Flush::Listed(receipt))
    }
}
