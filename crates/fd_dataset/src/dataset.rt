ghost use Rattle.std.specs.{Prelude.{◌≡◌, ◌<◌, ◌≤◌, ◌+◌, ◌⊎◌, ◌++◌, ℕ, List, [], ◌∷◌, length, map, Some, None, is_some, IfOk, IfErr, OnOk, OnErr, Contains}, Arc.{arc_value}};
ghost use mathlib.Core.List.{IsPrefix};
ghost use Rattle.fd_entries.specs.{declared.batch.Listing.{Listing}, declared.table.Entry.{Entry}, Table.{AllFit, greatest_writer}};
ghost use Rattle.fd_turn.specs.{declared.view.Lock.TheVariants.{Free}, Views.{all_parts, donor, first_view, recipient, merger}, Passes.{view, IsOf, IsSame}};
ghost use Rattle.fd_dataset.specs.{Listed.{listing, listing_of, listings, entries_of}, Causes.{AreFewer, DoubtsOne, FullAt, FullWith, IsListed, LeavesDoubts}};
ghost use Rattle.fd_segment.specs.Shared.{AreAbout, AreOf, entries, entry_of};

use crate::fault::{ListFault, Receipt};
use crate::parts::{Desk, Segments, Shown};
use crate::snapshot::Snapshot;
use fd_bytes::{Bytes, NoMemory};
use fd_disk::{Disk, Sealed};
use fd_segment::Segment;
use fd_toc::{AppendFault, Toc};
use fd_turn::{Board, Pass};
use std::alloc::{AllocError, Global};
use std::marker::Model;
use std::sync::{Arc, Wait};

/// A caller's place at a dataset: what it has seen of the table.
pub type DatasetPass<F, T, Z> = Pass<Segments<F, Z>, Desk<F, T, Z>>;

/// The table of contents of a dataset, which many callers share by `&`, also in threads. It ends by `close`.
#[derive(Drop)]
pub struct Dataset<F: Send, T: Disk<F>, Z: Sealed<F>> {
    board: Board<Segments<F, Z>, Desk<F, T, Z>>,
}

impl<F: Send, T: Disk<F>, Z: Sealed<F>> Model for Dataset<F, T, Z> {
    ghost use Rattle.fd_turn.specs.Passes.{BoardId, identity};

    ghost Value = { BoardId };

    ghost view = { λ d. identity d.board };
}

impl<F: Send, T: Disk<F>, Z: Sealed<F>> Dataset<F, T, Z> {
    /// A dataset over a table in which nothing is in doubt, with one segment for each of its entries, in order; and its
    /// one pass, which has every part and no doubts, and says whether the table tells its bytes. Where there is no memory
    /// the table comes back.
    pub fn new(
        alloc: Global,
        toc: Toc<F, T>,
        segments: Vec<Arc<Segment<F, Z>>>,
    ) -> Result<(Dataset<F, T, Z>, DatasetPass<F, T, Z>), (Toc<F, T>, NoMemory)>
        requires segments { entries segments.items ≡ toc.entries }
        requires sure { toc.doubt ≡ None }
        requires name { T.name toc.table ≡ toc.dataset }
        requires names { AreOf (T.name toc.table) segments.items }
        ensures own { IfOk result (λ r. IsOf r.0 r.1) }
        ensures pass { IfOk result (λ r. view r.1 ≡ first_view (T.name toc.table) (is_some (T.file toc.table)) (listings segments.items)) }
        ensures err { IfErr result (λ e. e.0 ≡ toc) }
    {
        let _ = toc.entries();
        let Ok(list) = copied(alloc, &segments) else {
            return Err((toc, NoMemory));
        };
        let Ok(name) = Bytes::from_slice(alloc, toc.dataset()) else {
            return Err((toc, NoMemory));
        };
        let Ok(shown) = Arc::new(alloc, Shown { list, name }) else {
            return Err((toc, NoMemory));
        };
        let desk = Desk {
            toc,
            segments,
            doubted: None,
        };
        match Board::start(alloc, Segments { shown }, desk) {
            Ok((board, pass)) => Ok((Dataset { board }, pass)),
            Err((_, desk, _)) => {
                let Desk {
                    toc,
                    segments: _,
                    doubted: _,
                } = desk;
                Err((toc, NoMemory))
            }
        }
    }

    /// Lists a segment of this dataset: appends its entry to the table, and shows it to all who look from then on. The
    /// pass has then seen all that is listed, and has no doubts. The segment's writer is at most 65,536 times the number
    /// after those that the pass has seen. Where the pass has every part, it has afterwards seen all that was listed since
    /// the dataset began, whatever the answer.
    ///
    /// After a refusal nothing was added, and the pass has seen all that was listed under the lock. `Disk` comes only
    /// with a fault of the table, `Full` exactly where 65,535 entries are listed, and `NoMemory` before the table is
    /// called.
    pub fn list<R: Wait>(
        &self,
        rt: &R,
        alloc: Global,
        pass: &mut DatasetPass<F, T, Z>,
        segment: Arc<Segment<F, Z>>,
    ) -> Result<Receipt, ListFault<F>>
        requires own { IsOf self.now pass.old }
        requires free { (view pass.old).lock ≡ Free }
        requires name { (arc_value segment).dataset ≡ (view pass.old).subject }
        requires writer { (entry_of segment).writer ≤ greatest_writer (length (view pass.old).history) }
        ensures own { IsSame pass.old pass.new }
        ensures listed { IfOk result (λ r. IsListed (view pass.old).history (listing_of segment) r.number (view pass.new).history) }
        ensures counted { IfOk result (λ r. (view pass.new).amount ≡ (view pass.old).amount + 1) }
        ensures sure { IfOk result (λ r. (view pass.new).doubts ≡ []) }
        ensures seen { IsPrefix (view pass.old).history (view pass.new).history }
        ensures refused { OnErr result ((view pass.new).amount ≡ (view pass.old).amount) }
        ensures whole { (view pass.old).parts ≡ all_parts → (view pass.new).opening + (view pass.new).amount ≡ length (view pass.new).history }
        ensures doubts { IfErr result (LeavesDoubts (listing_of segment) (view pass.old).doubts (view pass.new).doubts) }
        ensures full { FullAt (length (view pass.new).history) result }
        ensures rest { view pass.new ≡ record (view pass.old) { history = (view pass.new).history; amount = (view pass.new).amount; doubts = (view pass.new).doubts } }
    {
        let desk = self.board.lock(rt, pass);
        let (desk, answer) = entered(alloc, desk, segment);
        match answer {
            Ok((shown, number)) => {
                self.board.post(rt, pass, shown);
                self.board.unlock(pass, desk);
                Ok(Receipt { number })
            }
            Err(fault) => {
                self.board.unlock(pass, desk);
                Err(fault)
            }
        }
    }

    /// What is listed now, as far as this caller is told: all that the pass has seen, and what others listed since as far
    /// as it is shown. Each segment is of this dataset. After `NoMemory` the pass is as before.
    pub fn snapshot<R: Wait>(
        &self,
        rt: &R,
        alloc: Global,
        pass: &mut DatasetPass<F, T, Z>,
    ) -> Result<Snapshot<F, Z>, NoMemory>
        requires own { IsOf self.now pass.old }
        requires free { (view pass.old).lock ≡ Free }
        ensures own { IsSame pass.old pass.new }
        ensures ok { IfOk result (λ s. view pass.new ≡ record (view pass.old) { history = map listing s }) }
        ensures seen { IfOk result (λ s. IsPrefix (view pass.old).history (map listing s)) }
        ensures subject { IfOk result (λ s. AreAbout (view pass.old).subject s) }
        ensures count { IfOk result (λ s. (view pass.old).parts ≡ all_parts → (view pass.old).opening + (view pass.old).amount ≡ length s) }
        ensures err { OnErr result (view pass.new ≡ view pass.old) }
    {
        let segments = self.board.look(rt, alloc, pass)?;
        Ok(Snapshot { segments })
    }

    /// Has the pass see all that is listed. Where it has every part, its amount is the number of entries that were listed
    /// since the dataset began. Its doubts are as before, or none.
    pub fn catch_up<R: Wait>(&self, rt: &R, pass: &mut DatasetPass<F, T, Z>)
        requires own { IsOf self.now pass.old }
        requires free { (view pass.old).lock ≡ Free }
        ensures own { IsSame pass.old pass.new }
        ensures seen { IsPrefix (view pass.old).history (view pass.new).history }
        ensures count { (view pass.old).parts ≡ all_parts → (view pass.new).opening + (view pass.new).amount ≡ length (view pass.new).history }
        ensures doubts { AreFewer (view pass.old).doubts (view pass.new).doubts }
        ensures few { length (view pass.new).history ≤ 65535 }
        ensures rest { view pass.new ≡ record (view pass.old) { history = (view pass.new).history; doubts = (view pass.new).doubts } }
    {
        let desk = self.board.lock(rt, pass);
        let _ = desk.toc.entries();
        self.board.unlock(pass, desk);
    }

    /// A pass for another caller, with one of this pass's parts, of which there are two at least, and what it has seen.
    pub fn split(&self, pass: &mut DatasetPass<F, T, Z>) -> DatasetPass<F, T, Z>
        requires own { IsOf self.now pass.old }
        requires free { (view pass.old).lock ≡ Free }
        requires parts { 2 ≤ (view pass.old).parts }
        ensures own { IsSame pass.old pass.new × IsSame pass.old result }
        ensures kept { view pass.new ≡ donor (view pass.old) }
        ensures given { view result ≡ recipient (view pass.old) }
    {
        self.board.split(pass)
    }

    /// Takes another pass in: this one keeps the longer of the two histories, of which both are beginnings, the parts and
    /// the amounts of both, added up, and the doubts of both.
    pub fn join(&self, pass: &mut DatasetPass<F, T, Z>, other: DatasetPass<F, T, Z>)
        requires own { IsOf self.now pass.old × IsOf self.now other }
        requires free { ((view pass.old).lock ≡ Free) × ((view other).lock ≡ Free) }
        ensures own { IsSame pass.old pass.new }
        ensures view { view pass.new ≡ merger (view pass.old) (view other) }
        ensures seen { IsPrefix (view pass.old).history (view pass.new).history }
        ensures told { IsPrefix (view other).history (view pass.new).history }
    {
        self.board.join(pass, other)
    }

    /// Ends the dataset, by the pass that has every part, and hands the table back. Its entries begin with those of the
    /// pass's history, and are as many as the dataset began with and the pass's amount together; each writer is at most
    /// 65,536 times the number of its entry. An entry in doubt is that of one of the pass's doubts. The table tells its
    /// bytes exactly where the one did that the dataset began with.
    pub fn close(self, pass: DatasetPass<F, T, Z>) -> Toc<F, T>
        requires own { IsOf self pass }
        requires free { (view pass).lock ≡ Free }
        requires all { (view pass).parts ≡ all_parts }
        ensures seen { IsPrefix (entries_of (view pass).history) result.entries }
        ensures count { length result.entries ≡ (view pass).opening + (view pass).amount }
        ensures name { T.name result.table ≡ (view pass).subject }
        ensures dataset { result.dataset ≡ (view pass).subject }
        ensures told { is_some (T.file result.table) ≡ (view pass).told }
        ensures fit { AllFit 0 result.entries }
        ensures doubt { (e : Entry) → result.doubt ≡ Some e → (l : Listing) × Contains (view pass).doubts l × (l.entry ≡ e) }
    {
        let Dataset { board } = self;
        let (_, desk) = board.close(pass);
        let Desk {
            toc,
            segments: _,
            doubted: _,
        } = desk;
        let _ = toc.entries();
        toc
    }
}

type Lists<F, Z> = (Segments<F, Z>, Vec<Arc<Segment<F, Z>>>);

// What is done under the lock: lists the segment in the table, and gives the list that is then to be shown.
fn entered<F: Send, T: Disk<F>, Z: Sealed<F>>(
    alloc: Global,
    desk: Desk<F, T, Z>,
    segment: Arc<Segment<F, Z>>,
) -> (Desk<F, T, Z>, Result<(Segments<F, Z>, u32), ListFault<F>>)
    requires name { (arc_value segment).dataset ≡ desk.toc.dataset }
    requires writer { (entry_of segment).writer ≤ greatest_writer (length desk.toc.entries) }
    ensures name { result.0.toc.dataset ≡ desk.toc.dataset }
    ensures told { is_some (T.file result.0.toc.table) ≡ is_some (T.file desk.toc.table) }
    ensures subject { IfOk result.1 (λ r. (arc_value r.0.shown).name ≡ desk.toc.dataset) }
    ensures shown { IfOk result.1 (λ r. listings (arc_value r.0.shown).list.items ≡ listings desk.segments.items ++ listing_of segment ∷ []) }
    ensures listed { IfOk result.1 (λ r. (listings result.0.segments.items ≡ listings desk.segments.items ++ listing_of segment ∷ []) × (r.1 ≡ length result.0.segments.items)) }
    ensures sure { IfOk result.1 (λ r. result.0.doubted ≡ None) }
    ensures refused { OnErr result.1 (result.0.segments.items ≡ desk.segments.items) }
    ensures doubted { IfErr result.1 (DoubtsOne segment desk.doubted result.0.doubted) }
    ensures full { IfErr result.1 (FullWith (length desk.toc.entries)) }
    ensures room { OnOk result.1 (length desk.toc.entries < 65535) }
{
    if desk.toc.entries().len() >= 65535 {
        return (desk, Err(ListFault::Full { count: 65535 }));
    }
    let (desk, lists) = prepared(alloc, desk, &segment);
    let Ok((shown, own)) = lists else {
        return (desk, Err(ListFault::NoMemory));
    };
    let (desk, answer) = appended(desk, own, segment);
    match answer {
        Ok(number) => (desk, Ok((shown, number))),
        Err(fault) => (desk, Err(ListFault::Disk(fault))),
    }
}

// The list with one segment more, twice, and room for its entry in the table.
fn prepared<F: Send, T: Disk<F>, Z: Sealed<F>>(
    alloc: Global,
    mut desk: Desk<F, T, Z>,
    segment: &Arc<Segment<F, Z>>,
) -> (Desk<F, T, Z>, Result<Lists<F, Z>, NoMemory>)
    requires room { length desk.toc.entries < 65535 }
    requires name { (arc_value segment.now).dataset ≡ desk.toc.dataset }
    ensures desk { (result.0.segments.items ≡ desk.segments.items) × (result.0.doubted ≡ desk.doubted) }
    ensures name { result.0.toc.dataset ≡ desk.toc.dataset }
    ensures table { result.0.toc.table ≡ desk.toc.table }
    ensures subject { IfOk result.1 (λ l. (arc_value l.0.shown).name ≡ desk.toc.dataset) }
    ensures of { IfOk result.1 (λ l. AreOf desk.toc.dataset l.1.items) }
    ensures shown { IfOk result.1 (λ l. listings (arc_value l.0.shown).list.items ≡ listings desk.segments.items ++ listing_of segment.now ∷ []) }
    ensures own { IfOk result.1 (λ l. (entries l.1.items ≡ entries desk.segments.items ++ entry_of segment.now ∷ []) × (listings l.1.items ≡ listings desk.segments.items ++ listing_of segment.now ∷ [])) }
    ensures spare { IfOk result.1 (λ l. 0 < result.0.toc.spare) }
{
    let Ok(()) = desk.toc.reserve() else {
        return (desk, Err(NoMemory));
    };
    let Ok(list) = longer(alloc, &desk.segments, segment) else {
        return (desk, Err(NoMemory));
    };
    let Ok(own) = longer(alloc, &desk.segments, segment) else {
        return (desk, Err(NoMemory));
    };
    let Ok(name) = Bytes::from_slice(alloc, desk.toc.dataset()) else {
        return (desk, Err(NoMemory));
    };
    match Arc::new(alloc, Shown { list, name }) {
        Ok(shown) => (desk, Ok((Segments { shown }, own))),
        Err(_) => (desk, Err(NoMemory)),
    }
}

// The segments with one more.
fn longer<F: Send, Z: Sealed<F>>(
    alloc: Global,
    segments: &Vec<Arc<Segment<F, Z>>>,
    segment: &Arc<Segment<F, Z>>,
) -> Result<Vec<Arc<Segment<F, Z>>>, AllocError>
    ensures listings { IfOk result (λ v. listings v.items ≡ listings segments.now.items ++ listing_of segment.now ∷ []) }
    ensures entries { IfOk result (λ v. entries v.items ≡ entries segments.now.items ++ entry_of segment.now ∷ []) }
    ensures of { IfOk result (λ v. (name : List ℕ) → AreOf name segments.now.items → (arc_value segment.now).dataset ≡ name → AreOf name v.items) }
{
    let mut all = copied(alloc, segments)?;
    all.push(Arc::try_clone(segment)?)?;
    Ok(all)
}

// The same segments, with room for one more.
fn copied<F: Send, Z: Sealed<F>>(
    alloc: Global,
    segments: &Vec<Arc<Segment<F, Z>>>,
) -> Result<Vec<Arc<Segment<F, Z>>>, AllocError>
    ensures listings { IfOk result (λ v. listings v.items ≡ listings segments.now.items) }
    ensures entries { IfOk result (λ v. entries v.items ≡ entries segments.now.items) }
    ensures of { IfOk result (λ v. (name : List ℕ) → AreOf name segments.now.items → AreOf name v.items) }
{
    let mut all = Vec::new(alloc);
    all.reserve(segments.len().saturating_add(1))?;
    for i in 0..segments.len() {
        all.push(Arc::try_clone(&segments[i])?)?;
    }
    Ok(all)
}

// Lists the segment in the table. The list that is given is the new one.
fn appended<F: Send, T: Disk<F>, Z: Sealed<F>>(
    desk: Desk<F, T, Z>,
    own: Vec<Arc<Segment<F, Z>>>,
    segment: Arc<Segment<F, Z>>,
) -> (Desk<F, T, Z>, Result<u32, F>)
    requires own { entries own.items ≡ entries desk.segments.items ++ entry_of segment ∷ [] }
    requires room { length desk.toc.entries < 65535 }
    requires spare { 0 < desk.toc.spare }
    requires writer { (entry_of segment).writer ≤ greatest_writer (length desk.toc.entries) }
    requires of { AreOf desk.toc.dataset own.items }
    ensures name { result.0.toc.dataset ≡ desk.toc.dataset }
    ensures told { is_some (T.file result.0.toc.table) ≡ is_some (T.file desk.toc.table) }
    ensures ok { IfOk result.1 (λ n. (result.0.segments.items ≡ own.items) × (result.0.doubted ≡ None) × (n ≡ length own.items)) }
    ensures err { OnErr result.1 ((result.0.segments.items ≡ desk.segments.items) × ((result.0.doubted ≡ desk.doubted) ⊎ (result.0.doubted ≡ None) ⊎ (result.0.doubted ≡ Some segment))) }
{
    let Desk {
        mut toc,
        segments,
        doubted,
    } = desk;
    let entry = segment.entry();
    match toc.append(entry) {
        Ok(number) => (
            Desk {
                toc,
                segments: own,
                doubted: None,
            },
            Ok(number),
        ),
        Err(AppendFault::Full { count: _ }) => unreachable!(),
        Err(AppendFault::Disk(fault)) => {
            let doubted = match toc.in_doubt() {
                None => None,
                Some(found) if found == entry => Some(segment),
                Some(_) => doubted,
            };
            (
                Desk {
                    toc,
                    segments,
                    doubted,
                },
                Err(fault),
            )
        }
    }
}
