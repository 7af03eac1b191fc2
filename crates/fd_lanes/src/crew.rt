//! All lanes, each in a thread of its own.
ghost use Rattle.std.specs.{Prelude.{◌≡◌, ◌<◌, ◌≤◌, ◌+◌, ◌-◌, [], List, All, ℕ, length, map, IfOk, IfErr, slice_index_or}, Vec.{vec_capacity}};
ghost use mathlib.Core.List.{IsPrefix};
ghost use Rattle.fd_entries.specs.declared.batch.Pair.{Pair};
ghost use Rattle.fd_schema.specs.Reading.{seen_place};
ghost use Rattle.fd_retriever.specs.Answers.{Tells};
ghost use Rattle.fd_turn.specs.{declared.view.Lock.TheVariants.{Free}, Passes.{view, IsOf, IsSame}, Views.{all_parts, recipient}};
ghost use Rattle.fd_lanes.specs.{Acts.{ArePlaces, LanesFit, all_acts}, Legal.{IsRunOf}, Fits.{Keeps, Looked}, Jobs.{AllKept, archivers_of, AreKeptFrom, ends_of, IsFresh, IsReady, IsRoom, MayBegin, owners_of, RanAt, Ran, TookIn, writers_of}};
ghost use Rattle.fd_numbers.specs.Numbers.{Differ};

use crate::end::{End, Ends};
use crate::lane::{Job, LaneJob, LaneMeans, LaneRoom, Means, Room};
use crate::places::places_at;
use crate::steps::run_lane;
use fd_archiver::Archiver;
use fd_bytes::{Bytes, Items, NoMemory};
use fd_dataset::{Dataset, DatasetPass};
use fd_disk::{Disk, Sealed, Shelf};
use fd_io::Gate;
use fd_retriever::Lenses;
use fd_schema::{Place, Schema};
use fd_script::{Lane, Script};
use std::alloc::Global;
use std::sync::Wait;
use std::thread;
use std::thread::Threads;

/// The writers of a dataset, one for each lane, and a pass that has every part.
pub struct Crew<F: Send, T: Disk<F>, H: Shelf<F>> {
    /// The writers.
    pub archivers: Vec<Archiver<F, H>>,
    /// The pass.
    pub pass: DatasetPass<F, T, H::Sealed>,
}

/// How all steps ended.
pub struct Transcript<F> {
    /// The number of entries before.
    pub before: u32,
    /// For each lane the end of each of its steps.
    pub lanes: Ends<F>,
}

/// What a run of lanes gives.
pub struct Outcome<F: Send, T: Disk<F>, H: Shelf<F>> {
    /// How all steps ended.
    pub transcript: Transcript<F>,
    /// The writers and the pass.
    pub crew: Crew<F, T, H>,
}

// Room for one lane.
fn one_room<F: Send, H: Shelf<F>>(alloc: Global) -> Result<LaneRoom<F, H>, NoMemory>
where
    ensures { IfOk result IsRoom }
{
    let lenses = Lenses::new(alloc)?;
    match Vec::with_capacity(alloc, 4096) {
        Ok(ends) => Ok(Room { lenses, ends }),
        Err(_) => Err(NoMemory),
    }
}

// Lets go of rooms, in which no end stands.
fn close_rooms<F: Send, H: Shelf<F>>(mut rooms: Vec<LaneRoom<F, H>>)
where
    requires { All IsRoom rooms.items }
{
    while let Some(room) = rooms.pop() {
        let Room { lenses: _, ends } = room;
        ends.destroy_empty();
    }
    rooms.destroy_empty();
}

// Room for each lane.
fn rooms<F: Send, H: Shelf<F>>(alloc: Global, n: usize) -> Result<Vec<LaneRoom<F, H>>, NoMemory>
where
    ensures { IfOk result (λ v. (length v.items ≡ n) × All IsRoom v.items) }
{
    let Ok(mut all) = Vec::with_capacity(alloc, n) else {
        return Err(NoMemory);
    };
    for _i in 0..n {
        match one_room::<F, H>(alloc) {
            Ok(room) => all.push_reserved(room),
            Err(NoMemory) => {
                close_rooms::<F, H>(all);
                return Err(NoMemory);
            }
        }
    }
    Ok(all)
}

// All that is listed, as a number.
fn settled<F: Send, T: Disk<F>, Z: Sealed<F>, R: Wait>(
    rt: &R,
    alloc: Global,
    dataset: &Dataset<F, T, Z>,
    pass: &mut DatasetPass<F, T, Z>,
) -> Result<u32, NoMemory>
    requires own { IsOf dataset.now pass.old }
    requires free { (view pass.old).lock ≡ Free }
    requires all { (view pass.old).parts ≡ all_parts }
    ensures own { IsSame pass.old pass.new }
    ensures looked { Looked (view pass.old) (view pass.new) }
    ensures number { IfOk result (λ n. (n ≡ length (view pass.new).history) × (n ≡ (view pass.old).opening + (view pass.old).amount)) }
{
    let snapshot = dataset.snapshot(rt, alloc, pass)?;
    Ok(snapshot.len())
}

type Vacant<J, A, E> = (Vec<J>, Vec<A>, Vec<E>);

// Room for so many of each.
fn vacant<J, A, E>(alloc: Global, n: usize) -> Result<Vacant<J, A, E>, NoMemory>
    ensures first { IfOk result (λ v. (v.0.items ≡ []) × (vec_capacity v.0 ≡ n)) }
    ensures others { IfOk result (λ v. (v.1.items ≡ []) × (vec_capacity v.1 ≡ n) × (v.2.items ≡ []) × (vec_capacity v.2 ≡ n)) }
{
    let Ok(first) = Vec::with_capacity(alloc, n) else {
        return Err(NoMemory);
    };
    let Ok(second) = Vec::with_capacity(alloc, n) else {
        first.destroy_empty();
        return Err(NoMemory);
    };
    let Ok(third) = Vec::with_capacity(alloc, n) else {
        first.destroy_empty();
        second.destroy_empty();
        return Err(NoMemory);
    };
    Ok((first, second, third))
}

// All that is listed, as a number, and room for so many lanes.
fn prepared<F: Send, T: Disk<F>, H: Shelf<F>, R: Wait>(
    rt: &R,
    alloc: Global,
    dataset: &Dataset<F, T, H::Sealed>,
    pass: &mut DatasetPass<F, T, H::Sealed>,
    n: usize,
) -> Result<LaneMeans<F, T, H>, NoMemory>
where
    requires own { IsOf dataset.now pass.old }
    requires free { (view pass.old).lock ≡ Free }
    requires all { (view pass.old).parts ≡ all_parts }
    ensures own { IsSame pass.old pass.new }
    ensures looked { Looked (view pass.old) (view pass.new) }
    ensures number { IfOk result (λ m. (m.before ≡ length (view pass.new).history) × (m.before ≡ (view pass.old).opening + (view pass.old).amount)) }
    ensures rooms { IfOk result (λ m. (length m.rooms.items ≡ n) × All IsRoom m.rooms.items) }
    ensures jobs { IfOk result (λ m. (m.jobs.items ≡ []) × (vec_capacity m.jobs ≡ n)) }
    ensures back { IfOk result (λ m. (m.back.items ≡ []) × (vec_capacity m.back ≡ n) × (m.ends.items ≡ []) × (vec_capacity m.ends ≡ n)) }
{
    let before = settled(rt, alloc, dataset, pass)?;
    let rooms = rooms::<F, H>(alloc, n)?;
    match vacant(alloc, n) {
        Ok((jobs, back, ends)) => Ok(Means {
            before,
            rooms,
            jobs,
            back,
            ends,
        }),
        Err(NoMemory) => {
            close_rooms::<F, H>(rooms);
            Err(NoMemory)
        }
    }
}

// A job for each archiver, with a pass that is split off.
fn sent_out<F: Send, T: Disk<F>, H: Shelf<F>>(
    dataset: &Dataset<F, T, H::Sealed>,
    pass: &mut DatasetPass<F, T, H::Sealed>,
    archivers: Vec<Archiver<F, H>>,
    mut rooms: Vec<LaneRoom<F, H>>,
    mut jobs: Vec<LaneJob<F, T, H>>,
) -> Vec<LaneJob<F, T, H>>
where
    requires own { IsOf dataset.now pass.old }
    requires free { (view pass.old).lock ≡ Free }
    requires parts { length archivers.items < (view pass.old).parts }
    requires rooms { (length rooms.items ≡ length archivers.items) × All IsRoom rooms.items }
    requires jobs { (jobs.items ≡ []) × (vec_capacity jobs ≡ length archivers.items) }
    ensures own { IsSame pass.old pass.new }
    ensures pass { view pass.new ≡ record (view pass.old) { parts = (view pass.new).parts } }
    ensures parts { (view pass.new).parts + length archivers.items ≡ (view pass.old).parts }
    ensures archivers { archivers_of result.items ≡ archivers.items }
    ensures each { All (IsReady dataset.now (recipient (view pass.old))) result.items }
{
    for archiver in archivers {
        let Some(room) = rooms.pop() else {
            unreachable!()
        };
        let Room { lenses, ends } = room;
        let given = dataset.split(pass);
        jobs.push_reserved(Job {
            archiver,
            pass: given,
            lenses,
            ends,
        });
    }
    rooms.destroy_empty();
    jobs
}

// What lanes are to do: their steps, and what these name.
#[derive(Drop)]
struct Orders<'a> {
    lanes: &'a [Lane],
    schema: &'a Schema,
    messages: &'a [Bytes],
    places: &'a [Place],
}

// The steps of one lane.
fn run_at<F: Send, T: Disk<F>, H: Shelf<F>, G: Gate, R: Wait>(
    rt: &R,
    alloc: Global,
    gate: &G,
    orders: &Orders<'_>,
    dataset: &Dataset<F, T, H::Sealed>,
    i: usize,
    job: &mut LaneJob<F, T, H>,
)
where
    requires lane { (i < length orders.now.lanes.now) × (length orders.now.lanes.now ≤ 8) }
    requires short { All (λ l. length l.steps ≤ 4096) orders.now.lanes.now }
    requires steps { LanesFit orders.now.schema.now orders.now.messages.now (view job.old.pass).subject (map seen_place orders.now.places.now) orders.now.lanes.now }
    requires fresh { IsFresh dataset.now job.old }
    ensures ran { RanAt H.kept dataset.now orders.now.schema.now orders.now.messages.now (map seen_place orders.now.places.now) orders.now.lanes.now i job.old job.new }
{
    let lanes = orders.lanes;
    let own = places_at(lanes, i, orders.places);
    let number = i as u32 + 1;
    let steps = lanes[i].steps.as_slice();
    run_lane(
        rt,
        alloc,
        gate,
        number,
        steps,
        orders.schema,
        orders.messages,
        own,
        dataset,
        job,
    )
}

// Each job in a thread of its own.
fn run_all<F: Send, T: Disk<F>, H: Shelf<F>, G: Gate, R: Threads + Wait + Sync>(
    rt: &R,
    alloc: Global,
    gate: &G,
    orders: &Orders<'_>,
    dataset: &Dataset<F, T, H::Sealed>,
    jobs: &mut [LaneJob<F, T, H>],
)
where
    requires lanes { (length jobs.old ≡ length orders.now.lanes.now) × (length orders.now.lanes.now ≤ 8) }
    requires short { All (λ l. length l.steps ≤ 4096) orders.now.lanes.now }
    requires fresh { All (IsFresh dataset.now) jobs.old }
    requires steps { All (λ j. LanesFit orders.now.schema.now orders.now.messages.now (view j.pass).subject (map seen_place orders.now.places.now) orders.now.lanes.now) jobs.old }
    ensures long { length jobs.new ≡ length jobs.old }
    ensures ran { (i : ℕ) (e : _) → i < length jobs.old → RanAt H.kept dataset.now orders.now.schema.now orders.now.messages.now (map seen_place orders.now.places.now) orders.now.lanes.now i (slice_index_or jobs.old i e) (slice_index_or jobs.new i e) }
{
    thread::for_each_mut(
        rt,
        jobs,
        8,
        &|i: usize, job: &mut LaneJob<F, T, H>|
            requires { (i < length orders.now.lanes.now) × (length orders.now.lanes.now ≤ 8) × All (λ l. length l.steps ≤ 4096) orders.now.lanes.now × LanesFit orders.now.schema.now orders.now.messages.now (view job.old.pass).subject (map seen_place orders.now.places.now) orders.now.lanes.now × IsFresh dataset.now job.old }
            ensures { RanAt H.kept dataset.entry.now orders.entry.now.schema.now orders.entry.now.messages.now (map seen_place orders.entry.now.places.now) orders.entry.now.lanes.now i job.old job.new }
        { run_at(rt, alloc, gate, orders, dataset, i, job) },
    );
}

type Gathered<F, H> = (Vec<Archiver<F, H>>, Vec<Items<End<F>>>);

// Takes the pass of each job in, and gives the archivers and the ends.
fn taken_in<F: Send, T: Disk<F>, H: Shelf<F>>(
    dataset: &Dataset<F, T, H::Sealed>,
    pass: &mut DatasetPass<F, T, H::Sealed>,
    jobs: Vec<LaneJob<F, T, H>>,
    mut archivers: Vec<Archiver<F, H>>,
    mut ends: Vec<Items<End<F>>>,
) -> Gathered<F, H>
where
    requires own { IsOf dataset.now pass.old }
    requires free { (view pass.old).lock ≡ Free }
    requires jobs { All (λ j. IsOf dataset.now j.pass × ((view j.pass).lock ≡ Free)) jobs.items }
    requires rooms { (archivers.items ≡ []) × (vec_capacity archivers ≡ length jobs.items) × (ends.items ≡ []) × (vec_capacity ends ≡ length jobs.items) }
    ensures own { IsSame pass.old pass.new }
    ensures took { TookIn (view pass.old) (view pass.new) jobs.items }
    ensures archivers { result.0.items ≡ archivers_of jobs.items }
    ensures ends { result.1.items ≡ ends_of jobs.items }
{
    let mut left = jobs.into_iter();
    while let Some(job) = left.next() {
        let Job {
            archiver,
            pass: other,
            lenses: _,
            ends: its,
        } = job;
        dataset.join(pass, other);
        archivers.push_reserved(archiver);
        ends.push_reserved(Items::from_vec(its));
    }
    left.destroy_empty();
    (archivers, ends)
}

// Sends the lanes out, and takes them in. The pass has then seen all that is listed.
fn run_crew<F: Send, T: Disk<F>, H: Shelf<F>, G: Gate, R: Threads + Wait + Sync>(
    rt: &R,
    alloc: Global,
    gate: &G,
    orders: &Orders<'_>,
    dataset: &Dataset<F, T, H::Sealed>,
    pass: &mut DatasetPass<F, T, H::Sealed>,
    archivers: Vec<Archiver<F, H>>,
    rooms: Vec<LaneRoom<F, H>>,
    jobs: Vec<LaneJob<F, T, H>>,
    back: Vec<Archiver<F, H>>,
    ends: Vec<Items<End<F>>>,
) -> Gathered<F, H>
where
    requires own { IsOf dataset.now pass.old }
    requires free { (view pass.old).lock ≡ Free }
    requires all { (view pass.old).parts ≡ all_parts }
    requires sure { (view pass.old).doubts ≡ [] }
    requires number { (view pass.old).opening + (view pass.old).amount ≡ length (view pass.old).history }
    requires lanes { (length archivers.items ≡ length orders.now.lanes.now) × (length orders.now.lanes.now ≤ 8) }
    requires short { All (λ l. length l.steps ≤ 4096) orders.now.lanes.now }
    requires writers { Differ (writers_of archivers.items) }
    requires archivers { All (MayBegin (view pass.old).subject (length (view pass.old).history)) archivers.items }
    requires steps { LanesFit orders.now.schema.now orders.now.messages.now (view pass.old).subject (map seen_place orders.now.places.now) orders.now.lanes.now }
    requires rooms { (length rooms.items ≡ length archivers.items) × All IsRoom rooms.items }
    requires jobs { (jobs.items ≡ []) × (vec_capacity jobs ≡ length archivers.items) }
    requires back { (back.items ≡ []) × (vec_capacity back ≡ length archivers.items) × (ends.items ≡ []) × (vec_capacity ends ≡ length archivers.items) }
    ensures own { IsSame pass.old pass.new }
    ensures ran { Ran (view pass.old) (view pass.new) (length (view pass.old).history) (all_acts orders.now.schema.now orders.now.messages.now (map seen_place orders.now.places.now) orders.now.lanes.now) result.1.items }
    ensures writers { writers_of result.0.items ≡ writers_of archivers.items }
    ensures owners { owners_of result.0.items ≡ owners_of archivers.items }
    ensures files { AreKeptFrom H.kept result.0.items (length (view pass.old).history) (view pass.new).history }
    ensures doubted { AllKept H.kept result.0.items (view pass.new).doubts }
{
    let mut jobs = sent_out(dataset, pass, archivers, rooms, jobs);
    run_all(rt, alloc, gate, orders, dataset, jobs.as_mut_slice());
    let gathered = taken_in(dataset, pass, jobs, back, ends);
    dataset.catch_up(rt, pass);
    gathered
}

/// Runs all lanes of a script side by side, each in a thread of its own, over one dataset: each lane's steps in their
/// order, with the gate passed before each step and once at the end. The archivers belong to the lanes in their order. The
/// pass has then seen all that is listed.
///
/// After `NoMemory` no step was taken, and the crew comes back; the pass may have seen more.
pub fn lanes<F: Send, T: Disk<F>, H: Shelf<F>, G: Gate, R: Threads + Wait + Sync>(
    rt: &R,
    alloc: Global,
    script: &Script,
    schema: &Schema,
    messages: &[Bytes],
    places: &[Place],
    dataset: &Dataset<F, T, H::Sealed>,
    crew: Crew<F, T, H>,
    gate: &G,
) -> Result<Outcome<F, T, H>, (Crew<F, T, H>, NoMemory)>
where
    requires own { IsOf dataset.now crew.pass }
    requires free { (view crew.pass).lock ≡ Free }
    requires all { (view crew.pass).parts ≡ all_parts }
    requires sure { (view crew.pass).doubts ≡ [] }
    requires lanes { length crew.archivers.items ≡ length script.now.lanes }
    requires writers { Differ (writers_of crew.archivers.items) }
    requires archivers { All (MayBegin (view crew.pass).subject (length (view crew.pass).history)) crew.archivers.items }
    requires steps { LanesFit schema.now messages.now (view crew.pass).subject (map seen_place places.now) script.now.lanes }
    requires places { ArePlaces schema.now messages.now script.now.lanes (map seen_place places.now) }
    ensures own { IfOk result (λ o. IsSame crew.pass o.crew.pass) }
    ensures ran { IfOk result (λ o. Ran (view crew.pass) (view o.crew.pass) o.transcript.before (all_acts schema.now messages.now (map seen_place places.now) script.now.lanes) o.transcript.lanes) }
    ensures legal { IfOk result (λ o. (t : List (List Pair)) → Tells (view o.crew.pass).history t → IsRunOf schema.now messages.now script.now.lanes o.transcript.before t o.transcript.lanes) }
    ensures writers { IfOk result (λ o. writers_of o.crew.archivers.items ≡ writers_of crew.archivers.items) }
    ensures owners { IfOk result (λ o. owners_of o.crew.archivers.items ≡ owners_of crew.archivers.items) }
    ensures files { IfOk result (λ o. AreKeptFrom H.kept o.crew.archivers.items o.transcript.before (view o.crew.pass).history) }
    ensures doubted { IfOk result (λ o. AllKept H.kept o.crew.archivers.items (view o.crew.pass).doubts) }
    ensures own_err { IfErr result (λ e. IsSame crew.pass e.0.pass × Keeps (view crew.pass) (view e.0.pass)) }
    ensures calm_err { IfErr result (λ e. ((view e.0.pass).amount ≡ (view crew.pass).amount) × ((view e.0.pass).doubts ≡ (view crew.pass).doubts)) }
    ensures archivers_err { IfErr result (λ e. e.0.archivers ≡ crew.archivers) }
{
    let Crew {
        archivers,
        mut pass,
    } = crew;
    let n = archivers.len();
    let Ok(means) = prepared::<F, T, H, R>(rt, alloc, dataset, &mut pass, n) else {
        return Err((Crew { archivers, pass }, NoMemory));
    };
    let Means {
        before,
        rooms,
        jobs,
        back,
        ends,
    } = means;
    let its = script.lanes();
    let orders = Orders {
        lanes: its,
        schema,
        messages,
        places,
    };
    let (archivers, ends) = run_crew(
        rt, alloc, gate, &orders, dataset, &mut pass, archivers, rooms, jobs, back, ends,
    );
    let lanes = Items::from_vec(ends);
    Ok(Outcome {
        transcript: Transcript { before, lanes },
        crew: Crew { archivers, pass },
    })
}
