//! The steps of a lane.
ghost use Rattle.std.specs.Prelude.{◌≡◌, ◌≤◌, ◌<◌, ◌+◌, ◌-◌, ◌^◌, [], List, ℕ, map, length, slice_get, Ok, Some};
ghost use Rattle.fd_entries.specs.{Table.{greatest_writer}, declared.batch.Listing.{Listing}};
ghost use Rattle.fd_key.specs.Pairs as keys;
ghost use Rattle.fd_schema.specs.{Rules.{file_key, place_from}, Reading.{seen_place}};
ghost use Rattle.fd_request.specs.Expansion.{expand};
ghost use Rattle.fd_turn.specs.{declared.view.Lock.TheVariants.{Free}, Views.{View}, Passes.{view, IsOf, IsSame}};
ghost use Rattle.fd_retriever.specs.Kept as opened;
ghost use Rattle.fd_lanes.specs.Acts as acts;
ghost use Rattle.fd_lanes.specs.{Acts.{AllFitting, Fitting, act_of, acts_of, asked_keys}, Walks.{Stand}, Fits.{Fits, GotAs, IsRoomy, IsWaitingDoubt, Keeps, KeepsOn, Moves, StaysOf}, Jobs.{HasRoom, MayBegin, RanJob}};

use crate::end::End;
use crate::getting::fetch_all;
use crate::lane::LaneJob;
use crate::places::behind;
use fd_archiver::{ArchiveFault, Archiver, Flush, FlushFault};
use fd_bytes::{Bytes, NoMemory};
use fd_dataset::{Dataset, DatasetPass, Receipt};
use fd_disk::{Disk, Sealed, Shelf};
use fd_io::Gate;
use fd_request::Request;
use fd_retriever::{FetchFault, Lenses, every_later_snapshot, every_snapshot};
use fd_schema::{Place, Schema};
use fd_script::Step;
use std::alloc::Global;
use std::sync::Wait;

/// A message is put, for which there is room.
pub(crate) fn put_step<F: Send, H: Shelf<F>>(
    place: &Place,
    bytes: &[u8],
    archiver: &mut Archiver<F, H>,
) -> End<F>
where
    requires dataset { (seen_place place.now).dataset ≡ archiver.old.dataset }
    requires key { length (file_key (seen_place place.now)) ≤ 256 }
    requires bytes { length bytes.now ≤ 134217728 }
    requires room { IsRoomy archiver.old }
    ensures stays { StaysOf archiver.old archiver.new }
    ensures moves { (v : View) (s : Stand) → Fits archiver.old v s → Moves archiver.old archiver.new v v s (acts.Put (record { key = file_key (seen_place place.now); bytes = bytes.now })) result }
    ensures kept { (history : List Listing) → KeepsOn H.kept archiver.old archiver.new history result }
    ensures doubted { (doubts : List Listing) → IsWaitingDoubt archiver.old doubts → IsWaitingDoubt archiver.new doubts }
{
    match archiver.archive(place, bytes) {
        Ok(()) => End::PutOk,
        Err(ArchiveFault::Unlisted) => End::PutUnlisted,
        Err(ArchiveFault::Full { keys: _, left: _ }) => unreachable!(),
        Err(ArchiveFault::Disk(fault)) => End::Fault(fault),
    }
}

/// What is pending is listed.
pub(crate) fn flush_step<F: Send, T: Disk<F>, H: Shelf<F>, R: Wait>(
    rt: &R,
    alloc: Global,
    dataset: &Dataset<F, T, H::Sealed>,
    archiver: &mut Archiver<F, H>,
    pass: &mut DatasetPass<F, T, H::Sealed>,
) -> End<F>
where
    requires own { IsOf dataset.now pass.old }
    requires free { (view pass.old).lock ≡ Free }
    requires dataset { archiver.old.dataset ≡ (view pass.old).subject }
    requires writer { archiver.old.writer ≤ greatest_writer (length (view pass.old).history) }
    requires left { archiver.old.last < 2 ^ 32 - 1 }
    ensures own { IsSame pass.old pass.new }
    ensures keeps { Keeps (view pass.old) (view pass.new) }
    ensures stays { StaysOf archiver.old archiver.new }
    ensures moves { (s : Stand) → Fits archiver.old (view pass.old) s → Moves archiver.old archiver.new (view pass.old) (view pass.new) s acts.Flush result }
    ensures kept { KeepsOn H.kept archiver.old archiver.new (view pass.new).history result }
    ensures doubted { IsWaitingDoubt archiver.old (view pass.old).doubts → IsWaitingDoubt archiver.new (view pass.new).doubts }
{
    match archiver.flush(rt, alloc, dataset, pass) {
        Ok(Flush::Nothing) => End::Nothing,
        Ok(Flush::Listed(Receipt { number })) => End::Listed(number),
        Err(FlushFault::Disk(fault)) => End::Fault(fault),
        Err(FlushFault::TableFull { count: _ }) => End::TableFull,
        Err(FlushFault::NoMemory) => End::NoMemory,
    }
}

/// The keys of a request, each of which has a place, are looked up.
pub(crate) fn get_step<F: Send, T: Disk<F>, Z: Sealed<F>, R: Wait>(
    rt: &R,
    alloc: Global,
    schema: &Schema,
    request: &Request,
    dataset: &Dataset<F, T, Z>,
    lenses: &mut Lenses<F, Z>,
    pass: &mut DatasetPass<F, T, Z>,
) -> End<F>
where
    requires own { IsOf dataset.now pass.old }
    requires free { (view pass.old).lock ≡ Free }
    requires fits { opened.Fits lenses.old (view pass.old).history }
    requires places { (i : ℕ) (key : List keys.Pair) → slice_get (expand request.now) i ≡ Some key → (t : _) × (place_from 0 schema.now key ≡ Some t) }
    ensures own { IsSame pass.old pass.new }
    ensures keeps { Keeps (view pass.old) (view pass.new) }
    ensures fits { opened.Fits lenses.new (view pass.new).history }
    ensures same { ((view pass.new).amount ≡ (view pass.old).amount) × ((view pass.new).doubts ≡ (view pass.old).doubts) }
    ensures got { GotAs (view pass.new).history (asked_keys schema.now request.now) result }
{
    every_later_snapshot();
    let Ok(snapshot) = dataset.snapshot(rt, alloc, pass) else {
        return End::NoMemory;
    };
    match fetch_all(alloc, schema, request, &snapshot, lenses) {
        Ok(answers) => End::Got {
            seen: snapshot.len(),
            answers,
        },
        Err(FetchFault::Disk(fault)) => End::Fault(fault),
        Err(FetchFault::Write(NoMemory)) => End::NoMemory,
        Err(FetchFault::Damaged(damage)) => End::Damaged(damage),
        Err(FetchFault::NoMemory) => End::NoMemory,
    }
}

/// One step, the first of these places being that of its message.
pub(crate) fn run_step<F: Send, T: Disk<F>, H: Shelf<F>, R: Wait>(
    rt: &R,
    alloc: Global,
    step: &Step,
    schema: &Schema,
    messages: &[Bytes],
    places: &[Place],
    dataset: &Dataset<F, T, H::Sealed>,
    job: &mut LaneJob<F, T, H>,
) -> End<F>
where
    requires own { IsOf dataset.now job.old.pass }
    requires free { (view job.old.pass).lock ≡ Free }
    requires dataset { job.old.archiver.dataset ≡ (view job.old.pass).subject }
    requires writer { job.old.archiver.writer ≤ greatest_writer (length (view job.old.pass).history) }
    requires left { job.old.archiver.last < 2 ^ 32 - 1 }
    requires fits { opened.Fits job.old.lenses (view job.old.pass).history }
    requires room { IsRoomy job.old.archiver }
    requires step { Fitting schema.now messages.now (view job.old.pass).subject (map seen_place places.now) step.now }
    ensures own { IsSame job.old.pass job.new.pass }
    ensures keeps { Keeps (view job.old.pass) (view job.new.pass) }
    ensures stays { StaysOf job.old.archiver job.new.archiver }
    ensures fits { opened.Fits job.new.lenses (view job.new.pass).history }
    ensures ends { job.new.ends ≡ job.old.ends }
    ensures moves { (s : Stand) → Fits job.old.archiver (view job.old.pass) s → Moves job.old.archiver job.new.archiver (view job.old.pass) (view job.new.pass) s (act_of schema.now messages.now (map seen_place places.now) step.now) result }
    ensures kept { KeepsOn H.kept job.old.archiver job.new.archiver (view job.new.pass).history result }
    ensures doubted { IsWaitingDoubt job.old.archiver (view job.old.pass).doubts → IsWaitingDoubt job.new.archiver (view job.new.pass).doubts }
{
    every_later_snapshot();
    match step {
        Step::Put(number) => {
            let [place, ..] = places else { unreachable!() };
            let bytes = messages[(*number - 1) as usize].as_slice();
            put_step(place, bytes, &mut job.archiver)
        }
        Step::Flush => flush_step(rt, alloc, dataset, &mut job.archiver, &mut job.pass),
        Step::Get(request) => get_step(
            rt,
            alloc,
            schema,
            request,
            dataset,
            &mut job.lenses,
            &mut job.pass,
        ),
    }
}

/// All steps of a lane. The gate is passed before each step, and once more at the end.
pub(crate) fn run_lane<F: Send, T: Disk<F>, H: Shelf<F>, G: Gate, R: Wait>(
    rt: &R,
    alloc: Global,
    gate: &G,
    lane: u32,
    steps: &[Step],
    schema: &Schema,
    messages: &[Bytes],
    places: &[Place],
    dataset: &Dataset<F, T, H::Sealed>,
    job: &mut LaneJob<F, T, H>,
)
where
    requires own { IsOf dataset.now job.old.pass }
    requires free { (view job.old.pass).lock ≡ Free }
    requires sure { (view job.old.pass).doubts ≡ [] }
    requires archiver { MayBegin (view job.old.pass).subject (length (view job.old.pass).history) job.old.archiver }
    requires lenses { job.old.lenses ≡ [] }
    requires few { length steps.now ≤ 4096 }
    requires steps { AllFitting schema.now messages.now (view job.old.pass).subject (map seen_place places.now) steps.now }
    requires room { HasRoom job.old.ends }
    ensures ran { RanJob H.kept dataset.now (acts_of schema.now messages.now (map seen_place places.now) steps.now) job.old job.new }
{
    every_snapshot();
    let mut rest = places;
    let mut number = 1;
    for step in steps {
        gate.pass(rt, lane, number);
        let end = run_step(rt, alloc, step, schema, messages, rest, dataset, job);
        job.ends.push_reserved(end);
        rest = behind(step, rest);
        number += 1;
    }
    gate.pass(rt, lane, number);
    job.archiver.waiting_is_kept();
}
