//! What a thread reads ahead.
ghost use Rattle.std.specs.Prelude.{◌≡◌, All, List, length, IfOk};
ghost use Rattle.fd_ahead.specs.{Places.{Keeps, Open}, Reading.{IsJob, IsRead, IsWanted}};

use crate::located::Located;
use crate::opened::Opened;
use crate::segments::OpenSegments;
use fd_bytes::{Bytes, NoMemory};
use fd_disk::Sealed;
use fd_segment::LensFault;
use std::alloc::Global;

/// A field that was read, with its place: its bytes, which were checked, or why there are none.
#[derive(Drop)]
pub(crate) struct Item<F> {
    pub(crate) located: Located,
    pub(crate) read: Result<Bytes, LensFault<F>>,
}

/// What a thread is given: the places of the fields that it is to read, in their order. Afterwards it has read the first of
/// them: all, or those up to one that couldn't be read.
#[derive(Drop)]
pub struct Job<S, F> {
    pub(crate) segments: S,
    pub(crate) wanted: Vec<Located>,
    pub(crate) read: Vec<Item<F>>,
}

/// The job of a thread that reads segments of a store.
pub type ReadJob<F, Z> = Job<OpenSegments<F, Z>, F>;

/// A job in which nothing is to be read.
fn idle<F: Send + Drop, Z: Sealed<F>>(alloc: Global) -> ReadJob<F, Z>
    ensures { (os : List Open) → IsJob os result }
{
    Job {
        segments: OpenSegments::none(),
        wanted: Vec::new(alloc),
        read: Vec::new(alloc),
    }
}

/// So many jobs in which nothing is to be read.
pub fn jobs_for<F: Send + Drop, Z: Sealed<F>>(
    alloc: Global,
    workers: u32,
) -> Result<Vec<ReadJob<F, Z>>, NoMemory>
    ensures count { IfOk result (λ v. length v.items ≡ workers) }
    ensures jobs { IfOk result (λ v. (os : List Open) → All (IsJob os) v.items) }
{
    let Ok(mut jobs) = Vec::with_capacity(alloc, workers as usize) else {
        return Err(NoMemory);
    };
    for _i in 0..workers {
        jobs.push_reserved(idle(alloc));
    }
    Ok(jobs)
}

/// Reads the field at a place, and checks it.
fn read_one<F: Send, Z: Sealed<F>>(
    alloc: Global,
    opened: &[Opened<F, Z>],
    located: Located,
    segments: &mut OpenSegments<F, Z>,
) -> Item<F>
    requires wanted { IsWanted opened.now located }
    requires keeps { Keeps opened.now segments.old }
    ensures keeps { Keeps opened.now segments.new }
    ensures read { IsRead opened.now result }
{
    let read = segments.read(alloc, opened, located);
    Item { located, read }
}

/// Keeps a field that was read, and tells whether the next one is to be read. One that can't be kept is left to who writes
/// it.
pub(crate) fn keep<F: Drop>(read: &mut Vec<Item<F>>, item: Item<F>) -> bool
    ensures { (os : List Open) → All (IsRead os) read.old.items → IsRead os item → All (IsRead os) read.new.items }
{
    let is_good = item.read.is_ok();
    read.push(item).is_ok() && is_good
}

/// Reads the fields at these places, in their order, up to the first that can't be read.
fn read_all<F: Send + Drop, Z: Sealed<F>>(
    alloc: Global,
    opened: &[Opened<F, Z>],
    wanted: &[Located],
    segments: &mut OpenSegments<F, Z>,
    read: &mut Vec<Item<F>>,
)
    requires wanted { All (IsWanted opened.now) wanted.now }
    requires keeps { Keeps opened.now segments.old }
    requires read { All (IsRead opened.now) read.old.items }
    ensures keeps { Keeps opened.now segments.new }
    ensures read { All (IsRead opened.now) read.new.items }
{
    for i in 0..wanted.len() {
        let item = read_one(alloc, opened, wanted[i], segments);
        if !keep(read, item) {
            return;
        }
    }
}

/// Reads the fields that a job wants, in their order, up to the first that can't be read.
pub(crate) fn run<F: Send + Drop, Z: Sealed<F>>(
    alloc: Global,
    opened: &[Opened<F, Z>],
    job: &mut ReadJob<F, Z>,
)
    requires { IsJob opened.now job.old }
    ensures { IsJob opened.now job.new }
{
    read_all(alloc, opened, &job.wanted, &mut job.segments, &mut job.read);
    job.wanted.clear();
}
