//! Reading ahead while this thread does something else.
ghost use Rattle.std.specs.Prelude.{◌≡◌, All, length};
ghost use Rattle.fd_ahead.specs.Reading.{IsJob};

use crate::job::{Job, ReadJob, run};
use crate::opened::Opened;
use fd_beside::for_each_beside;
use fd_disk::Sealed;
use std::alloc::Global;
use std::thread::Threads;

// Tells that there is nothing to be read.
fn is_idle<S, F>(jobs: &[Job<S, F>]) -> bool {
    jobs.iter().all(|job| job.wanted.is_empty())
}

/// Reads what the jobs want, each in a thread of its own, while this thread makes a call.
pub fn read_beside<F: Send + Drop, Z: Sealed<F>, R: Threads + Sync, B, G: FnMut() -> B>(
    rt: &R,
    alloc: Global,
    opened: &[Opened<F, Z>],
    jobs: &mut [ReadJob<F, Z>],
    call: &mut G,
) -> B
    requires jobs { All (IsJob opened.now) jobs.old }
    requires call { G.pre call.old }
    ensures long { length jobs.new ≡ length jobs.old }
    ensures jobs { All (IsJob opened.now) jobs.new }
    ensures called { G.step call.old result call.new }
{
    if is_idle(jobs) {
        return call();
    }
    for_each_beside(
        rt,
        &|_i: usize, job: &mut ReadJob<F, Z>|
            requires { IsJob opened.now job.old }
            ensures { IsJob opened.entry.now job.new }
        { run(alloc, opened, job) },
        jobs,
        call,
    )
}
