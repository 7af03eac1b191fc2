ghost use Rattle.std.specs.{Prelude.{◌≡◌}, Fork.{AcceptsEach}};
ghost use denote.Param.Send.{IsSend, IsSync};
ghost use Rattle.fd_beside.specs.Beside.{AcceptsAll, AcceptsShown, AreChanged, AreShown, ChangesShown};

use std::alloc::Global;
use std::thread;
use std::thread::{Threads, join_mut};

// Changes each job in a thread of its own. (What is lent for writing comes last.)
fn change_each<R: Threads + Sync, J: Send, F: Fn(usize, &mut J) + Sync>(
    rt: &R,
    each: &F,
    jobs: &mut [J],
)
    requires accepts { AcceptsEach F.Fn each.now jobs.old }
    ensures changed { AreChanged F.Fn each.now jobs.old jobs.new }
{
    thread::for_each_mut(rt, jobs, 8, each);
}

/// Changes each job in a thread of its own, while this thread makes a call.
pub fn for_each_beside<R: Threads + Sync, J: Send, F: Fn(usize, &mut J) + Sync, B, G: FnMut() -> B>(
    rt: &R,
    each: &F,
    jobs: &mut [J],
    call: &mut G,
) -> B
    requires accepts { AcceptsEach F.Fn each.now jobs.old }
    requires call { G.pre call.old }
    ensures changed { AreChanged F.Fn each.now jobs.old jobs.new }
    ensures called { G.step call.old result call.new }
{
    let mut change = ||
        requires { IsSync R.row × IsSync F.row × IsSend J.row × AcceptsEach F.Fn each.now jobs.now }
        ensures { AreChanged F.Fn each.entry.now jobs.entry.now jobs.exit.now }
    { change_each(rt, each, jobs) };
    let (_, answer) = join_mut(rt, &mut change, call);
    answer
}

/// What threads make ready before others look at it, and let go of afterwards.
pub trait Item {
    /// Makes it ready. What contracts see of it stays.
    fn prepare(&mut self)
        ensures { self.new ≡ self.old };

    /// Lets go of what isn't needed any more.
    fn let_go(&mut self, alloc: Global);
}

// Makes an item ready.
fn prepare<P: Item>(item: &mut P)
    ensures { item.new ≡ item.old }
{
    item.prepare();
}

// Makes items ready, by so many threads, but one at least.
fn prepare_all<R: Threads + Sync, P: Item + Send>(rt: &R, count: usize, items: &mut [P])
    ensures same { items.new ≡ items.old }
{
    let threads = if count == 0 { 1 } else { count };
    thread::for_each_mut(
        rt,
        items,
        threads,
        &|_i: usize, item: &mut P|
            ensures { item.new ≡ item.old }
        { prepare(item) },
    );
}

// Changes a job that looks at these items.
fn change_shown<P, J, F: Fn(&[P], usize, &mut J)>(each: &F, items: &[P], i: usize, job: &mut J)
    requires { AcceptsShown F.Fn each.now items.now i job.old }
    ensures { ChangesShown F.Fn each.now items.now i job.old job.new }
{
    each(items, i, job);
}

// Changes each job in a thread of its own, all of which look at these items.
fn change_all_shown<R: Threads + Sync, P: Sync, J: Send, F: Fn(&[P], usize, &mut J) + Sync>(
    rt: &R,
    each: &F,
    items: &[P],
    jobs: &mut [J],
)
    requires accepts { AcceptsAll F.Fn each.now items.now jobs.old }
    ensures changed { AreShown F.Fn each.now items.now jobs.old jobs.new }
{
    thread::for_each_mut(
        rt,
        jobs,
        8,
        &|i: usize, job: &mut J|
            requires { AcceptsShown F.Fn each.now items.now i job.old }
            ensures { ChangesShown F.Fn each.entry.now items.entry.now i job.old job.new }
        { change_shown(each, items, i, job) },
    );
}

// Lets go of what isn't needed any more of items.
fn let_go_all<P: Item>(alloc: Global, items: &mut [P]) {
    for item in items.iter_mut() {
        item.let_go(alloc);
    }
}

/// Makes the items ready, by twice as many threads as there are jobs, where there are several, so that the last ends with the others; then
/// changes each job in a thread of its own, all of which look at the items, and lets go of these.
pub fn serve<R: Threads + Sync, P: Item + Send + Sync, J: Send, F: Fn(&[P], usize, &mut J) + Sync>(
    rt: &R,
    alloc: Global,
    each: &F,
    items: &mut [P],
    jobs: &mut [J],
)
    requires accepts { AcceptsAll F.Fn each.now items.old jobs.old }
    ensures changed { AreShown F.Fn each.now items.old jobs.old jobs.new }
{
    let threads = if jobs.len() > 1 {
        jobs.len().saturating_mul(2)
    } else {
        1
    };
    prepare_all(rt, threads, items);
    change_all_shown(rt, each, &*items, jobs);
    let_go_all(alloc, items);
}

/// The same, while this thread makes a call.
pub fn serve_beside<
    R: Threads + Sync,
    P: Item + Send + Sync,
    J: Send,
    F: Fn(&[P], usize, &mut J) + Sync,
    B,
    G: FnMut() -> B,
>(rt: &R, alloc: Global, each: &F, items: &mut [P], jobs: &mut [J], call: &mut G) -> B
    requires accepts { AcceptsAll F.Fn each.now items.old jobs.old }
    requires call { G.pre call.old }
    ensures changed { AreShown F.Fn each.now items.old jobs.old jobs.new }
    ensures called { G.step call.old result call.new }
{
    let mut work = ||
        requires { IsSync R.row × IsSync F.row × IsSend P.row × IsSync P.row × IsSend J.row × AcceptsAll F.Fn each.now items.now jobs.now }
        ensures { AreShown F.Fn each.entry.now items.entry.now jobs.entry.now jobs.exit.now }
    { serve(rt, alloc, each, items, jobs) };
    let (_, answer) = join_mut(rt, &mut work, call);
    answer
}
