// The answer of a request, in rounds.
ghost use Rattle.std.specs.Prelude.{◌≡◌, ◌≤◌, ◌<◌, ◌^◌, All, List, length};
ghost use Rattle.fd_request.specs.Expansion.{expand};
ghost use Rattle.fd_outcome.specs.Objects.{object};
ghost use Rattle.fd_objects.specs.Given.{sink_of};
ghost use Rattle.fd_ahead.specs.{Places.{AreIn, Open}, Reading.{IsJob, IsStock}};
ghost use Rattle.fd_answering.specs.{Located.{AreLocatedIn}, Rounds.{IsRound, IsWhole}};

use crate::answering::{Halt, answer_some};
use fd_ahead::{Located, Opened, ReadJob, ReadStock, Stock, deal, jobs_for, read_beside};
use fd_disk::Sealed;
use fd_io::Sink;
use fd_request::Request;
use std::alloc::Global;
use std::thread::Threads;

/// How many bytes of fields that were read ahead are joined at most, to be written at once.
const JOINED: usize = 65_536;

/// A list with room for the bytes that are joined. Without memory it has none, and each field is written alone.
fn room_for_joined(alloc: Global) -> Vec<u8> {
    match Vec::with_capacity(alloc, JOINED) {
        Ok(joined) => joined,
        Err(_) => Vec::new(alloc),
    }
}

/// Answers the keys from one number up to another, while threads read what their jobs want.
fn answer_round<'a, F: Send + Drop, X, Z: Sealed<F>, K: Sink<X>, E: Sink<X>, R: Threads + Sync>(
    rt: &'a R,
    alloc: Global,
    request: &'a Request,
    opened: &'a [Opened<F, Z>],
    located: &'a [Option<Located>],
    from: u32,
    to: u32,
    found: u32,
    jobs: &mut [ReadJob<F, Z>],
    stock: &mut ReadStock<F, Z>,
    joined: &mut Vec<u8>,
    output: &mut K,
    report: &mut E,
) -> Result<u32, Halt<F, X>>
where
    requires located { AreLocatedIn opened.now (expand request.now) located.now }
    requires range { (from ≤ to) × (to ≤ length located.now) × (found ≤ from) }
    requires jobs { All (IsJob opened.now) jobs.old }
    requires stock { IsStock opened.now stock.old }
    ensures long { length jobs.new ≡ length jobs.old }
    ensures jobs { All (IsJob opened.now) jobs.new }
    ensures stock { IsStock opened.now stock.new }
    ensures round { IsRound opened.now (expand request.now) located.now from to found
        (sink_of K.Sink output) (sink_of E.Sink report) result }
{
    let other = alloc;
    let mut write = || -> Result<u32, Halt<F, X>>
        requires { IsStock opened.now stock.now × AreLocatedIn opened.now (expand request.now) located.now
            × ((from ≤ to) × (to ≤ length located.now) × (found ≤ from)) }
        ensures { IsStock opened.entry.now stock.exit.now
            × IsRound opened.entry.now (expand request.entry.now) located.entry.now from to found
            (object (K.taken output.entry.now) (K.taken output.exit.now) (K.faults output.entry.now) (K.faults output.exit.now))
            (object (E.taken report.entry.now) (E.taken report.exit.now) (E.faults report.entry.now) (E.faults report.exit.now)) result }
    {
        answer_some(
            other, request, opened, located, from, to, found, stock, joined, output, report,
        )
    };
    read_beside(rt, alloc, opened, jobs, &mut write)
}

/// Has the jobs read the fields of the keys from this number on, as many as they may have, and tells the first key that is
/// left: a later one, if there is one.
fn dealt<F: Send + Drop, Z: Sealed<F>>(
    located: &[Option<Located>],
    from: u32,
    jobs: &mut [ReadJob<F, Z>],
) -> u32
    requires from { from ≤ length located.now }
    requires few { length located.now < 2 ^ 32 }
    ensures on { from ≤ result }
    ensures up { from < length located.now → from < result }
    ensures to { result ≤ length located.now }
    ensures long { length jobs.new ≡ length jobs.old }
    ensures jobs { (os : List Open) → AreIn os located.now → All (IsJob os) jobs.old → All (IsJob os) jobs.new }
{
    let after = deal(located, from as usize, jobs);
    after.max(from as usize + 1).min(located.len()) as u32
}

/// Answers the keys of a request in rounds: while those of a round are answered, the threads of the jobs read the fields of
/// the next one, and check them.
fn answer_rounds<F: Send + Drop, X, Z: Sealed<F>, K: Sink<X>, E: Sink<X>, R: Threads + Sync>(
    rt: &R,
    alloc: Global,
    request: &Request,
    opened: &[Opened<F, Z>],
    located: &[Option<Located>],
    jobs: &mut [ReadJob<F, Z>],
    stock: &mut ReadStock<F, Z>,
    joined: &mut Vec<u8>,
    output: &mut K,
    report: &mut E,
) -> Result<(u32, u32), Halt<F, X>>
where
    requires located { AreLocatedIn opened.now (expand request.now) located.now }
    requires jobs { All (IsJob opened.now) jobs.old }
    requires stock { IsStock opened.now stock.old }
    ensures whole { IsWhole opened.now (expand request.now) located.now (sink_of K.Sink output) (sink_of E.Sink report) result }
{
    let count = request.count();
    let mut found = 0;
    let mut done = 0;
    let mut next = count.min(1);
    'rounds: while done < count {
        let after = dealt(located, next, jobs);
        match answer_round(
            rt, alloc, request, opened, located, done, next, found, jobs, stock, joined, output,
            report,
        ) {
            Ok(more) => found = more,
            Err(halt) => return Err(halt),
        }
        stock.refill(jobs);
        done = next;
        next = after;
    }
    Ok((found, count - found))
}

/// Writes what is found for each key of a request, in its order, where it is located, tells each miss on the report, and
/// counts both. While the keys of a round are answered, so many threads read the fields of the next one, and check them.
pub fn answer_all<F: Send + Drop, X, Z: Sealed<F>, K: Sink<X>, E: Sink<X>, R: Threads + Sync>(
    rt: &R,
    alloc: Global,
    request: &Request,
    opened: &[Opened<F, Z>],
    located: &[Option<Located>],
    workers: u32,
    output: &mut K,
    report: &mut E,
) -> Result<(u32, u32), Halt<F, X>>
where
    requires count { length located.now ≡ length (expand request.now) }
    requires within { AreIn opened.now located.now }
    ensures whole { IsWhole opened.now (expand request.now) located.now (sink_of K.Sink output) (sink_of E.Sink report) result }
{
    let Ok(mut jobs) = jobs_for(alloc, workers) else {
        return Err(Halt::NoMemory);
    };
    let mut stock = Stock::new(alloc);
    let mut joined = room_for_joined(alloc);
    answer_rounds(
        rt,
        alloc,
        request,
        opened,
        located,
        &mut jobs,
        &mut stock,
        &mut joined,
        output,
        report,
    )
}
