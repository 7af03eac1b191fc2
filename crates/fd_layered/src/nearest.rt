// Where the newest fields of a request's keys stand, each in the nearest of its datasets that has it.
ghost use Rattle.std.specs.Prelude.{◌≡◌, ◌≤◌, IfOk, IfErr};
ghost use Rattle.fd_retrieve.specs.Located.{OnLost};
ghost use Rattle.fd_answering.specs.Damages.{IsDamagedAt};
ghost use Rattle.fd_layered.specs.{Chains.{first_some, firsts}, Finding.{AreNearest}};

use fd_bytes::NoMemory;
use fd_disk::Sealed;
use fd_finding::Finder;
use fd_io::Gate;
use fd_retrieve::{Located, Lost, Opened, locate};
use fd_schema::Place;
use std::alloc::Global;
use std::sync::Wait;
use std::thread::Threads;

/// The first that is located.
fn first_of(chain: &[Option<Located>]) -> Option<Located>
    ensures { result ≡ first_some chain.now }
{
    for i in 0..chain.len() {
        if chain[i].is_some() {
            return chain[i];
        }
    }
    None
}

/// Of each so many the first that is located, so often.
fn firsts_of(
    alloc: Global,
    located: &[Option<Located>],
    width: usize,
    count: u32,
) -> Result<Vec<Option<Located>>, NoMemory>
    ensures { IfOk result (λ v. v.items ≡ firsts width count located.now) }
{
    let mut all = Vec::new(alloc);
    let mut rest = located;
    for _i in 0..count {
        let (chain, others) = rest.split_at(width.min(rest.len()));
        all.push(first_of(chain))?;
        rest = others;
    }
    Ok(all)
}

/// Finds where the newest bytes of each key stand: of so many places behind one another those of the first whose dataset has
/// the key. All keys of one dataset are looked for at once, by the finder's workers.
pub(crate) fn locate_over<F: Send + Drop, Z: Sealed<F>, G: Gate, R: Threads + Wait + Sync>(
    finder: &Finder<'_, G, R>,
    opened: &[Opened<F, Z>],
    places: &[Place],
    width: usize,
    count: u32,
) -> Result<Vec<Option<Located>>, Lost<F>>
where
    requires workers { (1 ≤ finder.now.workers) × (finder.now.workers ≤ 8) }
    ensures located { IfOk result (λ v. AreNearest opened.now places.now width count v.items) }
    ensures damaged { IfErr result (λ e. OnLost e (IsDamagedAt opened.now)) }
{
    match locate(finder, opened, places) {
        Ok(located) => match firsts_of(finder.alloc, &located, width, count) {
            Ok(nearest) => Ok(nearest),
            Err(NoMemory) => Err(Lost::NoMemory),
        },
        Err(lost) => Err(lost),
    }
}
