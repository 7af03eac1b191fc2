// The answer of a request, key by key.
ghost use Rattle.std.specs.Prelude.{◌≡◌, ◌≤◌, ◌<◌, ◌+◌, ◌-◌, ◌^◌, ◌++◌, List, ℕ, Option, codes, Some, length, slice_get, IfOk, IfErr, IfSome, OnOk};
ghost use Rattle.fd_bytes.specs.Causes.{Rose};
ghost use Rattle.fd_io.specs.Streams.{Takes, TakesFront};
ghost use Rattle.fd_key.specs.Pairs as keys;
ghost use Rattle.fd_key.specs.Pairs.{key_text};
ghost use Rattle.fd_listing.specs.Lines.{line};
ghost use Rattle.fd_request.specs.Expansion.{expand};
ghost use Rattle.fd_objects.specs.Given.{sink_of};
ghost use Rattle.fd_ahead.specs.{Places.{IsIn}, Reading.{IsStock}};
ghost use Rattle.fd_answering.specs.{Damages.{IsDamagedAt}, Located.{AreLocatedIn, IsAt}, Finding.{IsOne, IsOneInPart, OnDamaged, OnUnwritten, TookSome, one_if}, Rounds.{IsRound, IsStep}};

use crate::datasets::write_found;
use fd_ahead::{Located, Opened, ReadStock};
use fd_disk::Sealed;
use fd_io::{Sink, write_all};
use fd_request::Request;
use fd_retriever::{FetchFault, Got};
use fd_segment::Damage;
use std::alloc::Global;

/// Why an answer ended early.
#[derive(Drop)]
pub enum Halt<F, X> {
    /// A call of the store failed.
    Disk(F),
    /// A write of the output failed.
    Unwritten(X),
    /// A write of the report failed.
    Untold(X),
    /// This is damaged in the dataset with this number.
    Damaged(usize, Damage),
    /// An allocation was refused.
    NoMemory,
}

/// Tells on the report that a key isn't there.
fn tell_miss<F: Send, X, E: Sink<X>>(
    alloc: Global,
    request: &Request,
    number: u32,
    report: &mut E,
) -> Result<(), Halt<F, X>>
    requires { number < length (expand request.now) }
    ensures took { OnOk result ((key : List keys.Pair) → slice_get (expand request.now) number ≡ Some key
        → Takes (E.taken report.old) (E.taken report.new) (line (codes "miss " ++ key_text key))) }
    ensures front { IfErr result (λ e. (key : List keys.Pair) → slice_get (expand request.now) number ≡ Some key
        → TakesFront (E.taken report.old) (E.taken report.new) (line (codes "miss " ++ key_text key))) }
    ensures count { E.faults report.old ≤ E.faults report.new }
    ensures cause { IfErr result (λ e. OnUnwritten e ⊥ (Rose (E.faults report.old) (E.faults report.new))) }
    ensures whole { IfErr result (λ e. OnDamaged e (λ n d. ⊥)) }
    ensures grew { TookSome (E.taken report.old) (E.taken report.new) }
{
    let Ok(key) = request.key(alloc, number) else {
        return Err(Halt::NoMemory);
    };
    let Ok(text) = key.text(alloc) else {
        return Err(Halt::NoMemory);
    };
    let Ok(line) = format!(in alloc; "miss {text}\n") else {
        return Err(Halt::NoMemory);
    };
    match write_all(report, line.as_bytes()) {
        Ok(()) => Ok(()),
        Err(fault) => Err(Halt::Untold(fault)),
    }
}

/// A damage, with where it was met: in the dataset of what was located.
fn damaged_at<F, X>(located: Option<Located>, damage: Damage) -> Halt<F, X>
    requires { (l : Located) × (located ≡ Some l) }
    ensures damaged { OnDamaged result (λ n d. (l : Located) × (located ≡ Some l) × (n ≡ l.number) × (d ≡ damage)) }
    ensures cause { OnUnwritten result ⊥ ⊥ }
{
    let Some(located) = located else {
        unreachable!()
    };
    Halt::Damaged(located.number, damage)
}

/// Writes what is found for a key of a request, where it is located, or tells on the report that it isn't there, and tells
/// which.
fn answer_one<F: Send + Drop, X, Z: Sealed<F>, K: Sink<X>, E: Sink<X>>(
    alloc: Global,
    request: &Request,
    number: u32,
    opened: &[Opened<F, Z>],
    located: Option<Located>,
    stock: &mut ReadStock<F, Z>,
    output: &mut K,
    report: &mut E,
) -> Result<bool, Halt<F, X>>
where
    requires number { number < length (expand request.now) }
    requires within { IfSome located (IsIn opened.now) }
    requires stock { IsStock opened.now stock.old }
    ensures stock { IsStock opened.now stock.new }
    ensures one { IfOk result (λ is_found. (bytes : Option (List ℕ)) (key : List keys.Pair) → IsAt opened.now bytes located
        → slice_get (expand request.now) number ≡ Some key
        → IsOne bytes key is_found (K.taken output.old) (K.taken output.new) (E.taken report.old) (E.taken report.new)) }
    ensures halted { IfErr result (λ e. (bytes : Option (List ℕ)) (key : List keys.Pair) → IsAt opened.now bytes located
        → slice_get (expand request.now) number ≡ Some key
        → IsOneInPart bytes key (K.taken output.old) (K.taken output.new) (E.taken report.old) (E.taken report.new)) }
    ensures output { K.faults output.old ≤ K.faults output.new }
    ensures calm { OnOk result (K.faults output.new ≡ K.faults output.old) }
    ensures report { E.faults report.old ≤ E.faults report.new }
    ensures cause { IfErr result (λ e. OnUnwritten e (Rose (K.faults output.old) (K.faults output.new))
        (Rose (E.faults report.old) (E.faults report.new))) }
    ensures damaged { IfErr result (λ e. OnDamaged e (IsDamagedAt opened.now)) }
    ensures grew { TookSome (E.taken report.old) (E.taken report.new) }
{
    match write_found(alloc, opened, located, stock, output) {
        Ok(Got::Found(_)) => Ok(true),
        Ok(Got::Miss) => match tell_miss(alloc, request, number, report) {
            Ok(()) => Ok(false),
            Err(halt) => Err(halt),
        },
        Err(FetchFault::Disk(fault)) => Err(Halt::Disk(fault)),
        Err(FetchFault::Write(fault)) => Err(Halt::Unwritten(fault)),
        Err(FetchFault::Damaged(damage)) => Err(damaged_at(located, damage)),
        Err(FetchFault::NoMemory) => Err(Halt::NoMemory),
    }
}

/// Counts a key that was found.
fn one_more_if(found: u32, is_found: bool) -> u32
    requires { found < 2 ^ 32 - 1 }
    ensures { result ≡ found + one_if is_found }
{
    if is_found { found + 1 } else { found }
}

/// Writes what is found for the key with a number, where it is located, or tells on the report that it isn't there, and
/// counts it with those that were found before.
fn answer_counted<F: Send + Drop, X, Z: Sealed<F>, K: Sink<X>, E: Sink<X>>(
    alloc: Global,
    request: &Request,
    number: u32,
    opened: &[Opened<F, Z>],
    located: &[Option<Located>],
    found: u32,
    stock: &mut ReadStock<F, Z>,
    output: &mut K,
    report: &mut E,
) -> Result<u32, Halt<F, X>>
where
    requires located { AreLocatedIn opened.now (expand request.now) located.now }
    requires stock { IsStock opened.now stock.old }
    requires range { (number < length located.now) × (number < 2 ^ 32 - 1) × (found ≤ number) }
    ensures stock { IsStock opened.now stock.new }
    ensures round { IsRound opened.now (expand request.now) located.now number (number + 1) found (sink_of K.Sink output) (sink_of E.Sink report) result }
{
    let one = located[number as usize];
    match answer_one(alloc, request, number, opened, one, stock, output, report) {
        Ok(is_found) => Ok(one_more_if(found, is_found)),
        Err(halt) => Err(halt),
    }
}

/// Answers keys of a request from one number on, at most up to another: those whose fields were read ahead and come next, by
/// one write of them all, as far as there is room to join them; where there are none, the first key alone. Tells the number
/// of the next key, and how many were found with those that were found before.
fn answer_next<F: Send + Drop, X, Z: Sealed<F>, K: Sink<X>, E: Sink<X>>(
    alloc: Global,
    request: &Request,
    opened: &[Opened<F, Z>],
    located: &[Option<Located>],
    from: u32,
    to: u32,
    found: u32,
    stock: &mut ReadStock<F, Z>,
    joined: &mut Vec<u8>,
    output: &mut K,
    report: &mut E,
) -> Result<(u32, u32), Halt<F, X>>
where
    requires located { AreLocatedIn opened.now (expand request.now) located.now }
    requires stock { IsStock opened.now stock.old }
    requires range { (from < to) × (to ≤ length located.now) × (found ≤ from) }
    ensures stock { IsStock opened.now stock.new }
    ensures step { IsStep opened.now (expand request.now) located.now from to found (sink_of K.Sink output) (sink_of E.Sink report) result }
{
    joined.clear();
    let count = stock.gather(located, from as usize, to as usize, joined) as u32;
    if count == 0 {
        return match answer_counted(
            alloc, request, from, opened, located, found, stock, output, report,
        ) {
            Ok(more) => Ok((from + 1, more)),
            Err(halt) => Err(halt),
        };
    }
    match write_all(output, joined.as_slice()) {
        Ok(()) => Ok((from + count, found + count)),
        Err(fault) => Err(Halt::Unwritten(fault)),
    }
}

/// Writes what is found for each key of a request from one number up to another, in its order, where it is located, tells
/// each miss on the report, and counts with those that were found before. The bytes of fields that were read ahead are joined
/// in a list, as far as it has room, and written at once.
pub(crate) fn answer_some<F: Send + Drop, X, Z: Sealed<F>, K: Sink<X>, E: Sink<X>>(
    alloc: Global,
    request: &Request,
    opened: &[Opened<F, Z>],
    located: &[Option<Located>],
    from: u32,
    to: u32,
    found: u32,
    stock: &mut ReadStock<F, Z>,
    joined: &mut Vec<u8>,
    output: &mut K,
    report: &mut E,
) -> Result<u32, Halt<F, X>>
where
    requires located { AreLocatedIn opened.now (expand request.now) located.now }
    requires stock { IsStock opened.now stock.old }
    requires range { (from ≤ to) × (to ≤ length located.now) × (found ≤ from) }
    ensures stock { IsStock opened.now stock.new }
    ensures round { IsRound opened.now (expand request.now) located.now from to found
        (sink_of K.Sink output) (sink_of E.Sink report) result }
{
    let mut found = found;
    let mut done = from;
    'steps: while done < to {
        match answer_next(
            alloc, request, opened, located, done, to, found, stock, joined, output, report,
        ) {
            Ok((next, more)) => {
                done = next;
                found = more;
            }
            Err(halt) => return Err(halt),
        }
    }
    Ok(found)
}
