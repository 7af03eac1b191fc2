// What is told of the keys that were found: their cubes as lines, or why there are none.
ghost use Rattle.std.specs.{Prelude.{◌≡◌, ◌≤◌, ◌≢◌, IfOk, MatchOption, None, Some, length}, List.{All, AllPairs}};
ghost use Rattle.fd_request.specs.Grammar.{is_range_word};
ghost use Rattle.fd_spelling.specs.Texts.{texts};
ghost use Rattle.fd_cubes.specs.Cubes.{IsAskable};
ghost use Rattle.fd_stored.specs.Causes as causes;
ghost use Rattle.fd_outcome.specs.{Cubing.{first_ranged, is_ranged, keys_refusal}, Told.{ToldOrNoMemory}};
ghost use Rattle.fd_stored.specs.Causes.{telling};
ghost use Rattle.fd_objects.specs.Given.{sink_of};
ghost use Rattle.fd_contents.specs.{Cubing.{AreCubes}, Told.{ToldKeys, ToldLines}};

use fd_bytes::NoMemory;
use fd_cubes::{cubes, lines_of};
use fd_inventory::{Found, write_lines};
use fd_io::Sink;
use fd_key::Key;
use fd_listing::TextFault;
use fd_outcome::{tell_limit, tell_no_memory, tell_output_failed, tell_text};
use fd_stored::Status;
use std::alloc::Global;

/// How many keys a request may have.
const MOST_KEYS: usize = 262_144;

/// Tells that a text is a word of ranges.
fn is_range_word(text: &str) -> bool
    ensures { result ≡ is_range_word text.now }
{
    text == "to" || text == "by"
}

/// Tells that one of the values is a word of ranges.
fn is_ranged(key: &Key) -> bool
    ensures { result ≡ is_ranged key.now }
{
    for i in 0..key.len() {
        let (_, value) = key.pair(i);
        if is_range_word(value) {
            return true;
        }
    }
    false
}

/// The first key that has such a value.
fn first_ranged(keys: &[Key]) -> Option<&Key>
    ensures { MatchOption result (first_ranged keys.now ≡ None) (λ k. first_ranged keys.now ≡ Some k.now) }
{
    for key in keys {
        if is_ranged(key) {
            return Some(key);
        }
    }
    None
}

/// Writes the line of a key that no request can name.
fn tell_no_request<X: Drop, E: Sink<X>>(alloc: Global, report: &mut E, key: &Key) -> Status
    ensures { ToldOrNoMemory (telling (causes.NoRequest key.now)).status (telling (causes.NoRequest key.now)).line result
        (E.taken report.old) (E.taken report.new) (E.faults report.old) (E.faults report.new) }
{
    match key.text(alloc) {
        Ok(text) => tell_text(
            alloc,
            report,
            "refused NoRequest ",
            text.as_str(),
            Status::Refused,
        ),
        Err(_) => tell_no_memory(report),
    }
}

/// The texts of the cubes of keys, in byte order.
fn lines_of_keys(alloc: Global, keys: &[Key]) -> Result<Vec<String>, NoMemory>
    requires askable { All IsAskable keys.now }
    requires distinct { AllPairs (λ a b. a ≢ b) keys.now }
    requires few { length keys.now ≤ 262144 }
    ensures { IfOk result (λ v. AreCubes keys.now (texts v.items)) }
{
    let found = cubes(alloc, keys)?;
    lines_of(alloc, &found)
}

/// Writes lines, and on the report only what ends them early.
fn print_lines<X: Drop, K: Sink<X>, E: Sink<X>>(
    alloc: Global,
    lines: &[String],
    output: &mut K,
    report: &mut E,
) -> Status
    ensures { ToldLines result (sink_of K.Sink output) (sink_of E.Sink report) (texts lines.now) }
{
    match write_lines(alloc, lines, output) {
        Ok(()) => Status::Done,
        Err(TextFault::Write(_)) => tell_output_failed(report),
        Err(TextFault::NoMemory) => tell_no_memory(report),
    }
}

/// Writes the cubes of keys that a request can name.
fn print_cubes<X: Drop, K: Sink<X>, E: Sink<X>>(
    alloc: Global,
    keys: &[Key],
    output: &mut K,
    report: &mut E,
) -> Status
    requires askable { All IsAskable keys.now }
    requires distinct { AllPairs (λ a b. a ≢ b) keys.now }
    requires few { length keys.now ≤ 262144 }
    requires none { keys_refusal keys.now ≡ None }
    ensures { ToldKeys result (sink_of K.Sink output) (sink_of E.Sink report) keys.now }
{
    match lines_of_keys(alloc, keys) {
        Ok(lines) => print_lines(alloc, &lines, output, report),
        Err(_) => tell_no_memory(report),
    }
}

/// Writes the cubes of the keys that were found, or why there are none: more than a request may have, or the first of them that
/// no request can name.
pub(crate) fn tell_keys<X: Drop, K: Sink<X>, E: Sink<X>>(
    alloc: Global,
    found: &Found,
    output: &mut K,
    report: &mut E,
) -> Status
    ensures { ToldKeys result (sink_of K.Sink output) (sink_of E.Sink report) found.now }
{
    let keys = found.keys();
    if keys.len() > MOST_KEYS {
        return tell_limit(alloc, report, "TooMany 262145");
    }
    match first_ranged(keys) {
        Some(key) => tell_no_request(alloc, report, key),
        None => print_cubes(alloc, keys, output, report),
    }
}
