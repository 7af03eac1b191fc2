//! The program `fdb`: a field database for GRIB 2. Its whole work is the call `fdb` of `fd_top`, which is
//! given its words, its store, its input and its outputs; `main` makes the real ones.
#![tactic(auto)]

ghost use Rattle.std.specs.{Prelude.{◌≡◌, false, IfOk, List, ℕ, drop, map}, String.{string_bytes}};
ghost use Rattle.fd_words.specs.Texts.{texts};

use fd_bytes::NoMemory;
use fd_disk::{Renew, Store};
use fd_disk_real::RealStore;
use fd_io::{Gate, StdStream};
use fd_objects::{Kinds, Objects};
use fd_outcome::tell_no_memory;
use fd_top::{ended, ran};
use std::alloc::Global;
use std::env;
use std::io::{Error, ErrorKind};
use std::process::ExitCode;
use std::sync::Wait;
use std::thread::Threads;

/// A gate that holds nobody back.
#[derive(Drop)]
struct Open;

impl Gate for Open {
    fn pass<R: Wait>(&self, _rt: &R, _lane: u32, _step: u32) {}
}

fn main(rt: HostRuntime) -> ExitCode {
    run(rt, &rt)
}

/// Runs the command that the program's words ask for, over the store in the folder that they name. The second handle is the
/// runtime again, as that of what may wait and start threads.
fn run<R: Threads + Wait + Sync>(rt: HostRuntime, waits: &R) -> ExitCode {
    let mut report = StdStream::new(rt.stderr());
    let Ok(texts) = arguments(&rt) else {
        return ended(tell_no_memory(&mut report));
    };
    let Ok(words) = words_of(rt.alloc(), &texts) else {
        return ended(tell_no_memory(&mut report));
    };
    let Ok(store) = RealStore::new(rt.alloc(), rt) else {
        return ended(tell_no_memory(&mut report));
    };
    let (_store, code) = serve(rt, waits, &words, store);
    code
}

/// Runs the command that the words ask for, over this store, and over standard input, output and error. Gives the store back. No
/// folder of the store is out, and none is out afterwards.
fn serve<F: Send + Drop, S: Store<F>, R: Threads + Wait + Sync>(
    rt: HostRuntime,
    waits: &R,
    words: &[&str],
    store: S,
) -> (S, ExitCode)
where
    S::Folder: Renew<F>,
    requires home { (name : List ℕ) → S.out store name ≡ false }
    ensures home { (name : List ℕ) → S.out result.0 name ≡ false }
{
    let mut objects = Objects::<Kinds<F, Error, S, _, _, _, _>> {
        alloc: rt.alloc(),
        store,
        input: StdStream::new(rt.stdin().lock()),
        output: StdStream::new(rt.stdout()),
        report: StdStream::new(rt.stderr()),
        gate: Open,
    };
    let code = ran(waits, &mut objects, words);
    let Objects {
        alloc: _alloc,
        store,
        input: _input,
        output: _output,
        report: _report,
        gate: _gate,
    } = objects;
    (store, code)
}

/// The program's arguments, its own name first, or none where one of them is no text, as no command has such a word.
fn arguments(rt: &HostRuntime) -> Result<Vec<String>, NoMemory> {
    let mut texts = Vec::new(rt.alloc());
    let arguments = match env::args(rt) {
        Ok(arguments) => arguments,
        Err(error) => {
            if error.kind() == ErrorKind::OutOfMemory {
                return Err(NoMemory);
            }
            return Ok(texts);
        }
    };
    for argument in arguments {
        texts.push(argument)?;
    }
    Ok(texts)
}

/// The words behind the program's own name.
fn words_of<'a>(alloc: Global, arguments: &'a [String]) -> Result<Vec<&'a str>, NoMemory>
    ensures { IfOk result (λ v. texts v.items ≡ drop 1 (map string_bytes arguments.entry.now)) }
{
    let mut words = Vec::new(alloc);
    let [_, rest @ ..] = arguments else {
        return Ok(words);
    };
    for text in rest {
        words.push(text.as_str())?;
    }
    Ok(words)
}
