// The commands over a stream.
ghost use Rattle.std.specs.Prelude.{◌≡◌};
ghost use Rattle.fd_words.specs.declared.command.Command.TheVariants.{Pick, Split};
ghost use Rattle.fd_outcome.specs.{Ran.{Ran}, Splitting.{split_line}, Told.{ToldOrNoMemory}};
ghost use Rattle.fd_objects.specs.Objects.{Over};
ghost use Rattle.fd_streams.specs.{Halted.{AreFew}, Streams.{listing_command}};

use crate::feeding::Stop;
use crate::listing::{Halt, list};
use crate::parting::{Tally, split_input};
use crate::picking::last_wanted;
use fd_io::{Sink, write_all};
use fd_key::Given;
use fd_objects::{Objects, World};
use fd_outcome::{
    Listing, tell, tell_input_failed, tell_no_memory, tell_output_failed, tell_refusal,
};
use fd_stored::Status;
use fd_words::Wanted;
use std::alloc::Global;

/// Runs `pick`.
pub fn pick<W: World>(objects: &mut Objects<W>, wanted: &Wanted) -> Status
    ensures ran { Over W.Store.Store W.Input.Source W.Output.Sink W.Report.Sink objects (Ran (Pick wanted.now) result) }
    ensures store { objects.new.store ≡ objects.old.store }
{
    let Ok(given) = Given::none(objects.alloc) else {
        return tell_no_memory(&mut objects.report);
    };
    match last_wanted(objects.alloc, wanted, &given, &mut objects.input) {
        Ok(last) => {
            if !last.found {
                return tell(&mut objects.report, "found 0 missed 1\n", Status::Missed);
            }
            match write_all(&mut objects.output, &last.octets) {
                Ok(()) => tell(&mut objects.report, "found 1 missed 0\n", Status::Done),
                Err(_) => tell_output_failed(&mut objects.report),
            }
        }
        Err(Stop::Fault(_)) => tell_input_failed(&mut objects.report),
        Err(Stop::Refused(refusal)) => tell_refusal(objects.alloc, &mut objects.report, refusal),
        Err(Stop::NoMemory) => tell_no_memory(&mut objects.report),
    }
}

/// Runs a command that lists its input.
pub fn write_list<W: World>(objects: &mut Objects<W>, listing: Listing) -> Status
    requires { AreFew listing }
    ensures ran { Over W.Store.Store W.Input.Source W.Output.Sink W.Report.Sink objects (Ran (listing_command listing) result) }
    ensures store { objects.new.store ≡ objects.old.store }
{
    match list(
        objects.alloc,
        listing,
        &mut objects.input,
        &mut objects.output,
    ) {
        Ok(()) => Status::Done,
        Err(Halt::Unread(_)) => tell_input_failed(&mut objects.report),
        Err(Halt::Unwritten(_)) => tell_output_failed(&mut objects.report),
        Err(Halt::Refused(refusal)) => tell_refusal(objects.alloc, &mut objects.report, refusal),
        Err(Halt::NoMemory) => tell_no_memory(&mut objects.report),
    }
}

/// Writes the line of a whole input that was split.
fn tell_split<X: Drop, E: Sink<X>>(alloc: Global, report: &mut E, tally: &Tally) -> Status
    ensures { ToldOrNoMemory Status.Done (split_line tally.now.fields tally.now.junk) result
        (E.taken report.old) (E.taken report.new) (E.faults report.old) (E.faults report.new) }
{
    let fields = tally.fields;
    let junk = tally.junk;
    match format!(in alloc; "split {fields} junk {junk}\n") {
        Ok(line) => tell(report, line.as_str(), Status::Done),
        Err(_) => tell_no_memory(report),
    }
}

/// Runs `split`: the output takes all fields of the input, each as a message of its own.
pub fn split<W: World>(objects: &mut Objects<W>) -> Status
    ensures ran { Over W.Store.Store W.Input.Source W.Output.Sink W.Report.Sink objects (Ran Split result) }
    ensures store { objects.new.store ≡ objects.old.store }
{
    match split_input(objects.alloc, &mut objects.input, &mut objects.output) {
        Ok(tally) => tell_split(objects.alloc, &mut objects.report, &tally),
        Err(Halt::Unread(_)) => tell_input_failed(&mut objects.report),
        Err(Halt::Unwritten(_)) => tell_output_failed(&mut objects.report),
        Err(Halt::Refused(refusal)) => tell_refusal(objects.alloc, &mut objects.report, refusal),
        Err(Halt::NoMemory) => tell_no_memory(&mut objects.report),
    }
}
