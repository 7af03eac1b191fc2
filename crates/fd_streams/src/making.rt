// `generate`.
ghost use Rattle.std.specs.Prelude.{◌≡◌, ◌≤◌, IfErr, OnErr, OnOk};
ghost use Rattle.fd_bytes.specs.Causes.{Rose};
ghost use Rattle.fd_io.specs.Streams.{Takes, TakesFront};
ghost use Rattle.fd_words.specs.declared.command.Command.TheVariants.{Generate};
ghost use Rattle.fd_outcome.specs.{Outcome.{generated_messages}, Ran.{Ran}};
ghost use Rattle.fd_objects.specs.Objects.{Over};
ghost use Rattle.fd_streams.specs.Generating.{OnUnwritten};

use fd_gen::generated;
use fd_io::{Sink, write_all};
use fd_objects::{Objects, World};
use fd_outcome::{tell_no_memory, tell_output_failed};
use fd_stored::Status;
use std::alloc::Global;

/// Why not all messages were written.
#[derive(Drop)]
pub enum Unmade<X> {
    /// A write failed.
    Unwritten(X),
    /// An allocation was refused.
    NoMemory,
}

/// Writes the first so many generated messages, one after the other.
fn write_generated<X: Drop, K: Sink<X>>(
    alloc: Global,
    count: u32,
    output: &mut K,
) -> Result<(), Unmade<X>>
    requires few { count ≤ 100000 }
    ensures whole { OnOk result (Takes (K.taken output.old) (K.taken output.new) (generated_messages count)) }
    ensures front { OnErr result (TakesFront (K.taken output.old) (K.taken output.new) (generated_messages count)) }
    ensures calm { OnOk result (K.faults output.new ≡ K.faults output.old) }
    ensures cause { IfErr result (λ e. OnUnwritten e (Rose (K.faults output.old) (K.faults output.new))) }
{
    for i in 0..count {
        let Ok(message) = generated(alloc, i as u64) else {
            return Err(Unmade::NoMemory);
        };
        if let Err(fault) = write_all(output, &message) {
            return Err(Unmade::Unwritten(fault));
        }
    }
    Ok(())
}

/// Runs `generate`: the output takes the messages, and neither input nor store is asked.
pub fn generate<W: World>(objects: &mut Objects<W>, count: u32) -> Status
    requires few { count ≤ 100000 }
    ensures ran { Over W.Store.Store W.Input.Source W.Output.Sink W.Report.Sink objects (Ran (Generate count) result) }
    ensures store { objects.new.store ≡ objects.old.store }
    ensures input { objects.new.input ≡ objects.old.input }
{
    match write_generated(objects.alloc, count, &mut objects.output) {
        Ok(()) => Status::Done,
        Err(Unmade::Unwritten(_)) => tell_output_failed(&mut objects.report),
        Err(Unmade::NoMemory) => tell_no_memory(&mut objects.report),
    }
}
