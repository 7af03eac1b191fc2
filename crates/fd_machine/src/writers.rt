ghost use Rattle.fd_machine.specs.{Machine.{filled, gone_to, writer_in}, Took.{IsPlace}, declared.machine.Writer.{Writer}, declared.machine.Phase.TheVariants.{Filling}};
ghost use Rattle.fd_entries.specs.declared.batch.Pair.{Pair};
ghost use Rattle.std.specs.Prelude.{◌≡◌, ◌<◌, ◌+◌, ◌^◌, ◌++◌, ◌∷◌, List, [], OnOk, OnErr, Some, IfSome, IfNone, length, slice_get, slice_set};

use crate::{Phase, Writer};
use fd_bytes::{Items, NoMemory};
use fd_entries::Pair;

/// The writers that have put something since the last opening.
pub type Writers = Items<Writer>;

/// The place of the writer with this number.
pub fn place(writers: &Writers, w: u32) -> Option<usize>
    ensures some { IfSome result (λ i. IsPlace writers.now w i) }
    ensures none { IfNone result ((o : Writer) → writer_in writers.now w o ≡ o) }
{
    for i in 0..writers.len() {
        if writers.at(i).id == w {
            return Some(i);
        }
    }
    None
}

/// The writer at this place goes on to a phase.
pub fn set_phase(writers: &mut Writers, i: usize, phase: Phase)
    requires { i < length writers.old }
    ensures { (x : Writer) → slice_get writers.old i ≡ Some x → writers.new ≡ slice_set writers.old i (gone_to x phase) }
{
    writers.at_mut(i).phase = phase;
}

/// The writer at this place begins its next batch.
pub fn begin_next(writers: &mut Writers, i: usize)
    requires inside { i < length writers.old }
    requires numbered { (x : Writer) → slice_get writers.old i ≡ Some x → x.seq + 1 < 2 ^ 32 }
    ensures { (x : Writer) → slice_get writers.old i ≡ Some x → writers.new ≡ slice_set writers.old i (record { id = x.id; pairs = []; phase = Filling; seq = x.seq + 1 }) }
{
    let writer = writers.at_mut(i);
    writer.pairs.clear();
    writer.phase = Phase::Filling;
    writer.seq += 1;
}

/// Appends a pair to the batch of the writer at this place. After `NoMemory` nothing has changed.
pub fn push_pair(writers: &mut Writers, i: usize, pair: Pair) -> Result<(), NoMemory>
    requires { i < length writers.old }
    ensures ok { OnOk result ((x : Writer) → slice_get writers.old i ≡ Some x → writers.new ≡ slice_set writers.old i (filled x (x.pairs ++ pair ∷ []))) }
    ensures err { OnErr result (writers.new ≡ writers.old) }
{
    writers.at_mut(i).pairs.push(pair)
}

/// Takes the last pair away from the batch of the writer at this place.
pub fn drop_pair(writers: &mut Writers, i: usize)
    requires { i < length writers.old }
    ensures { (x : Writer) (ps : List Pair) (p : Pair) → slice_get writers.old i ≡ Some x → x.pairs ≡ ps ++ p ∷ [] → writers.new ≡ slice_set writers.old i (filled x ps) }
{
    writers.at_mut(i).pairs.drop_last();
}
