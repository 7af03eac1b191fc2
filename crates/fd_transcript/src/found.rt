// The messages that were found.
ghost use Rattle.std.specs.Prelude.{◌≡◌, OnErr, OnOk, flat_map};
ghost use Rattle.fd_bytes.specs.Causes.{Rose};
ghost use Rattle.fd_io.specs.Streams.{Takes, TakesFront};
ghost use Rattle.fd_transcript.specs.Lines.{answer_found, answers_of, found_bytes, lane_found};

use fd_core::Answer;
use fd_io::{Sink, write_all};
use fd_lanes::{End, Transcript};

/// Writes what was found for a key.
fn write_answer<X, K: Sink<X>>(answer: &Answer, output: &mut K) -> Result<(), X>
    ensures took { OnOk result (Takes (K.taken output.old) (K.taken output.new) (answer_found answer.now)) }
    ensures front { OnErr result (TakesFront (K.taken output.old) (K.taken output.new) (answer_found answer.now)) }
    ensures calm { OnOk result (K.faults output.new ≡ K.faults output.old) }
    ensures cause { OnErr result (Rose (K.faults output.old) (K.faults output.new)) }
{
    match answer {
        Answer::Found(bytes) => write_all(output, bytes.as_slice()),
        Answer::Miss => Ok(()),
    }
}

/// Writes what was found for keys.
fn write_answers<X, K: Sink<X>>(answers: &[Answer], output: &mut K) -> Result<(), X>
    ensures took { OnOk result (Takes (K.taken output.old) (K.taken output.new) (flat_map answer_found answers.now)) }
    ensures front { OnErr result (TakesFront (K.taken output.old) (K.taken output.new) (flat_map answer_found answers.now)) }
    ensures calm { OnOk result (K.faults output.new ≡ K.faults output.old) }
    ensures cause { OnErr result (Rose (K.faults output.old) (K.faults output.new)) }
{
    for answer in answers {
        match write_answer(answer, output) {
            Ok(()) => {}
            Err(fault) => return Err(fault),
        }
    }
    Ok(())
}

/// Writes what a get found.
fn write_end<F, X, K: Sink<X>>(end: &End<F>, output: &mut K) -> Result<(), X>
    ensures took { OnOk result (Takes (K.taken output.old) (K.taken output.new) (flat_map answer_found (answers_of end.now))) }
    ensures front { OnErr result (TakesFront (K.taken output.old) (K.taken output.new) (flat_map answer_found (answers_of end.now))) }
    ensures calm { OnOk result (K.faults output.new ≡ K.faults output.old) }
    ensures cause { OnErr result (Rose (K.faults output.old) (K.faults output.new)) }
{
    match end {
        End::Got { seen: _, answers } => write_answers(answers.as_slice(), output),
        _ => Ok(()),
    }
}

/// Writes what the gets of a lane found.
fn write_lane<F, X, K: Sink<X>>(ends: &[End<F>], output: &mut K) -> Result<(), X>
    ensures took { OnOk result (Takes (K.taken output.old) (K.taken output.new) (lane_found ends.now)) }
    ensures front { OnErr result (TakesFront (K.taken output.old) (K.taken output.new) (lane_found ends.now)) }
    ensures calm { OnOk result (K.faults output.new ≡ K.faults output.old) }
    ensures cause { OnErr result (Rose (K.faults output.old) (K.faults output.new)) }
{
    for end in ends {
        match write_end(end, output) {
            Ok(()) => {}
            Err(fault) => return Err(fault),
        }
    }
    Ok(())
}

/// Writes the messages that the gets of a session found, in the order in which its transcript tells them.
///
/// A fault comes only where the sink's count of faults rose. After it a front of the messages was taken.
pub fn write_found<F, X, K: Sink<X>>(transcript: &Transcript<F>, output: &mut K) -> Result<(), X>
    ensures took { OnOk result (Takes (K.taken output.old) (K.taken output.new) (found_bytes transcript.now.lanes)) }
    ensures front { OnErr result (TakesFront (K.taken output.old) (K.taken output.new) (found_bytes transcript.now.lanes)) }
    ensures calm { OnOk result (K.faults output.new ≡ K.faults output.old) }
    ensures cause { OnErr result (Rose (K.faults output.old) (K.faults output.new)) }
{
    let lanes = transcript.lanes.as_slice();
    for ends in lanes {
        match write_lane(ends.as_slice(), output) {
            Ok(()) => {}
            Err(fault) => return Err(fault),
        }
    }
    Ok(())
}
