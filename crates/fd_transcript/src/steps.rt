// The lines of steps.
ghost use Rattle.std.specs.Prelude.{◌≡◌, ◌++◌, OnErr, OnOk, flat_map, string_bytes};
ghost use Rattle.fd_io.specs.Streams.{TakesFront};
ghost use Rattle.fd_listing.specs.Sinks.{HasSinkCause, OnStarved, TakesAllBut};
ghost use Rattle.fd_transcript.specs.{Lines.{all_told, answer_line, answers_of, end_text, step_line, step_lines, told_from, word}, Starving.{TakesShort}};

use fd_bytes::{Items, NoMemory};
use fd_core::Answer;
use fd_io::Sink;
use fd_lanes::{End, Ends};
use fd_listing::{TextFault, write_many};
use fd_script::{Lane, Step};

/// The word of a step.
fn word(step: &Step) -> &'static str
    ensures { result.now ≡ word step.now }
{
    match step {
        Step::Put(_) => "put",
        Step::Flush => "flush",
        Step::Get(_) => "get",
    }
}

/// Appends how a step ended.
fn push_end<F>(lines: &mut String, step: &Step, end: &End<F>) -> Result<(), NoMemory>
    ensures { OnOk result (string_bytes lines.new ≡ string_bytes lines.old ++ end_text step.now end.now) }
{
    let word = word(step);
    match end {
        End::PutOk => lines.push_str("put ok")?,
        End::PutUnlisted => lines.push_str("put unlisted")?,
        End::Fault(_) => write!(lines, "{word} fault")?,
        End::Listed(number) => write!(lines, "flush {number}")?,
        End::Nothing => lines.push_str("flush nothing")?,
        End::TableFull => lines.push_str("flush table full")?,
        End::NoMemory => write!(lines, "{word} no memory")?,
        End::Damaged(_) => write!(lines, "{word} damaged")?,
        End::Got { seen, answers: _ } => write!(lines, "get {seen}")?,
    }
    Ok(())
}

/// Appends the line of a step.
fn push_step<F>(
    lines: &mut String,
    lane: &str,
    number: u64,
    step: &Step,
    end: &End<F>,
) -> Result<(), NoMemory>
    ensures { OnOk result (string_bytes lines.new ≡ string_bytes lines.old ++ step_line (record { lane = lane.now; number = number; step = step.now; end = end.now })) }
{
    write!(lines, "{lane} {number} ")?;
    push_end(lines, step, end)?;
    lines.push('\n')?;
    Ok(())
}

/// Appends the line of a key that was asked for.
fn push_answer(lines: &mut String, answer: &Answer) -> Result<(), NoMemory>
    ensures { OnOk result (string_bytes lines.new ≡ string_bytes lines.old ++ answer_line answer.now) }
{
    match answer {
        Answer::Found(bytes) => {
            let len = bytes.as_slice().len();
            write!(lines, "found {len}\n")?;
        }
        Answer::Miss => lines.push_str("miss\n")?,
    }
    Ok(())
}

/// The answers of a get.
fn answers_of<F>(end: &End<F>) -> &[Answer]
    ensures { result.now ≡ answers_of end.now }
{
    match end {
        End::Got { seen: _, answers } => answers.as_slice(),
        _ => &[],
    }
}

/// Writes the lines of the keys that were asked for, behind the lines that are held.
fn tell_answers<X, K: Sink<X>>(
    lines: &mut String,
    answers: &[Answer],
    sink: &mut K,
) -> Result<(), TextFault<X>>
    ensures took { OnOk result (TakesAllBut (K.taken sink.old) (K.taken sink.new) (string_bytes lines.old ++ flat_map answer_line answers.now) (string_bytes lines.new)) }
    ensures front { OnErr result (TakesFront (K.taken sink.old) (K.taken sink.new) (string_bytes lines.old ++ flat_map answer_line answers.now)) }
    ensures short { OnStarved result (TakesShort (K.taken sink.old) (K.taken sink.new) (string_bytes lines.old ++ flat_map answer_line answers.now)) }
    ensures cause { HasSinkCause result (K.faults sink.old) (K.faults sink.new) }
{
    for answer in answers {
        match push_answer(lines, answer) {
            Ok(()) => {}
            Err(NoMemory) => return Err(TextFault::NoMemory),
        }
        match write_many(lines, sink) {
            Ok(()) => {}
            Err(fault) => return Err(fault),
        }
    }
    Ok(())
}

/// Writes the lines of a step, behind the lines that are held.
fn tell_step<F, X, K: Sink<X>>(
    lines: &mut String,
    lane: &str,
    number: u64,
    step: &Step,
    end: &End<F>,
    sink: &mut K,
) -> Result<(), TextFault<X>>
    ensures took { OnOk result (TakesAllBut (K.taken sink.old) (K.taken sink.new) (string_bytes lines.old ++ step_lines (record { lane = lane.now; number = number; step = step.now; end = end.now })) (string_bytes lines.new)) }
    ensures front { OnErr result (TakesFront (K.taken sink.old) (K.taken sink.new) (string_bytes lines.old ++ step_lines (record { lane = lane.now; number = number; step = step.now; end = end.now }))) }
    ensures short { OnStarved result (TakesShort (K.taken sink.old) (K.taken sink.new) (string_bytes lines.old ++ step_lines (record { lane = lane.now; number = number; step = step.now; end = end.now }))) }
    ensures cause { HasSinkCause result (K.faults sink.old) (K.faults sink.new) }
{
    match push_step(lines, lane, number, step, end) {
        Ok(()) => {}
        Err(NoMemory) => return Err(TextFault::NoMemory),
    }
    match write_many(lines, sink) {
        Ok(()) => {}
        Err(fault) => return Err(fault),
    }
    tell_answers(lines, answers_of(end), sink)
}

/// Writes the lines of a lane's steps, behind the lines that are held.
fn tell_lane<F, X, K: Sink<X>>(
    lines: &mut String,
    lane: &Lane,
    ends: &Items<End<F>>,
    sink: &mut K,
) -> Result<(), TextFault<X>>
    ensures took { OnOk result (TakesAllBut (K.taken sink.old) (K.taken sink.new) (string_bytes lines.old ++ flat_map step_lines (told_from (string_bytes lane.now.name) 1 lane.now.steps ends.now)) (string_bytes lines.new)) }
    ensures front { OnErr result (TakesFront (K.taken sink.old) (K.taken sink.new) (string_bytes lines.old ++ flat_map step_lines (told_from (string_bytes lane.now.name) 1 lane.now.steps ends.now))) }
    ensures short { OnStarved result (TakesShort (K.taken sink.old) (K.taken sink.new) (string_bytes lines.old ++ flat_map step_lines (told_from (string_bytes lane.now.name) 1 lane.now.steps ends.now))) }
    ensures cause { HasSinkCause result (K.faults sink.old) (K.faults sink.new) }
{
    let name = lane.name.as_str();
    let count = lane.steps.len().min(ends.len());
    for i in 0..count {
        let step = lane.steps.at(i);
        let end = ends.at(i);
        match tell_step(lines, name, i as u64 + 1, step, end, sink) {
            Ok(()) => {}
            Err(fault) => return Err(fault),
        }
    }
    Ok(())
}

/// Writes the lines of all steps, behind the lines that are held.
pub(crate) fn tell_lanes<F, X, K: Sink<X>>(
    lines: &mut String,
    lanes: &[Lane],
    ends: &Ends<F>,
    sink: &mut K,
) -> Result<(), TextFault<X>>
    ensures took { OnOk result (TakesAllBut (K.taken sink.old) (K.taken sink.new) (string_bytes lines.old ++ flat_map step_lines (all_told lanes.now ends.now)) (string_bytes lines.new)) }
    ensures front { OnErr result (TakesFront (K.taken sink.old) (K.taken sink.new) (string_bytes lines.old ++ flat_map step_lines (all_told lanes.now ends.now))) }
    ensures short { OnStarved result (TakesShort (K.taken sink.old) (K.taken sink.new) (string_bytes lines.old ++ flat_map step_lines (all_told lanes.now ends.now))) }
    ensures cause { HasSinkCause result (K.faults sink.old) (K.faults sink.new) }
{
    let count = lanes.len().min(ends.len());
    for i in 0..count {
        match tell_lane(lines, &lanes[i], ends.at(i), sink) {
            Ok(()) => {}
            Err(fault) => return Err(fault),
        }
    }
    Ok(())
}
