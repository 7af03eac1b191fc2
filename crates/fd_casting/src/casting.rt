// The steps of a script, one after the other.
ghost use Rattle.std.specs.Prelude.{◌≡◌, ◌<◌, ◌∷◌, ◌++◌, [], List, Some, IfErr, IfOk, OnOk, length, map, slice_get};
ghost use Rattle.fd_schema.specs.{Grammar.{IsSchema}, Reading.{seen_place}};
ghost use Rattle.fd_lanes.specs.Acts.{ArePlaces, LanesFit};
ghost use Rattle.fd_casting.specs.{Steps.{AreMessages, HasLines, Posed, all_posed, posed}, Miscasts.{Faults, NoneFails}, Done.{IsCourse, is_behind}};

use crate::fault::{CastFault, Miscast, Refusal};
use crate::judging::{Setting, judge};
use fd_bytes::{Bytes, Items, NoMemory};
use fd_key::Given;
use fd_schema::{Place, Schema};
use fd_script::{Lane, Script, Step};
use std::alloc::Global;

/// The places of the puts so far, or the lowest line so far that can't be done, and why.
#[derive(Drop)]
pub(crate) struct Course {
    pub(crate) places: Items<Place>,
    pub(crate) lowest: Option<(u32, Miscast)>,
}

/// Tells that a line needn't be looked at, since a lower one can't be done.
fn is_behind(line: u32, course: &Course) -> bool
    ensures { result ≡ is_behind line course.now.lowest }
{
    match course.lowest {
        Some((lowest, _)) => lowest <= line,
        None => false,
    }
}

/// Goes over a step.
fn cast_step(
    alloc: Global,
    setting: &Setting,
    given: &Given,
    step: &Step,
    line: u32,
    course: &mut Course,
) -> Result<(), NoMemory>
    requires schema { IsSchema setting.now.schema.now }
    requires messages { AreMessages setting.now.messages.now }
    ensures { OnOk result ((ps : List Posed) → IsCourse setting.now.schema.now setting.now.dataset.now setting.now.messages.now ps course.old → IsCourse setting.now.schema.now setting.now.dataset.now setting.now.messages.now (ps ++ record { given = given.now; step = step.now; line = line } ∷ []) course.new) }
{
    if is_behind(line, course) {
        return Ok(());
    }
    match judge(alloc, setting, given, step) {
        Ok(Some(place)) => course.places.push(place),
        Ok(None) => Ok(()),
        Err(Refusal::Miscast(kind)) => {
            course.lowest = Some((line, kind));
            Ok(())
        }
        Err(Refusal::NoMemory) => Err(NoMemory),
    }
}

/// Goes over the steps of the lane with a number, from 0.
fn cast_lane(
    alloc: Global,
    script: &Script,
    number: u32,
    schema: &Schema,
    messages: &[Bytes],
    course: &mut Course,
) -> Result<(), NoMemory>
    requires within { number < length script.now.lanes }
    requires schema { IsSchema schema.now }
    requires messages { AreMessages messages.now }
    ensures { OnOk result ((lane : Lane) → slice_get script.now.lanes number ≡ Some lane → HasLines lane × ((ps : List Posed) → IsCourse schema.now script.now.dataset messages.now ps course.old → IsCourse schema.now script.now.dataset messages.now (ps ++ posed lane.given lane.steps lane.lines) course.new)) }
{
    let lane = &script.lanes()[number as usize];
    let dataset = script.dataset();
    let setting = Setting {
        schema,
        dataset,
        messages,
    };
    let count = lane.steps.len();
    for i in 0..count {
        let line = script.line(number + 1, i as u32 + 1);
        let step = lane.steps.at(i);
        cast_step(alloc, &setting, &lane.given, step, line, course)?;
    }
    Ok(())
}

/// The places of a script's puts, lane by lane in the order of the script, by a schema and the messages of its stream. Each
/// step can then be done in the script's dataset: a put has a message, whose key has a place there, and so has each key of a
/// get.
///
/// `At` names the lowest line that can't be done, and the first reason of these: `Message`, where there is no message with
/// the put's number; `Key`, where the message has no key with the lane's pairs; `NoRule`, where no rule admits that key, or
/// one of the get's keys; `OtherDataset`, where the place of that key, or of one of these, is in another dataset.
pub fn cast(
    alloc: Global,
    script: &Script,
    schema: &Schema,
    messages: &[Bytes],
) -> Result<Items<Place>, CastFault>
    requires schema { IsSchema schema.now }
    requires messages { AreMessages messages.now }
    ensures places { IfOk result (λ v. ArePlaces schema.now messages.now script.now.lanes (map seen_place v)) }
    ensures fit { IfOk result (λ v. LanesFit schema.now messages.now script.now.dataset (map seen_place v) script.now.lanes) }
    ensures all { OnOk result (NoneFails schema.now script.now.dataset messages.now (all_posed script.now.lanes)) }
    ensures refused { IfErr result (Faults schema.now script.now.dataset messages.now script.now.lanes) }
{
    let mut course = Course {
        places: Items::new(alloc),
        lowest: None,
    };
    let count = script.lanes().len() as u32;
    for number in 0..count {
        cast_lane(alloc, script, number, schema, messages, &mut course)?;
    }
    match course.lowest {
        Some((line, kind)) => Err(CastFault::At { line, kind }),
        None => Ok(course.places),
    }
}
