// Scripts line by line.
ghost use Rattle.std.specs.{Prelude.{◌≡◌, ◌≤◌, ◌<◌, ◌+◌, ◌^◌, ◌∷◌, ◌++◌, [], List, ℕ, Option, Some, None, Result, Err, IfOk, IsSome, length, string_bytes}, List.{AllZip, list_any}, Str.{bytes_eq}};
ghost use Rattle.fd_key.specs.Given.{given_of};
ghost use Rattle.fd_request.specs.Limits.{request_of};
ghost use Rattle.fd_script.specs.{Grammar.{Group, dataset_in, few_or, given_wrong, is_messages, lane_wrong, lanes_from, last_lane, line_wrong, or_dataset, request_wrong, said_wrong, script_from, step_wrong, task_wrong, unended, unless_wrong}, Lines.{lines_of, said}, Scripts.{IsWithin}, Growing.{IsShort, after_said, onto_last}, Reading.{Gives, IsLane, IsRead, IsStep, Judges, Refuses, dataset_bytes, seen_said, seen_task}};
ghost use Rattle.fd_script.specs.Grammar as grammar;
ghost use Rattle.fd_script.specs.Lines as lines;

use crate::fault::{Refusal, ScriptFault, ScriptKind};
use crate::lines::{first_line, line_text};
use crate::pairs::{is_dataset, is_lane_name, number_of};
use crate::script::{Lane, Script, Step};
use crate::words::{Said, Task, line_said};
use fd_bytes::Items;
use fd_key::{Given, GivenFault};
use fd_request::{Request, RequestFault};
use std::alloc::Global;

/// The most lanes.
const LANES: usize = 8;

/// The most steps of a lane.
const STEPS: usize = 4096;

/// What the lines so far say.
#[derive(Drop)]
pub(crate) struct Read {
    dataset: Option<String>,
    lanes: Vec<Lane>,
}

/// The pairs of a lane.
fn given_of(alloc: Global, pairs: &str) -> Result<Given, Refusal>
    requires { length pairs.now < 2 ^ 31 }
    ensures wrong { Judges result (given_wrong (given_of pairs.now)) }
    ensures given { IfOk result (λ g. given_of pairs.now ≡ Ok g) }
{
    match Given::read(alloc, pairs) {
        Ok(given) => Ok(given),
        Err(GivenFault::Pair { at }) => {
            Err(Refusal::Wrong(ScriptKind::Given(GivenFault::Pair { at })))
        }
        Err(GivenFault::Clash(name)) => {
            Err(Refusal::Wrong(ScriptKind::Given(GivenFault::Clash(name))))
        }
        Err(GivenFault::Twice(name)) => {
            Err(Refusal::Wrong(ScriptKind::Given(GivenFault::Twice(name))))
        }
        Err(GivenFault::NoMemory) => Err(Refusal::NoMemory),
    }
}

/// Tells that one of the lanes has this name.
fn has_lane(lanes: &[Lane], name: &str) -> bool
    ensures { result ≡ list_any (λ (l : Lane). bytes_eq name.now (string_bytes l.name)) lanes.now }
{
    lanes.iter().any(|lane| name == lane.name.as_str())
}

/// A lane begins.
fn begin_lane(
    alloc: Global,
    mut lanes: Vec<Lane>,
    name: &str,
    pairs: &str,
) -> Result<Vec<Lane>, Refusal>
    requires short { length pairs.now < 2 ^ 31 }
    requires within { IsWithin lanes.items }
    ensures within { IfOk result (λ v. IsWithin v.items) }
    ensures wrong { (gs : List Group) → AllZip IsLane lanes.items gs → Judges result (lane_wrong gs name.now pairs.now) }
    ensures lanes { (gs : List Group) → AllZip IsLane lanes.items gs → IfOk result (λ v. AllZip IsLane v.items (gs ++ record { name = name.now; pairs = pairs.now; steps = [] } ∷ [])) }
{
    if !is_lane_name(name.as_bytes()) {
        return Err(Refusal::Wrong(ScriptKind::Name));
    }
    if has_lane(&lanes, name) {
        return Err(Refusal::Wrong(ScriptKind::Name));
    }
    let given = match given_of(alloc, pairs) {
        Ok(given) => given,
        Err(refusal) => return Err(refusal),
    };
    if lanes.len() >= LANES {
        return Err(Refusal::Wrong(ScriptKind::TooMany { count: 9 }));
    }
    lanes.push(Lane {
        name: String::from_str(alloc, name)?,
        given,
        steps: Items::new(alloc),
        lines: Items::new(alloc),
    })?;
    Ok(lanes)
}

/// The request of a get.
fn request_of(alloc: Global, text: &str) -> Result<Request, Refusal>
    ensures wrong { Judges result (request_wrong (request_of text.now)) }
    ensures request { IfOk result (λ r. request_of text.now ≡ Ok r) }
{
    match Request::read(alloc, text.as_bytes()) {
        Ok(request) => Ok(request),
        Err(RequestFault::At { at, kind }) => Err(Refusal::Wrong(ScriptKind::Request(
            RequestFault::At { at, kind },
        ))),
        Err(RequestFault::NoMemory) => Err(Refusal::NoMemory),
    }
}

/// The step that is asked for.
fn step_of(alloc: Global, task: Task<'_>) -> Result<Step, Refusal>
    ensures wrong { Judges result (task_wrong (seen_task task.entry)) }
    ensures step { IfOk result (λ s. IsStep s (seen_task task.entry)) }
{
    match task {
        Task::Put(number) => match number_of(number.as_bytes()) {
            Some(number) => Ok(Step::Put(number)),
            None => Err(Refusal::Wrong(ScriptKind::Number)),
        },
        Task::Flush => Ok(Step::Flush),
        Task::Get(text) => match request_of(alloc, text) {
            Ok(request) => Ok(Step::Get(request)),
            Err(refusal) => Err(refusal),
        },
    }
}

/// A lane with one more step, which stands in this line.
fn with_step(lane: Lane, line: u32, step: Step) -> Result<Lane, Refusal>
    ensures wrong { Judges result (few_or (length lane.steps) 4096) }
    ensures lane { IfOk result (λ l. l ≡ record lane { steps = lane.steps ++ step ∷ []; lines = lane.lines ++ line ∷ [] }) }
{
    let Lane {
        name,
        given,
        mut steps,
        mut lines,
    } = lane;
    if steps.len() >= STEPS {
        return Err(Refusal::Wrong(ScriptKind::TooMany { count: 4097 }));
    }
    steps.push(step)?;
    lines.push(line)?;
    Ok(Lane {
        name,
        given,
        steps,
        lines,
    })
}

/// A step in this line, of the last lane.
fn add_step(
    alloc: Global,
    mut lanes: Vec<Lane>,
    line: u32,
    task: Task<'_>,
) -> Result<Vec<Lane>, Refusal>
    requires within { IsWithin lanes.items }
    ensures within { IfOk result (λ v. IsWithin v.items) }
    ensures wrong { (gs : List Group) → AllZip IsLane lanes.items gs → Judges result (step_wrong (last_lane gs) (seen_task task.entry)) }
    ensures lanes { (gs : List Group) → AllZip IsLane lanes.items gs → IfOk result (λ v. AllZip IsLane v.items (onto_last line (seen_task task.entry) gs)) }
{
    let lane = match lanes.pop() {
        Some(lane) => lane,
        None => return Err(Refusal::Wrong(ScriptKind::Word)),
    };
    let step = match step_of(alloc, task) {
        Ok(step) => step,
        Err(refusal) => return Err(refusal),
    };
    let lane = match with_step(lane, line, step) {
        Ok(lane) => lane,
        Err(refusal) => return Err(refusal),
    };
    lanes.push(lane)?;
    Ok(lanes)
}

/// The lanes behind one more line, which has this number.
fn lanes_behind(
    alloc: Global,
    lanes: Vec<Lane>,
    line: u32,
    said: Said<'_>,
) -> Result<Vec<Lane>, Refusal>
    requires short { IsShort (seen_said said) }
    requires within { IsWithin lanes.items }
    ensures within { IfOk result (λ v. IsWithin v.items) }
    ensures wrong { (d : List ℕ) (gs : List Group) → AllZip IsLane lanes.items gs → Judges result (said_wrong (Some d) gs (seen_said said.entry)) }
    ensures lanes { (gs : List Group) → AllZip IsLane lanes.items gs → IfOk result (λ v. AllZip IsLane v.items (after_said line (seen_said said.entry) gs)) }
    ensures dataset { IfOk result (λ v. or_dataset (seen_said said.entry) None ≡ None) }
{
    match said {
        Said::Silent => Ok(lanes),
        Said::Messages => Ok(lanes),
        Said::Dataset(_) => Err(Refusal::Wrong(ScriptKind::Word)),
        Said::Unknown => Err(Refusal::Wrong(ScriptKind::Word)),
        Said::Lane(name, pairs) => begin_lane(alloc, lanes, name, pairs),
        Said::Step(task) => add_step(alloc, lanes, line, task),
    }
}

/// The dataset that the first line names, unless it is silent.
fn first_said(alloc: Global, said: Said<'_>) -> Result<Option<String>, Refusal>
    ensures wrong { (gs : List Group) → Judges result (said_wrong None gs (seen_said said.entry)) }
    ensures dataset { IfOk result (λ o. dataset_bytes o ≡ or_dataset (seen_said said.entry) None) }
    ensures lanes { (n : ℕ) (gs : List Group) → IfOk result (λ o. after_said n (seen_said said.entry) gs ≡ gs) }
{
    match said {
        Said::Silent => Ok(None),
        Said::Dataset(text) => {
            if is_dataset(alloc, text)? {
                Ok(Some(String::from_str(alloc, text)?))
            } else {
                Err(Refusal::Wrong(ScriptKind::Dataset))
            }
        }
        Said::Lane(_, _) => Err(Refusal::Wrong(ScriptKind::Dataset)),
        Said::Step(_) => Err(Refusal::Wrong(ScriptKind::Dataset)),
        Said::Messages => Err(Refusal::Wrong(ScriptKind::Dataset)),
        Said::Unknown => Err(Refusal::Wrong(ScriptKind::Dataset)),
    }
}

impl Read {
    fn new(alloc: Global) -> Read
        ensures { IsRead result [] }
    {
        Read {
            dataset: None,
            lanes: Vec::new(alloc),
        }
    }

    /// What is said with one more line, which has this number.
    fn behind(self, alloc: Global, line: u32, said: Said<'_>) -> Result<Read, Refusal>
        requires short { IsShort (seen_said said) }
        requires within { IsWithin self.lanes.items }
        ensures wrong { (ls : List lines.Said) → IsRead self ls → Judges result (said_wrong (dataset_in ls) (lanes_from 1 ls) (seen_said said.entry)) }
        ensures next { (ls : List lines.Said) → IsRead self ls → line ≡ length ls + 1 → IfOk result (λ r. IsRead r (ls ++ seen_said said.entry ∷ [])) }
    {
        let Read { dataset, lanes } = self;
        match dataset {
            None => match first_said(alloc, said) {
                Ok(dataset) => Ok(Read { dataset, lanes }),
                Err(refusal) => Err(refusal),
            },
            Some(dataset) => match lanes_behind(alloc, lanes, line, said) {
                Ok(lanes) => Ok(Read {
                    dataset: Some(dataset),
                    lanes,
                }),
                Err(refusal) => Err(refusal),
            },
        }
    }

    /// What is said with one more line, which has this number, and whether that is `messages`.
    fn with_line(self, alloc: Global, number: u32, line: &[u8]) -> Result<(Read, bool), Refusal>
        requires short { length line.now ≤ 1048576 }
        requires within { IsWithin self.lanes.items }
        ensures wrong { (ls : List lines.Said) → IsRead self ls → Judges result (line_wrong ls line.now) }
        ensures next { (ls : List lines.Said) → IsRead self ls → number ≡ length ls + 1 → IfOk result (λ p. IsRead p.0 (ls ++ said line.now ∷ [])) }
        ensures ends { IfOk result (λ p. p.1 ≡ is_messages (said line.now)) }
    {
        let text = match line_text(line) {
            Ok(text) => text,
            Err(byte) => return Err(Refusal::Wrong(ScriptKind::Byte(byte))),
        };
        let said = line_said(text);
        let ends = is_messages(said);
        match self.behind(alloc, number, said) {
            Ok(read) => Ok((read, ends)),
            Err(refusal) => Err(refusal),
        }
    }

    /// The script, once `messages` was read.
    fn finish(self) -> Script
        requires named { IsSome self.dataset }
        requires within { IsWithin self.lanes.items }
        ensures dataset { Some result.dataset ≡ dataset_bytes self.dataset }
        ensures lanes { result.lanes ≡ self.lanes.items }
    {
        let Read { dataset, lanes } = self;
        match dataset {
            Some(dataset) => Script::of(dataset, lanes),
            None => unreachable!(),
        }
    }
}

/// Tells that a line is `messages`.
fn is_messages(said: Said<'_>) -> bool
    ensures { result ≡ is_messages (seen_said said.entry) }
{
    match said {
        Said::Messages => true,
        Said::Silent => false,
        Said::Dataset(_) => false,
        Said::Lane(_, _) => false,
        Said::Step(_) => false,
        Said::Unknown => false,
    }
}

/// What is wrong with a line that no line feed ends.
fn cut_short(number: u32, line: &[u8]) -> ScriptFault
    ensures { (ls : List lines.Said) → number ≡ length ls + 1 → Gives (Err (unended ls line.now)) (Err result) }
{
    let kind = match line_text(line) {
        Ok(_) => ScriptKind::End,
        Err(byte) => ScriptKind::Byte(byte),
    };
    ScriptFault::At { line: number, kind }
}

/// The fault that a refusal of a line is.
fn fault_at(number: u32, refusal: Refusal) -> ScriptFault
    ensures { (w : Option grammar.Wrong) (later : Result grammar.Script grammar.Fault) → Refuses refusal w → Gives (unless_wrong number w later) (Err result) }
{
    match refusal {
        Refusal::Wrong(kind) => ScriptFault::At { line: number, kind },
        Refusal::NoMemory => ScriptFault::NoMemory,
    }
}

/// The script of a text, and the place behind it.
pub(crate) fn read_lines(alloc: Global, text: &[u8]) -> Result<(Script, usize), ScriptFault>
    requires { length text.now ≤ 1048576 }
    ensures script { Gives (script_from 0 [] (lines_of text.now)) result }
    ensures place { IfOk result (λ p. p.1 ≤ length text.now) }
{
    let mut read = Read::new(alloc);
    let mut rest = text;
    let mut number = 1;
    'lines: loop {
        let (line, behind) = first_line(rest);
        match behind {
            None => return Err(cut_short(number, line)),
            Some(others) => match read.with_line(alloc, number, line) {
                Ok((next, ends)) => {
                    if ends {
                        return Ok((next.finish(), text.len() - others.len()));
                    }
                    read = next;
                    number += 1;
                    rest = others;
                }
                Err(refusal) => return Err(fault_at(number, refusal)),
            },
        }
    }
}
