ghost use Rattle.std.specs.Prelude.{◌≡◌, ◌≤◌, ◌&&◌, All, IfOk, length, nat_lt, not};
ghost use Rattle.fd_script.specs.{Scripts.{IsWithin, HasStep, HasLine}, Grammar.{front_of, has_messages, script_of}, Lines.{lines_of}, Reading.{Gives}};

use crate::fault::{ScriptFault, ScriptKind};
use crate::lines::has_messages;
use crate::reader::read_lines;
use fd_bytes::Items;
use fd_key::Given;
use fd_request::Request;
use std::alloc::Global;
use std::marker::Model;

/// The most bytes of a script.
const BYTES: usize = 1_048_576;

/// What a lane is to do.
#[derive(Drop)]
pub enum Step {
    /// Archives the message with this number, from 1.
    Put(u32),
    /// Flushes what the lane has put.
    Flush,
    /// Retrieves the keys of a request.
    Get(Request),
}

/// A lane: its name, the pairs that it gives to its messages, and its steps in order.
#[derive(Drop)]
pub struct Lane {
    /// The name.
    pub name: String,
    /// The pairs.
    pub given: Given,
    /// The steps.
    pub steps: Items<Step>,
    /// The line of each step, from 1.
    pub lines: Items<u32>,
}

/// A script: the text of its dataset, and at most 8 lanes of at most 4,096 steps each.
#[derive(Drop)]
pub struct Script {
    dataset: String,
    lanes: Vec<Lane>,
}

impl Model for Script {
    ghost use Rattle.std.specs.Prelude.{string_bytes};
    ghost use Rattle.fd_script.specs.Scripts.{Scripted, IsWithin};

    ghost Value = { Scripted };

    ghost view = { λ s. record { dataset = string_bytes s.dataset; lanes = s.lanes.items } };

    ghost invariant = { λ s. IsWithin s.lanes.items };
}

/// Where a script stands: the first bytes of the input.
fn front_of(text: &[u8]) -> &[u8]
    ensures front { result.now ≡ front_of text.now }
    ensures few { length result.now ≤ 1048576 }
    ensures within { length result.now ≤ length text.now }
{
    if BYTES < text.len() {
        let (front, _) = text.split_at(BYTES);
        front
    } else {
        text
    }
}

/// Tells that a text is too long, and that no line `messages` ends in its front.
fn is_too_long(text: &[u8], front: &[u8]) -> bool
    ensures { result ≡ (nat_lt 1048576 (length text.now) && not (has_messages (lines_of front.now))) }
{
    BYTES < text.len() && !has_messages(front)
}

impl Script {
    ghost use Rattle.std.specs.Prelude.{string_bytes};

    /// A script of these lanes.
    pub(crate) fn of(dataset: String, lanes: Vec<Lane>) -> Script
        requires { IsWithin lanes.items }
        ensures dataset { result.dataset ≡ string_bytes dataset }
        ensures lanes { result.lanes ≡ lanes.items }
    {
        Script { dataset, lanes }
    }

    /// Reads a script, and tells the place of the first byte behind it. A script is lines: `dataset TEXT`, the pairs of a
    /// dataset; then for each lane `lane NAME PAIRS` and its steps, `put NUMBER`, `flush` and `get REQUEST`; and `messages`,
    /// with which it ends. Empty lines, and lines that begin with `#`, say nothing.
    ///
    /// The answer `At` names the first line that is wrong.
    pub fn read(alloc: Global, text: &[u8]) -> Result<(Script, usize), ScriptFault>
        ensures script { Gives (script_of text.now) result }
        ensures place { IfOk result (λ p. p.1 ≤ length text.now) }
    {
        let front = front_of(text);
        if is_too_long(text, front) {
            return Err(ScriptFault::At {
                line: 1,
                kind: ScriptKind::TooLong,
            });
        }
        read_lines(alloc, front)
    }

    /// The text of the dataset.
    pub fn dataset(&self) -> &str
        ensures { result.now ≡ self.now.dataset }
    {
        self.dataset.as_str()
    }

    /// The lanes, in order.
    pub fn lanes(&self) -> &[Lane]
        ensures lanes { result.now ≡ self.now.lanes }
        ensures few { length self.now.lanes ≤ 8 }
        ensures short { All (λ l. length l.steps ≤ 4096) self.now.lanes }
    {
        &self.lanes
    }

    /// The line of a lane's step; lanes, steps and lines count from 1.
    pub fn line(&self, lane: u32, step: u32) -> u32
        requires { HasStep self.now lane step }
        ensures { HasLine self.now lane step result }
    {
        *self.lanes[(lane - 1) as usize]
            .lines
            .at((step - 1) as usize)
    }
}
