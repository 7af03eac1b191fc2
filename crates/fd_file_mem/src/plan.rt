// Calls that are to fail.
ghost use Rattle.std.specs.Prelude.{◌≡◌, ◌++◌, [], ◌∷◌, ℕ, List, None, true, not, IfOk, OnOk, OnErr, string_bytes};
ghost use Rattle.fd_disk.specs.Reading.{raised};
ghost use Rattle.fd_file_mem.specs.Plans.{FailsByPlan, IsAnew, after_call, asked_for, asked_once, ending, fails_if, fails_of, file_text, is_due, is_planned, never_asked, same_op, table_text};

use crate::fuse::Fuse;
use fd_disk::{FileKind, FileName};
use std::alloc::{AllocError, Global};

/// A kind of call for which a fault can be planned. Making a table by `found` and a schema by `plant` is one `Create` of
/// the file, and no `Sync`.
#[derive(Clone, Copy, Debug, PartialEq, Eq)]
pub enum Op {
    /// A read, of the schema too.
    Read,
    /// A write.
    Write,
    /// A sync.
    Sync,
    /// The making of a file.
    Create,
}

/// A call that is to fail: the one of this kind with this number, from 1.
#[derive(Clone, Copy, Debug, PartialEq, Eq)]
pub struct Fail {
    /// The kind of the call.
    pub op: Op,
    /// Its number among the calls of this kind, from 1.
    pub nth: u32,
}

/// How many calls of each kind there were, up to 2^64 - 1.
#[derive(Clone, Copy, Debug, PartialEq, Eq)]
pub struct Asked {
    reads: u64,
    writes: u64,
    syncs: u64,
    creates: u64,
}

impl Asked {
    /// No call yet.
    const fn new() -> Asked
        ensures { result ≡ never_asked }
    {
        Asked {
            reads: 0,
            writes: 0,
            syncs: 0,
            creates: 0,
        }
    }

    // Counts a call, and gives its number.
    fn count(&mut self, op: Op) -> u64
        ensures number { result ≡ raised (asked_for op self.old) 1 }
        ensures asked { self.new ≡ asked_once op self.old }
    {
        match op {
            Op::Read => one_more(&mut self.reads),
            Op::Write => one_more(&mut self.writes),
            Op::Sync => one_more(&mut self.syncs),
            Op::Create => one_more(&mut self.creates),
        }
    }
}

// Counts one more, and gives the count.
fn one_more(count: &mut u64) -> u64
    ensures number { result ≡ raised count.old 1 }
    ensures count { count.new ≡ raised count.old 1 }
{
    *count = count.saturating_add(1);
    *count
}

/// The calls of one file that are to fail, counted from its opening.
#[derive(Drop)]
pub struct Plan {
    /// The calls that are to fail.
    pub fails: Vec<Fail>,
    /// How many calls there were.
    pub asked: Asked,
    /// Where its calls are counted with those of other objects.
    pub fuse: Fuse,
}

impl Plan {
    /// Plans nothing.
    pub fn new(alloc: Global, fuse: Fuse) -> Plan
        ensures { IsAnew [] fuse.allowed result }
    {
        Plan {
            fails: Vec::new(alloc),
            asked: Asked::new(),
            fuse,
        }
    }

    /// Plans one call more. After an error nothing has changed.
    pub fn add(&mut self, op: Op, nth: u32) -> Result<(), AllocError>
        ensures ok { OnOk result (self.new.fails.items ≡ self.old.fails.items ++ record { op = op; nth = nth } ∷ []) }
        ensures err { OnErr result (self.new.fails.items ≡ self.old.fails.items) }
        ensures asked { self.new.asked ≡ self.old.asked }
        ensures fuse { self.new.fuse.allowed ≡ self.old.fuse.allowed }
    {
        self.fails.push(Fail { op, nth })?;
        Ok(())
    }

    /// The same calls for a file that is opened once more.
    pub fn again(&self, alloc: Global) -> Result<Plan, AllocError>
        ensures { IfOk result (IsAnew self.now.fails.items self.now.fuse.allowed) }
    {
        Ok(Plan {
            fails: Vec::from_slice(alloc, &self.fails)?,
            asked: Asked::new(),
            fuse: self.fuse.shared()?,
        })
    }

    /// Counts a call, and says whether it is to fail.
    pub fn meets(&mut self, op: Op) -> bool
        ensures fails { FailsByPlan (is_due op self.old) self.old.fuse.allowed true (not result) result }
        ensures asked { self.new ≡ after_call op self.old }
    {
        let number = self.asked.count(op);
        let is_stopped = self.fuse.stops();
        is_stopped || is_planned(&self.fails, op, number)
    }

    /// Plans nothing any more, for calls that are counted anew.
    pub fn clear(&mut self)
        ensures { IsAnew [] None self.new }
    {
        self.fails.clear();
        self.asked = Asked::new();
        self.fuse.take_out();
    }
}

// Whether the call of this kind with this number is to fail.
fn is_planned(fails: &[Fail], op: Op, number: u64) -> bool
    ensures { result ≡ is_planned op number fails.now }
{
    match fails {
        [] => false,
        [fail, rest @ ..] => {
            (is_same(fail.op, op) && u64::from(fail.nth) == number) || is_planned(rest, op, number)
        }
    }
}

fn is_same(a: Op, b: Op) -> bool
    ensures { result ≡ same_op a b }
{
    match a {
        Op::Read => matches!(b, Op::Read),
        Op::Write => matches!(b, Op::Write),
        Op::Sync => matches!(b, Op::Sync),
        Op::Create => matches!(b, Op::Create),
    }
}

/// A call of a file that is to fail.
#[derive(Drop)]
pub struct Planned {
    /// The name of the file.
    pub file: String,
    /// The kind of the call.
    pub op: Op,
    /// Its number among the calls of this kind on this file, from 1.
    pub nth: u32,
}

/// The calls of all files that are to fail. A file's name is `DATASET/toc`, `DATASET/W-Q.fields` or `DATASET/W-Q.index`.
#[derive(Drop)]
pub struct Plans {
    /// The calls, in the order in which they were planned.
    pub items: Vec<Planned>,
    /// Where the calls of all files are counted together.
    pub fuse: Fuse,
}

impl Plans {
    /// Plans nothing.
    pub fn new(alloc: Global, fuse: Fuse) -> Plans
        ensures items { result.items.items ≡ [] }
        ensures fuse { result.fuse.allowed ≡ fuse.allowed }
    {
        Plans {
            items: Vec::new(alloc),
            fuse,
        }
    }

    /// Puts a call behind the others. After `NoMemory` nothing has changed.
    pub fn add(&mut self, alloc: Global, file: &str, op: Op, nth: u32) -> Result<(), AllocError>
        ensures ok { OnOk result ((other : List ℕ) → fails_of other self.new.items.items ≡ fails_of other self.old.items.items ++ fails_if other file.now op nth) }
        ensures err { OnErr result (self.new.items.items ≡ self.old.items.items) }
        ensures fuse { self.new.fuse.allowed ≡ self.old.fuse.allowed }
    {
        let file = String::from_str(alloc, file)?;
        self.items.push(Planned { file, op, nth })?;
        Ok(())
    }

    /// The same for one object more.
    pub fn again(&self, alloc: Global) -> Result<Plans, AllocError>
        ensures items { IfOk result (λ p. (file : List ℕ) → fails_of file p.items.items ≡ fails_of file self.now.items.items) }
        ensures fuse { IfOk result (λ p. p.fuse.allowed ≡ self.now.fuse.allowed) }
    {
        let mut plans = Plans::new(alloc, self.fuse.shared()?);
        copy_all(alloc, &self.items, &mut plans)?;
        Ok(plans)
    }

    /// Plans nothing any more.
    pub fn clear(&mut self)
        ensures items { self.new.items.items ≡ [] }
        ensures fuse { self.new.fuse.allowed ≡ None }
    {
        self.items.clear();
        self.fuse.take_out();
    }

    /// Those of a dataset's table.
    pub fn of_table(&self, alloc: Global, dataset: &str) -> Result<Plan, AllocError>
        ensures { IfOk result (IsAnew (fails_of (table_text dataset.now) self.now.items.items) self.now.fuse.allowed) }
    {
        let text = format!(in alloc; "{dataset}/toc")?;
        self.of(alloc, text.as_str())
    }

    /// Those of a file of a dataset.
    pub fn of_file(&self, alloc: Global, dataset: &str, file: FileName) -> Result<Plan, AllocError>
        ensures { IfOk result (IsAnew (fails_of (file_text dataset.now file) self.now.items.items) self.now.fuse.allowed) }
    {
        let text = text_of(alloc, dataset, file)?;
        self.of(alloc, text.as_str())
    }

    fn of(&self, alloc: Global, file: &str) -> Result<Plan, AllocError>
        ensures { IfOk result (IsAnew (fails_of file.now self.now.items.items) self.now.fuse.allowed) }
    {
        let mut plan = Plan::new(alloc, self.fuse.shared()?);
        gather(&self.items, file, &mut plan)?;
        Ok(plan)
    }
}

// Puts these calls behind those of the plans.
fn copy_all(alloc: Global, items: &[Planned], plans: &mut Plans) -> Result<(), AllocError>
    ensures items { OnOk result ((file : List ℕ) → fails_of file plans.new.items.items ≡ fails_of file plans.old.items.items ++ fails_of file items.now) }
    ensures fuse { plans.new.fuse.allowed ≡ plans.old.fuse.allowed }
{
    match items {
        [] => Ok(()),
        [planned, rest @ ..] => {
            plans.add(alloc, planned.file.as_str(), planned.op, planned.nth)?;
            copy_all(alloc, rest, plans)
        }
    }
}

// Puts the calls of this file behind those of the plan.
fn gather(items: &[Planned], file: &str, plan: &mut Plan) -> Result<(), AllocError>
    ensures fails { OnOk result (plan.new.fails.items ≡ plan.old.fails.items ++ fails_of file.now items.now) }
    ensures asked { plan.new.asked ≡ plan.old.asked }
    ensures fuse { plan.new.fuse.allowed ≡ plan.old.fuse.allowed }
{
    match items {
        [] => Ok(()),
        [planned, rest @ ..] => {
            if planned.file.as_str() == file {
                plan.add(planned.op, planned.nth)?;
            }
            gather(rest, file, plan)
        }
    }
}

/// The text by which a plan names a file of a dataset.
pub fn text_of(alloc: Global, dataset: &str, file: FileName) -> Result<String, AllocError>
    ensures { IfOk result (λ s. string_bytes s ≡ file_text dataset.now file) }
{
    let (writer, seq, kind) = (file.writer, file.seq, ending(file.kind));
    let text = format!(in alloc; "{dataset}/{writer}-{seq}.{kind}")?;
    Ok(text)
}

fn ending(kind: FileKind) -> &'static str
    ensures { result.now ≡ ending kind }
{
    match kind {
        FileKind::Fields => "fields",
        FileKind::Index => "index",
    }
}
