ghost use Rattle.std.specs.Prelude.{◌≡◌, ◌≤◌, ◌+◌, ◌++◌, ◌&&◌, not, false, [], ◌∷◌, OnOk, OnErr, IfOk, IfSome, IfNone};
ghost use Rattle.fd_entries.specs.Table.{header};
ghost use Rattle.fd_machine.specs.{World.{World}, Machine.{start, put_seen, after, code, is_in_phase, writer_of}, Took.{IsAt, took_of}, declared.machine.Step.TheVariants.{Look}};

use crate::writers::place;
use crate::{Files, Phase, Seen, Took, Writers};
use fd_bytes::{Bytes, Items, NoMemory};
use fd_disk::{File, Ranges};
use fd_entries::{Batch, Entry};
use std::alloc::Global;
use std::marker::Model;

/// The state of the machine. It has been reached by some list of steps.
#[derive(Drop)]
pub struct State {
    pub table: File,
    pub files: Files,
    pub history: Items<Batch>,
    pub writers: Writers,
    pub owner: Option<u32>,
    pub doubt: Option<Entry>,
    pub readers: Items<Seen>,
    pub down: bool,
}

impl Model for State {
    ghost use Rattle.fd_machine.specs.{World.{World}, Took.{IsReached}};

    ghost Value = { World };

    ghost view = { λ a. record { table = a.table; files = a.files; history = a.history; writers = a.writers; owner = a.owner; doubt = a.doubt; readers = a.readers; down = a.down } };

    ghost invariant = { λ a. IsReached (record { table = a.table; files = a.files; history = a.history; writers = a.writers; owner = a.owner; doubt = a.doubt; readers = a.readers; down = a.down }) };
}

impl State {
    /// The table is founded, and nothing has happened yet.
    pub fn start(alloc: Global) -> Result<State, NoMemory>
        ensures { IfOk result (λ s. s ≡ start) }
    {
        let firm = founded(alloc)?;
        let reads = founded(alloc)?;
        Ok(State {
            table: File {
                firm,
                reads,
                loose: Ranges::new(alloc),
            },
            files: Files::new(alloc),
            history: Items::new(alloc),
            writers: Writers::new(alloc),
            owner: None,
            doubt: None,
            readers: Items::new(alloc),
            down: false,
        })
    }

    /// The place of a writer that has come to this phase, which isn't the first, while the machine is up.
    pub fn ready(&self, w: u32, phase: Phase) -> Option<usize>
        requires { 1 ≤ code phase }
        ensures some { IfSome result (λ i. IsAt self.now w i phase) }
        ensures none { IfNone result ((not self.now.down && is_in_phase (writer_of self.now w) phase) ≡ false) }
    {
        if self.down {
            return None;
        }
        let i = place(&self.writers, w)?;
        if self.writers.at(i).is_in(phase) {
            Some(i)
        } else {
            None
        }
    }
}

/// The header of the dataset with no name, and a closed gate.
fn founded(alloc: Global) -> Result<Bytes, NoMemory>
    ensures { IfOk result (λ b. b ≡ header [] ++ 0 ∷ []) }
{
    let mut bytes = Bytes::from_slice(alloc, b"FDTOC001")?;
    for _zero in 0..313usize {
        bytes.push(0)?;
    }
    Ok(bytes)
}

/// The reader has seen what is listed now.
pub fn look(state: &mut State, r: u32) -> Result<Took, NoMemory>
    ensures took { IfOk result (λ t. t ≡ took_of state.old (Look r)) }
    ensures ok { OnOk result (state.new ≡ after state.old (Look r)) }
    ensures err { OnErr result (state.new ≡ state.old) }
{
    if state.down {
        return Ok(Took::No);
    }
    let n = state.history.len() as u32;
    see(&mut state.readers, r, n)?;
    Ok(Took::Yes)
}

fn see(readers: &mut Items<Seen>, r: u32, n: u32) -> Result<(), NoMemory>
    ensures ok { OnOk result (readers.new ≡ put_seen readers.old r n) }
    ensures err { OnErr result (readers.new ≡ readers.old) }
{
    for i in 0..readers.len() {
        if readers.at(i).reader == r {
            readers.set(
                i,
                Seen {
                    reader: r,
                    length: n,
                },
            );
            return Ok(());
        }
    }
    readers.push(Seen {
        reader: r,
        length: n,
    })
}
