//! A board over a small list of entries, which two lanes list in threads.
ghost use Rattle.std.specs.Prelude.{◌≡◌, ◌<◌, true, None, IfOk, IfSome, ◌++◌, [], ◌∷◌, length};
ghost use Rattle.fd_store_tests.specs.{Lanes.{IsLane}, Rows.{untold, all_untold}};
ghost use Rattle.fd_turn.specs.{Views.{first_view}, Passes.{identity, view, IsOf}};

use fd_bytes::NoMemory;
use fd_entries::Entry;
use fd_turn::{Board, Guarded, Handed, Pass};
use std::alloc::Global;
use std::sync::Wait;
use std::thread;
use std::thread::{Threads, join_mut};

/// A value: the entries that readers see.
#[derive(Drop)]
struct Row {
    entries: Vec<Entry>,
}

impl Handed for Row {
    ghost list = { λ r. all_untold r.entries.items };

    ghost subject = { λ r. [] };

    fn again(&self, alloc: Global) -> Result<Row, NoMemory> {
        Ok(Row {
            entries: self.entries.to_vec(alloc)?,
        })
    }
}

/// A state: the entries, of which none is in doubt.
#[derive(Drop)]
struct Desk {
    entries: Vec<Entry>,
}

impl Guarded for Desk {
    ghost list = { λ d. all_untold d.entries.items };

    ghost doubt = { λ d. None };

    ghost subject = { λ d. [] };

    ghost told = { λ d. true };
}

fn entry(seq: u32) -> Entry {
    Entry {
        writer: 1,
        seq,
        fields: 1,
        index_len: 4120,
        fields_len: 183,
        digest: None,
    }
}

// The entries with one more.
fn longer(alloc: Global, entries: &[Entry], entry: Entry) -> Result<Vec<Entry>, NoMemory>
    ensures { IfOk result (λ v. all_untold v.items ≡ all_untold entries.now ++ untold entry ∷ []) }
{
    let mut all = Vec::new(alloc);
    all.extend_from_slice(entries)?;
    all.push(entry)?;
    Ok(all)
}

// The entries with one more, twice, where there is room in a table.
fn longer_twice(alloc: Global, entries: &[Entry], entry: Entry) -> Option<(Vec<Entry>, Vec<Entry>)>
    ensures room { IfSome result (λ _. length entries.now < 65535) }
    ensures own { IfSome result (λ r. all_untold r.0.items ≡ all_untold entries.now ++ untold entry ∷ []) }
    ensures shown { IfSome result (λ r. all_untold r.1.items ≡ all_untold entries.now ++ untold entry ∷ []) }
{
    if entries.len() >= 65535 {
        return None;
    }
    let own = longer(alloc, entries, entry).ok()?;
    let shown = longer(alloc, entries, entry).ok()?;
    Some((own, shown))
}

// A board of two empty lists.
fn empty_board(alloc: Global) -> Option<(Board<Row, Desk>, Pass<Row, Desk>)>
    ensures own { IfSome result (λ r. IsOf (identity r.0) r.1) }
    ensures view { IfSome result (λ r. view r.1 ≡ first_view [] true []) }
{
    let first = Row {
        entries: Vec::new(alloc),
    };
    let state = Desk {
        entries: Vec::new(alloc),
    };
    Board::start(alloc, first, state).ok()
}

// Lets others run for a while, so that one who waits for the lock falls asleep.
fn let_others_run() {
    for _ in 0..300u32 {
        thread::yield_now();
    }
}

// Lists one entry more, as the owner.
fn list_one<R: Wait>(
    rt: &R,
    alloc: Global,
    board: &Board<Row, Desk>,
    pass: &mut Pass<Row, Desk>,
    seq: u32,
)
    requires { IsLane (identity board.now) pass.old }
    ensures { IsLane (identity board.now) pass.new }
{
    let mut desk = board.lock(rt, pass);
    let_others_run();
    if let Some((own, shown)) = longer_twice(alloc, &desk.entries, entry(seq)) {
        desk.entries = own;
        board.post(rt, pass, Row { entries: shown });
    }
    board.unlock(pass, desk);
}

// Each lane lists one entry, in a thread of its own.
fn list_in_threads<R: Threads + Wait + Sync>(
    rt: &R,
    alloc: Global,
    board: &Board<Row, Desk>,
    first: &mut Pass<Row, Desk>,
    second: &mut Pass<Row, Desk>,
)
    requires { IsLane (identity board.now) first.old × IsLane (identity board.now) second.old }
    ensures { IsLane (identity board.now) first.new × IsLane (identity board.now) second.new }
{
    join_mut(
        rt,
        &mut || list_one(rt, alloc, board, first, 0),
        &mut || list_one(rt, alloc, board, second, 1),
    );
}

// Tells that both lanes' entries are there, in either order.
fn has_both(entries: &[Entry]) -> bool {
    entries == [entry(0), entry(1)].as_slice() || entries == [entry(1), entry(0)].as_slice()
}

// What a reader sees once both lanes have listed an entry side by side, and what the board has at its end.
fn listed_by_two<R: Threads + Wait + Sync>(rt: &R, alloc: Global) -> Option<(Row, Row, Desk)> {
    let (board, mut pass) = empty_board(alloc)?;
    let mut first = board.split(&mut pass);
    let mut second = board.split(&mut pass);
    list_in_threads(rt, alloc, &board, &mut first, &mut second);
    board.join(&mut pass, first);
    board.join(&mut pass, second);
    let seen = board.look(rt, alloc, &mut pass);
    let (row, desk) = board.close(pass);
    Some((seen.ok()?, row, desk))
}

#[test]
fn two_lanes_list_side_by_side(rt: HostRuntime) {
    let Some((seen, row, desk)) = listed_by_two(&rt, rt.alloc()) else {
        panic!(rt; "there is memory")
    };
    assert!(rt; has_both(&seen.entries) && has_both(&row.entries) && has_both(&desk.entries));
}
