//! Boards and their passes.
ghost use Rattle.std.specs.Prelude.{◌≡◌, ◌<◌, [], ◌∷◌, MatchResult};
ghost use mathlib.Core.List.{IsPrefix};
ghost use Rattle.fd_turn.specs.{declared.view.Turn.TheVariants.{Away}, declared.view.Lock.TheVariants.{Free}, Views.{all_parts}, Steps.{slots_out, Accounts}};

use crate::handed::{Guarded, Handed};
use crate::rule::{BoardRule, Slot};
use crate::view::SeatView;
use atomic_table::{Closed, Refused, Seat, Table};
use fd_bytes::NoMemory;
use std::alloc::Global;
use std::snapshot::Snapshot;

mod locking;
mod looking;
mod passes;

// How often a caller that waits tries again at once, before it sleeps or gives the processor away.
const SPINS: u32 = 64;

/// A value that readers get copies of, and a state that one owner at a time has.
///
/// The board is shared by `&`, also among threads. It ends by `close`, which hands both back. It can be dropped only
/// where its state can.
pub struct Board<V: Handed, W: Guarded> {
    table: Table<Slot<V, W>, SeatView, Snapshot<W>, BoardRule, Global>,
    ghost words: { table.shared.table_id.words ≡ 3 },
    ghost slots: { table.shared.table_id.slots ≡ 2 },
}

/// A caller's place at a board.
///
/// Contracts see what it knows: a history, parts, an amount, doubts, the length of the list that the board began with,
/// the board's subject, whether the board's state tells its contents, and whether it is the owner. All passes of a board have 2^32 parts together, and each has one
/// at least. A pass that is dropped takes its parts with it, and then none has every part any more; a dropped owner
/// leaves the lock taken.
#[derive(Drop)]
pub struct Pass<V, W> {
    seat: Seat<Slot<V, W>, SeatView>,
    ghost away: { seat.me.0.turn ≡ Away },
    ghost compared: { seat.me.0.told ≡ [] },
    ghost some_parts: { 0 < seat.me.0.parts },
    ghost out: { seat.me.1 ≡ slots_out seat.me.0.lock },
}

impl<V: Handed, W: Guarded + Drop> Drop for Board<V, W> {
    fn drop(self) {
        let Board { table } = self;
        drop(table);
    }
}

impl<V: Handed, W: Guarded> Board<V, W> {
    ghost use Rattle.std.specs.Prelude.{◌+◌, length, Some, None, IfOk, IfErr, Contains};
    ghost use Rattle.fd_entries.specs.declared.batch.Listing.{Listing};
    ghost use Rattle.fd_turn.specs.{Views.{first_view}, Passes.{view, identity, IsOf}};

    /// A board with this value and this state, which are about one subject, and its one pass: it has their list as
    /// its history, their subject, whether the state tells its contents, every part, the amount 0 and no doubts. Where
    /// there is no memory, both come back.
    pub fn start(
        alloc: Global,
        first: V,
        state: W,
    ) -> Result<(Board<V, W>, Pass<V, W>), (V, W, NoMemory)>
        requires same { V.list first ≡ W.list state }
        requires subject { V.subject first ≡ W.subject state }
        requires sure { W.doubt state ≡ None }
        ensures own { IfOk result (λ r. IsOf (identity r.0) r.1) }
        ensures view { IfOk result (λ r. view r.1 ≡ first_view (W.subject state) (W.told state) (W.list state)) }
        ensures back { IfErr result (λ e. (e.0 ≡ first) × (e.1 ≡ state)) }
    {
        let about = Snapshot::of(&state);
        let slots = filled_slots(alloc, first, state)?;
        match Table::new(alloc, &[0, 0, 0], slots, &about) {
            Ok((table, seat)) => Ok((Board { table }, Pass { seat })),
            Err(Refused { slots }) => Err(emptied_slots(slots)),
        }
    }

    /// Ends the board, by a pass that has every part, and hands the value and the state back. Both have one list. It
    /// begins with the pass's history, and has as many listings as the board began with and the pass's amount
    /// together. A listing in doubt of the state is among the pass's doubts. Both are about the pass's subject, and
    /// the state tells its contents where the pass says so, and only there.
    pub fn close(self, pass: Pass<V, W>) -> (V, W)
        requires own { IsOf (identity self) pass }
        requires free { (view pass).lock ≡ Free }
        requires all { (view pass).parts ≡ all_parts }
        ensures same { V.list result.0 ≡ W.list result.1 }
        ensures seen { IsPrefix (view pass).history (V.list result.0) }
        ensures count { length (V.list result.0) ≡ (view pass).opening + (view pass).amount }
        ensures doubt { (l : Listing) → W.doubt result.1 ≡ Some l → Contains (view pass).doubts l }
        ensures subject { (V.subject result.0 ≡ (view pass).subject) × (W.subject result.1 ≡ (view pass).subject) }
        ensures told { W.told result.1 ≡ (view pass).told }
    {
        let Board { table } = self;
        let Pass { seat } = pass;
        let (value, state) = last_slots(table, seat);
        let Slot::Value(value) = value else {
            unreachable!()
        };
        let Slot::Locked(state) = state else {
            unreachable!()
        };
        (value, state)
    }
}

// What the two slots of a table hold at its end.
fn last_slots<V: Handed, W: Guarded>(
    table: Table<Slot<V, W>, SeatView, Snapshot<W>, BoardRule, Global>,
    seat: Seat<Slot<V, W>, SeatView>,
) -> (Slot<V, W>, Slot<V, W>)
    requires sizes { (table.shared.table_id.words ≡ 3) × (table.shared.table_id.slots ≡ 2) }
    requires own { seat.table_id ≡ table.shared.table_id }
    requires rests { (seat.me.0.turn ≡ Away) × (seat.me.0.lock ≡ Free) }
    requires all { seat.me.0.parts ≡ all_parts }
    ensures { (x : V) × (y : W) × (result.0 ≡ Slot.Value x) × (result.1 ≡ Slot.Locked y) × (V.list x ≡ W.list y) × IsPrefix seat.me.0.history (V.list x) × Accounts seat.me.0 (V.list x) (W.doubt y) × (V.subject x ≡ seat.me.0.subject.text) × (W.subject y ≡ seat.me.0.subject.text) × (W.told y ≡ seat.me.0.subject.told) }
{
    let mut closed = table.close_with(seat);
    let value = closed.take(0);
    let state = closed.take(1);
    closed.free();
    (value, state)
}

// The two slots of a table.
fn filled_slots<V, W>(
    alloc: Global,
    first: V,
    state: W,
) -> Result<Vec<Slot<V, W>>, (V, W, NoMemory)>
    ensures { MatchResult result (λ v. v.items ≡ Slot.Value first ∷ Slot.Locked state ∷ []) (λ e. (e.0 ≡ first) × (e.1 ≡ state)) }
{
    let mut slots = Vec::new(alloc);
    if slots.reserve(2).is_err() {
        slots.destroy_empty();
        return Err((first, state, NoMemory));
    }
    slots.push_reserved(Slot::Value(first));
    slots.push_reserved(Slot::Locked(state));
    Ok(slots)
}

// What the two slots of a table hold that could not be made.
fn emptied_slots<V, W>(mut slots: Vec<Slot<V, W>>) -> (V, W, NoMemory)
    requires { (x : V) × (y : W) × (slots.items ≡ Slot.Value x ∷ Slot.Locked y ∷ []) }
    ensures { slots.items ≡ Slot.Value result.0 ∷ Slot.Locked result.1 ∷ [] }
{
    let Some(last) = slots.pop() else {
        unreachable!()
    };
    let Some(first) = slots.pop() else {
        unreachable!()
    };
    slots.destroy_empty();
    let Slot::Locked(state) = last else {
        unreachable!()
    };
    let Slot::Value(value) = first else {
        unreachable!()
    };
    (value, state, NoMemory)
}
