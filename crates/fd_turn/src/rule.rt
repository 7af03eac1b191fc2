//! What the slots of a board's table hold, and the rule of the table.
use crate::handed::{Guarded, Handed};
use crate::view::SeatView;
use atomic_table::TableRule;
use std::snapshot::Snapshot;

/// What a slot holds: the value, the locked state, or nothing while these are out.
#[derive(Drop)]
pub enum Slot<V, W> {
    /// The value that readers get copies of.
    Value(V),
    /// The state that one owner at a time has.
    Locked(W),
    /// Nothing.
    Empty,
}

/// The rule over the words, the slots and what all seats know. The first seat knows the list and the subject of the first
/// state, and whether that tells its contents.
pub struct BoardRule;

impl<V: Handed, W: Guarded> TableRule<Slot<V, W>, SeatView, Snapshot<W>> for BoardRule {
    ghost use Rattle.fd_turn.specs.{Rule.{IsKept}, Seats.{first_seat, subject_by}};

    ghost holds = { λ _. IsKept V.list V.subject W.list W.doubt (subject_by W.subject W.told) };

    ghost first = { λ key. first_seat (subject_by W.subject W.told key.value) (W.list key.value) };
}
