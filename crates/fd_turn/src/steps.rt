//! The kinds of step on a board's table, each with what it tells the seat that makes it.
use crate::handed::{Guarded, Handed};
use crate::rule::Slot;
use crate::view::SeatView;
use atomic_table::{Join, Play, Split};

/// The compare-exchange of word 0 from 0 to 1, which takes the value.
pub(crate) struct TakeTurn;

impl<V: Handed, W> Play<Slot<V, W>, SeatView> for TakeTurn {
    ghost use Rattle.fd_turn.specs.Steps.{took_turn};

    ghost then = { took_turn V.list V.subject };
}

/// The holder's load of word 1, by which it has seen the list of the value.
pub(crate) struct Read;

impl<V, W> Play<Slot<V, W>, SeatView> for Read {
    ghost use Rattle.fd_turn.specs.Steps.{read};

    ghost then = { read };
}

/// The holder's addition of 1 to word 1, as the owner, which posts the value that is in the slot.
pub(crate) struct Publish;

impl<V: Handed, W> Play<Slot<V, W>, SeatView> for Publish {
    ghost use Rattle.fd_turn.specs.Steps.{published};

    ghost then = { published V.list };
}

/// The holder's store of 0 in word 0, which gives the value back.
pub(crate) struct LeaveTurn;

impl<V, W> Play<Slot<V, W>, SeatView> for LeaveTurn {
    ghost use Rattle.fd_turn.specs.Steps.{left_turn};

    ghost then = { left_turn };
}

/// The compare-exchange of word 2 from 0 to 1, which takes the state.
pub(crate) struct TakeLock;

impl<V, W: Guarded> Play<Slot<V, W>, SeatView> for TakeLock {
    ghost use Rattle.fd_turn.specs.{Seats.{subject_by}, Steps.{took_lock}};

    ghost then = { took_lock W.list W.doubt (subject_by W.subject W.told) };
}

/// The owner's store of 0 in word 2, which gives the state back.
pub(crate) struct LeaveLock;

impl<V, W: Guarded> Play<Slot<V, W>, SeatView> for LeaveLock {
    ghost use Rattle.fd_turn.specs.Steps.{left_lock};

    ghost then = { left_lock W.doubt };
}

/// The load of word 0 after a join, which compares the two histories.
pub(crate) struct Compare;

impl<V, W> Play<Slot<V, W>, SeatView> for Compare {
    ghost use Rattle.fd_turn.specs.Steps.{compared};

    ghost then = { compared };
}

/// The cut of a seat in two.
pub(crate) struct Cut;

impl Split<SeatView> for Cut {
    ghost use Rattle.fd_turn.specs.Seats.{donor_seat, recipient_seat};

    ghost left = { donor_seat };

    ghost right = { recipient_seat };
}

/// The join of two seats, whose histories are not compared yet.
pub(crate) struct Merge;

impl Join<SeatView> for Merge {
    ghost use Rattle.fd_turn.specs.Seats.{merged_seat, spent_seat};

    ghost both = { merged_seat };

    ghost spent = { spent_seat };
}
