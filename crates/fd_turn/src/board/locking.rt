//! The lock of the state.
ghost use Rattle.std.specs.Prelude.{◌≡◌, ◌+◌, ◌<◌, ◌∷◌, length, Some, Contains};
ghost use mathlib.Core.List.{IsPrefix};
ghost use Rattle.fd_entries.specs.declared.batch.Listing.{Listing};
ghost use Rattle.fd_turn.specs.{declared.view.Lock.TheVariants.{Free, Owner}, Views.{all_parts, IsOwner, Settles}, Seats.{owner_seat}, Steps.{Accounts}, Passes.{view, identity, IsOf, IsSame}};

use super::{Board, Pass, SPINS};
use crate::handed::{Guarded, Handed};
use crate::rule::Slot;
use crate::steps::{LeaveLock, TakeLock};
use crate::view::SeatView;
use atomic_table::Seat;
use std::hint;
use std::sync::Wait;

impl<V: Handed, W: Guarded> Board<V, W> {
    // Tries until the lock was free: some times at once, and from then on each time after a sleep, from which the next
    // `unlock` wakes.
    fn take_lock<R: Wait>(&self, rt: &R, seat: &mut Seat<Slot<V, W>, SeatView>)
        requires own { seat.old.table_id ≡ self.now.table.shared.table_id }
        requires free { (seat.old.me.0.lock ≡ Free) × (0 < seat.old.me.0.parts) }
        ensures own { seat.new.table_id ≡ seat.old.table_id }
        ensures taken { (y : _) × (seat.new.me ≡ (owner_seat seat.old.me.0 (W.list y) (W.doubt y), (1, Slot.Locked y) ∷ seat.old.me.1)) × IsPrefix seat.old.me.0.history (W.list y) × Accounts seat.old.me.0 (W.list y) (W.doubt y) × (W.subject y ≡ seat.old.me.0.subject.text) × (W.told y ≡ seat.old.me.0.subject.told) }
    {
        let mut spins = 0;
        for _ in rt.forever() {
            if self
                .table
                .shared
                .compare_exchange::<TakeLock>(seat, 2, 0, 1)
                == 0
            {
                return;
            }
            if spins < SPINS {
                spins += 1;
                hint::spin_loop();
            } else {
                self.table.shared.park(rt, 2, 1);
            }
        }
        unreachable!()
    }

    /// Waits for the lock, hands the state out and makes the pass the owner. The pass's history becomes the state's
    /// list, which its old history begins. Where the pass has every part, its amount is the number of listings after
    /// those that the board began with, and a listing in doubt of the state is among its doubts. The state is about the
    /// pass's subject, and tells its contents exactly where the pass says so.
    ///
    /// Give each `lock` its `unlock`: until then all others wait.
    pub fn lock<R: Wait>(&self, rt: &R, pass: &mut Pass<V, W>) -> W
        requires own { IsOf (identity self.now) pass.old }
        requires free { (view pass.old).lock ≡ Free }
        ensures own { IsSame pass.old pass.new }
        ensures view { view pass.new ≡ record (view pass.old) { history = W.list result; lock = Owner (W.doubt result) } }
        ensures seen { IsPrefix (view pass.old).history (W.list result) }
        ensures count { (view pass.old).parts ≡ all_parts → (view pass.old).opening + (view pass.old).amount ≡ length (W.list result) }
        ensures doubt { (view pass.old).parts ≡ all_parts → (l : Listing) → W.doubt result ≡ Some l → Contains (view pass.old).doubts l }
        ensures subject { W.subject result ≡ (view pass.old).subject }
        ensures told { W.told result ≡ (view pass.old).told }
    {
        self.take_lock(rt, &mut pass.seat);
        let slot = self.table.shared.exchange(&mut pass.seat, 1, Slot::Empty);
        let Slot::Locked(state) = slot else {
            unreachable!()
        };
        state
    }

    /// Gives back a state whose list is the owner's history, which is about the owner's subject and tells its contents
    /// exactly where the owner says so, and frees the lock.
    /// The pass is no owner then. Its doubts become none where the state has no listing in doubt, stay where the state
    /// has the one that `lock` found, and else become the state's alone.
    pub fn unlock(&self, pass: &mut Pass<V, W>, state: W)
        requires own { IsOf (identity self.now) pass.old }
        requires owner { IsOwner (view pass.old).lock }
        requires whole { W.list state ≡ (view pass.old).history }
        requires subject { W.subject state ≡ (view pass.old).subject }
        requires told { W.told state ≡ (view pass.old).told }
        ensures own { IsSame pass.old pass.new }
        ensures view { view pass.new ≡ record (view pass.old) { doubts = (view pass.new).doubts; lock = Free } }
        ensures doubts { Settles (view pass.old).lock (view pass.old).doubts (W.doubt state) (view pass.new).doubts }
    {
        let slot = self
            .table
            .shared
            .exchange(&mut pass.seat, 1, Slot::Locked(state));
        let Slot::Empty = slot else { unreachable!() };
        self.table.shared.store::<LeaveLock>(&mut pass.seat, 2, 0);
        self.table.shared.wake_one(2);
    }
}
