//! The turn for the value: looking and posting.
ghost use Rattle.std.specs.Prelude.{◌≡◌, ◌+◌, ◌^◌, ◌<◌, [], ◌∷◌, ◌++◌, length, Option, IfOk, OnErr, false};
ghost use mathlib.Core.List.{IsPrefix};
ghost use Rattle.fd_entries.specs.declared.batch.Listing.{Listing};
ghost use Rattle.fd_turn.specs.{declared.view.Lock.TheVariants.{Free, Owner}, declared.view.Turn.TheVariants.{Away, Holder}, Views.{all_parts, IsOwner}, Seats.{with_turn}, Passes.{view, identity, IsOf, IsSame}};

use super::{Board, Pass, SPINS};
use crate::handed::{Guarded, Handed};
use crate::rule::Slot;
use crate::steps::{LeaveTurn, Publish, Read, TakeTurn};
use crate::view::SeatView;
use atomic_table::Seat;
use fd_bytes::NoMemory;
use std::alloc::Global;
use std::sync::Wait;
use std::{hint, thread};

impl<V: Handed, W: Guarded> Board<V, W> {
    // Tries until the turn was free: some times at once, and from then on each time after giving the processor away.
    fn take_turn<R: Wait>(&self, rt: &R, seat: &mut Seat<Slot<V, W>, SeatView>)
        requires own { seat.old.table_id ≡ self.now.table.shared.table_id }
        requires away { (seat.old.me.0.turn ≡ Away) × (0 < seat.old.me.0.parts) }
        ensures own { seat.new.table_id ≡ seat.old.table_id }
        ensures taken { (x : _) × (seat.new.me ≡ (with_turn seat.old.me.0 (Holder (V.list x) false), (0, Slot.Value x) ∷ seat.old.me.1)) × ((d : Option Listing) → seat.old.me.0.lock ≡ Owner d → V.list x ≡ seat.old.me.0.history) × (V.subject x ≡ seat.old.me.0.subject.text) }
    {
        let mut spins = 0;
        for _ in rt.forever() {
            if self
                .table
                .shared
                .compare_exchange::<TakeTurn>(seat, 0, 0, 1)
                == 0
            {
                return;
            }
            if spins < SPINS {
                spins += 1;
                hint::spin_loop();
            } else {
                thread::yield_now();
            }
        }
        unreachable!()
    }

    /// Waits for the turn, and makes a value that is equal to the board's. Its list is the pass's history then, and the
    /// old history begins it. Where the pass has every part, its amount is the number of listings after those that the
    /// board began with. The value is about the pass's subject. After `NoMemory` the pass is as before.
    pub fn look<R: Wait>(&self, rt: &R, alloc: Global, pass: &mut Pass<V, W>) -> Result<V, NoMemory>
        requires own { IsOf (identity self.now) pass.old }
        requires free { (view pass.old).lock ≡ Free }
        ensures own { IsSame pass.old pass.new }
        ensures ok { IfOk result (λ x. view pass.new ≡ record (view pass.old) { history = V.list x }) }
        ensures seen { IfOk result (λ x. IsPrefix (view pass.old).history (V.list x)) }
        ensures count { IfOk result (λ x. (view pass.old).parts ≡ all_parts → (view pass.old).opening + (view pass.old).amount ≡ length (V.list x)) }
        ensures subject { IfOk result (λ x. V.subject x ≡ (view pass.old).subject) }
        ensures err { OnErr result (view pass.new ≡ view pass.old) }
    {
        self.take_turn(rt, &mut pass.seat);
        let slot = self.table.shared.exchange(&mut pass.seat, 0, Slot::Empty);
        let Slot::Value(value) = slot else {
            unreachable!()
        };
        let copy = value.again(alloc);
        let slot = self
            .table
            .shared
            .exchange(&mut pass.seat, 0, Slot::Value(value));
        let Slot::Empty = slot else { unreachable!() };
        match copy {
            Ok(copy) => {
                self.table.shared.load::<Read>(&mut pass.seat, 1);
                self.table.shared.store::<LeaveTurn>(&mut pass.seat, 0, 0);
                Ok(copy)
            }
            Err(refused) => {
                self.table.shared.store::<LeaveTurn>(&mut pass.seat, 0, 0);
                Err(refused)
            }
        }
    }

    /// Waits for the turn, and puts the next value in place of the last one, which is dropped. The pass is the owner,
    /// its history has fewer than 2^32 listings, and the next value is about its subject, with that history and one
    /// listing more as its list. That list is the pass's history then, and its amount has risen by one.
    pub fn post<R: Wait>(&self, rt: &R, pass: &mut Pass<V, W>, next: V)
        requires own { IsOf (identity self.now) pass.old }
        requires owner { IsOwner (view pass.old).lock }
        requires room { length (view pass.old).history < 2 ^ 32 }
        requires next { (l : Listing) × (V.list next ≡ (view pass.old).history ++ l ∷ []) }
        requires subject { V.subject next ≡ (view pass.old).subject }
        ensures own { IsSame pass.old pass.new }
        ensures view { view pass.new ≡ record (view pass.old) { history = V.list next; amount = (view pass.old).amount + 1 } }
    {
        self.take_turn(rt, &mut pass.seat);
        let slot = self
            .table
            .shared
            .exchange(&mut pass.seat, 0, Slot::Value(next));
        self.table.shared.fetch_add::<Publish>(&mut pass.seat, 1, 1);
        self.table.shared.store::<LeaveTurn>(&mut pass.seat, 0, 0);
        let Slot::Value(last) = slot else {
            unreachable!()
        };
        drop(last);
    }
}
