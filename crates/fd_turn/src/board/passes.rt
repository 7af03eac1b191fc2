//! One pass in two, and two in one.
ghost use Rattle.std.specs.Prelude.{◌≡◌, ◌≤◌};
ghost use mathlib.Core.List.{IsPrefix};
ghost use Rattle.fd_turn.specs.{declared.view.Lock.TheVariants.{Free}, Views.{donor, recipient, merger}, Passes.{view, identity, IsOf, IsSame}};

use super::{Board, Pass};
use crate::handed::{Guarded, Handed};
use crate::steps::{Compare, Cut, Merge};

impl<V: Handed, W: Guarded> Board<V, W> {
    /// A pass for another caller. It gets one of this pass's parts, of which there are two at least, and the same
    /// history and subject. Its amount is 0, and it has no doubts.
    pub fn split(&self, pass: &mut Pass<V, W>) -> Pass<V, W>
        requires own { IsOf (identity self.now) pass.old }
        requires free { (view pass.old).lock ≡ Free }
        requires parts { 2 ≤ (view pass.old).parts }
        ensures own { IsSame pass.old pass.new × IsSame pass.old result }
        ensures kept { view pass.new ≡ donor (view pass.old) }
        ensures given { view result ≡ recipient (view pass.old) }
    {
        Pass {
            seat: self.table.shared.split_seat::<Cut>(&mut pass.seat),
        }
    }

    /// Takes another pass in: this one keeps the longer of the two histories, of which both are beginnings, the parts
    /// and the amounts of both, added up, and the doubts of both.
    pub fn join(&self, pass: &mut Pass<V, W>, other: Pass<V, W>)
        requires own { IsOf (identity self.now) pass.old × IsOf (identity self.now) other }
        requires free { ((view pass.old).lock ≡ Free) × ((view other).lock ≡ Free) }
        ensures own { IsSame pass.old pass.new }
        ensures view { view pass.new ≡ merger (view pass.old) (view other) }
        ensures seen { IsPrefix (view pass.old).history (view pass.new).history }
        ensures told { IsPrefix (view other).history (view pass.new).history }
    {
        let Pass { seat } = other;
        self.table.shared.join_seat::<Merge>(&mut pass.seat, seat);
        self.table.shared.load::<Compare>(&mut pass.seat, 0);
    }
}
