// A store, until it stops.
ghost use Rattle.std.specs.Prelude.{◌≡◌, ◌⊎◌, ◌+◌, true, false, List, ℕ, None, IfOk, IfErr, OnOk, OnErr, IfSome, option_map};
ghost use Rattle.fd_disk.specs.{Causes.{HasDownCause, OnNoMemory}, Folders.{SameBut, WhereTold, folder_at, planted}};
ghost use Rattle.fd_stopped.specs.{Counts.{count_of}, Stopping.{OnCallStopped}};

use crate::{StopFault, Stopped};
use fd_disk::{Down, Store};
use std::alloc::Global;

impl<F: Send, S: Store<F>> Store<StopFault<F>> for Stopped<S> {
    ghost use Rattle.std.specs.Prelude.{◌+◌};

    type Folder = Stopped<S::Folder>;

    ghost has = { λ s. S.has s.inner };

    ghost out = { λ s name. S.out s.inner name };

    ghost faults = { λ s. S.faults s.inner + s.stops.met };

    fn enter(&mut self, alloc: Global, root: &str) -> Result<(), Down<StopFault<F>>> {
        stop!(self.stops);
        passed!(self.inner.enter(alloc, root), Ok(()) => Ok(()))
    }

    fn schema(&mut self, alloc: Global) -> Result<Option<Vec<u8>>, Down<StopFault<F>>> {
        stop!(self.stops);
        passed!(self.inner.schema(alloc), Ok(text) => Ok(text))
    }

    fn plant(&mut self, alloc: Global, text: &[u8]) -> Result<(), Down<StopFault<F>>>
        requires { IfSome (S.has self.old.inner) (λ s. s.schema ≡ None) }
        ensures ok { OnOk result (S.has self.new.inner ≡ option_map (planted text.now) (S.has self.old.inner)) }
        ensures err { OnErr result ((S.has self.new.inner ≡ S.has self.old.inner) ⊎ (S.has self.new.inner ≡ option_map (planted text.now) (S.has self.old.inner))) }
        ensures refused { IfErr result (λ e. OnNoMemory e (S.has self.new.inner ≡ S.has self.old.inner)) }
        ensures out { S.out self.new.inner ≡ S.out self.old.inner }
        ensures cause { HasDownCause (S.faults self.old.inner + self.old.stops.met) (S.faults self.new.inner + self.new.stops.met) result }
        ensures stopped { OnCallStopped result (self.new.inner ≡ self.old.inner) }
    {
        stop!(self.stops);
        passed!(self.inner.plant(alloc, text), Ok(()) => Ok(()))
    }

    fn names(&mut self, alloc: Global) -> Result<Vec<String>, Down<StopFault<F>>> {
        stop!(self.stops);
        passed!(self.inner.names(alloc), Ok(names) => Ok(names))
    }

    fn folder(
        &mut self,
        alloc: Global,
        name: &str,
    ) -> Result<Stopped<S::Folder>, Down<StopFault<F>>>
        requires { S.out self.old.inner name.now ≡ false }
        ensures folder { IfOk result (λ d. (S.Folder.name d.inner ≡ name.now) × (S.Folder.table_out d.inner ≡ false) × (S.Folder.last_writer d.inner ≡ 0)) }
        ensures contents { IfOk result (λ d. S.Folder.has d.inner ≡ option_map (λ s. folder_at s name.now) (S.has self.old.inner)) }
        ensures others { OnOk result (WhereTold (S.has self.old.inner) (S.has self.new.inner) (SameBut name.now)) }
        ensures err { OnErr result (S.has self.new.inner ≡ S.has self.old.inner) }
        ensures out { (other : List ℕ) → S.out self.new.inner other ≡ true → (S.out self.old.inner other ≡ true) ⊎ (other ≡ name.now) }
        ensures out_err { OnErr result (S.out self.new.inner ≡ S.out self.old.inner) }
        ensures cause { HasDownCause (S.faults self.old.inner + self.old.stops.met) (S.faults self.new.inner + self.new.stops.met) result }
        ensures stopped { OnCallStopped result (self.new.inner ≡ self.old.inner) }
        ensures counted { IfOk result (λ d. count_of d.stops ≡ count_of self.old.stops) }
    {
        passed_sharing!(self.stops, self.inner.folder(alloc, name))
    }

    fn give_folder(&mut self, folder: Stopped<S::Folder>) {
        self.inner.give_folder(folder.into_inner());
    }

    /// A call that was stopped in a thread counts among those of the store.
    fn note(&mut self, fault: StopFault<F>) {
        match fault {
            StopFault::Below(fault) => self.inner.note(fault),
            StopFault::Stopped => self.stops.note(),
        }
    }
}
