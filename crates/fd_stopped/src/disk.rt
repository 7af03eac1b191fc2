// A file that is written until it stops.
ghost use Rattle.std.specs.Prelude.{◌≡◌, ◌<◌, ◌+◌, ◌^◌, true, false, length, max, OnOk, OnErr, option_map};
ghost use Rattle.fd_bytes.specs.Causes.{HasCause};
ghost use Rattle.fd_disk.specs.{Folders.{WhereTold}, Images.{IsAfterFailedWrite, synced, written}, Moments.{Elapses}};
ghost use Rattle.fd_stopped.specs.Stopping.{OnStopped};

use crate::{StopFault, Stopped};
use fd_disk::Disk;

impl<F: Send, T: Disk<F>> Disk<StopFault<F>> for Stopped<T> {
    ghost use Rattle.std.specs.Prelude.{◌+◌};

    type Sealed = Stopped<T::Sealed>;

    ghost file = { λ d. T.file d.inner };

    ghost is_synced = { λ d. T.is_synced d.inner };

    ghost extent = { λ d. T.extent d.inner };

    ghost moment = { λ d. T.moment d.inner };

    ghost left_since = { λ d t c. T.left_since d.inner t c };

    ghost faults = { λ d. T.faults d.inner + d.stops.met };

    ghost name = { λ d. T.name d.inner };

    ghost made = { λ d. T.made d.inner };

    ghost counts_now = { λ d t c le image. T.counts_now d.inner t c le image };

    ghost only_now = { λ d c left. T.only_now d.inner c left };

    ghost reads_image = { λ d f is. T.reads_image d.inner f is };

    ghost synced_firm = { λ d f is synced. T.synced_firm d.inner f is synced };

    fn read_at(&mut self, at: u64, into: &mut [u8]) -> Result<usize, StopFault<F>> {
        passed_by_file!(self.stops, self.inner.read_at(at, into))
    }

    fn write_at(&mut self, at: u64, bytes: &[u8]) -> Result<(), StopFault<F>>
        requires { at + length bytes.now < 2 ^ 63 }
        ensures ok { OnOk result (T.file self.new.inner ≡ option_map (λ f. written f at bytes.now) (T.file self.old.inner)) }
        ensures err { OnErr result (WhereTold (T.file self.old.inner) (T.file self.new.inner) (λ f g. IsAfterFailedWrite f at (length bytes.now) g)) }
        ensures synced { OnOk result (T.is_synced self.new.inner ≡ false) }
        ensures synced_err { OnErr result (T.is_synced self.new.inner ≡ true → T.is_synced self.old.inner ≡ true) }
        ensures extent { OnOk result (T.extent self.new.inner ≡ max (T.extent self.old.inner) (at + length bytes.now)) }
        ensures extent_err { OnErr result (T.extent self.new.inner ≡ T.extent self.old.inner) }
        ensures name { T.name self.new.inner ≡ T.name self.old.inner }
        ensures made { T.made self.new.inner ≡ T.made self.old.inner }
        ensures time { Elapses (T.moment self.old.inner) (T.moment self.new.inner) (T.left_since self.old.inner) (T.left_since self.new.inner) (T.file self.new.inner) }
        ensures cause { HasCause (T.faults self.old.inner + self.old.stops.met) (T.faults self.new.inner + self.new.stops.met) result }
        ensures stopped { OnStopped result (self.new.inner ≡ self.old.inner) }
    {
        passed_by_file!(self.stops, self.inner.write_at(at, bytes))
    }

    fn sync(&mut self) -> Result<(), StopFault<F>>
        ensures ok { OnOk result (T.file self.new.inner ≡ option_map synced (T.file self.old.inner)) }
        ensures err { OnErr result (T.file self.new.inner ≡ T.file self.old.inner) }
        ensures synced { OnOk result (T.is_synced self.new.inner ≡ true) }
        ensures synced_err { OnErr result (T.is_synced self.new.inner ≡ T.is_synced self.old.inner) }
        ensures extent { T.extent self.new.inner ≡ T.extent self.old.inner }
        ensures name { T.name self.new.inner ≡ T.name self.old.inner }
        ensures made { T.made self.new.inner ≡ T.made self.old.inner }
        ensures time { Elapses (T.moment self.old.inner) (T.moment self.new.inner) (T.left_since self.old.inner) (T.left_since self.new.inner) (T.file self.new.inner) }
        ensures cause { HasCause (T.faults self.old.inner + self.old.stops.met) (T.faults self.new.inner + self.new.stops.met) result }
        ensures stopped { OnStopped result (self.new.inner ≡ self.old.inner) }
    {
        passed_by_file!(self.stops, self.inner.sync())
    }

    fn seal(self) -> Stopped<T::Sealed> {
        let Stopped { inner, stops } = self;
        Stopped::new(inner.seal(), stops)
    }
}
