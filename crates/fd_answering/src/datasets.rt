// The datasets that were opened, in which fields are found.
ghost use Rattle.std.specs.Prelude.{◌≡◌, ◌≤◌, ◌<◌, List, ℕ, Option, Some, IfOk, IfErr, IfSome, OnOk};
ghost use Rattle.fd_bytes.specs.Causes.{Rose};
ghost use Rattle.fd_retriever.specs.Answers.{IsAnswer, OnDamaged, OnWrite, TookFront};
ghost use Rattle.fd_ahead.specs.{Reading.{IsStock}, Places.{IsIn}};
ghost use Rattle.fd_answering.specs.{Damages.{IsDamagedAt}, Located.{IsAt}};

use fd_ahead::{Located, Opened, ReadStock};
use fd_disk::Sealed;
use fd_io::Sink;
use fd_retriever::{FetchFault, Got};
use std::alloc::Global;

/// Writes a key's bytes into the sink, where they are located, once they were checked. A key that isn't located has none.
pub fn write_found<F: Send + Drop, X, Z: Sealed<F>, K: Sink<X>>(
    alloc: Global,
    opened: &[Opened<F, Z>],
    located: Option<Located>,
    stock: &mut ReadStock<F, Z>,
    sink: &mut K,
) -> Result<Got, FetchFault<F, X>>
where
    requires within { IfSome located (IsIn opened.now) }
    requires stock { IsStock opened.now stock.old }
    ensures stock { IsStock opened.now stock.new }
    ensures answer { IfOk result (λ got. (bytes : Option (List ℕ)) → IsAt opened.now bytes located → IsAnswer bytes (K.taken sink.old) (K.taken sink.new) got) }
    ensures err { IfErr result (λ e. (bytes : Option (List ℕ)) → IsAt opened.now bytes located → TookFront bytes (K.taken sink.old) (K.taken sink.new)) }
    ensures damaged { IfErr result (λ e. OnDamaged e (λ d. (l : Located) × (located ≡ Some l) × IsDamagedAt opened.now l.number d)) }
    ensures count { K.faults sink.old ≤ K.faults sink.new }
    ensures calm { OnOk result (K.faults sink.new ≡ K.faults sink.old) }
    ensures write { IfErr result (λ e. OnWrite e (Rose (K.faults sink.old) (K.faults sink.new))) }
{
    let Some(one) = located else {
        return Ok(Got::Miss);
    };
    let len = one.spot.len;
    match stock.write(alloc, opened, one, sink) {
        Ok(()) => Ok(Got::Found(len)),
        Err(fault) => Err(fault),
    }
}
