ghost use Rattle.std.specs.{Prelude.{◌≡◌, ◌<◌, ◌≤◌, List, ℕ, Option, length, take, IfOk, OnOk, OnErr}, Io.KnownBytes.{Keeps}};
ghost use Rattle.fd_bytes.specs.Causes.{Rose};
ghost use Rattle.fd_io.specs.Streams.{Gives, IsAtEnd, Takes, TakesFront};

/// Bytes that are read in order. `X` is its fault: generic code can neither make nor copy one, it can only pass on
/// one that a read gave.
pub trait Source<X> {
    /// The bytes that are left, where the source tells them.
    ghost left: { Self → Option (List ℕ) };

    /// How many reads have failed. The count stands still at the end of its type.
    ghost faults: { Self → ℕ };

    /// Reads the next bytes into the front of the slice, which isn't empty. `Ok(n)` took the next n bytes, and 0 is
    /// the end of the input; the count of faults is as before. An `Err` took nothing, and comes only where the count rose.
    fn read(&mut self, into: &mut [u8]) -> Result<usize, X>
        requires { 0 < length into.old }
        ensures bound { IfOk result (λ n. n ≤ length into.new) }
        ensures given { IfOk result (λ n. Gives (left self.old) (left self.new) (take n into.new)) }
        ensures end { IfOk result (λ n. n ≡ 0 → IsAtEnd (left self.old)) }
        ensures kept { OnErr result (Keeps (left self.old) (left self.new)) }
        ensures count { faults self.old ≤ faults self.new }
        ensures calm { OnOk result (faults self.new ≡ faults self.old) }
        ensures cause { OnErr result (Rose (faults self.old) (faults self.new)) };
}

/// Bytes that are written in order. `X` is its fault, as that of a source.
pub trait Sink<X> {
    /// The bytes that were taken, where the sink tells them.
    ghost taken: { Self → Option (List ℕ) };

    /// How many writes have failed. The count stands still at the end of its type.
    ghost faults: { Self → ℕ };

    /// Takes the first bytes of a slice that isn't empty: `Ok(n)` took n of them, at least one, and the count of faults
    /// is as before. An `Err` took nothing, and comes only where the count rose.
    fn write(&mut self, bytes: &[u8]) -> Result<usize, X>
        requires { 0 < length bytes.now }
        ensures bound { IfOk result (λ n. n ≤ length bytes.now) }
        ensures some { IfOk result (λ n. 0 < n) }
        ensures took { IfOk result (λ n. Takes (taken self.old) (taken self.new) (take n bytes.now)) }
        ensures kept { OnErr result (Keeps (taken self.old) (taken self.new)) }
        ensures count { faults self.old ≤ faults self.new }
        ensures calm { OnOk result (faults self.new ≡ faults self.old) }
        ensures cause { OnErr result (Rose (faults self.old) (faults self.new)) };
}

/// Writes all the bytes. After an `Err`, which is the fault of one write, a front of them was taken.
pub fn write_all<X, K: Sink<X>>(sink: &mut K, bytes: &[u8]) -> Result<(), X>
    ensures took { OnOk result (Takes (K.taken sink.old) (K.taken sink.new) bytes.now) }
    ensures front { OnErr result (TakesFront (K.taken sink.old) (K.taken sink.new) bytes.now) }
    ensures count { K.faults sink.old ≤ K.faults sink.new }
    ensures calm { OnOk result (K.faults sink.new ≡ K.faults sink.old) }
    ensures cause { OnErr result (Rose (K.faults sink.old) (K.faults sink.new)) }
{
    let mut rest = bytes;
    while !rest.is_empty() {
        let n = sink.write(rest)?;
        let (_, after) = rest.split_at(n);
        rest = after;
    }
    Ok(())
}
