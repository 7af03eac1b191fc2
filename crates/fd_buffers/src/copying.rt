// Copies out of a buffer.
ghost use Rattle.std.specs.Prelude.{◌≡◌, ◌-◌, ◌++◌, length, min, take, drop};

// Copies what stands from a place on, as far as both go.
pub(crate) fn copied(bytes: &[u8], at: usize, into: &mut [u8]) -> usize
    ensures count { result ≡ min (length into.old) (length bytes.now - at) }
    ensures bytes { into.new ≡ take result (drop at bytes.now) ++ drop result into.old }
{
    if at >= bytes.len() {
        return 0;
    }
    let rest = &bytes[at..];
    let n = if rest.len() < into.len() {
        rest.len()
    } else {
        into.len()
    };
    into[..n].copy_from_slice(&rest[..n]);
    n
}
