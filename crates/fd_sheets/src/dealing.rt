//! To which worker a message is dealt.
ghost use Rattle.std.specs.Prelude.{◌≡◌, ◌≤◌, ◌<◌, ◌+◌, ◌%◌, ℕ, sum};
ghost use Rattle.fd_schema.specs.{Rules.{file_key}, Reading.{seen_place}};
ghost use Rattle.fd_sheets.specs.Dealt.{dealt};

use fd_schema::Place;

// A number with the same rest, which isn't large.
fn reduced(workers: u32, sum: u32) -> u32
    requires workers { (0 < workers) × (workers ≤ 8) }
    ensures small { result < 16777216 }
    ensures same { (n : ℕ) → (result + n) % workers ≡ (sum + n) % workers }
{
    if sum < 16_777_216 {
        return sum;
    }
    sum % workers
}

// The sum of the octets behind another number, by the number of workers.
fn weighed(workers: u32, before: u32, text: &[u8]) -> u32
    requires workers { (0 < workers) × (workers ≤ 8) }
    requires before { before < workers }
    ensures below { result < workers }
    ensures weight { result ≡ (before + sum text.now) % workers }
{
    let mut weight = before;
    for octet in text {
        weight = reduced(workers, weight + u32::from(*octet));
    }
    weight % workers
}

/// The worker, from 0, of a message with this place.
pub fn dealt(workers: u32, place: &Place) -> u32
    requires workers { (0 < workers) × (workers ≤ 8) }
    ensures below { result < workers }
    ensures worker { result ≡ dealt workers (seen_place place.now).dataset (file_key (seen_place place.now)) }
{
    let dataset = weighed(workers, 0, place.dataset().as_bytes());
    let index = weighed(workers, dataset, place.index().as_bytes());
    let line = weighed(workers, index, b"|");
    weighed(workers, line, place.datum().as_bytes())
}
