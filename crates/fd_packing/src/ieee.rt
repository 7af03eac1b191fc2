ghost use Rattle.std.specs.Prelude.{ℕ, ◌≡◌, ◌<◌, ◌^◌, IfSome, unsigned_abs};
ghost use Rattle.fd_packing.specs.Reference.{reference_of, IsReduced};

/// The number m * 2^k, or its negation; m is odd, or m and k are 0.
#[derive(Clone, Copy, Debug, PartialEq, Eq)]
pub struct Reference {
    pub negative: bool,
    pub m: u32,
    pub k: i32,
}

/// The number that the octets of an IEEE 754 single write; none where it is not finite.
#[tactic(auto, unfolding(crate::specs::Reference::reference_of))]
pub fn reference_of(raw: u32) -> Option<Reference>
    ensures value { result ≡ reference_of raw }
    ensures small { IfSome result (λ r. r.m < 2 ^ 24) }
    ensures near { IfSome result (λ r. unsigned_abs r.k < 2 ^ 8) }
{
    let exponent = raw / 0x80_0000 % 256;
    let fraction = raw % 0x80_0000;
    if exponent == 255 {
        return None;
    }
    let negative = raw / 0x8000_0000 == 1;
    let significand = if exponent == 0 {
        fraction
    } else {
        0x80_0000 + fraction
    };
    if significand == 0 {
        return Some(Reference {
            negative,
            m: 0,
            k: 0,
        });
    }
    let zeros = significand.trailing_zeros();
    Some(Reference {
        negative,
        m: significand >> zeros,
        k: exponent.max(1) as i32 - 150 + zeros as i32,
    })
}

/// Of the octets of an IEEE 754 single the exact number is taken: its m times 2^k is their magnitude.
pub fn reference_is_exact()
    ensures { (raw : ℕ) → raw < 2 ^ 32 → IfSome (reference_of raw) (IsReduced raw) }
{}
