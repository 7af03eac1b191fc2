ghost use Rattle.std.specs.{Prelude.{◌≡◌, ◌++◌, IfOk, OnOk}, String.{string_bytes}};
ghost use Rattle.fd_scaled.specs.Text.{exact_text, power_text};

use crate::Scaled;
use fd_bytes::NoMemory;
use std::alloc::{AllocError, Global};

/// Appends `base` and the exponent, unless that is 0.
fn push_power(out: &mut String, base: &str, exponent: i32) -> Result<(), AllocError>
    ensures { OnOk result (string_bytes out.new ≡ string_bytes out.old ++ power_text base.now exponent) }
{
    if exponent != 0 {
        out.push_str(base)?;
        write!(out, "{exponent}")?;
    }
    Ok(())
}

impl Scaled {
    /// The exact text: `n`, then `*2^two` unless two is 0, then `*10^ten` unless ten is 0, all in decimal digits.
    pub fn text(&self, alloc: Global) -> Result<String, NoMemory>
        ensures { IfOk result (λ t. string_bytes t ≡ exact_text self.now) }
    {
        let n = self.n;
        let mut text = format!(in alloc; "{n}")?;
        push_power(&mut text, "*2^", self.two)?;
        push_power(&mut text, "*10^", self.ten)?;
        Ok(text)
    }
}
