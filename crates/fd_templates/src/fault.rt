ghost use Rattle.std.specs.Prelude.{◌≡◌};
ghost use Rattle.fd_templates.specs.declared.fault.AnyFault.TheVariants as any_faults;

/// Why a section has no numbers of a template.
#[derive(Clone, Copy, Debug, PartialEq, Eq)]
pub enum TemplateFault {
    /// The template has this other number.
    Other(u16),
    /// The section is shorter than its template.
    BadLength { said: u64 },
}

/// Why a product's numbers were not read.
#[derive(Clone, Copy, Debug, PartialEq, Eq)]
pub enum AnyFault {
    /// Section 4 has none of them.
    Template(TemplateFault),
    /// An allocation was refused.
    NoMemory,
}

impl From<fd_bytes::NoMemory> for AnyFault {
    ghost from_gives = { λ _ e. e ≡ any_faults.NoMemory };

    fn from(_: fd_bytes::NoMemory) -> AnyFault {
        AnyFault::NoMemory
    }
}
