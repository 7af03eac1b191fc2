ghost use Rattle.std.specs.Prelude.{◌≡◌, ◌≤◌, ◌++◌, true, length, IfSome, OnOk, OnErr};
ghost use Rattle.fd_templates.specs.{Widths.{EnsembleRanges}, Ensemble.{ensemble_of, member_octets, ensemble_octets}, AnyProduct.{Extends, ensemble_if}};

use crate::octets::read_u8;
use fd_bytes::NoMemory;

/// Which forecast of an ensemble a field is of.
#[derive(Clone, Copy, Debug, PartialEq, Eq)]
pub struct Ensemble {
    /// Code table 4.6: the type of the ensemble forecast.
    pub kind: u8,
    /// The perturbation number.
    pub number: u8,
    /// How many forecasts the ensemble has.
    pub size: u8,
}

/// The numbers of an ensemble member.
fn numbers(section: &[u8]) -> Ensemble
    requires { 37 ≤ length section.now }
    ensures { result ≡ ensemble_of section.now }
{
    Ensemble {
        kind: read_u8(section, 35),
        number: read_u8(section, 36),
        size: read_u8(section, 37),
    }
}

/// The same, where there are such numbers.
pub(crate) fn ensemble_if(has: bool, section: &[u8]) -> Option<Ensemble>
    requires { has ≡ true → 37 ≤ length section.now }
    ensures { result ≡ ensemble_if has section.now }
{
    if has { Some(numbers(section)) } else { None }
}

/// Each number is in the range of its type.
fn in_range(ensemble: Ensemble)
    ensures { EnsembleRanges ensemble }
{}

/// The same, where there are such numbers.
pub(crate) fn ensemble_in_range(ensemble: &Option<Ensemble>)
    ensures { IfSome ensemble.now EnsembleRanges }
{
    if let Some(ensemble) = ensemble {
        in_range(*ensemble);
    }
}

/// Their octets.
fn octets(ensemble: Ensemble) -> [u8; 3]
    ensures { result ≡ member_octets ensemble }
{
    [ensemble.kind, ensemble.number, ensemble.size]
}

/// Appends their octets, where there are such numbers.
#[tactic(auto, using(crate::proofs::Growing::extends_same))]
pub(crate) fn push_ensemble(out: &mut Vec<u8>, ensemble: &Option<Ensemble>) -> Result<(), NoMemory>
    ensures ok { OnOk result (out.new.items ≡ out.old.items ++ ensemble_octets ensemble.now) }
    ensures err { OnErr result (Extends out.old.items out.new.items) }
{
    match ensemble {
        Some(ensemble) => {
            out.extend_from_slice(&octets(*ensemble))?;
            Ok(())
        }
        None => Ok(()),
    }
}
