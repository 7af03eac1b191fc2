// A section that has the numbers of its template.
ghost use Rattle.std.specs.Prelude.{◌≡◌, ◌≤◌, ◌+◌, length, OnOk};
ghost use Rattle.fd_templates.specs.Whole.{whole};

use crate::fault::TemplateFault;
use crate::octets::read_u16;

/// Refuses a section whose template, which two octets from this one on say, isn't 0, or which has fewer octets than these.
#[tactic(auto, unfolding(crate::specs::Whole::whole))]
pub fn check_whole(section: &[u8], first: usize, least: usize) -> Result<(), TemplateFault>
    requires from_one { 1 ≤ first }
    requires within { first + 1 ≤ length section.now }
    ensures whole { result ≡ whole first least section.now }
    ensures long { OnOk result (least ≤ length section.now) }
{
    let template = read_u16(section, first);
    if template != 0 {
        return Err(TemplateFault::Other(template));
    }
    if section.len() < least {
        return Err(TemplateFault::BadLength {
            said: section.len() as u64,
        });
    }
    Ok(())
}
