// The entries that are kept, and those that are dropped.
ghost use Rattle.std.specs.Prelude.{◌≡◌, ◌≤◌, ◌<◌, ◌+◌, ◌++◌, ◌∷◌, [], None, Some, IfOk, IfErr, OnOk, length, if◌then◌else◌};
ghost use Rattle.fd_entries.specs.Table.{AllFit};
ghost use Rattle.fd_purge.specs.{Dividing.{OnOver, next_over}, Kept.{masked, unmasked}, Purging.{first_over}};

use fd_entries::Entry;
use std::alloc::Global;

/// The entries of a table, as a purge divides them.
#[derive(Drop)]
pub(crate) struct Divided {
    pub(crate) kept: Vec<Entry>,
    pub(crate) dropped: Vec<Entry>,
}

/// Why entries weren't divided.
#[derive(Drop)]
pub(crate) enum DivideFault {
    /// The writer of the entry with this number is too great for the place at which it is to be kept.
    Over { entry: u32, writer: u32 },
    NoMemory,
}

/// Divides the entries by whether they are masked. Each that is kept fits its new place.
pub(crate) fn divide(
    alloc: Global,
    entries: &[Entry],
    masks: &[bool],
) -> Result<Divided, DivideFault>
    requires few { length entries.now ≤ 65535 }
    requires each { length masks.now ≡ length entries.now }
    ensures kept { IfOk result (λ d. d.kept.items ≡ unmasked masks.now entries.now) }
    ensures dropped { IfOk result (λ d. d.dropped.items ≡ masked masks.now entries.now) }
    ensures count { IfOk result (λ d. length d.kept.items + length d.dropped.items ≡ length entries.now) }
    ensures fit { IfOk result (λ d. AllFit 0 d.kept.items) }
    ensures within { OnOk result (first_over 0 0 masks.now entries.now ≡ None) }
    ensures over { IfErr result (λ e. OnOver e (λ entry writer. first_over 0 0 masks.now entries.now ≡ Some (entry, writer))) }
{
    let mut divided = Divided {
        kept: Vec::new(alloc),
        dropped: Vec::new(alloc),
    };
    for i in 0..entries.len() {
        divided.place(entries[i], masks[i])?;
    }
    Ok(divided)
}

impl Divided {
    // Places the next entry.
    fn place(&mut self, entry: Entry, is_masked: bool) -> Result<(), DivideFault>
        requires { length self.old.kept.items + length self.old.dropped.items < 65535 }
        ensures kept { OnOk result (self.new.kept.items ≡ (if is_masked then self.old.kept.items else self.old.kept.items ++ entry ∷ [])) }
        ensures dropped { OnOk result (self.new.dropped.items ≡ (if is_masked then self.old.dropped.items ++ entry ∷ [] else self.old.dropped.items)) }
        ensures fit { OnOk result (AllFit 0 self.old.kept.items → AllFit 0 self.new.kept.items) }
        ensures within { OnOk result (next_over (length self.old.kept.items + length self.old.dropped.items) (length self.old.kept.items) is_masked entry ≡ None) }
        ensures over { IfErr result (λ e. OnOver e (λ number writer. next_over (length self.old.kept.items + length self.old.dropped.items) (length self.old.kept.items) is_masked entry ≡ Some (number, writer))) }
    {
        if is_masked {
            return match self.dropped.push(entry) {
                Ok(()) => Ok(()),
                Err(_) => Err(DivideFault::NoMemory),
            };
        }
        let kept = self.kept.len();
        if u64::from(entry.writer) > 65536 * (kept as u64 + 1) {
            return Err(DivideFault::Over {
                entry: (kept + self.dropped.len() + 1) as u32,
                writer: entry.writer,
            });
        }
        match self.kept.push(entry) {
            Ok(()) => Ok(()),
            Err(_) => Err(DivideFault::NoMemory),
        }
    }
}
