//! What a board asks of its value and of its state.
ghost use Rattle.std.specs.Prelude.{◌≡◌, ℕ, Bool, List, Option, IfOk};
ghost use Rattle.fd_entries.specs.declared.batch.Listing.{Listing};

use fd_bytes::NoMemory;
use std::alloc::Global;

/// A value that a board hands to its readers. It stands for a list of listings, and another with the same list and the
/// same subject can be made of it. A board drops its value when the next one is posted.
pub trait Handed: Drop + Sized {
    /// The listings.
    ghost list: { Self → List Listing };

    /// What the value is about, in octets, as the text of a dataset. All values of a board have one subject.
    ghost subject: { Self → List ℕ };

    /// Another value that stands for the same list and is about the same subject, or `NoMemory` where there is none for
    /// it.
    fn again(&self, alloc: Global) -> Result<Self, NoMemory>
        ensures same { IfOk result (λ x. list x ≡ list self.now) }
        ensures about { IfOk result (λ x. subject x ≡ subject self.now) };
}

/// A state that a board keeps under its lock. It stands for a list of listings, and for one listing more that is in
/// doubt (it may be listed or not), or none.
pub trait Guarded {
    /// The listings.
    ghost list: { Self → List Listing };

    /// The listing in doubt, or none.
    ghost doubt: { Self → Option Listing };

    /// What the state is about, in octets, as the text of a dataset. It is the subject of the board's values too.
    ghost subject: { Self → List ℕ };

    /// Whether the state tells its contents, as a table on a disk whose bytes are known. All states of a board do, or none.
    ghost told: { Self → Bool };
}
