//! What the board of a dataset keeps: the list that readers get, and the table under the lock.
ghost use Rattle.std.specs.{Prelude.{◌≡◌, ◌≤◌, length}, Arc.{arc_value}};
ghost use Rattle.fd_dataset.specs.Listed.{doubted_entry};
ghost use Rattle.fd_segment.specs.Shared.{AreOf, entries};

use fd_bytes::{Bytes, NoMemory};
use fd_disk::{Disk, Sealed};
use fd_segment::Segment;
use fd_toc::Toc;
use fd_turn::{Guarded, Handed};
use std::alloc::Global;
use std::sync::Arc;

/// The listed segments in the order of their entries, and the text of the dataset, whose they are. This type and the two that
/// follow are public only since the type of a pass names them.
#[derive(Drop)]
pub struct Shown<F: Send, Z: Sealed<F>> {
    pub(crate) list: Vec<Arc<Segment<F, Z>>>,
    pub(crate) name: Bytes,
    ghost own: { AreOf name list.items },
}

/// What readers get of the listed segments, which they share.
#[derive(Drop)]
pub struct Segments<F: Send, Z: Sealed<F>> {
    pub(crate) shown: Arc<Shown<F, Z>>,
    ghost few: { length (arc_value shown).list.items ≤ 65535 },
}

/// The table of contents, with a list of its own of the same segments, and the segment whose entry is in doubt. The
/// entries of its list are those of the table, and a segment is kept as doubted exactly where its entry is in doubt.
#[derive(Drop)]
pub struct Desk<F: Send, T: Disk<F>, Z: Sealed<F>> {
    pub(crate) toc: Toc<F, T>,
    pub(crate) segments: Vec<Arc<Segment<F, Z>>>,
    pub(crate) doubted: Option<Arc<Segment<F, Z>>>,
    ghost listed: { entries segments.items ≡ toc.entries },
    ghost doubt_is: { doubted_entry doubted ≡ toc.doubt },
    ghost own: { AreOf toc.dataset segments.items },
    ghost named: { T.name toc.table ≡ toc.dataset },
}

impl<F: Send, Z: Sealed<F>> Handed for Segments<F, Z> {
    ghost use Rattle.fd_dataset.specs.Listed.{listings};
    ghost use Rattle.std.specs.Arc.{arc_value};

    ghost list = { λ s. listings (arc_value s.shown).list.items };

    ghost subject = { λ s. (arc_value s.shown).name };

    fn again(&self, _alloc: Global) -> Result<Segments<F, Z>, NoMemory> {
        Ok(Segments {
            shown: Arc::try_clone(&self.shown)?,
        })
    }
}

impl<F: Send, T: Disk<F>, Z: Sealed<F>> Guarded for Desk<F, T, Z> {
    ghost use Rattle.std.specs.Prelude.{is_some};
    ghost use Rattle.fd_dataset.specs.Listed.{listings, doubted_listing};

    ghost list = { λ d. listings d.segments.items };

    ghost doubt = { λ d. doubted_listing d.doubted };

    ghost subject = { λ d. d.toc.dataset };

    ghost told = { λ d. is_some (T.file d.toc.table) };
}
