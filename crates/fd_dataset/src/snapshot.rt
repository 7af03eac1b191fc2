ghost use Rattle.std.specs.Prelude.{◌≡◌, ◌≤◌, ◌-◌, length, slice_get, IfOk, Some};
ghost use Rattle.fd_segment.specs.Shared.{AreOf, standings};

use crate::parts::{Segments, Shown};
use fd_bytes::{Bytes, NoMemory};
use fd_disk::Sealed;
use fd_segment::Segment;
use std::alloc::Global;
use std::marker::Model;
use std::sync::Arc;

/// What is listed in a dataset, as of some moment. It stays as it is whatever is listed later.
#[derive(Drop)]
pub struct Snapshot<F: Send, Z: Sealed<F>> {
    pub(crate) segments: Segments<F, Z>,
}

impl<F: Send, Z: Sealed<F>> Model for Snapshot<F, Z> {
    ghost use Rattle.std.specs.{Prelude.{List}, Arc.{arc_value}};
    ghost use Rattle.fd_segment.specs.{Held.{Standing}, Shared.{standings}};

    ghost Value = { List Standing };

    ghost view = { λ s. standings (arc_value s.segments.shown).list.items };
}

impl<F: Send, Z: Sealed<F>> Snapshot<F, Z> {
    /// These segments, in the order of their entries, all of the dataset with this text: for who alone reads what an opening
    /// found, and lists nothing.
    pub fn of(
        alloc: Global,
        name: Bytes,
        segments: Vec<Arc<Segment<F, Z>>>,
    ) -> Result<Snapshot<F, Z>, NoMemory>
        requires few { length segments.items ≤ 65535 }
        requires own { AreOf name segments.items }
        ensures shown { IfOk result (λ s. s ≡ standings segments.items) }
    {
        match Arc::new(
            alloc,
            Shown {
                list: segments,
                name,
            },
        ) {
            Ok(shown) => Ok(Snapshot {
                segments: Segments { shown },
            }),
            Err(_) => Err(NoMemory),
        }
    }

    /// The number of entries.
    pub fn len(&self) -> u32
        ensures count { result ≡ length self.now }
        ensures few { length self.now ≤ 65535 }
    {
        self.segments.shown.list.len() as u32
    }

    /// The segment of the entry with this number, from 1.
    pub fn segment(&self, number: u32) -> &Segment<F, Z>
        requires { (1 ≤ number) × (number ≤ length self.now) }
        ensures { slice_get self.now (number - 1) ≡ Some result.now }
    {
        &self.segments.shown.list[(number - 1) as usize]
    }
}
