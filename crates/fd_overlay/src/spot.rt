use fd_retriever::Spot;
use fd_segment::Damage;

/// Where the newest bytes of a key stand among layers: the number of the layer, from 0, and the spot in its segments.
#[derive(Clone, Copy, Debug, PartialEq, Eq)]
pub struct LayerSpot {
    /// The layer's number.
    pub layer: usize,
    /// The spot in it.
    pub spot: Spot,
}

/// Why keys aren't found in layers.
#[derive(Drop)]
pub enum FindFault<F> {
    /// A file failed: a call of this search gave the fault.
    Fault(F),
    /// A segment of a layer stands for no batch.
    Damaged {
        /// The layer's number, from 0.
        layer: usize,
        /// What is damaged.
        damage: Damage,
    },
    /// An allocation was refused.
    NoMemory,
}
