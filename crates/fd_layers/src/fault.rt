/// Why a key has no place under a layer.
#[derive(Clone, Copy, Debug, PartialEq, Eq)]
pub enum LayerFault {
    /// The key lacks a name of the layer, or its place with the layer's values has another rule, or another key in the files.
    Layer,
    /// An allocation was refused.
    NoMemory,
}

impl From<fd_bytes::NoMemory> for LayerFault {
    ghost use Rattle.std.specs.Prelude.{◌≡◌};
    ghost use Rattle.fd_layers.specs.declared.fault.LayerFault.TheVariants as faults;

    ghost from_gives = { λ _ e. e ≡ faults.NoMemory };

    fn from(_: fd_bytes::NoMemory) -> LayerFault {
        LayerFault::NoMemory
    }
}
