ghost use Rattle.std.specs.{Prelude.{◌≡◌, string_bytes}, Str.{bytes_eq}};

use fd_dataset::Snapshot;
use fd_disk::Sealed;
use std::marker::Model;

/// A dataset as it was when it was opened: its text, what its table listed, and the files of that.
#[derive(Drop)]
pub struct Opened<F: Send, Z: Sealed<F>> {
    name: String,
    snapshot: Snapshot<F, Z>,
}

impl<F: Send, Z: Sealed<F>> Model for Opened<F, Z> {
    ghost use Rattle.std.specs.Prelude.{string_bytes};
    ghost use Rattle.fd_ahead.specs.Places.{Open};

    ghost Value = { Open };

    ghost view = { λ o. record { name = string_bytes o.name; shown = o.snapshot } };
}

impl<F: Send, Z: Sealed<F>> Opened<F, Z> {
    /// The dataset with this text, whose table listed this.
    pub fn new(name: String, snapshot: Snapshot<F, Z>) -> Opened<F, Z>
        ensures name { result.name ≡ string_bytes name }
        ensures shown { result.shown ≡ snapshot }
    {
        Opened { name, snapshot }
    }

    /// Whether the dataset has this text.
    pub fn is(&self, name: &str) -> bool
        ensures { result ≡ bytes_eq name.now self.now.name }
    {
        name == self.name.as_str()
    }

    /// The dataset's text.
    pub fn name(&self) -> &str
        ensures { result.now ≡ self.now.name }
    {
        self.name.as_str()
    }

    /// What the table listed.
    pub fn snapshot(&self) -> &Snapshot<F, Z>
        ensures { result.now ≡ self.now.shown }
    {
        &self.snapshot
    }
}
