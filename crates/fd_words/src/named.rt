ghost use Rattle.std.specs.Prelude.{◌≡◌, IfOk, string_bytes};

use fd_bytes::NoMemory;
use std::alloc::Global;
use std::marker::{Model, PhantomData};

/// A text that a word gives. What it names tells the mark, so that texts of two marks aren't mixed up.
#[derive(Drop)]
pub struct Named<M> {
    text: String,
    mark: PhantomData<M>,
}

/// Marks the root of a store.
pub struct OfRoot;

/// Marks a dataset.
pub struct OfDataset;

/// The root of a store, as a word names it.
pub type Root = Named<OfRoot>;

/// The text of a dataset, as a word gives it.
pub type Dataset = Named<OfDataset>;

impl<M> Model for Named<M> {
    ghost use Rattle.std.specs.Prelude.{ℕ, List, string_bytes};

    ghost Value = { List ℕ };

    ghost view = { λ n. string_bytes n.text };
}

impl<M> Named<M> {
    /// What has this text.
    pub fn new(alloc: Global, text: &str) -> Result<Named<M>, NoMemory>
        ensures { IfOk result (λ n. n ≡ text.now) }
    {
        let text = String::from_str(alloc, text)?;
        Ok(Named {
            text,
            mark: PhantomData,
        })
    }

    /// The text.
    pub fn as_str(&self) -> &str
        ensures { result.now ≡ self.now }
    {
        self.text.as_str()
    }
}
