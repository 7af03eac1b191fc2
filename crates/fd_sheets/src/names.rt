//! The texts of datasets that were dealt to.
ghost use Rattle.std.specs.Prelude.{◌≡◌, ◌<◌, [], All, Contains, true, false, length, OnOk};
ghost use Rattle.fd_sheets.specs.Names.{HasNoted, IsKnown};

use crate::sheets::Sheet;
use fd_bytes::{Bytes, NoMemory};
use std::alloc::Global;

/// The texts of datasets that were dealt to.
#[derive(Drop)]
pub struct Names {
    pub texts: Vec<Bytes>,
}

impl Names {
    /// None was dealt to.
    pub fn new(alloc: Global) -> Names
        ensures { result.texts.items ≡ [] }
    {
        Names {
            texts: Vec::new(alloc),
        }
    }

    // The dataset with this text is one of them. The last is most likely the one.
    fn has(&self, text: &[u8]) -> bool
        ensures { result ≡ true → Contains self.now.texts.items text.now }
    {
        let count = self.texts.len();
        for i in 0..count {
            if self.texts[count - 1 - i].as_slice() == text {
                return true;
            }
        }
        false
    }

    /// Notes a dataset's text.
    pub fn note(&mut self, alloc: Global, text: &str) -> Result<(), NoMemory>
        ensures { OnOk result (HasNoted text.now self.old.texts.items self.new.texts.items) }
    {
        if self.has(text.as_bytes()) {
            return Ok(());
        }
        let text = Bytes::from_slice(alloc, text.as_bytes())?;
        self.texts.push(text)?;
        Ok(())
    }

    // The message has a place, in one of these datasets.
    fn knows(&self, sheet: &Sheet) -> bool
        ensures { result ≡ true → IsKnown self.now.texts.items sheet.now }
    {
        match &sheet.found {
            Some(Ok(place)) => self.has(place.dataset().as_bytes()),
            Some(Err(_)) => false,
            None => false,
        }
    }

    /// Each of these messages has a place, in one of these datasets.
    pub fn know_all(&self, sheets: &[Sheet]) -> bool
        ensures known { result ≡ true → All (IsKnown self.now.texts.items) sheets.now }
        ensures some { result ≡ false → 0 < length sheets.now }
    {
        for sheet in sheets {
            if !self.knows(sheet) {
                return false;
            }
        }
        true
    }
}
