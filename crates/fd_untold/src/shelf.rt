// One writer's files in one dataset.
use crate::fault::copied;
use crate::{Files, SystemFault, UntoldDisk};
use fd_bytes::NoMemory;
use fd_disk::{Down, FileKind, FileName, Shelf};
use fd_unsynced::Writing;
use std::alloc::Global;

/// How many bytes of small writes to a file of fields are gathered.
const GATHERED: usize = 65_536;

/// One writer's files in one dataset. They stand in the folder from the first write or sync of one of a batch on.
#[derive(Drop)]
pub struct UntoldShelf<N> {
    pub(crate) name: String,
    pub(crate) folder: String,
    pub(crate) files: N,
    pub(crate) writer: u32,
    pub(crate) faults: u64,
}

impl<N: Files> Shelf<SystemFault> for UntoldShelf<N> {
    ghost use Rattle.std.specs.Prelude.{None, false, string_bytes};

    type Sealed = N::Sealed;

    type File = N::Gathered;

    ghost kept = { λ s. None };

    ghost created = { λ s n. false };

    ghost writer = { λ s. s.writer };

    ghost name = { λ s. string_bytes s.name };

    ghost faults = { λ s. s.faults };

    /// It is made by the first write or sync, so nothing fails here but want of memory.
    fn create(
        &mut self,
        alloc: Global,
        seq: u32,
        kind: FileKind,
    ) -> Result<N::Gathered, Down<SystemFault>> {
        let made = FileName {
            writer: self.writer,
            seq,
            kind,
        };
        let name = copied(alloc, self.name.as_str())?;
        let Ok(device) = self.files.device(alloc, self.folder.as_str(), made) else {
            return Err(Down::NoMemory);
        };
        let disk = UntoldDisk {
            name,
            made: Some(made),
            file: Writing::empty(device),
            extent: 0,
            is_synced: false,
            faults: 0,
        };
        let room = match kind {
            FileKind::Fields => GATHERED,
            FileKind::Index => 0,
        };
        match self.files.gathered(alloc, disk, room) {
            Ok(file) => Ok(file),
            Err(_) => Err(Down::NoMemory),
        }
    }

    #[tactic(auto, using(crate::proofs::Keeping::untold_both))]
    fn keep(
        &mut self,
        alloc: Global,
        seq: u32,
        fields: &N::Sealed,
        index: &N::Sealed,
    ) -> Result<(), NoMemory> {
        let _ = alloc;
        let _ = seq;
        let _ = fields;
        let _ = index;
        Ok(())
    }
}

/// The path of a file: `FOLDER/WRITER-SEQ.fields` or `FOLDER/WRITER-SEQ.index`.
pub fn path_of(alloc: Global, folder: &str, file: FileName) -> Result<String, NoMemory> {
    let kind = match file.kind {
        FileKind::Fields => "fields",
        FileKind::Index => "index",
    };
    match format!(in alloc; "{folder}/{}-{}.{kind}", file.writer, file.seq) {
        Ok(path) => Ok(path),
        Err(_) => Err(NoMemory),
    }
}
