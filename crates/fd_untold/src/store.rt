// A store.
ghost use Rattle.std.specs.{Prelude.{◌≤◌, IfOk}, List.Sorted.{IsStrictlySortedBy}};
ghost use Rattle.fd_bytes.specs.Causes.{Rose};

use crate::fault::{counted, told};
use crate::{Root, System, SystemFault, UntoldFolder};
use fd_bytes::NoMemory;
use fd_disk::{Down, Store};
use fd_unsynced::Unsynced;
use std::alloc::{AllocError, Global};
use std::collections::BTreeSet;
use std::io;
use std::io::ErrorKind;

/// A store over a system's files, in the folder that was entered last.
#[derive(Drop)]
pub struct UntoldStore<S> {
    system: S,
    root: String,
    faults: u64,
    /// The datasets of whose tables a sync has failed, and whether there are others.
    lost: BTreeSet<String>,
    are_others_lost: bool,
}

impl<S: System> UntoldStore<S> {
    /// The store in the folder where the process runs.
    pub fn new(alloc: Global, host: HostRuntime) -> Result<UntoldStore<S>, NoMemory> {
        Ok(UntoldStore {
            system: S::new(alloc, host)?,
            root: String::from_str(alloc, ".")?,
            faults: 0,
            lost: BTreeSet::new(alloc),
            are_others_lost: false,
        })
    }
}

impl<S: System> Store<SystemFault> for UntoldStore<S> {
    ghost use Rattle.std.specs.Prelude.{None, false};

    type Folder = UntoldFolder<S::Place>;

    ghost has = { λ s. None };

    ghost out = { λ s name. false };

    ghost faults = { λ s. s.faults };

    /// A root without a name is a fault.
    fn enter(&mut self, alloc: Global, root: &str) -> Result<(), Down<SystemFault>> {
        if root.is_empty() {
            return Err(Down::Fault(unfit(&mut self.faults)));
        }
        let Ok(root) = String::from_str(alloc, root) else {
            return Err(Down::NoMemory);
        };
        if self.system.enter(alloc).is_err() {
            return Err(Down::NoMemory);
        }
        self.root = root;
        Ok(())
    }

    fn schema(&mut self, alloc: Global) -> Result<Option<Vec<u8>>, Down<SystemFault>> {
        let Ok(path) = joined(alloc, self.root.as_str(), "schema") else {
            return Err(Down::NoMemory);
        };
        match self.system.whole(alloc, path.as_str()) {
            Ok(text) => Ok(text),
            Err(error) => Err(told(&mut self.faults, error)),
        }
    }

    /// A root that another process has locked is a fault, and so is a schema that it has made meanwhile.
    fn plant(&mut self, alloc: Global, text: &[u8]) -> Result<(), Down<SystemFault>> {
        let (Ok(path), Ok(unfinished), Ok(lock)) = (
            joined(alloc, self.root.as_str(), "schema"),
            joined(alloc, self.root.as_str(), "schema.new"),
            joined(alloc, self.root.as_str(), "lock"),
        ) else {
            return Err(Down::NoMemory);
        };
        let planted = plant(
            &self.system,
            self.root.as_str(),
            lock.as_str(),
            unfinished.as_str(),
            path.as_str(),
            text,
        );
        match planted {
            Ok(()) => Ok(()),
            Err(error) => Err(Down::Fault(counted(&mut self.faults, error))),
        }
    }

    fn names(&mut self, alloc: Global) -> Result<Vec<String>, Down<SystemFault>> {
        let mut names = BTreeSet::new(alloc);
        if let Err(error) = self.system.gather(alloc, self.root.as_str(), &mut names) {
            return Err(told(&mut self.faults, error));
        }
        match in_order(alloc, names) {
            Ok(names) => Ok(names),
            Err(_) => Err(Down::NoMemory),
        }
    }

    /// A name that no folder can have is a fault.
    fn folder(
        &mut self,
        alloc: Global,
        name: &str,
    ) -> Result<UntoldFolder<S::Place>, Down<SystemFault>> {
        if !is_plain(name) {
            return Err(Down::Fault(unfit(&mut self.faults)));
        }
        let (Ok(text), Ok(place)) = (
            String::from_str(alloc, name),
            self.system.place(alloc, self.root.as_str(), name),
        ) else {
            return Err(Down::NoMemory);
        };
        let unsynced = unsynced_of(&self.lost, self.are_others_lost, name);
        Ok(UntoldFolder {
            name: text,
            place,
            table_out: false,
            last_writer: 0,
            faults: 0,
            unsynced,
        })
    }

    /// What a failed sync may have lost of its table is lost when it is handed out again. Its lock is let go.
    fn give_folder(&mut self, folder: UntoldFolder<S::Place>) {
        if folder.unsynced.is_lost() && self.lost.insert(folder.into_name()).is_err() {
            self.are_others_lost = true;
        }
    }

    fn note(&mut self, fault: SystemFault) {
        let _ = fault;
        self.faults = self.faults.saturating_add(1);
    }
}

// Counts a name that can't be one.
fn unfit(faults: &mut u64) -> SystemFault
    ensures count { Rose faults.old faults.new }
    ensures later { faults.old ≤ faults.new }
{
    counted(faults, io::Error::from(ErrorKind::InvalidInput))
}

// Makes the root, firm with each folder above it that isn't there, and then the schema in it.
fn plant<S: Root>(
    system: &S,
    root: &str,
    lock: &str,
    unfinished: &str,
    path: &str,
    text: &[u8],
) -> io::Result<()> {
    system.make_folders(root)?;
    let _lock = system.lock(lock)?;
    system.plant(root, unfinished, path, text)
}

// What may not be firm of the table of a dataset that isn't out.
fn unsynced_of(lost: &BTreeSet<String>, are_others_lost: bool, name: &str) -> Unsynced {
    if are_others_lost || lost.contains(name) {
        return Unsynced::lost();
    }
    Unsynced::found()
}

// The name stands for one folder in the root, and for no other file.
fn is_plain(name: &str) -> bool {
    !name.is_empty() && name != "." && name != ".." && !name.contains('/')
}

// The path of what a folder has under this name.
fn joined(alloc: Global, folder: &str, name: &str) -> Result<String, AllocError> {
    format!(in alloc; "{folder}/{name}")
}

// The names as a list.
fn in_order(alloc: Global, names: BTreeSet<String>) -> Result<Vec<String>, AllocError>
    ensures sorted { IfOk result (λ v. IsStrictlySortedBy ⟦<String as Ord>⟧.cmp v.items) }
{
    let _count = names.len();
    names.into_iter().collect(alloc)
}
