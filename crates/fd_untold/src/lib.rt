//! A store over a system's files: a folder for each dataset, with the files `toc`, `W-Q.fields` and `W-Q.index`, and the
//! file `schema` beside them. What is asked of the system are the traits `Root` and `System`, `Ground` and `Place`,
//! `Files`, `Sealing` and `Path` and that of `fd_unsynced`, a call or two a method; everything else is here: the names of
//! files, what counts as a fault, what of a table that is handed out again may not be firm, and how much is gathered and
//! read ahead. The store tells no contents. Only a trait's own methods and functions whose bounds don't ask for `Send` are
//! called in it where a trait of `fd_disk` is met: of others nothing is known there of what may be sent to a thread.
#![tactic(auto)]

mod disk;
mod fault;
mod folder;
mod path;
mod renewing;
mod shelf;
mod store;
mod system;

pub use disk::UntoldDisk;
pub use fault::SystemFault;
pub use folder::UntoldFolder;
pub use path::{Path, PathReader, room_of};
pub use shelf::{UntoldShelf, path_of};
pub use store::UntoldStore;
pub use system::{Files, Ground, Place, Root, Sealing, System};
