//! What the store asks of a disk: files, shelves, folders and stores, what a read gives of them, what is firm, and what a
//! crash may leave of them.
#![tactic(auto)]

mod file;
mod folders;
mod law;
mod renewing;
mod shelves;
mod traits;

pub use file::{File, Range, Ranges};
pub use folders::{FileKind, FileName, is_same};
pub use law::every_image;
pub use renewing::Renew;
pub use shelves::{Folder, Shelf, Store};
pub use traits::{Disk, Down, Reader, Sealed};
