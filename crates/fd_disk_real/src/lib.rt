//! The real store, over std's files: a store of `fd_untold` whose system is the one on which the process runs. Each method
//! here is a call or two of `fd_host`. That a file holds what was written to it, and that what was synced stays, is trusted
//! here and in `fd_host`, and nowhere else.
#![tactic(auto)]

mod device;
mod gathered;
mod place;
mod sealed;
mod system;

pub use device::HostDevice;
use fd_untold::{SystemFault, UntoldDisk, UntoldFolder, UntoldShelf, UntoldStore};
pub use gathered::RealGathered;
pub use place::{HostFiles, HostPlace};
pub use sealed::{HostPath, RealReader, RealSealed};
pub use system::HostSystem;

/// A call of the file system that failed.
pub type RealFault = SystemFault;

/// A file that is written and read. Each call goes to the system.
pub type RealDisk = UntoldDisk<HostDevice>;

/// One writer's files in one dataset. They stand in the folder from the first write or sync of one of a batch on.
pub type RealShelf = UntoldShelf<HostFiles>;

/// One dataset: a folder that is made when its table is founded or a shelf is asked for. From then on this process is the
/// one that writes to it.
pub type RealFolder = UntoldFolder<HostPlace>;

/// A store over std's files, in the folder that was entered last.
pub type RealStore = UntoldStore<HostSystem>;
