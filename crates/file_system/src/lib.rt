//! What a page file needs of a system: files by their names, and what the device keeps of them.
#![tactic(auto)]

mod facts;
mod host_system;
mod lock;
mod system;

pub use facts::{ChangeTime, FileFacts, FileKind};
pub use host_system::{HostFile, HostSystem};
pub use lock::Lock;
pub use system::{System, SystemFile};
