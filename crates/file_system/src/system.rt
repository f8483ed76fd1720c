use crate::facts::FileFacts;
use std::alloc::Global;
use std::io;
use std::os::unix::fs::FileExt;

/// An open file or folder of a system. It is closed where it is dropped.
pub trait SystemFile: FileExt {
    /// What it is besides its bytes.
    fn facts(&self) -> io::Result<FileFacts>;

    /// Makes it that many bytes long. What is added is zero.
    fn set_len(&self, len: u64) -> io::Result<()>;

    /// Has the device keep it: its bytes and its length, or, of a folder, its names.
    fn sync_all(&self) -> io::Result<()>;

    /// Has the device keep its bytes and its length, and not when it was changed.
    fn sync_data(&self) -> io::Result<()>;

    /// Takes the lock that no other opening shares. It waits for nobody.
    fn try_lock(&self) -> io::Result<()>;

    /// Takes the lock that other readers share. It waits for nobody.
    fn try_lock_shared(&self) -> io::Result<()>;

    /// Says who may read and write it, whatever the process would take away from a new file's mode.
    fn set_mode(&self, mode: u32) -> io::Result<()>;
}

/// What a page file needs of a system. Names are paths; what has a name may be a link, which is followed but where it
/// says otherwise.
pub trait System {
    type File: SystemFile + Drop;

    /// Opens the regular file of that name to read and write it. Anything else is refused, and not waited for.
    fn open_update(&self, name: &str) -> io::Result<Self::File>;

    /// Opens the regular file of that name to read it. Anything else is refused, and not waited for.
    fn open_read(&self, name: &str) -> io::Result<Self::File>;

    /// Opens the folder of that name.
    fn open_folder(&self, name: &str) -> io::Result<Self::File>;

    /// Makes an empty file of that name, where nothing has it, not even a link that leads nowhere. Others may do with
    /// it at most what the mode says.
    fn make_new(&self, name: &str, mode: u32) -> io::Result<Self::File>;

    /// What has that name.
    fn facts_of(&self, name: &str) -> io::Result<FileFacts>;

    /// What has that name, where a link isn't followed.
    fn facts_here(&self, name: &str) -> io::Result<FileFacts>;

    /// Says who may read and write the file of a name.
    fn set_mode(&self, name: &str, mode: u32) -> io::Result<()>;

    /// Gives the file of a name to that owner and group.
    fn set_owner(&self, name: &str, owner: u32, group: u32) -> io::Result<()>;

    /// Gives the file the other name, at once or not at all; a file that had it has none.
    fn rename(&self, from: &str, to: &str) -> io::Result<()>;

    /// Takes the name away; of a link, the link's.
    fn remove(&self, name: &str) -> io::Result<()>;

    /// The path without links.
    fn true_path(&self, alloc: Global, path: &str) -> io::Result<String>;
}
