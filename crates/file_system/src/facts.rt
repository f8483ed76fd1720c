ghost use Rattle.std.specs.Prelude.{◌↔◌, IsTrue};
ghost use Rattle.file_system.specs.Facts.{IsSameFile};

use std::fs::Metadata;
use std::os::unix::fs::MetadataExt;

/// What stands behind a name.
#[derive(Clone, Copy, Debug, PartialEq, Eq)]
pub enum FileKind {
    /// A regular file.
    File,
    Folder,
    /// A symbolic link.
    Link,
    /// A pipe, a socket or a device.
    Other,
}

/// When something was changed last, by the clock of its file system, whose steps may be some milliseconds.
#[derive(Clone, Copy, Debug, PartialEq, Eq, PartialOrd, Ord)]
pub struct ChangeTime {
    pub seconds: i64,
    pub nanoseconds: i64,
}

/// What a file is besides its bytes.
#[derive(Clone, Copy, Debug)]
pub struct FileFacts {
    pub kind: FileKind,
    /// In bytes.
    pub len: u64,
    /// Who may read and write it, the lowest nine bits of the system's mode.
    pub mode: u32,
    pub owner: u32,
    pub group: u32,
    /// How many names it has.
    pub links: u64,
    /// The device that it is on, and its number there: no two files have both.
    pub device: u64,
    pub node: u64,
    /// When its bytes were, or in a folder its names.
    pub changed: ChangeTime,
}

impl FileFacts {
    /// Those that the system tells.
    pub(crate) fn of(metadata: &Metadata) -> FileFacts {
        FileFacts {
            kind: kind_of(metadata),
            len: metadata.len(),
            mode: metadata.mode() & 0o777,
            owner: metadata.uid(),
            group: metadata.gid(),
            links: metadata.nlink(),
            device: metadata.dev(),
            node: metadata.ino(),
            changed: ChangeTime {
                seconds: metadata.mtime(),
                nanoseconds: metadata.mtime_nsec(),
            },
        }
    }

    /// Whether both are of one file, by whatever names.
    pub fn is_same_file(&self, other: &FileFacts) -> bool
        ensures { IsTrue result ↔ IsSameFile self.now other.now }
    {
        self.device == other.device && self.node == other.node
    }
}

fn kind_of(metadata: &Metadata) -> FileKind {
    if metadata.is_file() {
        FileKind::File
    } else if metadata.is_dir() {
        FileKind::Folder
    } else if metadata.is_symlink() {
        FileKind::Link
    } else {
        FileKind::Other
    }
}
