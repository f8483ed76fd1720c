ghost use Rattle.std.specs.Prelude.{◌≡◌, true};
ghost use Rattle.std.specs.Fs.{asks_create_new};

use crate::facts::{FileFacts, FileKind};
use crate::lock::Lock;
use crate::system::{System, SystemFile};
use std::alloc::Global;
use std::fs::{OpenFile, OpenOptions, Permissions};
use std::io;
use std::os::unix::fs::{FileExt, OpenOptionsExt, PermissionsExt};
use std::rt::Files;

/// The greatest of the descriptors of standard input, output and error.
const LAST_STANDARD: i32 = 2;

// How a file is made: of that mode, and where nothing has its name.
fn to_make(mode: u32) -> OpenOptions
    ensures { asks_create_new result ≡ true }
{
    let mut how = OpenOptions::new();
    how.mode(mode);
    how.read(true);
    how.write(true);
    how.create_new(true);
    how
}

/// The system that the program's runtime reaches.
#[derive(Clone, Copy)]
pub struct HostSystem<'a, H> {
    rt: &'a H,
}

impl<'a, H> HostSystem<'a, H> {
    /// That of this runtime.
    pub fn new(rt: &'a H) -> HostSystem<'a, H> {
        HostSystem { rt }
    }
}

/// A file of it.
#[derive(Drop)]
pub struct HostFile<F> {
    file: F,
}

impl<F: OpenFile + Lock + Drop> HostFile<F> {
    // A file that was opened, by a descriptor that is no standard one: where a program was started without standard
    // output, what it prints would go into the file.
    fn of(file: F) -> io::Result<HostFile<F>> {
        if file.as_raw_fd() > LAST_STANDARD {
            return Ok(HostFile { file });
        }
        let file = file.try_clone()?;
        Ok(HostFile { file })
    }
}

impl<F: FileExt + Drop> FileExt for HostFile<F> {
    fn read_at(&self, buf: &mut [u8], offset: u64) -> io::Result<usize> {
        self.file.read_at(buf, offset)
    }

    fn write_at(&self, buf: &[u8], offset: u64) -> io::Result<usize> {
        self.file.write_at(buf, offset)
    }
}

impl<F: OpenFile + FileExt + Lock + Drop> SystemFile for HostFile<F> {
    fn facts(&self) -> io::Result<FileFacts> {
        Ok(FileFacts::of(&self.file.metadata()?))
    }

    fn set_len(&self, len: u64) -> io::Result<()> {
        self.file.set_len(len)
    }

    fn sync_all(&self) -> io::Result<()> {
        self.file.sync_all()
    }

    fn sync_data(&self) -> io::Result<()> {
        self.file.sync_data()
    }

    fn try_lock(&self) -> io::Result<()> {
        self.file.try_lock()
    }

    fn try_lock_shared(&self) -> io::Result<()> {
        self.file.try_lock_shared()
    }

    fn set_mode(&self, mode: u32) -> io::Result<()> {
        self.file.set_permissions(Permissions::from_mode(mode))
    }
}

impl<'a, F: OpenFile + FileExt + Lock + Drop, H: Files<File = F>> HostSystem<'a, H> {
    // Opens the regular file of that name so.
    fn open_regular(&self, name: &str, how: &OpenOptions) -> io::Result<HostFile<F>> {
        if self.facts_of(name)?.kind != FileKind::File {
            return Err(io::Error::from(io::ErrorKind::InvalidInput));
        }
        HostFile::of(how.open(self.rt, name)?)
    }
}

impl<'a, F: OpenFile + FileExt + Lock + Drop, H: Files<File = F>> System for HostSystem<'a, H> {
    type File = HostFile<F>;

    fn open_update(&self, name: &str) -> io::Result<HostFile<F>> {
        self.open_regular(name, OpenOptions::new().read(true).write(true))
    }

    fn open_read(&self, name: &str) -> io::Result<HostFile<F>> {
        self.open_regular(name, OpenOptions::new().read(true))
    }

    fn open_folder(&self, name: &str) -> io::Result<HostFile<F>> {
        HostFile::of(OpenOptions::new().read(true).open(self.rt, name)?)
    }

    fn make_new(&self, name: &str, mode: u32) -> io::Result<HostFile<F>> {
        HostFile::of(to_make(mode).open(self.rt, name)?)
    }

    fn facts_of(&self, name: &str) -> io::Result<FileFacts> {
        Ok(FileFacts::of(&self.rt.metadata(name)?))
    }

    fn facts_here(&self, name: &str) -> io::Result<FileFacts> {
        Ok(FileFacts::of(&self.rt.symlink_metadata(name)?))
    }

    fn set_mode(&self, name: &str, mode: u32) -> io::Result<()> {
        self.rt.set_permissions(name, Permissions::from_mode(mode))
    }

    fn set_owner(&self, name: &str, owner: u32, group: u32) -> io::Result<()> {
        self.rt.lchown(name, Some(owner), Some(group))
    }

    fn rename(&self, from: &str, to: &str) -> io::Result<()> {
        self.rt.rename(from, to)
    }

    fn remove(&self, name: &str) -> io::Result<()> {
        self.rt.remove_file(name)
    }

    fn true_path(&self, alloc: Global, path: &str) -> io::Result<String> {
        Ok(self.rt.canonicalize(alloc, path)?.into_string())
    }
}
