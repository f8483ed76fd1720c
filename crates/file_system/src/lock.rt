use std::fs::File;
use std::io;
use std::os::fd::AsRawFd;

/// The advisory lock on a whole file, which ends where the file is closed. It waits for nobody.
pub trait Lock: AsRawFd {
    /// Takes the lock that no other opening of the file shares. It fails where another opening has a lock.
    fn try_lock(&self) -> io::Result<()>;

    /// Takes the lock that other openings of the file may share. It fails where another opening has the one that isn't
    /// shared.
    fn try_lock_shared(&self) -> io::Result<()>;
}

impl Lock for File {
    fn try_lock(&self) -> io::Result<()> {
        Ok(File::try_lock(self)?)
    }

    fn try_lock_shared(&self) -> io::Result<()> {
        Ok(File::try_lock_shared(self)?)
    }
}
