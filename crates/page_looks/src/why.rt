use crate::explain::{tell_locked, tell_names, tell_unwritten};
use crate::unopened::{folder_of, open_regular, tell_missing_folder, tell_unopened};
use file_system::{HostSystem, Lock};
use page_journal::refused_beside;
use std::alloc::Global;
use std::fs::{OpenFile, OpenOptions};
use std::io;
use std::io::Write;
use std::os::unix::fs::{FileExt, MetadataExt};
use std::rt::Files;

/// What a file was wanted for: to be made, to be read, or to be read and written.
#[derive(Clone, Copy, Debug, PartialEq, Eq)]
pub enum Wanted {
    Made,
    Read,
    Written,
}

// The most bytes of a name beside which there is room for that of a side file.
const MOST_NAME: usize = 243;

// Tells whether the name of a path is longer than that.
fn tell_long<E: Write>(path: &str, err: &mut E) -> io::Result<bool> {
    let name = path.rsplit('/').next().unwrap_or(path);
    if name.len() <= MOST_NAME {
        return Ok(false);
    }
    writeln!(
        err,
        "{path} has a name too long for that of a side file beside it"
    )?;
    Ok(true)
}

// Tells why nothing can be made beside the file of a path, and whether anything keeps it from that.
fn tell_beside<F: OpenFile + FileExt + Lock + Drop, H: Files<File = F>, E: Write>(
    rt: &H,
    alloc: Global,
    path: &str,
    err: &mut E,
) -> io::Result<bool> {
    let folder = folder_of(path);
    match refused_beside(&HostSystem::new(rt), alloc, path) {
        Ok(Some(error)) => {
            writeln!(err, "the system makes no file in {folder}: {error}")?;
            Ok(true)
        }
        Ok(None) => Ok(false),
        Err(_) => tell_long(path, err),
    }
}

// Tells what keeps a file from being made at a path.
fn tell_unmade<F: OpenFile + FileExt + Lock + Drop, H: Files<File = F>, E: Write>(
    rt: &H,
    alloc: Global,
    path: &str,
    err: &mut E,
) -> io::Result<bool> {
    if rt.symlink_metadata(path).is_ok() {
        writeln!(err, "{path} is there, and stays as it is")?;
        return Ok(true);
    }
    if tell_missing_folder(rt, path, err)? {
        return Ok(true);
    }
    tell_beside(rt, alloc, path, err)
}

// Tells what keeps an open file from being locked as it was wanted.
fn tell_unlocked<F: Lock, E: Write>(
    file: &F,
    wanted: Wanted,
    path: &str,
    err: &mut E,
) -> io::Result<bool> {
    let locked = match wanted {
        Wanted::Read => file.try_lock_shared(),
        _ => file.try_lock(),
    };
    match locked {
        Ok(()) => Ok(false),
        Err(error) => {
            tell_locked(path, &error, err)?;
            Ok(true)
        }
    }
}

// Tells what keeps a file from being written that is opened to be read.
fn tell_unclosed<F: OpenFile + FileExt + Lock + Drop, H: Files<File = F>, E: Write>(
    rt: &H,
    alloc: Global,
    path: &str,
    file: &F,
    err: &mut E,
) -> io::Result<bool> {
    if let Err(error) = OpenOptions::new().read(true).write(true).open(rt, path) {
        tell_unwritten(path, &error, err)?;
        return Ok(true);
    }
    if let Ok(metadata) = file.metadata() {
        if metadata.nlink() > 1 {
            tell_names(path, metadata.nlink(), err)?;
            return Ok(true);
        }
    }
    tell_beside(rt, alloc, path, err)
}

// Tells what keeps a file that is there from being opened.
fn tell_kept<F: OpenFile + FileExt + Lock + Drop, H: Files<File = F>, E: Write>(
    rt: &H,
    alloc: Global,
    wanted: Wanted,
    path: &str,
    err: &mut E,
) -> io::Result<bool> {
    let file = match open_regular(rt, path) {
        Ok(file) => file,
        Err(fault) => {
            tell_unopened(rt, path, &fault, err)?;
            return Ok(true);
        }
    };
    if tell_unlocked(&file, wanted, path, err)? {
        return Ok(true);
    }
    if wanted == Wanted::Written {
        return tell_unclosed(rt, alloc, path, &file, err);
    }
    tell_long(path, err)
}

/// Tells in a line or two why the system may have refused what was wanted of the file at a path, by what it answers now. It
/// writes to no file but one that it makes in the folder of the path and takes away again. Errors are those of the writer.
pub fn tell_why<F: OpenFile + FileExt + Lock + Drop, H: Files<File = F>, E: Write>(
    rt: &H,
    alloc: Global,
    wanted: Wanted,
    path: &str,
    err: &mut E,
) -> io::Result<()> {
    let told = match wanted {
        Wanted::Made => tell_unmade(rt, alloc, path, err)?,
        _ => tell_kept(rt, alloc, wanted, path, err)?,
    };
    if told {
        return Ok(());
    }
    writeln!(
        err,
        "a call of the system for {path} failed, and now nothing is found that keeps it: its device may be full, or fail at times"
    )
}
