use crate::opening_fault::OpeningFault;
use file_system::System;
use rec_types::Memory;
use std::alloc::Global;
use std::io;
use std::path::Path;

/// What the side file's name has behind the file's, and what it has besides while it is made.
const SIDE: &str = "-journal";

/// And what that of a log of commits has.
const LOG: &str = "-commits";

const NEW: &str = "-new";

/// How many bytes a name in a folder may have.
const MOST_NAME: usize = 255;

/// Where a file and what stands beside it are, without links.
#[derive(Drop)]
pub(crate) struct SideNames {
    pub(crate) main: String,
    /// The side file that an opening looks for.
    pub(crate) side: String,
    /// The side file that is being made.
    pub(crate) fresh: String,
    /// The log of commits that an opening looks for.
    pub(crate) log: String,
    /// The log that is being made.
    pub(crate) fresh_log: String,
    pub(crate) folder: String,
}

impl SideNames {
    /// The names for the file at a path. Faults: Device, as where there is no file, or its name is too long for that of a
    /// side file; Memory.
    pub(crate) fn of<H: System>(
        rt: &H,
        alloc: Global,
        path: &str,
    ) -> Result<SideNames, OpeningFault> {
        let main = whole_path(rt, alloc, path)?;
        let Some(folder) = Path::new(main.as_str()).parent() else {
            return Err(OpeningFault::Device);
        };
        let folder = longer(alloc, folder.as_str(), "")?;
        SideNames::in_folder(alloc, folder, main)
    }

    /// The names for a file that is to be made at a path. Faults as of `of`, but for the file itself.
    pub(crate) fn of_new<H: System>(
        rt: &H,
        alloc: Global,
        path: &str,
    ) -> Result<SideNames, OpeningFault> {
        let path = Path::new(path);
        let (Some(name), Some(folder)) = (path.file_name(), path.parent()) else {
            return Err(OpeningFault::Device);
        };
        let folder = match folder.as_str() {
            "" => whole_path(rt, alloc, ".")?,
            named => whole_path(rt, alloc, named)?,
        };
        let within = longer(alloc, folder.as_str(), "/")?;
        let main = longer(alloc, within.as_str(), name)?;
        SideNames::in_folder(alloc, folder, main)
    }

    // Those of a file in that folder. Faults: Device, where the name is too long; Memory.
    fn in_folder(alloc: Global, folder: String, main: String) -> Result<SideNames, OpeningFault> {
        let side = longer(alloc, main.as_str(), SIDE)?;
        let fresh = longer(alloc, side.as_str(), NEW)?;
        let log = longer(alloc, main.as_str(), LOG)?;
        let fresh_log = longer(alloc, log.as_str(), NEW)?;
        match Path::new(fresh.as_str()).file_name() {
            Some(name) if name.len() <= MOST_NAME => {}
            _ => return Err(OpeningFault::Device),
        }
        Ok(SideNames {
            main,
            side,
            fresh,
            log,
            fresh_log,
            folder,
        })
    }
}

// A path without links. Faults: Device, Memory.
fn whole_path<H: System>(rt: &H, alloc: Global, path: &str) -> Result<String, OpeningFault> {
    match rt.true_path(alloc, path) {
        Ok(whole) => Ok(whole),
        Err(error) if error.kind() == io::ErrorKind::OutOfMemory => Err(OpeningFault::Memory),
        Err(_) => Err(OpeningFault::Device),
    }
}

// A name with more behind it. Fault: Memory.
fn longer(alloc: Global, name: &str, more: &str) -> Result<String, Memory> {
    let mut name = String::from_str(alloc, name)?;
    name.push_str(more)?;
    Ok(name)
}
