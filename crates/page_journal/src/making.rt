ghost use Rattle.std.specs.Prelude.{◌≡◌, [], IfOk};

use crate::blank::blank_page;
use crate::fresh_side::BEING_MADE;
use crate::opening_fault::OpeningFault;
use crate::side_names::SideNames;
use file_system::{System, SystemFile};
use page_store::FileStore;
use std::alloc::Global;
use std::io;
use std::os::unix::fs::FileExt;

/// Whether nothing has the name, not even a link. Fault: Device.
pub(crate) fn is_free<H: System>(rt: &H, name: &str) -> Result<bool, OpeningFault> {
    match rt.facts_here(name) {
        Ok(_) => Ok(false),
        Err(error) if error.kind() == io::ErrorKind::NotFound => Ok(true),
        Err(_) => Err(OpeningFault::Device),
    }
}

/// Makes a page file without pages at a path where there is none, locked as one that is opened to be written. Faults:
/// Device, as where there is a file, or its name is too long for that of a side file; BadJournal, where something has the
/// name of its side file, and BadCommits, where something has that of its log of commits, which stays; Memory. No file was made
/// then.
pub fn make_file<H: System<File = F>, F: SystemFile + Drop>(
    rt: &H,
    alloc: Global,
    path: &str,
) -> Result<FileStore<F>, OpeningFault>
    ensures empty { IfOk result (λ store. (store.pages ≡ []) × (store.tail ≡ 0)) }
{
    let names = SideNames::of_new(rt, alloc, path)?;
    if !is_free(rt, names.main.as_str())? {
        return Err(OpeningFault::Device);
    }
    if !is_free(rt, names.side.as_str())? {
        return Err(OpeningFault::BadJournal);
    }
    if !is_free(rt, names.log.as_str())? {
        return Err(OpeningFault::BadCommits);
    }
    match FileStore::create_new(rt, names.main.as_str()) {
        Ok(store) => Ok(store),
        Err(_) => Err(OpeningFault::Device),
    }
}

/// Has the device keep the name of a file that was made at a path. Faults: Device, Memory.
pub fn keep_made<H: System>(rt: &H, alloc: Global, path: &str) -> Result<(), OpeningFault> {
    let names = SideNames::of_new(rt, alloc, path)?;
    rt.open_folder(names.folder.as_str())?.sync_all()?;
    Ok(())
}

/// Takes a file away that was made at a path and isn't to stay, where the path still leads to it. It needs no memory, which
/// may be why the file isn't to stay. Fault: Device.
pub fn take_away<H: System<File = F>, F: SystemFile + Drop>(
    rt: &H,
    path: &str,
    made: &FileStore<F>,
) -> Result<(), OpeningFault> {
    if made.is_at(rt, path) {
        rt.remove(path)?;
    }
    Ok(())
}

// Has the device keep a page of a file.
fn keep_page<F: SystemFile>(file: &F) -> io::Result<()> {
    file.write_all_at(&blank_page(), 0)?;
    file.sync_all()
}

// Makes a file of a page under a name that nothing has, and takes it away again.
fn try_making<H: System<File = F>, F: SystemFile + Drop>(rt: &H, name: &str) -> io::Result<()> {
    let file = rt.make_new(name, BEING_MADE)?;
    let kept = keep_page(&file);
    if rt.facts_here(name)?.is_same_file(&file.facts()?) {
        rt.remove(name)?;
    }
    kept
}

/// What keeps the system from what a file that is made at a path, and a closing of one that is there, need: a file of a page
/// in its folder. One is made for that, and taken away again. Nothing is tried where something has the name of a side file
/// that is being made. Faults: Device, as where there is no such folder, or its name is too long; Memory.
pub fn refused_beside<H: System<File = F>, F: SystemFile + Drop>(
    rt: &H,
    alloc: Global,
    path: &str,
) -> Result<Option<io::Error>, OpeningFault> {
    let names = match rt.facts_of(path) {
        Ok(_) => SideNames::of(rt, alloc, path)?,
        Err(_) => SideNames::of_new(rt, alloc, path)?,
    };
    match try_making(rt, names.fresh.as_str()) {
        Err(error) if error.kind() != io::ErrorKind::AlreadyExists => Ok(Some(error)),
        _ => Ok(None),
    }
}
