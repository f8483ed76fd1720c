use crate::page_files::PageFiles;
use file_session::FileFault;
use page_looks::Wanted;
use std::alloc::Global;
use std::fmt::Display;
use std::io::Write;

/// Names a fault, in a line of its own.
pub fn tell<F: Display, E: Write>(err: &mut E, fault: &F) {
    let _ = writeln!(err, "recfile: {fault}");
}

/// Names the fault, where there is one.
pub fn tell_fault_of<A, F: Display, E: Write>(err: &mut E, answer: &Result<A, F>) {
    if let Err(fault) = answer {
        tell(err, fault);
    }
}

/// Tells why the file at a path isn't made, read or written, where its device failed.
pub fn tell_device<P: PageFiles, E: Write>(
    files: &P,
    alloc: Global,
    wanted: Wanted,
    path: &str,
    fault: Option<FileFault>,
    err: &mut E,
) {
    if fault == Some(FileFault::Device) {
        files.tell_why(alloc, wanted, path, err);
    }
}
