use std::fs::OpenOptions;
use std::io;
use std::io::Write;
use std::os::unix::fs::FileTypeExt;
use std::rt::Files;
use thiserror::Error;

/// What a path may lead to, where it leads to no file of bytes.
#[derive(Clone, Copy, Debug, PartialEq, Eq, Error)]
pub enum Other {
    #[error("a folder")]
    Folder,
    #[error("a pipe")]
    Pipe,
    #[error("a socket")]
    Socket,
    #[error("a device")]
    Device,
}

/// Why a file isn't opened to be read: the path leads to something else, or the system refuses.
#[derive(Debug, Drop)]
pub enum Unopened {
    Other(Other),
    System(io::Error),
}

impl Unopened {
    /// Whether nothing was found at the path.
    pub fn is_missing(&self) -> bool {
        match self {
            Unopened::Other(_) => false,
            Unopened::System(error) => error.kind() == io::ErrorKind::NotFound,
        }
    }
}

impl From<io::Error> for Unopened {
    fn from(error: io::Error) -> Unopened {
        Unopened::System(error)
    }
}

/// Opens the file of bytes at a path to read it. Anything else is left closed, so that nothing is waited for.
pub fn open_regular<F: Drop, H: Files<File = F>>(rt: &H, path: &str) -> Result<F, Unopened> {
    let kind = rt.metadata(path)?.file_type();
    if kind.is_dir() {
        return Err(Unopened::Other(Other::Folder));
    }
    if kind.is_fifo() {
        return Err(Unopened::Other(Other::Pipe));
    }
    if kind.is_socket() {
        return Err(Unopened::Other(Other::Socket));
    }
    if !kind.is_file() {
        return Err(Unopened::Other(Other::Device));
    }
    Ok(OpenOptions::new().read(true).open(rt, path)?)
}

/// The folder that a path names a file in.
pub fn folder_of(path: &str) -> &str {
    match path.rfind('/') {
        Some(0) => "/",
        Some(end) => &path[..end],
        None => ".",
    }
}

/// Tells whether the folder of a path is missing.
pub fn tell_missing_folder<H: Files, W: Write>(
    rt: &H,
    path: &str,
    out: &mut W,
) -> io::Result<bool> {
    let folder = folder_of(path);
    match rt.metadata(folder) {
        Ok(_) => Ok(false),
        Err(_) => {
            writeln!(out, "there is no such folder: {folder}")?;
            Ok(true)
        }
    }
}

// What can be done where nothing is found at a path.
fn tell_missing<H: Files, W: Write>(rt: &H, path: &str, out: &mut W) -> io::Result<()> {
    if rt.symlink_metadata(path).is_ok() {
        return writeln!(out, "{path} is a link to a file that isn't there");
    }
    if tell_missing_folder(rt, path, out)? {
        return Ok(());
    }
    let folder = folder_of(path);
    writeln!(
        out,
        "there is no such file in {folder}: recfile create {path} makes one"
    )
}

/// Tells why the file of a path isn't opened, and what can be done.
pub fn tell_unopened<H: Files, W: Write>(
    rt: &H,
    path: &str,
    fault: &Unopened,
    out: &mut W,
) -> io::Result<()> {
    let error = match fault {
        Unopened::Other(other) => {
            return writeln!(out, "{path} is {other}, and no page file: it isn't opened");
        }
        Unopened::System(error) => error,
    };
    writeln!(out, "the system doesn't open {path}: {error}")?;
    match error.kind() {
        io::ErrorKind::NotFound => tell_missing(rt, path, out),
        io::ErrorKind::PermissionDenied => writeln!(
            out,
            "you have no rights to read it, or to go through its folder: ask its owner, or run as one who has them"
        ),
        _ => Ok(()),
    }
}
