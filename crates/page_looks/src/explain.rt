use crate::finding::{Expected, Finding};
use crate::log_head::LogHead;
use crate::page_view::PageView;
use crate::show::draw_level;
use crate::tree_look::{Levels, Stop, look_through};
use crate::unopened::{open_regular, tell_unopened};
use btree_node::{
    COUNT_AT, Header, HeaderFault, ORDER_AT, PAGES_AT, ROOT_AT, STATE_AT, VERSION_AT, read_header,
};
use file_system::{HostSystem, Lock};
use page_journal::{Beside, FileDisk, OpeningFault, log_name, refused_beside, side_name};
use rec_types::{MOST_RECORDS, PAGE_WIDTH};
use std::alloc::Global;
use std::fs::{OpenFile, OpenOptions};
use std::io;
use std::io::Write;
use std::os::unix::fs::{FileExt, MetadataExt};
use std::rt::Files;

// The most pages that a file has.
pub(crate) const MOST_PAGES: u64 = 1_000_001;

// The shape of a tree.
fn tell_shape<W: Write>(out: &mut W, tree: &Levels, header: &Header) -> io::Result<()> {
    let (levels, keys, pages) = (tree.levels().len(), tree.keys(), tree.pages());
    let free = header.pages.saturating_sub(1).saturating_sub(pages);
    writeln!(
        out,
        "the tree: levels {levels}, keys {keys}, pages {pages}, and {free} pages are free"
    )?;
    for (i, level) in tree.levels().iter().enumerate() {
        write!(out, "  ")?;
        draw_level(out, i.saturating_add(1), level, header.order)?;
    }
    Ok(())
}

// The fields of page 0, whatever they are.
pub(crate) fn tell_header<W: Write>(out: &mut W, page: &PageView<'_>) -> io::Result<()> {
    let (version, order) = (page.short(VERSION_AT), page.short(ORDER_AT));
    let (pages, root, records) = (
        page.number(PAGES_AT),
        page.number(ROOT_AT),
        page.number(COUNT_AT),
    );
    let state = page.byte(STATE_AT);
    writeln!(out, "page 0:")?;
    writeln!(out, "  bytes 8 and 9, the version: {version}")?;
    writeln!(out, "  bytes 10 and 11, the order: {order}")?;
    writeln!(out, "  bytes 12 to 15, the pages: {pages}")?;
    writeln!(out, "  bytes 16 to 19, the root: {root}")?;
    writeln!(out, "  bytes 20 to 23, the records: {records}")?;
    writeln!(out, "  byte 24, the state: {state}")
}

fn in_header(at: usize, stands: u32, expected: Expected) -> Finding {
    Finding {
        page: 0,
        at,
        stands,
        expected,
    }
}

// The first byte of page 0 that belongs to no field and isn't zero, where the state is known.
fn stray_state(page: &PageView<'_>) -> Finding {
    let state = page.byte(STATE_AT);
    if state != 1 {
        return in_header(STATE_AT, u32::from(state), Expected::State);
    }
    for (at, byte) in page.bytes.iter().enumerate().skip(STATE_AT + 1) {
        if *byte != 0 {
            return in_header(at, u32::from(*byte), Expected::Zero);
        }
    }
    in_header(STATE_AT, u32::from(state), Expected::State)
}

// What makes page 0 no header.
pub(crate) fn header_finding(page: &PageView<'_>, fault: HeaderFault) -> Finding {
    match fault {
        HeaderFault::BadMagic => in_header(0, u32::from(page.byte(0)), Expected::Magic),
        HeaderFault::BadVersion(version) => {
            in_header(VERSION_AT, u32::from(version), Expected::Version)
        }
        HeaderFault::BadOrder => {
            in_header(ORDER_AT, u32::from(page.short(ORDER_AT)), Expected::Order)
        }
        HeaderFault::NotClean => {
            in_header(STATE_AT, u32::from(page.byte(STATE_AT)), Expected::Clean)
        }
        HeaderFault::BadHeader => stray_state(page),
    }
}

// What is wrong with the numbers of pages in the header.
pub(crate) fn wrong_pages(header: &Header, pages: u64) -> Option<Finding> {
    if u64::from(header.pages) != pages {
        return Some(in_header(PAGES_AT, header.pages, Expected::Pages(pages)));
    }
    if header.root >= header.pages {
        return Some(in_header(ROOT_AT, header.root, Expected::Root(header.pages)));
    }
    None
}

// What is wrong with the number of records in the header.
pub(crate) fn wrong_count(header: &Header, keys: u32) -> Option<Finding> {
    if header.count == keys {
        return None;
    }
    Some(in_header(COUNT_AT, header.count, Expected::Records(keys)))
}

// What a user can do.
fn advice(expected: Expected) -> &'static str {
    match expected {
        Expected::Magic => "This is no page file: look for the path of one.",
        Expected::Version => "A later program may have written this file: open it with that one.",
        Expected::Clean | Expected::State => {
            "A closing was stopped: with a side file beside it, an empty run puts the file right; else take a copy from before it."
        }
        _ =>
            "The file was changed by something else, or its device failed: take a copy from before it, or dump an older one.",
    }
}

// Tells of what was found. The file isn't whole.
pub(crate) fn tell_finding<W: Write>(out: &mut W, finding: &Finding) -> io::Result<bool> {
    writeln!(out, "{finding}")?;
    let text = advice(finding.expected);
    writeln!(out, "{text}")?;
    Ok(false)
}

// Tells that a page can't be read. The file may be whole or not.
fn tell_unread<W: Write>(out: &mut W, page: u32, error: &io::Error) -> io::Result<bool> {
    writeln!(out, "page {page} can't be read: {error}")?;
    Ok(false)
}

// Tells of a tree of which all pages are whole, and answers whether the header counts its keys.
fn explain_count<W: Write>(out: &mut W, tree: &Levels, header: &Header) -> io::Result<bool> {
    tell_shape(out, tree, header)?;
    match wrong_count(header, tree.keys()) {
        Some(finding) => tell_finding(out, &finding),
        None if header.count > MOST_RECORDS => {
            writeln!(out, "a session may have at most {MOST_RECORDS} records")?;
            Ok(false)
        }
        None => Ok(true),
    }
}

// Tells of the tree of a file whose header is whole, and answers whether the tree is.
fn explain_tree<F: FileExt, W: Write>(
    alloc: Global,
    file: &F,
    header: &Header,
    out: &mut W,
) -> io::Result<bool> {
    match look_through(alloc, file, header) {
        Ok((_, Some(Stop::Found(finding)))) => tell_finding(out, &finding),
        Ok((_, Some(Stop::Unread(page, error)))) => tell_unread(out, page, &error),
        Ok((tree, None)) => explain_count(out, &tree, header),
        Err(_) => {
            writeln!(out, "there is no memory to look at the pages")?;
            Ok(false)
        }
    }
}

// Tells of page 0, and goes on to the tree.
fn explain_pages<F: FileExt, W: Write>(
    alloc: Global,
    file: &F,
    pages: u64,
    out: &mut W,
) -> io::Result<bool> {
    let mut page = [0; PAGE_WIDTH];
    if let Err(error) = file.read_exact_at(&mut page, 0) {
        return tell_unread(out, 0, &error);
    }
    let view = PageView {
        bytes: &page,
        version: 0,
        order: 0,
    };
    tell_header(out, &view)?;
    let header = match read_header(&page) {
        Ok(header) => header,
        Err(fault) => return tell_finding(out, &header_finding(&view, fault)),
    };
    match wrong_pages(&header, pages) {
        Some(finding) => tell_finding(out, &finding),
        None => explain_tree(alloc, file, &header, out),
    }
}

// Tells of the length of a file, and goes on to its pages.
fn explain_length<F: FileExt, W: Write>(
    alloc: Global,
    file: &F,
    len: u64,
    out: &mut W,
) -> io::Result<bool> {
    let (pages, tail) = (len / PAGE_WIDTH as u64, len % PAGE_WIDTH as u64);
    writeln!(
        out,
        "the length: {len} bytes, {pages} pages of {PAGE_WIDTH} and {tail} bytes more"
    )?;
    if pages == 0 || pages > MOST_PAGES || tail != 0 {
        writeln!(
            out,
            "a page file has 1 to {MOST_PAGES} pages and no bytes after them: it was cut, or it is none"
        )?;
        return Ok(false);
    }
    explain_pages(alloc, file, pages, out)
}

// Tells of a file that is opened to be read whether it is opened to be written, too.
fn tell_opened<F: Drop, H: Files<File = F>, W: Write>(
    rt: &H,
    path: &str,
    out: &mut W,
) -> io::Result<()> {
    match OpenOptions::new().read(true).write(true).open(rt, path) {
        Ok(_) => writeln!(out, "{path} is opened to be read and written"),
        Err(error) => tell_unwritten(path, &error, out),
    }
}

// Tells why a file isn't opened to be written that is opened to be read.
pub(crate) fn tell_unwritten<W: Write>(
    path: &str,
    error: &io::Error,
    out: &mut W,
) -> io::Result<()> {
    writeln!(
        out,
        "{path} is opened to be read, but not to be written: {error}"
    )
}

// Tells of the other names of a file.
pub(crate) fn tell_names<W: Write>(path: &str, names: u64, out: &mut W) -> io::Result<()> {
    if names < 2 {
        return Ok(());
    }
    writeln!(
        out,
        "{path} is one of {names} names of the file: each has a side file of its own, so keep one of them"
    )
}

// The error of want of memory.
fn no_memory() -> io::Error {
    io::Error::from(io::ErrorKind::OutOfMemory)
}

// Tells why there is no name for a side file of the file at a path.
fn tell_unnamed<F: OpenFile + FileExt + Lock + Drop, H: Files<File = F>, W: Write>(
    rt: &H,
    alloc: Global,
    path: &str,
    out: &mut W,
) -> io::Result<()> {
    match rt.canonicalize(alloc, path) {
        Ok(_) => writeln!(
            out,
            "its name is too long for that of a side file beside it: no session opens it"
        ),
        Err(error) if error.kind() == io::ErrorKind::OutOfMemory => Err(error),
        Err(error) => writeln!(
            out,
            "the system doesn't tell the whole path of {path}: {error}"
        ),
    }
}

// Tells of the side file of the file at a path, and answers what stands beside it; none where it can't be read.
fn tell_side<F: OpenFile + FileExt + Lock + Drop, H: Files<File = F>, W: Write>(
    rt: &H,
    alloc: Global,
    path: &str,
    name: &str,
    out: &mut W,
) -> io::Result<Option<Beside>> {
    let beside = match FileDisk::beside(HostSystem::new(rt), alloc, path) {
        Ok(beside) => beside,
        Err(OpeningFault::Memory) => return Err(no_memory()),
        Err(_) => {
            writeln!(out, "what stands beside it can't be read: {name}")?;
            return Ok(None);
        }
    };
    match beside {
        Beside::Nothing => {}
        Beside::OldPages => writeln!(
            out,
            "beside it stands {name}: a session was stopped while it closed the file, and the next one puts the old pages back"
        )?,
        Beside::Stray => writeln!(
            out,
            "beside it stands {name}, and it isn't the whole side file of this file: a session answers BadJournal. Bring back the file that it belongs to, or take it away"
        )?,
    }
    Ok(Some(beside))
}

// Tells of a log of commits with that head, beside a file that has that side file or none.
fn tell_commits<W: Write>(
    out: &mut W,
    name: &str,
    head: &LogHead,
    side: Option<Beside>,
) -> io::Result<()> {
    let advice = match side {
        Some(Beside::Nothing) if head.is_over => {
            "A session was stopped before it closed the file, and the next one puts them in"
        }
        Some(Beside::Nothing) => {
            "It was begun over other pages: where they change a record, a session answers BadCommits. Bring back the file that it belongs to, or move it away"
        }
        _ => "Whether it is one of this file can't be told before the old pages are put back",
    };
    let commits = head.commits;
    writeln!(
        out,
        "beside it stands {name}, a log of commits, {commits} in number. {advice}"
    )
}

// Tells of the log of commits of the file at a path, and answers whether one stands beside it.
fn tell_log<F: OpenFile + FileExt + Lock + Drop, H: Files<File = F>, W: Write>(
    rt: &H,
    alloc: Global,
    path: &str,
    side: Option<Beside>,
    out: &mut W,
) -> io::Result<bool> {
    let system = HostSystem::new(rt);
    let found = FileDisk::log_beside(HostSystem::new(rt), alloc, path);
    if let Ok(None) = &found {
        return Ok(false);
    }
    let name = match log_name(&system, alloc, path) {
        Ok(name) => name,
        Err(_) => return Err(no_memory()),
    };
    match found {
        Ok(None) => {}
        Ok(Some(log)) => match LogHead::of(alloc, &log) {
            Ok(Some(head)) => tell_commits(out, name.as_str(), &head, side)?,
            Ok(None) => writeln!(
                out,
                "beside it stands {name}, and it has no head of a log of commits of version 1: a session answers BadCommits. Move it away"
            )?,
            Err(_) => return Err(no_memory()),
        },
        Err(OpeningFault::BadCommits) => writeln!(
            out,
            "beside it stands {name}, and it is no regular file: a session answers BadCommits. Move it away"
        )?,
        Err(OpeningFault::Memory) => return Err(no_memory()),
        Err(_) => writeln!(out, "what stands beside it can't be read: {name}")?,
    }
    Ok(true)
}

// Tells of the side file and of the log of commits of the file at a path, and answers whether something stands beside it; none
// where no side file can have a name.
fn tell_beside<F: OpenFile + FileExt + Lock + Drop, H: Files<File = F>, W: Write>(
    rt: &H,
    alloc: Global,
    path: &str,
    out: &mut W,
) -> io::Result<Option<bool>> {
    let name = match side_name(&HostSystem::new(rt), alloc, path) {
        Ok(name) => name,
        Err(OpeningFault::Memory) => return Err(no_memory()),
        Err(_) => {
            tell_unnamed(rt, alloc, path, out)?;
            return Ok(None);
        }
    };
    let side = tell_side(rt, alloc, path, name.as_str(), out)?;
    let log = tell_log(rt, alloc, path, side, out)?;
    Ok(Some(log || side != Some(Beside::Nothing)))
}

/// Tells what stands beside the file at a path, where it is read without that. What can't be told isn't. Error: want of
/// memory.
pub(crate) fn tell_left_beside<F: OpenFile + FileExt + Lock + Drop, H: Files<File = F>, E: Write>(
    rt: &H,
    alloc: Global,
    path: &str,
    err: &mut E,
) -> io::Result<()> {
    match tell_beside(rt, alloc, path, err) {
        Ok(Some(true)) => {
            let _ = writeln!(err, "left out: what stands beside {path}");
            Ok(())
        }
        Err(error) if error.kind() == io::ErrorKind::OutOfMemory => Err(error),
        _ => Ok(()),
    }
}

// Tells whether the system refuses what is made in the folder of a path, by a closing or by `create`, behind what then
// can't be done.
fn tell_room<F: OpenFile + FileExt + Lock + Drop, H: Files<File = F>, W: Write>(
    rt: &H,
    alloc: Global,
    path: &str,
    what: &str,
    out: &mut W,
) -> io::Result<()> {
    match refused_beside(&HostSystem::new(rt), alloc, path) {
        Ok(Some(error)) => writeln!(out, "{what}: {error}"),
        Err(OpeningFault::Memory) => Err(no_memory()),
        _ => Ok(()),
    }
}

// Tells of an open file, and of what stands beside it, and answers whether it is whole and alone.
fn explain_open<F: OpenFile + FileExt + Lock + Drop, H: Files<File = F>, W: Write>(
    rt: &H,
    alloc: Global,
    path: &str,
    file: &F,
    out: &mut W,
) -> io::Result<bool> {
    let metadata = match file.metadata() {
        Ok(metadata) => metadata,
        Err(error) => {
            writeln!(out, "the system doesn't tell its length: {error}")?;
            return Ok(false);
        }
    };
    tell_opened(rt, path, out)?;
    tell_names(path, metadata.nlink(), out)?;
    let what = "no session can close it, since the system makes no file beside it";
    tell_room(rt, alloc, path, what, out)?;
    let stopped = tell_beside(rt, alloc, path, out)?;
    if !explain_length(alloc, file, metadata.len(), out)? {
        return Ok(false);
    }
    match stopped {
        Some(true) => writeln!(
            out,
            "the file is whole by itself, and not with what stands beside it"
        )?,
        Some(false) => writeln!(out, "the file is whole")?,
        None => writeln!(out, "the file is whole, and no session opens it")?,
    }
    Ok(stopped == Some(false))
}

// Tells why the lock of an open file isn't taken. The file may be whole or not.
pub(crate) fn tell_locked<W: Write>(
    path: &str,
    error: &io::Error,
    out: &mut W,
) -> io::Result<bool> {
    if error.kind() == io::ErrorKind::WouldBlock {
        writeln!(
            out,
            "another program has {path} open: ask again when it has ended"
        )?;
    } else {
        writeln!(out, "the system doesn't lock {path}: {error}")?;
    }
    Ok(false)
}

/// Tells what the file of a path is, in words, and answers whether it is a whole page file: whether the system opens it,
/// or what keeps it from that; whether another program has it open; its other names; what stands beside it under the name
/// of its side file; whether the system makes a file in its folder, as a closing and `create` need; its length, each field
/// of its header, and the shape of its tree; or the first check that fails, with the place, what stands there, what was
/// expected, and what can be done. It only reads the file, and waits for nothing: a folder, a pipe and a device are named
/// and not opened. Errors are those of the writer, behind which a front of the text is written, and want of memory.
pub fn explain_file<F: OpenFile + FileExt + Lock + Drop, H: Files<File = F>, W: Write>(
    rt: &H,
    alloc: Global,
    path: &str,
    out: &mut W,
) -> io::Result<bool> {
    let file = match open_regular(rt, path) {
        Ok(file) => file,
        Err(fault) => {
            tell_unopened(rt, path, &fault, out)?;
            if fault.is_missing() {
                tell_room(rt, alloc, path, "none can be made there", out)?;
            }
            return Ok(false);
        }
    };
    match file.try_lock_shared() {
        Ok(()) => explain_open(rt, alloc, path, &file, out),
        Err(error) => tell_locked(path, &error, out),
    }
}
