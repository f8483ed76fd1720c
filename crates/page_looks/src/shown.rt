use crate::explain::{
    MOST_PAGES, header_finding, tell_left_beside, tell_locked, wrong_count, wrong_pages,
};
use crate::page_view::PageView;
use crate::picture::draw_picture;
use crate::show::draw_lines;
use crate::unopened::{open_regular, tell_unopened};
use btree_node::{Header, read_header};
use file_system::Lock;
use rec_types::PAGE_WIDTH;
use std::alloc::Global;
use std::fs::OpenFile;
use std::io;
use std::io::Write;
use std::os::unix::fs::FileExt;
use std::rt::Files;

/// How a tree is drawn: in lines of text, or as a picture in SVG.
#[derive(Clone, Copy, Debug, PartialEq, Eq)]
pub enum Drawing {
    Lines,
    Picture,
}

// The header of a file, where page 0 is one; else what is wrong with it is told.
pub(crate) fn header_of<F: FileExt, E: Write>(file: &F, err: &mut E) -> Option<Header> {
    let mut page = [0; PAGE_WIDTH];
    if let Err(error) = file.read_exact_at(&mut page, 0) {
        let _ = writeln!(err, "page 0 can't be read: {error}");
        return None;
    }
    let view = PageView {
        bytes: &page,
        version: 0,
        order: 0,
    };
    match read_header(&page) {
        Ok(header) => Some(header),
        Err(fault) => {
            let finding = header_finding(&view, fault);
            let _ = writeln!(err, "{finding}");
            None
        }
    }
}

// Draws the tree of a header, in a file of so many pages, and answers whether all of it is as it should be.
fn show_tree<F: FileExt, W: Write, E: Write>(
    alloc: Global,
    file: &F,
    header: &Header,
    drawing: Drawing,
    out: &mut W,
    err: &mut E,
) -> io::Result<bool> {
    let (whole, keys) = match drawing {
        Drawing::Lines => draw_lines(alloc, file, header, out)?,
        Drawing::Picture => draw_picture(alloc, file, header, out)?,
    };
    match wrong_count(header, keys) {
        Some(finding) => {
            let _ = writeln!(err, "{finding}");
            Ok(false)
        }
        None => Ok(whole),
    }
}

// Draws the tree of an open file, and answers whether all of it is as it should be.
fn show_open<F: OpenFile + FileExt, W: Write, E: Write>(
    alloc: Global,
    file: &F,
    drawing: Drawing,
    out: &mut W,
    err: &mut E,
) -> io::Result<bool> {
    let pages = match file.metadata() {
        Ok(metadata) => metadata.len() / PAGE_WIDTH as u64,
        Err(error) => {
            let _ = writeln!(err, "the system doesn't tell its length: {error}");
            return Ok(false);
        }
    };
    let Some(header) = header_of(file, err) else {
        return Ok(false);
    };
    let found = wrong_pages(&header, pages);
    if let Some(finding) = &found {
        let _ = writeln!(err, "{finding}");
    }
    // Only the pages that are there are looked at.
    let pages = u32::try_from(pages.min(MOST_PAGES)).unwrap_or(u32::MAX);
    let header = Header { pages, ..header };
    let whole = show_tree(alloc, file, &header, drawing, out, err)?;
    Ok(whole && found.is_none())
}

/// Draws the tree of the file of a path on `out`, and answers whether all of it is as it should be: of a damaged file what
/// is whole is drawn, and what isn't is told, beside its page or on `err`, and so is a side file or a log of commits beside
/// it. It only reads the file, and waits for nothing.
/// Errors are those of the writer, behind which a front of the drawing is written, and want of memory.
pub fn show_file<F: OpenFile + FileExt + Lock + Drop, H: Files<File = F>, W: Write, E: Write>(
    rt: &H,
    alloc: Global,
    path: &str,
    drawing: Drawing,
    out: &mut W,
    err: &mut E,
) -> io::Result<bool> {
    let file = match open_regular(rt, path) {
        Ok(file) => file,
        Err(fault) => {
            let _ = tell_unopened(rt, path, &fault, err);
            return Ok(false);
        }
    };
    match file.try_lock_shared() {
        Ok(()) => {
            tell_left_beside(rt, alloc, path, err)?;
            show_open(alloc, &file, drawing, out, err)
        }
        Err(error) => {
            let _ = tell_locked(path, &error, err);
            Ok(false)
        }
    }
}
