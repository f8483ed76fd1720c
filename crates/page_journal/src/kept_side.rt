ghost use Rattle.std.specs.Prelude.{◌≡◌, ◌<◌, ◌≤◌, IfOk, IfSome};
ghost use Rattle.page_store.specs.FreeNumbers.{greatest_page_count};

use crate::fresh_side::BEING_MADE;
use crate::opening_fault::OpeningFault;
use crate::side_bytes::{
    HEADER_WIDTH, blank_entry, blank_header, entries_in, entry_start, long_of, number_of, page_of,
    rest_of,
};
use crate::side_shape::SideShape;
use crate::side_tally::SideTally;
use file_system::{FileFacts, FileKind, System, SystemFile};
use rec_types::PAGE_WIDTH;
use std::io;
use std::os::unix::fs::FileExt;

/// The error of a call that a side file can't serve.
pub(crate) fn no_such_call() -> io::Error {
    io::Error::from(io::ErrorKind::InvalidInput)
}

/// A whole side file, of which it is known how many pages it has.
#[derive(Drop)]
pub(crate) struct KeptSide<F> {
    file: F,
    shape: SideShape,
}

impl<F: SystemFile + Drop> KeptSide<F> {
    /// Opens the side file of that name, where there is one, beside a file of so many pages and that mode, and has the
    /// device keep it. One that a stop left with the mode of its making gets that of the file. Faults: Device, as where
    /// it is no regular file; BadJournal, where it isn't whole or the file has fewer pages than it had.
    pub(crate) fn open<H: System<File = F>>(
        rt: &H,
        name: &str,
        mode: u32,
        pages: u64,
    ) -> Result<Option<KeptSide<F>>, OpeningFault>
        ensures { IfOk result (λ found. IfSome found (λ side.
            (side.shape.long ≤ pages) × (1 ≤ side.shape.kept))) }
    {
        match rt.facts_of(name) {
            Ok(found) if found.kind == FileKind::File && found.mode == BEING_MADE => {
                rt.set_mode(name, mode)?;
            }
            Ok(_) => {}
            Err(error) if error.kind() == io::ErrorKind::NotFound => return Ok(None),
            Err(_) => return Err(OpeningFault::Device),
        }
        let side = KeptSide::named(rt, name, pages)?;
        side.file.sync_all()?;
        Ok(Some(side))
    }

    /// The side file of that name, as it stands, where there is one, beside a file of so many pages. Faults: Device, as
    /// where it is no regular file; BadJournal, where it isn't whole or the file has fewer pages than it had.
    pub(crate) fn look<H: System<File = F>>(
        rt: &H,
        name: &str,
        pages: u64,
    ) -> Result<Option<KeptSide<F>>, OpeningFault>
        ensures { IfOk result (λ found. IfSome found (λ side.
            (side.shape.long ≤ pages) × (1 ≤ side.shape.kept))) }
    {
        match rt.facts_here(name) {
            Ok(_) => Ok(Some(KeptSide::named(rt, name, pages)?)),
            Err(error) if error.kind() == io::ErrorKind::NotFound => Ok(None),
            Err(_) => Err(OpeningFault::Device),
        }
    }

    // The side file that has that name. Faults as of `look`.
    fn named<H: System<File = F>>(
        rt: &H,
        name: &str,
        pages: u64,
    ) -> Result<KeptSide<F>, OpeningFault>
        ensures { IfOk result (λ side.
            (side.shape.long ≤ pages) × (1 ≤ side.shape.kept)) }
    {
        let file = rt.open_read(name)?;
        let shape = whole_shape(&file)?;
        if pages < u64::from(shape.long) {
            return Err(OpeningFault::BadJournal);
        }
        Ok(KeptSide { file, shape })
    }

    /// A file that is a side file of that shape.
    pub(crate) fn of(file: F, shape: SideShape) -> KeptSide<F>
        ensures { result.shape ≡ shape }
    {
        KeptSide { file, shape }
    }

    /// What it says of its length, and of the other pages.
    pub(crate) fn shape(&self) -> SideShape
        ensures { result ≡ self.now.shape }
    {
        self.shape
    }

    /// Which file it is.
    pub(crate) fn facts(&self) -> io::Result<FileFacts> {
        self.file.facts()
    }

    /// Reads the i-th of its old pages, from 0, and answers the number of that page.
    pub(crate) fn read(&self, i: u32, to: &mut [u8; PAGE_WIDTH]) -> io::Result<u32>
        ensures { IfOk result (λ _. i < self.now.shape.kept) }
    {
        if i >= self.shape.kept {
            return Err(no_such_call());
        }
        let mut entry = blank_entry();
        self.file
            .read_exact_at(&mut entry, entry_start(self.shape.rest, i))?;
        page_of(&entry, to);
        Ok(number_of(&entry))
    }
}

// What a side file says of its length. Faults: Device; BadJournal, where its bytes are no side file's.
fn whole_shape<F: SystemFile + Drop>(file: &F) -> Result<SideShape, OpeningFault>
    ensures { IfOk result (λ shape. (1 ≤ shape.kept) × (shape.long ≤ greatest_page_count)) }
{
    let len = file.facts()?.len;
    if len < HEADER_WIDTH as u64 {
        return Err(OpeningFault::BadJournal);
    }
    let mut header = blank_header();
    file.read_exact_at(&mut header, 0)?;
    let rest = rest_of(&header);
    let Some(count) = entries_in(rest, len) else {
        return Err(OpeningFault::BadJournal);
    };
    let tally = read_all(file, SideTally::new(long_of(&header), rest), count)?;
    if !tally.ends(&header) {
        return Err(OpeningFault::BadJournal);
    }
    Ok(tally.shape())
}

// Reads so many old pages of a side file. Faults: Device; BadJournal, where one may not come next.
fn read_all<F: SystemFile + Drop>(
    file: &F,
    tally: SideTally,
    count: u32,
) -> Result<SideTally, OpeningFault> {
    let rest = tally.shape().rest;
    let mut tally = tally;
    let mut entry = blank_entry();
    for i in 0..count {
        file.read_exact_at(&mut entry, entry_start(rest, i))?;
        if !tally.take(&entry) {
            return Err(OpeningFault::BadJournal);
        }
    }
    Ok(tally)
}
