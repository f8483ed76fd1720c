use crate::disk::Disk;
use crate::kept_store::MOST_PAGES;
use crate::logging::read_back;
use crate::recovering::sum_pages;
use crate::side_tally::SUM_START;
use page_store::StoreFault;
use std::alloc::Global;

/// The log of commits that was found beside a page file.
#[derive(Drop)]
pub struct LogBeside {
    /// The text of its finished units, of which the first is the head.
    pub text: Vec<u8>,
    /// How many pages the file has.
    pub pages: u64,
    /// The sum over them, but of a file with more than 1,000,001.
    pub sum: Option<u64>,
}

impl LogBeside {
    /// The log that a disk has, where one has the name that an opening looks for. It changes nothing. Faults: Failed, Memory.
    pub(crate) fn of<D: Disk>(
        alloc: Global,
        disk: &mut D,
    ) -> Result<Option<LogBeside>, StoreFault> {
        let Some(text) = read_back(alloc, disk)? else {
            return Ok(None);
        };
        let pages = disk.shape()?.pages;
        let sum = if pages > MOST_PAGES {
            None
        } else {
            Some(sum_pages(disk, SUM_START, 0, pages as u32)?)
        };
        Ok(Some(LogBeside { text, pages, sum }))
    }
}
