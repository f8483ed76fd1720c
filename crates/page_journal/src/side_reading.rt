ghost use Rattle.std.specs.Prelude.{◌≡◌, ◌⊎◌, ◌+◌, ◌*◌, ◌≤◌, length, take, drop, IfOk, IfErr};
ghost use Rattle.byteorder.specs.Endian.{big_number};
ghost use Rattle.rec_types.specs.Widths.{page_width};
ghost use Rattle.page_journal.specs.SideBytes.{header_width, read_entries, read_rest, read_side};

use crate::blank::blank_page;
use crate::mem_files::OldPages;
use crate::opening_fault::OpeningFault;
use crate::side_bytes::{
    ENTRY_WIDTH, HEADER_WIDTH, blank_entry, blank_header, entries_in, entry_start,
};
use crate::side_tally::SideTally;
use byteorder::{BigEndian, ByteOrder};
use rec_types::{Memory, PAGE_WIDTH};
use std::alloc::Global;

/// The second version of a side file.
const VERSION: u16 = 2;

// The version that the bytes of a side file say.
fn version_said(bytes: &[u8]) -> u16
    requires { 40 ≤ length bytes.now }
    ensures { result ≡ big_number 2 (drop 8 bytes.now) }
{
    BigEndian::read_u16(&bytes[8..])
}

// The sum over the other pages, where they are of the second version.
fn sum_said(bytes: &[u8]) -> u64
    requires { 40 ≤ length bytes.now }
    ensures { result ≡ big_number 8 (drop 24 bytes.now) }
{
    BigEndian::read_u64(&bytes[24..])
}

// That sum, where they say one.
fn rest_said(bytes: &[u8]) -> Option<u64>
    requires { 40 ≤ length bytes.now }
    ensures { result ≡ read_rest bytes.now }
{
    if version_said(bytes) == VERSION {
        Some(sum_said(bytes))
    } else {
        None
    }
}

// The number of four bytes at a place.
fn number_said(bytes: &[u8], at: usize) -> u32
    requires { at + 4 ≤ length bytes.now }
    ensures { result ≡ big_number 4 (drop at bytes.now) }
{
    BigEndian::read_u32(&bytes[at..])
}

// The page at a place.
fn page_said(bytes: &[u8], at: usize) -> [u8; PAGE_WIDTH]
    requires { at + page_width ≤ length bytes.now }
    ensures { result ≡ take page_width (drop at bytes.now) }
{
    let mut page = blank_page();
    page.copy_from_slice(&bytes[at..at + PAGE_WIDTH]);
    page
}

// Its old pages with their numbers, of which there are so many. Fault: Memory.
fn entries_said(
    alloc: Global,
    bytes: &[u8],
    rest: Option<u64>,
    count: u32,
) -> Result<Vec<(u32, [u8; PAGE_WIDTH])>, Memory>
    requires { length bytes.now ≡ header_width rest + 4100 * count }
    ensures { IfOk result (λ pages. pages.items ≡ read_entries count (drop (header_width rest) bytes.now)) }
{
    let mut pages = Vec::new(alloc);
    for i in 0..count {
        let at = entry_start(rest, i) as usize;
        let n = number_said(bytes, at);
        let page = page_said(bytes, at + 4);
        pages.push((n, page))?;
    }
    Ok(pages)
}

// Whether these old pages may be there, and their sum is the one that the header says.
fn is_summed(bytes: &[u8], long: u32, rest: Option<u64>, count: u32) -> bool
    requires header { 40 ≤ length bytes.now }
    requires whole { length bytes.now ≡ header_width rest + 4100 * count }
{
    let mut tally = SideTally::new(long, rest);
    let mut entry = blank_entry();
    for i in 0..count {
        let at = entry_start(rest, i) as usize;
        entry.copy_from_slice(&bytes[at..at + ENTRY_WIDTH]);
        if !tally.take(&entry) {
            return false;
        }
    }
    let mut header = blank_header();
    header.copy_from_slice(&bytes[..HEADER_WIDTH]);
    tally.ends(&header)
}

/// What the bytes of a side file say. Faults: BadJournal, where they are none's, by their length, their pages or their
/// sum; Memory.
pub(crate) fn side_of(alloc: Global, bytes: &[u8]) -> Result<OldPages, OpeningFault>
    ensures value { IfOk result (λ kept. kept ≡ read_side bytes.now) }
    ensures fault { IfErr result (λ fault.
        (fault ≡ OpeningFault.BadJournal) ⊎ (fault ≡ OpeningFault.Memory)) }
{
    if bytes.len() < HEADER_WIDTH {
        return Err(OpeningFault::BadJournal);
    }
    let rest = rest_said(bytes);
    let long = number_said(bytes, 12);
    let said = number_said(bytes, 16);
    let Some(count) = entries_in(rest, bytes.len() as u64) else {
        return Err(OpeningFault::BadJournal);
    };
    if count != said {
        return Err(OpeningFault::BadJournal);
    }
    if !is_summed(bytes, long, rest, count) {
        return Err(OpeningFault::BadJournal);
    }
    let pages = entries_said(alloc, bytes, rest, count)?;
    Ok(OldPages { long, rest, pages })
}
