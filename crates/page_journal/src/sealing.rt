ghost use Rattle.std.specs.Prelude.{◌≡◌, ◌≤◌, ℕ, List, Some, false, length, IsTrue, OnOk, IfOk, slice_index_or};
ghost use Rattle.page_store.specs.FreeNumbers.{greatest_page_count};
ghost use Rattle.page_journal.specs.Files.{SideFile, AscendBelow, restored};
ghost use Rattle.page_journal.specs.Sums.{sum_without};
ghost use Rattle.page_journal.specs.Steps.{CallsLeave, CountsFault, Stays, begun};
ghost use Rattle.page_journal.specs.Crash.{LeavesLogs, LeavesOnly, IsSettled, IsSealed, FilesStandFor, Gathered, KeepsMarked};

use crate::blank::blank_page;
use crate::disk::Disk;
use crate::side_bytes::sum_on;
use crate::side_tally::SUM_START;
use page_store::StoreFault;

// The sum over the pages of a file that aren't marked.
fn sum_of_rest<D: Disk>(disk: &mut D, marks: &[bool]) -> Result<u64, StoreFault>
    requires long { length marks.now ≡ length (D.seen disk.old).main.pages }
    requires most { length marks.now ≤ greatest_page_count }
    ensures stays { Stays D.DiskState disk.old disk.new }
    ensures fault { CountsFault D.DiskState disk.old result disk.new }
    ensures sum { IsTrue (D.steady disk.old) → IfOk result (λ sum. sum
        ≡ sum_without (λ n. slice_index_or marks.now n false) (length marks.now)
        (D.seen disk.old).main.pages) }
{
    let mut page = blank_page();
    let mut sum = SUM_START;
    for n in 0..marks.len() {
        if !marks[n] {
            disk.read(n as u32, &mut page)?;
            sum = sum_on(sum, &page);
        }
    }
    Ok(sum)
}

// Adds the marked pages of a file to the side file that is being made.
fn gather<D: Disk>(disk: &mut D, marks: &[bool]) -> Result<(), StoreFault>
    requires long { length marks.now ≡ length (D.seen disk.old).main.pages }
    requires most { length marks.now ≤ greatest_page_count }
    requires settled { IsTrue (D.steady disk.old)
        → IsSettled D.DiskState (D.seen disk.old).main disk.old }
    requires fresh { IsTrue (D.steady disk.old) → (rest : ℕ)
        × ((D.seen disk.old).fresh ≡ begun (length marks.now) rest) }
    ensures calls { CallsLeave D.DiskState disk.old result disk.new }
    ensures logs { LeavesLogs D.DiskState disk.old disk.new }
    ensures same { (D.seen disk.new).main ≡ (D.seen disk.old).main }
    ensures settled { IsTrue (D.steady disk.old)
        → IsSettled D.DiskState (D.seen disk.old).main disk.new }
    ensures any_moment { IsTrue (D.steady disk.old) → LeavesOnly D.DiskState
        (FilesStandFor (D.seen disk.old).main) disk.old disk.new }
    ensures kept { IsTrue (D.steady disk.old) → OnOk result
        (Gathered (D.seen disk.old).main.pages (D.seen disk.new).fresh
        × KeepsMarked marks.now (D.seen disk.new).fresh
        × AscendBelow 0 (length marks.now) (D.seen disk.new).fresh.pages
        × ((D.seen disk.new).fresh.rest ≡ (D.seen disk.old).fresh.rest)) }
{
    let mut page = blank_page();
    for n in 0..marks.len() {
        if marks[n] {
            let number = n as u32;
            disk.read(number, &mut page)?;
            disk.keep(number, &page)?;
        }
    }
    Ok(())
}

/// Keeps the marked pages in a side file beside the file, and gives that its name; there is a mark for each page of the
/// file. Until then a crash leaves the file as it is. From then on it leaves that file whatever is written over these
/// pages and past the old end, as long as the file isn't cut to less than it had.
///
/// The file has no tail and at most 1,000,001 pages, and the device keeps it with no side file beside it. Fault:
/// Failed; no page of the file has changed then, and a side file may have the name.
pub fn seal<D: Disk>(disk: &mut D, marks: &[bool]) -> Result<(), StoreFault>
    requires long { length marks.now ≡ length (D.seen disk.old).main.pages }
    requires most { length (D.seen disk.old).main.pages ≤ greatest_page_count }
    requires no_tail { (D.seen disk.old).main.tail ≡ 0 }
    requires settled { IsTrue (D.steady disk.old)
        → IsSettled D.DiskState (D.seen disk.old).main disk.old }
    ensures calls { CallsLeave D.DiskState disk.old result disk.new }
    ensures logs { LeavesLogs D.DiskState disk.old disk.new }
    ensures same { (D.seen disk.new).main ≡ (D.seen disk.old).main }
    ensures sealed { IsTrue (D.steady disk.old) → OnOk result ((kept : SideFile)
        × IsSealed D.DiskState kept (D.seen disk.old).main.pages disk.new
        × (restored kept (D.seen disk.old).main.pages ≡ (D.seen disk.old).main)
        × (kept.long ≡ length (D.seen disk.old).main.pages) × KeepsMarked marks.now kept) }
    ensures any_moment { IsTrue (D.steady disk.old) → LeavesOnly D.DiskState
        (FilesStandFor (D.seen disk.old).main) disk.old disk.new }
{
    let rest = sum_of_rest(disk, marks)?;
    disk.start(marks.len() as u32, rest)?;
    gather(disk, marks)?;
    disk.sync_fresh()?;
    disk.name()?;
    disk.sync_names()?;
    Ok(())
}
