ghost use Rattle.std.specs.Prelude.{◌≡◌, ◌↔◌, ◌<◌, ◌≤◌, ℕ, List, Some, Err, length, IsTrue, IfOk, MatchOption, OnOk, slice_set};
ghost use Rattle.page_store.specs.Calls.{counted_times};
ghost use Rattle.page_journal.specs.Files.{SideFile, IsOf, Belongs, AscendBelow, is_kept, recovered, restored};
ghost use Rattle.page_journal.specs.Sums.{SumsOn, sum_without};
ghost use Rattle.page_journal.specs.Steps.{CallDoes, CallsLeave, CountsFault, Stays, TornAt, side_shape};
ghost use Rattle.page_journal.specs.Crash.{LeavesLogs, LeavesOnly, IsSettled, IsSealed, IsAtRest, StandsAs, FilesStandFor, StandsForEither, MayWrite, PutsBack};
ghost use Rattle.page_journal.specs.Recovery.{IsForeign, RecoveryLeaves};
ghost use Rattle.page_journal.specs.StandsBeside.{StandsBeside};

use crate::beside::Beside;
use crate::blank::blank_page;
use crate::disk::Disk;
use crate::recovery_fault::RecoveryFault;
use crate::side_bytes::sum_on;
use crate::side_shape::SideShape;
use crate::side_tally::SUM_START;
use page_store::StoreFault;
use rec_types::PAGE_WIDTH;

/// Writes page n, which is there. Where it is kept or past the old end, a crash leaves the old file still. Fault:
/// Failed; the page then has any bytes.
pub(crate) fn overwrite<D: Disk>(
    disk: &mut D,
    n: u32,
    page: &[u8; PAGE_WIDTH],
) -> Result<(), StoreFault>
    requires { n < length (D.seen disk.old).main.pages }
    ensures does { CallDoes D.DiskState (TornAt n) disk.old result disk.new }
    ensures page { IsTrue (D.steady disk.old) → OnOk result ((D.seen disk.new).main.pages
        ≡ slice_set (D.seen disk.old).main.pages n page.now) }
    ensures sealed { (kept : SideFile) (base : List (List ℕ)) → IsSealed D.DiskState kept base disk.old
        → MayWrite kept n → IsSealed D.DiskState kept base disk.new
        × LeavesOnly D.DiskState (FilesStandFor (restored kept base)) disk.old disk.new }
{
    disk.write(n, page)
}

/// Has the device keep the file, and then gives the old pages up: from the moment on at which the side file is gone, a
/// crash leaves the new file. Until then it leaves the old one. At `Ok` three calls of the disk have succeeded. Fault:
/// Failed; no page has changed then, and the side file may be there or not.
pub fn commit<D: Disk>(disk: &mut D) -> Result<(), StoreFault>
    ensures calls { CallsLeave D.DiskState disk.old result disk.new }
    ensures moments { OnOk result (counted_times (D.moment disk.old) 3 ≤ D.moment disk.new) }
    ensures logs { LeavesLogs D.DiskState disk.old disk.new }
    ensures same { (D.seen disk.new).main ≡ (D.seen disk.old).main }
    ensures committed { (kept : SideFile) (base : List (List ℕ))
        → IsSealed D.DiskState kept base disk.old
        → OnOk result (IsSettled D.DiskState (D.seen disk.old).main disk.new) }
    ensures any_moment { (kept : SideFile) (base : List (List ℕ))
        → IsSealed D.DiskState kept base disk.old → LeavesOnly D.DiskState
        (StandsForEither (restored kept base) (D.seen disk.old).main) disk.old disk.new }
{
    disk.sync()?;
    disk.remove()?;
    disk.sync_names()?;
    Ok(())
}

// Puts the old pages of the side file back, of which there are so many. The file has as many pages as it had then.
fn put_pages<D: Disk>(disk: &mut D, long: u32, count: u32) -> Result<(), StoreFault>
    requires long { long ≡ length (D.seen disk.old).main.pages }
    ensures calls { CallsLeave D.DiskState disk.old result disk.new }
    ensures logs { LeavesLogs D.DiskState disk.old disk.new }
    ensures tail { (D.seen disk.new).main.tail ≡ (D.seen disk.old).main.tail }
    ensures put { IsTrue (D.steady disk.old) → (kept : SideFile) (base : List (List ℕ))
        → kept.long ≡ long → length kept.pages ≡ count → IsSealed D.DiskState kept base disk.old
        → PutsBack D.DiskState kept base result disk.old disk.new }
{
    let mut page = blank_page();
    for i in 0..count {
        let n = disk.kept(i, &mut page)?;
        if n < long {
            overwrite(disk, n, &page)?;
        }
    }
    Ok(())
}

// Cuts the file to its old length, puts the old pages back and takes the side file away. The file is no shorter than it
// was.
fn put_back<D: Disk>(disk: &mut D, side: SideShape) -> Result<(), StoreFault>
    requires long { side.long ≤ length (D.seen disk.old).main.pages }
    ensures calls { CallsLeave D.DiskState disk.old result disk.new }
    ensures logs { LeavesLogs D.DiskState disk.old disk.new }
    ensures restored { IsTrue (D.steady disk.old) → (kept : SideFile) (base : List (List ℕ))
        → side_shape (Some kept) ≡ Some side → IsSealed D.DiskState kept base disk.old
        → OnOk result (IsSettled D.DiskState (restored kept base) disk.new) }
    ensures any_moment { IsTrue (D.steady disk.old) → (kept : SideFile) (base : List (List ℕ))
        → side_shape (Some kept) ≡ Some side → IsSealed D.DiskState kept base disk.old
        → LeavesOnly D.DiskState (FilesStandFor (restored kept base)) disk.old disk.new }
{
    disk.cut(side.long)?;
    put_pages(disk, side.long, side.kept)?;
    commit(disk)?;
    Ok(())
}

/// A sum over the pages up to one goes on up to another. They are there. Fault: Failed.
pub(crate) fn sum_pages<D: Disk>(
    disk: &mut D,
    sum: u64,
    from: u32,
    to: u32,
) -> Result<u64, StoreFault>
    requires there { to ≤ length (D.seen disk.old).main.pages }
    requires order { from ≤ to }
    ensures stays { Stays D.DiskState disk.old disk.new }
    ensures fault { CountsFault D.DiskState disk.old result disk.new }
    ensures sum { IsTrue (D.steady disk.old) → IfOk result
        (λ more. SumsOn (D.seen disk.old).main.pages from to sum more) }
{
    let mut page = blank_page();
    let mut sum = sum;
    for n in from..to {
        disk.read(n, &mut page)?;
        sum = sum_on(sum, &page);
    }
    Ok(sum)
}

// The sum over the pages below the old end that a side file doesn't keep, or none where the numbers of those that it
// keeps don't ascend below it. The file is no shorter than it was.
fn sum_of_others<D: Disk>(disk: &mut D, side: SideShape) -> Result<Option<u64>, StoreFault>
    requires long { side.long ≤ length (D.seen disk.old).main.pages }
    ensures stays { Stays D.DiskState disk.old disk.new }
    ensures fault { CountsFault D.DiskState disk.old result disk.new }
    ensures sum { IsTrue (D.steady disk.old) → (kept : SideFile)
        → (D.seen disk.old).side ≡ Some kept → side_shape (Some kept) ≡ Some side
        → IfOk result (λ found. MatchOption found (AscendBelow 0 kept.long kept.pages → ⊥)
        (λ sum. AscendBelow 0 kept.long kept.pages
        × (sum ≡ sum_without (is_kept kept.pages) kept.long (D.seen disk.old).main.pages))) }
{
    let mut page = blank_page();
    let mut sum = SUM_START;
    let mut next = 0;
    for i in 0..side.kept {
        let n = disk.kept(i, &mut page)?;
        if n < next || n >= side.long {
            return Ok(None);
        }
        sum = sum_pages(disk, sum, next, n)?;
        next = n + 1;
    }
    let sum = sum_pages(disk, sum, next, side.long)?;
    Ok(Some(sum))
}

// Whether a side file of that shape is one of the file.
fn belongs<D: Disk>(disk: &mut D, side: SideShape) -> Result<bool, StoreFault>
    ensures stays { Stays D.DiskState disk.old disk.new }
    ensures fault { CountsFault D.DiskState disk.old result disk.new }
    ensures long { IfOk result (λ own. IsTrue own
        → side.long ≤ length (D.seen disk.old).main.pages) }
    ensures own { IsTrue (D.steady disk.old) → (kept : SideFile)
        → (D.seen disk.old).side ≡ Some kept → side_shape (Some kept) ≡ Some side
        → IfOk result (λ own. IsTrue own ↔ IsOf kept (D.seen disk.old).main.pages) }
{
    if disk.shape()?.pages < u64::from(side.long) {
        return Ok(false);
    }
    let Some(rest) = side.rest else {
        return Ok(true);
    };
    Ok(sum_of_others(disk, side)? == Some(rest))
}

/// What stands beside the file, which is only read. Fault: Failed.
pub(crate) fn look_beside<D: Disk>(disk: &mut D) -> Result<Beside, StoreFault>
    ensures stays { Stays D.DiskState disk.old disk.new }
    ensures told { IsTrue (D.steady disk.old)
        → IfOk result (StandsBeside (D.seen disk.old)) }
{
    let Some(side) = disk.side()? else {
        return Ok(Beside::Nothing);
    };
    if !belongs(disk, side)? {
        return Ok(Beside::Stray);
    }
    Ok(Beside::OldPages)
}

/// Makes the file that the two files stand for: where a side file has the name, cuts the file to its old length, puts
/// the old pages back and takes the side file away. A crash at any moment of it leaves files that stand for the
/// same file, so it may be stopped and called again, any number of times.
///
/// It may be called after a restart, when what is read is what the device keeps, and at once after calls that failed
/// over a file whose old pages are kept aside. Faults: Device, where a call of the disk failed; BadJournal, where the
/// side file isn't one of the file, which has fewer pages than it had or others in the place of those that weren't kept:
/// no closing leaves that, and nothing has changed then.
pub fn recover<D: Disk>(disk: &mut D) -> Result<(), RecoveryFault>
    ensures leaves { RecoveryLeaves D.DiskState disk.old result disk.new }
    ensures logs { LeavesLogs D.DiskState disk.old disk.new }
    ensures recovered { IsTrue (D.steady disk.old) → IsAtRest D.DiskState disk.old → OnOk result
        (IsSettled D.DiskState (recovered (D.seen disk.old)) disk.new) }
    ensures any_moment { IsTrue (D.steady disk.old) → IsAtRest D.DiskState disk.old
        → LeavesOnly D.DiskState (StandsAs (D.seen disk.old)) disk.old disk.new }
    ensures taken_back { IsTrue (D.steady disk.old) → (kept : SideFile) (base : List (List ℕ))
        → IsSealed D.DiskState kept base disk.old
        → OnOk result (IsSettled D.DiskState (restored kept base) disk.new) }
    ensures taken_back_at_any_moment { IsTrue (D.steady disk.old) → (kept : SideFile)
        (base : List (List ℕ)) → IsSealed D.DiskState kept base disk.old
        → LeavesOnly D.DiskState (FilesStandFor (restored kept base)) disk.old disk.new }
    ensures bad_journal { IsTrue (D.steady disk.old) → result ≡ Err RecoveryFault.BadJournal
        → IsForeign (D.seen disk.old) }
    ensures belongs { IsTrue (D.steady disk.old) → OnOk result (Belongs (D.seen disk.old)) }
    ensures untouched { result ≡ Err RecoveryFault.BadJournal
        → D.seen disk.new ≡ D.seen disk.old }
{
    let Some(side) = disk.side()? else {
        return Ok(());
    };
    if !belongs(disk, side)? {
        return Err(RecoveryFault::BadJournal);
    }
    put_back(disk, side)?;
    Ok(())
}
