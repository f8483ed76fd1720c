ghost use Rattle.std.specs.Prelude.{◌≡◌, ◌<◌, ◌≤◌, ◌-◌, ◌++◌, ℕ, List, Some, None, option_map, length, take, drop, IsTrue, IfOk, OnOk, OnErr, slice_get, slice_set};
ghost use Rattle.rec_types.specs.Widths.{page_width};
ghost use Rattle.page_store.specs.Blank.{blanks};
ghost use Rattle.page_journal.specs.Crash.{BeginsAgain, IsAtRest};
ghost use Rattle.page_journal.specs.Files.{Files};
ghost use Rattle.commit_paper.specs.Text.{zeros};
ghost use Rattle.commit_paper.specs.Steps.{Lengthens, Inks};
ghost use Rattle.page_journal.specs.Steps.{CallDoes, AppendDoes, CallSyncs, CountsFault, Stays, Nothing, TornAt, GrowsUpTo, CutsTo, Fresh, Names, RemovesSide, FreshLog, NamesLog, RemovesLog, ChangesLog, KeepsLog, HasMoment, InCommits, begun, kept_more, names_of, side_shape, kept_at, bytes_over, zeroed};

use crate::disk_state::DiskState;
use crate::side_shape::SideShape;
use page_store::{Shape, StoreFault};
use rec_types::PAGE_WIDTH;

/// A page file of pages of 4,096 bytes on a device, with a side file of old pages that may stand beside it. The
/// device may lose, reorder and tear what wasn't synced: a crash leaves any of the unsynced calls done, not done or
/// torn. It keeps what was synced.
///
/// A side file is made under one name and then gets another, by which an opening finds it, and so is a log of commits.
/// Each of the five syncs keeps one part: the file, the side file or the log that is being made, which of them have
/// their names, or the bytes of the log. The one fault is Failed; each failure is counted, but of the three calls that
/// append to the log, and a call that failed may be done, not done or torn.
pub trait Disk: DiskState {
    /// The length of the file. Fault: Failed.
    fn shape(&mut self) -> Result<Shape, StoreFault>
        ensures pages { IfOk result
            (λ shape. shape.pages ≡ length (Self.seen self.old).main.pages) }
        ensures tail { IfOk result (λ shape. shape.tail ≡ (Self.seen self.old).main.tail) }
        ensures short_tail { OnOk result ((Self.seen self.old).main.tail < page_width) }
        ensures does { CallDoes Self.DiskState Nothing self.old result self.new };

    /// Reads page n, which is there. Fault: Failed.
    fn read(&mut self, n: u32, to: &mut [u8; PAGE_WIDTH]) -> Result<(), StoreFault>
        requires { n < length (Self.seen self.old).main.pages }
        ensures page { IsTrue (Self.steady self.old)
            → OnOk result (slice_get (Self.seen self.old).main.pages n ≡ Some to.new) }
        ensures does { CallDoes Self.DiskState Nothing self.old result self.new };

    /// Writes page n, which is there. Fault: Failed; the page then has any bytes.
    fn write(&mut self, n: u32, from: &[u8; PAGE_WIDTH]) -> Result<(), StoreFault>
        requires { n < length (Self.seen self.old).main.pages }
        ensures page { OnOk result ((Self.seen self.new).main.pages
            ≡ slice_set (Self.seen self.old).main.pages n from.now) }
        ensures does { CallDoes Self.DiskState (TornAt n) self.old result self.new };

    /// Makes the file n pages long, which is no fewer than it has. New pages are zero, and the tail is gone. Fault:
    /// Failed; there are at most n pages then.
    fn grow(&mut self, n: u32) -> Result<(), StoreFault>
        requires { length (Self.seen self.old).main.pages ≤ n }
        ensures pages { OnOk result ((Self.seen self.new).main.pages
            ≡ (Self.seen self.old).main.pages ++ blanks
            (n - length (Self.seen self.old).main.pages)) }
        ensures tail { OnOk result ((Self.seen self.new).main.tail ≡ 0) }
        ensures does { CallDoes Self.DiskState (GrowsUpTo n) self.old result self.new };

    /// Makes the file n pages long, which is no more than it has. The tail is gone. Fault: Failed.
    fn cut(&mut self, n: u32) -> Result<(), StoreFault>
        requires { n ≤ length (Self.seen self.old).main.pages }
        ensures long { OnOk result (length (Self.seen self.new).main.pages ≡ n) }
        ensures tail { OnOk result ((Self.seen self.new).main.tail ≡ 0) }
        ensures does { CallDoes Self.DiskState (CutsTo n) self.old result self.new };

    /// Has the device keep the file, and nothing else. Fault: Failed.
    fn sync(&mut self) -> Result<(), StoreFault>
        ensures { CallSyncs Self.DiskState (λ f. f.main) self.old result self.new };

    /// Begins a side file for a file of so many pages, of which those that it won't keep have that sum, under the name
    /// that no opening looks for. Fault: Failed; what has that name is anything then.
    fn start(&mut self, long: u32, rest: u64) -> Result<(), StoreFault>
        ensures fresh { OnOk result ((Self.seen self.new).fresh ≡ begun long rest) }
        ensures does { CallDoes Self.DiskState Fresh self.old result self.new };

    /// Adds an old page to it, the page of number n. Fault: Failed; what has that name is anything then.
    fn keep(&mut self, n: u32, page: &[u8; PAGE_WIDTH]) -> Result<(), StoreFault>
        ensures fresh { OnOk result ((Self.seen self.new).fresh
            ≡ kept_more (Self.seen self.old).fresh n page.now) }
        ensures does { CallDoes Self.DiskState Fresh self.old result self.new };

    /// Has the device keep the side file that is being made, and nothing else. Fault: Failed.
    fn sync_fresh(&mut self) -> Result<(), StoreFault>
        ensures { CallSyncs Self.DiskState (λ f. f.fresh) self.old result self.new };

    /// Gives the side file that was made the name that an opening looks for, at once or not at all. Fault: Failed.
    fn name(&mut self) -> Result<(), StoreFault>
        ensures named { OnOk result ((Self.seen self.new).side ≡ Some (Self.seen self.old).fresh) }
        ensures does { CallDoes Self.DiskState Names self.old result self.new };

    /// Takes the side file of that name away, at once or not at all. Fault: Failed.
    fn remove(&mut self) -> Result<(), StoreFault>
        ensures gone { OnOk result ((Self.seen self.new).side ≡ None) }
        ensures does { CallDoes Self.DiskState RemovesSide self.old result self.new }
        ensures moment { HasMoment Self.DiskState self.old result self.new };

    /// Has the device keep whether a side file has that name, and whether a log of commits has its, and nothing of what they
    /// say. Fault: Failed.
    fn sync_names(&mut self) -> Result<(), StoreFault>
        ensures { CallSyncs Self.DiskState names_of self.old result self.new };

    /// What the side file of that name says of its length and of the other pages, where there is one. Fault: Failed.
    fn side(&mut self) -> Result<Option<SideShape>, StoreFault>
        ensures shape { IsTrue (Self.steady self.old)
            → IfOk result (λ found. found ≡ side_shape (Self.seen self.old).side) }
        ensures does { CallDoes Self.DiskState Nothing self.old result self.new };

    /// Reads the i-th of its old pages, from 0, and answers the number of that page. Fault: Failed, as where there
    /// are no more than i.
    fn kept(&mut self, i: u32, to: &mut [u8; PAGE_WIDTH]) -> Result<u32, StoreFault>
        ensures page { IsTrue (Self.steady self.old)
            → IfOk result (λ n. kept_at (Self.seen self.old).side i ≡ Some (n, to.new)) }
        ensures does { CallDoes Self.DiskState Nothing self.old result self.new };

    /// Begins a log of commits with these bytes and so many zeros behind them, under the name that no opening looks for.
    /// Fault: Failed; what has that name is anything then.
    fn start_log(&mut self, head: &[u8], room: usize) -> Result<(), StoreFault>
        ensures made { OnOk result
            ((Self.seen self.new).commits.fresh ≡ head.now ++ zeros room) }
        ensures does { CallDoes Self.DiskState (InCommits FreshLog) self.old result self.new };

    /// Has the device keep the log that is being made, and nothing else. Fault: Failed.
    fn sync_fresh_log(&mut self) -> Result<(), StoreFault>
        ensures { CallSyncs Self.DiskState (λ f. f.commits.fresh) self.old result self.new };

    /// Gives the log that was made the name that an opening looks for, at once or not at all. Fault: Failed.
    fn name_log(&mut self) -> Result<(), StoreFault>
        ensures named { OnOk result
            ((Self.seen self.new).commits.log ≡ Some (Self.seen self.old).commits.fresh) }
        ensures does { CallDoes Self.DiskState (InCommits NamesLog) self.old result self.new };

    /// Takes the log of that name away, at once or not at all. Fault: Failed.
    fn remove_log(&mut self) -> Result<(), StoreFault>
        ensures gone { OnOk result ((Self.seen self.new).commits.log ≡ None) }
        ensures does { CallDoes Self.DiskState (InCommits RemovesLog) self.old result self.new };

    /// Makes what follows a place of the log so many zeros, whatever there was. Fault: Failed; behind that place is
    /// anything then.
    fn lengthen_log(&mut self, at: usize, n: usize) -> Result<(), StoreFault>
        ensures zeros { OnOk result
            ((Self.seen self.new).commits.log ≡ option_map (zeroed at n) (Self.seen self.old).commits.log) }
        ensures does { AppendDoes Self.DiskState (InCommits (ChangesLog (Lengthens at)))
            self.old result self.new };

    /// Writes over what stands at a place of the log. Fault: Failed; of these bytes any are there then.
    fn write_log(&mut self, at: usize, bytes: &[u8]) -> Result<(), StoreFault>
        ensures written { OnOk result
            ((Self.seen self.new).commits.log
            ≡ option_map (bytes_over at bytes.now) (Self.seen self.old).commits.log) }
        ensures does { AppendDoes Self.DiskState (InCommits (ChangesLog (Inks at bytes.now)))
            self.old result self.new };

    /// Has the device keep the bytes of the log, and nothing else. Fault: Failed.
    fn sync_log(&mut self) -> Result<(), StoreFault>
        ensures kept { OnOk result ((c : Files) → Self.may_leave self.new c
            → KeepsLog (Self.seen self.old).commits c.commits) }
        ensures does { AppendDoes Self.DiskState Nothing self.old result self.new }
        ensures moment { HasMoment Self.DiskState self.old result self.new };

    /// How many bytes the log of that name has, where there is one. Fault: Failed.
    fn log_length(&mut self) -> Result<Option<u64>, StoreFault>
        ensures long { IsTrue (Self.steady self.old)
            → IfOk result (λ long. long ≡ option_map length (Self.seen self.old).commits.log) }
        ensures does { CallDoes Self.DiskState Nothing self.old result self.new };

    /// Reads bytes of the log from a place on, as many as there is room for. Fault: Failed, as where there are fewer.
    fn read_log(&mut self, at: usize, to: &mut [u8]) -> Result<(), StoreFault>
        ensures bytes { IsTrue (Self.steady self.old) → OnOk result
            (option_map (λ bytes. take (length to.old) (drop at bytes))
            (Self.seen self.old).commits.log ≡ Some to.new) }
        ensures does { CallDoes Self.DiskState Nothing self.old result self.new };

    /// Counts from now on as a disk that was just opened over what reads see, where a crash leaves nothing else. Fault:
    /// Failed; it counts as it did.
    fn begin_again(&mut self) -> Result<(), StoreFault>
        requires { IsTrue (Self.steady self.old) → IsAtRest Self.DiskState self.old }
        ensures again { OnOk result (BeginsAgain Self.DiskState self.old self.new) }
        ensures kept { OnErr result (Stays Self.DiskState self.old self.new) }
        ensures fault { CountsFault Self.DiskState self.old result self.new };

    /// At this moment a crash leaves nothing but what it may leave now.
    ghost only_now: { (disk : Self) (c : Files)
        → Self.left_since disk (Self.moment disk) c → Self.may_leave disk c };

    /// What a crash may leave now is among what it might have left since an earlier moment.
    ghost counts_now: { (disk : Self) (t : ℕ) (c : Files)
        → t ≤ Self.moment disk → Self.may_leave disk c → Self.left_since disk t c };
}
