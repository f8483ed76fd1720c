ghost use Rattle.std.specs.Prelude.{◌≡◌, ◌++◌, length, reverse};
ghost use Rattle.page_store.specs.Commits.{IsCommit};
ghost use Rattle.page_journal.specs.CallDisks.{EachFrontLeaves, handed_out};
ghost use Rattle.page_journal.specs.Crash.{FilesStandFor};
ghost use Rattle.page_journal.specs.Files.{Files, recovered};
ghost use Rattle.page_journal.specs.History.{MayLeave, all_done};
ghost use Rattle.page_journal.specs.LoggedStores.{FindsNow, MayFind, commits_in};

use crate::call_disk::CallDisk;
use crate::disk_call::DiskCall;
use crate::kept_store::KeptStore;
use crate::seal_state::SealState;
use page_store::{AppendFault, CommitStore};

impl KeptStore<CallDisk> {
    /// Hands out the changing calls of its disk that weren't handed out yet, the oldest first. Whoever carries them out in
    /// their order, and stops at the first that fails: after each of them, done whole, in part or not, a crash leaves the
    /// file that there was when the disk was opened, and of the commits what it may. Once all are carried out it leaves
    /// every commit that was kept, and perhaps the one in doubt.
    pub fn hand_out(&mut self) -> Vec<DiskCall>
        ensures calls { reverse result.items ≡ self.old.disk.calls }
        ensures told { self.new ≡ record self.old { disk = handed_out self.old.disk } }
        ensures fronts { EachFrontLeaves self.new.disk.first self.new.disk.past 0 (λ c.
            FilesStandFor (recovered self.new.disk.first) c
            × MayFind self.new.log self.new.disk.first
            (commits_in self.new.log (all_done self.new.disk.first self.new.disk.past))
            self.new.doubt c) }
        ensures now { (c : Files) → MayLeave self.new.disk.first self.new.disk.past c
            → FindsNow self.new.log self.new.disk.first
            (commits_in self.new.log (all_done self.new.disk.first self.new.disk.past))
            self.new.doubt c }
    {
        self.disk.hand_out()
    }

    /// Keeps a commit, whose text this is, and hands out the calls that this takes. Whoever carries them out in their order,
    /// and stops at the first that fails: after each of them, done whole, in part or not, a crash leaves every commit that
    /// was kept, and perhaps this one. Faults as of `keep_commit`.
    pub fn keep_out(&mut self, text: Vec<u8>) -> (Result<(), AppendFault>, Vec<DiskCall>)
        requires { IsCommit text.items }
        ensures fronts { self.old.state ≡ SealState.Unsealed
            → EachFrontLeaves self.new.disk.first self.new.disk.past
            (length (self.old.disk.calls ++ self.old.disk.past))
            (FindsNow self.old.log self.old.disk.first (commits_in self.old.log
            (all_done self.old.disk.first (self.old.disk.calls ++ self.old.disk.past))) text.items) }
        ensures now { (c : Files) → MayLeave self.new.disk.first self.new.disk.past c
            → FindsNow self.new.log self.new.disk.first
            (commits_in self.new.log (all_done self.new.disk.first self.new.disk.past))
            self.new.doubt c }
    {
        let kept = self.keep_commit(text);
        let calls = self.hand_out();
        (kept, calls)
    }
}
