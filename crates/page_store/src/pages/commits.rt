ghost use Rattle.std.specs.Prelude.{◌≡◌};
ghost use Rattle.page_store.specs.Commits.{IsCommit, KeepsCommit};

use super::Pages;
use crate::append_fault::AppendFault;
use crate::commit_store::CommitStore;

impl<S: CommitStore> Pages<S> {
    /// Has the store keep a commit, whose text this is, beside its pages. No page changes, here or in the store. Faults: Room;
    /// Doubt, after which the store may not be written over any more.
    pub fn keep_commit(&mut self, text: Vec<u8>) -> Result<(), AppendFault>
        requires { IsCommit text.items }
        ensures same { self.new ≡ record self.old {
          opening = self.new.opening;
          guard = self.new.guard;
        } }
        ensures commits { KeepsCommit self.old.steady text.items self.old.opening self.old.guard
            result self.new.opening self.new.guard }
    {
        self.store.keep_commit(text)
    }
}
