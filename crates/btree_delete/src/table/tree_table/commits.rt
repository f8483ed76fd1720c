ghost use Rattle.std.specs.Prelude.{◌≡◌};
ghost use Rattle.page_store.specs.Commits.{IsCommit, KeepsCommit};

use super::TreeTable;
use page_store::{AppendFault, CommitStore};

impl<S: CommitStore> TreeTable<S> {
    /// Has the store keep a commit, whose text this is, beside its pages. No record changes, and no page. Faults: Room; Doubt,
    /// after which closing answers Device.
    pub fn keep_commit(&mut self, text: Vec<u8>) -> Result<(), AppendFault>
        requires { IsCommit text.items }
        ensures same { self.new ≡ record self.old {
          pages = record self.old.pages {
            opening = self.new.pages.opening;
            guard = self.new.pages.guard;
          };
        } }
        ensures commits { KeepsCommit self.old.pages.steady text.items self.old.pages.opening
            self.old.pages.guard result self.new.pages.opening self.new.pages.guard }
    {
        self.pages.keep_commit(text)
    }
}
