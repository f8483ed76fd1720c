ghost use Rattle.page_store.specs.Commits.{CommitsStore, IsCommit};

use crate::append_fault::AppendFault;
use crate::seal_store::SealStore;

/// A store beside whose pages commits are kept before they are answered.
pub trait CommitStore: SealStore {
    /// Keeps a commit, whose text this is. At `Ok` a crash at any later moment leaves it kept. It changes no page, and counts
    /// as no call of the store. Faults: Room, as where no log was begun; Doubt, as where pages were kept aside or an earlier
    /// commit is in doubt, after which no page may be written over.
    fn keep_commit(&mut self, text: Vec<u8>) -> Result<(), AppendFault>
        requires { IsCommit text.items }
        ensures { CommitsStore Self.StoreState text.items self.old result self.new };
}
