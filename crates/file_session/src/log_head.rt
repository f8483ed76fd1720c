ghost use Rattle.std.specs.Prelude.{◌≡◌, ◌≤◌, ◌∷◌, [], length, IsTrue, IfOk, IfErr};
ghost use Rattle.rec_types.specs.Table.{counted};
ghost use Rattle.commit_paper.specs.Text.{IsUnit};
ghost use Rattle.std.specs.String.{string_bytes};
ghost use Rattle.page_store.specs.StoreCalls.{StaysStore};
ghost use Rattle.file_session.specs.Beside.{IsHeadFault};
ghost use Rattle.file_session.specs.FileFaults.{is_device_answer};
ghost use Rattle.file_session.specs.LogOver.{head_line, head_text};

use crate::file_fault::FileFault;
use btree_insert::GREATEST_PAGE_COUNT;
use page_journal::{Disk, KeptStore};
use page_store::{Store, StoreState};
use std::alloc::{AllocError, Global};
use std::fmt::Write;

/// What the first line of each log of commits of this version begins with.
pub(crate) const HEAD: &[u8] = b"commits 1 ";

// The first line of a log of commits that is begun beside a file of so many pages with that sum.
fn text_of_head(alloc: Global, pages: u64, sum: u64) -> Result<String, AllocError>
    ensures text { IfOk result (λ text. string_bytes text ≡ head_text pages sum) }
    ensures unit { IfOk result (λ text. IsUnit (string_bytes text ∷ [])) }
    ensures short { IfOk result (λ text. length (string_bytes text) ≤ 64) }
{
    let mut text = String::new(alloc);
    write!(text, "commits 1 {pages} {sum}")?;
    Ok(text)
}

/// The first line of a log of commits that is begun beside the file of a store, without its end. The file is read whole.
/// Faults: Device; BadLength, of a file of more pages than one may have; Memory.
pub(crate) fn head_of<D: Disk + Drop>(
    alloc: Global,
    store: &mut KeptStore<D>,
) -> Result<Vec<u8>, FileFault>
    ensures head { IsTrue (D.steady store.old.disk) → IfOk result
        (λ head. head.items ≡ head_line (D.seen store.old.disk).main) }
    ensures unit { IfOk result (λ head. IsUnit (head.items ∷ [])) }
    ensures short { IfOk result (λ head. length head.items ≤ 64) }
    ensures stays { StaysStore ⟦<KeptStore<D> as StoreState>⟧ store.old store.new }
    ensures failures { ⟦<KeptStore<D> as StoreState>⟧.failures store.new
        ≡ counted (⟦<KeptStore<D> as StoreState>⟧.failures store.old) (is_device_answer result) }
    ensures fault { IsTrue (D.steady store.old.disk) → IfErr result (IsHeadFault
        (D.seen store.old.disk).main.pages (D.seen store.old.disk).main.tail) }
{
    let pages = store.shape()?.pages;
    if pages > u64::from(GREATEST_PAGE_COUNT) {
        return Err(FileFault::BadLength);
    }
    let sum = store.sum()?;
    match text_of_head(alloc, pages, sum) {
        Ok(text) => Ok(text.into_bytes()),
        Err(_) => Err(FileFault::Memory),
    }
}
