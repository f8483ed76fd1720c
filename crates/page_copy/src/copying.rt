ghost use Rattle.std.specs.Prelude.{◌≡◌, ◌<◌, ◌≤◌, ◌∷◌, [], length, false, IsTrue, IfOk, IfErr, OnOk, OnErr, Some, slice_get, slice_set};
ghost use Rattle.rec_types.specs.Table.{counted};
ghost use Rattle.page_copy.specs.Copying.{IsCopyFault, KeepsShape, MakesCalls, behind_first, copying, first_of, is_copy, is_source, last_calls};
ghost use Rattle.page_store.specs.Journal.{noted_steps, writes_below};
ghost use Rattle.page_store.specs.StoreCalls.{StaysStore};
ghost use Rattle.page_store.specs.WritingBack.{AreStored};
ghost use Rattle.page_store.specs.declared.step.Step.{Step};

use page_store::{Shape, Store, StoreFault};
use rec_types::PAGE_WIDTH;
use thiserror::Error;

/// Why the pages of a store weren't copied.
#[derive(Clone, Copy, Debug, PartialEq, Eq, Error)]
pub enum CopyFault {
    /// A call of the store that is read failed.
    #[error("the store that is copied failed")]
    Source,
    /// It has no page, more than their numbers count, or bytes after the last.
    #[error("the store that is copied has no whole pages")]
    Length,
    /// A call of the store that becomes the copy failed, or found no memory.
    #[error("the copy: {0}")]
    Copy(StoreFault),
}

impl From<StoreFault> for CopyFault {
    ghost use Rattle.std.specs.Prelude.{◌≡◌};
    ghost use Rattle.page_copy.specs.declared.copying.CopyFault.TheVariants.{Copy};

    ghost from_gives = { λ fault named. named ≡ Copy fault };

    fn from(fault: StoreFault) -> CopyFault {
        CopyFault::Copy(fault)
    }
}

// A page of zeros.
fn blank_page() -> [u8; PAGE_WIDTH] {
    [0; PAGE_WIDTH]
}

// How many pages there are to copy. Faults: Source, Length.
fn count_of<S: Store>(source: &mut S) -> Result<u32, CopyFault>
    ensures count { IfOk result (λ count. (count ≡ length (S.pages source.old)) × (1 ≤ count)) }
    ensures tail { OnOk result (S.tail source.old ≡ 0) }
    ensures fault { IfErr result (IsCopyFault (S.pages source.old) (S.tail source.old)) }
    ensures stays { StaysStore S.StoreState source.old source.new }
    ensures fails { S.failures source.new ≡ counted (S.failures source.old) (is_source result) }
    ensures other { is_copy result ≡ false }
{
    let Ok(Shape { pages, tail }) = source.shape() else {
        return Err(CopyFault::Source);
    };
    match u32::try_from(pages) {
        Ok(count) if count > 0 && tail == 0 => Ok(count),
        _ => Err(CopyFault::Length),
    }
}

// Copies page n; the page in memory is for that, whatever it has. Faults: Source; Copy, where the page then has any bytes.
fn copy_page<S: Store, T: Store>(
    source: &mut S,
    copy: &mut T,
    n: u32,
    page: &mut [u8; PAGE_WIDTH],
) -> Result<(), CopyFault>
    requires there { (n < length (S.pages source.old))
        × (length (T.pages copy.old) ≡ length (S.pages source.old)) }
    ensures read { IsTrue (S.steady source.old) → OnOk result (slice_get (S.pages source.old) n ≡ Some page.new) }
    ensures put { IsTrue (T.steady copy.old) → OnOk result (T.pages copy.new ≡ slice_set (T.pages copy.old) n page.new) }
    ensures call { OnOk result (T.journal copy.new ≡ noted_steps (T.journal copy.old) (Step.Write n page.new ∷ [])) }
    ensures no_call { OnErr result (T.journal copy.new ≡ T.journal copy.old) }
    ensures fault { IfErr result (IsCopyFault (S.pages source.old) (S.tail source.old)) }
    ensures stays { StaysStore S.StoreState source.old source.new }
    ensures fails { S.failures source.new ≡ counted (S.failures source.old) (is_source result) }
    ensures copy_fails { T.failures copy.new ≡ counted (T.failures copy.old) (is_copy result) }
    ensures shape { KeepsShape T.StoreState copy.old copy.new }
{
    let Ok(()) = source.read(n, page) else {
        return Err(CopyFault::Source);
    };
    copy.write(n, page)?;
    Ok(())
}

// Copies the pages behind page 0. Faults as of `copy_page`.
fn copy_rest<S: Store, T: Store>(
    source: &mut S,
    copy: &mut T,
    count: u32,
    page: &mut [u8; PAGE_WIDTH],
) -> Result<(), CopyFault>
    requires some { 1 ≤ count }
    requires count { count ≡ length (S.pages source.old) }
    requires long { length (T.pages copy.old) ≡ length (S.pages source.old) }
    ensures put { IsTrue (S.steady source.old) → IsTrue (T.steady copy.old) → OnOk result
        (AreStored (behind_first (S.pages source.old)) (T.pages copy.new)) }
    ensures calls { IsTrue (S.steady source.old) → MakesCalls
        (writes_below (behind_first (S.pages source.old)) (length (S.pages source.old)))
        (T.journal copy.old) result (T.journal copy.new) }
    ensures fault { IfErr result (IsCopyFault (S.pages source.old) (S.tail source.old)) }
    ensures stays { StaysStore S.StoreState source.old source.new }
    ensures fails { S.failures source.new ≡ counted (S.failures source.old) (is_source result) }
    ensures copy_fails { T.failures copy.new ≡ counted (T.failures copy.old) (is_copy result) }
    ensures shape { KeepsShape T.StoreState copy.old copy.new }
{
    for n in 1..count {
        copy_page(source, copy, n, page)?;
    }
    Ok(())
}

// Copies page 0, and has the device keep it. Faults as of `copy_page`.
fn copy_first<S: Store, T: Store>(
    source: &mut S,
    copy: &mut T,
    page: &mut [u8; PAGE_WIDTH],
) -> Result<(), CopyFault>
    requires some { 1 ≤ length (S.pages source.old) }
    requires long { length (T.pages copy.old) ≡ length (S.pages source.old) }
    ensures put { IsTrue (S.steady source.old) → IsTrue (T.steady copy.old) → OnOk result
        (T.pages copy.new ≡ slice_set (T.pages copy.old) 0 (first_of (S.pages source.old))) }
    ensures tail { T.tail copy.new ≡ T.tail copy.old }
    ensures calls { IsTrue (S.steady source.old) → MakesCalls (last_calls (S.pages source.old))
        (T.journal copy.old) result (T.journal copy.new) }
    ensures fault { IfErr result (IsCopyFault (S.pages source.old) (S.tail source.old)) }
    ensures stays { StaysStore S.StoreState source.old source.new }
    ensures fails { S.failures source.new ≡ counted (S.failures source.old) (is_source result) }
    ensures copy_fails { T.failures copy.new ≡ counted (T.failures copy.old) (is_copy result) }
    ensures steady { T.steady copy.new ≡ T.steady copy.old }
{
    copy_page(source, copy, 0, page)?;
    copy.sync()?;
    Ok(())
}

/// Copies the pages of a store into an empty one, page by page, and has the device keep them; the store that is copied is
/// only read. Page 0 comes last: where that fails or is stopped the copy has no page, or a page 0 of zeros, or any bytes
/// in page 0 where its write failed. Faults: Source, where a call of the store that is copied failed; Length, where it has
/// no page, more than a number of 32 bits counts, or a tail, and nothing is written; Copy.
pub fn copy_pages<S: Store, T: Store>(source: &mut S, copy: &mut T) -> Result<(), CopyFault>
    requires { length (T.pages copy.old) ≡ 0 }
    ensures same { IsTrue (S.steady source.old) → IsTrue (T.steady copy.old) → OnOk result
        (T.pages copy.new ≡ S.pages source.old) }
    ensures tails { OnOk result ((S.tail source.old ≡ 0) × (T.tail copy.new ≡ 0)) }
    ensures calls { IsTrue (S.steady source.old) → MakesCalls (copying (S.pages source.old))
        (T.journal copy.old) result (T.journal copy.new) }
    ensures fault { IfErr result (IsCopyFault (S.pages source.old) (S.tail source.old)) }
    ensures stays { StaysStore S.StoreState source.old source.new }
    ensures fails { S.failures source.new ≡ counted (S.failures source.old) (is_source result) }
    ensures copy_fails { T.failures copy.new ≡ counted (T.failures copy.old) (is_copy result) }
    ensures steady { T.steady copy.new ≡ T.steady copy.old }
{
    let count = count_of(source)?;
    copy.set_pages(count)?;
    let mut page = blank_page();
    copy_rest(source, copy, count, &mut page)?;
    copy.sync()?;
    copy_first(source, copy, &mut page)
}
