ghost use Rattle.std.specs.Prelude.{◌≡◌, ◌≢◌, ◌⊎◌, ℕ, ◌<◌, length, true, IsTrue, Ok, Err, IfOk, IfErr, false};
ghost use Rattle.btree_node.specs.declared.header.Header.{Header as HeaderValue};
ghost use Rattle.btree_node.specs.Layout.{IsOrder};
ghost use Rattle.btree_delete.specs.CleanFile.{HasLength, HasHeader, Agrees, Begins, IsFirst, header_fault};
ghost use Rattle.btree_delete.specs.Opening.{AsksStore};

use btree_insert::GREATEST_PAGE_COUNT;
use btree_node::{Header, HeaderFault, read_header};
use page_store::Store;
use rec_types::PAGE_WIDTH;
use thiserror::Error;

/// Why a file was not opened. Device and Memory are answered where they are met, the others in this
/// order.
#[derive(Clone, Copy, Debug, PartialEq, Eq, Error)]
pub enum OpenFault {
    #[error("a read of the file failed")]
    Device,
    #[error("the file has a length that no record file has")]
    BadLength,
    #[error("the file is no record file")]
    BadMagic,
    #[error("the file has version {0}")]
    BadVersion(u16),
    #[error("the order of the tree is not from 1 to 16")]
    BadOrder,
    #[error("the file was not closed cleanly")]
    NotClean,
    #[error("the header is not that of this file")]
    BadHeader,
    #[error("page {0} is damaged")]
    Damaged(u32),
    #[error("the header tells another number of records")]
    WrongCount,
    #[error("the file has more records than the limit")]
    TooManyRecords,
    #[error("out of memory")]
    Memory,
}

/// How many pages the file has: 1 to 1,000,001, with no bytes after them. Faults: Device, BadLength.
pub(crate) fn check_length<S: Store>(store: &mut S) -> Result<u32, OpenFault>
    ensures ok { IfOk result (λ pages. HasLength (S.pages store.old) (S.tail store.old)
        × (pages ≡ length (S.pages store.old))) }
    ensures fault { IfErr result (λ fault. (fault ≡ OpenFault.Device)
        ⊎ ((fault ≡ OpenFault.BadLength)
        × (HasLength (S.pages store.old) (S.tail store.old) → ⊥))) }
    ensures asks { AsksStore S.StoreState true false store.old result store.new }
{
    let shape = store.shape().map_err(|_| OpenFault::Device)?;
    if shape.tail != 0 || shape.pages == 0 || shape.pages > u64::from(GREATEST_PAGE_COUNT) {
        return Err(OpenFault::BadLength);
    }
    Ok(shape.pages as u32)
}

/// The fault of a file whose header has a fault.
fn header_fault(fault: HeaderFault) -> OpenFault
    ensures { result ≡ header_fault fault }
{
    match fault {
        HeaderFault::BadMagic => OpenFault::BadMagic,
        HeaderFault::BadVersion(version) => OpenFault::BadVersion(version),
        HeaderFault::BadOrder => OpenFault::BadOrder,
        HeaderFault::NotClean => OpenFault::NotClean,
        HeaderFault::BadHeader => OpenFault::BadHeader,
    }
}

/// The header of the file, of which there are so many pages. Faults: Device, those of a header in their
/// order, and BadHeader where it tells another number of pages or a root that is none of them.
pub(crate) fn check_header<S: Store>(store: &mut S, pages: u32) -> Result<Header, OpenFault>
    requires long { HasLength (S.pages store.old) (S.tail store.old) }
    requires count { pages ≡ length (S.pages store.old) }
    ensures found { IsTrue (S.steady store.old)
        → IfOk result (λ h. HasHeader (S.pages store.old) h) }
    ensures agrees { IfOk result (λ h. Agrees (S.pages store.old) h) }
    ensures order { IfOk result (λ h. IsOrder h.order) }
    ensures only { IsTrue (S.steady store.old) → (h : HeaderValue)
        → Begins (S.pages store.old) (S.tail store.old) h
        → (result ≡ Ok h) ⊎ (result ≡ Err OpenFault.Device) }
    ensures fault { IsTrue (S.steady store.old) → (limit : ℕ) → IfErr result
        (IsFirst (S.pages store.old) (S.tail store.old) limit) }
    ensures no_memory { IfErr result (λ fault. fault ≢ OpenFault.Memory) }
    ensures asks { AsksStore S.StoreState false true store.old result store.new }
{
    let mut page = [0; PAGE_WIDTH];
    store.read(0, &mut page).map_err(|_| OpenFault::Device)?;
    let header = read_header(&page).map_err(header_fault)?;
    if header.pages != pages || header.root >= pages {
        return Err(OpenFault::BadHeader);
    }
    Ok(header)
}
