ghost use Rattle.std.specs.Prelude.{◌≡◌, ◌≢◌, [], Bool, None, IsTrue, IfOk, IfErr};
ghost use Rattle.rec_types.specs.Table.{counted};
ghost use Rattle.page_journal.specs.Files.{Files, recovered};
ghost use Rattle.file_session.specs.Beginning.{IsBegunBeside, LeavesUnbegun, LeavesUnread};
ghost use Rattle.file_session.specs.Beside.{IsHeadFault, LeavesOpening};
ghost use Rattle.file_session.specs.Closing.{opening_file};
ghost use Rattle.file_session.specs.FileFaults.{is_file_device};

use crate::file_fault::FileFault;
use crate::log_head::head_of;
use crate::settling::end_beside;
use page_journal::{Disk, KeptStore, SealState};
use page_store::StoreState;
use std::alloc::Global;

/// The disk of a store whose file isn't opened, beside which a log was begun: it is taken away.
pub fn end_unread<D: Disk + Drop>(store: KeptStore<D>) -> D
    ensures left { IsTrue (D.steady store.disk) → (c : Files) → D.left_since result 0 c
        → LeavesUnread (⟦<KeptStore<D> as StoreState>⟧.opening store) c }
    ensures steady { D.steady result ≡ D.steady store.disk }
    ensures failures { store.state ≢ SealState.Sealed → (again : Bool)
        × (D.failures result ≡ counted (D.failures store.disk) again) }
{
    let (disk, _put_back) = store.take_back();
    let (disk, _done) = end_beside(disk);
    disk
}

// The disk of a store beside which no log was begun, and the fault.
fn unbegun<D: Disk + Drop>(store: KeptStore<D>, fault: FileFault) -> (D, FileFault)
    ensures old { IsTrue (D.steady store.disk) → (c : Files) → D.left_since result.0 0 c
        → LeavesOpening (⟦<KeptStore<D> as StoreState>⟧.opening store) c }
    ensures fault { result.1 ≡ fault }
    ensures same { store.state ≢ SealState.Sealed → result.0 ≡ store.disk }
{
    let (disk, _put_back) = store.take_back();
    (disk, fault)
}

/// The store, with a log of commits begun beside it in which no commit is. Faults: Device; BadLength, of a file of more pages
/// than one may have; Memory; the disk comes back.
pub fn begin_beside<D: Disk + Drop>(
    alloc: Global,
    store: KeptStore<D>,
) -> Result<KeptStore<D>, (D, FileFault)>
    requires none { IsTrue (D.steady store.disk) → (D.began store.disk).commits.log ≡ None }
    requires file { IsTrue (D.steady store.disk)
        → (D.seen store.disk).main ≡ recovered (D.began store.disk) }
    requires unused { (store.state ≡ SealState.Unsealed) × (store.refusals ≡ 0) × (store.log ≡ None) × (store.doubt ≡ []) }
    ensures begun { IsTrue (D.steady store.disk)
        → IfOk result (λ s. IsBegunBeside (⟦<KeptStore<D> as StoreState>⟧.opening s)) }
    ensures opening { IfOk result (λ s. opening_file (⟦<KeptStore<D> as StoreState>⟧.opening s)
        ≡ recovered (D.began store.disk)) }
    ensures stored { IfOk result (λ s. (D.steady s.disk ≡ D.steady store.disk)
        × (s.state ≡ SealState.Unsealed) × (s.refusals ≡ 0)
        × ((D.seen s.disk).main ≡ (D.seen store.disk).main)
        × (D.failures s.disk ≡ D.failures store.disk)) }
    ensures stopped { IsTrue (D.steady store.disk) → IfErr result (λ stop. (c : Files)
        → D.left_since stop.0 0 c → LeavesUnbegun (D.began store.disk) c) }
    ensures fault { IsTrue (D.steady store.disk) → IfErr result (λ stop. IsHeadFault
        (recovered (D.began store.disk)).pages (recovered (D.began store.disk)).tail stop.1) }
    ensures device { IfErr result (λ stop. D.failures stop.0
        ≡ counted (D.failures store.disk) (is_file_device stop.1)) }
{
    let mut store = store;
    let mut head = match head_of(alloc, &mut store) {
        Ok(head) => head,
        Err(fault) => return Err(unbegun(store, fault)),
    };
    let Ok(()) = head.push(b'\n') else {
        return Err(unbegun(store, FileFault::Memory));
    };
    match store.begin_commits(&head) {
        Ok(store) => Ok(store),
        Err((disk, fault)) => Err((disk, FileFault::from(fault))),
    }
}
