ghost use Rattle.std.specs.Prelude.{◌≡◌, ◌≤◌, ◌^◌, ◌++◌, ◌∷◌, [], List, ℕ, IsTrue, None, IfOk, OnOk, OnErr, IsErrOf, MatchOption, length};
ghost use Rattle.rec_types.specs.Table.{counted};
ghost use Rattle.commit_paper.specs.Text.{IsUnit, unit_text};
ghost use Rattle.page_store.specs.StoreFaults.{is_failed};
ghost use Rattle.page_journal.specs.Steps.{CountsFault, Stays, StaysBegun, StaysSteady, StaysUncounted};
ghost use Rattle.page_journal.specs.Crash.{LeavesOnly, LeavesPages};
ghost use Rattle.page_journal.specs.Logging.{HasLog, HasLogOf, HasNoLog, HasRoom, IsTextOf, IsReady, Says, SaysEither, SaysNoneOr, StandsInLog, StaysWithin};

use crate::disk::Disk;
use crate::log_place::LogPlace;
use commit_paper::finished_end;
use page_store::{AppendFault, StoreFault};
use std::alloc::Global;

// How many zeros are added at a time.
const PIECE: usize = 65536;

// The longest log, and the longest unit.
const MOST: usize = 1 << 40;

/// Begins a log of commits that says this unit, with so many zeros behind it, and gives it the name that an opening looks for,
/// where no log has that. Until then a crash leaves none. All else of the files stays. Fault: Failed; a log may have the
/// name or not.
pub fn begin_log<D: Disk>(disk: &mut D, head: &[u8], room: usize) -> Result<LogPlace, StoreFault>
    requires some { 1 ≤ room }
    requires most { room ≤ 2 ^ 40 }
    requires short { length head.now ≤ 2 ^ 40 }
    ensures steady { StaysSteady D.DiskState disk.old disk.new }
    ensures began { StaysBegun D.DiskState disk.old disk.new }
    ensures pages { LeavesPages D.DiskState disk.old disk.new }
    ensures ready { HasNoLog D.DiskState disk.old
        → (unit : List (List ℕ)) → IsUnit unit → head.now ≡ unit_text unit
        → IfOk result (λ place. IsReady D.DiskState (unit ∷ []) place disk.new) }
    ensures any_moment { HasNoLog D.DiskState disk.old
        → (unit : List (List ℕ)) → IsUnit unit → head.now ≡ unit_text unit
        → LeavesOnly D.DiskState (SaysNoneOr (unit ∷ [])) disk.old disk.new }
    ensures fits { IfOk result (λ place. place.end ≤ place.long) }
    ensures counted { CountsFault D.DiskState disk.old result disk.new }
{
    disk.start_log(head, room)?;
    disk.sync_fresh_log()?;
    disk.name_log()?;
    disk.sync_names()?;
    Ok(LogPlace {
        end: head.len(),
        long: head.len() + room,
    })
}

// Makes the log longer, so that it has more room than that.
fn lengthen<D: Disk>(disk: &mut D, place: &mut LogPlace, room: usize) -> Result<(), StoreFault>
    requires long { place.old.long ≤ 2 ^ 40 }
    requires room { room ≤ 2 ^ 40 }
    requires end { place.old.end ≤ place.old.long }
    ensures disk { StaysUncounted D.DiskState disk.old disk.new }
    ensures pages { LeavesPages D.DiskState disk.old disk.new }
    ensures ready { (units : List (List (List ℕ)))
        → IsReady D.DiskState units place.old disk.old
        → IsReady D.DiskState units place.new disk.new }
    ensures room { OnOk result (HasRoom room place.new) }
    ensures any_moment { (units : List (List (List ℕ)))
        → IsReady D.DiskState units place.old disk.old
        → LeavesOnly D.DiskState (Says units) disk.old disk.new }
    ensures end { StaysWithin place.old place.new }
{
    let more = room + PIECE;
    disk.lengthen_log(place.long, more)?;
    disk.sync_log()?;
    place.long += more;
    Ok(())
}

// Sees to it that there is more room than that.
fn make_room<D: Disk>(disk: &mut D, place: &mut LogPlace, room: usize) -> Result<(), StoreFault>
    requires end { place.old.end ≤ place.old.long }
    ensures disk { StaysUncounted D.DiskState disk.old disk.new }
    ensures pages { LeavesPages D.DiskState disk.old disk.new }
    ensures ready { (units : List (List (List ℕ)))
        → IsReady D.DiskState units place.old disk.old
        → IsReady D.DiskState units place.new disk.new }
    ensures room { OnOk result (HasRoom room place.new) }
    ensures any_moment { (units : List (List (List ℕ)))
        → IsReady D.DiskState units place.old disk.old
        → LeavesOnly D.DiskState (Says units) disk.old disk.new }
    ensures end { StaysWithin place.old place.new }
{
    if place.long > MOST || room > MOST {
        return Err(StoreFault::Failed);
    }
    if room < place.long - place.end {
        return Ok(());
    }
    lengthen(disk, place, room)
}

// Writes a unit where there is room for it, and has the device keep it.
fn ink<D: Disk>(disk: &mut D, place: &mut LogPlace, text: &[u8]) -> Result<(), StoreFault>
    requires { HasRoom (length text.now) place.old }
    ensures disk { StaysUncounted D.DiskState disk.old disk.new }
    ensures pages { LeavesPages D.DiskState disk.old disk.new }
    ensures done { (units : List (List (List ℕ)))
        → (unit : List (List ℕ)) → IsReady D.DiskState units place.old disk.old → IsUnit unit
        → text.now ≡ unit_text unit
        → OnOk result (IsReady D.DiskState (units ++ unit ∷ []) place.new disk.new) }
    ensures any_moment { (units : List (List (List ℕ)))
        → (unit : List (List ℕ)) → IsReady D.DiskState units place.old disk.old → IsUnit unit
        → text.now ≡ unit_text unit
        → LeavesOnly D.DiskState (SaysEither units unit) disk.old disk.new }
    ensures stand { (units : List (List (List ℕ)))
        → IsReady D.DiskState units place.old disk.old
        → OnErr result (StandsInLog units place.new (D.seen disk.new)) }
    ensures end { OnErr result (place.new ≡ place.old) }
    ensures fits { place.new.end ≤ place.new.long }
{
    disk.write_log(place.end, text)?;
    disk.sync_log()?;
    place.end += text.len();
    Ok(())
}

/// Appends a unit to the log of commits. At `Ok` it is in the log after a crash at any later moment; until then a crash
/// leaves the units that were there, with this one or without. All else of the files stays. Faults: Room, where nothing of it is
/// in the log, which takes others; Doubt.
pub fn append<D: Disk>(disk: &mut D, place: &mut LogPlace, text: &[u8]) -> Result<(), AppendFault>
    requires end { place.old.end ≤ place.old.long }
    ensures disk { StaysUncounted D.DiskState disk.old disk.new }
    ensures pages { LeavesPages D.DiskState disk.old disk.new }
    ensures done { (units : List (List (List ℕ)))
        → (unit : List (List ℕ)) → IsReady D.DiskState units place.old disk.old → IsUnit unit
        → text.now ≡ unit_text unit
        → OnOk result (IsReady D.DiskState (units ++ unit ∷ []) place.new disk.new) }
    ensures no_room { (units : List (List (List ℕ)))
        → IsReady D.DiskState units place.old disk.old → IsErrOf result AppendFault.Room
        → IsReady D.DiskState units place.new disk.new
        × LeavesOnly D.DiskState (Says units) disk.old disk.new }
    ensures doubt { (units : List (List (List ℕ)))
        → IsReady D.DiskState units place.old disk.old → IsErrOf result AppendFault.Doubt
        → StandsInLog units place.new (D.seen disk.new) }
    ensures any_moment { (units : List (List (List ℕ)))
        → (unit : List (List ℕ)) → IsReady D.DiskState units place.old disk.old → IsUnit unit
        → text.now ≡ unit_text unit
        → LeavesOnly D.DiskState (SaysEither units unit) disk.old disk.new }
    ensures fits { place.new.end ≤ place.new.long }
{
    let Ok(()) = make_room(disk, place, text.len()) else {
        return Err(AppendFault::Room);
    };
    let Ok(()) = ink(disk, place, text) else {
        return Err(AppendFault::Doubt);
    };
    Ok(())
}

/// Takes the log of commits away. A crash leaves it whole until then, or none. All else of the files stays. Fault: Failed; a
/// log may have the name or not.
pub fn end_log<D: Disk>(disk: &mut D) -> Result<(), StoreFault>
    ensures steady { StaysSteady D.DiskState disk.old disk.new }
    ensures began { StaysBegun D.DiskState disk.old disk.new }
    ensures pages { LeavesPages D.DiskState disk.old disk.new }
    ensures gone { OnOk result (HasNoLog D.DiskState disk.new) }
    ensures any_moment { LeavesOnly D.DiskState (HasLogOf D.DiskState disk.old)
        disk.old disk.new }
    ensures counted { CountsFault D.DiskState disk.old result disk.new }
{
    disk.remove_log()?;
    disk.sync_names()?;
    Ok(())
}

/// The text of the finished units of the log of commits, where one has the name that an opening looks for. It changes nothing.
/// Faults: Failed; Memory.
pub fn read_back<D: Disk>(alloc: Global, disk: &mut D) -> Result<Option<Vec<u8>>, StoreFault>
    ensures text { IsTrue (D.steady disk.old) → IfOk result
        (λ found. MatchOption found ((D.seen disk.old).commits.log ≡ None)
        (λ text. HasLog (IsTextOf text.items) (D.seen disk.old))) }
    ensures stays { Stays D.DiskState disk.old disk.new }
    ensures failures { D.failures disk.new ≡ counted (D.failures disk.old) (is_failed result) }
{
    let Some(long) = disk.log_length()? else {
        return Ok(None);
    };
    let Ok(long) = usize::try_from(long) else {
        return Err(StoreFault::Memory);
    };
    let Ok(mut bytes) = vec![in alloc; 0u8; long] else {
        return Err(StoreFault::Memory);
    };
    disk.read_log(0, &mut bytes)?;
    let end = finished_end(&bytes);
    bytes.truncate(end);
    Ok(Some(bytes))
}
