ghost use Rattle.std.specs.Prelude.{◌≡◌, ◌≢◌, ℕ, ◌<◌, ◌≤◌, Bool, false, Option, Some, None, IsTrue, IsSome, is_none, IfOk, OnOk, OnErr, Ok, Err};
ghost use Rattle.std.specs.FinMap as maps;
ghost use Rattle.rec_types.specs.Contents.{set_to};
ghost use Rattle.rec_types.specs.Answered.{Answered};
ghost use Rattle.rec_types.specs.Calls.{with_get, with_set, with_list};
ghost use Rattle.rec_types.specs.Ordered.{beside, all_beside};
ghost use Rattle.rec_types.specs.Table.{NeverFull, is_device, NeedsNoMemory};
ghost use Rattle.rec_types.specs.Told.{TellsUntil, TellsSome};

use crate::{Gap, Key, Record, RecordSink, Side, TableState};
use thiserror::Error;

/// Why a table refused a call. Every fault leaves the table's records unchanged.
#[derive(Clone, Copy, Debug, PartialEq, Eq, Error)]
pub enum TableFault {
    #[error("the device failed")]
    Device,
    #[error("page {0} is damaged")]
    Damaged(u32),
    #[error("the table has as many records as it may")]
    NoRoom,
    #[error("out of memory")]
    Memory,
}

/// A finite map from keys to records, with a limit on their number.
pub trait Table: TableState + Drop {
    /// The record at the key. Faults: Device, Damaged. It takes no memory.
    fn get(&mut self, key: &Key) -> Result<Option<Record>, TableFault>
        ensures value { IsTrue (Self.sound self.old)
            → IfOk result (λ found. found ≡ maps.get (Self.contents self.old) key.now) }
        ensures same { Self.contents self.new ≡ Self.contents self.old }
        ensures no_memory { NeedsNoMemory result }
        ensures no_room { NeverFull result }
        ensures answered { Answered Self.TableState self.old result self.new }
        ensures calls { Self.calls self.new ≡ with_get (Self.calls self.old) };

    /// The record nearest to a gap on a side of it, with its key. Faults: Device, Damaged, Memory.
    fn beside(&mut self, side: Side, gap: &Gap) -> Result<Option<(Key, Record)>, TableFault>
        ensures value { IsTrue (Self.sound self.old)
            → IfOk result (λ found. found ≡ beside side (Self.contents self.old) gap.now) }
        ensures same { Self.contents self.new ≡ Self.contents self.old }
        ensures no_room { NeverFull result }
        ensures answered { Answered Self.TableState self.old result self.new }
        ensures calls { Self.calls self.new ≡ with_get (Self.calls self.old) };

    /// Puts a record at the key, or takes the key out, and answers what stood there before. Faults:
    /// Device, Damaged, NoRoom, Memory. NoRoom comes exactly where all reads succeeded, a record is
    /// put at an absent key and the table has as many records as it may; it is decided before memory
    /// is asked for. For a taking out that finds nothing memory isn't asked for. Where the table isn't
    /// sound, an answer tells nothing of the records after it but that a fault, and a taking out that
    /// finds nothing, leaves them.
    fn set(&mut self, key: Key, to: Option<Record>) -> Result<Option<Record>, TableFault>
        ensures value { IsTrue (Self.sound self.old)
            → IfOk result (λ before. before ≡ maps.get (Self.contents self.old) key) }
        ensures ok { IsTrue (Self.sound self.old)
            → OnOk result (Self.contents self.new ≡ set_to (Self.contents self.old) key to) }
        ensures err { OnErr result (Self.contents self.new ≡ Self.contents self.old) }
        ensures no_room { IsTrue (Self.sound self.old) → result ≡ Err TableFault.NoRoom
            → IsSome to × (maps.get (Self.contents self.old) key ≡ None)
            × (Self.record_limit self.old ≤ maps.len (Self.contents self.old)) }
        ensures full { IsTrue (Self.sound self.old) → IsSome to
            → maps.get (Self.contents self.old) key ≡ None
            → Self.record_limit self.old ≤ maps.len (Self.contents self.old)
            → is_device result ≡ false → result ≡ Err TableFault.NoRoom }
        ensures taken_out_none { to ≡ None → result ≡ Ok None
            → Self.contents self.new ≡ Self.contents self.old }
        ensures absent { IsTrue (Self.sound self.old) → to ≡ None
            → maps.get (Self.contents self.old) key ≡ None
            → is_device result ≡ false → result ≡ Ok None }
        ensures answered { Answered Self.TableState self.old result self.new }
        ensures calls { Self.calls self.new ≡ with_set (Self.calls self.old) (is_none to) result };

    /// The records in key order. Faults: Device, Damaged, Memory.
    fn entries(&mut self) -> Result<Vec<(Key, Record)>, TableFault>
        ensures value { IsTrue (Self.sound self.old)
            → IfOk result (λ records. records.items ≡ maps.entries (Self.contents self.old)) }
        ensures same { Self.contents self.new ≡ Self.contents self.old }
        ensures no_room { NeverFull result }
        ensures answered { Answered Self.TableState self.old result self.new }
        ensures calls { Self.calls self.new ≡ with_list (Self.calls self.old) };

    /// Tells a sink the records in key order. Inside, the fault at which the sink stopped. Faults: Device, Damaged, Memory; the
    /// sink was told some of the records then, from the first on.
    fn tell<O, K: RecordSink<O>>(
        &mut self,
        sink: &mut K,
        out: &mut O,
    ) -> Result<Result<(), K::Fault>, TableFault>
        ensures told { IsTrue (Self.sound self.old)
            → TellsUntil (λ es. K.told sink.old out.old es sink.new out.new)
            (λ es fault. K.stops sink.old out.old es fault sink.new out.new)
            (maps.entries (Self.contents self.old)) result }
        ensures some { TellsSome (λ es. K.told sink.old out.old es sink.new out.new)
            (λ es fault. K.stops sink.old out.old es fault sink.new out.new) result }
        ensures same { Self.contents self.new ≡ Self.contents self.old }
        ensures no_room { NeverFull result }
        ensures answered { Answered Self.TableState self.old result self.new }
        ensures calls { Self.calls self.new ≡ with_list (Self.calls self.old) };

    /// Tells a sink the records on a side of a gap, the nearest first: those behind it in key order, those before it in falling
    /// order. Inside, the fault at which the sink stopped. Faults: Device, Damaged, Memory; the sink was told some of those
    /// records then, from the nearest on.
    fn tell_beside<O, K: RecordSink<O>>(
        &mut self,
        side: Side,
        gap: &Gap,
        sink: &mut K,
        out: &mut O,
    ) -> Result<Result<(), K::Fault>, TableFault>
        ensures told { IsTrue (Self.sound self.old)
            → TellsUntil (λ es. K.told sink.old out.old es sink.new out.new)
            (λ es fault. K.stops sink.old out.old es fault sink.new out.new)
            (all_beside side (Self.contents self.old) gap.now) result }
        ensures some { TellsSome (λ es. K.told sink.old out.old es sink.new out.new)
            (λ es fault. K.stops sink.old out.old es fault sink.new out.new) result }
        ensures same { Self.contents self.new ≡ Self.contents self.old }
        ensures no_room { NeverFull result }
        ensures answered { Answered Self.TableState self.old result self.new }
        ensures calls { Self.calls self.new ≡ with_list (Self.calls self.old) };

    /// How many records there are.
    fn count(&self) -> u32
        ensures value { IsTrue (Self.sound self.now) → result ≡ maps.len (Self.contents self.now) }
        ensures most { IsTrue (Self.sound self.now) → result ≤ Self.record_limit self.now };

    /// How many records there are at most.
    fn limit(&self) -> u32
        ensures { result ≡ Self.record_limit self.now };
}
