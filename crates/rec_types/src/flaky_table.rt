ghost use Rattle.std.specs.Prelude.{◌≡◌, ◌≢◌, ℕ, ◌≤◌, IsTrue, true, false, IsSome, is_none, IfOk, OnOk, OnErr, Ok, Err, None};
ghost use Rattle.std.specs.FinMap as maps;
ghost use Rattle.rec_types.specs.Contents.{set_to};
ghost use Rattle.rec_types.specs.Flaky.{fails_next, called, failures_of};
ghost use Rattle.rec_types.specs.Answered.{Answered};
ghost use Rattle.rec_types.specs.Calls.{no_calls, with_get, with_set, with_list, CountsList};
ghost use Rattle.rec_types.specs.Ordered.{beside, all_beside};
ghost use Rattle.rec_types.specs.Table.{NeverFull, is_device, counted, NeedsNoMemory};
ghost use Rattle.rec_types.specs.Told.{TellsUntil, TellsSome};

use crate::{
    Gap, Key, NO_CALLS, Record, RecordSink, Side, Table, TableCalls, TableFault, TableState,
};
use std::marker::Model;

/// A table whose device fails at chosen calls of `set`. Everything else it hands on to the table below it. The
/// calls of `set` are numbered from 1, those that fail too; the number stays at its greatest value. It is sound
/// where the table below it is.
#[derive(Drop)]
pub struct FlakyTable<T: Table> {
    inner: T,
    failing: Vec<u64>,
    calls: TableCalls,
    failures: u64,
}

impl<T: Table> Model for FlakyTable<T> {
    ghost use Rattle.rec_types.specs.Flaky.{FlakyState, coded_flaky_state};

    ghost Value = { FlakyState T };

    ghost coded = { coded_flaky_state T.code };

    ghost view = { λ t. record {
      inner = t.inner;
      failing = t.failing.items;
      calls = t.calls;
      failures = t.failures;
    } };
}

impl<T: Table> FlakyTable<T> {
    /// This table, of which the calls of `set` with these numbers fail. It takes no memory.
    pub fn new(inner: T, sets: Vec<u64>) -> FlakyTable<T>
        ensures value { result
            ≡ record { inner = inner; failing = sets.items; calls = no_calls; failures = 0 } }
        ensures sound { ⟦<FlakyTable<T> as TableState>⟧.sound result ≡ T.sound inner }
    {
        FlakyTable {
            inner,
            failing: sets,
            calls: NO_CALLS,
            failures: 0,
        }
    }

    // Whether the next call of `set` fails.
    fn fails_next(&self) -> bool
        ensures { result ≡ fails_next self.now }
    {
        let number = self.calls.sets.saturating_add(1);
        self.failing.contains(&number)
    }
}

impl<T: Table> TableState for FlakyTable<T> {
    ghost contents = { λ t. T.contents t.inner };

    ghost record_limit = { λ t. T.record_limit t.inner };

    ghost sound = { λ t. T.sound t.inner };

    ghost device_failures = { λ t. failures_of T.device_failures t };

    ghost memory_refusals = { λ t. T.memory_refusals t.inner };

    ghost damages = { λ t. T.damages t.inner };

    ghost calls = { λ t. t.calls };

    ghost Source = { T.Source };

    ghost origin = { λ t. T.origin t.inner };

    ghost commits = { T.commits };

    ghost doubt = { T.doubt };
}

// A method's clauses stand in place of its trait's, so these are written again before those that tell
// of the calls that fail.
impl<T: Table> Table for FlakyTable<T> {
    /// The record at the key. Faults: those of the table below. It takes no memory.
    fn get(&mut self, key: &Key) -> Result<Option<Record>, TableFault>
        ensures value { IsTrue (T.sound self.old.inner)
            → IfOk result (λ found. found ≡ maps.get (T.contents self.old.inner) key.now) }
        ensures same { T.contents self.new.inner ≡ T.contents self.old.inner }
        ensures no_memory { NeedsNoMemory result }
        ensures no_room { NeverFull result }
        ensures answered { Answered ⟦<FlakyTable<T> as TableState>⟧ self.old result self.new }
        ensures calls { self.new.calls ≡ with_get self.old.calls }
        ensures inner { (T.calls self.new.inner ≡ with_get (T.calls self.old.inner))
            × (T.device_failures self.new.inner
            ≡ counted (T.device_failures self.old.inner) (is_device result)) }
        ensures rest { self.new ≡ called self.old self.new.inner self.new.calls false }
    {
        self.calls.note_get();
        self.inner.get(key)
    }

    /// The record nearest to a gap on a side of it, with its key. Faults: those of the table below.
    fn beside(&mut self, side: Side, gap: &Gap) -> Result<Option<(Key, Record)>, TableFault>
        ensures value { IsTrue (T.sound self.old.inner)
            → IfOk result (λ found. found ≡ beside side (T.contents self.old.inner) gap.now) }
        ensures same { T.contents self.new.inner ≡ T.contents self.old.inner }
        ensures no_room { NeverFull result }
        ensures answered { Answered ⟦<FlakyTable<T> as TableState>⟧ self.old result self.new }
        ensures calls { self.new.calls ≡ with_get self.old.calls }
        ensures inner { (T.calls self.new.inner ≡ with_get (T.calls self.old.inner))
            × (T.device_failures self.new.inner
            ≡ counted (T.device_failures self.old.inner) (is_device result)) }
        ensures rest { self.new ≡ called self.old self.new.inner self.new.calls false }
    {
        self.calls.note_get();
        self.inner.beside(side, gap)
    }

    /// Puts a record at the key, or takes the key out, and answers what stood there before. Faults:
    /// Device at the chosen calls, and those of the table below. A chosen call leaves the table below
    /// it as it was.
    fn set(&mut self, key: Key, to: Option<Record>) -> Result<Option<Record>, TableFault>
        ensures value { IsTrue (T.sound self.old.inner)
            → IfOk result (λ before. before ≡ maps.get (T.contents self.old.inner) key) }
        ensures ok { IsTrue (T.sound self.old.inner)
            → OnOk result (T.contents self.new.inner ≡ set_to (T.contents self.old.inner) key to) }
        ensures err { OnErr result (T.contents self.new.inner ≡ T.contents self.old.inner) }
        ensures no_room { IsTrue (T.sound self.old.inner) → result ≡ Err TableFault.NoRoom
            → IsSome to × (maps.get (T.contents self.old.inner) key ≡ None)
            × (T.record_limit self.old.inner ≤ maps.len (T.contents self.old.inner)) }
        ensures full { IsTrue (T.sound self.old.inner) → IsSome to
            → maps.get (T.contents self.old.inner) key ≡ None
            → T.record_limit self.old.inner ≤ maps.len (T.contents self.old.inner)
            → is_device result ≡ false → result ≡ Err TableFault.NoRoom }
        ensures taken_out_none { to ≡ None → result ≡ Ok None
            → T.contents self.new.inner ≡ T.contents self.old.inner }
        ensures absent { IsTrue (T.sound self.old.inner) → to ≡ None
            → maps.get (T.contents self.old.inner) key ≡ None
            → is_device result ≡ false → result ≡ Ok None }
        ensures answered { Answered ⟦<FlakyTable<T> as TableState>⟧ self.old result self.new }
        ensures calls { self.new.calls ≡ with_set self.old.calls (is_none to) result }
        ensures fails { IsTrue (fails_next self.old)
            → (result ≡ Err TableFault.Device) × (self.new.inner ≡ self.old.inner) }
        ensures passes { fails_next self.old ≡ false
            → (T.calls self.new.inner ≡ with_set (T.calls self.old.inner) (is_none to) result)
            × (T.device_failures self.new.inner
            ≡ counted (T.device_failures self.old.inner) (is_device result)) }
        ensures rest { self.new
            ≡ called self.old self.new.inner self.new.calls (fails_next self.old) }
    {
        let takes_out = to.is_none();
        if self.fails_next() {
            let failed = Err(TableFault::Device);
            self.failures = self.failures.saturating_add(1);
            self.calls.note_set(takes_out, &failed);
            return failed;
        }
        let answer = self.inner.set(key, to);
        self.calls.note_set(takes_out, &answer);
        answer
    }

    /// The records in key order. Faults: those of the table below.
    fn entries(&mut self) -> Result<Vec<(Key, Record)>, TableFault>
        ensures value { IsTrue (T.sound self.old.inner)
            → IfOk result (λ records. records.items ≡ maps.entries (T.contents self.old.inner)) }
        ensures same { T.contents self.new.inner ≡ T.contents self.old.inner }
        ensures no_room { NeverFull result }
        ensures answered { Answered ⟦<FlakyTable<T> as TableState>⟧ self.old result self.new }
        ensures calls { CountsList self.old.calls self.new.calls }
        ensures inner { (T.calls self.new.inner ≡ with_list (T.calls self.old.inner))
            × (T.device_failures self.new.inner
            ≡ counted (T.device_failures self.old.inner) (is_device result)) }
        ensures rest { self.new ≡ called self.old self.new.inner self.new.calls false }
    {
        self.calls.note_list();
        self.inner.entries()
    }

    /// Tells a sink the records in key order. Inside, the fault at which the sink stopped. Faults: those of the table below.
    fn tell<O, K: RecordSink<O>>(
        &mut self,
        sink: &mut K,
        out: &mut O,
    ) -> Result<Result<(), K::Fault>, TableFault>
        ensures told { IsTrue (T.sound self.old.inner)
            → TellsUntil (λ es. K.told sink.old out.old es sink.new out.new)
            (λ es fault. K.stops sink.old out.old es fault sink.new out.new)
            (maps.entries (T.contents self.old.inner)) result }
        ensures some { TellsSome (λ es. K.told sink.old out.old es sink.new out.new)
            (λ es fault. K.stops sink.old out.old es fault sink.new out.new) result }
        ensures same { T.contents self.new.inner ≡ T.contents self.old.inner }
        ensures no_room { NeverFull result }
        ensures answered { Answered ⟦<FlakyTable<T> as TableState>⟧ self.old result self.new }
        ensures calls { CountsList self.old.calls self.new.calls }
        ensures inner { (T.calls self.new.inner ≡ with_list (T.calls self.old.inner))
            × (T.device_failures self.new.inner
            ≡ counted (T.device_failures self.old.inner) (is_device result)) }
        ensures rest { self.new ≡ called self.old self.new.inner self.new.calls false }
    {
        self.calls.note_list();
        self.inner.tell(sink, out)
    }

    /// Tells a sink the records on a side of a gap, the nearest first. Inside, the fault at which the sink stopped. Faults:
    /// those of the table below.
    fn tell_beside<O, K: RecordSink<O>>(
        &mut self,
        side: Side,
        gap: &Gap,
        sink: &mut K,
        out: &mut O,
    ) -> Result<Result<(), K::Fault>, TableFault>
        ensures told { IsTrue (T.sound self.old.inner)
            → TellsUntil (λ es. K.told sink.old out.old es sink.new out.new)
            (λ es fault. K.stops sink.old out.old es fault sink.new out.new)
            (all_beside side (T.contents self.old.inner) gap.now) result }
        ensures some { TellsSome (λ es. K.told sink.old out.old es sink.new out.new)
            (λ es fault. K.stops sink.old out.old es fault sink.new out.new) result }
        ensures same { T.contents self.new.inner ≡ T.contents self.old.inner }
        ensures no_room { NeverFull result }
        ensures answered { Answered ⟦<FlakyTable<T> as TableState>⟧ self.old result self.new }
        ensures calls { CountsList self.old.calls self.new.calls }
        ensures inner { (T.calls self.new.inner ≡ with_list (T.calls self.old.inner))
            × (T.device_failures self.new.inner
            ≡ counted (T.device_failures self.old.inner) (is_device result)) }
        ensures rest { self.new ≡ called self.old self.new.inner self.new.calls false }
    {
        self.calls.note_list();
        self.inner.tell_beside(side, gap, sink, out)
    }

    fn count(&self) -> u32 {
        self.inner.count()
    }

    fn limit(&self) -> u32 {
        self.inner.limit()
    }
}
