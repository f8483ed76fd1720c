ghost use Rattle.std.specs.Prelude.{◌≡◌, false};
ghost use Rattle.rec_types.specs.Table.{Damages, damaged_by};

mod lies;

use rec_types::{
    Gap, Key, NO_CALLS, Record, RecordSink, Side, Table, TableCalls, TableFault, TableState,
};

/// What a table that isn't sound says in place of what it should do.
#[derive(Clone, Copy, Debug)]
enum Lie {
    /// There is no room. A look and a listing never say so, and tell the truth.
    NoRoom,
    /// There is nothing.
    Nothing,
    /// The page with this number is damaged.
    Damaged(u32),
}

/// The calls at which a table lies, and how many calls there were. They are numbered from 1.
#[derive(Drop)]
struct Schedule {
    at: Vec<(u32, Lie)>,
    calls: u32,
}

impl Schedule {
    /// What the next call says in place of the truth.
    fn next(&mut self) -> Option<Lie> {
        self.calls = self.calls.saturating_add(1);
        let call = self.calls;
        self.at.iter().find(|lie| lie.0 == call).map(|lie| lie.1)
    }
}

/// How many answers named a damaged page, and the last such page.
#[derive(Clone, Copy)]
struct Named {
    count: u64,
    page: u32,
}

impl Named {
    fn note<A>(&mut self, answer: &Result<A, TableFault>)
        ensures { ◌≡◌ {A = Damages} (record { count = self.new.count; page = self.new.page })
            (damaged_by (record { count = self.old.count; page = self.old.page }) answer.now) }
    {
        if let Err(TableFault::Damaged(page)) = answer {
            self.count = self.count.saturating_add(1);
            self.page = *page;
        }
    }
}

/// A table that isn't sound: at chosen calls it lies and does nothing, any other it hands on to the table below.
#[derive(Drop)]
struct LyingTable<T: Table> {
    inner: T,
    lies: Schedule,
    named: Named,
    calls: TableCalls,
}

impl<T: Table> LyingTable<T> {
    /// This table, which lies at the calls with these numbers.
    fn new(inner: T, at: Vec<(u32, Lie)>) -> LyingTable<T> {
        LyingTable {
            inner,
            lies: Schedule { at, calls: 0 },
            named: Named { count: 0, page: 0 },
            calls: NO_CALLS,
        }
    }
}

impl<T: Table> TableState for LyingTable<T> {
    ghost use Rattle.std.specs.Prelude.{false};

    ghost contents = { λ t. T.contents t.inner };

    ghost record_limit = { λ t. T.record_limit t.inner };

    ghost sound = { λ _. false };

    ghost device_failures = { λ t. T.device_failures t.inner };

    ghost memory_refusals = { λ t. T.memory_refusals t.inner };

    ghost damages = { λ t. record { count = t.named.count; page = t.named.page } };

    ghost calls = { λ t. t.calls };

    ghost Source = { T.Source };

    ghost origin = { λ t. T.origin t.inner };

    ghost commits = { T.commits };

    ghost doubt = { T.doubt };
}

impl<T: Table> Table for LyingTable<T> {
    fn get(&mut self, key: &Key) -> Result<Option<Record>, TableFault> {
        let answer = match self.lies.next() {
            None | Some(Lie::NoRoom) => self.inner.get(key),
            Some(Lie::Nothing) => Ok(None),
            Some(Lie::Damaged(page)) => Err(TableFault::Damaged(page)),
        };
        self.named.note(&answer);
        self.calls.note_get();
        answer
    }

    fn beside(&mut self, side: Side, gap: &Gap) -> Result<Option<(Key, Record)>, TableFault> {
        let answer = match self.lies.next() {
            None | Some(Lie::NoRoom) => self.inner.beside(side, gap),
            Some(Lie::Nothing) => Ok(None),
            Some(Lie::Damaged(page)) => Err(TableFault::Damaged(page)),
        };
        self.named.note(&answer);
        self.calls.note_get();
        answer
    }

    fn set(&mut self, key: Key, to: Option<Record>) -> Result<Option<Record>, TableFault> {
        let takes_out = to.is_none();
        let answer = match self.lies.next() {
            None => self.inner.set(key, to),
            Some(Lie::NoRoom) => Err(TableFault::NoRoom),
            Some(Lie::Nothing) => Ok(None),
            Some(Lie::Damaged(page)) => Err(TableFault::Damaged(page)),
        };
        self.named.note(&answer);
        self.calls.note_set(takes_out, &answer);
        answer
    }

    fn entries(&mut self) -> Result<Vec<(Key, Record)>, TableFault> {
        let answer = match self.lies.next() {
            None | Some(Lie::NoRoom | Lie::Nothing) => self.inner.entries(),
            Some(Lie::Damaged(page)) => Err(TableFault::Damaged(page)),
        };
        self.named.note(&answer);
        self.calls.note_list();
        answer
    }

    fn tell<O, K: RecordSink<O>>(
        &mut self,
        sink: &mut K,
        out: &mut O,
    ) -> Result<Result<(), K::Fault>, TableFault> {
        self.calls.note_list();
        if let Some(Lie::Damaged(page)) = self.lies.next() {
            let lie = Err(TableFault::Damaged(page));
            self.named.note(&lie);
            return lie;
        }
        let answer = self.inner.tell(sink, out);
        self.named.note(&answer);
        answer
    }

    fn tell_beside<O, K: RecordSink<O>>(
        &mut self,
        side: Side,
        gap: &Gap,
        sink: &mut K,
        out: &mut O,
    ) -> Result<Result<(), K::Fault>, TableFault> {
        self.calls.note_list();
        if let Some(Lie::Damaged(page)) = self.lies.next() {
            let lie = Err(TableFault::Damaged(page));
            self.named.note(&lie);
            return lie;
        }
        let answer = self.inner.tell_beside(side, gap, sink, out);
        self.named.note(&answer);
        answer
    }

    fn count(&self) -> u32 {
        self.inner.count()
    }

    fn limit(&self) -> u32 {
        self.inner.limit()
    }
}
