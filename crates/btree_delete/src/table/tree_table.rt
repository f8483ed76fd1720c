ghost use Rattle.std.specs.Prelude.{◌≡◌, ◌≢◌, ◌⊎◌, ℕ, ◌<◌, ◌≤◌, List, length, true, false, IsTrue, Ok, Err, IsOk, ◌+◌, ◌-◌, ◌*◌, None, IsSome, is_none, OnErr, IfOk, IfErr, OnOk, MatchResult};
ghost use Rattle.std.specs.FinMap as maps;
ghost use Rattle.rec_types.specs.Ordered.{beside, all_beside};
ghost use Rattle.rec_types.specs.Contents.{Contents, set_to};
ghost use Rattle.rec_types.specs.Answered.{Answered};
ghost use Rattle.rec_types.specs.Calls.{with_get, with_set, with_list, CountsList};
ghost use Rattle.rec_types.specs.LimitBounds.{most_records};
ghost use Rattle.rec_types.specs.Table.{NeverFull, counted, is_device as is_device_answer, NeedsNoMemory};
ghost use Rattle.page_store.specs.FreeNumbers.{free_numbers};
ghost use Rattle.btree_node.specs.Lists.{Element};
ghost use Rattle.btree_node.specs.declared.header.Header.{Header as HeaderValue};
ghost use Rattle.btree_insert.specs.declared.tree.Tree.{Tree as TreeValue};
ghost use Rattle.btree_delete.specs.CleanFile.{IsCleanFile, IsFirst, Opens, IsOutside, is_open_device_fault};
ghost use Rattle.page_store.specs.Guards.{AllowsAll};
ghost use Rattle.page_store.specs.Journal.{noted_steps, NotesFront};
ghost use Rattle.page_store.specs.PagesView.{with_reads};
ghost use Rattle.page_store.specs.StoreCalls.{StaysStore};
ghost use Rattle.page_store.specs.StoreUnder.{IsStoreOf, LiesOver, OnlyAsks};
ghost use Rattle.btree_node.specs.Layout.{second_version, greatest_order};
ghost use Rattle.btree_insert.specs.Sizes.{greatest_height};
ghost use Rattle.rec_types.specs.Told.{TellsAll, TellsSome, TellsUntil};
ghost use Rattle.btree_delete.specs.Closing.{closing, IsHandedOver, IsUnclosed, StopsAnywhere};
ghost use Rattle.btree_delete.specs.Origins.{Origin, origin_of};
ghost use Rattle.btree_delete.specs.TableView.{TableView, HoldsTree, IsClosed, IsUncalled, table_contents};
ghost use Rattle.btree_delete.specs.Setting.{ChangesTree, ReadsByLevel};
ghost use Rattle.btree_delete.specs.Created.{IsEmpty, IsCreated, IsCreateFault, asks_shape, is_create_device, is_create_device_fault};

mod commits;
mod sealing;

use crate::opening::open_file::{OpenStop, open_file};
use crate::table::change::change;
use crate::table::fault_counts::{FaultCounts, NO_FAULTS, told};
use btree_insert::{Tree, look_up, nearest, tell, tell_beside, walk};
use btree_node::{GREATEST_ORDER, Header, SECOND_VERSION, write_header};
use page_store::{PageEdit, Pages, Store, WriteFault};
use rec_types::{
    Gap, Key, Limits, NO_CALLS, Record, RecordSink, Side, Table, TableCalls, TableFault, TableState,
};
use std::alloc::Global;
use std::collections::BTreeSet;
use std::marker::Model;
use thiserror::Error;

/// A finite map from keys to records, in the pages of a store. Contracts see its pages, its tree, its
/// limit, how many of its answers were refused growths and damaged pages, and how often it was called.
/// It is sound where its store is steady.
#[derive(Drop)]
pub struct TreeTable<S: Store> {
    pages: Pages<S>,
    tree: Tree,
    limit: u32,
    faults: FaultCounts,
    calls: TableCalls,
    alloc: Global,
}

impl<S: Store> Model for TreeTable<S> {
    ghost use Rattle.btree_delete.specs.TableView.{TableView, IsTable, table_of};

    ghost Value = { TableView };

    ghost view = { λ t. table_of t.pages t.tree t.limit t.faults t.calls };

    ghost invariant = { λ t. IsTable (table_of t.pages t.tree t.limit t.faults t.calls) };
}

/// Why no table was made.
#[derive(Clone, Copy, Debug, PartialEq, Eq, Error)]
pub enum CreateFault {
    #[error("the order of the tree is not from 1 to 16")]
    BadOrder,
    #[error("the store failed")]
    Device,
    #[error("the store is not empty")]
    NotEmpty,
}

/// A table that was not made: the store as it was, and why.
#[derive(Drop)]
pub struct CreateStop<S: Store> {
    /// The store.
    pub store: S,
    /// Why no table was made.
    pub fault: CreateFault,
}

/// A table that was not closed: the table with its records as they were, and why.
#[derive(Drop)]
pub struct CloseStop<S: Store> {
    /// The table, which can be closed again.
    pub table: TreeTable<S>,
    /// Why it was not closed: Device where the store failed, Memory where it was not made longer.
    pub fault: WriteFault,
}

/// Whether a store has no page and no bytes after the last. Fault: Device.
fn check_empty<S: Store>(store: &mut S) -> Result<(), CreateFault>
    ensures ok { OnOk result (IsEmpty (S.pages store.old) (S.tail store.old)) }
    ensures fault { IfErr result (λ fault. (fault ≡ CreateFault.Device)
        ⊎ ((fault ≡ CreateFault.NotEmpty) × (IsEmpty (S.pages store.old) (S.tail store.old) → ⊥))) }
    ensures stays { StaysStore S.StoreState store.old store.new }
    ensures reads { S.reads store.new ≡ S.reads store.old }
    ensures shapes { S.shapes store.new ≡ counted (S.shapes store.old) true }
    ensures failures { S.failures store.new
        ≡ counted (S.failures store.old) (is_create_device result) }
{
    let shape = store.shape().map_err(|_| CreateFault::Device)?;
    if shape.pages != 0 || shape.tail != 0 {
        return Err(CreateFault::NotEmpty);
    }
    Ok(())
}

impl<S: Store> TreeTable<S> {
    /// An empty table of an order from 1 to 16 in a store that is empty, which is asked for its shape once. It
    /// takes no memory, and nothing is written before `close`. The store comes back with a fault, as it was. Faults in this
    /// order: BadOrder; Device; NotEmpty where the store has a page or a byte.
    pub fn create(
        alloc: Global,
        store: S,
        k: u16,
        limits: Limits,
    ) -> Result<TreeTable<S>, CreateStop<S>>
        ensures made { IfOk result (λ t. IsCreated (S.pages store) (S.tail store) k t) }
        ensures over { IfOk result (λ t. LiesOver S.StoreState store t.pages) }
        ensures uncalled { IfOk result (λ t. IsUncalled limits.records t) }
        ensures fault { IfErr result
            (λ stop. IsCreateFault (S.pages store) (S.tail store) k stop.fault) }
        ensures back { IfErr result (λ stop. OnlyAsks S.StoreState (asks_shape stop.fault)
            (is_create_device_fault stop.fault) store stop.store) }
        ensures reads { MatchResult result (λ t. t.pages.reads ≡ S.reads store)
            (λ stop. S.reads stop.store ≡ S.reads store) }
    {
        let mut store = store;
        if !(1..=GREATEST_ORDER).contains(&k) {
            let fault = CreateFault::BadOrder;
            return Err(CreateStop { store, fault });
        }
        if let Err(fault) = check_empty(&mut store) {
            return Err(CreateStop { store, fault });
        }
        let mut pages = Pages::new(alloc, store, 1, BTreeSet::new(alloc));
        let nothing = PageEdit {
            writes: Vec::new(alloc),
            taken: 0,
            freed: Vec::new(alloc),
        };
        pages.stage(nothing).unwrap();
        let tree = Tree {
            order: k,
            root: 0,
            height: 0,
            count: 0,
            used: 0,
        };
        Ok(TreeTable {
            pages,
            tree,
            limit: limits.records(),
            faults: NO_FAULTS,
            calls: NO_CALLS,
            alloc,
        })
    }

    /// Opens a file that was closed, of at most as many records as the limits say. It asks for the store's shape
    /// once, and reads page 0 and each page of the tree once. The table of a file of the first version counts as changed, with all
    /// pages of its tree in memory. The store comes back with a fault, its pages as they were: Device and
    /// Memory where they are met, and else the first check that fails, in the order of the faults.
    pub fn open_from(alloc: Global, store: S, limits: Limits) -> Result<TreeTable<S>, OpenStop<S>>
        ensures found { IsTrue (S.steady store) → IfOk result (λ t. Opens (S.pages store)
            (S.tail store) limits.records (S.reads store) t.pages t.tree) }
        ensures exact { IsTrue (S.steady store) → (h : HeaderValue) (tree : TreeValue)
            → (es : List Element) (us : List ℕ)
            → IsCleanFile (S.pages store) (S.tail store) h tree es us → h.count ≤ limits.records
            → MatchResult result (λ t. t.tree ≡ tree) (λ stop. IsOutside stop.fault) }
        ensures reopened { IsTrue (S.steady store) → (tree : TreeValue) (contents : Contents)
            → (version : ℕ) → IsClosed version (S.pages store) (S.tail store) tree contents
            → tree.count ≤ limits.records → MatchResult result
            (λ t. (t.tree ≡ tree) × (table_contents t ≡ contents)) (λ stop. IsOutside stop.fault) }
        ensures fault { IsTrue (S.steady store) → IfErr result
            (λ stop. IsFirst (S.pages store) (S.tail store) limits.records stop.fault) }
        ensures over { IfOk result (λ t. LiesOver S.StoreState store t.pages) }
        ensures no_tail { IfOk result (λ t. t.pages.tail ≡ 0) }
        ensures uncalled { IfOk result (λ t. IsUncalled limits.records t) }
        ensures back { IfErr result (λ stop. OnlyAsks S.StoreState true
            (is_open_device_fault stop.fault) store stop.store) }
    {
        let limit = limits.records();
        let (pages, tree) = open_file(alloc, store, limits)?;
        Ok(TreeTable {
            pages,
            tree,
            limit,
            faults: NO_FAULTS,
            calls: NO_CALLS,
            alloc,
        })
    }

    /// Writes the changed pages back and hands the store over, which is then a closed file of the second
    /// version with the table's records. Where nothing was changed, the store isn't called. It takes no memory of its
    /// own. Faults: Device, Memory.
    pub fn close(self) -> Result<S, CloseStop<S>>
        ensures closed { IsTrue self.pages.steady
            → IfOk result (λ store. IsClosed second_version (S.pages store) (S.tail store) self.tree
            (table_contents self)) }
        ensures count { IsTrue self.pages.steady → OnOk result (self.tree.count ≤ most_records) }
        ensures store { IfOk result (λ store. IsHandedOver S.StoreState self.pages store) }
        ensures idle { self.pages.changed ≡ false
            → IfOk result (λ store. IsStoreOf S.StoreState self.pages store) × IsOk result }
        ensures allowed { AllowsAll self.pages.guard (closing self) → MatchResult result
            (λ store. S.guard store ≡ self.pages.guard)
            (λ stop. stop.table.pages.guard ≡ self.pages.guard) }
        ensures journal { MatchResult result
            (λ store. S.journal store ≡ noted_steps self.pages.journal (closing self))
            (λ stop. NotesFront (closing self) self.pages.journal stop.table.pages.journal) }
        ensures stops { StopsAnywhere (closing self) }
        ensures fault { IfErr result (λ stop. IsUnclosed self stop.fault stop.table) }
    {
        let TreeTable {
            mut pages,
            tree,
            limit,
            faults,
            calls,
            alloc,
        } = self;
        if !pages.changed() {
            return Ok(pages.into_store());
        }
        let header = Header {
            version: SECOND_VERSION,
            order: tree.order,
            pages: pages.page_count(),
            root: tree.root,
            count: tree.count,
        };
        match pages.write_back(&write_header(&header, false), &write_header(&header, true)) {
            Ok(()) => Ok(pages.into_store()),
            Err(fault) => {
                let table = TreeTable {
                    pages,
                    tree,
                    limit,
                    faults,
                    calls,
                    alloc,
                };
                Err(CloseStop { table, fault })
            }
        }
    }

    /// The store, with its pages as they are: what was changed since they were opened isn't in it. It calls nothing of
    /// the store, and takes no memory.
    pub fn abandon(self) -> S
        ensures { IsStoreOf S.StoreState self.pages result }
    {
        let TreeTable { pages, .. } = self;
        pages.into_store()
    }

    /// The order of the tree, 1 to 16.
    pub fn order(&self) -> u16
        ensures value { result ≡ self.now.tree.order }
        ensures some { 1 ≤ result }
        ensures most { result ≤ greatest_order }
    {
        self.tree.order
    }

    /// How many levels the tree has, at most 19.
    pub fn height(&self) -> u32
        ensures value { result ≡ self.now.tree.height }
        ensures most { result ≤ greatest_height }
    {
        self.tree.height
    }

    /// How many pages the tree has.
    pub fn pages_used(&self) -> u32
        ensures value { result ≡ self.now.tree.used }
        ensures in_class { IsTrue self.now.pages.steady → HoldsTree self.now.pages self.now.tree }
    {
        self.tree.used
    }

    /// How many pages there are, page 0 included.
    pub fn page_count(&self) -> u32
        ensures { result ≡ length self.now.pages.pages }
    {
        self.pages.page_count()
    }

    /// How many page numbers are free.
    pub fn free_count(&self) -> u32
        ensures { result ≡ length (free_numbers self.now.pages.pages) }
    {
        self.pages.free_count()
    }
}

impl<S: Store> TableState for TreeTable<S> {
    ghost contents = { table_contents };

    ghost record_limit = { λ t. t.limit };

    ghost sound = { λ t. t.pages.steady };

    ghost device_failures = { λ t. t.pages.failures };

    ghost memory_refusals = { λ t. t.refusals };

    ghost damages = { λ t. t.damages };

    ghost calls = { λ t. t.calls };

    ghost Source = { Origin };

    ghost origin = { origin_of };

    ghost commits = { λ o. o.opening.commits };

    ghost doubt = { λ o. o.opening.doubt };
}

// A method's clauses stand in place of its trait's, so these are written again before those that tell
// of the tree, its pages and its store.
impl<S: Store> Table for TreeTable<S> {
    /// The record at the key. It makes at most as many reads of the store as the tree has levels.
    /// Faults: Device, Damaged. It takes no memory, and no page changes.
    fn get(&mut self, key: &Key) -> Result<Option<Record>, TableFault>
        ensures value { IsTrue self.old.pages.steady
            → IfOk result (λ found. found ≡ maps.get (table_contents self.old) key.now) }
        ensures same { table_contents self.new ≡ table_contents self.old }
        ensures no_memory { NeedsNoMemory result }
        ensures no_room { NeverFull result }
        ensures answered { Answered ⟦<TreeTable<S> as TableState>⟧ self.old result self.new }
        ensures calls { self.new.calls ≡ with_get self.old.calls }
        ensures rest { self.new ≡ record self.old {
          pages = with_reads self.old.pages self.new.pages;
          damages = self.new.damages;
          calls = self.new.calls;
        } }
        ensures reads { self.new.pages.reads ≤ self.old.pages.reads + self.old.tree.height }
    {
        let found = told(look_up(&mut self.pages, &self.tree, key));
        self.faults.note(&found);
        self.calls.note_get();
        found
    }

    /// The record nearest to a gap on a side of it, with its key. It makes at most as many reads of the store as the tree has
    /// levels. Faults: Device, Damaged. It takes no memory, and no page changes.
    fn beside(&mut self, side: Side, gap: &Gap) -> Result<Option<(Key, Record)>, TableFault>
        ensures value { IsTrue self.old.pages.steady
            → IfOk result (λ found. found ≡ beside side (table_contents self.old) gap.now) }
        ensures same { table_contents self.new ≡ table_contents self.old }
        ensures no_memory { NeedsNoMemory result }
        ensures no_room { NeverFull result }
        ensures answered { Answered ⟦<TreeTable<S> as TableState>⟧ self.old result self.new }
        ensures calls { self.new.calls ≡ with_get self.old.calls }
        ensures rest { self.new ≡ record self.old {
          pages = with_reads self.old.pages self.new.pages;
          damages = self.new.damages;
          calls = self.new.calls;
        } }
        ensures reads { self.new.pages.reads ≤ self.old.pages.reads + self.old.tree.height }
    {
        let found = told(nearest(&mut self.pages, &self.tree, side, gap));
        self.faults.note(&found);
        self.calls.note_get();
        found
    }

    /// Puts a record at the key, or takes the key out, and answers what stood there before. Faults:
    /// Device, Damaged, NoRoom, Memory. NoRoom comes exactly where all reads succeeded, a record is
    /// put at an absent key and the table has as many records as it may; the key is looked up for that
    /// alone, before memory is asked for. A taking out that finds nothing asks for none. Where the table
    /// has fewer records, a put makes one descent. The store isn't written. After a fault no page and
    /// no record has changed.
    fn set(&mut self, key: Key, to: Option<Record>) -> Result<Option<Record>, TableFault>
        ensures value { IsTrue self.old.pages.steady
            → IfOk result (λ before. before ≡ maps.get (table_contents self.old) key) }
        ensures ok { IsTrue self.old.pages.steady → OnOk result
            (table_contents self.new ≡ set_to (table_contents self.old) key to) }
        ensures err { OnErr result (table_contents self.new ≡ table_contents self.old) }
        ensures no_room { IsTrue self.old.pages.steady → result ≡ Err TableFault.NoRoom
            → IsSome to × (maps.get (table_contents self.old) key ≡ None)
            × (self.old.limit ≤ maps.len (table_contents self.old)) }
        ensures full { IsTrue self.old.pages.steady → IsSome to
            → maps.get (table_contents self.old) key ≡ None
            → self.old.limit ≤ maps.len (table_contents self.old)
            → is_device_answer result ≡ false → result ≡ Err TableFault.NoRoom }
        ensures taken_out_none { to ≡ None → result ≡ Ok None
            → table_contents self.new ≡ table_contents self.old }
        ensures absent { IsTrue self.old.pages.steady → to ≡ None
            → maps.get (table_contents self.old) key ≡ None
            → is_device_answer result ≡ false → result ≡ Ok None }
        ensures answered { Answered ⟦<TreeTable<S> as TableState>⟧ self.old result self.new }
        ensures calls { self.new.calls ≡ with_set self.old.calls (is_none to) result }
        ensures tree { ChangesTree to self.old result self.new }
        ensures reads { ReadsByLevel to self.old self.new }
    {
        let takes_out = to.is_none();
        let changed = change(self.alloc, &mut self.pages, &self.tree, self.limit, key, to);
        self.faults.note(&changed);
        match changed {
            Ok((tree, before)) => {
                let answer = Ok(before);
                self.tree = tree;
                self.calls.note_set(takes_out, &answer);
                answer
            }
            Err(fault) => {
                let answer = Err(fault);
                self.calls.note_set(takes_out, &answer);
                answer
            }
        }
    }

    /// The records in key order. It makes at most as many reads of the store as the tree has pages.
    /// Faults: Device, Damaged, Memory. No page changes.
    fn entries(&mut self) -> Result<Vec<(Key, Record)>, TableFault>
        ensures value { IsTrue self.old.pages.steady → IfOk result
            (λ records. records.items ≡ maps.entries (table_contents self.old)) }
        ensures same { table_contents self.new ≡ table_contents self.old }
        ensures no_room { NeverFull result }
        ensures answered { Answered ⟦<TreeTable<S> as TableState>⟧ self.old result self.new }
        ensures calls { CountsList self.old.calls self.new.calls }
        ensures rest { self.new ≡ record self.old {
          pages = with_reads self.old.pages self.new.pages;
          refusals = self.new.refusals;
          damages = self.new.damages;
          calls = self.new.calls;
        } }
        ensures reads { self.new.pages.reads ≤ self.old.pages.reads + self.old.tree.used }
    {
        let records = told(walk(self.alloc, &mut self.pages, &self.tree));
        self.faults.note(&records);
        self.calls.note_list();
        records
    }

    /// Tells a sink the records in key order; it holds only the pages on a way down, and makes at most as many reads of the
    /// store as the tree has pages. Inside, the fault at which the sink stopped. Faults: Device, Damaged; the sink was told
    /// those before the page then. No page changes.
    fn tell<O, K: RecordSink<O>>(
        &mut self,
        sink: &mut K,
        out: &mut O,
    ) -> Result<Result<(), K::Fault>, TableFault>
        ensures told { IsTrue self.old.pages.steady
            → TellsUntil (λ xs. K.told sink.old out.old xs sink.new out.new)
            (λ xs fault. K.stops sink.old out.old xs fault sink.new out.new)
            (maps.entries (table_contents self.old)) result }
        ensures some { TellsSome (λ xs. K.told sink.old out.old xs sink.new out.new)
            (λ xs fault. K.stops sink.old out.old xs fault sink.new out.new) result }
        ensures same { table_contents self.new ≡ table_contents self.old }
        ensures no_room { NeverFull result }
        ensures answered { Answered ⟦<TreeTable<S> as TableState>⟧ self.old result self.new }
        ensures calls { CountsList self.old.calls self.new.calls }
        ensures all { IsTrue self.old.pages.steady
            → TellsAll TableFault.Device (λ xs. K.told sink.old out.old xs sink.new out.new)
            (λ xs fault. K.stops sink.old out.old xs fault sink.new out.new)
            (maps.entries (table_contents self.old)) result }
        ensures faults { IfErr result (λ fault. (fault ≡ TableFault.Device)
            ⊎ ((page : ℕ) × (fault ≡ TableFault.Damaged page))) }
        ensures rest { self.new ≡ record self.old {
          pages = with_reads self.old.pages self.new.pages;
          damages = self.new.damages;
          calls = self.new.calls;
        } }
        ensures reads { self.new.pages.reads ≤ self.old.pages.reads + self.old.tree.used }
    {
        let answer = told(tell(&mut self.pages, &self.tree, sink, out));
        self.faults.note(&answer);
        self.calls.note_list();
        answer
    }

    /// Tells a sink the records on a side of a gap, the nearest first. For each leaf that it comes to it makes at most as many
    /// reads of the store as the tree has levels, and it holds one page. Inside, the fault at which the sink stopped. Faults:
    /// Device, Damaged; the sink was told those before the page then. It takes no memory, and no page changes.
    fn tell_beside<O, K: RecordSink<O>>(
        &mut self,
        side: Side,
        gap: &Gap,
        sink: &mut K,
        out: &mut O,
    ) -> Result<Result<(), K::Fault>, TableFault>
        ensures told { IsTrue self.old.pages.steady
            → TellsUntil (λ xs. K.told sink.old out.old xs sink.new out.new)
            (λ xs fault. K.stops sink.old out.old xs fault sink.new out.new)
            (all_beside side (table_contents self.old) gap.now) result }
        ensures some { TellsSome (λ xs. K.told sink.old out.old xs sink.new out.new)
            (λ xs fault. K.stops sink.old out.old xs fault sink.new out.new) result }
        ensures same { table_contents self.new ≡ table_contents self.old }
        ensures no_room { NeverFull result }
        ensures answered { Answered ⟦<TreeTable<S> as TableState>⟧ self.old result self.new }
        ensures calls { CountsList self.old.calls self.new.calls }
        ensures faults { IfErr result (λ fault. (fault ≡ TableFault.Device)
            ⊎ ((page : ℕ) × (fault ≡ TableFault.Damaged page))) }
        ensures rest { self.new ≡ record self.old {
          pages = with_reads self.old.pages self.new.pages;
          damages = self.new.damages;
          calls = self.new.calls;
        } }
        ensures reads { self.new.pages.reads
            ≤ self.old.pages.reads + self.old.tree.height * (self.old.tree.count + 1) }
    {
        let answer = told(tell_beside(&mut self.pages, &self.tree, side, gap, sink, out));
        self.faults.note(&answer);
        self.calls.note_list();
        answer
    }

    fn count(&self) -> u32 {
        self.tree.count
    }

    fn limit(&self) -> u32 {
        self.limit
    }
}
