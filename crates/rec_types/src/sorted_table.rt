ghost use Rattle.std.specs.Prelude.{◌≡◌, ◌+◌, ◌-◌, ◌<◌, ◌≤◌, length, slice_index, IsTrue, None, Ok, Err, true, false, map, reverse, All, IsOk, IsSome, IfOk, OnOk, OnErr, nat_le, ◌&&◌, is_none, Some, IfErr};
ghost use Rattle.std.specs.FinMap as maps;
ghost use Rattle.rec_types.specs.Contents.{set_to};
ghost use Rattle.rec_types.specs.KeyOrder.{HavePlaces, IsOrderOf, IsOrderOfFirst};
ghost use Rattle.rec_types.specs.Answered.{Answered};
ghost use Rattle.rec_types.specs.Calls.{no_calls, with_set};
ghost use Rattle.rec_types.specs.Table.{counted, is_device};
ghost use Rattle.rec_types.specs.Ordered.{beside, all_beside, is_left, at_gap};
ghost use Rattle.rec_types.specs.KeyOrder.{key_at};
ghost use Rattle.rec_types.specs.Sorted.{IsSameTable, pair_at, same_bytes};
ghost use Rattle.std.specs.List.{IsDistinct};
ghost use Rattle.std.specs.Map.{keys_of};
ghost use Rattle.rec_types.specs.Told.{Takes};

use crate::compact_map::CompactMap;
use crate::key_order::order_of;
use crate::{
    Gap, Key, Limits, Memory, NO_CALLS, Record, RecordSink, Side, Table, TableCalls, TableFault,
    TableState,
};
use std::alloc::Global;
use std::marker::Model;

/// So few new keys are each put between those that are in order.
const FEW_NEW: usize = 16;

/// A table in a hashed map, whose records are put in order where they are asked for in order. It is
/// always sound, and never answers Device or Damaged.
#[derive(Debug, Drop)]
pub struct SortedTable {
    records: CompactMap,
    /// The places of the first records in the order of their keys. A new record goes last, and has no place here until the
    /// records are asked for in order.
    places: Vec<u32>,
    /// Whether the places are those of the records that stand there now.
    in_order: bool,
    alloc: Global,
    limit: u32,
    refusals: u64,
    calls: TableCalls,
}

impl Model for SortedTable {
    ghost use Rattle.std.specs.FinMap as maps;
    ghost use Rattle.rec_types.specs.Sorted.{SortedState, coded_sorted_state};

    ghost Value = { SortedState };

    ghost coded = { coded_sorted_state };

    ghost use Rattle.rec_types.specs.SortedFields.{state_of, IsSortedTable};

    ghost view = { state_of };

    ghost invariant = { IsSortedTable };
}

impl SortedTable {
    /// An empty table for as many records as the limits say. It takes no memory.
    pub fn new(alloc: Global, limits: Limits) -> SortedTable
        ensures { result ≡ record {
          contents = maps.empty;
          limit = limits.records;
          refusals = 0;
          calls = no_calls;
        } }
    {
        SortedTable {
            records: CompactMap::new(alloc),
            places: Vec::new(alloc),
            in_order: false,
            alloc,
            limit: limits.records(),
            refusals: 0,
            calls: NO_CALLS,
        }
    }

    // Tells a sink the records in the order of their keys. Inside, the fault at which the sink stopped. Fault: Memory.
    fn tell_in_order<O, K: RecordSink<O>>(
        &mut self,
        sink: &mut K,
        out: &mut O,
    ) -> Result<Result<(), K::Fault>, Memory>
        ensures ok { IfOk result (Takes (λ es. K.told sink.old out.old es sink.new out.new)
            (λ es fault. K.stops sink.old out.old es fault sink.new out.new)
            (maps.entries self.old.contents)) }
        ensures err { OnErr result ((sink.new ≡ sink.old) × (out.new ≡ out.old)) }
        ensures same { IsSameTable self.old self.new }
    {
        put_in_order(
            self.alloc,
            &mut self.places,
            self.records.keys(),
            self.in_order,
        )?;
        self.in_order = true;
        Ok(tell_places(&self.records, &self.places, sink, out))
    }

    // The records in the order of their keys. Fault: Memory.
    fn in_key_order(&mut self) -> Result<Vec<(Key, Record)>, Memory>
        ensures ok { IfOk result (λ list. list.items ≡ maps.entries self.old.contents) }
        ensures same { IsSameTable self.old self.new }
    {
        put_in_order(
            self.alloc,
            &mut self.places,
            self.records.keys(),
            self.in_order,
        )?;
        self.in_order = true;
        copied(self.alloc, &self.records, &self.places)
    }

    // The record nearest to a gap on a side of it, with its key. Fault: Memory, where the records have to be put in order.
    fn nearest(&mut self, side: Side, gap: &Gap) -> Result<Option<(Key, Record)>, Memory>
        ensures ok { IfOk result (λ found. found ≡ beside side self.old.contents gap.now) }
        ensures same { IsSameTable self.old self.new }
    {
        put_in_order(
            self.alloc,
            &mut self.places,
            self.records.keys(),
            self.in_order,
        )?;
        self.in_order = true;
        Ok(pair_beside(&self.records, &self.places, side, gap))
    }

    // Tells a sink the records on a side of a gap, the nearest first. Inside, the fault at which the sink stopped. Fault: Memory.
    fn tell_from<O, K: RecordSink<O>>(
        &mut self,
        side: Side,
        gap: &Gap,
        sink: &mut K,
        out: &mut O,
    ) -> Result<Result<(), K::Fault>, Memory>
        ensures ok { IfOk result (Takes (λ es. K.told sink.old out.old es sink.new out.new)
            (λ es fault. K.stops sink.old out.old es fault sink.new out.new)
            (all_beside side self.old.contents gap.now)) }
        ensures err { OnErr result ((sink.new ≡ sink.old) × (out.new ≡ out.old)) }
        ensures same { IsSameTable self.old self.new }
    {
        put_in_order(
            self.alloc,
            &mut self.places,
            self.records.keys(),
            self.in_order,
        )?;
        self.in_order = true;
        Ok(pairs_beside(&self.records, &self.places, side, gap, sink, out))
    }

    // Takes the key out, and answers what stood there before. Each part of `set` is a function of its own, so that a call
    // pays for the answer of one alone.
    fn take_out(&mut self, key: &Key) -> Result<Option<Record>, TableFault>
        ensures value { result ≡ Ok (maps.get self.old.contents key.now) }
        ensures nothing { result ≡ Ok None → self.new.contents ≡ self.old.contents }
        ensures after { self.new ≡ record self.old {
          contents = set_to self.old.contents key.now None;
          calls = with_set self.old.calls true result;
        } }
    {
        self.in_order = false;
        let taken = Ok(self.records.swap_remove(key));
        self.calls.note_set(true, &taken);
        taken
    }

    // Answers that there is no room.
    fn refuse_room(&mut self) -> Result<Option<Record>, TableFault>
        ensures value { result ≡ Err TableFault.NoRoom }
        ensures after { self.new ≡ record self.old { calls = with_set self.old.calls false result } }
    {
        let full = Err(TableFault::NoRoom);
        self.calls.note_set(false, &full);
        full
    }

    // Puts a record at the key, and answers what stood there before. Fault: Memory, for a new key only.
    fn put(&mut self, key: Key, value: &Record) -> Result<Option<Record>, TableFault>
        requires { (nat_le self.old.limit (maps.len self.old.contents)
            && is_none (maps.get self.old.contents key)) ≡ false }
        ensures value { IfOk result (λ before. before ≡ maps.get self.old.contents key) }
        ensures ok { OnOk result (self.new ≡ record self.old {
          contents = set_to self.old.contents key (Some value.now);
          calls = with_set self.old.calls false result;
        }) }
        ensures memory { IfErr result (λ fault. (fault ≡ TableFault.Memory)
            × (maps.get self.old.contents key ≡ None)) }
        ensures err { OnErr result (self.new ≡ record self.old {
          refusals = counted self.old.refusals true;
          calls = with_set self.old.calls false result;
        }) }
    {
        match self.records.insert(key, value) {
            Ok(before) => {
                let put = Ok(before);
                self.calls.note_set(false, &put);
                return put;
            }
            Err(_) => {
                self.refusals = self.refusals.saturating_add(1);
                let refused = Err(TableFault::Memory);
                self.calls.note_set(false, &refused);
                return refused;
            }
        }
    }

    // Whether the table has as many records as it may, and none at the key.
    fn is_full_for(&self, key: &Key) -> bool
        ensures { result ≡ (nat_le self.now.limit (maps.len self.now.contents)
            && is_none (maps.get self.now.contents key.now)) }
    {
        self.records.len() >= self.limit as usize && !self.records.contains_key(key)
    }
}

impl TableState for SortedTable {
    ghost use Rattle.std.specs.Prelude.{[], true};
    ghost use Rattle.rec_types.specs.Table.{no_damage};

    ghost contents = { λ t. t.contents };

    ghost record_limit = { λ t. t.limit };

    ghost sound = { λ _. true };

    ghost device_failures = { λ _. 0 };

    ghost memory_refusals = { λ t. t.refusals };

    ghost damages = { λ _. no_damage };

    ghost calls = { λ t. t.calls };

    ghost Source = { Unit {0} };

    ghost origin = { λ _. tt };

    ghost commits = { λ _. [] };

    ghost doubt = { λ _. [] };
}

impl Table for SortedTable {
    fn get(&mut self, key: &Key) -> Result<Option<Record>, TableFault> {
        self.calls.note_get();
        Ok(self.records.get(key))
    }

    /// The record nearest to a gap on a side of it, with its key. Fault: Memory. The first call after new keys were put puts them
    /// between the others, and the first after a key was taken out puts all records in order.
    fn beside(&mut self, side: Side, gap: &Gap) -> Result<Option<(Key, Record)>, TableFault> {
        self.calls.note_get();
        match self.nearest(side, gap) {
            Ok(found) => Ok(found),
            Err(_) => {
                self.refusals = self.refusals.saturating_add(1);
                Err(TableFault::Memory)
            }
        }
    }

    /// Puts a record at the key, or takes the key out, and answers what stood there before. Faults:
    /// NoRoom, Memory. A key that is there, and a taking out, take no memory and are never refused.
    fn set(&mut self, key: Key, to: Option<Record>) -> Result<Option<Record>, TableFault>
        ensures value { IfOk result (λ before. before ≡ maps.get self.old.contents key) }
        ensures ok { OnOk result (self.new.contents ≡ set_to self.old.contents key to) }
        ensures err { OnErr result (self.new.contents ≡ self.old.contents) }
        ensures no_room { result ≡ Err TableFault.NoRoom → IsSome to
            × (maps.get self.old.contents key ≡ None)
            × (self.old.limit ≤ maps.len self.old.contents) }
        ensures full { IsSome to → maps.get self.old.contents key ≡ None
            → self.old.limit ≤ maps.len self.old.contents
            → is_device result ≡ false → result ≡ Err TableFault.NoRoom }
        ensures taken_out_none { to ≡ None → result ≡ Ok None
            → self.new.contents ≡ self.old.contents }
        ensures absent { to ≡ None → maps.get self.old.contents key ≡ None
            → is_device result ≡ false → result ≡ Ok None }
        ensures answered { Answered ⟦<SortedTable as TableState>⟧ self.old result self.new }
        ensures calls { self.new.calls ≡ with_set self.old.calls (is_none to) result }
        ensures device { is_device result ≡ false }
        ensures present { IsSome (maps.get self.old.contents key) → IsOk result }
        ensures taken { to ≡ None → IsOk result }
    {
        let Some(record) = &to else {
            return self.take_out(&key);
        };
        if self.is_full_for(&key) {
            return self.refuse_room();
        }
        self.put(key, record)
    }

    fn entries(&mut self) -> Result<Vec<(Key, Record)>, TableFault> {
        self.calls.note_list();
        match self.in_key_order() {
            Ok(records) => Ok(records),
            Err(_) => {
                self.refusals = self.refusals.saturating_add(1);
                Err(TableFault::Memory)
            }
        }
    }

    fn tell<O, K: RecordSink<O>>(
        &mut self,
        sink: &mut K,
        out: &mut O,
    ) -> Result<Result<(), K::Fault>, TableFault> {
        self.calls.note_list();
        match self.tell_in_order(sink, out) {
            Ok(taken) => Ok(taken),
            Err(_) => {
                self.refusals = self.refusals.saturating_add(1);
                Err(TableFault::Memory)
            }
        }
    }

    fn tell_beside<O, K: RecordSink<O>>(
        &mut self,
        side: Side,
        gap: &Gap,
        sink: &mut K,
        out: &mut O,
    ) -> Result<Result<(), K::Fault>, TableFault> {
        self.calls.note_list();
        match self.tell_from(side, gap, sink, out) {
            Ok(taken) => Ok(taken),
            Err(_) => {
                self.refusals = self.refusals.saturating_add(1);
                Err(TableFault::Memory)
            }
        }
    }

    fn count(&self) -> u32 {
        self.records.len() as u32
    }

    fn limit(&self) -> u32 {
        self.limit
    }
}

// Makes the places of the keys in their order, where they aren't known. Where those of the first keys are, and few are new,
// each new one is put between them. A fault leaves those of the first keys.
fn put_in_order(
    alloc: Global,
    places: &mut Vec<u32>,
    keys: &[Key],
    known: bool,
) -> Result<(), Memory>
    requires few { HavePlaces keys.now }
    requires known { IsTrue known → IsOrderOfFirst keys.now places.old.items }
    ensures ok { OnOk result (IsOrderOf keys.now places.new.items) }
    ensures first { OnOk result (IsOrderOfFirst keys.now places.new.items) }
    ensures err { OnErr result (IsTrue known → IsOrderOfFirst keys.now places.new.items) }
{
    if !known || keys.len() - places.len() > FEW_NEW {
        return sort_anew(alloc, places, keys);
    }
    put_new(places, keys)
}

// Makes the places of all keys in their order. A fault leaves them as they are.
fn sort_anew(alloc: Global, places: &mut Vec<u32>, keys: &[Key]) -> Result<(), Memory>
    requires { HavePlaces keys.now }
    ensures ok { OnOk result (IsOrderOf keys.now places.new.items) }
    ensures err { OnErr result (places.new ≡ places.old) }
{
    *places = order_of(alloc, keys)?;
    Ok(())
}

// Puts the place of each key that has none among those of the keys before it. A fault leaves the first of them.
fn put_new(places: &mut Vec<u32>, keys: &[Key]) -> Result<(), Memory>
    requires few { HavePlaces keys.now }
    requires first { IsOrderOfFirst keys.now places.old.items }
    ensures ok { OnOk result (length places.new.items ≡ length keys.now) }
    ensures kept { IsOrderOfFirst keys.now places.new.items }
{
    while places.len() < keys.len() {
        put_next(places, keys)?;
    }
    Ok(())
}

// Puts the place of the first key that has none among those of the keys before it. A fault leaves them as they are.
fn put_next(places: &mut Vec<u32>, keys: &[Key]) -> Result<(), Memory>
    requires few { HavePlaces keys.now }
    requires first { IsOrderOfFirst keys.now places.old.items }
    requires more { length places.old.items < length keys.now }
    ensures ok { OnOk result (IsOrderOfFirst keys.now places.new.items
        × (length places.new.items ≡ length places.old.items + 1)) }
    ensures err { OnErr result (places.new.items ≡ places.old.items) }
{
    let next = places.len();
    let at = left_of(keys, places, &Gap::Before(keys[next]));
    places.insert(at, next as u32)?;
    Ok(())
}

// The records at the places.
fn copied(alloc: Global, records: &CompactMap, places: &[u32]) -> Result<Vec<(Key, Record)>, Memory>
    requires { All (λ place. place < length records.now) places.now }
    ensures { IfOk result (λ list. list.items ≡ map (pair_at records.now) places.now) }
{
    let mut list = Vec::with_capacity(alloc, places.len())?;
    for place in places {
        records.push_at(*place as usize, &mut list)?;
    }
    Ok(list)
}

// Tells a sink the records at the places. Fault: the sink's.
fn tell_places<O, K: RecordSink<O>>(
    records: &CompactMap,
    places: &[u32],
    sink: &mut K,
    out: &mut O,
) -> Result<(), K::Fault>
    requires { All (λ place. place < length records.now) places.now }
    ensures { Takes (λ es. K.told sink.old out.old es sink.new out.new)
        (λ es fault. K.stops sink.old out.old es fault sink.new out.new)
        (map (pair_at records.now) places.now) result }
{
    for place in places {
        records.tell_at(*place as usize, sink, out)?;
    }
    Ok(())
}

// The pair nearest to a gap on a side of it, by the places of all pairs in the order of their keys.
fn pair_beside(records: &CompactMap, places: &[u32], side: Side, gap: &Gap) -> Option<(Key, Record)>
    requires unique { IsDistinct same_bytes (keys_of records.now) }
    requires order { IsOrderOf (keys_of records.now) places.now }
    ensures { result ≡ beside side (maps.from_entries records.now) gap.now }
{
    let left = left_of(records.keys(), places, gap);
    pair_at_gap(records, places, side, left)
}

// Tells a sink the records at the places, the last first. Fault: the sink's.
fn tell_back<O, K: RecordSink<O>>(
    records: &CompactMap,
    places: &[u32],
    sink: &mut K,
    out: &mut O,
) -> Result<(), K::Fault>
    requires { All (λ place. place < length records.now) places.now }
    ensures { Takes (λ es. K.told sink.old out.old es sink.new out.new)
        (λ es fault. K.stops sink.old out.old es fault sink.new out.new)
        (reverse (map (pair_at records.now) places.now)) result }
{
    let mut at = places.len();
    while at > 0 {
        at -= 1;
        records.tell_at(places[at] as usize, sink, out)?;
    }
    Ok(())
}

// Tells a sink the records on a side of a gap, the nearest first, by the places of all pairs in the order of their keys. Fault:
// the sink's.
fn pairs_beside<O, K: RecordSink<O>>(
    records: &CompactMap,
    places: &[u32],
    side: Side,
    gap: &Gap,
    sink: &mut K,
    out: &mut O,
) -> Result<(), K::Fault>
    requires unique { IsDistinct same_bytes (keys_of records.now) }
    requires order { IsOrderOf (keys_of records.now) places.now }
    ensures { Takes (λ es. K.told sink.old out.old es sink.new out.new)
        (λ es fault. K.stops sink.old out.old es fault sink.new out.new)
        (all_beside side (maps.from_entries records.now) gap.now) result }
{
    let left = left_of(records.keys(), places, gap);
    match side {
        Side::After => tell_places(records, &places[left..], sink, out),
        Side::Before => tell_back(records, &places[..left], sink, out),
    }
}

// How many of the keys at the places lie left of the gap.
fn left_of(keys: &[Key], places: &[u32], gap: &Gap) -> usize
    requires { All (λ place. place < length keys.now) places.now }
    ensures within { result ≤ length places.now }
    ensures left { 0 < result → is_left gap.now
        (key_at keys.now (slice_index places.now (result - 1))) ≡ true }
    ensures right { result < length places.now → is_left gap.now
        (key_at keys.now (slice_index places.now result)) ≡ false }
{
    let mut low = 0;
    let mut high = places.len();
    while low < high {
        let middle = low + (high - low) / 2;
        if gap.is_left(&keys[places[middle] as usize]) {
            low = middle + 1;
        } else {
            high = middle;
        }
    }
    low
}

// The record on a side of a gap between the places, of which so many lie left of it.
fn pair_at_gap(
    records: &CompactMap,
    places: &[u32],
    side: Side,
    left: usize,
) -> Option<(Key, Record)>
    requires places { All (λ place. place < length records.now) places.now }
    requires within { left ≤ length places.now }
    ensures { result ≡ at_gap side (map (pair_at records.now) places.now) left None }
{
    match side {
        Side::After => {
            if left == places.len() {
                return None;
            }
            Some(records.pair(places[left] as usize))
        }
        Side::Before => {
            if left == 0 {
                return None;
            }
            Some(records.pair(places[left - 1] as usize))
        }
    }
}
