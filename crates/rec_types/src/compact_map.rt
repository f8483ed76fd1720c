ghost use Rattle.std.specs.Prelude.{◌≡◌, ℕ, ◌+◌, ◌<◌, ◌≤◌, cond, false, [], ◌∷◌, ◌++◌, List, set, Option, Some, None, length, is_some, if◌then◌else◌, vec_capacity, IsTrue, IsSome, IfOk, OnOk, OnErr};
ghost use Rattle.std.specs.List.{IsDistinct};
ghost use Rattle.std.specs.Map.{keys_of, lookup};
ghost use Rattle.std.specs.Option.{option_map};
ghost use Rattle.indexmap.specs.IndexMap.{IsUnique, keys, index_map_len};
ghost use Rattle.rec_types.specs.LimitBounds.{most_records};
ghost use Rattle.rec_types.specs.Slots.{AreInPlace, place_of, record_in, short_in, slot_at};
ghost use Rattle.rec_types.specs.Sorted.{pair_at, same_bytes};
ghost use Rattle.rec_types.specs.Told.{Takes};
ghost use Rattle.rec_types.specs.declared.slot.Slot.TheVariants.{Long};

use crate::record::ShortRecord;
use crate::slot::{Slot, short_record};
use crate::{Key, Memory, Record, RecordSink};
use indexmap::IndexMap;
use std::alloc::Global;
use std::marker::Model;
use std::mem::replace;

/// A hashed map from keys to records, in which a short record takes little memory.
#[derive(Debug, Drop)]
pub(crate) struct CompactMap {
    slots: IndexMap<Key, Slot>,
    // It has room for a record of each key, so that a record put at a key that is there takes no memory.
    long: Vec<(Key, Record)>,
}

impl Model for CompactMap {
    ghost use Rattle.std.specs.Coded.{coded_list, coded×, coded_ℕ};
    ghost use Rattle.rec_types.specs.Sorted.{Pairs};

    ghost Value = { Pairs };

    ghost coded = { coded_list (coded× (coded_list coded_ℕ) (coded_list coded_ℕ)) };

    ghost use Rattle.rec_types.specs.CompactFields.{compact_pairs_of, IsCompact};

    ghost view = { compact_pairs_of };

    ghost invariant = { IsCompact };
}

impl CompactMap {
    /// An empty map. It takes no memory.
    pub(crate) fn new(alloc: Global) -> CompactMap
        ensures { result ≡ [] }
    {
        CompactMap {
            slots: IndexMap::new(alloc),
            long: Vec::new(alloc),
        }
    }

    /// How many records there are.
    pub(crate) fn len(&self) -> usize
        ensures { result ≡ length self.now }
    {
        self.slots.len()
    }

    /// The keys, in the order of the records.
    pub(crate) fn keys(&self) -> &[Key]
        ensures { result.now ≡ keys_of self.now }
    {
        self.slots.keys().as_slice()
    }

    /// Appends the record at an index, with its key. Fault: Memory.
    pub(crate) fn push_at(&self, index: usize, list: &mut Vec<(Key, Record)>) -> Result<(), Memory>
        requires { index < length self.now }
        ensures { OnOk result (list.new.items ≡ list.old.items ++ pair_at self.now index ∷ []) }
    {
        let (key, slot) = self.slots.get_index(index).unwrap();
        match slot {
            Slot::Short(record) => list.push((*key, record.record()))?,
            Slot::Long(at) => list.push((*key, self.long[*at as usize].1))?,
        }
        Ok(())
    }

    /// The record at an index, with its key.
    pub(crate) fn pair(&self, index: usize) -> (Key, Record)
        requires { index < length self.now }
        ensures { result ≡ pair_at self.now index }
    {
        let (key, slot) = self.slots.get_index(index).unwrap();
        match slot {
            Slot::Short(record) => return (*key, record.record()),
            Slot::Long(at) => return (*key, self.long[*at as usize].1),
        }
    }

    /// Tells a sink the record at an index, with its key. Fault: the sink's.
    pub(crate) fn tell_at<O, K: RecordSink<O>>(
        &self,
        index: usize,
        sink: &mut K,
        out: &mut O,
    ) -> Result<(), K::Fault>
        requires { index < length self.now }
        ensures { Takes (λ es. K.told sink.old out.old es sink.new out.new)
            (λ es fault. K.stops sink.old out.old es fault sink.new out.new)
            (pair_at self.now index ∷ []) result }
    {
        let (key, slot) = self.slots.get_index(index).unwrap();
        match slot {
            Slot::Short(record) => sink.take(out, key, record.bytes()),
            Slot::Long(at) => sink.take(out, key, self.long[*at as usize].1.bytes()),
        }
    }

    /// The record at the key.
    pub(crate) fn get(&self, key: &Key) -> Option<Record>
        ensures { result ≡ lookup (same_bytes key.now) self.now }
    {
        match self.slots.get(key) {
            Some(Slot::Short(record)) => return Some(record.record()),
            Some(Slot::Long(at)) => return Some(self.long[*at as usize].1),
            None => return None,
        }
    }

    /// Whether there is a record at the key.
    pub(crate) fn contains_key(&self, key: &Key) -> bool
        ensures { result ≡ is_some (lookup (same_bytes key.now) self.now) }
    {
        self.slots.contains_key(key)
    }

    /// Puts a record at the key, and answers what stood there before. A new key goes last. Fault: Memory,
    /// for a new key only, and the map stays as it was.
    pub(crate) fn insert(&mut self, key: Key, record: &Record) -> Result<Option<Record>, Memory>
        requires { length self.old ≤ most_records }
        ensures old { IfOk result (λ before. before ≡ lookup (same_bytes key) self.old) }
        ensures updates { OnOk result ((q : List ℕ) → lookup (same_bytes q) self.new
            ≡ cond (same_bytes key q) (Some «record».now) (lookup (same_bytes q) self.old)) }
        ensures keys { IfOk result (λ before. IsSome before → keys_of self.new ≡ keys_of self.old) }
        ensures last { IfOk result
            (λ before. before ≡ None → keys_of self.new ≡ keys_of self.old ++ key ∷ []) }
        ensures len { IfOk result (λ before. length self.new
            ≡ length self.old + (if is_some before then 0 else 1)) }
        ensures err { OnErr result (self.new ≡ self.old) }
        ensures absent { OnErr result (lookup (same_bytes key) self.old ≡ None) }
        ensures unique { IsDistinct same_bytes (keys_of self.new) }
    {
        if let Some(at) = long_place(&self.slots, &self.long, &key) {
            return Ok(Some(put_long(&mut self.long, at, key, record)));
        }
        if !make_room(&mut self.long, &self.slots, &key) {
            return Err(Memory);
        }
        if record.is_short() {
            let short = ShortRecord::of(record);
            let before = put_slot(&mut self.slots, key, Slot::Short(short))?;
            return Ok(before);
        }
        let before = put_slot(&mut self.slots, key, Slot::Long(self.long.len() as u32))?;
        self.long.push_reserved((key, *record));
        Ok(before)
    }

    /// Takes the key out, and answers what stood there. The last record goes to its place.
    pub(crate) fn swap_remove(&mut self, key: &Key) -> Option<Record>
        ensures value { result ≡ lookup (same_bytes key.now) self.old }
        ensures updates { (q : List ℕ) → lookup (same_bytes q) self.new
            ≡ cond (same_bytes key.now q) None (lookup (same_bytes q) self.old) }
        ensures len { length self.new + (if is_some result then 1 else 0) ≡ length self.old }
        ensures unchanged { result ≡ None → self.new ≡ self.old }
        ensures unique { IsDistinct same_bytes (keys_of self.new) }
    {
        if let Some(at) = long_place(&self.slots, &self.long, key) {
            return Some(take_long(&mut self.slots, &mut self.long, key, at));
        }
        short_record(&self.slots.swap_remove(key))
    }
}

// The place of the key's record among the long ones.
fn long_place(slots: &IndexMap<Key, Slot>, long: &Vec<(Key, Record)>, key: &Key) -> Option<usize>
    requires { AreInPlace (slot_at slots.now.entries) long.now.items }
    ensures { result ≡ place_of (slot_at slots.now.entries key.now) }
{
    if long.is_empty() {
        return None;
    }
    match slots.get(key) {
        Some(Slot::Long(at)) => Some(*at as usize),
        Some(Slot::Short(_)) => None,
        None => None,
    }
}

// Puts a record in a place of the long ones, and answers what stood there.
fn put_long(long: &mut Vec<(Key, Record)>, at: usize, key: Key, record: &Record) -> Record
    requires { at < length long.old.items }
    ensures value { result ≡ record_in long.old.items (Long at) }
    ensures items { long.new.items ≡ set long.old.items at (key, «record».now) }
    ensures room { vec_capacity long.new ≡ vec_capacity long.old }
{
    let (_, before) = replace(&mut long[at], (key, *record));
    before
}

// Puts a slot at the key, and answers the record of the one that stood there, where it was short. Fault: Memory, for a new
// key only, and the slots stay as they were. It goes into its callers, so that a record is made where it is to stand.
#[inline(always)]
fn put_slot(slots: &mut IndexMap<Key, Slot>, key: Key, slot: Slot) -> Result<Option<Record>, Memory>
    ensures unique { IsUnique same_bytes slots.new }
    ensures old { IfOk result (λ before. before ≡ short_in (slot_at slots.old.entries key)) }
    ensures updates { OnOk result ((q : List ℕ) → slot_at slots.new.entries q
        ≡ cond (same_bytes key q) (Some slot) (slot_at slots.old.entries q)) }
    ensures keys { OnOk result (IsSome (slot_at slots.old.entries key)
        → keys_of slots.new.entries ≡ keys_of slots.old.entries) }
    ensures last { OnOk result (slot_at slots.old.entries key ≡ None
        → keys_of slots.new.entries ≡ keys_of slots.old.entries ++ key ∷ []) }
    ensures len { OnOk result (index_map_len slots.new ≡ index_map_len slots.old
        + (if is_some (slot_at slots.old.entries key) then 0 else 1)) }
    ensures err { OnErr result ((slots.new.entries ≡ slots.old.entries)
        × (slot_at slots.old.entries key ≡ None)) }
{
    let before = slots.insert(key, slot)?;
    Ok(short_record(&before))
}

// Whether there is room for a record of each key and of this one, or could be made.
fn make_room(long: &mut Vec<(Key, Record)>, slots: &IndexMap<Key, Slot>, key: &Key) -> bool
    requires { index_map_len slots.now ≤ vec_capacity long.old }
    ensures items { long.new.items ≡ long.old.items }
    ensures kept { vec_capacity long.old ≤ vec_capacity long.new }
    ensures made { IsTrue result → index_map_len slots.now
        + (if is_some (slot_at slots.now.entries key.now) then 0 else 1) ≤ vec_capacity long.new }
    ensures refused { result ≡ false → slot_at slots.now.entries key.now ≡ None }
{
    let count = slots.len() + 1;
    if count <= long.capacity() {
        return true;
    }
    match long.reserve(count.saturating_sub(long.len())) {
        Ok(()) => true,
        Err(_) => slots.contains_key(key),
    }
}

// Takes out a key whose record stands at a place of the long ones. The last of these goes to its place.
fn take_long(
    slots: &mut IndexMap<Key, Slot>,
    long: &mut Vec<(Key, Record)>,
    key: &Key,
    at: usize,
) -> Record
    requires in_place { AreInPlace (slot_at slots.old.entries) long.old.items }
    requires at { slot_at slots.old.entries key.now ≡ Some (Long at) }
    ensures value { Some result
        ≡ option_map (record_in long.old.items) (slot_at slots.old.entries key.now) }
    ensures updates { (q : List ℕ)
        → option_map (record_in long.new.items) (slot_at slots.new.entries q)
        ≡ cond (same_bytes key.now q) None
        (option_map (record_in long.old.items) (slot_at slots.old.entries q)) }
    ensures in_place { AreInPlace (slot_at slots.new.entries) long.new.items }
    ensures unique { IsUnique same_bytes slots.new }
    ensures len { index_map_len slots.new + 1 ≡ index_map_len slots.old }
    ensures room { vec_capacity long.new ≡ vec_capacity long.old }
{
    let (_, record) = long.swap_remove(at);
    let _slot = slots.swap_remove(key);
    if at < long.len() {
        let moved = long[at].0;
        if let Some(slot) = slots.get_mut(&moved) {
            *slot = Slot::Long(at as u32);
        }
    }
    record
}
