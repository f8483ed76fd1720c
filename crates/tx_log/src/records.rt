ghost use Rattle.std.specs.Prelude.{◌≡◌, ℕ, ◌+◌, ◌*◌, ◌<◌, ◌≤◌, ◌++◌, ◌^◌, [], ◌∷◌, Option, Some, None, List, length, slice_get, option_map, vec_len, OnOk, OnErr, IfOk};
ghost use Rattle.std.specs.Vec.{vec_capacity};
ghost use Rattle.rec_types.specs.LimitBounds.{most_log_records};
ghost use Rattle.rec_types.specs.Widths.{widest_record};
ghost use Rattle.tx_log.specs.Compact.{read, LiesIn, before_in, after_in, mark_in, back_kind, is_claim_kind, told_as};
ghost use Rattle.tx_log.specs.Log.{change_record, back_record, back_in, key_of_record, prev_of};
ghost use Rattle.rec_types.specs.declared.transaction.TxId.{TxId};
ghost use Rattle.tx_log.specs.Walks.{change_in, link_of, step_to};
ghost use Rattle.tx_log.specs.declared.log_record.LogRecord.{LogRecord};

use crate::mark::Mark;
use crate::undo_chain::{Link, LiveChange};
use crate::{LogRecord, UndoStep};
use rec_types::{Key, Memory, RECORD_WIDTH, Record, TxId};
use std::alloc::Global;
use std::marker::Model;

/// A length that no record has: it says that there is no record.
const NO_RECORD: u8 = 255;

/// Where the bytes of a record stand, and how many they are.
#[derive(Clone, Copy, Debug)]
pub struct Span {
    at: u32,
    /// `NO_RECORD` where there is no record.
    len: u8,
}

/// What a log record tells of.
#[derive(Clone, Copy, Debug)]
pub enum Kind {
    Update,
    Compensation,
    Claim,
    Unclaim,
}

/// A log record and its mark in 48 bytes, for which the fields of one byte stand together. What is before is what stood
/// at the key, was restored there, or was seen.
#[derive(Clone, Copy, Debug)]
pub struct Entry {
    kind: Kind,
    absent: bool,
    before_len: u8,
    after_len: u8,
    before_at: u32,
    /// Where the bytes stand that an update wrote; of a compensation or an unclaim, where the undo goes on.
    rest: u32,
    lsn: u32,
    prev: u32,
    tx: TxId,
    newest: u32,
    key: Key,
}

/// The records of a log, oldest first: each in an entry, and the bytes of all keys' records behind each other.
/// A compensation shares those of the change that it takes back.
#[derive(Drop)]
pub struct Records {
    entries: Vec<Entry>,
    bytes: Vec<u8>,
}

impl Model for Records {
    ghost use Rattle.tx_log.specs.Compact.{RecordsView, view_of, IsCompactLog};

    ghost Value = { RecordsView };

    ghost view = { view_of };

    ghost invariant = { IsCompactLog };
}

impl Kind {
    // The kind of the record by which a change is taken back.
    fn back(self) -> Kind
        ensures { result ≡ back_kind self }
    {
        match self {
            Kind::Update | Kind::Compensation => Kind::Compensation,
            Kind::Claim | Kind::Unclaim => Kind::Unclaim,
        }
    }

    // Whether it tells of a claim, or of taking one back.
    fn is_claim(self) -> bool
        ensures { result ≡ is_claim_kind self }
    {
        match self {
            Kind::Update | Kind::Compensation => false,
            Kind::Claim | Kind::Unclaim => true,
        }
    }
}

impl Entry {
    // Where the bytes stand of what is before.
    fn before(&self) -> Span
        ensures { result ≡ before_in self.now }
    {
        Span {
            at: self.before_at,
            len: self.before_len,
        }
    }

    // Where the bytes stand of what an update wrote.
    fn after(&self) -> Span
        ensures { result ≡ after_in self.now }
    {
        Span {
            at: self.rest,
            len: self.after_len,
        }
    }

    // Its mark.
    fn mark(&self) -> Mark
        ensures { result ≡ mark_in self.now }
    {
        Mark {
            newest: self.newest,
            absent: self.absent,
        }
    }

    // The log record that it stands for, with these records.
    fn told(&self, before: Option<Record>, after: Option<Record>) -> LogRecord
        ensures { result ≡ told_as self.now.kind self.now.lsn self.now.prev self.now.tx
            self.now.key before after self.now.rest }
    {
        let (lsn, prev, tx, key) = (self.lsn, self.prev, self.tx, self.key);
        match self.kind {
            Kind::Update => LogRecord::Update {
                lsn,
                prev,
                tx,
                key,
                before,
                after,
            },
            Kind::Compensation => LogRecord::Compensation {
                lsn,
                prev,
                tx,
                key,
                restored: before,
                undo_next: self.rest,
            },
            Kind::Claim => LogRecord::Claim {
                lsn,
                prev,
                tx,
                key,
                seen: before,
            },
            Kind::Unclaim => LogRecord::Unclaim {
                lsn,
                prev,
                tx,
                key,
                undo_next: self.rest,
            },
        }
    }
}

impl Span {
    // No record.
    fn none() -> Span
        ensures { (bytes : List ℕ) → (read bytes result ≡ None) × LiesIn (length bytes) result }
    {
        Span {
            at: 0,
            len: NO_RECORD,
        }
    }
}

// Adds the bytes of a record, where there is one, and tells where they stand. It takes no memory.
fn note(bytes: &mut Vec<u8>, noted: &Option<Record>) -> Span
    requires room { vec_len bytes.old + widest_record ≤ vec_capacity bytes.old }
    requires few { vec_len bytes.old < 2 ^ 32 }
    ensures read { read bytes.new.items result ≡ noted.now }
    ensures within { LiesIn (length bytes.new.items) result }
    ensures grown { (more : List ℕ) × (bytes.new.items ≡ bytes.old.items ++ more)
        × (length more ≤ widest_record) }
    ensures capacity { vec_capacity bytes.old ≤ vec_capacity bytes.new }
{
    let Some(noted) = noted else {
        return Span::none();
    };
    let at = bytes.len() as u32;
    let text = noted.bytes();
    let _ = bytes.extend_from_slice(text);
    Span {
        at,
        len: text.len() as u8,
    }
}

// Adds the bytes of what a change wrote, and tells where they stand, and what its entry tells of: of a claim nothing is
// added. It takes no memory.
fn note_written(bytes: &mut Vec<u8>, after: Option<&Option<Record>>) -> (Kind, Span)
    requires room { vec_len bytes.old + widest_record ≤ vec_capacity bytes.old }
    requires few { vec_len bytes.old < 2 ^ 32 }
    ensures told { (lsn prev rest : ℕ) (tx : TxId) (key : List ℕ) (before : Option (List ℕ))
        → told_as result.0 lsn prev tx key before (read bytes.new.items result.1) rest
        ≡ change_record lsn prev tx key before (option_map (λ w. w.now) after.entry) }
    ensures within { LiesIn (length bytes.new.items) result.1 }
    ensures grown { (more : List ℕ) × (bytes.new.items ≡ bytes.old.items ++ more)
        × (length more ≤ widest_record) }
{
    match after {
        Some(wrote) => (Kind::Update, note(bytes, wrote)),
        None => (Kind::Claim, Span::none()),
    }
}

// The record whose bytes stand there, if there is one.
#[inline(always)]
fn record_at(bytes: &[u8], span: Span) -> Option<Record>
    requires { LiesIn (length bytes.now) span }
    ensures { result ≡ read bytes.now span }
{
    if span.len as usize > RECORD_WIDTH {
        return None;
    }
    let at = span.at as usize;
    Record::new(&bytes[at..at + span.len as usize]).ok()
}

impl Records {
    /// No records. It takes no memory.
    pub fn new(alloc: Global) -> Records
        ensures items { result.items ≡ [] }
        ensures marks { result.marks ≡ [] }
    {
        Records {
            entries: Vec::new(alloc),
            bytes: Vec::new(alloc),
        }
    }

    /// How many there are.
    pub fn len(&self) -> usize
        ensures { result ≡ length self.now.items }
    {
        self.entries.len()
    }

    /// What is kept beside the record in that place.
    pub fn mark(&self, i: usize) -> Mark
        requires { i < length self.now.marks }
        ensures { slice_get self.now.marks i ≡ Some result }
    {
        self.entries[i].mark()
    }

    /// The record in that place, from 0.
    pub fn get(&self, i: usize) -> Option<LogRecord>
        ensures { result ≡ slice_get self.now.items i }
    {
        let entry = self.entries.get(i)?;
        let before = record_at(&self.bytes, entry.before());
        let after = record_at(&self.bytes, entry.after());
        Some(entry.told(before, after))
    }

    /// The same as a change; a compensation as one that wrote what it restored. It goes into its callers, so that records
    /// that they don't ask for aren't made.
    #[inline(always)]
    pub fn change(&self, i: usize) -> Option<LiveChange>
        ensures { result ≡ option_map change_in (slice_get self.now.items i) }
    {
        let entry = self.entries.get(i)?;
        let before = record_at(&self.bytes, entry.before());
        let (seen, after) = match entry.kind {
            Kind::Update => (before, Some(record_at(&self.bytes, entry.after()))),
            Kind::Compensation => (before, Some(record_at(&self.bytes, entry.before()))),
            Kind::Claim => (before, None),
            Kind::Unclaim => (None, None),
        };
        Some(LiveChange {
            lsn: entry.lsn,
            prev: entry.prev,
            key: entry.key,
            before: seen,
            after,
        })
    }

    /// What takes back the change that it tells of.
    pub fn undo_step(&self, i: usize) -> Option<UndoStep>
        ensures { result ≡ option_map (λ u. step_to (change_in u)) (slice_get self.now.items i) }
    {
        let entry = self.entries.get(i)?;
        if entry.kind.is_claim() {
            return Some(UndoStep::Unclaim { key: entry.key });
        }
        Some(UndoStep::Restore {
            key: entry.key,
            before: record_at(&self.bytes, entry.before()),
        })
    }

    /// What a walk needs of it.
    pub fn link(&self, i: usize) -> Option<Link>
        ensures { result ≡ option_map (λ u. link_of (change_in u)) (slice_get self.now.items i) }
    {
        let entry = self.entries.get(i)?;
        Some(Link {
            lsn: entry.lsn,
            prev: entry.prev,
            key: entry.key,
        })
    }

    /// Makes room for so many records more, and for the bytes of one change. Fault: Memory; the records stay, and so
    /// does what room there was.
    pub fn reserve(&mut self, count: usize) -> Result<(), Memory>
        ensures items { self.new.items ≡ self.old.items }
        ensures marks { self.new.marks ≡ self.old.marks }
        ensures room { self.old.room ≤ self.new.room }
        ensures ok { OnOk result ((length self.new.items + count ≤ self.new.room)
            × (2 * widest_record ≤ self.new.free)) }
    {
        self.entries.reserve(count)?;
        self.bytes.reserve(2 * RECORD_WIDTH)?;
        Ok(())
    }

    /// Adds the record of a change, with its mark: of a claim where `after` is none. `absent` is whether the key is absent
    /// by the changes below it. It takes no memory.
    pub fn push_change(
        &mut self,
        prev: u32,
        tx: TxId,
        key: &Key,
        before: &Option<Record>,
        after: Option<&Option<Record>>,
        absent: bool,
    )
        requires few { length self.old.items < most_log_records }
        requires room { length self.old.items < self.old.room }
        requires free { 2 * widest_record ≤ self.old.free }
        ensures items { self.new.items
            ≡ self.old.items ++ change_record (length self.old.items + 1) prev tx key.now before.now (option_map (λ w. w.now) after.entry) ∷ [] }
        ensures marks { self.new.marks
            ≡ self.old.marks ++ record { newest = length self.old.items + 1; absent = absent } ∷ [] }
        ensures room { self.old.room ≤ self.new.room }
    {
        let lsn = self.entries.len() as u32 + 1;
        let before = note(&mut self.bytes, before);
        let (kind, after) = note_written(&mut self.bytes, after);
        let _ = self.entries.push(Entry {
            kind,
            absent,
            before_len: before.len,
            after_len: after.len,
            before_at: before.at,
            rest: after.at,
            lsn,
            prev,
            tx,
            newest: lsn,
            key: *key,
        });
    }

    /// Adds the record of taking back the change whose record is in that place, with its mark. It takes no memory.
    pub fn push_back(&mut self, of: usize, prev: u32, tx: TxId, mark: Mark)
        requires there { of < length self.old.items }
        requires few { length self.old.items < most_log_records }
        requires room { length self.old.items < self.old.room }
        ensures items { (u : LogRecord) → slice_get self.old.items of ≡ Some u
            → self.new.items
            ≡ self.old.items
            ++ back_record (length self.old.items + 1) prev tx (key_of_record u) (back_in u) (prev_of u)
            ∷ [] }
        ensures marks { self.new.marks ≡ self.old.marks ++ mark ∷ [] }
        ensures room { self.old.room ≤ self.new.room }
    {
        let taken = self.entries[of];
        let _ = self.entries.push(Entry {
            kind: taken.kind.back(),
            absent: mark.absent,
            before_len: taken.before_len,
            after_len: NO_RECORD,
            before_at: taken.before_at,
            rest: taken.prev,
            lsn: self.entries.len() as u32 + 1,
            prev,
            tx,
            newest: mark.newest,
            key: taken.key,
        });
    }
}
