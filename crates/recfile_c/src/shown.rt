// What a caller reads. No field has a value that C may not leave in memory.
ghost use Rattle.std.specs.Prelude.{◌≡◌, None, Some, if◌then◌else◌};
ghost use Rattle.recfile_c.specs.Shown.{shown, step_shown, page_left};
ghost use Rattle.recfile_c.specs.Answers.{found_in, taken_in};

use page_store::Step;
use rec_types::{Entry, KEY_WIDTH, Key, PAGE_WIDTH, RECORD_WIDTH, Record};
use record_file::{EntriesFault, Status, StatusFault};
use tx_log::LogRecord;

/// A key: its first `len` bytes.
#[repr(C)]
#[derive(Clone, Copy)]
pub struct KeyBytes {
    pub bytes: [u8; KEY_WIDTH],
    pub len: u8,
}

/// A record, where `is_there` isn't 0: its first `len` bytes.
#[repr(C)]
#[derive(Clone, Copy)]
pub struct Found {
    pub bytes: [u8; RECORD_WIDTH],
    pub len: u8,
    pub is_there: u8,
}

/// A record of the log. `kind` is 0 where there is none, 1 for an update, 2 for a compensation, whose `after` is
/// what it restored, 3 for a claim, whose `before` is what it has seen, and 4 for the taking back of a claim.
#[repr(C)]
#[derive(Clone, Copy)]
pub struct LogEntry {
    pub kind: u32,
    pub lsn: u32,
    pub prev: u32,
    pub tx: u32,
    pub undo_next: u32,
    pub key: KeyBytes,
    pub before: Found,
    pub after: Found,
}

/// What an open transaction is doing. Where `is_rolling` is 0 it has `saves` savepoints and `live` live changes;
/// else its rollback has `left` changes left, and `ends` isn't 0 where it ends with it.
#[repr(C)]
#[derive(Clone, Copy)]
pub struct TxStatus {
    pub is_rolling: u8,
    pub ends: u8,
    pub saves: u32,
    pub live: u32,
    pub left: u32,
}

/// A step. `kind` is 1 where the file is to be made `number` pages long, 2 where page `number` is to be written, 3
/// where the device is to keep what was written.
#[repr(C)]
#[derive(Clone, Copy)]
pub struct StepShown {
    pub kind: u32,
    pub number: u32,
}

/// An entry of a list.
#[repr(C)]
#[derive(Clone, Copy)]
pub struct ListedEntry {
    pub owner: u32,
    pub is_owned: u8,
    pub key: KeyBytes,
    pub value: Found,
}

impl Default for KeyBytes {
    ghost use Rattle.std.specs.Prelude.{◌≡◌, []};
    ghost use Rattle.recfile_c.specs.Shown.{key_shown};

    ghost is_default = { λ key. key_shown key ≡ [] };

    /// No key.
    fn default() -> KeyBytes {
        KeyBytes {
            bytes: [0; KEY_WIDTH],
            len: 0,
        }
    }
}

impl From<&Key> for KeyBytes {
    ghost use Rattle.std.specs.Prelude.{◌≡◌};
    ghost use Rattle.recfile_c.specs.Shown.{key_shown};

    ghost from_gives = { λ key told. key_shown told ≡ key.now };

    /// The bytes of a key.
    fn from(key: &Key) -> KeyBytes {
        let from = key.bytes();
        let mut bytes = [0; KEY_WIDTH];
        bytes[..from.len()].copy_from_slice(from);
        KeyBytes {
            bytes,
            len: from.len() as u8,
        }
    }
}

impl Default for Found {
    ghost use Rattle.std.specs.Prelude.{◌≡◌, None};
    ghost use Rattle.recfile_c.specs.Shown.{shown};

    ghost is_default = { λ found. shown found ≡ None };

    /// No record.
    fn default() -> Found {
        Found {
            bytes: [0; RECORD_WIDTH],
            len: 0,
            is_there: 0,
        }
    }
}

impl From<&Record> for Found {
    ghost use Rattle.std.specs.Prelude.{◌≡◌, Some};
    ghost use Rattle.recfile_c.specs.Shown.{shown};

    ghost from_gives = { λ value told. shown told ≡ Some value.now };

    /// A record.
    fn from(value: &Record) -> Found {
        let from = value.bytes();
        let mut bytes = [0; RECORD_WIDTH];
        bytes[..from.len()].copy_from_slice(from);
        Found {
            bytes,
            len: from.len() as u8,
            is_there: 1,
        }
    }
}

impl From<&Option<Record>> for Found {
    ghost use Rattle.std.specs.Prelude.{◌≡◌};
    ghost use Rattle.recfile_c.specs.Shown.{shown};

    ghost from_gives = { λ found told. shown told ≡ found.now };

    /// A record, where there is one.
    fn from(found: &Option<Record>) -> Found {
        match found {
            Some(value) => Found::from(value),
            None => Found::default(),
        }
    }
}

impl Found {
    // Shows a record in the place of what was shown.
    fn show(&mut self, value: &Record)
        ensures { shown self.new ≡ Some value.now }
    {
        let from = value.bytes();
        self.bytes[..from.len()].copy_from_slice(from);
        self.len = from.len() as u8;
        self.is_there = 1;
    }

    /// Shows the record that an answer found, where nothing was shown.
    pub(crate) fn show_found<E>(&mut self, answer: &Result<Option<Record>, E>)
        requires { shown self.old ≡ None }
        ensures { shown self.new ≡ found_in answer.now }
    {
        if let Ok(Some(value)) = answer {
            self.show(value);
        }
    }

    /// Shows the record that an answer took out, where nothing was shown.
    pub(crate) fn show_taken<E>(&mut self, answer: &Result<Record, E>)
        requires { shown self.old ≡ None }
        ensures { shown self.new ≡ taken_in answer.now }
    {
        if let Ok(value) = answer {
            self.show(value);
        }
    }
}

impl Default for LogEntry {
    ghost use Rattle.std.specs.Prelude.{None};
    ghost use Rattle.recfile_c.specs.Shown.{ShowsLog};

    ghost is_default = { λ entry. ShowsLog entry None };

    /// No record of the log.
    fn default() -> LogEntry {
        LogEntry {
            kind: 0,
            lsn: 0,
            prev: 0,
            tx: 0,
            undo_next: 0,
            key: KeyBytes::default(),
            before: Found::default(),
            after: Found::default(),
        }
    }
}

impl From<&LogRecord> for LogEntry {
    ghost use Rattle.std.specs.Prelude.{Some};
    ghost use Rattle.recfile_c.specs.Shown.{ShowsLog};

    ghost from_gives = { λ logged told. ShowsLog told (Some logged.now) };

    /// A record of the log.
    fn from(logged: &LogRecord) -> LogEntry {
        match logged {
            LogRecord::Update {
                lsn,
                prev,
                tx,
                key,
                before,
                after,
            } => LogEntry {
                kind: 1,
                lsn: *lsn,
                prev: *prev,
                tx: tx.0,
                undo_next: 0,
                key: KeyBytes::from(key),
                before: Found::from(before),
                after: Found::from(after),
            },
            LogRecord::Compensation {
                lsn,
                prev,
                tx,
                key,
                restored,
                undo_next,
            } => LogEntry {
                kind: 2,
                lsn: *lsn,
                prev: *prev,
                tx: tx.0,
                undo_next: *undo_next,
                key: KeyBytes::from(key),
                before: Found::default(),
                after: Found::from(restored),
            },
            LogRecord::Claim {
                lsn,
                prev,
                tx,
                key,
                seen,
            } => LogEntry {
                kind: 3,
                lsn: *lsn,
                prev: *prev,
                tx: tx.0,
                undo_next: 0,
                key: KeyBytes::from(key),
                before: Found::from(seen),
                after: Found::default(),
            },
            LogRecord::Unclaim {
                lsn,
                prev,
                tx,
                key,
                undo_next,
            } => LogEntry {
                kind: 4,
                lsn: *lsn,
                prev: *prev,
                tx: tx.0,
                undo_next: *undo_next,
                key: KeyBytes::from(key),
                before: Found::default(),
                after: Found::default(),
            },
        }
    }
}

impl From<&Option<LogRecord>> for LogEntry {
    ghost use Rattle.recfile_c.specs.Shown.{ShowsLog};

    ghost from_gives = { λ found told. ShowsLog told found.now };

    /// A record of the log, where there is one.
    fn from(found: &Option<LogRecord>) -> LogEntry {
        match found {
            Some(logged) => LogEntry::from(logged),
            None => LogEntry::default(),
        }
    }
}

// 1 where the test holds, else 0.
fn byte_of(test: bool) -> u8
    ensures { result ≡ (if test then 1 else 0) }
{
    if test { 1 } else { 0 }
}

impl Default for TxStatus {
    ghost use Rattle.std.specs.Prelude.{◌≡◌};
    ghost use Rattle.recfile_c.specs.Shown.{no_status};

    ghost is_default = { λ told. told ≡ no_status };

    /// What no transaction is doing.
    fn default() -> TxStatus {
        TxStatus {
            is_rolling: 0,
            ends: 0,
            saves: 0,
            live: 0,
            left: 0,
        }
    }
}

impl From<Status> for TxStatus {
    ghost use Rattle.std.specs.Prelude.{◌≡◌};
    ghost use Rattle.recfile_c.specs.Shown.{status_shown};

    ghost from_gives = { λ status told. status_shown told ≡ status };

    /// What a transaction is doing.
    fn from(status: Status) -> TxStatus {
        match status {
            Status::Active { saves, live } => TxStatus {
                is_rolling: 0,
                ends: 0,
                saves,
                live,
                left: 0,
            },
            Status::Rolling { left, ends } => TxStatus {
                is_rolling: 1,
                ends: byte_of(ends),
                saves: 0,
                live: 0,
                left,
            },
        }
    }
}

impl From<&Result<Status, StatusFault>> for TxStatus {
    ghost use Rattle.recfile_c.specs.Answers.{TellsStatus};

    ghost from_gives = { λ answer told. TellsStatus answer.now told };

    /// What an answer says of a transaction.
    fn from(answer: &Result<Status, StatusFault>) -> TxStatus {
        match answer {
            Ok(status) => TxStatus::from(*status),
            Err(_) => TxStatus::default(),
        }
    }
}

impl Default for ListedEntry {
    ghost use Rattle.recfile_c.specs.Shown.{IsNoEntry};

    ghost is_default = { λ told. IsNoEntry told };

    /// No entry.
    fn default() -> ListedEntry {
        ListedEntry {
            owner: 0,
            is_owned: 0,
            key: KeyBytes::default(),
            value: Found::default(),
        }
    }
}

impl From<&Entry> for ListedEntry {
    ghost use Rattle.recfile_c.specs.Shown.{ShowsEntry};

    ghost from_gives = { λ entry told. ShowsEntry told entry.now };

    /// An entry.
    fn from(entry: &Entry) -> ListedEntry {
        let (owner, is_owned) = match entry.owner {
            Some(owner) => (owner.0, 1),
            None => (0, 0),
        };
        ListedEntry {
            owner,
            is_owned,
            key: KeyBytes::from(&entry.key),
            value: Found::from(&entry.value),
        }
    }
}

impl From<&Result<Option<Entry>, EntriesFault>> for ListedEntry {
    ghost use Rattle.recfile_c.specs.Shown.{ShowsFound};

    ghost from_gives = { λ answer told. ShowsFound answer.now told };

    /// The entry that an answer found.
    fn from(answer: &Result<Option<Entry>, EntriesFault>) -> ListedEntry {
        match answer {
            Ok(Some(entry)) => ListedEntry::from(entry),
            Ok(None) | Err(_) => ListedEntry::default(),
        }
    }
}

impl Default for StepShown {
    ghost use Rattle.std.specs.Prelude.{◌≡◌};
    ghost use Rattle.recfile_c.specs.Shown.{no_step};

    ghost is_default = { λ told. told ≡ no_step };

    /// No step.
    fn default() -> StepShown {
        StepShown { kind: 0, number: 0 }
    }
}

impl StepShown {
    /// A step, and the page that it writes.
    pub(crate) fn of(step: &Step, page: &mut [u8; PAGE_WIDTH]) -> StepShown
        ensures told { step_shown result page.new ≡ step.now }
        ensures page { page.new ≡ page_left step.now page.old }
    {
        match step {
            Step::SetPages(number) => StepShown {
                kind: 1,
                number: *number,
            },
            Step::Write(number, written) => {
                *page = *written;
                StepShown {
                    kind: 2,
                    number: *number,
                }
            }
            Step::Sync => StepShown { kind: 3, number: 0 },
        }
    }
}
