use crate::chain::{ChainRecord, Deed, OpenTx, record_at, undo_from};
use command_text::{Command, read_bounded_line};
use rec_types::{Key, Memory, TxId};
use std::alloc::Global;
use std::mem;

/// The line by which a session asks that its file be written, and begins again.
pub const FLUSH: &[u8] = b"flush";

// How much of a reply is kept: its first words.
const KEPT: usize = 64;

/// What the lines of a session and their replies tell: which transactions are open, how many were committed, and what the
/// log has.
#[derive(Drop)]
pub struct Watch {
    records: Vec<ChainRecord>,
    open: Vec<OpenTx>,
    begun: u32,
    committed: u32,
    // Whether each line was understood, and there was memory for what it tells.
    known: bool,
    // Whether nothing was read, not even the end of the lines; and whether that was.
    begins: bool,
    ended: bool,
    said: Option<Command>,
    flush: bool,
    // Whether the last line that was heard has no end yet.
    part: bool,
    reply: Vec<u8>,
}

// What a reply tells: the call was accepted, or stopped, with the number behind that word; or neither.
#[derive(Clone, Copy)]
enum Told {
    Accepted(u32),
    Stopped(u32),
    Nothing,
}

fn told_by(reply: &[u8]) -> Told {
    let Ok(text) = str::from_utf8(reply) else {
        return Told::Nothing;
    };
    let mut words = text.split_ascii_whitespace();
    let (first, second) = (words.next(), words.next().unwrap_or(""));
    let number = second.parse::<u32>().unwrap_or(0);
    match first {
        Some("ok") => Told::Accepted(number),
        Some("stopped") => Told::Stopped(number),
        _ => Told::Nothing,
    }
}

impl Watch {
    /// Of a session that begins.
    pub fn new(alloc: Global) -> Watch {
        Watch {
            records: Vec::new(alloc),
            open: Vec::new(alloc),
            begun: 0,
            committed: 0,
            known: true,
            begins: true,
            ended: false,
            said: None,
            flush: false,
            part: false,
            reply: Vec::new(alloc),
        }
    }

    /// Whether all that was said is known.
    pub fn is_known(&self) -> bool {
        self.known
    }

    /// Whether nothing was read.
    pub fn begins(&self) -> bool {
        self.begins
    }

    /// Whether the end of the lines was read.
    pub fn is_ended(&self) -> bool {
        self.ended
    }

    /// How many transactions were begun.
    pub fn begun(&self) -> u32 {
        self.begun
    }

    /// How many were committed.
    pub fn committed(&self) -> u32 {
        self.committed
    }

    /// Those that are open, in the order of their numbers.
    pub fn open(&self) -> &[OpenTx] {
        self.open.as_slice()
    }

    /// The records of the log.
    pub fn records(&self) -> &[ChainRecord] {
        self.records.as_slice()
    }

    /// Hears a line that is handed on.
    pub fn hear(&mut self, line: &[u8]) {
        let text = match line.strip_suffix(b"\n") {
            Some(text) => text,
            None => line,
        };
        let goes_on = self.part && !line.is_empty();
        if goes_on || text.contains(&b'\n') {
            self.known = false;
        }
        self.part = !line.is_empty() && text.len() == line.len();
        self.begins = false;
        self.ended = line.is_empty();
        self.said = read_bounded_line(text).unwrap_or(None);
        self.flush = text == FLUSH;
        self.reply.clear();
    }

    /// Hears a piece of its reply.
    pub fn hear_reply(&mut self, piece: &[u8]) {
        let room = KEPT.saturating_sub(self.reply.len());
        let front = piece.get(..room).unwrap_or(piece);
        if self.reply.extend_from_slice(front).is_err() {
            self.known = false;
        }
    }

    /// Takes up what the line and its reply tell. Whether it asked for the log, whose length is known.
    pub fn take_up(&mut self) -> bool {
        if self.flush && matches!(told_by(&self.reply), Told::Accepted(_)) {
            self.begin_again();
        }
        self.flush = false;
        let Some(said) = self.said else {
            return false;
        };
        self.said = None;
        let told = told_by(&self.reply);
        let done = match told {
            Told::Accepted(number) => self.note(&said, number),
            Told::Stopped(number) => self.note_stopped(&said, number),
            Told::Nothing => Ok(()),
        };
        if done.is_err() {
            self.known = false;
        }
        let Told::Accepted(len) = told else {
            return false;
        };
        matches!(said, Command::Log) && self.known && self.records.len() == len as usize
    }

    // A flush was taken: no transaction is open, the log is empty, and numbers begin at 1.
    fn begin_again(&mut self) {
        self.records.clear();
        self.open.clear();
        self.begun = 0;
        self.known = true;
    }

    // What an accepted command did.
    fn note(&mut self, said: &Command, number: u32) -> Result<(), Memory> {
        match *said {
            Command::Begin => self.begin(TxId(number)),
            Command::Put(tx, key, _) => self.change(tx, key, Deed::Put),
            Command::Del(tx, key) => self.change(tx, key, Deed::Del),
            Command::Claim(tx, key) => self.change(tx, key, Deed::Claim),
            Command::Back(tx, _) => self.take_back(tx, number),
            Command::Resume(tx) => {
                self.take_back(tx, number)?;
                self.open.retain(|open| open.tx != tx || !open.ends);
                Ok(())
            }
            Command::Abort(tx) => {
                self.take_back(tx, number)?;
                self.open.retain(|open| open.tx != tx);
                Ok(())
            }
            Command::Commit(tx) => {
                self.open.retain(|open| open.tx != tx);
                self.committed = self.committed.saturating_add(1);
                Ok(())
            }
            _ => Ok(()),
        }
    }

    // What a rollback did that stopped.
    fn note_stopped(&mut self, said: &Command, number: u32) -> Result<(), Memory> {
        match *said {
            Command::Back(tx, _) | Command::Resume(tx) => self.take_back(tx, number),
            Command::Abort(tx) => {
                self.take_back(tx, number)?;
                if let Some(open) = self.open_mut(tx) {
                    open.ends = true;
                }
                Ok(())
            }
            _ => Ok(()),
        }
    }

    fn open_mut(&mut self, tx: TxId) -> Option<&mut OpenTx> {
        self.open.iter_mut().find(|open| open.tx == tx)
    }

    fn begin(&mut self, tx: TxId) -> Result<(), Memory> {
        self.begun = tx.0;
        self.open.push(OpenTx {
            tx,
            last: 0,
            ends: false,
        })?;
        Ok(())
    }

    // The transaction has one record more.
    fn change(&mut self, tx: TxId, key: Key, deed: Deed) -> Result<(), Memory> {
        let number = u32::try_from(self.records.len())
            .unwrap_or(u32::MAX)
            .saturating_add(1);
        let Some(open) = self.open_mut(tx) else {
            return Ok(());
        };
        let prev = mem::replace(&mut open.last, number);
        self.records.push(ChainRecord {
            tx,
            prev,
            key,
            deed,
            undone_by: 0,
        })?;
        Ok(())
    }

    // So many of its changes were taken back, the newest first.
    fn take_back(&mut self, tx: TxId, count: u32) -> Result<(), Memory> {
        for _ in 0..count {
            self.take_one_back(tx)?;
        }
        Ok(())
    }

    fn take_one_back(&mut self, tx: TxId) -> Result<(), Memory> {
        let Some(open) = self.open_mut(tx) else {
            return Ok(());
        };
        let last = open.last;
        let Some(of) = undo_from(&self.records, last) else {
            return Ok(());
        };
        let Some(undone) = record_at(&self.records, of).copied() else {
            return Ok(());
        };
        let next = undone.prev;
        self.change(tx, undone.key, Deed::Undo { of, next })?;
        let by = u32::try_from(self.records.len()).unwrap_or(u32::MAX);
        if let Some(record) = self.records.get_mut(of.saturating_sub(1) as usize) {
            record.undone_by = by;
        }
        Ok(())
    }
}
