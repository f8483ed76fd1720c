ghost use Rattle.std.specs.Prelude.{◌≡◌, ◌+◌, ◌<◌, ◌≤◌, ◌||◌, ℕ, false, List, Option, length, take, IfOk, MatchResult};
ghost use Rattle.std.specs.Result.{is_err};
ghost use Rattle.std.specs.Io.{ReadsAtMost};
ghost use Rattle.std.specs.Io.KnownBytes.{Appends, Keeps, ReadConsumes};
ghost use Rattle.recfile.specs.Streams.{CallsMade, IsBlankFor};

use std::io;
use std::io::{Read, Write};
use std::marker::Model;
use std::sync::ledger::{Blank, Book, Ledger, Share};

/// How many reads were made, and whether a read or a write failed. Only a read of a `CountedRead` and a write of a
/// `CountedWrite` change it.
#[derive(Drop)]
pub struct StreamCalls<L: Ledger> {
    book: Book<L>,
    share: Share<L>,
    read_failed: bool,
    write_failed: bool,
}

impl<L: Ledger> Model for StreamCalls<L> {
    ghost use Rattle.std.specs.Prelude.{◌<◌};
    ghost use Rattle.recfile.specs.Streams.{CallsMade};

    ghost Value = { CallsMade };

    ghost view = { λ c. record {
      reads = c.book.total;
      read_failed = c.read_failed;
      write_failed = c.write_failed;
    } };

    ghost invariant = { λ c. 0 < c.share.parts };
}

impl<L: Ledger> StreamCalls<L> {
    /// No call was made yet.
    pub fn new(blank: Blank) -> StreamCalls<L>
        requires { IsBlankFor blank.name blank.parts L.name L.parts }
        ensures { result ≡ record { reads = 0; read_failed = false; write_failed = false } }
    {
        let (book, share) = blank.open::<L>();
        StreamCalls {
            book,
            share,
            read_failed: false,
            write_failed: false,
        }
    }

    // Counts one more read, which failed or didn't.
    fn count_read(&mut self, failed: bool)
        ensures { self.new ≡ record self.old {
          reads = self.old.reads + 1;
          read_failed = failed || self.old.read_failed;
        } }
    {
        self.book.add(&mut self.share, 1);
        self.read_failed = failed || self.read_failed;
    }

    // Notes a write, which failed or didn't.
    fn note_write(&mut self, failed: bool)
        ensures { self.new ≡ record self.old { write_failed = failed || self.old.write_failed } }
    {
        self.write_failed = failed || self.write_failed;
    }
}

/// A reader of which nothing more is known than that it can be read on the count of one ledger: who has it by this trait
/// can't read it past that count, since there is one count of a ledger.
pub trait CountedRead<L: Ledger> {
    /// The bytes that it has still, where they are known.
    ghost left: { Self → Option (List ℕ) };

    /// Makes one read, and counts it, whatever it answers.
    fn read_on(&mut self, calls: &mut StreamCalls<L>, to: &mut [u8]) -> io::Result<usize>
        ensures count { calls.new ≡ record calls.old {
          reads = calls.old.reads + 1;
          read_failed = is_err result || calls.old.read_failed;
        } }
        ensures bound { ReadsAtMost result to.new }
        ensures bytes { ReadConsumes (left self.old) (left self.new) result to.new };
}

impl<L: Ledger, R: Read> CountedRead<L> for R {
    ghost left = { λ r. R.remaining r };

    fn read_on(&mut self, calls: &mut StreamCalls<L>, to: &mut [u8]) -> io::Result<usize> {
        let answer = self.read(to);
        calls.count_read(answer.is_err());
        answer
    }
}

/// A write failed, or took no byte.
#[derive(Clone, Copy, Debug)]
pub struct Unwritten;

/// A writer whose failed writes are noted.
pub trait CountedWrite<L: Ledger> {
    /// The bytes that it holds, where they are known.
    ghost held: { Self → Option (List ℕ) };

    /// Makes one write of some bytes, and notes whether it failed. It answers how many it took, which is one at least.
    /// Fault: Unwritten.
    fn write_on(&mut self, calls: &mut StreamCalls<L>, bytes: &[u8]) -> Result<usize, Unwritten>
        ensures count { calls.new ≡ record calls.old {
          write_failed = is_err result || calls.old.write_failed;
        } }
        ensures bound { IfOk result (λ n. (0 < n) × (n ≤ length bytes.now)) }
        ensures bytes { MatchResult result
            (λ n. Appends (held self.old) (held self.new) (take n bytes.now))
            (λ _. Keeps (held self.old) (held self.new)) };
}

impl<L: Ledger, W: Write> CountedWrite<L> for W {
    ghost held = { λ w. W.contents w };

    fn write_on(&mut self, calls: &mut StreamCalls<L>, bytes: &[u8]) -> Result<usize, Unwritten> {
        match self.write(bytes) {
            Ok(0) | Err(_) => {
                calls.note_write(true);
                Err(Unwritten)
            }
            Ok(n) => {
                calls.note_write(false);
                Ok(n)
            }
        }
    }
}
