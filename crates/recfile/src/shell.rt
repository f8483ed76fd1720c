ghost use Rattle.std.specs.Prelude.{◌≡◌, ◌+◌, ◌++◌, ◌||◌, ℕ, false, IsTrue, List, Option, OnOk, IfErr, MatchResult, if◌then◌else◌};
ghost use Rattle.std.specs.Result.{is_err};
ghost use Rattle.std.specs.FinMap as maps;
ghost use Rattle.recfile.specs.Streams.{TellsFailed, run_read_fault, run_write_fault};
ghost use Rattle.std.specs.Io.{ReadsAtMost};
ghost use Rattle.std.specs.Io.KnownBytes.{ReadConsumes};
ghost use Rattle.record_file.specs.Runs.{Seen, seen_as};
ghost use Rattle.command_text.specs.Script.{bounded_entries_in, ended_lines, lines_of};
ghost use Rattle.recfile.specs.Run.{commands, says_command};
ghost use Rattle.recfile.specs.Shell.{AsksFlush, LinesAnswered, AnsweredSoFar, IsAnswered, LineAnswered, LineStops, RanLines, Start, StopsAtLine, counted_to};

use crate::call::command_count;
use crate::commit_keeper::CommitKeeper;
use crate::part_line::PartLine;
use crate::script::{RunFault, ScriptFault, answer};
use crate::streams::{CountedRead, CountedWrite, StreamCalls};
use command_text::{Command, LineFault};
use file_session::cut_line;
use rec_types::Table;
use record_file::RecordFile;
use std::alloc::Global;
use std::io;
use std::sync::ledger::Ledger;

// How many bytes are read at a time.
const CHUNK: usize = 4096;

// The line by which a session asks for a flush.
const FLUSH: &[u8] = b"flush\n";

/// How many commands and how many lines were run; a count stays at its greatest number.
#[derive(Clone, Copy)]
pub struct Counts {
    done: u32,
    lines: u32,
}

impl Counts {
    // Counts a line that says this.
    fn add(&mut self, said: &Result<Option<Command>, LineFault>)
        ensures done { self.new.done
            ≡ counted_to (self.old.done + (if says_command said.now then 1 else 0)) }
        ensures lines { self.new.lines ≡ counted_to (self.old.lines + 1) }
    {
        self.done = self.done.saturating_add(command_count(said));
        self.lines = self.lines.saturating_add(1);
    }
}

/// Runs the lines that a reader has, each as soon as it is read: its reply is written before more is read. What follows
/// the last LF is a line, where it has a byte. A line has at most 65,536 bytes; of a longer one nothing is kept. It
/// answers how many commands there were, or 4,294,967,295 where there were more; where it is `strict`, the first reply
/// that is a refusal ends it, once it is written. So does a line `flush` that one read gives, where commits are kept and
/// no transaction is open; it has no reply yet. It takes 65,536 bytes of memory, and what the calls and replies take.
/// Faults: Memory { done: 0 }, where nothing is read; ReadFault, exactly where a read failed; WriteFault, exactly where
/// a write failed or took nothing; Memory, Refused and Flush where they are met;
/// ScriptTooLong after 2^64 - 1 reads.
pub fn run_shell<L: Ledger, T: Table, K: CommitKeeper<T>, R: CountedRead<L>, W: CountedWrite<L>>(
    alloc: Global,
    strict: bool,
    reader: &mut R,
    writer: &mut W,
    file: &mut RecordFile<T>,
    keeper: &mut K,
    calls: &mut StreamCalls<L>,
) -> Result<u32, RunFault>
    ensures ran { RanLines strict (R.left reader.old) (R.left reader.new)
        (W.held writer.old) (W.held writer.new)
        (seen_as K.keeps T.TableState file.old) (seen_as K.keeps T.TableState file.new) result }
    ensures moves { K.moves file.old.table file.new.table }
    ensures failed { TellsFailed calls.old (run_read_fault result) (run_write_fault result)
        calls.new }
{
    run_answered(alloc, strict, reader, writer, file, keeper, calls)
}

// The same, with what the reader had and the writer held at the start, and the file.
fn run_answered<L: Ledger, T: Table, K: CommitKeeper<T>, R: CountedRead<L>, W: CountedWrite<L>>(
    alloc: Global,
    strict: bool,
    reader: &mut R,
    writer: &mut W,
    file: &mut RecordFile<T>,
    keeper: &mut K,
    calls: &mut StreamCalls<L>,
) -> Result<u32, RunFault>
    ghost start: { Start }
    requires { start ≡ record {
      strict = strict;
      left = R.left reader.old;
      held = W.held writer.old;
      old = seen_as K.keeps T.TableState file.old;
    } }
    ensures ran { RanLines strict (R.left reader.old) (R.left reader.new)
        (W.held writer.old) (W.held writer.new)
        (seen_as K.keeps T.TableState file.old) (seen_as K.keeps T.TableState file.new) result }
    ensures moves { K.moves file.old.table file.new.table }
    ensures failed { TellsFailed calls.old (run_read_fault result) (run_write_fault result)
        calls.new }
{
    let mut part = PartLine::new(alloc).map_err(|_| ScriptFault::Memory { done: 0 })?;
    let mut text = String::new(alloc);
    let mut counts = Counts { done: 0, lines: 0 };
    let mut chunk = [0; CHUNK];
    for turn in 0..u64::MAX {
        match read_answered(reader, writer, &mut chunk, calls) {
            Err(_) => return Err(RunFault::Script(ScriptFault::ReadFault)),
            Ok(0) => return answer_last(
                &mut text, strict, &mut part, counts, writer, file, keeper, calls,
            ),
            Ok(n) => {
                if asks_flush(keeper, file, &part, &chunk[..n]) {
                    return Err(RunFault::Flush);
                }
                answer_lines(
                    &mut text,
                    strict,
                    &chunk[..n],
                    &mut part,
                    &mut counts,
                    writer,
                    file,
                    keeper,
                    calls,
                )?;
            }
        }
    }
    Err(RunFault::Script(ScriptFault::ScriptTooLong))
}

/// Makes one read for a run of lines. Of what the run has read, each line that has its LF is answered by then: the
/// writer, which is only looked at, holds the replies.
pub fn read_answered<L: Ledger, R: CountedRead<L>, W: CountedWrite<L>>(
    reader: &mut R,
    _writer: &W,
    to: &mut [u8],
    calls: &mut StreamCalls<L>,
) -> io::Result<usize>
    ghost start: { Start }
    requires { IsAnswered start (R.left reader.old) (W.held _writer.now) }
    ensures bound { ReadsAtMost result to.new }
    ensures bytes { ReadConsumes (R.left reader.old) (R.left reader.new) result to.new }
    ensures failed { TellsFailed calls.old (is_err result) false calls.new }
{
    reader.read_on(calls, to)
}

// Whether the bytes that come next are a line that asks for a flush, where commits are kept and no transaction is open.
fn asks_flush<T: Table, K: CommitKeeper<T>>(
    keeper: &K,
    file: &RecordFile<T>,
    part: &PartLine,
    bytes: &[u8],
) -> bool
    ensures asks { IsTrue result
        → AsksFlush K.keeps (maps.len file.now.file.txs) part.now bytes.now }
    ensures unasked { result ≡ false
        → AsksFlush K.keeps (maps.len file.now.file.txs) part.now bytes.now → ⊥ }
{
    let idle = file.open_count() == 0;
    idle && keeper.keeps() && part.is_new() && bytes == FLUSH
}

// Runs each line that ends in these bytes, which come after what was read before. What follows the last LF begins a
// line, or goes on with one. Faults: those of `answer_line`.
fn answer_lines<L: Ledger, T: Table, K: CommitKeeper<T>, W: CountedWrite<L>>(
    text: &mut String,
    strict: bool,
    bytes: &[u8],
    part: &mut PartLine,
    counts: &mut Counts,
    writer: &mut W,
    file: &mut RecordFile<T>,
    keeper: &mut K,
    calls: &mut StreamCalls<L>,
) -> Result<(), RunFault>
    ensures answered { (held : Option (List ℕ)) (old : Seen) (taken : List ℕ)
        → AnsweredSoFar strict held (W.held writer.old) old (seen_as K.keeps T.TableState file.old)
        taken part.old counts.old
        → MatchResult result
        (λ _. AnsweredSoFar strict held (W.held writer.new) old (seen_as K.keeps T.TableState file.new)
        (taken ++ bytes.now) part.new counts.new)
        (λ fault. StopsAtLine strict held (W.held writer.new) old (seen_as K.keeps T.TableState file.new)
        (ended_lines (taken ++ bytes.now)) fault) }
    ensures moves { K.moves file.old.table file.new.table }
    ensures failed { calls.new ≡ record calls.old {
      write_failed = run_write_fault result || calls.old.write_failed;
    } }
    ensures faults { run_read_fault result ≡ false }
{
    let mut rest = bytes;
    while let Some((last, after)) = cut_line(rest) {
        rest = after;
        let said = part.end(last);
        answer_line(text, strict, said, counts, writer, file, keeper, calls)?;
    }
    part.push(rest);
    Ok(())
}

// Runs the last line, which has no LF, where it has a byte; answers how many commands there were. Faults: those of
// `answer_line`.
fn answer_last<L: Ledger, T: Table, K: CommitKeeper<T>, W: CountedWrite<L>>(
    text: &mut String,
    strict: bool,
    part: &mut PartLine,
    counts: Counts,
    writer: &mut W,
    file: &mut RecordFile<T>,
    keeper: &mut K,
    calls: &mut StreamCalls<L>,
) -> Result<u32, RunFault>
    ensures answered { (held : Option (List ℕ)) (old : Seen) (taken : List ℕ)
        → AnsweredSoFar strict held (W.held writer.old) old (seen_as K.keeps T.TableState file.old)
        taken part.old counts
        → MatchResult result
        (λ done. LinesAnswered strict held (W.held writer.new) old (lines_of taken)
        (seen_as K.keeps T.TableState file.new)
        × (done ≡ counted_to (commands (bounded_entries_in (lines_of taken)))))
        (λ fault. StopsAtLine strict held (W.held writer.new) old (seen_as K.keeps T.TableState file.new)
        (lines_of taken) fault) }
    ensures moves { K.moves file.old.table file.new.table }
    ensures failed { calls.new ≡ record calls.old {
      write_failed = run_write_fault result || calls.old.write_failed;
    } }
    ensures faults { run_read_fault result ≡ false }
{
    if part.is_new() {
        return Ok(counts.done);
    }
    let mut counts = counts;
    let said = part.end(&[]);
    answer_line(text, strict, said, &mut counts, writer, file, keeper, calls)?;
    Ok(counts.done)
}

// Runs a line that says this, and writes its reply. Faults: Memory, WriteFault; Refused, where it is strict.
fn answer_line<L: Ledger, T: Table, K: CommitKeeper<T>, W: CountedWrite<L>>(
    text: &mut String,
    strict: bool,
    said: Result<Option<Command>, LineFault>,
    counts: &mut Counts,
    writer: &mut W,
    file: &mut RecordFile<T>,
    keeper: &mut K,
    calls: &mut StreamCalls<L>,
) -> Result<(), RunFault>
    ensures done { counts.new.done
        ≡ counted_to (counts.old.done + (if says_command said then 1 else 0)) }
    ensures lines { counts.new.lines ≡ counted_to (counts.old.lines + 1) }
    ensures answered { OnOk result (LineAnswered strict (W.held writer.old)
        (W.held writer.new) (seen_as K.keeps T.TableState file.old) said (seen_as K.keeps T.TableState file.new)) }
    ensures stops { IfErr result (LineStops strict (W.held writer.old) (W.held writer.new)
        (seen_as K.keeps T.TableState file.old) said (seen_as K.keeps T.TableState file.new)
        counts.new.done counts.new.lines) }
    ensures moves { K.moves file.old.table file.new.table }
    ensures failed { calls.new ≡ record calls.old {
      write_failed = run_write_fault result || calls.old.write_failed;
    } }
    ensures faults { run_read_fault result ≡ false }
{
    counts.add(&said);
    let Some(refused) = answer(text, writer, file, keeper, &said, counts.done, calls)? else {
        return Ok(());
    };
    if strict && refused {
        return Err(RunFault::Refused { line: counts.lines });
    }
    Ok(())
}
