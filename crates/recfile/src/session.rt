ghost use Rattle.std.specs.Prelude.{◌≡◌, None};
ghost use Rattle.record_file.specs.Runs.{Seen, seen_as};
ghost use Rattle.recfile.specs.Streams.{TellsFailed, run_read_fault, run_write_fault};
ghost use Rattle.recfile.specs.Whole.{empty_file};
ghost use Rattle.recfile.specs.WholeSession.{IsSession, RanAs, RunsFile, is_flush};

use crate::commit_keeper::CommitKeeper;
use crate::endings::{EndFault, end_all};
use crate::manner::{Feed, Manner};
use crate::script::{RunFault, run_script_as};
use crate::shell::run_shell;
use crate::statuses::exit_status;
use crate::streams::{CountedRead, CountedWrite, StreamCalls};
use crate::tell::tell_fault_of;
use rec_types::{Limits, SortedTable, Table};
use record_file::{RecordFile, Unlogged};
use std::alloc::Global;
use std::io::Write;
use std::sync::ledger::Ledger;

/// How a session ended: how many commands its script ran, and how many transactions were open after it and were
/// ended; or why not.
#[derive(Clone, Copy, Debug)]
pub struct SessionEnd {
    pub script: Result<u32, RunFault>,
    pub ended: Result<u32, EndFault>,
}

/// Runs the lines that a reader has, in that manner, as `run_script_as` and `run_shell` do. Faults: theirs.
pub fn run_feed<L: Ledger, T: Table, K: CommitKeeper<T>, R: CountedRead<L>, W: CountedWrite<L>>(
    alloc: Global,
    manner: Manner,
    reader: &mut R,
    writer: &mut W,
    file: &mut RecordFile<T>,
    keeper: &mut K,
    calls: &mut StreamCalls<L>,
) -> Result<u32, RunFault>
    ensures ran { RanAs manner (R.left reader.old) (R.left reader.new)
        (W.held writer.old) (W.held writer.new)
        (seen_as K.keeps T.TableState file.old) (seen_as K.keeps T.TableState file.new) result }
    ensures moves { K.moves file.old.table file.new.table }
    ensures failed { TellsFailed calls.old (run_read_fault result) (run_write_fault result)
        calls.new }
{
    match manner.feed {
        Feed::Script => run_script_as(alloc, manner.strict, reader, writer, file, keeper, calls),
        Feed::Lines => run_shell(alloc, manner.strict, reader, writer, file, keeper, calls),
    }
}

/// Whether the lines ended at one that asks for a flush.
pub(crate) fn is_flush(script: &Result<u32, RunFault>) -> bool
    ensures { result ≡ is_flush script.now }
{
    matches!(script, Err(RunFault::Flush))
}

/// Runs the lines that the reader has over a file, writes their replies to `out`, and then ends every transaction that
/// is open. The manner says how the lines come and whether a refusal ends them. Where they aren't run to their end, and
/// where a transaction can't be ended, `err` gets a line that names the fault, but for a flush. The fault of the lines is ReadFault exactly
/// where a read failed, and WriteFault exactly where a write to `out` failed or took nothing.
pub fn run_session<
    L: Ledger,
    T: Table,
    K: CommitKeeper<T>,
    R: CountedRead<L>,
    W: CountedWrite<L>,
    E: Write,
>(
    alloc: Global,
    manner: Manner,
    file: &mut RecordFile<T>,
    keeper: &mut K,
    reader: &mut R,
    out: &mut W,
    err: &mut E,
    calls: &mut StreamCalls<L>,
) -> SessionEnd
    ensures session { (mid : Seen) × IsSession manner (R.left reader.old) (R.left reader.new)
        (W.held out.old) (W.held out.new) (seen_as K.keeps T.TableState file.old) mid
        result.script result.ended (seen_as K.keeps T.TableState file.new) }
    ensures moves { K.moves file.old.table file.new.table }
    ensures failed { TellsFailed calls.old (run_read_fault result.script)
        (run_write_fault result.script) calls.new }
{
    let script = run_feed(alloc, manner, reader, out, file, keeper, calls);
    if !is_flush(&script) {
        tell_fault_of(err, &script);
    }
    let ended = end_all(file);
    tell_fault_of(err, &ended);
    SessionEnd { script, ended }
}

/// Runs a session over an empty file in memory, with these limits, as `run_session` does. The status is that of
/// `exit_status`.
pub fn run_memory<L: Ledger, R: CountedRead<L>, W: CountedWrite<L>, E: Write>(
    alloc: Global,
    limits: Limits,
    manner: Manner,
    reader: &mut R,
    out: &mut W,
    err: &mut E,
    calls: &mut StreamCalls<L>,
) -> u8
    ensures { RunsFile manner (R.left reader.old) (R.left reader.new)
        (W.held out.old) (W.held out.new) calls.old calls.new (empty_file limits) None result }
{
    let mut file = RecordFile::new(alloc, SortedTable::new(alloc, limits), limits);
    let end = run_session(
        alloc,
        manner,
        &mut file,
        &mut Unlogged,
        reader,
        out,
        err,
        calls,
    );
    exit_status(end.ended.is_err(), false, end.script.is_err())
}
