ghost use Rattle.std.specs.Prelude.{ℕ, List, Option, IfErr, IfOk, IsTrue};
ghost use Rattle.page_journal.specs.Crash.{IsAtRest};
ghost use Rattle.recfile.specs.Flushing.{BeginsNext, BeginsNone, InARow};
ghost use Rattle.file_session.specs.Settling.{IsJustSettled};

use crate::durable::run_durable;
use crate::kept_file::{DiskEnd, unopened};
use crate::manner::Manner;
use crate::script::{ScriptFault, send_text};
use crate::statuses::exit_status;
use crate::streams::{CountedRead, CountedWrite, StreamCalls};
use crate::tell::tell;
use file_session::FileFault;
use page_journal::Disk;
use rec_types::Limits;
use std::alloc::Global;
use std::io::Write;
use std::sync::ledger::Ledger;

// The reply to a flush.
const REPLY: &[u8] = b"ok\n";

// Writes the reply to a flush by which a file was closed, and begins again on its disk; or answers the end of the session.
// A fault has its line.
fn begin_next<L: Ledger, D: Disk + Drop, W: CountedWrite<L>, E: Write>(
    disk: D,
    out: &mut W,
    err: &mut E,
    calls: &mut StreamCalls<L>,
) -> Result<D, DiskEnd<D>>
    requires rest { IsTrue (D.steady disk) → IsAtRest D.DiskState disk }
    ensures next { (left : Option (List ℕ)) → IfOk result (λ next. BeginsNext D.DiskState
        (record { disk = disk; left = left; held = W.held out.old; calls = calls.old })
        (record { disk = next; left = left; held = W.held out.new; calls = calls.new })) }
    ensures none { (left : Option (List ℕ)) → IfErr result (λ end. BeginsNone D.DiskState
        (record { disk = disk; left = left; held = W.held out.old; calls = calls.old })
        (record { disk = end.disk; left = left; held = W.held out.new; calls = calls.new })
        end.unopened end.unclosed end.status) }
{
    if send_text(out, REPLY, calls).is_err() {
        tell(err, &ScriptFault::WriteFault { done: 0 });
        return Err(DiskEnd {
            status: exit_status(false, false, true),
            disk,
            flushed: false,
            unopened: None,
            unclosed: None,
        });
    }
    let mut disk = disk;
    match disk.begin_again() {
        Ok(()) => Ok(disk),
        Err(fault) => Err(unopened(disk, FileFault::from(fault), err)),
    }
}

/// Runs a session as `run_durable` does, and goes on at each flush: where no transaction is open, a line `flush` closes the
/// file, so that no commit is in a log any more and numbers begin at 1 again; the reply `ok` is written once that is done, and
/// the next session begins, over the same disk, on what the reader has still. Where a session doesn't end so, this ends as it
/// did; else where the reply can't be written, or the disk fails before the next begins.
pub fn run_flushing<L: Ledger, D: Disk + Drop, R: CountedRead<L>, W: CountedWrite<L>, E: Write>(
    alloc: Global,
    disk: D,
    limits: Limits,
    manner: Manner,
    reader: &mut R,
    out: &mut W,
    err: &mut E,
    calls: &mut StreamCalls<L>,
) -> DiskEnd<D>
    requires { IsJustSettled D.DiskState disk }
    ensures { InARow D.DiskState manner limits
        (record { disk = disk; left = R.left reader.old; held = W.held out.old; calls = calls.old })
        (record { disk = result.disk; left = R.left reader.new; held = W.held out.new; calls = calls.new })
        result.unopened result.unclosed result.status }
{
    let mut disk = disk;
    for turn in 0..u64::MAX {
        let end = run_durable(alloc, disk, limits, manner, reader, out, err, calls);
        if !end.flushed {
            return end;
        }
        match begin_next(end.disk, out, err, calls) {
            Ok(next) => disk = next,
            Err(end) => return end,
        }
    }
    run_durable(alloc, disk, limits, manner, reader, out, err, calls)
}
