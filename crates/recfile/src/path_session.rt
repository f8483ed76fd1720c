ghost use Rattle.std.specs.Prelude.{◌≡◌, ◌⊎◌, None, IfOk, IfSome};
ghost use Rattle.recfile.specs.FilesAt.{SessionOf};
ghost use Rattle.recfile.specs.Filling.{CanFill, FillsAt, LooksAt};
ghost use Rattle.file_session.specs.Settling.{IsJustSettled, SettlesAt};
ghost use Rattle.recfile.specs.Tasks.{RunsOver};

use crate::filling::fill_blank;
use crate::flushing::run_flushing;
use crate::kept_file::{DiskEnd, run_kept};
use crate::manner::Manner;
use crate::page_files::PageFiles;
use crate::statuses::exit_status;
use crate::streams::{CountedRead, CountedWrite, StreamCalls};
use crate::tell::{tell, tell_device};
use file_session::{FileFault, settle};
use page_journal::Disk;
use page_looks::Wanted;
use rec_types::{Key, Limits, Record};
use std::alloc::Global;
use std::io::Write;
use std::sync::ledger::Ledger;

// The status of a session that has ended. Its disk is let go first, so that what keeps the file can be looked for.
fn end_at<P: PageFiles, E: Write>(
    files: &P,
    alloc: Global,
    path: &str,
    end: DiskEnd<P::Device>,
    err: &mut E,
) -> u8
    ensures { result ≡ end.status }
{
    let DiskEnd {
        status,
        disk,
        unopened,
        unclosed,
        ..
    } = end;
    drop(disk);
    tell_device(
        files,
        alloc,
        Wanted::Written,
        path,
        unopened.or(unclosed),
        err,
    );
    status
}

// The status where no file is opened at a path. The fault has its line.
fn unfound<P: PageFiles, E: Write>(
    files: &P,
    alloc: Global,
    path: &str,
    fault: FileFault,
    err: &mut E,
) -> u8
    ensures { result ≡ 1 }
{
    tell(err, &fault);
    tell_device(files, alloc, Wanted::Written, path, Some(fault), err);
    exit_status(false, true, false)
}

// Opens the page file at a path to write it, and puts right what a stop left of it.
fn open_settled<P: PageFiles>(files: &P, alloc: Global, path: &str) -> Result<P::Device, FileFault>
    ensures settles { IfOk result (SettlesAt P.Device.DiskState (P.at files.now path.now)) }
    ensures opened { IfOk result (IsJustSettled P.Device.DiskState) }
{
    let disk = files.open(alloc, path)?;
    let (disk, settled) = settle(alloc, disk);
    settled?;
    let mut disk = disk;
    disk.begin_again()?;
    Ok(disk)
}

// Runs a session over a disk that was just opened and put right, whose commits are kept where it is durable.
fn run_settled<L: Ledger, D: Disk + Drop, R: CountedRead<L>, W: CountedWrite<L>, E: Write>(
    alloc: Global,
    disk: D,
    limits: Limits,
    manner: Manner,
    durable: bool,
    reader: &mut R,
    out: &mut W,
    err: &mut E,
    calls: &mut StreamCalls<L>,
) -> DiskEnd<D>
    requires { IsJustSettled D.DiskState disk }
    ensures { SessionOf durable D.DiskState manner limits (R.left reader.old) (R.left reader.new)
        (W.held out.old) (W.held out.new) calls.old calls.new disk
        result.unopened result.unclosed result.disk result.status }
{
    if durable {
        run_flushing(alloc, disk, limits, manner, reader, out, err, calls)
    } else {
        run_kept(alloc, disk, limits, manner, reader, out, err, calls)
    }
}

/// Runs a session over the page file at a path, as `run_flushing` does where it is to be durable, and else as `run_kept` does;
/// what a stop left of the file is put right first. Where its device fails, `err` gets a line that says why.
pub fn run_at_path<L: Ledger, P: PageFiles, R: CountedRead<L>, W: CountedWrite<L>, E: Write>(
    files: &P,
    alloc: Global,
    limits: Limits,
    manner: Manner,
    durable: bool,
    path: &str,
    reader: &mut R,
    out: &mut W,
    err: &mut E,
    calls: &mut StreamCalls<L>,
) -> u8
    ensures { RunsOver P.Device.DiskState (P.at files.now path.now) durable manner limits
        (R.left reader.old) (R.left reader.new)
        (W.held out.old) (W.held out.new) calls.old calls.new result }
{
    match open_settled(files, alloc, path) {
        Ok(disk) => {
            let end = run_settled(
                alloc, disk, limits, manner, durable, reader, out, err, calls,
            );
            end_at(files, alloc, path, end, err)
        }
        Err(fault) => unfound(files, alloc, path, fault, err),
    }
}

/// Fills the page file at a path with sorted records, as `fill_blank` does, and answers the status; where its device fails,
/// `err` gets a line that says why. None where the file has records or can't be opened: it is as it was.
pub fn fill_at_path<P: PageFiles, E: Write>(
    files: &P,
    alloc: Global,
    limits: Limits,
    path: &str,
    records: &[(Key, Record)],
    err: &mut E,
) -> Option<u8>
    requires { CanFill limits records.now }
    ensures filled { IfSome result (λ status. (status ≡ 1)
        ⊎ FillsAt P.Device.DiskState (P.at files.now path.now) limits records.now status) }
    ensures looked { result ≡ None → LooksAt P.Device.DiskState (P.at files.now path.now) }
{
    let disk = match open_settled(files, alloc, path) {
        Ok(disk) => disk,
        Err(fault) => return Some(unfound(files, alloc, path, fault, err)),
    };
    match fill_blank(alloc, disk, limits, records, err) {
        Ok(end) => Some(end_at(files, alloc, path, end, err)),
        Err(_left) => None,
    }
}
