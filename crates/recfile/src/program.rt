ghost use Rattle.std.specs.Prelude.{◌≡◌, ◌⊎◌, if◌then◌else◌};
ghost use Rattle.std.specs.Result.{is_err};
ghost use Rattle.rec_types.specs.LimitBounds.{most_records};
ghost use Rattle.recfile.specs.FilesAt.{Copies, Creates, TellsOfFile, TellsRecords, TellsTree};
ghost use Rattle.recfile.specs.Tasks.{DoesTask, DoesAny, IsDump, IsTreeLine, Rescues, Writes, WritesListed, text_status, told_status};

use crate::copying::{CopyingFault, copy_into, open_whole};
use crate::dump::{DumpFault, dump_in, rescue_in};
use crate::loading::load;
use crate::page_file::{check_in, create_in};
use crate::page_files::PageFiles;
use crate::path_session::run_at_path;
use crate::screen::Screen;
use crate::session::run_memory;
use crate::statuses::exit_status;
use crate::streams::StreamCalls;
use crate::tell::{tell, tell_device};
use crate::words::{Task, UsageFault, read_words};
use file_session::{FileFault, greatest_limits};
use page_looks::Wanted;
use record_texts::Form;
use std::alloc::Global;
use std::io::{Read, Write};
use std::sync::ledger::Ledger;

/// The status where the words ask for nothing, or can't be read.
pub(crate) const USAGE: u8 = 2;

// Makes a page file at a path where there is none.
fn create<P: PageFiles>(files: &P, alloc: Global, order: u16, path: &str) -> Result<(), FileFault>
    ensures { Creates P.Pages.StoreState order result }
{
    let store = files.create(alloc, path)?;
    let (store, made) = create_in(alloc, store, order, greatest_limits());
    files.settle(alloc, path, &store, made)
}

// Tells of the tree of the page file at a path.
fn check<P: PageFiles, W: Write>(
    files: &P,
    alloc: Global,
    path: &str,
    out: &mut W,
) -> Result<(), DumpFault>
    ensures line { Writes IsTreeLine (W.contents out.old) (W.contents out.new) result }
    ensures told { TellsOfFile P.Pages.StoreState (P.at files.now path.now) most_records
        (TellsTree (W.contents out.old) (W.contents out.new))
        (W.contents out.old) (W.contents out.new) result }
{
    let store = files.open_clean(alloc, path)?;
    let (_store, told) = check_in(alloc, store, greatest_limits(), out);
    told
}

// Makes a copy of the page file at a path at another one.
fn copy<P: PageFiles>(files: &P, alloc: Global, path: &str, to: &str) -> Result<(), CopyingFault>
    ensures { Copies P.Pages.StoreState (P.at files.now path.now) most_records result }
{
    let store = files.open_clean(alloc, path)?;
    let mut store = open_whole(alloc, store, greatest_limits())?;
    copy_into(files, alloc, &mut store, to)
}

// Writes the records of the page file at a path in a form, or as a script.
fn dump<P: PageFiles, W: Write>(
    files: &P,
    alloc: Global,
    form: Option<Form>,
    path: &str,
    out: &mut W,
) -> Result<(), DumpFault>
    ensures text { WritesListed (IsDump form) (W.contents out.old) (W.contents out.new) result }
    ensures told { TellsOfFile P.Pages.StoreState (P.at files.now path.now) most_records
        (TellsRecords form (W.contents out.old) (W.contents out.new))
        (W.contents out.old) (W.contents out.new) result }
{
    let store = files.open_clean(alloc, path)?;
    let (_store, dumped) = dump_in(alloc, store, greatest_limits(), form, out);
    dumped
}

// Writes the records of the whole pages of the file at a path as a script; what is left out is told on `err`.
fn rescue<P: PageFiles, W: Write, E: Write>(
    files: &P,
    alloc: Global,
    path: &str,
    out: &mut W,
    err: &mut E,
) -> Result<(), DumpFault>
    ensures script { Writes (IsDump None) (W.contents out.old) (W.contents out.new) result }
    ensures saved { Rescues P.Pages.StoreState (P.at files.now path.now)
        (W.contents out.old) (W.contents out.new) result }
{
    let (mut store, reach) = files.open_damaged(alloc, path, err)?;
    rescue_in(alloc, &mut store, reach.header, &reach.seen, out)
}

// The status where a text about the file at a path was asked for; its fault is named.
fn text_status<P: PageFiles, E: Write>(
    files: &P,
    alloc: Global,
    path: &str,
    err: &mut E,
    done: Result<(), DumpFault>,
) -> u8
    ensures { result ≡ text_status done }
{
    let Err(fault) = done else {
        return exit_status(false, false, false);
    };
    tell(err, &fault);
    match fault {
        DumpFault::File(fault) => {
            tell_device(files, alloc, Wanted::Read, path, Some(fault), err);
            exit_status(false, true, false)
        }
        DumpFault::Write => exit_status(false, false, true),
    }
}

// The status where it was asked whether a file is whole; a fault of the text is named.
fn told_status<E: Write>(err: &mut E, told: Result<bool, DumpFault>) -> u8
    ensures { result ≡ told_status told }
{
    match told {
        Ok(whole) => exit_status(false, !whole, false),
        Err(fault) => {
            tell(err, &fault);
            exit_status(false, fault != DumpFault::Write, fault == DumpFault::Write)
        }
    }
}

// The status where a file was to be made; its fault is named.
fn made_status<P: PageFiles, E: Write>(
    files: &P,
    alloc: Global,
    path: &str,
    err: &mut E,
    done: Result<(), FileFault>,
) -> u8
    ensures { result ≡ (if is_err done then 1 else 0) }
{
    match done {
        Ok(()) => exit_status(false, false, false),
        Err(fault) => {
            tell(err, &fault);
            tell_device(files, alloc, Wanted::Made, path, Some(fault), err);
            exit_status(false, true, false)
        }
    }
}

// The status where a copy was to be made; its fault is named, of the file or of the copy.
fn copied_status<P: PageFiles, E: Write>(
    files: &P,
    alloc: Global,
    path: &str,
    to: &str,
    err: &mut E,
    done: Result<(), CopyingFault>,
) -> u8
    ensures { result ≡ (if is_err done then 1 else 0) }
{
    match done {
        Ok(()) => exit_status(false, false, false),
        Err(CopyingFault::OfFile(fault)) => {
            tell(err, &fault);
            tell_device(files, alloc, Wanted::Read, path, Some(fault), err);
            exit_status(false, true, false)
        }
        Err(CopyingFault::OfCopy(fault)) => made_status(files, alloc, to, err, Err(fault)),
    }
}

// Shows why the words ask for nothing: a fault on `err`, and help that was asked for on `out`.
fn show<W: Write, E: Write>(fault: UsageFault, out: &mut W, err: &mut E) -> u8
    ensures { (result ≡ 0) ⊎ (result ≡ 2) }
{
    match fault {
        UsageFault::Words(error) if !error.use_stderr() => {
            let _ = write!(out, "{error}");
            0
        }
        UsageFault::Words(error) => {
            let _ = write!(err, "{error}");
            USAGE
        }
        UsageFault::Limits(fault) => {
            tell(err, &fault);
            USAGE
        }
    }
}

// Does a task, and answers the status.
fn run_task<L: Ledger, P: PageFiles, R: Read, W: Write, E: Screen>(
    files: &P,
    alloc: Global,
    task: Task<'_>,
    reader: &mut R,
    out: &mut W,
    err: &mut E,
    calls: &mut StreamCalls<L>,
) -> u8
    ensures { DoesTask P.Device.DiskState P.Pages.StoreState (P.at files.now) task.entry
        (R.remaining reader.old) (R.remaining reader.new)
        (W.contents out.old) (W.contents out.new) calls.old calls.new result }
{
    match task {
        Task::Create { order, path } => {
            let made = create(files, alloc, order, path);
            made_status(files, alloc, path, err, made)
        }
        Task::Check { path } => {
            let told = check(files, alloc, path, out);
            text_status(files, alloc, path, err, told)
        }
        Task::Copy { path, to } => {
            let copied = copy(files, alloc, path, to);
            copied_status(files, alloc, path, to, err, copied)
        }
        Task::Dump { form, path } => {
            let dumped = dump(files, alloc, form, path, out);
            text_status(files, alloc, path, err, dumped)
        }
        Task::Rescue { path } => {
            let saved = rescue(files, alloc, path, out, err);
            text_status(files, alloc, path, err, saved)
        }
        Task::Load {
            separator,
            limits,
            path,
        } => load(files, alloc, separator, limits, path, reader, err, calls),
        Task::Tell { telling, path } => {
            let told = files.tell(alloc, telling, path, out, err);
            told_status(err, told)
        }
        Task::Memory { limits, manner } => run_memory(
            alloc, limits, manner, reader, out, err, calls,
        ),
        Task::Run {
            limits,
            manner,
            durable,
            path,
        } => run_at_path(
            files, alloc, limits, manner, durable, path, reader, out, err, calls,
        ),
    }
}

/// Does what the words ask for, of which the first is the program's name, and answers the status: that of
/// `exit_status`, or 2 where the words can't be read. Faults have their lines on `err`. A session has its lines and its
/// replies by calls that are counted, and so has the script of a load; no other task has.
///
/// - `create [--order K] FILE` makes a page file; one that is there is left alone.
/// - `run [--records N] [--log N] [--begins N] [--strict] [--durable] FILE` runs the script that the reader has over a page
///   file, which no other program may open meanwhile, and closes it so that no stop loses it; where it is durable, each commit
///   is kept before it is answered.
/// - `shell [--records N] [--log N] [--begins N] [--strict] [[--durable] FILE]` runs the lines that the reader has over a
///   page file, as durably, or in memory, and answers each before it reads on.
/// - `check FILE` checks a page file, tells of its tree in one line, and writes nothing to it.
/// - `copy FILE TO` checks a page file, and makes a copy of it; it only reads the file, and one that is at TO is left alone.
/// - `dump [--tsv|--csv|--json] FILE` writes the records of a page file in a form, or as a script that puts them, and writes
///   nothing to it.
/// - `load [--csv] [--records N] FILE` puts the records that the reader has into a page file, all or none.
/// - `explain FILE` tells what a file is, and what is wrong with it; it only reads the file. Its status is that of `check`.
/// - `show [--svg] FILE` draws the tree of a file, and what is wrong with it; it only reads the file.
/// - `rescue FILE` writes the records of the whole pages of a file as `dump` does, and tells what it left out; it only
///   reads the file.
/// - `memory [--records N] [--log N] [--begins N] [--strict]` runs the script over an empty file in memory, as no word does.
pub fn run_words<L: Ledger, P: PageFiles, R: Read, W: Write, E: Screen>(
    files: &P,
    alloc: Global,
    words: &[&str],
    reader: &mut R,
    out: &mut W,
    err: &mut E,
    calls: &mut StreamCalls<L>,
) -> u8
    ensures { DoesAny P.Device.DiskState P.Pages.StoreState (P.at files.now)
        (R.remaining reader.old) (R.remaining reader.new)
        (W.contents out.old) (W.contents out.new) calls.old calls.new result }
{
    match read_words(alloc, words) {
        Ok(task) => run_task(files, alloc, task, reader, out, err, calls),
        Err(fault) => show(fault, out, err),
    }
}
