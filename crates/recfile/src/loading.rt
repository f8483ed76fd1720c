ghost use Rattle.std.specs.Prelude.{◌≡◌, ◌⊎◌, ◌↔◌, ℕ, List, Option, Some, None, false, IfSome, IsTrue};
ghost use Rattle.command_text.specs.Dump.{dump_text};
ghost use Rattle.recfile.specs.Filling.{CanFill, FillsAt, LooksAt};
ghost use Rattle.recfile.specs.Tasks.{LoadsAt, RunsOver, loading};

use crate::manner::{Feed, Manner};
use crate::page_files::PageFiles;
use crate::path_session::{fill_at_path, run_at_path};
use crate::replies::{LastReply, Replies};
use crate::screen::Screen;
use crate::statuses::exit_status;
use crate::streams::StreamCalls;
use crate::tell::tell;
use btree_load::is_sorted;
use command_text::write_dump;
use memchr::memchr;
use rec_types::{Key, Limits, Memory, Record};
use record_texts::{Loaded, Separator, TextFault, read_records};
use std::alloc::Global;
use std::io;
use std::io::{Read, Write};
use std::sync::ledger::Ledger;
use thiserror::Error;

// The manner of the session that loads records.
const LOADING: Manner = Manner {
    strict: true,
    feed: Feed::Lines,
};

/// Why the records that are to be loaded aren't read.
#[derive(Clone, Copy, Debug, PartialEq, Eq, Error)]
enum LoadFault {
    #[error("ReadFault")]
    Read,
    #[error("{0}")]
    Text(TextFault),
}

impl From<io::Error> for LoadFault {
    fn from(error: io::Error) -> LoadFault {
        match error.kind() {
            io::ErrorKind::OutOfMemory => LoadFault::Text(TextFault::Memory),
            _ => LoadFault::Read,
        }
    }
}

impl From<TextFault> for LoadFault {
    fn from(fault: TextFault) -> LoadFault {
        LoadFault::Text(fault)
    }
}

impl From<Memory> for LoadFault {
    fn from(_: Memory) -> LoadFault {
        LoadFault::Text(TextFault::Memory)
    }
}

// The records of all that a reader has.
fn read_all<R: Read>(
    alloc: Global,
    separator: Separator,
    reader: &mut R,
) -> Result<Loaded, LoadFault> {
    let mut text = Vec::new(alloc);
    reader.read_to_end(&mut text)?;
    Ok(read_records(alloc, separator, &text)?)
}

// The number of the line whose record had the last reply. The first reply is that of the begin.
fn line_of(lines: &[u64], replies: &LastReply) -> Option<u64> {
    lines.get(replies.count().checked_sub(2)?).copied()
}

// Tells what a session told, with the line of the text in the place of that of the script where a record was refused.
fn tell_load<E: Write>(lines: &[u64], replies: &LastReply, told: &[u8], err: &mut E) {
    let mut rest = told;
    if let (Some(name), Some(line)) = (replies.refused(), line_of(lines, replies)) {
        let _ = writeln!(err, "recfile: {name} in line {line}");
        rest = match memchr(b'\n', told) {
            Some(end) => &told[end + 1..],
            None => &told[told.len()..],
        };
    }
    let _ = err.write_all(rest);
}

// Runs the session that puts records into the file at a path. Status 3 where there is no memory for its script.
fn run_load<L: Ledger, P: PageFiles, E: Screen>(
    files: &P,
    alloc: Global,
    limits: Limits,
    path: &str,
    loaded: &Loaded,
    err: &mut E,
    calls: &mut StreamCalls<L>,
) -> u8
    ensures { (result ≡ 3) ⊎ ((leaves : Option (List ℕ))
        × RunsOver P.Device.DiskState (P.at files.now path.now) false loading limits
        (Some (dump_text loaded.now.records.items)) leaves None None calls.old calls.new result) }
{
    match write_dump(alloc, &loaded.records) {
        Ok(script) => load_script(
            files,
            alloc,
            limits,
            path,
            &script,
            &loaded.lines,
            err,
            calls,
        ),
        Err(memory) => unread(&LoadFault::from(memory), err),
    }
}

// Runs the script that puts records, which come from these lines, into the file at a path.
fn load_script<L: Ledger, P: PageFiles, E: Screen>(
    files: &P,
    alloc: Global,
    limits: Limits,
    path: &str,
    script: &[u8],
    lines: &[u64],
    err: &mut E,
    calls: &mut StreamCalls<L>,
) -> u8
    ensures { (leaves : Option (List ℕ))
        × RunsOver P.Device.DiskState (P.at files.now path.now) false loading limits
        (Some script.now) leaves None None calls.old calls.new result }
{
    let mut rest = script;
    // One reply for each record, with those of the begin and the commit.
    let mut replies = Replies::new(err, lines.len().saturating_add(2));
    let mut told = Vec::new(alloc);
    let status = run_at_path(
        files,
        alloc,
        limits,
        LOADING,
        false,
        path,
        &mut rest,
        &mut replies,
        &mut told,
        calls,
    );
    let last = replies.end();
    tell_load(lines, &last, &told, err);
    status
}

// Whether a file that has no records can be filled with these.
fn can_fill(limits: Limits, records: &[(Key, Record)]) -> bool
    ensures { IsTrue result ↔ CanFill limits records.now }
{
    records.len() <= limits.records() as usize && is_sorted(records)
}

// Fills the file at a path with records, and answers the status; None where that can't be, and the file is as it was.
fn fill_or_leave<P: PageFiles, E: Write>(
    files: &P,
    alloc: Global,
    limits: Limits,
    path: &str,
    records: &[(Key, Record)],
    err: &mut E,
) -> Option<u8>
    ensures filled { IfSome result (λ status. (status ≡ 1)
        ⊎ FillsAt P.Device.DiskState (P.at files.now path.now) limits records.now status) }
    ensures looked { result ≡ None → CanFill limits records.now
        → LooksAt P.Device.DiskState (P.at files.now path.now) }
{
    if !can_fill(limits, records) {
        return None;
    }
    fill_at_path(files, alloc, limits, path, records, err)
}

// Puts records into the file at a path.
fn load_records<L: Ledger, P: PageFiles, E: Screen>(
    files: &P,
    alloc: Global,
    limits: Limits,
    path: &str,
    loaded: &Loaded,
    err: &mut E,
    calls: &mut StreamCalls<L>,
) -> u8
    ensures { (result ≡ 3)
        ⊎ LoadsAt P.Device.DiskState (P.at files.now path.now) limits calls.old calls.new
        result }
{
    match fill_or_leave(files, alloc, limits, path, &loaded.records, err) {
        Some(status) => status,
        None => run_load(files, alloc, limits, path, loaded, err, calls),
    }
}

// The status where no records are read. The fault has its line.
fn unread<E: Write>(fault: &LoadFault, err: &mut E) -> u8
    ensures { result ≡ 3 }
{
    tell(err, fault);
    exit_status(false, false, true)
}

/// Puts the records of all that a reader has into the file at a path, all or none, and answers the status. Where their
/// keys ascend and the file has no records its pages are written one after another; else they are put in one transaction,
/// and a bar on `err` tells a person how far that is. Faults, each with a line on `err`: those of the text, by which no file
/// is opened; the first record that is refused, by the number of its line; those of the file.
pub fn load<L: Ledger, P: PageFiles, R: Read, E: Screen>(
    files: &P,
    alloc: Global,
    separator: Separator,
    limits: Limits,
    path: &str,
    reader: &mut R,
    err: &mut E,
    calls: &mut StreamCalls<L>,
) -> u8
    ensures { (result ≡ 3)
        ⊎ LoadsAt P.Device.DiskState (P.at files.now path.now) limits calls.old calls.new
        result }
{
    match read_all(alloc, separator, reader) {
        Ok(loaded) => load_records(files, alloc, limits, path, &loaded, err, calls),
        Err(fault) => unread(&fault, err),
    }
}
