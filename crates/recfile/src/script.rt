ghost use Rattle.std.specs.Prelude.{◌≡◌, ◌+◌, ◌<◌, ◌≤◌, ◌||◌, false, List, length, take, IfOk, IfErr, OnOk};
ghost use Rattle.std.specs.Result.{is_err};
ghost use Rattle.recfile.specs.Streams.{IsBlankFor, TellsFailed, read_fault, write_fault, run_read_fault, run_write_fault};
ghost use Rattle.std.specs.List.{flat_map};
ghost use Rattle.std.specs.Io.KnownBytes.{Appends};
ghost use Rattle.recfile.specs.Whole.{IsWhole, longest_script};
ghost use Rattle.command_text.specs.Script.{commands_of};
ghost use Rattle.command_text.specs.Texts.{text_of};
ghost use Rattle.recfile.specs.Run.{Session, Finished, Faulted, ReadStops, LineSent, AcceptedIf, LinesStop, NotRefused, Ran, run_of, commands};
ghost use Rattle.record_file.specs.Runs.{seen_as};
ghost use Rattle.command_text.specs.declared.reply.Reply.{Reply};

use crate::call::{command_count, reply_to};
use crate::commit_keeper::CommitKeeper;
use crate::streams::{CountedRead, CountedWrite, StreamCalls};
use command_text::{Command, LineFault, read_line};
use file_session::next_line;
use rec_types::Table;
use record_file::RecordFile;
use std::alloc::Global;
use std::io::Write;
use std::marker::Brand;
use std::sync::ledger::{Blank, Ledger};
use thiserror::Error;

/// Why a script wasn't run to its end. `done` commands were run, the last one included whose reply could not
/// be made or written.
#[derive(Clone, Copy, Debug, PartialEq, Eq, Error)]
pub enum ScriptFault {
    #[error("ScriptTooLong")]
    ScriptTooLong,
    #[error("ReadFault")]
    ReadFault,
    #[error("WriteFault {done}")]
    WriteFault { done: u32 },
    #[error("Memory {done}")]
    Memory { done: u32 },
}

/// Why lines that refusals may end weren't run to their end: a fault; or the reply to the line of this number is a
/// refusal, where lines are counted from 1, with those that say nothing; or one asks for a flush.
#[derive(Clone, Copy, Debug, PartialEq, Eq, Error)]
pub enum RunFault {
    #[error("{0}")]
    Script(ScriptFault),
    #[error("Refused {line}")]
    Refused { line: u32 },
    #[error("Flush")]
    Flush,
}

impl From<ScriptFault> for RunFault {
    ghost use Rattle.std.specs.Prelude.{◌≡◌};
    ghost use Rattle.recfile.specs.declared.script.RunFault.TheVariants.{Script};

    ghost from_gives = { λ fault named. named ≡ Script fault };

    fn from(fault: ScriptFault) -> RunFault {
        RunFault::Script(fault)
    }
}

// The greatest length of a script.
const SCRIPT_LIMIT: usize = 1_048_576;

// How many bytes of it are read at a time.
const CHUNK: usize = 4096;

// All that the reader has, in at most 1,048,578 reads. Faults: ScriptTooLong, ReadFault, Memory { done: 0 },
// each where it is met.
fn read_script<L: Ledger, R: CountedRead<L>>(
    alloc: Global,
    reader: &mut R,
    calls: &mut StreamCalls<L>,
) -> Result<Vec<u8>, ScriptFault>
    ensures whole { IfOk result (λ script. IsWhole (R.left reader.old)
        (R.left reader.new) script.items) }
    ensures stops { IfErr result (ReadStops (R.left reader.old) (R.left reader.new)) }
    ensures reads { calls.new.reads ≤ calls.old.reads + (longest_script + 2) }
    ensures failed { TellsFailed calls.old (read_fault result) false calls.new }
    ensures faults { write_fault result ≡ false }
{
    let mut script = Vec::new(alloc);
    let mut chunk = [0; CHUNK];
    for turn in 0..SCRIPT_LIMIT + 2 {
        let room = (SCRIPT_LIMIT + 1 - script.len()).min(CHUNK);
        if room == 0 {
            return Err(ScriptFault::ScriptTooLong);
        }
        match reader.read_on(calls, &mut chunk[..room]) {
            Err(_) => return Err(ScriptFault::ReadFault),
            Ok(0) => return Ok(script),
            Ok(n) => {
                script
                    .extend_from_slice(&chunk[..n])
                    .map_err(|_| ScriptFault::Memory { done: 0 })?;
            }
        }
    }
    Err(ScriptFault::ScriptTooLong)
}

/// Runs the whole script that a reader has, and answers how many commands it had. Each reply is written
/// before the next command is run. It makes at most 1,048,578 reads. Faults: ScriptTooLong, where no command is run;
/// ReadFault, exactly where a read failed; WriteFault, exactly where a write failed or took nothing; Memory.
pub fn run_script<L: Ledger, T: Table, K: CommitKeeper<T>, R: CountedRead<L>, W: CountedWrite<L>>(
    alloc: Global,
    reader: &mut R,
    writer: &mut W,
    file: &mut RecordFile<T>,
    keeper: &mut K,
    calls: &mut StreamCalls<L>,
) -> Result<u32, ScriptFault>
    ensures finished { IfOk result (Finished (R.left reader.old) (R.left reader.new)
        (W.held writer.old) (W.held writer.new)
        (seen_as K.keeps T.TableState file.old) (seen_as K.keeps T.TableState file.new)) }
    ensures faulted { IfErr result (Faulted (R.left reader.old) (R.left reader.new)
        (W.held writer.old) (W.held writer.new)
        (seen_as K.keeps T.TableState file.old) (seen_as K.keeps T.TableState file.new)) }
    ensures moves { K.moves file.old.table file.new.table }
    ensures reads { calls.new.reads ≤ calls.old.reads + (longest_script + 2) }
    ensures failed { TellsFailed calls.old (read_fault result) (write_fault result) calls.new }
{
    unrefused(run_script_as(alloc, false, reader, writer, file, keeper, calls))
}

/// Runs the whole script that a reader has, as `run_script` does; where it is `strict`, the first reply that is a
/// refusal ends it, once it is written. Faults: those of `run_script`; Refused.
pub fn run_script_as<
    L: Ledger,
    T: Table,
    K: CommitKeeper<T>,
    R: CountedRead<L>,
    W: CountedWrite<L>,
>(
    alloc: Global,
    strict: bool,
    reader: &mut R,
    writer: &mut W,
    file: &mut RecordFile<T>,
    keeper: &mut K,
    calls: &mut StreamCalls<L>,
) -> Result<u32, RunFault>
    ensures ran { Ran strict (R.left reader.old) (R.left reader.new)
        (W.held writer.old) (W.held writer.new)
        (seen_as K.keeps T.TableState file.old) (seen_as K.keeps T.TableState file.new) result }
    ensures moves { K.moves file.old.table file.new.table }
    ensures reads { calls.new.reads ≤ calls.old.reads + (longest_script + 2) }
    ensures failed { TellsFailed calls.old (run_read_fault result) (run_write_fault result)
        calls.new }
{
    let script = read_script(alloc, reader, calls)?;
    run_lines(alloc, &script, strict, writer, file, keeper, calls)
}

// The answer where no refusal ends a script.
fn unrefused(ran: Result<u32, RunFault>) -> Result<u32, ScriptFault>
    requires { NotRefused ran }
    ensures { ran ≡ run_of result }
{
    match ran {
        Ok(done) => Ok(done),
        Err(RunFault::Script(fault)) => Err(fault),
        Err(RunFault::Refused { .. } | RunFault::Flush) => unreachable!(),
    }
}

// Runs the lines of a script, one after another; where it is strict, up to the first reply that is a refusal.
fn run_lines<L: Ledger, T: Table, K: CommitKeeper<T>, W: CountedWrite<L>>(
    alloc: Global,
    script: &[u8],
    strict: bool,
    writer: &mut W,
    file: &mut RecordFile<T>,
    keeper: &mut K,
    calls: &mut StreamCalls<L>,
) -> Result<u32, RunFault>
    requires { length script.now ≤ longest_script }
    ensures finished { IfOk result (λ done. (replies : List Reply)
        × Session (seen_as K.keeps T.TableState file.old) (commands_of script.now) replies
        (seen_as K.keeps T.TableState file.new)
        × Appends (W.held writer.old) (W.held writer.new) (flat_map text_of replies)
        × (done ≡ commands (commands_of script.now)) × AcceptedIf strict replies) }
    ensures stops { IfErr result (LinesStop strict (W.held writer.old) (W.held writer.new)
        (seen_as K.keeps T.TableState file.old) (seen_as K.keeps T.TableState file.new) script.now) }
    ensures moves { K.moves file.old.table file.new.table }
    ensures failed { calls.new ≡ record calls.old {
      write_failed = run_write_fault result || calls.old.write_failed;
    } }
    ensures faults { run_read_fault result ≡ false }
{
    let mut text = String::new(alloc);
    let mut rest = script;
    let mut done = 0;
    let mut lines = 0;
    while !rest.is_empty() {
        let (line, after) = next_line(rest);
        rest = after;
        lines += 1;
        let said = read_line(line);
        done += command_count(&said);
        let Some(refused) = answer(&mut text, writer, file, keeper, &said, done, calls)? else {
            continue;
        };
        if strict && refused {
            return Err(RunFault::Refused { line: lines });
        }
    }
    Ok(done)
}

/// Runs what a line says, which is the `done`th command where it says one, and writes its reply; `text` is for that,
/// whatever it has. Answers whether the reply is a refusal; a line that says nothing has none. Faults: Memory, WriteFault.
pub fn answer<L: Ledger, T: Table, K: CommitKeeper<T>, W: CountedWrite<L>>(
    text: &mut String,
    writer: &mut W,
    file: &mut RecordFile<T>,
    keeper: &mut K,
    said: &Result<Option<Command>, LineFault>,
    done: u32,
    calls: &mut StreamCalls<L>,
) -> Result<Option<bool>, ScriptFault>
    ensures sent { LineSent (W.held writer.old) (W.held writer.new)
        (seen_as K.keeps T.TableState file.old) said.now (seen_as K.keeps T.TableState file.new) done result }
    ensures moves { K.moves file.old.table file.new.table }
    ensures failed { calls.new ≡ record calls.old {
      write_failed = write_fault result || calls.old.write_failed;
    } }
    ensures faults { read_fault result ≡ false }
{
    let told = reply_to(text, file, keeper, said).map_err(|_| ScriptFault::Memory { done })?;
    let Some(refused) = told else {
        return Ok(None);
    };
    send_text(writer, text.as_bytes(), calls).map_err(|_| ScriptFault::WriteFault { done })?;
    Ok(Some(refused))
}

/// Writes a text whole. At a write that fails, or takes nothing, it answers how many bytes are written.
pub fn write_text<W: Write>(writer: &mut W, text: &[u8]) -> Result<(), usize>
    ensures ok { OnOk result (Appends (W.contents writer.old) (W.contents writer.new) text.now) }
    ensures err { IfErr result (λ sent. (sent < length text.now)
        × Appends (W.contents writer.old) (W.contents writer.new) (take sent text.now)) }
{
    write_alone::<Brand, W>(writer, text, Blank::new(1))
}

// The same, on a count of its own.
fn write_alone<L: Ledger, W: Write>(writer: &mut W, text: &[u8], blank: Blank) -> Result<(), usize>
    requires { IsBlankFor blank.name blank.parts L.name L.parts }
    ensures ok { OnOk result (Appends (W.contents writer.old) (W.contents writer.new) text.now) }
    ensures err { IfErr result (λ sent. (sent < length text.now)
        × Appends (W.contents writer.old) (W.contents writer.new) (take sent text.now)) }
{
    let mut calls = StreamCalls::<L>::new(blank);
    send_text(writer, text, &mut calls)
}

// Writes a text whole, and notes whether a write failed. At one that fails, or takes nothing, it answers how many bytes
// are written.
pub(crate) fn send_text<L: Ledger, W: CountedWrite<L>>(
    writer: &mut W,
    text: &[u8],
    calls: &mut StreamCalls<L>,
) -> Result<(), usize>
    ensures ok { OnOk result (Appends (W.held writer.old) (W.held writer.new) text.now) }
    ensures err { IfErr result (λ sent. (sent < length text.now)
        × Appends (W.held writer.old) (W.held writer.new) (take sent text.now)) }
    ensures failed { calls.new ≡ record calls.old {
      write_failed = is_err result || calls.old.write_failed;
    } }
{
    let mut sent = 0;
    while sent < text.len() {
        match writer.write_on(calls, &text[sent..]) {
            Err(_) => return Err(sent),
            Ok(n) => sent += n,
        }
    }
    Ok(())
}
