ghost use Rattle.std.specs.Prelude.{◌≡◌, [], List, Result, Ok, Err, if◌then◌else◌};
ghost use Rattle.std.specs.String.{string_bytes};
ghost use Rattle.command_text.specs.declared.command.Command.TheVariants as commands;
ghost use Rattle.command_text.specs.declared.reply.Reply.{Reply};
ghost use Rattle.command_text.specs.declared.reply.Reply.TheVariants as replies;
ghost use Rattle.recfile.specs.ListEnd.{EndsList};
ghost use Rattle.recfile.specs.Run.{CommandRan, CommandTold, HasReply, LineTold, SameOrigin, ToldReply, commit_reply, says_command};
ghost use Rattle.rec_types.specs.declared.transaction.Entry.{Entry as EntryValue};
ghost use Rattle.record_file.specs.AtMost.{limited_to};
ghost use Rattle.record_file.specs.Runs.{Made, EntriesBeside, seen_as};
ghost use Rattle.record_file.specs.declared.fault.EntriesFault.{EntriesFault as EntriesFaultValue};

use crate::commit_keeper::CommitKeeper;
use crate::list_text::ListText;
use command_text::{Command, KeyList, LineFault, Reply, Unkept, append_reply, push_list_end};
use rec_types::{Gap, Key, Memory, Record, Side, Table, TxId};
use record_file::{AtMost, EntriesFault, KeepFault, KeeperFault, RecordFile, SinkStop};
use std::mem::replace;

// Puts the text of a reply in the place of what a text has, and answers whether it is a refusal. Fault: Memory.
#[inline(never)]
fn tell(text: &mut String, reply: &Reply) -> Result<bool, Memory>
    ensures { ToldReply reply.now result (string_bytes text.new) }
{
    text.clear();
    append_reply(text, reply)?;
    Ok(reply.is_refusal())
}

// Each command is a function of its own, so that a line pays for the reply to one alone.

fn begin<T: Table>(text: &mut String, file: &mut RecordFile<T>) -> Result<bool, Memory>
    ensures { CommandTold T.TableState (SameOrigin T.TableState) file.old (Ok commands.Begin) result
        (string_bytes text.new) file.new }
{
    tell(text, &Reply::Begin(file.begin()))
}

fn put<T: Table>(
    text: &mut String,
    file: &mut RecordFile<T>,
    tx: TxId,
    key: Key,
    value: Record,
) -> Result<bool, Memory>
    ensures { CommandTold T.TableState (SameOrigin T.TableState) file.old (Ok (commands.Put tx key value)) result
        (string_bytes text.new) file.new }
{
    tell(text, &Reply::Put(file.put(tx, key, value)))
}

fn claim<T: Table>(
    text: &mut String,
    file: &mut RecordFile<T>,
    tx: TxId,
    key: Key,
) -> Result<bool, Memory>
    ensures { CommandTold T.TableState (SameOrigin T.TableState) file.old (Ok (commands.Claim tx key)) result
        (string_bytes text.new) file.new }
{
    tell(text, &Reply::Claim(file.claim(tx, key)))
}

fn remove<T: Table>(
    text: &mut String,
    file: &mut RecordFile<T>,
    tx: TxId,
    key: Key,
) -> Result<bool, Memory>
    ensures { CommandTold T.TableState (SameOrigin T.TableState) file.old (Ok (commands.Del tx key)) result
        (string_bytes text.new) file.new }
{
    tell(text, &Reply::Del(file.remove(tx, key)))
}

fn get<T: Table>(
    text: &mut String,
    file: &mut RecordFile<T>,
    tx: TxId,
    key: &Key,
) -> Result<bool, Memory>
    ensures { CommandTold T.TableState (SameOrigin T.TableState) file.old (Ok (commands.Get tx key.now)) result
        (string_bytes text.new) file.new }
{
    tell(text, &Reply::Get(file.get(tx, key)))
}

fn savepoint<T: Table>(
    text: &mut String,
    file: &mut RecordFile<T>,
    tx: TxId,
) -> Result<bool, Memory>
    ensures { CommandTold T.TableState (SameOrigin T.TableState) file.old (Ok (commands.Save tx)) result
        (string_bytes text.new) file.new }
{
    tell(text, &Reply::Save(file.savepoint(tx)))
}

fn release<T: Table>(
    text: &mut String,
    file: &mut RecordFile<T>,
    tx: TxId,
    n: u32,
) -> Result<bool, Memory>
    ensures { CommandTold T.TableState (SameOrigin T.TableState) file.old (Ok (commands.Release tx n)) result
        (string_bytes text.new) file.new }
{
    tell(text, &Reply::Release(file.release(tx, n)))
}

fn rollback_to<T: Table>(
    text: &mut String,
    file: &mut RecordFile<T>,
    tx: TxId,
    n: u32,
) -> Result<bool, Memory>
    ensures { CommandTold T.TableState (SameOrigin T.TableState) file.old (Ok (commands.Back tx n)) result
        (string_bytes text.new) file.new }
{
    tell(text, &Reply::Back(file.rollback_to(tx, n)))
}

fn resume<T: Table>(text: &mut String, file: &mut RecordFile<T>, tx: TxId) -> Result<bool, Memory>
    ensures { CommandTold T.TableState (SameOrigin T.TableState) file.old (Ok (commands.Resume tx)) result
        (string_bytes text.new) file.new }
{
    tell(text, &Reply::Resume(file.resume(tx)))
}

fn abort<T: Table>(text: &mut String, file: &mut RecordFile<T>, tx: TxId) -> Result<bool, Memory>
    ensures { CommandTold T.TableState (SameOrigin T.TableState) file.old (Ok (commands.Abort tx)) result
        (string_bytes text.new) file.new }
{
    tell(text, &Reply::Abort(file.abort(tx)))
}

// The reply to a commit that a keeper was to keep.
fn reply_of(answer: Result<(), KeepFault>) -> Reply
    ensures { result ≡ commit_reply answer }
{
    match answer {
        Ok(()) => Reply::Commit(Ok(())),
        Err(KeepFault::Refused(fault)) => Reply::Commit(Err(fault)),
        Err(KeepFault::Memory | KeepFault::Unkept(KeeperFault::Memory)) => {
            Reply::Unkept(Unkept::Memory)
        }
        Err(KeepFault::Unkept(KeeperFault::Room)) => Reply::Unkept(Unkept::Device),
        Err(KeepFault::Unkept(KeeperFault::Doubt)) => Reply::Unkept(Unkept::Doubt),
    }
}

fn commit<T: Table, K: CommitKeeper<T>>(
    text: &mut String,
    file: &mut RecordFile<T>,
    keeper: &mut K,
    tx: TxId,
) -> Result<bool, Memory>
    ensures told { CommandRan T.TableState K.keeps K.moves file.old
        (Ok (commands.Commit tx)) result (string_bytes text.new) file.new }
{
    tell(text, &reply_of(file.commit_kept(tx, keeper)))
}

// Takes a text for the lines of a list, in place of what it has.
fn begin_list(text: &mut String) -> ListText
    ensures empty { string_bytes result.text ≡ [] }
    ensures none { result.count ≡ 0 }
{
    let alloc = *text.allocator();
    text.clear();
    ListText {
        text: replace(text, String::new(alloc)),
        count: 0,
    }
}

// Puts the text of a list, and how many lines it has, in the place of what a text has; or why there is no list. Fault: Memory.
fn end_list(
    text: &mut String,
    list: ListText,
    told: Result<Result<(), Memory>, EntriesFault>,
) -> Result<bool, Memory>
    ensures { EndsList list told result (string_bytes text.new) }
{
    let ListText { text: lines, count } = list;
    *text = lines;
    match told {
        Ok(taken) => {
            taken?;
            push_list_end(text, count)?;
            Ok(false)
        }
        Err(fault) => tell(text, &Reply::List(Err(fault))),
    }
}

fn list<T: Table>(text: &mut String, file: &mut RecordFile<T>) -> Result<bool, Memory>
    ensures { CommandTold T.TableState (SameOrigin T.TableState) file.old (Ok commands.List) result
        (string_bytes text.new) file.new }
{
    let mut list = begin_list(text);
    let told = file.tell(&mut list);
    end_list(text, list, told)
}

// So many of the records on a side of a gap, the nearest first.
fn list_beside<T: Table>(
    text: &mut String,
    file: &mut RecordFile<T>,
    side: Side,
    gap: &Gap,
    n: u32,
) -> Result<bool, Memory>
    ensures { (all : Result (List EntryValue) EntriesFaultValue)
        × Made T.TableState file.old (EntriesBeside side gap.now all) file.new
        × ToldReply (replies.List (limited_to n all)) result (string_bytes text.new) }
{
    let mut first = AtMost {
        sink: begin_list(text),
        left: n,
    };
    let told = file.tell_beside(side, gap, &mut first);
    end_list(text, first.sink, SinkStop::unless_enough(told))
}

fn from<T: Table>(
    text: &mut String,
    file: &mut RecordFile<T>,
    key: Key,
    n: u32,
) -> Result<bool, Memory>
    ensures { CommandTold T.TableState (SameOrigin T.TableState) file.old (Ok (commands.From key n)) result
        (string_bytes text.new) file.new }
{
    list_beside(text, file, Side::After, &Gap::Before(key), n)
}

fn upto<T: Table>(
    text: &mut String,
    file: &mut RecordFile<T>,
    key: Key,
    n: u32,
) -> Result<bool, Memory>
    ensures { CommandTold T.TableState (SameOrigin T.TableState) file.old (Ok (commands.Upto key n)) result
        (string_bytes text.new) file.new }
{
    list_beside(text, file, Side::Before, &Gap::Behind(key), n)
}

fn committed<T: Table>(
    text: &mut String,
    file: &mut RecordFile<T>,
    key: &Key,
) -> Result<bool, Memory>
    ensures { CommandTold T.TableState (SameOrigin T.TableState) file.old (Ok (commands.Committed key.now)) result
        (string_bytes text.new) file.new }
{
    tell(text, &Reply::Committed(file.committed(key)))
}

fn keys<T: Table>(text: &mut String, file: &mut RecordFile<T>, tx: TxId) -> Result<bool, Memory>
    ensures { CommandTold T.TableState (SameOrigin T.TableState) file.old (Ok (commands.Keys tx)) result
        (string_bytes text.new) file.new }
{
    tell(text, &Reply::Keys(file.keys_of(tx).map(KeyList::new)))
}

fn log<T: Table>(text: &mut String, file: &mut RecordFile<T>) -> Result<bool, Memory>
    ensures { CommandTold T.TableState (SameOrigin T.TableState) file.old (Ok commands.Log) result
        (string_bytes text.new) file.new }
{
    tell(text, &Reply::Log(file.log_len(), file.log_use()))
}

// Makes the call that a command asks for, and tells its reply. Fault: Memory.
fn call<T: Table, K: CommitKeeper<T>>(
    text: &mut String,
    file: &mut RecordFile<T>,
    keeper: &mut K,
    command: &Command,
) -> Result<bool, Memory>
    ensures ran { CommandRan T.TableState K.keeps K.moves file.old (Ok command.now)
        result (string_bytes text.new) file.new }
{
    match command {
        Command::Begin => return begin(text, file),
        Command::Put(tx, key, value) => return put(text, file, *tx, *key, *value),
        Command::Claim(tx, key) => return claim(text, file, *tx, *key),
        Command::Del(tx, key) => return remove(text, file, *tx, *key),
        Command::Get(tx, key) => return get(text, file, *tx, key),
        Command::Save(tx) => return savepoint(text, file, *tx),
        Command::Release(tx, n) => return release(text, file, *tx, *n),
        Command::Back(tx, n) => return rollback_to(text, file, *tx, *n),
        Command::Resume(tx) => return resume(text, file, *tx),
        Command::Abort(tx) => return abort(text, file, *tx),
        Command::Commit(tx) => return commit(text, file, keeper, *tx),
        Command::List => return list(text, file),
        Command::From(key, n) => return from(text, file, *key, *n),
        Command::Upto(key, n) => return upto(text, file, *key, *n),
        Command::Committed(key) => return committed(text, file, key),
        Command::Keys(tx) => return keys(text, file, *tx),
        Command::Log => return log(text, file),
    }
}

/// How many commands a line says: one, or none.
pub fn command_count(said: &Result<Option<Command>, LineFault>) -> u32
    ensures { result ≡ (if says_command said.now then 1 else 0) }
{
    match said {
        Ok(Some(_)) => 1,
        Ok(None) | Err(_) => 0,
    }
}

// Tells why a line says no command. Fault: Memory.
fn bad(text: &mut String, fault: LineFault) -> Result<bool, Memory>
    ensures { ToldReply (replies.Bad fault) result (string_bytes text.new) }
{
    tell(text, &Reply::Bad(fault))
}

// Runs a command on a file of which what stays true is true.
fn run_command<T: Table, K: CommitKeeper<T>>(
    text: &mut String,
    file: &mut RecordFile<T>,
    keeper: &mut K,
    command: &Command,
) -> Result<bool, Memory>
    ensures told { (reply : Reply) × HasReply (seen_as K.keeps T.TableState file.old)
        (Ok command.now) reply (seen_as K.keeps T.TableState file.new)
        × ToldReply reply result (string_bytes text.new) }
    ensures moves { K.moves file.old.table file.new.table }
{
    let _begun = file.begun();
    let told = call(text, file, keeper, command);
    let _then_begun = file.begun();
    told
}

/// Runs what a line says, and puts the text of the reply in the place of what `text` has; a commit is kept by a keeper first.
/// Answers whether the reply is a refusal; a line that says nothing has none. Fault: Memory, by which the command was run.
pub fn reply_to<T: Table, K: CommitKeeper<T>>(
    text: &mut String,
    file: &mut RecordFile<T>,
    keeper: &mut K,
    said: &Result<Option<Command>, LineFault>,
) -> Result<Option<bool>, Memory>
    ensures told { LineTold (seen_as K.keeps T.TableState file.old) said.now result
        (string_bytes text.new) (seen_as K.keeps T.TableState file.new) }
    ensures moves { K.moves file.old.table file.new.table }
{
    match said {
        Ok(None) => Ok(None),
        Ok(Some(command)) => Ok(Some(run_command(text, file, keeper, command)?)),
        Err(fault) => Ok(Some(bad(text, *fault)?)),
    }
}
