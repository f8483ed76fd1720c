ghost use Rattle.std.specs.Prelude.{◌≡◌, ◌++◌, not, IfOk, OnOk};
ghost use Rattle.std.specs.List.{flat_map, list_any};
ghost use Rattle.std.specs.String.{string_bytes};
ghost use Rattle.command_text.specs.Refusals.{is_refusal};
ghost use Rattle.command_text.specs.Texts.{is_escaped, escaped, line, cause_text, unkept_text, refusal_text, fault_text, number_text, record_text, old_text, owner_text, entry_line, key_line, entries_text, keys_text, reply_text, text_of};

use crate::{EntryList, KeyList, LineFault};
use percent_encoding::{AsciiSet, CONTROLS, ascii_set, ascii_str, percent_encode};
use rec_types::{Entry, Key, Memory, Record, TxId};
use record_file::{
    AbortFault, BeginFault, Cause, ClaimFault, CommitFault, CommittedFault, EntriesFault, GetFault,
    KeysOfFault, PutFault, Refusal, ReleaseFault, RemoveFault, ResumeFault, RollbackToFault,
    SavepointFault, ToRefusal,
};
use std::alloc::{AllocError, Global};

/// Why a commit that was to be kept in a log of commits wasn't. The transaction is active still.
#[derive(Clone, Copy, Debug, PartialEq, Eq)]
pub enum Unkept {
    /// There was no memory for its text.
    Memory,
    /// The log has no room for it: nothing of it is kept, and another try may be.
    Device,
    /// The device failed: it may be found after a stop, and no other commit is kept any more.
    Doubt,
}

/// What a command's call answered, or why a line says no command. `Log` has the length of the log and its use; `Unkept` is a
/// commit that would have been accepted.
#[derive(Debug, Drop)]
pub enum Reply {
    Begin(Result<TxId, BeginFault>),
    Put(Result<Option<Record>, PutFault>),
    Claim(Result<Option<Record>, ClaimFault>),
    Del(Result<Record, RemoveFault>),
    Get(Result<Option<Record>, GetFault>),
    Save(Result<u32, SavepointFault>),
    Release(Result<(), ReleaseFault>),
    Back(Result<u32, RollbackToFault>),
    Resume(Result<u32, ResumeFault>),
    Abort(Result<u32, AbortFault>),
    Commit(Result<(), CommitFault>),
    List(Result<EntryList, EntriesFault>),
    Committed(Result<Option<Record>, CommittedFault>),
    Keys(Result<KeyList, KeysOfFault>),
    Log(u32, u32),
    Unkept(Unkept),
    Bad(LineFault),
}

impl Reply {
    /// Whether the call was refused or stopped, or the line can't be read.
    pub fn is_refusal(&self) -> bool
        ensures { result ≡ is_refusal self.now }
    {
        match self {
            Reply::Begin(answer) => answer.is_err(),
            Reply::Put(answer) => answer.is_err(),
            Reply::Claim(answer) => answer.is_err(),
            Reply::Del(answer) => answer.is_err(),
            Reply::Get(answer) => answer.is_err(),
            Reply::Save(answer) => answer.is_err(),
            Reply::Release(answer) => answer.is_err(),
            Reply::Back(answer) => answer.is_err(),
            Reply::Resume(answer) => answer.is_err(),
            Reply::Abort(answer) => answer.is_err(),
            Reply::Commit(answer) => answer.is_err(),
            Reply::List(answer) => answer.is_err(),
            Reply::Committed(answer) => answer.is_err(),
            Reply::Keys(answer) => answer.is_err(),
            Reply::Log(..) => false,
            Reply::Unkept(_) | Reply::Bad(_) => true,
        }
    }
}

const ESCAPED: AsciiSet = ascii_set!(CONTROLS.add(b' ').add(b'%'));

// A reply of one line has at most 305 bytes: `ok =`, 100 bytes in escapes, and the end.
const LINE_ROOM: usize = 305;

// Whether no byte needs an escape. It looks at all of them, and so at many at a time.
fn needs_no_escape(bytes: &[u8]) -> bool
    ensures { result ≡ not (list_any is_escaped bytes.now) }
{
    let mut plain = true;
    for byte in bytes {
        plain = plain & (*byte > 32) & (*byte < 127) & (*byte != b'%');
    }
    plain
}

/// Appends bytes, escaped.
pub(crate) fn push_escaped(text: &mut String, bytes: &[u8]) -> Result<(), AllocError>
    ensures { OnOk result (string_bytes text.new ≡ string_bytes text.old ++ escaped bytes.now) }
{
    if needs_no_escape(bytes) {
        return text.push_str(ascii_str(bytes));
    }
    percent_encode(bytes, ESCAPED).append_to(text)
}

// Appends why a device or memory failed.
fn push_cause(text: &mut String, cause: Cause) -> Result<(), AllocError>
    ensures { OnOk result (string_bytes text.new ≡ string_bytes text.old ++ cause_text cause) }
{
    match cause {
        Cause::Device => text.push_str("Device"),
        Cause::Damaged(page) => write!(text, "Damaged {page}"),
        Cause::Memory => text.push_str("Memory"),
    }
}

// Appends a refusal, or how far a stopped rollback came.
fn push_refusal(text: &mut String, refusal: Refusal) -> Result<(), AllocError>
    ensures { OnOk result (string_bytes text.new ≡ string_bytes text.old ++ refusal_text refusal) }
{
    match refusal {
        Refusal::BeginsSpent => text.push_str("no BeginsSpent"),
        Refusal::NoSuchTx => text.push_str("no NoSuchTx"),
        Refusal::Rolling => text.push_str("no Rolling"),
        Refusal::NotRolling => text.push_str("no NotRolling"),
        Refusal::Held(TxId(owner)) => write!(text, "no Held {owner}"),
        Refusal::LogFull => text.push_str("no LogFull"),
        Refusal::Full => text.push_str("no Full"),
        Refusal::Absent => text.push_str("no Absent"),
        Refusal::TooDeep => text.push_str("no TooDeep"),
        Refusal::NoSuchSave => text.push_str("no NoSuchSave"),
        Refusal::Failed(cause) => {
            text.push_str("no ")?;
            push_cause(text, cause)
        }
        Refusal::Stopped {
            undone,
            left,
            cause,
        } => {
            write!(text, "stopped {undone} {left} ")?;
            push_cause(text, cause)
        }
    }
}

// Appends the refusal that a fault is. It is a function of its own in the program too, so that a reply without a fault
// doesn't pay for one.
#[inline(never)]
fn push_fault_of<F: ToRefusal>(text: &mut String, fault: &F) -> Result<(), AllocError>
    ensures { OnOk result
        (string_bytes text.new ≡ string_bytes text.old ++ refusal_text (F.refusal_of fault.now)) }
{
    push_refusal(text, fault.to_refusal())
}

// Appends why a commit wasn't kept.
fn push_unkept(text: &mut String, fault: Unkept) -> Result<(), AllocError>
    ensures { OnOk result (string_bytes text.new ≡ string_bytes text.old ++ unkept_text fault) }
{
    match fault {
        Unkept::Memory => text.push_str("no Memory"),
        Unkept::Device => text.push_str("no Device"),
        Unkept::Doubt => text.push_str("no Doubt"),
    }
}

// Appends why a line says no command.
fn push_fault(text: &mut String, fault: LineFault) -> Result<(), AllocError>
    ensures { OnOk result (string_bytes text.new ≡ string_bytes text.old ++ fault_text fault) }
{
    match fault {
        LineFault::LineTooLong => text.push_str("bad LineTooLong"),
        LineFault::UnknownCommand => text.push_str("bad UnknownCommand"),
        LineFault::WordCount => text.push_str("bad WordCount"),
        LineFault::BadNumber => text.push_str("bad BadNumber"),
        LineFault::KeyTooLong => text.push_str("bad KeyTooLong"),
        LineFault::NoRecordMark => text.push_str("bad NoRecordMark"),
        LineFault::RecordTooLong => text.push_str("bad RecordTooLong"),
    }
}

fn push_number(text: &mut String, number: u32) -> Result<(), AllocError>
    ensures { OnOk result (string_bytes text.new ≡ string_bytes text.old ++ number_text number) }
{
    write!(text, "ok {number}")
}

fn push_record(text: &mut String, value: &Record) -> Result<(), AllocError>
    ensures { OnOk result (string_bytes text.new ≡ string_bytes text.old ++ record_text value.now) }
{
    text.push_str("ok =")?;
    push_escaped(text, value.bytes())
}

// Appends the record that was there, or that there was none.
fn push_old(text: &mut String, old: &Option<Record>) -> Result<(), AllocError>
    ensures { OnOk result (string_bytes text.new ≡ string_bytes text.old ++ old_text old.now) }
{
    match old {
        None => text.push_str("ok none"),
        Some(record) => push_record(text, record),
    }
}

fn push_owner(text: &mut String, owner: Option<TxId>) -> Result<(), AllocError>
    ensures { OnOk result (string_bytes text.new ≡ string_bytes text.old ++ owner_text owner) }
{
    match owner {
        None => Ok(()),
        Some(TxId(number)) => write!(text, " @{number}"),
    }
}

/// Appends the line of a list that tells of a record at its key, and who owns that. Fault: that memory is refused; of the line
/// any front is there then. It goes into its callers, so that what stands between the words is stored and no call copies it.
#[inline(always)]
pub fn push_entry(
    text: &mut String,
    key: &Key,
    value: &[u8],
    owner: Option<TxId>,
) -> Result<(), AllocError>
    ensures { OnOk result (string_bytes text.new ≡ string_bytes text.old
        ++ entry_line (record { key = key.now; value = value.now; owner = owner })) }
{
    let Ok(()) = text.push_str("- ") else {
        return Err(refused());
    };
    let Ok(()) = push_escaped(text, key.bytes()) else {
        return Err(refused());
    };
    let Ok(()) = text.push_str(" =") else {
        return Err(refused());
    };
    let Ok(()) = push_escaped(text, value) else {
        return Err(refused());
    };
    let Ok(()) = push_owner(text, owner) else {
        return Err(refused());
    };
    text.push_str("\n")
}

// That memory is refused. What leads here is rare, so that what doesn't goes into its callers.
#[cold]
#[inline(never)]
fn refused() -> AllocError {
    AllocError
}

/// Appends the line behind a list, which tells how many lines that has. Fault: that memory is refused.
pub fn push_list_end(text: &mut String, count: usize) -> Result<(), AllocError>
    ensures { OnOk result
        (string_bytes text.new ≡ string_bytes text.old ++ line (number_text count)) }
{
    write!(text, "ok {count}\n")
}

fn push_lines_of_entries(text: &mut String, entries: &[Entry]) -> Result<(), AllocError>
    ensures { OnOk result
        (string_bytes text.new ≡ string_bytes text.old ++ flat_map entry_line entries.now) }
{
    for entry in entries {
        push_entry(text, &entry.key, entry.value.bytes(), entry.owner)?;
    }
    Ok(())
}

fn push_entries(text: &mut String, entries: &EntryList) -> Result<(), AllocError>
    ensures { OnOk result
        (string_bytes text.new ≡ string_bytes text.old ++ entries_text entries.now) }
{
    let entries = entries.as_slice();
    push_lines_of_entries(text, entries)?;
    let count = entries.len();
    write!(text, "ok {count}")
}

fn push_lines_of_keys(text: &mut String, keys: &[Key]) -> Result<(), AllocError>
    ensures { OnOk result
        (string_bytes text.new ≡ string_bytes text.old ++ flat_map key_line keys.now) }
{
    for key in keys {
        text.push_str("- ")?;
        push_escaped(text, key.bytes())?;
        text.push_str("\n")?;
    }
    Ok(())
}

fn push_keys(text: &mut String, keys: &KeyList) -> Result<(), AllocError>
    ensures { OnOk result (string_bytes text.new ≡ string_bytes text.old ++ keys_text keys.now) }
{
    let keys = keys.as_slice();
    push_lines_of_keys(text, keys)?;
    let count = keys.len();
    write!(text, "ok {count}")
}

// Appends a reply, without the end of its last line.
fn push_reply(text: &mut String, reply: &Reply) -> Result<(), AllocError>
    ensures { OnOk result (string_bytes text.new ≡ string_bytes text.old ++ reply_text reply.now) }
{
    match reply {
        Reply::Begin(Ok(TxId(number))) => push_number(text, *number),
        Reply::Begin(Err(fault)) => push_fault_of(text, fault),
        Reply::Put(Ok(old)) => push_old(text, old),
        Reply::Put(Err(fault)) => push_fault_of(text, fault),
        Reply::Claim(Ok(seen)) => push_old(text, seen),
        Reply::Claim(Err(fault)) => push_fault_of(text, fault),
        Reply::Del(Ok(record)) => push_record(text, record),
        Reply::Del(Err(fault)) => push_fault_of(text, fault),
        Reply::Get(Ok(value)) => push_old(text, value),
        Reply::Get(Err(fault)) => push_fault_of(text, fault),
        Reply::Save(Ok(number)) => push_number(text, *number),
        Reply::Save(Err(fault)) => push_fault_of(text, fault),
        Reply::Release(Ok(())) => text.push_str("ok"),
        Reply::Release(Err(fault)) => push_fault_of(text, fault),
        Reply::Back(Ok(undone)) => push_number(text, *undone),
        Reply::Back(Err(fault)) => push_fault_of(text, fault),
        Reply::Resume(Ok(undone)) => push_number(text, *undone),
        Reply::Resume(Err(fault)) => push_fault_of(text, fault),
        Reply::Abort(Ok(undone)) => push_number(text, *undone),
        Reply::Abort(Err(fault)) => push_fault_of(text, fault),
        Reply::Commit(Ok(())) => text.push_str("ok"),
        Reply::Commit(Err(fault)) => push_fault_of(text, fault),
        Reply::List(Ok(entries)) => push_entries(text, entries),
        Reply::List(Err(fault)) => push_fault_of(text, fault),
        Reply::Committed(Ok(value)) => push_old(text, value),
        Reply::Committed(Err(fault)) => push_fault_of(text, fault),
        Reply::Keys(Ok(keys)) => push_keys(text, keys),
        Reply::Keys(Err(fault)) => push_fault_of(text, fault),
        Reply::Log(len, used) => write!(text, "ok {len} {used}"),
        Reply::Unkept(fault) => push_unkept(text, *fault),
        Reply::Bad(fault) => push_fault(text, *fault),
    }
}

// Appends a reply, each of its lines with its end.
fn push_lines(text: &mut String, reply: &Reply) -> Result<(), AllocError>
    ensures { OnOk result (string_bytes text.new ≡ string_bytes text.old ++ text_of reply.now) }
{
    push_reply(text, reply)?;
    text.push('\n')
}

/// Appends the text of a reply, each of its lines with its end. It takes memory only where the text has no room for it.
/// Fault: Memory.
pub fn append_reply(text: &mut String, reply: &Reply) -> Result<(), Memory>
    ensures { OnOk result (string_bytes text.new ≡ string_bytes text.old ++ text_of reply.now) }
{
    push_lines(text, reply).map_err(|_| Memory)
}

/// The text of a reply, each of its lines with its end. A reply of one line takes one allocation. Fault: Memory.
pub fn write_reply(alloc: Global, reply: &Reply) -> Result<Vec<u8>, Memory>
    ensures { IfOk result (λ text. text.items ≡ text_of reply.now) }
{
    let mut text = String::with_capacity(alloc, LINE_ROOM).map_err(|_| Memory)?;
    append_reply(&mut text, reply)?;
    Ok(text.into_bytes())
}
