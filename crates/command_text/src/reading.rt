ghost use Rattle.std.specs.Prelude.{◌≡◌, Some, codes, if◌then◌else◌};
ghost use Rattle.command_text.specs.Grammar.{words_of, tx_of_word, tx_number_of, tx_key_of, tx_key_record_of, key_of_word, key_number_of, file_command_of, tx_command_of, line_of, is_text, read_as};
ghost use Rattle.command_text.specs.Words.{record_from};
ghost use Rattle.percent_encoding.specs.Percent.{percent_decode};
ghost use Rattle.command_text.specs.Script.{bounded_line_of};
ghost use Rattle.command_text.specs.declared.command.Command.TheVariants as commands;

use crate::argument::{after_mark, escaped_record, has_percent, key_at, number_at, tx_at};
use crate::word::{alone, next_word, one_word, three_words, two_words};
use crate::{Command, LineFault};
use rec_types::{Key, Record, TxId};

// The arguments of a command: a transaction, or one and a number or a key. Faults: WordCount,
// and then those of the arguments from left to right.
#[inline(never)]
fn tx(text: &[u8]) -> Result<TxId, LineFault>
    ensures { result ≡ tx_of_word (words_of text.now) }
{
    tx_at(one_word(text)?)
}

fn tx_number(text: &[u8]) -> Result<(TxId, u32), LineFault>
    ensures { result ≡ tx_number_of (words_of text.now) }
{
    let (first, second) = two_words(text)?;
    let tx = tx_at(first)?;
    Ok((tx, number_at(second)?))
}

fn tx_key(text: &[u8]) -> Result<(TxId, Key), LineFault>
    ensures { result ≡ tx_key_of (words_of text.now) }
{
    let (first, second) = two_words(text)?;
    let tx = tx_at(first)?;
    Ok((tx, key_at(second)?))
}

// Each command with arguments is a function of its own in the program too, so that a line pays for one alone.
#[inline(never)]
fn save(rest: &[u8]) -> Result<Option<Command>, LineFault>
    ensures { result
        ≡ read_as Some (read_as commands.Save (tx_of_word (words_of rest.now))) }
{
    Ok(Some(Command::Save(tx(rest)?)))
}

#[inline(never)]
fn resume(rest: &[u8]) -> Result<Option<Command>, LineFault>
    ensures { result
        ≡ read_as Some (read_as commands.Resume (tx_of_word (words_of rest.now))) }
{
    Ok(Some(Command::Resume(tx(rest)?)))
}

#[inline(never)]
fn abort(rest: &[u8]) -> Result<Option<Command>, LineFault>
    ensures { result
        ≡ read_as Some (read_as commands.Abort (tx_of_word (words_of rest.now))) }
{
    Ok(Some(Command::Abort(tx(rest)?)))
}

#[inline(never)]
fn commit(rest: &[u8]) -> Result<Option<Command>, LineFault>
    ensures { result
        ≡ read_as Some (read_as commands.Commit (tx_of_word (words_of rest.now))) }
{
    Ok(Some(Command::Commit(tx(rest)?)))
}

#[inline(never)]
fn keys(rest: &[u8]) -> Result<Option<Command>, LineFault>
    ensures { result
        ≡ read_as Some (read_as commands.Keys (tx_of_word (words_of rest.now))) }
{
    Ok(Some(Command::Keys(tx(rest)?)))
}

#[inline(never)]
fn put_escaped(tx: TxId, key: Key, escaped: &[u8]) -> Result<Option<Command>, LineFault>
    ensures { result ≡ read_as Some
        (read_as (commands.Put tx key) (record_from (percent_decode escaped.now))) }
{
    Ok(Some(Command::Put(tx, key, escaped_record(escaped)?)))
}

#[inline(never)]
fn put(rest: &[u8]) -> Result<Option<Command>, LineFault>
    ensures { result
        ≡ read_as Some (read_as (λ a. commands.Put a.0 a.1 a.2)
        (tx_key_record_of (words_of rest.now))) }
{
    let (first, second, third) = three_words(rest)?;
    let tx = tx_at(first)?;
    let key = key_at(second)?;
    let escaped = after_mark(third)?;
    if has_percent(escaped) {
        return put_escaped(tx, key, escaped);
    }
    // Bytes without `%` stand for themselves. The record is made where it is to stand.
    match Record::new(escaped) {
        Ok(record) => return Ok(Some(Command::Put(tx, key, record))),
        Err(_) => return Err(LineFault::RecordTooLong),
    }
}

#[inline(never)]
fn claim(rest: &[u8]) -> Result<Option<Command>, LineFault>
    ensures { result
        ≡ read_as Some (read_as (λ a. commands.Claim a.0 a.1) (tx_key_of (words_of rest.now))) }
{
    let (tx, key) = tx_key(rest)?;
    Ok(Some(Command::Claim(tx, key)))
}

#[inline(never)]
fn del(rest: &[u8]) -> Result<Option<Command>, LineFault>
    ensures { result
        ≡ read_as Some (read_as (λ a. commands.Del a.0 a.1) (tx_key_of (words_of rest.now))) }
{
    let (tx, key) = tx_key(rest)?;
    Ok(Some(Command::Del(tx, key)))
}

#[inline(never)]
fn get(rest: &[u8]) -> Result<Option<Command>, LineFault>
    ensures { result
        ≡ read_as Some (read_as (λ a. commands.Get a.0 a.1) (tx_key_of (words_of rest.now))) }
{
    let (tx, key) = tx_key(rest)?;
    Ok(Some(Command::Get(tx, key)))
}

#[inline(never)]
fn release(rest: &[u8]) -> Result<Option<Command>, LineFault>
    ensures { result
        ≡ read_as Some (read_as (λ a. commands.Release a.0 a.1)
        (tx_number_of (words_of rest.now))) }
{
    let (tx, n) = tx_number(rest)?;
    Ok(Some(Command::Release(tx, n)))
}

#[inline(never)]
fn back(rest: &[u8]) -> Result<Option<Command>, LineFault>
    ensures { result
        ≡ read_as Some (read_as (λ a. commands.Back a.0 a.1) (tx_number_of (words_of rest.now))) }
{
    let (tx, n) = tx_number(rest)?;
    Ok(Some(Command::Back(tx, n)))
}

// The arguments of a command on the file beside its transactions: a key, or one and a number. Faults: WordCount, and then those
// of the arguments from left to right.
fn key(text: &[u8]) -> Result<Key, LineFault>
    ensures { result ≡ key_of_word (words_of text.now) }
{
    key_at(one_word(text)?)
}

fn key_number(text: &[u8]) -> Result<(Key, u32), LineFault>
    ensures { result ≡ key_number_of (words_of text.now) }
{
    let (first, second) = two_words(text)?;
    let key = key_at(first)?;
    Ok((key, number_at(second)?))
}

#[inline(never)]
fn from(rest: &[u8]) -> Result<Option<Command>, LineFault>
    ensures { result
        ≡ read_as Some (read_as (λ a. commands.From a.0 a.1) (key_number_of (words_of rest.now))) }
{
    let (key, n) = key_number(rest)?;
    Ok(Some(Command::From(key, n)))
}

#[inline(never)]
fn upto(rest: &[u8]) -> Result<Option<Command>, LineFault>
    ensures { result
        ≡ read_as Some (read_as (λ a. commands.Upto a.0 a.1) (key_number_of (words_of rest.now))) }
{
    let (key, n) = key_number(rest)?;
    Ok(Some(Command::Upto(key, n)))
}

#[inline(never)]
fn committed(rest: &[u8]) -> Result<Option<Command>, LineFault>
    ensures { result
        ≡ read_as Some (read_as commands.Committed (key_of_word (words_of rest.now))) }
{
    Ok(Some(Command::Committed(key(rest)?)))
}

// A command on the file beside its transactions, by its name and the words after it. Fault: UnknownCommand, then those of the arguments.
#[inline(never)]
#[tactic(auto, unfolding(crate::specs::Grammar::file_command_of))]
fn file_command(name: &[u8], rest: &[u8]) -> Result<Option<Command>, LineFault>
    ensures { result ≡ read_as Some (file_command_of name.now (words_of rest.now)) }
{
    if name == b"list".as_slice() {
        return alone(rest, Command::List);
    }
    if name == b"from".as_slice() {
        return from(rest);
    }
    if name == b"upto".as_slice() {
        return upto(rest);
    }
    if name == b"committed".as_slice() {
        return committed(rest);
    }
    if name == b"keys".as_slice() {
        return keys(rest);
    }
    if name == b"log".as_slice() {
        return alone(rest, Command::Log);
    }
    Err(LineFault::UnknownCommand)
}

// A command on a transaction, or one on the file beside its transactions.
#[inline(never)]
#[tactic(auto, unfolding(crate::specs::Grammar::tx_command_of))]
fn tx_command(name: &[u8], rest: &[u8]) -> Result<Option<Command>, LineFault>
    ensures { result ≡ read_as Some (tx_command_of name.now (words_of rest.now)) }
{
    if name == b"begin".as_slice() {
        return alone(rest, Command::Begin);
    }
    if name == b"save".as_slice() {
        return save(rest);
    }
    if name == b"release".as_slice() {
        return release(rest);
    }
    if name == b"back".as_slice() {
        return back(rest);
    }
    if name == b"resume".as_slice() {
        return resume(rest);
    }
    if name == b"abort".as_slice() {
        return abort(rest);
    }
    if name == b"commit".as_slice() {
        return commit(rest);
    }
    file_command(name, rest)
}

// A command that is none of the three that most lines of a script say.
#[inline(never)]
fn other_command(name: &[u8], rest: &[u8]) -> Result<Option<Command>, LineFault>
    ensures { result ≡ read_as Some (if is_text name.now (codes "claim")
        then read_as (λ a. commands.Claim a.0 a.1) (tx_key_of (words_of rest.now))
        else tx_command_of name.now (words_of rest.now)) }
{
    if name == b"claim".as_slice() {
        return claim(rest);
    }
    tx_command(name, rest)
}

/// The command that a script line says; a blank line and a comment say none. The line comes without its LF, and one
/// CR at its end doesn't count. It takes no memory. Faults in order: UnknownCommand; WordCount; then the arguments
/// from left to right, BadNumber, KeyTooLong, NoRecordMark, RecordTooLong.
#[tactic(auto, unfolding(crate::specs::Grammar::line_of, crate::specs::Grammar::command_of))]
pub fn read_line(line: &[u8]) -> Result<Option<Command>, LineFault>
    ensures { result ≡ line_of line.now }
{
    let line = line.strip_suffix(b"\r").unwrap_or(line);
    let Some((name, rest)) = next_word(line) else {
        return Ok(None);
    };
    if name.starts_with(b"#") {
        return Ok(None);
    }
    if name == b"put".as_slice() {
        return put(rest);
    }
    if name == b"del".as_slice() {
        return del(rest);
    }
    if name == b"get".as_slice() {
        return get(rest);
    }
    other_command(name, rest)
}

/// The bytes of the longest line that `read_bounded_line` reads.
pub const LONGEST_LINE: usize = 65_536;

/// What `read_line` answers to a line of at most 65,536 bytes. Faults: LineTooLong; then those of `read_line`.
pub fn read_bounded_line(line: &[u8]) -> Result<Option<Command>, LineFault>
    ensures { result ≡ bounded_line_of line.now }
{
    if line.len() > LONGEST_LINE {
        return Err(LineFault::LineTooLong);
    }
    read_line(line)
}
