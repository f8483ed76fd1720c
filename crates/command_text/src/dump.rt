ghost use Rattle.std.specs.Prelude.{◌≡◌, ◌<◌, ◌≤◌, ◌++◌, List, IfOk, OnOk, codes, length};
ghost use Rattle.std.specs.List.{All, flat_map};
ghost use Rattle.std.specs.String.{string_bytes};
ghost use Rattle.rec_types.specs.Widths.{widest_record};
ghost use Rattle.command_text.specs.Dump.{dump_text, dump_commands, put_line, EachIsByte, CanBePut};
ghost use Rattle.command_text.specs.Script.{commands_of};
ghost use Rattle.command_text.specs.Texts.{escaped, line};

use crate::reply::push_escaped;
use rec_types::{Key, Memory, Record};
use std::alloc::{AllocError, Global};

/// Appends bytes, escaped, which are bytes.
pub(crate) fn push_bytes(text: &mut String, bytes: &[u8]) -> Result<(), AllocError>
    ensures text { OnOk result (string_bytes text.new ≡ string_bytes text.old ++ escaped bytes.now) }
    ensures bytes { EachIsByte bytes.now }
{
    push_escaped(text, bytes)
}

/// The line before those that put the records of a dump.
pub fn dump_head() -> &'static str
    ensures { result.now ≡ line (codes "begin") }
{
    "begin\n"
}

/// The line behind them.
pub fn dump_foot() -> &'static str
    ensures { result.now ≡ line (codes "commit 1") }
{
    "commit 1\n"
}

/// Appends the line that puts a record, whatever bytes it has. Fault: that memory is refused; of the line any front is there then.
pub fn push_put(text: &mut String, key: &Key, value: &[u8]) -> Result<(), AllocError>
    requires { length value.now ≤ widest_record }
    ensures text { OnOk result
        (string_bytes text.new ≡ string_bytes text.old ++ put_line (key.now, value.now)) }
    ensures put { OnOk result (CanBePut (key.now, value.now)) }
{
    text.push_str("put 1 ")?;
    push_bytes(text, key.bytes())?;
    text.push_str(" =")?;
    push_bytes(text, value)?;
    text.push_str("\n")
}

// Appends those of all records.
fn push_puts(text: &mut String, records: &[(Key, Record)]) -> Result<(), AllocError>
    ensures text { OnOk result
        (string_bytes text.new ≡ string_bytes text.old ++ flat_map put_line records.now) }
    ensures puts { OnOk result (All CanBePut records.now) }
{
    for entry in records {
        push_put(text, &entry.0, entry.1.bytes())?;
    }
    Ok(())
}

// The text of a dump.
fn dump_text(alloc: Global, records: &[(Key, Record)]) -> Result<String, AllocError>
    ensures text { IfOk result (λ text. string_bytes text ≡ dump_text records.now) }
    ensures puts { OnOk result (All CanBePut records.now) }
{
    let mut text = String::new(alloc);
    text.push_str(dump_head())?;
    push_puts(&mut text, records)?;
    text.push_str(dump_foot())?;
    Ok(text)
}

/// The records as a script that puts them in one transaction and commits it, whatever bytes they have. Fault: Memory.
pub fn write_dump(alloc: Global, records: &[(Key, Record)]) -> Result<Vec<u8>, Memory>
    ensures text { IfOk result (λ text. text.items ≡ dump_text records.now) }
    ensures puts { OnOk result (All CanBePut records.now) }
    ensures said { IfOk result (λ text. commands_of text.items ≡ dump_commands records.now) }
{
    let text = dump_text(alloc, records).map_err(|_| Memory)?;
    Ok(text.into_bytes())
}
