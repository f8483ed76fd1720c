ghost use Rattle.std.specs.Prelude.{◌≡◌, ◌++◌, IfOk, OnOk};
ghost use Rattle.std.specs.List.{All, flat_map};
ghost use Rattle.std.specs.String.{string_bytes};
ghost use Rattle.commit_paper.specs.Text.{IsUnit, unit_text};
ghost use Rattle.command_text.specs.Script.{commands_of};
ghost use Rattle.command_text.specs.Units.{write_line, unit_lines, unit_commands, CanBeWritten};

use crate::dump::push_bytes;
use rec_types::{Key, Memory, Record, TxId};
use std::alloc::{AllocError, Global};

// Appends the line that makes a write.
fn push_write(
    text: &mut String,
    number: u32,
    write: &(Key, Option<Record>),
) -> Result<(), AllocError>
    ensures text { OnOk result (string_bytes text.new
        ≡ string_bytes text.old ++ write_line number write.now) }
    ensures can { OnOk result (CanBeWritten write.now) }
{
    let (key, value) = write;
    match value {
        Some(value) => {
            write!(text, "put {number} ")?;
            push_bytes(text, key.bytes())?;
            text.push_str(" =")?;
            push_bytes(text, value.bytes())?;
        }
        None => {
            write!(text, "del {number} ")?;
            push_bytes(text, key.bytes())?;
        }
    }
    text.push_str("\n")
}

// Appends those of all writes.
fn push_writes(
    text: &mut String,
    number: u32,
    writes: &[(Key, Option<Record>)],
) -> Result<(), AllocError>
    ensures text { OnOk result (string_bytes text.new
        ≡ string_bytes text.old ++ flat_map (write_line number) writes.now) }
    ensures can { OnOk result (All CanBeWritten writes.now) }
{
    for write in writes {
        push_write(text, number, write)?;
    }
    Ok(())
}

// The text of a unit.
fn text_of_unit(
    alloc: Global,
    number: u32,
    writes: &[(Key, Option<Record>)],
) -> Result<String, AllocError>
    ensures text { IfOk result (λ text. string_bytes text ≡ unit_text (unit_lines number writes.now)) }
    ensures can { OnOk result (All CanBeWritten writes.now) }
{
    let mut text = String::new(alloc);
    text.push_str("begin\n")?;
    push_writes(&mut text, number, writes)?;
    write!(text, "commit {number}\n")?;
    Ok(text)
}

/// What a commit writes as a script that makes the writes in the transaction of its number and commits it: a unit of a log of
/// commits. Fault: Memory.
pub fn write_unit(
    alloc: Global,
    tx: TxId,
    writes: &[(Key, Option<Record>)],
) -> Result<Vec<u8>, Memory>
    ensures text { IfOk result (λ text. text.items ≡ unit_text (unit_lines tx.0 writes.now)) }
    ensures unit { OnOk result (IsUnit (unit_lines tx.0 writes.now)) }
    ensures said { IfOk result (λ text. commands_of text.items ≡ unit_commands tx.0 writes.now) }
{
    let TxId(number) = tx;
    let text = text_of_unit(alloc, number, writes).map_err(|_| Memory)?;
    Ok(text.into_bytes())
}
