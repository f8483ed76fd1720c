ghost use Rattle.std.specs.Prelude.{◌≡◌, Ok, IsTrue, IfErr, OnOk};
ghost use Rattle.std.specs.List.{All};
ghost use Rattle.rec_types.specs.Table.{counted};
ghost use Rattle.command_text.specs.Script.{commands_of};
ghost use Rattle.record_file.specs.Durable.{overlay};
ghost use Rattle.file_session.specs.Beside.{IsOverlayFault};
ghost use Rattle.file_session.specs.FileFaults.{is_device_overlay};
ghost use Rattle.file_session.specs.Overlaid.{IsLogCommand, line_entries, write_said, writes_said};

use crate::lines::next_line;
use command_text::{Command, LineFault, read_line};
use rec_types::{Table, TableFault};
use thiserror::Error;

/// Why a log of commits wasn't put over a table.
#[derive(Clone, Copy, Debug, PartialEq, Eq, Error)]
pub enum OverlayFault {
    /// It has a line that no log of commits has.
    #[error("the log has a line that is none of a log")]
    Line,
    #[error("{0}")]
    Table(TableFault),
}

impl From<TableFault> for OverlayFault {
    ghost use Rattle.std.specs.Prelude.{◌≡◌};
    ghost use Rattle.file_session.specs.declared.overlaying.OverlayFault.TheVariants.{Table};

    ghost from_gives = { λ fault named. named ≡ Table fault };

    fn from(fault: TableFault) -> OverlayFault {
        OverlayFault::Table(fault)
    }
}

// Makes the write that a command of a log says.
fn overlay_one<T: Table>(table: &mut T, command: &Command) -> Result<(), OverlayFault>
    ensures said { IsTrue (T.sound table.old) → OnOk result (T.contents table.new
        ≡ overlay (T.contents table.old) (write_said (Ok command.now))) }
    ensures logged { OnOk result (IsLogCommand (Ok command.now)) }
    ensures refused { IsTrue (T.sound table.old)
        → IfErr result (IsOverlayFault (IsLogCommand (Ok command.now))) }
    ensures sound { T.sound table.new ≡ T.sound table.old }
    ensures origin { T.origin table.new ≡ T.origin table.old }
    ensures failures { T.device_failures table.new
        ≡ counted (T.device_failures table.old) (is_device_overlay result) }
{
    match command {
        Command::Begin | Command::Commit(_) => {}
        Command::Put(_, key, value) => {
            table.set(*key, Some(*value))?;
        }
        Command::Del(_, key) => {
            table.set(*key, None)?;
        }
        _ => return Err(OverlayFault::Line),
    }
    Ok(())
}

// Makes the write that a line of a log says; a line that says nothing writes nothing.
fn overlay_line<T: Table>(
    table: &mut T,
    said: &Result<Option<Command>, LineFault>,
) -> Result<(), OverlayFault>
    ensures said { IsTrue (T.sound table.old) → OnOk result (T.contents table.new
        ≡ overlay (T.contents table.old) (writes_said (line_entries said.now))) }
    ensures logged { OnOk result (All IsLogCommand (line_entries said.now)) }
    ensures refused { IsTrue (T.sound table.old)
        → IfErr result (IsOverlayFault (All IsLogCommand (line_entries said.now))) }
    ensures sound { T.sound table.new ≡ T.sound table.old }
    ensures origin { T.origin table.new ≡ T.origin table.old }
    ensures failures { T.device_failures table.new
        ≡ counted (T.device_failures table.old) (is_device_overlay result) }
{
    match said {
        Ok(None) => Ok(()),
        Ok(Some(command)) => overlay_one(table, command),
        Err(_) => Err(OverlayFault::Line),
    }
}

/// Puts what a log of commits says over the records of a table, the first write first. Faults: Line, where a line is none of a
/// log; those of the table. Some writes are made then.
pub fn overlay_text<T: Table>(table: &mut T, text: &[u8]) -> Result<(), OverlayFault>
    ensures said { IsTrue (T.sound table.old) → OnOk result (T.contents table.new
        ≡ overlay (T.contents table.old) (writes_said (commands_of text.now))) }
    ensures logged { OnOk result (All IsLogCommand (commands_of text.now)) }
    ensures refused { IsTrue (T.sound table.old)
        → IfErr result (IsOverlayFault (All IsLogCommand (commands_of text.now))) }
    ensures sound { T.sound table.new ≡ T.sound table.old }
    ensures origin { T.origin table.new ≡ T.origin table.old }
    ensures failures { T.device_failures table.new
        ≡ counted (T.device_failures table.old) (is_device_overlay result) }
{
    let mut rest = text;
    while !rest.is_empty() {
        let (line, after) = next_line(rest);
        rest = after;
        overlay_line(table, &read_line(line))?;
    }
    Ok(())
}
