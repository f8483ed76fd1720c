ghost use Rattle.std.specs.Prelude.{◌≡◌, ◌≤◌, length, IfOk, IfSome};

use crate::help::tell_forms;
use crate::picture::draw_chains;
use crate::watch::{FLUSH, Watch};
use command_text::{LineFault, read_bounded_line};
use std::cell::RefCell;
use std::io;
use std::io::{Read, Write};

/// Lines that a person may type. Where one does, there is a prompt before each read, which tells the open transactions; a
/// line that asks for help or for the chains of the log is answered here, and one with an escape sequence is refused here,
/// so that none of them is read on; behind the reply to `log` the chains are drawn; and the form of a line that has too
/// many or too few words is told. Where none does, the lines come as they are.
#[derive(Drop)]
pub struct Prompted<'a, R, E> {
    lines: R,
    err: E,
    watch: &'a RefCell<Watch>,
    typed: bool,
}

impl<'a, R: Read, E: Write> Prompted<'a, R, E> {
    /// These lines, whether a person types them, where what is told stands, and what watches the session.
    pub fn new(lines: R, err: E, watch: &'a RefCell<Watch>, typed: bool) -> Prompted<'a, R, E>
        ensures lines { result.lines ≡ lines }
        ensures typed { result.typed ≡ typed }
    {
        Prompted {
            lines,
            err,
            watch,
            typed,
        }
    }
}

// The most open transactions that a prompt tells.
const MOST_OPEN: usize = 8;

// The prompt, with the numbers of the open transactions.
fn write_prompt<E: Write>(watch: &Watch, err: &mut E) -> io::Result<()> {
    let open = watch.open();
    if open.is_empty() || !watch.is_known() {
        return write!(err, "recfile> ");
    }
    write!(err, "recfile [")?;
    for (index, open) in open.iter().take(MOST_OPEN).enumerate() {
        let space = if index == 0 { "" } else { " " };
        let number = open.tx.0;
        write!(err, "{space}{number}")?;
    }
    let more = if open.len() > MOST_OPEN { " .." } else { "" };
    write!(err, "{more}]> ")
}

// The first two words of a line.
fn words_of(line: &[u8]) -> (&str, &str) {
    let Ok(text) = str::from_utf8(line) else {
        return ("", "");
    };
    let mut words = text.split_ascii_whitespace();
    (words.next().unwrap_or(""), words.next().unwrap_or(""))
}

// The line without its LF.
fn without_end(line: &[u8]) -> &[u8] {
    match line.strip_suffix(b"\n") {
        Some(line) => line,
        None => line,
    }
}

// Tells of a line what it can: whether it is answered by that.
fn answers<E: Write>(line: &[u8], watch: &Watch, err: &mut E) -> io::Result<bool> {
    if line.contains(&27) {
        writeln!(
            err,
            "an escape sequence stands in that line, as of an arrow key: it isn't run"
        )?;
        return Ok(true);
    }
    let (first, second) = words_of(line);
    if first == "help" || first == "?" {
        tell_forms(err, second)?;
        return Ok(true);
    }
    if first == "show" {
        draw_chains(watch, err)?;
        return Ok(true);
    }
    if without_end(line) == FLUSH {
        if !watch.open().is_empty() {
            writeln!(err, "a flush is only taken while no transaction is open")?;
        }
        return Ok(false);
    }
    match read_bounded_line(without_end(line)) {
        Err(LineFault::WordCount) => tell_forms(err, first)?,
        Err(LineFault::UnknownCommand) => {
            writeln!(err, "help tells the commands, and Ctrl-D ends the session")?;
        }
        _ => {}
    }
    Ok(false)
}

// Prompts for a line, reads it, and tells of it what it can: whether it is to be read on.
fn read_line<R: Read, E: Write>(
    lines: &mut R,
    watch: &mut Watch,
    err: &mut E,
    to: &mut [u8],
) -> io::Result<Option<usize>>
    ensures { IfOk result (λ read. IfSome read (λ count. count ≤ length to.new)) }
{
    write_prompt(watch, err)?;
    err.flush()?;
    let count = lines.read(to)?;
    let line = to.get(..count).unwrap_or(b"");
    if !line.is_empty() && answers(line, watch, err)? {
        return Ok(None);
    }
    watch.hear(line);
    Ok(Some(count))
}

// Reads a line that a person types, and that is to be read on.
fn read_typed<R: Read, E: Write>(
    lines: &mut R,
    watch: &mut Watch,
    err: &mut E,
    to: &mut [u8],
) -> io::Result<usize>
    ensures { IfOk result (λ count. count ≤ length to.new) }
{
    if watch.take_up() {
        draw_chains(watch, err)?;
    }
    for _ in 0..u64::MAX {
        if let Some(count) = read_line(lines, watch, err, to)? {
            return Ok(count);
        }
    }
    Ok(0)
}

// Where nobody types, what it has left is what the reader behind it does.
impl<'a, R: Read, E: Write> Read for Prompted<'a, R, E> {
    ghost use Rattle.std.specs.Prelude.{None, if◌then◌else◌};

    ghost remaining = { λ prompted. if prompted.typed then None else R.remaining prompted.lines };

    fn read(&mut self, to: &mut [u8]) -> io::Result<usize> {
        if !self.typed {
            return self.lines.read(to);
        }
        let Ok(mut watch) = self.watch.try_borrow_mut() else {
            return self.lines.read(to);
        };
        read_typed(&mut self.lines, &mut watch, &mut self.err, to)
    }
}
