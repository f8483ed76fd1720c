//! The program: `run_words` over the words that it is called with and the standard streams.
#![tactic(auto)]

mod uninterrupted;

ghost use Rattle.recfile.specs.Streams.{IsBlankFor};

use crate::uninterrupted::Uninterrupted;
use line_prompt::{ByLine, Heard, Prompted, Watch, tell_end};
use recfile::{StreamCalls, SystemFiles, run_words, unread_words};
use std::cell::RefCell;
use std::io::{IsTerminal, Read, Write};
use std::marker::Brand;
use std::process::ExitCode;
use std::sync::ledger::{Blank, Ledger};
use std::{env, io};

// Whether a person types the lines, and sees what is told beside their replies.
fn is_typed(rt: &HostRuntime) -> bool {
    rt.stdin().is_terminal() && rt.stderr().is_terminal()
}

// Does what the words ask for, on that count of the calls of the streams.
fn run_counted<L: Ledger, R: Read, W: Write>(
    rt: &HostRuntime,
    words: &[&str],
    lines: &mut R,
    out: &mut W,
    blank: Blank,
) -> u8
    requires { IsBlankFor blank.name blank.parts L.name L.parts }
{
    let mut calls = StreamCalls::<L>::new(blank);
    let files = SystemFiles::new(rt);
    run_words(
        &files,
        rt.alloc(),
        words,
        lines,
        out,
        &mut rt.stderr(),
        &mut calls,
    )
}

// Does what the words ask for, over these streams.
fn run_over<R: Read, W: Write>(rt: &HostRuntime, words: &[&str], lines: &mut R, out: &mut W) -> u8 {
    run_counted::<Brand, R, W>(rt, words, lines, out, Blank::new(1))
}

// Tells what the program is and how to begin, where a person asks for nothing.
fn tell_help(rt: &HostRuntime) -> u8 {
    let words = ["recfile", "--help"];
    let status = run_over(rt, &words, &mut rt.stdin(), &mut rt.stderr());
    let _ = writeln!(
        rt.stderr(),
        "\nTo begin: recfile create a.rec, and then recfile shell a.rec"
    );
    status
}

// The statuses of a session that was ended, and whose file was closed.
const WAS_ENDED: [u8; 2] = [0, 3];

// The options of a shell that have a value.
const VALUED: [&str; 3] = ["--records", "--log", "--begins"];

// Whether the words of a shell name a file.
fn names_file(words: &[&str]) -> bool {
    let mut is_value = false;
    for word in words.iter().skip(2) {
        if !is_value && !word.starts_with('-') {
            return true;
        }
        is_value = !is_value && VALUED.contains(word);
    }
    false
}

fn run(rt: &HostRuntime) -> io::Result<u8> {
    let alloc = rt.alloc();
    let mut texts: Vec<String> = Vec::new(alloc);
    for text in env::args(rt)? {
        texts.push(text)?;
    }
    let mut words: Vec<&str> = Vec::new(alloc);
    for text in &texts {
        words.push(text.as_str())?;
    }
    let typed = is_typed(rt);
    if typed && words.len() < 2 {
        return Ok(tell_help(rt));
    }
    let is_shell = words.get(1).is_some_and(|word| *word == "shell");
    let typed = typed && is_shell;
    let watch = RefCell::new(Watch::new(alloc));
    let lines = Uninterrupted::new(rt.stdin());
    let lines = Prompted::new(lines, rt.stderr(), &watch, typed);
    // A flush leaves what follows its line unread.
    let flushes = is_shell && words.contains(&"--durable");
    let mut lines = ByLine::new(lines, flushes);
    let mut out = Heard::new(Uninterrupted::new(rt.stdout()), &watch, typed);
    let status = run_over(rt, &words, &mut lines, &mut out);
    if typed && WAS_ENDED.contains(&status) {
        if let Ok(mut watch) = watch.try_borrow_mut() {
            let _ = tell_end(&mut watch, names_file(&words), &mut rt.stderr());
        }
    }
    Ok(status)
}

fn main(rt: HostRuntime) -> ExitCode {
    match run(&rt) {
        Ok(status) => ExitCode::from(status),
        Err(error) => ExitCode::from(unread_words(&mut rt.stderr(), error)),
    }
}
