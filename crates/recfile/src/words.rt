ghost use Rattle.std.specs.Prelude.{◌≡◌, IfOk, codes};
ghost use Rattle.clap.specs.Matches.{found_of};
ghost use Rattle.clap.specs.Simple.{subcommand_rows_of};
ghost use Rattle.clap.specs.Walk.{one_of, rows_of};
ghost use Rattle.recfile.specs.Words.{AreAskedLimits, AsksFor, IsDrawing, IsFlag, IsForm, IsManner, IsNamed, IsRead, IsSeparator, IsShell, word_in};

use crate::manner::{Feed, Manner};
use crate::telling::Telling;
use clap::{Arg, ArgAction, ArgMatches, Command, Error, value_parser};
use file_session::greatest_limits;
use page_looks::Drawing;
use rec_types::{LimitFault, Limits, MOST_BEGINS, MOST_LOG_RECORDS, MOST_RECORDS};
use record_texts::{Form, Separator};
use std::alloc::{AllocError, Global};

/// Why the words ask for nothing: a fault of the words, or help that was asked for, each with its text; or a limit that
/// no file has.
#[derive(Debug, Drop)]
pub enum UsageFault {
    Words(Error),
    Limits(LimitFault),
}

impl From<Error> for UsageFault {
    fn from(error: Error) -> UsageFault {
        UsageFault::Words(error)
    }
}

impl From<AllocError> for UsageFault {
    fn from(error: AllocError) -> UsageFault {
        UsageFault::Words(error.into())
    }
}

impl From<LimitFault> for UsageFault {
    fn from(fault: LimitFault) -> UsageFault {
        UsageFault::Limits(fault)
    }
}

/// What the program is asked to do.
#[derive(Clone, Copy)]
pub enum Task<'a> {
    /// To make a page file with an empty tree.
    Create {
        order: u16,
        path: &'a str,
    },
    /// To run a session over a page file, whose commits are kept before they are answered where it is durable.
    Run {
        limits: Limits,
        manner: Manner,
        durable: bool,
        path: &'a str,
    },
    /// To open a page file, and tell of its tree.
    Check {
        path: &'a str,
    },
    /// To make a copy of a page file.
    Copy {
        path: &'a str,
        to: &'a str,
    },
    /// To write the records of a page file in a form, or as a script.
    Dump {
        form: Option<Form>,
        path: &'a str,
    },
    /// To write the records of the whole pages of a file as a script.
    Rescue {
        path: &'a str,
    },
    /// To put the records of a text into a page file.
    Load {
        separator: Separator,
        limits: Limits,
        path: &'a str,
    },
    /// To tell of a file.
    Tell {
        telling: Telling,
        path: &'a str,
    },
    /// To run a session over an empty file in memory.
    Memory {
        limits: Limits,
        manner: Manner,
    },
}

fn order_option<'a>(alloc: Global) -> Arg<'a> {
    Arg::new(alloc, "order")
        .long("order")
        .value_name("K")
        .help(
            "Keys in half a page, 1 to 16: a page has at most 2K. 40 records put in key order take 77,824 bytes at 2, and 16,384 at 16",
        )
        .default_value("16")
        .action(ArgAction::Set)
        .value_parser(value_parser!(u16).range(1..=16))
}

fn file_word<'a>(alloc: Global, help: &'a str) -> Arg<'a> {
    Arg::new(alloc, "FILE").help(help).required(true)
}

fn records_option<'a>(alloc: Global) -> Arg<'a> {
    Arg::new(alloc, "records")
        .long("records")
        .value_name("N")
        .help("Records that the file may have, 1 to 1000000")
        .default_value("1000000")
        .action(ArgAction::Set)
        .value_parser(value_parser!(u32).range(1..=i64::from(MOST_RECORDS)))
}

fn log_option<'a>(alloc: Global) -> Arg<'a> {
    Arg::new(alloc, "log")
        .long("log")
        .value_name("N")
        .help("Log records that the session may need, 2 to 4000000")
        .default_value("4000000")
        .action(ArgAction::Set)
        .value_parser(value_parser!(u32).range(2..=i64::from(MOST_LOG_RECORDS)))
}

fn begins_option<'a>(alloc: Global) -> Arg<'a> {
    Arg::new(alloc, "begins")
        .long("begins")
        .value_name("N")
        .help("Transactions that the session may begin, 1 to 1000000")
        .default_value("1000000")
        .action(ArgAction::Set)
        .value_parser(value_parser!(u32).range(1..=i64::from(MOST_BEGINS)))
}

// An option that is set or not.
fn flag<'a>(alloc: Global, name: &'a str, help: &'a str) -> Arg<'a> {
    Arg::new(alloc, name)
        .long(name)
        .help(help)
        .action(ArgAction::SetTrue)
}

fn strict_option<'a>(alloc: Global) -> Arg<'a> {
    let help = "End the script at the first `no`, `bad` or `stopped`, with status 3";
    flag(alloc, "strict", help)
}

fn with_session<'a>(alloc: Global, command: Command<'a>) -> Result<Command<'a>, AllocError> {
    command
        .arg(records_option(alloc))?
        .arg(log_option(alloc))?
        .arg(begins_option(alloc))?
        .arg(strict_option(alloc))
}

fn durable_option<'a>(alloc: Global) -> Result<Arg<'a>, AllocError> {
    let help = "Keep each commit on the device before it is answered, so that no stop loses it";
    flag(alloc, "durable", help).requires_arg("FILE")
}

fn create_command<'a>(alloc: Global) -> Result<Command<'a>, AllocError> {
    Command::new(alloc, "create")
        .about("Makes a page file with no records, as: recfile create a.rec")
        .arg(order_option(alloc))?
        .arg(file_word(
            alloc,
            "The path of the new file; a file that is there is left alone",
        ))
}

fn run_command<'a>(alloc: Global) -> Result<Command<'a>, AllocError> {
    let run = Command::new(alloc, "run").about(
        "Runs the script of standard input over a page file, and writes its replies, as: recfile run a.rec < script.txt",
    );
    with_session(alloc, run)?
        .arg(durable_option(alloc)?)?
        .arg(file_word(alloc, "The path of the page file"))
}

fn shell_command<'a>(alloc: Global) -> Result<Command<'a>, AllocError> {
    let shell = Command::new(alloc, "shell").about(
        "Runs lines as they come, and answers each before it waits for more, over a page file or in memory, as: recfile shell a.rec",
    );
    with_session(alloc, shell)?.arg(durable_option(alloc)?)?.arg(Arg::new(alloc, "FILE").help(
        "The path of the page file; without it, an empty file in memory",
    ))
}

fn check_command<'a>(alloc: Global) -> Result<Command<'a>, AllocError> {
    Command::new(alloc, "check")
        .about("Checks a whole page file, and tells of its tree, as: recfile check a.rec")
        .arg(file_word(alloc, "The path of the page file"))
}

fn copy_command<'a>(alloc: Global) -> Result<Command<'a>, AllocError> {
    Command::new(alloc, "copy")
        .about(
            "Checks a whole page file, and makes a copy of it, which the device keeps, as: recfile copy a.rec b.rec",
        )
        .arg(file_word(alloc, "The path of the page file; it is only read"))?
        .arg(
            Arg::new(alloc, "TO")
                .help("The path of the copy; a file that is there is left alone")
                .required(true),
        )
}

fn dump_command<'a>(alloc: Global) -> Result<Command<'a>, AllocError> {
    let tsv = flag(alloc, "tsv", "Write lines of key, tab, record")
        .conflicts_with("csv")?
        .conflicts_with("json")?;
    let csv = flag(
        alloc,
        "csv",
        "Write lines of key, comma, record, each in quotation marks",
    )
    .conflicts_with("json")?;
    let json = flag(
        alloc,
        "json",
        "Write lines of JSON, an object with key and record in each",
    );
    Command::new(alloc, "dump")
        .about(
            "Writes the records of a page file as a script that puts them in one transaction, as: recfile dump a.rec | recfile shell --strict b.rec",
        )
        .arg(tsv)?
        .arg(csv)?
        .arg(json)?
        .arg(file_word(alloc, "The path of the page file"))
}

fn rescue_command<'a>(alloc: Global) -> Result<Command<'a>, AllocError> {
    Command::new(alloc, "rescue")
        .about(
            "Writes the records of the whole pages of a damaged file as dump does, and tells what is left out, as: recfile rescue a.rec > saved.txt",
        )
        .arg(file_word(alloc, "The path of the file; it is only read"))
}

fn load_command<'a>(alloc: Global) -> Result<Command<'a>, AllocError> {
    let csv = flag(alloc, "csv", "Read lines of key, comma, record");
    Command::new(alloc, "load")
        .about(
            "Puts the records of standard input, lines of key, tab, record, into a page file in one transaction: all or none, as: recfile load a.rec < lines.tsv",
        )
        .arg(csv)?
        .arg(records_option(alloc))?
        .arg(file_word(alloc, "The path of the page file"))
}

fn show_command<'a>(alloc: Global) -> Result<Command<'a>, AllocError> {
    Command::new(alloc, "show")
        .about(
            "Draws the tree of a page file, and what is wrong with it, as: recfile show --svg a.rec > a.svg",
        )
        .arg(flag(alloc, "svg", "Draw a picture that a browser shows"))?
        .arg(file_word(alloc, "The path of the file; it is only read"))
}

fn explain_command<'a>(alloc: Global) -> Result<Command<'a>, AllocError> {
    Command::new(alloc, "explain")
        .about(
            "Tells what a file is, field by field, and what is wrong with it, as: recfile explain a.rec",
        )
        .arg(file_word(alloc, "The path of the file; it is only read"))
}

fn memory_command<'a>(alloc: Global) -> Result<Command<'a>, AllocError> {
    let memory = Command::new(alloc, "memory").about(
        "Runs the script of standard input over an empty file in memory, as: recfile memory < script.txt",
    );
    with_session(alloc, memory)
}

// The version of the program, which is that of the library.
const VERSION: &str = "1.0";

// The program with none of its commands.
fn bare_program<'a>(alloc: Global) -> Result<Command<'a>, AllocError> {
    let program = Command::new(alloc, "recfile").bin_name("recfile")?;
    Ok(
        program.version(VERSION).about(
            "A keyed record file under transactions; with no words, the same as memory. The lines of a script: \
begin, put, del, get, claim, save, release, back, resume, abort, commit, list, from, upto, committed, keys, log",
        ),
    )
}

fn with_command<'a>(
    program: Command<'a>,
    command: Result<Command<'a>, AllocError>,
) -> Result<Command<'a>, AllocError> {
    program.subcommand(command?)
}

fn program<'a>(alloc: Global) -> Result<Command<'a>, AllocError> {
    let program = bare_program(alloc)?;
    let program = with_command(program, create_command(alloc))?;
    let program = with_command(program, run_command(alloc))?;
    let program = with_command(program, shell_command(alloc))?;
    let program = with_command(program, check_command(alloc))?;
    let program = with_command(program, copy_command(alloc))?;
    let program = with_command(program, dump_command(alloc))?;
    let program = with_command(program, load_command(alloc))?;
    let program = with_command(program, explain_command(alloc))?;
    let program = with_command(program, show_command(alloc))?;
    let program = with_command(program, rescue_command(alloc))?;
    with_command(program, memory_command(alloc))
}

// The number of an option, or the default where it has none.
fn number_of(found: &ArgMatches<'_>, id: &str, default: u32) -> u32
    ensures { IsRead 32 (one_of id.now (rows_of (found_of found.now))) default result }
{
    found.get_one::<u32>(id).unwrap_or(default)
}

// The limits that were asked for; those that were not are the greatest.
fn limits_of(found: &ArgMatches<'_>) -> Result<Limits, LimitFault>
    ensures { IfOk result (AreAskedLimits (rows_of (found_of found.now))) }
{
    Limits::new(
        number_of(found, "records", MOST_RECORDS),
        number_of(found, "log", MOST_LOG_RECORDS),
        number_of(found, "begins", MOST_BEGINS),
    )
}

// The order that was asked for, or 16.
fn order_of(found: &ArgMatches<'_>) -> u16
    ensures { IsRead 16 (one_of (codes "order") (rows_of (found_of found.now))) 16 result }
{
    found.get_one::<u16>("order").unwrap_or(16)
}

// Whether an option is set.
fn is_set(found: &ArgMatches<'_>, id: &str) -> bool
    ensures { IsFlag (rows_of (found_of found.now)) id.now result }
{
    found.get_flag(id)
}

// The manner of a session that was asked for, whose lines come so.
fn manner_of(found: &ArgMatches<'_>, feed: Feed) -> Manner
    ensures { IsManner (rows_of (found_of found.now)) feed result }
{
    Manner {
        strict: is_set(found, "strict"),
        feed,
    }
}

// The form of a dump that was asked for.
fn form_of(found: &ArgMatches<'_>) -> Option<Form>
    ensures { IsForm (rows_of (found_of found.now)) result }
{
    let (tsv, csv, json) = (
        is_set(found, "tsv"),
        is_set(found, "csv"),
        is_set(found, "json"),
    );
    if tsv {
        Some(Form::Tsv)
    } else if csv {
        Some(Form::Csv)
    } else if json {
        Some(Form::Json)
    } else {
        None
    }
}

// What separates the fields of the lines to be loaded.
fn separator_of(found: &ArgMatches<'_>) -> Separator
    ensures { IsSeparator (rows_of (found_of found.now)) result }
{
    if is_set(found, "csv") {
        Separator::Comma
    } else {
        Separator::Tab
    }
}

// How a tree is to be drawn.
fn drawing_of(found: &ArgMatches<'_>) -> Drawing
    ensures { IsDrawing (rows_of (found_of found.now)) result }
{
    if is_set(found, "svg") {
        Drawing::Picture
    } else {
        Drawing::Lines
    }
}

// A session whose lines come as they are read.
fn shell_of<'a>(found: &ArgMatches<'a>) -> Result<Task<'a>, UsageFault>
    ensures { IfOk result (IsShell (rows_of (found_of found.now))) }
{
    let limits = limits_of(found)?;
    let manner = manner_of(found, Feed::Lines);
    match found.get_str("FILE") {
        Some(path) => Ok(Task::Run {
            limits,
            manner,
            durable: is_set(found, "durable"),
            path,
        }),
        None => Ok(Task::Memory { limits, manner }),
    }
}

// The path of that name that was asked for.
fn path_of<'a>(found: &ArgMatches<'a>, id: &str) -> &'a str
    ensures { result.now ≡ word_in id.now (rows_of (found_of found.now)) }
{
    match found.get_str(id) {
        Some(path) => path,
        None => "",
    }
}

// What a command of this name asks for, in which this was found.
fn named<'a>(name: &str, found: &ArgMatches<'a>) -> Result<Task<'a>, UsageFault>
    ensures { IfOk result (IsNamed name.now (rows_of (found_of found.now))) }
{
    let path = path_of(found, "FILE");
    match name {
        "create" => Ok(Task::Create {
            order: order_of(found),
            path,
        }),
        "run" => Ok(Task::Run {
            limits: limits_of(found)?,
            manner: manner_of(found, Feed::Script),
            durable: is_set(found, "durable"),
            path,
        }),
        "shell" => shell_of(found),
        "check" => Ok(Task::Check { path }),
        "copy" => Ok(Task::Copy {
            path,
            to: path_of(found, "TO"),
        }),
        "dump" => Ok(Task::Dump {
            form: form_of(found),
            path,
        }),
        "rescue" => Ok(Task::Rescue { path }),
        "load" => Ok(Task::Load {
            separator: separator_of(found),
            limits: limits_of(found)?,
            path,
        }),
        "explain" => Ok(Task::Tell {
            telling: Telling::Explanation,
            path,
        }),
        "show" => Ok(Task::Tell {
            telling: Telling::Tree(drawing_of(found)),
            path,
        }),
        _ => Ok(Task::Memory {
            limits: limits_of(found)?,
            manner: manner_of(found, Feed::Script),
        }),
    }
}

// What was asked for: with no command, the same as with memory.
fn task_of<'a>(matches: &ArgMatches<'a>) -> Result<Task<'a>, UsageFault>
    ensures { IfOk result (AsksFor (subcommand_rows_of matches.now)) }
{
    match matches.subcommand() {
        Some((name, found)) => named(name, found),
        None => Ok(Task::Memory {
            limits: greatest_limits(),
            manner: Manner {
                strict: false,
                feed: Feed::Script,
            },
        }),
    }
}

/// What the words ask for; the first is the program's name.
pub fn read_words<'a>(alloc: Global, words: &'a [&'a str]) -> Result<Task<'a>, UsageFault> {
    let matches = program(alloc)?.try_get_matches_from(words)?;
    task_of(&matches)
}
