use page_journal::LogBeside;
use std::alloc::{AllocError, Global};
use std::fmt::Write;

// What the first line of a log of commits of the known version begins with.
const HEAD: &str = "commits 1 ";

/// What a log of commits says of itself.
#[derive(Clone, Copy)]
pub(crate) struct LogHead {
    /// Whether its session began over the pages that the file has.
    pub(crate) is_over: bool,
    /// How many commits are in it.
    pub(crate) commits: usize,
}

// The first line of a log that is begun over the file that one stands beside; of a file of too many pages no line.
fn line_over(alloc: Global, log: &LogBeside) -> Result<String, AllocError> {
    let mut line = String::new(alloc);
    if let Some(sum) = log.sum {
        write!(line, "{HEAD}{} {sum}", log.pages)?;
    }
    Ok(line)
}

impl LogHead {
    /// That of a log; none where it isn't one of a known version. Fault: out of memory.
    pub(crate) fn of(alloc: Global, log: &LogBeside) -> Result<Option<LogHead>, AllocError> {
        let mut lines = log.text.split(|byte| *byte == b'\n');
        let line = lines.next().unwrap_or(&[]);
        if !line.starts_with(HEAD.as_bytes()) {
            return Ok(None);
        }
        let is_over = line == line_over(alloc, log)?.as_bytes();
        let commits = lines.filter(|line| line.starts_with(b"c")).count();
        Ok(Some(LogHead { is_over, commits }))
    }
}
