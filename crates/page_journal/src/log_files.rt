use crate::fresh_side::BEING_MADE;
use crate::kept_side::no_such_call;
use crate::opening_fault::OpeningFault;
use file_system::{FileFacts, FileKind, System, SystemFile};
use std::io;
use std::os::unix::fs::FileExt;

/// How many zeros are written at a time.
const ZEROS: usize = 4096;

/// What a log of commits begins with.
pub(crate) const LOG_START: [u8; 8] = *b"commits ";

/// The logs of commits beside a file: one that is being made, and the one that has the name that an opening looks for.
#[derive(Drop)]
pub(crate) struct LogFiles<F> {
    fresh: Option<F>,
    log: Option<F>,
}

// Writes so many zeros from a place on.
fn write_zeros<F: SystemFile>(file: &F, at: u64, n: usize) -> io::Result<()> {
    let zeros = [0; ZEROS];
    let mut at = at;
    for _ in 0..n / ZEROS {
        file.write_all_at(&zeros, at)?;
        at = at.saturating_add(ZEROS as u64);
    }
    file.write_all_at(&zeros[..n % ZEROS], at)
}

// Gives a new file the owner of the file that was found, as far as the system does that, these bytes and so many zeros.
fn fill<H: System<File = F>, F: SystemFile>(
    rt: &H,
    name: &str,
    found: &FileFacts,
    file: &F,
    head: &[u8],
    room: usize,
) -> io::Result<()> {
    let made = file.facts()?;
    if made.owner != found.owner || made.group != found.group {
        let _ = rt.set_owner(name, found.owner, found.group);
    }
    file.write_all_at(head, 0)?;
    write_zeros(file, head.len() as u64, room)
}

/// What has the name of a log, where something has it. Faults: Device; BadCommits, where it is no regular file.
pub(crate) fn log_facts<H: System>(rt: &H, name: &str) -> Result<Option<FileFacts>, OpeningFault> {
    match rt.facts_here(name) {
        Ok(found) if found.kind == FileKind::File => Ok(Some(found)),
        Ok(_) => Err(OpeningFault::BadCommits),
        Err(error) if error.kind() == io::ErrorKind::NotFound => Ok(None),
        Err(_) => Err(OpeningFault::Device),
    }
}

// Hands a file on that was opened by the name of a log. It fails where the name led to another.
fn expect_same<F: SystemFile + Drop>(file: F, found: &FileFacts) -> io::Result<F> {
    if file.facts()?.is_same_file(found) {
        Ok(file)
    } else {
        Err(no_such_call())
    }
}

impl<F: SystemFile + Drop> LogFiles<F> {
    /// Opens the log of that name, where there is one, to read and write it, beside a file of that mode. One that a stop left
    /// with the mode of its making gets that of the file. Faults: Device; BadCommits, where it is no regular file.
    pub(crate) fn open<H: System<File = F>>(
        rt: &H,
        name: &str,
        mode: u32,
    ) -> Result<LogFiles<F>, OpeningFault> {
        let Some(found) = log_facts(rt, name)? else {
            return Ok(LogFiles::new());
        };
        if found.mode == BEING_MADE {
            rt.set_mode(name, mode)?;
        }
        let log = expect_same(rt.open_update(name)?, &found)?;
        Ok(LogFiles {
            fresh: None,
            log: Some(log),
        })
    }

    /// Opens it to read it, and changes nothing. Faults as of `open`.
    pub(crate) fn look<H: System<File = F>>(
        rt: &H,
        name: &str,
    ) -> Result<LogFiles<F>, OpeningFault> {
        let Some(found) = log_facts(rt, name)? else {
            return Ok(LogFiles::new());
        };
        let log = expect_same(rt.open_read(name)?, &found)?;
        Ok(LogFiles {
            fresh: None,
            log: Some(log),
        })
    }

    /// Whether a log has the name that an opening looks for.
    pub(crate) fn is_some(&self) -> bool {
        self.log.is_some()
    }

    /// None.
    pub(crate) fn new() -> LogFiles<F> {
        LogFiles {
            fresh: None,
            log: None,
        }
    }

    /// Makes a file of that name, where there is none, for a log of a file that was found to be so, with these bytes and so
    /// many zeros behind them. Where they can't be written it is removed.
    pub(crate) fn start<H: System<File = F>>(
        &mut self,
        rt: &H,
        name: &str,
        found: &FileFacts,
        head: &[u8],
        room: usize,
    ) -> io::Result<()> {
        let file = rt.make_new(name, BEING_MADE)?;
        if let Err(error) = fill(rt, name, found, &file, head, room) {
            let _ = rt.remove(name);
            return Err(error);
        }
        self.fresh = Some(file);
        Ok(())
    }

    /// Has the device keep it, which gets that mode then.
    pub(crate) fn finish(&mut self, mode: u32) -> io::Result<()> {
        match &self.fresh {
            Some(file) => {
                file.sync_all()?;
                file.set_mode(mode)
            }
            None => Err(no_such_call()),
        }
    }

    /// Hands it out, to get the other name.
    pub(crate) fn take_made(&mut self) -> io::Result<F> {
        match self.fresh.take() {
            Some(file) => Ok(file),
            None => Err(no_such_call()),
        }
    }

    /// Has this file, which has the name that an opening looks for.
    pub(crate) fn put(&mut self, file: F) {
        self.log = Some(file);
    }

    /// Which file the log is.
    pub(crate) fn facts(&self) -> io::Result<FileFacts> {
        match &self.log {
            Some(file) => file.facts(),
            None => Err(no_such_call()),
        }
    }

    /// Makes the log so many zeros from a place on. Where that fails the log ends at the place, as far as the system does that:
    /// zeros that were written would take the room that a closing needs.
    pub(crate) fn lengthen(&mut self, at: usize, n: usize) -> io::Result<()> {
        match &self.log {
            Some(file) => {
                file.set_len(at as u64)?;
                let answer = write_zeros(file, at as u64, n);
                if answer.is_err() {
                    let _ = file.set_len(at as u64);
                }
                answer
            }
            None => Err(no_such_call()),
        }
    }

    /// Writes over what stands at a place of it.
    pub(crate) fn write(&mut self, at: usize, bytes: &[u8]) -> io::Result<()> {
        match &self.log {
            Some(file) => file.write_all_at(bytes, at as u64),
            None => Err(no_such_call()),
        }
    }

    /// Has the device keep it.
    pub(crate) fn sync(&mut self) -> io::Result<()> {
        match &self.log {
            Some(file) => file.sync_data(),
            None => Err(no_such_call()),
        }
    }

    /// The same, where there is one.
    pub(crate) fn settle(&self) -> io::Result<()> {
        match &self.log {
            Some(file) => file.sync_all(),
            None => Ok(()),
        }
    }

    /// How many bytes it has, where there is one.
    pub(crate) fn length(&self) -> io::Result<Option<u64>> {
        match &self.log {
            Some(file) => Ok(Some(file.facts()?.len)),
            None => Ok(None),
        }
    }

    /// Reads bytes of it from a place on, as many as there is room for.
    pub(crate) fn read(&self, at: usize, to: &mut [u8]) -> io::Result<()> {
        match &self.log {
            Some(file) => file.read_exact_at(to, at as u64),
            None => Err(no_such_call()),
        }
    }
}
