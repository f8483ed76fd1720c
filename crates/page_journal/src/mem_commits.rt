ghost use Rattle.std.specs.Prelude.{◌≡◌, ◌++◌, [], option_map, IsTrue, IfOk, IfErr, OnOk};
ghost use Rattle.commit_paper.specs.Text.{zeros};
ghost use Rattle.page_journal.specs.Files.{no_commits};
ghost use Rattle.page_journal.specs.Steps.{bytes_over, zeroed};
ghost use Rattle.page_journal.specs.History.{commits_done, StaysOnErr};
ghost use Rattle.page_journal.specs.Fates.{commits_torn, CommitsAgree};
ghost use Rattle.page_journal.specs.declared.commit_call.CommitCall.{CommitCall};

use crate::commit_call::CommitCall;
use rec_types::Memory;
use std::alloc::Global;
use std::marker::Model;
use std::mem;

/// Bytes, and so many zeros behind them. Fault: Memory.
pub(crate) fn zeros_behind(alloc: Global, bytes: &[u8], room: usize) -> Result<Vec<u8>, Memory>
    ensures { IfOk result (λ all. all.items ≡ bytes.now ++ zeros room) }
{
    let Some(long) = bytes.len().checked_add(room) else {
        return Err(Memory);
    };
    let mut all = bytes.to_vec(alloc)?;
    all.resize(long, 0)?;
    Ok(all)
}

/// The bytes of a log of commits.
#[derive(Drop)]
pub(crate) struct LogBytes {
    pub(crate) bytes: Vec<u8>,
    alloc: Global,
}

impl Model for LogBytes {
    ghost use Rattle.std.specs.Prelude.{List, ℕ};

    ghost Value = { List ℕ };

    ghost view = { λ b. b.bytes.items };
}

impl LogBytes {
    fn new(alloc: Global) -> LogBytes
        ensures { result ≡ [] }
    {
        LogBytes {
            bytes: Vec::new(alloc),
            alloc,
        }
    }

    /// These bytes again. Fault: Memory.
    fn of(alloc: Global, bytes: &[u8]) -> Result<LogBytes, Memory>
        ensures { IfOk result (λ log. log ≡ bytes.now) }
    {
        let bytes = bytes.to_vec(alloc)?;
        Ok(LogBytes { bytes, alloc })
    }

    /// So many zeros from a place on. Fault: Memory.
    fn zeroed(&self, at: usize, n: usize) -> Result<LogBytes, Memory>
        ensures { IfOk result (λ log. log ≡ zeroed at n self.now) }
    {
        let start = at.min(self.bytes.len());
        let bytes = zeros_behind(self.alloc, &self.bytes[..start], n)?;
        Ok(LogBytes {
            bytes,
            alloc: self.alloc,
        })
    }

    /// These bytes over what stands at a place, where they lie if there is room. Where there is no memory, all comes back as
    /// it was.
    fn put(self, at: usize, bytes: &[u8]) -> Result<LogBytes, LogBytes>
        ensures ok { IfOk result (λ log. log ≡ bytes_over at bytes.now self) }
        ensures err { IfErr result (λ log. log ≡ self) }
    {
        let mut log = self;
        let long = log.bytes.len();
        if at <= long && bytes.len() <= long - at {
            log.bytes[at..at + bytes.len()].copy_from_slice(bytes);
            return Ok(log);
        }
        match log.written(at, bytes) {
            Ok(next) => Ok(next),
            Err(_) => Err(log),
        }
    }

    /// These bytes over what stands at a place. Fault: Memory.
    fn written(&self, at: usize, bytes: &[u8]) -> Result<LogBytes, Memory>
        ensures { IfOk result (λ log. log ≡ bytes_over at bytes.now self.now) }
    {
        let start = at.min(self.bytes.len());
        let end = at.saturating_add(bytes.len()).min(self.bytes.len());
        let mut next = self.bytes[..start].to_vec(self.alloc)?;
        next.extend_from_slice(bytes)?;
        next.extend_from_slice(&self.bytes[end..])?;
        Ok(LogBytes {
            bytes: next,
            alloc: self.alloc,
        })
    }
}

/// The logs of commits of a disk in memory.
#[derive(Drop)]
pub(crate) struct MemCommits {
    pub(crate) fresh: LogBytes,
    pub(crate) log: Option<LogBytes>,
    alloc: Global,
}

impl Model for MemCommits {
    ghost use Rattle.page_journal.specs.Files.{CommitFiles};

    ghost Value = { CommitFiles };

    ghost view = { λ c. record { fresh = c.fresh; log = c.log } };
}

impl MemCommits {
    /// None.
    pub(crate) fn new(alloc: Global) -> MemCommits
        ensures { result ≡ no_commits }
    {
        MemCommits {
            fresh: LogBytes::new(alloc),
            log: None,
            alloc,
        }
    }

    /// The log of these bytes, or none.
    pub(crate) fn over(alloc: Global, log: Option<Vec<u8>>) -> MemCommits
        ensures { result ≡ record { fresh = []; log = option_map (λ bytes. bytes.items) log } }
    {
        match log {
            Some(bytes) => MemCommits {
                fresh: LogBytes::new(alloc),
                log: Some(LogBytes { bytes, alloc }),
                alloc,
            },
            None => MemCommits {
                fresh: LogBytes::new(alloc),
                log: None,
                alloc,
            },
        }
    }

    /// The same again. Fault: Memory.
    pub(crate) fn copy(&self) -> Result<MemCommits, Memory>
        ensures { IfOk result (λ commits. commits ≡ self.now) }
    {
        let log = match &self.log {
            Some(log) => Some(LogBytes::of(self.alloc, &log.bytes)?),
            None => None,
        };
        Ok(MemCommits {
            fresh: LogBytes::of(self.alloc, &self.fresh.bytes)?,
            log,
            alloc: self.alloc,
        })
    }

    /// Carries a call out. Fault: Memory; nothing has changed then.
    pub(crate) fn carry_out(&mut self, call: &CommitCall) -> Result<(), Memory>
        ensures ok { OnOk result (self.new ≡ commits_done call.now self.old) }
        ensures err { StaysOnErr result self.old self.new }
    {
        match call {
            CommitCall::Start(bytes) => self.start(bytes)?,
            CommitCall::Name => self.name(),
            CommitCall::Remove => self.log = None,
            CommitCall::Lengthen(at, n) => self.lengthen(*at, *n)?,
            CommitCall::Write(at, bytes) => self.write(*at, bytes)?,
            CommitCall::SyncFresh | CommitCall::Sync => {}
        }
        Ok(())
    }

    /// Carries a torn call out. Fault: Memory.
    pub(crate) fn tear(&mut self, call: &CommitCall) -> Result<(), Memory>
        ensures { OnOk result (self.new ≡ commits_torn call.now self.old) }
    {
        match call {
            CommitCall::Start(_) => self.fresh = LogBytes::new(self.alloc),
            CommitCall::Write(at, bytes) => {
                self.write(*at, &bytes[..bytes.len().saturating_sub(1)])?;
            }
            CommitCall::Name | CommitCall::Remove | CommitCall::Lengthen(..) => {}
            CommitCall::SyncFresh | CommitCall::Sync => {}
        }
        Ok(())
    }

    /// Whether a sync of a log, where the call is one, lets a crash leave these where reads see `seen`.
    pub(crate) fn agree(&self, call: &CommitCall, seen: &MemCommits) -> bool
        ensures agree { IsTrue result → CommitsAgree call.now seen.now self.now }
        ensures done { commits_done call.now self.now ≡ seen.now → IsTrue result }
    {
        match call {
            CommitCall::SyncFresh => self.fresh.bytes == seen.fresh.bytes,
            CommitCall::Sync => match (&self.log, &seen.log) {
                (Some(log), Some(found)) => log.bytes == found.bytes,
                (None, _) => true,
                (Some(_), None) => false,
            },
            _ => true,
        }
    }

    // Begins a log with these bytes. Fault: Memory; nothing has changed then.
    fn start(&mut self, bytes: &[u8]) -> Result<(), Memory>
        ensures ok { OnOk result (self.new ≡ record self.old { fresh = bytes.now }) }
        ensures err { StaysOnErr result self.old self.new }
    {
        self.fresh = LogBytes::of(self.alloc, bytes)?;
        Ok(())
    }

    // Gives the log that was made the name that an opening looks for.
    fn name(&mut self)
        ensures { self.new ≡ commits_done CommitCall.Name self.old }
    {
        self.log = Some(mem::replace(&mut self.fresh, LogBytes::new(self.alloc)));
    }

    // Makes the log of that name so many zeros from a place on. Fault: Memory; nothing has changed then.
    fn lengthen(&mut self, at: usize, n: usize) -> Result<(), Memory>
        ensures ok { OnOk result (self.new ≡ record self.old { log = option_map (zeroed at n) self.old.log }) }
        ensures err { StaysOnErr result self.old self.new }
    {
        if let Some(log) = &self.log {
            self.log = Some(log.zeroed(at, n)?);
        }
        Ok(())
    }

    // Writes over what stands at a place of it. Fault: Memory; nothing has changed then.
    fn write(&mut self, at: usize, bytes: &[u8]) -> Result<(), Memory>
        ensures ok { OnOk result (self.new ≡ record self.old { log = option_map (bytes_over at bytes.now) self.old.log }) }
        ensures err { StaysOnErr result self.old self.new }
    {
        match mem::replace(&mut self.log, None) {
            None => Ok(()),
            Some(log) => match log.put(at, bytes) {
                Ok(next) => {
                    self.log = Some(next);
                    Ok(())
                }
                Err(same) => {
                    self.log = Some(same);
                    Err(Memory)
                }
            },
        }
    }
}
