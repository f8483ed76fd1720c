ghost use Rattle.std.specs.Prelude.{◌≡◌, ◌<◌, IsTrue, IfOk, OnOk, OnErr};
ghost use Rattle.rec_types.specs.Widths.{page_width};
ghost use Rattle.page_journal.specs.Steps.{nothing_kept, begun, kept_more};
ghost use Rattle.page_journal.specs.History.{done};
ghost use Rattle.page_journal.specs.Fates.{grown, torn, synced_by, fated, NamesAgree};
ghost use Rattle.page_journal.specs.declared.disk_call.DiskCall.{DiskCall};

use crate::blank::{blank_page, noise_page};
use crate::disk_call::DiskCall;
use crate::fate::Fate;
use crate::mem_commits::MemCommits;
use rec_types::{Memory, PAGE_WIDTH};
use std::alloc::Global;
use std::marker::Model;
use std::mem;

/// These pages again. Fault: Memory.
pub(crate) fn copy_of_pages(
    alloc: Global,
    pages: &[[u8; PAGE_WIDTH]],
) -> Result<Vec<[u8; PAGE_WIDTH]>, Memory>
    ensures { IfOk result (λ copy. copy.items ≡ pages.now) }
{
    Ok(pages.to_vec(alloc)?)
}

// These numbered pages again. Fault: Memory.
fn copy_of(
    alloc: Global,
    pages: &[(u32, [u8; PAGE_WIDTH])],
) -> Result<Vec<(u32, [u8; PAGE_WIDTH])>, Memory>
    ensures { IfOk result (λ copy. copy.items ≡ pages.now) }
{
    Ok(pages.to_vec(alloc)?)
}

/// Old pages of a file with their numbers, how long the file was, and the sum over its other pages, where it is known.
#[derive(Drop)]
pub(crate) struct OldPages {
    pub(crate) long: u32,
    pub(crate) rest: Option<u64>,
    pub(crate) pages: Vec<(u32, [u8; PAGE_WIDTH])>,
}

impl Model for OldPages {
    ghost use Rattle.page_journal.specs.Files.{SideFile};

    ghost Value = { SideFile };

    ghost view = { λ k. record { long = k.long; rest = k.rest; pages = k.pages.items } };
}

impl OldPages {
    /// None of a file of so many pages.
    pub(crate) fn new(alloc: Global, long: u32) -> OldPages
        ensures { result ≡ nothing_kept long }
    {
        OldPages {
            long,
            rest: None,
            pages: Vec::new(alloc),
        }
    }

    /// None yet of a file of so many pages, of which the others have that sum.
    fn begun(alloc: Global, long: u32, rest: u64) -> OldPages
        ensures { result ≡ begun long rest }
    {
        OldPages {
            long,
            rest: Some(rest),
            pages: Vec::new(alloc),
        }
    }

    /// The same pages again. Fault: Memory.
    fn copy(&self, alloc: Global) -> Result<OldPages, Memory>
        ensures { IfOk result (λ kept. kept ≡ self.now) }
    {
        Ok(OldPages {
            long: self.long,
            rest: self.rest,
            pages: copy_of(alloc, &self.pages)?,
        })
    }
}

/// The files of a disk in memory.
#[derive(Drop)]
pub(crate) struct MemFiles {
    pub(crate) pages: Vec<[u8; PAGE_WIDTH]>,
    pub(crate) tail: u16,
    pub(crate) fresh: OldPages,
    pub(crate) side: Option<OldPages>,
    pub(crate) commits: MemCommits,
    pub(crate) alloc: Global,
}

impl Model for MemFiles {
    ghost use Rattle.std.specs.Prelude.{◌<◌};
    ghost use Rattle.rec_types.specs.Widths.{page_width};
    ghost use Rattle.page_journal.specs.Files.{Files};

    ghost Value = { Files };

    ghost view = { λ f. record {
      main = record { pages = f.pages.items; tail = f.tail };
      fresh = f.fresh;
      side = f.side;
      commits = f.commits;
    } };

    ghost invariant = { λ f. f.tail < page_width };
}

impl MemFiles {
    /// Carries a call out. Fault: Memory; nothing has changed then.
    pub(crate) fn carry_out(&mut self, call: &DiskCall) -> Result<(), Memory>
        ensures ok { OnOk result (self.new ≡ done call.now self.old) }
        ensures err { OnErr result (self.new ≡ self.old) }
    {
        match call {
            DiskCall::Write(n, page) => self.put(*n, *page),
            DiskCall::Grow(n) => self.grow(*n, &blank_page())?,
            DiskCall::Cut(n) => self.cut(*n),
            DiskCall::Start(long, rest) => self.fresh = OldPages::begun(self.alloc, *long, *rest),
            DiskCall::Keep(n, page) => self.fresh.pages.push((*n, *page))?,
            DiskCall::Name => self.name(),
            DiskCall::Remove => self.side = None,
            DiskCall::Commits(call) => self.commits.carry_out(call)?,
            DiskCall::Sync | DiskCall::SyncFresh | DiskCall::SyncNames => {}
        }
        Ok(())
    }

    // Puts a page in the place of page n, where there is one.
    fn put(&mut self, n: u32, page: [u8; PAGE_WIDTH])
        ensures { self.new ≡ done (DiskCall.Write n page) self.old }
    {
        let at = n as usize;
        if at < self.pages.len() {
            self.pages[at] = page;
        }
    }

    // Adds such pages up to n pages, and cuts the tail off. Fault: Memory; nothing has changed then.
    fn grow(&mut self, n: u32, page: &[u8; PAGE_WIDTH]) -> Result<(), Memory>
        ensures ok { OnOk result (self.new ≡ grown n page.now self.old) }
        ensures err { OnErr result (self.new ≡ self.old) }
    {
        let long = n as usize;
        if self.pages.len() < long {
            self.pages.resize(long, *page)?;
        }
        self.tail = 0;
        Ok(())
    }

    // Leaves out the pages from n on.
    fn cut(&mut self, n: u32)
        ensures { self.new ≡ done (DiskCall.Cut n) self.old }
    {
        self.pages.truncate(n as usize);
        self.tail = 0;
    }

    // Gives the side file that was made the name that an opening looks for.
    fn name(&mut self)
        ensures { self.new ≡ done DiskCall.Name self.old }
    {
        self.side = Some(mem::replace(&mut self.fresh, OldPages::new(self.alloc, 0)));
    }

    /// The same files again. Fault: Memory.
    pub(crate) fn copy(&self) -> Result<MemFiles, Memory>
        ensures { IfOk result (λ f. f ≡ self.now) }
    {
        let side = match &self.side {
            Some(kept) => Some(kept.copy(self.alloc)?),
            None => None,
        };
        Ok(MemFiles {
            pages: copy_of_pages(self.alloc, &self.pages)?,
            tail: self.tail,
            fresh: self.fresh.copy(self.alloc)?,
            side,
            commits: self.commits.copy()?,
            alloc: self.alloc,
        })
    }

    /// Becomes what a crash leaves behind a call of that fate, where it would have left these files before it and
    /// reads see `seen` after it. Fault: Memory.
    pub(crate) fn suffer(
        &mut self,
        call: &DiskCall,
        fate: Fate,
        seen: &MemFiles,
    ) -> Result<(), Memory>
        ensures { OnOk result (self.new ≡ fated call.now fate seen.now self.old) }
    {
        match fate {
            Fate::Done => self.carry_out(call)?,
            Fate::Lost => {}
            Fate::Torn => self.tear(call)?,
        }
        self.keep_part(call, seen)
    }

    // Carries a torn call out. Fault: Memory.
    fn tear(&mut self, call: &DiskCall) -> Result<(), Memory>
        ensures { OnOk result (self.new ≡ torn call.now self.old) }
    {
        match call {
            DiskCall::Write(n, _) => self.put(*n, noise_page()),
            DiskCall::Grow(n) => self.grow(*n, &noise_page())?,
            DiskCall::Start(..) => self.fresh = OldPages::new(self.alloc, 0),
            DiskCall::Keep(n, _) => self.fresh.pages.push((*n, noise_page()))?,
            DiskCall::Commits(call) => self.commits.tear(call)?,
            DiskCall::Cut(_) | DiskCall::Name | DiskCall::Remove => {}
            DiskCall::Sync | DiskCall::SyncFresh | DiskCall::SyncNames => {}
        }
        Ok(())
    }

    // Takes the part that a sync keeps from what is seen. Fault: Memory.
    fn keep_part(&mut self, call: &DiskCall, seen: &MemFiles) -> Result<(), Memory>
        ensures { OnOk result (self.new ≡ synced_by call.now seen.now self.old) }
    {
        match call {
            DiskCall::Sync => {
                self.pages = copy_of_pages(self.alloc, &seen.pages)?;
                self.tail = seen.tail;
            }
            DiskCall::SyncFresh => self.fresh = seen.fresh.copy(self.alloc)?,
            DiskCall::Write(..) | DiskCall::Grow(_) | DiskCall::Cut(_) => {}
            DiskCall::Start(..) | DiskCall::Keep(..) => {}
            DiskCall::Name | DiskCall::Remove | DiskCall::SyncNames | DiskCall::Commits(_) => {}
        }
        Ok(())
    }

    /// Whether a sync of the names or of a log, where the call is one, lets a crash leave these files where reads see `seen`.
    pub(crate) fn names_agree(&self, call: &DiskCall, seen: &MemFiles) -> bool
        ensures agree { IsTrue result → NamesAgree call.now seen.now self.now }
        ensures done { done call.now self.now ≡ seen.now → IsTrue result }
    {
        match call {
            DiskCall::SyncNames => {
                self.side.is_some() == seen.side.is_some()
                    && self.commits.log.is_some() == seen.commits.log.is_some()
            }
            DiskCall::Commits(call) => self.commits.agree(call, &seen.commits),
            _ => true,
        }
    }
}
