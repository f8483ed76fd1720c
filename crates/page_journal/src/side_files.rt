ghost use Rattle.std.specs.Prelude.{◌≡◌, ◌≤◌, None, IfOk, IfSome};
ghost use Rattle.std.specs.Option.{option_map};
ghost use Rattle.file_system.specs.Facts.{IsAlone, IsSameFile};

use crate::fresh_side::{BEING_MADE, FreshSide};
use crate::kept_side::{KeptSide, no_such_call};
use crate::log_files::{LOG_START, LogFiles, log_facts};
use crate::opening_fault::OpeningFault;
use crate::side_bytes::SIDE_START;
use crate::side_names::SideNames;
use crate::side_shape::SideShape;
use file_system::{ChangeTime, FileFacts, FileKind, System, SystemFile};
use rec_types::PAGE_WIDTH;
use std::io;
use std::os::unix::fs::FileExt;

/// What stands beside a file: a side file that is being made, one that has the name that an opening looks for, and the
/// folder that they are in.
#[derive(Drop)]
pub(crate) struct SideFiles<H, F> {
    rt: H,
    names: SideNames,
    folder: F,
    /// What the file was when it was opened.
    opened: FileFacts,
    fresh: Option<FreshSide<F>>,
    side: Option<KeptSide<F>>,
    logs: LogFiles<F>,
    /// The last change of the folder's names after which they were seen to lead to the file and its log.
    looked: Option<ChangeTime>,
}

// Fails where the name leads to another file than that which was opened, or that has another name, too: under each of two
// names a side file would stand that the other doesn't know.
fn expect_alone<H: System>(rt: &H, name: &str, opened: &FileFacts) -> io::Result<FileFacts>
    ensures { IfOk result (λ found. IsAlone opened.now found) }
{
    let found = rt.facts_of(name)?;
    if found.is_same_file(opened) && found.links == 1 {
        Ok(found)
    } else {
        Err(no_such_call())
    }
}

// Fails where something has that name.
fn expect_free<H: System>(rt: &H, name: &str) -> io::Result<()> {
    match rt.facts_here(name) {
        Err(error) if error.kind() == io::ErrorKind::NotFound => Ok(()),
        Err(error) => Err(error),
        Ok(_) => Err(no_such_call()),
    }
}

// Fails where something else has that name than the file of which these are known: who has a name isn't looked at as long as
// a file is open.
fn expect_own<H: System>(rt: &H, name: &str, own: &FileFacts) -> io::Result<FileFacts>
    ensures { IfOk result (λ found. IsSameFile found own.now) }
{
    let found = rt.facts_here(name)?;
    if found.is_same_file(own) {
        Ok(found)
    } else {
        Err(no_such_call())
    }
}

// What is known before a file beside the one that was opened gets its name: what the path leads to, and what has the name of
// its making.
#[derive(Clone, Copy)]
struct Found {
    main: FileFacts,
    made: FileFacts,
}

// Gives a file that was made beside the one that was opened the name that an opening looks for.
fn give_name<H: System>(
    rt: &H,
    made: &str,
    name: &str,
    opened: &FileFacts,
    own: &FileFacts,
    found: &Found,
) -> io::Result<()>
    requires main { IsAlone opened.now found.now.main }
    requires own { IsSameFile found.now.made own.now }
{
    rt.rename(made, name)
}

// Takes the name of a file away that was found to have it.
fn take_name<H: System>(rt: &H, name: &str, own: &FileFacts, found: &FileFacts) -> io::Result<()>
    requires { IsSameFile found.now own.now }
{
    rt.remove(name)
}

// Whether what has that name may have been left by a stop while it was being made: it is empty, nobody may open it, or it
// begins so.
fn may_be_left<H: System>(
    rt: &H,
    name: &str,
    found: &FileFacts,
    start: &[u8; 8],
) -> io::Result<bool> {
    if found.kind != FileKind::File {
        return Ok(false);
    }
    if found.len == 0 || found.mode == BEING_MADE {
        return Ok(true);
    }
    if found.len < 8 {
        return Ok(false);
    }
    let mut bytes = [0; 8];
    rt.open_read(name)?.read_exact_at(&mut bytes, 0)?;
    Ok(bytes == *start)
}

// Whether a stop left something of that name while it was being made, which begins so. Faults: Device; this one, where
// something else has the name.
fn is_left<H: System>(
    rt: &H,
    name: &str,
    start: &[u8; 8],
    other: OpeningFault,
) -> Result<bool, OpeningFault> {
    let found = match rt.facts_here(name) {
        Ok(found) => found,
        Err(error) if error.kind() == io::ErrorKind::NotFound => return Ok(false),
        Err(_) => return Err(OpeningFault::Device),
    };
    if !may_be_left(rt, name, &found, start)? {
        return Err(other);
    }
    Ok(true)
}

// Whether a stop left a log of commits while it was being made. Faults: Device; BadCommits, where something else has the name
// of one.
fn is_log_left<H: System>(rt: &H, names: &SideNames) -> Result<bool, OpeningFault> {
    log_facts(rt, names.log.as_str())?;
    is_left(
        rt,
        names.fresh_log.as_str(),
        &LOG_START,
        OpeningFault::BadCommits,
    )
}

// Makes a file of a name that nothing has, and takes it away again.
fn try_making<H: System>(rt: &H, name: &str) -> io::Result<()> {
    rt.make_new(name, BEING_MADE)?;
    rt.remove(name)
}

impl<H: System<File = F> + Drop, F: SystemFile + Drop> SideFiles<H, F> {
    /// Looks at what stands beside a file of so many pages: opens the side file that has the name, and removes one, or a log of
    /// commits, that was being made. What a closing will need is tried: to make a file beside it. Faults: Device;
    /// BadCommits and BadJournal, where nothing has changed.
    pub(crate) fn open(
        rt: H,
        names: SideNames,
        opened: FileFacts,
        pages: u64,
    ) -> Result<SideFiles<H, F>, OpeningFault>
        ensures { IfOk result (λ beside. IfSome beside.side (λ side. side.shape.long ≤ pages)) }
    {
        expect_alone(&rt, names.main.as_str(), &opened)?;
        let log_left = is_log_left(&rt, &names)?;
        let fresh = names.fresh.as_str();
        let side = KeptSide::open(&rt, names.side.as_str(), opened.mode, pages)?;
        if is_left(&rt, fresh, &SIDE_START, OpeningFault::BadJournal)? {
            rt.remove(fresh)?;
        }
        let logs = LogFiles::open(&rt, names.log.as_str(), opened.mode)?;
        if log_left {
            rt.remove(names.fresh_log.as_str())?;
        }
        let folder = rt.open_folder(names.folder.as_str())?;
        try_making(&rt, fresh)?;
        Ok(SideFiles {
            rt,
            names,
            folder,
            opened,
            fresh: None,
            side,
            logs,
            looked: None,
        })
    }

    /// Looks at the side file beside a file of so many pages, and changes nothing. Faults: Device; BadJournal.
    pub(crate) fn look(
        rt: H,
        names: SideNames,
        opened: FileFacts,
        pages: u64,
    ) -> Result<SideFiles<H, F>, OpeningFault>
        ensures { IfOk result (λ beside. IfSome beside.side (λ side. side.shape.long ≤ pages)) }
    {
        let side = KeptSide::look(&rt, names.side.as_str(), pages)?;
        let folder = rt.open_folder(names.folder.as_str())?;
        Ok(SideFiles {
            rt,
            names,
            folder,
            opened,
            fresh: None,
            side,
            logs: LogFiles::new(),
            looked: None,
        })
    }

    /// Looks at the log of commits beside a file, and changes nothing. Faults: Device; BadCommits.
    pub(crate) fn look_at_log(
        rt: H,
        names: SideNames,
        opened: FileFacts,
    ) -> Result<SideFiles<H, F>, OpeningFault>
        ensures { IfOk result (λ beside. beside.side ≡ None) }
    {
        let logs = LogFiles::look(&rt, names.log.as_str())?;
        let folder = rt.open_folder(names.folder.as_str())?;
        Ok(SideFiles {
            rt,
            names,
            folder,
            opened,
            fresh: None,
            side: None,
            logs,
            looked: None,
        })
    }

    /// Whether a side file or a log of commits has the name that an opening looks for.
    pub(crate) fn is_some(&self) -> bool {
        self.side.is_some() || self.logs.is_some()
    }

    // Fails where the path leads to another file than that which was opened, or the file has another name, too.
    fn still_leads(&self) -> io::Result<FileFacts>
        ensures { IfOk result (λ found. IsAlone self.now.opened found) }
    {
        expect_alone(&self.rt, self.names.main.as_str(), &self.opened)
    }

    /// Has the device keep the log of commits, where there is one, and the names in the folder.
    pub(crate) fn settle(&self) -> io::Result<()> {
        self.logs.settle()?;
        self.folder.sync_all()
    }

    /// Has the device keep the names in the folder.
    pub(crate) fn sync_names(&self) -> io::Result<()> {
        self.folder.sync_all()
    }

    /// Begins a side file for the old pages of a file of so many, of which the others have that sum, where the path still
    /// leads to the file.
    pub(crate) fn start(&mut self, long: u32, rest: u64) -> io::Result<()> {
        let found = self.still_leads()?;
        let name = self.names.fresh.as_str();
        let fresh = FreshSide::create(&self.rt, name, &self.opened, &found, long, rest)?;
        self.fresh = Some(fresh);
        Ok(())
    }

    /// Adds an old page to it. Where that fails, it is removed.
    pub(crate) fn keep(&mut self, n: u32, page: &[u8; PAGE_WIDTH]) -> io::Result<()> {
        let answer = match &mut self.fresh {
            Some(fresh) => fresh.keep(n, page),
            None => Err(no_such_call()),
        };
        self.left(answer)
    }

    /// Has the device keep it. Where that fails, it is removed.
    pub(crate) fn finish(&mut self) -> io::Result<()> {
        let answer = match &mut self.fresh {
            Some(fresh) => fresh.finish(self.opened.mode),
            None => Err(no_such_call()),
        };
        self.left(answer)
    }

    /// Gives it the name that an opening looks for, where the path still leads to the file and nothing has that name. Where
    /// that fails, it is removed.
    pub(crate) fn name(&mut self) -> io::Result<()> {
        let answer = self.rename();
        self.left(answer)
    }

    // Gives the side file that is being made the other name.
    fn rename(&mut self) -> io::Result<()> {
        let Some(fresh) = self.fresh.take() else {
            return Err(no_such_call());
        };
        let side = fresh.whole()?;
        let own = side.facts()?;
        self.put_in_place(self.names.fresh.as_str(), self.names.side.as_str(), &own)?;
        self.side = Some(side);
        Ok(())
    }

    // Gives a file that was made under the one name the other, where the path still leads to the file and nothing has that name.
    fn put_in_place(&self, made: &str, name: &str, own: &FileFacts) -> io::Result<()> {
        expect_free(&self.rt, name)?;
        let found = Found {
            made: expect_own(&self.rt, made, own)?,
            main: self.still_leads()?,
        };
        give_name(&self.rt, made, name, &self.opened, own, &found)
    }

    // Takes a file of that name away, where that is the one of which these are known.
    fn take_own(&self, name: &str, own: &FileFacts) -> io::Result<()> {
        let found = expect_own(&self.rt, name, own)?;
        take_name(&self.rt, name, own, &found)
    }

    // The answer of a call; where it failed, the side file that was being made is removed, as far as the system does that.
    fn left(&mut self, answer: io::Result<()>) -> io::Result<()> {
        if answer.is_err() {
            self.fresh = None;
            let _ = self.rt.remove(self.names.fresh.as_str());
        }
        answer
    }

    /// Takes the side file of that name away, where it is the one that was opened or made.
    pub(crate) fn remove(&mut self) -> io::Result<()> {
        let Some(side) = &self.side else {
            return Err(no_such_call());
        };
        let own = side.facts()?;
        self.take_own(self.names.side.as_str(), &own)?;
        self.side = None;
        Ok(())
    }

    /// Begins a log of commits with these bytes and so many zeros behind them, where the path still leads to the file.
    /// Where that fails, it is removed.
    pub(crate) fn start_log(&mut self, head: &[u8], room: usize) -> io::Result<()> {
        let found = self.still_leads()?;
        let name = self.names.fresh_log.as_str();
        self.logs.start(&self.rt, name, &found, head, room)
    }

    /// Has the device keep it.
    pub(crate) fn finish_log(&mut self) -> io::Result<()> {
        self.logs.finish(self.opened.mode)
    }

    /// Gives it the name that an opening looks for, where the path still leads to the file and nothing has that name.
    pub(crate) fn name_log(&mut self) -> io::Result<()> {
        let log = self.logs.take_made()?;
        let own = log.facts()?;
        self.put_in_place(self.names.fresh_log.as_str(), self.names.log.as_str(), &own)?;
        self.logs.put(log);
        Ok(())
    }

    /// Has the device keep what was written to the log. It fails where an opening would find another log, or another file.
    pub(crate) fn sync_log(&mut self) -> io::Result<()> {
        self.logs.sync()?;
        let names = self.folder.facts()?.changed;
        if self.looked == Some(names) {
            return Ok(());
        }
        let own = self.logs.facts()?;
        expect_own(&self.rt, self.names.log.as_str(), &own)?;
        self.still_leads()?;
        // A later change in the same step of the clock wouldn't be seen.
        if names < own.changed {
            self.looked = Some(names);
        }
        Ok(())
    }

    /// Takes the log of that name away, where it is the one that was opened or made.
    pub(crate) fn remove_log(&mut self) -> io::Result<()> {
        let own = self.logs.facts()?;
        self.take_own(self.names.log.as_str(), &own)?;
        self.logs = LogFiles::new();
        Ok(())
    }

    /// The logs of commits.
    pub(crate) fn logs(&mut self) -> &mut LogFiles<F> {
        &mut self.logs
    }

    /// What the side file of that name says of its length.
    pub(crate) fn shape(&self) -> Option<SideShape>
        ensures { result ≡ option_map (λ side. side.shape) self.now.side }
    {
        match &self.side {
            Some(side) => Some(side.shape()),
            None => None,
        }
    }

    /// Reads the i-th of its old pages, from 0, and answers the number of that page.
    pub(crate) fn read(&self, i: u32, to: &mut [u8; PAGE_WIDTH]) -> io::Result<u32> {
        match &self.side {
            Some(side) => side.read(i, to),
            None => Err(no_such_call()),
        }
    }
}
